// Form and account as words: form 1 or 2, and the account's number.
ghost use Rattle.std.specs.Prelude.{◌≡◌, length};
ghost use Rattle.usm_c.specs.Answers.{origin_words};
ghost use Rattle.usm_c.specs.Outcomes.{form_of, lent_tables, write_as, written_as};

use crate::words::refusal_of;
use blocks::{Form, Origin, Reading};
use records::Refusal;

// Form and account of what was read; on a refusal nothing is written.
pub(crate) fn put_origin(reading: Result<Reading, Refusal>, origin: &mut [u64; 2])
    ensures { origin.new ≡ origin_words reading origin.old }
{
    if let Ok(found) = reading {
        let form = found.origin.form;
        *origin = [blocks::form_number(form) as u64, found.origin.account];
    }
}

// `TryFrom` cannot be written for a type of another crate.
fn form_of(number: u64) -> Option<Form>
    ensures { result ≡ form_of number }
{
    match number {
        1 => Some(Form::Old),
        2 => Some(Form::New),
        _ => None,
    }
}

// The file of three tables in the form with this number; a number of no form is refusal 1.
pub(crate) fn write_as(
    holdings: &[u8],
    placement: &[u8],
    claims: &[u8],
    form: u64,
    account: u64,
    out: &mut [u8],
) -> Result<usize, Refusal>
    ensures value { result ≡ write_as form account (lent_tables holdings.now placement.now claims.now) (length out.old) }
    ensures out_after { out.new ≡ written_as result form account (lent_tables holdings.now placement.now claims.now) out.old }
{
    let Some(form) = form_of(form) else {
        return Err(refusal_of(1));
    };
    blocks::write_file(holdings, placement, claims, Origin { form, account }, out)
}
