// The kind of a table as a number: 1 holdings, 2 placement, 3 claims.
ghost use Rattle.std.specs.Prelude.{◌≡◌};
ghost use Rattle.usm_c.specs.Answers.{kind_of, table_as};

use crate::words::refusal_of;
use records::{Kind, Refusal};

// `TryFrom` cannot be written for a type of another crate.
fn kind_of(number: u64) -> Option<Kind>
    ensures { result ≡ kind_of number }
{
    match number {
        1 => Some(Kind::Holdings),
        2 => Some(Kind::Placement),
        3 => Some(Kind::Claims),
        _ => None,
    }
}

pub(crate) fn check_as(kind: u64, table: &[u8]) -> Result<usize, Refusal>
    ensures { result ≡ table_as kind table.now }
{
    let Some(kind) = kind_of(kind) else {
        return Err(refusal_of(1));
    };
    records::check_table(kind, table)
}
