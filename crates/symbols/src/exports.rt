// Export: holdings made into a list of symbols.
ghost use Rattle.std.specs.Prelude.{◌≡◌, ◌+◌, ◌≤◌, [], ◌∷◌, true, is_ok, length, take};
ghost use Rattle.records.specs.Order.{first_of};
ghost use Rattle.records.specs.Written.{put_at, left_after};
ghost use Rattle.symbols.specs.Calls.{list_room, record_checks, line_of_record, lines_for, export_answer, export_call, list_of, has_exported};
ghost use Rattle.symbols.specs.Steps.Taken.{given, records_answer, RecordsTaken, list_answer};

use crate::lent::hand_over;
use crate::lines::{LONGEST_LINE, put_line};
use crate::refusals::{LIST_TABLE, refused};
use crate::roots::{Root, find_terms, good_roots, terms_of};
use records::{Kind, MOST_LEGS, PAID, RECORD_BYTES, Refusal};

// Room for the lines of as many records as holdings may have.
const LINE_ROOM: usize = LONGEST_LINE * MOST_LEGS;

type Record = [u8; RECORD_BYTES];

// Refusal 4 or 24 of record i; else writes its line from index `at` on, and answers the index past it.
fn take_record(
    roots: &[Root],
    part: &Record,
    i: usize,
    text: &mut [u8],
    at: usize,
) -> Result<usize, Refusal>
    requires { at + 31 ≤ length text.old }
    ensures value { result ≡ given (first_of (record_checks roots.now i (part.now ∷ []))) (at + length (line_of_record roots.now part.now)) }
    ensures text_after { is_ok result ≡ true → text.new ≡ put_at text.old at (line_of_record roots.now part.now) }
{
    let leg = records::leg_at(part, 0);
    let good = records::good_record(Kind::Holdings, part) & !(leg.paid == PAID);
    if !good {
        return Err(refused(4, records::table_number(Kind::Holdings), i));
    }
    match find_terms(roots, terms_of(leg)) {
        Some(root) => Ok(put_line(root, leg, text, at)),
        None => Err(refused(24, records::table_number(Kind::Holdings), i)),
    }
}

// Takes the records in their order, their lines from byte 0 of `text` on.
fn take_records(
    roots: &[Root],
    records: &[Record],
    text: &mut [u8; LINE_ROOM],
) -> Result<usize, Refusal>
    requires { length records.now ≤ 256 }
    ensures value { result ≡ records_answer roots.now records.now }
    ensures records_taken { RecordsTaken roots.now records.now result text.old text.new }
{
    let mut at = 0;
    for (i, record) in records.iter().enumerate() {
        at = take_record(roots, record, i, text, at)?;
    }
    Ok(at)
}

// The lines stand in a text of their own until every record is judged.
fn export_records(roots: &[Root], records: &[Record], list: &mut [u8]) -> Result<usize, Refusal>
    requires { length records.now ≤ 256 }
    ensures value { result ≡ list_answer roots.now records.now (length list.old) }
    ensures list_after { list.new ≡ left_after (has_exported result) (lines_for roots.now records.now) list.old }
{
    let mut text = [0u8; LINE_ROOM];
    let n = take_records(roots, records, &mut text)?;
    hand_over(&text[..n], list, LIST_TABLE)?;
    Ok(n)
}

// Makes holdings into a list of symbols: a line for each record, in their order, from byte 0 of the lent
// list; what lies past them stays. On a refusal nothing is written.
pub fn export(roots: &[u8], holdings: &[u8], list: &mut [u8]) -> Result<usize, Refusal>
    ensures value { result ≡ export_call roots.now holdings.now (length list.old) }
    ensures list_after { list.new ≡ left_after (has_exported result) (list_of roots.now holdings.now) list.old }
{
    let roots = good_roots(roots)?;
    if !records::whole_table(Kind::Holdings, holdings.len()) {
        return Err(refused(1, 0, 0));
    }
    let (records, _) = holdings.as_chunks::<RECORD_BYTES>();
    export_records(roots, records, list)
}
