// Import: a list of symbols made into holdings.
ghost use Rattle.std.specs.Prelude.{◌≡◌, ◌*◌, ◌≤◌, [], ◌∷◌, length, take};
ghost use Rattle.records.specs.Order.{first_of};
ghost use Rattle.records.specs.Written.{left_after};
ghost use Rattle.symbols.specs.Calls.{record_room, leg_of_line, line_checks, records_for, import_answer, import_call, holdings_of, has_imported};
ghost use Rattle.symbols.specs.Lines.{lines_of};
ghost use Rattle.symbols.specs.Steps.Taken.{given, lines_answer, LinesTaken, table_answer};

use crate::lent::hand_over;
use crate::lines::{line_in_range, line_leg, line_says, well_formed};
use crate::refusals::{LIST_TABLE, refused};
use crate::roots::{Root, find_name, good_roots, root_terms};
use records::{Kind, Leg, MOST_LEGS, RECORD_BYTES, Refusal};

// Room for as many records as holdings may have.
const RECORD_ROOM: usize = RECORD_BYTES * MOST_LEGS;

// Refusal 22, 4 or 24 of line i; else the leg that it says.
fn take_line(roots: &[Root], line: &[u8], i: usize) -> Result<Leg, Refusal>
    ensures { result ≡ given (first_of (line_checks roots.now i (line.now ∷ []))) (leg_of_line roots.now line.now) }
{
    if !well_formed(line) {
        return Err(refused(22, LIST_TABLE, i));
    }
    let said = line_says(line);
    if !line_in_range(said) {
        return Err(refused(4, LIST_TABLE, i));
    }
    match find_name(roots, line) {
        Some(root) => Ok(line_leg(root_terms(root), said)),
        None => Err(refused(24, LIST_TABLE, i)),
    }
}

// Takes the lines in their order, the records of the first 256 from byte 0 of `rows` on, and answers how
// many there are. Every line is judged, also past those.
fn take_lines(roots: &[Root], list: &[u8], rows: &mut [u8; RECORD_ROOM]) -> Result<usize, Refusal>
    ensures value { result ≡ lines_answer roots.now list.now }
    ensures lines_taken { LinesTaken roots.now list.now result rows.old rows.new }
{
    let mut n = 0;
    for line in list.split_inclusive(|c| *c == b'\n') {
        let leg = take_line(roots, line, n)?;
        if n < MOST_LEGS {
            records::copy_to(rows, RECORD_BYTES * n, &records::leg_bytes(leg));
        }
        n += 1;
    }
    Ok(n)
}

// Refusal 1 for too many lines, then 17; else copies the records into the lent table.
fn put_rows(rows: &[u8; RECORD_ROOM], n: usize, holdings: &mut [u8]) -> Result<usize, Refusal>
    ensures value { result ≡ import_answer (first_of (record_room n (length holdings.old))) n }
    ensures holdings_after { holdings.new ≡ left_after (has_imported result) (take (32 * n) rows.now) holdings.old }
{
    if MOST_LEGS < n {
        return Err(refused(1, 0, 0));
    }
    hand_over(
        &rows[..RECORD_BYTES * n],
        holdings,
        records::table_number(Kind::Holdings),
    )?;
    Ok(n)
}

// The records stand in rows of their own until every line is judged.
fn import_lines(roots: &[Root], list: &[u8], holdings: &mut [u8]) -> Result<usize, Refusal>
    ensures value { result ≡ table_answer roots.now list.now (length holdings.old) }
    ensures holdings_after { holdings.new ≡ left_after (has_imported result) (records_for roots.now (lines_of list.now)) holdings.old }
{
    let mut rows = [0u8; RECORD_ROOM];
    let n = take_lines(roots, list, &mut rows)?;
    put_rows(&rows, n, holdings)
}

// Makes a list of symbols into holdings: a record for each line, in their order, from byte 0 of the lent
// table; what lies past them stays. On a refusal nothing is written.
pub fn import(roots: &[u8], list: &[u8], holdings: &mut [u8]) -> Result<usize, Refusal>
    ensures value { result ≡ import_call roots.now list.now (length holdings.old) }
    ensures holdings_after { holdings.new ≡ left_after (has_imported result) (holdings_of roots.now list.now) holdings.old }
{
    let roots = good_roots(roots)?;
    import_lines(roots, list, holdings)
}
