// Refusal 15, for what is neither placed nor a long that is marked as paid; and the pass over an old sheet, which sets the
// mark on every unplaced long of its placement.
ghost use Rattle.std.specs.Prelude.{◌≡◌, ◌≤◌, length};
ghost use Rattle.records.specs.Legs.{leg_of};
ghost use Rattle.records.specs.Order.{first_of};
ghost use Rattle.records.specs.Tables.{legs_of};
ghost use Rattle.records.specs.Written.{left_after};
ghost use Rattle.sheets.specs.Sheets.{unpaid_long, placed_or_paid, ask_placed};
ghost use Rattle.sheets.specs.Marks.{marked_record, marked_placement, marks_in, pass_call, has_marked};

use crate::places::refuse_first;
use records::{Kind, LONG, Leg, PAID, RECORD_BYTES, Refusal, SHORT};

// Where the mark stands in a record.
const PAID_AT: usize = 25;

// Whether the leg is an unplaced long with no mark. By `&&`, and the group first: it tells most legs by itself.
fn unpaid_long(leg: Leg) -> bool
    ensures { result ≡ unpaid_long leg }
{
    (leg.group == 0) && (leg.side == LONG) && !(leg.paid == PAID)
}

// Whether the leg is neither that nor an unplaced short.
fn placed_or_paid(leg: Leg) -> bool
    ensures { result ≡ placed_or_paid leg }
{
    !((leg.side == SHORT) & (leg.group == 0)) & !unpaid_long(leg)
}

// Refusal 15: the first record with group 0 that is a short, or a long with no mark.
pub(crate) fn placed_fault(placement: &[u8]) -> Result<(), Refusal>
    ensures { result ≡ first_of (ask_placed (legs_of placement.now)) }
{
    refuse_first(
        15,
        Kind::Placement,
        0,
        placement.len() / RECORD_BYTES,
        |i| { placed_or_paid(records::leg_at(placement, i)) },
    )
}

// Sets the mark on a record that is an unplaced long without it, and answers whether it did.
fn mark_record(part: &mut [u8]) -> bool
    requires { length part.old ≡ 32 }
    ensures value { result ≡ unpaid_long (leg_of part.old) }
    ensures part_after { part.new ≡ marked_record part.old }
{
    let unpaid = unpaid_long(records::leg_at(part, 0));
    if unpaid {
        part[PAID_AT] = PAID;
    }
    unpaid
}

// Each record where it stands: its 32-byte part of the caller's slice is lent.
fn mark_records(placement: &mut [u8]) -> usize
    requires { length placement.old ≤ 8192 }
    ensures value { result ≡ marks_in placement.old }
    ensures placement_after { placement.new ≡ marked_placement placement.old }
{
    let mut marks: usize = 0;
    for i in 0..placement.len() / RECORD_BYTES {
        let at = RECORD_BYTES * i;
        let marked = mark_record(&mut placement[at..at + RECORD_BYTES]);
        marks += marked as usize;
    }
    marks
}

// Sets the mark on every unplaced long of the placement, in place. On a refusal nothing is written.
pub fn mark_paid(placement: &mut [u8]) -> Result<usize, Refusal>
    ensures value { result ≡ pass_call placement.old }
    ensures placement_after { placement.new ≡ left_after (has_marked result) (marked_placement placement.old) placement.old }
{
    records::check_table(Kind::Placement, placement)?;
    Ok(mark_records(placement))
}
