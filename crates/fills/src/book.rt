// What stands of the records gone over. Holdings and fills are taken as one row of records. A row is a record of which some
// contracts are held, and stands where the record does; one that is closed to zero leaves its bucket. A link is to a record,
// counted from 1, or to none, 0: there is one for each bucket, and one for each record, to the next of its bucket.
ghost use Rattle.std.specs.Prelude.{◌≡◌, ◌≤◌, length, Ok};
ghost use Rattle.records.specs.Order.{first_of};
ghost use Rattle.fills.specs.Calls.{play_start};
ghost use Rattle.fills.specs.Steps.Links.{leg_in_play, most_records};
ghost use Rattle.fills.specs.Steps.Played.{StandTo};

use crate::fill::MOST_FILLS;
use records::{Leg, MOST_LEGS, RECORD_BYTES};

// The records of both tables, and their links.
pub(crate) const MOST_RECORDS: usize = MOST_LEGS + MOST_FILLS;

pub(crate) const BUCKETS: usize = 1024;

pub(crate) const MOST_LINKS: usize = BUCKETS + MOST_RECORDS;

// The call's own, so that the result is written only with what stands at the end.
#[derive(Drop)]
pub(crate) struct Book<'a> {
    pub(crate) holdings: &'a [u8],
    pub(crate) fills: &'a [u8],
    // of each record, how many contracts are held; links are apart from it, since each bucket has one too
    pub(crate) held: [u32; MOST_RECORDS],
    pub(crate) links: [u16; MOST_LINKS],
    // how many records are gone over
    pub(crate) gone: usize,
    pub(crate) rows: usize,
    ghost tables: { first_of (play_start holdings.now fills.now) ≡ Ok tt },
    ghost within: { gone ≤ most_records },
    ghost stand: { StandTo holdings.now fills.now gone held links rows },
}

impl<'a> Book<'a> {
    // Record k of both tables: a holding without its mark, or a fill.
    pub(crate) fn leg(&self, k: usize) -> Leg
        ensures { result ≡ leg_in_play self.now.holdings.now self.now.fills.now k }
    {
        let before = self.holdings.len() / RECORD_BYTES;
        if k < before {
            return records::leg_at(self.holdings, k).with_paid(0);
        }
        records::leg_at(self.fills, k - before)
    }
}
