// The records of both tables taken as one row, holdings first.
ghost use Rattle.std.specs.Prelude.{◌≡◌, ◌≤◌, ◌/◌, length};
ghost use Rattle.sheets.specs.Steps.Pooled.{pooled_leg, pooled_records, most_pooled, most_leg_bytes, FieldsGood};

use records::{Leg, MOST_LEGS, RECORD_BYTES};

// Most records of both tables, and how many are few or some. Lists are lent in three sizes: they have to be cleared, and
// that would take longer than the rest of the work where there are few records.
pub(crate) const MOST_POOLED: usize = MOST_LEGS + MOST_LEGS;

pub(crate) const SOME_POOLED: usize = 128;

pub(crate) const FEW_POOLED: usize = 32;

// Holdings and placement that have passed 1 and 4.
#[derive(Clone, Copy)]
pub(crate) struct Pooled<'a> {
    pub(crate) holdings: &'a [u8],
    pub(crate) placement: &'a [u8],
    ghost good: { FieldsGood holdings.now placement.now },
    ghost short: { (length holdings.now ≤ most_leg_bytes) × (length placement.now ≤ most_leg_bytes) },
}

impl<'a> Pooled<'a> {
    // Where the records of the placement begin.
    pub(crate) fn held(&self) -> usize
        ensures { result ≡ length self.now.holdings.now / 32 }
    {
        self.holdings.len() / RECORD_BYTES
    }

    pub(crate) fn len(&self) -> usize
        ensures { (result ≡ pooled_records self.now.holdings.now self.now.placement.now) × (result ≤ most_pooled) }
    {
        self.held() + self.placement.len() / RECORD_BYTES
    }

    // Record k of both.
    pub(crate) fn leg(&self, k: usize) -> Leg
        ensures { result ≡ pooled_leg self.now.holdings.now self.now.placement.now k }
    {
        let held = self.held();
        if k < held {
            return records::leg_at(self.holdings, k);
        }
        records::leg_at(self.placement, k - held)
    }
}
