// A claim record: 0-1 group, 8-15 margin, zero elsewhere.
ghost use Rattle.std.specs.Prelude.{◌≡◌};
ghost use Rattle.records.specs.Chunks.{chunk_at};
ghost use Rattle.records.specs.Claims.{claim_fields, claim_of, good_claim};

use crate::fields::{u16_in, u32_in, u64_in};
use crate::limits::{MOST_GROUPS, MOST_MILLS, RECORD_BYTES};
use crate::parts::records_in;
use crate::within::is_within;

#[derive(Clone, Copy, Default)]
pub struct Claim {
    pub group: u16,
    // in mills
    pub margin: u64,
}

fn claim_fields(part: &[u8; RECORD_BYTES]) -> Claim
    ensures { result ≡ claim_fields part.now }
{
    Claim {
        group: u16_in(part, 0),
        margin: u64_in(part, 8),
    }
}

// Claim i of a table; past the last whole record a blank, all zero. `leg_at` differs by the record that it makes: one function
// for both would ask more lines of a trait than it has.
pub fn claim_at(table: &[u8], i: usize) -> Claim
    ensures { result ≡ claim_of (chunk_at 32 table.now i) }
{
    match records_in(table).get(i) {
        Some(part) => claim_fields(part),
        None => Claim::default(),
    }
}

pub(crate) fn good_claim(part: &[u8; RECORD_BYTES]) -> bool
    ensures { result ≡ good_claim part.now }
{
    let claim = claim_fields(part);
    is_within(1, MOST_GROUPS as u32, claim.group as u32)
        & ((u16_in(part, 2) == 0) & (u32_in(part, 4) == 0))
        & (claim.margin <= MOST_MILLS)
        & ((u64_in(part, 16) == 0) & (u64_in(part, 24) == 0))
}
