// A leg record: its fields, where they stand in its 32 bytes, and their ranges.
ghost use Rattle.std.specs.Prelude.{◌≡◌, true, ◌&&◌};
ghost use Rattle.records.specs.Bytes.{zero_in};
ghost use Rattle.records.specs.Chunks.{chunk_at};
ghost use Rattle.records.specs.Dates.{real_date};
ghost use Rattle.records.specs.Limits.{most_contracts};
ghost use Rattle.records.specs.Legs.{leg_fields, leg_of, leg_bytes, with_contracts, with_paid, terms_in_range, good_leg};
ghost use Rattle.records.specs.Within.{within};

use crate::counts::Contracts;
use crate::dates::{FIRST_DATE, real_date};
use crate::fields::{u16_in, u32_in, u64_in};
use crate::limits::{MOST_CONTRACTS, RECORD_BYTES};
use crate::parts::records_in;
use crate::within::is_within;

// 'side': 1 long, 2 short
pub const LONG: u8 = 1;

pub const SHORT: u8 = 2;

// 'type': 1 call, 2 put
pub const CALL: u8 = 1;

pub const PUT: u8 = 2;

// 'style': 1 American, 2 European
pub const EUROPEAN: u8 = 2;

// 'settlement': 0 not stated, 1 cash, 2 physical
pub const CASH: u8 = 1;

// 'paid mark': 0 or 1
pub const PAID: u8 = 1;

// The fields with few values stay numbers: `leg_at` promises the fields of any bytes, and there a side may be 7.
#[derive(Clone, Copy, Default)]
pub struct Leg {
    pub group: u16,
    // LONG or SHORT
    pub side: u8,
    // the document's type, CALL or PUT
    pub right: u8,
    // EUROPEAN, or 1 for American
    pub style: u8,
    // 1 listed, 2 OTC
    pub market: u8,
    // the unit size
    pub size: u16,
    pub underlying: u32,
    // in mills for one unit
    pub strike: u32,
    // YYYYMMDD
    pub expiry: u32,
    pub contracts: Contracts,
    // CASH, or 2 for physical, or 0 where it is not stated
    pub settlement: u8,
    // the paid mark: PAID or 0
    pub paid: u8,
}

impl Leg {
    // The same leg with another count of contracts.
    pub fn with_contracts(self, contracts: Contracts) -> Leg
        ensures { result ≡ with_contracts self contracts }
    {
        Leg { contracts, ..self }
    }

    // The same leg with another paid mark.
    pub fn with_paid(self, paid: u8) -> Leg
        ensures { result ≡ with_paid self paid }
    {
        Leg { paid, ..self }
    }
}

fn leg_fields(part: &[u8; RECORD_BYTES]) -> Leg
    ensures { result ≡ leg_fields part.now }
{
    Leg {
        group: u16_in(part, 0),
        side: part[2],
        right: part[3],
        style: part[4],
        market: part[5],
        size: u16_in(part, 6),
        underlying: u32_in(part, 8),
        strike: u32_in(part, 12),
        expiry: u32_in(part, 16),
        contracts: Contracts(u32_in(part, 20)),
        settlement: part[24],
        paid: part[25],
    }
}

// Leg i of a table; past the last whole record a blank, all zero. `claim_at` differs by the record that it makes.
pub fn leg_at(table: &[u8], i: usize) -> Leg
    ensures { result ≡ leg_of (chunk_at 32 table.now i) }
{
    match records_in(table).get(i) {
        Some(part) => leg_fields(part),
        None => Leg::default(),
    }
}

// The 32 bytes that say a leg's fields; the filler is zero.
pub fn leg_bytes(leg: Leg) -> [u8; 32]
    ensures { result ≡ leg_bytes leg }
{
    let strike = leg.strike.to_le_bytes();
    let mut bytes = [0; RECORD_BYTES];
    bytes[0..2].copy_from_slice(&leg.group.to_le_bytes());
    bytes[2] = leg.side;
    bytes[3] = leg.right;
    bytes[4] = leg.style;
    bytes[5] = leg.market;
    bytes[6..8].copy_from_slice(&leg.size.to_le_bytes());
    bytes[8..12].copy_from_slice(&leg.underlying.to_le_bytes());
    // One by one, so that the edit `leg_bytes_order` gets one byte wrong and no other.
    bytes[12..16].copy_from_slice(&[strike[0], strike[1], strike[2], strike[3]]);
    bytes[16..20].copy_from_slice(&leg.expiry.to_le_bytes());
    bytes[20..24].copy_from_slice(&leg.contracts.0.to_le_bytes());
    bytes[24] = leg.settlement;
    bytes[25] = leg.paid;
    bytes
}

fn terms_in_range(top: u16, leg: Leg) -> bool
    ensures { result ≡ terms_in_range top leg }
{
    is_within(0, top as u32, leg.group as u32)
        & is_within(1, 2, leg.side as u32)
        & is_within(1, 2, leg.right as u32)
        & is_within(1, 2, leg.style as u32)
        & is_within(1, 2, leg.market as u32)
        & is_within(1, 1000, leg.size as u32)
        & is_within(1, 4294967295, leg.underlying)
        & is_within(1, 99999999, leg.strike)
}

fn rest_in_range(leg: Leg) -> bool
    ensures { result ≡ (within 1 most_contracts leg.contracts.0 && within 0 2 leg.settlement && within 0 1 leg.paid) }
{
    is_within(1, MOST_CONTRACTS, leg.contracts.number())
        & is_within(0, 2, leg.settlement as u32)
        & is_within(0, 1, leg.paid as u32)
}

// The filler is zero just where the number of the last eight bytes is that of their first two.
fn zero_filler(part: &[u8; RECORD_BYTES]) -> bool
    ensures { result ≡ zero_in part.now 26 31 }
{
    u64_in(part, 24) == u16_in(part, 24) as u64
}

// Whether a record has each field in its range and a group of at most `top`. The date takes the longest: it is looked
// at only where all else is right, and not worked out again where it is one known to be real. Inlined, since it stands
// in the loop over a table: full sheets and files written take a tenth longer otherwise.
#[inline(always)]
pub(crate) fn good_leg_beside(known: u32, top: u16, part: &[u8; RECORD_BYTES]) -> bool
    requires { real_date known ≡ true }
    ensures { result ≡ good_leg top part.now }
{
    let leg = leg_fields(part);
    if terms_in_range(top, leg) & rest_in_range(leg) & zero_filler(part) {
        return leg.expiry == known || real_date(leg.expiry);
    }
    false
}

pub(crate) fn good_leg(top: u16, part: &[u8; RECORD_BYTES]) -> bool
    ensures { result ≡ good_leg top part.now }
{
    good_leg_beside(FIRST_DATE, top, part)
}

pub(crate) fn expiry_in(part: &[u8; RECORD_BYTES]) -> u32
    ensures { result ≡ (leg_of part.now).expiry }
{
    u32_in(part, 16)
}
