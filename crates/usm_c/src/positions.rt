// Positions in credit event binary options as numbers: side 1 long or 2 short, paid in full 1 or not 0; any other number
// is a field out of range.
ghost use Rattle.std.specs.Prelude.{◌≡◌};
ghost use Rattle.usm_c.specs.Outcomes.{side_of, paid_of, single_as, pair_as};

use crate::words::refusal_of;
use binaries::{LongPosition, Position, Side};
use records::Refusal;

// `TryFrom` cannot be written for a type of another crate.
fn side_of(number: u64) -> Option<Side>
    ensures { result ≡ side_of number }
{
    match number {
        1 => Some(Side::Long),
        2 => Some(Side::Short),
        _ => None,
    }
}

fn paid_of(number: u64) -> Option<bool>
    ensures { result ≡ paid_of number }
{
    match number {
        0 => Some(false),
        1 => Some(true),
        _ => None,
    }
}

pub(crate) fn single_as(
    side: u64,
    spread: u64,
    valuation: u64,
    expiry: u64,
    contracts: u64,
) -> Result<i64, Refusal>
    ensures { result ≡ single_as side spread valuation expiry contracts }
{
    let Some(side) = side_of(side) else {
        return Err(refusal_of(4));
    };
    binaries::binary_margin(side, spread, valuation, expiry, contracts)
}

// A field of the long is refused before anything else.
pub(crate) fn pair_as(
    valuation: u64,
    long: Position,
    paid: u64,
    short: Position,
) -> Result<i64, Refusal>
    ensures { result ≡ pair_as valuation long paid short }
{
    let Some(paid) = paid_of(paid) else {
        return Err(refusal_of(4));
    };
    let bought = LongPosition {
        position: long,
        paid,
    };
    binaries::pair_margin(valuation, bought, short)
}
