// The two public calls.
ghost use Rattle.std.specs.Prelude.{◌≡◌, [], ◌∷◌};
ghost use Rattle.records.specs.Order.{ask, first_of};
ghost use Rattle.binaries.specs.Calls.{single_checks, pair_checks, single_call, pair_call};

use crate::margins::{margin_of, margin_of_pair};
use crate::percentages::Side;
use crate::positions::{LongPosition, Position};
use crate::times::{Date, is_date};
use records::Refusal;

// Where a refusal stands: a position by itself and the long of a pair, then the short of a pair.
const LONG_PLACE: usize = 0;

const SHORT_PLACE: usize = 1;

// 'a field or date'
const FIELD: u8 = 4;

// 'expiry before the valuation date'
const EXPIRED: u8 = 25;

// The refusal, where what is asked does not hold.
fn ask(holds: bool, number: u8, place: usize) -> Result<(), Refusal>
    ensures { result ≡ first_of (ask holds number 0 place ∷ []) }
{
    if holds {
        return Ok(());
    }
    Err(Refusal {
        number,
        table: 0,
        place,
    })
}

fn single_fault(valuation: u64, position: Position) -> Result<(), Refusal>
    ensures { result ≡ first_of (single_checks position.spread valuation position.expiry position.contracts) }
{
    ask(is_date(valuation) & position.is_good(), FIELD, LONG_PLACE)?;
    ask(valuation <= position.expiry, EXPIRED, LONG_PLACE)
}

fn pair_fault(valuation: u64, long: Position, short: Position) -> Result<(), Refusal>
    ensures { result ≡ first_of (pair_checks valuation long short) }
{
    ask(is_date(valuation) & long.is_good(), FIELD, LONG_PLACE)?;
    ask(short.is_good(), FIELD, SHORT_PLACE)?;
    ask(valuation <= long.expiry, EXPIRED, LONG_PLACE)?;
    ask(valuation <= short.expiry, EXPIRED, SHORT_PLACE)
}

// The margin of a position by itself.
pub fn binary_margin(
    side: Side,
    spread: u64,
    valuation: u64,
    expiry: u64,
    contracts: u64,
) -> Result<i64, Refusal>
    ensures { result ≡ single_call side spread valuation expiry contracts }
{
    // By itself it stands against no other, whatever its obligation.
    let position = Position {
        reference: 0,
        spread,
        expiry,
        contracts,
    };
    single_fault(valuation, position)?;
    let date = Date { day: valuation };
    Ok(margin_of(side, date, position) as i64)
}

// The margin of a long and a short position together.
pub fn pair_margin(valuation: u64, long: LongPosition, short: Position) -> Result<i64, Refusal>
    ensures { result ≡ pair_call valuation long short }
{
    pair_fault(valuation, long.position, short)?;
    let date = Date { day: valuation };
    Ok(margin_of_pair(date, long, short) as i64)
}
