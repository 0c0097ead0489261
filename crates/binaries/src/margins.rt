// The margin of a position, and of a long and a short together.
ghost use Rattle.std.specs.Prelude.{◌≡◌, true, ◌≤◌};
ghost use Rattle.records.specs.Dates.{real_date};
ghost use Rattle.binaries.specs.Margins.{margin_for, pair_margin};

use crate::percentages::{Side, row_of, tenths_at};
use crate::positions::{LongPosition, Position, matched_in};
use crate::times::{Date, column_of};

// A tenth of a percent of the 1,000 dollar settlement, in mills.
const MILLS_A_TENTH: u64 = 1000;

// In mills.
pub(crate) fn margin_of(side: Side, valuation: Date, position: Position) -> u64
    requires { (real_date position.expiry ≡ true) × (position.contracts ≤ 100000) }
    ensures { (result ≡ margin_for side valuation.day position position.contracts) × (result ≤ 30000000000) }
{
    let expiry = Date {
        day: position.expiry,
    };
    let tenths = tenths_at(side, row_of(position.spread), column_of(valuation, expiry));
    position.contracts * (MILLS_A_TENTH * (tenths as u64))
}

// What is not matched keeps its percentage.
pub(crate) fn margin_of_pair(valuation: Date, long: LongPosition, short: Position) -> u64
    requires expiry_value { (real_date long.position.expiry ≡ true) × (long.position.contracts ≤ 100000) }
    requires expiry_value_2 { (real_date short.expiry ≡ true) × (short.contracts ≤ 100000) }
    ensures { (result ≡ pair_margin valuation.day long short) × (result ≤ 60000000000) }
{
    let matched = matched_in(long, short);
    margin_of(Side::Long, valuation, long.position.less(matched))
        + margin_of(Side::Short, valuation, short.less(matched))
}
