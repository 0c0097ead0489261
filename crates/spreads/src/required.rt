// The margin of a spread: half the difference for a European long box, its worst loss otherwise.
ghost use Rattle.spreads.specs.Boxes.{margin_of};
ghost use Rattle.spreads.specs.Steps.Found.{PricedAt};
ghost use Rattle.spreads.specs.Steps.Group.{legs_in};

use crate::boxes::box_at;
use crate::prices::Worked;
use crate::spread::Spread;
use crate::walk::worst_at;

// The walk is made of a long box too: its values are among those that are counted.
pub(crate) fn margin_at(spread: &Spread<'_>) -> Worked
    ensures { PricedAt result margin_of (legs_in spread.now.group) }
{
    let walked = worst_at(spread);
    let prices = spread.prices;
    if prices.len() != 2 {
        return walked;
    }
    let low = prices[0];
    let high = prices[1];
    match box_at(&spread.group, low, high) {
        Some(number) => Worked {
            mills: (number * (high - low) as u64 + 1) / 2,
            values: walked.values,
        },
        None => walked,
    }
}
