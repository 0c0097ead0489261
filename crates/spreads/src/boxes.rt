// 'European long boxes': document 02, request 2.
ghost use Rattle.std.specs.Prelude.{◌≡◌, ◌≤◌, length};
ghost use Rattle.spreads.specs.Steps.Group.{legs_in};
ghost use Rattle.spreads.specs.Boxes.{is_box_leg};
ghost use Rattle.spreads.specs.Steps.Boxed.{fits_box, no_kinds, with_kind, are_even, boxed_at};

use crate::fact_parts::Sides;
use crate::members::Group;
use records::{CALL, EUROPEAN, LONG, Leg, PUT, SHORT};

// The units of the four kinds, of legs that all fit: each right and side has one strike.
#[derive(Clone, Copy)]
pub struct Kinds {
    calls: Sides,
    puts: Sides,
}

impl Kinds {
    fn none() -> Kinds
        ensures { result ≡ no_kinds }
    {
        Kinds {
            calls: Sides::none(),
            puts: Sides::none(),
        }
    }

    // The kinds with one leg more.
    #[tactic(auto, unfolding(crate::specs::Steps::Boxed::with_kind))]
    fn with_leg(mut self, leg: Leg) -> Kinds
        ensures { result ≡ with_kind self leg }
    {
        let units = leg.contracts.units(leg.size);
        self.calls = self.calls.with_units(leg.right == CALL, leg.side, units);
        self.puts = self.puts.with_units(leg.right == PUT, leg.side, units);
        self
    }

    // As many units of each kind.
    fn even(self) -> bool
        ensures { result ≡ are_even self }
    {
        self.calls.balanced()
            & self.puts.balanced()
            & (self.puts.long.number() == self.calls.long.number())
    }
}

// Of one of the four kinds.
#[tactic(auto, unfolding(crate::specs::Boxes::is_box_leg))]
fn is_box_leg(low: u32, high: u32, leg: Leg) -> bool
    ensures { result ≡ is_box_leg low high leg }
{
    let long = leg.side == LONG;
    let short = leg.side == SHORT;
    let call = leg.right == CALL;
    let put = leg.right == PUT;
    let at_low = leg.strike == low;
    let at_high = leg.strike == high;
    (long & call & at_low)
        | (short & call & at_high)
        | (long & put & at_high)
        | (short & put & at_low)
}

// European, of this expiry, and of one of the four kinds.
fn fits_box(low: u32, high: u32, expiry: u32, leg: Leg) -> bool
    ensures { result ≡ fits_box low high expiry leg }
{
    (leg.style == EUROPEAN) & (leg.expiry == expiry) & is_box_leg(low, high, leg)
}

// The units of a group's legs, where they are a long box with these strikes. One walk, left at the first leg
// that does not fit: of an American group that is the first.
pub(crate) fn box_at(group: &Group<'_>, low: u32, high: u32) -> Option<u64>
    requires { 1 ≤ length group.now.members.now }
    ensures { result ≡ boxed_at low high (legs_in group.now) }
{
    let expiry = group.leg(0).expiry;
    let mut kinds = Kinds::none();
    for i in 0..group.len() {
        let leg = group.leg(i);
        if !fits_box(low, high, expiry, leg) {
            return None;
        }
        kinds = kinds.with_leg(leg);
    }
    if (low < high) & kinds.even() {
        return Some(kinds.calls.long.number());
    }
    None
}
