// A group that is a spread, with its strikes: what the walk, the margin, the worksheet and the cash account go over.
ghost use Rattle.std.specs.Prelude.{◌≡◌};
ghost use Rattle.spreads.specs.Spreads.{group_in};
ghost use Rattle.spreads.specs.Strikes.{strikes_of};
ghost use Rattle.spreads.specs.Steps.Found.{IsFound};
ghost use Rattle.spreads.specs.Steps.Group.{legs_in};

use crate::group::Found;
use crate::members::Group;
use records::MOST_LEGS;

// Its prices are its distinct strikes, ascending.
#[derive(Clone, Copy)]
pub(crate) struct Spread<'a> {
    pub(crate) group: Group<'a>,
    pub(crate) prices: &'a [u32],
    ghost listed: { prices.now ≡ strikes_of (legs_in group) },
}

impl<'a> Spread<'a> {
    // Group g as it was found: its places and its strikes stand first in the lent lists.
    pub(crate) fn of(
        placement: &'a [u8],
        g: usize,
        found: Found,
        members: &'a [u16; MOST_LEGS],
        prices: &'a [u32; MOST_LEGS],
    ) -> Spread<'a>
        requires { IsFound placement.now g found members.now prices.now }
        ensures number { result.group.number ≡ g }
        ensures legs { legs_in result.group ≡ group_in placement.now g }
    {
        let group = Group {
            number: g,
            placement,
            members: &members[..found.legs],
        };
        Spread {
            group,
            prices: &prices[..found.strikes],
        }
    }
}
