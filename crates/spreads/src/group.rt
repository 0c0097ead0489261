// One group of a checked placement: its legs, its strikes and its first refusal are found once, and handed on.
ghost use Rattle.std.specs.Prelude.{◌≡◌, Err, MatchResult};
ghost use Rattle.records.specs.Order.{first_of};
ghost use Rattle.records.specs.Tables.{legs_of};
ghost use Rattle.spreads.specs.Spreads.{group_rule};
ghost use Rattle.spreads.specs.Steps.Found.{IsFound};

use crate::checked::CheckedPlacement;
use crate::links::Links;
use crate::members::Group;
use crate::rule::group_fault;
use crate::strikes::list_strikes;
use records::{MOST_LEGS, Refusal};

// How many legs and how many distinct strikes a group has that is a spread: the lists of them are lent, since there is no heap.
#[derive(Clone, Copy)]
pub struct Found {
    pub legs: usize,
    pub strikes: usize,
}

// Of group g: the places of its legs and its strikes from index 0 on.
pub(crate) fn find_group(
    links: &Links<'_>,
    g: usize,
    members: &mut [u16; MOST_LEGS],
    prices: &mut [u32; MOST_LEGS],
) -> Result<Found, Refusal>
    ensures { MatchResult result
        (λ found. IsFound links.now.placement.bytes.now g found members.new prices.new)
        (λ refusal. first_of (group_rule g (legs_of links.now.placement.bytes.now)) ≡ Err refusal) }
{
    let legs = links.find_members(g, members);
    let group = Group {
        number: g,
        placement: links.placement.bytes,
        members: &members[..legs],
    };
    let strikes = list_strikes(&group, prices);
    group_fault(&group, strikes)?;
    Ok(Found { legs, strikes })
}

// The same where no other group is asked about.
pub(crate) fn find_alone(
    placement: &CheckedPlacement<'_>,
    g: usize,
    members: &mut [u16; MOST_LEGS],
    prices: &mut [u32; MOST_LEGS],
) -> Result<Found, Refusal>
    ensures { MatchResult result
        (λ found. IsFound placement.now.bytes.now g found members.new prices.new)
        (λ refusal. first_of (group_rule g (legs_of placement.now.bytes.now)) ≡ Err refusal) }
{
    find_group(&Links::of(placement), g, members, prices)
}
