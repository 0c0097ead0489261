// 'Point at the leg': document 02, request 14. Only a group that is refused is walked once more, for its leg.
ghost use Rattle.std.specs.Prelude.{◌≡◌, length};
ghost use Rattle.records.specs.Tables.{legs_of};
ghost use Rattle.spreads.specs.Steps.Group.{legs_in};
ghost use Rattle.spreads.specs.Steps.Search.{first_pair};
ghost use Rattle.spreads.specs.Steps.Pointing.{points_at_leg, condition_of, place_of, Breaks, index_in, broken_at, broken_by, facts_broken};

use crate::facts::Facts;
use crate::members::Group;

// '7, 8, 9, 10 and 13'; 6, 11 and 12 still name the group.
fn points_at_leg(number: u8) -> bool
    ensures { result ≡ points_at_leg number }
{
    matches!(number, 7..=10 | 13)
}

// Whether the facts so far break what 7, 8, 9 or 13 asks, by its number.
fn is_broken(number: u8, facts: Facts) -> bool
    ensures { result ≡ broken_by number facts }
{
    match number {
        7 => facts.firsts.underlyings_differ,
        8 => facts.firsts.styles_differ,
        9 => facts.firsts.markets_differ,
        _ => facts.lives.earliest_long < facts.lives.latest_short,
    }
}

// The index of the leg with which the facts so far first break it.
fn first_breaking(group: &Group<'_>, number: u8) -> Option<usize>
    ensures { result ≡ index_in (length (legs_in group.now)) (facts_broken number (legs_in group.now)) }
{
    let mut facts = Facts::none();
    for i in 0..group.len() {
        facts = facts.with_leg(group.leg(i));
        if is_broken(number, facts) {
            return Some(i);
        }
    }
    None
}

// The same of 10 too, whose pair was found: it is complete with its later leg.
fn broken_leg(group: &Group<'_>, pair: Option<(usize, usize)>, number: u8) -> Option<usize>
    requires { pair ≡ first_pair (legs_in group.now) }
    ensures { result ≡ index_in (length (legs_in group.now)) (broken_at (condition_of number) (legs_in group.now)) }
{
    if number == 10 {
        let (later, _) = pair?;
        return Some(later);
    }
    first_breaking(group, number)
}

// The place of the refusal of a group with this number: of a leg, or the group itself.
pub(crate) fn place_of(group: &Group<'_>, pair: Option<(usize, usize)>, number: u8) -> usize
    requires pair_value { pair ≡ first_pair (legs_in group.now) }
    requires breaks { Breaks number (legs_in group.now) }
    ensures { result ≡ place_of number group.now.number (legs_of group.now.placement.now) }
{
    if !points_at_leg(number) {
        return group.number;
    }
    match broken_leg(group, pair, number) {
        Some(leg) => group.members[leg] as usize,
        None => group.number,
    }
}
