// What the calls answer.
ghost use Rattle.std.specs.Prelude.{◌≡◌};
ghost use Rattle.records.specs.Order.{refuse};

use records::{Kind, Refusal};

// The margins of groups, and how many intrinsic values were worked out for them: none where they are refused. `price_groups`
// promises both beside each other, so that this is no Result.
#[derive(Clone, Copy)]
pub struct Priced {
    pub listed: Result<usize, Refusal>,
    pub values: usize,
}

// The refusal with this number and place in the placement table.
pub(crate) fn refused(number: u8, place: usize) -> Refusal
    ensures { result ≡ refuse number 2 place }
{
    Refusal {
        number,
        table: records::table_number(Kind::Placement),
        place,
    }
}

// 17: a lent slice is shorter than what is listed.
pub(crate) fn no_room(entries: usize) -> Refusal
    ensures { result ≡ refuse 17 0 entries }
{
    Refusal {
        number: 17,
        table: 0,
        place: entries,
    }
}
