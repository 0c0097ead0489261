// Refusals, and the tables that they name.
ghost use Rattle.std.specs.Prelude.{◌≡◌};
ghost use Rattle.records.specs.Order.{refuse};

use records::Refusal;

// The number by which a refusal names the table of roots.
pub(crate) const ROOTS_TABLE: u8 = 5;

// The number by which a refusal names the list.
pub(crate) const LIST_TABLE: u8 = 6;

pub(crate) fn refused(number: u8, table: u8, place: usize) -> Refusal
    ensures { result ≡ refuse number table place }
{
    Refusal {
        number,
        table,
        place,
    }
}
