// Refusals of a file or of a block.
ghost use Rattle.std.specs.Prelude.{◌≡◌};
ghost use Rattle.records.specs.Order.{refuse};

use records::Refusal;

// A refusal of the file or of a block, and so of no table.
pub(crate) fn refused(number: u8, place: usize) -> Refusal
    ensures { result ≡ refuse number 0 place }
{
    Refusal {
        number,
        table: 0,
        place,
    }
}
