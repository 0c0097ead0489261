// A check, and its refusal.
ghost use Rattle.std.specs.Prelude.{◌≡◌, [], ◌∷◌};
ghost use Rattle.records.specs.Order.{ask, first_of};

use records::Refusal;

// The refusal, where what is asked does not hold.
pub(crate) fn ask(holds: bool, number: u8, table: u8, place: usize) -> Result<(), Refusal>
    ensures { result ≡ first_of (ask holds number table place ∷ []) }
{
    if holds {
        return Ok(());
    }
    Err(Refusal {
        number,
        table,
        place,
    })
}
