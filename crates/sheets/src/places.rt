// A search through the places of a table's records, whatever is asked of each.
ghost use Rattle.std.specs.Prelude.{ℕ, ◌≤◌, ◌<◌};
ghost use Rattle.records.specs.Tables.{table_number};
ghost use Rattle.sheets.specs.Steps.Places.{FirstRefused};

use records::{Kind, Refusal};

// The first place from `first` on and before `end` that fails a test, as the refusal with this number there.
pub(crate) fn refuse_first<F: Fn(usize) -> bool>(
    number: u8,
    kind: Kind,
    first: usize,
    end: usize,
    good: F,
) -> Result<(), Refusal>
    requires { (i : ℕ) → first ≤ i → i < end → F.pre good i }
    ensures { FirstRefused (F.post good) number (table_number kind) first end result }
{
    for place in first..end {
        if !good(place) {
            return Err(Refusal {
                number,
                table: records::table_number(kind),
                place,
            });
        }
    }
    Ok(())
}
