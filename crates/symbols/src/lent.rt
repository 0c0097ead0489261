// What a call leaves in the slice that it is lent.
ghost use Rattle.std.specs.Prelude.{◌≡◌, length, leb, is_ok, [], ◌∷◌};
ghost use Rattle.records.specs.Order.{ask, first_of};
ghost use Rattle.records.specs.Written.{left_after};

use crate::refusals::refused;
use records::Refusal;

// Refusal 17 of the lent slice that is called so in refusals; else copies `made` into it.
pub(crate) fn hand_over(made: &[u8], lent: &mut [u8], table: u8) -> Result<(), Refusal>
    ensures value { result ≡ first_of (ask (leb (length made.now) (length lent.old)) 17 table (length made.now) ∷ []) }
    ensures lent_after { lent.new ≡ left_after (is_ok result) made.now lent.old }
{
    if lent.len() < made.len() {
        return Err(refused(17, table, made.len()));
    }
    records::copy_to(lent, 0, made);
    Ok(())
}
