// A block judged by itself, whatever file it stood in. Document 02, [10].
ghost use Rattle.std.specs.Prelude.{◌≡◌};
ghost use Rattle.blocks.specs.Alone.{alone_call};

use crate::checks::sums_agree;
use crate::fields::file_fields_fault;
use crate::forms::{Origin, is_named};
use crate::refusals::refused;
use crate::shape::{BLOCK_BYTES, origin_of, well_shaped};
use records::Refusal;

// Refusals 2, 3, 4 and 20 of 512 bytes. The block is a file of its own to the search for a bad field.
fn judge_whole(block: &[u8; BLOCK_BYTES]) -> Result<Origin, Refusal>
    ensures { result ≡ alone_call block.now }
{
    let origin = origin_of(block);
    let form = origin.form;
    if !sums_agree(block) {
        return Err(refused(2, 0));
    }
    if !well_shaped(form, block) {
        return Err(refused(3, 0));
    }
    // The refusal has an arm of its own, which the edit `bad_field_kept` gets wrong.
    match file_fields_fault(block) {
        Err(refusal) => Err(refusal),
        Ok(()) => {
            if !is_named(form, origin.account) {
                return Err(refused(20, 0));
            }
            Ok(origin)
        }
    }
}

// Refusals 1, 2, 3, 4 and 20 of a block by itself, with numbering, order, short-block and limit rules set
// aside, or its form and account. What has not 512 bytes is torn, and is 1.
pub fn judge_block(block: &[u8]) -> Result<Origin, Refusal>
    ensures { result ≡ alone_call block.now }
{
    match block.as_array() {
        Some(whole) => judge_whole(whole),
        None => Err(refused(1, 0)),
    }
}
