// The pieces sorted: those that are kept are copied one after the other, those that are dropped are listed.
ghost use Rattle.std.specs.Prelude.{◌≡◌, ◌+◌, ◌≤◌, length};
ghost use mathlib.Core.List.{flatten};
ghost use Rattle.records.specs.Listed.{indices_of, numbers_of};
ghost use Rattle.records.specs.Written.{put_at};
ghost use Rattle.blocks.specs.Sizes.{most_blocks, most_file_bytes};
ghost use Rattle.salvage.specs.Pieces.{pieces_of};
ghost use Rattle.salvage.specs.Kept.{kept_of, dropped_of};

use crate::pieces::Pieces;
use blocks::{BLOCK_BYTES, Origin};

// How many pieces are kept, and how many are dropped.
#[derive(Clone, Copy)]
pub(crate) struct Sorted {
    pub(crate) kept: usize,
    pub(crate) dropped: usize,
}

// Each piece is judged once. All three slices are the caller's own, with room for the most pieces, so that
// nothing lent is written before all is known.
pub(crate) fn sort_pieces(
    pieces: &Pieces,
    lead: Origin,
    kept: &mut [u8],
    indices: &mut [u32],
    numbers: &mut [u8],
) -> Sorted
    requires { (most_file_bytes ≤ length kept.old) ×
        (most_blocks ≤ length indices.old) × (most_blocks ≤ length numbers.old) }
    ensures few { result.kept + result.dropped ≤ most_blocks }
    ensures kept_value { result.kept ≡ length (kept_of lead (pieces_of pieces.now.bytes.now)) }
    ensures dropped_value { result.dropped ≡ length (dropped_of lead 0 (pieces_of pieces.now.bytes.now)) }
    ensures kept_after { kept.new ≡ put_at kept.old 0 (flatten (kept_of lead (pieces_of pieces.now.bytes.now))) }
    ensures indices_after { indices.new ≡ put_at indices.old 0 (indices_of (dropped_of lead 0 (pieces_of pieces.now.bytes.now))) }
    ensures numbers_after { numbers.new ≡ put_at numbers.old 0 (numbers_of (dropped_of lead 0 (pieces_of pieces.now.bytes.now))) }
{
    let n = pieces.count();
    let mut held: usize = 0;
    let mut listed: usize = 0;
    for i in 0..n {
        match pieces.drop_number(i, lead) {
            None => {
                let at = BLOCK_BYTES * i;
                let piece = &pieces.bytes[at..at + BLOCK_BYTES];
                records::copy_to(kept, BLOCK_BYTES * held, piece);
                held += 1;
            }
            Some(number) => {
                indices[listed] = i as u32;
                numbers[listed] = number;
                listed += 1;
            }
        }
    }
    Sorted {
        kept: held,
        dropped: listed,
    }
}
