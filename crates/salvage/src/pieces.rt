// The bytes in pieces of a block's size, each judged by itself.
ghost use Rattle.std.specs.Prelude.{◌≡◌, ◌≤◌, ◌<◌, length};
ghost use Rattle.records.specs.Chunks.{chunk_at};
ghost use Rattle.blocks.specs.Sizes.{most_file_bytes};
ghost use Rattle.blocks.specs.Alone.{alone_call};
ghost use Rattle.salvage.specs.Pieces.{piece_count, pieces_of};
ghost use Rattle.salvage.specs.Kept.{lead_of};
ghost use Rattle.salvage.specs.Steps.AllKept.{dropped_with};

use blocks::{BLOCK_BYTES, Origin};
use records::Refusal;

// No more bytes than a file may have, in pieces: the last may be torn.
#[derive(Clone, Copy)]
pub(crate) struct Pieces<'a> {
    pub(crate) bytes: &'a [u8],
    ghost few: { length bytes.now ≤ most_file_bytes },
}

impl<'a> Pieces<'a> {
    pub(crate) fn count(&self) -> usize
        ensures { result ≡ piece_count (length self.now.bytes.now) }
    {
        self.bytes.len().div_ceil(BLOCK_BYTES)
    }

    fn judge(&self, i: usize) -> Result<Origin, Refusal>
        requires { i < piece_count (length self.now.bytes.now) }
        ensures { result ≡ alone_call (chunk_at 512 self.now.bytes.now i) }
    {
        let at = BLOCK_BYTES * i;
        let end = (at + BLOCK_BYTES).min(self.bytes.len());
        blocks::judge_block(&self.bytes[at..end])
    }

    // The first sound piece sets form and account.
    pub(crate) fn find_lead(&self) -> Option<Origin>
        ensures { result ≡ lead_of (pieces_of self.now.bytes.now) }
    {
        let n = self.count();
        for i in 0..n {
            if let Ok(origin) = self.judge(i) {
                return Some(origin);
            }
        }
        None
    }

    // The number that piece i is dropped with where the first kept block has this form and account; `None` where it
    // is kept.
    pub(crate) fn drop_number(&self, i: usize, lead: Origin) -> Option<u8>
        requires { i < piece_count (length self.now.bytes.now) }
        ensures { result ≡ dropped_with lead (chunk_at 512 self.now.bytes.now i) }
    {
        match self.judge(i) {
            Err(refusal) => Some(refusal.number),
            Ok(origin) => { if origin == lead { None } else { Some(20) } }
        }
    }
}
