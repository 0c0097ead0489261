// The salvage of a damaged file.
ghost use Rattle.std.specs.Prelude.{◌≡◌, ◌≤◌, length, Ok, Some};
ghost use Rattle.records.specs.Listed.{indices_of, numbers_of};
ghost use Rattle.records.specs.Order.{refuse, first_of};
ghost use Rattle.records.specs.Written.{left_after};
ghost use Rattle.blocks.specs.File.{tables, tables_in, blocks_of, file_of};
ghost use Rattle.blocks.specs.Writer.{write_checks};
ghost use Rattle.salvage.specs.Pieces.{pieces_of};
ghost use Rattle.salvage.specs.Kept.{lead_of, dropped_in, sound_file};
ghost use Rattle.salvage.specs.Calls.{salvage_room, salvage_call, has_saved};
ghost use Rattle.salvage.specs.Steps.AllKept.{AllKept};
ghost use Rattle.salvage.specs.Steps.Saving.{saved_answer, kept_answer};

use crate::indices::copy_indices;
use crate::pieces::Pieces;
use crate::sorter::sort_pieces;
use blocks::{BLOCK_BYTES, MOST_FILE_BYTES, Origin};
use records::{Kind, MOST_CLAIMS, MOST_LEGS, RECORD_BYTES, Refusal};

// The bytes of the sound file and the entries of the list.
#[derive(Clone, Copy)]
pub struct Saved {
    pub bytes: usize,
    pub entries: usize,
}

const MOST_PIECES: usize = MOST_FILE_BYTES / BLOCK_BYTES;

// A refusal of no table.
fn refused(number: u8, place: usize) -> Refusal
    ensures { result ≡ refuse number 0 place }
{
    Refusal {
        number,
        table: 0,
        place,
    }
}

// Refusal 17: the file, then the list.
fn room_fault(
    bytes: usize,
    entries: usize,
    out: usize,
    indices: usize,
    numbers: usize,
) -> Result<(), Refusal>
    ensures { result ≡ first_of (salvage_room bytes entries out indices numbers) }
{
    if out < bytes {
        return Err(refused(17, bytes));
    }
    if (entries <= indices) & (entries <= numbers) {
        return Ok(());
    }
    Err(refused(17, entries))
}

// Refusal 17, and otherwise the file of three tables, which has no refusal left, and the list. Index and number stand in
// two lists, and not in one of pairs, as C lends them to `salvage` (`usm_salvage`).
fn put_saved(
    holdings: &[u8],
    placement: &[u8],
    claims: &[u8],
    lead: Origin,
    dropped: &[u32],
    reasons: &[u8],
    out: &mut [u8],
    indices: &mut [u32],
    numbers: &mut [u8],
) -> Result<Saved, Refusal>
    requires claims_value { first_of (write_checks lead (tables holdings.now placement.now claims.now)) ≡ Ok tt }
    requires reasons_len { length reasons.now ≡ length dropped.now }
    ensures value { result ≡ saved_answer (file_of lead (tables holdings.now placement.now claims.now))
        dropped.now out.old indices.old numbers.old }
    ensures out_after { out.new ≡ left_after (has_saved result)
        (file_of lead (tables holdings.now placement.now claims.now)) out.old }
    ensures indices_after { indices.new ≡ left_after (has_saved result) dropped.now indices.old }
    ensures numbers_after { numbers.new ≡ left_after (has_saved result) reasons.now numbers.old }
{
    let need = blocks::file_bytes(holdings.len(), placement.len(), claims.len());
    let entries = dropped.len();
    room_fault(need, entries, out.len(), indices.len(), numbers.len())?;
    let _ = blocks::write_file(holdings, placement, claims, lead, out);
    copy_indices(indices, dropped);
    numbers[..entries].copy_from_slice(reasons);
    Ok(Saved {
        bytes: need,
        entries,
    })
}

// Refusal 3, then 17, of kept blocks that stand one after the other; otherwise their records by kind, in a
// file of their own, and the list.
fn save_kept(
    kept: &[u8],
    lead: Origin,
    dropped: &[u32],
    reasons: &[u8],
    out: &mut [u8],
    indices: &mut [u32],
    numbers: &mut [u8],
) -> Result<Saved, Refusal>
    requires all_kept { AllKept lead (blocks_of kept.now) × (1 ≤ length (blocks_of kept.now)) }
    requires reasons_len { length reasons.now ≡ length dropped.now }
    ensures value { result ≡ kept_answer lead kept.now
        dropped.now out.old indices.old numbers.old }
    ensures out_after { out.new ≡ left_after (has_saved result) (file_of lead (tables_in kept.now)) out.old }
    ensures indices_after { indices.new ≡ left_after (has_saved result) dropped.now indices.old }
    ensures numbers_after { numbers.new ≡ left_after (has_saved result) reasons.now numbers.old }
{
    let mut holdings = [0u8; RECORD_BYTES * MOST_LEGS];
    let mut placement = [0u8; RECORD_BYTES * MOST_LEGS];
    let mut claims = [0u8; RECORD_BYTES * MOST_CLAIMS];
    let h = blocks::copy_table(kept, Kind::Holdings, &mut holdings);
    let p = blocks::copy_table(kept, Kind::Placement, &mut placement);
    let c = blocks::copy_table(kept, Kind::Claims, &mut claims);
    if !records::whole_tables(h, p, c) {
        return Err(refused(3, 0));
    }
    put_saved(
        &holdings[..h],
        &placement[..p],
        &claims[..c],
        lead,
        dropped,
        reasons,
        out,
        indices,
        numbers,
    )
}

// Sorts the pieces into memory of its own, so that nothing lent is written before all is known.
fn save_pieces(
    pieces: &Pieces,
    lead: Origin,
    out: &mut [u8],
    indices: &mut [u32],
    numbers: &mut [u8],
) -> Result<Saved, Refusal>
    requires { (1 ≤ length pieces.now.bytes.now) × (lead_of (pieces_of pieces.now.bytes.now) ≡ Some lead) }
    ensures value { result ≡ salvage_call pieces.now.bytes.now (length out.old) (length indices.old) (length numbers.old) }
    ensures out_after { out.new ≡ left_after (has_saved result) (sound_file pieces.now.bytes.now) out.old }
    ensures indices_after { indices.new ≡ left_after (has_saved result) (indices_of (dropped_in pieces.now.bytes.now)) indices.old }
    ensures numbers_after { numbers.new ≡ left_after (has_saved result) (numbers_of (dropped_in pieces.now.bytes.now)) numbers.old }
{
    let mut kept = [0u8; MOST_FILE_BYTES];
    let mut dropped = [0u32; MOST_PIECES];
    let mut reasons = [0u8; MOST_PIECES];
    let sorted = sort_pieces(pieces, lead, &mut kept, &mut dropped, &mut reasons);
    let end = BLOCK_BYTES * sorted.kept;
    let entries = sorted.dropped;
    save_kept(
        &kept[..end],
        lead,
        &dropped[..entries],
        &reasons[..entries],
        out,
        indices,
        numbers,
    )
}

// Keeps each block of a damaged file that is sound by itself and of the form and account of the first such
// one. The sound file of their records goes to `out`, the index and the number of each piece that was
// dropped to the two lists, all from index 0; what lies past them stays. On a refusal nothing is written. The lists are two,
// and so is what is made of them before, since C lends them so (`usm_salvage`).
pub fn salvage(
    bytes: &[u8],
    out: &mut [u8],
    indices: &mut [u32],
    numbers: &mut [u8],
) -> Result<Saved, Refusal>
    ensures value { result ≡ salvage_call bytes.now (length out.old) (length indices.old) (length numbers.old) }
    ensures out_after { out.new ≡ left_after (has_saved result) (sound_file bytes.now) out.old }
    ensures indices_after { indices.new ≡ left_after (has_saved result) (indices_of (dropped_in bytes.now)) indices.old }
    ensures numbers_after { numbers.new ≡ left_after (has_saved result) (numbers_of (dropped_in bytes.now)) numbers.old }
{
    if !((1 <= bytes.len()) & (bytes.len() <= MOST_FILE_BYTES)) {
        return Err(refused(1, 0));
    }
    let pieces = Pieces { bytes };
    match pieces.find_lead() {
        None => Err(refused(2, 0)),
        Some(lead) => save_pieces(&pieces, lead, out, indices, numbers),
    }
}
