// A block's bytes outside its records and checks: 0-15, unused places, 496-507.
ghost use Rattle.std.specs.Prelude.{◌≡◌, ◌≤◌, ◌/◌, length};
ghost use Rattle.blocks.specs.Block.{account_of, form_of, origin_of, head_fits, tail_fits, shaped, number_fits, account_fits, head_of, tail_of};
ghost use Rattle.blocks.specs.File.{blocks_of, counted_as, records_as};

use crate::bytes::all_zero;
use crate::forms::{Form, Frame, Origin, is_named, kept_in, mark_of};
use records::{Kind, RECORD_BYTES};

// Where things stand in a block of 512 bytes: kind and count in its first 16, the records, of 32
// bytes each, from byte 16 on, bytes 496 to 507 after the last of 15, and the checks after those.
pub const BLOCK_BYTES: usize = 512;

// A file has 1 to 39 blocks.
pub(crate) const MOST_BLOCKS: usize = 39;

pub const MOST_FILE_BYTES: usize = BLOCK_BYTES * MOST_BLOCKS;

// One byte more than the longest file, so that a program's input that is longer is seen to be.
pub const INPUT_BYTES: usize = MOST_FILE_BYTES + 1;

const MARK_BYTES: usize = 4;

pub(crate) const KIND_AT: usize = 4;

pub(crate) const COUNT_AT: usize = 5;

pub(crate) const RECORDS_AT: usize = 16;

pub(crate) const TAIL_AT: usize = 496;

const ACCOUNT_END: usize = TAIL_AT + 8;

pub(crate) const CHECK_A_AT: usize = 508;

pub(crate) const CHECK_B_AT: usize = 510;

// A full block has 15 records.
pub(crate) const FULL: u8 = 15;

pub(crate) const FULL_BYTES: usize = FULL as usize * RECORD_BYTES;

// ---- what the writer puts there

// Bytes 0 to 15 of a block.
pub(crate) fn head_bytes(frame: Frame, kind: Kind, count: u8, number: u16) -> [u8; 16]
    ensures { result ≡ head_of frame kind count number }
{
    let origin = frame.origin;
    let mark = mark_of(origin.form);
    let number = number.to_le_bytes();
    let blocks = frame.blocks.to_le_bytes();
    [
        mark[0],
        mark[1],
        mark[2],
        mark[3],
        records::table_number(kind),
        count,
        number[0],
        number[1],
        blocks[0],
        blocks[1],
        0,
        0,
        0,
        0,
        0,
        0,
    ]
}

// Bytes 496 to 507: the account's number, the lowest byte first, and zeros.
pub(crate) fn tail_bytes(account: u64) -> [u8; 12]
    ensures { result ≡ tail_of account }
{
    let mut tail = [0; 12];
    tail[..8].copy_from_slice(&account.to_le_bytes());
    tail
}

// ---- what the reader finds there

// A file's blocks, where they stand. Bytes past the last whole one belong to none.
pub(crate) fn blocks_of(file: &[u8]) -> &[[u8; BLOCK_BYTES]]
    ensures value { result.now ≡ blocks_of file.now }
    ensures count { length result.now ≡ length file.now / 512 }
{
    let (blocks, _) = file.as_chunks();
    blocks
}

// The account's number in bytes 496 to 503, as far as the form keeps one.
fn account_of(form: Form, block: &[u8; BLOCK_BYTES]) -> u64
    ensures { result ≡ account_of form block.now }
{
    let bytes = block[TAIL_AT..].first_chunk().unwrap();
    kept_in(form, u64::from_le_bytes(*bytes))
}

// A block's form by its mark.
fn form_of(block: &[u8; BLOCK_BYTES]) -> Form
    ensures { result ≡ form_of block.now }
{
    let mark = mark_of(Form::New);
    if block[..MARK_BYTES] == mark[..] {
        Form::New
    } else {
        Form::Old
    }
}

pub(crate) fn origin_of(block: &[u8; BLOCK_BYTES]) -> Origin
    ensures { result ≡ origin_of block.now }
{
    let form = form_of(block);
    let account = account_of(form, block);
    Origin { form, account }
}

// How many of a block's records are a table's: all or none.
pub(crate) fn counted_as(table: Kind, kind: u8, count: u8) -> usize
    ensures { (result ≡ counted_as table kind count) × (result ≤ count) }
{
    if kind == records::table_number(table) {
        count as usize
    } else {
        0
    }
}

// A block's records of a kind. Where it counts more than it has room for, its records end with it.
pub(crate) fn records_as(kind: Kind, block: &[u8; BLOCK_BYTES]) -> &[u8]
    ensures value { result.now ≡ records_as kind block.now }
    ensures size { length result.now ≤ 496 }
{
    let count = counted_as(kind, block[KIND_AT], block[COUNT_AT]);
    let bytes = (RECORD_BYTES * count).min(BLOCK_BYTES - RECORDS_AT);
    &block[RECORDS_AT..RECORDS_AT + bytes]
}

// Whether bytes 0 to 5 and 10 to 15 are those of a block of this form.
fn head_fits(form: Form, block: &[u8; BLOCK_BYTES]) -> bool
    ensures { result ≡ head_fits form block.now }
{
    let mark = mark_of(form);
    let kind = block[KIND_AT];
    let count = block[COUNT_AT];
    (block[..MARK_BYTES] == mark[..])
        & ((1 <= kind) & (kind <= 3))
        & ((1 <= count) & (count <= FULL))
        & all_zero(&block[10..RECORDS_AT])
}

// Whether bytes 496 to 507 are an account's number, as far as the form keeps one, and zeros: the number that
// stands there is the one that is kept.
fn tail_fits(form: Form, block: &[u8; BLOCK_BYTES]) -> bool
    ensures { result ≡ tail_fits form block.now }
{
    let account = account_of(Form::New, block);
    (account == kept_in(form, account)) & all_zero(&block[ACCOUNT_END..CHECK_A_AT])
}

// Whether all but numbering, records and checks is as it should be in a block of this form.
pub(crate) fn well_shaped(form: Form, block: &[u8; BLOCK_BYTES]) -> bool
    ensures { result ≡ shaped form block.now }
{
    if head_fits(form, block) {
        let end = RECORDS_AT + RECORD_BYTES * (block[COUNT_AT] as usize);
        return all_zero(&block[end..TAIL_AT]) & tail_fits(form, block);
    }
    false
}

// Whether bytes 6 to 9 say that this is block `number` of so many.
pub(crate) fn number_fits(number: u16, blocks: u16, block: &[u8; BLOCK_BYTES]) -> bool
    ensures { result ≡ number_fits number blocks block.now }
{
    (records::u16_at(block, 6) == number) & (records::u16_at(block, 8) == blocks)
}

// Whether the account is the one given, and not zero in the new form.
pub(crate) fn account_fits(origin: Origin, block: &[u8; BLOCK_BYTES]) -> bool
    ensures { result ≡ account_fits origin block.now }
{
    let form = origin.form;
    let account = account_of(form, block);
    is_named(form, account) & (account == origin.account)
}
