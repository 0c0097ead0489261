// The calls of the library for C and Rust. Slices pass as a pointer and a length. The answer of every
// call but the last two is four words: 0 and the results, or a refusal's number, table and place, and 0;
// the first of them is returned, too. No public function has a `requires`.
#![tactic(auto)]

ghost use Rattle.std.specs.Prelude.{◌≡◌, length};
ghost use Rattle.records.specs.Written.{put_at};
ghost use Rattle.records.specs.declared.tables.Kind.TheVariants.{Holdings, Placement, Claims};
ghost use Rattle.blocks.specs.Forms.{in_old, in_new};
ghost use Rattle.blocks.specs.declared.forms.Form.TheVariants.{Old, New};
ghost use Rattle.spreads.specs.Calls.{margin_call};
ghost use Rattle.spreads.specs.Cash.{cash_call};
ghost use Rattle.sheets.specs.Verdicts.{verdict_of};
ghost use Rattle.verdicts.specs.FileVerdicts.{file_verdict};
ghost use Rattle.verdicts.specs.TableText.{table_text};
ghost use Rattle.usm_c.specs.Answers.{first_word, due_words, verdict_words, table_words};
ghost use Rattle.usm_c.specs.Outcomes.{margins_words, margins_left, worksheet_words, strikes_left, nets_left};
ghost use Rattle.usm_c.specs.Outcomes.{read_words, table_left, origin_left, write_words, out_left, move_words, moved_left};
ghost use Rattle.usm_c.specs.Outcomes.{mark_words, placement_left, play_words, result_left, indices_left, numbers_left};
ghost use Rattle.usm_c.specs.Outcomes.{import_words, import_left, export_words, export_left, salvage_words, sound_left, dropped_left, reasons_left};
ghost use Rattle.usm_c.specs.Outcomes.{position, single_as, pair_as, file_line};

mod kinds;
mod origins;
mod positions;
mod words;

use binaries::Position;
use kinds::check_as;
use origins::{put_origin, write_as};
use positions::{pair_as, single_as};
use verdicts::{LINE_BYTES, TABLE_BYTES};
use words::tell;

// Refusals 1 and 4 of one table, by its number; or how many records it has.
#[unsafe(no_mangle)]
pub extern "C" fn usm_check_table(kind: u64, table: &[u8], answer: &mut [u64; 4]) -> u64
    ensures value { result ≡ first_word answer.new }
    ensures answer_after { answer.new ≡ table_words kind table.now }
{
    tell(check_as(kind, table), answer)
}

// The margin of group g of a placement.
#[unsafe(no_mangle)]
pub extern "C" fn usm_margin(placement: &[u8], g: u64, answer: &mut [u64; 4]) -> u64
    ensures value { result ≡ first_word answer.new }
    ensures answer_after { answer.new ≡ due_words (margin_call placement.now g) }
{
    tell(spreads::margin(placement, g as usize), answer)
}

// The cash required for group g of a placement in a cash account.
#[unsafe(no_mangle)]
pub extern "C" fn usm_cash(placement: &[u8], g: u64, answer: &mut [u64; 4]) -> u64
    ensures value { result ≡ first_word answer.new }
    ensures answer_after { answer.new ≡ due_words (cash_call placement.now g) }
{
    tell(spreads::cash(placement, g as usize), answer)
}

// The margins of groups 1 to n.
#[unsafe(no_mangle)]
pub extern "C" fn usm_margins(
    placement: &[u8],
    n: u64,
    out: &mut [i64],
    answer: &mut [u64; 4],
) -> u64
    ensures value { result ≡ first_word answer.new }
    ensures answer_after { answer.new ≡ margins_words placement.now n out.old }
    ensures out_after { out.new ≡ margins_left placement.now n out.old }
{
    tell(spreads::margins(placement, n as usize, out), answer)
}

// The distinct strikes of group g, and the net at each.
#[unsafe(no_mangle)]
pub extern "C" fn usm_worksheet(
    placement: &[u8],
    g: u64,
    strikes: &mut [u32],
    nets: &mut [i64],
    answer: &mut [u64; 4],
) -> u64
    ensures value { result ≡ first_word answer.new }
    ensures answer_after { answer.new ≡ worksheet_words placement.now g strikes.old nets.old }
    ensures strikes_after { strikes.new ≡ strikes_left placement.now g strikes.old nets.old }
    ensures nets_after { nets.new ≡ nets_left placement.now g strikes.old nets.old }
{
    tell(
        spreads::worksheet(placement, g as usize, strikes, nets),
        answer,
    )
}

// The verdict on the three tables of a sheet.
#[unsafe(no_mangle)]
pub extern "C" fn usm_check_sheet(
    holdings: &[u8],
    placement: &[u8],
    claims: &[u8],
    answer: &mut [u64; 4],
) -> u64
    ensures value { result ≡ first_word answer.new }
    ensures answer_after { answer.new ≡ verdict_words (verdict_of holdings.now placement.now claims.now) }
{
    tell(sheets::check_sheet(holdings, placement, claims), answer)
}

// Sets the paid mark on every unplaced long of a placement, in place: what an old sheet goes through.
#[unsafe(no_mangle)]
pub extern "C" fn usm_mark_paid(placement: &mut [u8], answer: &mut [u64; 4]) -> u64
    ensures value { result ≡ first_word answer.new }
    ensures answer_after { answer.new ≡ mark_words placement.old }
    ensures placement_after { placement.new ≡ placement_left placement.old }
{
    tell(sheets::mark_paid(placement), answer)
}

// The verdict on a sheet file.
#[unsafe(no_mangle)]
pub extern "C" fn usm_check_file(file: &[u8], answer: &mut [u64; 4]) -> u64
    ensures value { result ≡ first_word answer.new }
    ensures answer_after { answer.new ≡ verdict_words (file_verdict file.now) }
{
    tell(verdicts::check_file(file), answer)
}

// The records of a sheet file, into three lent tables, and its form and account.
#[unsafe(no_mangle)]
pub extern "C" fn usm_read_file(
    file: &[u8],
    holdings: &mut [u8],
    placement: &mut [u8],
    claims: &mut [u8],
    origin: &mut [u64; 2],
    answer: &mut [u64; 4],
) -> u64
    ensures value { result ≡ first_word answer.new }
    ensures answer_after { answer.new ≡ read_words file.now holdings.old placement.old claims.old }
    ensures holdings_after { holdings.new ≡ table_left Holdings file.now holdings.old placement.old claims.old }
    ensures placement_after { placement.new ≡ table_left Placement file.now holdings.old placement.old claims.old }
    ensures claims_after { claims.new ≡ table_left Claims file.now holdings.old placement.old claims.old }
    ensures origin_after { origin.new ≡ origin_left file.now holdings.old placement.old claims.old origin.old }
{
    let reading = blocks::read_file(file, holdings, placement, claims);
    put_origin(reading, origin);
    tell(reading, answer)
}

// The file of three tables, in a form and of an account, into a lent buffer.
#[unsafe(no_mangle)]
pub extern "C" fn usm_write_file(
    holdings: &[u8],
    placement: &[u8],
    claims: &[u8],
    form: u64,
    account: u64,
    out: &mut [u8],
    answer: &mut [u64; 4],
) -> u64
    ensures value { result ≡ first_word answer.new }
    ensures answer_after { answer.new ≡ write_words form account holdings.now placement.now claims.now out.old }
    ensures out_after { out.new ≡ out_left form account holdings.now placement.now claims.now out.old }
{
    tell(
        write_as(holdings, placement, claims, form, account, out),
        answer,
    )
}

// A file of the old form, in the new one with this account's number, into a lent buffer.
#[unsafe(no_mangle)]
pub extern "C" fn usm_move_to_new(
    file: &[u8],
    account: u64,
    out: &mut [u8],
    answer: &mut [u64; 4],
) -> u64
    ensures value { result ≡ first_word answer.new }
    ensures answer_after { answer.new ≡ move_words Old (in_new account) file.now out.old }
    ensures out_after { out.new ≡ moved_left Old (in_new account) file.now out.old }
{
    tell(blocks::to_new(file, account, out), answer)
}

// A file of the new form, in the old one, into a lent buffer.
#[unsafe(no_mangle)]
pub extern "C" fn usm_move_to_old(file: &[u8], out: &mut [u8], answer: &mut [u64; 4]) -> u64
    ensures value { result ≡ first_word answer.new }
    ensures answer_after { answer.new ≡ move_words New in_old file.now out.old }
    ensures out_after { out.new ≡ moved_left New in_old file.now out.old }
{
    tell(blocks::to_old(file, out), answer)
}

// The day's fills played over holdings: the table that then stands, and which fills were refused.
#[unsafe(no_mangle)]
pub extern "C" fn usm_play_fills(
    holdings: &[u8],
    fills: &[u8],
    res: &mut [u8],
    indices: &mut [u32],
    numbers: &mut [u8],
    answer: &mut [u64; 4],
) -> u64
    ensures value { result ≡ first_word answer.new }
    ensures answer_after { answer.new ≡ play_words holdings.now fills.now res.old indices.old numbers.old }
    ensures res_after { res.new ≡ result_left holdings.now fills.now res.old indices.old numbers.old }
    ensures indices_after { indices.new ≡ indices_left holdings.now fills.now res.old indices.old numbers.old }
    ensures numbers_after { numbers.new ≡ numbers_left holdings.now fills.now res.old indices.old numbers.old }
{
    tell(fills::play(holdings, fills, res, indices, numbers), answer)
}

// A member's list of option symbols, by a table of roots, into a lent table of holdings.
#[unsafe(no_mangle)]
pub extern "C" fn usm_import(
    roots: &[u8],
    list: &[u8],
    holdings: &mut [u8],
    answer: &mut [u64; 4],
) -> u64
    ensures value { result ≡ first_word answer.new }
    ensures answer_after { answer.new ≡ import_words roots.now list.now holdings.old }
    ensures holdings_after { holdings.new ≡ import_left roots.now list.now holdings.old }
{
    tell(symbols::import(roots, list, holdings), answer)
}

// Holdings, by a table of roots, as a list of option symbols in a lent buffer.
#[unsafe(no_mangle)]
pub extern "C" fn usm_export(
    roots: &[u8],
    holdings: &[u8],
    list: &mut [u8],
    answer: &mut [u64; 4],
) -> u64
    ensures value { result ≡ first_word answer.new }
    ensures answer_after { answer.new ≡ export_words roots.now holdings.now list.old }
    ensures list_after { list.new ≡ export_left roots.now holdings.now list.old }
{
    tell(symbols::export(roots, holdings, list), answer)
}

// A damaged file salvaged: the sound file, and which blocks were dropped.
#[unsafe(no_mangle)]
pub extern "C" fn usm_salvage(
    bytes: &[u8],
    out: &mut [u8],
    indices: &mut [u32],
    numbers: &mut [u8],
    answer: &mut [u64; 4],
) -> u64
    ensures value { result ≡ first_word answer.new }
    ensures answer_after { answer.new ≡ salvage_words bytes.now out.old indices.old numbers.old }
    ensures out_after { out.new ≡ sound_left bytes.now out.old indices.old numbers.old }
    ensures indices_after { indices.new ≡ dropped_left bytes.now out.old indices.old numbers.old }
    ensures numbers_after { numbers.new ≡ reasons_left bytes.now out.old indices.old numbers.old }
{
    tell(salvage::salvage(bytes, out, indices, numbers), answer)
}

// The margin of a position in a credit event binary option, side 1 long or 2 short.
#[unsafe(no_mangle)]
pub extern "C" fn usm_binary_margin(
    side: u64,
    spread: u64,
    valuation: u64,
    expiry: u64,
    contracts: u64,
    answer: &mut [u64; 4],
) -> u64
    ensures value { result ≡ first_word answer.new }
    ensures answer_after { answer.new ≡ due_words (single_as side spread valuation expiry contracts) }
{
    tell(
        single_as(side, spread, valuation, expiry, contracts),
        answer,
    )
}

// The margin of a long and a short position in them together, the long paid in full, 1, or not, 0.
#[unsafe(no_mangle)]
pub extern "C" fn usm_binary_pair(
    valuation: u64,
    long_reference: u64,
    long_spread: u64,
    long_expiry: u64,
    long_contracts: u64,
    long_paid: u64,
    short_reference: u64,
    short_spread: u64,
    short_expiry: u64,
    short_contracts: u64,
    answer: &mut [u64; 4],
) -> u64
    ensures value { result ≡ first_word answer.new }
    ensures answer_after { answer.new ≡ due_words (pair_as valuation
        (position long_reference long_spread long_expiry long_contracts) long_paid
        (position short_reference short_spread short_expiry short_contracts)) }
{
    let long = Position {
        reference: long_reference,
        spread: long_spread,
        expiry: long_expiry,
        contracts: long_contracts,
    };
    let short = Position {
        reference: short_reference,
        spread: short_spread,
        expiry: short_expiry,
        contracts: short_contracts,
    };
    tell(pair_as(valuation, long, long_paid, short), answer)
}

// The line that is printed for a sheet file; the answer is its length.
#[unsafe(no_mangle)]
pub extern "C" fn usm_file_line(file: &[u8], line: &mut [u8; LINE_BYTES]) -> usize
    ensures value { result ≡ length (file_line file.now) }
    ensures line_after { line.new ≡ put_at line.old 0 (file_line file.now) }
{
    verdicts::verdict_line(verdicts::check_file(file), line)
}

// The table that is printed for a sheet file, or the REFUSE line of a refused one; the answer is its length.
#[unsafe(no_mangle)]
pub extern "C" fn usm_file_table(file: &[u8], text: &mut [u8; TABLE_BYTES]) -> usize
    ensures value { result ≡ length (table_text file.now) }
    ensures text_after { text.new ≡ put_at text.old 0 (table_text file.now) }
{
    verdicts::table_text(file, text)
}
