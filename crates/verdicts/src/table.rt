// The table of a sheet as a customer reads it: each group's margin, and the net at each of its strikes.
// Document 02, [1].
ghost use Rattle.std.specs.Prelude.{◌≡◌, ◌+◌, ◌≤◌, length};
ghost use Rattle.records.specs.Written.{put_at};
ghost use Rattle.spreads.specs.Spreads.{group_in};
ghost use Rattle.spreads.specs.Boxes.{margin_of};
ghost use Rattle.verdicts.specs.Steps.Pieces.{Piece};
ghost use Rattle.verdicts.specs.TableText.{group_line, group_text, shown_of, strike_line, strike_lines, table_text};
ghost use Rattle.verdicts.specs.Steps.Groups.{GroupPasses, ShownBy, group_table, groups_text, worksheet_lines};

use crate::file::{CLAIMS_BYTES, LEGS_BYTES, Scanned};
use crate::line::refuse_line;
use crate::pieces::{put_amount, put_byte, put_count, put_text};
use records::{MOST_LEGS, RECORD_BYTES};

// Room for every table: none is longer than 8,608 bytes.
pub const TABLE_BYTES: usize = 8704;

fn put_group_line(g: u64, margin: u64, out: &mut [u8], at: usize) -> usize
    requires { at + length (group_line g margin) ≤ length out.old }
    ensures { Piece out.old at (group_line g margin) result out.new }
{
    let first = put_text(b"GROUP ", out, at);
    let last = put_count(g, b' ', out, first);
    put_count(margin, b'\n', out, last)
}

fn put_strike_line(strike: u64, net: i64, out: &mut [u8], at: usize) -> usize
    requires { at + length (strike_line strike net) ≤ length out.old }
    ensures { Piece out.old at (strike_line strike net) result out.new }
{
    let first = put_count(strike, b' ', out, at);
    let last = put_amount(net, out, first);
    put_byte(b'\n', out, last)
}

// A line for each strike and the net at the same index.
fn put_strike_lines(strikes: &[u32], nets: &[i64], out: &mut [u8], at: usize) -> usize
    requires nets_len { (length nets.now ≡ length strikes.now) × (length strikes.now ≤ 256) }
    requires nets_in_bounds { at + length (strike_lines strikes.now nets.now) ≤ length out.old }
    ensures { Piece out.old at (strike_lines strikes.now nets.now) result out.new }
{
    let mut next = at;
    for i in 0..strikes.len() {
        next = put_strike_line(strikes[i] as u64, nets[i], out, next);
    }
    next
}

// The lines under the margin of a spread. No placement has more strikes than the lists have room for. They are two, side by
// side, as `spreads::worksheet` fills them.
fn put_worksheet(placement: &[u8], g: usize, out: &mut [u8], at: usize) -> usize
    requires group_passes { GroupPasses placement.now g }
    requires g_in_bounds { at + length (worksheet_lines placement.now g) ≤ length out.old }
    ensures { Piece out.old at (worksheet_lines placement.now g) result out.new }
{
    let mut strikes = [0u32; MOST_LEGS];
    let mut nets = [0i64; MOST_LEGS];
    match spreads::worksheet(placement, g, &mut strikes, &mut nets) {
        Ok(n) => put_strike_lines(&strikes[..n], &nets[..n], out, at),
        // A spread of a checked placement is never refused.
        Err(_) => at,
    }
}

// The records of group g, one after the other from byte 0 of a lent table on, and how many bytes they are.
fn copy_group(placement: &[u8], g: usize, table: &mut [u8; LEGS_BYTES]) -> usize
    requires { length placement.now ≤ 8192 }
    ensures { Piece table.old 0 (group_table placement.now g) result table.new }
{
    let mut next: usize = 0;
    for place in 0..placement.len() / RECORD_BYTES {
        if records::leg_at(placement, place).group as usize == g {
            let at = RECORD_BYTES * place;
            let end = at + RECORD_BYTES;
            next = put_text(&placement[at..end], table, next);
        }
    }
    next
}

// The worksheet is asked for of a table of the group's records alone: the call looks at every record that it is given.
fn put_group(
    placement: &[u8],
    g: usize,
    margin: u64,
    table: &mut [u8; LEGS_BYTES],
    out: &mut [u8],
    at: usize,
) -> usize
    requires group_passes { GroupPasses placement.now g × (margin ≡ margin_of (group_in placement.now g)) }
    requires g_in_bounds { at + length (group_text (shown_of g (group_in placement.now g))) ≤ length out.old }
    ensures { Piece out.old at (group_text (shown_of g (group_in placement.now g))) result out.new }
{
    let first = put_group_line(g as u64, margin, out, at);
    let bytes = copy_group(placement, g, table);
    put_worksheet(&table[..bytes], g, out, first)
}

// Every group of an accepted sheet, whose claims are the margins. The lent table has room for the records of each.
fn put_groups(
    placement: &[u8],
    claims: &[u8],
    table: &mut [u8; LEGS_BYTES],
    out: &mut [u8; TABLE_BYTES],
) -> usize
    requires { ShownBy placement.now claims.now }
    ensures { Piece out.old 0 (groups_text placement.now claims.now) result out.new }
{
    let mut next: usize = 0;
    for k in 0..claims.len() / RECORD_BYTES {
        let claim = records::claim_at(claims, k);
        next = put_group(placement, k + 1, claim.margin, table, out, next);
    }
    next
}

// The text of a file of good blocks, by its tables. Once the sheet is judged the table of the holdings is free for the
// records of a group, so that no more is cleared.
fn read_table(scanned: &Scanned<'_>, out: &mut [u8; TABLE_BYTES]) -> usize
    ensures { Piece out.old 0 (table_text scanned.now.file.now) result out.new }
{
    let mut holdings = [0u8; LEGS_BYTES];
    let mut placement = [0u8; LEGS_BYTES];
    let mut claims = [0u8; CLAIMS_BYTES];
    let p = RECORD_BYTES * scanned.counts.placement;
    let c = RECORD_BYTES * scanned.counts.claims;
    match scanned.check_copied(&mut holdings, &mut placement, &mut claims) {
        Err(refusal) => refuse_line(refusal, out),
        Ok(_) => put_groups(&placement[..p], &claims[..c], &mut holdings, out),
    }
}

// Puts the table of a sheet file of either form at the start of `out` and answers its length, or the REFUSE line of a
// refused one; the bytes past it stay. The file is read and judged once.
pub fn table_text(file: &[u8], out: &mut [u8; TABLE_BYTES]) -> usize
    ensures value { result ≡ length (table_text file.now) }
    ensures out_after { out.new ≡ put_at out.old 0 (table_text file.now) }
{
    match blocks::scan_file(file) {
        Err(refusal) => refuse_line(refusal, out),
        Ok(found) => {
            let scanned = Scanned {
                file,
                counts: found.counts,
            };
            read_table(&scanned, out)
        }
    }
}
