// The bench: reads sheet files, one after another, on standard input, and prints for each its line
// and its table. Nothing but glue: what matters is proved in `verdicts` and below it.
//
// Bytes 8 and 9 of a file's first block say how many blocks the file has. Where they say none, or
// more than there are, what is left is one file, judged as it stands, and the last one.
#![tactic(auto)]

ghost use Rattle.std.specs.Prelude.{◌≤◌, ◌<◌, length};

use blocks::BLOCK_BYTES;
use verdicts::{LINE_BYTES, TABLE_BYTES};

// The standard streams, by their numbers. std's streams would not do the same: their `write_all` tries again what a signal
// interrupts, `read_exact` does not say how much came before the end, and `read_to_end` needs a heap.
const STDIN: i32 = 0;

const STDOUT: i32 = 1;

// The longest input; what is longer is cut.
const LONGEST_INPUT: usize = 131072;

const BLOCKS_AT: usize = 8;

// How many bytes the first file of the input has.
fn first_bytes(input: &[u8]) -> usize
    requires { 0 < length input.now }
    ensures { (0 < result) × (result ≤ length input.now) }
{
    let bytes = BLOCK_BYTES * (records::u16_at(input, BLOCKS_AT) as usize);
    if 0 < bytes && bytes <= input.len() {
        return bytes;
    }
    input.len()
}

fn print_line(file: &[u8]) {
    let verdict = verdicts::check_file(file);
    let mut line = [0u8; LINE_BYTES];
    let k = verdicts::verdict_line(verdict, &mut line);
    io::write_all(STDOUT, &line[..k]);
}

fn print_table(file: &[u8]) {
    let mut text = [0u8; TABLE_BYTES];
    let k = verdicts::table_text(file, &mut text);
    io::write_all(STDOUT, &text[..k]);
}

// The files have lengths of their own, so no `chunks` gives them.
fn print_all(input: &[u8]) {
    let mut rest = input;
    while !rest.is_empty() {
        let (file, others) = rest.split_at(first_bytes(rest));
        print_line(file);
        print_table(file);
        rest = others;
    }
}

fn main() {
    let mut input = [0u8; LONGEST_INPUT];
    let n = io::read_full(STDIN, &mut input);
    print_all(&input[..n]);
}
