// Reads a sheet file on standard input and prints its table, or the REFUSE line of a refused one. Nothing
// but glue: what matters is proved in `verdicts` and below it.
#![tactic(auto)]

use blocks::INPUT_BYTES;
use verdicts::TABLE_BYTES;

// The standard streams, by their numbers. std's streams would not do the same: their `write_all` tries again what a signal
// interrupts, `read_exact` does not say how much came before the end, and `read_to_end` needs a heap.
const STDIN: i32 = 0;

const STDOUT: i32 = 1;

fn main() {
    let mut input = [0u8; INPUT_BYTES];
    let n = io::read_full(STDIN, &mut input);
    let mut text = [0u8; TABLE_BYTES];
    let k = verdicts::table_text(&input[..n], &mut text);
    io::write_all(STDOUT, &text[..k]);
}
