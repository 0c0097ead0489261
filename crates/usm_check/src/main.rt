// Reads a sheet file on standard input and prints its verdict as one line. Nothing but glue: what
// matters is proved in `verdicts` and below it.
#![tactic(auto)]

use blocks::INPUT_BYTES;
use verdicts::LINE_BYTES;

// The standard streams, by their numbers. std's streams would not do the same: their `write_all` tries again what a signal
// interrupts, `read_exact` does not say how much came before the end, and `read_to_end` needs a heap.
const STDIN: i32 = 0;

const STDOUT: i32 = 1;

fn main() {
    let mut input = [0u8; INPUT_BYTES];
    let n = io::read_full(STDIN, &mut input);
    let verdict = verdicts::check_file(&input[..n]);
    let mut line = [0u8; LINE_BYTES];
    let k = verdicts::verdict_line(verdict, &mut line);
    io::write_all(STDOUT, &line[..k]);
}
