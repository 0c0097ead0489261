// The pieces that printed lines are made of. A piece is written from an index on, and answers the index past
// it, where the next piece starts.
ghost use Rattle.std.specs.Prelude.{◌≡◌, [], ◌∷◌, ◌++◌, ◌+◌, ◌≤◌, ◌<◌, nat_abs, length};
ghost use Rattle.verdicts.specs.Printed.{amount_of, decimal_of};
ghost use Rattle.verdicts.specs.Steps.Pieces.{Piece};

pub(crate) fn put_byte(byte: u8, out: &mut [u8], at: usize) -> usize
    requires { at < length out.old }
    ensures { Piece out.old at (byte ∷ []) result out.new }
{
    out[at] = byte;
    at + 1
}

pub(crate) fn put_text(text: &[u8], out: &mut [u8], at: usize) -> usize
    requires { at + length text.now ≤ length out.old }
    ensures { Piece out.old at text.now result out.new }
{
    records::copy_to(out, at, text);
    at + text.len()
}

// The digits of a tenth come first, then the last digit, where they end. A loop would need the number of digits first.
fn put_decimal(n: u64, out: &mut [u8], at: usize) -> usize
    requires { at + length (decimal_of n) ≤ length out.old }
    ensures { Piece out.old at (decimal_of n) result out.new }
{
    if n < 10 {
        return put_byte(48 + n as u8, out, at);
    }
    let last = put_decimal(n / 10, out, at);
    put_byte(48 + (n % 10) as u8, out, last)
}

// How far an amount is from zero; that of the lowest one fits too.
pub fn magnitude(mills: i64) -> u64
    ensures { result ≡ nat_abs mills }
{
    mills.unsigned_abs()
}

// A signed amount: a negative one is a '-' and its magnitude. What it has in common with a count is `put_decimal`.
pub(crate) fn put_amount(mills: i64, out: &mut [u8], at: usize) -> usize
    requires { at + length (amount_of mills) ≤ length out.old }
    ensures { Piece out.old at (amount_of mills) result out.new }
{
    let size = magnitude(mills);
    if mills < 0 {
        let next = put_byte(b'-', out, at);
        return put_decimal(size, out, next);
    }
    put_decimal(size, out, at)
}

// A count and the byte that ends it: a space, or the newline after the last one.
pub(crate) fn put_count(n: u64, ending: u8, out: &mut [u8], at: usize) -> usize
    requires { at + length (decimal_of n) < length out.old }
    ensures { Piece out.old at (decimal_of n ++ (ending ∷ [])) result out.new }
{
    let next = put_decimal(n, out, at);
    put_byte(ending, out, next)
}
