// The six characters of a root: tested and compared.
ghost use Rattle.std.specs.Prelude.{◌≡◌, ◌≤◌, length, take};
ghost use Rattle.records.specs.Bytes.{le_at};
ghost use Rattle.records.specs.Lists.{same, all_of};
ghost use Rattle.symbols.specs.Digits.{is_blank, is_letter};
ghost use Rattle.symbols.specs.Roots.{padded, good_name};

use crate::digits::is_digit;

// How many characters of an entry, and of a symbol, are its root.
pub(crate) const NAME_BYTES: usize = 6;

fn is_letter(c: u8) -> bool
    ensures { result ≡ is_letter c }
{
    (b'A' <= c) & (c <= b'Z')
}

fn all_blank(part: &[u8]) -> bool
    ensures { result ≡ all_of is_blank part.now }
{
    part.iter().all(|c| *c == b' ')
}

fn is_padded(name: &[u8]) -> bool
    ensures { result ≡ padded name.now }
{
    for (i, c) in name.iter().enumerate() {
        if *c == b' ' {
            return all_blank(&name[i + 1..]);
        }
        if !(is_letter(*c) | is_digit(*c)) {
            return false;
        }
    }
    true
}

// Whether six characters are a root, padded right with blanks.
pub(crate) fn good_name(name: &[u8]) -> bool
    ensures { result ≡ good_name name.now }
{
    if name.len() != NAME_BYTES {
        return false;
    }
    is_letter(name[0]) & is_padded(name)
}

// The first six characters of a part as one number, of four and of two: what is read at once.
fn name_number(part: &[u8]) -> u64
    requires { 6 ≤ length part.now }
    ensures { result ≡ le_at part.now 0 6 }
{
    let low = u32::from_le_bytes([part[0], part[1], part[2], part[3]]);
    let high = u16::from_le_bytes([part[4], part[5]]);
    low as u64 + 4294967296 * (high as u64)
}

// Whether two parts begin with one root. Two numbers are compared sooner than six characters.
pub(crate) fn same_name(a: &[u8], b: &[u8]) -> bool
    requires { (6 ≤ length a.now) × (6 ≤ length b.now) }
    ensures { result ≡ same (take 6 a.now) (take 6 b.now) }
{
    name_number(a) == name_number(b)
}
