// Decimal digits: tested, read and written.
ghost use Rattle.std.specs.Prelude.{◌≡◌, ◌+◌, ◌-◌, ◌≤◌, length};
ghost use Rattle.records.specs.Lists.{all_of};
ghost use Rattle.records.specs.Written.{put_at};
ghost use Rattle.records.specs.Text.{value_of};
ghost use Rattle.symbols.specs.Digits.{is_digit, last_digits, places_of};

pub(crate) fn is_digit(c: u8) -> bool
    ensures { result ≡ is_digit c }
{
    (b'0' <= c) & (c <= b'9')
}

pub(crate) fn all_digits(part: &[u8]) -> bool
    ensures { result ≡ all_of is_digit part.now }
{
    part.iter().all(|c| is_digit(*c))
}

// What a digit says. Its callers learn how much any byte can say.
fn digit_value(c: u8) -> u32
    ensures { (result ≡ c - 48) × (result ≤ 207) }
{
    u32::from(c.saturating_sub(b'0'))
}

// The number that at most eight digits say. Its callers learn how much any eight bytes can say.
pub(crate) fn number_of(part: &[u8]) -> u32
    requires { length part.now ≤ 8 }
    ensures { (result ≡ value_of part.now) × (result ≤ 2300000000) }
{
    let mut value = 0;
    for c in part {
        value = 10 * value + digit_value(*c);
    }
    value
}

// Writes the last `width` digits of n, from index `at` on; the last of them first.
pub(crate) fn put_digits(n: u32, width: usize, out: &mut [u8], at: usize)
    requires { at + width ≤ length out.old }
    ensures { out.new ≡ put_at out.old at (last_digits width n) }
{
    let mut rest = n;
    for i in (0..width).rev() {
        out[at + i] = b'0' + (rest % 10) as u8;
        rest = rest / 10;
    }
}

#[tactic(auto, using(std::proofs::lemmas::Bool::Decides::nat_tests), unfolding(crate::specs::Digits::places_of))]
pub(crate) fn places_of(n: u32) -> usize
    ensures { result ≡ places_of n }
{
    match n {
        0..=9 => 1,
        10..=99 => 2,
        100..=999 => 3,
        1000..=9999 => 4,
        10000..=99999 => 5,
        _ => 6,
    }
}
