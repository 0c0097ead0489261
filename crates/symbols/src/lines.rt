// Lines of a list: whether they are well formed, what they say; and a leg written as one.
ghost use Rattle.std.specs.Prelude.{◌≡◌, ◌+◌, ◌≤◌, ◌||◌, cond, eqb, length};
ghost use Rattle.records.specs.Written.{put_at};
ghost use Rattle.symbols.specs.Lines.{well_formed, line_says, line_in_range, line_leg, symbol_text, line_text};
ghost use Rattle.symbols.specs.Roots.{name_of};

use crate::digits::{all_digits, number_of, places_of, put_digits};
use crate::names::{NAME_BYTES, good_name};
use crate::roots::{Root, Terms};
use records::{Contracts, Leg, MOST_CONTRACTS};

// A line has 26 to 31 bytes: 24 before the contracts, 1 to 6 of these, and the newline.
const LEAST_LINE: usize = 26;

pub(crate) const LONGEST_LINE: usize = 31;

// What a line says besides its root; right and side are numbers, as in the leg's record that is made of it.
#[derive(Clone, Copy)]
pub struct Line {
    pub right: u8,
    pub expiry: u32,
    pub strike: u32,
    pub side: u8,
    pub contracts: u32,
}

// Two letters: the one stands for 1, the other for 2.
#[derive(Clone, Copy)]
pub struct Letters {
    pub one: u8,
    pub two: u8,
}

// A call (1) or a put (2).
const RIGHTS: Letters = Letters {
    one: b'C',
    two: b'P',
};

// Long (1) or short (2).
const SIDES: Letters = Letters {
    one: b'L',
    two: b'S',
};

impl Letters {
    fn has(self, c: u8) -> bool
        ensures { result ≡ (eqb c self.one || eqb c self.two) }
    {
        (c == self.one) | (c == self.two)
    }

    fn number(self, c: u8) -> u8
        ensures { result ≡ cond (eqb c self.one) 1 2 }
    {
        if c == self.one { 1 } else { 2 }
    }

    fn letter(self, number: u8) -> u8
        ensures { result ≡ cond (eqb number 1) self.one self.two }
    {
        if number == 1 { self.one } else { self.two }
    }
}

// Whether a line, with its newline, has the characters of one.
pub(crate) fn well_formed(line: &[u8]) -> bool
    ensures { result ≡ well_formed line.now }
{
    if !((LEAST_LINE <= line.len()) & (line.len() <= LONGEST_LINE)) {
        return false;
    }
    let last = line.len() - 1;
    good_name(&line[..NAME_BYTES])
        & all_digits(&line[6..12])
        & RIGHTS.has(line[12])
        & all_digits(&line[13..21])
        & (line[21] == b' ')
        & SIDES.has(line[22])
        & (line[23] == b' ')
        & !(line[24] == b'0')
        & all_digits(&line[24..last])
        & (line[last] == b'\n')
}

// What a line says that is well formed.
pub(crate) fn line_says(line: &[u8]) -> Line
    requires { (26 ≤ length line.now) × (length line.now ≤ 31) }
    ensures { result ≡ line_says line.now }
{
    let last = line.len() - 1;
    Line {
        right: RIGHTS.number(line[12]),
        expiry: 20000000 + number_of(&line[6..12]),
        strike: number_of(&line[13..21]),
        side: SIDES.number(line[22]),
        contracts: number_of(&line[24..last]),
    }
}

// Whether a line says a date, a strike and a count of contracts that a record can have.
pub(crate) fn line_in_range(line: Line) -> bool
    ensures { result ≡ line_in_range line }
{
    records::real_date(line.expiry)
        & ((1 <= line.strike) & (line.strike <= 99999999))
        & ((1 <= line.contracts) & (line.contracts <= MOST_CONTRACTS))
}

pub(crate) fn line_leg(terms: Terms, line: Line) -> Leg
    ensures { result ≡ line_leg terms line }
{
    Leg {
        group: 0,
        side: line.side,
        right: line.right,
        style: terms.style,
        market: terms.market,
        size: terms.size,
        underlying: terms.underlying,
        strike: line.strike,
        expiry: line.expiry,
        contracts: Contracts::of(line.contracts),
        settlement: terms.settlement,
        paid: 0,
    }
}

// Writes the 21 characters of a leg's symbol, from index `at` on.
fn put_symbol(root: &Root, leg: Leg, out: &mut [u8], at: usize)
    requires { at + 21 ≤ length out.old }
    ensures { out.new ≡ put_at out.old at (symbol_text (name_of root.now) leg) }
{
    records::copy_to(out, at, &root[..NAME_BYTES]);
    put_digits(leg.expiry % 1000000, 6, out, at + 6);
    out[at + 12] = RIGHTS.letter(leg.right);
    put_digits(leg.strike, 8, out, at + 13);
}

// Writes a leg as a line, from index `at` on, and answers the index past it.
#[tactic(auto, using(crate::proofs::DigitLaws::places_most))]
pub(crate) fn put_line(root: &Root, leg: Leg, out: &mut [u8], at: usize) -> usize
    requires { at + 31 ≤ length out.old }
    ensures value { result ≡ at + length (line_text (name_of root.now) leg) }
    ensures out_after { out.new ≡ put_at out.old at (line_text (name_of root.now) leg) }
{
    put_symbol(root, leg, out, at);
    let marks = [b' ', SIDES.letter(leg.side), b' '];
    records::copy_to(out, at + 21, &marks);
    let contracts = leg.contracts.number();
    let places = places_of(contracts);
    put_digits(contracts, places, out, at + 24);
    let end = at + 24 + places;
    out[end] = b'\n';
    end + 1
}
