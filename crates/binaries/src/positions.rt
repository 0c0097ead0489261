// A position in one binary option, and of a long and a short how many contracts are matched.
ghost use Rattle.std.specs.Prelude.{◌≡◌, ◌≤◌, ◌-◌};
ghost use Rattle.binaries.specs.Positions.{good_position, offsets, matched_in};

use crate::times::is_date;
use records::MOST_CONTRACTS;

#[derive(Clone, Copy)]
pub struct Position {
    // the reference obligation
    pub reference: u64,
    // the swap spread, in basis points
    pub spread: u64,
    // YYYYMMDD
    pub expiry: u64,
    pub contracts: u64,
}

#[derive(Clone, Copy)]
pub struct LongPosition {
    pub position: Position,
    // in full
    pub paid: bool,
}

const MOST_SPREAD: u64 = 100000;

impl Position {
    // Whether each field is in its range.
    pub(crate) fn is_good(self) -> bool
        ensures { result ≡ good_position self }
    {
        (self.spread <= MOST_SPREAD)
            & is_date(self.expiry)
            & ((1 <= self.contracts) & (self.contracts <= MOST_CONTRACTS as u64))
    }

    // What is left of it without so many contracts.
    pub(crate) fn less(self, matched: u64) -> Position
        requires { matched ≤ self.contracts }
        ensures { result ≡ record self { contracts = self.contracts - matched } }
    {
        Position {
            contracts: self.contracts - matched,
            ..self
        }
    }
}

// Whether the long stands against the short.
fn offsets(long: LongPosition, short: Position) -> bool
    ensures { result ≡ offsets long short }
{
    let bought = long.position;
    (bought.reference == short.reference) & long.paid & (short.expiry <= bought.expiry)
}

// How many contracts of each need no margin.
pub(crate) fn matched_in(long: LongPosition, short: Position) -> u64
    ensures { result ≡ matched_in long short }
{
    if offsets(long, short) {
        return long.position.contracts.min(short.contracts);
    }
    0
}
