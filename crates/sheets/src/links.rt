// The first record of each line and side, found from link to link. A link is to a record, counted from 1,
// or to none, 0; there is one for each bucket and eight for each record. None is 0 and not an Option, which has twice the
// room: the links are cleared for each sheet.
ghost use Rattle.std.specs.Prelude.{◌≡◌, ◌+◌, ◌≤◌, ◌<◌, length};
ghost use Rattle.sheets.specs.Steps.Pooled.{most_pooled};
ghost use Rattle.sheets.specs.Steps.Links.{buckets, links_of, bucket_of, sorts_of, digits_of, same_words, rest_of, link_below, Rising, WordRooms, EndsFor};

use crate::pooled::{FEW_POOLED, MOST_POOLED, SOME_POOLED};
use records::Leg;

const BUCKETS: usize = 509;

const WAYS: usize = 8;

// The links of as many records as there can be, of some, and of few.
pub(crate) const MOST_LINKS: usize = BUCKETS + WAYS * MOST_POOLED;

pub(crate) const SOME_LINKS: usize = BUCKETS + WAYS * SOME_POOLED;

pub(crate) const FEW_LINKS: usize = BUCKETS + WAYS * FEW_POOLED;

pub(crate) fn bucket_of(leg: Leg) -> usize
    ensures { (result ≡ bucket_of leg) × (result < buckets) }
{
    let terms = leg.strike as usize
        + 3 * (leg.expiry as usize)
        + 31 * (leg.underlying as usize)
        + 7 * (leg.side as usize)
        + 5 * (leg.right as usize)
        + 17 * (leg.size as usize);
    terms % BUCKETS
}

// A line and side as one number in two words, whose digits to the base 8, those of the low word first, say which way to
// go. Lines and sides in range that differ do so in one of 34 digits, so that no search looks at more than 35 records.
#[derive(Clone, Copy)]
pub(crate) struct Digits {
    low: u64,
    high: u64,
}

// The fields of few values as one number.
fn sorts_of(leg: Leg) -> u64
    ensures { (result ≡ sorts_of leg) × (result ≤ 7905) }
{
    leg.side as u64
        + 2 * (leg.right as u64)
        + 4 * (leg.style as u64)
        + 8 * (leg.market as u64)
        + 16 * (leg.settlement as u64)
}

impl Digits {
    pub(crate) const NONE: Digits = Digits { low: 0, high: 0 };

    pub(crate) fn of(leg: Leg) -> Digits
        ensures { result ≡ digits_of leg }
    {
        let sorts = sorts_of(leg);
        Digits {
            low: leg.strike as u64 + 134217728 * (leg.expiry as u64),
            high: leg.underlying as u64 + 4294967296 * (leg.size as u64) + 4398046511104 * sorts,
        }
    }

    // Both words are compared, without a branch between them.
    fn same(self, other: Digits) -> bool
        ensures { result ≡ same_words self other }
    {
        (self.low == other.low) & (self.high == other.high)
    }

    // The digits after the first.
    fn rest(self) -> Digits
        ensures { result ≡ rest_of self }
    {
        if self.low < 8 {
            return Digits {
                low: self.high,
                high: 0,
            };
        }
        Digits {
            low: self.low / 8,
            high: self.high,
        }
    }
}

// The link of record j for the first digit.
fn link_below(j: usize, digits: Digits) -> usize
    requires { j < most_pooled }
    ensures { (result ≡ link_below j digits) × (links_of j ≤ result) × (result < links_of (j + 1)) }
{
    BUCKETS + WAYS * j + (digits.low % 8) as usize
}

// The link to the first record of a line and side, by its bucket and its digits, or the free one where such a record belongs.
// A record that is linked is compared by its two words, which stand at its index. The loop goes from link to link: no range
// says how often.
pub(crate) fn link_of(bucket: usize, whole: Digits, words: &[Digits], links: &[u16]) -> usize
    requires bucket_lt_buckets { bucket < buckets }
    requires word_rooms { WordRooms words.now links.now }
    requires rising { Rising (length words.now) links.now }
    ensures { EndsFor words.now links.now bucket whole result }
{
    let mut link = bucket;
    let mut digits = whole;
    loop {
        let at = usize::from(links[link]);
        if at == 0 {
            return link;
        }
        let j = at - 1;
        if words[j].same(whole) {
            return link;
        }
        link = link_below(j, digits);
        digits = digits.rest();
    }
}
