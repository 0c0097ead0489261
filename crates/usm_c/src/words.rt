// The four words of each kind of answer, and how they are told.
ghost use Rattle.std.specs.Prelude.{◌≡◌, List, ℕ};
ghost use Rattle.records.specs.Order.{refuse};
ghost use Rattle.usm_c.specs.Answers.{first_word, done_words, refused_words, told_words};
ghost use Rattle.usm_c.specs.Answers.{count_words, mills_words, accepted_words, found_words, tally_words, saved_words};

use blocks::Reading;
use fills::Tally;
use records::Refusal;
use salvage::Saved;
use sheets::Accepted;

// What a call answers where nothing is refused, as the words of its answer.
pub(crate) trait Words {
    ghost words_of: { Self → List ℕ };

    fn words(self) -> [u64; 4]
        ensures { result ≡ words_of self };
}

// How many records, entries, marks or bytes.
impl Words for usize {
    ghost words_of = { count_words };

    fn words(self) -> [u64; 4] {
        done(self as u64, 0, 0)
    }
}

// The margin, or the cash required, in mills. None is below zero, by specs/Demands.antt, so its size is the amount itself.
impl Words for i64 {
    ghost words_of = { mills_words };

    fn words(self) -> [u64; 4] {
        done(self.unsigned_abs(), 0, 0)
    }
}

impl Words for Accepted {
    ghost words_of = { accepted_words };

    fn words(self) -> [u64; 4] {
        done(
            self.groups as u64,
            self.total.unsigned_abs(),
            self.values as u64,
        )
    }
}

impl Words for Reading {
    ghost words_of = { found_words };

    fn words(self) -> [u64; 4] {
        done(
            self.counts.holdings as u64,
            self.counts.placement as u64,
            self.counts.claims as u64,
        )
    }
}

impl Words for Tally {
    ghost words_of = { tally_words };

    fn words(self) -> [u64; 4] {
        done(self.rows as u64, self.refused as u64, 0)
    }
}

impl Words for Saved {
    ghost words_of = { saved_words };

    fn words(self) -> [u64; 4] {
        done(self.bytes as u64, self.entries as u64, 0)
    }
}

// Writes the words of an answer, and hands back the first: 0, or the refusal's number.
pub(crate) fn tell<T: Words>(answered: Result<T, Refusal>, answer: &mut [u64; 4]) -> u64
    ensures value { result ≡ first_word answer.new }
    ensures answer_after { answer.new ≡ told_words T.words_of answered }
{
    let words = told(answered);
    *answer = words;
    words[0]
}

fn told<T: Words>(answered: Result<T, Refusal>) -> [u64; 4]
    ensures { result ≡ told_words T.words_of answered }
{
    match answered {
        Ok(found) => found.words(),
        Err(refusal) => refused(refusal),
    }
}

// Success, and what it says.
fn done(a: u64, b: u64, c: u64) -> [u64; 4]
    ensures { result ≡ done_words a b c }
{
    [0, a, b, c]
}

fn refused(r: Refusal) -> [u64; 4]
    ensures { result ≡ refused_words r }
{
    [r.number as u64, r.table as u64, r.place as u64, 0]
}

// A number that stands for nothing is refused for no table and no place.
pub(crate) fn refusal_of(number: u8) -> Refusal
    ensures { result ≡ refuse number 0 0 }
{
    Refusal {
        number,
        table: 0,
        place: 0,
    }
}
