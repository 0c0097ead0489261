// The table of roots: checked, and looked up by root or by terms.
ghost use Rattle.std.specs.Prelude.{◌≡◌, ◌≤◌, length, take, [], MatchResult, option_copied};
ghost use Rattle.std.specs.List.{find};
ghost use Rattle.records.specs.Lists.{same};
ghost use Rattle.records.specs.Order.{first_of};
ghost use Rattle.symbols.specs.Roots.{name_of, roots_of, terms_of, same_terms, good_terms, good_root, repeats, fresh, ask_roots, root_checks, leg_terms};
ghost use Rattle.symbols.specs.Steps.Numbers.{RootsJudged};

use crate::names::{NAME_BYTES, good_name, same_name};
use crate::refusals::{ROOTS_TABLE, refused};
use records::{Leg, Refusal};

const ROOT_BYTES: usize = 16;

const MOST_ROOTS: usize = 256;

// One entry of the table.
pub(crate) type Root = [u8; ROOT_BYTES];

// What a root stands for: numbers, as a leg of any bytes has them.
#[derive(Clone, Copy)]
pub struct Terms {
    pub underlying: u32,
    pub style: u8,
    pub market: u8,
    pub size: u16,
    pub settlement: u8,
}

pub(crate) fn terms_of(leg: Leg) -> Terms
    ensures { result ≡ leg_terms leg }
{
    Terms {
        style: leg.style,
        market: leg.market,
        size: leg.size,
        settlement: leg.settlement,
        underlying: leg.underlying,
    }
}

pub(crate) fn root_terms(root: &Root) -> Terms
    ensures { result ≡ terms_of root.now }
{
    Terms {
        style: root[6],
        market: root[7],
        size: u16::from_le_bytes([root[8], root[9]]),
        settlement: root[10],
        underlying: u32::from_le_bytes([root[12], root[13], root[14], root[15]]),
    }
}

fn good_terms(terms: Terms) -> bool
    ensures { result ≡ good_terms terms }
{
    ((1 <= terms.style) & (terms.style <= 2))
        & ((1 <= terms.market) & (terms.market <= 2))
        & ((1 <= terms.size) & (terms.size <= 1000))
        & (terms.settlement <= 2)
        & (1 <= terms.underlying)
}

fn good_root(root: &Root) -> bool
    ensures { result ≡ good_root root.now }
{
    good_name(&root[..NAME_BYTES]) & good_terms(root_terms(root)) & (root[11] == 0)
}

fn underlying_of(root: &Root) -> u32
    ensures { result ≡ (terms_of root.now).underlying }
{
    u32::from_le_bytes([root[12], root[13], root[14], root[15]])
}

// Whether an entry has these terms. Most differ in the underlying, so it is looked at first, before the others are read.
fn has_terms(root: &Root, terms: Terms) -> bool
    ensures { result ≡ same_terms (terms_of root.now) terms }
{
    if underlying_of(root) != terms.underlying {
        return false;
    }
    let own = root_terms(root);
    // One by one, so that the edit `terms_without_settlement` gets one of them wrong and no other.
    (own.style == terms.style)
        & (own.market == terms.market)
        & (own.size == terms.size)
        & (own.settlement == terms.settlement)
}

// Whether two entries have one root, or the same terms.
fn repeats(a: &Root, b: &Root) -> bool
    ensures { result ≡ repeats a.now b.now }
{
    same_name(a, b) || has_terms(b, root_terms(a))
}

fn is_fresh(before: &[Root], root: &Root) -> bool
    ensures { result ≡ fresh before.now root.now }
{
    // A copy, so that the compiler's back end may read the entry once, before it is compared with the first.
    let own = *root;
    before.iter().all(|other| !repeats(&own, other))
}

fn entry_fault(roots: &[Root]) -> Result<(), Refusal>
    ensures { result ≡ first_of (ask_roots [] 0 roots.now) }
{
    for (i, root) in roots.iter().enumerate() {
        if !(good_root(root) & is_fresh(&roots[..i], root)) {
            return Err(refused(23, ROOTS_TABLE, i));
        }
    }
    Ok(())
}

// Refusal 23: a wrong size, or the first bad root; else the entries.
pub(crate) fn good_roots(table: &[u8]) -> Result<&[Root], Refusal>
    ensures { RootsJudged table.now result }
{
    let (roots, rest) = table.as_chunks::<ROOT_BYTES>();
    if !((rest.len() == 0) & ((1 <= roots.len()) & (roots.len() <= MOST_ROOTS))) {
        return Err(refused(23, ROOTS_TABLE, 0));
    }
    entry_fault(roots)?;
    Ok(roots)
}

// The entry of the root that a line begins with.
pub(crate) fn find_name<'a>(roots: &'a [Root], line: &[u8]) -> Option<&'a Root>
    requires { 6 ≤ length line.now }
    ensures { option_copied result ≡ find (λ e. same (name_of e) (take 6 line.now)) roots.now }
{
    roots.iter().find(|root| same_name(*root, line))
}

// The entry of five terms.
pub(crate) fn find_terms(roots: &[Root], terms: Terms) -> Option<&Root>
    ensures { option_copied result ≡ find (λ e. same_terms (terms_of e) terms) roots.now }
{
    roots.iter().find(|root| has_terms(*root, terms))
}
