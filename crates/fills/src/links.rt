// The row of a line and side, found from link to link.
ghost use Rattle.std.specs.Prelude.{◌≡◌, ◌<◌};
ghost use Rattle.fills.specs.Steps.Links.{bucket_of, EndedAt, most_links};

use crate::book::{BUCKETS, Book};
use records::Leg;

// Ten digits of a sum, from the middle: each number of the line moves them.
fn bucket_of(leg: Leg) -> usize
    ensures { (result ≡ bucket_of leg) × (result < 1024) }
{
    let terms = 81649157 * (leg.strike as usize)
        + 68718953 * (leg.expiry as usize)
        + 60293689 * (leg.underlying as usize)
        + 52706207 * (leg.size as usize)
        + 97612921 * (leg.side as usize)
        + 73939133 * (leg.right as usize);
    terms / 4194304 % BUCKETS
}

impl<'a> Book<'a> {
    // The link to the row of record k's line and side, or the free one at the end of its bucket. The record is read here,
    // so that its fields are never put together in memory. The loop goes from link to link: no range says how often.
    pub(crate) fn link_of(&self, k: usize) -> usize
        ensures ended { EndedAt self.now.holdings.now self.now.fills.now self.now.held self.now.links k result }
        ensures in_links { result < most_links }
    {
        let leg = self.leg(k);
        let mut link = bucket_of(leg);
        loop {
            let at = self.links[link] as usize;
            if at == 0 {
                return link;
            }
            let j = at - 1;
            if !(self.held[j] == 0) & records::same_line_side(leg, self.leg(j)) {
                return link;
            }
            link = BUCKETS + j;
        }
    }
}
