// The places of the legs of every group, found in one pass over the table: each record leads to the next one of its group.
ghost use Rattle.std.specs.Prelude.{◌≡◌, ◌≤◌, take};
ghost use Rattle.records.specs.Limits.{most_legs};
ghost use Rattle.spreads.specs.Steps.Members.{MembersOf};
ghost use Rattle.spreads.specs.Steps.Links.{Linked, first_place};

use crate::checked::CheckedPlacement;
use records::{MOST_GROUPS, MOST_LEGS, RECORD_BYTES};

// Past the place of every record. A place takes two bytes, so that the links are cleared fast: an Option would take four.
const NOWHERE: u16 = MOST_LEGS as u16;

// A link of each record and, behind them, of each group from 0 on the place of its first leg.
const LINKS: usize = MOST_LEGS + MOST_GROUPS as usize + 1;

// A checked placement and its links.
#[derive(Drop)]
pub(crate) struct Links<'a> {
    pub(crate) placement: CheckedPlacement<'a>,
    next: [u16; LINKS],
    ghost linked: { Linked placement.bytes.now next 0 },
}

impl<'a> Links<'a> {
    // From the last record on, so that each group leads through its legs in the table's order.
    pub(crate) fn of(placement: &CheckedPlacement<'a>) -> Links<'a>
        ensures { result.placement.bytes.now ≡ placement.now.bytes.now }
    {
        let mut next = [NOWHERE; LINKS];
        for i in (0..placement.bytes.len() / RECORD_BYTES).rev() {
            let head = MOST_LEGS + records::leg_at(placement.bytes, i).group as usize;
            next[i] = next[head];
            next[head] = i as u16;
        }
        Links {
            placement: *placement,
            next,
        }
    }

    // Where the first leg of group g stands: past every record, as its link says, where it has none.
    fn first_place(&self, g: usize) -> usize
        ensures { result ≡ first_place self.now.next g }
    {
        if g <= MOST_GROUPS as usize {
            return self.next[MOST_LEGS + g] as usize;
        }
        MOST_LEGS
    }

    // The places of the legs of group g, from index 0 on; how many they are. The loop goes along the links, and not over a range.
    pub(crate) fn find_members(&self, g: usize, members: &mut [u16; MOST_LEGS]) -> usize
        ensures { (result ≤ most_legs) × MembersOf self.now.placement.bytes.now g (take result members.new) }
    {
        let n = self.placement.bytes.len() / RECORD_BYTES;
        let mut count: usize = 0;
        let mut at = self.first_place(g);
        while at < n {
            members[count] = at as u16;
            count += 1;
            at = self.next[at] as usize;
        }
        count
    }
}
