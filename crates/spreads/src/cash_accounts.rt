// 'Cash accounts': document 02, request 7.
ghost use Rattle.std.specs.Prelude.{◌≡◌};
ghost use Rattle.records.specs.Lists.{all_of};
ghost use Rattle.spreads.specs.Steps.Fitting.{fits_cash, cash_due};
ghost use Rattle.spreads.specs.Cash.{is_fit, cash_call};
ghost use Rattle.spreads.specs.Steps.Group.{legs_in};

use crate::answers::refused;
use crate::checked::check;
use crate::group::find_alone;
use crate::members::Group;
use crate::spread::Spread;
use crate::walk::worst_at;
use records::{CASH, EUROPEAN, Leg, MOST_LEGS, Refusal};

// European, stated as cash, and of this expiry.
#[tactic(auto, unfolding(crate::specs::Steps::Fitting::fits_cash))]
fn fits_cash(expiry: u32, leg: Leg) -> bool
    ensures { result ≡ fits_cash expiry leg }
{
    (leg.style == EUROPEAN) & (leg.settlement == CASH) & (leg.expiry == expiry)
}

// Whether every leg of a group is so.
fn all_fit(group: &Group<'_>, expiry: u32) -> bool
    ensures { result ≡ all_of (fits_cash expiry) (legs_in group.now) }
{
    for i in 0..group.len() {
        if !fits_cash(expiry, group.leg(i)) {
            return false;
        }
    }
    true
}

// Whether a group is fit for a cash account: the first leg's expiry is asked of all.
fn fit_for_cash(group: &Group<'_>) -> bool
    ensures { result ≡ is_fit (legs_in group.now) }
{
    if group.len() == 0 {
        return true;
    }
    all_fit(group, group.leg(0).expiry)
}

// 21, then the worst loss.
fn members_cash(spread: &Spread<'_>) -> Result<i64, Refusal>
    ensures { result ≡ cash_due spread.now.group.number (legs_in spread.now.group) }
{
    if fit_for_cash(&spread.group) {
        return Ok(worst_at(spread).mills as i64);
    }
    Err(refused(21, spread.group.number))
}

// The cash required for group g in a cash account.
pub fn cash(placement: &[u8], g: usize) -> Result<i64, Refusal>
    ensures { result ≡ cash_call placement.now g }
{
    let checked = check(placement)?;
    let mut members = [0u16; MOST_LEGS];
    let mut prices = [0u32; MOST_LEGS];
    let found = find_alone(&checked, g, &mut members, &mut prices)?;
    members_cash(&Spread::of(checked.bytes, g, found, &members, &prices))
}
