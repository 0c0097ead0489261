// The worksheet of a group: its strikes, and the net at each.
ghost use Rattle.std.specs.Prelude.{◌≡◌, [], length};
ghost use Rattle.spreads.specs.Spreads.{group_in};
ghost use Rattle.spreads.specs.Calls.{strikes_listed, worksheet_call, strikes_after, nets_after};
ghost use Rattle.spreads.specs.Steps.Group.{legs_in};

use crate::answers::no_room;
use crate::checked::check;
use crate::group::find_alone;
use crate::spread::Spread;
use crate::walk::fill;
use records::{MOST_LEGS, Refusal};

// 17, or the worksheet.
fn list_nets(
    spread: &Spread<'_>,
    strikes_out: &mut [u32],
    nets_out: &mut [i64],
) -> Result<usize, Refusal>
    ensures value { result ≡ strikes_listed [] (legs_in spread.now.group) (length strikes_out.old) (length nets_out.old) }
    ensures strikes_out_after { strikes_out.new ≡ strikes_after result (legs_in spread.now.group) strikes_out.old }
    ensures nets_out_after { nets_out.new ≡ nets_after result (legs_in spread.now.group) nets_out.old }
{
    let count = spread.prices.len();
    if (count <= strikes_out.len()) & (count <= nets_out.len()) {
        fill(spread, strikes_out, nets_out);
        return Ok(count);
    }
    Err(no_room(count))
}

// The distinct strikes of group g, ascending, and the net at each, from index 0 of the lent slices.
pub fn worksheet(
    placement: &[u8],
    g: usize,
    strikes_out: &mut [u32],
    nets_out: &mut [i64],
) -> Result<usize, Refusal>
    ensures value { result ≡ worksheet_call placement.now g (length strikes_out.old) (length nets_out.old) }
    ensures strikes_out_after { strikes_out.new ≡ strikes_after result (group_in placement.now g) strikes_out.old }
    ensures nets_out_after { nets_out.new ≡ nets_after result (group_in placement.now g) nets_out.old }
{
    let checked = check(placement)?;
    let mut members = [0u16; MOST_LEGS];
    let mut prices = [0u32; MOST_LEGS];
    let found = find_alone(&checked, g, &mut members, &mut prices)?;
    let spread = Spread::of(checked.bytes, g, found, &members, &prices);
    list_nets(&spread, strikes_out, nets_out)
}
