// A placement table that has passed 1 and 4: the public calls check it once, and every function behind them goes over it.
ghost use Rattle.std.specs.Prelude.{◌≡◌, Err, MatchResult};
ghost use Rattle.records.specs.Order.{first_of};
ghost use Rattle.records.specs.Tables.{table_checks};
ghost use Rattle.records.specs.declared.tables.Kind.TheVariants.{Placement};
ghost use Rattle.spreads.specs.Steps.Members.{Checked};

use records::{Kind, Refusal};

#[derive(Clone, Copy)]
pub(crate) struct CheckedPlacement<'a> {
    pub(crate) bytes: &'a [u8],
    ghost checked: { Checked bytes.now },
}

// 1 and 4 over the whole table.
pub(crate) fn check(placement: &[u8]) -> Result<CheckedPlacement<'_>, Refusal>
    ensures { MatchResult result
        (λ checked. checked.bytes.now ≡ placement.now)
        (λ refusal. first_of (table_checks Placement placement.now) ≡ Err refusal) }
{
    records::check_table(Kind::Placement, placement)?;
    Ok(CheckedPlacement { bytes: placement })
}
