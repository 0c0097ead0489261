// A number in its range, both ends included.
ghost use Rattle.std.specs.Prelude.{◌≡◌};
ghost use Rattle.records.specs.Within.{within};

pub(crate) fn is_within(low: u32, high: u32, x: u32) -> bool
    ensures { result ≡ within low high x }
{
    (low <= x) & (x <= high)
}
