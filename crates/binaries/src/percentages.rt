// The circular's two percentage tables: a row for each range of swap spreads, a column for each length of time.
ghost use Rattle.std.specs.Prelude.{◌≡◌, ◌<◌};
ghost use Rattle.binaries.specs.Percentages.{tenths_at, row_of};

#[derive(Clone, Copy)]
pub enum Side {
    Long,
    Short,
}

// In tenths of a percent, each as the circular prints it, though short is twice long in every cell.
const LONG_TENTHS: [[u16; 4]; 5] = [
    [5, 10, 20, 35],
    [10, 25, 35, 50],
    [25, 50, 75, 100],
    [50, 75, 100, 125],
    [75, 100, 125, 150],
];

const SHORT_TENTHS: [[u16; 4]; 5] = [
    [10, 20, 40, 70],
    [20, 50, 70, 100],
    [50, 100, 150, 200],
    [100, 150, 200, 250],
    [150, 200, 250, 300],
];

// The row of a swap spread in basis points; a value on an edge takes the higher row.
#[tactic(auto, unfolding(crate::specs::Percentages::row_of))]
pub(crate) fn row_of(spread: u64) -> usize
    ensures { (result ≡ row_of spread) × (result < 5) }
{
    match spread {
        0..=99 => 0,
        100..=299 => 1,
        300..=499 => 2,
        500..=699 => 3,
        _ => 4,
    }
}

pub(crate) fn tenths_at(side: Side, row: usize, column: usize) -> u16
    requires { (row < 5) × (column < 4) }
    ensures { result ≡ tenths_at side row column }
{
    match side {
        Side::Long => LONG_TENTHS[row][column],
        Side::Short => SHORT_TENTHS[row][column],
    }
}
