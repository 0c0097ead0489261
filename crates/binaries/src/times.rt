// How long an option has to live: years that end on the same month and day.
ghost use Rattle.std.specs.Prelude.{◌≡◌, true, ◌<◌};
ghost use Rattle.records.specs.Dates.{real_date};
ghost use Rattle.binaries.specs.Times.{column_of};

// A real date: no other number tells how long an option has to live.
#[derive(Clone, Copy)]
pub(crate) struct Date {
    // YYYYMMDD
    pub(crate) day: u64,
    ghost real: { real_date day ≡ true },
}

// No real date is later.
const LAST_DATE: u64 = 20991231;

// Whether any number is a real date. A late one is told before year, month and day are taken from it; `try_from` would ask
// a second test of each.
pub(crate) fn is_date(n: u64) -> bool
    ensures { result ≡ real_date n }
{
    n <= LAST_DATE && records::real_date(n as u32)
}

// A year on is the same month and day.
const YEAR: u64 = 10000;

// The column of the time from the valuation date to expiry. Years are counted to the same month and day; that a missing
// 29 February is the 28th needs no look here, since no real expiry tells the two apart (`missing_day_unseen`). The edges
// move with the valuation date, so a chain of tests says them plainer than a table.
pub(crate) fn column_of(valuation: Date, expiry: Date) -> usize
    ensures { (result ≡ column_of valuation.day expiry.day) × (result < 4) }
{
    if expiry.day <= valuation.day + YEAR {
        return 0;
    }
    if expiry.day <= valuation.day + 3 * YEAR {
        return 1;
    }
    if expiry.day <= valuation.day + 7 * YEAR {
        return 2;
    }
    3
}
