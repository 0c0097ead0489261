// Expiries: YYYYMMDD as a number, a real date, 20000101 to 20991231.
ghost use Rattle.std.specs.Prelude.{◌≡◌};
ghost use Rattle.records.specs.Dates.{leap_year, february, days_in, real_date};
ghost use Rattle.records.specs.Within.{within};

use crate::within::is_within;

pub(crate) const FIRST_DATE: u32 = 20000101;

fn leap_year(year: u32) -> bool
    ensures { result ≡ leap_year year }
{
    (year % 4 == 0) & (!(year % 100 == 0) | (year % 400 == 0))
}

fn february(year: u32) -> u32
    ensures { result ≡ february year }
{
    if leap_year(year) {
        return 29;
    }
    28
}

// What a member can recite: document 02, [5].
fn days_in(year: u32, month: u32) -> u32
    ensures { result ≡ days_in year month }
{
    if !is_within(1, 12, month) {
        return 0;
    }
    if month == 2 {
        return february(year);
    }
    30 + (month + month / 8) % 2
}

// Every month has 28 days, so its length is asked for past the 28th only.
fn good_day(year: u32, month: u32, day: u32) -> bool
    ensures { result ≡ within 1 (days_in year month) day }
{
    if 28 < day {
        return is_within(1, days_in(year, month), day);
    }
    is_within(1, 12, month) & (1 <= day)
}

// Whether a number is such a date.
pub fn real_date(n: u32) -> bool
    ensures { result ≡ real_date n }
{
    is_within(FIRST_DATE, 20991231, n) & good_day(n / 10000, n / 100 % 100, n % 100)
}
