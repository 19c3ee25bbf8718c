// Dates of six digits, day, month and year. The years are 2000 to 2099.
ghost use Rattle.std.specs.Prelude.{◌≡◌};
ghost use Rattle.amounts.specs.Dates.{days_in, date_right};

// The days of February: there is a leap year each fourth, 2000 the first.
#[tactic(auto, unfolding(crate::specs::Dates::days_in, crate::specs::Dates::months, crate::specs::Dates::leap))]
fn february(year: u64) -> u64
    ensures { result ≡ days_in 2 year }
{
    if year % 4 == 0 { 29 } else { 28 }
}

// The days of a month; none where there is no such month.
#[tactic(auto, unfolding(crate::specs::Dates::days_in, crate::specs::Dates::months))]
fn days_in(month: u64, year: u64) -> u64
    ensures { result ≡ days_in month year }
{
    match month {
        1 | 3 | 5 | 7 | 8 | 10 | 12 => 31,
        4 | 6 | 9 | 11 => 30,
        2 => february(year),
        _ => 0,
    }
}

// Whether six digits are a date: the day exists in its month.
#[tactic(auto, unfolding(crate::specs::Dates::date_right, crate::specs::Dates::day_exists))]
pub fn date_right(v: u64) -> bool
    ensures { result ≡ date_right v }
{
    let day = v / 10000;
    let month = v / 100 % 100;
    let year = v % 100;
    (1..=days_in(month, year)).contains(&day)
}
