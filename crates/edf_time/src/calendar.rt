//! Days of the calendar have numbers that count from 1985-01-01.
ghost use Rattle.std.specs.Prelude.{◌≡◌, ℕ, ◌+◌, ◌≤◌, ◌<◌, ℤ, pos, MatchOption};
ghost use Rattle.edf_time.specs.Civil.{two_digit_days, window_days, IsDay};

use jiff::civil::Date;
use jiff_core::civil;

/// 1985-01-01 comes this many days after the calendar's first date.
const FIRST_DAY: u32 = 4_371_587 + 5_479;

/// Returns the days from 1985-01-01 to this day, negative before it; `None` where no such day is.
pub(crate) fn day_number(year: u16, month: u8, day: u8) -> Option<i32>
    requires year { year ≤ 9999 }
    requires month { month < 100 }
    requires day { day < 100 }
    ensures { MatchOption result
        ((days : ℤ) → ¬ IsDay year month day days)
        (λ days. IsDay year month day days) }
{
    let Ok(date) = Date::new(year as i16, month as i8, day as i8) else {
        return None;
    };
    Some(date.to_plain().days_since_min() as i32 - FIRST_DAY as i32)
}

/// Returns the days from 1985-01-01 to this day of a year that two digits of a startdate name.
pub(crate) fn two_digit_day(year: u16, month: u8, day: u8) -> Option<u32>
    requires from { 1985 ≤ year }
    requires to { year ≤ 2084 }
    requires month { month < 100 }
    requires day { day < 100 }
    ensures { MatchOption result
        ((days : ℤ) → ¬ IsDay year month day days)
        (λ days. IsDay year month day (pos days) × (days < two_digit_days)) }
{
    let days = day_number(year, month, day)?;
    Some(days as u32)
}

#[derive(Clone, Copy)]
pub(crate) struct CivilDate {
    pub(crate) year: u16,
    pub(crate) month: u8,
    pub(crate) day: u8,
}

/// Returns the date of a day of the window.
pub(crate) fn date_of(days: u32) -> CivilDate
    requires { days < window_days }
    ensures is_day { IsDay result.year result.month result.day (pos days) }
    ensures from { 1985 ≤ result.year }
    ensures to { result.year ≤ 2184 }
    ensures two_digits { days < two_digit_days → result.year ≤ 2084 }
    ensures late { two_digit_days ≤ days → 2085 ≤ result.year }
    ensures month_from { 1 ≤ result.month }
    ensures month_to { result.month ≤ 12 }
    ensures day_to { result.day ≤ 31 }
{
    let date = civil::Date::from_days_since_min(days + FIRST_DAY);
    CivilDate {
        year: date.year as u16,
        month: date.month,
        day: date.day,
    }
}
