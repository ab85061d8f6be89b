ghost use Rattle.std.specs.Prelude.{◌≡◌, ℕ, ◌∷◌, ◌+◌, ◌-◌, ◌*◌, ◌/◌, ◌%◌, ◌^◌, ◌≤◌, ◌<◌, ◌++◌, ℤ};
ghost use Rattle.std.specs.Prelude.{pos, MatchOption, IfOk};
ghost use Rattle.edf_time.specs.Civil.{day_of, second_of_day, IsClock, IsDateField, IsTimeText};
ghost use Rattle.edf_time.specs.Civil.{IsIdDate, IsInstantText, two_digits};
ghost use Rattle.edf_time.specs.Decimal.{fraction_text};

use crate::calendar::{date_of, day_number};
use crate::civil::{Day, Instant};
use crate::pieces::{letters_of, month_of, pair, tens, units};
use crate::shortest::push_fraction;
use std::alloc::{AllocError, Global};

#[derive(Clone, Copy)]
struct Clock {
    hour: u8,
    minute: u8,
    second: u8,
}

/// Returns the clock's reading at a second of the day.
fn clock_at(seconds: u32) -> Clock
    requires { seconds < 86_400 }
    ensures { IsClock result.hour result.minute result.second seconds }
{
    Clock {
        hour: (seconds / 3_600) as u8,
        minute: (seconds / 60 % 60) as u8,
        second: (seconds % 60) as u8,
    }
}

/// Returns two numbers of two digits and two more characters, with dots between the three.
fn dotted(first: u8, second: u8, third: [u8; 2]) -> [u8; 8]
    requires first { first < 100 }
    requires second { second < 100 }
    ensures { result ≡ two_digits first ++ 46 ∷ two_digits second ++ 46 ∷ third }
{
    [
        tens(first),
        units(first),
        b'.',
        tens(second),
        units(second),
        b'.',
        third[0],
        third[1],
    ]
}

/// Returns the startdate `dd.mm.yy` of a header, bytes 168 to 175 of the file (EDF, header record).
/// The last two digits of the year mean 1985 to 2084 (EDF+, the clipping date); after 2084 the
/// letters `yy` are in their place (EDF+, additional specifications).
pub fn date_field(instant: Instant) -> [u8; 8]
    ensures { IsDateField result (day_of instant) }
{
    let date = date_of(instant.days());
    let short = (date.year % 100) as u8;
    if instant.has_two_digit_year() {
        dotted(date.day, date.month, [tens(short), units(short)])
    } else {
        dotted(date.day, date.month, *b"yy")
    }
}

/// Returns the starttime `hh.mm.ss` of a header, bytes 176 to 183 of the file (EDF, header record).
/// A fraction of a second is left out.
pub fn time_field(instant: Instant) -> [u8; 8]
    ensures { IsTimeText result (second_of_day instant) }
{
    let clock = clock_at(instant.second_of_day());
    dotted(
        clock.hour,
        clock.minute,
        [tens(clock.second), units(clock.second)],
    )
}

/// Returns the day of the instant as the identification fields write one, `dd-MMM-yyyy`, the months
/// JAN to DEC in capitals (EDF+, additional specifications). After `Startdate ` it is bytes 98 to
/// 108 of the file.
pub fn id_date_text(instant: Instant) -> [u8; 11]
    ensures { IsIdDate result (pos (day_of instant)) }
{
    let date = date_of(instant.days());
    let month = letters_of(date.month);
    let century = (date.year / 100) as u8;
    let short = (date.year % 100) as u8;
    [
        tens(date.day),
        units(date.day),
        b'-',
        month[0],
        month[1],
        month[2],
        b'-',
        tens(century),
        units(century),
        tens(short),
        units(short),
    ]
}

/// Returns the day that a text `dd-MMM-yyyy` names, as the identification fields write one (EDF+,
/// additional specifications).
///
/// The months are JAN to DEC, in capitals; the years 0000 to 9999 are those of the Gregorian
/// calendar, carried backwards. `None` where the text has another length or form, or names no day
/// of the calendar.
pub fn id_date(text: &[u8]) -> Option<Day>
    ensures { MatchOption result ((days : ℤ) → ¬ IsIdDate text.now days) (IsIdDate text.now) }
{
    if text.len() != 11 || text[2] != b'-' || text[6] != b'-' {
        return None;
    }
    let day = pair(text[0], text[1])?;
    let month = month_of([text[3], text[4], text[5]])?;
    let century = pair(text[7], text[8])?;
    let short = pair(text[9], text[10])?;
    let days = day_number(u16::from(century) * 100 + u16::from(short), month, day)?;
    Some(Day::from_days(days))
}

/// Returns an instant as `yyyy-mm-ddThh:mm:ss`; then, where its second has a fraction, a dot and
/// the decimals without trailing zeros, at most nine. No field of EDF has this form.
///
/// # Errors
/// It fails where memory runs out.
pub fn instant_text(alloc: Global, instant: Instant) -> Result<Vec<u8>, AllocError>
    ensures { IfOk result (λ v. IsInstantText v.items instant) }
{
    let mut text = Vec::from_slice(alloc, &second_text(instant))?;
    push_fraction(&mut text, instant.nanos() % 1_000_000_000)?;
    Ok(text)
}

/// Returns an instant to the second, as `yyyy-mm-ddThh:mm:ss`.
fn second_text(instant: Instant) -> [u8; 19]
    ensures { IsInstantText (result ++ fraction_text (instant % 10 ^ 9)) instant }
{
    let date = date_of(instant.days());
    let clock = clock_at(instant.second_of_day());
    let century = (date.year / 100) as u8;
    let short = (date.year % 100) as u8;
    [
        tens(century),
        units(century),
        tens(short),
        units(short),
        b'-',
        tens(date.month),
        units(date.month),
        b'-',
        tens(date.day),
        units(date.day),
        b'T',
        tens(clock.hour),
        units(clock.hour),
        b':',
        tens(clock.minute),
        units(clock.minute),
        b':',
        tens(clock.second),
        units(clock.second),
    ]
}
