//! Each function states a law of the texts in its contract, and does nothing.
ghost use Rattle.std.specs.Prelude.{◌≡◌, ◌⊎◌, ℕ, ℤ, pos, ◌+◌, ◌-◌, ◌*◌, ◌/◌, ◌%◌, ◌^◌, ◌≤◌, ◌<◌};
ghost use Rattle.std.specs.Prelude.{List, Option, Some, None, length, All};
ghost use Rattle.std.specs.Char.{digit_value};
ghost use Rattle.std.specs.Ordering.{nat_cmp, int_cmp};
ghost use Rattle.edf_time.specs.Civil.{window, window_days, two_digit_days, two_digit_window};
ghost use Rattle.edf_time.specs.Civil.{day_of, second_of_day, IsDay, IsCivil, IsStartFault};
ghost use Rattle.edf_time.specs.Civil.{IsDateText, IsYearlessText, IsLateDateText, IsDateField};
ghost use Rattle.edf_time.specs.Civil.{AreStartdates, HasDateForm, IsTimeText, IsIdDate};
ghost use Rattle.edf_time.specs.Civil.{IsInstantText, IsVisible};
ghost use Rattle.edf_time.specs.Decimal.{IsDecimal, IsSeconds, IsDecimalFault, IsShortest};
ghost use Rattle.edf_time.specs.Decimal.{IsDecimalByte, short, fraction_text};
ghost use Rattle.edf_time.specs.declared.civil.StartFault.{StartFault};
ghost use Rattle.edf_time.specs.declared.decimal.DecimalFault.{DecimalFault};

use crate::civil::{Day, Instant};

/// An instant lies in the window of the years 1985 to 2184.
pub fn instant_is_in_window(instant: Instant)
    ensures { instant < window }
{}

/// Instants and days are ordered as their numbers are: of two, the earlier is the lesser by `<`,
/// `cmp` and their like.
pub fn in_order()
    ensures instants { (a b : ℕ) → ⟦<Instant as Ord>⟧.cmp a b ≡ nat_cmp a b }
    ensures instants_partly { (a b : ℕ) →
        ⟦<Instant as PartialOrd>⟧.partial_cmp a b ≡ Some (nat_cmp a b) }
    ensures days { (a b : ℤ) → ⟦<Day as Ord>⟧.cmp a b ≡ int_cmp a b }
    ensures days_partly { (a b : ℤ) → ⟦<Day as PartialOrd>⟧.partial_cmp a b ≡ Some (int_cmp a b) }
{}

/// A digit is one of the bytes 48 to 57, and its value is the byte less 48.
pub fn digits()
    ensures bytes { (b : ℕ) → digit_value b < 10 → (48 ≤ b) × (b ≤ 57) }
    ensures value { (b : ℕ) → 48 ≤ b → b ≤ 57 → digit_value b ≡ b - 48 }
{}

/// A number below 10 ^ 73 has one shortest text: of a greater one `decimal` does not write every
/// digit.
pub fn one_shortest()
    ensures { (n : ℕ) (text : List ℕ) → n < 10 ^ 73 → IsShortest text n → text ≡ short n }
{}

/// `write_seconds` writes that text; it has at most 21 bytes, and at most 20 in the window.
pub fn is_shortest()
    ensures shortest { (n : ℕ) → n < 10 ^ 73 → IsShortest (short n) n }
    ensures some { (n : ℕ) → n < 10 ^ 73 → 1 ≤ length (short n) }
    ensures most { (n : ℕ) → n < 2 ^ 64 → length (short n) ≤ 21 }
    ensures in_window { (n : ℕ) → n < window → length (short n) ≤ 20 }
{}

/// A decimal has its digits in one way, and so one value.
pub fn one_value()
    ensures whole { (text w f v g : List ℕ) → IsDecimal text w f → IsDecimal text v g → w ≡ v }
    ensures fraction { (text w f v g : List ℕ) → IsDecimal text w f → IsDecimal text v g → f ≡ g }
    ensures value { (text : List ℕ) (m n : ℕ) → IsSeconds text m → IsSeconds text n → m ≡ n }
{}

/// A decimal is made of digits and dots.
pub fn decimal_bytes()
    ensures { (text : List ℕ) (n : ℕ) → IsSeconds text n → All IsDecimalByte text }
{}

/// A text that is read has no fault, and no text has two.
pub fn one_fault()
    ensures none { (text : List ℕ) (n : ℕ) (fault : DecimalFault) →
        IsSeconds text n → n < 2 ^ 63 → ¬ IsDecimalFault text fault }
    ensures one { (text : List ℕ) (a b : DecimalFault) →
        IsDecimalFault text a → IsDecimalFault text b → a ≡ b }
{}

/// Each text is a decimal or has a fault.
pub fn some_decimal()
    ensures value { (text : List ℕ) →
        ((n : ℕ) × IsSeconds text n) ⊎ ((n : ℕ) → ¬ IsSeconds text n) }
    ensures fault { (text : List ℕ) →
        ((n : ℕ) × IsSeconds text n × (n < 2 ^ 63))
        ⊎ ((fault : DecimalFault) × IsDecimalFault text fault) }
{}

/// The months of the calendar are 1 to 12, and its days of a month lie between 1 and 31.
pub fn day_bounds()
    ensures month { (year month day : ℕ) (days : ℤ) →
        IsDay year month day days → (1 ≤ month) × (month ≤ 12) }
    ensures day { (year month day : ℕ) (days : ℤ) →
        IsDay year month day days → (1 ≤ day) × (day ≤ 31) }
{}

/// A text `dd.mm.yy` and its day are one to one, where two digits name the year. A day has one
/// startdate: digits before 2085, the letters `yy` from then on; a startdate beside one Startdate
/// subfield names one day at most.
pub fn one_date()
    ensures day { (text : List ℕ) (a b : ℕ) → IsDateText text a → IsDateText text b → a ≡ b }
    ensures text { (s t : List ℕ) (days : ℕ) → IsDateField s days → IsDateField t days → s ≡ t }
    ensures startdates { (text : List ℕ) (id : Option ℤ) (a b : ℕ) →
        AreStartdates text id a → AreStartdates text id b → a ≡ b }
    ensures bound { (text : List ℕ) (days : ℕ) → IsDateText text days → days < two_digit_days }
    ensures late_bound { (text : List ℕ) (days : ℕ) → IsLateDateText text days →
        two_digit_days ≤ days }
    ensures field_bound { (text : List ℕ) (days : ℕ) → IsDateField text days → days < window_days }
{}

/// The letters `yy` are no digits; two digits name one day, whatever the Startdate subfield says;
/// what names a day has one of the forms.
pub fn digits_or_letters()
    ensures digits { (text : List ℕ) (id : Option ℤ) (a b : ℕ) → IsDateText text a →
        AreStartdates text id b → a ≡ b }
    ensures yearless { (text : List ℕ) (days : ℕ) → IsDateText text days → ¬ IsYearlessText text }
    ensures form { (text : List ℕ) (id : Option ℤ) (days : ℕ) → AreStartdates text id days →
        HasDateForm text id }
{}

/// A text `hh.mm.ss` and its second of the day are one to one.
pub fn one_time()
    ensures second { (text : List ℕ) (a b : ℕ) → IsTimeText text a → IsTimeText text b → a ≡ b }
    ensures text { (s t : List ℕ) (seconds : ℕ) →
        IsTimeText s seconds → IsTimeText t seconds → s ≡ t }
    ensures bound { (text : List ℕ) (seconds : ℕ) → IsTimeText text seconds → seconds < 86_400 }
{}

/// A text `dd-MMM-yyyy` and its day are one to one.
pub fn one_id_date()
    ensures day { (text : List ℕ) (a b : ℤ) → IsIdDate text a → IsIdDate text b → a ≡ b }
    ensures text { (s t : List ℕ) (days : ℤ) → IsIdDate s days → IsIdDate t days → s ≡ t }
{}

/// A text `yyyy-mm-ddThh:mm:ss` with its decimals and its instant are one to one.
pub fn one_instant_text()
    ensures instant { (text : List ℕ) (a b : ℕ) →
        IsInstantText text a → IsInstantText text b → a ≡ b }
    ensures text { (s t : List ℕ) (instant : ℕ) →
        IsInstantText s instant → IsInstantText t instant → s ≡ t }
{}

/// Each text names a day or a second, or it names none.
pub fn some_date()
    ensures date { (text : List ℕ) →
        ((days : ℕ) × IsDateText text days) ⊎ (¬ ((days : ℕ) × IsDateText text days)) }
    ensures yearless { (text : List ℕ) → IsYearlessText text ⊎ (¬ IsYearlessText text) }
    ensures startdates { (text : List ℕ) (id : Option ℤ) →
        ((days : ℕ) × AreStartdates text id days) ⊎ (¬ ((days : ℕ) × AreStartdates text id days)) }
    ensures time { (text : List ℕ) →
        ((seconds : ℕ) × IsTimeText text seconds) ⊎ (¬ ((seconds : ℕ) × IsTimeText text seconds)) }
    ensures id_date { (text : List ℕ) →
        ((days : ℤ) × IsIdDate text days) ⊎ (¬ ((days : ℤ) × IsIdDate text days)) }
{}

/// Each day of the window has a startdate and a text `dd-MMM-yyyy`, each second of a day a text
/// `hh.mm.ss`, and each instant of the window a text `yyyy-mm-ddThh:mm:ss` with its decimals.
pub fn each_has_a_text()
    ensures digits { (days : ℕ) → days < two_digit_days → (text : List ℕ) × IsDateText text days }
    ensures letters { (days : ℕ) → two_digit_days ≤ days → days < window_days →
        (text : List ℕ) × IsLateDateText text days }
    ensures date { (days : ℕ) → days < window_days → (text : List ℕ) × IsDateField text days }
    ensures id_date { (days : ℕ) → days < window_days → (text : List ℕ) × IsIdDate text (pos days) }
    ensures time { (seconds : ℕ) → seconds < 86_400 → (text : List ℕ) × IsTimeText text seconds }
    ensures instant { (instant : ℕ) → instant < window →
        (text : List ℕ) × IsInstantText text instant }
{}

/// The texts of a start name its day and the second of its day; it lies in the window and begins a
/// second. Without a date in the Startdate subfield it lies before 2085.
pub fn start_parts()
    ensures date { (date time : List ℕ) (id : Option ℤ) (start : ℕ) →
        IsCivil date time id start → AreStartdates date id (day_of start) }
    ensures time { (date time : List ℕ) (id : Option ℤ) (start : ℕ) →
        IsCivil date time id start → IsTimeText time (second_of_day start) }
    ensures bound { (date time : List ℕ) (id : Option ℤ) (start : ℕ) → IsCivil date time id start →
        start < window }
    ensures two_digits { (date time : List ℕ) (start : ℕ) → IsCivil date time None start →
        start < two_digit_window }
    ensures second { (date time : List ℕ) (id : Option ℤ) (start : ℕ) →
        IsCivil date time id start → start / 10 ^ 9 * 10 ^ 9 ≡ start }
{}

/// The texts of an instant's day and second name the start of its second: beside the day in the
/// Startdate subfield, and without it before 2085.
pub fn start_of_parts()
    ensures dated { (date time : List ℕ) (instant : ℕ) →
        IsDateField date (day_of instant) → IsTimeText time (second_of_day instant) →
        IsCivil date time (Some (pos (day_of instant))) (instant / 10 ^ 9 * 10 ^ 9) }
    ensures undated { (date time : List ℕ) (instant : ℕ) → instant < two_digit_window →
        IsDateField date (day_of instant) → IsTimeText time (second_of_day instant) →
        IsCivil date time None (instant / 10 ^ 9 * 10 ^ 9) }
{}

/// A startdate, a starttime and a Startdate subfield name one instant or have one fault, and not
/// both.
pub fn one_start()
    ensures start { (date time : List ℕ) (id : Option ℤ) (a b : ℕ) →
        IsCivil date time id a → IsCivil date time id b → a ≡ b }
    ensures none { (date time : List ℕ) (id : Option ℤ) (start : ℕ) (fault : StartFault) →
        IsCivil date time id start → ¬ IsStartFault date time id fault }
    ensures fault { (date time : List ℕ) (id : Option ℤ) (a b : StartFault) →
        IsStartFault date time id a → IsStartFault date time id b → a ≡ b }
    ensures some { (date time : List ℕ) (id : Option ℤ) →
        ((start : ℕ) × IsCivil date time id start)
        ⊎ ((fault : StartFault) × IsStartFault date time id fault) }
{}

/// A date and a time have 8 bytes, `dd-MMM-yyyy` has 11, an instant has 19 and its decimals.
pub fn text_lengths()
    ensures date { (text : List ℕ) (days : ℕ) → IsDateField text days → length text ≡ 8 }
    ensures time { (text : List ℕ) (seconds : ℕ) → IsTimeText text seconds → length text ≡ 8 }
    ensures id_date { (text : List ℕ) (days : ℤ) → IsIdDate text days → length text ≡ 11 }
    ensures instant { (text : List ℕ) (instant : ℕ) →
        IsInstantText text instant → length text ≡ 19 + length (fraction_text (instant % 10 ^ 9)) }
{}

/// Each byte of the texts is printable, and none is a space.
pub fn text_bytes()
    ensures date { (text : List ℕ) (days : ℕ) → IsDateField text days → All IsVisible text }
    ensures time { (text : List ℕ) (seconds : ℕ) → IsTimeText text seconds → All IsVisible text }
    ensures id_date { (text : List ℕ) (days : ℤ) → IsIdDate text days → All IsVisible text }
    ensures instant { (text : List ℕ) (instant : ℕ) →
        IsInstantText text instant → All IsVisible text }
{}
