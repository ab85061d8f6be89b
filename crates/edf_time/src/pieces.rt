//! Texts of dates and times are made of numbers in two digits and the months' letters.
ghost use Rattle.std.specs.Prelude.{◌≡◌, ◌≢◌, ℕ, ◌+◌, ◌-◌, ◌*◌, ◌/◌, ◌%◌, ◌≤◌, ◌<◌, [], ◌∷◌};
ghost use Rattle.std.specs.Prelude.{MatchOption};
ghost use Rattle.edf_time.specs.Civil.{two_digits, month_name};

/// Returns the number that two digits write.
pub(crate) fn pair(tens: u8, units: u8) -> Option<u8>
    ensures { MatchOption result
        ((n : ℕ) → n < 100 → tens ∷ units ∷ [] ≢ two_digits n)
        (λ n. (n < 100) × (tens ∷ units ∷ [] ≡ two_digits n)) }
{
    if tens.is_ascii_digit() && units.is_ascii_digit() {
        Some((tens - b'0') * 10 + (units - b'0'))
    } else {
        None
    }
}

/// Returns the first of a number's two digits.
pub(crate) fn tens(number: u8) -> u8
    requires { number < 100 }
    ensures { result ≡ 48 + number / 10 }
{
    b'0' + number / 10
}

/// Returns the second of a number's two digits.
pub(crate) fn units(number: u8) -> u8
    ensures { result ≡ 48 + number % 10 }
{
    b'0' + number % 10
}

/// Returns the three letters of a month, from 1 for January.
pub(crate) fn letters_of(month: u8) -> [u8; 3]
    requires from { 1 ≤ month }
    requires to { month ≤ 12 }
    ensures { result ≡ month_name month }
{
    const LETTERS: [[u8; 3]; 12] = [
        *b"JAN", *b"FEB", *b"MAR", *b"APR", *b"MAY", *b"JUN", *b"JUL", *b"AUG", *b"SEP", *b"OCT",
        *b"NOV", *b"DEC",
    ];
    LETTERS[month as usize - 1]
}

/// Returns the month that the three letters name, from 1 for January.
pub(crate) fn month_of(letters: [u8; 3]) -> Option<u8>
    ensures { MatchOption result
        ((m : ℕ) → 1 ≤ m → m ≤ 12 → letters ≢ month_name m)
        (λ m. (1 ≤ m) × (m ≤ 12) × (letters ≡ month_name m)) }
{
    for month in 1..=12 {
        if letters == letters_of(month) {
            return Some(month);
        }
    }
    None
}
