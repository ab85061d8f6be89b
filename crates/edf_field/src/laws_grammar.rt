//! Number texts are read exactly where the grammar has them. Each function states a law of it.
ghost use Rattle.std.specs.Prelude.{◌≡◌, ◌≢◌, ℕ, ◌-◌, ◌^◌, ◌≤◌, ◌<◌, ◌++◌, ◌↔◌, List, ℤ};
ghost use Rattle.std.specs.Fmt.{decimal};
ghost use Rattle.edf_time.specs.Decimal.{short};
ghost use Rattle.edf_field.specs.Text.{spaces};
ghost use Rattle.std.specs.Str.Parse.{digits_value};
ghost use Rattle.edf_field.specs.Number.{IsWhole, whole_value, IsSigned, signed_value, IsPhysical};
ghost use Rattle.edf_field.specs.Number.{fraction_len, scaled, DifferAsNumbers, IsDuration};
ghost use Rattle.edf_field.specs.Number.{IsDurationInRange};
ghost use Rattle.edf_field.specs.Grammar.{IsWholeText, IsSignedText, IsPhysicalText};
ghost use Rattle.edf_field.specs.Grammar.{IsDurationText, AreDecimalDigits, filled, widened};

/// A whole number is one digit or more and then spaces, and its value what these digits write.
pub fn whole_texts()
    ensures { (text : List ℕ) (n : ℕ) →
        (IsWhole text × (n ≡ whole_value text)) ↔ IsWholeText text n }
{}

/// A signed whole number is a sign or none, one digit or more and then spaces.
pub fn signed_texts()
    ensures { (text : List ℕ) (z : ℤ) →
        (IsSigned text × (z ≡ signed_value text)) ↔ IsSignedText text z }
{}

/// A physical value is a sign or none, one digit or more, maybe a dot and zero or more digits, and
/// then spaces. Counted in units of its last decimal place, or of any after it, it is what its
/// digits write, filled up with zeros to that place.
pub fn physical_texts()
    ensures { (text : List ℕ) (at : ℕ) (z : ℤ) →
        (IsPhysical text × (fraction_len text ≤ at) × (z ≡ scaled text (at - fraction_len text)))
        ↔ IsPhysicalText text at z }
{}

/// Physical values differ exactly where their numbers do: `0` and `-0.0` don't, nor `1.` and
/// `1.00`.
pub fn physical_numbers()
    ensures { (a b : List ℕ) (at : ℕ) (x y : ℤ) → IsPhysicalText a at x → IsPhysicalText b at y →
        (DifferAsNumbers a b ↔ (x ≢ y)) }
{}

/// A duration is one digit or more, maybe a dot and one or more digits, and then spaces; its
/// nanoseconds are its seconds times a thousand million, exactly.
pub fn duration_texts()
    ensures { (text : List ℕ) (nanos : ℕ) → IsDuration text nanos ↔ IsDurationText text nanos }
{}

/// Decimals write one number exactly where they have the same digits but for leading and trailing
/// zeros.
pub fn decimal_digits()
    ensures { (whole part other rest : List ℕ) (wide at : ℕ) → AreDecimalDigits whole part wide at →
        AreDecimalDigits other rest wide at →
        ((digits_value 10 (filled whole part at) ≡ digits_value 10 (filled other rest at))
        ↔ (widened whole part wide at ≡ widened other rest wide at)) }
{}

/// A number that is written without needless zeros, and filled up with spaces, is read as itself.
pub fn written_texts()
    ensures whole { (n blanks : ℕ) → n < 2 ^ 64 → IsWholeText (decimal n ++ spaces blanks) n }
    ensures duration { (nanos blanks : ℕ) → IsDurationInRange nanos → nanos < 10 ^ 73 →
        IsDurationText (short nanos ++ spaces blanks) nanos }
{}
