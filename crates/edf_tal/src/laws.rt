//! Laws of blocks. The contract of each function is a law, and its body does nothing.
ghost use Rattle.std.specs.Prelude.{◌≡◌, ◌⊎◌, ℕ, ◌+◌, ◌^◌, ◌≤◌, ◌<◌};
ghost use Rattle.std.specs.Prelude.{List, ◌++◌, length, map, replicate};
ghost use Rattle.std.specs.List.{AllByRecursion, flat_map};
ghost use Rattle.edf_time.specs.Civil.{window};
ghost use Rattle.edf_tal.specs.Tal.{Tal, Annotation, IsTal, AreTalBlocks, IsValidAnnotation};
ghost use Rattle.edf_tal.specs.Block.{BlocksParseTo, BlockParsesTo, BlocksHaveFirstFault};
ghost use Rattle.edf_tal.specs.Block.{IsWithinLimits, split_by_sizes};
ghost use Rattle.edf_tal.specs.Canonical.{tals_text};
ghost use Rattle.edf_tal.specs.declared.place.TalFault.{TalFault};
ghost use Rattle.edf_tal.specs.declared.place.TalFault.TheVariants.{Memory};
ghost use Rattle.edf_tal.specs.declared.place.Place.{Place};
ghost use Rattle.edf_tal.specs.declared.place.Place.TheVariants.{First, After, Any};

use crate::limits::MOST_CANONICAL_BLOCK_BYTES;

/// Bytes parse to at most one TAL.
pub fn one_tal()
    ensures { (b : List ℕ) (t u : Tal) → IsTal b t → IsTal b u → t ≡ u }
{}

/// Blocks parse to at most one list of TALs each.
pub fn one_block()
    ensures { (bs : List (List ℕ)) (ts us : List (List Tal)) →
        AreTalBlocks bs ts → AreTalBlocks bs us → ts ≡ us }
{}

/// The blocks of a data record have at most one answer at a place: a start and a list, or a fault.
pub fn one_answer()
    ensures one_read { (bs : List (List ℕ)) (s : ℕ) (p : Place) (m n : ℕ)
        (k l : List Annotation) →
        BlocksParseTo bs s p m k → BlocksParseTo bs s p n l → (m ≡ n) × (k ≡ l) }
    ensures not_both { (bs : List (List ℕ)) (s : ℕ) (p : Place) (m : ℕ) (l : List Annotation)
        (e : TalFault) → BlocksParseTo bs s p m l → ¬ BlocksHaveFirstFault bs s p e }
    ensures one_fault { (bs : List (List ℕ)) (s : ℕ) (p : Place) (e f : TalFault) →
        BlocksHaveFirstFault bs s p e → BlocksHaveFirstFault bs s p f → e ≡ f }
{}

/// The blocks of a data record have an answer at each place, and `Memory` is no fault of theirs.
pub fn some_answer()
    ensures some { (bs : List (List ℕ)) (s : ℕ) (p : Place) →
        ((start : ℕ) × (list : List Annotation) × BlocksParseTo bs s p start list)
        ⊎ ((e : TalFault) × BlocksHaveFirstFault bs s p e) }
    ensures not_memory { (bs : List (List ℕ)) (s : ℕ) (p : Place) →
        ¬ BlocksHaveFirstFault bs s p Memory }
{}

/// Blocks that are joined and then split by their lengths are the same blocks.
pub fn cut_again()
    ensures { (bs : List (List ℕ)) → split_by_sizes (map length bs) (flat_map (λ b. b) bs) ≡ bs }
{}

/// A canonical block, alone or filled with zeros, parses to what was written.
pub fn read_again()
    ensures alone { (base start : ℕ) (list : List Annotation) →
        base < window → start < window → AllByRecursion IsValidAnnotation list →
        IsWithinLimits list → BlockParsesTo (tals_text base start list) base Any start list }
    ensures any { (base start n : ℕ) (list : List Annotation) →
        base < window → start < window → AllByRecursion IsValidAnnotation list →
        IsWithinLimits list →
        BlockParsesTo (tals_text base start list ++ replicate n 0) base Any start list }
    ensures first { (base start n : ℕ) (list : List Annotation) →
        base < window → start < window → AllByRecursion IsValidAnnotation list →
        IsWithinLimits list → base ≤ start → start < base + 10 ^ 9 →
        BlockParsesTo (tals_text base start list ++ replicate n 0) base First start list }
    ensures after { (base start n before duration : ℕ) (list : List Annotation) →
        base < window → start < window → AllByRecursion IsValidAnnotation list →
        IsWithinLimits list → before + duration ≤ start →
        BlockParsesTo (tals_text base start list ++ replicate n 0) base
        (After before duration) start list }
{}

/// Blocks parse to a start in the window and to annotations within the limits.
pub fn read_annotations()
    ensures start { (bs : List (List ℕ)) (s : ℕ) (p : Place) (start : ℕ)
        (list : List Annotation) → BlocksParseTo bs s p start list → start < window }
    ensures annotations { (bs : List (List ℕ)) (s : ℕ) (p : Place) (start : ℕ)
        (list : List Annotation) → BlocksParseTo bs s p start list →
        AllByRecursion IsValidAnnotation list }
    ensures limits { (bs : List (List ℕ)) (s : ℕ) (p : Place) (start : ℕ)
        (list : List Annotation) → BlocksParseTo bs s p start list → IsWithinLimits list }
{}

/// Blocks that parse at some place parse to the same at `Any`.
pub fn any_place()
    ensures { (bs : List (List ℕ)) (s : ℕ) (p : Place) (start : ℕ) (list : List Annotation) →
        BlocksParseTo bs s p start list → BlocksParseTo bs s Any start list }
{}

/// A canonical block is that of one start and one list.
pub fn one_writing()
    ensures { (base m n : ℕ) (k l : List Annotation) → base < window → m < window → n < window →
        AllByRecursion IsValidAnnotation k → AllByRecursion IsValidAnnotation l →
        IsWithinLimits k → IsWithinLimits l →
        tals_text base m k ≡ tals_text base n l → (m ≡ n) × (k ≡ l) }
{}

/// A canonical block within the limits has at most `MOST_CANONICAL_BLOCK_BYTES`.
pub fn most_bytes()
    ensures { (base start : ℕ) (list : List Annotation) →
        base < window → start < window → IsWithinLimits list →
        AllByRecursion IsValidAnnotation list →
        length (tals_text base start list) ≤ MOST_CANONICAL_BLOCK_BYTES }
{}
