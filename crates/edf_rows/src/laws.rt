//! Rows have these laws: the contract of each function is a law, and its body is empty.

ghost use Rattle.std.specs.Prelude.{◌≡◌, ◌⊎◌, ℕ};
ghost use Rattle.sqlite_trees.specs.Tree.{Trees};
ghost use Rattle.edf_header.specs.Key.{Key};
ghost use Rattle.edf_fragment.specs.Fragment.{DataRecord};
ghost use Rattle.edf_fragment.specs.Sound.{IsSoundRecord};
ghost use Rattle.edf_holdings.specs.Holdings.{Holdings, IsSound};
ghost use Rattle.edf_rows.specs.Cells.{record_cells};
ghost use Rattle.edf_rows.specs.Rows.{Represent, RepresentCommitted};
ghost use Rattle.edf_rows.specs.Foreign.{IsBadRow, IsForeign};

/// Sound holdings that the same rows represent are equal.
pub fn one_holdings()
    ensures { (trees : Trees) (h i : Holdings) (c d : ℕ) → Represent trees h → IsSound c h →
        Represent trees i → IsSound d i → h ≡ i }
{}

/// No two sound data records of a key have the same cells, and none has those of a bad row.
pub fn one_record()
    ensures one { (k : Key) (r s : DataRecord) → IsSoundRecord k r → IsSoundRecord k s →
        record_cells r ≡ record_cells s → r ≡ s }
    ensures good { (k : Key) (r : DataRecord) → IsSoundRecord k r → ¬ IsBadRow k (record_cells r) }
{}

/// Rows that represent sound holdings, each recording with a record, are not foreign.
pub fn committed_is_not_foreign()
    ensures { (cap : ℕ) (trees : Trees) (h : Holdings) → RepresentCommitted cap trees h →
        ¬ IsForeign cap trees }
{}

/// Any rows represent sound holdings under the cap, each recording with a record, or are foreign;
/// by the law `committed_is_not_foreign` they are never both.
pub fn committed_or_foreign()
    ensures { (cap : ℕ) (trees : Trees) →
        ((h : Holdings) × RepresentCommitted cap trees h) ⊎ IsForeign cap trees }
{}
