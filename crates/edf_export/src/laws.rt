//! Laws about exports. Each function has a law as its contract, and does nothing.

ghost use Rattle.std.specs.Prelude.{ℕ, List, Option};
ghost use Rattle.edf_header.specs.Key.{Key};
ghost use Rattle.edf_fragment.specs.Fragment.{DataRecord, IsFragmentFile};
ghost use Rattle.edf_fragment.specs.Parsed.{Parsed};
ghost use Rattle.edf_holdings.specs.Holdings.{Holdings, IsSound};
ghost use Rattle.edf_holdings.specs.Laws.{AreWellFormed};
ghost use Rattle.edf_canonical.specs.File.{IsCanonicalFile};
ghost use Rattle.edf_export.specs.Export.{IsExported};
ghost use Rattle.edf_export.specs.Again.{IsAcceptedAgain, SameRecordsGiveSameFile};
ghost use Rattle.edf_export.specs.Headline.{Headline, ParseToOneList};

/// An export is a fragment of just the key and the data records that were exported.
pub fn an_export_is_a_fragment()
    ensures { (before after : Option (List ℕ)) (key : Key) (records : List DataRecord) (len : ℕ) →
        (export : IsExported before after key records len) →
        IsFragmentFile export.file key records }
{}

/// The file of a recording in sound holdings is accepted again: with nothing new where it is held,
/// and with every data record new where nothing is held; then the same file is exported.
pub fn an_export_is_accepted_again()
    ensures { (cap : ℕ) (h : Holdings) (key : Key) (file : List ℕ) →
        IsSound cap h → IsCanonicalFile file key (h key) → IsAcceptedAgain cap h key file }
{}

/// Conflict-free lists of submissions with the same data records, however cut, ordered or repeated,
/// export the same bytes.
pub fn the_same_records_export_alike()
    ensures { SameRecordsGiveSameFile }
{}

/// The headline. After every list of submissions to sound holdings, each key that holds something
/// has one canonical file, of the records that were held and those of the accepted members, each
/// once, rising; a refused member changes nothing; and conflict-free lists with the same records
/// are accepted whole and give the same files. Byte strings parse to exactly one such list.
pub fn headline()
    ensures law { (cap : ℕ) (h : Holdings) (submissions : List Parsed) →
        IsSound cap h → AreWellFormed submissions → Headline cap h submissions }
    ensures files { (files : List (List ℕ)) → ParseToOneList files }
{}
