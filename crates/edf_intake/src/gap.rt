//! Times in which no stored data record of a recording starts.

ghost use Rattle.std.specs.Prelude.{◌≡◌, ◌+◌, ◌≤◌, ◌↔◌, List, [], IsTrue, IfSome, OnSome};
ghost use Rattle.edf_fragment.specs.Fragment.{DataRecord};
ghost use Rattle.edf_holdings.specs.Clash.{overlapping};
ghost use Rattle.edf_intake.specs.Inside.Gap.{IsGap};

use edf_field::MOST_DURATION;
use edf_time::Instant;

/// No stored data record of a recording starts after `from` and before `until`; without an `until`,
/// none starts after `from`.
#[derive(Clone, Copy)]
pub(crate) struct Gap {
    pub(crate) from: Instant,
    pub(crate) until: Option<Instant>,
}

/// Returns the rest of a gap after a data record that starts at `start` and lies in it: nothing is
/// near that. Returns `None` if it does not lie in the gap, or if no gap is known.
pub(crate) fn gap_after(gap: Option<Gap>, start: Instant, duration: u64) -> Option<Gap>
    requires duration { duration ≤ MOST_DURATION }
    ensures from { IfSome result (λ rest. rest.from ≡ start) }
    ensures none_near { OnSome result ((records : List DataRecord) →
        IfSome gap (IsGap records) → overlapping duration start records ≡ []) }
    ensures rest { IfSome result (λ rest. (records : List DataRecord) →
        IfSome gap (IsGap records) → IsGap records rest) }
{
    let gap = gap?;
    let begins_late = ends_by(gap.from, duration, Some(start));
    if begins_late && ends_by(start, duration, gap.until) {
        Some(Gap { from: start, ..gap })
    } else {
        None
    }
}

/// Is true if a data record that starts at `start` ends by `until`, or there is no `until`.
fn ends_by(start: Instant, duration: u64, until: Option<Instant>) -> bool
    requires duration { duration ≤ MOST_DURATION }
    ensures { IsTrue result ↔ IfSome until (λ until. start + duration ≤ until) }
{
    match until {
        Some(until) => start.nanos() + duration <= until.nanos(),
        None => true,
    }
}
