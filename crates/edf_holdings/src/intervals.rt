ghost use Rattle.std.specs.Prelude.{◌<◌, MatchOption};
ghost use Rattle.edf_holdings.specs.Clash.{Clash as DoClash};
ghost use Rattle.edf_holdings.specs.Kind.{IsClashOfKind};

use crate::kind::Clash;
use edf_fragment::Record;

/// Returns how two data records clash that last `duration` nanoseconds each: not at all where they
/// are the same, or one starts no earlier than the other ends.
pub fn clash(a: &Record, b: &Record, duration: u64) -> Option<Clash>
    requires { 0 < duration }
    ensures { MatchOption result (¬ DoClash duration a.now b.now)
        (IsClashOfKind duration a.now b.now) }
{
    if a.start() == b.start() {
        if a.same(b) {
            None
        } else {
            Some(Clash::Differs)
        }
    } else if a.start().nanos().abs_diff(b.start().nanos()) < duration {
        Some(Clash::Overlap)
    } else {
        None
    }
}
