//! Places of a filled file, which are a part's length apart.

ghost use Rattle.std.specs.Prelude.{◌≡◌, ◌+◌, ◌-◌, ◌*◌, ◌^◌, ◌<◌, ◌≤◌};
ghost use Rattle.edf_field.specs.declared.number.TheConstants.{MOST_DURATION};
ghost use Rattle.edf_runs.specs.Filled.{place_of};

use edf_field::MOST_DURATION;
use edf_time::Instant;

/// Returns the place of an instant: how many parts after the first it lies, to the nearest.
pub(crate) fn place_of(unit: u64, first: Instant, instant: Instant) -> u64
    requires some { 0 < unit }
    requires few { unit ≤ MOST_DURATION }
    ensures value { result ≡ place_of unit first instant }
    ensures few { result < 2 ^ 63 }
    ensures fits { first + result * unit < 2 ^ 64 }
{
    (2 * instant.nanos().saturating_sub(first.nanos()) + unit) / (2 * unit)
}

/// Returns how far apart two instants are, in nanoseconds.
pub(crate) fn apart(one: u64, other: u64) -> u64
    ensures { result ≡ (one - other) + (other - one) }
{
    one.abs_diff(other)
}
