//! A flat data record has samples of one value a signal.

ghost use Rattle.std.specs.Prelude.{◌≡◌, ℕ, List, ◌++◌, pos, ◌+ℤ◌, OnOk};
ghost use Rattle.edf_field.specs.Number.{signed_value};
ghost use Rattle.edf_field.specs.Nearest.{IsNearest};
ghost use Rattle.edf_header.specs.Fields.{digital_minimum_field, physical_minimum_field};
ghost use Rattle.edf_header.specs.Fields.{physical_maximum_field};
ghost use Rattle.edf_header.specs.Flat.{IsFlat, sample_bytes, steps_of};
ghost use Rattle.edf_header.specs.Signal.{HasDigital, HasPhysical, HasSamples};

use crate::fields::{
    DIGITAL_MAXIMUM, DIGITAL_MINIMUM, PHYSICAL_MAXIMUM, PHYSICAL_MINIMUM, PREFILTERING,
};
use crate::signal_checks::samples_of;
use edf_field::{nearest_to_zero, read_signed};
use std::alloc::AllocError;

/// Returns the sample of a signal that stands for the physical value nearest to 0.
fn flat_sample(row: &[u8; 256]) -> [u8; 2]
    requires physical { HasPhysical row.now }
    requires digital { HasDigital row.now }
    ensures { (above : ℕ) × IsNearest (physical_minimum_field row.now)
        (physical_maximum_field row.now) (steps_of row.now) above
        × (result ≡ sample_bytes (signed_value (digital_minimum_field row.now) +ℤ pos above)) }
{
    let (Some(low), Some(high)) = (
        read_signed(&row[DIGITAL_MINIMUM..DIGITAL_MAXIMUM]),
        read_signed(&row[DIGITAL_MAXIMUM..PREFILTERING]),
    ) else {
        unreachable!()
    };
    let Some(above) = nearest_to_zero(
        &row[PHYSICAL_MINIMUM..PHYSICAL_MAXIMUM],
        &row[PHYSICAL_MAXIMUM..DIGITAL_MINIMUM],
        (high - low) as u32,
    ) else {
        unreachable!()
    };
    ((low + above as i32) as i16).to_le_bytes()
}

/// Writes all samples of a signal in a flat data record.
pub(crate) fn push_flat(out: &mut Vec<u8>, row: &[u8; 256]) -> Result<(), AllocError>
    requires physical { HasPhysical row.now }
    requires digital { HasDigital row.now }
    requires samples { HasSamples row.now }
    ensures { OnOk result ((bytes : List ℕ) × IsFlat row.now bytes
        × (out.new.items ≡ out.old.items ++ bytes)) }
{
    let sample = flat_sample(row);
    for _ in 0..samples_of(row) {
        out.extend_from_slice(&sample)?;
    }
    Ok(())
}
