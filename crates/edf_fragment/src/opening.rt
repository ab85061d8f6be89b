ghost use Rattle.std.specs.Prelude.{◌≡◌, ◌≢◌};
ghost use Rattle.edf_fragment.specs.Reading.{ReadsHeader, IsOpenFault};
ghost use Rattle.edf_fragment.specs.Call.{ReadsInput, ValueOrFault, input_state};
ghost use Rattle.edf_fragment.specs.Inside.Steps.{ReadsFixed, ReadsSignalHeaders};
ghost use Rattle.edf_fragment.specs.Inside.Steps.{IsSignalHeadersFault};

use crate::fault::FragmentFault;
use crate::streams::{Filled, Input, fill};
use edf_header::{Fixed, Header, HeaderFault, read_fixed, read_signals};
use std::alloc::Global;

/// Returns the refusal for a header's fault, or for want of memory.
fn header_refusal(fault: HeaderFault) -> FragmentFault
    ensures memory { fault ≡ HeaderFault.Memory → result ≡ FragmentFault.Memory }
    ensures other { fault ≢ HeaderFault.Memory → result ≡ FragmentFault.Header fault }
{
    match fault {
        HeaderFault::Memory => FragmentFault::Memory,
        _ => FragmentFault::Header(fault),
    }
}

/// Reads the fixed part, 256 bytes.
fn read_fixed_part<R: Input>(input: &mut R) -> Result<Fixed, FragmentFault>
    ensures { ReadsInput (ValueOrFault ReadsFixed IsOpenFault)
        (input_state R.Input input.old) (input_state R.Input input.new) result }
{
    let mut bytes = [0u8; 256];
    match fill(input, &mut bytes) {
        Filled::Full => {}
        Filled::Cut { .. } => return Err(FragmentFault::Header(HeaderFault::Cut)),
        Filled::Failed => return Err(FragmentFault::Read),
    }
    match read_fixed(&bytes) {
        Ok(fixed) => Ok(fixed),
        Err(fault) => Err(header_refusal(fault)),
    }
}

/// Reads the signals, 256 bytes each.
fn read_signal_headers<R: Input>(
    alloc: Global,
    input: &mut R,
    fixed: Fixed,
) -> Result<Header, FragmentFault>
    ensures { ReadsInput
        (ValueOrFault (λ before rest. ReadsSignalHeaders before rest fixed)
        (λ before rest. IsSignalHeadersFault before rest fixed.signal_count))
        (input_state R.Input input.old) (input_state R.Input input.new) result }
{
    let Ok(mut bytes) = vec![in alloc; 0u8; 256 * fixed.signals()] else {
        return Err(FragmentFault::Memory);
    };
    let there = match fill(input, bytes.as_mut_slice()) {
        Filled::Full => bytes.len(),
        Filled::Cut { at } => at,
        Filled::Failed => return Err(FragmentFault::Read),
    };
    match read_signals(alloc, fixed, &bytes.as_slice()[..there]) {
        Ok(header) => Ok(header),
        Err(fault) => Err(header_refusal(fault)),
    }
}

/// Reads a header, and no byte more.
pub(crate) fn read_header<R: Input>(alloc: Global, input: &mut R) -> Result<Header, FragmentFault>
    ensures { ReadsInput (ValueOrFault ReadsHeader IsOpenFault)
        (input_state R.Input input.old) (input_state R.Input input.new) result }
{
    let fixed = read_fixed_part(input)?;
    read_signal_headers(alloc, input, fixed)
}
