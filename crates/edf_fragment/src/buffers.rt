//! The buffers of a data record: its bytes as they are in the file, and its annotations blocks
//! one after another.
ghost use Rattle.std.specs.Prelude.{◌≡◌, ◌≤◌, ◌+◌, [], length, map, vec_capacity, IfOk};
ghost use Rattle.std.specs.List.{flat_map};
ghost use Rattle.edf_header.specs.Header.{block_bytes};
ghost use Rattle.edf_fragment.specs.Fragment.{blocks, ordinary_bytes};
ghost use Rattle.edf_fragment.specs.Inside.Buffers.{FitOneRecord};

use edf_header::Header;
use std::alloc::{AllocError, Global};

/// The buffers that each data record of a fragment is read through. The header gives their sizes.
#[derive(Drop)]
pub(crate) struct Buffers {
    /// A whole data record.
    pub(crate) whole: Vec<u8>,
    /// Its annotations blocks, joined in file order.
    pub(crate) joined: Vec<u8>,
    /// The number of bytes of each block.
    pub(crate) sizes: Vec<usize>,
}

impl Buffers {
    /// Allocates buffers for the data records of this header.
    pub(crate) fn of(alloc: Global, header: &Header) -> Result<Buffers, AllocError>
        ensures { IfOk result (FitOneRecord header.now) }
    {
        let whole = vec![in alloc; 0u8; header.record_bytes()]?;
        let joined = vec![in alloc; 0u8; header.block_bytes()]?;
        let sizes = header
            .blocks()
            .iter()
            .map(|block| block.bytes)
            .collect(alloc)?;
        Ok(Buffers {
            whole,
            joined,
            sizes,
        })
    }
}

/// Cuts a data record: its ordinary bytes go to `samples`, and its blocks one after another to
/// `joined`.
pub(crate) fn cut_record(header: &Header, whole: &[u8], samples: &mut Vec<u8>, joined: &mut [u8])
    requires whole { length whole.now ≡ header.now.record_bytes }
    requires empty { samples.old.items ≡ [] }
    requires room { header.now.record_bytes ≤ vec_capacity samples.old + block_bytes header.now }
    requires joined { length joined.old ≡ block_bytes header.now }
    ensures samples { samples.new.items ≡ ordinary_bytes header.now whole.now }
    ensures joined { joined.new ≡ flat_map (λ b. b) (blocks header.now whole.now) }
{
    let mut copied = 0;
    for block in header.blocks() {
        // There is room for all that is copied.
        let _ = samples.extend_from_slice(&whole[samples.len() + copied..block.at]);
        joined[copied..copied + block.bytes].copy_from_slice(
            &whole[block.at..block.at + block.bytes],
        );
        copied += block.bytes;
    }
    let _ = samples.extend_from_slice(&whole[samples.len() + copied..]);
}
