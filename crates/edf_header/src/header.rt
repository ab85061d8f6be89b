ghost use Rattle.std.specs.Prelude.{◌≡◌};
ghost use Rattle.edf_header.specs.Header.{Layout, IsLayout, block_bytes};

use crate::identity::Identity;
use edf_time::Instant;
use std::marker::Model;

/// An annotations block has the samples of one annotations signal in each data record (EDF+, the
/// annotations signal).
#[derive(Clone, Copy, Debug, PartialEq, Eq)]
pub struct Block {
    /// It begins at this byte of the data record: two for each sample of the signals before it.
    pub at: usize,
    /// It has this many bytes, two for each sample.
    pub bytes: usize,
}

/// A header says of its data records whose they are, from where their onsets count, how many there
/// are, and where the annotations blocks are in each (EDF, header record and data records; EDF+,
/// the annotations signals).
#[derive(Drop)]
pub struct Header {
    pub(crate) identity: Identity,
    pub(crate) start: Instant,
    pub(crate) count: Option<u32>,
    pub(crate) blocks: Vec<Block>,
    pub(crate) annotations_bytes: usize,
    pub(crate) record_bytes: usize,
}

impl Model for Header {
    ghost use Rattle.std.specs.Prelude.{◌≡◌};
    ghost use Rattle.edf_header.specs.Header.{Layout, IsLayout, block_bytes};

    ghost Value = { Layout };

    ghost view = { λ h. record {
      key = h.identity;
      start = h.start;
      count = h.count;
      blocks = h.blocks.items;
      record_bytes = h.record_bytes;
    } };

    ghost invariant = { λ h. let layout : Layout = record {
      key = h.identity;
      start = h.start;
      count = h.count;
      blocks = h.blocks.items;
      record_bytes = h.record_bytes;
    } in IsLayout layout × (h.annotations_bytes ≡ block_bytes layout) };
}

impl Header {
    /// Returns the identity of the recording.
    pub fn identity(&self) -> &Identity
        ensures { result.now ≡ self.now.key }
    {
        &self.identity
    }

    /// Returns the identity of the recording, taken out of the header.
    pub fn into_identity(self) -> Identity
        ensures { result ≡ self.key }
    {
        self.identity
    }

    /// Returns the instant of the startdate and starttime, bytes 168 to 183 of the header: a whole
    /// second, from where the onsets of annotations count.
    pub fn start(&self) -> Instant
        ensures { result ≡ self.now.start }
    {
        self.start
    }

    /// Returns the number of data records, bytes 236 to 243 of the header: 1 to 99,999,999. It is
    /// none where the field is `-1`, while the recording goes on: then there are as many as follow.
    pub fn count(&self) -> Option<u32>
        ensures value { result ≡ self.now.count }
        ensures layout { IsLayout self.now }
    {
        self.count
    }

    /// Returns the annotations blocks of a data record, one for each annotations signal, in file
    /// order. Each has 2 bytes or more, and begins where the one before it ends, or after that.
    pub fn blocks(&self) -> &[Block]
        ensures value { result.now ≡ self.now.blocks }
        ensures layout { IsLayout self.now }
    {
        self.blocks.as_slice()
    }

    /// Returns the bytes that the annotations blocks have together in each data record: 2 to
    /// 4,194,304, two for each sample of the annotations signals.
    pub fn block_bytes(&self) -> usize
        ensures value { result ≡ block_bytes self.now }
        ensures layout { IsLayout self.now }
    {
        self.annotations_bytes
    }

    /// Returns the bytes of a data record, two for each sample of all signals: at most 8,388,608.
    pub fn record_bytes(&self) -> usize
        ensures value { result ≡ self.now.record_bytes }
        ensures layout { IsLayout self.now }
    {
        self.record_bytes
    }
}
