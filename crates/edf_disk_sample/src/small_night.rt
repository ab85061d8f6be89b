//! Three files of one recording, and its canonical file after each.

use edf_sample::named::{file_k, file_p5, file_q};
use edf_sample::{file, q};
use std::alloc::{AllocError, Global};

/// What is submitted, in this order, and what is exported after each number of them.
#[derive(Drop)]
pub struct Night {
    pub files: Vec<Vec<u8>>,
    pub exports: Vec<Vec<u8>>,
}

/// What fills a block of annotations of 32 bytes.
const EMPTY: &[u8] = &[0; 32];

/// The data record of P5, 15 seconds after Q's; each annotation has a list of its own.
const P5_AFTER_Q: &[u8] = b"\x02\0\xfe\xff+15\x14\x14\0+15.5\x14Snore\x14\0+15.5\x14Turn\x14\0\0";

/// The canonical file of Q and P5: 840 bytes.
pub fn q_and_p5(alloc: Global) -> Option<Vec<u8>> {
    let header = q().count("2").annotations_samples("16");
    let first = b"\x01\0\xff\xff+0\x14\x14\0";
    file(alloc, &header, &[first, &EMPTY[5..], P5_AFTER_Q]).ok()
}

/// P5's canonical file: its onsets are spelled as short as they can be, which saves a sample.
fn after_p5(alloc: Global) -> Result<Vec<u8>, AllocError> {
    let header = q()
        .recording("Startdate 03-MAR-2002 N1 T3 REC5")
        .start("03.03.02", "00.00.05")
        .annotations_samples("14");
    let record = b"\x02\x00\xfe\xff+0\x14\x14\0+0.5\x14Snore\x14\0+0.5\x14Turn\x14\0";
    file(alloc, &header, &[record])
}

fn after_k(alloc: Global) -> Result<Vec<u8>, AllocError> {
    let header = q().count("5").annotations_samples("16");
    let pieces: [&[u8]; 9] = [
        b"\x01\x00\xff\xff+0\x14\x14\0",
        &EMPTY[5..],
        P5_AFTER_Q,
        b"\x0a\0\0\0+3610\x14\x14\0",
        &EMPTY[8..],
        b"\x0b\0\0\0+3611\x14\x14\0",
        &EMPTY[8..],
        b"\x0c\0\0\0+3612\x14\x14\0",
        &EMPTY[8..],
    ];
    file(alloc, &header, &pieces)
}

/// P5, Q and K, and what is exported after none, one, two and three of them.
pub fn three_files(alloc: Global) -> Option<Night> {
    let files = vec![in alloc;
        file_p5(alloc).ok()?,
        file_q(alloc).ok()?,
        file_k(alloc).ok()?,
    ]
    .ok()?;
    let nothing = Vec::new(alloc);
    let exports = vec![in alloc;
        nothing,
        after_p5(alloc).ok()?,
        q_and_p5(alloc)?,
        after_k(alloc).ok()?,
    ]
    .ok()?;
    Some(Night { files, exports })
}
