//! A night of twenty files of one second each, and its canonical file after the first few.

use edf_disk_sample::Night;
use edf_sample::{Header, file, q};
use std::alloc::{AllocError, Global};

/// How many files the night has.
pub(crate) const FILES: usize = 20;

/// The header of a file that starts so many seconds after midnight.
fn header<'a>(time: &'a str, count: &'a str) -> Header<'a> {
    q().recording("Startdate 03-MAR-2002 N1 T3 REC5")
        .start("03.03.02", time)
        .count(count)
}

/// The data record of a second, whose first sample is its number, and its onset in a file.
fn push_record(body: &mut Vec<u8>, second: usize, onset: &str) -> Result<(), AllocError> {
    let sample = u8::try_from(second).unwrap_or(u8::MAX);
    body.extend_from_slice(&[sample, 0, 0xff, 0xff])?;
    body.extend_from_slice(onset.as_bytes())?;
    for _ in onset.len()..6 {
        body.push(0)?;
    }
    Ok(())
}

/// The file of one second, as a recorder sends it.
fn file_of(alloc: Global, second: usize) -> Option<Vec<u8>> {
    let mut body = Vec::new(alloc);
    push_record(&mut body, second, "+0\x14\x14\0").ok()?;
    let time = format!(in alloc; "00.00.{second:02}").ok()?;
    file(alloc, &header(time.as_str(), "1"), &[body.as_slice()]).ok()
}

/// The canonical file of the first seconds; nothing where there are none.
fn export_of(alloc: Global, count: usize) -> Option<Vec<u8>> {
    let mut body = Vec::new(alloc);
    if count == 0 {
        return Some(body);
    }
    for second in 0..count {
        let onset = format!(in alloc; "+{second}\x14\x14\0").ok()?;
        push_record(&mut body, second, onset.as_str()).ok()?;
    }
    let text = format!(in alloc; "{count}").ok()?;
    let header = header("00.00.00", text.as_str());
    file(alloc, &header, &[body.as_slice()]).ok()
}

/// The files of the night in their order, and what is exported after each number of them.
pub(crate) fn twenty_seconds(alloc: Global) -> Option<Night> {
    let mut files = Vec::new(alloc);
    let mut exports = Vec::new(alloc);
    for second in 0..FILES {
        files.push(file_of(alloc, second)?).ok()?;
        exports.push(export_of(alloc, second)?).ok()?;
    }
    exports.push(export_of(alloc, FILES)?).ok()?;
    Some(Night { files, exports })
}
