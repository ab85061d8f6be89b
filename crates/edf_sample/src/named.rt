//! Small named files, spelled in the standards' words.

use crate::files::{Header, Signal, file, push_field, q};
use std::alloc::{AllocError, Global};

const ZEROS: &[u8] = &[0; 128];

/// The data record of file Q.
const Q_RECORD: &[u8] = b"\x01\x00\xff\xff+0\x14\x14\0\0";

/// One data record of Q's recording from 2002-03-02 23:59:50, no annotation: 778 bytes. It is its
/// own canonical file.
pub fn file_q(alloc: Global) -> Result<Vec<u8>, AllocError> {
    file(alloc, &q(), &[Q_RECORD])
}

/// The bytes of the identity of Q's recording: 414 bytes.
pub fn identity_q(alloc: Global) -> Result<Vec<u8>, AllocError> {
    let mut bytes = Vec::new(alloc);
    for (text, width) in [
        ("P7 F 02-MAY-1951 X", 80usize),
        ("D", 1),
        (" N1 T3 REC5", 69),
        ("1", 8),
        ("EEG Fpz-Cz", 16),
        ("AgAgCl electrode", 80),
        ("uV", 8),
        ("-440", 8),
        ("510", 8),
        ("-2048", 8),
        ("2047", 8),
        ("HP:0.1Hz LP:75Hz", 80),
        ("2", 8),
        ("", 32),
    ] {
        push_field(&mut bytes, text.as_bytes(), width)?;
    }
    Ok(bytes)
}

/// Q's recording on the third of March, from this time on.
fn third_of_march(time: &'static str) -> Header<'static> {
    q().recording("Startdate 03-MAR-2002 N1 T3 REC5")
        .start("03.03.02", time)
}

/// One data record of Q's recording from 2002-03-03 00:00:05, with two annotations of one instant:
/// 802 bytes.
pub fn file_p5(alloc: Global) -> Result<Vec<u8>, AllocError> {
    let header = third_of_march("00.00.05").annotations_samples("15");
    let record = b"\x02\x00\xfe\xff+0\x14\x14\0+0.50\x14Snore\x14\0+0.5\x14Turn\x14\0\0";
    file(alloc, &header, &[record])
}

/// Two data records of Q's recording from 2002-03-03 00:00:00, five seconds apart, the annotations
/// signal first, the second record that of P5: 824 bytes.
pub fn file_r9(alloc: Global) -> Result<Vec<u8>, AllocError> {
    let header = third_of_march("00.00.00")
        .count("2")
        .annotations_samples("12")
        .annotations_first();
    let first = b"+0\x14\x14\0";
    let second = b"+5.0\x14\x14\0+5.5\x14Snore\x14Turn\x14\0";
    file(
        alloc,
        &header,
        &[
            first,
            &ZEROS[..19],
            b"\x03\x00\xfd\xff",
            second,
            b"\x02\x00\xfe\xff",
        ],
    )
}

/// One data record of Q's recording from 2002-03-03 01:00:00, with the sample 10: 778 bytes.
pub fn file_n1(alloc: Global) -> Result<Vec<u8>, AllocError> {
    file(
        alloc,
        &third_of_march("01.00.00"),
        &[b"\x0a\0\0\0+0\x14\x14\0\0"],
    )
}

/// The second after N1, with the sample 11.
pub fn file_n2(alloc: Global) -> Result<Vec<u8>, AllocError> {
    file(
        alloc,
        &third_of_march("01.00.01"),
        &[b"\x0b\0\0\0+0\x14\x14\0\0"],
    )
}

/// The second after N2, with the sample 12.
pub fn file_n3(alloc: Global) -> Result<Vec<u8>, AllocError> {
    file(
        alloc,
        &third_of_march("01.00.02"),
        &[b"\x0c\0\0\0+0\x14\x14\0\0"],
    )
}

/// The three seconds N1, N2 and N3 in one file, as a recorder's card has them: 798 bytes.
pub fn file_k(alloc: Global) -> Result<Vec<u8>, AllocError> {
    let header = third_of_march("01.00.00").count("3").reserved("EDF+C");
    file(
        alloc,
        &header,
        &[
            b"\x0a\0\0\0+0\x14\x14\0\0",
            b"\x0b\0\0\0+1\x14\x14\0\0",
            b"\x0c\0\0\0+2\x14\x14\0\0",
        ],
    )
}

/// One data record of Q's recording from Q's start, of three signals: 1,050 bytes. The annotations
/// signals are before and after the EEG signal. The first keeps time, the second has an annotation.
pub fn file_v(alloc: Global) -> Result<Vec<u8>, AllocError> {
    let signals = [
        Signal::annotations("3"),
        Signal::eeg(),
        Signal::annotations("8"),
    ];
    let header = q().signals("3").header_bytes("1024").listed(&signals);
    let record = b"+0\x14\x14\0\0\x01\x00\xff\xff+0.5\x14Snore\x14\0\0\0\0\0";
    file(alloc, &header, &[record])
}

/// The header of U.
fn u() -> Header<'static> {
    q().patient("X X X X")
        .recording("Startdate 02-MAR-2002 X X X")
        .start("02.03.02", "22.00.00")
        .reserved("EDF+C")
        .count("2")
        .physical("-3276.8", "3276.7")
        .digital("-32768", "32767")
        .annotations_samples("57")
}

/// Two data records of one second with spare annotation samples and an onset spelled longer than it
/// needs: 1,004 bytes.
pub fn file_u(alloc: Global) -> Result<Vec<u8>, AllocError> {
    let first = b"\x01\0\x02\0+0\x14\x14\0+0.5000000\x14Lights off\x14\0";
    let second = b"\x03\0\x04\0+1\x14\x14\0";
    file(alloc, &u(), &[first, &ZEROS[..86], second, &ZEROS[..109]])
}
