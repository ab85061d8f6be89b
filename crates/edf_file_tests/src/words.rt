//! What words print that no stored run shows: the version, what is read from standard input, that
//! pictures are SVG. And the text of a fault.

use crate::stage::plain_story;
use edf_cli::VERSION;
use edf_header::{Format, HeaderFault};
use std::alloc::Global;

/// A line of words, and how what it prints begins and ends.
const PRINTED: &[(&str, &str, &str)] = &[(
    "edfruns picture two.edf",
    "<svg ",
    "</svg>\nstatus 0, 0 files\n",
)];

/// Whether a line of words prints what begins and ends so.
fn prints(alloc: Global, line: &str, beginning: &str, end: &str) -> bool {
    match plain_story(alloc, line) {
        Some(text) => text.as_str().starts_with(beginning) && text.as_str().ends_with(end),
        None => false,
    }
}

/// What is printed where a line asks for the version of a program.
fn is_version(alloc: Global, program: &str) -> Option<bool> {
    let line = format!(in alloc; "{program} --version").ok()?;
    let expected = format!(in alloc; "{program} {VERSION}\nstatus 0, 0 files\n").ok()?;
    Some(plain_story(alloc, line.as_str())? == expected)
}

#[test]
fn words_print_what_they_ask_for(rt: HostRuntime) {
    for (line, beginning, end) in PRINTED.iter().copied() {
        assert!(rt; prints(rt.alloc(), line, beginning, end), "{line}");
    }
    for program in ["edfruns", "edfmend"] {
        assert_eq!(rt; is_version(rt.alloc(), program), Some(true), "{program}");
    }
}

/// Whether a fault is shown as this text.
fn is_shown_as(alloc: Global, fault: HeaderFault, text: &str) -> Option<bool> {
    let shown = format!(in alloc; "{fault}").ok()?;
    Some(shown.as_str() == text)
}

/// A fault, its text, and its number.
const FAULTS: &[(HeaderFault, &str, u8)] = &[
    (HeaderFault::Cut, "it has fewer than 256 bytes", 1),
    (
        HeaderFault::Unprintable {
            offset: 20,
            format: Format::Edf,
        },
        "a byte of its header is no printable ASCII",
        2,
    ),
    (
        HeaderFault::Physical { signal: 3 },
        "this signal's physical limits are no numbers, or equal",
        17,
    ),
    (HeaderFault::Memory, "out of memory", 41),
];

#[test]
fn a_fault_says_what_is_wrong(rt: HostRuntime) {
    for (fault, text, number) in FAULTS.iter().copied() {
        let told = (fault.number(), is_shown_as(rt.alloc(), fault, text));
        assert_eq!(rt; told, (number, Some(true)));
    }
}
