//! Explanations below the lines, on a terminal.

use crate::advice::{Row, row_of};
use crate::cause::{CHANGED, RENAME, STAYS, on_unwritten};
use crate::terminal::Terminal;
use edf_fragment::{FragmentFault, Remark};

const LEFT_OUT: &str = "readers may leave out annotations that lie outside of the run; split \
    what 'canonical --by-onset' writes, and only those do whose onsets lie in no run";

fn explain_form(terminal: &Terminal<'_>, name: &str, fault: &FragmentFault) {
    let row = row_of(fault);
    if !matches!(row, Row::Own(_) | Row::Field(..)) && !terminal.is_first(fault.number()) {
        return;
    }
    match (row, terminal.is_mending()) {
        (Row::Never(words) | Row::Own(words), _)
        | (Row::Behind(words, _) | Row::Field(words, _) | Row::Instead(words, _), false)
        | (Row::Behind(_, words) | Row::Field(_, words), true) => {
            terminal.advise_of(name, fault, words);
        }
        (Row::Instead(_, words), true) => terminal.advise(name, words),
    }
}

/// Explains what is no fault of form.
fn explain_number(terminal: &Terminal<'_>, name: &str, number: u8) {
    let words = match number {
        30 => {
            "it overlaps what is stored, which stays, as where a clock was set back: keep the \
            file; a store of its own takes it"
        }
        31 => {
            "other samples or annotations are stored for this start, and stay: keep the file; \
            where a clock was set back, or EDFlib wrote a card beside its pieces, a store of its \
            own takes it"
        }
        32 => "its recording is full: begin another store",
        40 if !terminal.is_unread_printed() => return terminal.say(name, CHANGED),
        41 => "run it again with more memory: what standard output got may not be whole",
        43 => on_unwritten(terminal, name),
        _ => return,
    };
    terminal.advise_once(number, name, words);
}

/// Explains the same of what may stop a split, whose files stay.
fn explain_stop(terminal: &Terminal<'_>, name: &str, number: u8) {
    explain_number(terminal, name, number);
    if terminal.is_file_made() {
        terminal.advise(name, STAYS);
    }
}

/// Explains to a person a line about what has this name, below it. An explanation that is the same
/// for each file is printed once.
pub(crate) fn explain(terminal: &Terminal<'_>, name: &str, remark: Remark) {
    match remark {
        Remark::Fault(fault) if fault.number() < 40 => explain_form(terminal, name, &fault),
        Remark::Fault(fault) => explain_number(terminal, name, fault.number()),
        Remark::Refused(number) => explain_stop(terminal, name, number),
        Remark::Taken => terminal.advise(name, RENAME),
        Remark::Outside => terminal.advise_once(0, name, LEFT_OUT),
    }
}
