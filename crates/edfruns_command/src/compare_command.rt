//! `compare`: what has one file of another of the same recording?

ghost use Rattle.std.specs.Prelude.{◌≡◌, ◌↔◌, ◌∷◌, [], ℕ, List, All, IsTrue};
ghost use Rattle.edf_cli.specs.Output.{output_change};
ghost use Rattle.edf_runs.specs.declared.stretch.Word.TheVariants.{Known};
ghost use Rattle.edfruns_command.specs.Answering.{Answers};
ghost use Rattle.edfruns_command.specs.Comparing.{IsComparedOut, AnswersWords, fault_status};
ghost use Rattle.edfruns_command.specs.Listed.{OpensEach};

use crate::arguments::{required_value, value_in};
use crate::instant_word::text_of_instant;
use crate::refusal::{STANDARD_OUTPUT, print_unwritten, refuse};
use crate::runs_command::RunsCommand;
use clap::{ArgMatches, Command};
use edf_cli::{CommandFault, Inputs, Status, concat, print_memory, print_parts, refuse_value};
use edf_fragment::{Output, send};
use edf_header::Identity;
use edf_runs::{CompareFault, Comparison, Stretch, Word, compare_files};
use std::alloc::{AllocError, Global};

const COMPARE_MORE: &str = "\
Says of each data record of the second file what the first has: 'known' ones it has,
'new' ones it lacks, of 'differs' it has others that start then, and 'overlaps' are
such as overlap one of it. Those of the first for which the second has none are
'lacking'. Neighbours of one word stand in one line:
  known records=960 from=2023-11-05T01:30:00 to=2023-11-05T01:46:00
The status is 0 where each data record of the second is known, and else 1.";

const COMPARE_EXAMPLE: &str = "\
Example:
  edfruns compare night.edf card.edf";

/// What usage calls the command.
const NAME: &str = "edfruns compare";

/// The word and its values, as `clap` gets them.
pub(crate) fn compare_words<'a>(alloc: Global) -> Result<Command<'a>, AllocError> {
    Command::new(alloc, "compare")
        .about("Says what of a file another one has")
        .long_about(COMPARE_MORE)
        .after_help(COMPARE_EXAMPLE)
        .arg(required_value(alloc, "FILE", "A file in EDF+C or EDF+D, as a night"))?
        .arg(required_value(alloc, "OTHER", "Another of the same recording, as a card"))
}

/// Why `-` is refused.
const NO_STREAM: &str = "FILE and OTHER can't be standard input: write it to a file first";

/// What its values ask for.
pub(crate) fn read_compare(
    alloc: Global,
    values: &ArgMatches<'_>,
) -> Result<RunsCommand, CommandFault> {
    let (file, other) = (value_in(values, "FILE"), value_in(values, "OTHER"));
    if file == "-" || other == "-" {
        return Err(refuse_value(alloc, compare_words(alloc)?, NAME, NO_STREAM)?);
    }
    let file = String::from_str(alloc, file)?;
    let other = String::from_str(alloc, other)?;
    Ok(RunsCommand::Compare { file, other })
}

/// Returns a word as it is printed.
fn word_text(word: Word) -> &'static str {
    match word {
        Word::Known => "known",
        Word::New => "new",
        Word::Differs => "differs",
        Word::Overlaps => "overlaps",
        Word::Lacking => "lacking",
        Word::Met => "met",
    }
}

/// Adds the line of a stretch.
fn push_line(alloc: Global, text: &mut Vec<u8>, stretch: Stretch) -> Result<(), AllocError> {
    let (word, records) = (word_text(stretch.word), stretch.records);
    let front = format!(in alloc; "{word} records={records} from=")?;
    let from = text_of_instant(alloc, stretch.from.nanos())?;
    let to = text_of_instant(alloc, stretch.to)?;
    text.extend_from_slice(front.as_bytes())?;
    text.extend_from_slice(from.as_slice())?;
    text.extend_from_slice(b" to=".as_slice())?;
    text.extend_from_slice(to.as_slice())?;
    text.push(b'\n')?;
    Ok(())
}

/// Adds the lines of those stretches of the first file, from the front, that are lacking in the
/// second and begin before an instant. Returns all others.
fn push_lacking<'s>(
    alloc: Global,
    text: &mut Vec<u8>,
    firsts: &'s [Stretch],
    before: u64,
) -> Result<&'s [Stretch], AllocError> {
    for at in 0..firsts.len() {
        let one = firsts[at];
        if one.from.nanos() >= before {
            return Ok(&firsts[at..]);
        }
        if one.word == Word::Lacking {
            push_line(alloc, text, one)?;
        }
    }
    Ok(&[])
}

/// Returns the lines of a comparison, in the order of the starts.
fn lines_of(alloc: Global, words: &[Stretch], firsts: &[Stretch]) -> Result<Vec<u8>, AllocError> {
    let mut text = Vec::new(alloc);
    let mut left = firsts;
    for stretch in words {
        left = push_lacking(alloc, &mut text, left, stretch.from.nanos())?;
        push_line(alloc, &mut text, *stretch)?;
    }
    push_lacking(alloc, &mut text, left, u64::MAX)?;
    Ok(text)
}

/// The fields of a signal's row, each with its end.
const FIELDS: [(&str, usize); 10] = [
    ("label", 16),
    ("transducer", 96),
    ("dimension", 104),
    ("physical minimum", 112),
    ("physical maximum", 120),
    ("digital minimum", 128),
    ("digital maximum", 136),
    ("prefiltering", 216),
    ("samples", 224),
    ("reserved", 256),
];

/// Returns the name of the field of a signal that has a byte of its row.
fn field_at(at: usize) -> &'static str {
    for (name, end) in FIELDS {
        if at < end {
            return name;
        }
    }
    "reserved"
}

/// Returns the name of the field that has a byte of an identity before its signals.
fn fixed_field(at: usize) -> &'static str {
    if at < 80 {
        "patient"
    } else if at == 80 {
        "startdate subfield"
    } else if at < 150 {
        "recording"
    } else {
        "duration"
    }
}

/// Returns the first field by which the bytes of two identities differ.
fn other_field(alloc: Global, one: &[u8], other: &[u8]) -> Result<String, AllocError> {
    let same = one
        .iter()
        .zip(other)
        .take_while(|(a, b)| **a == **b)
        .count();
    if same >= 158 && one.len() != other.len() {
        return String::from_str(alloc, "number of signals");
    }
    if same >= 158 {
        let (signal, field) = ((same - 158) / 256 + 1, field_at((same - 158) % 256));
        return format!(in alloc; "{field} of signal {signal}");
    }
    String::from_str(alloc, fixed_field(same))
}

/// Returns the line of two files that are of two recordings.
fn other_line(
    alloc: Global,
    file: &str,
    other: &str,
    one: &Identity,
    another: &Identity,
) -> Result<Vec<u8>, AllocError> {
    let (bytes, others) = (one.to_bytes(alloc)?, another.to_bytes(alloc)?);
    let field = other_field(alloc, bytes.as_slice(), others.as_slice())?;
    let parts = [
        other.as_bytes(),
        b" is of another recording than ",
        file.as_bytes(),
        b": the ",
        field.as_bytes(),
        b" differs\n",
    ];
    concat(alloc, &parts)
}

/// Is true where the first file has all data records of the second.
fn are_known(words: &[Stretch]) -> bool
    ensures { IsTrue result ↔ All (λ s. s.word ≡ Known) words.now }
{
    words.iter().all(|s| s.word == Word::Known)
}

/// Writes the lines of a comparison.
fn print_comparison<O: Output, F: Output>(
    alloc: Global,
    file: &str,
    comparison: &Comparison,
    out: &mut O,
    err: &mut F,
) -> Status
    ensures { AnswersWords comparison.now.words.items result }
{
    let words = comparison.words.as_slice();
    let Ok(text) = lines_of(alloc, words, comparison.firsts.as_slice()) else {
        return print_memory(err, file);
    };
    if !send(out, text.as_slice()) {
        return print_unwritten(err, STANDARD_OUTPUT, Status::Trouble);
    }
    if are_known(words) {
        Status::Done
    } else {
        Status::Refused
    }
}

/// Prints why two files were not compared.
fn refuse_comparison<F: Output>(
    alloc: Global,
    file: &str,
    other: &str,
    fault: CompareFault,
    err: &mut F,
) -> Status
    ensures { Answers (fault_status fault) result }
{
    match fault {
        CompareFault::First(fault) => refuse(alloc, file, fault, err),
        CompareFault::Second(fault) => refuse(alloc, other, fault, err),
        CompareFault::Other(one, another) => {
            match other_line(alloc, file, other, &one, &another) {
                Ok(line) => print_parts(err, &[line.as_slice()], Status::Refused),
                Err(_) => print_memory(err, file),
            }
        }
        CompareFault::Memory => print_memory(err, file),
    }
}

/// Compares two files of a recording.
pub(crate) fn compare<I: Inputs, O: Output, F: Output>(
    alloc: Global,
    file: &str,
    other: &str,
    inputs: &mut I,
    out: &mut O,
    err: &mut F,
) -> Status
    ensures compared { IsComparedOut (output_change O.Output out.old out.new)
        (I.bytes inputs.old file.now) (I.bytes inputs.old other.now) result }
    ensures opened { OpensEach (I.opened inputs.old) (I.opened inputs.new)
        (file.now ∷ other.now ∷ []) result }
    ensures same { (name : List ℕ) → I.bytes inputs.new name ≡ I.bytes inputs.old name }
{
    let Ok(mut first) = inputs.open(alloc, file) else {
        return print_memory(err, file);
    };
    let Ok(mut second) = inputs.open(alloc, other) else {
        return print_memory(err, other);
    };
    match compare_files(alloc, &mut first, &mut second) {
        Ok(comparison) => print_comparison(alloc, file, &comparison, out, err),
        Err(fault) => refuse_comparison(alloc, file, other, fault, err),
    }
}
