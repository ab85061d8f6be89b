//! The command line, read by `clap`. Lines of help are broken where they stand, since nothing else
//! breaks them.

ghost use Rattle.std.specs.Prelude.{◌≡◌, ◌↔◌, IsTrue, IfOk, IfSome, IsErrAnd, MatchResult};
ghost use Rattle.std.specs.Prelude.{option_map, string_bytes, []};
ghost use Rattle.std.specs.Bool.{MatchBool};
ghost use Rattle.edf_mend.specs.Texts.{IsCode};
ghost use Rattle.edf_cli.specs.Output.{output_change, Gets};
ghost use Rattle.edf_cli.specs.Words.{IsCommandFaultPrinted};
ghost use Rattle.edfmend_command.specs.Run.{meaning};
ghost use Rattle.edfmend_command.specs.Words.{Values, AreCodes, IsDateWord, IsTimeWord, AreNames};
ghost use Rattle.edfmend_command.specs.Words.{Mean, MeanNothing, IsNothing};

use crate::mend_command::MendCommand;
use clap::{Arg, ArgAction, ArgMatches, Command, Error};
use edf_cli::{CommandFault, Status, VERSION, fault_by, print_fault, refuse_value};
use edf_fragment::Output;
use edf_mend::{Code, Wanted, Who};
use edf_time::start_of;
use std::alloc::{AllocError, Global};
use std::marker::Model;

/// What `edfmend` is.
const EDFMEND: &str = "\
Makes an EDF+ file of one that is almost EDF+, or plain EDF, changes only what it
tells, and leaves every sample as it is.";

/// The end of the help.
const MORE: &str = "
OUT is the canonical EDF+D file of what is read of IN, as 'edfruns canonical' makes it.
A line is printed for each field that differs. IN is never written, and no file that is
there is written over.

Example:
  edfmend old.edf new.edf --patient S-0118

Status:
  0  done
  1  the file can't be mended, a code is wanted or unused, or OUT is there
  2  the words ask for nothing that can be done
  3  trouble with a file, standard output or memory";

/// Why `-` is refused where a file is read twice.
const READ_TWICE: &str = "\
IN is read twice, which standard input can't be: write it to a file first";

/// Why words without OUT are refused.
const NO_OUT: &str = "OUT is wanted, or --dry-run";

/// Why words with OUT are refused.
const DRY_OUT: &str = "--dry-run writes no OUT";

/// Why a code is refused.
const NO_CODE: &str = "\
CODE is 1 to 60 printable characters of ASCII without a space, and not X";

/// Why a second code is refused.
const TWO_CODES: &str = "one of --patient, --set-patient and --deidentify can be given";

/// Why a startdate is refused.
const NO_DATE: &str = "--startdate is a day, as 24.12.26";

/// Why a starttime is refused.
const NO_TIME: &str = "--starttime is a time of day, as 22.30.00";

/// How `clap` refuses `--as`, which earlier versions had.
const UNKNOWN_AS: &str = "error: unexpected argument '--as' found\n";

/// What to do in its place.
const NO_AS: &str = "--as is gone: all is read that can be, and --all takes what '--as count' took";

/// Returns an option with a value.
fn option<'a>(alloc: Global, name: &'a str, value: &'a str, help: &'a str) -> Arg<'a> {
    Arg::new(alloc, name)
        .long(name)
        .value_name(value)
        .help(help)
}

/// Adds the options that say whose a file is, and when it starts.
fn with_options<'a>(alloc: Global, command: Command<'a>) -> Result<Command<'a>, AllocError> {
    let patient = "The code of the patient, where the file names none";
    let set_patient = "The code of the patient, in the place of another too";
    let deidentify = "This code alone, for others: no patient, no technician";
    let startdate = "The startdate of a file that has none";
    let starttime = "The starttime of a file that has none";
    command
        .arg(option(alloc, "patient", "CODE", patient))?
        .arg(option(alloc, "set-patient", "CODE", set_patient))?
        .arg(option(alloc, "deidentify", "CODE", deidentify))?
        .arg(option(alloc, "startdate", "DD.MM.YY", startdate))?
        .arg(option(alloc, "starttime", "HH.MM.SS", starttime))?
        .arg(
            Arg::new(alloc, "all")
                .long("all")
                .action(ArgAction::SetTrue)
                .help("All whole data records in IN are of this recording"),
        )
}

/// Returns the program with its words.
fn edfmend_words<'a>(alloc: Global) -> Result<Command<'a>, AllocError> {
    let command = Command::new(alloc, "edfmend")
        .bin_name("edfmend")?
        .version(VERSION)
        .about(EDFMEND)
        .after_help(MORE)
        .no_binary_name(true)
        .arg(
            Arg::new(alloc, "IN")
                .help("The file to mend")
                .required(true),
        )?
        .arg(Arg::new(alloc, "OUT").help("The new file"))?;
    with_options(alloc, command)?.arg(
        Arg::new(alloc, "dry-run")
            .long("dry-run")
            .action(ArgAction::SetTrue)
            .help("Tell the changes, and write nothing"),
    )
}

/// Returns why words are refused that `clap` takes.
fn refuse(alloc: Global, why: &str) -> Result<CommandFault, AllocError> {
    refuse_value(alloc, edfmend_words(alloc)?, "edfmend", why)
}

/// The values of the words, each once at most.
#[derive(Debug, Drop)]
pub struct MendValues<'a> {
    pub input: &'a str,
    pub output: Option<&'a str>,
    pub dry: bool,
    pub patient: Option<&'a str>,
    pub set_patient: Option<&'a str>,
    pub deidentify: Option<&'a str>,
    pub startdate: Option<&'a str>,
    pub starttime: Option<&'a str>,
    pub all: bool,
}

impl<'a> Model for MendValues<'a> {
    ghost use Rattle.std.specs.Prelude.{option_map};
    ghost use Rattle.edfmend_command.specs.Words.{Values};

    ghost Value = { Values };

    ghost view = { λ f. record {
      input = f.input.now;
      output = option_map (λ s. s.now) f.output;
      dry = f.dry;
      patient = option_map (λ s. s.now) f.patient;
      set_patient = option_map (λ s. s.now) f.set_patient;
      deidentify = option_map (λ s. s.now) f.deidentify;
      startdate = option_map (λ s. s.now) f.startdate;
      starttime = option_map (λ s. s.now) f.starttime;
      all = f.all;
    } };
}

fn found_in<'a>(values: &ArgMatches<'a>) -> MendValues<'a> {
    MendValues {
        input: values.get_str("IN").unwrap_or(""),
        output: values.get_str("OUT"),
        dry: values.get_flag("dry-run"),
        patient: values.get_str("patient"),
        set_patient: values.get_str("set-patient"),
        deidentify: values.get_str("deidentify"),
        startdate: values.get_str("startdate"),
        starttime: values.get_str("starttime"),
        all: values.get_flag("all"),
    }
}

/// Returns the code that a text is.
fn code_in(alloc: Global, text: &str) -> Result<Code, CommandFault>
    ensures code { IfOk result (λ code. code ≡ text.now) }
    ensures nothing { IsErrAnd result IsNothing → ¬ IsCode text.now }
{
    match Code::new(alloc, text.as_bytes())? {
        Some(code) => Ok(code),
        None => Err(refuse(alloc, NO_CODE)?),
    }
}

/// Returns the patient that the words name.
fn who_in(alloc: Global, found: &MendValues<'_>) -> Result<Who, CommandFault>
    ensures who { IfOk result
        (AreCodes found.now.patient found.now.set_patient found.now.deidentify) }
    ensures nothing { IsErrAnd result IsNothing → (who : Who) →
        ¬ AreCodes found.now.patient found.now.set_patient found.now.deidentify who }
{
    match (found.patient, found.set_patient, found.deidentify) {
        (None, None, None) => Ok(Who::AsNamed),
        (Some(code), None, None) => Ok(Who::Given(code_in(alloc, code)?)),
        (None, Some(code), None) => Ok(Who::Replaced(code_in(alloc, code)?)),
        (None, None, Some(code)) => Ok(Who::Hidden(code_in(alloc, code)?)),
        _ => Err(refuse(alloc, TWO_CODES)?),
    }
}

/// Is true where a text is a startdate, or a starttime.
fn is_start(text: &[u8; 8], is_date: bool) -> bool
    ensures { MatchBool is_date (IsTrue result ↔ IsDateWord text.now)
        (IsTrue result ↔ IsTimeWord text.now) }
{
    if is_date {
        start_of(text, b"00.00.00", None).is_ok()
    } else {
        start_of(b"01.01.85", text, None).is_ok()
    }
}

/// Returns a start that was given, where it is one in its place.
fn start_in(
    alloc: Global,
    text: Option<&str>,
    is_date: bool,
) -> Result<Option<[u8; 8]>, CommandFault>
    ensures start { IfOk result (λ found. (found ≡ option_map (λ s. s.now) text.entry)
        × MatchBool is_date (IfSome (option_map (λ s. s.now) text.entry) IsDateWord)
        (IfSome (option_map (λ s. s.now) text.entry) IsTimeWord)) }
    ensures nothing { IsErrAnd result IsNothing →
        MatchBool is_date (¬ IfSome (option_map (λ s. s.now) text.entry) IsDateWord)
        (¬ IfSome (option_map (λ s. s.now) text.entry) IsTimeWord) }
{
    let Some(text) = text else {
        return Ok(None);
    };
    if text.len() == 8 {
        let mut eight = [0u8; 8];
        eight.copy_from_slice(text.as_bytes());
        if is_start(&eight, is_date) {
            return Ok(Some(eight));
        }
    }
    let why = if is_date { NO_DATE } else { NO_TIME };
    Err(refuse(alloc, why)?)
}

/// Returns the new file, if one is to be written. IN is read twice, so it is not `-`.
fn output_in(alloc: Global, found: &MendValues<'_>) -> Result<Option<String>, CommandFault>
    ensures output { IfOk result
        (λ r. AreNames found.now × (option_map string_bytes r ≡ found.now.output)) }
    ensures nothing { IsErrAnd result IsNothing → ¬ AreNames found.now }
{
    if found.input == "-" {
        return Err(refuse(alloc, READ_TWICE)?);
    }
    match found.output {
        Some(_) if found.dry => Err(refuse(alloc, DRY_OUT)?),
        None if !found.dry => Err(refuse(alloc, NO_OUT)?),
        Some(name) => Ok(Some(String::from_str(alloc, name)?)),
        None => Ok(None),
    }
}

/// Returns what the values of words ask for, where no words are read.
///
/// # Errors
/// `Usage` where they ask for nothing that can be done, `Memory` where memory ran out.
pub fn command_of(alloc: Global, values: &MendValues<'_>) -> Result<MendCommand, CommandFault>
    ensures mean { IfOk result (λ command. Mean values.now (meaning command)) }
    ensures nothing { IsErrAnd result IsNothing → MeanNothing values.now }
{
    let output = output_in(alloc, values)?;
    let who = who_in(alloc, values)?;
    let startdate = start_in(alloc, values.startdate, true)?;
    let starttime = start_in(alloc, values.starttime, false)?;
    let input = String::from_str(alloc, values.input)?;
    Ok(MendCommand {
        input,
        output,
        wanted: Wanted {
            who,
            startdate,
            starttime,
            all: values.all,
        },
    })
}

/// Returns why words are refused that `clap` does not take.
fn refuse_words(alloc: Global, error: &Error) -> Result<CommandFault, AllocError> {
    let fault = fault_by(alloc, error);
    if let CommandFault::Usage(text) = &fault
        && text.as_str().starts_with(UNKNOWN_AS)
    {
        return refuse(alloc, NO_AS);
    }
    Ok(fault)
}

/// Returns what words other than the one for help ask for.
fn read_words(alloc: Global, words: &[String]) -> Result<MendCommand, CommandFault>
    ensures { IfOk result (λ command. (values : Values) × Mean values (meaning command)) }
{
    let mut command = edfmend_words(alloc)?;
    match command.try_get_matches_from_mut(words) {
        Ok(matches) => command_of(alloc, &found_in(&matches)),
        Err(error) => Err(refuse_words(alloc, &error)?),
    }
}

/// Returns what the words after the program's name ask for: `IN OUT` or `IN --dry-run`, with one of
/// `--patient CODE`, `--set-patient CODE` and `--deidentify CODE`, with `--startdate DD.MM.YY`,
/// `--starttime HH.MM.SS` and `--all`. IN is read twice, so it is not `-`. The word `help` alone
/// asks for help, as the flag does.
///
/// # Errors
/// `Help` where help or the version was asked for, `Usage` where the words ask for nothing that can
/// be done, `Memory` where memory ran out.
pub fn parse(alloc: Global, words: &[String]) -> Result<MendCommand, CommandFault>
    ensures { IfOk result (λ command. (values : Values) × Mean values (meaning command)) }
{
    if let [word] = words
        && word.as_str() == "help"
    {
        let flag = [String::from_str(alloc, "--help")?];
        return read_words(alloc, &flag);
    }
    read_words(alloc, words)
}

/// Returns the command that the words after the program's name ask for.
///
/// # Errors
/// The status that the program ends with, where there is no command to run: help went to `out`, or
/// why the words ask for nothing to `err`, or that there is no memory for the words.
pub fn read_command<O: Output, F: Output>(
    alloc: Global,
    words: &[String],
    out: &mut O,
    err: &mut F,
) -> Result<MendCommand, Status>
    ensures { let o = output_change O.Output out.old out.new in let e =
        output_change F.Output err.old err.new in
        MatchResult result
        (λ command. (values : Values) × Mean values (meaning command) × Gets o [] × Gets e [])
        (λ status. (why : CommandFault) × IsCommandFaultPrinted o e why status) }
{
    match parse(alloc, words) {
        Ok(command) => Ok(command),
        Err(fault) => Err(print_fault(&fault, out, err)),
    }
}
