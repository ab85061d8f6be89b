//! The parsing of a command line.

ghost use Rattle.std.specs.Prelude.{◌≢◌, ◌<◌, IfErr, IfOk, IsErrAnd, length};
ghost use Rattle.edf_command.specs.Inside.Read.{AreWordsRead};
ghost use Rattle.edf_command.specs.Arguments.{AreValues, WordsParseTo, AskForHelp, AskForNoHelp};
ghost use Rattle.edf_command.specs.Arguments.{WordsParseToNothing};
ghost use Rattle.edf_cli.specs.Words.{IsNoHelp, IsNoUsage};

use crate::commands::{edfstore_command, export_command};
use crate::help::BAD_PLACE;
use crate::matches::order_in;
use crate::order::Order;
use edf_cli::{CommandFault, fault_by, refuse_value};
use std::alloc::Global;

/// Parses the words. Returns `None` if only a PLACE is wrong, which `clap` takes as any text.
fn read(alloc: Global, words: &[String]) -> Result<Option<Order>, CommandFault>
    requires some { 0 < length words.now }
    ensures { AreWordsRead words.now result }
{
    let mut command = edfstore_command(alloc)?;
    let matches = match command.try_get_matches_from_mut(words) {
        Ok(matches) => matches,
        Err(error) => return Err(fault_by(alloc, &error)),
    };
    Ok(order_in(alloc, &matches)?)
}

/// Parses the words after the program's name.
///
/// The words are `take STORE FILE...`, `list STORE`, `export STORE PLACE` or `convert FILE`; no
/// word at all is `convert -`. PLACE is digits, without a sign, with a value from 1 to
/// 4,294,967,295; zeros may lead. A word that begins with `-` is a flag, but for `-` alone, which
/// is a value: `--help` and `-h` ask for help, as the words `help` and `help WORD` do, and after a
/// `--` that follows the first word all are values. `--version` and `-V` ask for the version:
/// `edfstore`, a space and the version in a line.
///
/// # Errors
/// Where no word is a flag, `Help` or `Usage` comes exactly where the words ask for nothing, and it
/// is `Usage` where `help` is not the first. `Help` comes where a flag that asks for help or for
/// the version is the first word, and where one for help follows `take`, `list`, `export` or
/// `convert`. `Memory` where memory ran out, in place of any other answer.
pub fn parse(alloc: Global, words: &[String]) -> Result<Order, CommandFault>
    ensures command { AreValues words.now → IfOk result (WordsParseTo words.now) }
    ensures fault { AreValues words.now →
        IfErr result (λ fault. fault ≢ CommandFault.Memory → WordsParseToNothing words.now) }
    ensures usage { AskForNoHelp words.now → IfErr result IsNoHelp }
    ensures help { AskForHelp words.now → IsErrAnd result IsNoUsage }
{
    if words.is_empty() {
        let file = String::from_str(alloc, "-")?;
        return Ok(Order::Convert { file });
    }
    if let Some(order) = read(alloc, words)? {
        return Ok(order);
    }
    let export = export_command(alloc)?;
    Err(refuse_value(alloc, export, "edfstore export", BAD_PLACE)?)
}
