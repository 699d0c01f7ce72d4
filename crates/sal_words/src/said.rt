//! Words as names and options, read by `clap`.

ghost use Rattle.std.specs.Prelude.{◌≡◌, false, IfOk, map, string_bytes, [], option_map, unwrap_or};
ghost use Rattle.clap.specs.Simple.{app_of};
ghost use Rattle.clap.specs.Walk.{texts};
ghost use Rattle.sal_words.specs.Words.{is_among, said};
ghost use Rattle.clap.specs.Values.{kind_of};
ghost use Rattle.sal_words.specs.Form.{form, names_id, names_in, fault_for, Reads};

use crate::command::WordsFault;
use clap::error::ErrorKind;
use clap::{Arg, ArgAction, ArgMatches, Command, Error};
use std::alloc::{AllocError, Global};

/// The argument that all names are values of.
const NAMES: &str = "NAMES";

// A command with these options, without help and version.
fn command<'a>(alloc: Global, options: &[&'static str]) -> Result<Command<'a>, AllocError>
    ensures { IfOk result (λ r. app_of r ≡ form (texts options.now)) }
{
    let names = Arg::new(alloc, NAMES).action(ArgAction::Append);
    let mut command = Command::new(alloc, "salsify")
        .no_binary_name(true)
        .disable_help_flag(true)
        .disable_version_flag(true)
        .arg(names)?;
    for name in options {
        let option = Arg::new(alloc, *name).long(*name);
        command = command.arg(option)?;
    }
    Ok(command)
}

/// The names and options that words say, where these options may stand.
pub(crate) fn read_said<'a>(
    alloc: Global,
    words: &'a [String],
    options: &[&'static str],
) -> Result<ArgMatches<'a>, WordsFault>
    requires { is_among (texts options.now) names_id ≡ false }
    ensures { Reads (said (texts options.now) (map string_bytes words.now)) result }
{
    let command = match command(alloc, options) {
        Ok(command) => command,
        Err(_) => return Err(WordsFault::Memory),
    };
    match command.try_get_matches_from(words) {
        Ok(matches) => Ok(matches),
        Err(error) => Err(fault_of(error)),
    }
}

// Want of memory, or words that aren't in the grammar.
fn fault_of(error: Error) -> WordsFault
    ensures { result ≡ fault_for (kind_of error) }
{
    match error.kind() {
        ErrorKind::OutOfMemory => WordsFault::Memory,
        _ => WordsFault::Usage,
    }
}

/// The names, in their order; none where there is none.
pub(crate) fn names<'m, 'a>(matches: &'m ArgMatches<'a>) -> Option<&'m [&'a str]>
    ensures { unwrap_or (option_map (λ names. texts names.now) result) [] ≡ names_in matches.now }
{
    matches.get_strs(NAMES)
}
