//! The commands by their names: what options each has, and what its names mean.

ghost use Rattle.std.specs.Prelude.{◌≡◌, false, option_map};
ghost use Rattle.clap.specs.Matches.{found_of, first_value};
ghost use Rattle.clap.specs.Walk.{texts};
ghost use Rattle.sal_words.specs.Words.{Said, is_among};
ghost use Rattle.sal_words.specs.Form.{names_id, Says};
ghost use Rattle.sal_words.specs.Numbers.{number_within};
ghost use Rattle.sal_words.specs.Commands.{asks, asked_by, loop_asked, send_asked, receive_asked, check_asked, generate_asked, options_of, threads_in, threads_option, verb_of};

use crate::address::read_address;
use crate::command::Command;
use crate::number::number;
use crate::said::names;
use clap::ArgMatches;

/// How many threads encode where the words don't say.
const THREADS: u32 = 2;

static LOOP_OPTIONS: [&str; 1] = ["threads"];

static NO_OPTIONS: [&str; 0] = [];

/// The name of a command.
#[derive(Clone, Copy, Debug, PartialEq, Eq)]
pub(crate) enum Verb {
    Loop,
    Send,
    Receive,
    Check,
    Generate,
}

/// The command that a word names.
pub(crate) fn verb_named(word: &str) -> Option<Verb>
    ensures { result ≡ verb_of word.now }
{
    if word == "loop" {
        Some(Verb::Loop)
    } else if word == "send" {
        Some(Verb::Send)
    } else if word == "receive" {
        Some(Verb::Receive)
    } else if word == "check" {
        Some(Verb::Check)
    } else if word == "generate" {
        Some(Verb::Generate)
    } else {
        None
    }
}

/// The options of a command.
pub(crate) fn options(verb: Verb) -> &'static [&'static str]
    ensures names { texts result.now ≡ options_of verb }
    ensures apart { is_among (texts result.now) names_id ≡ false }
{
    match verb {
        Verb::Loop => LOOP_OPTIONS.as_slice(),
        _ => NO_OPTIONS.as_slice(),
    }
}

// A number that fits in 32 bits.
fn small(text: &str, least: u32, most: u32) -> Option<u32>
    ensures { result ≡ number_within least most text.now }
{
    let number = number(text, u64::from(least), u64::from(most))?;
    Some(number as u32)
}

// The side of a picture.
fn side(text: &str, most: u16) -> Option<u16>
    ensures { result ≡ number_within 1 most text.now }
{
    let side = number(text, 1, u64::from(most))?;
    Some(side as u16)
}

fn threads(matches: &ArgMatches<'_>) -> Option<u32>
    ensures { result ≡ threads_in (first_value (found_of matches.now) threads_option) }
{
    match matches.get_str("threads") {
        Some(text) => small(text, 0, 64),
        None => Some(THREADS),
    }
}

fn read_loop<'a>(matches: &ArgMatches<'a>) -> Option<Command<'a>>
    ensures { (s : Said) → Says s matches.now → option_map asks result ≡ loop_asked s }
{
    let [input, script, output, journal] = *names(matches)? else {
        return None;
    };
    let threads = threads(matches)?;
    Some(Command::Loop {
        input,
        script,
        output,
        journal,
        threads,
    })
}

fn read_send<'a>(matches: &ArgMatches<'a>) -> Option<Command<'a>>
    ensures { (s : Said) → Says s matches.now → option_map asks result ≡ send_asked s }
{
    let [input, address, journal] = *names(matches)? else {
        return None;
    };
    let to = read_address(address)?;
    Some(Command::Send {
        input,
        address,
        to,
        journal,
    })
}

fn read_receive<'a>(matches: &ArgMatches<'a>) -> Option<Command<'a>>
    ensures { (s : Said) → Says s matches.now → option_map asks result ≡ receive_asked s }
{
    let [address, output] = *names(matches)? else {
        return None;
    };
    let at = read_address(address)?;
    Some(Command::Receive {
        address,
        at,
        output,
    })
}

fn read_check<'a>(matches: &ArgMatches<'a>) -> Option<Command<'a>>
    ensures { (s : Said) → Says s matches.now → option_map asks result ≡ check_asked s }
{
    let [journal, input, output] = *names(matches)? else {
        return None;
    };
    Some(Command::Check {
        journal,
        input,
        output,
    })
}

fn read_generate<'a>(matches: &ArgMatches<'a>) -> Option<Command<'a>>
    ensures { (s : Said) → Says s matches.now → option_map asks result ≡ generate_asked s }
{
    let [start, count, width, height] = *names(matches)? else {
        return None;
    };
    let start = number(start, 0, u64::MAX)?;
    let count = small(count, 1, 10_000)?;
    let width = side(width, 1_280)?;
    let height = side(height, 720)?;
    Some(Command::Generate {
        start,
        count,
        width,
        height,
    })
}

/// What names and options mean for a command.
pub(crate) fn read_command<'a>(verb: Verb, matches: &ArgMatches<'a>) -> Option<Command<'a>>
    ensures { (s : Said) → Says s matches.now → option_map asks result ≡ asked_by verb s }
{
    match verb {
        Verb::Loop => read_loop(matches),
        Verb::Send => read_send(matches),
        Verb::Receive => read_receive(matches),
        Verb::Check => read_check(matches),
        Verb::Generate => read_generate(matches),
    }
}
