//! Which command words ask for.

ghost use Rattle.std.specs.Prelude.{◌≡◌, ◌∷◌, Option, map, string_bytes};
ghost use Rattle.sal_words.specs.Words.{Said};
ghost use Rattle.sal_words.specs.Form.{Reads};
ghost use Rattle.sal_words.specs.Commands.{asked, asked_after, Answers};

use crate::command::{Command, WordsFault};
use crate::said::read_said;
use crate::verb::{Verb, options, read_command, verb_named};
use clap::ArgMatches;
use std::alloc::Global;

// What names and options ask for, where there are any.
#[tactic(auto, using(crate::proofs::VerbLemmas::answers_fault, crate::proofs::VerbLemmas::answers_command, crate::proofs::VerbLemmas::answers_usage))]
fn answer<'a>(
    verb: Verb,
    said: Result<ArgMatches<'a>, WordsFault>,
) -> Result<Command<'a>, WordsFault>
    ensures { (o : Option Said) → Reads o said.entry → Answers (asked_after verb o) result }
{
    match said {
        Ok(matches) => match read_command(verb, &matches) {
            Some(command) => Ok(command),
            None => Err(WordsFault::Usage),
        },
        Err(fault) => Err(fault),
    }
}

// The command that a word and those after it ask for.
fn read_named<'a>(alloc: Global, word: &str, rest: &'a [String]) -> Result<Command<'a>, WordsFault>
    ensures { Answers (asked (word.now ∷ map string_bytes rest.now)) result }
{
    let Some(verb) = verb_named(word) else {
        return Err(WordsFault::Usage);
    };
    answer(verb, read_said(alloc, rest, options(verb)))
}

/// The command that the words after the program's name ask for. `Usage` comes exactly where they aren't in the grammar.
pub fn read_words<'a>(alloc: Global, words: &'a [String]) -> Result<Command<'a>, WordsFault>
    ensures { Answers (asked (map string_bytes words.now)) result }
{
    match words.split_first() {
        Some((word, rest)) => read_named(alloc, word.as_str(), rest),
        None => Err(WordsFault::Usage),
    }
}
