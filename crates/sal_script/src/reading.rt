//! Scripts from sources.

ghost use Rattle.std.specs.Prelude.{◌≡◌, ◌≤◌, length, is_some, IfSome, IfOk, Err};
ghost use Rattle.std.specs.List.{position_or_len};
ghost use Rattle.sal_io.specs.Calls.{HasCause};
ghost use Rattle.sal_script.specs.Line.{is_newline};
ghost use Rattle.sal_script.specs.Script.{most_script};
ghost use Rattle.sal_script.specs.Steps.{IsFirst, Adds, Parses};
ghost use Rattle.sal_script.specs.Reads.{ScriptGives, IsComplete, SaysOf};

use crate::fault::ScriptFault;
use crate::grammar::{MOST_SCRIPT, Meaning, meaning_of};
use crate::numbered::Script;
use sal_io::{Contents, Source, read_all};
use std::alloc::Global;

// How many bytes stand before the first newline, or before the end.
fn bytes_before_newline(text: &[u8]) -> usize
    ensures count { result ≡ position_or_len is_newline text.now }
    ensures inside { result ≤ length text.now }
{
    text.iter().take_while(|b| **b != b'\n').count()
}

// The line at the front, without its newline, and what comes after it.
fn split_line(text: &[u8]) -> (&[u8], &[u8])
    requires { 1 ≤ length text.now }
    ensures { IsFirst text.now result.0.now result.1.now }
{
    let (front, rest) = text.split_at(bytes_before_newline(text));
    match rest.split_first() {
        Some((_, after)) => (front, after),
        None => (front, rest),
    }
}

// Adds what a line of this meaning says, unless it is skipped.
fn add(script: &mut Script, number: u32, meaning: Meaning) -> Result<(), ScriptFault>
    ensures { Adds meaning number script.old script.new result }
{
    match meaning {
        Meaning::Skipped => Ok(()),
        Meaning::Said(line) => script.push(number, line).map_err(|_| ScriptFault::Memory),
        Meaning::Bad => Err(ScriptFault::Bad(number)),
    }
}

// What a text says, line by line.
fn parse_lines(alloc: Global, text: &[u8]) -> Result<Script, ScriptFault>
    ensures said { Parses text.now result }
    ensures count { IfOk result (λ script. length script ≤ most_script) }
{
    let mut script = Script::new(alloc);
    let mut number: u32 = 1;
    let mut end = 0;
    let mut rest = text;
    while !rest.is_empty() {
        let (front, after) = split_line(rest);
        let size = rest.len() - after.len();
        end += size;
        add(&mut script, number, meaning_of(front, size, end))?;
        number += 1;
        rest = after;
    }
    Ok(script)
}

/// Reads a script whole and tests all its lines.
///
/// # Errors
///
/// Bad with the number of the first line that isn't in the grammar, counted from 1 over all lines; ReadFault where the
/// source failed, also where a line before is bad; Memory.
pub fn read_script<S: Source>(alloc: Global, source: &mut S) -> Result<Script, ScriptFault>
    ensures told { ScriptGives (S.left source.old) (S.left source.new) result }
    ensures says { IfSome (S.left source.old) (λ script. SaysOf script result) }
    ensures complete { IsComplete (S.left source.old) (S.faults source.old) (S.faults source.new) result }
    ensures cause { HasCause (Err ScriptFault.ReadFault) (S.faults source.old) (S.faults source.new) result }
    ensures count { IfOk result (λ script. length script ≤ most_script) }
    ensures name { S.name source.new ≡ S.name source.old }
    ensures had { S.had source.new ≡ S.had source.old }
    ensures tells { is_some (S.left source.new) ≡ is_some (S.left source.old) }
{
    match read_all(alloc, source, MOST_SCRIPT) {
        Contents::All(text) => parse_lines(alloc, text.as_slice()),
        Contents::More(text) => parse_lines(alloc, text.as_slice()),
        Contents::Failed => Err(ScriptFault::ReadFault),
        Contents::Memory => Err(ScriptFault::Memory),
    }
}
