//! The lines of a script with their numbers.

ghost use Rattle.std.specs.Prelude.{◌≡◌, [], ◌∷◌, ◌++◌, if◌then◌else◌, is_ok, slice_get};

use crate::line::ScriptLine;
use std::alloc::{AllocError, Global};
use std::marker::Model;

/// The lines that aren't skipped, each with its number from 1 among all lines; seen as a list of such pairs.
#[derive(Debug, Drop)]
pub struct Script {
    lines: Vec<(u32, ScriptLine)>,
}

impl Model for Script {
    ghost use Rattle.std.specs.Prelude.{List};
    ghost use Rattle.sal_script.specs.Numbered.{Numbered};

    ghost Value = { List Numbered };

    ghost view = { λ s. s.lines.items };
}

impl Script {
    /// No lines.
    pub(crate) fn new(alloc: Global) -> Self
        ensures { result ≡ [] }
    {
        Script {
            lines: Vec::new(alloc),
        }
    }

    /// Adds a line at the end; want of memory changes nothing.
    pub(crate) fn push(&mut self, number: u32, line: ScriptLine) -> Result<(), AllocError>
        ensures { self.new ≡ (if is_ok result then self.old ++ (number, line) ∷ [] else self.old) }
    {
        self.lines.push((number, line))?;
        Ok(())
    }

    /// The lines in order, each with its number.
    pub fn lines(&self) -> &[(u32, ScriptLine)]
        ensures { result.now ≡ self.now }
    {
        self.lines.as_slice()
    }

    /// The line at this index from 0, with its number.
    pub fn get(&self, index: usize) -> Option<(u32, ScriptLine)>
        ensures { result ≡ slice_get self.now index }
    {
        self.lines.as_slice().get(index).copied()
    }
}
