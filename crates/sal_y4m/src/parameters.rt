//! The parameters of a header line.

ghost use Rattle.std.specs.Prelude.{◌≡◌, ◌+◌, ◌<◌, [], drop, length};
ghost use Rattle.std.specs.List.{position_or_len};
ghost use Rattle.sal_y4m.specs.Parameters.{is_space, letter_of, set, first_and, parameters, and_then, all_set, unset};

use crate::fault::{Flaw, Why};
use crate::values::{is_colour, is_interlace, rate, ratio, side};
use sal_base::{MAX_HEIGHT, MAX_WIDTH};

/// What a parameter speaks of.
#[derive(Clone, Copy, Debug, PartialEq, Eq)]
pub enum Letter {
    Width,
    Height,
    Rate,
    Interlace,
    Aspect,
    Colour,
    Extension,
    Other,
}

// What a parameter with this letter speaks of.
fn letter_of(byte: u8) -> Letter
    ensures { result ≡ letter_of byte }
{
    match byte {
        b'W' => Letter::Width,
        b'H' => Letter::Height,
        b'F' => Letter::Rate,
        b'I' => Letter::Interlace,
        b'A' => Letter::Aspect,
        b'C' => Letter::Colour,
        b'X' => Letter::Extension,
        _ => Letter::Other,
    }
}

/// What the parameters so far came to: the sides, where they were there, and the rate.
#[derive(Clone, Copy, Debug, PartialEq, Eq)]
pub struct Settings {
    pub width: Option<u16>,
    pub height: Option<u16>,
    pub rate: (u32, u32),
}

// What a parameter makes of the settings before it.
fn set(letter: Letter, value: &[u8], settings: Settings) -> Result<Settings, Why>
    ensures { result ≡ set letter value.now settings }
{
    match letter {
        Letter::Width => match side(MAX_WIDTH, value) {
            Some(width) => Ok(Settings {
                width: Some(width),
                ..settings
            }),
            None => Err(Why::Side),
        },
        Letter::Height => match side(MAX_HEIGHT, value) {
            Some(height) => Ok(Settings {
                height: Some(height),
                ..settings
            }),
            None => Err(Why::Side),
        },
        Letter::Rate => match rate(value) {
            Some(rate) => Ok(Settings { rate, ..settings }),
            None => Err(Why::Rate),
        },
        Letter::Interlace if is_interlace(value) => Ok(settings),
        Letter::Interlace => Err(Why::Interlace),
        Letter::Aspect if ratio(value).is_some() => Ok(settings),
        Letter::Colour if is_colour(value) => Ok(settings),
        Letter::Colour => Err(Why::Colour),
        Letter::Extension => Ok(settings),
        Letter::Aspect | Letter::Other => Err(Why::Param),
    }
}

// How long the value at the front of a text is: it ends at a space, or with the text.
fn value_size(text: &[u8]) -> usize
    ensures { result ≡ position_or_len is_space text.now }
{
    text.iter().take_while(|byte| **byte != b' ').count()
}

// The parameter that a text begins with, where it isn't empty and doesn't begin with a space.
fn first(text: &[u8], settings: Settings) -> Result<Settings, Flaw>
    ensures { result ≡ all_set (first_and text.now []) settings }
{
    let Some((letter, rest)) = text.split_first() else {
        return Ok(settings);
    };
    if *letter == b' ' {
        return Ok(settings);
    }
    match set(letter_of(*letter), &rest[..value_size(rest)], settings) {
        Ok(settings) => Ok(settings),
        Err(why) => Err(Flaw {
            left: text.len(),
            why,
        }),
    }
}

// One byte on: if it is a space, the parameter that stands after it is set.
fn step(text: &[u8], at: usize, settings: Settings) -> Result<Settings, Flaw>
    requires { at < length text.now }
    ensures { all_set (parameters (drop at text.now)) settings ≡ and_then result (all_set (parameters (drop (at + 1) text.now))) }
{
    if text[at] != b' ' {
        return Ok(settings);
    }
    first(&text[at + 1..], settings)
}

/// What all parameters of a text come to, each of which stands after a space.
pub fn all(text: &[u8]) -> Result<Settings, Flaw>
    ensures { result ≡ all_set (parameters text.now) unset }
{
    let mut settings = Settings {
        width: None,
        height: None,
        rate: (30, 1),
    };
    for at in 0..text.len() {
        settings = step(text, at, settings)?;
    }
    Ok(settings)
}
