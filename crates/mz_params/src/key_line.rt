//! A line of a parameter file that is taken, since its first word is a key.
ghost use Rattle.std.specs.Prelude.{◌≡◌};
ghost use Rattle.std.specs.Str.Lines.{strip_carriage_return};
ghost use Rattle.mz_params.specs.Lines.{line_of};

use crate::key::{Key, find_key};
use crate::word::word;
use mz_num::trim;
use std::marker::Model;

/// A key, and what follows it on its line.
#[derive(Drop)]
pub(crate) struct KeyLine<'a> {
    key: Key,
    value: &'a [u8],
}

impl<'a> Model for KeyLine<'a> {
    ghost use Rattle.mz_params.specs.KeyLine.{KeyLine};

    ghost Value = { KeyLine };

    ghost view = { λ l. record { key = l.key; value = l.value.now } };
}

impl<'a> KeyLine<'a> {
    pub(crate) fn key(&self) -> Key
        ensures { result ≡ self.now.key }
    {
        self.key
    }

    pub(crate) fn value(&self) -> &'a [u8]
        ensures { result.now ≡ self.now.value }
    {
        self.value
    }
}

/// The key of a line and its value; none where the first word is no key.
#[tactic(auto, unfolding(crate::specs::Lines::line_of))]
pub(crate) fn read_line(line: &[u8]) -> Option<KeyLine<'_>>
    ensures { result ≡ line_of line.now }
{
    let text = trim(without_return(line));
    let first = word(text);
    match find_key(first) {
        Some(key) => Some(KeyLine {
            key,
            value: trim(&text[first.len()..]),
        }),
        None => None,
    }
}

/// A line without the carriage return at its end.
fn without_return(line: &[u8]) -> &[u8]
    ensures { result.now ≡ strip_carriage_return line.now }
{
    match line {
        [text @ .., b'\r'] => text,
        _ => line,
    }
}
