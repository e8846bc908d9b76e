//! Acts as lines of text, in both directions.
ghost use Rattle.std.specs.Prelude.{◌≡◌, ◌+◌, ◌==◌, Some, None, Ok, IfOk, IsOkUnless};
ghost use Rattle.std.specs.Fmt.{WritesOnOk};
ghost use Rattle.std.specs.List.{position};
ghost use Rattle.roam_acts.specs.declared.acts.Act.{Act};
ghost use Rattle.roam_acts.specs.Acts.{IsAct, IsInRange};
ghost use Rattle.roam_acts.specs.Lines.{key_argument, line_of, Spells};
ghost use Rattle.roam_acts.specs.Reading.{act_in, act_of_argument, bare, focus_of, natural, integer_in, scalar_in, size_at, size_of};

use crate::acts::Act;
use crate::keys::{entry, named};
use crate::kinds::Kind;
use crate::limits::MOST_PANES;
use itoa::Buffer;
use roam_cells::Fault;
use roam_keys::Key;
use roam_tokens::id;
use std::fmt;

// How many digits a code point may have.
const DIGITS: usize = 6;

impl fmt::Display for Act {
    ghost use Rattle.std.specs.Prelude.{Some};
    ghost use Rattle.roam_acts.specs.Lines.{line_of};

    ghost output = { λ a. Some (line_of a) };

    /// Writes the act's line, without an end of line.
    fn fmt<W: fmt::Write>(&self, f: &mut fmt::Formatter<W>) -> fmt::Result {
        f.write_str(Kind::of(*self).entry().2)?;
        match *self {
            Act::Key(key) => write_key(key, f),
            Act::Focus(pane) => write!(f, "{pane}"),
            Act::Grow(by) | Act::View(by) => write!(f, "{by}"),
            Act::Size(rows, cols) => write!(f, "{rows} {cols}"),
            Act::SplitRight | Act::SplitDown | Act::Close | Act::Next => Ok(()),
        }
    }
}

// A character's code point, or a key's name.
fn write_key<W: fmt::Write>(key: Key, f: &mut fmt::Formatter<W>) -> fmt::Result
    ensures writes { WritesOnOk W.write_str_gives f.old result (key_argument key) f.new }
{
    match key {
        Key::Char(c) => fmt::LowerHex::fmt(&(c as u32), f),
        _ => f.write_str(entry(key).1),
    }
}

// The scalar value that one to six hexadecimal digits write.
fn scalar(text: &[u8]) -> Option<char>
    ensures scalar { result ≡ scalar_in text.now }
{
    if text.len() > DIGITS {
        return None;
    }
    char::from_u32(u32::try_from(id(text)?).ok()?)
}

// The number that a text writes; a number has one spelling.
fn number(text: &[u8]) -> Option<i16>
    ensures number { result ≡ integer_in text.now }
{
    let text = str::from_utf8(text).ok()?;
    let number = text.parse::<i16>().ok()?;
    if Buffer::new().format(number) == text {
        Some(number)
    } else {
        None
    }
}

fn natural(text: &[u8]) -> Option<u16>
    ensures number { result ≡ natural (integer_in text.now) }
{
    match number(text) {
        Some(number) if number >= 0 => Some(number as u16),
        _ => None,
    }
}

fn focus(text: &[u8]) -> Option<Act>
    ensures act { result ≡ focus_of (natural (integer_in text.now)) }
{
    let pane = natural(text)?;
    if pane <= MOST_PANES as u16 {
        Some(Act::Focus(pane as u8))
    } else {
        None
    }
}

fn size_of(rows: Option<u16>, cols: Option<u16>) -> Option<Act>
    ensures act { result ≡ size_of rows cols }
{
    match (rows, cols) {
        (Some(rows), Some(cols)) => Some(Act::Size(rows, cols)),
        _ => None,
    }
}

// The place of the first space.
fn space_in(text: &[u8]) -> Option<usize>
    ensures place { result ≡ position (λ byte. byte == 0x20) text.now }
{
    text.iter().position(|byte| *byte == b' ')
}

fn size(text: &[u8]) -> Option<Act>
    ensures act { result ≡ size_at (position (λ byte. byte == 0x20) text.now) text.now }
{
    match space_in(text) {
        Some(space) => size_of(
            natural(text.split_at(space).0),
            natural(text.split_at(space + 1).1),
        ),
        None => None,
    }
}

fn bare(act: Act, text: &[u8]) -> Option<Act>
    ensures act { result ≡ bare act text.now }
{
    if text.is_empty() { Some(act) } else { None }
}

// Returns the act of the text behind its kind's head, in its ranges or not.
fn act_of_argument(kind: Kind, text: &[u8]) -> Option<Act>
    ensures act { result ≡ act_of_argument kind text.now }
{
    match kind {
        Kind::Char => Some(Act::Key(Key::Char(scalar(text)?))),
        Kind::Named => Some(Act::Key(named(text)?)),
        Kind::SplitRight => bare(Act::SplitRight, text),
        Kind::SplitDown => bare(Act::SplitDown, text),
        Kind::Close => bare(Act::Close, text),
        Kind::Focus => focus(text),
        Kind::Next => bare(Act::Next, text),
        Kind::Grow => Some(Act::Grow(number(text)?)),
        Kind::Size => size(text),
        Kind::View => Some(Act::View(number(text)?)),
    }
}

// The act of a line.
fn act_in(line: &[u8]) -> Option<Act>
    ensures act { result ≡ act_in line.now }
{
    let kind = Kind::headed(line)?;
    let (_, text) = line.split_at(kind.entry().2.len());
    let act = act_of_argument(kind, text)?;
    if act.in_range() { Some(act) } else { None }
}

/// Returns the act that a line without its end spells. `BadAct` if it spells none that is in its ranges.
pub fn read_act(line: &[u8]) -> Result<Act, Fault>
    // The act read is spelled so.
    ensures found { IfOk result (λ a. IsAct a × Spells line.now a) }
    ensures in_range { IfOk result IsInRange }
    // An act spelled so is read.
    ensures only { (a : Act) → IsAct a → Spells line.now a → result ≡ Ok a }
    ensures fault { IsOkUnless result Fault.BadAct }
{
    act_in(line).ok_or(Fault::BadAct)
}
