//! Lines of a script, as values.
ghost use Rattle.std.specs.Prelude.{◌≡◌, ◌⊎◌, None, Some, IfOk, IsErrOf, MatchResult};
ghost use Rattle.std.specs.Option.{option_map};
ghost use Rattle.roam_world_script.specs.Values.{LineValue, IsLine};
ghost use Rattle.roam_world_script.specs.Lines.{BeginsPane, Says, value_of};
ghost use Rattle.roam_world_script.specs.Skipped.{is_skipped};
ghost use Rattle.roam_world_script.specs.Reading.{bytes_in, plain_in, start_in, version_in};
ghost use Rattle.roam_world_script.specs.Arguments.{IsRead};

use crate::kinds::Kind;
use crate::numbers::{byte, long, short, slot};
use hex::FromHexError;
use roam_acts::laws::one_act_a_line;
use roam_acts::{Act, read_act};
use roam_tokens::{first_word, id};
use roam_wire::Version;
use std::alloc::Global;
use thiserror::Error;

/// The value of a line of a script. Slots are 0 to 7, moments are milliseconds, datagrams are numbered from 1.
#[derive(Debug, Drop)]
pub enum Line {
    /// A session begins: its id, rows and columns.
    Session(u64, u16, u16),

    /// A client of a version starts in a slot, under an id.
    Start(u8, u64, Version),

    /// A client that only watches starts in a slot, under an id.
    Watch(u8, u64),

    /// Bytes come from the program of a pane.
    PaneBytes(u8, Vec<u8>),

    /// An act is typed at the instance in a slot.
    Typed(u8, Act),

    /// The server ticks at a moment.
    ServerTick(u64),

    /// The instance in a slot ticks at a moment.
    ClientTick(u8, u64),

    /// The datagram of a number comes to the server, from a port, at a moment.
    ToServer(u64, u16, u64),

    /// The datagram of a number comes to the instance in a slot at a moment.
    ToClient(u8, u64, u64),

    /// So many bytes go to the program of a pane.
    Drained(u8, u64),

    /// Asks for the screen that the instance in a slot shows.
    Show(u8),

    /// Asks for the session's face.
    Face,

    /// Asks for the bytes that wait for the program of a pane.
    Output(u8),
}

/// The reason for which a line can't be read.
#[derive(Clone, Copy, Debug, PartialEq, Eq, Error)]
pub enum LineFault {
    /// The line is no event of a script.
    #[error("bad event")]
    BadEvent,

    /// There is no memory for the line's bytes.
    #[error("out of memory")]
    OutOfMemory,
}

/// Returns true if a line is empty or begins with `#`, so that it is no event.
pub fn is_skipped(line: &[u8]) -> bool
    ensures skipped { result ≡ is_skipped line.now }
{
    match line.first() {
        None => true,
        Some(byte) => *byte == b'#',
    }
}

// The line of a session's id, rows and columns.
fn session(text: &[u8]) -> Option<Line>
    ensures line { option_map value_of result ≡ plain_in Kind.Session text.now }
{
    let (first, rest) = first_word(text)?;
    let id = id(first)?;
    let (rows, cols) = first_word(rest)?;
    Some(Line::Session(id, short(rows)?, short(cols)?))
}

// Returns the version of a text.
fn version(text: &[u8]) -> Option<Version>
    ensures version { result ≡ version_in text.now }
{
    match byte(text)? {
        1 => Some(Version::One),
        2 => Some(Version::Two),
        _ => None,
    }
}

// Returns the id and the version of a client's instance, the first version by default.
fn started(text: &[u8]) -> Option<(u64, Version)>
    ensures started { result ≡ start_in text.now }
{
    match first_word(text) {
        None => Some((id(text)?, Version::One)),
        Some((first, rest)) => Some((id(first)?, version(rest)?)),
    }
}

// The line of a client's instance.
fn start(text: &[u8]) -> Option<Line>
    ensures line { option_map value_of result ≡ plain_in Kind.Start text.now }
{
    let (first, rest) = first_word(text)?;
    let slot = slot(first)?;
    let (id, version) = started(rest)?;
    Some(Line::Start(slot, id, version))
}

// The line of the instance of a client that only watches.
fn watch(text: &[u8]) -> Option<Line>
    ensures line { option_map value_of result ≡ plain_in Kind.Watch text.now }
{
    let (first, rest) = first_word(text)?;
    Some(Line::Watch(slot(first)?, id(rest)?))
}

// The line of a client's tick.
fn client_tick(text: &[u8]) -> Option<Line>
    ensures line { option_map value_of result ≡ plain_in Kind.ClientTick text.now }
{
    let (first, rest) = first_word(text)?;
    Some(Line::ClientTick(slot(first)?, long(rest)?))
}

// The line of a datagram to the server.
fn to_server(text: &[u8]) -> Option<Line>
    ensures line { option_map value_of result ≡ plain_in Kind.ToServer text.now }
{
    let (first, rest) = first_word(text)?;
    let number = long(first)?;
    let (port, now) = first_word(rest)?;
    Some(Line::ToServer(number, short(port)?, long(now)?))
}

// The line of a datagram to a client.
fn to_client(text: &[u8]) -> Option<Line>
    ensures line { option_map value_of result ≡ plain_in Kind.ToClient text.now }
{
    let (first, rest) = first_word(text)?;
    let slot = slot(first)?;
    let (number, now) = first_word(rest)?;
    Some(Line::ToClient(slot, long(number)?, long(now)?))
}

// The line of bytes that go to a pane.
fn drained(text: &[u8]) -> Option<Line>
    ensures line { option_map value_of result ≡ plain_in Kind.Drained text.now }
{
    let (first, rest) = first_word(text)?;
    Some(Line::Drained(byte(first)?, long(rest)?))
}

// The line that asks for the face.
fn face(text: &[u8]) -> Option<Line>
    ensures line { option_map value_of result ≡ plain_in Kind.Face text.now }
{
    if text.is_empty() {
        Some(Line::Face)
    } else {
        None
    }
}

// The line of a kind that takes neither bytes nor an act, by what follows its head.
fn plain(kind: Kind, text: &[u8]) -> Option<Line>
    ensures line { option_map value_of result ≡ plain_in kind text.now }
{
    match kind {
        Kind::Session => session(text),
        Kind::Start => start(text),
        Kind::Watch => watch(text),
        Kind::ServerTick => Some(Line::ServerTick(long(text)?)),
        Kind::ClientTick => client_tick(text),
        Kind::ToServer => to_server(text),
        Kind::ToClient => to_client(text),
        Kind::Drained => drained(text),
        Kind::Show => Some(Line::Show(slot(text)?)),
        Kind::Face => face(text),
        Kind::Output => Some(Line::Output(byte(text)?)),
        Kind::PaneBytes | Kind::Typed => None,
    }
}

// The bytes that pairs of hexadecimal digits write, at least one.
fn bytes(alloc: Global, text: &[u8]) -> Result<Vec<u8>, LineFault>
    ensures bytes { MatchResult result (λ v. bytes_in text.now ≡ Some v.items)
        (λ e. (e ≡ LineFault.OutOfMemory) ⊎ ((e ≡ LineFault.BadEvent) × (bytes_in text.now ≡ None))) }
{
    if text.is_empty() {
        return Err(LineFault::BadEvent);
    }
    match hex::decode(alloc, text) {
        Ok(bytes) => Ok(bytes),
        Err(FromHexError::OutOfMemory) => Err(LineFault::OutOfMemory),
        Err(_) => Err(LineFault::BadEvent),
    }
}

// The line of bytes from a pane's program.
fn pane_bytes(alloc: Global, text: &[u8]) -> Result<Line, LineFault>
    ensures read { IsRead Kind.PaneBytes text.now result }
{
    let Some((first, rest)) = first_word(text) else {
        return Err(LineFault::BadEvent);
    };
    let Some(pane) = byte(first) else {
        return Err(LineFault::BadEvent);
    };
    let bytes = bytes(alloc, rest)?;
    Ok(Line::PaneBytes(pane, bytes))
}

// The line of a typed act.
fn typed(text: &[u8]) -> Result<Line, LineFault>
    ensures read { IsRead Kind.Typed text.now result }
    ensures memory { IsErrOf result LineFault.OutOfMemory → ⊥ }
{
    let Some((first, rest)) = first_word(text) else {
        return Err(LineFault::BadEvent);
    };
    let Some(slot) = slot(first) else {
        return Err(LineFault::BadEvent);
    };
    match read_act(rest) {
        Ok(act) => Ok(Line::Typed(slot, act)),
        Err(_) => Err(LineFault::BadEvent),
    }
}

// The line of a kind, by what follows its head.
fn argument(alloc: Global, kind: Kind, text: &[u8]) -> Result<Line, LineFault>
    ensures read { IsRead kind text.now result }
    ensures memory { IsErrOf result LineFault.OutOfMemory → kind ≡ Kind.PaneBytes }
{
    match kind {
        Kind::PaneBytes => pane_bytes(alloc, text),
        Kind::Typed => typed(text),
        _ => plain(kind, text).ok_or(LineFault::BadEvent),
    }
}

/// Returns the value of a line without its end. `BadEvent` for a line without meaning: an unknown word, a number outside its range, a bad
/// act; `OutOfMemory`, only for pane bytes.
pub fn read_line(alloc: Global, line: &[u8]) -> Result<Line, LineFault>
    // The result has this line.
    ensures found { IfOk result (λ l. IsLine (value_of l) × Says line.now (value_of l)) }
    // A value with this line is the result.
    ensures only { (l : LineValue) → IsLine l → Says line.now l
        → MatchResult result (λ r. value_of r ≡ l) (λ e. e ≡ LineFault.OutOfMemory) }
    // Memory is wanted for a pane's bytes alone.
    ensures memory { IsErrOf result LineFault.OutOfMemory → BeginsPane line.now }
{
    one_act_a_line();
    let Some(kind) = Kind::headed(line) else {
        return Err(LineFault::BadEvent);
    };
    let (_, text) = line.split_at(kind.head().len());
    argument(alloc, kind, text)
}
