//! The request of the words of the command line.
ghost use Rattle.std.specs.Prelude.{◌≡◌, IfOk, IfErr, codes};
ghost use Rattle.clap.specs.Matches.{found_of};
ghost use Rattle.roam_cli.specs.Requests.{IsAttach, IsIdOf, IsNumberOf, IsRows, IsServe, IsServerOf, IsShow, IsSourceOf, IsTurnsOf, IsWireOf, Asks};

use crate::commands::program;
use clap::error::ErrorKind;
use clap::{ArgMatches, Error};
use roam_tokens::id;
use std::alloc::Global;
use std::convert::AsStr;

/// The request of the words. Ports, rows and columns are numbers up to 65,535, turns up to 2^64 - 1; ids are read from 1 to 16 hexadecimal
/// digits.
#[derive(Drop)]
pub enum Request<'a> {
    /// `roam show`: a screen of these rows and columns.
    Show {
        rows: u16,
        cols: u16,
    },

    /// `roam rows`: prints the rows that leave terminals. The bytes of their programs may be normalized.
    Rows {
        normalize: bool,
    },

    /// `roam world`: a script is played.
    World,

    /// `roam serve`: a server of this session, or of a random one, for so many turns, 2^64 - 1 by default. Its sockets are in this folder,
    /// and its port is on loopback if one is given. The bytes of panes' programs may be normalized.
    Serve {
        folder: &'a str,
        port: Option<u16>,
        session: Option<u64>,
        turns: u64,
        normalize: bool,
    },

    /// `roam attach`: a client instance with this id, or a random one, for so many turns. Its session is served in this folder or on this
    /// port of loopback. It types the acts of this source, has this version, and may be read-only.
    Attach {
        server: Server<'a>,
        session: Option<u64>,
        client: Option<u64>,
        source: Source<'a>,
        wire: Wire,
        watches: bool,
        turns: u64,
    },
}

/// Where `roam attach` reaches its server: in a folder, or on a port of loopback.
#[derive(Clone, Copy, Debug, PartialEq, Eq)]
pub enum Server<'a> {
    Folder(&'a str),
    Port(u16),
}

/// Where the acts of a client instance come from.
#[derive(Clone, Copy, Debug, PartialEq, Eq)]
pub enum Source<'a> {
    /// From nowhere: nobody types.
    Nothing,

    /// From a file, one a line.
    Keys(&'a str),

    /// From the Unix socket at this path, to which it connects.
    Acts(&'a str),

    /// From the outer terminals that connect to the Unix socket that it binds at this path.
    Terminals(&'a str),
}

/// The version of the protocol that a client instance speaks.
#[derive(Clone, Copy, Debug, PartialEq, Eq)]
pub enum Wire {
    One,
    Two,
}

/// The reason for which words have no request: memory was refused; words aren't text; an id is bad; or `clap` gave a refusal or a text.
#[derive(Drop)]
pub enum Refusal {
    Memory,
    NoText,
    BadId,
    Clap(Error),
}

// Returns the id of a word, if there is one. `BadId` if the word writes none.
fn id_in(matches: &ArgMatches<'_>, name: &str) -> Result<Option<u64>, Refusal>
    ensures id { IfOk result (IsIdOf (found_of matches.now) name.now) }
{
    match matches.get_str(name) {
        Some(word) => match id(word.as_bytes()) {
            Some(id) => Ok(Some(id)),
            None => Err(Refusal::BadId),
        },
        None => Ok(None),
    }
}

// Returns the number up to 65,535 of an option, if there is one.
fn small_in(matches: &ArgMatches<'_>, name: &str) -> Option<u16>
    ensures number { IsNumberOf 16 (found_of matches.now) name.now result }
{
    matches.get_one::<u16>(name)
}

// Returns the number of turns of a run: as many as can be counted by default.
fn turns_in(matches: &ArgMatches<'_>) -> u64
    ensures turns { IsTurnsOf (found_of matches.now) result }
{
    matches.get_one::<u64>("turns").unwrap_or(u64::MAX)
}

// Returns the request of `roam serve`. `BadId` for a bad id.
fn serve_of<'a>(matches: &ArgMatches<'a>) -> Result<Request<'a>, Refusal>
    ensures serve { IfOk result (IsServe (found_of matches.now)) }
{
    let session = id_in(matches, "session")?;
    match matches.get_str("dir") {
        Some(folder) => Ok(Request::Serve {
            folder,
            port: small_in(matches, "port"),
            session,
            turns: turns_in(matches),
            normalize: matches.get_flag("normalize"),
        }),
        // Not reached: clap takes no words without it.
        None => Err(Refusal::NoText),
    }
}

// Returns the version of a client instance: the second, unless the first is asked for.
fn wire_in(matches: &ArgMatches<'_>) -> Wire
    ensures wire { IsWireOf (found_of matches.now) result }
{
    match small_in(matches, "wire") {
        Some(1) => Wire::One,
        _ => Wire::Two,
    }
}

// Where the server is reached.
fn server_in<'a>(matches: &ArgMatches<'a>) -> Result<Server<'a>, Refusal>
    ensures server { IfOk result (IsServerOf (found_of matches.now)) }
{
    match (matches.get_str("dir"), small_in(matches, "port")) {
        (Some(folder), _) => Ok(Server::Folder(folder)),
        (None, Some(port)) => Ok(Server::Port(port)),
        // Not reached: clap takes no words without one of them.
        (None, None) => Err(Refusal::NoText),
    }
}

// Where acts come from, of which words name one place at most.
fn source_in<'a>(matches: &ArgMatches<'a>) -> Source<'a>
    ensures source { IsSourceOf (found_of matches.now) result }
{
    if let Some(socket) = matches.get_str("terminals") {
        return Source::Terminals(socket);
    }
    if let Some(socket) = matches.get_str("acts") {
        return Source::Acts(socket);
    }
    match matches.get_str("keys") {
        Some(path) => Source::Keys(path),
        None => Source::Nothing,
    }
}

// Returns the request of `roam attach`. `BadId` for a bad id.
fn attach_of<'a>(matches: &ArgMatches<'a>) -> Result<Request<'a>, Refusal>
    ensures attach { IfOk result (IsAttach (found_of matches.now)) }
{
    Ok(Request::Attach {
        server: server_in(matches)?,
        session: id_in(matches, "session")?,
        client: id_in(matches, "client")?,
        source: source_in(matches),
        wire: wire_in(matches),
        watches: matches.get_flag("watch"),
        turns: turns_in(matches),
    })
}

// Returns the request of `roam show`.
fn show_of<'a>(matches: &ArgMatches<'a>) -> Result<Request<'a>, Refusal>
    ensures show { IfOk result (IsShow (found_of matches.now)) }
{
    match (small_in(matches, "rows"), small_in(matches, "cols")) {
        (Some(rows), Some(cols)) => Ok(Request::Show { rows, cols }),
        // Not reached: clap takes no words without both.
        _ => Err(Refusal::NoText),
    }
}

// Returns the request of `roam rows`.
fn rows_of<'a>(matches: &ArgMatches<'_>) -> Request<'a>
    ensures rows { IsRows (found_of matches.now) result }
{
    Request::Rows {
        normalize: matches.get_flag("normalize"),
    }
}

/// Returns the request of the words, given the matches of `clap` for each option. `BadId` for a bad id.
pub fn request_of<'a>(matches: &ArgMatches<'a>) -> Result<Request<'a>, Refusal>
    ensures asks { IfOk result (Asks matches.now) }
{
    match matches.subcommand() {
        Some(("world", _)) => Ok(Request::World),
        Some(("show", inner)) => show_of(inner),
        Some(("rows", inner)) => Ok(rows_of(inner)),
        Some(("serve", inner)) => serve_of(inner),
        Some(("attach", inner)) => attach_of(inner),
        // Not reached: clap takes no words without a subcommand, and there are no others.
        _ => Err(Refusal::NoText),
    }
}

/// Returns the request of the words, the program's own name first.
pub fn read_words<'a, S: AsStr>(alloc: Global, words: &'a [S]) -> Result<Request<'a>, Refusal> {
    let Ok(program) = program(alloc) else {
        return Err(Refusal::Memory);
    };
    match program.try_get_matches_from(words) {
        Ok(matches) => request_of(&matches),
        Err(error) if error.kind() == ErrorKind::OutOfMemory => Err(Refusal::Memory),
        Err(error) => Err(Refusal::Clap(error)),
    }
}
