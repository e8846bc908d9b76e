//! The request of the words, and the texts of `clap` for a user.
use roam_cli::{Refusal, Request, Server, Source, Wire, read_words};
use std::alloc::{AllocError, Global};
use std::test::*;

// Words that ask for a text or are refused, each case after `> `: the exit status and the words, and then the text.
const TOLD: &str = "\
2 roam show --rows x
error: invalid value 'x' for '--rows <R>': invalid digit found in string

For more information, try '--help'.
> 2 roam show --rows 70000 --cols 8
error: invalid value '70000' for '--rows <R>': 70000 is not in 0..=65535

For more information, try '--help'.
> 2 roam show --rows 2
error: the following required arguments were not provided:
  --cols <C>

Usage: roam show --rows <R> --cols <C>

For more information, try '--help'.
> 0 roam show --help
Feeds standard input to a terminal and prints the screen that it makes

Usage: roam show --rows <R> --cols <C>

Options:
      --rows <R>  Rows of the screen, 2 to 200
      --cols <C>  Columns of the screen, 4 to 500
  -h, --help      Print help
> 0 roam --help
A roaming terminal multiplexer

Usage: roam <COMMAND>

Commands:
  show    Feeds standard input to a terminal and prints the screen that it makes
  rows    Reads records from standard input and prints every row that leaves the screen of each terminal that they tell of
  world   Plays a script from standard input and prints the answer to each of its lines
  serve   Serves a session of 24 rows and 80 columns, whose panes are reached at sockets
  attach  Follows a session and paints it on standard output
  help    Print this message or the help of the given subcommand(s)

Options:
  -h, --help     Print help
  -V, --version  Print version

These are the parts; roam mux puts them together, and is what a person starts: roam mux help.
> 0 roam --version
roam 0.1.0
> 2 roam world script
error: unexpected argument 'script' found

Usage: roam world

For more information, try '--help'.
> 2 roam serve --dir d --port 65536
error: invalid value '65536' for '--port <P>': 65536 is not in 0..=65535

For more information, try '--help'.
> 2 roam attach --wire 3
error: invalid value '3' for '--wire <V>': 3 is not in 1..=2

For more information, try '--help'.
> 0 elsewhere/program attach --help
Follows a session and paints it on standard output

Usage: roam attach [OPTIONS]

Options:
      --dir <D>             The folder of the server, whose socket clients it connects to; it ends where the server does
      --port <P>            The UDP port on 127.0.0.1 of the server, as 4000, in place of its folder
      --session <H>         The session's id, 1 to 16 hexadecimal digits; each run of serve needs one of its own. Without a port it may \
    be left out: serve makes one by chance, and tells it in the file session of its folder, where attach reads it
      --client <H>          The id of this start of a client, 1 to 16 hexadecimal digits; each start needs one of its own. With --dir it \
    may be left out, and is one by chance then
      --keys <PATH>         A file with the acts to type, one a line, as `char 61`, `key return` or `split right`; without it none are typed
      --acts <SOCKET>       A Unix socket from which such lines come as they are typed; the run ends with them, once they are done
      --terminals <SOCKET>  Bind this Unix socket, and be the start of all outer terminals that connect there
      --wire <V>            The version of the protocol, 1 or 2; 2 where it isn't given
      --watch               Only watches: no act is typed
      --turns <N>           How many turns the run takes, 18446744073709551615 where it isn't given. Of so many as are given one \
    that brings nothing waits up to 10 milliseconds; a busy pane takes thousands a second
  -h, --help                Print help

Where it ends by itself its status is 0, and with ROAM_WHY set it tells why on standard error, as [the turns are over].

Example: roam attach --dir ~/.roam --keys keys";

// The words of a line.
fn words_of<'a>(alloc: Global, line: &'a str) -> Result<Vec<&'a str>, AllocError> {
    let mut words = Vec::new(alloc);
    for word in line.split(' ') {
        words.push(word)?;
    }
    Ok(words)
}

// Returns the status that words get, and below it their text; `None` if they have a request, or another refusal.
fn told_of(alloc: Global, words: &[&str]) -> Result<Option<String>, AllocError> {
    match read_words(alloc, words) {
        Err(Refusal::Clap(error)) => {
            let text = error.to_string(alloc)?;
            Ok(Some(format!(in alloc; "{}\n{}", error.exit_code(), text.as_str())?))
        }
        _ => Ok(None),
    }
}

// Returns the status of a case, its words, and its text; `None` if it is malformed.
fn case_of(case: &str) -> Option<(&str, &str, &str)> {
    let (head, text) = case.split_once('\n')?;
    let (status, line) = head.split_once(' ')?;
    Some((status, line, text))
}

#[test]
fn texts_of_words(rt: HostRuntime) -> Result<(), Fail> {
    for case in TOLD.split("\n> ") {
        match case_of(case) {
            Some((status, line, text)) => {
                let words = words_of(rt.alloc(), line)?;
                let wanted = format!(in rt.alloc(); "{status}\n{text}\n")?;
                let found = told_of(rt.alloc(), &words)?;
                assert_eq!(rt; found, Some(wanted), "{line}");
            }
            None => panic!(rt; "malformed case: {case}"),
        }
    }
    Ok(())
}

// Words, and their request. For `serve`: the folder, the port, the session, the turns, and true if bytes are normalized. For `attach`: the
// folder or the port, the session, the client (`-` is none), the source of acts, the version, true if it is read-only, and the turns.
// Numbers are decimal. Words that exclude or lack each other, and a bad version, have no request.
const ASKED: &str = "\
roam show --rows 2 --cols 8|show 2 8
roam rows|rows
roam rows --normalize|rows normalized
roam rows --rows 2|nothing
roam world|world
roam serve --dir d --port 4000 --session 5E55 --turns 9|serve d 4000 24149 9
roam serve --dir d --port 4000 --session 5E55|serve d 4000 24149 18446744073709551615
roam serve --dir d|serve d - - 18446744073709551615
roam serve --dir d --session 5E55|serve d - 24149 18446744073709551615
roam serve --dir d --normalize --turns 9|serve d - - 9 normalized
roam serve --dir d --normalize 1|nothing
roam serve --dir d --port 4000|nothing
roam serve --port 4000 --session 5E55|nothing
roam attach --turns 18446744073709551615 --keys k --client ffffffffffffffff --session 0 --port 1|\
attach 1 0 18446744073709551615 keys k 2 types 18446744073709551615
roam attach --client ffffffffffffffff --session 0 --port 1|\
attach 1 0 18446744073709551615 nothing 2 types 18446744073709551615
roam attach --client ffffffffffffffff --session 0 --port 1 --wire 1|\
attach 1 0 18446744073709551615 nothing 1 types 18446744073709551615
roam attach --client ffffffffffffffff --session 0 --port 1 --watch|\
attach 1 0 18446744073709551615 nothing 2 watches 18446744073709551615
roam attach --client ffffffffffffffff --session 0 --port 1 --watch --keys k --turns 7|\
attach 1 0 18446744073709551615 keys k 2 watches 7
roam attach --dir d|attach d - - nothing 2 types 18446744073709551615
roam attach --dir d --session a --client b --acts s|attach d 10 11 acts s 2 types 18446744073709551615
roam attach --dir d --terminals t --wire 1|attach d - - terminals t 1 types 18446744073709551615
roam attach --dir d --terminals t --keys k|nothing
roam attach --dir d --acts s --terminals t|nothing
roam attach --dir d --watch --terminals t|nothing
roam attach|nothing
roam attach --port 1|nothing
roam attach --port 1 --session 0|nothing
roam attach --dir d --port 1 --session 0 --client 1|nothing
roam attach --client ffffffffffffffff --session 0 --port 1 --wire 0|nothing
roam attach --client ffffffffffffffff --session 0 --port 1 --watch --wire 2|nothing
roam attach --client ffffffffffffffff --session 0 --port 1 --acts s --keys k|nothing
roam attach --client ffffffffffffffff --session 0 --port 1 --watch --acts s|nothing";

// A number that may have been left out.
fn text_or_none(alloc: Global, number: &Option<u64>) -> Result<String, AllocError> {
    match number {
        Some(number) => format!(in alloc; "{number}"),
        None => String::from_str(alloc, "-"),
    }
}

fn text_of_home(alloc: Global, server: &Server<'_>) -> Result<String, AllocError> {
    match server {
        Server::Folder(folder) => String::from_str(alloc, *folder),
        Server::Port(port) => format!(in alloc; "{port}"),
    }
}

fn text_of_source(alloc: Global, source: &Source<'_>) -> Result<String, AllocError> {
    match source {
        Source::Nothing => String::from_str(alloc, "nothing"),
        Source::Keys(path) => format!(in alloc; "keys {path}"),
        Source::Acts(socket) => format!(in alloc; "acts {socket}"),
        Source::Terminals(socket) => format!(in alloc; "terminals {socket}"),
    }
}

fn text_of(alloc: Global, request: &Request<'_>) -> Result<String, AllocError> {
    match request {
        Request::Show { rows, cols } => format!(in alloc; "show {rows} {cols}"),
        Request::Rows { normalize } => {
            String::from_str(
                alloc,
                if *normalize {
                    "rows normalized"
                } else {
                    "rows"
                },
            )
        }
        Request::World => String::from_str(alloc, "world"),
        Request::Serve {
            folder,
            port,
            session,
            turns,
            normalize,
        } => {
            let port = text_or_none(alloc, &port.map(u64::from))?;
            let session = text_or_none(alloc, session)?;
            let how = if *normalize { " normalized" } else { "" };
            format!(in alloc; "serve {folder} {port} {session} {turns}{how}")
        }
        Request::Attach {
            server,
            session,
            client,
            source,
            wire,
            watches,
            turns,
        } => {
            let home = text_of_home(alloc, server)?;
            let session = text_or_none(alloc, session)?;
            let client = text_or_none(alloc, client)?;
            let source = text_of_source(alloc, source)?;
            let version = if *wire == Wire::One { 1 } else { 2 };
            let how = if *watches { "watches" } else { "types" };
            format!(in alloc; "attach {home} {session} {client} {source} {version} {how} {turns}")
        }
    }
}

// Returns the text of the request of words; `nothing` if they have none.
fn asked_of(alloc: Global, words: &[&str]) -> Result<String, AllocError> {
    match read_words(alloc, words) {
        Ok(request) => text_of(alloc, &request),
        Err(_) => String::from_str(alloc, "nothing"),
    }
}

#[test]
fn words_and_what_they_ask_for(rt: HostRuntime) -> Result<(), Fail> {
    for case in ASKED.lines() {
        match case.split_once('|') {
            Some((line, wanted)) => {
                let words = words_of(rt.alloc(), line)?;
                let found = asked_of(rt.alloc(), &words)?;
                assert_eq!(rt; found.as_str(), wanted, "{line}");
            }
            None => panic!(rt; "malformed case: {case}"),
        }
    }
    Ok(())
}

// Returns the kind of refusal that the words of `serve` with this id get; `none` if they have a request.
fn refusal_of_id(alloc: Global, id: &str) -> &'static str {
    let words = [
        "roam",
        "serve",
        "--dir",
        "d",
        "--port",
        "1",
        "--session",
        id,
        "--turns",
        "1",
    ];
    match read_words(alloc, &words) {
        Ok(_) => "none",
        Err(Refusal::Memory) => "memory",
        Err(Refusal::NoText) => "no text",
        Err(Refusal::BadId) => "bad id",
        Err(Refusal::Clap(_)) => "clap",
    }
}

#[test]
fn ids_that_are_none(rt: HostRuntime) {
    for id in ["", "g", "0x1", "+1", "5e 55", "00000000000000001"] {
        assert_eq!(rt; refusal_of_id(rt.alloc(), id), "bad id", "{id:?}");
    }
}
