//! The subcommands, with their options and their helps.
use crate::options::{Choice, Needed, Reads};
use clap::Command;
use std::alloc::{AllocError, Global};

/// The part of `roam world --help` about a script.
const LINES: &str = "\
Lines, with one space between words:
  session ID R C      A session begins, of R rows and C columns; the first line
  start SLOT ID V     A client of version V, 1 or 2, starts in a slot, 0 to 7;
                      without V one of version 1
  watch SLOT ID       A client that only watches starts, of version 2
  pane P HEX          Bytes come from the program of pane P
  type SLOT ACT       An act is typed: char 61, key up, split right, split down,
                      close, focus 2, next, grow 3, size 24 80, view -1
  stick NOW           The server ticks, at a moment in milliseconds
  ctick SLOT NOW      The client ticks
  up K PORT NOW       Datagram K, of all that were sent, comes to the server
  down SLOT K NOW     Datagram K comes to the client
  drained P N         N bytes go to the program of pane P
  show SLOT           What the client shows
  face                What the session shows
  out P               What waits for the program of pane P, in hexadecimal
Empty lines and lines that begin with # are skipped. IDs are hexadecimal.

Example:
  session 1 4 8       ok
  start 0 a1          ok
  ctick 0 0           sent 1-1
  up 1 5001 0         ok 0
  pane 1 6869         ok
  stick 0             sent 2-2
  down 0 2 0          new
  show 0              state 1
                      |hi      |
                      |        |
                      |        |
                      |[1]     |
                      cursor 1 3 shown";

/// The part of `roam rows --help` about records.
const RECORDS: &str = "\
Records, a line each, with one space between words; N is a terminal, 0 to 1023:
  pane N R C          A new terminal of R rows and C columns stands at N
  size N R C          It gets another size
  bytes N L           L bytes follow, which its program wrote
  screen N            The rows of its screen are asked for
  gone N              It ends
What is printed:
  rows N K L          K rows left it; L bytes follow, a line a row: + where the
                      row goes on in the next, else a space, and its text
  lost N K            K more rows left than there was memory for
  cleared N           Its program erased what left until then
  screen N K L        The K rows of its screen, in L bytes

Example:
  pane 0 2 8          rows 0 1 4
  bytes 0 8            hi
  hi
  x
  y";

/// A subcommand: its name, its summary, the rest of its help, and its options.
struct Subcommand {
    name: &'static str,
    about: &'static str,
    more: Option<&'static str>,
    options: &'static [Choice<'static>],
}

const SHOW: Subcommand = Subcommand {
    name: "show",
    about: "Feeds standard input to a terminal and prints the screen that it makes",
    more: None,
    options: &[
        Choice {
            name: "rows",
            value: "R",
            help: "Rows of the screen, 2 to 200",
            reads: Reads::Small,
            needed: Needed::Always,
            needs: &[],
            excludes: &[],
        },
        Choice {
            name: "cols",
            value: "C",
            help: "Columns of the screen, 4 to 500",
            reads: Reads::Small,
            needed: Needed::Always,
            needs: &[],
            excludes: &[],
        },
    ],
};

const WORLD: Subcommand = Subcommand {
    name: "world",
    about: "Plays a script from standard input and prints the answer to each of its lines",
    more: Some(LINES),
    options: &[],
};

const ROWS: Subcommand = Subcommand {
    name: "rows",
    about: "Reads records from standard input and prints every row that leaves the screen of each terminal that they tell of",
    more: Some(RECORDS),
    options: &[NORMALIZE],
};

const NORMALIZE: Choice<'static> = Choice {
    name: "normalize",
    value: "",
    help: "Reads what programs write as they mean it where the profile reads it otherwise: colons in SGR, more than sixteen of \
           its parameters, colours of lines, CSI s and CSI u, the clearing of DECCOLM, the soft hyphen",
    reads: Reads::Nothing,
    needed: Needed::Never,
    needs: &[],
    excludes: &[],
};

const SESSION: Choice<'static> = Choice {
    name: "session",
    value: "H",
    help: "The session's id, 1 to 16 hexadecimal digits; each run of serve needs one of its own. Without a port it may be left out: \
           serve makes one by chance, and tells it in the file session of its folder, where attach reads it",
    reads: Reads::Word,
    needed: Needed::Never,
    needs: &[],
    excludes: &[],
};

const TURNS: Choice<'static> = Choice {
    name: "turns",
    value: "N",
    help: "How many turns the run takes, 18446744073709551615 where it isn't given. Of so many as are given one that brings nothing waits \
           up to 10 milliseconds; a busy pane takes thousands a second",
    reads: Reads::Large,
    needed: Needed::Never,
    needs: &[],
    excludes: &[],
};

const SERVE: Subcommand = Subcommand {
    name: "serve",
    about: "Serves a session of 24 rows and 80 columns, whose panes are reached at sockets",
    more: Some("Example: roam serve --dir ~/.roam"),
    options: &[
        Choice {
            name: "dir",
            value: "D",
            help: "The folder of its sockets: p1 to p9 of the panes, panes, which tells what panes there are, and clients, for \
                   attach --dir. It is your own, and without a port nobody else may enter it; what a killed server left there is made anew",
            reads: Reads::Word,
            needed: Needed::Always,
            needs: &[],
            excludes: &[],
        },
        Choice {
            name: "port",
            value: "P",
            help: "A UDP port on 127.0.0.1 at which clients reach it too, as 4000; with 0 any that is free, which is told on standard \
                   error. Whoever is on this machine reaches it there and can guess the session's id",
            reads: Reads::Small,
            needed: Needed::Never,
            needs: &["session"],
            excludes: &[],
        },
        SESSION,
        TURNS,
        NORMALIZE,
    ],
};

const ATTACH: Subcommand = Subcommand {
    name: "attach",
    about: "Follows a session and paints it on standard output",
    more: Some(
        "Where it ends by itself its status is 0, and with ROAM_WHY set it tells why on standard error, as [the turns are over].\n\n\
         Example: roam attach --dir ~/.roam --keys keys",
    ),
    options: &[
        Choice {
            name: "dir",
            value: "D",
            help: "The folder of the server, whose socket clients it connects to; it ends where the server does",
            reads: Reads::Word,
            needed: Needed::Unless("port"),
            needs: &[],
            excludes: &[],
        },
        Choice {
            name: "port",
            value: "P",
            help: "The UDP port on 127.0.0.1 of the server, as 4000, in place of its folder",
            reads: Reads::Small,
            needed: Needed::Unless("dir"),
            needs: &["session", "client"],
            excludes: &["dir"],
        },
        SESSION,
        Choice {
            name: "client",
            value: "H",
            help: "The id of this start of a client, 1 to 16 hexadecimal digits; each start needs one of its own. With --dir it may \
                   be left out, and is one by chance then",
            reads: Reads::Word,
            needed: Needed::Never,
            needs: &[],
            excludes: &[],
        },
        Choice {
            name: "keys",
            value: "PATH",
            help: "A file with the acts to type, one a line, as `char 61`, `key return` or `split right`; without it none are typed",
            reads: Reads::Word,
            needed: Needed::Never,
            needs: &[],
            excludes: &[],
        },
        Choice {
            name: "acts",
            value: "SOCKET",
            help: "A Unix socket from which such lines come as they are typed; the run ends with them, once they are done",
            reads: Reads::Word,
            needed: Needed::Never,
            needs: &[],
            excludes: &["keys"],
        },
        Choice {
            name: "terminals",
            value: "SOCKET",
            help: "Bind this Unix socket, and be the start of all outer terminals that connect there",
            reads: Reads::Word,
            needed: Needed::Never,
            needs: &[],
            excludes: &["keys", "acts", "watch"],
        },
        Choice {
            name: "wire",
            value: "V",
            help: "The version of the protocol, 1 or 2; 2 where it isn't given",
            reads: Reads::Version,
            needed: Needed::Never,
            needs: &[],
            excludes: &[],
        },
        Choice {
            name: "watch",
            value: "",
            help: "Only watches: no act is typed",
            reads: Reads::Nothing,
            needed: Needed::Never,
            needs: &[],
            excludes: &["wire", "acts"],
        },
        TURNS,
    ],
};

static SUBCOMMANDS: [Subcommand; 5] = [SHOW, ROWS, WORLD, SERVE, ATTACH];

fn subcommand_of<'a>(alloc: Global, subcommand: &Subcommand) -> Result<Command<'a>, AllocError> {
    let mut command = Command::new(alloc, subcommand.name).about(subcommand.about);
    if let Some(text) = subcommand.more {
        command = command.after_help(text);
    }
    for option in subcommand.options {
        command = command.arg(option.arg(alloc)?)?;
    }
    Ok(command)
}

fn with_subcommand<'a>(
    alloc: Global,
    program: Command<'a>,
    subcommand: &Subcommand,
) -> Result<Command<'a>, AllocError> {
    let command = subcommand_of(alloc, subcommand)?;
    program.subcommand(command)
}

/// The program `roam` and its subcommands.
pub fn program<'a>(alloc: Global) -> Result<Command<'a>, AllocError> {
    // Its usage names `roam` under whatever name it was started.
    let mut program = Command::new(alloc, "roam")
        .bin_name("roam")?
        .version("0.1.0")
        .about("A roaming terminal multiplexer")
        .after_help(
            "These are the parts; roam mux puts them together, and is what a person starts: roam mux help.",
        )
        .subcommand_required(true);
    for subcommand in &SUBCOMMANDS {
        program = with_subcommand(alloc, program, subcommand)?;
    }
    Ok(program)
}
