//! The outer terminals of a client instance: their typed lines, and the bytes painted to each.
//!
//! `round` accepts the terminals at the socket, and takes a round; `acts N` is the number of unacknowledged acts; `terminals N` is the
//! number of terminals; `ends` and `goes on` say whether the instance's end was asked for; `at N` sets the moment. The instance hears its
//! server only at `meets`: five turns of a server whose program writes back its input, 20 milliseconds each, with a round behind each.
use crate::doors::first_other_run;
use crate::echoing::Echoing;
use crate::programs::Programs;
use mio::net::{UnixListener, UnixStream};
use roam_hub::Client;
use roam_outer_terminal::Opaque;
use roam_shared_client::{Listening, SharedClient};
use roam_sockets::{listen, loopback};
use roam_turns::MemoryPorts;
use std::alloc::Global;
use std::fs::create_dir;
use std::test::*;

/// An instance with its terminals, the socket at which they come, and programs that come there.
#[derive(Drop)]
struct Place {
    listener: UnixListener,
    shared: SharedClient<Opaque<UnixStream>>,
    ports: Listening<MemoryPorts>,
    server: Echoing,
}

fn place_at(rt: &HostRuntime, path: &str) -> Result<Option<Place>, Fail> {
    let Some(listener) = listen(rt, path) else {
        return Ok(None);
    };
    let client = Client::new(rt.alloc(), 1, 0xA1)?;
    Ok(Some(Place {
        listener,
        shared: SharedClient::new(rt.alloc(), client),
        ports: Listening::new(MemoryPorts::new(rt.alloc())),
        server: Echoing::new(rt.alloc())?,
    }))
}

impl Place {
    // Takes those that wait at the socket, and a round.
    fn round(&mut self, alloc: Global) -> bool {
        for _ in 0..4u8 {
            if let Ok((stream, _)) = self.listener.accept() {
                let _ = self.shared.add(alloc, Opaque::new(stream));
            }
        }
        let _ = self.shared.round(alloc, &mut self.ports, loopback(5000));
        true
    }

    // Hears five turns of a server.
    fn meet(&mut self, alloc: Global) -> Result<bool, Fail> {
        for _ in 0..5u8 {
            self.server.meet(alloc, self.ports.ports())?;
            self.round(alloc);
        }
        Ok(true)
    }

    // It is this moment.
    fn set_moment(&mut self, words: &str) -> bool {
        match words.parse::<u64>() {
            Ok(moment) => {
                self.server.set_moment(self.ports.ports(), moment);
                true
            }
            Err(_) => false,
        }
    }

    // Returns true if there are so many.
    fn are_so_many(&self, line: &str) -> bool {
        match line.split_once(' ') {
            Some(("acts", count)) => {
                count.parse::<usize>() == Ok(self.shared.client().unacknowledged())
            }
            Some(("terminals", count)) => count.parse::<usize>() == Ok(self.shared.len()),
            _ => false,
        }
    }

    // Returns true if this is true, or is done.
    fn is_so(&mut self, alloc: Global, line: &str) -> Result<bool, Fail> {
        match line {
            "round" => Ok(self.round(alloc)),
            "meets" => self.meet(alloc),
            "ends" => Ok(self.shared.is_ending()),
            "goes on" => Ok(!self.shared.is_ending()),
            _ => match line.strip_prefix("at ") {
                Some(moment) => Ok(self.set_moment(moment)),
                None => Ok(self.are_so_many(line)),
            },
        }
    }
}

// Returns true if a line is done, or is true.
fn is_done(
    rt: &HostRuntime,
    place: &mut Place,
    programs: &mut Programs,
    line: &str,
) -> Result<bool, Fail> {
    match line.split_once(' ') {
        Some((who @ ("first" | "second" | "others"), words)) => Ok(programs.does(rt, who, words)),
        _ => place.is_so(rt.alloc(), line),
    }
}

// The first line that isn't so.
fn first_undone<'a>(
    rt: &HostRuntime,
    place: &mut Place,
    programs: &mut Programs,
    lines: &'a str,
) -> Result<Option<&'a str>, Fail> {
    for line in lines.lines() {
        if !is_done(rt, place, programs, line)? {
            return Ok(Some(line));
        }
    }
    Ok(None)
}

// The first line that isn't so of an instance whose terminals come to a path.
fn first_wrong<'a>(rt: &HostRuntime, path: &str, lines: &'a str) -> Result<Option<&'a str>, Fail> {
    match place_at(rt, path)? {
        Some(mut place) => first_undone(rt, &mut place, &mut Programs::new(rt.alloc()), lines),
        None => Ok(Some("no socket")),
    }
}

/// The screen numbered 0 opens each terminal. Acts of one line are typed all or none, and none of a read-only terminal. A bad line ends
/// only its own terminal, and an unfinished one is dropped with it. Whole lines are typed however soon their terminal left. `repaint` opens
/// the terminal that sends it. The prediction of a first key isn't shown.
const LINES: &str = "\
first connects shared/terminals
second connects shared/terminals
round
terminals 2
first reads \x1Bc\x1B[?25l\x1B[0m\x1B[1;1H\x1B[?25h
second reads \x1Bc\x1B[?25l\x1B[0m\x1B[1;1H\x1B[?25h
first types char 61 ; char 62/char 63/char
round
acts 2
round
acts 3
first types  64/
round
acts 4
second types watch/char 65/repaint/end/
round
round
round
round
goes on
acts 4
first waits
second reads \x1Bc\x1B[?25l\x1B[0m\x1B[1;1H\x1B[?25h
second types watch/char 66/
round
second reads \r/roam: line 5: bad act\r/
second is let go
terminals 1
first types char 61 ; char 62 ; bogus/
round
acts 4
terminals 0
second connects shared/terminals
round
second reads \x1Bc\x1B[?25l\x1B[0m\x1B[1;1H\x1B[?25h
second types char 61/char 62
second leaves
round
acts 5
round
acts 5
terminals 0
second connects shared/terminals
second types char 61/char 62/char 63/
second leaves
round
acts 6
round
acts 7
round
acts 8
round
terminals 0
second connects shared/terminals
round
second reads \x1Bc\x1B[?25l\x1B[0m\x1B[1;1H\x1B[?25h
second types predict always/char 63/predict never/end/
round
acts 8
round
acts 9
second waits
round
goes on
round
ends
acts 9";

/// Pasted acts are typed like others, and a paste without acts is refused. A line of 64 acts is typed if none is unacknowledged, and the
/// next one waits.
const MANY: &str = "\
first connects many/terminals
second connects many/terminals
round
first types char 61 ; char 61 ; char 61 ; char 61 ; char 61 ; char 61 ; char 61 ; char 61 ; \
char 61 ; char 61 ; char 61 ; char 61 ; char 61 ; char 61 ; char 61 ; char 61 ;\x20
round
acts 0
first types char 61 ; char 61 ; char 61 ; char 61 ; char 61 ; char 61 ; char 61 ; char 61 ; \
char 61 ; char 61 ; char 61 ; char 61 ; char 61 ; char 61 ; char 61 ; char 61 ;\x20
round
acts 0
first types char 61 ; char 61 ; char 61 ; char 61 ; char 61 ; char 61 ; char 61 ; char 61 ; \
char 61 ; char 61 ; char 61 ; char 61 ; char 61 ; char 61 ; char 61 ; char 61 ;\x20
round
acts 0
first types char 61 ; char 61 ; char 61 ; char 61 ; char 61 ; char 61 ; char 61 ; char 61 ; \
char 61 ; char 61 ; char 61 ; char 61 ; char 61 ; char 61 ; char 61 ; char 61/
round
acts 64
second types paste ; char 62/
round
acts 64
second types char 63/
round
acts 64
terminals 2";

/// The same with a paste first.
const PASTED: &str = "\
first connects pasted/terminals
second connects pasted/terminals
round
first types paste ; char 61 ; char 62/
round
acts 2
second types paste ; /
round
acts 2
first types char 63/
round
acts 3
terminals 1";

/// A terminal that asks for records gets them behind the bytes painted before. They say which of its lines are taken, and paint the shown
/// part, with its size and place, opened anew if the terminal's screen is unknown. A line with unacknowledged acts isn't reported, and a
/// refused one is reported by its number. Only the second line may ask for a read-only terminal, and only the first for records. A terminal
/// without records is refused the lines that need them.
const TOLD: &str = "\
first connects told/terminals
second connects told/terminals
round
first reads \x1Bc\x1B[?25l\x1B[0m\x1B[1;1H\x1B[?25h
second reads \x1Bc\x1B[?25l\x1B[0m\x1B[1;1H\x1B[?25h
first types events/
round
first reads /events/
round
first reads taken 1/size 24 80/anew 24/\x1Bc\x1B[?25l\x1B[0m\x1B[1;1H\x1B[?25h
first types part 2 4/
round
first reads taken 2/size 2 4/part 0 0/anew 24/\x1Bc\x1B[?25l\x1B[0m\x1B[1;1H\x1B[?25h
first types mask 0 0 1 4/
round
first reads taken 3/anew 24/\x1Bc\x1B[?25l\x1B[0m\x1B[1;1H\x1B[?25h
first types repaint/
round
first reads taken 4/anew 24/\x1Bc\x1B[?25l\x1B[0m\x1B[1;1H\x1B[?25h
first types char 61/
round
acts 1
first waits
first types events/
round
first reads refused 6 bad act/
first is let go
second types look/
round
second reads \r/roam: line 1: bad act\r/
second is let go
first connects told/terminals
round
first reads \x1Bc\x1B[?25l\x1B[0m\x1B[1;1H\x1B[?25h
first types events/watch/char 61/
round
first reads /events/
round
first reads taken 2/size 24 80/anew 24/\x1Bc\x1B[?25l\x1B[0m\x1B[1;1H\x1B[?25h
round
first reads taken 3/
acts 1
first types watch/
round
first reads refused 4 bad act/
first is let go
terminals 0";

/// The prediction of a key is shown once one before it was confirmed, and not before: it is painted before the server is heard.
const PREDICTED: &str = "\
first connects guessed/terminals
round
first reads \x1Bc\x1B[?25l\x1B[0m\x1B[1;1H\x1B[?25h
meets
first sees [1]
first types predict always/char 61/
round
round
first waits
meets
acts 0
first sees a
first types char 71/
round
first sees q
acts 1";

/// A silence of ten seconds or more is shown once a second: in a record, or over the last row of a terminal without records. Once the
/// server is heard again, the first gets a record, and the other is painted anew.
const SILENT: &str = "\
first connects silent/terminals
second connects silent/terminals
round
first reads \x1Bc\x1B[?25l\x1B[0m\x1B[1;1H\x1B[?25h
second reads \x1Bc\x1B[?25l\x1B[0m\x1B[1;1H\x1B[?25h
first types events/
round
first reads /events/
round
first reads taken 1/size 24 80/anew 24/\x1Bc\x1B[?25l\x1B[0m\x1B[1;1H\x1B[?25h
at 9999
round
first waits
second waits
at 10000
round
first reads silent 10/
second reads \x1B7\x1B[?7l\x1B[999;1H\x1B[0;7mroam: no answer for 10 s\x1B[0m\x1B[K\x1B[?7h\x1B8
at 10999
round
first waits
second waits
at 11000
round
first reads silent 11/
second reads \x1B7\x1B[?7l\x1B[999;1H\x1B[0;7mroam: no answer for 11 s\x1B[0m\x1B[K\x1B[?7h\x1B8
meets
first sees heard
second sees \x1Bc";

/// Sixteen are taken in, and one above them is let go. A line of more than 1,093 bytes is refused though it isn't ended.
const FULL: &str = "\
first connects full/terminals
others 15 full/terminals
round
round
round
round
terminals 16
second connects full/terminals
round
second is let go
terminals 16
first reads \x1Bc\x1B[?25l\x1B[0m\x1B[1;1H\x1B[?25h
first types char 61/
first fills 1093
round
round
first waits
terminals 16
acts 1
first fills 1
round
first reads \r/roam: line 2: bad act\r/
first is let go
second connects full/terminals
second fills 1094
round
second reads \r/roam: line 1: bad act\r/
second is let go
terminals 15";

#[test]
fn terminals_share_a_start(rt: HostRuntime) -> Result<(), Fail> {
    let stories = [
        ("shared", "shared/terminals", LINES),
        ("many", "many/terminals", MANY),
        ("pasted", "pasted/terminals", PASTED),
        ("told", "told/terminals", TOLD),
        ("guessed", "guessed/terminals", PREDICTED),
        ("silent", "silent/terminals", SILENT),
        ("full", "full/terminals", FULL),
    ];
    for (folder, path, lines) in stories {
        create_dir(&rt, folder)?;
        let wrong = first_wrong(&rt, path, lines)?;
        assert!(rt; wrong.is_none(), "{wrong:?}");
    }
    assert_eq!(rt; first_other_run(rt.alloc())?, None);
    Ok(())
}
