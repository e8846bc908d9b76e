//! The sockets of a server, as text: the actions of its ports and of two programs, and the files of its folder.
//!
//! A line begins with its subject. `first` or `second` is one of the programs, with its action. `files` checks files. `pane` and a number
//! take `generations N` or `goes`, `gives TEXT` or `gives nothing`, `takes TEXT` or `takes nothing of TEXT`.
//! `fills`: its program takes bytes until it takes no more.
//!
//! `told` sends subscribers panes 1 and 2, each with its generation, its first row and its rows, or `none`; pane 2 has the focus if it is
//! open. Behind them are the numbers of client instances that edit and that are read-only, if they are known. `beside` and a moment sends
//! metadata, `clips` and a moment sends clips, and `asks` and a moment sends questions. `moment N is M`: if a clock gives N, the moment is
//! M.
//!
//! `mends FOLDER at N`: at moment N, the sockets of the folder are bound anew whose files are gone.
//!
//! `wait ends`: input arrives before 20 seconds have passed. `wait lasts`: none arrives within 50 milliseconds. `wait passes` takes either.
//! Waits count from moment 0.
//! `files are removed` by the ports. `start asks ACT, ACT` or `is quiet`: a datagram of the server's own instance arrives with these acts,
//! or none does.
use crate::acts::has;
use crate::files::{first_untrue, is_so, ports_for};
use crate::programs::Programs;
use roam_faults::RunFault;
use roam_pane_protocol::{ListedPane, PaneList};
use roam_serve::ServerPorts;
use roam_turns::Ports;
use std::alloc::Global;
use std::test::*;
use std::time::Instant;

/// The longest wait in milliseconds that is to end early, and of one that isn't.
const LONG: u64 = 20_000;

const SHORT: u64 = 50;

/// The pieces of a kilobyte that are more than a stream of the system holds.
const MOST_FILLED: u32 = 4096;

fn generations(ports: &mut ServerPorts<&HostRuntime>, pane: u8, generation: &str) -> bool {
    match generation.parse::<u64>() {
        Ok(generation) => {
            ports.pane_generations(pane, Some(generation));
            true
        }
        Err(_) => false,
    }
}

fn gives(ports: &mut ServerPorts<&HostRuntime>, pane: u8, text: &str) -> bool {
    let mut buf = [0u8; 16];
    match ports.pane_in(pane, &mut buf) {
        None => text == "nothing",
        Some(count) => &buf[..count] == text.as_bytes(),
    }
}

fn takes(ports: &mut ServerPorts<&HostRuntime>, pane: u8, text: &str) -> bool {
    match text.strip_prefix("nothing of ") {
        Some(text) => ports.pane_out(pane, text.as_bytes()) == 0,
        None => ports.pane_out(pane, text.as_bytes()) == text.len(),
    }
}

// Writes to the program of a pane until it takes nothing more, and then once again.
fn fills(ports: &mut ServerPorts<&HostRuntime>, pane: u8) -> bool {
    for _ in 0..MOST_FILLED {
        if ports.pane_out(pane, &[b'.'; 1024]) == 0 {
            return ports.pane_out(pane, b".") == 0;
        }
    }
    false
}

fn is_pane(ports: &mut ServerPorts<&HostRuntime>, pane: u8, words: &str) -> bool {
    let (verb, rest) = words.split_once(' ').unwrap_or((words, ""));
    match verb {
        "goes" => {
            ports.pane_generations(pane, None);
            true
        }
        "lives" => generations(ports, pane, rest),
        "gives" => gives(ports, pane, rest),
        "takes" => takes(ports, pane, rest),
        "fills" => fills(ports, pane),
        _ => false,
    }
}

// A pane by its number.
fn is_numbered(ports: &mut ServerPorts<&HostRuntime>, words: &str) -> bool {
    if let Some((number, rest)) = words.split_once(' ')
        && let Ok(pane) = number.parse::<u8>()
    {
        return is_pane(ports, pane, rest);
    }
    false
}

fn pane_of(words: &str) -> Option<Option<ListedPane>> {
    if words == "none" {
        return Some(None);
    }
    let (generation, place) = words.split_once(' ')?;
    let (row, rows) = place.split_once(' ')?;
    Some(Some(ListedPane {
        generation: generation.parse::<u64>().ok()?,
        row: row.parse::<u16>().ok()?,
        col: 1,
        rows: rows.parse::<u16>().ok()?,
        cols: 80,
    }))
}

/// Returns pane 1, and pane 2 if it is open, which has the focus then.
fn panes(first: Option<ListedPane>, second: Option<ListedPane>) -> PaneList {
    let mut panes = PaneList::unknown();
    panes.set(1, first);
    panes.set(2, second);
    panes.set_focus(if second.is_some() { 2 } else { 1 });
    panes
}

/// Puts how many client instances edit, and how many watch.
fn counted(panes: &mut PaneList, words: &str) -> Option<()> {
    let (starts, watchers) = words.split_once(' ')?;
    panes.set_clients(starts.parse::<u16>().ok()?);
    panes.set_watchers(watchers.parse::<u16>().ok()?);
    Some(())
}

/// Returns the panes of a session, as a line gives them.
fn list_of(words: &str) -> Option<PaneList> {
    let (first, rest) = words.split_once(", ")?;
    let (second, counts) = rest.split_once(", ").unwrap_or((rest, ""));
    let mut panes = panes(pane_of(first)?, pane_of(second)?);
    if !counts.is_empty() {
        counted(&mut panes, counts)?;
    }
    Some(panes)
}

fn is_told(alloc: Global, ports: &mut ServerPorts<&HostRuntime>, words: &str) -> bool {
    match list_of(words) {
        Some(panes) => {
            // Two rests, as between the turns of a run without input: the second waits, and the programs that connected meanwhile are
            // accepted.
            ports.rest(Some(0));
            ports.rest(Some(0));
            ports.tell_panes(&panes);
            true
        }
        None => false,
    }
}

// Returns true if the next datagram of the server's own instance has these acts.
fn asks(alloc: Global, ports: &mut ServerPorts<&HostRuntime>, acts: &str) -> bool {
    let mut buf = [0u8; 2048];
    match ports.receive(&mut buf) {
        Some((from, len)) => {
            from.host == [0, 0, 0, 0] && from.port == 0 && has(alloc, &buf[..len], acts)
        }
        None => false,
    }
}

// It is this moment.
fn is_now(ports: &mut ServerPorts<&HostRuntime>, words: &str) -> bool {
    match words.parse::<u64>() {
        Ok(moment) => {
            ports.set_moment(moment);
            ports.now();
            true
        }
        Err(_) => false,
    }
}

// Sends metadata at this moment.
fn is_metadata(ports: &mut ServerPorts<&HostRuntime>, words: &str) -> bool {
    let is_moment = is_now(ports, words);
    ports.tell_metadata();
    is_moment
}

// Sends clips at this moment.
fn are_clips(ports: &mut ServerPorts<&HostRuntime>, words: &str) -> bool {
    let is_moment = is_now(ports, words);
    ports.tell_clips();
    is_moment
}

// Sends questions of the panes' programs at this moment.
fn are_queries(ports: &mut ServerPorts<&HostRuntime>, words: &str) -> bool {
    let is_moment = is_now(ports, words);
    ports.tell_queries();
    is_moment
}

// Returns true if the moment is the expected one, given the clock's.
fn is_moment(ports: &mut ServerPorts<&HostRuntime>, words: &str) -> bool {
    let (told, is) = words.split_once(" is ").unwrap_or((words, ""));
    match (told.parse::<u64>(), is.parse::<u64>()) {
        (Ok(told), Ok(moment)) => {
            ports.set_moment(told);
            ports.now() == moment
        }
        _ => false,
    }
}

// Binds the sockets of a folder anew whose files are gone, at a moment.
fn is_mended(rt: &HostRuntime, ports: &mut ServerPorts<&HostRuntime>, words: &str) -> bool {
    let Some((folder, moment)) = words.split_once(" at ") else {
        return false;
    };
    let is_moment = is_now(ports, moment);
    ports.mend_sockets(rt, folder, 1);
    is_moment
}

// Returns true if a wait ends early or lasts. Twenty seconds are enough on the busiest machine, and no load shortens a wait that lasts.
fn is_wait(
    rt: &HostRuntime,
    ports: &mut ServerPorts<&HostRuntime>,
    words: &str,
) -> Result<bool, Fail> {
    let before = Instant::now(rt)?;
    ports.rest(Some(if words == "ends" { LONG } else { SHORT }));
    let passed = before.elapsed(rt)?.as_millis();
    match words {
        "ends" => Ok(passed < 10_000),
        "lasts" => Ok(passed >= 40),
        _ => Ok(words == "passes"),
    }
}

fn is_start(alloc: Global, ports: &mut ServerPorts<&HostRuntime>, words: &str) -> bool {
    match words.strip_prefix("asks ") {
        Some(acts) => asks(alloc, ports, acts),
        None => words == "is quiet" && ports.receive(&mut [0u8; 2048]).is_none(),
    }
}

fn are_files(
    rt: &HostRuntime,
    ports: &mut ServerPorts<&HostRuntime>,
    words: &str,
) -> Result<bool, Fail> {
    if words == "are removed" {
        ports.remove(rt);
        return Ok(true);
    }
    is_so(rt, words)
}

fn is_done(
    rt: &HostRuntime,
    ports: &mut ServerPorts<&HostRuntime>,
    programs: &mut Programs,
    line: &str,
) -> Result<bool, Fail> {
    let Some((who, words)) = line.split_once(' ') else {
        return Ok(false);
    };
    match who {
        "pane" => Ok(is_numbered(ports, words)),
        "told" => Ok(is_told(rt.alloc(), ports, words)),
        "beside" => Ok(is_metadata(ports, words)),
        "clips" => Ok(are_clips(ports, words)),
        "asks" => Ok(are_queries(ports, words)),
        "moment" => Ok(is_moment(ports, words)),
        "files" => are_files(rt, ports, words),
        "mends" => Ok(is_mended(rt, ports, words)),
        "start" => Ok(is_start(rt.alloc(), ports, words)),
        "wait" => is_wait(rt, ports, words),
        _ => Ok(programs.does(rt, who, words)),
    }
}

// The first line that isn't so.
fn first_undone<'a>(
    rt: &HostRuntime,
    ports: &mut ServerPorts<&HostRuntime>,
    programs: &mut Programs,
    lines: &'a str,
) -> Result<Option<&'a str>, Fail> {
    for line in lines.lines() {
        if !is_done(rt, ports, programs, line)? {
            return Ok(Some(line));
        }
    }
    Ok(None)
}

// Returns the ports in a folder; the bytes of panes are normalized if the line ends with `as normalized`.
fn ports_of<'a>(
    rt: &'a HostRuntime,
    words: &str,
) -> Result<ServerPorts<&'a HostRuntime>, RunFault> {
    match words.strip_suffix(" normalized") {
        Some(folder) => ports_for(rt, folder, true),
        None => ports_for(rt, words, false),
    }
}

// Returns the first failing line of a story: of files alone, or, behind a line `ports FOLDER` or one with `as normalized`, of the sockets
// there too.
fn first_wrong<'a>(rt: &HostRuntime, story: &'a str) -> Result<Option<&'a str>, Fail> {
    let (ready, rest) = story.split_once("\nports ").unwrap_or((story, ""));
    let wrong = first_untrue(rt, ready)?;
    let (folder, lines) = rest.split_once('\n').unwrap_or((rest, ""));
    if wrong.is_some() || folder.is_empty() {
        return Ok(wrong);
    }
    let mut ports = ports_of(rt, folder)?;
    first_undone(rt, &mut ports, &mut Programs::new(rt.alloc()), lines)
}

// The first line of all stories, parted by empty lines, that isn't so.
fn first_wrong_of<'a>(rt: &HostRuntime, stories: &'a str) -> Result<Option<&'a str>, Fail> {
    for story in stories.split("\n\n") {
        let wrong = first_wrong(rt, story)?;
        if wrong.is_some() {
            return Ok(wrong);
        }
    }
    Ok(None)
}

/// A folder without a name.
///
/// A plain file, a folder, and a link to a socket without a listener: none is removed.
///
/// Files of a server that is gone, before they are bound again; while they are in use none is removed.
///
/// Sockets whose files were removed are bound anew once a minute, if the folder still belongs to the session. The program of pane 1 stays
/// connected, and others can connect again.
///
/// The program of pane 2. The pane isn't open, and the program gets nothing; the pane stays in its generation; another generation opens,
/// and no output of the first program is read.
///
/// A program that reads nothing: its socket is full, and once more is written. It stays, and what it writes then goes on.
///
/// One peer at a time: the end of the first program is read before the output of the second. Those that left before they were accepted are
/// dropped at once.
///
/// Normalized bytes: whole, cut, and more of them than fit into the buffer; bytes kept back of one generation never appear in another.
///
/// A subscriber: one pane, two, one of them sized and the other moved, closed and opened again in one turn, closed; and the number of
/// client instances.
///
/// A pane's metadata for a subscriber that asked: as it is, then the news, at most every 20 ms, and bells at most once a second; of another
/// generation only the news.
///
/// Clips for a subscriber that asked: the newest, at most once a second; none that was sent before, and none for a question; of another
/// generation its own.
///
/// Clips beside the rest, in either order. A subscriber that didn't ask for them gets the same as before, and so does the pty host.
///
/// Questions of a pane's program for a subscriber that asked, at once: none that was asked before, each once and in order; of another
/// generation its own.
///
/// Synchronized updates with normalized bytes. One is kept back until it ends, or for 150 ms; bytes before it aren't, nor bytes behind one
/// that was kept back for so long; one that begins within another is no new one. If there is no room for one, its beginning goes on alone,
/// and the moment is kept until its end does, for at most 50 ms. Nothing is left of it for another generation of the pane.
///
/// Subscribers close panes. Two get the news each. A line may ask for no close, or for one of a pane that is gone, or of the last pane. Of
/// two closes the second waits until a turn took the first, and a pane that is still open then may be closed again. The acts of an instance
/// follow the unacknowledged ones, and a dropped instance takes them with it.
///
/// A program declares that it is the pty host, and then another one does: the first is disconnected, and the second gets the news.
///
/// There are sixty-three subscribers, and one more place is the pty host's. Another program gets the panes and is disconnected, unless it
/// is the pty host; one that connects while 65 are there gets nothing.
///
/// Ninety-six client instances are there, and another one is disconnected.
///
/// A wait ends if a pane's program connects, accepts bytes, or writes, and if a subscriber connects; it lasts if nothing happens.
const STORIES: &str = "\
refused -

folder others
file others/p5
refused others
there others/p5
gone others/p1
remove others/p5
file others/clients
refused others
there others/clients
gone others/p1
gone others/panes
remove others/clients
folder others/p6
refused others
folder linked
bound linked
remove linked/p1
link linked/p1
refused linked
there linked/p1

folder unbound
bound unbound
there unbound/p9
ports unbound
files refused unbound
first connects unbound/p9
first waits
files are removed
files gone unbound/p1

folder mends
session mends/session
ports mends
pane 1 lives 1
first connects mends/p1
first writes a
pane 1 gives a
files remove mends/p1
files remove mends/p9
files remove mends/panes
files remove mends/clients
mends mends at 59999
files gone mends/p1
files gone mends/p9
files gone mends/panes
files gone mends/clients
mends mends at 60000
files there mends/p1
files there mends/clients
moment 0 is 0
first writes b
pane 1 gives b
first leaves
pane 1 gives nothing
wait passes
wait passes
wait lasts
first connects mends/p1
wait ends
first writes c
pane 1 gives c
pane 9 lives 1
second connects mends/p9
second writes d
pane 9 gives d
second leaves
pane 9 gives nothing
wait passes
wait passes
wait lasts
second connects mends/panes
wait ends
told 1 1 23, none
second reads 1 1 1 23 80 1/focus 1/
second leaves
told 1 1 23, none
wait passes
wait passes
wait lasts
second connects mends/clients
wait ends
told 1 1 23, none
second waits
files remove mends/p1
mends mends at 119999
files gone mends/p1
files remove mends/session
mends mends at 120000
files gone mends/p1
files file mends/session
mends mends at 180000
files gone mends/p1
files remove mends/session
files session mends/session
mends mends at 239999
files gone mends/p1
mends mends at 240000
files there mends/p1
files are removed

folder unread
ports unread
first connects unread/p1
pane 1 lives 1
pane 1 fills
first writes on
pane 1 gives on

folder lives
ports lives
first connects lives/p2
first writes early
pane 2 gives nothing
pane 2 takes nothing of lost
pane 2 lives 7
pane 2 gives early
first writes late
pane 2 lives 7
first waits
pane 2 lives 8
pane 2 gives nothing
first is let go
second connects lives/p2
second writes anew
pane 2 gives anew
pane 2 goes
second is let go
files are removed

folder one
ports one
pane 1 lives 1
first connects one/p1
second connects one/p1
second writes second
pane 1 gives nothing
first writes first
pane 1 gives first
pane 1 takes key
first reads key
second waits
first leaves
pane 1 gives nothing
pane 1 gives second
second leaves
pane 1 gives nothing
first connects one/p1
first leaves
first connects one/p1
first leaves
second connects one/p1
second writes third
pane 1 gives third
files are removed

folder meant
ports meant normalized
first connects meant/p1
pane 1 lives 1
pane 1 gives nothing
first writes a\u{1b}[4:3mb
pane 1 gives a\u{1b}[4mb
first writes \u{1b}[4
pane 1 gives nothing
first writes :0mc
pane 1 gives \u{1b}[24mc
first writes abc\u{1b}[?3hd
pane 1 gives abc\u{1b}[?3h\u{1b}[r\u{1b}[2J\u{1b}
first writes e
pane 1 gives [Hd
pane 1 gives e
pane 1 gives nothing
first writes f\u{1b}[58
pane 1 gives f
pane 1 lives 2
second connects meant/p1
second writes ;5;1mg
pane 1 gives ;5;1mg
pane 1 takes key
second reads key
files are removed

folder follows
ports follows
first connects follows/panes
told 1 1 23, none
first reads 1 1 1 23 80 1/focus 1/
told 1 1 23, none
first waits
told 1 1 11, 1 13 11
first reads 1 1 1 11 80 1/2 13 1 11 80 1/focus 2/
told 1 1 12, 1 14 10
first reads 1 1 1 12 80 1/2 14 1 10 80 1/
told 1 1 12, 2 14 10
first reads 2 gone/2 14 1 10 80 2/
told 1 1 12, 2 14 10, 3 0
first reads clients 3 of 64/watchers 0 of 16/
told 1 1 23, none, 3 1
first reads 1 1 1 23 80 1/2 gone/focus 1/watchers 1 of 16/
files are removed
files gone follows/panes

folder keepers
ports keepers
first connects keepers/panes
first types host/
told 1 1 23, none
first reads 1 1 1 23 80 1/focus 1/
second connects keepers/panes
told 1 1 23, none
second reads 1 1 1 23 80 1/focus 1/
second types host/
told 1 1 23, none
first is let go
told 1 1 22, none
second reads 1 1 1 22 80 1/
first connects keepers/panes
told 1 1 22, none
first reads 1 1 1 22 80 1/focus 1/
files are removed

folder places
ports places
others 63 places/panes
told 1 1 23, none
first connects places/panes
told 1 1 23, none
first reads 1 1 1 23 80 1/focus 1/
first is let go
first connects places/panes
first types host/
told 1 1 23, none
first reads 1 1 1 23 80 1/focus 1/
first waits
second connects places/panes
told 1 1 23, none
second reads 1 1 1 23 80 1/focus 1/
second is let go
others leave
first leaves
told 1 1 23, none
others 65 places/panes
first connects places/panes
told 1 1 23, none
first is let go
files are removed

folder starts
ports starts
others 95 starts/clients
first connects starts/clients
told 1 1 23, none
second connects starts/clients
told 1 1 23, none
first waits
second is let go
first leaves
start is quiet
told 1 1 23, none
second connects starts/clients
told 1 1 23, none
second waits
files are removed

folder waits
ports waits
wait lasts
pane 1 lives 1
first connects waits/p1
wait ends
pane 1 gives nothing
wait passes
wait ends
wait lasts
first writes a
wait ends
pane 1 gives a
wait passes
second connects waits/panes
wait ends
told 1 1 23, none
second reads 1 1 1 23 80 1/focus 1/
wait ends
wait lasts
second types metadata/
wait ends
files are removed

folder besides
ports besides
first connects besides/p1
pane 1 lives 1
first writes \u{1b}[?2004h\u{1b}]0;\u{e9}\u{7}
pane 1 gives \u{1b}[?2004h\u{1b}]0;\u{e9}\u{7}
first writes \u{7}
pane 1 gives \u{7}
second connects besides/panes
second types metadata/
told 1 1 23, none
second reads 1 1 1 23 80 1/focus 1/
beside 0
second reads modes 1 1 paste/title 1 1 c3a9/
first writes \u{7}
pane 1 gives \u{7}
beside 10
second waits
beside 20
second waits
first writes \u{7}\u{1b}[5 q
pane 1 gives \u{7}\u{1b}[5 q
beside 40
second reads shape 1 1 5/
beside 999
second waits
beside 1019
second reads bell 1 1/
beside 1040
second waits
first writes \u{1b}c
pane 1 gives \u{1b}c
beside 1060
second reads modes 1 1/shape 1 1 0/title 1 1 /
pane 1 lives 2
beside 1080
second waits
first connects besides/p1
first writes \u{1b}]2;z\u{7}\u{7}
pane 1 gives \u{1b}]2;z\u{7}\u{7}
beside 2100
second reads title 1 2 7a/bell 1 2/
files are removed

folder clips
ports clips
first connects clips/p1
pane 1 lives 1
first writes \u{1b}]52;c;YQ==\u{7}
pane 1 gives \u{1b}]52;c;YQ==\u{7}
second connects clips/panes
second types clipboard/
told 1 1 23, none
second reads 1 1 1 23 80 1/focus 1/
clips 0
second waits
first writes \u{1b}]52;;Yg==\u{7}
pane 1 gives \u{1b}]52;;Yg==\u{7}
beside 5
second waits
clips 10
second reads clip 1 1 Yg==/
first writes \u{1b}]52;c;Yw==\u{7}
pane 1 gives \u{1b}]52;c;Yw==\u{7}
clips 500
second waits
first writes \u{1b}]52;c;ZA==\u{7}
pane 1 gives \u{1b}]52;c;ZA==\u{7}
clips 1009
second waits
clips 1010
second reads clip 1 1 ZA==/
first writes \u{1b}]52;c;?\u{7}
pane 1 gives \u{1b}]52;c;?\u{7}
clips 2010
second waits
pane 1 lives 2
first connects clips/p1
clips 3000
second waits
first writes \u{1b}]52;c;ZQ==\u{7}
pane 1 gives \u{1b}]52;c;ZQ==\u{7}
clips 3001
second reads clip 1 2 ZQ==/
files are removed

folder both
ports both
first connects both/p1
pane 1 lives 1
second connects both/panes
second types clipboard/metadata/
told 1 1 23, none
second reads 1 1 1 23 80 1/focus 1/
beside 0
clips 0
second waits
first writes \u{1b}]52;c;YQ==\u{7}\u{7}
pane 1 gives \u{1b}]52;c;YQ==\u{7}\u{7}
beside 20
clips 20
second reads bell 1 1/clip 1 1 YQ==/
second leaves
second connects both/panes
second types metadata/
told 1 1 23, none
second reads 1 1 1 23 80 1/focus 1/
beside 2000
clips 2000
first writes \u{1b}]52;c;Yg==\u{7}\u{7}
pane 1 gives \u{1b}]52;c;Yg==\u{7}\u{7}
beside 4000
clips 4000
second reads bell 1 1/
second types clipboard/host/
told 1 1 23, none
clips 6000
first writes \u{1b}]52;c;Yw==\u{7}
pane 1 gives \u{1b}]52;c;Yw==\u{7}
clips 8000
second waits
files are removed

folder asked
ports asked
first connects asked/p1
pane 1 lives 1
first writes \u{1b}[>q
pane 1 gives \u{1b}[>q
second connects asked/panes
second types queries/metadata/
told 1 1 23, none
second reads 1 1 1 23 80 1/focus 1/
asks 0
second waits
first writes \u{1b}]11;?\u{7}\u{1b}[c
pane 1 gives \u{1b}]11;?\u{7}\u{1b}[c
second reads query 1 1 background bell/
asks 1
second waits
first writes a\u{1b}[?2026h
pane 1 gives a\u{1b}[?2026h
first writes \u{1b}[?2026$p
pane 1 gives \u{1b}[?2026$p
second reads query 1 1 frames set/
first writes \u{1b}[>q\u{1b}]10;?\u{1b}\\\u{1b}[>q
pane 1 gives \u{1b}[>q\u{1b}]10;?\u{1b}\\\u{1b}[>q
second reads query 1 1 version/query 1 1 foreground/query 1 1 version/
first writes \u{1b}[?2004$p
pane 1 gives \u{1b}[?2004$p
second reads query 1 1 pastes/
first writes \u{1b}[18t\u{1b}[?1004h
pane 1 gives \u{1b}[18t\u{1b}[?1004h
second reads query 1 1 size/
first writes \u{1b}[?1004$p
pane 1 gives \u{1b}[?1004$p
second reads query 1 1 mode 1004 set/
first writes \u{1b}[4$p\u{1b}[?9999$p
pane 1 gives \u{1b}[4$p\u{1b}[?9999$p
second reads query 1 1 ansi-mode 4/query 1 1 mode 9999 unknown/
pane 1 lives 2
first connects asked/p1
asks 2
second waits
first writes \u{1b}[>q
pane 1 gives \u{1b}[>q
second reads query 1 2 version/
files are removed

folder frames
ports frames normalized
first connects frames/p1
pane 1 lives 1
asks 0
first writes a\u{1b}[?2026hb
pane 1 gives a
first writes c
pane 1 gives nothing
pane 1 gives nothing
first writes \u{1b}[?2026ld
pane 1 gives \u{1b}[?2026hbc\u{1b}[?202
pane 1 gives 6ld
pane 1 gives nothing
first writes e\u{1b}[?2026hf
pane 1 gives e
asks 149
first writes \u{1b}[?2026hg
pane 1 gives nothing
asks 150
pane 1 gives \u{1b}[?2026h
moment 151 is 150
pane 1 gives f\u{1b}[?2026hg
moment 152 is 152
first writes h
pane 1 gives h
first writes \u{1b}[?2026li
pane 1 gives \u{1b}[?2026li
first writes \u{1b}[?2026habcdefgh
pane 1 gives nothing
first writes ijklmnopqrstuvwx
pane 1 gives nothing
first writes \u{1b}[?2026ly
pane 1 gives \u{1b}[?2026h
moment 200 is 152
pane 1 gives abcdefghijklmnop
moment 202 is 202
moment 203 is 202
pane 1 gives qrstuvwx\u{1b}[?2026l
moment 204 is 204
pane 1 gives y
first writes \u{1b}[?2026hi
pane 1 gives nothing
pane 1 lives 2
asks 1000
pane 1 gives nothing
files are removed

folder followers
ports followers
told 1 1 23, none
first connects followers/panes
told 1 1 23, none
first reads 1 1 1 23 80 1/focus 1/
second connects followers/panes
first types close/close 1 1 2 /close 2 1/close 1 1/close 1 2/
told 1 1 23, none
first reads bad line/bad line/last pane/
second reads 1 1 1 23 80 1/focus 1/
start is quiet
first fills 1085
first types /
told 1 1 23, none
first reads bad line/
told 1 1 23, none
told 1 1 11, 1 13 11
second types close 2 1 1/close 1 1/close 2 1/
first types close 2 1/
start is quiet
told 1 1 11, 1 13 11
start asks focus 2, close
start is quiet
told 1 1 23, none
start is quiet
first reads 1 1 1 11 80 1/2 13 1 11 80 1/focus 2/1 1 1 23 80 1/2 gone/focus 1/
second reads 1 1 1 11 80 1/2 13 1 11 80 1/focus 2/last pane/1 1 1 23 80 1/2 gone/focus 1/
first leaves
told 1 1 11, 2 13 11
second types close 1 1/
told 1 1 11, 2 13 11
start asks focus 2, close, focus 1, close, focus 2
told 1 1 11, 2 13 11
second types close 1 1/
told 1 1 11, 2 13 11
start asks focus 1, close, focus 2";

#[test]
fn what_becomes_of_sockets(rt: HostRuntime) -> Result<(), Fail> {
    assert_eq!(rt; first_wrong_of(&rt, STORIES)?, None);
    Ok(())
}
