//! Calls that take no memory. Each test makes its values, and a second test of the same name with `called` at its end makes and calls them.
//! `tools/count_memory` runs both and checks that they ask for memory equally often; the gate checks that each call succeeds.

use roam_acts::{Act, ActSender, ActTaker, Key, read_act};
use roam_cells::Fault;
use roam_hub::Server;
use roam_screens::RowShot;
use roam_session::Session;
use roam_sync::Sender;
use roam_term::Term;
use roam_wire::{Datagram, Gathered, Gatherer, Kind, Version};
use std::alloc::Global;
use std::test::*;

/// Pieces of each group of control functions: characters of all widths, moves, edits, erasures, scrolls, tabs, margins, modes, renditions,
/// sets, reports, both screens, strings.
static WHOLE: &str =
    "plain e\u{301} \u{4E2D}\u{4E2D}\u{1F600}\r\n\x1B[4;80H wraps at the edge\x1B[3b\x1BD\x1BM\x1BE\
\x1B[H\x1B[2B\x1B[3C\x1B[A\x1B[D\x1B[5;7f\x1B[2d\x1B[9G\x1B[I\x1B[Z\x1BH\x1B[g\x1B[3g\t\
\x1B[2@\x1B[P\x1B[2X\x1B[L\x1B[2M\x1B[4h insert\x1B[4l\x1B[2S\x1B[T\x1B[2;6r\x1B[?6h\x1B[r\x1B[?6l\
\x1B[1\"qguarded\x1B[0\"q\x1B[?J\x1B[?2K\x1B[J\x1B[1K\x1B[2J\x1B#8\
\x1B[1;31;48;5;200;38;2;1;2;3mstyle\x1B[m\x1B(0qx\x1B(B\x0Ea\x0F\x1B*A\x1BNb\x1Bn\x1Bo\
\x1B[c\x1B[6n\x1B[?15n\x1B[>c\x1B[5n\x1B7\x1B8\x1B[?1049hother\x1B[?1049l\x1B[?5h\x1B[?5l\x1B[!p\
\x1B]0;title\x07\x1BPbody\x1B\\\x1B[999999999999999;m\x1B[?1;2;3;4;5;6;7;8;9;10;11;12;13;14;15;16;17;18l\x18";

/// Characters that are cut short, and bytes that are none.
static BROKEN: &[u8] = b"\xE4\xB8\xF0\x9F\x80\xFF\xC0";

/// Broken control functions.
static ENDS: &str = "\x1B[12\x1B[1:2C\x1B[ p\x1Bc\x1B[?7l end of the last column, and beyond";

// Feeds all pieces, and takes their answers.
fn feed_all(term: &mut Term) -> Result<(), Fault> {
    let mut out = [0; 512];
    for piece in [WHOLE.as_bytes(), BROKEN, ENDS.as_bytes()] {
        term.feed(piece)?;
        let count = term.copy_output(&mut out);
        term.take_output(count);
    }
    Ok(())
}

// Types keys, and clears the marks.
fn type_keys(term: &mut Term) -> Result<bool, Fault> {
    term.key(&Key::Up)?;
    term.key(&Key::Char('\u{4E2D}'))?;
    term.clear_marks();
    Ok(term.output_len() == 6 && term.marks().get(0).copied() == Some(false))
}

fn call_term(term: &mut Term) -> Result<bool, Fault> {
    feed_all(term)?;
    type_keys(term)
}

// Memory for another size is taken in any case.
fn fit_and_call(alloc: Global, term: &mut Term, called: bool) -> Result<bool, Fault> {
    let fitted = term.fit(alloc, 5, 40)?;
    if !called {
        return Ok(true);
    }
    term.adopt(fitted);
    call_term(term)
}

// A terminal of 3 rows with a history that is full, and memory for another size; brought to it, and fed again.
fn is_term(alloc: Global, called: bool) -> bool {
    match Term::new(alloc, 3, 80, 2) {
        Ok(mut term) => call_term(&mut term) == Ok(true)
            && fit_and_call(alloc, &mut term, called) == Ok(true),
        Err(_) => false,
    }
}

// Calls the bytes of a pane, keys, queued bytes, marks and generations.
fn call_panes(session: &mut Session) -> Result<bool, Fault> {
    let mut out = [0; 64];
    for piece in [WHOLE.as_bytes(), BROKEN, ENDS.as_bytes()] {
        session.pane_bytes(1, piece)?;
    }
    let count = session.output(1, &mut out)?;
    session.drain(1, session.output_len(1).unwrap_or(0))?;
    Ok(
        count > 0
            && session.marks().get(0).copied() == Some(true)
            && session.generation(1) == Some(1)
            && session.room(1) == Some(65_536),
    )
}

fn type_key(alloc: Global, session: &mut Session) -> Result<bool, Fault> {
    session.act(alloc, 7, &Act::Key(Key::Return))?;
    let typed = session.output_len(1).unwrap_or(0);
    session.drain(1, typed)?;
    Ok(typed == 1)
}

fn call_session(alloc: Global, session: &mut Session, called: bool) -> Result<bool, Fault> {
    let face = session.face(alloc)?;
    if !called {
        return Ok(true);
    }
    session.keep(face);
    Ok(type_key(alloc, session)? && call_panes(session)?)
}

fn is_session(alloc: Global, called: bool) -> bool {
    match Session::new(alloc, 24, 80) {
        Ok(mut session) => call_session(alloc, &mut session, called) == Ok(true),
        Err(_) => false,
    }
}

// The calls of a server that a pane's socket makes.
fn call_server(server: &mut Server) -> Result<bool, Fault> {
    let mut out = [0; 64];
    server.pane_bytes(1, b"\x1B[c")?;
    let count = server.output(1, &mut out)?;
    server.drain(1, count)?;
    Ok(count == 8 && server.room(1) == Some(65_536) && server.generation(2) == None)
}

fn is_server(alloc: Global, called: bool) -> bool {
    match Server::new(alloc, 1, 24, 80) {
        Ok(mut server) => !called || call_server(&mut server) == Ok(true),
        Err(_) => false,
    }
}

// Returns true if the acts of these lines are read, and in range.
fn are_read(lines: &[&str]) -> bool {
    for line in lines {
        if !matches!(read_act(line.as_bytes()), Ok(act) if act.in_range()) {
            return false;
        }
    }
    true
}

// Acts that are read, taken and acknowledged.
fn call_acts(sender: &mut ActSender) -> bool {
    let mut taker = ActTaker::new();
    let (first, waiting) = sender.waiting();
    let fresh = taker.fresh(first, waiting).len();
    taker.took();
    sender.acked(1);
    fresh == 2
        && are_read(&["grow -99", "char 1f600", "key padenter"])
        && sender.waiting().1.len() == 1
        && taker.taken() == 1
}

fn type_two(sender: &mut ActSender) -> Result<(), Fault> {
    sender.typed(Act::Next)?;
    sender.typed(Act::Close)
}

fn are_acts(alloc: Global, called: bool) -> bool {
    let mut sender = ActSender::new(alloc);
    type_two(&mut sender).is_ok() && (!called || call_acts(&mut sender))
}

// Calls a sender's moments and its acknowledgements.
fn call_sender(sender: &mut Sender<RowShot>) -> bool {
    let is_due = sender.due(0);
    sender.sent(0);
    let is_over = sender.due(249);
    sender.acked(1);
    is_due && !is_over && sender.newest_number() == 2
}

fn offer_blank(alloc: Global, sender: &mut Sender<RowShot>, number: u64) -> Result<(), Fault> {
    let shot = RowShot::blank(alloc, 2, 8)?;
    if sender.newest_number() < number {
        sender.offer(number, shot)
    } else {
        Err(Fault::Spent)
    }
}

fn sender_of_one(alloc: Global) -> Result<Sender<RowShot>, Fault> {
    Sender::new(alloc, RowShot::blank(alloc, 2, 8)?)
}

fn offer_two(alloc: Global, sender: &mut Sender<RowShot>, called: bool) -> bool {
    offer_blank(alloc, sender, 1).is_ok()
        && offer_blank(alloc, sender, 2).is_ok()
        && (!called || call_sender(sender))
}

fn is_sender(alloc: Global, called: bool) -> bool {
    match sender_of_one(alloc) {
        Ok(mut sender) => offer_two(alloc, &mut sender, called),
        Err(_) => false,
    }
}

// The first of two fragments of an instruction.
fn first_fragment(alloc: Global) -> Result<Datagram, Fault> {
    Ok(Datagram {
        version: Version::Two,
        kind: Kind::ToClient,
        session: 1,
        client: 1,
        number: 1,
        id: 1,
        index: 0,
        count: 2,
        payload: vec![in alloc; 7u8; 1200]?,
    })
}

fn call_gatherer(alloc: Global, datagram: &Datagram, called: bool) -> bool {
    let mut gatherer = Gatherer::new(alloc);
    let is_part = matches!(gatherer.take(alloc, datagram), Ok(Gathered::Part));
    if called {
        gatherer.untake();
        gatherer.untake();
    }
    is_part
}

fn is_gatherer(alloc: Global, called: bool) -> bool {
    match first_fragment(alloc) {
        Ok(datagram) => call_gatherer(alloc, &datagram, called),
        Err(_) => false,
    }
}

// Returns true if all values are made and their calls give the expected results.
fn are_right(alloc: Global, called: bool) -> bool {
    is_term(alloc, called)
        && is_session(alloc, called)
        && is_server(alloc, called)
        && are_acts(alloc, called)
        && is_sender(alloc, called)
        && is_gatherer(alloc, called)
}

#[test]
fn values_that_take_memory_once(rt: HostRuntime) {
    assert!(rt; are_right(rt.alloc(), false));
}

#[test]
fn values_that_take_memory_once_called(rt: HostRuntime) {
    assert!(rt; are_right(rt.alloc(), true));
}
