//! One turn of the server.
ghost use Rattle.std.specs.Prelude.{◌↔◌, IsTrue};
ghost use Rattle.roam_turns.specs.Parts.{Makes, Each, ReceivesUpTo};
ghost use Rattle.roam_turns.specs.Turns.{TellsGeneration, TakesPiece, AsksPane, FillsPane, IsToServer, ServerTicks, ServeTurn};

use crate::cores::ServerCore;
use crate::ports::Ports;
use crate::sending::send_parcels;
use roam_acts::limits::PANES_END;
use roam_term::MOST_PIECE;
use std::alloc::Global;

/// How many datagrams a turn takes at most.
pub(crate) const MOST_RECEIVES: u32 = 32;

/// How many bytes of a datagram are taken at most.
pub(crate) const DATAGRAM: usize = 2048;

/// How many bytes may have to wait for a pane's program as answers to a full piece: 12 for each byte.
const PIECE_ROOM: usize = 12 * MOST_PIECE;

// Hands each datagram that comes to the server; one that is refused is dropped.
fn receive_all<C: ServerCore, P: Ports>(alloc: Global, server: &mut C, ports: &mut P, now: u64)
    ensures receives { Makes C.step (ReceivesUpTo (IsToServer now) 2048 32) (P.told ports.old) (P.told ports.new)
        (C.made server.old) (C.made server.new) server.old server.new }
{
    let mut buf = [0; DATAGRAM];
    for _ in 0..MOST_RECEIVES {
        match ports.receive(&mut buf) {
            None => return,
            Some((from, len)) => {
                let _dropped = server.datagram(alloc, from, &buf[..len], now);
            }
        }
    }
}

// Tells the ports which making of a pane is there.
fn tell_generation<C: ServerCore, P: Ports>(server: &mut C, ports: &mut P, pane: u8)
    ensures tells { Makes C.step (TellsGeneration pane) (P.told ports.old) (P.told ports.new)
        (C.made server.old) (C.made server.new) server.old server.new }
{
    let generation = server.generation(pane);
    ports.pane_generations(pane, generation);
}

fn tell_generations<C: ServerCore, P: Ports>(server: &mut C, ports: &mut P)
    ensures tells { Makes C.step (Each TellsGeneration 1 9) (P.told ports.old) (P.told ports.new)
        (C.made server.old) (C.made server.new) server.old server.new }
{
    for number in 1..PANES_END {
        tell_generation(server, ports, number);
    }
}

fn takes_piece(room: Option<usize>) -> bool
    ensures takes { IsTrue result ↔ TakesPiece room }
{
    match room {
        None => false,
        Some(room) => room >= PIECE_ROOM,
    }
}

// Asks a pane's program for bytes, if the pane is there and would take them.
fn ask_pane<C: ServerCore, P: Ports>(server: &mut C, ports: &mut P, pane: u8)
    ensures asks { Makes C.step (AsksPane pane) (P.told ports.old) (P.told ports.new)
        (C.made server.old) (C.made server.new) server.old server.new }
{
    if !takes_piece(server.room(pane)) {
        return;
    }
    let mut buf = [0; MOST_PIECE];
    match ports.pane_in(pane, &mut buf) {
        None => (),
        Some(0) => (),
        Some(len) => {
            let _refused = server.pane_bytes(pane, &buf[..len]);
        }
    }
}

fn ask_panes<C: ServerCore, P: Ports>(server: &mut C, ports: &mut P)
    ensures asks { Makes C.step (Each AsksPane 1 9) (P.told ports.old) (P.told ports.new)
        (C.made server.old) (C.made server.new) server.old server.new }
{
    for pane in 1..PANES_END {
        ask_pane(server, ports, pane);
    }
}

// Passes a pane's program its queued bytes; those that it took go.
fn fill_pane<C: ServerCore, P: Ports>(server: &mut C, ports: &mut P, pane: u8)
    ensures fills { Makes C.step (FillsPane pane) (P.told ports.old) (P.told ports.new)
        (C.made server.old) (C.made server.new) server.old server.new }
{
    let mut buf = [0; MOST_PIECE];
    match server.output(pane, &mut buf) {
        None => (),
        Some(0) => (),
        Some(len) => {
            let took = ports.pane_out(pane, &buf[..len]);
            if took > 0 {
                let _refused = server.drain(pane, took);
            }
        }
    }
}

fn fill_panes<C: ServerCore, P: Ports>(server: &mut C, ports: &mut P)
    ensures fills { Makes C.step (Each FillsPane 1 9) (P.told ports.old) (P.told ports.new)
        (C.made server.old) (C.made server.new) server.old server.new }
{
    for pane in 1..PANES_END {
        fill_pane(server, ports, pane);
    }
}

// Ticks and sends; a refused tick sends nothing.
fn tick_and_send<C: ServerCore, P: Ports>(alloc: Global, server: &mut C, ports: &mut P, now: u64)
    ensures ticks { Makes C.step (ServerTicks now) (P.told ports.old) (P.told ports.new)
        (C.made server.old) (C.made server.new) server.old server.new }
{
    match server.tick(alloc, now) {
        Ok(parcels) => send_parcels(ports, parcels),
        Err(_) => (),
    }
}

/// Takes one turn of a server with its ports:
///
/// 1. the moment, and at most 32 datagrams of up to 2,048 bytes, until one receive brings nothing;
/// 2. the generation of each pane, 1 to 9, before any of their programs is asked;
/// 3. up to 1,024 bytes of the program of each pane that would take a full piece;
/// 4. up to 1,024 bytes for the program of each pane, of which those that it took go;
/// 5. a tick, whose datagrams are sent.
///
/// Whatever the server refuses is dropped, and a datagram that isn't sent is lost. It never waits, so that a slow program or network delays
/// nobody.
pub fn serve_turn<C: ServerCore, P: Ports>(alloc: Global, server: &mut C, ports: &mut P)
    ensures turn { Makes C.step ServeTurn (P.told ports.old) (P.told ports.new)
        (C.made server.old) (C.made server.new) server.old server.new }
{
    let now = ports.now();
    receive_all(alloc, server, ports, now);
    tell_generations(server, ports);
    ask_panes(server, ports);
    fill_panes(server, ports);
    tick_and_send(alloc, server, ports, now);
}
