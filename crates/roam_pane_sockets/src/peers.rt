//! The peers of sockets, one at a time; those of the panes' sockets are each for the making of the pane that they came to.
ghost use Rattle.std.specs.Prelude.{◌≡◌, ◌≢◌, ◌⊎◌, ◌↔◌, ◌<◌, ◌≤◌, ◌∷◌, ℕ, List, [], length, take, IsTrue, IsSome, IfSome, IfOk, is_some, None, Ok};
ghost use Rattle.std.specs.Io.KnownBytes.{Consumes};
ghost use Rattle.roam_faults.specs.Streams.{IsStreamEnd};
ghost use Rattle.roam_stream_framing.specs.Streams.{Answer, Answered};
ghost use Rattle.roam_pane_sockets.specs.PaneInputs.{Brings, BringsPiece, HandsOn, IsBrought, IsFreshPaneInput};
ghost use Rattle.roam_pane_sockets.specs.Peers.{HasFailed, generation_in, peer_in};
ghost use Rattle.roam_pane_sockets.specs.FilterStages.{CountsSome, HasFree, IsFree, TakesMore, bytes_given};
ghost use Rattle.roam_pane_sockets.specs.declared.peers.Heard.TheVariants.{Piece, Nothing, Ended};

use crate::filter_stages::MOST_READ;
use crate::pane_inputs::PaneInput;
use mio::net::{UnixListener, UnixStream};
use mio::{Interest, Registry, Token};
use roam_faults::{is_for_now, is_stream_end};
use roam_stream_framing::Stream;
use std::io;
use std::io::Write;

/// So many peers that are gone already are let go at once.
const MOST_GONE: u32 = 64;

/// The program that came to a socket, or none.
#[derive(Drop)]
pub(crate) struct Peer {
    stream: Option<UnixStream>,
}

/// A making of a pane that is there, and the peer that came to it.
#[derive(Drop)]
pub(crate) struct Making {
    generation: u64,
    peer: Peer,
}

/// Returns true if this result of a write means that the peer has failed.
pub fn has_failed(answer: &io::Result<usize>) -> bool
    ensures failed { IsTrue result ↔ HasFailed answer.now }
{
    match answer {
        Ok(_) => false,
        Err(error) => !is_for_now(error),
    }
}

/// Accepts the next program at a socket. The program's wait reports it.
pub fn next_at(listener: &UnixListener, registry: &Registry) -> Option<UnixStream> {
    let (mut stream, _) = listener.accept().ok()?;
    // Where it isn't reported, a wait ends by its time alone.
    let _ = registry.register(
        &mut stream,
        Token(0),
        Interest::READABLE | Interest::WRITABLE,
    );
    Some(stream)
}

/// Sets the generation of a pane, or none. The same generation keeps its peer; any other loses the peer and its bytes.
pub(crate) fn live(making: &mut Option<Making>, pane_input: &mut PaneInput, generation: Option<u64>)
    ensures lives { generation_in making.new ≡ generation }
    ensures stays { generation_in making.old ≡ generation → (making.new ≡ making.old) × (pane_input.new ≡ pane_input.old) }
    ensures goes { generation_in making.old ≢ generation → peer_in making.new ≡ None }
    ensures fresh { generation_in making.old ≢ generation → IsFreshPaneInput pane_input.new (is_some pane_input.old.filter_stage) }
{
    if generation_of(making) != generation {
        *making = match generation {
            None => None,
            Some(generation) => Some(Making {
                generation,
                peer: Peer::none(),
            }),
        };
        pane_input.renew();
    }
}

/// Which making is there, if any.
pub(crate) fn generation_of(making: &Option<Making>) -> Option<u64>
    ensures life { result ≡ generation_in making.now }
{
    match making {
        None => None,
        Some(making) => Some(making.generation),
    }
}

/// Returns true if the generation has a peer.
pub(crate) fn has_peer(making: &Option<Making>) -> bool
    ensures peer { result ≡ is_some (peer_in making.now) }
{
    match making {
        None => false,
        Some(making) => making.peer.is_there(),
    }
}

/// The result of a read from a program's stream.
enum Heard {
    /// A piece, of which and of what waited so many bytes go on.
    Piece(usize),
    /// Nothing yet.
    Nothing,
    /// The end of the stream.
    Ended,
}

// Reads a piece of a program's stream, and puts the bytes that go on to the pane's terminal into `buf`.
fn read_piece<S: Stream>(
    stream: &mut S,
    pane_input: &mut PaneInput,
    buf: &mut [u8],
    now: u64,
) -> Heard
    requires free { TakesMore pane_input.old.filter_stage }
    ensures within { (n : ℕ) → result ≡ Piece n → n ≤ length buf.new }
    // The bytes of the stream go on, and the pane's metadata has read them.
    ensures brings { (n : ℕ) → result ≡ Piece n → (piece : List ℕ) × Consumes (S.remaining stream.old) (S.remaining stream.new) piece
        × IsBrought piece now pane_input.old pane_input.new n (take n buf.new) }
    ensures none { result ≡ Nothing → pane_input.new ≡ pane_input.old }
    ensures ended { result ≡ Ended → pane_input.new ≡ pane_input.old }
    // The stream is read once, and has ended exactly if its answer says so.
    ensures asked { (answer : Answer) × Answered (S.answers stream.old) (S.answers stream.new) (answer ∷ [])
        × (result ≡ Ended ↔ IsStreamEnd answer) }
{
    let most = buf.len().min(MOST_READ);
    let answer = stream.read_once(buf.split_at_mut(most).0);
    if is_stream_end(&answer) {
        return Heard::Ended;
    }
    match answer {
        Ok(count) => Heard::Piece(pane_input.came(buf, count, now)),
        Err(_) => Heard::Nothing,
    }
}

impl Peer {
    /// No program came yet.
    pub(crate) fn none() -> Peer
        ensures none { result.stream ≡ None }
    {
        Peer { stream: None }
    }

    /// Returns true if a program is connected.
    pub(crate) fn is_there(&self) -> bool
        ensures there { result ≡ is_some self.now.stream }
    {
        self.stream.is_some()
    }

    /// Lets the program go.
    pub(crate) fn let_go(&mut self)
        ensures none { self.new.stream ≡ None }
    {
        self.stream = None;
    }

    /// Accepts the next program, if none is connected.
    pub(crate) fn accept(&mut self, listener: &UnixListener, registry: &Registry)
        ensures one { IfSome self.old.stream (λ _. self.new ≡ self.old) }
    {
        if self.stream.is_none() {
            self.stream = next_at(listener, registry);
        }
    }

    /// Takes the programs that wait, if none is there, until one wrote something or is there and wrote nothing yet. Those that are gone
    /// are let go, 64 at most in one call. Returns how many bytes of `buf` go on to the pane's terminal.
    pub(crate) fn take_next(
        &mut self,
        pane_input: &mut PaneInput,
        listener: &UnixListener,
        registry: &Registry,
        buf: &mut [u8],
        now: u64,
    ) -> Option<usize>
        requires free { TakesMore pane_input.old.filter_stage }
        ensures within { IfSome result (λ n. n ≤ length buf.new) }
        ensures from { IfSome result (λ _. IsSome self.new.stream) }
        ensures brings { IfSome result (λ n. BringsPiece now pane_input.old pane_input.new n (take n buf.new)) }
        ensures none { result ≡ None → pane_input.new ≡ pane_input.old }
    {
        for _ in 0..MOST_GONE {
            self.accept(listener, registry);
            if !self.is_there() {
                return None;
            }
            match self.hear(pane_input, buf, now) {
                Heard::Piece(count) => return Some(count),
                Heard::Nothing => return None,
                Heard::Ended => (),
            }
        }
        self.accept(listener, registry);
        None
    }

    /// Returns the result of a read from the program: how many bytes of `buf` go on to the pane's terminal, nothing yet, or the end of its
    /// stream. Drops a closed stream, and no other.
    fn hear(&mut self, pane_input: &mut PaneInput, buf: &mut [u8], now: u64) -> Heard
        requires free { TakesMore pane_input.old.filter_stage }
        ensures within { (n : ℕ) → result ≡ Piece n → n ≤ length buf.new }
        ensures from { (n : ℕ) → result ≡ Piece n → IsSome self.old.stream }
        ensures stays { (result ≡ Ended → ⊥) → self.new ≡ self.old }
        ensures ended { result ≡ Ended → self.new.stream ≡ None }
        ensures brings { (n : ℕ) → result ≡ Piece n → BringsPiece now pane_input.old pane_input.new n (take n buf.new) }
        ensures none { result ≡ Nothing → pane_input.new ≡ pane_input.old }
        ensures last { result ≡ Ended → pane_input.new ≡ pane_input.old }
    {
        // The stream is read through a reference, which leaves it as it is.
        let Some(mut stream) = self.stream.as_ref() else {
            return Heard::Nothing;
        };
        match read_piece(&mut stream, pane_input, buf, now) {
            Heard::Ended => {
                self.stream = None;
                Heard::Ended
            }
            heard => heard,
        }
    }

    /// Returns the stream's own result of a write of these bytes, 0 bytes if there is none. Drops a failed stream, and no other.
    pub(crate) fn tell(&mut self, bytes: &[u8]) -> io::Result<usize>
        ensures within { IfOk result (λ n. n ≤ length bytes.now) }
        ensures from { IfOk result (λ n. 0 < n → IsSome self.old.stream) }
        ensures stays { (HasFailed result → ⊥) → self.new ≡ self.old }
        ensures failed { HasFailed result → self.new.stream ≡ None }
        ensures none { self.old.stream ≡ None → result ≡ Ok 0 }
    {
        let Some(stream) = self.stream.as_mut() else {
            return Ok(0);
        };
        let answer = stream.write(bytes);
        if has_failed(&answer) {
            self.stream = None;
        }
        answer
    }
}

// Reads from the program of a generation, and returns how many bytes of `buf` go on to the pane's terminal.
fn hear(
    making: &mut Making,
    pane_input: &mut PaneInput,
    listener: &UnixListener,
    registry: &Registry,
    buf: &mut [u8],
    now: u64,
) -> Option<usize>
    requires free { TakesMore pane_input.old.filter_stage }
    ensures within { IfSome result (λ n. n ≤ length buf.new) }
    ensures from { IfSome result (λ _. IsSome making.new.peer.stream) }
    ensures life { making.new.generation ≡ making.old.generation }
    ensures one { IfSome making.old.peer.stream (λ _. (making.new ≡ making.old) ⊎ (making.new.peer.stream ≡ None)) }
    ensures brings { IfSome result (λ n. BringsPiece now pane_input.old pane_input.new n (take n buf.new)) }
    ensures none { result ≡ None → pane_input.new ≡ pane_input.old }
{
    if making.peer.is_there() {
        return match making.peer.hear(pane_input, buf, now) {
            Heard::Piece(count) => Some(count),
            Heard::Nothing | Heard::Ended => None,
        };
    }
    making
        .peer
        .take_next(pane_input, listener, registry, buf, now)
}

/// Returns how many bytes of `buf`, from the front, go on to a pane's terminal: 0 if all arrived and queued bytes are kept back. A closed
/// pane accepts no peer, and gets nothing.
pub(crate) fn read(
    making: &mut Option<Making>,
    pane_input: &mut PaneInput,
    listener: &UnixListener,
    registry: &Registry,
    buf: &mut [u8],
    now: u64,
) -> Option<usize>
    ensures within { IfSome result (λ n. n ≤ length buf.new) }
    ensures from { IfSome result (λ _. IsSome (peer_in making.new) ⊎ (IsFree pane_input.old.filter_stage → ⊥)) }
    ensures life { generation_in making.new ≡ generation_in making.old }
    ensures waits { generation_in making.old ≡ None → (making.new ≡ making.old) × (pane_input.new ≡ pane_input.old) }
    ensures one { IfSome (peer_in making.old) (λ _. (making.new ≡ making.old) ⊎ (peer_in making.new ≡ None)) }
    ensures brings { Brings pane_input.old pane_input.new (bytes_given result buf.new) }
    ensures none { result ≡ None → pane_input.new ≡ pane_input.old }
    ensures free { IsSome (generation_in making.old) → HasFree now pane_input.old.filter_stage → 0 < length buf.old → CountsSome result }
    ensures hands { IfSome result (λ n. HandsOn now pane_input.old pane_input.new n) }
{
    let making = making.as_mut()?;
    if let Some(count) = pane_input.go_on(buf, now) {
        return Some(count);
    }
    hear(making, pane_input, listener, registry, buf, now)
}

/// Returns how many of the bytes the program of a pane took, 0 if there is none.
pub(crate) fn write(
    making: &mut Option<Making>,
    listener: &UnixListener,
    registry: &Registry,
    bytes: &[u8],
) -> usize
    ensures within { result ≤ length bytes.now }
    ensures from { 0 < result → IsSome (peer_in making.new) }
    ensures life { generation_in making.new ≡ generation_in making.old }
    ensures one { IfSome (peer_in making.old) (λ _. (making.new ≡ making.old) ⊎ (peer_in making.new ≡ None)) }
{
    let Some(making) = making.as_mut() else {
        return 0;
    };
    making.peer.accept(listener, registry);
    // A stream that takes nothing now, or has failed, took none of them.
    making.peer.tell(bytes).unwrap_or(0)
}
