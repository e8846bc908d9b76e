//! `roam world`: plays a script, line by line, and writes the answer to each.
ghost use Rattle.std.specs.Prelude.{◌≡◌, [], ◌∷◌, ◌⊎◌, ◌+◌, ◌<◌, ◌≤◌, ◌^◌, ◌++◌, ℕ, List, length, Some, false, IfOk, IfErr, IfSome, IfNone, OnOk, IsOkUnless, string_bytes};
ghost use Rattle.std.specs.Io.KnownBytes.{Appends, Consumes, IsAtEnd};
ghost use Rattle.std.specs.Option.{option_map};
ghost use Rattle.roam_session.specs.Sessions.{SessionSize};
ghost use Rattle.roam_model.specs.Worlds.{Event as EventOf, Reply as ReplyOf};
ghost use Rattle.roam_world_script.specs.Values.{IsLine};
ghost use Rattle.roam_world_script.specs.Lines.{value_of};
ghost use Rattle.roam_simulation.specs.Events.{IsHandedIn, event_of};
ghost use Rattle.roam_simulation.specs.Worlds.{StandsFor};
ghost use Rattle.roam_world_run.specs.Replies.{reply_line};
ghost use Rattle.roam_world_run.specs.Scripts.{Stage, Before, Within, IsBadSession, Prints, Stopped, event_in, is_in_place};
ghost use Rattle.roam_faults.specs.Streams.{IsOneLine};
ghost use Rattle.roam_world_run.specs.Played.{Fails, Fed, HasAnswer, IsAt, HasPlayed};

use crate::asked::asked;
use crate::replies::push_reply;
use roam_cells::Fault;
use roam_faults::RunFault;
use roam_hub::Addr;
use roam_show::MOST_READS;
use roam_simulation::{Event, World};
use roam_wire::Version;
use roam_world_script::{Line, LineFault, is_skipped, read_line};
use std::alloc::Global;
use std::io::{Read, Write};

/// How many bytes of a script are read at once at most.
const PIECE: usize = 1024;

/// The host of every address in a script.
const HOST: [u8; 4] = [127, 0, 0, 1];

// Returns the event of a line; `None` if it begins a session or asks a question.
fn event_of(line: Line) -> Option<Event>
    requires line { IsLine (value_of line) }
    ensures event { option_map event_of result ≡ event_in (value_of line) }
    ensures handed_in { IfSome result IsHandedIn }
{
    match line {
        Line::Start(slot, id, version) => Some(Event::Start(slot, id, version, false)),
        Line::Watch(slot, id) => Some(Event::Start(slot, id, Version::Two, true)),
        Line::PaneBytes(pane, bytes) => Some(Event::PaneBytes(pane, bytes)),
        Line::Typed(slot, act) => Some(Event::Typed(slot, act)),
        Line::ServerTick(now) => Some(Event::ServerTick(now)),
        Line::ClientTick(slot, now) => Some(Event::ClientTick(slot, now)),
        Line::ToServer(number, port, now) => {
            Some(Event::ToServer(number, Addr { host: HOST, port }, now))
        }
        Line::ToClient(slot, number, now) => Some(Event::ToClient(slot, number, now)),
        Line::Drained(pane, count) => Some(Event::Drained(pane, count)),
        Line::Session(..) | Line::Show(_) | Line::Face | Line::Output(_) => None,
    }
}

/// A script that is being played: its world, once the session began, and how many lines came.
#[derive(Drop)]
struct Play {
    world: Option<World>,
    lines: u64,
}

// Lets an event happen, and gives the line of its reply.
fn happen(alloc: Global, world: &mut World, event: &Event) -> Result<String, Fault>
    requires handed_in { IsHandedIn event.now }
    ensures answered { IfOk result (λ text. (session : ℕ) (size : SessionSize) (es : List EventOf) (rs : List ReplyOf)
        → StandsFor world.old session size es rs → (r : ReplyOf) × (string_bytes text ≡ reply_line r)
        × StandsFor world.new session size (es ++ event_of event.now ∷ []) (rs ++ r ∷ [])) }
    ensures fault { IsOkUnless result Fault.OutOfMemory }
{
    let reply = world.step(alloc, event);
    let mut text = String::new(alloc);
    push_reply(&mut text, reply)?;
    Ok(text)
}

// Returns the answer to a line in a world, or `None` if it is out of place.
fn answer_in(alloc: Global, world: &mut World, line: Line) -> Result<Option<String>, Fault>
    requires line { IsLine (value_of line) }
    ensures answered { IfOk result (λ o. IfSome o (λ text. (session : ℕ) (size : SessionSize) (es : List EventOf) (rs : List ReplyOf)
        → StandsFor world.old session size es rs
        → HasAnswer (Within session size es rs) (value_of line) (string_bytes text) (Some world.new))) }
    ensures misplaced { IfOk result (λ o. IfNone o ((session : ℕ) (size : SessionSize) (es : List EventOf) (rs : List ReplyOf)
        → is_in_place (Within session size es rs) (value_of line) ≡ false)) }
    ensures fault { IsOkUnless result Fault.OutOfMemory }
{
    if let Some(text) = asked(alloc, world, &line)? {
        return Ok(Some(text));
    }
    match event_of(line) {
        Some(event) => Ok(Some(happen(alloc, world, &event)?)),
        None => Ok(None),
    }
}

// Returns the answer to the line that begins a session, or `None` if it is another.
fn begin(alloc: Global, world: &mut Option<World>, line: &Line) -> Result<Option<String>, Fault>
    ensures answered { IfOk result (λ o. IfSome o (λ text. HasAnswer Before (value_of line.now) (string_bytes text) world.new)) }
    ensures misplaced { IfOk result (λ o. IfNone o (is_in_place Before (value_of line.now) ≡ false)) }
    ensures refused { IfErr result (λ fault. (fault ≡ Fault.OutOfMemory)
        ⊎ ((fault ≡ Fault.BadSize) × IsBadSession Before (value_of line.now))) }
{
    let Line::Session(id, rows, cols) = line else {
        return Ok(None);
    };
    *world = Some(World::new(alloc, *id, *rows, *cols)?);
    Ok(Some(String::from_str(alloc, "ok\n")?))
}

// Returns the answer to a line, or `None` if it is out of place.
fn answer(alloc: Global, world: &mut Option<World>, line: Line) -> Result<Option<String>, Fault>
    requires line { IsLine (value_of line) }
    ensures answered { IfOk result (λ o. IfSome o (λ text. (stage : Stage) → IsAt world.old stage
        → HasAnswer stage (value_of line) (string_bytes text) world.new)) }
    ensures misplaced { IfOk result (λ o. IfNone o ((stage : Stage) → IsAt world.old stage → is_in_place stage (value_of line) ≡ false)) }
    ensures refused { IfErr result (λ fault. (fault ≡ Fault.OutOfMemory)
        ⊎ ((fault ≡ Fault.BadSize) × ((stage : Stage) → IsAt world.old stage → IsBadSession stage (value_of line)))) }
{
    match world {
        Some(world) => answer_in(alloc, world, line),
        None => begin(alloc, world, &line),
    }
}

// Writes an answer at once, so that it can be seen before the next line comes.
fn tell<W: Write>(writer: &mut W, answer: &str) -> Result<(), RunFault>
    ensures told { OnOk result (Appends (W.contents writer.old) (W.contents writer.new) answer.now) }
    ensures fault { IsOkUnless result RunFault.Write }
{
    if writer.write_all(answer.as_bytes()).is_err() || writer.flush().is_err() {
        return Err(RunFault::Write);
    }
    Ok(())
}

impl Play {
    // Plays one more line, without its end.
    fn line<W: Write>(&mut self, alloc: Global, line: &[u8], writer: &mut W) -> Result<(), RunFault>
        requires room { self.old.lines + 1 < 2 ^ 64 }
        ensures told { OnOk result ((stage : Stage) → IsAt self.old.world stage
            → HasPlayed stage line.now (W.contents writer.old) (W.contents writer.new) self.new.world) }
        ensures lines { self.new.lines ≡ self.old.lines + 1 }
        ensures fails { IfErr result (λ fault. (stage : Stage) → IsAt self.old.world stage
            → Fails stage (self.old.lines + 1) line.now (W.contents writer.old) (W.contents writer.new) fault) }
    {
        self.lines += 1;
        if is_skipped(line) {
            return Ok(());
        }
        let line = match read_line(alloc, line) {
            Ok(line) => line,
            Err(LineFault::BadEvent) => return Err(RunFault::Event(self.lines)),
            Err(LineFault::OutOfMemory) => return Err(RunFault::Core(Fault::OutOfMemory)),
        };
        match answer(alloc, &mut self.world, line)? {
            Some(text) => tell(writer, text.as_str()),
            None => Err(RunFault::Event(self.lines)),
        }
    }

    // Plays the lines that end in a piece; the bytes behind the last of them begin a line.
    fn piece<W: Write>(
        &mut self,
        alloc: Global,
        begun: &mut Vec<u8>,
        piece: &[u8],
        writer: &mut W,
    ) -> Result<(), RunFault>
        requires room { self.old.lines + length piece.now < 2 ^ 64 }
        ensures fed { OnOk result ((stage : Stage) → IsAt self.old.world stage → IsOneLine begun.old.items
            → Fed stage begun.old.items piece.now begun.new.items (W.contents writer.old) (W.contents writer.new) self.new.world
            self.old.lines self.new.lines) }
        ensures most { OnOk result (self.new.lines ≤ self.old.lines + length piece.now) }
        ensures stopped { IfErr result (λ fault. (stage : Stage) → IsAt self.old.world stage → IsOneLine begun.old.items
            → (fault ≡ RunFault.Write) ⊎ Stopped stage (begun.old.items ++ piece.now) (W.contents writer.old) (W.contents writer.new)
            self.old.lines fault) }
    {
        for byte in piece {
            if *byte == b'\n' {
                self.line(alloc, begun.as_slice(), writer)?;
                begun.clear();
            } else {
                push(begun, *byte)?;
            }
        }
        Ok(())
    }

    // Plays all lines that a reader gives, from the first on.
    fn all<R: Read, W: Write>(
        &mut self,
        alloc: Global,
        reader: &mut R,
        writer: &mut W,
    ) -> Result<(), RunFault>
        requires before { IsAt self.old.world Before }
        requires none { self.old.lines ≡ 0 }
        ensures played { OnOk result ((log : List ℕ) × Consumes (R.remaining reader.old) (R.remaining reader.new) log
            × IsAtEnd (R.remaining reader.new)
            × Prints (W.contents writer.old) (W.contents writer.new) log) }
        ensures stopped { IfErr result (λ fault. (fault ≡ RunFault.Write)
            ⊎ ((log : List ℕ) × Consumes (R.remaining reader.old) (R.remaining reader.new) log
            × Stopped Before log (W.contents writer.old) (W.contents writer.new) 0 fault)) }
    {
        let mut begun = Vec::new(alloc);
        let mut piece = [0u8; PIECE];
        for _ in 0..MOST_READS {
            let Ok(count) = reader.read(&mut piece) else {
                return Err(RunFault::Read);
            };
            if count == 0 {
                return self.line(alloc, begun.as_slice(), writer);
            }
            self.piece(alloc, &mut begun, &piece[..count], writer)?;
        }
        Err(RunFault::Read)
    }
}

// Adds a byte to a line that is begun.
fn push(begun: &mut Vec<u8>, byte: u8) -> Result<(), Fault>
    ensures pushed { OnOk result (begun.new.items ≡ begun.old.items ++ byte ∷ []) }
    ensures fault { IsOkUnless result Fault.OutOfMemory }
{
    begun.push(byte)?;
    Ok(())
}

/// Plays the script of the reader, and writes the answer to each line at once. A line that is no event, or one out of place, ends the run
/// with `Event` and its number. A session that is refused ends it with its fault, want of memory with `OutOfMemory`. `Read` if the reader
/// fails or hasn't ended after 16,777,216 reads; `Write` if the writer fails.
pub fn run_world<R: Read, W: Write>(
    alloc: Global,
    reader: &mut R,
    writer: &mut W,
) -> Result<(), RunFault>
    // The reader came to its end, and the output is the answers to the lines of all bytes read.
    ensures played { OnOk result ((log : List ℕ) × Consumes (R.remaining reader.old) (R.remaining reader.new) log
        × IsAtEnd (R.remaining reader.new)
        × Prints (W.contents writer.old) (W.contents writer.new) log) }
    // Else the output is the answers to the lines before the one that ended the run, and its reason.
    ensures stopped { IfErr result (λ fault. (fault ≡ RunFault.Write)
        ⊎ ((log : List ℕ) × Consumes (R.remaining reader.old) (R.remaining reader.new) log
        × Stopped Before log (W.contents writer.old) (W.contents writer.new) 0 fault)) }
{
    let mut play = Play {
        world: None,
        lines: 0,
    };
    play.all(alloc, reader, writer)
}
