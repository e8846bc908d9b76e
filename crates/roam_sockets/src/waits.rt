//! The wait for input.
ghost use Rattle.std.specs.Prelude.{◌≡◌, ◌⊎◌, ◌&&◌, ◌||◌, true, false, Some, None, IfErr, IfOk, if◌then◌else◌};
ghost use Rattle.mio.specs.Events.{items};
ghost use Rattle.roam_sockets.specs.Waits.{tell_of_no_reader, wait_for, wait_until};

use mio::event::Source;
use mio::unix::SourceFd;
use mio::{Events, Interest, Poll, Registry, Token};
use roam_cells::Fault;
use roam_faults::RunFault;
use std::alloc::Global;
use std::net::Net;
use std::os::fd::RawFd;
use std::time::Duration;

/// The milliseconds that a program waits if due work was refused memory. There may be memory for it then.
pub const SHORT_WAIT: u64 = 10;

/// How many milliseconds it waits at most.
const LONGEST_WAIT: u64 = 3_600_000;

/// How many sources a wait reports at most; more are reported by the next.
const MOST_EVENTS: usize = 32;

/// The token of the watched descriptor; all other sources have another.
const WATCHED: Token = Token(1);

/// The wait for input: the sources that report to it, and whether any input arrived since the last wait. A source reports once, so a
/// program waits only if each source has no input at this moment.
#[derive(Drop)]
pub struct Waits {
    poll: Poll,
    events: Events<Global>,
    quiet: bool,
    unread: bool,
    // The longest time of the last call in milliseconds, if it waited.
    longest: Option<u64>,
}

/// The milliseconds that a program waits if datagrams are kept back by their pace.
const PACE_WAIT: u64 = 1;

/// Returns the milliseconds to wait: one if datagrams are kept back by their pace, else until the due moment.
pub fn wait_for(due: Option<u64>, now: u64, is_paced: bool) -> u64
    ensures wait { result ≡ wait_for due now is_paced }
{
    if is_paced {
        PACE_WAIT
    } else {
        wait_until(due, now)
    }
}

/// Returns the milliseconds from a moment to the due one, if any, after all work due before is done: ten if it is past, an hour at most.
pub fn wait_until(due: Option<u64>, now: u64) -> u64
    ensures wait { result ≡ wait_until due now }
{
    match due {
        None => LONGEST_WAIT,
        Some(due) if due <= now => SHORT_WAIT,
        Some(due) => LONGEST_WAIT.min(due - now),
    }
}

// Returns true if a wait reported that nobody reads the watched descriptor.
fn tell_of_no_reader(events: &Events<Global>) -> bool
    ensures told { result ≡ tell_of_no_reader (items events.now) }
{
    events.iter().any(|event| event.token() == WATCHED && event.is_write_closed())
}

impl Waits {
    /// Returns a wait without sources and input. `Bind` if the system has none to give, `OutOfMemory`.
    pub fn new(net: &impl Net, alloc: Global) -> Result<Waits, RunFault>
        ensures quiet { IfOk result (λ waits. waits.quiet ≡ true) }
        ensures unread { IfOk result (λ waits. waits.unread ≡ false) }
        ensures faults { IfErr result (λ fault. (fault ≡ RunFault.Bind) ⊎ (fault ≡ RunFault.Core Fault.OutOfMemory)) }
    {
        let Ok(events) = Events::with_capacity(alloc, MOST_EVENTS) else {
            return Err(RunFault::Core(Fault::OutOfMemory));
        };
        let Ok(poll) = Poll::new(net) else {
            return Err(RunFault::Bind);
        };
        Ok(Waits {
            poll,
            events,
            quiet: true,
            unread: false,
            longest: None,
        })
    }

    /// Returns the registry for sources.
    pub fn registry(&self) -> &Registry {
        self.poll.registry()
    }

    /// Ends a wait if a source has input, or, for one that is written to, if it accepts bytes again.
    pub fn report<S: Source>(&self, source: &mut S, is_written: bool)
        ensures kept { S.keeps source.old source.new ⊎ (source.new ≡ source.old) }
    {
        let interests = if is_written {
            Interest::READABLE | Interest::WRITABLE
        } else {
            Interest::READABLE
        };
        // Where it isn't reported, a wait ends by its time alone.
        let _ = self.poll.registry().register(source, Token(0), interests);
    }

    /// Watches a descriptor that is written to: a wait ends if nobody reads it any more.
    pub fn watch(&mut self, descriptor: RawFd)
        ensures same { self.new ≡ self.old }
    {
        // A descriptor that can't be watched, such as a file, always counts as read.
        let _ = self
            .poll
            .registry()
            .register(&mut SourceFd(&descriptor), WATCHED, Interest::PRIORITY);
    }

    /// Returns true if nobody reads the watched descriptor any more.
    pub fn is_unread(&self) -> bool
        ensures unread { result ≡ self.now.unread }
    {
        self.unread
    }

    /// Returns true if no input arrived since the last wait.
    pub fn is_quiet(&self) -> bool
        ensures quiet { result ≡ self.now.quiet }
    {
        self.quiet
    }

    /// Notes that something came, so that there is no wait.
    pub fn stir(&mut self)
        ensures stirs { self.new ≡ record self.old { quiet = false } }
    {
        self.quiet = false;
    }

    /// Waits for input, at most so many milliseconds, unless some arrived since the last call.
    pub fn rest(&mut self, longest: u64)
        ensures quiet { self.new.quiet ≡ true }
        ensures unread { self.new.unread ≡ (self.old.unread || (self.old.quiet && tell_of_no_reader (items self.new.events))) }
        ensures longest { self.new.longest ≡ (if self.old.quiet then Some longest else None) }
    {
        self.longest = if self.quiet { Some(longest) } else { None };
        if self.quiet {
            // A wait that fails is over at once.
            let _ = self
                .poll
                .poll(&mut self.events, Some(Duration::from_millis(longest)));
            self.unread = self.unread || tell_of_no_reader(&self.events);
        }
        self.quiet = true;
    }
}
