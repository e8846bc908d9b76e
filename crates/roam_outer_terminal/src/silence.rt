//! A client instance's knowledge of its server without a question: for how long it has heard nothing, and which notice the outer terminal
//! shows.
ghost use Rattle.std.specs.Prelude.{◌≡◌, ◌↔◌, ◌≤◌, ◌-◌, Some, None, is_some, nat_le, IsTrue, IfOk, IsOkUnless};
ghost use Rattle.roam_outer_terminal.specs.Silence.{seconds_of, due_of, is_over, end_of, notice_of, wait_of};

use roam_cells::Fault;
use std::alloc::Global;
use std::fmt;
use std::fmt::{Display, Formatter};

/// The seconds from which a silence gets a notice.
const LONG: u64 = 10;

/// The text before the words: it saves the cursor, turns wrapping off, and begins the last row in reverse.
const BEFORE: &[u8] = b"\x1b7\x1b[?7l\x1b[999;1H\x1b[0;7m";

/// The text behind the words: it erases the rest of the row, turns wrapping on, and restores the cursor.
const AFTER: &[u8] = b"\x1b[0m\x1b[K\x1b[?7h\x1b8";

/// What a client instance heard of its server at the end, once it has taken all its turns or its acts ended.
#[derive(Clone, Copy, Debug, PartialEq, Eq)]
pub enum End {
    /// It heard something within the last ten seconds.
    Heard,

    /// It heard nothing for so many seconds, ten and more.
    Silent(u64),

    /// It never heard anything.
    Unheard,

    /// The server has ended.
    Gone,
}

impl Display for End {
    fn fmt<W: fmt::Write>(&self, f: &mut Formatter<W>) -> fmt::Result {
        match self {
            End::Heard => write!(f, "the turns are over"),
            End::Silent(seconds) => write!(f, "the turns are over, no answer for {seconds} s"),
            End::Unheard => write!(f, "the turns are over, no server answered"),
            End::Gone => write!(f, "the server has ended"),
        }
    }
}

/// The moment, when something was heard last, and the seconds of silence that the outer terminal shows.
#[derive(Clone, Copy, Debug)]
pub struct Silence {
    moment: u64,
    heard: Option<u64>,
    told: Option<u64>,
}

impl Silence {
    /// Returns the silence at moment 0: the server was not heard, and no notice is shown.
    pub fn new() -> Silence
        ensures new { result ≡ record { moment = 0; heard = None; told = None } }
    {
        Silence {
            moment: 0,
            heard: None,
            told: None,
        }
    }

    /// It is this moment from now on.
    pub fn at(&mut self, moment: u64)
        ensures moment { self.new ≡ record self.old { moment = moment } }
    {
        self.moment = moment;
    }

    /// Something is heard at this moment.
    pub fn hear(&mut self)
        ensures heard { self.new ≡ record self.old { heard = Some self.old.moment } }
    {
        self.heard = Some(self.moment);
    }

    /// Notes that the outer terminal shows so many seconds from now on, or no notice.
    pub fn tell(&mut self, told: Option<u64>)
        ensures told { self.new ≡ record self.old { told = told } }
    {
        self.told = told;
    }

    /// Returns what was heard if the instance ends now.
    pub fn end(&self) -> End
        ensures end { result ≡ end_of self.now }
    {
        let seconds = self.seconds();
        match self.heard {
            None => End::Unheard,
            Some(_) if seconds < LONG => End::Heard,
            Some(_) => End::Silent(seconds),
        }
    }

    /// Returns true if the outer terminal shows a notice.
    pub fn is_told(&self) -> bool
        ensures told { result ≡ is_some self.now.told }
    {
        self.told.is_some()
    }

    /// For how many seconds nothing was heard.
    pub fn seconds(&self) -> u64
        ensures seconds { result ≡ seconds_of self.now }
    {
        let heard = match self.heard {
            None => 0,
            Some(moment) => moment,
        };
        self.moment.saturating_sub(heard) / 1000
    }

    /// Returns true if nothing was heard for ten seconds or more.
    pub fn is_long(&self) -> bool
        ensures long { result ≡ nat_le 10 (seconds_of self.now) }
    {
        self.seconds() >= LONG
    }

    /// Returns the seconds to show: a silence of ten seconds or more, each second once.
    pub fn due(&self) -> Option<u64>
        ensures due { result ≡ due_of self.now }
    {
        let seconds = self.seconds();
        if seconds >= LONG && self.told != Some(seconds) {
            Some(seconds)
        } else {
            None
        }
    }

    /// Returns the milliseconds until the next notice if the server stays silent.
    pub fn wait(&self) -> u64
        ensures wait { result ≡ wait_of self.now }
    {
        let heard = match self.heard {
            None => 0,
            Some(moment) => moment,
        };
        let passed = self.moment.saturating_sub(heard);
        if passed < 1000 * LONG {
            1000 * LONG - passed
        } else {
            1000 - passed % 1000
        }
    }

    /// The moment.
    pub fn moment(&self) -> u64
        ensures moment { result ≡ self.now.moment }
    {
        self.moment
    }

    /// Returns true if so many milliseconds have passed since a moment.
    pub fn has_passed(&self, since: u64, long: u64) -> bool
        ensures passed { IsTrue result ↔ long ≤ self.now.moment - since }
    {
        self.moment.saturating_sub(since) >= long
    }

    /// Returns true if a silence with a notice is over.
    pub fn is_over(&self) -> bool
        ensures over { result ≡ is_over self.now }
    {
        self.told.is_some() && self.seconds() < LONG
    }
}

/// Returns the text of a notice of so many seconds over the last row of a terminal. It scrolls nothing, and leaves the cursor in its place.
/// `OutOfMemory`.
pub fn notice(alloc: Global, seconds: u64) -> Result<Vec<u8>, Fault>
    ensures text { IfOk result (λ text. text.items ≡ notice_of seconds) }
    ensures fault { IsOkUnless result Fault.OutOfMemory }
{
    let words = format!(in alloc; "roam: no answer for {seconds} s")?;
    let mut text = Vec::new(alloc);
    text.extend_from_slice(BEFORE)?;
    text.extend_from_slice(words.as_bytes())?;
    text.extend_from_slice(AFTER)?;
    Ok(text)
}
