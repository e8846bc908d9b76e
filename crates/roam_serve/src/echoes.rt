//! How far the moments of a server run ahead of its clock, so that the echo of a key doesn't wait for the next number.
ghost use Rattle.std.specs.Prelude.{◌≡◌, ◌≤◌, ◌+◌, ◌-◌, ◌&&◌, ◌||◌, ◌==◌, nat_lt, not, replicate, false, None, if◌then◌else◌};
ghost use Rattle.roam_hub.specs.Waits.{has_come};
ghost use Rattle.roam_serve.specs.Echoes.{before_by, is_echo, is_full, leading, most_ahead, most_pieces, typed_after, typed_in, wish_outside};

/// A moment is at most so many milliseconds ahead of the clock: as long as the least time from one number to the next.
const MOST_AHEAD: u64 = 20;

/// Bytes that a program writes within this many milliseconds of its pane's input count as an echo.
const ECHO_WINDOW: u64 = 20;

/// An echo has fewer full pieces than this. More output is a repaint, and an early screen would cut it.
const MOST_PIECES: u8 = 16;

/// One more than the greatest number of a pane.
const PANES: usize = 10;

/// Which panes were typed in, whether a program answered that, and the moment of the number that shows its answer.
#[derive(Drop)]
pub(crate) struct Echoes {
    // By the panes' numbers; none is 0. When each was typed in last, by the clock.
    typed: [Option<u64>; PANES],
    // How many acts were taken of all client instances, modulo 2^64.
    acts: u64,
    // The number of full pieces that may still follow the input, since the last act was taken.
    left: u8,
    // True if an echo arrived since the last turn ended.
    echoed: bool,
    // The moment of the number that shows the last echo, until it has come.
    wish: Option<u64>,
}

// When a pane was typed in last.
fn typed_in(typed: &[Option<u64>; PANES], pane: u8) -> Option<u64>
    ensures typed { result ≡ typed_in typed.now pane }
{
    match typed.get(usize::from(pane)) {
        None => None,
        Some(at) => *at,
    }
}

// Notes that the pane in focus was typed in, if more acts were taken.
fn note_typed(typed: &mut [Option<u64>; PANES], is_new: bool, focus: u8, clock: u64)
    ensures typed { typed.new ≡ typed_after is_new focus clock typed.old }
{
    if is_new && focus < 10 {
        typed[usize::from(focus)] = Some(clock);
    }
}

// Returns true if so many bytes, from a pane with input at that time, end an echo.
fn is_echo(typed: Option<u64>, count: Option<usize>, room: usize, clock: u64) -> bool
    ensures echo { result ≡ is_echo typed count room clock }
{
    match (typed, count) {
        (Some(at), Some(n)) => 0 < n && n < room && clock <= at.saturating_add(ECHO_WINDOW),
        _ => false,
    }
}

// Returns true if so many bytes, from a pane with input at that time, fill the room soon enough for an echo.
fn is_full(typed: Option<u64>, count: Option<usize>, room: usize, clock: u64) -> bool
    ensures full { result ≡ is_full typed count room clock }
{
    match (typed, count) {
        (Some(at), Some(n)) => room <= n && clock <= at.saturating_add(ECHO_WINDOW),
        _ => false,
    }
}

// The moment that follows one before at a clock, if it may run ahead to that of a number.
fn leading(wish: Option<u64>, before: u64, clock: u64) -> u64
    ensures leading { result ≡ leading wish before clock }
{
    let now = before.max(clock);
    match wish {
        Some(due) if due <= clock.saturating_add(MOST_AHEAD) => due.max(now),
        _ => now,
    }
}

// Returns the moment that the clock may run ahead to, given whether a synchronized update goes on.
fn wish_outside(goes_on: bool, wish: Option<u64>) -> Option<u64>
    ensures wish { result ≡ wish_outside goes_on wish }
{
    if goes_on { None } else { wish }
}

// Returns the wanted moment if it hasn't come.
fn left_of(wish: Option<u64>, moment: u64) -> Option<u64>
    ensures left { result ≡ (if has_come wish moment then None else wish) }
{
    match wish {
        Some(due) if due <= moment => None,
        _ => wish,
    }
}

impl Echoes {
    /// Nothing was typed.
    pub(crate) fn new() -> Echoes
        ensures none { result ≡ record { typed = replicate 10 None; acts = 0; left = 0; echoed = false; wish = None } }
    {
        Echoes {
            typed: [None; PANES],
            acts: 0,
            left: 0,
            echoed: false,
            wish: None,
        }
    }

    /// Notes at a clock how many acts were taken, and which pane is in focus.
    pub(crate) fn note_acts(&mut self, acts: u64, focus: u8, clock: u64)
        ensures typed { self.new ≡ record self.old {
          acts = acts;
          left = if acts == self.old.acts then self.old.left else most_pieces;
          typed = typed_after (not (acts == self.old.acts)) focus clock self.old.typed;
        } }
    {
        let is_new = acts != self.acts;
        self.acts = acts;
        self.left = if is_new { MOST_PIECES } else { self.left };
        note_typed(&mut self.typed, is_new, focus, clock);
    }

    /// Notes at a clock how many bytes of a pane's program came into a buffer of this room.
    pub(crate) fn hear(&mut self, pane: u8, count: Option<usize>, room: usize, clock: u64)
        ensures echoed { self.new ≡ record self.old {
          echoed = self.old.echoed || (is_echo (typed_in self.old.typed pane) count room clock && nat_lt 0 self.old.left);
          left = if is_full (typed_in self.old.typed pane) count room clock then self.old.left - 1 else self.old.left;
        } }
    {
        let typed = typed_in(&self.typed, pane);
        let ends = is_echo(typed, count, room, clock) && 0 < self.left;
        let is_full = is_full(typed, count, room, clock);
        self.echoed = self.echoed || ends;
        self.left = if is_full {
            self.left.saturating_sub(1)
        } else {
            self.left
        };
    }

    /// Aims at the moment of the next number, if an echo came.
    pub(crate) fn aim(&mut self, number: Option<u64>)
        ensures aims { self.new ≡ record self.old { wish = if self.old.echoed then number else self.old.wish; echoed = false } }
    {
        self.wish = if self.echoed { number } else { self.wish };
        self.echoed = false;
    }

    /// The moment that follows one before at a clock, while a synchronized update goes on or none does.
    pub(crate) fn leading(&self, goes_on: bool, before: u64, clock: u64) -> u64
        ensures leading { result ≡ leading (wish_outside goes_on self.now.wish) before clock }
        ensures rises { before ≤ result }
        ensures ahead { before ≤ clock + most_ahead → result ≤ clock + most_ahead }
    {
        leading(wish_outside(goes_on, self.wish), before, clock)
    }

    /// A moment has come.
    pub(crate) fn pass(&mut self, moment: u64)
        ensures spent { self.new ≡ record self.old { wish = if has_come self.old.wish moment then None else self.old.wish } }
    {
        self.wish = left_of(self.wish, moment);
    }

    /// The clock at which the moment may run ahead.
    pub(crate) fn due(&self) -> Option<u64>
        ensures due { result ≡ before_by most_ahead self.now.wish }
    {
        match self.wish {
            None => None,
            Some(due) => Some(due.saturating_sub(MOST_AHEAD)),
        }
    }
}
