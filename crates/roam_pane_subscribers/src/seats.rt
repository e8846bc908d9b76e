//! Which of the programs that follow the panes keeps their shells: it has a place of its own.
ghost use Rattle.std.specs.Prelude.{◌≡◌};
ghost use Rattle.roam_pane_subscribers.specs.Seats.{any_new, first_stay, has_host, is_host_line, is_new, is_seated, kept_place, places_for, role_after, seated, seated_one};

use crate::subscribing::{MOST_SUBSCRIBERS, Subscriber};
use roam_stream_framing::Stream;

/// The role of a subscriber at the server.
#[derive(Clone, Copy, Debug, PartialEq, Eq)]
pub(crate) enum Role {
    /// One of many.
    Other,

    /// It said since the last turn that it is the pty host.
    New,

    /// It is the pty host.
    Host,
}

// Returns true if a line declares the pty host.
pub(crate) fn is_host(line: &[u8]) -> bool
    ensures keeper { result ≡ is_host_line line.now }
{
    line == b"host".as_slice()
}

// Returns the role of a subscriber after a line.
pub(crate) fn role_after(line: &[u8], role: Role) -> Role
    ensures role { result ≡ role_after line.now role }
{
    if is_host(line) { Role::New } else { role }
}

// Returns true if a connected one of these declared that it is the pty host.
fn any_new<S: Stream + Drop>(all: &[Subscriber<S>]) -> bool
    ensures any { result ≡ any_new all.now }
{
    let Some((first, others)) = all.split_first() else {
        return false;
    };
    first.is_new() || any_new(others)
}

// Returns true if a connected one of these is the pty host.
fn has_host<S: Stream + Drop>(all: &[Subscriber<S>]) -> bool
    ensures has { result ≡ has_host all.now }
{
    let Some((first, others)) = all.split_first() else {
        return false;
    };
    first.is_seated() || has_host(others)
}

impl<S: Stream + Drop> Subscriber<S> {
    // Returns true if the subscriber is connected and declared that it is the pty host.
    fn is_new(&self) -> bool
        ensures new { result ≡ is_new self.now }
    {
        self.program.is_there() && self.role == Role::New
    }

    // Returns true if the subscriber is connected and is the pty host.
    fn is_seated(&self) -> bool
        ensures seated { result ≡ is_seated self.now }
    {
        self.program.is_there() && self.role == Role::Host
    }

    // Makes the last one that declared itself the pty host, and disconnects an earlier host or declaration.
    fn seat(&mut self, any: bool, later: bool)
        ensures seated { self.new ≡ seated_one any later self.old }
    {
        match self.role {
            Role::Other => {}
            Role::New if later => self.program.let_go(),
            Role::New => self.role = Role::Host,
            Role::Host if any => self.program.let_go(),
            Role::Host => {}
        }
    }
}

// The last one that said so is the pty host.
fn seat_each<S: Stream + Drop>(all: &mut [Subscriber<S>], any: bool)
    ensures seated { all.new ≡ seated any all.old }
{
    let Some((first, others)) = all.split_first_mut() else {
        return;
    };
    let later = any_new(others);
    first.seat(any, later);
    seat_each(others, any);
}

// Of those that are there the first so many stay.
fn first_stay<S: Stream + Drop>(all: &mut [Subscriber<S>], places: usize)
    ensures stay { all.new ≡ first_stay places all.old }
{
    let Some((first, others)) = all.split_first_mut() else {
        return;
    };
    if !first.program.is_there() {
        first_stay(others, places);
        return;
    }
    if places == 0 {
        first.program.let_go();
    }
    first_stay(others, places.saturating_sub(1));
}

// How many may stay.
fn places_for(has_host: bool) -> usize
    ensures places { result ≡ places_for has_host }
{
    if has_host {
        MOST_SUBSCRIBERS
    } else {
        MOST_SUBSCRIBERS - 1
    }
}

/// Makes the last one that declared itself the pty host, and disconnects an earlier host or declaration. Of the others 63 stay, so that a
/// pty host can connect; the newest are disconnected.
pub(crate) fn seat_host<S: Stream + Drop>(all: &mut [Subscriber<S>])
    ensures seated { all.new ≡ kept_place (seated (any_new all.old) all.old) }
{
    let any = any_new(all);
    seat_each(all, any);
    let places = places_for(has_host(all));
    first_stay(all, places);
}
