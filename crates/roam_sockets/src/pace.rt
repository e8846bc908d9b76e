//! The pace of datagrams to one address. A loopback socket has room for few unread ones, and the others are lost.
ghost use Rattle.std.specs.Prelude.{◌≡◌, ◌+◌, ◌<◌, ◌==◌};
ghost use Rattle.roam_sockets.specs.Pace.{gone_at, may_go, most_a_moment};

/// How many datagrams go to one address at one moment.
const MOST_A_MOMENT: u32 = 48;

/// How many datagrams went to an address at a moment.
#[derive(Clone, Copy, Debug)]
pub(crate) struct Pace {
    moment: u64,
    gone: u32,
}

impl Pace {
    /// Nothing went yet.
    pub(crate) fn new() -> Pace
        ensures new { result ≡ record { moment = 0; gone = 0 } }
    {
        Pace { moment: 0, gone: 0 }
    }

    // How many went at this moment.
    fn gone_at(&self, now: u64) -> u32
        ensures gone { result ≡ gone_at self.now now }
    {
        if self.moment == now { self.gone } else { 0 }
    }

    /// Returns true if one more may go at this moment.
    pub(crate) fn may_go(&self, now: u64) -> bool
        ensures may { result ≡ may_go self.now now }
    {
        self.gone_at(now) < MOST_A_MOMENT
    }

    /// Returns true if the last one went at this moment.
    pub(crate) fn is_at(&self, now: u64) -> bool
        ensures at { result ≡ (self.now.moment == now) }
    {
        self.moment == now
    }

    /// One more went at this moment.
    pub(crate) fn went(&mut self, now: u64)
        requires may { gone_at self.old now < most_a_moment }
        ensures went { self.new ≡ record { moment = now; gone = gone_at self.old now + 1 } }
    {
        self.gone = self.gone_at(now) + 1;
        self.moment = now;
    }
}
