//! The two ends of a link of screens, in the version of their instance: each call is that of the end of its kind of screens.
ghost use Rattle.std.specs.Prelude.{◌≡◌, ◌≢◌, ◌⊎◌, ◌<◌, ◌≤◌, Some, None, Ok, IfOk, IfErr, IfSome, OnOk, OnErr, IsErrOf, IsOkUnless};
ghost use Rattle.roam_screens.specs.Narrow.{narrow};
ghost use Rattle.roam_screens.specs.Screenshot.{Screenshot, blank_screenshot};
ghost use Rattle.roam_screens.specs.Shown.{shown_by};
ghost use Rattle.roam_sync.specs.Senders.{newest, count, offered, withdrawn, acked, sent_at, is_due, start};
ghost use Rattle.roam_sync.specs.Receivers.{pairs, state_at, step_for, Takes, start as receives};
ghost use Rattle.roam_model.specs.Versions.{seen_by, difference_by, applied_by};
ghost use Rattle.roam_hub.specs.Waits.{PassesFrom};
ghost use Rattle.roam_hub.specs.Ends.{version_of, sending_of, version_in, receiving_in};
ghost use Rattle.roam_sync.specs.Limits.{most_held};

use crate::moments::moment_after;
use roam_cells::Fault;
use roam_screens::{RowShot, RowShot1, Shown};
use roam_sync::limits::{HEARTBEAT, RESEND_AFTER};
use roam_sync::{Instruction, Receiver, Sender, Step};
use roam_update::Synced;
use roam_wire::Version;
use std::alloc::Global;

/// The sender of the screens that a client instance is shown, in its version.
#[derive(Drop)]
pub enum AnySender {
    One(Sender<RowShot1>),
    Two(Sender<RowShot>),
}

/// The receiver of the screens that a client instance shows, in its version.
#[derive(Drop)]
pub enum AnyReceiver {
    One(Receiver<RowShot1>),
    Two(Receiver<RowShot>),
}

// The screen that both ends of a link of version 1 begin with.
fn first_old(alloc: Global) -> Result<RowShot1, Fault>
    ensures blank { IfOk result (λ shot. shot ≡ blank_screenshot 24 80) }
    ensures fault { IsOkUnless result Fault.OutOfMemory }
{
    let shot = RowShot::blank(alloc, 24, 80)?;
    Ok(RowShot1::new(shot))
}

// Adds one more state, if there are fewer than eight. `OutOfMemory`.
fn offered<S: Synced>(sender: &mut Sender<S>, number: u64, state: S) -> Result<(), Fault>
    requires newer { (newest sender.old).number < number }
    requires room { count sender.old < most_held }
    ensures ok { OnOk result (sender.new ≡ offered sender.old number state) }
    ensures top { OnOk result ((newest sender.new).number ≡ number) }
    ensures several { OnOk result (2 ≤ count sender.new) }
    ensures back { OnOk result (withdrawn sender.new ≡ sender.old) }
    ensures err { OnErr result (sender.new ≡ sender.old) }
    ensures fault { IsOkUnless result Fault.OutOfMemory }
{
    sender.offer(number, state)
}

// Returns the version 1 form of a screen: a copy of the kept one, which is made if it isn't there. `OutOfMemory`.
fn narrowed(alloc: Global, screen: &RowShot, kept: &mut Option<RowShot1>) -> Result<RowShot1, Fault>
    requires kept { IfSome kept.old (λ old. old ≡ narrow screen.now) }
    ensures same { IfOk result (λ old. old ≡ narrow screen.now) }
    ensures kept { IfSome kept.new (λ old. old ≡ narrow screen.now) }
    ensures fault { IsOkUnless result Fault.OutOfMemory }
{
    if let Some(old) = kept {
        return old.copy(alloc);
    }
    let old = RowShot1::of(alloc, screen)?;
    let copy = old.copy(alloc)?;
    *kept = Some(old);
    Ok(copy)
}

impl AnySender {
    /// A sender in a version, of the blank screen of 24 by 80 under the number 0. Refuses want of memory.
    pub fn new(alloc: Global, version: Version) -> Result<AnySender, Fault>
        ensures version { IfOk result (λ s. version_of s ≡ version) }
        ensures first { IfOk result (λ s. sending_of s ≡ start (blank_screenshot 24 80)) }
        ensures fault { IsOkUnless result Fault.OutOfMemory }
    {
        match version {
            Version::One => {
                let sender = Sender::new(alloc, first_old(alloc)?)?;
                Ok(AnySender::One(sender))
            }
            Version::Two => {
                let sender = Sender::new(alloc, RowShot::blank(alloc, 24, 80)?)?;
                Ok(AnySender::Two(sender))
            }
        }
    }

    /// Its version.
    pub fn version(&self) -> Version
        ensures version { result ≡ version_of self.now }
    {
        match self {
            AnySender::One(_) => Version::One,
            AnySender::Two(_) => Version::Two,
        }
    }

    /// Returns the number of states.
    pub fn len(&self) -> usize
        ensures value { result ≡ count (sending_of self.now) }
        ensures most { result ≤ most_held }
    {
        match self {
            AnySender::One(sender) => sender.len(),
            AnySender::Two(sender) => sender.len(),
        }
    }

    /// The number of the newest state.
    pub fn newest_number(&self) -> u64
        ensures number { result ≡ (newest (sending_of self.now)).number }
    {
        match self {
            AnySender::One(sender) => sender.newest_number(),
            AnySender::Two(sender) => sender.newest_number(),
        }
    }

    /// Adds the screen of a new number, as its version shows it, if there are fewer than eight. The form for version 1 is made when it is
    /// first needed, and kept. `OutOfMemory`.
    pub fn offer(
        &mut self,
        alloc: Global,
        number: u64,
        screen: &RowShot,
        kept: &mut Option<RowShot1>,
    ) -> Result<(), Fault>
        requires newer { (newest (sending_of self.old)).number < number }
        requires room { count (sending_of self.old) < most_held }
        requires kept { IfSome kept.old (λ old. old ≡ narrow screen.now) }
        ensures ok { OnOk result (sending_of self.new
            ≡ offered (sending_of self.old) number (seen_by (version_of self.old) screen.now)) }
        ensures top { OnOk result ((newest (sending_of self.new)).number ≡ number) }
        ensures several { OnOk result (2 ≤ count (sending_of self.new)) }
        ensures back { OnOk result (withdrawn (sending_of self.new) ≡ sending_of self.old) }
        ensures err { OnErr result (sending_of self.new ≡ sending_of self.old) }
        ensures version { version_of self.new ≡ version_of self.old }
        ensures kept { IfSome kept.new (λ old. old ≡ narrow screen.now) }
        ensures fault { IsOkUnless result Fault.OutOfMemory }
    {
        match self {
            AnySender::One(sender) => {
                let old = narrowed(alloc, screen, kept)?;
                offered(sender, number, old)
            }
            AnySender::Two(sender) => {
                let copy = screen.copy(alloc)?;
                offered(sender, number, copy)
            }
        }
    }

    /// Drops the newest of two or more states.
    pub fn withdraw(&mut self)
        requires several { 2 ≤ count (sending_of self.old) }
        ensures withdrawn { sending_of self.new ≡ withdrawn (sending_of self.old) }
        ensures version { version_of self.new ≡ version_of self.old }
    {
        match self {
            AnySender::One(sender) => sender.withdraw(),
            AnySender::Two(sender) => sender.withdraw(),
        }
    }

    /// Drops the states before this number, if it is there.
    pub fn acked(&mut self, number: u64)
        ensures acked { sending_of self.new ≡ acked (sending_of self.old) number }
        ensures version { version_of self.new ≡ version_of self.old }
    {
        match self {
            AnySender::One(sender) => sender.acked(number),
            AnySender::Two(sender) => sender.acked(number),
        }
    }

    /// Returns the instruction that leads the other end from the base to the newest state, in the text of its version. `OutOfMemory`.
    pub fn instruction(&self, alloc: Global) -> Result<Instruction, Fault>
        ensures old { IfOk result (λ i. i.old ≡ (sending_of self.now).base.number) }
        ensures floor { IfOk result (λ i. i.floor ≡ (sending_of self.now).base.number) }
        ensures new { IfOk result (λ i. i.new ≡ (newest (sending_of self.now)).number) }
        ensures rises { IfOk result (λ i. i.old ≤ i.new) }
        ensures change { IfOk result (λ i. i.change.items
            ≡ difference_by (version_of self.now) (sending_of self.now).base.state (newest (sending_of self.now)).state) }
        ensures leads { IfOk result (λ i. applied_by (version_of self.now) (sending_of self.now).base.state i.change.items
            ≡ Some (newest (sending_of self.now)).state) }
        ensures fault { IsOkUnless result Fault.OutOfMemory }
    {
        match self {
            AnySender::One(sender) => sender.instruction(alloc),
            AnySender::Two(sender) => sender.instruction(alloc),
        }
    }

    /// Returns true if the newest state should be sent at this moment.
    pub fn due(&self, now: u64) -> bool
        ensures due { result ≡ is_due (sending_of self.now) now }
    {
        match self {
            AnySender::One(sender) => sender.due(now),
            AnySender::Two(sender) => sender.due(now),
        }
    }

    /// Returns the moment from which on the newest state should be sent, if something was last sent at this one, 0 before the first; `None`
    /// past the last moment.
    pub fn due_from(&self, last: u64) -> Option<u64>
        requires last { last ≡ (sending_of self.now).last }
        ensures from { PassesFrom result (is_due (sending_of self.now)) }
    {
        if self.due(last) {
            return Some(0);
        }
        if self.len() > 1 {
            moment_after(RESEND_AFTER, last)
        } else {
            moment_after(HEARTBEAT, last)
        }
    }

    /// Notes that the newest state is sent at this moment.
    pub fn sent(&mut self, now: u64)
        ensures sent { sending_of self.new ≡ sent_at (sending_of self.old) now }
        ensures version { version_of self.new ≡ version_of self.old }
    {
        match self {
            AnySender::One(sender) => sender.sent(now),
            AnySender::Two(sender) => sender.sent(now),
        }
    }
}

impl AnyReceiver {
    /// A receiver in a version, of the blank screen of 24 by 80 under the number 0. Refuses want of memory.
    pub fn new(alloc: Global, version: Version) -> Result<AnyReceiver, Fault>
        ensures version { IfOk result (λ r. version_in r ≡ version) }
        ensures first { IfOk result (λ r. receiving_in r ≡ receives (blank_screenshot 24 80)) }
        ensures fault { IsOkUnless result Fault.OutOfMemory }
    {
        match version {
            Version::One => {
                let receiver = Receiver::new(alloc, first_old(alloc)?)?;
                Ok(AnyReceiver::One(receiver))
            }
            Version::Two => {
                let receiver = Receiver::new(alloc, RowShot::blank(alloc, 24, 80)?)?;
                Ok(AnyReceiver::Two(receiver))
            }
        }
    }

    /// Its version.
    pub fn version(&self) -> Version
        ensures version { result ≡ version_in self.now }
    {
        match self {
            AnyReceiver::One(_) => Version::One,
            AnyReceiver::Two(_) => Version::Two,
        }
    }

    /// The number of the newest state.
    pub fn newest_number(&self) -> u64
        ensures number { result ≡ (receiving_in self.now).newest.number }
    {
        match self {
            AnyReceiver::One(receiver) => receiver.newest().0,
            AnyReceiver::Two(receiver) => receiver.newest().0,
        }
    }

    /// The newest state, with its number.
    pub fn newest(&self) -> (u64, Shown<'_>)
        ensures number { result.0 ≡ (receiving_in self.now).newest.number }
        ensures state { shown_by result.1 ≡ (receiving_in self.now).newest.state }
    {
        match self {
            AnyReceiver::One(receiver) => {
                let (number, shot) = receiver.newest();
                (number, Shown::Old(shot))
            }
            AnyReceiver::Two(receiver) => {
                let (number, shot) = receiver.newest();
                (number, Shown::New(shot))
            }
        }
    }

    /// Takes an instruction that leads from the state numbered `old` to the one numbered `new`. Refuses a diff that leads to no state of
    /// its version as `BadChange`, and want of memory.
    pub fn take(
        &mut self,
        alloc: Global,
        old: u64,
        new: u64,
        floor: u64,
        change: &[u8],
    ) -> Result<Step, Fault>
        requires floor { floor ≤ old }
        requires rises { old ≤ new }
        ensures answer { IfOk result (λ step. step ≡ step_for (receiving_in self.old) old new floor) }
        ensures same { OnOk result (step_for (receiving_in self.old) old new floor ≢ Step.New
            → receiving_in self.new ≡ receiving_in self.old) }
        ensures taken { result ≡ Ok Step.New → Takes (applied_by (version_in self.old)) (receiving_in self.old) old new floor change.now
            (receiving_in self.new) }
        ensures bad { IsErrOf result Fault.BadChange → ((base : Screenshot) → state_at old (pairs (receiving_in self.old)) ≡ Some base
            → applied_by (version_in self.old) base change.now ≡ None) }
        ensures err { OnErr result (self.new ≡ self.old) }
        ensures version { version_in self.new ≡ version_in self.old }
        ensures only { OnErr result (step_for (receiving_in self.old) old new floor ≡ Step.New) }
        ensures fault { IfErr result (λ e. (e ≡ Fault.OutOfMemory) ⊎ (e ≡ Fault.BadChange)) }
    {
        match self {
            AnyReceiver::One(receiver) => receiver.take(alloc, old, new, floor, change),
            AnyReceiver::Two(receiver) => receiver.take(alloc, old, new, floor, change),
        }
    }
}
