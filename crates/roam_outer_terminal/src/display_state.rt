//! A terminal that asked for records gets three kinds: the screen to show, the taken lines, and the screen that it asked for.
ghost use Rattle.std.specs.Prelude.{◌≡◌, ◌⊎◌, ◌++◌, List, true, Some, is_some};
ghost use Rattle.roam_display_records.specs.declared.records.Record.{Record};
ghost use Rattle.roam_screens.specs.Shown.{shown_by};
ghost use Rattle.roam_display_state.specs.Saying.{texts_of};
ghost use Rattle.roam_display_state.specs.DisplayState.{DisplayStateView, Tells};
ghost use Rattle.roam_outer_terminal.specs.Painted.{TellsAll, TellsIt, TellsNoted, is_ready, shown_of};
ghost use Rattle.roam_turns.specs.Painting.{IsBehind};

use crate::duplex::Duplex;
use crate::silence::Silence;
use crate::terminal::Terminal;
use roam_display_state::DisplayState;
use roam_hub::Client;
use roam_screens::{RowShot, Shown};
use roam_stream_framing::Outbox;
use roam_turns::Outer;
use std::alloc::Global;

// Sends the screen to show, of either representation.
fn tell_shown(
    alloc: Global,
    display_state: &mut DisplayState,
    waiting: &mut Outbox,
    screen: &Shown<'_>,
)
    ensures tells { (said : List Record) × Tells (shown_by screen.now) said display_state.old display_state.new
        × (waiting.new ≡ waiting.old ++ texts_of said) }
{
    match screen {
        Shown::New(shot) => {
            let _ = display_state.tell_screen(alloc, waiting, shot);
        }
        Shown::Old(shot) => {
            if let Ok(copy) = RowShot::of(alloc, *shot) {
                let _ = display_state.tell_screen(alloc, waiting, &copy);
            }
        }
    }
}

// Sends the noted screen if it was requested, and the terminal's screen with its overlay.
fn tell_noted(
    alloc: Global,
    display_state: &mut DisplayState,
    waiting: &mut Outbox,
    outer: &Outer,
    over: &Option<RowShot>,
)
    ensures tells { (said : List Record) × TellsNoted outer.now over.now said display_state.old display_state.new
        × (waiting.new ≡ waiting.old ++ texts_of said) }
{
    let Some((_, screen)) = outer.noted() else {
        return;
    };
    let _ = display_state.tell_look(alloc, waiting, &screen);
    match over {
        Some(over) => {
            let _ = display_state.tell_screen(alloc, waiting, over);
        }
        None => tell_shown(alloc, display_state, waiting, &screen),
    }
}

impl<S: Duplex + Drop> Terminal<S> {
    // Notes the screen that the instance shows, if there is memory for it.
    fn note(&mut self, alloc: Global, client: &Client)
        ensures noted { (self.new.outer ≡ Some (shown_of client.now)) ⊎ (self.new.outer ≡ self.old.outer) }
        ensures others { self.new ≡ record self.old { outer = self.new.outer } }
    {
        let (number, screen) = client.shown();
        self.outer.see(alloc, number, &screen);
    }

    // Appends the records to the queued bytes: the taken lines, given the number of acknowledged acts; the requested screen; and the noted
    // screen with its overlay.
    fn tell_all(&mut self, alloc: Global, acknowledged: u64)
        ensures told { (before : DisplayStateView) → self.old.display_state ≡ Some before → TellsIt acknowledged before self.old self.new }
    {
        if let Some(display_state) = &mut self.display_state {
            let _ = display_state.tell_taken(alloc, &mut self.waiting, acknowledged);
            tell_noted(
                alloc,
                display_state,
                &mut self.waiting,
                &self.outer,
                &self.over,
            );
        }
    }

    // Sets the overlay of the noted screen, as the records give it.
    fn stand_over(&mut self, over: Option<RowShot>)
        ensures over { self.new ≡ record self.old { over = over } }
    {
        self.over = over;
    }

    // Appends the due records to the queued bytes. It notes whole screens, and judges predictions by these.
    pub(crate) fn tell(&mut self, alloc: Global, client: &Client, silence: Silence)
        requires ready { is_ready self.old ≡ true }
        requires told { is_some self.old.display_state ≡ true }
        ensures tells { TellsAll silence client.now self.old self.new }
        ensures behind { IsBehind self.old.outer client.now.kept.receiver.newest.number client.now.kept.receiver.newest.state
            → IsBehind self.new.outer client.now.kept.receiver.newest.number client.now.kept.receiver.newest.state }
    {
        self.note(alloc, client);
        let _ = self.judge(alloc, client, silence.moment());
        let wanted = self.wanted_if_kept(alloc, silence);
        self.stand_over(wanted);
        self.tell_all(alloc, client.acknowledged());
    }
}
