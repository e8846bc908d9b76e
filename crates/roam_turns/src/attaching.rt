//! One turn of a client instance and its outer terminal.
ghost use Rattle.std.specs.Prelude.{◌≡◌, List, Option, IfSome};
ghost use Rattle.std.specs.Io.KnownBytes.{Keeps};
ghost use Rattle.std.specs.Option.{option_copied};
ghost use Rattle.roam_acts.specs.Acts.{IsInRange};
ghost use Rattle.roam_screens.specs.Screenshot.{IsScreenshot};
ghost use Rattle.roam_turns.specs.Calls.{ClientCall, PortCall};
ghost use Rattle.roam_turns.specs.Painting.{Follows, IsNoted, IsBehind, Leads, Led, Shows};
ghost use Rattle.roam_turns.specs.Parts.{Call, Makes, ReceivesUpTo};
ghost use Rattle.roam_turns.specs.Turns.{IsToClient, Types, Paints, ClientTicks, AttachTurn, QuietTurn, shown_in};

use crate::cores::ClientCore;
use crate::outer::Outer;
use crate::ports::Ports;
use crate::sending::send_texts;
use crate::serving::{DATAGRAM, MOST_RECEIVES};
use roam_acts::Act;
use roam_hub::Addr;
use roam_paint::laws::{opened_begins_blank, painted_leads_over};
use roam_screens::Seen;
use std::alloc::Global;

// Types the next act, if there is one, and returns true if it was taken.
fn type_next<C: ClientCore>(client: &mut C, next: Option<&Act>) -> bool
    requires in_range { IfSome next (λ act. IsInRange act.now) }
    ensures types { (told : Option (List PortCall)) → Makes C.step (Types (option_copied next.entry) result) told told
        (C.made client.old) (C.made client.new) client.old client.new }
    ensures follows { Follows (C.number client.old) (C.screen client.old) (C.number client.new) (C.screen client.new) }
{
    match next {
        None => false,
        Some(act) => client.typed(*act).is_ok(),
    }
}

// Hands each datagram that comes to the instance; one that is refused is dropped.
fn receive_all<C: ClientCore, P: Ports>(alloc: Global, client: &mut C, ports: &mut P, now: u64)
    ensures receives { Makes C.step (ReceivesUpTo (IsToClient now) 2048 32) (P.told ports.old) (P.told ports.new)
        (C.made client.old) (C.made client.new) client.old client.new }
    ensures follows { Follows (C.number client.old) (C.screen client.old) (C.number client.new) (C.screen client.new) }
    ensures written { Keeps (P.written ports.old) (P.written ports.new) }
    ensures notice { P.notice ports.new ≡ P.notice ports.old }
{
    let mut buf = [0; DATAGRAM];
    for _ in 0..MOST_RECEIVES {
        match ports.receive(&mut buf) {
            None => return,
            Some((_, len)) => {
                let _dropped = client.datagram(alloc, &buf[..len], now);
            }
        }
    }
}

// Paints the instance's screen, if it isn't noted.
fn paint_screen<C: ClientCore, P: Ports>(
    alloc: Global,
    client: &C,
    outer: &mut Outer,
    ports: &mut P,
)
    ensures paints { Makes C.step (Paints (C.number client.now) (C.screen client.now) outer.old outer.new)
        (P.told ports.old) (P.told ports.new) (C.made client.now) (C.made client.now) client.now client.now }
    ensures screen { IsScreenshot (C.screen client.now) }
    ensures led { Led outer.old (P.written ports.old) outer.new (P.written ports.new) }
    ensures notice { P.notice ports.new ≡ P.notice ports.old }
{
    painted_leads_over();
    opened_begins_blank();
    let (number, screen) = client.shown();
    screen.facts();
    if outer.is_noted(number) {
        return;
    }
    let Ok(painting) = outer.painting(alloc, number, &screen) else {
        return;
    };
    if ports.show(&painting.text) {
        outer.note(Some(painting.noted));
    } else {
        outer.note(None);
    }
}

// Ticks and sends; a refused tick sends nothing.
fn tick_and_send<C: ClientCore, P: Ports>(
    alloc: Global,
    client: &mut C,
    ports: &mut P,
    to: Addr,
    now: u64,
)
    ensures ticks { Makes C.step (ClientTicks now to) (P.told ports.old) (P.told ports.new)
        (C.made client.old) (C.made client.new) client.old client.new }
    ensures number { C.number client.new ≡ C.number client.old }
    ensures screen { C.screen client.new ≡ C.screen client.old }
    ensures written { Keeps (P.written ports.old) (P.written ports.new) }
    ensures notice { P.notice ports.new ≡ P.notice ports.old }
{
    match client.tick(alloc, now) {
        Ok(texts) => send_texts(ports, to, &texts),
        Err(_) => (),
    }
}

/// Takes one turn of a client instance that shows nothing: the moment; at most 32 datagrams of up to 2,048 bytes, until one receive brings
/// nothing; and a tick, whose datagrams are sent to `to`. Whatever the instance refuses is dropped, and a datagram that isn't sent is lost.
pub fn quiet_turn<C: ClientCore, P: Ports>(alloc: Global, client: &mut C, ports: &mut P, to: Addr)
    ensures turn { Makes C.step (QuietTurn to) (P.told ports.old) (P.told ports.new) (C.made client.old) (C.made client.new)
        client.old client.new }
    // The number that the instance shows never falls, and one number shows one screen.
    ensures follows { Follows (C.number client.old) (C.screen client.old) (C.number client.new) (C.screen client.new) }
    ensures written { Keeps (P.written ports.old) (P.written ports.new) }
    ensures notice { P.notice ports.new ≡ P.notice ports.old }
{
    let now = ports.now();
    receive_all(alloc, client, ports, now);
    tick_and_send(alloc, client, ports, to, now);
}

/// Takes one turn of a client instance with its ports, and returns true if the act was taken:
///
/// 1. the moment, and the next act, if there is one;
/// 2. at most 32 datagrams of up to 2,048 bytes, until one receive brings nothing;
/// 3. the instance's screen, if another number is noted of the outer terminal or none, painted over the noted screen, or over a terminal
///    that
///    is opened;
/// 4. a tick, whose datagrams are sent to `to`.
///
/// Whatever the instance refuses is dropped, and a datagram that isn't sent is lost. If there is no memory for painting, nothing is shown
/// and the noted screen stays. If showing fails, nothing is noted.
pub fn attach_turn<C: ClientCore, P: Ports>(
    alloc: Global,
    client: &mut C,
    outer: &mut Outer,
    ports: &mut P,
    to: Addr,
    next: Option<&Act>,
) -> bool
    requires in_range { IfSome next (λ act. IsInRange act.now) }
    requires behind { IsBehind outer.old (C.number client.old) (C.screen client.old) }
    ensures turn { Makes C.step
        (AttachTurn (C.number client.new) (C.screen client.new) outer.old outer.new to (option_copied next.entry) result)
        (P.told ports.old) (P.told ports.new) (C.made client.old) (C.made client.new) client.old client.new }
    ensures leads { (calls : List (Call ClientCall))
        → AttachTurn (C.number client.new) (C.screen client.new) outer.old outer.new to (option_copied next.entry) result calls
        → Leads outer.old (shown_in calls) outer.new }
    ensures shows { (calls : List (Call ClientCall))
        → AttachTurn (C.number client.new) (C.screen client.new) outer.old outer.new to (option_copied next.entry) result calls
        → IsNoted (C.number client.new) outer.new → Shows outer.old (shown_in calls) (C.screen client.new) }
    ensures behind { IsBehind outer.new (C.number client.new) (C.screen client.new) }
    // The number that the instance shows never falls, and one number shows one screen.
    ensures follows { Follows (C.number client.old) (C.screen client.old) (C.number client.new) (C.screen client.new) }
    ensures led { Led outer.old (P.written ports.old) outer.new (P.written ports.new) }
    ensures notice { P.notice ports.new ≡ P.notice ports.old }
{
    painted_leads_over();
    opened_begins_blank();
    let now = ports.now();
    let taken = type_next(client, next);
    receive_all(alloc, client, ports, now);
    paint_screen(alloc, client, outer, ports);
    tick_and_send(alloc, client, ports, to, now);
    taken
}
