//! A subscriber's line that closes a pane, and its effect.
ghost use Rattle.std.specs.Prelude.{◌≡◌, ◌↔◌, ◌==◌, false, true, None, Some, IfSome, MatchOption};
ghost use Rattle.roam_pane_protocol.specs.declared.closes.Close.{Close as CloseOf};
ghost use Rattle.roam_pane_protocol.specs.Closes.{Acts, IsAlone, IsClose, close_text, focus_after, is_there, is_making, may_follow};
ghost use Rattle.roam_pane_protocol.specs.Reading.{close_in, generation_and_focus_in, pane_in};

use crate::pane_list::PaneList;
use roam_acts::limits::PANES_END;
use roam_tokens::{first_word, number};

/// A subscriber's request: a pane, its generation, and the pane to focus then.
#[derive(Clone, Copy, Debug, PartialEq, Eq)]
pub struct Close {
    /// The pane to close, 1 to 9.
    pub pane: u8,
    /// Which making of its number is meant.
    pub generation: u64,
    /// The pane, 1 to 9, to focus then, if one is named.
    pub focus: Option<u8>,
}

/// The effect of a close.
#[derive(Clone, Copy, Debug, PartialEq, Eq)]
pub enum Closing {
    /// The pane isn't there, or it is of another making.
    Gone,

    /// It is the only pane, and stays.
    LastPane,

    /// It gets the focus and is closed.
    Acts {
        /// The pane that gets the focus then; if there is none, the layout decides.
        after: Option<u8>,
    },
}

// The pane, 1 to 9, that a text writes.
fn pane(text: &[u8]) -> Option<u8>
    ensures pane { result ≡ pane_in text.now }
{
    match number(text, 9)? {
        0 => None,
        pane => Some(pane as u8),
    }
}

// Returns the generation that a text spells, and the pane that may follow it.
fn generation_and_focus(text: &[u8]) -> Option<(u64, Option<u8>)>
    ensures both { result ≡ generation_and_focus_in text.now }
{
    match first_word(text) {
        None => Some((number(text, u64::MAX)?, None)),
        Some((generation, focus)) => Some((number(generation, u64::MAX)?, Some(pane(focus)?))),
    }
}

// Returns the close whose words follow the first of its line.
fn close_behind(text: &[u8]) -> Option<Close>
    ensures close { result ≡ close_in text.now }
{
    let (first, rest) = first_word(text)?;
    let pane = pane(first)?;
    let (generation, focus) = generation_and_focus(rest)?;
    Some(Close {
        pane,
        generation,
        focus,
    })
}

/// Returns the request of a subscriber's line, without its LF: `close P GENERATION`, or `close P GENERATION F` with the pane to focus then.
/// `None` for any other line.
pub fn read_close(line: &[u8]) -> Option<Close>
    // The result is a close that has this text.
    ensures found { IfSome result (λ close. IsClose close × (line.now ≡ close_text close)) }
    // A close that has this text is read.
    ensures only { (close : CloseOf) → IsClose close → line.now ≡ close_text close → result ≡ Some close }
{
    close_behind(line.strip_prefix(b"close ".as_slice())?)
}

// Returns true if a pane, 1 to 9, is there.
fn is_there(list: &PaneList, pane: u8) -> bool
    ensures there { result ≡ is_there list.now pane }
{
    pane >= 1 && pane <= 9 && list.get(pane).is_some()
}

// Returns true if a pane is there, of this generation.
fn is_making(list: &PaneList, pane: u8, generation: u64) -> bool
    ensures making { result ≡ is_making list.now pane generation }
{
    if pane < 1 || pane > 9 {
        return false;
    }
    match list.get(pane) {
        None => false,
        Some(listed) => listed.generation == generation,
    }
}

// Returns true if no other pane is there.
fn is_alone(list: &PaneList, pane: u8) -> bool
    ensures alone { result ≡ true ↔ IsAlone list.now pane }
{
    for other in 1..PANES_END {
        if other != pane && is_there(list, other) {
            return false;
        }
    }
    true
}

// Returns true if a pane may have the focus after another is closed.
fn may_follow(list: &PaneList, closed: u8, pane: u8) -> bool
    ensures follow { result ≡ may_follow list.now closed pane }
{
    pane != closed && is_there(list, pane)
}

// The pane that gets the focus after a close.
fn focus_after(list: &PaneList, close: &Close) -> Option<u8>
    ensures focus { result ≡ focus_after list.now close.now }
{
    if let Some(pane) = close.focus
        && may_follow(list, close.pane, pane)
    {
        return Some(pane);
    }
    let pane = list.focus();
    if may_follow(list, close.pane, pane) {
        Some(pane)
    } else {
        None
    }
}

/// Returns the effect of a close with these panes. `Gone` if the pane isn't there or is of another generation, `LastPane` if no other is
/// there. Else acts: the pane gets the focus, it is closed, and then a pane gets the focus. That is the named one, if it is there and
/// stays, else the one that had it before, if it stays, else the layout's choice.
pub fn acts_for(list: &PaneList, close: &Close) -> Closing
    ensures gone { result ≡ Closing.Gone ↔ (is_making list.now close.now.pane close.now.generation ≡ false) }
    ensures last { result ≡ Closing.LastPane
        ↔ ((is_making list.now close.now.pane close.now.generation ≡ true) × IsAlone list.now close.now.pane) }
    ensures acts { Acts result (focus_after list.now close.now) }
{
    if !is_making(list, close.pane, close.generation) {
        return Closing::Gone;
    }
    if is_alone(list, close.pane) {
        return Closing::LastPane;
    }
    Closing::Acts {
        after: focus_after(list, close),
    }
}
