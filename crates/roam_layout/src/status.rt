//! The status text.
ghost use Rattle.std.specs.Prelude.{◌≡◌, ◌++◌, IfOk, take, replicate, decimal};
ghost use Rattle.std.specs.List.{flat_map};
ghost use Rattle.roam_layout.specs.Status.{label, view_text};

use crate::rects::Rect;
use itoa::Buffer;
use std::alloc::AllocError;

fn push_number(text: &mut Vec<u8>, n: u16) -> Result<(), AllocError>
    ensures text { IfOk result (λ _. text.new.items ≡ text.old.items ++ decimal n) }
{
    let mut buffer = Buffer::new();
    text.extend_from_slice(buffer.format(n).as_bytes())
}

fn push_label(text: &mut Vec<u8>, focus: u8, pane: u8) -> Result<(), AllocError>
    ensures text { IfOk result (λ _. text.new.items ≡ text.old.items ++ label focus pane) }
{
    if pane == focus {
        text.push(b'[')?;
        push_number(text, u16::from(pane))?;
        text.push(b']')?;
    } else {
        text.push(b' ')?;
        push_number(text, u16::from(pane))?;
        text.push(b' ')?;
    }
    Ok(())
}

/// Adds the labels of panes.
pub fn push_labels(text: &mut Vec<u8>, focus: u8, panes: &[(u8, Rect)]) -> Result<(), AllocError>
    ensures text { IfOk result (λ _. text.new.items ≡ text.old.items ++ flat_map (λ x. label focus x.0) panes.now) }
{
    for k in 0..panes.len() {
        push_label(text, focus, panes[k].0)?;
    }
    Ok(())
}

/// Adds a view that is above 0.
pub fn push_view(text: &mut Vec<u8>, view: u16) -> Result<(), AllocError>
    ensures text { IfOk result (λ _. text.new.items ≡ text.old.items ++ view_text view) }
{
    if view > 0 {
        text.extend_from_slice(b" ^")?;
        push_number(text, view)?;
    }
    Ok(())
}

/// Cuts or pads a text with spaces.
pub fn fit(text: &mut Vec<u8>, cols: u16) -> Result<(), AllocError>
    ensures text { IfOk result (λ _. text.new.items ≡ take cols (text.old.items ++ replicate cols 32)) }
{
    text.resize(usize::from(cols), b' ')
}
