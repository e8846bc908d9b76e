//! Marks of the rows of a session's screen.
ghost use Rattle.std.specs.Prelude.{◌≡◌, ◌<◌, ◌&&◌, ◌==◌, Some, length};
ghost use Rattle.std.specs.List.{list_any};
ghost use Rattle.roam_grid.specs.Marks.{also_marked, row_marked};
ghost use Rattle.roam_layout.specs.Rects.{rect_in};
ghost use Rattle.roam_layout.specs.Layouts.{panes};
ghost use Rattle.roam_session.specs.Marks.{is_same_rect, is_same_way, is_same_pane, is_same_border, loses_pane, loses_border, is_relaid, is_shown_anew, is_concerned, is_touched, touched_marks, view_in};
ghost use Rattle.roam_session.specs.Stands.{IsPlaced};

use roam_acts::Act;
use roam_layout::rects::rect_of;
use roam_layout::{Layout, Rect, Way};
use roam_term::Term;

fn is_same_rect(x: Rect, y: Rect) -> bool
    ensures same { result ≡ is_same_rect x y }
{
    x == y
}

fn is_same_way(x: Way, y: Way) -> bool
    ensures same { result ≡ is_same_way x y }
{
    x == y
}

fn has_pane(x: (u8, Rect), list: &[(u8, Rect)]) -> bool
    ensures has { result ≡ list_any (λ y. is_same_pane x y) list.now }
{
    list.iter().any(|y| x.0 == y.0 && is_same_rect(x.1, y.1))
}

fn has_border(x: (Way, Rect), list: &[(Way, Rect)]) -> bool
    ensures has { result ≡ list_any (λ y. is_same_border x y) list.now }
{
    list.iter()
        .any(|y| is_same_way(x.0, y.0) && is_same_rect(x.1, y.1))
}

// Returns true if a row, from 1, has a part of one of these panes that isn't among others.
fn loses_pane(row: u16, one: &[(u8, Rect)], other: &[(u8, Rect)]) -> bool
    ensures loses { result ≡ loses_pane row one.now other.now }
{
    one.iter().any(|x| x.1.has_row(row) && !has_pane(*x, other))
}

fn loses_border(row: u16, one: &[(Way, Rect)], other: &[(Way, Rect)]) -> bool
    ensures loses { result ≡ loses_border row one.now other.now }
{
    one.iter()
        .any(|x| x.1.has_row(row) && !has_border(*x, other))
}

// Returns true if a row, from 1, is in the rectangle of a pane or border that comes, goes or changes.
fn is_relaid(old: &Layout, new: &Layout, row: u16) -> bool
    ensures relaid { result ≡ is_relaid old.now new.now row }
{
    loses_pane(row, old.rects(), new.rects())
        || loses_pane(row, new.rects(), old.rects())
        || loses_border(row, old.borders(), new.borders())
        || loses_border(row, new.borders(), old.borders())
}

// Returns true if an act shows a row, from 1, anew.
fn is_shown_anew(act: &Act, new: &Layout, row: u16) -> bool
    ensures anew { result ≡ is_shown_anew act.now new.now row }
{
    match *act {
        Act::Size(_, _) => true,
        Act::View(_) => match rect_of(new.rects(), new.focus()) {
            Some(rect) => rect.has_row(row),
            None => false,
        },
        _ => false,
    }
}

// Returns true if a layout command concerns a row, from 0.
fn is_concerned(act: &Act, old: &Layout, new: &Layout, row: u16) -> bool
    requires row { row < 200 }
    ensures concerned { result ≡ is_concerned act.now old.now new.now row }
{
    row + 1 == new.rows() || is_shown_anew(act, new, row + 1) || is_relaid(old, new, row + 1)
}

fn mark_row(marks: &mut [bool; 200], row: u16)
    requires row { row < 200 }
    ensures marks { marks.new ≡ row_marked row marks.old }
{
    marks[usize::from(row)] = true;
}

// Marks a row, from 0, under a condition.
fn mark_where(marks: &mut [bool; 200], row: u16, on: bool)
    requires row { row < 200 }
    ensures marks { marks.new ≡ also_marked (λ r. (r == row) && on) marks.old }
{
    if on {
        mark_row(marks, row);
    }
}

/// Marks the rows that a layout command concerns.
pub fn mark_laid(marks: &mut [bool; 200], act: &Act, old: &Layout, new: &Layout)
    ensures marks { marks.new ≡ also_marked (is_concerned act.now old.now new.now) marks.old }
{
    for row in 0..200_u16 {
        let on = is_concerned(act, old, new, row);
        mark_where(marks, row, on);
    }
}

// Returns true if a pane in a rectangle changes a row, from 0, of a session.
fn is_touched(rect: Rect, view: u16, rows: u16, named: &[bool], row: u16) -> bool
    requires row { row < 200 }
    requires named { length named.now ≡ rect.rows }
    ensures touched { result ≡ is_touched rect view rows named.now row }
{
    let row = row + 1;
    if view == 0 {
        rect.has_row(row) && named[usize::from(row - rect.row)]
    } else {
        rect.has_row(row) || row == rows
    }
}

fn touch(marks: &mut [bool; 200], rect: Rect, view: u16, rows: u16, named: &[bool])
    requires named { length named.now ≡ rect.rows }
    ensures marks { marks.new ≡ also_marked (is_touched rect view rows named.now) marks.old }
{
    for row in 0..200_u16 {
        let on = is_touched(rect, view, rows, named, row);
        mark_where(marks, row, on);
    }
}

/// Marks the rows that a pane's terminal changed in the session.
pub fn touch_pane(marks: &mut [bool; 200], layout: &Layout, pane: u8, term: &Term)
    requires placed { IsPlaced (rect_in pane (panes layout.now)) (Some term.now) }
    ensures marks { marks.new
        ≡ touched_marks (rect_in pane (panes layout.now)) (view_in layout.now pane) layout.now.rows term.now.marks marks.old }
{
    if let Some(rect) = rect_of(layout.rects(), pane) {
        if let Some(view) = layout.view(pane) {
            touch(marks, rect, view, layout.rows(), term.marks());
        }
    }
}
