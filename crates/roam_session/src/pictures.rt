//! The pictures of a layout's panes, of which a row can be read without the whole.
ghost use Rattle.std.specs.Prelude.{◌≡◌, ◌<◌, ◌++◌, ℕ, true, Some, is_some, length, slice_index, IfOk};
ghost use Rattle.std.proofs.Props.{props};
ghost use Rattle.roam_cells.specs.Place.{row_of};
ghost use Rattle.roam_layout.specs.Trees.{has};
ghost use Rattle.roam_layout.specs.Layouts.{panes};
ghost use Rattle.roam_layout.specs.Faces.{picture_at, picture_in};
ghost use Rattle.roam_session.specs.Stands.{shown_by, term_at};
ghost use Rattle.roam_session.specs.Pictures.{AreScreens, AreThere, colour_prop, shots_of};

use roam_cells::Cell;
use roam_layout::{Layout, Pictures};
use roam_term::Term;
use std::alloc::AllocError;

/// The pictures of a layout's panes at their views.
#[derive(Drop)]
pub struct PanePictures<'a> {
    pub layout: &'a Layout,
    pub terms: &'a [Option<Term>],
    ghost there: { AreThere layout.now terms.now },
    ghost screens: { AreScreens layout.now terms.now } by { Prim.hlevel (props, colour_prop) },
}

impl Pictures for PanePictures<'_> {
    ghost shots = { λ s. shots_of s.layout.now s.terms.now };

    fn facts(&self) {}

    fn push_row(&self, index: usize, row: u16, cells: &mut Vec<Cell>) -> Result<(), AllocError> {
        push_row_at(self.layout, self.terms, index, row, cells)
    }

    fn cursor(&self, pane: u8) -> ((u16, u16), bool) {
        cursor(self.layout, self.terms, pane)
    }
}

// By how many rows a pane is scrolled back.
fn view_of(layout: &Layout, pane: u8) -> u16
    requires there { has pane layout.now.tree ≡ true }
    ensures view { result ≡ slice_index layout.now.views pane }
{
    match layout.view(pane) {
        Some(view) => view,
        None => 0,
    }
}

// The terminal at a number that has one.
fn term_of(terms: &[Option<Term>], pane: u8) -> &Term
    requires there { is_some (term_at terms.now pane) ≡ true }
    ensures term { term_at terms.now pane ≡ Some result.now }
{
    match terms.get(usize::from(pane)) {
        Some(Some(term)) => term,
        Some(None) | None => unreachable!(),
    }
}

// Appends a row, from 0, of the picture of a pane of a layout.
fn push_row(
    layout: &Layout,
    terms: &[Option<Term>],
    pane: u8,
    row: u16,
    cells: &mut Vec<Cell>,
) -> Result<(), AllocError>
    requires pane { has pane layout.now.tree ≡ true }
    requires there { AreThere layout.now terms.now }
    requires row { row < (shown_by layout.now terms.now pane).rows }
    ensures row { IfOk result (λ _. cells.new.items ≡ cells.old.items
        ++ row_of (shown_by layout.now terms.now pane).cols (shown_by layout.now terms.now pane).cells row) }
{
    let view = view_of(layout, pane);
    term_of(terms, pane).push_row(view, row, cells)
}

// Appends a row, from 0, of the picture of the pane at an index in tree order.
fn push_row_at(
    layout: &Layout,
    terms: &[Option<Term>],
    index: usize,
    row: u16,
    cells: &mut Vec<Cell>,
) -> Result<(), AllocError>
    requires index { index < length (panes layout.now) }
    requires there { AreThere layout.now terms.now }
    requires row { row < (picture_at (shots_of layout.now terms.now) index).rows }
    ensures row { IfOk result (λ _. cells.new.items ≡ cells.old.items
        ++ row_of (picture_at (shots_of layout.now terms.now) index).cols (picture_at (shots_of layout.now terms.now) index).cells row) }
{
    layout.facts();
    let pane = layout.rects()[index].0;
    push_row(layout, terms, pane, row, cells)
}

// Returns the cursor of a pane's picture, and true if it is visible; that of a blank screen if the layout has no such pane.
fn cursor(layout: &Layout, terms: &[Option<Term>], pane: u8) -> ((u16, u16), bool)
    requires there { AreThere layout.now terms.now }
    ensures row { result.0.0 ≡ (picture_in (shots_of layout.now terms.now) pane).cursor_row }
    ensures col { result.0.1 ≡ (picture_in (shots_of layout.now terms.now) pane).cursor_col }
    ensures visible { result.1 ≡ (picture_in (shots_of layout.now terms.now) pane).visible }
{
    match layout.view(pane) {
        Some(view) => term_of(terms, pane).cursor_at(view),
        None => ((1, 1), true),
    }
}
