//! The layout of a session.
ghost use Rattle.std.specs.Prelude.{◌≡◌, pos, negsuc, ◌≤ℤ◌, ◌+ℤ◌, ◌≤◌, ◌⊎◌, ◌↔◌, map, slice_index, IfOk, IfErr, OnOk, OnErr, IsErrOf, IsOkUnless, Some, None, if◌then◌else◌};
ghost use Rattle.std.specs.List.{All};
ghost use Rattle.roam_acts.specs.Acts.{IsInRange};
ghost use Rattle.roam_layout.specs.Trees.{shape_of, has};
ghost use Rattle.roam_layout.specs.Rects.{Covers};
ghost use Rattle.roam_layout.specs.Changes.{first_of, panes_closed, panes_made, panes_sized};
ghost use Rattle.roam_layout.specs.Status.{status_row, IsPrintable};
ghost use Rattle.roam_layout.specs.Faces.{focus_rect};
ghost use Rattle.roam_layout.specs.Layouts.{Plan, IsPlan, IsSessionSize, Answers, area, panes, edges, start, split, close, focus_on, next, grow, outcome_of, after, resize, scroll, view_in_range, IsLaid, Laid, Refused};

use crate::changes::Changes;
use crate::limits::{MOST_VIEW, is_session_size};
use crate::rects::{Rect, Way};
use crate::status::{fit, push_labels, push_view};
use crate::trees::Tree;
use roam_acts::Act;
use roam_cells::Fault;
use std::alloc::{AllocError, Global};
use std::marker::Model;

/// A layout: the session's size, its tree of panes, the focus and the view of each pane.
#[derive(Drop)]
pub struct Layout {
    rows: u16,
    cols: u16,
    tree: Tree,
    focus: u8,
    views: [u16; 10],
    rects: Vec<(u8, Rect)>,
    borders: Vec<(Way, Rect)>,
}

impl Model for Layout {
    ghost use Rattle.roam_layout.specs.Layouts.{Plan};
    ghost use Rattle.roam_layout.specs.Coding.{plan_code};

    ghost Value = { Plan };

    ghost coded = { plan_code };

    ghost use Rattle.roam_layout.specs.Kept.{plan_of, IsKept};

    ghost view = { plan_of };

    ghost invariant = { IsKept };
}

/// Returns the area of a tree: all rows but the last, the status row. A tree's least size is measured in it.
fn area_of(rows: u16, cols: u16) -> Rect
    requires rows { 1 ≤ rows }
    ensures area { result ≡ area rows cols }
{
    Rect {
        row: 1,
        col: 1,
        rows: rows - 1,
        cols,
    }
}

/// A view moved by a number, pushed into 0 to 500.
fn moved_view(view: u16, by: i16) -> u16
    requires by { (negsuc 499 ≤ℤ by) × (by ≤ℤ pos 500) }
    ensures view { result ≡ view_in_range (pos view +ℤ by) }
{
    let moved = view as i32 + by as i32;
    if moved < 0 {
        0
    } else if moved > i32::from(MOST_VIEW) {
        MOST_VIEW
    } else {
        moved as u16
    }
}

/// The pane after a pane in a list, else the first.
fn pane_after(first: u8, pane: u8, list: &[(u8, Rect)]) -> u8
    ensures pane { result ≡ after first pane (map (λ x. x.0) list.now) }
{
    if list.len() < 2 {
        first
    } else if list[0].0 == pane {
        list[1].0
    } else {
        pane_after(first, pane, &list[1..])
    }
}

impl Layout {
    // Returns the layout of these parts: the one place that makes a layout.
    fn of(
        alloc: Global,
        rows: u16,
        cols: u16,
        tree: Tree,
        focus: u8,
        views: [u16; 10],
    ) -> Result<Layout, AllocError>
        requires plan { IsPlan (record { rows = rows; cols = cols; tree = shape_of tree; focus = focus; views = views }) }
        ensures layout { IfOk result (λ s. s ≡ record { rows = rows; cols = cols; tree = shape_of tree; focus = focus; views = views }) }
    {
        let mut rects = Vec::new(alloc);
        let mut borders = Vec::new(alloc);
        tree.place(area_of(rows, cols), &mut rects, &mut borders)?;
        Ok(Layout {
            rows,
            cols,
            tree,
            focus,
            views,
            rects,
            borders,
        })
    }

    /// One pane that fills all rows but the last; `BadSize` outside 4 to 200 rows or 8 to 500 columns.
    pub fn new(alloc: Global, rows: u16, cols: u16) -> Result<Layout, Fault>
        ensures start { IfOk result (λ s. s ≡ start rows cols) }
        ensures size { OnOk result (IsSessionSize rows cols) }
        ensures bad_size { IsErrOf result Fault.BadSize ↔ (¬ IsSessionSize rows cols) }
        ensures faults { IfErr result (λ fault. (fault ≡ Fault.BadSize) ⊎ (fault ≡ Fault.OutOfMemory)) }
    {
        if !is_session_size(rows, cols) {
            return Err(Fault::BadSize);
        }
        Ok(Layout::of(alloc, rows, cols, Tree::Leaf(1), 1, [0; 10])?)
    }

    /// Facts about every layout.
    pub fn facts(&self)
        ensures plan { IsPlan self.now }
    {
        let _ = &self.rows;
    }

    /// The panes with their rectangles, in tree order.
    pub fn rects(&self) -> &[(u8, Rect)]
        ensures rects { result.now ≡ panes self.now }
        ensures covers { Covers (panes self.now) (edges self.now) (area self.now.rows self.now.cols) }
    {
        &self.rects
    }

    /// The borders of its splits with their rectangles, in tree order.
    pub fn borders(&self) -> &[(Way, Rect)]
        ensures borders { result.now ≡ edges self.now }
        ensures covers { Covers (panes self.now) (edges self.now) (area self.now.rows self.now.cols) }
    {
        &self.borders
    }

    /// The session's rows, 4 to 200.
    pub fn rows(&self) -> u16
        ensures rows { result ≡ self.now.rows }
    {
        self.rows
    }

    /// The session's columns, 8 to 500.
    pub fn cols(&self) -> u16
        ensures cols { result ≡ self.now.cols }
    {
        self.cols
    }

    /// The number of the pane in focus, 1 to 9.
    pub fn focus(&self) -> u8
        ensures focus { result ≡ self.now.focus }
    {
        self.focus
    }

    /// Returns by how many rows a pane is scrolled back, 0 to 500, or `None` if there is no such pane.
    pub fn view(&self, pane: u8) -> Option<u16>
        ensures view { result ≡ (if has pane self.now.tree then Some (slice_index self.now.views pane) else None) }
    {
        if self.tree.has(pane) {
            Some(self.views[usize::from(pane)])
        } else {
            None
        }
    }

    /// The same layout in memory of its own.
    pub fn copy(&self, alloc: Global) -> Result<Layout, Fault>
        ensures same { IfOk result (λ s. s ≡ self.now) }
        ensures fault { IsOkUnless result Fault.OutOfMemory }
    {
        let tree = self.tree.copy(alloc)?;
        Ok(Layout::of(alloc, self.rows, self.cols, tree, self.focus, self.views)?)
    }

    fn split(&self, alloc: Global, way: Way) -> Result<Layout, Fault>
        ensures answer { Answers (split way self.now) result }
    {
        if self.rects().len() >= 9 {
            return Err(Fault::PanesFull);
        }
        if !self
            .tree
            .has_room(self.focus, way, area_of(self.rows, self.cols))
        {
            return Err(Fault::TooSmall);
        }
        let pane = self.tree.free();
        let fork = Tree::halves(alloc, way, self.focus, pane)?;
        let mut tree = self.tree.copy(alloc)?;
        tree.plant(self.focus, fork);
        let mut views = self.views;
        views[usize::from(pane)] = 0;
        Ok(Layout::of(alloc, self.rows, self.cols, tree, pane, views)?)
    }

    fn close(&self, alloc: Global) -> Result<Layout, Fault>
        ensures answer { Answers (close self.now) result }
    {
        if self.tree.is_one(self.focus) {
            return Err(Fault::LastPane);
        }
        let heir = self.tree.heir(self.focus);
        let mut tree = self.tree.copy(alloc)?;
        tree.close(self.focus);
        Ok(Layout::of(alloc, self.rows, self.cols, tree, heir, self.views)?)
    }

    fn focus_on(&self, alloc: Global, pane: u8) -> Result<Layout, Fault>
        ensures answer { Answers (focus_on pane self.now) result }
    {
        if !self.tree.has(pane) {
            return Err(Fault::NoPane);
        }
        let tree = self.tree.copy(alloc)?;
        Ok(Layout::of(alloc, self.rows, self.cols, tree, pane, self.views)?)
    }

    fn next(&self, alloc: Global) -> Result<Layout, Fault>
        ensures answer { Answers (next self.now) result }
    {
        let pane = pane_after(self.tree.first_leaf(), self.focus, &self.rects);
        let tree = self.tree.copy(alloc)?;
        Ok(Layout::of(alloc, self.rows, self.cols, tree, pane, self.views)?)
    }

    fn resize(&self, alloc: Global, rows: u16, cols: u16) -> Result<Layout, Fault>
        ensures answer { Answers (resize rows cols self.now) result }
    {
        if !is_session_size(rows, cols) {
            return Err(Fault::BadSize);
        }
        if self.tree.least_rows() > rows - 1 || self.tree.least_cols() > cols {
            return Err(Fault::TooSmall);
        }
        let tree = self.tree.copy(alloc)?;
        Ok(Layout::of(alloc, rows, cols, tree, self.focus, self.views)?)
    }

    fn scroll(&self, alloc: Global, by: i16) -> Result<Layout, Fault>
        requires by { (negsuc 499 ≤ℤ by) × (by ≤ℤ pos 500) }
        ensures answer { Answers (scroll by self.now) result }
    {
        let focus = usize::from(self.focus);
        let mut views = self.views;
        views[focus] = moved_view(self.views[focus], by);
        let tree = self.tree.copy(alloc)?;
        Ok(Layout::of(alloc, self.rows, self.cols, tree, self.focus, views)?)
    }

    fn grow(&self, alloc: Global, by: i16) -> Result<Layout, Fault>
        requires by { (negsuc 98 ≤ℤ by) × (by ≤ℤ pos 99) }
        ensures answer { Answers (grow by self.now) result }
    {
        if self.tree.is_one(self.focus) {
            return Err(Fault::LastPane);
        }
        let area = area_of(self.rows, self.cols);
        if !self.tree.can_grow(self.focus, by, area) {
            return Err(Fault::TooSmall);
        }
        let mut tree = self.tree.copy(alloc)?;
        let _grown = tree.grow(self.focus, by, area);
        Ok(Layout::of(alloc, self.rows, self.cols, tree, self.focus, self.views)?)
    }

    /// The layout after an act; it is refused as the act is, and `self` stays in either case.
    pub fn after(&self, alloc: Global, act: &Act) -> Result<Layout, Fault>
        requires in_range { IsInRange act.now }
        ensures answer { Answers (outcome_of self.now act.now) result }
    {
        match *act {
            Act::SplitRight => self.split(alloc, Way::Right),
            Act::SplitDown => self.split(alloc, Way::Down),
            Act::Close => self.close(alloc),
            Act::Focus(pane) => self.focus_on(alloc, pane),
            Act::Next => self.next(alloc),
            Act::Size(rows, cols) => self.resize(alloc, rows, cols),
            Act::View(by) => self.scroll(alloc, by),
            Act::Grow(by) => self.grow(alloc, by),
            Act::Key(_) => self.copy(alloc),
        }
    }

    /// Does an act, and returns the panes that it closed, made and resized. A refused act leaves the layout.
    pub fn apply(&mut self, alloc: Global, act: &Act) -> Result<Changes, Fault>
        requires in_range { IsInRange act.now }
        ensures laid { OnOk result (outcome_of self.old act.now ≡ Laid self.new) }
        ensures closed { IfOk result (λ changes. changes.closed ≡ first_of (panes_closed (panes self.old) (panes self.new))) }
        ensures made { IfOk result (λ changes. changes.made ≡ first_of (panes_made (panes self.old) (panes self.new))) }
        ensures sized { IfOk result (λ changes. changes.sized.items ≡ panes_sized (panes self.old) (panes self.new)) }
        ensures refused { IfErr result (λ fault. (fault ≡ Fault.OutOfMemory) ⊎ (outcome_of self.old act.now ≡ Refused fault)) }
        ensures memory { IsErrOf result Fault.OutOfMemory → IsLaid (outcome_of self.old act.now) }
        ensures err { OnErr result (self.new ≡ self.old) }
    {
        let next = self.after(alloc, act)?;
        let changes = Changes::between(alloc, self.rects(), next.rects())?;
        *self = next;
        Ok(changes)
    }

    /// Returns the rectangle of the pane in focus.
    pub(crate) fn focus_rect(&self) -> Rect
        ensures rect { result ≡ focus_rect self.now }
    {
        self.tree.spot(self.focus, area_of(self.rows, self.cols))
    }

    // The view of the pane in focus.
    fn focus_view(&self) -> u16
        ensures view { result ≡ slice_index self.now.views self.now.focus }
    {
        self.views[usize::from(self.focus)]
    }

    /// Returns the status text, cut or padded to the columns: each pane's number in tree order, the one in focus in brackets, and its view
    /// if that is above 0.
    pub fn status(&self, alloc: Global) -> Result<Vec<u8>, Fault>
        ensures text { IfOk result (λ text. text.items ≡ status_row self.now) }
        ensures printable { IfOk result (λ text. All IsPrintable text.items) }
        ensures fault { IsOkUnless result Fault.OutOfMemory }
    {
        let mut text = Vec::new(alloc);
        push_labels(&mut text, self.focus(), self.rects())?;
        push_view(&mut text, self.focus_view())?;
        fit(&mut text, self.cols)?;
        Ok(text)
    }
}
