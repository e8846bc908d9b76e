//! The tree of splits, whose leaves are panes.
ghost use Rattle.std.specs.Prelude.{◌≡◌, ◌+◌, ◌≤◌, ◌++◌, pos, negsuc, ◌≤ℤ◌, ◌+ℤ◌, ◌-ℤ◌, IfOk, OnOk, Some, None, is_some, if◌then◌else◌};
ghost use Rattle.roam_layout.specs.Rects.{first_length, first_part, second_part, border_part, length_along, nearest_in_range, middle, rects_of, borders, spot, is_roomy, after_growth, after_stretch, Fits, IsOnScreen};
ghost use Rattle.roam_layout.specs.Trees.{One, Two, shape_of, least, least_rows, least_cols, has, is_one, first_leaf, with_subtree, without_pane, heir, free, free_among, IsModest, AreModest};

use crate::rects::{Rect, Way};
use std::alloc::{AllocError, Global};
use std::mem;

/// A pane, or a split.
#[cycle(tree)]
#[derive(Drop)]
pub enum Tree {
    Leaf(u8),
    Fork(Box<Split>),
}

/// Two trees beside or below one another, and how far the border is shifted from the middle.
#[cycle(tree)]
#[derive(Drop)]
pub struct Split {
    pub way: Way,
    pub shift: i16,
    pub first: Tree,
    pub second: Tree,
}

/// The rectangles of a split's children and of the border between them.
#[derive(Clone, Copy)]
pub struct Parts {
    pub first: Rect,
    pub border: Rect,
    pub second: Rect,
}

/// The first child's length in a split of this length: the middle and the shift, pushed into low to high.
fn first_of(whole: u16, shift: i16, low: u16, high: u16) -> u16
    requires whole { (1 ≤ whole) × (whole ≤ 500) }
    requires range { (low ≤ high) × (high ≤ 500) }
    requires modest { IsModest shift }
    ensures length { result ≡ nearest_in_range (pos (middle whole) +ℤ shift) low high }
{
    let aim = ((whole - 1) / 2) as i16 + shift;
    if aim < low as i16 {
        low
    } else if aim > high as i16 {
        high
    } else {
        aim as u16
    }
}

impl Split {
    /// The first child's length.
    fn first_length(&self, rect: Rect) -> u16
        requires fits { Fits (Two self.now.way self.now.shift (shape_of self.now.first) (shape_of self.now.second)) rect }
        requires limits { IsOnScreen rect }
        requires modest { IsModest self.now.shift }
        ensures length { result ≡ first_length self.now.way self.now.shift (shape_of self.now.first) (shape_of self.now.second) rect }
        ensures low { least self.now.way (shape_of self.now.first) ≤ result }
        ensures high { result + 1 + least self.now.way (shape_of self.now.second) ≤ length_along self.now.way rect }
    {
        let whole = rect.length_along(self.way);
        let high = whole - 1 - self.second.least(self.way);
        first_of(whole, self.shift, self.first.least(self.way), high)
    }

    /// Sets the shift so that the first child has the wanted length, and returns true if the children's least lengths allow it.
    fn stretch(&mut self, wanted: i16, rect: Rect) -> bool
        requires fits { Fits (Two self.now.way self.now.shift (shape_of self.now.first) (shape_of self.now.second)) rect }
        requires limits { IsOnScreen rect }
        ensures stretched { after_stretch self.old.way wanted (shape_of self.old.first) (shape_of self.old.second) rect
            ≡ (if result then Some (Two self.new.way self.new.shift (shape_of self.new.first) (shape_of self.new.second)) else None) }
    {
        let whole = rect.length_along(self.way);
        let low = self.first.least(self.way);
        let high = whole - 1 - self.second.least(self.way);
        if wanted < low as i16 || wanted > high as i16 {
            return false;
        }
        self.shift = wanted - ((whole - 1) / 2) as i16;
        true
    }

    /// Returns true if the children's least lengths allow the first child this length.
    fn can_stretch(&self, wanted: i16, rect: Rect) -> bool
        requires fits { Fits (Two self.now.way self.now.shift (shape_of self.now.first) (shape_of self.now.second)) rect }
        requires limits { IsOnScreen rect }
        ensures stretched { is_some (after_stretch self.now.way wanted (shape_of self.now.first) (shape_of self.now.second) rect) ≡ result }
    {
        let low = self.first.least(self.way);
        let high = rect.length_along(self.way) - 1 - self.second.least(self.way);
        low as i16 <= wanted && wanted <= high as i16
    }

    // Returns true if the children's least lengths allow that the first child is so much longer.
    fn can_lengthen(&self, by: i16, rect: Rect) -> bool
        requires fits { Fits (Two self.now.way self.now.shift (shape_of self.now.first) (shape_of self.now.second)) rect }
        requires limits { IsOnScreen rect }
        requires modest { IsModest self.now.shift }
        requires by { (negsuc 98 ≤ℤ by) × (by ≤ℤ pos 99) }
        ensures stretched { is_some (after_stretch self.now.way
            (pos (first_length self.now.way self.now.shift (shape_of self.now.first) (shape_of self.now.second) rect) +ℤ by)
            (shape_of self.now.first) (shape_of self.now.second) rect) ≡ result }
    {
        let length = self.first_length(rect) as i16;
        self.can_stretch(length + by, rect)
    }

    // Returns true if the children's least lengths allow that the first child is so much shorter.
    fn can_shorten(&self, by: i16, rect: Rect) -> bool
        requires fits { Fits (Two self.now.way self.now.shift (shape_of self.now.first) (shape_of self.now.second)) rect }
        requires limits { IsOnScreen rect }
        requires modest { IsModest self.now.shift }
        requires by { (negsuc 98 ≤ℤ by) × (by ≤ℤ pos 99) }
        ensures stretched { is_some (after_stretch self.now.way
            (pos (first_length self.now.way self.now.shift (shape_of self.now.first) (shape_of self.now.second) rect) -ℤ by)
            (shape_of self.now.first) (shape_of self.now.second) rect) ≡ result }
    {
        let length = self.first_length(rect) as i16;
        self.can_stretch(length - by, rect)
    }

    /// The rectangles of its children and its border.
    fn parts(&self, rect: Rect) -> Parts
        requires fits { Fits (Two self.now.way self.now.shift (shape_of self.now.first) (shape_of self.now.second)) rect }
        requires limits { IsOnScreen rect }
        requires modest { IsModest self.now.shift }
        ensures first { result.first ≡ first_part self.now.way self.now.shift (shape_of self.now.first) (shape_of self.now.second) rect }
        ensures border { result.border ≡ border_part self.now.way self.now.shift (shape_of self.now.first) (shape_of self.now.second) rect }
        ensures second { result.second ≡ second_part self.now.way self.now.shift (shape_of self.now.first) (shape_of self.now.second) rect }
        ensures first_fits { Fits (shape_of self.now.first) result.first }
        ensures second_fits { Fits (shape_of self.now.second) result.second }
        ensures first_limits { IsOnScreen result.first }
        ensures second_limits { IsOnScreen result.second }
    {
        let length = self.first_length(rect);
        match self.way {
            Way::Right => Parts {
                first: Rect {
                    cols: length,
                    ..rect
                },
                border: Rect {
                    col: rect.col + length,
                    cols: 1,
                    ..rect
                },
                second: Rect {
                    col: rect.col + (length + 1),
                    cols: rect.cols - length - 1,
                    ..rect
                },
            },
            Way::Down => Parts {
                first: Rect {
                    rows: length,
                    ..rect
                },
                border: Rect {
                    row: rect.row + length,
                    rows: 1,
                    ..rect
                },
                second: Rect {
                    row: rect.row + (length + 1),
                    rows: rect.rows - length - 1,
                    ..rect
                },
            },
        }
    }
}

impl Tree {
    /// Two panes beside or below one another.
    pub fn halves(alloc: Global, way: Way, first: u8, second: u8) -> Result<Tree, AllocError>
        ensures shape { IfOk result (λ t. shape_of t ≡ Two way (pos 0) (One first) (One second)) }
    {
        let split = Split {
            way,
            shift: 0,
            first: Tree::Leaf(first),
            second: Tree::Leaf(second),
        };
        Ok(Tree::Fork(Box::new(alloc, split)?))
    }

    /// The least number of rows that it can have.
    pub fn least_rows(&self) -> u16
        requires limit { least_rows (shape_of self.now) ≤ 500 }
        ensures rows { result ≡ least_rows (shape_of self.now) }
    {
        match self {
            Tree::Leaf(_) => 2,
            Tree::Fork(split) => match split.way {
                Way::Right => split.first.least_rows().max(split.second.least_rows()),
                Way::Down => split.first.least_rows() + split.second.least_rows() + 1,
            },
        }
    }

    /// The least number of columns that it can have.
    pub fn least_cols(&self) -> u16
        requires limit { least_cols (shape_of self.now) ≤ 500 }
        ensures cols { result ≡ least_cols (shape_of self.now) }
    {
        match self {
            Tree::Leaf(_) => 4,
            Tree::Fork(split) => match split.way {
                Way::Right => split.first.least_cols() + split.second.least_cols() + 1,
                Way::Down => split.first.least_cols().max(split.second.least_cols()),
            },
        }
    }

    /// The least length along a way.
    pub fn least(&self, way: Way) -> u16
        requires limit { least way (shape_of self.now) ≤ 500 }
        ensures length { result ≡ least way (shape_of self.now) }
    {
        match way {
            Way::Right => self.least_cols(),
            Way::Down => self.least_rows(),
        }
    }

    /// Returns true if a pane is in it.
    pub fn has(&self, pane: u8) -> bool
        ensures has { result ≡ has pane (shape_of self.now) }
    {
        match self {
            Tree::Leaf(p) => *p == pane,
            Tree::Fork(split) => split.first.has(pane) || split.second.has(pane),
        }
    }

    /// Returns the smallest number from 1 on that no pane has; 9 if 1 to 8 are panes.
    pub fn free(&self) -> u8
        ensures number { result ≡ free (shape_of self.now) }
        ensures range { (1 ≤ result) × (result ≤ 9) }
    {
        self.free_among(8, 1)
    }

    fn free_among(&self, more: u8, pane: u8) -> u8
        requires limit { pane + more ≤ 9 }
        ensures number { result ≡ free_among more pane (shape_of self.now) }
        ensures range { (pane ≤ result) × (result ≤ pane + more) }
    {
        if more > 0 && self.has(pane) {
            self.free_among(more - 1, pane + 1)
        } else {
            pane
        }
    }

    /// Returns true if it is this pane alone.
    pub fn is_one(&self, pane: u8) -> bool
        ensures one { result ≡ is_one pane (shape_of self.now) }
    {
        match self {
            Tree::Leaf(p) => *p == pane,
            Tree::Fork(_) => false,
        }
    }

    /// Its first pane.
    pub fn first_leaf(&self) -> u8
        ensures pane { result ≡ first_leaf (shape_of self.now) }
    {
        match self {
            Tree::Leaf(p) => *p,
            Tree::Fork(split) => split.first.first_leaf(),
        }
    }

    /// Returns the pane that gets the focus when a pane is closed: the first one of its sibling.
    pub fn heir(&self, pane: u8) -> u8
        ensures pane { result ≡ heir pane (shape_of self.now) }
    {
        match self {
            Tree::Leaf(p) => *p,
            Tree::Fork(split) => {
                if split.first.is_one(pane) {
                    split.second.first_leaf()
                } else if split.second.is_one(pane) {
                    split.first.first_leaf()
                } else if split.first.has(pane) {
                    split.first.heir(pane)
                } else {
                    split.second.heir(pane)
                }
            }
        }
    }

    /// The same tree in memory of its own.
    pub fn copy(&self, alloc: Global) -> Result<Tree, AllocError>
        ensures shape { IfOk result (λ t. shape_of t ≡ shape_of self.now) }
    {
        match self {
            Tree::Leaf(p) => Ok(Tree::Leaf(*p)),
            Tree::Fork(split) => {
                let first = split.first.copy(alloc)?;
                let second = split.second.copy(alloc)?;
                let copied = Box::new(
                    alloc,
                    Split {
                        way: split.way,
                        shift: split.shift,
                        first,
                        second,
                    },
                )?;
                Ok(Tree::Fork(copied))
            }
        }
    }

    /// Puts another tree in the place of a pane.
    pub fn plant(&mut self, pane: u8, other: Tree)
        ensures shape { shape_of self.new ≡ with_subtree pane (shape_of other) (shape_of self.old) }
    {
        match self {
            Tree::Leaf(p) => {
                if *p == pane {
                    *self = other;
                }
            }
            Tree::Fork(split) => {
                if split.first.has(pane) {
                    split.first.plant(pane, other);
                } else {
                    split.second.plant(pane, other);
                }
            }
        }
    }

    /// Closes a pane of a split: its sibling takes the split's place.
    pub fn close(&mut self, pane: u8)
        ensures shape { shape_of self.new ≡ without_pane pane (shape_of self.old) }
    {
        if let Tree::Fork(split) = self {
            if split.first.is_one(pane) {
                let rest = mem::replace(&mut split.second, Tree::Leaf(0));
                *self = rest;
            } else if split.second.is_one(pane) {
                let rest = mem::replace(&mut split.first, Tree::Leaf(0));
                *self = rest;
            } else if split.first.has(pane) {
                split.first.close(pane);
            } else {
                split.second.close(pane);
            }
        }
    }

    /// Adds the panes and the borders with their rectangles, in tree order.
    pub fn place(
        &self,
        rect: Rect,
        panes: &mut Vec<(u8, Rect)>,
        edges: &mut Vec<(Way, Rect)>,
    ) -> Result<(), AllocError>
        requires fits { Fits (shape_of self.now) rect }
        requires limits { IsOnScreen rect }
        requires modest { AreModest (shape_of self.now) }
        ensures panes { OnOk result (panes.new.items ≡ panes.old.items ++ rects_of (shape_of self.now) rect) }
        ensures borders { OnOk result (edges.new.items ≡ edges.old.items ++ borders (shape_of self.now) rect) }
    {
        match self {
            Tree::Leaf(pane) => panes.push((*pane, rect))?,
            Tree::Fork(split) => {
                let parts = split.parts(rect);
                split.first.place(parts.first, panes, edges)?;
                edges.push((split.way, parts.border))?;
                split.second.place(parts.second, panes, edges)?;
            }
        }
        Ok(())
    }

    /// The rectangle of a pane.
    pub fn spot(&self, pane: u8, rect: Rect) -> Rect
        requires fits { Fits (shape_of self.now) rect }
        requires limits { IsOnScreen rect }
        requires modest { AreModest (shape_of self.now) }
        ensures rect { result ≡ spot pane (shape_of self.now) rect }
    {
        match self {
            Tree::Leaf(_) => rect,
            Tree::Fork(split) => {
                let parts = split.parts(rect);
                if split.first.has(pane) {
                    split.first.spot(pane, parts.first)
                } else {
                    split.second.spot(pane, parts.second)
                }
            }
        }
    }

    /// Returns true if a pane's rectangle can be split.
    pub fn has_room(&self, pane: u8, way: Way, rect: Rect) -> bool
        requires fits { Fits (shape_of self.now) rect }
        requires limits { IsOnScreen rect }
        requires modest { AreModest (shape_of self.now) }
        ensures room { result ≡ is_roomy way (spot pane (shape_of self.now) rect) }
    {
        let spot = self.spot(pane, rect);
        match way {
            Way::Right => spot.cols >= 9,
            Way::Down => spot.rows >= 5,
        }
    }

    /// Returns true if the lengths allow that a pane grows along its own split.
    pub fn can_grow(&self, pane: u8, by: i16, rect: Rect) -> bool
        requires fits { Fits (shape_of self.now) rect }
        requires limits { IsOnScreen rect }
        requires modest { AreModest (shape_of self.now) }
        requires by { (negsuc 98 ≤ℤ by) × (by ≤ℤ pos 99) }
        ensures grown { is_some (after_growth pane by (shape_of self.now) rect) ≡ result }
    {
        match self {
            Tree::Leaf(_) => false,
            Tree::Fork(split) => {
                let parts = split.parts(rect);
                if split.first.is_one(pane) {
                    split.can_lengthen(by, rect)
                } else if split.second.is_one(pane) {
                    split.can_shorten(by, rect)
                } else if split.first.has(pane) {
                    split.first.can_grow(pane, by, parts.first)
                } else {
                    split.second.can_grow(pane, by, parts.second)
                }
            }
        }
    }

    /// Lets a pane grow along its own split, and returns true if the lengths allow it; if they don't, the tree stays.
    pub fn grow(&mut self, pane: u8, by: i16, rect: Rect) -> bool
        requires fits { Fits (shape_of self.now) rect }
        requires limits { IsOnScreen rect }
        requires modest { AreModest (shape_of self.now) }
        requires by { (negsuc 98 ≤ℤ by) × (by ≤ℤ pos 99) }
        ensures grown { after_growth pane by (shape_of self.old) rect ≡ (if result then Some (shape_of self.new) else None) }
    {
        match self {
            Tree::Leaf(_) => false,
            Tree::Fork(split) => {
                let parts = split.parts(rect);
                let length = split.first_length(rect) as i16;
                if split.first.is_one(pane) {
                    split.stretch(length + by, rect)
                } else if split.second.is_one(pane) {
                    split.stretch(length - by, rect)
                } else if split.first.has(pane) {
                    split.first.grow(pane, by, parts.first)
                } else {
                    split.second.grow(pane, by, parts.second)
                }
            }
        }
    }
}
