//! How cells say their styles in a text that is read: in full, or by their numbers in a table.

ghost use Rattle.std.specs.Prelude.{◌≡◌, ◌≤◌, ◌<◌, length};
ghost use Rattle.roam_update.specs.CellText.{whole_style, style_read, form_after, head_size};
ghost use Rattle.roam_update.specs.Styles.{Form, Whole, Numbered, style_in, is_used_up};

use crate::cell_text::{read_number, read_whole_style};
use roam_cells::Style;
use std::alloc::Global;
use std::marker::Model;

/// How the cells of a text say their styles, and how many styles of a table have been used.
#[derive(Drop)]
pub struct Spelling {
    numbered: bool,
    table: Vec<Style>,
    used: usize,
}

impl Model for Spelling {
    ghost use Rattle.std.specs.Prelude.{◌≤◌, if◌then◌else◌};
    ghost use Rattle.roam_update.specs.Styles.{Form, Whole, Numbered};

    ghost Value = { Form };

    ghost view = { λ s. if s.numbered then Numbered s.table.items s.used else Whole };

    ghost invariant = { λ s. s.used ≤ 0x1000000 };
}

// The style with a number: one that has been used, or the next.
#[tactic(auto, using(crate::proofs::Placed::style_steps))]
fn style_in(table: &[Style], used: usize, number: usize) -> Option<Style>
    ensures style { result ≡ style_in table.now used number }
{
    if used < number {
        return None;
    }
    if table.len() <= number {
        return None;
    }
    Some(table[number])
}

impl Spelling {
    /// Styles are said in full. It takes no memory.
    pub fn whole(alloc: Global) -> Spelling
        ensures whole { result ≡ Whole }
    {
        Spelling {
            numbered: false,
            table: Vec::new(alloc),
            used: 0,
        }
    }

    /// Styles are said by their numbers in a table, none of which has been used.
    pub fn by_table(table: Vec<Style>) -> Spelling
        ensures numbered { result ≡ Numbered table.items 0 }
    {
        Spelling {
            numbered: true,
            table,
            used: 0,
        }
    }

    /// Returns the number of a cell's bytes before its code points.
    pub fn head_size(&self) -> usize
        ensures size { result ≡ head_size self.now }
        ensures range { (4 ≤ result) × (result ≤ 6) }
    {
        if self.numbered { 4 } else { 6 }
    }

    /// The style of the cell at the front of a text.
    pub fn read_style(&self, text: &[u8]) -> Option<Style>
        requires long { head_size self.now ≤ length text.now }
        ensures style { result ≡ style_read self.now text.now }
    {
        if !self.numbered {
            return read_whole_style(text);
        }
        style_in(&self.table, self.used, read_number(text))
    }

    /// Goes past the cell at the front of a text.
    pub fn pass(&mut self, text: &[u8])
        requires long { head_size self.old ≤ length text.now }
        ensures passed { self.new ≡ form_after self.old text.now }
    {
        if self.numbered && self.used == read_number(text) {
            self.used += 1;
        }
    }

    /// Returns true if all styles of the table have been used.
    pub fn is_used_up(&self) -> bool
        ensures used { result ≡ is_used_up self.now }
    {
        !self.numbered || self.used == self.table.len()
    }
}
