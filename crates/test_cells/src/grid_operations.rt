//! The operations on a grid, as text, with `, ` between them: a mnemonic with its numbers behind it (`max` is the largest), rows and
//! columns from 1. `text` types each character by itself, `run` printable ASCII at once. `bold`, `guard`, `insert` (IRM) and `wraps`
//! (DECAWM) are `on` or `off`; only `wraps` is on at first. `size` has rows, columns, and the number of rows that left at the top; `moves`
//! are all moves that stay between the margins, `mark` turns all marks on.
//!
//! It is text, since a table of text is proved at once, whatever its length.
use crate::words::{is_printable, number};
use roam_cells::{Cell, Extent, Style, width};
use roam_grid::{Grid, Writing};
use std::alloc::Global;

/// How characters are written.
#[derive(Clone, Copy)]
struct Pen {
    bold: bool,
    guard: bool,
    writing: Writing,
}

impl Pen {
    fn new() -> Pen {
        let writing = Writing {
            wraps: true,
            inserts: false,
        };
        Pen {
            bold: false,
            guard: false,
            writing,
        }
    }

    fn style(&self) -> Style {
        Style {
            bold: self.bold,
            ..Style::default()
        }
    }
}

fn type_character(grid: &mut Grid, pen: &Pen, c: char) {
    if width(c) == 0 {
        grid.join(c);
    } else if let Some(cell) = Cell::of(&[c], pen.style(), pen.guard) {
        if !cell.is_right_half() {
            grid.put(cell, pen.writing);
        }
    }
}

fn type_text(grid: &mut Grid, pen: &Pen, text: &str) -> bool {
    for c in text.chars() {
        type_character(grid, pen, c);
    }
    true
}

fn run_text(grid: &mut Grid, pen: &Pen, text: &str) -> bool {
    let bytes = text.as_bytes();
    if !is_printable(bytes) {
        return false;
    }
    grid.put_run(
        Cell::ascii(b' ', pen.style(), pen.guard),
        bytes,
        pen.writing,
    );
    true
}

pub fn pair(words: &str) -> Option<(usize, usize)> {
    let (first, second) = words.split_once(' ')?;
    Some((number(first)?, number(second)?))
}

fn extent(word: &str) -> Option<Extent> {
    match word {
        "all" => Some(Extent::All),
        "end" => Some(Extent::ToEnd),
        "start" => Some(Extent::ToStart),
        _ => None,
    }
}

// Each of these answers whether it knows the operation.

fn set_pen(pen: &mut Pen, operation: &str) -> bool {
    match operation {
        "bold on" => pen.bold = true,
        "bold off" => pen.bold = false,
        "guard on" => pen.guard = true,
        "guard off" => pen.guard = false,
        "insert on" => pen.writing.inserts = true,
        "insert off" => pen.writing.inserts = false,
        "wraps on" => pen.writing.wraps = true,
        "wraps off" => pen.writing.wraps = false,
        _ => return false,
    }
    true
}

// Every move that stays between the margins.
fn move_round(grid: &mut Grid) {
    grid.backspace();
    grid.carriage_return();
    grid.move_up(9999);
    grid.move_down(2);
    grid.move_right(9999);
    grid.move_left(1);
    grid.tab(1);
    grid.back_tab(1);
    grid.restore(1, 7, true);
    grid.clear_wrap();
}

fn start_line(grid: &mut Grid) {
    grid.carriage_return();
    grid.index();
}

fn follow(grid: &mut Grid, operation: &str) -> bool {
    match operation {
        "BS" => grid.backspace(),
        "IND" => grid.index(),
        "RI" => grid.reverse_index(),
        "NEL" => start_line(grid),
        "HTS" => grid.set_stop(),
        "TBC 0" => grid.clear_stop(),
        "TBC 3" => grid.clear_stops(),
        "moves" => move_round(grid),
        _ => return false,
    }
    true
}

fn change_all(grid: &mut Grid, operation: &str) -> bool {
    match operation {
        "DECALN" => grid.align(),
        "blank" => grid.blank_all(),
        "restart" => grid.restart(),
        "mark" => grid.mark_all(),
        _ => return false,
    }
    true
}

fn move_by(grid: &mut Grid, name: &str, n: usize) -> bool {
    match name {
        "CUU" => grid.move_up(n),
        "CUD" => grid.move_down(n),
        "CUF" => grid.move_right(n),
        "CUB" => grid.move_left(n),
        "CHT" => grid.tab(n),
        "CBT" => grid.back_tab(n),
        _ => return false,
    }
    true
}

fn edit(grid: &mut Grid, name: &str, n: usize) -> bool {
    match name {
        "ICH" => grid.insert_cells(n),
        "DCH" => grid.delete_cells(n),
        "ECH" => grid.erase_cells(n.max(1)),
        "IL" => grid.insert_lines(n),
        "DL" => grid.delete_lines(n),
        "SU" => grid.scroll_up(n),
        "SD" => grid.scroll_down(n),
        _ => return false,
    }
    true
}

fn erase(grid: &mut Grid, name: &str, extent: Extent) -> bool {
    match name {
        "ED" => grid.erase_in_page(extent),
        "EL" => grid.erase_in_line(extent),
        "DECSED" => grid.erase_selectively_in_page(extent),
        "DECSEL" => grid.erase_selectively_in_line(extent),
        _ => return false,
    }
    true
}

fn set_margins(grid: &mut Grid, top: usize, bottom: usize) {
    if 0 < top && top < bottom && bottom <= grid.rows() {
        grid.set_margins(top - 1, bottom - 1);
    }
}

fn place(grid: &mut Grid, name: &str, first: usize, second: usize) -> bool {
    match name {
        "CUP" => grid.move_to(first.saturating_sub(1), second.saturating_sub(1)),
        "DECSTBM" => set_margins(grid, first, second),
        _ => return false,
    }
    true
}

fn do_with(grid: &mut Grid, name: &str, rest: &str) -> bool {
    if let Some(extent) = extent(rest) {
        return erase(grid, name, extent);
    }
    if let Some((first, second)) = pair(rest) {
        return place(grid, name, first, second);
    }
    matches!(number(rest), Some(n) if move_by(grid, name, n) || edit(grid, name, n))
}

fn fit(alloc: Global, grid: &mut Grid, words: &str) -> bool {
    let (rows, rest) = words.split_once(' ').unwrap_or((words, ""));
    let (Some(rows), Some((cols, off))) = (number(rows), pair(rest)) else {
        return false;
    };
    match Grid::fit(alloc, rows, cols) {
        Ok(fitted) => grid.adopt(fitted, off),
        Err(_) => return false,
    }
    true
}

fn operate(alloc: Global, grid: &mut Grid, pen: &mut Pen, words: &str) -> bool {
    if set_pen(pen, words) || follow(grid, words) || change_all(grid, words) {
        return true;
    }
    let (name, rest) = words.split_once(' ').unwrap_or((words, ""));
    match name {
        "text" => type_text(grid, pen, rest),
        "run" => run_text(grid, pen, rest),
        "size" => fit(alloc, grid, rest),
        _ => do_with(grid, name, rest),
    }
}

/// Returns true if all operations are known, and does them up to the first unknown one. An empty text has none.
pub fn play(alloc: Global, grid: &mut Grid, operations: &str) -> bool {
    let mut pen = Pen::new();
    for words in operations.split(", ") {
        if !words.is_empty() && !operate(alloc, grid, &mut pen, words) {
            return false;
        }
    }
    true
}
