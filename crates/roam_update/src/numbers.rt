//! The text of cells whose styles are said by their numbers in a table, and the table.

ghost use Rattle.std.specs.Prelude.{◌≡◌, ◌+◌, ◌-◌, ◌<◌, [], ◌++◌, length, map, IfOk, OnOk};
ghost use Rattle.byteorder.specs.Endian.{big_bytes};
ghost use Rattle.roam_cells.specs.Inks.{style_numbered};
ghost use Rattle.roam_update.specs.CellText.{cell_text};
ghost use Rattle.roam_update.specs.Numbers.{styles_in, AreNumbers, form_in, styles_of, form_with, form_over, cells_said};
ghost use Rattle.roam_update.specs.Styles.{Whole, Numbered, with_style, number_in};
ghost use Rattle.roam_update.specs.TableText.{colour_text, entry_text};

use crate::cell_text::{add_points, add_whole_cell, flags};
use byteorder::{BigEndian, ByteOrder};
use indexmap::IndexSet;
use roam_cells::{Cell, Colour, Style};
use std::alloc::{AllocError, Global};

/// The styles that cells have used, each once, in order of first use.
#[derive(Drop)]
pub struct Numbers {
    // True if cells spell their styles in full: then none of them has a number.
    pub(crate) whole: bool,
    // Their numbers as roam_cells gives them, so that they are looked up at once.
    pub(crate) keys: IndexSet<u64>,
    // Their text.
    pub(crate) table: Vec<u8>,
    // The last one and its place, since neighbours are mostly of one style.
    pub(crate) any: bool,
    pub(crate) last: u64,
    pub(crate) number: usize,
}

impl Numbers {
    /// No style has a number yet, and each that is used gets one. It takes no memory.
    pub fn new(alloc: Global) -> Numbers
        ensures none { form_in result ≡ Numbered [] 0 }
        ensures are { AreNumbers result }
    {
        Numbers::started(alloc, false)
    }

    /// Styles are said in full. It takes no memory.
    pub fn none(alloc: Global) -> Numbers
        ensures whole { form_in result ≡ Whole }
        ensures are { AreNumbers result }
    {
        Numbers::started(alloc, true)
    }

    fn started(alloc: Global, whole: bool) -> Numbers
        ensures whole { result.whole ≡ whole }
        ensures none { styles_in result ≡ [] }
        ensures are { AreNumbers result }
    {
        Numbers {
            whole,
            keys: IndexSet::new(alloc),
            table: Vec::new(alloc),
            any: false,
            last: 0,
            number: 0,
        }
    }
}

fn colour(colour: Colour) -> [u8; 4]
    ensures colour { result ≡ colour_text colour }
{
    match colour {
        Colour::Default => [0, 0, 0, 0],
        Colour::Index(index) => [1, 0, 0, index],
        Colour::Rgb(red, green, blue) => [2, red, green, blue],
    }
}

fn add_entry(table: &mut Vec<u8>, style: Style) -> Result<(), AllocError>
    ensures entry { OnOk result (table.new.items ≡ table.old.items ++ entry_text style) }
{
    table.push(flags(style))?;
    table.extend_from_slice(&colour(style.foreground))?;
    table.extend_from_slice(&colour(style.background))
}

// Returns the number of a cell's style, and adds the style to the table if it isn't there yet.
fn take_number(numbers: &mut Numbers, cell: &Cell) -> Result<usize, AllocError>
    requires are { AreNumbers numbers.old }
    ensures styles { OnOk result (styles_in numbers.new ≡ with_style (styles_in numbers.old) cell.now.style) }
    ensures number { IfOk result (λ number. number ≡ number_in (styles_in numbers.new) cell.now.style) }
    ensures are { OnOk result (AreNumbers numbers.new) }
    ensures kept { OnOk result (numbers.new.whole ≡ numbers.old.whole) }
{
    let key = cell.style_number();
    if numbers.any && numbers.last == key {
        return Ok(numbers.number);
    }
    let (number, added) = numbers.keys.insert_full(key)?;
    if added {
        add_entry(&mut numbers.table, cell.style())?;
    }
    numbers.any = true;
    numbers.last = key;
    numbers.number = number;
    Ok(number)
}

/// Adds the bytes of a number of three.
pub fn add_short_number(text: &mut Vec<u8>, number: usize) -> Result<(), AllocError>
    requires few { number < 0x1000000 }
    ensures number { OnOk result (text.new.items ≡ text.old.items ++ big_bytes 3 number) }
{
    let mut bytes = [0u8; 3];
    BigEndian::write_u24(&mut bytes, number as u32);
    text.extend_from_slice(&bytes)
}

// Adds the text of a cell that says its style by its number.
fn add_numbered_cell(
    text: &mut Vec<u8>,
    numbers: &mut Numbers,
    cell: &Cell,
) -> Result<(), AllocError>
    requires are { AreNumbers numbers.old }
    requires few { length (styles_in numbers.old) < 0x1000000 - 1 }
    ensures styles { OnOk result (styles_in numbers.new ≡ with_style (styles_in numbers.old) cell.now.style) }
    ensures cell { OnOk result (text.new.items ≡ text.old.items ++ cell_text (Numbered (styles_in numbers.new) 0) cell.now) }
    ensures are { OnOk result (AreNumbers numbers.new) }
    ensures kept { OnOk result (numbers.new.whole ≡ numbers.old.whole) }
{
    cell.facts();
    let number = take_number(numbers, cell)?;
    let points = cell.chars();
    text.push(points.len() as u8)?;
    add_short_number(text, number)?;
    add_points(text, points.as_slice())
}

// Adds the text of a cell.
fn add_cell(text: &mut Vec<u8>, numbers: &mut Numbers, cell: &Cell) -> Result<(), AllocError>
    requires are { AreNumbers numbers.old }
    requires few { length (styles_of (form_in numbers.old)) < 0x1000000 - 1 }
    ensures form { OnOk result (form_in numbers.new ≡ form_with (form_in numbers.old) cell.now.style) }
    ensures cell { OnOk result (text.new.items ≡ text.old.items ++ cell_text (form_in numbers.new) cell.now) }
    ensures are { OnOk result (AreNumbers numbers.new) }
{
    if numbers.whole {
        add_whole_cell(text, cell)?;
        return Ok(());
    }
    add_numbered_cell(text, numbers, cell)?;
    Ok(())
}

/// Adds the texts of cells.
pub fn add_cells(
    text: &mut Vec<u8>,
    numbers: &mut Numbers,
    cells: &[Cell],
) -> Result<(), AllocError>
    requires are { AreNumbers numbers.old }
    requires few { length (styles_of (form_in numbers.old)) + length cells.now < 0x1000000 - 1 }
    ensures form { OnOk result (form_in numbers.new ≡ form_over (form_in numbers.old) cells.now) }
    ensures cells { OnOk result (text.new.items ≡ text.old.items ++ cells_said (form_in numbers.old) cells.now) }
    ensures are { OnOk result (AreNumbers numbers.new) }
{
    for cell in cells {
        add_cell(text, numbers, cell)?;
    }
    Ok(())
}
