//! Cells, widths, screens and their refusals.
ghost use Rattle.std.specs.Prelude.{◌≡◌, IfSome};

use roam_cells::columns::is_joiner;
use roam_cells::limits::is_size;
use roam_cells::*;
use roam_screens::*;
use std::alloc::{AllocError, Global};
use std::test::*;

// Lines of cells. `fault` has the text of a refusal; `width` a character, its columns, and its effect (`unicode_width` gives U+17D8 three
// columns); `cell` code points, and the cell that they make in a style and with a guard, or none.
const LINES: &str = "\
fault out of memory
fault bad size
fault too small
fault no such pane
fault too many panes
fault only one pane
fault queue is full
fault too long
fault bad datagram
fault other session
fault other client
fault too many clients
fault bad change
fault too many states
fault numbers spent
fault bad act
fault only watching
width A 1 stands
width \u{4E2D} 2 stands
width \u{301} 0 joins
width \u{200B} 0 joins
width \x07 0 stands
width \u{AD} 0 joins
width \u{1F600} 2 stands
width \u{FE0F} 0 joins
width \u{17D8} 2 stands
cell |none
cell a|narrow
cell a\u{301}|narrow
cell a\u{301}\u{301}|narrow
cell a\u{301}\u{301}\u{301}|none
cell \u{4E2D}|wide
cell \u{4E2D}\u{301}|wide
cell ab|none
cell \u{301}|none
cell \x07|none
cell a\x07|none";

fn fault_of_a_screen(text: &str) -> Option<Fault> {
    match text {
        "out of memory" => Some(Fault::OutOfMemory),
        "bad size" => Some(Fault::BadSize),
        "too small" => Some(Fault::TooSmall),
        "no such pane" => Some(Fault::NoPane),
        "too many panes" => Some(Fault::PanesFull),
        "only one pane" => Some(Fault::LastPane),
        "queue is full" => Some(Fault::Busy),
        "too long" => Some(Fault::TooLong),
        _ => None,
    }
}

fn fault_of_a_link(text: &str) -> Option<Fault> {
    match text {
        "bad datagram" => Some(Fault::BadDatagram(Reason::Fragment)),
        "other session" => Some(Fault::OtherSession),
        "other client" => Some(Fault::OtherClient),
        "too many clients" => Some(Fault::ClientsFull),
        "bad change" => Some(Fault::BadChange),
        "too many states" => Some(Fault::SendFull),
        "numbers spent" => Some(Fault::Spent),
        "bad act" => Some(Fault::BadAct),
        "only watching" => Some(Fault::Watching),
        _ => None,
    }
}

// Returns the text of the fault with this name; `None` if no fault has it.
fn fault_text(alloc: Global, name: &str) -> Result<Option<String>, AllocError> {
    match fault_of_a_screen(name).or(fault_of_a_link(name)) {
        Some(fault) => Ok(Some(fault.to_string(alloc)?)),
        None => Ok(None),
    }
}

// Returns a line with the width and the effect that its character has; `None` if it has no character.
fn width_text(alloc: Global, line: &str) -> Result<Option<String>, AllocError> {
    let (text, _) = line.split_once(' ').unwrap_or((line, ""));
    let Some(c) = text.chars().next() else {
        return Ok(None);
    };
    let effect = if is_joiner(c) { "joins" } else { "stands" };
    Ok(Some(format!(in alloc; "{text} {} {effect}", width(c))?))
}

fn bold() -> Style {
    let mut style = Style::default();
    style.bold = true;
    style
}

// Returns the kind of cell of code points, or `changed` if it does not keep them, its style and its guard.
fn kind_made(points: &[char]) -> &'static str {
    let Some(cell) = Cell::of(points, bold(), true) else {
        return "none";
    };
    if cell.chars().as_slice() != points
        || cell.style() != bold()
        || !cell.guard()
        || cell.is_right_half()
    {
        return "changed";
    }
    match (cell.is_narrow(), cell.is_wide()) {
        (true, false) => "narrow",
        (false, true) => "wide",
        (true, true) => "narrow and wide",
        (false, false) => "neither narrow nor wide",
    }
}

fn points_of(alloc: Global, text: &str) -> Result<Vec<char>, AllocError> {
    let mut points = Vec::new(alloc);
    for c in text.chars() {
        points.push(c)?;
    }
    Ok(points)
}

// Returns a line with the kind of cell that its code points make; `None` if it has no kind.
fn cell_text(alloc: Global, line: &str) -> Result<Option<String>, AllocError> {
    let Some((text, _)) = line.split_once('|') else {
        return Ok(None);
    };
    let points = points_of(alloc, text)?;
    Ok(Some(format!(in alloc; "{text}|{}", kind_made(&points))?))
}

// Returns what follows the word of a line, with the result that the calls give; `None` if the line is malformed.
fn found_of(alloc: Global, word: &str, rest: &str) -> Result<Option<String>, AllocError> {
    match word {
        "fault" => fault_text(alloc, rest),
        "width" => width_text(alloc, rest),
        "cell" => cell_text(alloc, rest),
        _ => Ok(None),
    }
}

#[test]
fn faults_widths_and_cells(rt: HostRuntime) -> Result<(), Fail> {
    for (number, line) in LINES.lines().enumerate() {
        let (word, wanted) = line.split_once(' ').unwrap_or((line, ""));
        match found_of(rt.alloc(), word, wanted)? {
            Some(found) => assert_eq!(rt; found.as_str(), wanted, "case {number}, {word}"),
            None => panic!(rt; "malformed case {number}: {line:?}"),
        }
    }
    Ok(())
}

// A claim about cells, the value found, and the expected one.
type Claim = (&'static str, bool, bool);

fn spaces_of_halves() -> [Claim; 4] {
    let half = Cell::right_half(bold(), true);
    let space = half.space_in();
    let bold_space = Cell::ascii(b' ', bold(), true);
    [
        ("a right half is one", half.is_right_half(), true),
        ("it has no code point", half.chars().len() == 0, true),
        (
            "its space is in its style",
            space.is_same(&bold_space),
            true,
        ),
        ("its space is blank", space.is_same(&Cell::blank()), false),
    ]
}

fn characters_of_cells() -> [Claim; 6] {
    let half = Cell::right_half(bold(), true);
    let mut cell = half;
    cell.set_ascii(b'~');
    let plain = cell.unguarded();
    let guarded_tilde = Cell::ascii(b'~', bold(), true);
    let tilde = Cell::ascii(b'~', bold(), false);
    [
        (
            "a set character is read",
            cell.chars().first() == Some(&'~'),
            true,
        ),
        (
            "unguarded, it is the same",
            cell.chars() == plain.chars(),
            true,
        ),
        (
            "it is that of the half",
            cell.chars() == half.chars(),
            false,
        ),
        (
            "the cell keeps its guard",
            cell.is_same(&guarded_tilde),
            true,
        ),
        ("unguarded, it has none", plain.is_same(&tilde), true),
        ("unguarded, it is the cell", plain.is_same(&cell), false),
    ]
}

fn styles_and_colours() -> [Claim; 5] {
    let three = Colour::Index(3);
    let zero = Colour::Index(0);
    [
        ("bold is bold", bold().is_same(bold()), true),
        (
            "bold is the default",
            bold().is_same(Style::default()),
            false,
        ),
        (
            "colour 3 is colour 3",
            three.is_same(Colour::Index(3)),
            true,
        ),
        (
            "colour 3 is colour 4",
            three.is_same(Colour::Index(4)),
            false,
        ),
        (
            "colour 0 is the default",
            zero.is_same(Colour::Default),
            false,
        ),
    ]
}

fn wide() -> Cell {
    match Cell::of(&['\u{4E2D}'], Style::default(), false) {
        Some(cell) => cell,
        None => Cell::blank(),
    }
}

fn well_formed_blanks() -> [Claim; 6] {
    let s = Cell::blank();
    let all = [s, s, s, s];
    [
        ("no cells, 4 columns", is_well_formed(&[], 4), true),
        ("4 blanks, 4 columns", is_well_formed(&all, 4), true),
        ("4 blanks, 2 columns", is_well_formed(&all, 2), true),
        ("4 blanks, no columns", is_well_formed(&all, 0), false),
        ("no cells, no columns", is_well_formed(&[], 0), false),
        ("4 blanks, 3 columns", is_well_formed(&all, 3), false),
    ]
}

fn well_formed_halves() -> [Claim; 7] {
    let s = Cell::blank();
    let w = wide();
    let r = Cell::right_half(Style::default(), false);
    [
        ("a pair", is_well_formed(&[s, w, r, s], 4), true),
        ("two pairs", is_well_formed(&[w, r, w, r], 4), true),
        (
            "a right half first",
            is_well_formed(&[r, s, s, s], 4),
            false,
        ),
        ("a lone right half", is_well_formed(&[s, r, s, s], 4), false),
        ("a lone left half", is_well_formed(&[w, s, s, s], 4), false),
        ("a left half last", is_well_formed(&[s, s, s, w], 4), false),
        ("two right halves", is_well_formed(&[w, r, r, s], 4), false),
    ]
}

// A wide character in the last column of 4, its right half in the next row.
fn halves_in_rows() -> [Claim; 2] {
    let s = Cell::blank();
    let r = Cell::right_half(Style::default(), false);
    let cells = [s, s, s, wide(), r, s, s, s];
    [
        ("a pair in 8 columns", is_well_formed(&cells, 8), true),
        ("a pair over 4 columns", is_well_formed(&cells, 4), false),
    ]
}

fn inks_and_guards() -> [Claim; 4] {
    let s = Cell::blank();
    let w = wide();
    let r = Cell::right_half(Style::default(), false);
    let guarded = Cell::right_half(Style::default(), true);
    let styled = Cell::right_half(bold(), false);
    [
        (
            "halves of two styles",
            is_well_formed(&[w, styled, s, s], 4),
            false,
        ),
        (
            "one half guarded",
            is_well_formed(&[w, guarded, s, s], 4),
            false,
        ),
        ("no guard", are_unguarded(&[s, w, r]), true),
        ("a guard", are_unguarded(&[s, w, guarded]), false),
    ]
}

// Cells that are made from cells.
#[test]
fn cells_from_cells(rt: HostRuntime) {
    for (claim, found, wanted) in spaces_of_halves() {
        assert_eq!(rt; found, wanted, "{claim}");
    }
    for (claim, found, wanted) in characters_of_cells() {
        assert_eq!(rt; found, wanted, "{claim}");
    }
    for (claim, found, wanted) in styles_and_colours() {
        assert_eq!(rt; found, wanted, "{claim}");
    }
}

// Lists of cells.
#[test]
fn well_formed_cells(rt: HostRuntime) {
    for (claim, found, wanted) in well_formed_blanks() {
        assert_eq!(rt; found, wanted, "{claim}");
    }
    for (claim, found, wanted) in well_formed_halves() {
        assert_eq!(rt; found, wanted, "{claim}");
    }
    for (claim, found, wanted) in halves_in_rows() {
        assert_eq!(rt; found, wanted, "{claim}");
    }
    for (claim, found, wanted) in inks_and_guards() {
        assert_eq!(rt; found, wanted, "{claim}");
    }
}

static SIZES: [(u16, u16, bool); 8] = [
    (2, 4, true),
    (200, 500, true),
    (1, 8, false),
    (201, 8, false),
    (2, 3, false),
    (2, 501, false),
    (0, 0, false),
    (65_535, 65_535, false),
];

// Returns the rows, the columns and the number of cells of a blank screen, or its refusal.
fn blank_size(alloc: Global, rows: u16, cols: u16) -> Result<(u16, u16, usize), Fault> {
    let shot = Shot::blank(alloc, rows, cols)?;
    Ok((shot.rows(), shot.cols(), shot.cells().len()))
}

#[test]
fn sizes_of_a_blank_screen(rt: HostRuntime) {
    for (rows, cols, fits) in SIZES.iter() {
        let wanted = if *fits {
            Ok((*rows, *cols, *rows as usize * *cols as usize))
        } else {
            Err(Fault::BadSize)
        };
        assert_eq!(rt; is_size(*rows, *cols), *fits, "{rows} by {cols}");
        assert_eq!(rt;
            blank_size(rt.alloc(), *rows, *cols),
            wanted,
            "{rows} by {cols}"
        );
    }
}

// Returns the screen of 2 by 8 with these cells; `None` if they make none.
fn screen_of(cells: Vec<Cell>) -> Option<Shot>
    ensures cells { IfSome result (λ shot. shot.cells ≡ cells.items) }
{
    if cells.len() != 16 || !is_well_formed(&cells, 8) || !are_unguarded(&cells) {
        return None;
    }
    Some(Shot::new(2, 8, cells, (1, 6), false))
}

// The screen of 2 by 8 that begins with these cells, or a blank one.
fn screen_from(alloc: Global, front: &[Cell]) -> Result<Shot, Fault> {
    let mut cells = Vec::new(alloc);
    cells.extend_from_slice(front)?;
    for _ in front.len()..16 {
        cells.push(Cell::blank())?;
    }
    match screen_of(cells) {
        Some(shot) => Ok(shot),
        None => Shot::blank(alloc, 2, 8),
    }
}

fn sample(alloc: Global) -> Result<Shot, Fault> {
    let half = Cell::right_half(Style::default(), false);
    let a = Cell::ascii(b'a', bold(), false);
    screen_from(alloc, &[wide(), half, a, wide(), half])
}

fn has_row(alloc: Global, shot: &Shot, row: u16, wanted: &[char]) -> Result<bool, Fault> {
    if shot.rows() <= row {
        return Ok(false);
    }
    let text = shot.row_text(alloc, row)?;
    Ok(text.as_slice() == wanted)
}

// Returns true if the rows are those of the sample.
fn has_rows(alloc: Global, shot: &Shot) -> Result<bool, Fault> {
    let first = has_row(
        alloc,
        shot,
        0,
        &['\u{4E2D}', 'a', '\u{4E2D}', ' ', ' ', ' '],
    )?;
    Ok(first && has_row(alloc, shot, 1, &[' '; 8])?)
}

// Returns true if a copy is the same screen, and a blank one isn't.
fn is_copied(alloc: Global, shot: &Shot) -> Result<bool, Fault> {
    let copy = shot.copy(alloc)?;
    Ok(copy.is_same(shot) && !is_blank(alloc, shot)?)
}

fn is_blank(alloc: Global, shot: &Shot) -> Result<bool, Fault> {
    let blank = Shot::blank(alloc, 2, 8)?;
    Ok(blank.is_same(shot))
}

fn is_lone_half_blank(alloc: Global) -> Result<bool, Fault> {
    let half = Cell::right_half(Style::default(), false);
    let shot = screen_from(alloc, &[half])?;
    is_blank(alloc, &shot)
}

fn is_wider_blank(alloc: Global) -> Result<bool, Fault> {
    let wider = Shot::blank(alloc, 2, 9)?;
    is_blank(alloc, &wider)
}

static OUTSIDE: [(u16, u16); 5] = [(0, 1), (1, 0), (3, 1), (1, 9), (65_535, 65_535)];

static INSIDE: [(u16, u16, char); 6] = [
    (1, 1, '\u{4E2D}'),
    (1, 3, 'a'),
    (1, 6, ' '),
    (1, 8, ' '),
    (2, 1, ' '),
    (2, 8, ' '),
];

fn has_at(shot: &Shot, row: u16, col: u16, c: char) -> bool {
    match shot.at(row, col) {
        Some(cell) => cell.chars().as_slice() == [c].as_slice(),
        None => false,
    }
}

fn has_places(shot: &Shot) -> bool {
    let half = match shot.at(1, 2) {
        Some(cell) => cell.is_right_half(),
        None => false,
    };
    let none = OUTSIDE
        .iter()
        .all(|(row, col)| shot.at(*row, *col).is_none());
    half && none
        && INSIDE
            .iter()
            .all(|(row, col, c)| has_at(shot, *row, *col, *c))
}

fn is_the_sample(shot: &Shot) -> bool {
    let placed = shot.cursor() == (1, 6) && !shot.visible();
    let bold_a = match shot.at(1, 3) {
        Some(cell) => cell.is_same(&Cell::ascii(b'a', bold(), false)),
        None => false,
    };
    shot.rows() == 2 && shot.cols() == 8 && placed && bold_a
}

// Returns true if each call on the sample gives its content.
fn is_told(alloc: Global, shot: &Shot) -> Result<bool, Fault> {
    shot.facts();
    let placed = is_the_sample(shot) && has_places(shot);
    Ok(placed && has_rows(alloc, shot)? && is_copied(alloc, shot)?)
}

// A lone half makes no screen; another size is another screen.
#[test]
fn a_screen_of_cells_and_others(rt: HostRuntime) {
    let alloc = rt.alloc();
    assert!(rt; matches!(sample(alloc), Ok(shot) if is_told(alloc, &shot) == Ok(true)));
    assert!(rt; is_lone_half_blank(alloc) == Ok(true));
    assert!(rt; is_wider_blank(alloc) == Ok(false));
}

// Returns true if a call had this result, or memory was refused.
fn is_or_wants(answer: Result<bool, Fault>, wanted: bool) -> bool {
    match answer {
        Ok(answer) => answer == wanted,
        Err(fault) => fault == Fault::OutOfMemory,
    }
}

fn stays_the_sample(alloc: Global, shot: &Shot) -> bool {
    is_or_wants(is_blank(alloc, shot), false)
        && is_or_wants(is_copied(alloc, shot), true)
        && is_or_wants(has_rows(alloc, shot), true)
        && is_the_sample(shot)
}

fn survives(alloc: Global) -> bool {
    match sample(alloc) {
        Ok(shot) => stays_the_sample(alloc, &shot),
        Err(fault) => fault == Fault::OutOfMemory,
    }
}

// Each allocation of a screen's calls refused in turn: the only fault is want of memory, and the screen stays.
#[test]
fn refused_memory_leaves_a_screen(rt: HostRuntime) {
    assert!(rt; survives(rt.alloc()));
}
