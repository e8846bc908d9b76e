//! Faces: the screens of a layout's panes, and then each row, the cursor and its visibility.
//!
//! A case is a session's rows and columns, true if the cursor of the pane in focus is visible, and acts with a comma between; then the
//! screens of panes 1 to 3, with bars between; each row of the face; and its cursor.
ghost use Rattle.std.specs.Prelude.{◌≡◌, length, IfOk};
ghost use Rattle.roam_layout.specs.Layouts.{panes};
ghost use Rattle.roam_layout.specs.Faces.{ArePictures};

use crate::layout_words::{are_numbers, number};
use roam_acts::{Act, read_act};
use roam_cells::{Cell, Fault, Style, are_same_cells, are_unguarded, is_well_formed};
use roam_layout::{Layout, Rect, face, face_over, push_row};
use roam_screens::{RowShot, Seen, Shot};
use std::alloc::Global;
use std::test::*;

const CASES: &str = "\
4 17 shown: split right
ab|cd|
ab      │cd      
        │        
        │        
 1 [2]           
1 12

4 17 hidden: split right, view 1
ab|cd|
ab      │cd      
        │        
        │        
 1 [2] ^1        
1 12

4 17 shown: split right, focus 1
ab|cd|
ab      │cd      
        │        
        │        
[1] 2            
1 3

4 17 shown: split right, close
ab||
ab               
                 
                 
[1]              
1 3

6 8 shown: split down
12345678|x|
12345678
        
────────
x       
        
 1 [2]  
4 2

6 17 shown: split right, focus 1, split down
123456中|中b|c
123456中│中b     
        │        
────────│        
c       │        
        │        
 1 [3] 2         
4 2

6 17 shown: split down, focus 1, split right, grow 2
a|b|c
a     │c         
      │          
─────────────────
b                
                 
 1 [3] 2         
1 9

12 8 hidden: split down, split down
a|b|c
a       
        
        
        
        
────────
b       
        
────────
c       
        
 1  2 [3
10 2

6 8 shown: split down, view 12
|中|
        
        
────────
中      
        
 1 [2] ^
4 2";

// The cells of a text and spaces after it, so many in all.
fn cells_of(alloc: Global, text: &str, count: usize) -> Result<Vec<Cell>, Fault>
    ensures count { IfOk result (λ cells. length cells.items ≡ count) }
{
    let mut cells = Vec::new(alloc);
    for point in text.chars() {
        if let Some(cell) = Cell::of(&[point], Style::default(), false) {
            cells.push(cell)?;
            if cell.is_wide() {
                cells.push(Cell::right_half(Style::default(), false))?;
            }
        }
    }
    cells.resize(count, Cell::blank())?;
    Ok(cells)
}

// A picture of a rectangle's size with a text at its start and the cursor behind it.
fn picture(alloc: Global, rect: Rect, text: &str, visible: bool) -> Result<Shot, Fault>
    ensures size { IfOk result (λ shot. (shot.rows ≡ rect.rows) × (shot.cols ≡ rect.cols)) }
{
    let blank = Shot::blank(alloc, rect.rows, rect.cols)?;
    let cells = cells_of(alloc, text, usize::from(rect.rows) * usize::from(rect.cols))?;
    if !is_well_formed(&cells, usize::from(rect.cols)) || !are_unguarded(&cells) {
        return Ok(blank);
    }
    let col = (text.chars().count().min(200) as u16 + 1).min(rect.cols);
    Ok(Shot::new(rect.rows, rect.cols, cells, (1, col), visible))
}

// The pictures of a layout's panes.
fn pictures(
    alloc: Global,
    layout: &Layout,
    texts: &str,
    visible: bool,
) -> Result<Vec<(u8, Shot)>, Fault>
    ensures pictures { IfOk result (λ shots. ArePictures (panes layout.now) shots.items) }
{
    let mut shots = Vec::new(alloc);
    let rects = layout.rects();
    for k in 0..rects.len() {
        let (pane, rect) = rects[k];
        let before = usize::from(pane).saturating_sub(1);
        let text = texts.split('|').nth(before).unwrap_or("");
        shots.push((pane, picture(alloc, rect, text, visible)?))?;
    }
    Ok(shots)
}

fn take_act(alloc: Global, layout: &mut Layout, line: &str) -> Result<(), Fault> {
    let act = read_act(line.as_bytes())?;
    layout.apply(alloc, &act)?;
    Ok(())
}

// The layout of a size after acts.
fn layout_after(alloc: Global, rows: u16, cols: u16, acts: &str) -> Result<Layout, Fault> {
    let mut layout = Layout::new(alloc, rows, cols)?;
    for line in acts.split(", ") {
        take_act(alloc, &mut layout, line)?;
    }
    Ok(layout)
}

fn face_of(alloc: Global, layout: &Layout, texts: &str, visible: bool) -> Result<Shot, Fault> {
    let shots = pictures(alloc, layout, texts, visible)?;
    face(alloc, layout, &shots)
}

// Returns true if a face has these rows, and then this cursor.
fn shows(alloc: Global, shot: &Shot, rows: &str) -> Result<bool, Fault> {
    let mut lines = rows.lines();
    let mut same = true;
    for i in 0..shot.rows() {
        let points = shot.row_text(alloc, i)?;
        same = same
            && points
                .iter()
                .copied()
                .eq(lines.next().unwrap_or("").chars());
    }
    let (row, col) = shot.cursor();
    Ok(same && are_numbers(&[row, col], lines.next().unwrap_or("")) && lines.next().is_none())
}

fn is_shown(alloc: Global, layout: &Layout, state: &str, rest: &str) -> bool {
    let (texts, rows) = rest.split_once('\n').unwrap_or((rest, ""));
    let visible = state == "shown";
    match face_of(alloc, layout, texts, visible) {
        Ok(shot) => shot.visible() == visible && matches!(shows(alloc, &shot, rows), Ok(true)),
        Err(_) => false,
    }
}

fn holds(alloc: Global, case: &str) -> bool {
    let (line, rest) = case.split_once('\n').unwrap_or((case, ""));
    let (start, acts) = line.split_once(": ").unwrap_or((line, ""));
    let (size, state) = start.rsplit_once(' ').unwrap_or((start, ""));
    let (rows, cols) = size.split_once(' ').unwrap_or((size, ""));
    match layout_after(alloc, number(rows), number(cols), acts) {
        Ok(layout) => is_shown(alloc, &layout, state, rest),
        Err(_) => false,
    }
}

#[test]
fn faces_show_their_rows(rt: HostRuntime) {
    for case in CASES.split("\n\n") {
        assert!(rt; holds(rt.alloc(), case), "{case}");
    }
}

// Returns true if a cell is drawn in the default style, except for the reverse flag in the last row.
fn is_drawn(shot: &Shot, row: u16, col: u16) -> bool {
    let style = Style {
        reverse: row == shot.rows(),
        ..Style::default()
    };
    match shot.at(row, col) {
        Some(cell) => cell.style().is_same(style) && !cell.guard(),
        None => false,
    }
}

fn are_drawn(shot: &Shot) -> bool {
    for row in 1..=shot.rows() {
        for col in 1..=shot.cols() {
            if !is_drawn(shot, row, col) {
                return false;
            }
        }
    }
    true
}

// Returns true if only the status text is in reverse.
fn is_status_in_reverse(alloc: Global, layout: &mut Layout) -> bool {
    matches!(face_of(alloc, layout, "a|b|c", true), Ok(shot) if are_drawn(&shot))
}

// Eight splits of 24 by 80.
const NINE: &str = "split right, split down, split down, focus 1, split down, split down, focus 2, \
    split right, focus 1, split right, focus 3, split right";

const DIGITS: &str = "1|2|3|4|5|6|7|8|9";

fn begins_with(shot: &Shot, rect: Rect, digit: u8) -> bool {
    match shot.at(rect.row, rect.col) {
        Some(cell) => cell.is_same(&Cell::ascii(digit.clamp(b'0', b'9'), Style::default(), false)),
        None => false,
    }
}

fn is_each_in_its_corner(layout: &Layout, shot: &Shot) -> bool {
    for (pane, rect) in layout.rects() {
        if !begins_with(shot, *rect, b'0' + (*pane).min(9)) {
            return false;
        }
    }
    true
}

// Returns true if nine panes show their numbers, and a tenth is refused and changes nothing.
fn keeps_nine(alloc: Global, layout: &mut Layout) -> bool {
    let before = face_of(alloc, layout, DIGITS, true);
    let refused = layout.apply(alloc, &Act::SplitDown).is_err();
    match (before, face_of(alloc, layout, DIGITS, true)) {
        (Ok(shot), Ok(again)) => refused
            && again.is_same(&shot)
            && layout.rects().len() == 9
            && is_each_in_its_corner(layout, &shot),
        _ => false,
    }
}

// Returns true if the rows of a face one by one are its cells.
fn is_row_by_row(
    alloc: Global,
    layout: &Layout,
    shots: &[(u8, Shot)],
    whole: &Shot,
) -> Result<bool, Fault>
    requires pictures { ArePictures (panes layout.now) shots.now }
{
    let mut cells = Vec::new(alloc);
    for above in 0..layout.rows() {
        push_row(alloc, layout, &shots, above + 1, &mut cells)?;
    }
    Ok(is_well_formed(&cells, usize::from(layout.cols())) && are_same_cells(whole.cells(), &cells))
}

// The face over a blank screen of which each row is marked.
fn made_anew(alloc: Global, layout: &Layout, shots: &[(u8, Shot)]) -> Result<RowShot, Fault>
    requires pictures { ArePictures (panes layout.now) shots.now }
{
    layout.facts();
    let blank = RowShot::blank(alloc, layout.rows(), layout.cols())?;
    let marks = [true; 200];
    face_over(alloc, layout, &shots, &blank, &marks)
}

fn is_face(shot: &RowShot, whole: &Shot) -> bool {
    if shot.rows() != whole.rows() {
        return false;
    }
    for i in 0..whole.rows() {
        if !are_same_cells(shot.row(i), Seen::row(whole, i)) {
            return false;
        }
    }
    shot.cursor() == whole.cursor() && shot.visible() == whole.visible()
}

// Returns true if the face of nine panes is the same row by row, and over marked rows, as at once.
fn is_one_face(alloc: Global, layout: &Layout) -> Result<bool, Fault> {
    let shots = pictures(alloc, layout, DIGITS, true)?;
    let whole = face(alloc, layout, &shots)?;
    Ok(
        is_row_by_row(alloc, layout, &shots, &whole)?
            && is_face(&made_anew(alloc, layout, &shots)?, &whole),
    )
}

/// The trial of a layout.
#[derive(Clone, Copy)]
enum Trial {
    Status,
    Nine,
    OneFace,
}

fn tries(alloc: Global, layout: &mut Layout, trial: Trial) -> bool {
    match trial {
        Trial::Status => is_status_in_reverse(alloc, layout),
        Trial::Nine => keeps_nine(alloc, layout),
        Trial::OneFace => matches!(is_one_face(alloc, layout), Ok(true)),
    }
}

fn is_tried(alloc: Global, rows: u16, cols: u16, acts: &str, trial: Trial) -> bool {
    match layout_after(alloc, rows, cols, acts) {
        Ok(mut layout) => tries(alloc, &mut layout, trial),
        Err(_) => false,
    }
}

// Only the status text is in reverse; a tenth pane changes nothing; rows one by one and marked rows make the face.
#[test]
fn faces_of_three_and_of_nine_panes(rt: HostRuntime) {
    let three = "split right, split down";
    assert!(rt; is_tried(rt.alloc(), 6, 17, three, Trial::Status), "status");
    assert!(rt; is_tried(rt.alloc(), 24, 80, NINE, Trial::Nine), "nine");
    assert!(rt;
        is_tried(rt.alloc(), 24, 80, NINE, Trial::OneFace),
        "one face"
    );
}
