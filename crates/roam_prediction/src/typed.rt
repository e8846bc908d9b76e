//! The predicted effect of a key.
ghost use Rattle.std.specs.Prelude.{◌≡◌, ◌^◌, ◌<◌, ◌≤◌, ◌++◌, ◌∷◌, [], true, length, Some, IfSome};
ghost use Rattle.roam_prediction.specs.Predictions.{IsPrediction};
ghost use Rattle.roam_prediction.specs.Typing.{back_prediction, cell_in, differs, erased_prediction, forth_prediction, prediction_for, ended_with, prediction_of, prediction_with, has_room, is_blank_to_edge, is_border, is_clear, is_free, is_inside, is_space, kind_of, latest, may_grow, moved_prediction, narrow_cell, style_left, typed_by, written_prediction};

use crate::over::{has_place, last_column};
use crate::predictions::{MOST_PREDICTIONS, Place, Prediction, Predictions};
use roam_acts::Act;
use roam_cells::{Cell, Style, width};
use roam_keys::Key;
use roam_screens::Seen;

/// The border between two panes side by side, U+2502.
const BORDER: char = '\u{2502}';

/// The effect of an act if it is predicted: it writes a character of one column, erases the one before the cursor, or moves the cursor.
/// Another act isn't predicted.
#[derive(Clone, Copy)]
pub(crate) enum Kind {
    Write(char),
    Erase,
    Back,
    Forth,
    Other,
}

// Returns the effect of an act.
fn kind_of(act: &Act) -> Kind
    ensures kind { result ≡ kind_of act.now }
{
    match *act {
        Act::Key(Key::Char(c)) => Kind::Write(c),
        Act::Key(Key::Backspace) => Kind::Erase,
        Act::Key(Key::Left) => Kind::Back,
        Act::Key(Key::Right) => Kind::Forth,
        _ => Kind::Other,
    }
}

// Returns true if a cell is a space.
fn is_space(cell: &Cell) -> bool
    ensures space { result ≡ is_space cell.now }
{
    let points = cell.chars();
    let chars = points.as_slice();
    chars.len() == 1 && chars[0] == ' '
}

// Returns true if a cell is the border of a pane.
fn is_border(cell: &Cell) -> bool
    ensures border { result ≡ is_border cell.now }
{
    let points = cell.chars();
    let chars = points.as_slice();
    chars.len() == 1 && chars[0] == BORDER
}

// Returns true if there are only spaces before the pane's edge.
fn is_blank_to_edge(cells: &[Cell]) -> bool
    ensures blank { result ≡ is_blank_to_edge cells.now }
{
    for cell in cells {
        if !is_space(cell) {
            return is_border(cell);
        }
    }
    true
}

// Returns true if there is room from a place on: two spaces, and only spaces before the pane's edge.
fn has_room(cells: &[Cell]) -> bool
    ensures room { result ≡ has_room cells.now }
{
    cells.len() >= 2 && is_space(&cells[0]) && is_space(&cells[1]) && is_blank_to_edge(&cells[2..])
}

// Returns true if a column, from 1, is one of a pane with a cell of one column.
fn is_inside(row: &[Cell], col: u16) -> bool
    ensures inside { result ≡ is_inside row.now col }
{
    has_place(row, col) && !is_border(&row[col as usize - 1])
}

// The cell that a prediction writes in a column.
fn cell_in(prediction: &Prediction, col: u16) -> Option<Cell>
    ensures cell { result ≡ cell_in prediction.now col }
{
    match prediction.place {
        Some(place) if place.col == col => Some(place.cell),
        _ => None,
    }
}

// The last cell that is predicted in a column.
pub(crate) fn latest(predictions: &[Prediction], col: u16) -> Option<Cell>
    ensures latest { result ≡ latest predictions.now col }
{
    if predictions.is_empty() {
        return None;
    }
    match latest(&predictions[1..], col) {
        Some(cell) => Some(cell),
        None => cell_in(&predictions[0], col),
    }
}

// Returns true if the last prediction in the column of this one leaves it blank, or is before a column.
fn is_clear(all: &[Prediction], prediction: &Prediction, col: u16) -> bool
    ensures clear { result ≡ is_clear all.now prediction.now col }
{
    let Some(place) = prediction.place else {
        return true;
    };
    if place.col < col {
        return true;
    }
    match latest(all, place.col) {
        None => true,
        Some(cell) => is_space(&cell),
    }
}

// Returns true if no prediction leaves a character in a column or behind it.
fn is_free(all: &[Prediction], predictions: &[Prediction], col: u16) -> bool
    ensures free { result ≡ is_free all.now predictions.now col }
{
    if predictions.is_empty() {
        return true;
    }
    is_clear(all, &predictions[0], col) && is_free(all, &predictions[1..], col)
}

// The cell of a character of one column.
fn narrow_cell(c: char, style: Style) -> Option<Cell>
    ensures cell { result ≡ narrow_cell c style }
{
    if width(c) != 1 {
        return None;
    }
    Cell::of(&[c], style, false)
}

// Returns the style of the cell left of a column within the pane, else the default.
fn style_left(row: &[Cell], predictions: &[Prediction], col: u16) -> Style
    ensures style { result ≡ style_left row.now predictions.now col }
{
    if !is_inside(row, col.saturating_sub(1)) {
        return Style::default();
    }
    match latest(predictions, col - 1) {
        Some(cell) => cell.style(),
        None => row[col as usize - 2].style(),
    }
}

// Returns true if a cell has other code points than a predicted one.
fn differs(cell: &Cell, predicted: &Cell) -> bool
    ensures differs { result ≡ differs cell.now predicted.now }
{
    cell.chars() != predicted.chars()
}

// Returns the prediction of a cell in a column that a row has.
fn prediction_with(number: u64, row: &[Cell], col: u16, cell: Cell, after: u16) -> Prediction
    requires place { (1 ≤ col) × (col ≤ length row.now) }
    ensures guess { result ≡ prediction_with number row.now col cell after }
{
    Prediction {
        number,
        place: Some(Place { col, cell }),
        after,
        credit: differs(&row[col as usize - 1], &cell),
        since: None,
        told: None,
    }
}

// The prediction that the cursor alone moves.
fn moved_prediction(number: u64, after: u16) -> Prediction
    ensures guess { result ≡ moved_prediction number after }
{
    Prediction {
        number,
        place: None,
        after,
        credit: false,
        since: None,
        told: None,
    }
}

// Predicts a character if the rest of the row is blank, but not in the last place, nor beside a half of a wide character.
fn written_prediction(
    number: u64,
    c: char,
    row: &[Cell],
    predictions: &[Prediction],
    col: u16,
) -> Option<Prediction>
    requires cols { length row.now < 2 ^ 16 }
    ensures guess { result ≡ written_prediction number c row.now predictions.now col }
{
    if col < 1 || row.len() < col as usize || !has_room(&row[col as usize - 1..]) {
        return None;
    }
    if !is_free(predictions, predictions, col) || (1 < col && !has_place(row, col - 1)) {
        return None;
    }
    let cell = narrow_cell(c, style_left(row, predictions, col))?;
    Some(prediction_with(number, row, col, cell, col + 1))
}

// Predicts a blank in place of the prediction before the cursor; other text there isn't predicted to go.
fn erased_prediction(
    number: u64,
    row: &[Cell],
    predictions: &[Prediction],
    col: u16,
) -> Option<Prediction>
    ensures guess { result ≡ erased_prediction number row.now predictions.now col }
{
    if col < 2 || !is_inside(row, col - 1) {
        return None;
    }
    match latest(predictions, col - 1) {
        None => Some(moved_prediction(number, col - 1)),
        Some(cell) => {
            let space = narrow_cell(' ', cell.style())?;
            Some(prediction_with(number, row, col - 1, space, col - 1))
        }
    }
}

// The cursor goes one place to the left within the pane.
fn back_prediction(number: u64, row: &[Cell], col: u16) -> Option<Prediction>
    ensures guess { result ≡ back_prediction number row.now col }
{
    if col < 2 || !is_inside(row, col - 1) {
        return None;
    }
    Some(moved_prediction(number, col - 1))
}

// The cursor goes one place to the right within the pane.
fn forth_prediction(number: u64, row: &[Cell], col: u16) -> Option<Prediction>
    requires cols { length row.now < 2 ^ 16 }
    ensures guess { result ≡ forth_prediction number row.now col }
{
    if row.len() <= col as usize || !is_inside(row, col) || !is_inside(row, col + 1) {
        return None;
    }
    Some(moved_prediction(number, col + 1))
}

// Returns the prediction of an act of a kind, with the cursor in a column of a row.
fn prediction_of(
    number: u64,
    kind: Kind,
    row: &[Cell],
    predictions: &[Prediction],
    col: u16,
) -> Option<Prediction>
    requires cols { length row.now < 2 ^ 16 }
    ensures guess { result ≡ prediction_of number kind row.now predictions.now col }
    ensures kept { IfSome result IsPrediction }
{
    match kind {
        Kind::Write(c) => written_prediction(number, c, row, predictions, col),
        Kind::Erase => erased_prediction(number, row, predictions, col),
        Kind::Back => back_prediction(number, row, col),
        Kind::Forth => forth_prediction(number, row, col),
        Kind::Other => None,
    }
}

impl Predictions {
    // Returns true if another prediction may be made.
    fn may_grow(&self) -> bool
        ensures grow { result ≡ may_grow self.now }
        ensures few { result ≡ true → length self.now.list < 64 }
    {
        self.ends_with.is_none() && self.list.len() < MOST_PREDICTIONS
    }

    // Returns the prediction of an act.
    fn prediction_for<S: Seen>(&self, number: u64, act: &Act, shown: &S) -> Option<Prediction>
        ensures guess { result ≡ prediction_for number act.now (S.screen shown.now) self.now }
        ensures kept { IfSome result IsPrediction }
        ensures few { IfSome result (λ _. length self.now.list < 64) }
    {
        if !self.may_grow() || !shown.visible() {
            return None;
        }
        shown.facts();
        let (row, col) = shown.cursor();
        let after = last_column(col, &self.list);
        prediction_of(number, kind_of(act), shown.row(row - 1), &self.list, after)
    }

    // Another prediction behind the others.
    fn add(&mut self, prediction: Prediction)
        requires guess { IsPrediction prediction }
        requires few { length self.old.list < 64 }
        ensures added { self.new ≡ record self.old { list = self.old.list ++ prediction ∷ [] } }
    {
        // It was made with room for 64.
        let _ = self.list.extend_from_slice(&[prediction]);
    }

    /// Ends the epoch with the act of a number: acts up to it aren't predicted.
    pub fn end_with(&mut self, number: u64)
        ensures ends { self.new ≡ ended_with number self.old }
    {
        self.ends_with = Some(number);
    }

    /// Takes an act of a number that was typed over this screen: its effect is predicted, or the epoch ends with it. It takes no memory.
    pub fn typed<S: Seen>(&mut self, number: u64, act: &Act, shown: &S)
        ensures typed { self.new ≡ typed_by number act.now (S.screen shown.now) self.old }
    {
        match self.prediction_for(number, act, shown) {
            Some(prediction) => self.add(prediction),
            None => self.end_with(number),
        }
    }
}
