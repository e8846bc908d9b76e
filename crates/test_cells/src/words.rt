//! How tables are read: the parts of a line, the numbers of a text, printable bytes, and the characters and the pens of cells.
ghost use Rattle.std.specs.Prelude.{IsTrue};
ghost use Rattle.roam_rows.specs.Writing.{ArePrintable};

use roam_cells::Cell;

/// The parts of a line, at most five; those that aren't there are empty.
pub fn parts_of(line: &str, by: char) -> [&str; 5] {
    let mut parts = line.split(by);
    [
        parts.next().unwrap_or(""),
        parts.next().unwrap_or(""),
        parts.next().unwrap_or(""),
        parts.next().unwrap_or(""),
        parts.next().unwrap_or(""),
    ]
}

/// The name of a case, its line, and what is expected of it; `None` if the case is malformed.
pub fn case_of(case: &str) -> Option<(&str, &str, &str)> {
    let (name, rest) = case.split_once('\n')?;
    let (line, wanted) = rest.split_once('\n')?;
    Some((name, line, wanted))
}

/// A found text as a table has it: without spaces at its end, and `-` in place of nothing.
pub fn as_wanted(found: &str) -> &str {
    match found.trim_end() {
        "" => "-",
        found => found,
    }
}

/// A number; `max` is the largest.
pub fn number(word: &str) -> Option<usize> {
    if word == "max" {
        return Some(usize::MAX);
    }
    word.parse::<usize>().ok()
}

/// How many numbers a text has with spaces between them, four at most, and these numbers.
pub fn numbers(words: &str) -> Option<(usize, usize, usize, usize, usize)> {
    let mut numbers = [0; 4];
    let mut count = 0;
    for word in words.split(' ') {
        let number = number(word)?;
        if 3 < count {
            return None;
        }
        numbers[count] = number;
        count += 1;
    }
    let [first, second, third, fourth] = numbers;
    Some((count, first, second, third, fourth))
}

/// Returns true if all bytes are printable ASCII.
pub fn is_printable(bytes: &[u8]) -> bool
    ensures printable { IsTrue result → ArePrintable bytes.now }
{
    for byte in bytes {
        if *byte < 0x20 || 0x7E < *byte {
            return false;
        }
    }
    true
}

// The pen of a cell: plain (0), bold (1), guarded (2) or both (3).
fn pen_of(cell: &Cell) -> char {
    match (cell.style().bold, cell.guard()) {
        (false, false) => '0',
        (true, false) => '1',
        (false, true) => '2',
        (true, true) => '3',
    }
}

// The first code point of a cell; a right half has none.
fn first_of(cell: &Cell) -> char {
    match cell.chars().as_slice() {
        [] => '~',
        [first, ..] => *first,
    }
}

/// Returns true if the columns of a row show these characters, a right half as `~`.
pub fn reads(row: &[Cell], wanted: &str) -> bool {
    row.iter().map(|cell| first_of(cell)).eq(wanted.chars())
}

/// Returns true if they show these characters, each with its pen.
pub fn looks(row: &[Cell], wanted: &str, pens: &str) -> bool {
    reads(row, wanted) && row.iter().map(|cell| pen_of(cell)).eq(pens.chars())
}
