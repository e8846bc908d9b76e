//! A caller of the terminal, as the README of `roam_term` shows it (`tools/worked_callers`).

// README: begin
use roam_cells::Fault;
use roam_term::Term;
use std::alloc::Global;

/// Returns true if a terminal with 500 lines of history shows its input, and reports its cursor.
pub fn shows_and_answers(alloc: Global) -> Result<bool, Fault> {
    let mut term = Term::new(alloc, 24, 80, 500)?;
    term.feed(b"abc\r\n\x1B[2;5Hdef\x1B[6n")?;
    let shot = term.shot(alloc, 0)?; // the screen as a value
    let mut answer = [0; 16];
    let count = term.copy_output(&mut answer);
    term.take_output(count);
    let is_shown = match shot.at(2, 5) {
        Some(cell) => cell.chars().as_slice() == ['d'].as_slice(),
        None => false,
    };
    Ok(is_shown && shot.cursor() == (2, 8) && answer[..count] == b"\x1B[2;8R"[..])
}
// README: end

use std::test::*;

#[test]
fn a_terminal_shows_and_answers(rt: HostRuntime) {
    assert_eq!(rt; shows_and_answers(rt.alloc()), Ok(true));
}
