//! Reports: the answers.
ghost use Rattle.std.specs.Prelude.{◌≡◌, ◌+◌, ◌≤◌, ◌++◌, length};
ghost use Rattle.roam_term.specs.Reports.{reported_row, answer_to};
ghost use Rattle.roam_term.specs.Limits.{most_output};

use crate::outputs::Output;
use roam_controls::{Modes, Report};
use roam_grid::Grid;

// The cursor's row from 1, under DECOM from the top margin.
fn reported_row(grid: &Grid, origin: bool) -> usize
    ensures row { result ≡ reported_row origin grid.now.screen }
    ensures low { result ≤ 200 }
{
    grid.facts();
    let (row, _) = grid.cursor();
    if !origin {
        return row;
    }
    let (top, _) = grid.margins();
    (row - 1).saturating_sub(top) + 1
}

fn answer_position(grid: &Grid, modes: Modes, output: &mut Output)
    requires room { length output.old + 12 ≤ most_output }
    ensures answered { output.new ≡ output.old ++ answer_to Report.CursorPosition modes grid.now.screen }
    ensures short { length output.new ≤ length output.old + 12 }
{
    grid.facts();
    let row = reported_row(grid, modes.origin);
    let (_, col) = grid.cursor();
    output.push(b"\x1B[");
    output.push_number(row as u16);
    output.push(b";");
    output.push_number(col as u16);
    output.push(b"R");
}

/// Answers a report.
pub fn answer_to(report: Report, grid: &Grid, modes: Modes, output: &mut Output)
    requires room { length output.old + 12 ≤ most_output }
    ensures answered { output.new ≡ output.old ++ answer_to report modes grid.now.screen }
    ensures short { length output.new ≤ length output.old + 12 }
{
    match report {
        Report::Status => output.push(b"\x1B[0n"),
        Report::CursorPosition => answer_position(grid, modes, output),
        Report::Printer => output.push(b"\x1B[?13n"),
        Report::PrimaryAttributes => output.push(b"\x1B[?62;6c"),
        Report::SecondaryAttributes => output.push(b"\x1B[>1;10;0c"),
    }
}
