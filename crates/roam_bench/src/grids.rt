//! How fast a grid is written, scrolled and edited, beside one flat list of cells.
ghost use Rattle.std.specs.Prelude.{◌≤◌};

use crate::flat::{self, Flat};
use crate::ways::{self, Way};
use crate::words;
use anyhow::bail;
use roam_cells::Cell;
use roam_grid::Grid;
use std::env::Args;
use std::time::Instant;

/// The slices that the work is done in.
const SLICES: u64 = 10;

// Prints a line of output: the work, the size, the count, and the microseconds since the instance.
fn report(
    rt: &HostRuntime,
    name: &str,
    size: (usize, usize),
    times: u64,
    start: Instant,
) -> anyhow::Result<()> {
    let micros = start.elapsed(rt)?.as_micros();
    println!(rt; "{name} {} {} {times} {micros}", size.0, size.1)?;
    Ok(())
}

fn measure_way(
    rt: &HostRuntime,
    grid: &mut Grid,
    name: &str,
    way: Way,
    times: u64,
) -> anyhow::Result<()> {
    let size = (grid.rows(), grid.cols());
    let start = Instant::now(rt)?;
    ways::work(grid, way, times);
    report(rt, name, size, times, start)
}

// Each way as often as it does about the work of writing so many characters.
fn measure_ways(rt: &HostRuntime, grid: &mut Grid, count: u64) -> anyhow::Result<()> {
    let cols = grid.cols();
    let third = cols / 3;
    let lines = count / cols.max(1) as u64;
    let pages = lines / grid.rows().max(1) as u64;
    let moves = pages.saturating_mul(20);
    let ways = [
        ("put", Way::Singly, count),
        ("run", Way::Runs, count),
        ("third", Way::Lines(third, false), lines),
        ("third-scrolled", Way::Lines(third, true), lines),
        ("full", Way::Lines(cols, false), lines),
        ("full-scrolled", Way::Lines(cols, true), lines),
        ("pages", Way::Pages(false), pages),
        ("pages-erased", Way::Pages(true), pages),
        ("lines-in-out", Way::ShiftLines, moves),
        ("cells-in-out", Way::ShiftCells, lines),
        ("scroll-between", Way::ScrollBetween, moves),
    ];
    for (name, way, times) in ways {
        measure_way(rt, grid, name, way, times)?;
    }
    let (row, col) = grid.cursor();
    println!(rt; "end {row} {col}")?;
    Ok(())
}

fn measure_grid(rt: &HostRuntime, rows: usize, cols: usize, count: u64) -> anyhow::Result<()> {
    let mut grid = Grid::new(rt.alloc(), rows, cols)?;
    measure_ways(rt, &mut grid, count)
}

fn measure_flat(rt: &HostRuntime, rows: usize, cols: usize, count: u64) -> anyhow::Result<()>
    requires size { (rows ≤ 200) × (cols ≤ 500) }
{
    let mut cells = vec![in rt.alloc(); Cell::blank(); rows * cols]?;
    let lines = count / cols.max(1) as u64;
    let pages = lines / rows.max(1) as u64;
    let moves = pages.saturating_mul(20);
    let ways = [
        ("fill-row", Flat::FillRow, lines),
        ("fill-all", Flat::FillAll, pages),
        ("move-between", Flat::MoveBetween, moves),
        ("move-rows", Flat::MoveRows, moves),
        ("move-cells", Flat::MoveCells, lines),
    ];
    for (name, flat, times) in ways {
        let start = Instant::now(rt)?;
        flat::work(&mut cells, flat, rows, cols, times);
        report(rt, name, (rows, cols), times, start)?;
    }
    Ok(())
}

/// Does a moment's work, after which the cursor has to be in the last place.
pub fn try_once(rt: &HostRuntime) -> anyhow::Result<()> {
    let mut grid = Grid::new(rt.alloc(), 24, 80)?;
    ways::work(&mut grid, Way::Singly, 10_000);
    ways::work(&mut grid, Way::Runs, 10_000);
    if grid.cursor() != (24, 80) {
        bail!("the cursor is not where 20,000 characters leave it");
    }
    for way in [
        Way::Lines(26, true),
        Way::Pages(true),
        Way::ShiftLines,
        Way::ShiftCells,
        Way::ScrollBetween,
    ] {
        ways::work(&mut grid, way, 10);
    }
    Ok(())
}

/// Does the work of as many million characters as the words ask for, in slices, one size after another. So other work on the machine slows
/// none of them alone.
pub fn measure(rt: &HostRuntime, words: &mut Args) -> anyhow::Result<()> {
    let millions = words::number(words, "MILLIONS")?;
    let count = u64::from(millions) * 1_000_000 / SLICES;
    for _ in 0..SLICES {
        for (rows, cols) in [(24, 80), (100, 250)] {
            measure_grid(rt, rows, cols, count)?;
            measure_flat(rt, rows, cols, count)?;
        }
    }
    Ok(())
}
