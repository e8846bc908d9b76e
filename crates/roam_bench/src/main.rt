//! Measures a grid, diffs and paintings of screens, and the two cores; the scripts of `bench/` run it.
//!
//! `roam_bench grid MILLIONS` does the work of that many million characters in ten slices. For each slice and way it prints the name, rows,
//! columns, count and microseconds.
//!
//! `roam_bench paint ROWS COLS TIMES` paints an unchanged screen, an echoed key, a scrolled screen and a full one, that many times each. It
//! prints the name, bytes, TIMES and microseconds.
//!
//! `roam_bench update ROWS COLS STYLES TIMES` writes and applies diffs of screens in both versions, that many times each. It prints the
//! version, the diff, the cells, TIMES, the microseconds of writing and of applying, and the bytes of the text.
//!
//! `roam_bench cores ROWS COLS TIMES` copies a screen, and ticks an idle server with one client instance and with 64. It takes as many
//! rounds of a tick and its datagrams after one changed row, a scroll, a redraw and a key. It takes as many ticks after a key with one
//! client instance and with nine. It prints the name, TIMES, the nanoseconds, and a number that depends on the work: for a key the bytes of
//! all datagrams.
//!
//! `roam_bench records N` makes a server that keeps eight screens for each of N client instances. `roam_bench clients N` keeps these
//! instances too, with eight screens each. A caller can then read how much memory that takes.
//!
//! `roam_bench hops` and `roam_bench moved` measure nothing. For each line of standard input, which has two screens, they print texts that
//! lead from one to the other. Without words the program does a little of each, and prints the texts of the lines of standard input.
#![tactic(auto)]

mod changes;
mod cores;
mod flat;
mod grids;
mod hops;
mod paintings;
mod ways;
mod words;

use crate::hops::Texts;
use anyhow::bail;
use std::env;
use std::env::Args;

fn try_screens(rt: &HostRuntime) -> anyhow::Result<()> {
    paintings::try_once(rt.alloc())?;
    changes::try_once(rt.alloc())
}

fn try_all(rt: &HostRuntime) -> anyhow::Result<()> {
    grids::try_once(rt)?;
    cores::try_once(rt)?;
    try_screens(rt)?;
    hops::tell_all(rt, Texts::Hop)
}

fn measure(rt: &HostRuntime, what: &str, words: &mut Args) -> anyhow::Result<()> {
    match what {
        "grid" => grids::measure(rt, words),
        "paint" => paintings::measure(rt, words),
        "update" => changes::measure(rt, words),
        "cores" => cores::measure(rt, words),
        "records" => cores::measure_kept(rt, words, false),
        "clients" => cores::measure_kept(rt, words, true),
        "hops" => hops::tell_all(rt, Texts::Hop),
        "moved" => hops::tell_all(rt, Texts::Moved),
        _ => bail!(
            "what is asked for is grid, paint, update, cores, records, clients, hops or moved"
        ),
    }
}

fn main(rt: HostRuntime) -> anyhow::Result<()> {
    let mut words = env::args(&rt)?;
    words.next();
    match words.next() {
        Some(what) => measure(&rt, &what, &mut words),
        None => try_all(&rt),
    }
}
