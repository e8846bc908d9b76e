//! Tab stops as a list of flags, a flag a column from 0.
ghost use Rattle.std.specs.Prelude.{◌≡◌, ◌+◌, ◌-◌, ◌<◌, ◌≤◌};
ghost use Rattle.roam_grid.specs.Tabs.{start_stops, is_start_stop, next_stop, stop_before, stops_on, stops_back};
ghost use Rattle.roam_cells.specs.Limits.{most_columns};

use roam_cells::limits::MOST_COLUMNS;

/// The tab stops at the start.
pub fn stops_at_start() -> [bool; MOST_COLUMNS as usize]
    ensures stops { result ≡ start_stops }
{
    let mut stops = [false; MOST_COLUMNS as usize];
    for c in 0..MOST_COLUMNS as usize {
        stops[c] = is_start_stop(c);
    }
    stops
}

/// Returns true if a column, from 0, has a tab stop at the start.
fn is_start_stop(c: usize) -> bool
    ensures stop { result ≡ is_start_stop c }
{
    0 < c && c % 8 == 0
}

// The next stop after a column, at most the last column.
fn next_stop(stops: &[bool; MOST_COLUMNS as usize], last: usize, col: usize) -> usize
    requires inside { (col ≤ last) × (last < most_columns) }
    ensures stop { result ≡ next_stop last stops.now col }
    ensures inside { result ≤ last }
{
    if col >= last {
        return col;
    }
    let mut at = col + 1;
    while at < last {
        if stops[at] {
            return at;
        }
        at += 1;
    }
    at
}

// The last stop before a column, else the first column.
fn stop_before(stops: &[bool; MOST_COLUMNS as usize], col: usize) -> usize
    requires inside { col < most_columns }
    ensures stop { result ≡ stop_before col stops.now }
    ensures inside { result ≤ col }
{
    let mut at = col;
    while 0 < at {
        at -= 1;
        if stops[at] {
            return at;
        }
    }
    0
}

/// The nth stop after a column, at most the last column. It looks at no more columns than there are, whatever n is.
pub fn stops_on(stops: &[bool; MOST_COLUMNS as usize], n: usize, last: usize, col: usize) -> usize
    requires inside { (col ≤ last) × (last < most_columns) }
    ensures stop { result ≡ stops_on n last stops.now col }
    ensures inside { result ≤ last }
{
    let mut at = col;
    let mut left = n;
    while 0 < left && at < last {
        at = next_stop(stops, last, at);
        left -= 1;
    }
    at
}

/// The nth stop before a column, else the first column. It looks at no more columns than there are, whatever n is.
pub fn stops_back(stops: &[bool; MOST_COLUMNS as usize], n: usize, col: usize) -> usize
    requires inside { col < most_columns }
    ensures stop { result ≡ stops_back n stops.now col }
    ensures inside { result ≤ col }
{
    let mut at = col;
    let mut left = n;
    while 0 < left && 0 < at {
        at = stop_before(stops, at);
        left -= 1;
    }
    at
}
