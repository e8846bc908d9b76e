//! Bands of rows that go up or down on a terminal.
ghost use Rattle.std.specs.Prelude.{◌≡◌, ℕ, ◌<◌};
ghost use Rattle.roam_scroll_paint.specs.Bands.{band_source, moved_source, source_of};

/// Rows of a screen, from one on and before another, both from 0, that go up or down by so many.
#[derive(Clone, Copy)]
pub struct Band {
    /// The first row.
    pub top: u16,
    /// The row behind the last.
    pub bottom: u16,
    /// How many rows they go.
    pub count: u16,
    /// True if they go up.
    pub up: bool,
}

// The row that a row of a band shows once it went; none: it came in blank.
fn band_source(band: Band, row: u16) -> Option<u16>
    ensures source { result ≡ band_source band row }
{
    if band.up {
        let below = u32::from(row) + u32::from(band.count);
        if below < u32::from(band.bottom) {
            return Some(below as u16);
        }
        return None;
    }
    if u32::from(band.top) + u32::from(band.count) <= u32::from(row) {
        return Some(row - band.count);
    }
    None
}

fn moved_source(band: Band, row: u16) -> Option<u16>
    ensures source { result ≡ moved_source band row }
{
    if band.top <= row && row < band.bottom {
        return band_source(band, row);
    }
    Some(row)
}

/// Returns the row of the old screen that a row shows before rows are drawn, by whether sizes are equal; `None` if it is blank.
pub fn source_of(same: bool, band: Option<Band>, row: u16) -> Option<u16>
    ensures source { result ≡ source_of same band row }
{
    if !same {
        return None;
    }
    match band {
        Some(band) => moved_source(band, row),
        None => Some(row),
    }
}
