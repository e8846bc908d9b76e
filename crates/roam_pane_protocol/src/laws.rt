//! Laws of the definitions, each the contract of a function that does nothing when it runs.
ghost use Rattle.roam_pane_protocol.specs.Queries.{QueriesAreTheNewest};
ghost use Rattle.roam_pane_protocol.specs.MetadataLines.{MetadataArrives, MetadataIsNews};
ghost use Rattle.roam_pane_protocol.specs.Clips.{ClipsAreNews, ClipsArrive};
ghost use Rattle.roam_pane_protocol.specs.Lines.{LinesArrive, LinesAreNews};

/// A reader of the lines between the reported list and the present one knows the present one.
pub fn lines_arrive()
    ensures arrive { LinesArrive }
{}

/// Each line is news: a pane that isn't there is never gone, and neither a pane nor the focus is reported twice.
pub fn lines_are_news()
    ensures news { LinesAreNews }
{}

/// A reader that knew something of a pane's metadata, and reads the lines of the news, knows the modes, the shape of the cursor, and how
/// many titles and bells there were.
pub fn metadata_arrives()
    ensures arrive { MetadataArrives }
{}

/// Each of these lines says what wasn't known before it.
pub fn metadata_is_news()
    ensures news { MetadataIsNews }
{}

/// A reader that knew something of the clipboard texts of a pane's program, and reads the lines of the news, knows how many there are.
pub fn clips_arrive()
    ensures arrive { ClipsArrive }
{}

/// Each of these lines says what wasn't known before it.
pub fn clips_are_news()
    ensures news { ClipsAreNews }
{}

/// The reported questions of a program are the last sixteen of those that weren't reported, each once and in its place.
pub fn queries_are_the_newest()
    ensures newest { QueriesAreTheNewest }
{}
