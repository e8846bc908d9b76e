//! The overlay on the screen of a terminal while keys are typed, as text.
//!
//! A line begins with `feed`, the program's output; `type`, an act; `paste`, a number of typed acts without predictions; `ack`, a number of
//! acknowledged acts; `lose`, the same after a screen that couldn't be kept; `at`, a moment in milliseconds; `slow`, the milliseconds until
//! input is shown; or `shows`, the text of the cursor's row and, behind `|`, the cursor's column.
use roam_acts::read_act;
use roam_cells::Fault;
use roam_prediction::{Moment, Predictions};
use roam_screens::{RowShot, Seen};
use roam_term::Term;
use std::alloc::Global;
use std::test::*;

/// A terminal, its screen before and now, and its predictions.
#[derive(Drop)]
struct Stage {
    term: Term,
    before: RowShot,
    shown: RowShot,
    predictions: Predictions,
    typed: u64,
    acknowledged: u64,
    delay: u64,
    now: u64,
}

impl Stage {
    fn new(alloc: Global) -> Result<Stage, Fault> {
        Ok(Stage {
            term: Term::new(alloc, 4, 20, 0)?,
            before: RowShot::blank(alloc, 4, 20)?,
            shown: RowShot::blank(alloc, 4, 20)?,
            predictions: Predictions::new(alloc)?,
            typed: 0,
            acknowledged: 0,
            delay: 0,
            now: 0,
        })
    }

    fn see(&mut self, alloc: Global) -> Result<(), Fault> {
        let moment = Moment {
            at: self.now,
            acknowledged: self.acknowledged,
            delay: self.delay,
        };
        self.predictions.seen(moment, &self.before, &self.shown);
        self.before = self.shown.copy(alloc)?;
        Ok(())
    }

    fn feed(&mut self, alloc: Global, text: &str) -> Result<bool, Fault> {
        self.term.feed(text.as_bytes())?;
        let shot = self.term.shot(alloc, 0)?;
        self.shown = RowShot::of(alloc, &shot)?;
        self.see(alloc)?;
        Ok(true)
    }

    fn type_act(&mut self, text: &str) -> Result<bool, Fault> {
        let act = read_act(text.as_bytes())?;
        self.typed = self.typed.saturating_add(1);
        self.predictions.typed(self.typed, &act, &self.shown);
        Ok(true)
    }

    fn acknowledge(&mut self, alloc: Global, text: &str) -> Result<bool, Fault> {
        let Ok(count) = text.parse::<u64>() else {
            return Ok(false);
        };
        self.acknowledged = count;
        self.see(alloc)?;
        Ok(true)
    }

    fn wait(&mut self, alloc: Global, text: &str) -> Result<bool, Fault> {
        let Ok(now) = text.parse::<u64>() else {
            return Ok(false);
        };
        self.now = now;
        self.see(alloc)?;
        Ok(true)
    }

    // Sets the milliseconds until input is shown.
    fn slow(&mut self, text: &str) -> bool {
        let Ok(delay) = text.parse::<u64>() else {
            return false;
        };
        self.delay = delay;
        true
    }

    // So many acts are typed that aren't to be predicted.
    fn paste(&mut self, text: &str) -> bool {
        let Ok(count) = text.parse::<u64>() else {
            return false;
        };
        self.typed = self.typed.saturating_add(count);
        self.predictions.end_with(self.typed);
        true
    }

    // So many acts are acknowledged, and the screen couldn't be kept.
    fn lose(&mut self, text: &str) -> bool {
        let Ok(count) = text.parse::<u64>() else {
            return false;
        };
        self.acknowledged = count;
        self.predictions.end(count);
        true
    }

    fn shows(&self, alloc: Global, words: &str) -> Result<bool, Fault> {
        let Some((text, col)) = words.split_once('|') else {
            return Ok(false);
        };
        let over = self.predictions.over(alloc, &self.shown)?;
        over.facts();
        let cursor = over.cursor();
        let row = over.row_text(alloc, cursor.0 - 1)?;
        Ok(is_text(&row, text) && col.parse::<u16>() == Ok(cursor.1))
    }

    fn does(&mut self, alloc: Global, line: &str) -> Result<bool, Fault> {
        let Some((verb, words)) = line.split_once(' ') else {
            return Ok(false);
        };
        match verb {
            "feed" => self.feed(alloc, words),
            "type" => self.type_act(words),
            "ack" => self.acknowledge(alloc, words),
            "at" => self.wait(alloc, words),
            "slow" => Ok(self.slow(words)),
            "paste" => Ok(self.paste(words)),
            "lose" => Ok(self.lose(words)),
            "shows" => self.shows(alloc, words),
            _ => Ok(false),
        }
    }
}

// Returns true if a row has a text, and spaces behind it.
fn is_text(row: &[char], text: &str) -> bool {
    let mut chars = text.chars();
    for c in row {
        if *c != chars.next().unwrap_or(' ') {
            return false;
        }
    }
    chars.next().is_none()
}

/// Independent stories with an empty line between them: a session of 4 rows and 20 columns, whose last row is the status row.
const STORIES: &str = "\
feed $\x20
type char 6c
feed l
type char 73
shows $ ls|5
lose 1
shows $ l|4
type char 74
shows $ l|4

feed $\x20
type char 6c
shows $|3
feed l
shows $ l|4
type char 73
shows $ ls|5
feed s
shows $ ls|5
type key return
shows $ ls|5
feed \x1B[2;1HPassword:
ack 3
type char 70
shows Password:|10
ack 4
at 99
at 500
type char 71
shows Password:|10

feed $\x20
type char 61
feed a
type char 62
shows $ ab|5
ack 2
feed \x07
at 99
shows $ ab|5
at 100
shows $ a|4
type char 63
shows $ a|4

feed $\x20
type char 61
feed a
type char 62
ack 2
at 99
shows $ ab|5
at 100
shows $ a|4
type char 63
shows $ a|4
feed bc
shows $ abc|6

feed $\x20
type char 6c
feed l
type char 73
type char 74
shows $ lst|6
ack 3
at 99
shows $ lst|6
at 100
shows $ l|4
type char 75
ack 4
type char 76
shows $ l|4
at 400
type char 77
shows $ l|4

feed $\x20
type char 61
feed a
type char 62
slow 8000
ack 2
at 149
shows $ ab|5
at 150
at 249
shows $ ab|5
at 250
shows $ a|4

feed $\x20
type char 61
feed a
type char 62
shows $ ab|5
paste 3
type char 66
shows $ ab|5
feed bcde
ack 5
type char 67
shows $ abcde|8

feed $\x20
type char 61
feed a
type char 62
type char 63
shows $ abc|6
type key backspace
shows $ ab|5
type char 64
shows $ abd|6
feed bc
shows $ abd|6
feed \x08\x20\x08d
shows $ abd|6

feed $\x20
type char 61
feed a
type key left
shows $ a|3
type char 62
shows $ a|3

feed $\x20
type char 20
feed \x20
type char 61
shows $|4
feed a
type char 62
shows $  ab|6

feed \x1B[1;7H\u{2502}\x1B[1;3H
type char 61
feed a
shows   a   \u{2502}|4
type char 62
shows   ab  \u{2502}|5
type char 63
shows   abc \u{2502}|6
type char 64
shows   abc \u{2502}|6

feed $ \u{754C}
type char 61
feed a
ack 1
type char 62
shows $ \u{754C}a|6

feed $\x20
type char 61
feed a
type char 62
shows $ ab|5
feed \x1B7\x1B[4;1H[2]\x1B8
shows $ a|4
type char 63
shows $ a|4

feed $\x20
type char 61
feed a
feed \x1B[?25l
type char 62
shows $ a|4";

// The first line of a story that isn't so.
fn first_untrue<'a>(alloc: Global, story: &'a str) -> Result<Option<&'a str>, Fault> {
    let mut stage = Stage::new(alloc)?;
    for line in story.lines() {
        if !stage.does(alloc, line)? {
            return Ok(Some(line));
        }
    }
    Ok(None)
}

#[test]
fn stories_of_keys(rt: HostRuntime) -> Result<(), Fail> {
    for story in STORIES.split("\n\n") {
        let wrong = first_untrue(rt.alloc(), story)?;
        assert!(rt; wrong.is_none(), "{wrong:?} in {story}");
    }
    Ok(())
}
