//! The titles that programs set by ESC k, as in screen and tmux.
ghost use Rattle.std.specs.Prelude.{◌≡◌, ◌≤◌, ◌<◌, ◌-◌, ◌⊎◌, false, length, take, drop, slice_index, None};
ghost use Rattle.std.specs.Option.{option_map};
ghost use Rattle.roam_normalize.specs.Normalized.{is_title, most_title, title_scan};
ghost use Rattle.roam_normalize.specs.Titles.{IsEnd, IsTitleAt, front_title, newest, titles_part, with_letters};

use crate::fronts::{ESCAPE, front_length, still_run};

/// The most bytes of a title between ESC k and its end.
pub const MOST_TITLE: usize = 255;

/// CAN (ECMA-48, 8.3.6).
const CANCEL: u8 = 0x18;

/// SUB (ECMA-48, 8.3.148).
const SUBSTITUTE: u8 = 0x1A;

/// A whole title: how many bytes it has, and how many bytes of its end belong to it.
#[derive(Clone, Copy)]
pub struct Title {
    pub letters: usize,
    pub end: usize,
}

#[inline]
fn is_title(byte: u8) -> bool
    ensures title { result ≡ is_title byte }
{
    byte != CANCEL && byte != SUBSTITUTE && byte != ESCAPE
}

// Returns the number of bytes of a title, at most those of the longest one.
fn title_run(rest: &[u8]) -> usize
    ensures within { result ≤ length rest.now }
    ensures few { result ≤ most_title }
    ensures scan { title_scan most_title rest.now
        ≡ with_letters (take result rest.now) (title_scan (most_title - result) (drop result rest.now)) }
    ensures stops { result < length rest.now → (most_title ≤ result) ⊎ (is_title (slice_index rest.now result) ≡ false) }
{
    let mut at = 0;
    while at < rest.len() && at < MOST_TITLE && is_title(rest[at]) {
        at += 1;
    }
    at
}

// Returns how many bytes of the end of a title belong to it; `None` if the end is unfinished.
fn end_of(is_full: bool, rest: &[u8]) -> Option<usize>
    ensures end { IsEnd result is_full rest.now }
{
    match rest {
        [] => None,
        _ if is_full => Some(0),
        [ESCAPE] => None,
        [ESCAPE, b'\\', ..] => Some(2),
        [ESCAPE, ..] => Some(0),
        _ => Some(1),
    }
}

/// Returns the title behind ESC k; `None` if it is unfinished.
pub fn title_at(rest: &[u8]) -> Option<Title>
    ensures title { IsTitleAt result rest.now }
{
    let letters = title_run(rest);
    match end_of(letters == MOST_TITLE, &rest[letters..]) {
        None => None,
        Some(end) => Some(Title { letters, end }),
    }
}

// Returns the title at the front of some bytes.
fn front_title(bytes: &[u8]) -> Option<&[u8]>
    ensures title { newest (front_title bytes.now) None ≡ option_map (λ title. title.now) result }
{
    match bytes {
        [ESCAPE, b'k', rest @ ..] => {
            let title = title_at(rest)?;
            Some(&rest[..title.letters])
        }
        _ => None,
    }
}

/// Returns the last title of some bytes.
pub fn newest_title(bytes: &[u8]) -> Option<&[u8]>
    ensures title { option_map (λ title. title.now) result ≡ newest (titles_part bytes.now) None }
{
    let mut title = None;
    let mut at = 0;
    while at < bytes.len() {
        at += still_run(&bytes[at..]);
        let rest = &bytes[at..];
        let length = front_length(rest);
        if length == 0 {
            return title;
        }
        title = front_title(rest).or(title);
        at += length;
    }
    title
}
