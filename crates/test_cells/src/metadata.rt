//! Worked rows: the metadata of bytes, by xterm's list of control sequences and the VT510's DECSCUSR.
use crate::readers::bytes_of;
use crate::words::{as_wanted, case_of};
use roam_pane_metadata::{Metadata, ModeState, Query, Settings, Tracking};
use std::alloc::{AllocError, Global};
use std::fmt::Write;
use std::test::Fail;

/// Rows of a heading, bytes and their metadata, with an empty line between them. A character of the bytes is the byte of its code, and `␊`
/// is LF. Metadata is listed if it differs from the first: `buttons`, `drags` or `motion`, `sgr`, `focus`, `paste`, `other` for the other
/// screen, `keypad` for its application codes, `keys N`, `shape N`, `bells N`, `title N TEXT`, or `title N taken back` if none is left,
/// `clip N TEXT`, `asked N` and the last sixteen questions.
const ROWS: &str = "\
nothing is said by text and renditions
a\x1B[1;31mb\u{E2}\u{82}\u{AC}\x1B[2J\x1B[0m␊\x1B[6n\x1B[:m\x1B(0
-

the mouse: the mode that was set last counts
\x1B[?1000h\x1B[?1002;1006h
drags sgr

a reset of any of its modes is one of all
\x1B[?1003h\x1B[?1000l
-

all motion, the focus, pastes between brackets, the other screen
\x1B[?1003;1004;2004;1049h
motion focus paste other

others are reset each by itself
\x1B[?1004;1006;2004;47h\x1B[?1004;47l
sgr paste

a private mode that isn't known, and a mode that isn't private
\x1B[?9999h\x1B[1000h\x1B[1002;1006h
-

the application codes of the keypad, among text and strings
a\x1B=b\x1B]0;c\x07
keypad title 1 c

DECKPNM, DECSTR and RIS make the keypad numeric
\x1B=\x1B>
-

the soft reset leaves the other modes
\x1B[?2004h\x1B=\x1B[!p
paste

the full reset
\x1B=\x1Bc
-

an escape sequence with intermediate bytes, and characters alone, are another thing
\x1B(=\x1B#=\x1B[=c=\x1B[?=
-

modifyOtherKeys
\x1B[>4;2m
keys 2

and its initial value
\x1B[>4;1m\x1B[>4m
-

and off
\x1B[>4;1m\x1B[>4n
-

another resource
\x1B[>4;1m\x1B[>1;2m\x1B[>2n
keys 1

the shape of the cursor
\x1B[5 q
shape 5

one that isn't there
\x1B[3 q\x1B[7 q
shape 3

bells, but not the one that ends a string
\x07\x1B[\x07m\x1B]0;a\x07\x07
bells 3 title 1 a

RIS resets what is set and takes the title back, which is counted, but no bell and no text for the clipboard
\x1B[?1000;1049h\x1B[4 q\x07\x1B]2;a\x1B\\\x1B]52;c;aGk=\x07\x1Bc
bells 1 title 2 taken back clip 1 aGk=

RIS where no title stands is counted by nothing
\x1Bc\x1B]2;a\x07\x1Bc\x1Bc
title 2 taken back

a title behind RIS
\x1Bc\x1B]2;a\x07
title 1 a

a title, RIS and a title
\x1B]2;a\x07b\x1Bc\x1B[1m\x1B]0;c\x1B\\
title 3 c

an empty title is one that RIS takes back
\x1B]2;\x07\x1Bc
title 2 taken back

RIS with text round it
\x1B]2;a\x07\u{E2}\u{82}\u{AC}b\x1Bcb\u{E2}\u{82}
title 2 taken back

RIS breaks off the title in which it comes, and takes back the one before it
\x1B]2;a\x07\x1B]2;b\x1Bc\x07
bells 1 title 2 taken back

RIS behind a title that ST ends, and behind an unfinished character and sequence
\x1B]2;a\x1B\\\x1Bc\x1B]2;b\u{C2}\u{9C}\u{E2}\u{82}\x1B[1\x1Bc
title 4 taken back

what is no RIS takes nothing back
\x1B]2;a\x07\x1B(c\x1B[c\x1BC\u{C2}\u{83}c\x1B\x18c
title 1 a

DECSTR resets nothing of it, and keeps the title
\x1B[?2004h\x1B[2 q\x1B]2;a\x07\x1B[!p
paste shape 2 title 1 a

titles of OSC 0 and 2, and none of OSC 1
\x1B]0;a\x07\x1B]1;b\x07\x1B]2;c \u{C3}\u{A9}\x1B\\
title 2 c \u{E9}

an empty title
\x1B]2;\x07
title 1 

what isn't printed is no part of a title
\x1B]2;a\x01\x7F\u{C2}\u{85}\u{E2}\u{80}\u{AE}b\x07
title 1 ab

a title that CAN breaks off is none
\x1B]2;a\x18b\x07
bells 1

a text for the clipboard
\x1B]52;c;aGk=\x07
clip 1 aGk=

without a selection
\x1B]52;;aGk=\x1B\\
clip 1 aGk=

for another selection
\x1B]52;p;aGk=\x07
-

a question is none
\x1B]52;c;?\x07
-

what is no base64 is none, and changes nothing
\x1B]52;c;aGk=\x07\x1B]52;c;aGk\x07\x1B]52;c;a*k=\x07
clip 1 aGk=

other strings say nothing
\x1BP0;a\x1B\\\x1B_2;a\x1B\\\x1B]8;;x\x07
-

questions for colours, ended by BEL and by ST
\x1B]10;?\x07\x1B]11;?\x1B\\\u{C2}\u{9D}10;?\u{C2}\u{9C}
asked 3 foreground-bell background foreground

whether a mode is set, as it is when that is asked
\x1B[?2026$p\x1B[?2004;2026h\x1B[?2004$p\x1B[?2026$p\x1Bc\x1B[?2004$p\x1B[?2026$p
asked 5 frames pastes-set frames-set pastes frames

each mode of the screen as it is at the start
\x1B[?1$p\x1B[?5$p\x1B[?6$p\x1B[?7$p\x1B[?25$p\x1B[4$p\x1B[20$p
asked 7 mode-1 mode-5 mode-6 mode-7-set mode-25-set ansi-4 ansi-20

each of them the other way, and after DECSTR, which leaves three of them
\x1B[?1;5;6h\x1B[?7;25l\x1B[4;20h\x1B[?1$p\x1B[?5$p\x1B[?6$p\x1B[?7$p\x1B[?25$p\x1B[4$p\x1B[20$p\x1B[!p\x1B[?1$p\x1B[?5$p\x1B[?6$p\x1B[?7$p\x1B[?25$p\x1B[4$p\x1B[20$p
asked 14 mode-1-set mode-5-set mode-6-set mode-7 mode-25 ansi-4-set ansi-20-set mode-1 mode-5-set mode-6 mode-7 mode-25-set ansi-4 ansi-20-set

RIS leaves none of them
\x1B[?1;5;6h\x1B[?7;25l\x1B[4;20h\x1Bc\x1B[?1$p\x1B[?5$p\x1B[?6$p\x1B[?7$p\x1B[?25$p\x1B[4$p\x1B[20$p
asked 7 mode-1 mode-5 mode-6 mode-7-set mode-25-set ansi-4 ansi-20

RM resets them
\x1B[4;20h\x1B[4l\x1B[4$p\x1B[20$p\x1B[20;4l\x1B[20$p
asked 3 ansi-4 ansi-20-set ansi-20

of the modes of the mouse the one that counts is set
\x1B[?1000;1006;1004h\x1B[?1000$p\x1B[?1002$p\x1B[?1003$p\x1B[?1004$p\x1B[?1006$p\x1B[?1002h\x1B[?1000$p\x1B[?1002$p
drags sgr focus asked 7 mode-1000-set mode-1002 mode-1003 mode-1004-set mode-1006-set mode-1000 mode-1002-set

the alternate screen
\x1B[?47$p\x1B[?1049h\x1B[?47$p\x1B[?1047$p\x1B[?1049$p
other asked 4 mode-47 mode-47-set mode-1047-set mode-1049-set

DECSC keeps DECOM, DECRC restores it, and resets it if none was kept
\x1B[?6h\x1B7\x1B[?6l\x1B8\x1B[?6$p\x1B[!p\x1B[?6h\x1B8\x1B[?6$p
asked 2 mode-6-set mode-6

1049 keeps it for the main screen, and the alternate screen has one of its own
\x1B[?6h\x1B[?1049h\x1B7\x1B[?6l\x1B[?1049h\x1B8\x1B[?6$p\x1B[?6l\x1B7\x1B8\x1B[?6$p\x1B[?1049l\x1B[?6$p\x1B[?6l\x1B[?1049l\x1B[?6$p
asked 4 mode-6-set mode-6 mode-6-set mode-6

a mode that isn't known; a number is at most 9999
\x1B[?3$p\x1B[2026$p\x1B[?99999$p
asked 3 mode-3-unknown ansi-2026-unknown mode-9999-unknown

what is asked of several modes is nothing
\x1B[?2026;2004$p\x1B[4;20$p\x1B[?2026p\x1B[>1$p
-

the size in characters, and no other report on the window
\x1B[18t\x1B[18;1t\x1B[14t\x1B[?18t\x1B[t\x1B[18$t
asked 2 size size

the terminal's name
\x1B[>q\x1B[>0q\x1B[>1q\x1B[>0;0q\x1B[q
asked 2 version version

in the order in which they were asked
\x1B[>q\x1B]11;?\x07a\x1B[1m\x1B[?2026$p\x1B]10;?\x1B\\
asked 4 version background-bell frames foreground

what is no question
\x1B]10;#fff\x07\x1B]12;?\x07\x1B]10;?;?\x07\x1B]10;?\x18\x1BP10;?\x1B\\\x1B]10;\x07
-

the last sixteen are kept
\x1B]10;?\x07\x1B[>q\x1B[>q\x1B[>q\x1B[>q\x1B[>q\x1B[>q\x1B[>q\x1B[>q\x1B[>q\x1B[>q\x1B[>q\x1B[>q\x1B[>q\x1B[>q\x1B[>q\x1B]11;?\x07
asked 17 version version version version version version version version version version version version version version version background-bell";

fn push_modes(text: &mut String, settings: Settings) -> Result<(), AllocError> {
    text.push_str(match settings.tracking {
        Tracking::Off => "",
        Tracking::Buttons => "buttons ",
        Tracking::Drags => "drags ",
        Tracking::Motion => "motion ",
    })?;
    for (is, name) in [
        (settings.sgr_reports, "sgr "),
        (settings.focus_reports, "focus "),
        (settings.bracketed_paste, "paste "),
        (settings.alternate_screen, "other "),
        (settings.application_keypad, "keypad "),
    ] {
        text.push_str(if is { name } else { "" })?;
    }
    Ok(())
}

fn push_number(text: &mut String, name: &str, number: u64) -> Result<(), AllocError> {
    if number > 0 {
        write!(text, "{name} {number} ")?;
    }
    Ok(())
}

fn push_mode(
    text: &mut String,
    name: &str,
    number: u16,
    state: ModeState,
) -> Result<(), AllocError> {
    let state = match state {
        ModeState::Unknown => "-unknown",
        ModeState::Set => "-set",
        ModeState::Reset => "",
    };
    write!(text, "{name}-{number}{state} ")
}

fn push_query(text: &mut String, query: Query) -> Result<(), AllocError> {
    text.push_str(match query {
        Query::Foreground { by_bell: false } => "foreground ",
        Query::Foreground { by_bell: true } => "foreground-bell ",
        Query::Background { by_bell: false } => "background ",
        Query::Background { by_bell: true } => "background-bell ",
        Query::Frames { is_set: false } => "frames ",
        Query::Frames { is_set: true } => "frames-set ",
        Query::Pastes { is_set: false } => "pastes ",
        Query::Pastes { is_set: true } => "pastes-set ",
        Query::PrivateMode { number, state } => return push_mode(text, "mode", number, state),
        Query::AnsiMode { number, state } => return push_mode(text, "ansi", number, state),
        Query::Size => "size ",
        Query::Version => "version ",
    })
}

fn push_queries(text: &mut String, metadata: &Metadata) -> Result<(), AllocError> {
    push_number(text, "asked", metadata.queries_asked())?;
    for query in metadata.queries() {
        push_query(text, *query)?;
    }
    Ok(())
}

fn push_title(text: &mut String, metadata: &Metadata) -> Result<(), AllocError> {
    push_number(text, "title", metadata.titles())?;
    match metadata.title() {
        Some(title) => {
            for c in title {
                text.push(*c)?;
            }
        }
        None => text.push_str(if metadata.titles() > 0 {
            "taken back "
        } else {
            ""
        })?,
    }
    Ok(())
}

// Returns the metadata as text.
fn told(alloc: Global, metadata: &Metadata) -> Result<String, AllocError> {
    let mut text = String::new(alloc);
    let settings = metadata.settings();
    push_modes(&mut text, settings)?;
    push_number(&mut text, "keys", u64::from(settings.other_keys))?;
    push_number(&mut text, "shape", u64::from(settings.shape))?;
    push_number(&mut text, "bells", settings.bells)?;
    push_title(&mut text, metadata)?;
    push_number(&mut text, "clip", metadata.clips())?;
    for byte in metadata.clip().unwrap_or(&[]) {
        text.push(char::from(*byte))?;
    }
    push_queries(&mut text, metadata)?;
    Ok(text)
}

// Returns the metadata after pieces with this cut, as text.
fn told_after_cut(alloc: Global, bytes: &[u8], cut: usize) -> Result<String, AllocError> {
    let mut metadata = Metadata::new(alloc);
    let (front, back) = bytes.split_at(cut.min(bytes.len()));
    metadata.feed(front);
    metadata.feed(back);
    told(alloc, &metadata)
}

fn told_by_bytes(alloc: Global, bytes: &[u8]) -> Result<String, AllocError> {
    let mut metadata = Metadata::new(alloc);
    for byte in bytes {
        metadata.feed(&[*byte]);
    }
    told(alloc, &metadata)
}

// Returns the metadata after all bytes of a line at the first cut at which it is not the expected one, or else that byte by byte.
fn first_told(alloc: Global, line: &str, wanted: &str) -> Result<String, AllocError> {
    let bytes = bytes_of(alloc, line)?;
    for cut in 0..=bytes.len() {
        let found = told_after_cut(alloc, &bytes, cut)?;
        if as_wanted(found.as_str()) != as_wanted(wanted) {
            return Ok(found);
        }
    }
    told_by_bytes(alloc, &bytes)
}

// Feeds a clip of so many characters, and returns how many of them are kept.
fn kept_of(alloc: Global, characters: usize) -> usize {
    let mut metadata = Metadata::new(alloc);
    metadata.feed(b"\x1B]52;c;");
    for _ in 0..characters / 4 {
        metadata.feed(b"aGkh");
    }
    metadata.feed(b"\x07");
    metadata.clip().unwrap_or(&[]).len()
}

// How many characters of a long title are kept.
fn title_of(alloc: Global, characters: usize) -> usize {
    let mut metadata = Metadata::new(alloc);
    metadata.feed(b"\x1B]0;");
    for _ in 0..characters {
        metadata.feed(b"a");
    }
    metadata.feed(b"\x07");
    metadata.title().unwrap_or(&[]).len()
}

#[test]
fn rows_of_what_is_said_metadata_a_screen(rt: HostRuntime) -> Result<(), Fail> {
    for case in ROWS.split("\n\n") {
        match case_of(case) {
            Some((name, line, wanted)) => {
                let found = first_told(rt.alloc(), line, wanted)?;
                assert_eq!(rt; as_wanted(found.as_str()), as_wanted(wanted), "{name}");
            }
            None => panic!(rt; "malformed case: {case}"),
        }
    }
    assert_eq!(rt; kept_of(rt.alloc(), 131_072), 131_072);
    assert_eq!(rt; kept_of(rt.alloc(), 131_076), 0);
    assert_eq!(rt; title_of(rt.alloc(), 201), 200);
    Ok(())
}
