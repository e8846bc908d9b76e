//! Worked rows: which control strings count among bytes, and with what text (ECMA-48, 5.6; xterm's end at BEL).
use crate::readers::bytes_of;
use crate::words::{as_wanted, case_of};
use roam_text::{StringEnd, StringKind, StringReader, StringStep};
use std::alloc::{AllocError, Global};
use std::fmt::Write;
use std::test::Fail;

/// Rows of a heading, bytes and their counted strings, each as its kind, its text between brackets and its end, with an empty line between
/// them. A character of the bytes is the byte of its code; `-` is no string.
const ROWS: &str = "\
an operating system command that BEL ends
\x1B]0;hi\x07x
OSC[0;hi]BEL

one that ESC 5C ends
\x1B]2;a\x1B\\
OSC[2;a]ESC5C

one that ST ends as one character, opened by OSC as one
\u{C2}\u{9D}5\u{C3}\u{A9}\u{C2}\u{9C}
OSC[5\u{E9}]ST

BEL belongs to every other string
\x1BPq\x07a\x1B\\
DCS[q\x07a]ESC5C

each opening has its kind
\x1BX\u{C2}\u{9C}\x1B^\u{C2}\u{9C}\x1B_\u{C2}\u{9C}\u{C2}\u{90}\u{C2}\u{9C}
SOS[]ST PM[]ST APC[]ST DCS[]ST

CAN and SUB break a string off
\x1B]0;a\x18\x07\x1B]1\x1A\x1B\\
-

another ESC breaks it off, and may open another
\x1B]0;a\x1B]1\x07\x1BPa\x1B[m
OSC[1]BEL

what stands between ESC and 5C breaks it off
\x1B]0\x1B\x00\\
-

ill-formed bytes are U+FFFD in it
\x1B]\u{E2}\u{82}A\x07
OSC[\u{FFFD}A]BEL

an intermediate byte makes ESC 5D no opening
\x1B ]0\x07
-

one inside a control sequence ends that
\x1B[1\x1B]0\x07
OSC[0]BEL";

fn kind_name(kind: StringKind) -> &'static str {
    match kind {
        StringKind::DeviceControl => "DCS[",
        StringKind::StartOfString => "SOS[",
        StringKind::SystemCommand => "OSC[",
        StringKind::PrivacyMessage => "PM[",
        StringKind::ApplicationProgram => "APC[",
    }
}

fn end_name(end: StringEnd) -> &'static str {
    match end {
        StringEnd::Bell => "]BEL ",
        StringEnd::Terminator => "]ST ",
        StringEnd::EscapedTerminator => "]ESC5C ",
    }
}

// Takes a step: the text that counts, and that of the string that is open.
fn take(counts: &mut String, open: &mut String, step: StringStep) -> Result<(), AllocError> {
    match step {
        StringStep::Nothing => {}
        StringStep::Opened(kind) => {
            open.clear();
            open.push_str(kind_name(kind))?;
        }
        StringStep::Added(c) => open.push(c)?,
        StringStep::Ended(end) => {
            write!(counts, "{}{}", open.as_str(), end_name(end))?;
        }
        StringStep::BrokenOff => open.clear(),
    }
    Ok(())
}

// The strings that count among some bytes.
fn strings_in(alloc: Global, bytes: &[u8]) -> Result<String, AllocError> {
    let mut reader = StringReader::new();
    let mut counts = String::new(alloc);
    let mut open = String::new(alloc);
    for byte in bytes {
        let steps = reader.next(*byte);
        take(&mut counts, &mut open, steps.first)?;
        take(&mut counts, &mut open, steps.later)?;
    }
    Ok(counts)
}

// The strings that count among the bytes of a line.
fn strings_of(alloc: Global, line: &str) -> Result<String, AllocError> {
    let bytes = bytes_of(alloc, line)?;
    strings_in(alloc, &bytes)
}

#[test]
fn rows_of_control_strings(rt: HostRuntime) -> Result<(), Fail> {
    for case in ROWS.split("\n\n") {
        match case_of(case) {
            Some((name, line, wanted)) => {
                let found = strings_of(rt.alloc(), line)?;
                assert_eq!(rt; as_wanted(found.as_str()), wanted, "{name}");
            }
            None => panic!(rt; "malformed case: {case}"),
        }
    }
    Ok(())
}

// A reader of strings is at rest exactly outside all of them, and between characters.
#[test]
fn a_reader_of_strings_rests(rt: HostRuntime) {
    let mut reader = StringReader::new();
    assert_eq!(rt; reader.is_at_rest(), true, "before all bytes");
    for (byte, rests) in [
        (b'\x1B', false),
        (b']', false),
        (b'a', false),
        (b'\x07', true),
        (0xE2, false),
    ] {
        reader.next(byte);
        assert_eq!(rt; reader.is_at_rest(), rests, "after byte {byte}");
    }
}
