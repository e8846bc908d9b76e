//! Worked rows: the meaning of bytes that this project's profile reads otherwise, by xterm's list of control sequences, ISO 8613-6 and the
//! VT220.
use crate::readers::bytes_of;
use roam_normalize::{Filter, MOST_BODY, MOST_HELD, MOST_TITLE};
use std::alloc::{AllocError, Global};

/// Rows of a heading, bytes and their output, with an empty line between them. A character is the byte of its code, `␊` is LF, and `‐` the
/// three bytes of U+2010.
const ROWS: &str = "\
what has no other meaning goes through
a\u{C3}\u{A9}\x1B[1;31mb\x1B[m\x1B[?25l\x1B]0;4:3\x07\x1B[>4;2m\x1B[3 q␊
a\u{C3}\u{A9}\x1B[1;31mb\x1B[m\x1B[?25l\x1B]0;4:3\x07\x1B[>4;2m\x1B[3 q␊

a line of some form is a line, and no form is none
\x1B[4:3mx\x1B[4:0m
\x1B[4mx\x1B[24m

each parameter is written by itself then
\x1B[1;4:3;31m
\x1B[1m\x1B[4m\x1B[31m

an indexed colour behind colons
\x1B[38:5:120m\x1B[48:5:7m
\x1B[38;5;120m\x1B[48;5;7m

a mixture with a colour space, an empty one, and none
\x1B[38:2:1:10:20:30m\x1B[48:2::1:2:3m\x1B[38:2:4:5:6m
\x1B[38;2;10;20;30m\x1B[48;2;1;2;3m\x1B[38;2;4;5;6m

sub-parameters behind a mixture don't matter
\x1B[38:2::1:2:3:9:9m
\x1B[38;2;1;2;3m

sub-parameters that say nothing here
x\x1B[58:2::1:2:3m\x1B[38:9m\x1B[7:1my
xy

colours of lines go out, with their numbers
\x1B[58;5;1mx\x1B[58;2;1;2;3;1m\x1B[59m\x1B[4;59m
x\x1B[1m\x1B[4m

58 and 59 as the number of a colour are no colour of a line
\x1B[38;5;58m\x1B[48;2;59;58;59m
\x1B[38;5;58m\x1B[48;2;59;58;59m

colours stay with their numbers
\x1B[38;5;59;4:3;48;2;1;2;58m
\x1B[38;5;59m\x1B[4m\x1B[48;2;1;2;58m

an empty parameter resets
\x1B[;4:1m
\x1B[m\x1B[4m

sixteen parameters go through
\x1B[1;2;3;4;5;6;7;8;9;0;1;2;3;4;5;6m
\x1B[1;2;3;4;5;6;7;8;9;0;1;2;3;4;5;6m

seventeen are written one by one
\x1B[1;1;1;1;1;1;1;1;1;1;1;1;1;38;5;4;7m
\x1B[1m\x1B[1m\x1B[1m\x1B[1m\x1B[1m\x1B[1m\x1B[1m\x1B[1m\x1B[1m\x1B[1m\x1B[1m\x1B[1m\x1B[1m\x1B[38;5;4m\x1B[7m

58 and 59 are values of a colour among seventeen
\x1B[1;1;1;1;1;1;1;1;1;1;1;1;1;1;38;5;58m
\x1B[1m\x1B[1m\x1B[1m\x1B[1m\x1B[1m\x1B[1m\x1B[1m\x1B[1m\x1B[1m\x1B[1m\x1B[1m\x1B[1m\x1B[1m\x1B[1m\x1B[38;5;58m

so are they of a mixture
\x1B[1;1;1;1;1;1;1;1;1;1;1;1;48;2;58;59;1m
\x1B[1m\x1B[1m\x1B[1m\x1B[1m\x1B[1m\x1B[1m\x1B[1m\x1B[1m\x1B[1m\x1B[1m\x1B[1m\x1B[1m\x1B[48;2;58;59;1m

zeros that lead a number change nothing
\x1B[04:3;038;05;1;0058;5;2;048:05:7;4:00m
\x1B[4m\x1B[038;05;1m\x1B[48;5;7m\x1B[24m

the cursor is saved and restored
\x1B[s\x1B[1;2s\x1B[u\x1B[?1u
\x1B7\x1B[1;2s\x1B8\x1B[?1u

DECCOLM clears
\x1B[?3hx\x1B[?40;3l\x1B[?33h\x1B[3h
\x1B[?3h\x1B[r\x1B[2J\x1B[Hx\x1B[?40;3l\x1B[r\x1B[2J\x1B[H\x1B[?33h\x1B[3h

the soft hyphen
soft\u{C2}\u{AD}hyphen\u{C2}\u{A9}
soft‐hyphen\u{C2}\u{A9}

a title goes out as nothing
ab\x1Bkuser@host: ~\x1B\\cd\x1Bk\x1B\\e
abcde

BEL is a byte of a title, and C2 too
x\x1Bka\x07b\u{C2}\u{AD}\x1B\\y
xy

CAN and SUB end a title
x\x1Bkone\x18y\x1Bktwo\x1Az
xyz

another sequence ends a title, and goes through
x\x1Bkone\x1B[1my\x1Bktwo\x1Bkthree\x1B\\z
x\x1B[1myz

a control inside a sequence leaves it as it is
\x1B[4:␊3m\x1B[4:\x1B[4:3m
\x1B[4:␊3m\x1B[4:\x1B[4m";

// Returns the output for some bytes with a cut there.
fn normalized(alloc: Global, bytes: &[u8], cut: usize) -> Result<Vec<u8>, AllocError> {
    let mut filter = Filter::new(alloc);
    let (front, back) = bytes.split_at(cut.min(bytes.len()));
    let mut out = filter.feed(front)?;
    out.extend_from_slice(&filter.feed(back)?)?;
    Ok(out)
}

fn normalized_by_bytes(alloc: Global, bytes: &[u8]) -> Result<Vec<u8>, AllocError> {
    let mut filter = Filter::new(alloc);
    let mut out = Vec::new(alloc);
    for byte in bytes {
        out.extend_from_slice(&filter.feed(&[*byte])?)?;
    }
    Ok(out)
}

// Returns the bytes of a line, with `‐` for those of U+2010.
fn wanted_of(alloc: Global, line: &str) -> Result<Vec<u8>, AllocError> {
    let mut bytes = Vec::new(alloc);
    for (place, part) in line.split('‐').enumerate() {
        if place > 0 {
            bytes.extend_from_slice(&[0xE2, 0x80, 0x90])?;
        }
        bytes.extend_from_slice(&bytes_of(alloc, part)?)?;
    }
    Ok(bytes)
}

fn is_normalized(answer: Result<Vec<u8>, AllocError>, wanted: &[u8]) -> bool {
    matches!(answer, Ok(out) if out.as_slice() == wanted)
}

fn holds(alloc: Global, block: &str) -> bool {
    let (_, rest) = block.split_once('\n').unwrap_or((block, ""));
    let (line, wanted) = rest.split_once('\n').unwrap_or((rest, ""));
    let (Ok(bytes), Ok(wanted)) = (bytes_of(alloc, line), wanted_of(alloc, wanted)) else {
        return false;
    };
    (0..=bytes.len()).all(|cut| is_normalized(normalized(alloc, &bytes, cut), &wanted))
        && is_normalized(normalized_by_bytes(alloc, &bytes), &wanted)
}

// How many bytes of a control sequence with so many digits go out before its final byte comes.
fn gone_out(alloc: Global, digits: usize) -> usize {
    let mut filter = Filter::new(alloc);
    let mut out = filter.feed(b"\x1B[").map_or(0, |out| out.len());
    for _ in 0..digits {
        let more = filter.feed(b"1").map_or(0, |out| out.len());
        out = out.saturating_add(more);
    }
    out
}

// How many bytes go out for a title with so many letters, with its end and a letter behind it.
fn left_of_title(alloc: Global, letters: usize) -> usize {
    let mut filter = Filter::new(alloc);
    let mut out = filter.feed(b"\x1Bk").map_or(0, |out| out.len());
    for _ in 0..letters {
        let more = filter.feed(b"x").map_or(0, |out| out.len());
        out = out.saturating_add(more);
    }
    let end = filter.feed(b"\x1B\\y").map_or(0, |out| out.len());
    out.saturating_add(end)
}

// Returns true if the last title of these pieces is this one.
fn is_last_title(alloc: Global, first: &[u8], piece: &[u8], wanted: Option<&[u8]>) -> bool {
    let mut filter = Filter::new(alloc);
    filter.feed(first).is_ok()
        && matches!(filter.title(piece), Ok(title) if title.as_deref() == wanted)
}

#[test]
fn rows_of_what_is_normalized(rt: HostRuntime) {
    for block in ROWS.split("\n\n") {
        assert!(rt; holds(rt.alloc(), block), "{block}");
    }
    assert_eq!(rt; gone_out(rt.alloc(), MOST_BODY), 0);
    assert_eq!(rt; gone_out(rt.alloc(), MOST_BODY + 1), MOST_HELD + 1);
    assert_eq!(rt; left_of_title(rt.alloc(), MOST_TITLE - 1), 1);
    assert_eq!(rt; left_of_title(rt.alloc(), MOST_TITLE), 3);
    assert_eq!(rt; left_of_title(rt.alloc(), MOST_TITLE + 1), 4);
    assert!(rt;
        is_last_title(
            rt.alloc(),
            b"\x1Bkone\x1B\\\x1Bktw",
            b"o\x1B\\three",
            Some(b"two")
        )
    );
    assert!(rt; is_last_title(rt.alloc(), b"\x1Bkone\x1B\\", b"\x1Bktwo\x1B", None));
}
