//! The output of `roam show`: rows by ECMA-48, the VT220 and this project's profile, and the errors of a run.
use crate::streams::{Cut, Drip, Narrow, told};
use roam_cells::Fault;
use roam_faults::RunFault;
use roam_show::{push_number, push_numbered, run_show};
use std::alloc::{AllocError, Global};
use std::test::*;

// Runs, with an empty line between them: the rows and columns of the screen, and a name; the input; and the output.
const ROWS: &str = "\
2 8 EL clears a pending wrap
abcdefgh\x1B[Kx
|abcdefgx|
|        |
cursor 1 8 shown
output -

2 8 ICH moves the cells from the cursor on
abc\x1B[1G\x1B[2@x
|x abc   |
|        |
cursor 1 2 shown
output -

2 8 RI on the first row scrolls down
a\x1BMb
| b      |
|a       |
cursor 1 3 shown
output -

2 8 DECSEL leaves a guarded cell
a\x1B[1\"qb\x1B[0\"qc\x1B[?2K
| b      |
|        |
cursor 1 4 shown
output -

2 8 DECSED leaves a guarded cell
a\x1B[1\"qb\x1B[0\"qc\r\nd\x1B[?2J
| b      |
|        |
cursor 2 2 shown
output -

2 8 1049 saves and restores the cursor
ab\x1B[?1049hx\x1B[?1049lc
|abc     |
|        |
cursor 1 4 shown
output -

2 8 DCH of a right half leaves a space
1\u{4E2D}2\x1B[3G\x1B[P
|1 2     |
|        |
cursor 1 3 shown
output -

2 8 DCH of halves of two characters joins none
\u{4E2D}\u{4E2D}\x1B[2G\x1B[2P
|        |
|        |
cursor 1 2 shown
output -

2 8 REP writes the last character again
ab\x1B[3b
|abbbb   |
|        |
cursor 1 6 shown
output -

2 8 a move makes REP forget
ab\x1B[1G\x1B[3b
|ab      |
|        |
cursor 1 1 shown
output -

2 8 DECALN fills the screen
ab\x1B#8
|EEEEEEEE|
|EEEEEEEE|
cursor 1 1 shown
output -

2 8 IRM makes way
abc\x1B[1G\x1B[4hx\x1B[4ly
|xybc    |
|        |
cursor 1 3 shown
output -

2 8 HT without a stop goes to the last column
\x09b
|       b|
|        |
cursor 1 8 shown
output -

2 8 HTS sets a stop
ab\x1BH\r\x09x
|abx     |
|        |
cursor 1 4 shown
output -

2 8 TBC 3 clears all stops
ab\x1BH\r\x1B[3g\x09x
|ab     x|
|        |
cursor 1 8 shown
output -

2 8 CBT goes to the stop before
ab\x1BHcde\x1B[Zx
|abxde   |
|        |
cursor 1 4 shown
output -

2 8 SU leaves the cursor
a\r\nb\x1B[Sc
|b       |
| c      |
cursor 2 3 shown
output -

2 8 SD leaves the cursor
a\x1B[Tb
| b      |
|a       |
cursor 1 3 shown
output -

2 8 IL goes to the first column
ab\x1B[Lc
|c       |
|ab      |
cursor 1 2 shown
output -

2 8 DL takes the row out
abc\r\ndef\x1B[1;3H\x1B[Mx
|xef     |
|        |
cursor 1 2 shown
output -

2 8 ECH blanks cells
abcd\x1B[1G\x1B[2X
|  cd    |
|        |
cursor 1 1 shown
output -

2 8 DECRC goes back
a\x1B7bc\x1B8x
|axc     |
|        |
cursor 1 3 shown
output -

2 8 DECRC with nothing saved goes to the start
ab\x1B8x
|xb      |
|        |
cursor 1 2 shown
output -

2 8 RIS blanks the screen
ab\x1B[4h\x1Bcc
|c       |
|        |
cursor 1 2 shown
output -

2 8 DECSTR ends IRM and leaves the cursor
\x1B[4h\x1B[!pab\x1B[1Gx
|xb      |
|        |
cursor 1 2 shown
output -

2 8 47 leaves the cursor
ab\x1B[?47hc\x1B[?47l
|ab      |
|        |
cursor 1 4 shown
output -

2 8 1047 blanks the alternate screen
\x1B[?1047hx\x1B[?1047l\x1B[?47h
|        |
|        |
cursor 1 2 shown
output -

2 8 two lines
abc\r\ndef
|abc     |
|def     |
cursor 2 4 shown
output -

2 8 a line feed on the last row scrolls
a\r\nb\r\nc
|b       |
|c       |
cursor 2 2 shown
output -

2 8 ED 1 erases up to the cursor
abcd\x1B[1;3H\x1B[1J
|   d    |
|        |
cursor 1 3 shown
output -

2 8 CUP stops at the last row
\x1B[99999;1Hx
|        |
|x       |
cursor 2 2 shown
output -

2 8 a full row keeps the cursor
abcdefgh
|abcdefgh|
|        |
cursor 1 8 shown
output -

2 8 the next character wraps
abcdefghi
|abcdefgh|
|i       |
cursor 2 2 shown
output -

2 8 a wide character doesn't fit the last column
1234567\u{4E2D}
|1234567 |
|\u{4E2D}      |
cursor 2 3 shown
output -

2 8 three code points a cell
a\u{301}\u{301}\u{301}\u{301}
|a\u{301}\u{301}       |
|        |
cursor 1 2 shown
output -

2 8 a line feed inside a control sequence acts before it
a\x1B[2\n;3Hb
|a       |
|  b     |
cursor 2 4 shown
output -

2 8 DEC Special Graphics in G0
\x1B(0qx\x1B(Bq
|\u{2500}\u{2502}q     |
|        |
cursor 1 4 shown
output -

2 8 control strings show nothing
\x1B]0;t\x07y\x1BPqq\x1B\\z
|yz      |
|        |
cursor 1 3 shown
output -

2 8 CAN ends a control sequence
a\x1B[2\x18b
|ab      |
|        |
cursor 1 3 shown
output -

2 8 CSI as U+009B
\u{9B}2;3Hx
|        |
|  x     |
cursor 2 4 shown
output -

2 8 the United Kingdom set in G0
\x1B(A#
|\u{A3}       |
|        |
cursor 1 2 shown
output -

2 8 BS stops at the first column
ab\x08\x08\x08c
|cb      |
|        |
cursor 1 2 shown
output -

2 8 BS clears a pending wrap
abcdefgh\x08x
|abcdefxh|
|        |
cursor 1 8 shown
output -

2 8 VT and FF are line feeds
a\x0Bb\x0Cc
| b      |
|  c     |
cursor 2 4 shown
output -

2 8 IND and NEL as ESC and a byte
a\x1BDb\x1BEc
| b      |
|c       |
cursor 2 2 shown
output -

2 8 HVP is CUP
\x1B[2;3fx
|        |
|  x     |
cursor 2 4 shown
output -

2 8 CUP with parameters 0 and none
abc\x1B[0;0Hx\x1B[;3Hy\x1B[Hz
|zby     |
|        |
cursor 1 2 shown
output -

2 8 ED 0, ED 2, and ED 3, which is none
abcdefghijkl\x1B[1;3H\x1B[J\x1B[2;1Hm\x1B[3J
|ab      |
|m       |
cursor 2 2 shown
output -

2 8 ED 2 leaves the cursor
abc\x1B[2J
|        |
|        |
cursor 1 4 shown
output -

2 8 EL 0, in the last column too
abcdefgh\x1B[Kx
|abcdefgx|
|        |
cursor 1 8 shown
output -

2 8 EL 1 and EL 2
abcd\x1B[1;2H\x1B[1K\x1B[2;1Hef\x1B[2K
|  cd    |
|        |
cursor 2 3 shown
output -

2 8 locking shifts of G1, G2 and G3
\x1B)0\x1B*A\x1B+0\x0Eq\x0Fq\x1Bn#\x1Boq\x0F#
|\u{2500}q\u{A3}\u{2500}#   |
|        |
cursor 1 6 shown
output -

2 8 single shifts are spent by one character
\x1B*0\x1B+A\x1BNqq\x1BO##
|\u{2500}q\u{A3}#    |
|        |
cursor 1 5 shown
output -

2 8 a single shift is spent by a character that no set touches
\x1B*0\x1BN\u{4E2D}q
|\u{4E2D}q     |
|        |
cursor 1 4 shown
output -

2 8 a joined character in the first column is dropped
\u{301}a
|a       |
|        |
cursor 1 2 shown
output -

2 8 a joined character with a wrap pending joins the last cell
abcdefgh\u{301}i
|abcdefgh\u{301}|
|i       |
cursor 2 2 shown
output -

2 8 a joined character after a wide one joins its left half
\u{4E2D}\u{301}
|\u{4E2D}\u{301}      |
|        |
cursor 1 3 shown
output -

2 8 a character over half of a wide one makes a space of the other half
\u{4E2D}\x1B[1;1Hx\x1B[2;1H\u{4E2D}\x1B[2;2Hy
|x       |
| y      |
cursor 2 3 shown
output -

2 8 IND and NEL as one character
a\u{84}b\u{85}c
| b      |
|c       |
cursor 2 2 shown
output -

2 8 functions that are not listed
ab\x1B[5 q\x1B[1v\x07\x1B#3\x1B%GX
|abX     |
|        |
cursor 1 4 shown
output -

2 8 erasures with another parameter or an intermediate byte leave a pending wrap
abcdefgh\x1B[3J\x1B[ Ki
|abcdefgh|
|i       |
cursor 2 2 shown
output -

2 8 without DECAWM a wide character in the last column goes one column to the left
\x1B[?7l1234567\u{4E2D}
|123456\u{4E2D}|
|        |
cursor 1 8 shown
output -

2 8 resetting DECAWM clears a pending wrap, setting it leaves one
abcdefgh\x1B[?7hi\x1B[1;8Hh\x1B[?7l\x1B[?7hx
|abcdefgx|
|i       |
cursor 1 8 shown
output -

2 8 LNM lets a line feed return
\x1B[20hab\nc\x1B[20ld\x1B[Ae
|abe     |
|cd      |
cursor 1 4 shown
output -

2 8 SGR, a keypad mode and a guard leave a pending wrap
abcdefgh\x1B[1m\x1B=\x1B>\x1B[1\"qi
|abcdefgh|
|i       |
cursor 2 2 shown
output -

2 8 a character over the left half of a wide one leaves a space in its right
\u{4E2D}\x1B[1Gx
|x       |
|        |
cursor 1 2 shown
output -

2 8 a character over the right half of a wide one leaves a space in its left
\u{4E2D}\x1B[2Gy
| y      |
|        |
cursor 1 3 shown
output -

2 8 a line feed inside CUF acts before it
a\x1B[2\nCb
|a       |
|   b    |
cursor 2 5 shown
output -

2 8 a colon in a control sequence makes it void
a\x1B[1:2Cb
|ab      |
|        |
cursor 1 3 shown
output -

2 8 primary device attributes are answered
\x1B[c
|        |
|        |
cursor 1 1 shown
output 1b5b3f36323b3663

6 8 margins that do not rise are not taken
\x1B[5;5r\x1B[4;2r\x1B[9B
|        |
|        |
|        |
|        |
|        |
|        |
cursor 6 1 shown
output -

6 8 CUD stops at the bottom margin
\x1B[2;4r\x1B[9999B
|        |
|        |
|        |
|        |
|        |
|        |
cursor 4 1 shown
output -

6 8 CUD from below the bottom margin stops at the last row
\x1B[2;4r\x1B[5;3H\x1B[9B
|        |
|        |
|        |
|        |
|        |
|        |
cursor 6 3 shown
output -

6 8 CUU stops at the top margin
\x1B[2;4r\x1B[3;5H\x1B[9A
|        |
|        |
|        |
|        |
|        |
|        |
cursor 2 5 shown
output -

6 8 CUU from above the top margin stops at the first row
\x1B[3;5r\x1B[2;5H\x1B[9A
|        |
|        |
|        |
|        |
|        |
|        |
cursor 1 5 shown
output -

6 8 a bottom margin beyond the screen, or none, is the last row
\x1B[3;99r\x1B[3;1H\x1B[9B\x1B[2r\x1B[9B
|        |
|        |
|        |
|        |
|        |
|        |
cursor 6 1 shown
output -

6 8 margins send the cursor home
\x1B[4;4H\x1B[2;5r
|        |
|        |
|        |
|        |
|        |
|        |
cursor 1 1 shown
output -

6 8 CUF and CUB stop at the edges
\x1B[99C\x1B[B\x1B[3D\x1B[B\x1B[99D\x1B[0C
|        |
|        |
|        |
|        |
|        |
|        |
cursor 3 2 shown
output -

6 8 CNL and CPL go to the first column
\x1B[3;4H\x1B[2E\x1B[C\x1B[F
|        |
|        |
|        |
|        |
|        |
|        |
cursor 4 1 shown
output -

6 8 CHA and HPA
\x1B[5G\x1B[B\x1B[99`\x1B[B\x1B[3`
|        |
|        |
|        |
|        |
|        |
|        |
cursor 3 3 shown
output -

6 8 HPR, VPR and VPA
\x1B[3a\x1B[2e\x1B[5d
|        |
|        |
|        |
|        |
|        |
|        |
cursor 5 4 shown
output -

6 8 DECOM goes home, and rows count from the top margin
\x1B[3;5r\x1B[4;4H\x1B[?6h\x1B[2;4H
|        |
|        |
|        |
|        |
|        |
|        |
cursor 4 4 shown
output -

6 8 under DECOM rows stop at the bottom margin
\x1B[3;5r\x1B[?6h\x1B[9;2H
|        |
|        |
|        |
|        |
|        |
|        |
cursor 5 2 shown
output -

6 8 VPA under DECOM
\x1B[3;5r\x1B[?6h\x1B[2;3H\x1B[3d
|        |
|        |
|        |
|        |
|        |
|        |
cursor 5 3 shown
output -

6 8 resetting DECOM goes home
\x1B[3;5r\x1B[?6h\x1B[2;3H\x1B[?6l
|        |
|        |
|        |
|        |
|        |
|        |
cursor 1 1 shown
output -

6 8 a report of the cursor under DECOM
\x1B[3;5r\x1B[?6h\x1B[2;4H\x1B[6n
|        |
|        |
|        |
|        |
|        |
|        |
cursor 4 4 shown
output 1b5b323b3452

6 8 reports of the cursor, the status, the printer
\x1B[4;4H\x1B[6n\x1B[5n\x1B[?15n
|        |
|        |
|        |
|        |
|        |
|        |
cursor 4 4 shown
output 1b5b343b34521b5b306e1b5b3f31336e

6 8 both device attributes
\x1B[c\x1B[0;5c\x1B[>c
|        |
|        |
|        |
|        |
|        |
|        |
cursor 1 1 shown
output 1b5b3f36323b36631b5b3f36323b36631b5b3e313b31303b3063

6 8 reports that are not listed
\x1B[7n\x1B[1c\x1B[>1c\x1B[?6n\x1B[?c\x1B[>6n\x1B[ c
|        |
|        |
|        |
|        |
|        |
|        |
cursor 1 1 shown
output -

6 8 DECTCEM among several modes, one of which is not kept
\x1B[?25l\x1B[?25h\x1B[?7;25;3l
|        |
|        |
|        |
|        |
|        |
|        |
cursor 1 1 hidden
output -";

/// A name, a screen's size, an input, and its output without the first bar and the last line feed.
#[derive(Clone, Copy)]
struct Run<'a> {
    name: &'a str,
    rows: u16,
    cols: u16,
    input: &'a [u8],
    inside: &'a str,
}

// Returns a run; `None` if the text is malformed.
fn run_of(block: &str) -> Option<Run<'_>> {
    let (name, rest) = block.split_once('\n')?;
    let (input, inside) = rest.split_once("\n|")?;
    let mut words = name.split(' ');
    Some(Run {
        name,
        rows: words.next()?.parse::<u16>().ok()?,
        cols: words.next()?.parse::<u16>().ok()?,
        input: input.as_bytes(),
        inside,
    })
}

// Returns the expected output of a run.
fn wanted_of(alloc: Global, run: &Run<'_>) -> Result<String, AllocError> {
    format!(in alloc; "|{}\n", run.inside)
}

// Returns the output of a run with its input in pieces of a size except the first, and then its error, if it has one.
fn shown_by(
    alloc: Global,
    run: &Run<'_>,
    first: usize,
    later: usize,
) -> Result<String, AllocError> {
    let mut out = Vec::new(alloc);
    let mut reader = Cut::new(run.input, first, later);
    let ran = run_show(alloc, run.rows, run.cols, &mut reader, &mut out);
    told(alloc, &out, ran)
}

// Returns the first output that is not the expected one, or else the expected one, with the input cut in two at each place, byte by byte,
// by twos and threes, and whole.
fn first_shown(alloc: Global, run: &Run<'_>, wanted: &str) -> Result<String, AllocError> {
    for cut in 1..run.input.len() {
        let found = shown_by(alloc, run, cut, usize::MAX)?;
        if found.as_str() != wanted {
            return Ok(found);
        }
    }
    for size in [1, 2, 3] {
        let found = shown_by(alloc, run, size, size)?;
        if found.as_str() != wanted {
            return Ok(found);
        }
    }
    shown_by(alloc, run, usize::MAX, usize::MAX)
}

#[test]
fn rows_of_show(rt: HostRuntime) -> Result<(), Fail> {
    for block in ROWS.split("\n\n") {
        match run_of(block) {
            Some(run) => {
                let wanted = wanted_of(rt.alloc(), &run)?;
                let found = first_shown(rt.alloc(), &run, wanted.as_str())?;
                assert_eq!(rt; found, wanted, "{}", run.name);
            }
            None => panic!(rt; "malformed case: {block:?}"),
        }
    }
    Ok(())
}

// A broken character is U+FFFD, and the byte after it is read; and no input at all.
const BROKEN: Run<'static> = Run {
    name: "a broken character",
    rows: 2,
    cols: 8,
    input: b"\xE4\xB8\x41",
    inside: "\u{FFFD}A      |\n|        |\ncursor 1 3 shown\noutput -",
};

const NOTHING: Run<'static> = Run {
    name: "no input",
    rows: 2,
    cols: 8,
    input: b"",
    inside: "        |\n|        |\ncursor 1 1 shown\noutput -",
};

#[test]
fn broken_characters_and_none(rt: HostRuntime) -> Result<(), Fail> {
    for run in [BROKEN, NOTHING] {
        let wanted = wanted_of(rt.alloc(), &run)?;
        let found = first_shown(rt.alloc(), &run, wanted.as_str())?;
        assert_eq!(rt; found, wanted, "{}", run.name);
    }
    Ok(())
}

fn numbers_behind_words(alloc: Global) -> Result<String, AllocError> {
    let mut text = String::new(alloc);
    push_numbered(&mut text, "state ", 18_446_744_073_709_551_615u64)?;
    push_number(&mut text, "view ", -1i16)?;
    Ok(text)
}

#[test]
fn numbers_stand_behind_words(rt: HostRuntime) -> Result<(), Fail> {
    let found = numbers_behind_words(rt.alloc())?;
    assert_eq!(rt; found.as_str(), "state 18446744073709551615\nview -1");
    Ok(())
}

fn numbered_lines(alloc: Global) -> Result<String, AllocError> {
    let mut input = String::new(alloc);
    for line in 1..5001 {
        write!(input, "{line}\r\n")?;
    }
    Ok(input)
}

// Returns the output of a run in pieces of a size, and the expected one.
fn shown_and_wanted(
    alloc: Global,
    run: &Run<'_>,
    size: usize,
) -> Result<(String, String), AllocError> {
    let wanted = wanted_of(alloc, run)?;
    let found = shown_by(alloc, run, size, size)?;
    Ok((found, wanted))
}

fn scrolled(alloc: Global) -> Result<(String, String), AllocError> {
    let input = numbered_lines(alloc)?;
    let run = Run {
        name: "5,000 lines",
        rows: 3,
        cols: 8,
        input: input.as_bytes(),
        inside: "4999    |\n|5000    |\n|        |\ncursor 3 1 shown\noutput -",
    };
    shown_and_wanted(alloc, &run, usize::MAX)
}

fn push_times(text: &mut String, part: &str, times: u32) -> Result<(), AllocError> {
    for _ in 0..times {
        text.push_str(part)?;
    }
    Ok(())
}

// The text of the largest screen whose cells have three code points each.
fn joined_text(alloc: Global) -> Result<String, AllocError> {
    let mut row = String::new(alloc);
    push_times(&mut row, "a\u{301}\u{302}", 250)?;
    row.push_str("|\n|")?;
    let mut text = String::new(alloc);
    push_times(&mut text, row.as_str(), 100)?;
    Ok(text)
}

// 125,000 bytes in, 125,533 out.
fn written_whole(alloc: Global) -> Result<(String, String), AllocError> {
    let mut input = String::new(alloc);
    push_times(&mut input, "a\u{301}\u{302}", 25_000)?;
    let text = joined_text(alloc)?;
    let rows = text.as_str().strip_suffix('|').unwrap_or("");
    let inside = format!(in alloc; "{rows}cursor 100 250 shown\noutput -")?;
    let run = Run {
        name: "the largest screen",
        rows: 100,
        cols: 250,
        input: input.as_bytes(),
        inside: inside.as_str(),
    };
    shown_and_wanted(alloc, &run, usize::MAX)
}

#[test]
fn many_lines_scroll_and_the_largest_screen_is_written_whole(rt: HostRuntime) -> Result<(), Fail> {
    let (found, wanted) = scrolled(rt.alloc())?;
    assert_eq!(rt; found, wanted, "5,000 lines");
    let (found, wanted) = written_whole(rt.alloc())?;
    assert_eq!(rt; found, wanted, "the largest screen");
    Ok(())
}

// Returns the output for a million times one byte between two texts, in pieces of 1,024, on 2 by 8, and the expected one.
fn long_shown(
    alloc: Global,
    first: &str,
    part: &str,
    last: &str,
    inside: &str,
) -> Result<(String, String), AllocError> {
    let mut input = String::from_str(alloc, first)?;
    push_times(&mut input, part, 1_000_000)?;
    input.push_str(last)?;
    let run = Run {
        name: first,
        rows: 2,
        cols: 8,
        input: input.as_bytes(),
        inside,
    };
    shown_and_wanted(alloc, &run, 1024)
}

// A device control string shows nothing whatever its length, and the number of a control sequence stops at its limit.
#[test]
fn a_million_bytes(rt: HostRuntime) -> Result<(), Fail> {
    let string = "z       |\n|        |\ncursor 1 2 shown\noutput -";
    let sequence = "        |\n|        |\ncursor 1 8 shown\noutput -";
    let (found, wanted) = long_shown(rt.alloc(), "\x1BP", "A", "\x1B\\z", string)?;
    assert_eq!(rt; found, wanted, "a device control string");
    let (found, wanted) = long_shown(rt.alloc(), "\x1B[", "1", "C", sequence)?;
    assert_eq!(rt; found, wanted, "a control sequence");
    Ok(())
}

// Returns how a run of three bytes ends that fails at a read, and how many bytes it writes.
fn end_at_read(alloc: Global, fails_at: u32) -> (Result<(), RunFault>, usize) {
    let mut out = Vec::new(alloc);
    let mut reader = Cut::new(b"abc", 1, 1);
    reader.fails_at = fails_at;
    let ran = run_show(alloc, 2, 8, &mut reader, &mut out);
    (ran, out.len())
}

// Returns how a run on a screen of a size ends, and how many bytes it writes.
fn end_of_size(alloc: Global, rows: u16, cols: u16) -> (Result<(), RunFault>, usize) {
    let mut out = Vec::new(alloc);
    let ran = run_show(alloc, rows, cols, &mut b"abc".as_slice(), &mut out);
    (ran, out.len())
}

#[test]
fn sizes_outside_the_limits_and_failed_reads_write_nothing(rt: HostRuntime) {
    for (rows, cols) in [(1, 8), (0, 8), (201, 8), (2, 3), (2, 501), (65535, 65535)] {
        let (ran, written) = end_of_size(rt.alloc(), rows, cols);
        assert_eq!(rt;
            ran,
            Err(RunFault::Core(Fault::BadSize)),
            "{rows} by {cols}"
        );
        assert_eq!(rt; written, 0, "{rows} by {cols}");
    }
    for fails_at in 1..5u32 {
        let (ran, written) = end_at_read(rt.alloc(), fails_at);
        assert_eq!(rt; ran, Err(RunFault::Read), "read {fails_at}");
        assert_eq!(rt; written, 0, "read {fails_at}");
    }
}

// The 46 bytes of a blank screen of 2 by 8 take seven calls of seven bytes, and a flush.
#[test]
fn a_write_that_fails_is_told(rt: HostRuntime) {
    for fails_at in 0..10u32 {
        let mut writer = Narrow { calls: 0, fails_at };
        let ran = run_show(rt.alloc(), 2, 8, &mut b"".as_slice(), &mut writer);
        let wanted = if 1 <= fails_at && fails_at <= 8 {
            Err(RunFault::Write)
        } else {
            Ok(())
        };
        assert_eq!(rt; ran, wanted, "call {fails_at}");
    }
}

// The end has to be seen within 16,777,216 reads: that read may be the last of them.
#[test]
fn a_reader_that_goes_on_is_given_up(rt: HostRuntime) {
    for (left, wanted) in [(16_777_215, Ok(())), (16_777_216, Err(RunFault::Read))] {
        let mut out = Vec::new(rt.alloc());
        let ran = run_show(rt.alloc(), 2, 8, &mut Drip { left }, &mut out);
        assert_eq!(rt; ran, wanted, "{left} bytes");
    }
}
