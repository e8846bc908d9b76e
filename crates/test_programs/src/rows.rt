//! The output of `roam rows`: the rows that leave by ECMA-48, the VT220 and this project's profile, and the errors of bad records.
use crate::streams::{Cut, Narrow, text_of, told};
use roam_scrollback_stream::{RowsFault, run_rows};
use std::alloc::{AllocError, Global};
use std::test::*;

// Cases, with a line = between them: the rows and columns of the screen, and a name; the input; the lines of the rows that leave, each
// behind a bar; and behind two bars those of the screen.
const CASES: &str = "\
2 8 a line feed in the last row
a\r\nb\r\nc
| a
|| b
|| c
=
2 4 autowrap goes on
abcdefghij\r\nk
|+abcd
|+efgh
|| ij
|| k
=
2 4 a line that ends in the last column doesn't go on
abcd\r\ne\r\nf
| abcd
|| e
|| f
=
3 4 what is written over after a wrap still goes on, and what is erased doesn't
abcde\x1B[1;1Hxy\x1B[3;1H\x1BD
|+xycd
|| e
||\x20
||\x20
=
3 4 a row whose end is erased doesn't go on
abcde\x1B[1;3H\x1B[K\x1B[3;1H\x1BD
| ab
|| e
||\x20
||\x20
=
2 8 styles
\x1B[1ma\x1B[31mb\x1B[mc\r\n\r\n
| \x1B[0;1ma\x1B[0;1;38;5;1mb\x1B[0mc
||\x20
||\x20
=
2 8 a style at the end of a row is ended, and blanks in a style are told
\x1B[7ma \r\n\r\n
| \x1B[0;7ma \x1B[0m
||\x20
||\x20
=
2 4 blanks at the end of a row that goes on
ab  cd\r\n
|+ab\x20\x20
|| cd
||\x20
=
2 4 a wide character that goes to the next row
abc\u{4E2D}\r\n
|+abc
|| \u{4E2D}
||\x20
=
3 4 a blank that was typed in the last column is text, and one that a wide character left there isn't
abc \u{4E2D}\r\nabc\u{4E2D}\r\n
|+abc\x20
| \u{4E2D}
||+abc
|| \u{4E2D}
||\x20
=
3 4 SU
a\r\nb\r\nc\x1B[2S
| a
| b
|| c
||\x20
||\x20
=
2 4 REP brings every row
a\x1B[20b
|+aaaa
|+aaaa
|+aaaa
|+aaaa
||+aaaa
|| a
=
2 4 none leaves the other screen
a\r\nb\x1B[?1049h1\r\n2\r\n3\r\n4\x1B[?1049l\r\nc
| a
|| b
|| c
=
3 4 IL and DL and scrolls below the first row send none
\x1B[2;3r\x1B[2;1Ha\r\nb\r\nc\x1B[L\x1B[M\x1B[3S
||\x20
||\x20
||\x20
=
2 4 RIS sends none
a\r\nb\x1Bc\r\n\r\n
|\x20
||\x20
||\x20";

fn number_in(word: Option<&str>) -> Option<u16> {
    word?.parse::<u16>().ok()
}

/// A case: its first line, the size of the screen there, the bytes, and what follows its first bar.
#[derive(Clone, Copy)]
struct Case<'a> {
    name: &'a str,
    rows: u16,
    cols: u16,
    bytes: &'a str,
    inside: &'a str,
}

// Returns a case; `None` if the text is malformed.
fn case_of(text: &str) -> Option<Case<'_>> {
    let (name, rest) = text.split_once('\n')?;
    let (bytes, inside) = rest.split_once("\n|")?;
    let mut words = name.split(' ');
    let rows = number_in(words.next())?;
    let cols = number_in(words.next())?;
    Some(Case {
        name,
        rows,
        cols,
        bytes,
        inside,
    })
}

// Returns the lines behind a bar, each with its LF, and their number.
fn lines_behind(alloc: Global, text: &str, is_shown: bool) -> Result<(String, usize), AllocError> {
    let mut lines = String::new(alloc);
    let mut count = 0usize;
    for line in text.split('\n') {
        let shown = line.strip_prefix("|");
        let found = if is_shown {
            shown
        } else if shown.is_none() {
            Some(line)
        } else {
            None
        };
        if let Some(found) = found {
            lines.push_str(found)?;
            lines.push('\n')?;
            count = count.saturating_add(1);
        }
    }
    Ok((lines, count))
}

// Returns the records of a case, and the expected output.
fn records_of(alloc: Global, case: Case<'_>) -> Result<(String, String), AllocError> {
    let (rows, cols, bytes) = (case.rows, case.cols, case.bytes);
    let inside = case.inside.replace(alloc, "\n|", "\n")?;
    let (left, count) = lines_behind(alloc, inside.as_str(), false)?;
    let (shown, rows_shown) = lines_behind(alloc, inside.as_str(), true)?;
    let asked = format!(in alloc;
        "pane 7 {rows} {cols}\nbytes 7 {}\n{bytes}screen 7\n",
        bytes.len()
    )?;
    let mut told = String::new(alloc);
    if 0 < count {
        told = format!(in alloc; "rows 7 {count} {}\n{}", left.len(), left.as_str())?;
    }
    let screen = format!(in alloc; "screen 7 {rows_shown} {}\n{}", shown.len(), shown.as_str())?;
    told.push_str(screen.as_str())?;
    Ok((asked, told))
}

// Returns the output for records that come whole, and then the error of the run, if it has one.
fn told_whole(alloc: Global, asked: &str) -> Result<String, AllocError> {
    let mut out = Vec::new(alloc);
    let mut reader = Cut::new(asked.as_bytes(), usize::MAX, usize::MAX);
    let ran = run_rows(alloc, false, &mut reader, &mut out);
    told(alloc, &out, ran)
}

#[test]
fn rows_of_records(rt: HostRuntime) -> Result<(), Fail> {
    for text in CASES.split("\n=\n") {
        match case_of(text) {
            Some(case) => {
                let (asked, wanted) = records_of(rt.alloc(), case)?;
                let found = told_whole(rt.alloc(), asked.as_str())?;
                assert_eq!(rt; found, wanted, "{}", case.name);
            }
            None => panic!(rt; "malformed case: {text:?}"),
        }
    }
    Ok(())
}

// Records, with an empty line between them, of which the last line is none or out of place.
const BAD: &str = "\
pane 0 2 8
pane 1 1 8

pane 0 2 501

pane 1024 2 8

pane 0 2

pane 0 2 8 1

pane 00 2 8

pane 0 +2 8

 pane 0 2 8

size 0 2 8

pane 0 2 8
size 0 201 8

bytes 0 1

pane 0 2 8
bytes 1 0

pane 0 2 8
bytes 0 18446744073709551616

screen 0

pane 0 2 8
gone 0
screen 0

gone 0

rows 0 1 1

pane 0 2 8
screen 0 0

123456789012345678901234567890123456789012345678901234567890123456789";

// The output for two rows of eight blank columns.
const BLANK: &str = "screen 0 2 4\n \n \n";

// Returns how a run of these records ends, and its output.
fn refusal_of(alloc: Global, asked: &str) -> Result<(Result<(), RowsFault>, String), AllocError> {
    let mut out = Vec::new(alloc);
    let mut reader = Cut::new(asked.as_bytes(), 5, 3);
    let ran = run_rows(alloc, false, &mut reader, &mut out);
    Ok((ran, text_of(alloc, &out)?))
}

// A run of these records, behind one that asks for a screen, is refused at the last line, and prints its answers before that.
#[test]
fn records_that_are_none(rt: HostRuntime) -> Result<(), Fail> {
    for bad in BAD.split("\n\n") {
        let asked = format!(in rt.alloc(); "pane 0 2 8\nscreen 0\ngone 0\n{bad}\n")?;
        let line = asked.as_str().split('\n').count().saturating_sub(1);
        let (ran, found) = refusal_of(rt.alloc(), asked.as_str())?;
        assert_eq!(rt; ran, Err(RowsFault::Record(line as u64)), "{bad:?}");
        assert_eq!(rt; found.as_str(), BLANK, "{bad:?}");
    }
    Ok(())
}

// Returns the output for these records, with or without the filter, and then the error of the run, if it has one.
fn told_of(alloc: Global, asked: &str, normalize: bool) -> Result<String, AllocError> {
    let mut out = Vec::new(alloc);
    let mut reader = Cut::new(asked.as_bytes(), 1, 1);
    let ran = run_rows(alloc, normalize, &mut reader, &mut out);
    told(alloc, &out, ran)
}

// Records, whether they go through the filter, and their output.
const PRINTED: [(&str, bool, &str); 5] = [
    (
        "pane 3 4 8\nbytes 3 10\n1\r\n2\r\n3\r\n4size 3 2 4\nsize 3 200 500\nsize 3 2 4\n",
        false,
        "rows 3 2 6\n 1\n 2\n",
    ),
    (
        "pane 0 2 8\nbytes 0 13\na\r\nb\r\nc\x1B[3J\r\n",
        false,
        "rows 0 1 3\n a\ncleared 0\nrows 0 1 3\n b\n",
    ),
    (
        "pane 0 2 8\nbytes 0 13\n\x1B[4:3ma\r\n\r\n\r\n",
        true,
        "rows 0 1 13\n \x1B[0;4ma\x1B[0m\nrows 0 1 2\n \n",
    ),
    (
        "pane 0 2 8\nbytes 0 13\n\x1B[4:3ma\r\n\r\n\r\n",
        false,
        "rows 0 1 3\n a\nrows 0 1 2\n \n",
    ),
    (
        "pane 0 2 8\nbytes 0 3\na\r\npane 0 2 8\nscreen 0\n",
        false,
        BLANK,
    ),
];

#[test]
fn sizes_clearings_and_meanings(rt: HostRuntime) -> Result<(), Fail> {
    for (asked, normalize, wanted) in PRINTED {
        let found = told_of(rt.alloc(), asked, normalize)?;
        assert_eq!(rt; found.as_str(), wanted, "{asked:?}");
    }
    Ok(())
}

// What a terminal is fed first at another size, before the rows of its screen: IRM and DECSCNM are reset; ASCII to G0
// and SI, DECAWM, full margins, the default style; the cursor is hidden, and all is erased.
const HEAD: &str = "\x1B[4l\x1B[?5l\x1B(B\x0F\x1B[?7h\x1B[0r\x1B[0m\x1B[?25l\x1B[2J";

// Cases of another size with its text whole, with a line = between them: the rows and columns of the screen, those that it gets, and a
// name; what is fed; behind a line => what is told, in this order: behind `<` how many rows are back, behind a bar the lines of rows that
// leave, and behind `@` what the terminal is fed behind the head above. Behind `!` stands a word in place of all of these.
const REWRAPS: &str = "\
2 8 2 4 narrower: the first row leaves, and the cursor stays behind y
abcdefgh\r\nxy
=>
|+abcd
@\x1B[1;1Hefgh\x1B[2;1Hxy\x1B[0m\x1B[2;3H\x1B[?25h\x1B[0m
=
2 4 2 8 wider: the row that autowrap left is back
abcdefghxy
=>
<1
@\x1B[1;1Habcdefgh\x1B[2;1Hxy\x1B[0m\x1B[2;3H\x1B[?25h\x1B[0m
=
3 4 3 8 none is back while rows at the bottom are blank
a\r\nb\r\nc\r\nd\x1B[H\x1B[J1
=>
@\x1B[1;1H1\x1B[0m\x1B[1;2H\x1B[?25h\x1B[0m
=
2 4 2 8 the column that a wide character left is no text
abc\u{4E2D}d
=>
@\x1B[1;1Habc\u{4E2D}d\x1B[0m\x1B[1;7H\x1B[?25h\x1B[0m
=
2 4 2 8 a space that was written there is
abc \u{4E2D}d
=>
@\x1B[1;1Habc\x1B[1;5H\u{4E2D}d\x1B[0m\x1B[1;8H\x1B[?25h\x1B[0m
=
4 8 4 20 a row that is erased whole from its first column: the row above no longer goes on in it
abcdefghij\r\x1B[Kk
=>
@\x1B[1;1Habcdefgh\x1B[2;1Hk\x1B[0m\x1B[2;2H\x1B[?25h\x1B[0m
=
4 8 4 20 a row that is erased whole from another column
abcdefghij\x1B[2K\rk
=>
@\x1B[1;1Habcdefgh\x1B[2;1Hk\x1B[0m\x1B[2;2H\x1B[?25h\x1B[0m
=
4 8 4 20 a row that is erased whole with those below
abcdefghij\r\x1B[Jk
=>
@\x1B[1;1Habcdefgh\x1B[2;1Hk\x1B[0m\x1B[2;2H\x1B[?25h\x1B[0m
=
4 8 4 20 the end of a row alone
abcdefghij\r\x1B[C\x1B[Kk
=>
@\x1B[1;1Habcdefghik\x1B[0m\x1B[1;11H\x1B[?25h\x1B[0m
=
4 8 4 20 the end of a row and those below
abcdefghij\x1B[Jk
=>
@\x1B[1;1Habcdefghijk\x1B[0m\x1B[1;12H\x1B[?25h\x1B[0m
=
4 8 4 20 the beginning of a row alone
abcdefghij\r\x1B[1Kk
=>
@\x1B[1;1Habcdefghkj\x1B[0m\x1B[1;10H\x1B[?25h\x1B[0m
=
4 8 4 20 a letter over the first one behind a wrap, as a shell writes it
abcdefgh \rijk
=>
@\x1B[1;1Habcdefghijk\x1B[0m\x1B[1;12H\x1B[?25h\x1B[0m
=
4 8 4 20 the first row
\x1B[Kab
=>
@\x1B[1;1Hab\x1B[0m\x1B[1;3H\x1B[?25h\x1B[0m
=
7 6 7 10 a shell's line that is written again below the first row of an older copy
first\r\n$-echo-abcdefghijklmn\r\x1B[K\x1BM\x1B[K\x1BM\x1B[K\r$-echo-abcdefghijklmn
=>
@\x1B[1;1Hfirst\x1B[2;1H$-echo\x1B[3;1H$-echo-abc\x1B[4;1Hdefghijklm\x1B[5;1Hn\x1B[0m\x1B[5;2H\x1B[?25h\x1B[0m
=
2 8 2 5 a wide character that the last column would cut
abcd\u{4E2D}
=>
@\x1B[1;1Habcd\x1B[2;1H\u{4E2D}\x1B[0m\x1B[2;3H\x1B[?25h\x1B[0m
=
2 8 2 4 a wrap is pending behind a full row
\x1B[1mabcd
=>
@\x1B[1;1H\x1B[0;1mabcd\x1B[0m\x1B[1;4H\x1B[?25h\x1B[0;1md\x1B[0;1m
=
2 4 2 8 none is behind a row that is no longer full
abcd
=>
@\x1B[1;1Habcd\x1B[0m\x1B[1;5H\x1B[?25h\x1B[0m
=
3 8 2 8 fewer rows: those below the cursor go first if they are blank
a\r\nb
=>
@\x1B[1;1Ha\x1B[2;1Hb\x1B[0m\x1B[2;2H\x1B[?25h\x1B[0m
=
2 8 3 8 more rows: one that left is back
a\r\nb\r\nc
=>
<1
@\x1B[1;1Ha\x1B[2;1Hb\x1B[3;1Hc\x1B[0m\x1B[3;2H\x1B[?25h\x1B[0m
=
2 8 3 8 ED 3 erases it
a\r\nb\x1B[3J\r\nc\x1B[3J
=>
@\x1B[1;1Hb\x1B[2;1Hc\x1B[0m\x1B[2;2H\x1B[?25h\x1B[0m
=
2 8 2 4 modes are as they were
ab\x1B[4h\x1B[?5h\x1B[?7l\x1B[?25l
=>
@\x1B[1;1Hab\x1B[0m\x1B[1;3H\x1B[0m\x1B[?7l\x1B[4h\x1B[?5h
=
50 8 50 4 a tall screen
a
=>
@\x1B[1;1Ha\x1B[0m\x1B[1;2H\x1B[?25h\x1B[0m
=
2 8 2 4 within a sequence
a\x1B[1
=>
!later
=
2 8 2 4 behind ESC
a\u{4E2D}\x1B
=>
!later
=
2 8 2 4 a character that is not ASCII comes next
\x1B(0
=>
!later
=
2 8 2 4 the other screen
\x1B[?1049h
=>
!other
=
2 8 2 4 rows count from a margin
\x1B[?6h
=>
!none
=
2 8 2 4 a cell is guarded
\x1B[1\"qa\x1B[0\"q
=>
!none
=
2 8 2 4 the guard is on
\x1B[1\"q
=>
!none";

// Adds what a line of a case says is told, and returns true if it says so.
fn push_told(alloc: Global, told: &mut String, line: &str) -> Result<bool, AllocError> {
    if let Some(back) = line.strip_prefix("<") {
        told.push_str(format!(in alloc; "back 7 {back}\n")?.as_str())?;
    } else if let Some(row) = line.strip_prefix("|") {
        told.push_str(format!(in alloc;
            "rows 7 1 {}\n{row}\n",
            row.len().saturating_add(1)
        )?.as_str())?;
    } else if let Some(rest) = line.strip_prefix("@") {
        let count = HEAD.len().saturating_add(rest.len());
        told.push_str(format!(in alloc; "text 7 {count}\n{HEAD}{rest}")?.as_str())?;
    } else if let Some(word) = line.strip_prefix("!") {
        told.push_str(format!(in alloc; "{word} 7\n")?.as_str())?;
    } else {
        return Ok(false);
    }
    Ok(true)
}

// Returns the output for the last record, behind that for those before it; all of the output if it does not begin with that.
fn told_last(
    alloc: Global,
    asked: &str,
    last: &str,
    normalize: bool,
) -> Result<String, AllocError> {
    let all = format!(in alloc; "{asked}{last}")?;
    let before = told_of(alloc, asked, normalize)?;
    let after = told_of(alloc, all.as_str(), normalize)?;
    let last = after
        .as_str()
        .strip_prefix(before.as_str())
        .unwrap_or(after.as_str());
    String::from_str(alloc, last)
}

/// A case of another size: its first line, the size of the screen there, the size that it gets, the bytes, and the lines of what is told.
#[derive(Clone, Copy)]
struct Rewrap<'a> {
    name: &'a str,
    rows: u16,
    cols: u16,
    later_rows: u16,
    later_cols: u16,
    bytes: &'a str,
    lines: &'a str,
}

// Returns such a case; `None` if the text is malformed.
fn rewrap_of(text: &str) -> Option<Rewrap<'_>> {
    let (name, rest) = text.split_once('\n')?;
    let (bytes, lines) = rest.split_once("\n=>\n")?;
    let mut words = name.split(' ');
    Some(Rewrap {
        name,
        rows: number_in(words.next())?,
        cols: number_in(words.next())?,
        later_rows: number_in(words.next())?,
        later_cols: number_in(words.next())?,
        bytes,
        lines,
    })
}

// Returns what the lines of a case say is told; `None` if one of them is malformed.
fn wanted_of(alloc: Global, lines: &str) -> Result<Option<String>, AllocError> {
    let mut told = String::new(alloc);
    for line in lines.split('\n') {
        if !push_told(alloc, &mut told, line)? {
            return Ok(None);
        }
    }
    Ok(Some(told))
}

// Returns what is told for the new size of a case, with or without the filter.
fn rewrapped(alloc: Global, case: Rewrap<'_>, normalize: bool) -> Result<String, AllocError> {
    let asked = format!(in alloc;
        "pane 7 {} {}\nbytes 7 {}\n{}",
        case.rows,
        case.cols,
        case.bytes.len(),
        case.bytes
    )?;
    let last = format!(in alloc; "rewrap 7 {} {}\n", case.later_rows, case.later_cols)?;
    told_last(alloc, asked.as_str(), last.as_str(), normalize)
}

#[test]
fn sizes_with_their_text_whole(rt: HostRuntime) -> Result<(), Fail> {
    for text in REWRAPS.split("\n=\n") {
        let Some(case) = rewrap_of(text) else {
            panic!(rt; "malformed case: {text:?}")
        };
        let wanted = wanted_of(rt.alloc(), case.lines)?;
        assert!(rt; wanted.is_some(), "malformed lines: {text:?}");
        let plain = Some(rewrapped(rt.alloc(), case, false)?);
        assert_eq!(rt; plain, wanted, "{}", case.name);
        let filtered = Some(rewrapped(rt.alloc(), case, true)?);
        assert_eq!(rt; filtered, wanted, "{}, filtered", case.name);
    }
    Ok(())
}

// Adds so many equal letters: those of a line, `a` to `z`, and again.
fn push_letters(text: &mut String, line: u32, wide: u32) -> Result<(), AllocError> {
    for _ in 0..wide {
        text.push(char::from(b'a' + (line % 26) as u8))?;
    }
    Ok(())
}

// Returns such lines.
fn lines_of_letters(alloc: Global, lines: u32, wide: u32) -> Result<String, AllocError> {
    let mut text = String::new(alloc);
    for line in 0..lines {
        if 0 < line {
            text.push_str("\r\n")?;
        }
        push_letters(&mut text, line, wide)?;
    }
    Ok(text)
}

// Returns the record of a screen of so many rows that shows the last of so many such lines, with its cursor behind the last.
fn letters_shown(alloc: Global, rows: u32, lines: u32, wide: u32) -> Result<String, AllocError> {
    let mut text = String::new(alloc);
    for row in 0..rows {
        let place = row.saturating_add(1);
        text.push_str(format!(in alloc; "\x1B[{place};1H")?.as_str())?;
        push_letters(
            &mut text,
            lines.saturating_sub(rows).saturating_add(row),
            wide,
        )?;
    }
    let col = wide.saturating_add(1);
    text.push_str(format!(in alloc; "\x1B[0m\x1B[{rows};{col}H\x1B[?25h\x1B[0m")?.as_str())?;
    let count = HEAD.len().saturating_add(text.len());
    format!(in alloc; "text 7 {count}\n{HEAD}{}", text.as_str())
}

/// A terminal of a height gets lines of a width and other sizes, and then a last height. It shows its last lines there, and what is told
/// for that begins so.
#[derive(Clone, Copy)]
struct Tall {
    name: &'static str,
    rows: u32,
    lines: u32,
    wide: u32,
    between: &'static str,
    last: u32,
    back: &'static str,
}

const TALL: [Tall; 4] = [
    Tall {
        name: "150 rows",
        rows: 150,
        lines: 150,
        wide: 1,
        between: "",
        last: 150,
        back: "",
    },
    Tall {
        name: "60 rows",
        rows: 60,
        lines: 60,
        wide: 1,
        between: "rewrap 7 5 100\n",
        last: 60,
        back: "back 7 55\n",
    },
    Tall {
        name: "250 leave",
        rows: 2,
        lines: 252,
        wide: 1,
        between: "",
        last: 200,
        back: "back 7 198\n",
    },
    Tall {
        name: "long",
        rows: 200,
        lines: 200,
        wide: 90,
        between: "rewrap 7 5 100\n",
        last: 200,
        back: "back 7 195\n",
    },
];

// Returns the records of such a case before the last.
fn tall_asked(alloc: Global, case: Tall) -> Result<String, AllocError> {
    let bytes = lines_of_letters(alloc, case.lines, case.wide)?;
    format!(in alloc;
        "pane 7 {} 100\nbytes 7 {}\n{}{}",
        case.rows,
        bytes.len(),
        bytes.as_str(),
        case.between
    )
}

// Returns what is told for its last height, and what is expected.
fn tall_told(alloc: Global, case: Tall, asked: &str) -> Result<(String, String), AllocError> {
    let rewrap = format!(in alloc; "rewrap 7 {} 100\n", case.last)?;
    let found = told_last(alloc, asked, rewrap.as_str(), false)?;
    let shown = letters_shown(alloc, case.last, case.lines, case.wide)?;
    let wanted = format!(in alloc; "{}{}", case.back, shown.as_str())?;
    Ok((found, wanted))
}

// No row is lost before the last height.
#[test]
fn many_rows_with_their_text_whole(rt: HostRuntime) -> Result<(), Fail> {
    for case in TALL {
        let asked = tall_asked(rt.alloc(), case)?;
        let before = told_of(rt.alloc(), asked.as_str(), false)?;
        assert!(rt;
            !before.as_str().contains("lost "),
            "{}: a row is lost: {before:?}",
            case.name
        );
        let (found, wanted) = tall_told(rt.alloc(), case, asked.as_str())?;
        assert_eq!(rt; found, wanted, "{}", case.name);
    }
    Ok(())
}

// How a run ends that fails at a read, or at a call of its writer.
fn ends(alloc: Global, read: u32, call: u32) -> Result<(), RowsFault> {
    let mut reader = Cut::new(b"pane 0 2 8\nscreen 0\n", 20, 20);
    reader.fails_at = read;
    let mut writer = Narrow {
        calls: 0,
        fails_at: call,
    };
    run_rows(alloc, false, &mut reader, &mut writer)
}

#[test]
fn rows_that_cannot_be_read_or_written(rt: HostRuntime) {
    assert_eq!(rt; ends(rt.alloc(), 1, 0), Err(RowsFault::Read), "read 1");
    assert_eq!(rt; ends(rt.alloc(), 0, 1), Err(RowsFault::Write), "call 1");
    assert_eq!(rt; ends(rt.alloc(), 0, 0), Ok(()), "no call");
}
