//! Worked rows: the functions of bytes, by ECMA-48, ECMA-35, the Unicode Standard and this project's profile.
use crate::words::{as_wanted, case_of};
use roam_text::{Dispatch, Dispatched, Function, Out, Reader};
use std::alloc::{AllocError, Global};
use std::fmt::Write;
use std::test::Fail;

/// Rows of a heading, bytes and their functions, with an empty line between them. A character is the byte of its code, but `␊` is LF, `␍`
/// is CR, and `⇕` is no byte: a new size of 3 rows by 8 columns comes there. Functions are written with all numbers but parameters and
/// sizes in hexadecimal: `Print(41)`, `C0(0A)`, `C1(85)`, `Esc(28 30)` for intermediate bytes and final byte, `Csi(3F 2;4 20 71)` for
/// private marker, parameters, intermediate bytes and final byte, `Size(3 8)`; `-` is none.
///
/// First come graphic characters and controls, then escape sequences, control sequences, control strings, characters of bytes, and sizes
/// among bytes.
const ROWS: &str = "\
printable ASCII and U+00A0 up are printed
 ~\u{C2}\u{A0}\u{C3}\u{A9}
Print(20) Print(7E) Print(A0) Print(E9)

C0 controls in ground, CAN and SUB among them
\x00␍␊\x07\x18\x1A
C0(00) C0(0D) C0(0A) C0(07) C0(18) C0(1A)

DELETE gives nothing
a\x7Fb
Print(61) Print(62)

a C1 control as one character
\u{C2}\u{85}\u{C2}\u{9C}
C1(85) C1(9C)

a C1 control as ESC and a byte of 40 to 5F
\x1BE\x1BM\x1B\\
C1(85) C1(8D) C1(9C)

a final byte alone
\x1B7\x1Bc\x1B=\x1B~
Esc(37) Esc(63) Esc(3D) Esc(7E)

an intermediate byte and a final byte
\x1B(A#
Esc(28 41) Print(23)

designations between characters
\x1B(0qx\x1B(Bq
Esc(28 30) Print(71) Print(78) Esc(28 42) Print(71)

two intermediate bytes
\x1B$(C
Esc(24 28 43)

three intermediate bytes: without effect
\x1B !\"Fx
Print(78)

with an intermediate byte a final byte of 40 to 5F is no C1 control
\x1B#[
Esc(23 5B)

a control inside acts first
\x1B(␊0
C0(0A) Esc(28 30)

DELETE inside does nothing
\x1B\x7F(\x7F0
Esc(28 30)

CAN ends it
\x1B(\x180
Print(30)

ESC begins anew
\x1B(\x1B7
Esc(37)

a character from U+0080 up ends it and is read
\x1B(\u{C3}\u{A9}0
Print(E9) Print(30)

a line feed inside acts before its sequence
\x1B[2␊C
C0(0A) Csi(2 43)

a line feed inside, with text round it
a\x1B[2␊Cb
Print(61) C0(0A) Csi(2 43) Print(62)

CSI as one character
\u{C2}\u{9B}2;3Hx
Csi(2;3 48) Print(78)

no parameter, and empty parameters, are 0
\x1B[m\x1B[;m\x1B[1;;3m
Csi(0 6D) Csi(0;0 6D) Csi(1;0;3 6D)

sixteen parameters are kept of seventeen
\x1B[1;2;3;4;5;6;7;8;9;10;11;12;13;14;15;16;17m
Csi(1;2;3;4;5;6;7;8;9;10;11;12;13;14;15;16 6D)

a value stops at 9,999
\x1B[999999m\x1B[9999;10000m
Csi(9999 6D) Csi(9999;9999 6D)

leading zeros
\x1B[0012m
Csi(12 6D)

a private marker comes first
\x1B[?25h\x1B[>c
Csi(3F 25 68) Csi(3E 0 63)

a private marker that is not first: without effect
\x1B[1?hx\x1B[??1hy
Print(78) Print(79)

one intermediate byte and two
\x1B[!p\x1B[1!\"p
Csi(0 21 70) Csi(1 21 22 70)

three intermediate bytes: without effect
\x1B[1 !\"px
Print(78)

a parameter byte after an intermediate byte: without effect
\x1B[!1px\x1B[ ;qy
Print(78) Print(79)

a colon: without effect
a\x1B[1:2Cb
Print(61) Print(62)

DELETE inside does nothing
\x1B[2\x7F3C
Csi(23 43)

BEL inside acts
\x1B[\x072C
C0(07) Csi(2 43)

CAN and SUB end it
a\x1B[2\x18b\x1B[3\x1Ac
Print(61) Print(62) Print(63)

ESC begins anew
\x1B[2\x1B[3C
Csi(3 43)

a character from U+0080 up ends it and is read
\x1B[2\u{C3}\u{A9}C\x1B[2\u{C2}\u{85}x
Print(E9) Print(43) C1(85) Print(78)

ill-formed bytes end it and are printed
\x1B[2\u{E4}C
Print(FFFD) Print(43)

OSC to BEL, DCS to ST
\x1B]0;t\x07y\x1BPqq\x1B\\z
Print(79) C1(9C) Print(7A)

BEL is a part of any string but OSC
\x1BPa\x07b\u{C2}\u{9C}c\x1BXa\x07b\x18d
Print(63) Print(64)

CAN and SUB end OSC
\x1B]t\x18x\x1B]t\x1Ay
Print(78) Print(79)

CAN and SUB end DCS
\x1BPt\x18x\x1BPt\x1Ay
Print(78) Print(79)

U+009C ends OSC and DCS
\x1B]t\u{C2}\u{9C}x\x1BPt\u{C2}\u{9C}y
Print(78) Print(79)

the introducers as one character
\u{C2}\u{9D}t\x07x\u{C2}\u{90}t\u{C2}\u{9C}y
Print(78) Print(79)

SOS, PM and APC
\x1BXa\u{C2}\u{9C}1\x1B^a\u{C2}\u{9C}2\x1B_a\u{C2}\u{9C}3
Print(31) Print(32) Print(33)

ESC ends a string and begins a sequence
\x1B]t\x1B[2C\x1BPt\x1B7x
Csi(2 43) Esc(37) Print(78)

a line feed, a C1 control and DELETE are a part of it
\x1B]a␊\u{C2}\u{85}\x7Fb\x07x
Print(78)

ill-formed bytes are a part of it
\x1B]\u{E4}t\u{FF}\x07x
Print(78)

ill-formed bytes before the end
\x1B]\u{E4}\x07x\x1BP\u{E4}\x1B\\y
Print(78) C1(9C) Print(79)

two, three and four bytes
\u{C3}\u{A9}\u{E4}\u{B8}\u{AD}\u{F0}\u{9F}\u{98}\u{80}\u{F4}\u{8F}\u{BF}\u{BF}
Print(E9) Print(4E2D) Print(1F600) Print(10FFFF)

an unfinished character gives nothing yet
a\u{E4}\u{B8}
Print(61)

a byte that cannot go on is read by itself
\u{E4}\u{B8}A
Print(FFFD) Print(41)

four bytes cut short, and a lone continuation
\u{F0}\u{90}A\u{80}
Print(FFFD) Print(41) Print(FFFD)

a lone byte of 80 to 9F is ill-formed
\u{85}\u{9B}1m
Print(FFFD) Print(FFFD) Print(31) Print(6D)

overlong forms
\u{C0}\u{80}\u{C1}\u{BF}\u{E0}\u{80}\u{80}\u{F0}\u{80}\u{80}\u{80}
Print(FFFD) Print(FFFD) Print(FFFD) Print(FFFD) Print(FFFD) Print(FFFD) Print(FFFD) Print(FFFD) Print(FFFD) Print(FFFD) Print(FFFD)

surrogates
\u{ED}\u{A0}\u{80}\u{ED}\u{BF}\u{BF}
Print(FFFD) Print(FFFD) Print(FFFD) Print(FFFD) Print(FFFD) Print(FFFD)

above U+10FFFF
\u{F4}\u{90}\u{80}\u{80}\u{F5}\u{80}\u{80}\u{80}
Print(FFFD) Print(FFFD) Print(FFFD) Print(FFFD) Print(FFFD) Print(FFFD) Print(FFFD) Print(FFFD)

F5 to FF
\u{F5}\u{F6}\u{F7}\u{F8}\u{F9}\u{FA}\u{FB}\u{FC}\u{FD}\u{FE}\u{FF}
Print(FFFD) Print(FFFD) Print(FFFD) Print(FFFD) Print(FFFD) Print(FFFD) Print(FFFD) Print(FFFD) Print(FFFD) Print(FFFD) Print(FFFD)

one U+FFFD for each maximal subpart (Unicode Table 3-8)
a\u{F1}\u{80}\u{80}\u{E1}\u{80}\u{C2}b\u{80}c\u{80}\u{BF}d
Print(61) Print(FFFD) Print(FFFD) Print(FFFD) Print(62) Print(FFFD) Print(63) Print(FFFD) Print(FFFD) Print(64)

ill-formed bytes before ESC
\u{F0}\u{90}\x1B[A
Print(FFFD) Csi(0 41)

ill-formed bytes before a control
\u{E4}␊x
Print(FFFD) C0(0A) Print(78)

ill-formed bytes before another character
\u{E4}\u{C3}\u{A9}
Print(FFFD) Print(E9)

a size comes before the character in which it falls
\u{E4}⇕\u{B8}\u{AD}
Size(3 8) Print(4E2D)

a size in ill-formed bytes
\u{E4}⇕\u{B8}A
Size(3 8) Print(FFFD) Print(41)

a size before the sequence in which it falls
a\x1B[2⇕C
Print(61) Size(3 8) Csi(2 43)

a size in an escape sequence
\x1B(⇕0
Size(3 8) Esc(28 30)

a size in a control string
\x1B]t⇕\x07x
Size(3 8) Print(78)

a size in a cancelled sequence
\x1B[2⇕\x18x
Size(3 8) Print(78)";

// The intermediate bytes and the final byte of a sequence.
fn push_end(text: &mut String, inter: &[u8], last: u8) -> Result<(), AllocError> {
    for byte in inter {
        write!(text, "{byte:02X} ")?;
    }
    write!(text, "{last:02X}) ")?;
    Ok(())
}

fn push_escape_sequence(text: &mut String, inter: &[u8], last: u8) -> Result<(), AllocError> {
    text.push_str("Esc(")?;
    push_end(text, inter, last)
}

fn push_parameters(text: &mut String, params: &[u16]) -> Result<(), AllocError> {
    let mut before = "";
    for number in params {
        write!(text, "{before}{number}")?;
        before = ";";
    }
    text.push(' ')
}

fn push_control_sequence(
    text: &mut String,
    mark: Option<u8>,
    params: &[u16],
    inter: &[u8],
    last: u8,
) -> Result<(), AllocError> {
    text.push_str("Csi(")?;
    if let Some(mark) = mark {
        write!(text, "{mark:02X} ")?;
    }
    push_parameters(text, params)?;
    push_end(text, inter, last)
}

fn push_code(text: &mut String, name: &str, code: u32) -> Result<(), AllocError> {
    write!(text, "{name}({code:02X}) ")?;
    Ok(())
}

fn push_size(text: &mut String, rows: u16, cols: u16) -> Result<(), AllocError> {
    write!(text, "Size({rows} {cols}) ")?;
    Ok(())
}

fn push_function(text: &mut String, function: &Function) -> Result<(), AllocError> {
    match function {
        Function::Print(c) => push_code(text, "Print", *c as u32),
        Function::C0(code) => push_code(text, "C0", u32::from(*code)),
        Function::C1(code) => push_code(text, "C1", u32::from(*code)),
        Function::Esc { inter, last } => push_escape_sequence(text, inter.as_slice(), *last),
        Function::Csi {
            mark,
            params,
            inter,
            last,
        } => push_control_sequence(text, *mark, params.as_slice(), inter.as_slice(), *last),
        Function::Size(rows, cols) => push_size(text, *rows, *cols),
    }
}

fn push_dispatch(text: &mut String, reader: &Reader, dispatch: Dispatch) -> Result<(), AllocError> {
    match dispatch {
        Dispatch::Print(c) => push_code(text, "Print", c as u32),
        Dispatch::C0(code) => push_code(text, "C0", u32::from(code)),
        Dispatch::C1(code) => push_code(text, "C1", u32::from(code)),
        Dispatch::Esc { last } => push_escape_sequence(text, reader.intermediates(), last),
        Dispatch::Csi { mark, last } => push_control_sequence(
            text,
            mark,
            reader.parameters(),
            reader.intermediates(),
            last,
        ),
    }
}

// Reads a piece by `next` alone.
fn read_by_next(text: &mut String, reader: &mut Reader, piece: &[u8]) -> Result<(), AllocError> {
    for byte in piece {
        match reader.next(*byte) {
            Out::Nothing => {}
            Out::One(function) => push_function(text, &function)?,
            Out::Two(first, second) => {
                push_function(text, &first)?;
                push_function(text, &second)?;
            }
        }
    }
    Ok(())
}

// Reads a piece by runs of printable ASCII and by `dispatch`.
fn read_by_dispatch(
    text: &mut String,
    reader: &mut Reader,
    piece: &[u8],
) -> Result<(), AllocError> {
    let mut at = 0;
    while at < piece.len() {
        let run = reader.plain_run(&piece[at..]);
        for byte in &piece[at..at + run] {
            push_code(text, "Print", u32::from(*byte))?;
        }
        at += run;
        if at < piece.len() {
            match reader.dispatch(piece[at]) {
                Dispatched::Nothing => {}
                Dispatched::One(dispatch) => push_dispatch(text, reader, dispatch)?,
                Dispatched::AfterReplacement(dispatch) => {
                    text.push_str("Print(FFFD) ")?;
                    push_dispatch(text, reader, dispatch)?;
                }
            }
            at += 1;
        }
    }
    Ok(())
}

/// How the bytes of a row are handed over.
#[derive(Clone, Copy)]
enum Way {
    /// By `next`, which takes no piece.
    Next,
    /// By `dispatch`, in pieces of this many bytes.
    Pieces(usize),
    /// By `dispatch`, cut once, after this many bytes.
    Cut(usize),
}

fn read(text: &mut String, reader: &mut Reader, bytes: &[u8], way: Way) -> Result<(), AllocError> {
    match way {
        Way::Next => read_by_next(text, reader, bytes),
        Way::Pieces(size) => {
            for piece in bytes.chunks(size.max(1)) {
                read_by_dispatch(text, reader, piece)?;
            }
            Ok(())
        }
        Way::Cut(at) => {
            let (front, back) = bytes.split_at(at.min(bytes.len()));
            read_by_dispatch(text, reader, front)?;
            read_by_dispatch(text, reader, back)
        }
    }
}

/// A row as it is read.
#[derive(Drop)]
struct Row<'a> {
    bytes: Vec<u8>,
    size_after: Option<usize>,
    functions: &'a str,
}

fn byte_of(c: char) -> u8 {
    match c {
        '␊' => b'\n',
        '␍' => b'\r',
        _ => u8::try_from(u32::from(c)).unwrap_or(b'?'),
    }
}

// The bytes of a line: a character is the byte of its code, but `␊` LF and `␍` CR, and `⇕` none.
pub fn bytes_of(alloc: Global, line: &str) -> Result<Vec<u8>, AllocError> {
    let mut bytes = Vec::new(alloc);
    for c in line.chars().filter(|c| *c != '⇕') {
        bytes.push(byte_of(c))?;
    }
    Ok(bytes)
}

fn row_of<'a>(alloc: Global, line: &str, functions: &'a str) -> Result<Row<'a>, AllocError> {
    let bytes = bytes_of(alloc, line)?;
    let size_after = line.chars().position(|c| c == '⇕');
    Ok(Row {
        bytes,
        size_after,
        functions,
    })
}

// Reads a row in this way, with a size of 3 rows by 8 columns if there is one.
fn read_row(text: &mut String, row: &Row<'_>, way: Way) -> Result<(), AllocError> {
    let mut reader = Reader::new();
    let Some(at) = row.size_after else {
        return read(text, &mut reader, &row.bytes, way);
    };
    let (before, after) = row.bytes.split_at(at.min(row.bytes.len()));
    read(text, &mut reader, before, way)?;
    push_function(text, &reader.size(3, 8))?;
    read(text, &mut reader, after, way)
}

// Returns the functions of a row's bytes that are read in this way.
fn read_by(alloc: Global, row: &Row<'_>, way: Way) -> Result<String, AllocError> {
    let mut text = String::new(alloc);
    read_row(&mut text, row, way)?;
    Ok(text)
}

// Returns the functions of a row that are read by `next`, or those in pieces if the former are the expected ones.
fn read_whole(alloc: Global, row: &Row<'_>) -> Result<String, AllocError> {
    let found = read_by(alloc, row, Way::Next)?;
    if as_wanted(found.as_str()) != row.functions {
        return Ok(found);
    }
    let found = read_by(alloc, row, Way::Pieces(1))?;
    if as_wanted(found.as_str()) != row.functions {
        return Ok(found);
    }
    read_by(alloc, row, Way::Pieces(row.bytes.len()))
}

// Returns the functions of a line that are read in the first way in which they are not the expected ones, or else the expected ones.
fn first_read(alloc: Global, line: &str, functions: &str) -> Result<String, AllocError> {
    let row = row_of(alloc, line, functions)?;
    for at in 0..row.bytes.len() {
        let found = read_by(alloc, &row, Way::Cut(at))?;
        if as_wanted(found.as_str()) != functions {
            return Ok(found);
        }
    }
    read_whole(alloc, &row)
}

#[test]
fn rows_of_the_reader(rt: HostRuntime) -> Result<(), Fail> {
    for case in ROWS.split("\n\n") {
        match case_of(case) {
            Some((name, line, functions)) => {
                let found = first_read(rt.alloc(), line, functions)?;
                assert_eq!(rt; as_wanted(found.as_str()), functions, "{name}");
            }
            None => panic!(rt; "malformed case: {case}"),
        }
    }
    Ok(())
}

// The beginning of a long sequence, a byte that continues it a million times, its end, and the functions of all.
const LONG: &str = "\
\x1BP|a|\u{C2}\u{9C}x|Print(78)
\x1B[|9|m|Csi(9999 6D)
\x1B[7|;|m|Csi(7;0;0;0;0;0;0;0;0;0;0;0;0;0;0;0 6D)";

// Returns true if a byte, read a million times, completes nothing.
fn completes_nothing(reader: &mut Reader, byte: u8) -> bool {
    for _ in 0..500_000 {
        if !matches!(reader.dispatch(byte), Dispatched::Nothing)
            || !matches!(reader.next(byte), Out::Nothing)
        {
            return false;
        }
    }
    true
}

fn read_long(text: &mut String, first: &[u8], byte: u8, last: &[u8]) -> bool {
    let mut reader = Reader::new();
    read_by_next(text, &mut reader, first).is_ok()
        && completes_nothing(&mut reader, byte)
        && read_by_next(text, &mut reader, last).is_ok()
}

fn asks_for(alloc: Global, first: &[u8], byte: u8, last: &[u8], functions: &str) -> bool {
    let mut text = String::new(alloc);
    read_long(&mut text, first, byte, last) && as_wanted(text.as_str()) == functions
}

fn is_long_read(alloc: Global, line: &str) -> bool {
    let (first, rest) = line.split_once('|').unwrap_or((line, ""));
    let (byte, rest) = rest.split_once('|').unwrap_or((rest, ""));
    let (last, functions) = rest.split_once('|').unwrap_or((rest, ""));
    match (
        bytes_of(alloc, first),
        byte.as_bytes(),
        bytes_of(alloc, last),
    ) {
        (Ok(first), [byte], Ok(last)) => asks_for(alloc, &first, *byte, &last, functions),
        _ => false,
    }
}

#[test]
fn a_million_bytes(rt: HostRuntime) {
    for line in LONG.lines() {
        assert!(rt; is_long_read(rt.alloc(), line), "{line:?}");
    }
}
