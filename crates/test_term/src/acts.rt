//! Rows of keys and acts, and the two ends.
use roam_acts::{Act, ActSender, ActTaker, Key, read_act, read_acts, write_acts};
use roam_cells::{Fault, Reason};
use roam_keys::KeyModes;
use std::alloc::Global;
use std::test::*;

// Keys and acts, with a bar behind each line but the last. `key` has the key's name and number, and its bytes: without a mode, under
// DECCKM, in the application mode of the keypad, and under LNM (empty if the mode changes nothing). `utf8` is a character sent as it is;
// `act` an act's line and its bytes; `spelled` another spelling of a character, and the character; `no-act` a line that spells none;
// `no-text` a number of acts, and bytes that are not so many.
const ROWS: &str = "\
key up|1|\x1B[A|\x1BOA|||
key down|2|\x1B[B|\x1BOB|||
key right|3|\x1B[C|\x1BOC|||
key left|4|\x1B[D|\x1BOD|||
key pf1|5|\x1BOP||||
key pf2|6|\x1BOQ||||
key pf3|7|\x1BOR||||
key pf4|8|\x1BOS||||
key find|9|\x1B[1~||||
key insert|10|\x1B[2~||||
key remove|11|\x1B[3~||||
key select|12|\x1B[4~||||
key prev|13|\x1B[5~||||
key next|14|\x1B[6~||||
key f6|15|\x1B[17~||||
key f7|16|\x1B[18~||||
key f8|17|\x1B[19~||||
key f9|18|\x1B[20~||||
key f10|19|\x1B[21~||||
key f11|20|\x1B[23~||||
key f12|21|\x1B[24~||||
key f13|22|\x1B[25~||||
key f14|23|\x1B[26~||||
key f15|24|\x1B[28~||||
key f16|25|\x1B[29~||||
key f17|26|\x1B[31~||||
key f18|27|\x1B[32~||||
key f19|28|\x1B[33~||||
key f20|29|\x1B[34~||||
key pad0|30|0||\x1BOp||
key pad1|31|1||\x1BOq||
key pad2|32|2||\x1BOr||
key pad3|33|3||\x1BOs||
key pad4|34|4||\x1BOt||
key pad5|35|5||\x1BOu||
key pad6|36|6||\x1BOv||
key pad7|37|7||\x1BOw||
key pad8|38|8||\x1BOx||
key pad9|39|9||\x1BOy||
key padminus|40|-||\x1BOm||
key padcomma|41|,||\x1BOl||
key padperiod|42|.||\x1BOn||
key padenter|43|\r||\x1BOM|\r\n|
key return|44|\r|||\r\n|
key backspace|45|\x7F||||
utf8 \0|
utf8 A|
utf8 \u{E9}|
utf8 \u{4E2D}|
utf8 \u{10FFFF}|
act char 41: 01 00 00 00 41|
act char 0: 01 00 00 00 00|
act char d7ff: 01 00 00 d7 ff|
act char e000: 01 00 00 e0 00|
act char 10ffff: 01 00 10 ff ff|
act key up: 02 01|
act key backspace: 02 2d|
act split right: 10|
act split down: 11|
act close: 12|
act focus 1: 13 01|
act focus 9: 13 09|
act next: 14|
act grow -99: 15 ff 9d|
act grow -1: 15 ff ff|
act grow 0: 15 00 00|
act grow 99: 15 00 63|
act size 0 0: 16 00 00 00 00|
act size 24 80: 16 00 18 00 50|
act size 9999 9999: 16 27 0f 27 0f|
act view -500: 17 fe 0c|
act view 500: 17 01 f4|
spelled char 000041: A|
spelled char 4a: J|
spelled char 4A: J|
spelled char 4E2d: \u{4E2D}|
spelled char 00004e: N|
spelled char 10FfFf: \u{10FFFF}|
no-act |
no-act  |
no-act close |
no-act  close|
no-act close\r|
no-act close\n|
no-act Close|
no-act clos|
no-act closed|
no-act next |
no-act next 1|
no-act split|
no-act split |
no-act split left|
no-act split  right|
no-act split\tright|
no-act split right |
no-act split right\r|
no-act splitright|
no-act char|
no-act char |
no-act char  41|
no-act char\t41|
no-act char 41 |
no-act char +41|
no-act char -41|
no-act char 0x41|
no-act char g|
no-act char 0000041|
no-act char 110000|
no-act char d800|
no-act char dfff|
no-act char ffffff|
no-act char \u{E9}|
no-act key|
no-act key |
no-act key Up|
no-act key up |
no-act key  up|
no-act key f5|
no-act key f21|
no-act key pad10|
no-act key 1|
no-act focus|
no-act focus 0|
no-act focus 10|
no-act focus 01|
no-act focus +1|
no-act focus -1|
no-act focus 1 |
no-act grow -100|
no-act grow 100|
no-act grow -0|
no-act grow +1|
no-act grow 01|
no-act size 24|
no-act size 24  80|
no-act size 10000 1|
no-act view -501|
no-act view 501|
no-text 1: |
no-text 1: 00|
no-text 1: 01|
no-text 1: 01 00 00 00|
no-text 1: 01 00 00 d8 00|
no-text 1: 01 00 11 00 00|
no-text 1: 01 00 00 00 41 00|
no-text 1: 02|
no-text 1: 02 00|
no-text 1: 02 2e|
no-text 1: 03|
no-text 1: 0f|
no-text 1: 10 00|
no-text 1: 10 10|
no-text 1: 13 00|
no-text 1: 13 0a|
no-text 1: 15 00|
no-text 1: 15 00 64|
no-text 1: 15 ff 9c|
no-text 1: 16 27 10 00 01|
no-text 1: 16 00 01 27 10|
no-text 1: 17 01 f5|
no-text 1: 17 fe 0b|
no-text 1: 18|
no-text 0: 10|
no-text 2: 10";

// The bytes of pairs of hexadecimal digits with a space between them.
fn bytes_of(alloc: Global, text: &str) -> Result<Vec<u8>, Fault> {
    let mut bytes = Vec::new(alloc);
    for word in text.split_whitespace() {
        match u8::from_str_radix(word, 16) {
            Ok(byte) => bytes.push(byte)?,
            Err(_) => return Err(Fault::BadAct),
        }
    }
    Ok(bytes)
}

fn modes_of(number: u8) -> KeyModes {
    KeyModes {
        application_cursor: number % 2 == 1,
        application_keypad: number / 2 % 2 == 1,
        new_line: number / 4 == 1,
    }
}

// Returns the bytes of a key under the modes, as a line gives them.
fn sent_under<'a>(modes: KeyModes, plain: &'a str, rest: &'a str) -> &'a str {
    let mut parts = rest.split('|');
    let cursor = parts.next().unwrap_or("");
    let keypad = parts.next().unwrap_or("");
    let new_line = parts.next().unwrap_or("");
    if modes.application_keypad && !keypad.is_empty() {
        keypad
    } else if modes.application_cursor && !cursor.is_empty() {
        cursor
    } else if modes.new_line && !new_line.is_empty() {
        new_line
    } else {
        plain
    }
}

// Returns true if a key has the bytes of its line under each of the eight settings of the modes.
fn sends(key: &Key, plain: &str, rest: &str) -> bool {
    for number in 0..8u8 {
        let modes = modes_of(number);
        if key.sent(modes).as_slice() != sent_under(modes, plain, rest).as_bytes() {
            return false;
        }
    }
    true
}

fn is_sent_as_it_is(text: &str) -> bool {
    match text.chars().next() {
        Some(c) => Key::Char(c).sent(modes_of(0)).as_slice() == text.as_bytes(),
        None => false,
    }
}

// Returns true if the act has these bytes, and they are read as exactly this act.
fn has_bytes(alloc: Global, act: Act, bytes: &[u8]) -> bool {
    let mut out = Vec::new(alloc);
    write_acts(&[act], &mut out).is_ok()
        && out.as_slice() == bytes
        && matches!(read_acts(alloc, 1, bytes), Ok(acts) if acts.as_slice() == [act].as_slice())
}

fn is_printed(alloc: Global, act: Act, line: &str) -> bool {
    matches!(act.to_string(alloc), Ok(text) if text.as_str() == line)
}

fn has_number(alloc: Global, key: Key, number: &str) -> bool {
    matches!(number.parse::<u8>(), Ok(number) if has_bytes(alloc, Act::Key(key), &[2, number]))
}

fn is_key(alloc: Global, row: &str) -> bool {
    let (line, rest) = row.split_once('|').unwrap_or((row, ""));
    let (number, rest) = rest.split_once('|').unwrap_or((rest, ""));
    let (plain, rest) = rest.split_once('|').unwrap_or((rest, ""));
    match read_act(line.as_bytes()) {
        Ok(Act::Key(key)) => is_printed(alloc, Act::Key(key), line)
            && has_number(alloc, key, number)
            && sends(&key, plain, rest),
        _ => false,
    }
}

fn is_act(alloc: Global, row: &str) -> bool {
    let (line, digits) = row.split_once(": ").unwrap_or((row, ""));
    match (read_act(line.as_bytes()), bytes_of(alloc, digits)) {
        (Ok(act), Ok(bytes)) => act.in_range()
            && is_printed(alloc, act, line)
            && has_bytes(alloc, act, &bytes),
        _ => false,
    }
}

fn is_spelled(row: &str) -> bool {
    let (line, spelled) = row.split_once(": ").unwrap_or((row, ""));
    match spelled.chars().next() {
        Some(c) => read_act(line.as_bytes()) == Ok(Act::Key(Key::Char(c))),
        None => false,
    }
}

fn is_refused(alloc: Global, count: usize, bytes: &[u8]) -> bool {
    matches!(
        read_acts(alloc, count, bytes),
        Err(Fault::BadDatagram(Reason::Length))
    )
}

fn is_no_text(alloc: Global, row: &str) -> bool {
    let (count, digits) = row.split_once(':').unwrap_or((row, ""));
    match (count.parse::<usize>(), bytes_of(alloc, digits)) {
        (Ok(count), Ok(bytes)) => is_refused(alloc, count, &bytes),
        _ => false,
    }
}

fn holds(alloc: Global, line: &str) -> bool {
    let (kind, rest) = line.split_once(' ').unwrap_or((line, ""));
    match kind {
        "key" => is_key(alloc, line),
        "utf8" => is_sent_as_it_is(rest),
        "act" => is_act(alloc, rest),
        "spelled" => is_spelled(rest),
        "no-act" => read_act(rest.as_bytes()) == Err(Fault::BadAct),
        "no-text" => is_no_text(alloc, rest),
        _ => false,
    }
}

#[test]
fn keys_and_acts_have_their_texts(rt: HostRuntime) {
    for line in ROWS.split("|\n") {
        assert!(rt; holds(rt.alloc(), line), "{line:?}");
    }
}

// Acts of the rows are in range; these are out of it, and two lines with other bytes than text are none.
fn are_none() -> bool {
    for act in [
        Act::Focus(0),
        Act::Focus(10),
        Act::Grow(-100),
        Act::Grow(100),
        Act::Size(10000, 1),
        Act::Size(1, 10000),
        Act::View(-501),
        Act::View(501),
    ] {
        if act.in_range() {
            return false;
        }
    }
    read_act(b"char \xFF") == Err(Fault::BadAct) && read_act(b"\xFFclose") == Err(Fault::BadAct)
}

// The text of a key, of `close`, of a size and of `grow -3`.
const FOUR: [u8; 11] = [2, 1, 0x12, 0x16, 0, 24, 0, 80, 0x15, 0xFF, 0xFD];

// Returns true if four acts are appended as this text, and read back from it; and no bytes are no act.
fn are_added(alloc: Global) -> bool {
    let acts = [
        Act::Key(Key::Up),
        Act::Close,
        Act::Size(24, 80),
        Act::Grow(-3),
    ];
    let mut out = Vec::new(alloc);
    out.push(7).is_ok()
        && write_acts(&acts, &mut out).is_ok()
        && out.as_slice().strip_prefix(b"\x07".as_slice()) == Some(FOUR.as_slice())
        && matches!(read_acts(alloc, 4, &FOUR), Ok(read) if read.as_slice() == acts.as_slice())
        && matches!(read_acts(alloc, 0, &[]), Ok(read) if read.is_empty())
}

fn type_acts(sender: &mut ActSender, count: u16) -> bool {
    for _ in 0..count {
        if sender.typed(Act::Next).is_err() {
            return false;
        }
    }
    true
}

fn waits(sender: &ActSender, first: u64, count: usize) -> bool {
    let (number, acts) = sender.waiting();
    number == first && acts.len() == count
}

// Returns true if so many acts wait from a number on once a number is acknowledged.
fn waits_after(sender: &mut ActSender, acked: u64, first: u64, count: usize) -> bool {
    sender.acked(acked);
    waits(sender, first, count)
}

fn sends_until_acknowledged(alloc: Global) -> bool {
    let mut sender = ActSender::new(alloc);
    waits(&sender, 1, 0)
        && type_acts(&mut sender, 70)
        && waits(&sender, 1, 64)
        && waits_after(&mut sender, 10, 11, 60)
        && waits_after(&mut sender, 71, 11, 60)
        && waits_after(&mut sender, 9, 11, 60)
}

// Returns true if the 1025th act finds no room, and finds it once one is acknowledged.
fn is_full(alloc: Global) -> bool {
    let mut sender = ActSender::new(alloc);
    type_acts(&mut sender, 1024)
        && sender.typed(Act::Close) == Err(Fault::Busy)
        && waits_after(&mut sender, 1, 2, 64)
        && sender.typed(Act::Close) == Ok(())
}

// Returns true if a taker that took three acts takes the next ones.
fn takes_what_follows() -> bool {
    let mut taker = ActTaker::new();
    for _ in 0..3u8 {
        if taker.taken() < 3 {
            taker.took();
        }
    }
    let acts = [Act::Focus(3), Act::Focus(4), Act::Focus(5)];
    taker.taken() == 3
        && taker.fresh(3, &acts) == &acts[1..]
        && taker.fresh(5, &acts[..1]).is_empty()
        && taker.fresh(1, &acts[..2]).is_empty()
}

#[test]
fn texts_and_ends(rt: HostRuntime) {
    assert!(rt; are_none());
    assert!(rt; are_added(rt.alloc()));
    assert!(rt; sends_until_acknowledged(rt.alloc()));
    assert!(rt; is_full(rt.alloc()));
    assert!(rt; takes_what_follows());
}
