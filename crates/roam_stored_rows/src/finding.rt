//! Searches in the logical lines of rows, by letters.
ghost use Rattle.std.specs.Prelude.{◌≡◌, ◌+◌, ◌-◌, ◌<◌, ◌≤◌, ◌++◌, ℕ, List, false, IfOk, OnOk, drop, encode_utf8_all, if◌then◌else◌, length, map, take};
ghost use Rattle.std.specs.Char.{to_ascii_lowercase};
ghost use Rattle.bstr.specs.Utf8.{lossy_chars};
ghost use Rattle.roam_stored_rows.specs.Blocks.{AreOn, IsFront, IsPlace, IsRowAt, size_between, spelled, spelled_line};
ghost use Rattle.roam_stored_rows.specs.Finding.{IsFoundAt, compared, is_folded, letters_in, plain_from, text_of};
ghost use Rattle.roam_stored_rows.specs.Rows.{row_of};

use crate::row_chunks::RowChunks;
use bstr::{ByteSlice, ByteVec};
use memchr::{memchr, memmem};
use std::alloc::{AllocError, Global};
use ucd_case::simple_fold;

// At most so many rows are searched at once.
const BLOCK: usize = 256;

/// The direction of a search: to older rows, or to newer ones.
#[derive(Clone, Copy)]
pub enum Way {
    /// To older rows: the greatest number is the nearest.
    Back,
    /// To newer rows: the least number is the nearest.
    On,
}

/// What is sought: the bytes of its letters, and whether letters are compared folded.
#[derive(Drop)]
pub(crate) struct Sought {
    pub(crate) needle: Vec<u8>,
    pub(crate) folded: bool,
}

/// The buffers of a search: the bytes of letters, and those of a row without its styles.
#[derive(Drop)]
pub(crate) struct Buffers {
    pub(crate) line: Vec<u8>,
    pub(crate) plain: Vec<u8>,
}

// A letter as it is compared.
fn compared(folded: bool, letter: char) -> char
    ensures compared { result ≡ compared folded letter }
{
    if folded { simple_fold(letter) } else { letter }
}

impl Sought {
    /// What is sought by these bytes.
    pub(crate) fn new(alloc: Global, text: &[u8]) -> Result<Self, AllocError>
        ensures needle { IfOk result (λ s. s.needle.items ≡ encode_utf8_all (letters_in text.now)) }
        ensures folded { IfOk result (λ s. s.folded ≡ is_folded (letters_in text.now)) }
    {
        let mut needle = Vec::new(alloc);
        let mut folded = true;
        for letter in text.chars() {
            folded = folded && simple_fold(letter) == letter;
            needle.push_char(letter)?;
        }
        Ok(Sought { needle, folded })
    }
}

// Adds bytes without their styles.
fn push_plain(plain: &mut Vec<u8>, text: &[u8]) -> Result<(), AllocError>
    ensures plain { OnOk result (plain.new.items ≡ plain.old.items ++ plain_from false text.now) }
{
    let mut styled = false;
    for byte in text {
        if styled {
            styled = *byte != b'm';
        } else if *byte == 0x1b {
            styled = true;
        } else {
            plain.push(*byte)?;
        }
    }
    Ok(())
}

// Adds bytes of ASCII as they are compared.
fn push_ascii(line: &mut Vec<u8>, folded: bool, plain: &[u8]) -> Result<(), AllocError>
    ensures line { OnOk result (line.new.items
        ≡ line.old.items ++ (if folded then map to_ascii_lowercase plain.now else plain.now)) }
{
    if !folded {
        line.extend_from_slice(plain)?;
        return Ok(());
    }
    for byte in plain {
        line.push(byte.to_ascii_lowercase())?;
    }
    Ok(())
}

// Adds the bytes of the letters as they are compared. Those of ASCII need no decoding.
fn push_letters(line: &mut Vec<u8>, folded: bool, plain: &[u8]) -> Result<(), AllocError>
    ensures line { OnOk result (line.new.items ≡ line.old.items ++ encode_utf8_all (map (compared folded) (lossy_chars plain.now))) }
{
    if plain.is_ascii() {
        return push_ascii(line, folded, plain);
    }
    for letter in plain.chars() {
        line.push_char(compared(folded, letter))?;
    }
    Ok(())
}

// Adds the bytes of a row's letters as they are compared.
fn push_row(buffers: &mut Buffers, folded: bool, text: &[u8]) -> Result<(), AllocError>
    ensures line { OnOk result (buffers.new.line.items ≡ buffers.old.line.items
        ++ encode_utf8_all (map (compared folded) (letters_in (plain_from false text.now)))) }
{
    let Some(_) = memchr(0x1b, text) else {
        return push_letters(&mut buffers.line, folded, text);
    };
    buffers.plain.clear();
    push_plain(&mut buffers.plain, text)?;
    push_letters(&mut buffers.line, folded, &buffers.plain)
}

// Puts the bytes of a block's letters into the buffer.
fn gather_block(
    rows: &RowChunks,
    low: usize,
    high: usize,
    folded: bool,
    buffers: &mut Buffers,
) -> Result<(), AllocError>
    requires place { low ≤ high }
    requires end { high ≤ length rows.now }
    ensures line { OnOk result (buffers.new.line.items ≡ spelled folded (take (high - low) (drop low rows.now))) }
{
    buffers.line.clear();
    for next in low..high {
        push_row(buffers, folded, rows.text_at(next))?;
    }
    Ok(())
}

// Puts the bytes of a block's letters into the buffer, and of so many letters behind it as a text may reach that begins in it.
// Returns the number of bytes of the block itself.
fn gather(
    rows: &RowChunks,
    low: usize,
    high: usize,
    sought: &Sought,
    buffers: &mut Buffers,
) -> Result<usize, AllocError>
    requires place { low < high }
    requires end { high ≤ length rows.now }
    requires on { AreOn rows.now low high }
    ensures front { IfOk result (λ size. IsFront (size + length sought.now.needle.items) buffers.new.line.items
        (spelled_line sought.now.folded rows.now low)) }
    ensures size { IfOk result (λ size. size ≡ size_between sought.now.folded rows.now low high) }
    ensures within { IfOk result (λ size. size ≤ length buffers.new.line.items) }
{
    gather_block(rows, low, high, sought.folded, buffers)?;
    let size = buffers.line.len();
    let last = rows.len() - 1;
    let most = sought.needle.len();
    let mut next = high - 1;
    while next < last && buffers.line.len() - size < most {
        if !rows.wrap_at(next).is_on() {
            return Ok(size);
        }
        next += 1;
        push_row(buffers, sought.folded, rows.text_at(next))?;
    }
    Ok(size)
}

// Searches for the first place below a bound at which a text stands.
fn first_place(line: &[u8], size: usize, text: &[u8]) -> Option<usize>
    requires size { size ≤ length line.now }
    requires some { 0 < length text.now }
    ensures place { IsPlace Way.On text.now line.now size result }
{
    let Some(place) = memmem::find(line, text) else {
        return None;
    };
    if place < size { Some(place) } else { None }
}

// Searches for the last one.
fn last_place(line: &[u8], size: usize, text: &[u8]) -> Option<usize>
    requires size { size ≤ length line.now }
    requires some { 0 < length text.now }
    ensures place { IsPlace Way.Back text.now line.now size result }
{
    let end = line.len().min(size.saturating_add(text.len() - 1));
    memmem::rfind(&line[..end], text)
}

// Searches for the nearest place below a bound at which a text stands.
fn place_of(way: Way, line: &[u8], size: usize, text: &[u8]) -> Option<usize>
    requires size { size ≤ length line.now }
    requires some { 0 < length text.now }
    ensures place { IsPlace way text.now line.now size result }
{
    // `memmem` prepares each search for the text, which takes longer than a search of a short line.
    if line.len() < text.len() {
        return None;
    }
    match way {
        Way::On => first_place(line, size, text),
        Way::Back => last_place(line, size, text),
    }
}

// Searches a block for the row whose letters have the byte at a place.
fn row_at(
    rows: &RowChunks,
    low: usize,
    high: usize,
    folded: bool,
    place: usize,
    buffers: &mut Buffers,
) -> Result<usize, AllocError>
    requires begun { low ≤ high }
    requires end { high ≤ length rows.now }
    requires place { place < size_between folded rows.now low high }
    ensures row { IfOk result (λ at. IsRowAt folded rows.now low high place at) }
{
    buffers.line.clear();
    for at in low..high {
        push_row(buffers, folded, rows.text_at(at))?;
        if place < buffers.line.len() {
            return Ok(at);
        }
    }
    Ok(low)
}

// Searches a block for the nearest row in which an occurrence begins.
fn search_block(
    rows: &RowChunks,
    low: usize,
    high: usize,
    way: Way,
    sought: &Sought,
    buffers: &mut Buffers,
) -> Result<Option<usize>, AllocError>
    requires place { low < high }
    requires end { high ≤ length rows.now }
    requires on { AreOn rows.now low high }
    requires some { 0 < length sought.now.needle.items }
    ensures found { IfOk result (λ found. (text : List ℕ) → sought.now.needle.items ≡ encode_utf8_all text
        → IsFoundAt way sought.now.folded text rows.now low high found) }
{
    let size = gather(rows, low, high, sought, buffers)?;
    let Some(place) = place_of(way, &buffers.line, size, &sought.needle) else {
        return Ok(None);
    };
    let at = row_at(rows, low, high, sought.folded, place, buffers)?;
    Ok(Some(at))
}

// Where the block ends that begins at a place.
fn block_end(rows: &RowChunks, low: usize, high: usize) -> usize
    requires place { low < high }
    requires end { high ≤ length rows.now }
    ensures some { low < result }
    ensures within { result ≤ high }
    ensures on { AreOn rows.now low result }
{
    let most = high.min(low.saturating_add(BLOCK));
    let mut end = low + 1;
    while end < most && rows.wrap_at(end - 1).is_on() {
        end += 1;
    }
    end
}

// Where the block begins that ends at a place.
fn block_start(rows: &RowChunks, low: usize, high: usize) -> usize
    requires place { low < high }
    requires end { high ≤ length rows.now }
    ensures some { result < high }
    ensures within { low ≤ result }
    ensures on { AreOn rows.now result high }
{
    let least = low.max(high.saturating_sub(BLOCK));
    let mut start = high - 1;
    while least < start && rows.wrap_at(start - 1).is_on() {
        start -= 1;
    }
    start
}

// Searches for the first of the rows from one place up to another in which an occurrence begins.
fn first_at(
    rows: &RowChunks,
    low: usize,
    high: usize,
    sought: &Sought,
    buffers: &mut Buffers,
) -> Result<Option<usize>, AllocError>
    requires end { high ≤ length rows.now }
    requires some { 0 < length sought.now.needle.items }
    ensures found { IfOk result (λ found. (text : List ℕ) → sought.now.needle.items ≡ encode_utf8_all text
        → IsFoundAt Way.On sought.now.folded text rows.now low high found) }
{
    let mut at = low;
    while at < high {
        let end = block_end(rows, at, high);
        if let Some(found) = search_block(rows, at, end, Way::On, sought, buffers)? {
            return Ok(Some(found));
        }
        at = end;
    }
    Ok(None)
}

// Searches for the last one.
fn last_at(
    rows: &RowChunks,
    low: usize,
    high: usize,
    sought: &Sought,
    buffers: &mut Buffers,
) -> Result<Option<usize>, AllocError>
    requires end { high ≤ length rows.now }
    requires some { 0 < length sought.now.needle.items }
    ensures found { IfOk result (λ found. (text : List ℕ) → sought.now.needle.items ≡ encode_utf8_all text
        → IsFoundAt Way.Back sought.now.folded text rows.now low high found) }
{
    let mut at = high;
    while low < at {
        let start = block_start(rows, low, at);
        if let Some(found) = search_block(rows, start, at, Way::Back, sought, buffers)? {
            return Ok(Some(found));
        }
        at = start;
    }
    Ok(None)
}

/// Searches the rows from one place up to another for the nearest in which an occurrence of a text begins.
pub(crate) fn search(
    rows: &RowChunks,
    low: usize,
    high: usize,
    way: Way,
    sought: &Sought,
    buffers: &mut Buffers,
) -> Result<Option<usize>, AllocError>
    requires end { high ≤ length rows.now }
    requires some { 0 < length sought.now.needle.items }
    ensures found { IfOk result (λ found. (text : List ℕ) → sought.now.needle.items ≡ encode_utf8_all text
        → IsFoundAt way sought.now.folded text rows.now low high found) }
{
    match way {
        Way::On => first_at(rows, low, high, sought, buffers),
        Way::Back => last_at(rows, low, high, sought, buffers),
    }
}
