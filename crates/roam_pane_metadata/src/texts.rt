//! The texts of a program's control strings.
ghost use Rattle.std.specs.Prelude.{◌≡◌, true, IfOk, take};
ghost use Rattle.std.specs.List.{filter};
ghost use Rattle.std.specs.Option.{option_map};
ghost use Rattle.roam_pane_metadata.specs.Texts.{are_ascii, clip_behind, clip_chosen, clip_if_base64, clip_in, is_base64, is_printable, longest_title, title_in};

use base64::DecodeAllocError;
use base64::engine::general_purpose::STANDARD;
use std::alloc::{AllocError, Global};
use ucd_category::GeneralCategory;

/// The longest title, in characters.
pub const LONGEST_TITLE: usize = 200;

/// The most base64 characters of a text for the clipboard.
pub const LONGEST_CLIP: usize = 131_072;

/// The most characters of a control string that is looked at.
pub const LONGEST_TEXT: usize = 131_077;

fn is_printable(c: char) -> bool
    ensures printable { result ≡ is_printable c }
{
    !matches!(
        GeneralCategory::for_char(c),
        GeneralCategory::Control
            | GeneralCategory::Format
            | GeneralCategory::LineSeparator
            | GeneralCategory::ParagraphSeparator
    )
}

// The first printable characters of a text, as many as a title has.
fn printable(alloc: Global, text: &[char]) -> Result<Vec<char>, AllocError>
    ensures title { IfOk result (λ title. title.items ≡ take longest_title (filter is_printable text.now)) }
{
    let mut title = Vec::new(alloc);
    let mut at = 0;
    while at < text.len() && title.len() < LONGEST_TITLE {
        if is_printable(text[at]) {
            title.push(text[at])?;
        }
        at += 1;
    }
    Ok(title)
}

/// The title that a text is for, if it is for one. Refuses want of memory.
pub fn title_in(alloc: Global, text: &[char]) -> Result<Option<Vec<char>>, AllocError>
    ensures title { IfOk result (λ found. option_map (λ title. title.items) found ≡ title_in text.now) }
{
    match text {
        ['0' | '2', ';', rest @ ..] => Ok(Some(printable(alloc, rest)?)),
        _ => Ok(None),
    }
}

// The bytes of a text of ASCII. Refuses want of memory.
fn ascii_bytes(alloc: Global, text: &[char]) -> Result<Vec<u8>, AllocError>
    requires ascii { are_ascii text.now ≡ true }
    ensures bytes { IfOk result (λ bytes. bytes.items ≡ text.now) }
{
    let mut bytes = Vec::new(alloc);
    let mut at = 0;
    while at < text.len() {
        bytes.push(text[at] as u8)?;
        at += 1;
    }
    Ok(bytes)
}

fn are_ascii(text: &[char]) -> bool
    ensures ascii { result ≡ are_ascii text.now }
{
    let mut at = 0;
    while at < text.len() {
        if text[at] >= '\u{80}' {
            return false;
        }
        at += 1;
    }
    true
}

// Returns true if bytes are base64. `AllocError` if there is no memory.
fn is_base64(alloc: Global, bytes: &[u8]) -> Result<bool, AllocError>
    ensures base64 { IfOk result (λ is. is ≡ is_base64 bytes.now) }
{
    match STANDARD.decode(alloc, bytes) {
        Ok(_) => Ok(true),
        Err(DecodeAllocError::DecodeError(_)) => Ok(false),
        Err(DecodeAllocError::OutOfMemory) => Err(AllocError),
    }
}

// A text, if it is base64 that isn't too long. Refuses want of memory.
fn clip_if_base64(alloc: Global, text: &[char]) -> Result<Option<Vec<u8>>, AllocError>
    ensures clip { IfOk result (λ found. option_map (λ clip. clip.items) found ≡ clip_if_base64 text.now) }
{
    if text.len() > LONGEST_CLIP || !are_ascii(text) {
        return Ok(None);
    }
    let bytes = ascii_bytes(alloc, text)?;
    if is_base64(alloc, &bytes)? {
        Ok(Some(bytes))
    } else {
        Ok(None)
    }
}

// The same, behind the selection c.
fn clip_chosen(alloc: Global, text: &[char]) -> Result<Option<Vec<u8>>, AllocError>
    ensures clip { IfOk result (λ found. option_map (λ clip. clip.items) found ≡ clip_chosen text.now) }
{
    match text {
        [';', clip @ ..] => clip_if_base64(alloc, clip),
        _ => Ok(None),
    }
}

// The same, behind 52 and a semicolon.
fn clip_behind(alloc: Global, text: &[char]) -> Result<Option<Vec<u8>>, AllocError>
    ensures clip { IfOk result (λ found. option_map (λ clip. clip.items) found ≡ clip_behind text.now) }
{
    match text {
        [';', clip @ ..] => clip_if_base64(alloc, clip),
        ['c', rest @ ..] => clip_chosen(alloc, rest),
        _ => Ok(None),
    }
}

/// The text that a text is for the clipboard, in base64, if it is for it. Refuses want of memory.
pub fn clip_in(alloc: Global, text: &[char]) -> Result<Option<Vec<u8>>, AllocError>
    ensures clip { IfOk result (λ found. option_map (λ clip. clip.items) found ≡ clip_in text.now) }
{
    match text {
        ['5', '2', ';', rest @ ..] => clip_behind(alloc, rest),
        _ => Ok(None),
    }
}
