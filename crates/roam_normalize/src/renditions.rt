//! SGR in the form that this project's profile reads: parameters alone, sixteen at most.
ghost use Rattle.std.specs.Prelude.{◌≡◌, ◌≤◌, ◌<◌, ◌++◌, ◌∷◌, [], length, take, drop, IfOk, OnOk};
ghost use Rattle.roam_normalize.specs.Renditions.{after_field, colour_text, count_of, field_kind, fields_length, first_field, first_kind, group_length, group_size, group_text, has_lines, is_changed, is_of_lines, is_pair, is_zero, line_text, may_change, mixed_text, next_field, parted_text, rendition, spelled_out, together, two_kind, whole_kind, wide_text, with_semicolons, without_zeros};

use std::alloc::{AllocError, Global};

/// More fields than any sequence has that is looked at.
const ALL_FIELDS: usize = 256;

/// The most semicolons of parameters that the profile keeps all of.
pub const MOST_SEMICOLONS: usize = 15;

/// The kind of a parameter, as far as it matters.
#[derive(Clone, Copy)]
pub enum Field {
    Plain,
    /// 38 or 48.
    Colour,
    /// 58.
    LineColour,
    /// 59.
    NoLineColour,
    /// It has sub-parameters.
    Parted,
}

// How many bytes so many fields take, between separators.
fn fields_length(separator: u8, fields: usize, bytes: &[u8]) -> usize
    ensures within { result ≤ length bytes.now }
    ensures length { result ≡ fields_length separator fields bytes.now }
{
    let mut left = fields;
    let mut at = 0;
    while at < bytes.len() && left > 0 {
        if bytes[at] == separator {
            if left == 1 {
                return at;
            }
            left -= 1;
        }
        at += 1;
    }
    at
}

fn count_of(separator: u8, bytes: &[u8]) -> usize
    ensures count { result ≡ count_of separator bytes.now }
{
    let mut count = 0;
    let mut at = 0;
    while at < bytes.len() {
        if bytes[at] == separator {
            count += 1;
        }
        at += 1;
    }
    count
}

fn first_field(separator: u8, bytes: &[u8]) -> &[u8]
    ensures field { result.now ≡ first_field separator bytes.now }
{
    &bytes[..fields_length(separator, 1, bytes)]
}

fn after_field(separator: u8, bytes: &[u8]) -> &[u8]
    ensures rest { result.now ≡ after_field separator bytes.now }
{
    let end = fields_length(separator, 1, bytes);
    if end < bytes.len() {
        &bytes[end + 1..]
    } else {
        &[]
    }
}

fn two_kind(first: u8, second: u8) -> Field
    ensures kind { result ≡ two_kind first second }
{
    match (first, second) {
        (b'3' | b'4', b'8') => Field::Colour,
        (b'5', b'8') => Field::LineColour,
        (b'5', b'9') => Field::NoLineColour,
        _ => Field::Plain,
    }
}

// A number without its leading zeros.
fn without_zeros(number: &[u8]) -> &[u8]
    ensures number { result.now ≡ without_zeros number.now }
{
    let mut at = 0;
    while at < number.len() && number[at] == b'0' {
        at += 1;
    }
    &number[at..]
}

fn whole_kind(field: &[u8]) -> Field
    ensures kind { result ≡ whole_kind field.now }
{
    match without_zeros(field) {
        [first, second] => two_kind(*first, *second),
        _ => Field::Plain,
    }
}

fn field_kind(field: &[u8]) -> Field
    ensures kind { result ≡ field_kind field.now }
{
    if count_of(b':', field) > 0 {
        Field::Parted
    } else {
        whole_kind(field)
    }
}

fn together(otherwise: usize, field: &[u8]) -> usize
    ensures together { result ≡ together otherwise field.now }
{
    match without_zeros(field) {
        [b'5'] => 3,
        [b'2'] => 5,
        _ => otherwise,
    }
}

fn group_size(kind: Field, next: &[u8]) -> usize
    ensures size { result ≡ group_size kind next.now }
{
    match kind {
        Field::Colour => together(ALL_FIELDS, next),
        Field::LineColour => together(1, next),
        Field::Plain | Field::NoLineColour | Field::Parted => 1,
    }
}

fn first_kind(bytes: &[u8]) -> Field
    ensures kind { result ≡ first_kind bytes.now }
{
    field_kind(first_field(b';', bytes))
}

// How many bytes the first field and those that it takes along have.
fn group_length(bytes: &[u8]) -> usize
    ensures within { result ≤ length bytes.now }
    ensures length { result ≡ group_length bytes.now }
{
    let next = first_field(b';', after_field(b';', bytes));
    fields_length(b';', group_size(first_kind(bytes), next), bytes)
}

/// Returns true if two characters are those of 58 or 59.
#[inline]
pub fn is_pair(first: u8, second: u8) -> bool
    ensures pair { result ≡ is_pair first second }
{
    first == b'5' && (second == b'8' || second == b'9')
}

fn is_of_lines(kind: Field) -> bool
    ensures lines { result ≡ is_of_lines kind }
{
    match kind {
        Field::LineColour | Field::NoLineColour => true,
        Field::Plain | Field::Colour | Field::Parted => false,
    }
}

// Returns true if a parameter sets the colour of an underline.
fn has_lines(bytes: &[u8]) -> bool
    ensures lines { result ≡ has_lines bytes.now }
{
    let mut at = 0;
    loop {
        let rest = &bytes[at..];
        if is_of_lines(first_kind(rest)) {
            return true;
        }
        let end = group_length(rest);
        if end >= rest.len() {
            return false;
        }
        at += end + 1;
    }
}

// Returns true if a rendition may need spelling out: it has a colon, 58 or 59 in some number, or too many semicolons. Most have none of
// these, so this first look decides.
#[inline]
fn may_change(bytes: &[u8]) -> bool
    ensures may { result ≡ may_change 0 0 bytes.now }
{
    let mut before = 0;
    let mut semicolons = 0;
    let mut at = 0;
    while at < bytes.len() {
        let byte = bytes[at];
        if byte == b':' || is_pair(before, byte) {
            return true;
        }
        if byte == b';' {
            semicolons += 1;
        }
        before = byte;
        at += 1;
    }
    semicolons > MOST_SEMICOLONS
}

/// Returns true if a rendition with these parameters needs spelling out.
pub fn is_changed(bytes: &[u8]) -> bool
    ensures changed { result ≡ is_changed bytes.now }
{
    may_change(bytes)
        && (count_of(b':', bytes) > 0
            || count_of(b';', bytes) > MOST_SEMICOLONS
            || has_lines(bytes))
}

// SGR with these parameters goes out. Refuses want of memory, and something of it may have gone out then.
fn push_rendition(out: &mut Vec<u8>, parameters: &[u8]) -> Result<(), AllocError>
    ensures out { OnOk result (out.new.items ≡ out.old.items ++ rendition parameters.now) }
{
    out.extend_from_slice(b"\x1B[")?;
    out.extend_from_slice(parameters)?;
    out.push(b'm')?;
    Ok(())
}

fn with_semicolons(alloc: Global, bytes: &[u8]) -> Result<Vec<u8>, AllocError>
    ensures bytes { IfOk result (λ all. all.items ≡ with_semicolons bytes.now) }
{
    let mut all = Vec::new(alloc);
    let mut at = 0;
    while at < bytes.len() {
        all.push(if bytes[at] == b':' { b';' } else { bytes[at] })?;
        at += 1;
    }
    Ok(all)
}

// Parameters of a colour, which begin so, and its sub-parameters as parameters.
fn colour_parameters(alloc: Global, layer: u8, way: u8, parts: &[u8]) -> Result<Vec<u8>, AllocError>
    ensures parameters { IfOk result (λ all. all.items ≡ layer ∷ 0x38 ∷ 0x3B ∷ way ∷ 0x3B ∷ with_semicolons parts.now) }
{
    let mut all = Vec::new(alloc);
    all.push(layer)?;
    all.push(b'8')?;
    all.push(b';')?;
    all.push(way)?;
    all.push(b';')?;
    let parts = with_semicolons(alloc, parts)?;
    all.extend_from_slice(&parts)?;
    Ok(all)
}

fn push_mixed(alloc: Global, out: &mut Vec<u8>, layer: u8, parts: &[u8]) -> Result<(), AllocError>
    ensures out { OnOk result (out.new.items ≡ out.old.items ++ mixed_text layer parts.now) }
{
    let colons = count_of(b':', parts);
    if colons < 2 {
        return Ok(());
    }
    let colours = if colons == 2 {
        parts
    } else {
        after_field(b':', parts)
    };
    let colours = if colons == 2 {
        colours
    } else {
        &colours[..fields_length(b':', 3, colours)]
    };
    let parameters = colour_parameters(alloc, layer, b'2', colours)?;
    push_rendition(out, &parameters)
}

fn push_colour(alloc: Global, out: &mut Vec<u8>, layer: u8, parts: &[u8]) -> Result<(), AllocError>
    ensures out { OnOk result (out.new.items ≡ out.old.items ++ colour_text layer parts.now) }
{
    match without_zeros(parts) {
        [b'2', b':', parts @ ..] => push_mixed(alloc, out, layer, parts),
        [b'5', b':', index @ ..] if count_of(b':', index) == 0 => {
            let parameters = colour_parameters(alloc, layer, b'5', index)?;
            push_rendition(out, &parameters)
        }
        _ => Ok(()),
    }
}

// Returns true if the value of a number is 0; an empty one has no value of its own.
fn is_zero(number: &[u8]) -> bool
    ensures zero { result ≡ is_zero number.now }
{
    !number.is_empty() && without_zeros(number).is_empty()
}

fn push_line(out: &mut Vec<u8>, form: &[u8]) -> Result<(), AllocError>
    ensures out { OnOk result (out.new.items ≡ out.old.items ++ line_text form.now) }
{
    if is_zero(form) {
        push_rendition(out, b"24")
    } else {
        push_rendition(out, b"4")
    }
}

fn push_wide(alloc: Global, out: &mut Vec<u8>, layer: u8, parts: &[u8]) -> Result<(), AllocError>
    ensures out { OnOk result (out.new.items ≡ out.old.items ++ wide_text layer parts.now) }
{
    match parts {
        [b'8', b':', parts @ ..] if layer == b'3' || layer == b'4' => {
            push_colour(alloc, out, layer, parts)
        }
        _ => Ok(()),
    }
}

fn push_parted(alloc: Global, out: &mut Vec<u8>, field: &[u8]) -> Result<(), AllocError>
    ensures out { OnOk result (out.new.items ≡ out.old.items ++ parted_text field.now) }
{
    match without_zeros(field) {
        [b'4', b':', form @ ..] => push_line(out, form),
        [layer, parts @ ..] => push_wide(alloc, out, *layer, parts),
        [] => Ok(()),
    }
}

fn push_group(alloc: Global, out: &mut Vec<u8>, kind: Field, group: &[u8]) -> Result<(), AllocError>
    ensures out { OnOk result (out.new.items ≡ out.old.items ++ group_text kind group.now) }
{
    match kind {
        Field::Plain | Field::Colour => push_rendition(out, group),
        Field::LineColour | Field::NoLineColour => Ok(()),
        Field::Parted => push_parted(alloc, out, group),
    }
}

/// Each parameter goes out with those that belong to it, in a rendition of its own. Refuses want of memory, and something may have gone out
/// then.
pub fn push_spelled_out(alloc: Global, out: &mut Vec<u8>, bytes: &[u8]) -> Result<(), AllocError>
    ensures out { OnOk result (out.new.items ≡ out.old.items ++ spelled_out bytes.now) }
{
    let mut at = 0;
    loop {
        let rest = &bytes[at..];
        let end = group_length(rest);
        push_group(alloc, out, first_kind(rest), &rest[..end])?;
        if end >= rest.len() {
            return Ok(());
        }
        at += end + 1;
    }
}
