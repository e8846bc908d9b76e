//! The lines that report the news of the metadata of a session's panes.
ghost use Rattle.std.specs.Prelude.{◌≡◌, ◌++◌, ℕ, List, [], IfOk, OnOk, IsOkUnless, encode_utf8_all, string_bytes};
ghost use Rattle.hex.specs.Hex.{encode_lower};
ghost use Rattle.roam_pane_protocol.specs.MetadataLines.{Modes, Shape, Title, Bell, metadata_lines, bell_news, modes_news, shape_news, title_news, word_if, metadata_text, metadata_texts, head_text, keys_word, generation_news, mode_words, tracking_word};
ghost use Rattle.roam_pane_protocol.specs.MetadataLists.{same_flag, same_modes, same_tracking};

use crate::metadata_list::{MetadataPane, in_generation};
use hex::encode;
use roam_cells::Fault;
use roam_pane_metadata::{Settings, Tracking};
use std::alloc::Global;

fn same_tracking(one: Tracking, other: Tracking) -> bool
    ensures same { result ≡ same_tracking one other }
{
    matches!(
        (one, other),
        (Tracking::Off, Tracking::Off)
            | (Tracking::Buttons, Tracking::Buttons)
            | (Tracking::Drags, Tracking::Drags)
            | (Tracking::Motion, Tracking::Motion)
    )
}

fn same_flag(one: bool, other: bool) -> bool
    ensures same { result ≡ same_flag one other }
{
    if one { other } else { !other }
}

// Returns true if the same modes are set.
fn same_modes(one: &Settings, other: &Settings) -> bool
    ensures same { result ≡ same_modes one.now other.now }
{
    same_tracking(one.tracking, other.tracking)
        && same_flag(one.sgr_reports, other.sgr_reports)
        && same_flag(one.focus_reports, other.focus_reports)
        && same_flag(one.bracketed_paste, other.bracketed_paste)
        && same_flag(one.alternate_screen, other.alternate_screen)
        && same_flag(one.application_keypad, other.application_keypad)
        && one.other_keys == other.other_keys
}

fn tracking_word(tracking: Tracking) -> &'static str
    ensures word { result.now ≡ tracking_word tracking }
{
    match tracking {
        Tracking::Off => "",
        Tracking::Buttons => " buttons",
        Tracking::Drags => " drags",
        Tracking::Motion => " motion",
    }
}

// Returns a word if a mode is set.
pub(crate) fn word_if(is_set: bool, word: &'static str) -> &'static str
    ensures word { result.now ≡ word_if is_set word.now }
{
    if is_set { word } else { "" }
}

fn keys_word(keys: u8) -> &'static str
    ensures word { result.now ≡ keys_word keys }
{
    match keys {
        1 => " keys1",
        2 => " keys2",
        _ => "",
    }
}

// Adds the words of the modes that are set.
fn push_words(text: &mut String, settings: &Settings) -> Result<(), Fault>
    ensures words { OnOk result (string_bytes text.new ≡ string_bytes text.old ++ mode_words settings.now) }
    ensures fault { IsOkUnless result Fault.OutOfMemory }
{
    text.push_str(tracking_word(settings.tracking))?;
    text.push_str(word_if(settings.sgr_reports, " sgr"))?;
    text.push_str(word_if(settings.focus_reports, " focus"))?;
    text.push_str(word_if(settings.bracketed_paste, " paste"))?;
    text.push_str(word_if(settings.alternate_screen, " other"))?;
    text.push_str(word_if(settings.application_keypad, " keypad"))?;
    text.push_str(keys_word(settings.other_keys))?;
    Ok(())
}

// Adds the line of the modes.
fn push_modes(
    alloc: Global,
    text: &mut String,
    pane: u8,
    generation: u64,
    settings: &Settings,
) -> Result<(), Fault>
    ensures line { OnOk result (string_bytes text.new ≡ string_bytes text.old ++ metadata_text [] (Modes pane generation settings.now)) }
    ensures fault { IsOkUnless result Fault.OutOfMemory }
{
    let mut words = String::new(alloc);
    push_words(&mut words, settings)?;
    let line = format!(in alloc; "modes {pane} {generation}{words}\n")?;
    text.push_str(line.as_str())?;
    Ok(())
}

// Adds the line of the cursor's shape.
fn push_shape(
    alloc: Global,
    text: &mut String,
    pane: u8,
    generation: u64,
    shape: u8,
) -> Result<(), Fault>
    ensures line { OnOk result (string_bytes text.new ≡ string_bytes text.old ++ metadata_text [] (Shape pane generation shape)) }
    ensures fault { IsOkUnless result Fault.OutOfMemory }
{
    let line = format!(in alloc; "shape {pane} {generation} {shape}\n")?;
    text.push_str(line.as_str())?;
    Ok(())
}

// Adds the line of a bell, of which there were so many.
fn push_bell(
    alloc: Global,
    text: &mut String,
    pane: u8,
    generation: u64,
    _bells: u64,
) -> Result<(), Fault>
    ensures line { OnOk result (string_bytes text.new ≡ string_bytes text.old ++ metadata_text [] (Bell pane generation _bells)) }
    ensures fault { IsOkUnless result Fault.OutOfMemory }
{
    let line = format!(in alloc; "bell {pane} {generation}\n")?;
    text.push_str(line.as_str())?;
    Ok(())
}

// A title in UTF-8.
fn title_text(alloc: Global, title: &[char]) -> Result<String, Fault>
    ensures text { IfOk result (λ text. string_bytes text ≡ encode_utf8_all title.now) }
    ensures fault { IsOkUnless result Fault.OutOfMemory }
{
    let mut text = String::new(alloc);
    for at in 0..title.len() {
        text.push(title[at])?;
    }
    Ok(text)
}

// Adds the line of a title.
fn push_title(
    alloc: Global,
    text: &mut String,
    pane: u8,
    now: &MetadataPane,
    title: &[char],
) -> Result<(), Fault>
    ensures line { OnOk result (string_bytes text.new ≡ string_bytes text.old
        ++ metadata_text title.now (Title pane now.now.generation now.now.titles)) }
    ensures fault { IsOkUnless result Fault.OutOfMemory }
{
    let generation = now.generation;
    let utf8 = title_text(alloc, title)?;
    let digits = encode(alloc, utf8.as_bytes())?;
    let line = format!(in alloc; "title {pane} {generation} {digits}\n")?;
    text.push_str(line.as_str())?;
    Ok(())
}

// Appends the news of a program's settings.
fn push_settings(
    alloc: Global,
    text: &mut String,
    pane: u8,
    told: &MetadataPane,
    now: &MetadataPane,
) -> Result<(), Fault>
    ensures lines { (title : List ℕ) → OnOk result (string_bytes text.new ≡ string_bytes text.old
        ++ metadata_texts title (modes_news pane told.now now.now ++ shape_news pane told.now now.now)) }
    ensures fault { IsOkUnless result Fault.OutOfMemory }
{
    if !same_modes(&told.settings, &now.settings) {
        push_modes(alloc, text, pane, now.generation, &now.settings)?;
    }
    if told.settings.shape != now.settings.shape {
        push_shape(alloc, text, pane, now.generation, now.settings.shape)?;
    }
    Ok(())
}

// Appends the news of a program's titles and bells.
fn push_said(
    alloc: Global,
    text: &mut String,
    pane: u8,
    told: &MetadataPane,
    now: &MetadataPane,
    title: &[char],
) -> Result<(), Fault>
    ensures lines { OnOk result (string_bytes text.new ≡ string_bytes text.old
        ++ metadata_texts title.now (title_news pane told.now now.now ++ bell_news pane told.now now.now)) }
    ensures fault { IsOkUnless result Fault.OutOfMemory }
{
    if told.titles != now.titles {
        push_title(alloc, text, pane, now, title)?;
    }
    if told.settings.bells != now.settings.bells {
        push_bell(alloc, text, pane, now.generation, now.settings.bells)?;
    }
    Ok(())
}

/// Appends the lines that report the news of a pane's metadata, with this last title, or none. `modes P GENERATION WORDS` if other modes
/// are set, and `shape P GENERATION N` if the cursor has another shape. `title P GENERATION HEX` for another title, in UTF-8 and
/// hexadecimal digits, or a removed one, which is empty. `bell P GENERATION` if a bell rang. A generation of which nothing was reported
/// counts as one whose program wrote nothing. `OutOfMemory`.
pub fn push_metadata(
    alloc: Global,
    text: &mut String,
    pane: u8,
    told: Option<MetadataPane>,
    now: Option<MetadataPane>,
    title: &[char],
) -> Result<(), Fault>
    ensures lines { OnOk result (string_bytes text.new ≡ string_bytes text.old
        ++ metadata_texts title.now (metadata_lines pane told now)) }
    ensures fault { IsOkUnless result Fault.OutOfMemory }
{
    let Some(now) = now else {
        return Ok(());
    };
    let told = in_generation(now.generation, told);
    push_settings(alloc, text, pane, &told, &now)?;
    push_said(alloc, text, pane, &told, &now, title)?;
    Ok(())
}
