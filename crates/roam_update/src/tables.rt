//! The table of styles of a diff, as it is read.

ghost use Rattle.roam_cells.specs.Inks.{style_numbered};
ghost use Rattle.std.specs.Prelude.{◌≡◌, ◌≤◌, ◌+◌, ◌*◌, [], length, drop, map, IfOk, OnOk, IsSome, IfErr, IsErrOf, ◌⊎◌, Some, None};
ghost use Rattle.roam_update.specs.CellText.{style_of};
ghost use Rattle.roam_update.specs.TableText.{colour_at, entry_read, table_read};

use crate::cell_text::style_of;
use indexmap::IndexSet;
use roam_cells::{Colour, Fault, Style};
use std::alloc::Global;

fn colour_at(kind: u8, a: u8, b: u8, c: u8) -> Option<Colour>
    ensures colour { result ≡ colour_at kind a b c }
{
    if kind == 0 && a == 0 && b == 0 && c == 0 {
        Some(Colour::Default)
    } else if kind == 1 && a == 0 && b == 0 {
        Some(Colour::Index(c))
    } else if kind == 2 {
        Some(Colour::Rgb(a, b, c))
    } else {
        None
    }
}

fn read_entry(text: &[u8]) -> Option<Style>
    requires long { 9 ≤ length text.now }
    ensures style { result ≡ entry_read text.now }
{
    let foreground = colour_at(text[1], text[2], text[3], text[4])?;
    let background = colour_at(text[5], text[6], text[7], text[8])?;
    Some(style_of(text[0], foreground, background))
}

// Adds the n styles at the front of a text to a table and their numbers to its keys. `BadChange` if one of them is there already.
#[tactic(auto, using(crate::proofs::Entries::entry_steps))]
fn add_entries(
    keys: &mut IndexSet<u64>,
    table: &mut Vec<Style>,
    n: usize,
    text: &[u8],
) -> Result<(), Fault>
    requires keys { map style_numbered keys.old.keys ≡ table.old.items }
    ensures ok { OnOk result (table_read n table.old.items text.now
        ≡ Some (record { styles = table.new.items; rest = drop (9 * n) text.now })) }
    ensures long { OnOk result (9 * n ≤ length text.now) }
    ensures bad { IsErrOf result Fault.BadChange → table_read n table.old.items text.now ≡ None }
    ensures memory { IsErrOf result Fault.OutOfMemory → IsSome (entry_read text.now) }
    ensures fault { IfErr result (λ fault. (fault ≡ Fault.OutOfMemory) ⊎ (fault ≡ Fault.BadChange)) }
{
    let mut rest = text;
    for _k in 0..n {
        if rest.len() < 9 {
            return Err(Fault::BadChange);
        }
        let style = match read_entry(rest) {
            None => return Err(Fault::BadChange),
            Some(style) => style,
        };
        if !keys.insert(style.number())? {
            return Err(Fault::BadChange);
        }
        table.push(style)?;
        (_, rest) = rest.split_at(9);
    }
    Ok(())
}

/// Returns the n styles at the front of a text, each of which is there once. `BadChange` if there are none.
pub fn read_table(alloc: Global, n: usize, text: &[u8]) -> Result<Vec<Style>, Fault>
    ensures ok { IfOk result (λ table. table_read n [] text.now ≡ Some (record { styles = table.items; rest = drop (9 * n) text.now })) }
    ensures long { IfOk result (λ _. 9 * n ≤ length text.now) }
    ensures bad { IsErrOf result Fault.BadChange → table_read n [] text.now ≡ None }
    // No memory is asked for before the first style is read.
    ensures memory { IsErrOf result Fault.OutOfMemory → IsSome (entry_read text.now) }
    ensures fault { IfErr result (λ fault. (fault ≡ Fault.OutOfMemory) ⊎ (fault ≡ Fault.BadChange)) }
{
    // The list grows as styles are read: so a text without a table is refused as `BadChange` before memory is asked for.
    let mut table = Vec::new(alloc);
    let mut keys: IndexSet<u64> = IndexSet::new(alloc);
    add_entries(&mut keys, &mut table, n, text)?;
    Ok(table)
}
