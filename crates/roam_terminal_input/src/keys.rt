//! The acts of a text, one a line.
ghost use Rattle.std.specs.Prelude.{◌≡◌, ◌⊎◌, ◌+◌, ◌==◌, ◌<◌, ◌∷◌, ◌++◌, [], ℕ, List, length, OnOk, IfOk, IfErr, IsOkUnless, All, MatchResult};
ghost use Rattle.std.specs.List.{position};
ghost use Rattle.roam_acts.specs.declared.acts.Act.{Act as ActOf};
ghost use Rattle.roam_acts.specs.Acts.{IsInRange};
ghost use Rattle.roam_terminal_input.specs.Keys.{lines_of, AreLinesOf, FailsAt};

use roam_acts::{Act, read_act};
use roam_cells::Fault;
use roam_faults::RunFault;
use std::alloc::Global;

// The place of the first LF.
fn end_in(text: &[u8]) -> Option<usize>
    ensures place { result ≡ position (λ byte. byte == 0x0A) text.now }
{
    text.iter().position(|byte| *byte == b'\n')
}

// The first line of a text that isn't empty, and what follows its end.
fn first_line(text: &[u8]) -> (&[u8], &[u8])
    requires some { 0 < length text.now }
    ensures lines { lines_of text.now ≡ result.0.now ∷ lines_of result.1.now }
    ensures shorter { length result.1.now < length text.now }
{
    match end_in(text) {
        Some(end) => (text.split_at(end).0, text.split_at(end + 1).1),
        None => (text, text.split_at(text.len()).1),
    }
}

// Adds an act.
fn push(acts: &mut Vec<Act>, act: Act) -> Result<(), Fault>
    ensures items { OnOk result (acts.new.items ≡ acts.old.items ++ act ∷ []) }
    ensures fault { IsOkUnless result Fault.OutOfMemory }
{
    acts.push(act)?;
    Ok(())
}

/// The acts of a text, one a line, each line ended by LF but maybe the last. `Act` with the number of the first line, from 1, that is no
/// act, an empty one too; `OutOfMemory`.
pub fn acts_of(alloc: Global, text: &[u8]) -> Result<Vec<Act>, RunFault>
    // The acts that are read have these lines.
    ensures found { IfOk result (λ acts. AreLinesOf (lines_of text.now) acts.items) }
    ensures in_range { IfOk result (λ acts. All IsInRange acts.items) }
    // Acts with these lines are read.
    ensures only { (all : List ActOf) → AreLinesOf (lines_of text.now) all
        → MatchResult result (λ acts. acts.items ≡ all) (λ fault. fault ≡ RunFault.Core Fault.OutOfMemory) }
    ensures faults { IfErr result (λ fault. (fault ≡ RunFault.Core Fault.OutOfMemory)
        ⊎ ((k : ℕ) × (fault ≡ RunFault.Act (k + 1)) × FailsAt k (lines_of text.now))) }
{
    let mut acts = Vec::new(alloc);
    let mut rest = text;
    while !rest.is_empty() {
        let (line, later) = first_line(rest);
        let Ok(act) = read_act(line) else {
            return Err(RunFault::Act(acts.len() as u64 + 1));
        };
        push(&mut acts, act)?;
        rest = later;
    }
    Ok(acts)
}
