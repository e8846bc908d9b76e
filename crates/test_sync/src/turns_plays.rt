//! The plays on a stage. One function owns it, since each of its exits is proved with all that is dropped there.
ghost use Rattle.roam_turns.specs.Painting.{IsBehind};

use crate::turns_failing::{Failure, Failures, NONE, has_settled, is_right, play_all};
use crate::turns_rows::first_fault;
use crate::turns_stage::Stage;
use roam_cells::Fault;
use std::alloc::Global;

/// A play on a stage.
#[derive(Clone, Copy)]
pub enum Play {
    /// Fourteen rounds, in which calls fail: both terminals come to show the last screen.
    Failures(Failure, Failure),
    /// As many as want of memory may need.
    Refusals,
    /// The first three turns of a session.
    Opening,
}

// Returns true if a play has its expected end.
fn ends(alloc: Global, stage: &mut Stage, play: Play) -> Result<bool, Fault>
    requires first { IsBehind stage.old.first.outer stage.old.first.client.kept.receiver.newest.number
        stage.old.first.client.kept.receiver.newest.state }
    requires second { IsBehind stage.old.second.outer stage.old.second.client.kept.receiver.newest.number
        stage.old.second.client.kept.receiver.newest.state }
{
    match play {
        Play::Failures(one, other) => {
            play_all(alloc, stage, 14, Failures { one, other })?;
            Ok(has_settled(alloc, stage))
        }
        Play::Refusals => {
            let none = Failures {
                one: NONE,
                other: NONE,
            };
            play_all(alloc, stage, 24, none)?;
            Ok(is_right(alloc, stage))
        }
        Play::Opening => Ok(first_fault(alloc, stage) == None),
    }
}

/// Returns true if a play has its expected end on a new stage.
pub fn is_played(alloc: Global, play: Play) -> Result<bool, Fault> {
    let mut stage = Stage::new(alloc)?;
    ends(alloc, &mut stage, play)
}
