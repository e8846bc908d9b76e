//! Which part of a screen is shown.
ghost use Rattle.std.specs.Prelude.{◌≡◌};
ghost use Rattle.roam_display_state.specs.Scopes.{part_for, place_told, scope_after};

use roam_screens::Seen;
use roam_viewport::Part;

/// Which part of a screen a terminal shows.
#[derive(Clone, Copy, Debug, PartialEq, Eq)]
pub enum Scope {
    /// All of it.
    Whole,

    /// This part of it.
    Exactly(Part),

    /// So many rows and columns around the cursor, last at this place.
    Following(Part),
}

impl Scope {
    /// The part of a screen that is shown.
    pub fn part<S: Seen>(self, shot: &S) -> Part
        ensures part { result ≡ part_for self (S.screen shot.now) }
    {
        match self {
            Scope::Whole => Part {
                row: 0,
                col: 0,
                rows: shot.rows(),
                cols: shot.cols(),
            },
            Scope::Exactly(part) => part,
            Scope::Following(part) => part.followed(shot),
        }
    }

    // Returns the scope after a part was shown.
    pub(crate) fn after(self, part: Part) -> Scope
        ensures after { result ≡ scope_after self part }
    {
        match self {
            Scope::Whole => Scope::Whole,
            Scope::Exactly(exact) => Scope::Exactly(exact),
            Scope::Following(_) => Scope::Following(part),
        }
    }

    // Returns the place of a part; `None` for the whole screen.
    pub(crate) fn place(self, part: Part) -> Option<(u16, u16)>
        ensures place { result ≡ place_told self part }
    {
        match self {
            Scope::Whole => None,
            Scope::Exactly(_) | Scope::Following(_) => Some((part.row, part.col)),
        }
    }
}
