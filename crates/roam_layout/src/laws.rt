//! Laws of layouts.
ghost use Rattle.std.specs.Prelude.{◌≡◌, ◌≤◌, ◌<◌, ℕ, List, true, false, length};
ghost use Rattle.roam_acts.specs.declared.acts.Act.{Act};
ghost use Rattle.roam_screens.specs.Screenshot.{Screenshot};
ghost use Rattle.roam_layout.specs.Trees.{Shape, has, leaves, free};
ghost use Rattle.roam_layout.specs.Layouts.{Plan, IsPlan, Laid, outcome_of, panes};
ghost use Rattle.roam_layout.specs.Changes.{panes_closed, panes_made};
ghost use Rattle.roam_layout.specs.Faces.{picture_in, ArePictures, Show};

/// The number of a new pane is free if there are fewer than nine panes, and every number from 1 on below it is a pane's.
pub fn new_numbers_are_the_smallest_free()
    ensures free { (tree : Shape) → length (leaves tree) < 9 → has (free tree) tree ≡ false }
    ensures smallest { (tree : Shape) (pane : ℕ) → 1 ≤ pane → pane < free tree → has pane tree ≡ true }
{}

/// A list of pictures shows, for each pane, the one that it has under the pane's number.
pub fn lists_show_their_pictures()
    ensures show { (s : Plan) (shots : List (ℕ × Screenshot)) → IsPlan s → ArePictures (panes s) shots → Show (picture_in shots) shots }
{}

/// An act closes at most one pane, and makes at most one.
pub fn acts_close_and_make_at_most_one_pane()
    ensures closed { (s t : Plan) (act : Act) → IsPlan s → outcome_of s act ≡ Laid t → length (panes_closed (panes s) (panes t)) ≤ 1 }
    ensures made { (s t : Plan) (act : Act) → IsPlan s → outcome_of s act ≡ Laid t → length (panes_made (panes s) (panes t)) ≤ 1 }
{}
