//! Laws of the grammars and of the two ends together, whatever calls were made.
ghost use Rattle.std.specs.Prelude.{◌≡◌, ℕ, ◌+◌, ◌≤◌, ◌++◌, List, length, take};
ghost use Rattle.std.specs.List.{All};
ghost use Rattle.roam_acts.specs.declared.acts.Act.{Act};
ghost use Rattle.roam_acts.specs.Acts.{IsAct};
ghost use Rattle.roam_acts.specs.Bytes.{acts_text};
ghost use Rattle.roam_acts.specs.Lines.{line_of, Spells};
ghost use Rattle.roam_acts.specs.Senders.{IsStretch};
ghost use Rattle.roam_acts.specs.Takers.{fresh_of};

/// Two lists of acts with one text are equal.
pub fn one_list_a_text()
    ensures one { (xs ys : List Act) → All IsAct xs → All IsAct ys → acts_text xs ≡ acts_text ys → xs ≡ ys }
{}

/// Two acts that one line spells are equal.
pub fn one_act_a_line()
    ensures one { (line : List ℕ) (a b : Act) → IsAct a → IsAct b → Spells line a → Spells line b → a ≡ b }
{}

/// The line that is written for an act spells it.
pub fn written_lines_spell()
    ensures spells { (a : Act) → IsAct a → Spells (line_of a) a }
{}

/// The fresh acts of any stretch follow those taken: a taken front of the typed acts grows to a longer front, whatever stretches arrive,
/// how often and in which order.
pub fn fresh_acts_follow()
    ensures follow { (all acts : List Act) (taken first : ℕ) → taken ≤ length all → IsStretch all first acts
        → take taken all ++ fresh_of taken first acts ≡ take (taken + length (fresh_of taken first acts)) all }
{}
