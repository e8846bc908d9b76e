//! Laws of the grammars and of gathering alone, whatever calls were made.
ghost use Rattle.std.specs.Prelude.{◌≡◌, ℕ, List, [], ◌∷◌, Some};
ghost use Rattle.roam_wire.specs.AnyOrder.{answer_to, AreFragmentsOf, gathered_of, GathersOf, GathersWell, IsFragmentOf};
ghost use Rattle.roam_wire.specs.Cutting.{joined_fragments, fragments_of};
ghost use Rattle.roam_wire.specs.Datagrams.{DatagramValue, IsDatagram, datagram_text};
ghost use Rattle.roam_wire.specs.Gatherers.{gather, Gathering, nothing, FragmentValue};
ghost use Rattle.roam_wire.specs.Instructions.{DownValue, IsDown, down_text, UpValue, IsUp, up_text};

/// Two datagrams with one text are equal.
pub fn one_datagram_a_text()
    ensures one { (d e : DatagramValue) → IsDatagram d → IsDatagram e → datagram_text d ≡ datagram_text e → d ≡ e }
{}

/// Two instructions to a client with one text are equal.
pub fn one_down_a_text()
    ensures one { (d e : DownValue) → IsDown d → IsDown e → down_text d ≡ down_text e → d ≡ e }
{}

/// Two instructions to the server with one text are equal.
pub fn one_up_a_text()
    ensures one { (u v : UpValue) → IsUp u → IsUp v → up_text u ≡ up_text v → u ≡ v }
{}

/// The fragments of a text join to it.
pub fn fragments_join()
    ensures joined { (text : List ℕ) → joined_fragments (fragments_of text) ≡ text }
{}

/// The fragments of a gatherer were cut under one id, whichever arrive, how often and in which order. No fragment that was cut is refused,
/// and a whole text under an id is the one that was cut under it. `cuts` gives the fragments of each id; ids begin at 1.
pub fn whole_is_what_was_cut()
    ensures nothing { (cuts : ℕ → List (List ℕ)) → cuts 0 ≡ [] → GathersOf cuts nothing }
    ensures whole { (cuts : ℕ → List (List ℕ)) (g : Gathering) (p : FragmentValue) → GathersOf cuts g → IsFragmentOf cuts p
        → GathersWell cuts g p (gather g p) }
{}

/// The results of a new gatherer for any fragments that were cut, in any order with repeats. `Whole` exactly when the last missing fragment
/// of an id comes and no higher id came before, with the text that was cut under it. `Old` for a fragment that changes nothing; else
/// `Part`. `ps` are the fragments before `p`, the latest first. Fragments of other ids never enter. `cuts` gives the fragments of each id;
/// ids begin at 1.
pub fn any_order_gathers()
    ensures answers { (cuts : ℕ → List (List ℕ)) → cuts 0 ≡ [] → (p : FragmentValue) (ps : List FragmentValue)
        → AreFragmentsOf cuts (p ∷ ps) → gather (gathered_of ps) p ≡ Some (answer_to cuts ps p, gathered_of (p ∷ ps)) }
{}
