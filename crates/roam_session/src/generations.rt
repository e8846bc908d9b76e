//! Lives: which making of each pane is there.
ghost use Rattle.std.specs.Prelude.{◌≡◌, ◌+◌, ◌%◌, ◌^◌, ◌<◌, ◌==◌, ℕ, length, slice_index, if◌then◌else◌};
ghost use Rattle.std.specs.Option.{option_map};
ghost use Rattle.roam_layout.specs.Layouts.{panes};
ghost use Rattle.roam_term.specs.Stands.{TermView};
ghost use Rattle.roam_session.specs.Generations.{CountsGenerations, made_between};
ghost use Rattle.roam_session.specs.Stands.{term_at};

use roam_layout::Layout;
use roam_layout::rects::rect_of;
use roam_term::Term;

// Returns how many panes of a number are made when a layout becomes another: one or none.
fn made_between(old: &Layout, new: &Layout, pane: u8) -> u64
    ensures made { result ≡ made_between (panes old.now) (panes new.now) pane }
{
    match (rect_of(old.rects(), pane), rect_of(new.rects(), pane)) {
        (None, Some(_)) => 1,
        (None, None) => 0,
        (Some(_), _) => 0,
    }
}

// Counts panes of a number that are made.
fn count(generations: &mut [u64; 10], pane: u8, made: u64)
    requires number { pane < 10 }
    ensures lives { (k : ℕ) → slice_index generations.new k
        ≡ if k == pane then (slice_index generations.old k + made) % 2 ^ 64 else slice_index generations.old k }
{
    let pane = usize::from(pane);
    generations[pane] = generations[pane].wrapping_add(made);
}

/// Counts the panes that are made when a layout becomes another.
pub fn count_generations(generations: &mut [u64; 10], old: &Layout, new: &Layout)
    ensures lives { CountsGenerations old.now new.now generations.old generations.new }
{
    for pane in 0..10_u8 {
        let made = made_between(old, new, pane);
        count(generations, pane, made);
    }
}

/// The generation of a pane that is there: the count of its number.
pub fn generation(terms: &[Option<Term>], generations: &[u64; 10], pane: u8) -> Option<u64>
    requires ten { length terms.now ≡ 10 }
    ensures life { result ≡ option_map (λ (t : TermView). slice_index generations.now pane) (term_at terms.now pane) }
{
    let pane = usize::from(pane);
    if terms.len() <= pane {
        return None;
    }
    match &terms[pane] {
        None => None,
        Some(_) => Some(generations[pane]),
    }
}
