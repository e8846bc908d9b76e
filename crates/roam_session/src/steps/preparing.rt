//! Steps are prepared, and then done.
ghost use Rattle.std.specs.Prelude.{◌≡◌, ℕ, ◌<◌, Option, Some, None, length, IfOk, IsOkUnless};
ghost use Rattle.roam_cells.specs.Limits.{IsSize};
ghost use Rattle.roam_layout.specs.Rects.{rect_in};
ghost use Rattle.roam_layout.specs.declared.rects.Rect.{Rect as RectOfLayout};
ghost use Rattle.roam_session.specs.Panes.{is_same_size};
ghost use Rattle.roam_session.specs.Stands.{term_at};
ghost use Rattle.roam_session.specs.Steps.{IsFresh, AreSizes, Prepares, Suits, Does, step_at};

use crate::steps::Step;
use roam_cells::Fault;
use roam_layout::Rect;
use roam_layout::rects::rect_of;
use roam_term::{MOST_LINES, Term};
use std::alloc::Global;
use std::mem;

fn is_same_size(one: Rect, other: Rect) -> bool
    ensures same { result ≡ is_same_size one other }
{
    one.rows == other.rows && one.cols == other.cols
}

// The terminal of a pane that begins in a rectangle.
fn begin(alloc: Global, rect: Rect) -> Result<Term, Fault>
    requires size { IsSize rect.rows rect.cols }
    ensures fresh { IfOk result (λ term. IsFresh term rect) }
    ensures fault { IsOkUnless result Fault.OutOfMemory }
{
    let mut term = Term::new(alloc, rect.rows, rect.cols, MOST_LINES)?;
    term.clear_marks();
    Ok(term)
}

// The step of a terminal that goes from a rectangle to another.
fn move_to(alloc: Global, term: &Term, from: Rect, to: Rect) -> Result<Step, Fault>
    requires size { IsSize to.rows to.cols }
    ensures step { IfOk result (λ step. Prepares step (Some from) (Some to) (Some term.now)) }
    ensures fault { IsOkUnless result Fault.OutOfMemory }
{
    if is_same_size(from, to) {
        return Ok(Step::Keep);
    }
    Ok(Step::Fit(term.fit(alloc, to.rows, to.cols)?))
}

// Returns the step of a number that has one rectangle before an act and another after it.
fn step_for(
    alloc: Global,
    term: &Option<Term>,
    from: Option<Rect>,
    to: Option<Rect>,
) -> Result<Step, Fault>
    requires size { (r : RectOfLayout) → to ≡ Some r → IsSize r.rows r.cols }
    ensures step { IfOk result (λ step. Prepares step from to term.now) }
    ensures fault { IsOkUnless result Fault.OutOfMemory }
{
    let Some(to) = to else {
        return Ok(Step::End);
    };
    match (from, term) {
        (None, _) => Ok(Step::Begin(begin(alloc, to)?)),
        (Some(from), Some(term)) => move_to(alloc, term, from, to),
        (Some(_), None) => Ok(Step::Keep),
    }
}

// The step of the terminal at a number.
fn step_at(
    alloc: Global,
    terms: &[Option<Term>],
    from: &[(u8, Rect)],
    to: &[(u8, Rect)],
    pane: u8,
) -> Result<Step, Fault>
    requires number { pane < length terms.now }
    requires sizes { AreSizes to.now }
    ensures step { IfOk result (λ step. Prepares step (rect_in pane from.now) (rect_in pane to.now) (term_at terms.now pane)) }
    ensures fault { IsOkUnless result Fault.OutOfMemory }
{
    step_for(
        alloc,
        &terms[usize::from(pane)],
        rect_of(from, pane),
        rect_of(to, pane),
    )
}

/// The steps that bring the terminals from the rectangles of one layout to those of another. Refuses want of memory.
pub fn prepare(
    alloc: Global,
    terms: &[Option<Term>],
    from: &[(u8, Rect)],
    to: &[(u8, Rect)],
) -> Result<Vec<Step>, Fault>
    requires ten { length terms.now ≡ 10 }
    requires sizes { AreSizes to.now }
    ensures count { IfOk result (λ steps. length steps.items ≡ 10) }
    ensures steps { IfOk result (λ steps. (k : ℕ) → k < 10
        → Prepares (step_at steps.items k) (rect_in k from.now) (rect_in k to.now) (term_at terms.now k)) }
    ensures fault { IsOkUnless result Fault.OutOfMemory }
{
    let mut steps = Vec::new(alloc);
    for pane in 0..10_u8 {
        let step = step_at(alloc, terms, from, to, pane)?;
        steps.push(step)?;
    }
    Ok(steps)
}

// Puts a terminal, or none, in the place of another or none.
fn put(place: &mut Option<Term>, term: Option<Term>)
    ensures put { place.new ≡ term }
{
    *place = term;
}

// Does a step. It takes no memory.
fn settle(term: &mut Option<Term>, step: Step)
    requires suits { Suits step term.old }
    ensures done { Does step term.old term.new }
{
    match step {
        Step::Keep => {}
        Step::End => put(term, None),
        Step::Begin(begun) => put(term, Some(begun)),
        Step::Fit(fitted) => {
            if let Some(term) = term {
                term.adopt(fitted);
                term.clear_marks();
            }
        }
    }
}

/// Does the steps, each at its number. It takes no memory.
pub fn perform(terms: &mut Vec<Option<Term>>, steps: &mut Vec<Step>)
    requires ten { length terms.old.items ≡ 10 }
    requires count { length steps.old.items ≡ 10 }
    requires suit { (k : ℕ) → k < 10 → Suits (step_at steps.old.items k) (term_at terms.old.items k) }
    ensures ten { length terms.new.items ≡ 10 }
    ensures done { (k : ℕ) → k < 10 → Does (step_at steps.old.items k) (term_at terms.old.items k) (term_at terms.new.items k) }
{
    for k in 0..10_usize {
        let step = mem::replace(&mut steps[k], Step::Keep);
        settle(&mut terms[k], step);
    }
}
