//! A session.
ghost use Rattle.std.specs.Prelude.{◌≡◌, ◌≢◌, ◌≤◌, ◌-◌, ◌⊎◌, ◌↔◌, ℕ, List, [], Option, Some, None, true, length, take, IfOk, IfErr, OnOk, OnErr, IsErrOf, IsOkUnless};
ghost use Rattle.std.specs.Option.{option_map};
ghost use Rattle.roam_acts.specs.Acts.{IsInRange};
ghost use Rattle.roam_layout.specs.Rects.{rect_in};
ghost use Rattle.roam_layout.specs.Layouts.{IsSessionSize, Laid, Refused, outcome_of, panes};
ghost use Rattle.roam_session.specs.Sessions.{SessionSize, Entry, Given, Did, Drained, key_in};
ghost use Rattle.roam_session.specs.Refusals.{refuses_bytes, output_at, stops, none_refused, fault_of};
ghost use Rattle.roam_session.specs.Faces.{face};
ghost use Rattle.roam_session.specs.Stands.{Stands, Appends, KeptIn, MarksRows, face_now, keeping, generation_at, term_at, waiting_at};
ghost use Rattle.roam_session.specs.Generations.{CountsGenerations, generation_of};
ghost use Rattle.roam_session.specs.Places.{focus_at, rect_at};
ghost use Rattle.roam_session.specs.Marks.{is_concerned};
ghost use Rattle.roam_grid.specs.Marks.{all_on, also_marked};
ghost use Rattle.roam_session.specs.Steps.{IsGiven};
ghost use Rattle.roam_session.specs.Queues.{ChangesAt, IsKeyed, IsWithin, IsCopied, key_refused};
ghost use Rattle.roam_term.specs.Limits.{most_output};

use crate::faces::{blank_of, face_of};
use crate::generations::count_generations;
use crate::marks::mark_laid;
use crate::pictures::PanePictures;
use crate::steps::{perform, prepare};
use crate::{generations, queues};
use roam_acts::{Act, Key};
use roam_cells::Fault;
use roam_layout::Layout;
use roam_layout::rects::{Rect, rect_of};
use roam_screens::RowShot;
use roam_term::Term;
use std::alloc::Global;
use std::marker::Model;

/// A session: the terminals of up to nine panes under one layout.
#[derive(Drop)]
pub struct Session {
    layout: Layout,
    terms: Vec<Option<Term>>,
    marks: [bool; 200],
    kept: RowShot,
    generations: [u64; 10],
}

impl Model for Session {
    ghost use Rattle.roam_session.specs.Stands.{SessionView, IsSession};
    ghost use Rattle.roam_layout.specs.Coding.{plan_code};
    ghost use Rattle.std.specs.Coded.{codes};

    ghost Value = { SessionView };

    ghost coded = { Prim.hlevel (codes, plan_code) };

    ghost view = { λ s. record { plan = s.layout; terms = s.terms.items; marks = s.marks; kept = s.kept; generations = s.generations } };

    ghost invariant = { λ s.
        IsSession (record { plan = s.layout; terms = s.terms.items; marks = s.marks; kept = s.kept; generations = s.generations }) };
}

// The key of an act by a key.
fn key_in(act: &Act) -> Option<Key>
    ensures key { result ≡ key_in act.now }
{
    match *act {
        Act::Key(key) => Some(key),
        _ => None,
    }
}

// Ten numbers with no terminal.
fn no_terms(alloc: Global) -> Result<Vec<Option<Term>>, Fault>
    ensures ten { IfOk result (λ terms. length terms.items ≡ 10) }
    ensures none { IfOk result (λ terms. (k : ℕ) → term_at terms.items k ≡ None) }
    ensures fault { IsOkUnless result Fault.OutOfMemory }
{
    let mut terms = Vec::with_capacity(alloc, 10)?;
    for _ in 0..10_u8 {
        terms.push(None)?;
    }
    Ok(terms)
}

impl Session {
    /// Returns a session of one pane that fills all rows but the last, before any event. `BadSize` outside 4 to 200 rows or 8 to 500
    /// columns.
    pub fn new(alloc: Global, rows: u16, cols: u16) -> Result<Session, Fault>
        ensures stands { IfOk result (λ session. Stands session (record { rows = rows; cols = cols }) []) }
        ensures marks { IfOk result (λ session. session.marks ≡ all_on) }
        ensures size { OnOk result (IsSessionSize rows cols) }
        ensures bad_size { IsErrOf result Fault.BadSize ↔ (¬ IsSessionSize rows cols) }
        ensures faults { IfErr result (λ fault. (fault ≡ Fault.BadSize) ⊎ (fault ≡ Fault.OutOfMemory)) }
    {
        let layout = Layout::new(alloc, rows, cols)?;
        layout.facts();
        let mut terms = no_terms(alloc)?;
        let mut steps = prepare(alloc, &terms, &[], layout.rects())?;
        perform(&mut terms, &mut steps);
        let kept = blank_of(alloc, &layout)?;
        Ok(Session {
            layout,
            terms,
            marks: [true; 200],
            kept,
            generations: [0, 1, 0, 0, 0, 0, 0, 0, 0, 0],
        })
    }

    // A key for the pane in focus.
    fn type_key(&mut self, key: &Key) -> Result<(), Fault>
        ensures fault { fault_of result ≡ key_refused key.now (term_at self.old.terms self.old.plan.focus) }
        ensures plan { self.new.plan ≡ self.old.plan }
        ensures marks { self.new.marks ≡ self.old.marks }
        ensures kept { self.new.kept ≡ self.old.kept }
        ensures lives { self.new.generations ≡ self.old.generations }
        ensures keyed { OnOk result (ChangesAt self.old.plan.focus (IsKeyed key.now) self.old.terms self.new.terms) }
        ensures err { OnErr result (self.new ≡ self.old) }
    {
        queues::type_key(&mut self.terms, self.layout.focus(), key)
    }

    // A layout command: all memory first, then the change.
    fn lay_out(&mut self, alloc: Global, act: &Act) -> Result<(), Fault>
        requires in_range { IsInRange act.now }
        ensures laid { OnOk result (outcome_of self.old.plan act.now ≡ Laid self.new.plan) }
        ensures given { OnOk result ((k : ℕ)
            → IsGiven (rect_in k (panes self.old.plan)) (rect_in k (panes self.new.plan))
            (term_at self.old.terms k) (term_at self.new.terms k)) }
        ensures marks { OnOk result (self.new.marks ≡ also_marked (is_concerned act.now self.old.plan self.new.plan) self.old.marks) }
        ensures kept { self.new.kept ≡ self.old.kept }
        ensures lives { OnOk result (CountsGenerations self.old.plan self.new.plan self.old.generations self.new.generations) }
        ensures refused { IfErr result (λ fault. (fault ≡ Fault.OutOfMemory) ⊎ (outcome_of self.old.plan act.now ≡ Refused fault)) }
        ensures exact { (fault : Fault) → outcome_of self.old.plan act.now ≡ Refused fault → IsErrOf result fault }
        ensures err { OnErr result (self.new ≡ self.old) }
    {
        let next = self.layout.after(alloc, act)?;
        self.layout.facts();
        next.facts();
        let mut steps = prepare(alloc, &self.terms, self.layout.rects(), next.rects())?;
        perform(&mut self.terms, &mut steps);
        mark_laid(&mut self.marks, act, &self.layout, &next);
        count_generations(&mut self.generations, &self.layout, &next);
        self.layout = next;
        Ok(())
    }

    /// Feeds bytes of a pane's program to its terminal, whose answers are queued. `NoPane`, then `TooLong` above 1,024 bytes, then `Busy`
    /// if the pane's queue hasn't 12 free bytes for each; an error changes nothing. It takes no memory.
    pub fn pane_bytes(&mut self, pane: u8, piece: &[u8]) -> Result<(), Fault>
        ensures given { OnOk result (Appends self.old self.new (Given pane piece.now)) }
        ensures marks { OnOk result (MarksRows self.old self.new (Given pane piece.now)) }
        ensures fault { (size : SessionSize) (log : List Entry)
            → Stands self.old size log → fault_of result ≡ refuses_bytes size log pane piece.now }
        ensures err { OnErr result (self.new ≡ self.old) }
    {
        self.layout.facts();
        queues::feed(&mut self.terms, pane, piece, &self.layout, &mut self.marks)
    }

    /// Does an act of a client. A key's bytes are queued in the pane in focus; `Busy` if they don't fit. A layout command brings each
    /// terminal to its new size; if the layout returns `BadSize`, `TooSmall`, `NoPane`, `PanesFull` or `LastPane` it has no effect. `Busy`
    /// and `OutOfMemory` change nothing. A key takes no memory, nor does an act that the layout refuses.
    pub fn act(&mut self, alloc: Global, client: u64, act: &Act) -> Result<(), Fault>
        requires in_range { IsInRange act.now }
        ensures done { OnOk result (Appends self.old self.new (Did client act.now)) }
        ensures marks { OnOk result (MarksRows self.old self.new (Did client act.now)) }
        ensures laid { OnOk result (outcome_of self.old.plan act.now ≡ Laid self.new.plan) }
        ensures refused { IfErr result (λ fault. fault ≢ Fault.OutOfMemory → fault ≢ Fault.Busy
            → Appends self.old self.new (Did client act.now)) }
        ensures busy { (size : SessionSize) (log : List Entry)
            → Stands self.old size log → (fault_of result ≡ Some Fault.Busy) ↔ (stops size log act.now ≡ true) }
        ensures faults { IfErr result (λ fault. (fault ≡ Fault.OutOfMemory) ⊎ (fault ≡ Fault.Busy)
            ⊎ (outcome_of self.old.plan act.now ≡ Refused fault)) }
        ensures exact { (fault : Fault) → outcome_of self.old.plan act.now ≡ Refused fault → IsErrOf result fault }
        ensures keys { IsErrOf result Fault.OutOfMemory → key_in act.now ≡ None }
        ensures err { OnErr result (self.new ≡ self.old) }
    {
        match key_in(act) {
            Some(key) => self.type_key(&key),
            None => self.lay_out(alloc, act),
        }
    }

    /// Returns the screen of the session: its panes at their views, the borders between them, and the status text. Marked rows are built,
    /// the others are those of the kept face; no cell of a pane without a marked row is read. `OutOfMemory`.
    pub fn face(&self, alloc: Global) -> Result<RowShot, Fault>
        ensures face { IfOk result (λ shot. (size : SessionSize) (log : List Entry)
            → Stands self.now size log → shot ≡ face size log) }
        ensures now { IfOk result (λ shot. shot ≡ face_now self.now) }
        ensures fault { IsOkUnless result Fault.OutOfMemory }
    {
        self.layout.facts();
        let pictures = PanePictures {
            layout: &self.layout,
            terms: &self.terms,
        };
        face_of(alloc, &self.layout, &pictures, &self.kept, &self.marks)
    }

    /// For each row of the session, from 0, whether it may show something else than in the face that was kept; all at first. It takes no
    /// memory.
    pub fn marks(&self) -> &[bool]
        ensures marks { result.now ≡ take self.now.plan.rows self.now.marks }
        ensures len { length result.now ≡ self.now.plan.rows }
        ensures kept { (size : SessionSize) (log : List Entry) → Stands self.now size log
            → KeptIn self.now.kept (face size log) self.now.plan.rows result.now }
    {
        self.layout.facts();
        &self.marks[..usize::from(self.layout.rows())]
    }

    /// Keeps the face as it is now, and puts all marks off. It takes no memory.
    pub fn keep(&mut self, shot: RowShot)
        requires face { shot ≡ face_now self.old }
        ensures kept { self.new ≡ keeping shot self.old }
    {
        self.marks = [false; 200];
        self.kept = shot;
    }

    /// Returns the generation of the pane with this number, counted from 1 modulo 2^64; `None` if there is no such pane. It takes no
    /// memory.
    pub fn generation(&self, pane: u8) -> Option<u64>
        ensures life { result ≡ generation_at self.now pane }
        ensures stands { (size : SessionSize) (log : List Entry)
            → Stands self.now size log → generation_at self.now pane ≡ generation_of size log pane }
    {
        generations::generation(&self.terms, &self.generations, pane)
    }

    /// Returns the rectangle of a pane, rows and columns from 1; `None` if there is no pane with this number. It takes no memory.
    pub fn rect(&self, pane: u8) -> Option<Rect>
        ensures rect { (size : SessionSize) (log : List Entry) → Stands self.now size log → result ≡ rect_at size log pane }
    {
        rect_of(self.layout.rects(), pane)
    }

    /// The number of the pane in focus. It takes no memory.
    pub fn focus(&self) -> u8
        ensures focus { (size : SessionSize) (log : List Entry) → Stands self.now size log → result ≡ focus_at size log }
    {
        self.layout.focus()
    }

    /// How many bytes wait in a pane that is there.
    pub fn output_len(&self, pane: u8) -> Option<usize>
        ensures len { result ≡ option_map (λ (waiting : List ℕ). length waiting) (waiting_at self.now.terms pane) }
        ensures stands { (size : SessionSize) (log : List Entry)
            → Stands self.now size log → waiting_at self.now.terms pane ≡ output_at size log pane }
    {
        queues::output_len(&self.terms, pane)
    }

    /// How many more of 65,536 bytes may wait in a pane that is there.
    pub fn room(&self, pane: u8) -> Option<usize>
        ensures room { result ≡ option_map (λ (waiting : List ℕ). most_output - length waiting) (waiting_at self.now.terms pane) }
        ensures stands { (size : SessionSize) (log : List Entry)
            → Stands self.now size log → waiting_at self.now.terms pane ≡ output_at size log pane }
    {
        queues::room(&self.terms, pane)
    }

    /// Copies the first bytes queued in a pane, as many as fit, and returns their number. `NoPane`. It takes no memory.
    pub fn output(&self, pane: u8, out: &mut [u8]) -> Result<usize, Fault>
        ensures fault { (size : SessionSize) (log : List Entry)
            → Stands self.now size log → fault_of result ≡ none_refused (output_at size log pane) }
        ensures bytes { IfOk result (λ n. IsCopied n out.old out.new (waiting_at self.now.terms pane)) }
        ensures within { IfOk result (λ n. n ≤ length out.old) }
        ensures stands { (size : SessionSize) (log : List Entry)
            → Stands self.now size log → waiting_at self.now.terms pane ≡ output_at size log pane }
        ensures err { OnErr result (out.new ≡ out.old) }
    {
        queues::copy_output(&self.terms, pane, out)
    }

    /// Takes the first n bytes that wait in a pane, at most all of them. Refuses `NoPane`. It takes no memory.
    pub fn drain(&mut self, pane: u8, n: usize) -> Result<(), Fault>
        requires within { IsWithin n (waiting_at self.old.terms pane) }
        ensures drained { OnOk result (Appends self.old self.new (Drained pane n)) }
        ensures marks { OnOk result (MarksRows self.old self.new (Drained pane n)) }
        ensures fault { (size : SessionSize) (log : List Entry)
            → Stands self.old size log → fault_of result ≡ none_refused (output_at size log pane) }
        ensures err { OnErr result (self.new ≡ self.old) }
    {
        queues::drain(&mut self.terms, pane, n)
    }
}
