//! The sockets of the panes, which their programs connect to.
ghost use Rattle.std.specs.Prelude.{◌≡◌, ◌≢◌, ◌⊎◌, ◌++◌, ◌≤◌, ◌<◌, ◌-◌, [], ◌∷◌, length, map, slice_get, string_bytes, is_some, nat_lt, None, Some, IfOk, OnOk, IfSome, IfErr, IsOkUnless};
ghost use Rattle.std.specs.List.{All, AllZip};
ghost use Rattle.roam_pane_sockets.specs.Panes.{path_of, paths_of};
ghost use Rattle.roam_pane_sockets.specs.MetadataLists.{AreMetadata, pane_metadata, shown_bells, title_of};
ghost use Rattle.roam_pane_sockets.specs.Queries.{AreQueries, last_of, pane_asked};
ghost use Rattle.roam_pane_sockets.specs.Clips.{AreClips, clip_of, pane_clips};
ghost use Rattle.roam_pane_sockets.specs.PaneInputs.{HandsOn, IsFreshPaneInput};
ghost use Rattle.roam_pane_sockets.specs.Peers.{Changes, HasFreeIn, IsMended, Generations, Asks, Hears, any_goes_on, frames_until, has_peer, pane_input_in};
ghost use Rattle.roam_pane_sockets.specs.FilterStages.{CountsSome, bytes_given};

use crate::moments::sooner;
use crate::pane_inputs::PaneInput;
use crate::peers::{Making, generation_of, has_peer, live, read, write};
use mio::net::UnixListener;
use mio::{Interest, Registry, Token};
use roam_acts::limits::{MOST_PANES, PANES_END};
use roam_cells::Fault;
use roam_faults::RunFault;
use roam_pane_metadata::Query;
use roam_pane_protocol::{ClipList, ClipPane, MetadataList, MetadataPane, QueryList, QueryPane};
use roam_sockets::{listen, listen_again};
use std::alloc::Global;
use std::fs::{Files, remove_file};
use std::net::Net;

/// The socket of a pane, and the pane's generation with its peer and its bytes.
#[derive(Drop)]
pub(crate) struct Pane {
    path: String,
    listener: UnixListener,
    making: Option<Making>,
    pane_input: PaneInput,
}

impl Pane {
    // Binds the socket of a pane in a folder, for a pane that isn't open yet. The program's wait reports it.
    fn bind<R: Files + Net>(
        rt: &R,
        alloc: Global,
        registry: &Registry,
        folder: &str,
        number: u8,
        normalize: bool,
    ) -> Result<Pane, RunFault>
        ensures path { IfOk result (λ pane. string_bytes pane.path ≡ path_of folder.now number) }
        ensures none { IfOk result (λ pane. pane.making ≡ None) }
        ensures fresh { IfOk result (λ pane. IsFreshPaneInput pane.pane_input normalize) }
        ensures faults { IfErr result (λ fault. (fault ≡ RunFault.Bind) ⊎ (fault ≡ RunFault.Core Fault.OutOfMemory)) }
    {
        let Ok(path) = format!(in alloc; "{folder}/p{number}") else {
            return Err(RunFault::Core(Fault::OutOfMemory));
        };
        let Some(mut listener) = listen(rt, path.as_str()) else {
            return Err(RunFault::Bind);
        };
        // Where it isn't reported, a wait ends by its time alone.
        let _ = registry.register(&mut listener, Token(0), Interest::READABLE);
        Ok(Pane {
            path,
            listener,
            making: None,
            pane_input: PaneInput::new(alloc, normalize),
        })
    }

    // Binds the socket anew if its file is gone.
    fn mend<R: Files + Net>(&mut self, rt: &R, registry: &Registry)
        ensures others { self.new ≡ record self.old { listener = self.new.listener } }
    {
        if listen_again(rt, self.path.as_str(), &mut self.listener) {
            // If it isn't reported, a wait ends by its time alone.
            let _ = registry.register(&mut self.listener, Token(0), Interest::READABLE);
        }
    }

    // From now on this making of the pane is there, or none is.
    fn live(&mut self, generation: Option<u64>)
        ensures lives { Generations generation self.old self.new }
    {
        live(&mut self.making, &mut self.pane_input, generation);
    }

    // Reads from the pane's program, and returns how many bytes at the front of `buf` go on to the terminal.
    fn read(&mut self, registry: &Registry, buf: &mut [u8], now: u64) -> Option<usize>
        ensures within { IfSome result (λ n. n ≤ length buf.new) }
        ensures hears { Hears (is_some result) (bytes_given result buf.new) self.old self.new }
        ensures none { result ≡ None → self.new.pane_input ≡ self.old.pane_input }
        ensures free { HasFreeIn now (Some self.old) → 0 < length buf.old → CountsSome result }
        ensures hands { IfSome result (λ n. HandsOn now self.old.pane_input self.new.pane_input n) }
    {
        read(
            &mut self.making,
            &mut self.pane_input,
            &self.listener,
            registry,
            buf,
            now,
        )
    }

    // Returns the pane's metadata; `None` if it isn't open.
    fn metadata(&self) -> Option<MetadataPane>
        ensures beside { result ≡ pane_metadata (Some self.now) }
    {
        match generation_of(&self.making) {
            None => None,
            Some(generation) => Some(self.pane_input.metadata_of(generation)),
        }
    }

    // Returns how many clips the program has sent; `None` if the pane isn't open.
    fn clips(&self) -> Option<ClipPane>
        ensures clips { result ≡ pane_clips (Some self.now) }
    {
        match generation_of(&self.making) {
            None => None,
            Some(generation) => Some(self.pane_input.clips_of(generation)),
        }
    }

    // Returns how many questions the program has asked; `None` if the pane isn't open.
    fn asks(&self) -> Option<QueryPane>
        ensures asks { result ≡ pane_asked (Some self.now) }
    {
        match generation_of(&self.making) {
            None => None,
            Some(generation) => Some(self.pane_input.asked_of_pane(generation)),
        }
    }

    // How many of the bytes the program took.
    fn write(&mut self, registry: &Registry, bytes: &[u8]) -> usize
        ensures within { result ≤ length bytes.now }
        ensures asks { Asks (nat_lt 0 result) self.old self.new }
    {
        write(&mut self.making, &self.listener, registry, bytes)
    }
}

// Returns the metadata to report. If no bell may be reported, the count of bells is that of the last report.
fn shown_bells(
    may_ring: bool,
    shown: Option<MetadataPane>,
    now: Option<MetadataPane>,
) -> Option<MetadataPane>
    ensures shown { result ≡ shown_bells may_ring shown now }
{
    match now {
        None => None,
        Some(now) if may_ring => Some(now),
        Some(now) => Some(now.without_new_bells(shown)),
    }
}

// Returns the first moment at which an update in one of these panes ends; `None` if none is kept back.
fn frames_until(all: &[Pane]) -> Option<u64>
    ensures until { result ≡ frames_until all.now }
{
    let (first, others) = all.split_first()?;
    sooner(first.pane_input.waits_until(), frames_until(others))
}

// Returns true if the rest of an update is to go on to one of these panes.
fn any_goes_on(all: &[Pane]) -> bool
    ensures any { result ≡ any_goes_on all.now }
{
    match all.split_first() {
        None => false,
        Some((first, others)) => first.pane_input.goes_on() || any_goes_on(others),
    }
}

// Binds those sockets anew whose files are gone.
fn mend_all<R: Files + Net>(rt: &R, registry: &Registry, all: &mut [Pane])
    ensures others { AllZip IsMended all.old all.new }
{
    let Some((first, others)) = all.split_first_mut() else {
        return;
    };
    first.mend(rt, registry);
    mend_all(rt, registry, others);
}

/// The sockets `p1` to `p9` of a folder, each of the pane of that number.
#[derive(Drop)]
pub struct Panes {
    all: Vec<Pane>,
}

impl Panes {
    /// Binds the sockets of a folder; no pane is open yet. It first removes socket files without a listener. `Bind` if one can't be bound,
    /// as for a file in its place or a folder without a name; `OutOfMemory`. After an error it removes the sockets bound before. Bytes go
    /// on as they are, or normalized.
    pub fn bind<R: Files + Net>(
        rt: &R,
        alloc: Global,
        registry: &Registry,
        folder: &str,
        normalize: bool,
    ) -> Result<Panes, RunFault>
        ensures nine { IfOk result (λ panes. length panes.all.items ≡ 9) }
        ensures paths { IfOk result (λ panes. map (λ pane. string_bytes pane.path) panes.all.items ≡ paths_of folder.now 9) }
        ensures none { IfOk result (λ panes. All (λ pane. pane.making ≡ None) panes.all.items) }
        ensures fresh { IfOk result (λ panes. All (λ pane. IsFreshPaneInput pane.pane_input normalize) panes.all.items) }
        ensures named { IfOk result (λ _. folder.now ≢ []) }
        ensures faults { IfErr result (λ fault. (fault ≡ RunFault.Bind) ⊎ (fault ≡ RunFault.Core Fault.OutOfMemory)) }
    {
        if folder.is_empty() {
            return Err(RunFault::Bind);
        }
        let Ok(all) = Vec::with_capacity(alloc, MOST_PANES as usize) else {
            return Err(RunFault::Core(Fault::OutOfMemory));
        };
        let mut panes = Panes { all };
        match panes.bind_all(rt, alloc, registry, folder, normalize) {
            Ok(()) => Ok(panes),
            Err(fault) => {
                panes.remove(rt);
                Err(fault)
            }
        }
    }

    fn bind_all<R: Files + Net>(
        &mut self,
        rt: &R,
        alloc: Global,
        registry: &Registry,
        folder: &str,
        normalize: bool,
    ) -> Result<(), RunFault>
        requires empty { length self.old.all.items ≡ 0 }
        ensures nine { OnOk result (length self.new.all.items ≡ 9) }
        ensures paths { OnOk result (map (λ pane. string_bytes pane.path) self.new.all.items ≡ paths_of folder.now 9) }
        ensures none { OnOk result (All (λ pane. pane.making ≡ None) self.new.all.items) }
        ensures fresh { OnOk result (All (λ pane. IsFreshPaneInput pane.pane_input normalize) self.new.all.items) }
        ensures faults { IfErr result (λ fault. (fault ≡ RunFault.Bind) ⊎ (fault ≡ RunFault.Core Fault.OutOfMemory)) }
    {
        for number in 1..PANES_END {
            let pane = Pane::bind(rt, alloc, registry, folder, number, normalize)?;
            self.add(pane)?;
        }
        Ok(())
    }

    fn add(&mut self, pane: Pane) -> Result<(), Fault>
        ensures items { OnOk result (self.new.all.items ≡ self.old.all.items ++ pane ∷ []) }
        ensures fault { IsOkUnless result Fault.OutOfMemory }
    {
        self.all.push(pane)?;
        Ok(())
    }

    /// Binds those sockets anew whose files are gone. The panes and their peers stay.
    pub fn mend<R: Files + Net>(&mut self, rt: &R, registry: &Registry)
        ensures others { AllZip IsMended self.old.all.items self.new.all.items }
    {
        mend_all(rt, registry, &mut self.all);
    }

    /// From now on this making of a pane, 1 to 9, is there, or none is: a peer that came to another is let go.
    pub fn live(&mut self, pane: u8, generation: Option<u64>)
        ensures lives { Changes (Generations generation) pane self.old.all.items self.new.all.items }
    {
        let at = usize::from(pane);
        if 0 < at && at <= self.all.len() {
            self.all[at - 1].live(generation);
        }
    }

    /// Returns how many bytes of `buf`, from the front, go on to a pane's terminal; `None` if all bytes are kept back, as in an open
    /// update. It accepts a peer if there is none, and drops one that closed. A peer of a closed pane has to wait.
    pub fn read(&mut self, registry: &Registry, pane: u8, buf: &mut [u8], now: u64) -> Option<usize>
        ensures within { IfSome result (λ n. n ≤ length buf.new) }
        ensures hears { Changes (Hears (is_some result) (bytes_given result buf.new)) pane self.old.all.items self.new.all.items }
        ensures none { result ≡ None → 1 ≤ pane
            → pane_input_in (slice_get self.new.all.items (pane - 1)) ≡ pane_input_in (slice_get self.old.all.items (pane - 1)) }
        // Queued bytes go on as soon as they may, also those of an update that was kept back for long enough.
        ensures free { 1 ≤ pane → HasFreeIn now (slice_get self.old.all.items (pane - 1)) → 0 < length buf.old → CountsSome result }
        // And no sooner: a frame that is open, and isn't over at this moment, waits.
        ensures hands { Changes (λ p q. IfSome result (λ n. HandsOn now p.pane_input q.pane_input n)) pane self.old.all.items
            self.new.all.items }
    {
        let at = usize::from(pane);
        if at < 1 || self.all.len() < at {
            return None;
        }
        self.all[at - 1].read(registry, buf, now)
    }

    // Returns the metadata of a pane; `None` if it isn't open.
    fn metadata(&self, pane: u8) -> Option<MetadataPane>
        ensures beside { 1 ≤ pane → result ≡ pane_metadata (slice_get self.now.all.items (pane - 1)) }
    {
        let at = usize::from(pane);
        if at < 1 || self.all.len() < at {
            return None;
        }
        self.all[at - 1].metadata()
    }

    /// The last title that the program of a pane said, or nothing.
    pub fn title(&self, pane: u8) -> &[char]
        ensures title { 1 ≤ pane → result.now ≡ title_of self.now.all.items pane }
    {
        let at = usize::from(pane);
        if at < 1 || self.all.len() < at {
            return &[];
        }
        self.all[at - 1].pane_input.title()
    }

    /// Returns the metadata of the panes, with the bells that may be reported: all of them, or those of the last report.
    pub fn metadata_lists(&self, may_ring: bool, shown: &MetadataList) -> MetadataList
        ensures are { AreMetadata may_ring shown.now self.now.all.items result }
    {
        let mut list = MetadataList::unknown();
        for pane in 1..PANES_END {
            list.set(
                pane,
                shown_bells(may_ring, shown.get(pane), self.metadata(pane)),
            );
        }
        list
    }

    // Returns how many clips the program of a pane has sent; `None` if the pane isn't open.
    fn clips_at(&self, pane: u8) -> Option<ClipPane>
        ensures clips { 1 ≤ pane → result ≡ pane_clips (slice_get self.now.all.items (pane - 1)) }
    {
        let at = usize::from(pane);
        if at < 1 || self.all.len() < at {
            return None;
        }
        self.all[at - 1].clips()
    }

    /// The last text for the clipboard that the program of a pane said, in base64, or nothing.
    pub fn clip(&self, pane: u8) -> &[u8]
        ensures clip { 1 ≤ pane → result.now ≡ clip_of self.now.all.items pane }
    {
        let at = usize::from(pane);
        if at < 1 || self.all.len() < at {
            return &[];
        }
        self.all[at - 1].pane_input.clip()
    }

    /// How many texts for the clipboard the panes' programs have said.
    pub fn clip_counts(&self) -> ClipList
        ensures are { AreClips self.now.all.items result }
    {
        let mut list = ClipList::unknown();
        for pane in 1..PANES_END {
            list.set(pane, self.clips_at(pane));
        }
        list
    }

    /// Returns how many questions the program of a pane has asked; `None` if the pane isn't open.
    pub fn queries_at(&self, pane: u8) -> Option<QueryPane>
        ensures asks { 1 ≤ pane → result ≡ pane_asked (slice_get self.now.all.items (pane - 1)) }
    {
        let at = usize::from(pane);
        if at < 1 || self.all.len() < at {
            return None;
        }
        self.all[at - 1].asks()
    }

    /// The last questions that the program of a pane asked, in their order.
    pub fn queries(&self, pane: u8) -> &[Query]
        ensures last { 1 ≤ pane → result.now ≡ last_of self.now.all.items pane }
    {
        let at = usize::from(pane);
        if at < 1 || self.all.len() < at {
            return &[];
        }
        self.all[at - 1].pane_input.queries()
    }

    /// How many questions the panes' programs have asked.
    pub fn query_counts(&self) -> QueryList
        ensures are { AreQueries self.now.all.items result }
    {
        let mut list = QueryList::unknown();
        for pane in 1..PANES_END {
            list.set(pane, self.queries_at(pane));
        }
        list
    }

    /// Returns the first moment at which an update in a pane ends; `None` if none is kept back.
    pub fn frames_until(&self) -> Option<u64>
        ensures until { result ≡ frames_until self.now.all.items }
    {
        frames_until(&self.all)
    }

    /// Returns true if the rest of an update is to go on to the terminal of a pane.
    pub fn any_goes_on(&self) -> bool
        ensures any { result ≡ any_goes_on self.now.all.items }
    {
        any_goes_on(&self.all)
    }

    /// Returns true if an open pane has a peer.
    pub fn has_peer(&self, pane: u8) -> bool
        ensures peer { 1 ≤ pane → result ≡ has_peer (slice_get self.now.all.items (pane - 1)) }
    {
        let at = usize::from(pane);
        if at < 1 || self.all.len() < at {
            return false;
        }
        has_peer(&self.all[at - 1].making)
    }

    /// Returns how many of the bytes the program of a pane took, 0 if there is none.
    pub fn write(&mut self, registry: &Registry, pane: u8, bytes: &[u8]) -> usize
        ensures within { result ≤ length bytes.now }
        ensures asks { Changes (Asks (nat_lt 0 result)) pane self.old.all.items self.new.all.items }
        ensures inflow { 1 ≤ pane
            → pane_input_in (slice_get self.new.all.items (pane - 1)) ≡ pane_input_in (slice_get self.old.all.items (pane - 1)) }
    {
        let at = usize::from(pane);
        if at < 1 || self.all.len() < at {
            return 0;
        }
        self.all[at - 1].write(registry, bytes)
    }

    /// Removes the files of the sockets.
    pub fn remove(&self, files: &impl Files) {
        for pane in self.all.iter() {
            // A file that somebody removed before is no matter.
            let _ = remove_file(files, pane.path.as_str());
        }
    }
}
