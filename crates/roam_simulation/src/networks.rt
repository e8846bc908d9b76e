//! The network: all datagrams ever sent.
ghost use Rattle.std.specs.Prelude.{◌≡◌, ◌+◌, ◌++◌, ◌<◌, ◌^◌, [], length, slice_get, OnOk, IsOkUnless};
ghost use Rattle.std.specs.Option.{option_copied};
ghost use Rattle.roam_simulation.specs.Networks.{texts_in, text_at};

use roam_acts::limits::NUMBER_LIMIT;
use roam_cells::Fault;
use roam_hub::Addr;
use std::alloc::Global;
use std::marker::Model;

/// The datagrams of one tick, in their order.
#[derive(Drop)]
pub enum Batch {
    FromServer(Vec<(Addr, Vec<u8>)>),
    FromClient(Vec<Vec<u8>>),
}

impl Batch {
    // How many there are.
    fn len(&self) -> usize
        ensures len { result ≡ length (texts_in self.now) }
    {
        match self {
            Batch::FromServer(parcels) => parcels.len(),
            Batch::FromClient(datagrams) => datagrams.len(),
        }
    }

    // The bytes of the one at a place, from 0.
    fn text(&self, place: usize) -> Option<&[u8]>
        ensures text { option_copied result ≡ slice_get (texts_in self.now) place }
    {
        match self {
            Batch::FromServer(parcels) => Some(parcels.get(place)?.1.as_slice()),
            Batch::FromClient(datagrams) => Some(datagrams.get(place)?.as_slice()),
        }
    }
}

/// All datagrams ever sent, numbered from 1. They are kept a tick at a time, so that a tick needs no memory once there is room for it.
#[derive(Drop)]
pub struct Network {
    batches: Vec<Batch>,
    count: u64,
}

impl Model for Network {
    ghost use Rattle.std.specs.Prelude.{◌≡◌, ◌-◌, length, vec_len, vec_capacity};
    ghost use Rattle.std.specs.List.{flat_map};
    ghost use Rattle.roam_simulation.specs.Networks.{NetworkView, texts_in};

    ghost Value = { NetworkView };

    ghost view = { λ n. record {
      texts = flat_map texts_in n.batches.items;
      room = vec_capacity n.batches - vec_len n.batches;
    } };

    ghost invariant = { λ n. n.count ≡ length (flat_map texts_in n.batches.items) };
}

impl Network {
    /// Returns a network before anything was sent. It takes no memory.
    pub fn new(alloc: Global) -> Network
        ensures texts { result.texts ≡ [] }
    {
        Network {
            batches: Vec::new(alloc),
            count: 0,
        }
    }

    /// Makes room for the datagrams of one tick. Refuses want of memory.
    pub fn make_room(&mut self) -> Result<(), Fault>
        ensures texts { self.new.texts ≡ self.old.texts }
        ensures room { OnOk result (0 < self.new.room) }
        ensures few { OnOk result (length self.new.texts < 2 ^ 62) }
        ensures fault { IsOkUnless result Fault.OutOfMemory }
    {
        // More datagrams than any memory has room for: with as many, no number would be left for one more.
        if self.count >= NUMBER_LIMIT {
            return Err(Fault::OutOfMemory);
        }
        self.batches.reserve(1)?;
        Ok(())
    }

    /// Adds the datagrams of one tick, for which there is room. Returns the number of the first, or of the next one if there are none, and
    /// how many there are. It takes no memory.
    pub fn add(&mut self, batch: Batch) -> (u64, u64)
        requires room { 0 < self.old.room }
        requires few { length self.old.texts < 2 ^ 62 }
        ensures texts { self.new.texts ≡ self.old.texts ++ texts_in batch }
        ensures first { result.0 ≡ length self.old.texts + 1 }
        ensures count { result.1 ≡ length (texts_in batch) }
    {
        let first = self.count + 1;
        let count = batch.len() as u64;
        self.batches.push(batch).unwrap();
        self.count += count;
        (first, count)
    }

    /// The bytes of the datagram of a number, from 1. It takes no memory.
    pub fn text(&self, number: u64) -> Option<&[u8]>
        ensures text { option_copied result ≡ text_at self.now.texts number }
    {
        if number > self.count {
            return None;
        }
        let mut sent = self.count;
        let mut at = self.batches.len();
        while at > 0 {
            at -= 1;
            let batch = &self.batches[at];
            let before = sent - batch.len() as u64;
            if number > before {
                return batch.text((number - before - 1) as usize);
            }
            sent = before;
        }
        None
    }
}
