//! What one store buffer delays.
ghost use Rattle.std.specs.List.{list_any};
ghost use Rattle.std.specs.Prelude.{◌≡◌, ◌==◌, ◌<◌, ◌++◌, ◌∷◌, [], IfOk, OnOk, length, option_map, remove, slice_get};

use crate::entries::{Delayed, Site};
use std::alloc::{AllocError, Global};
use std::marker::Model;

/// What one store buffer delays, oldest first.
#[derive(Drop)]
pub struct Delays {
    entries: Vec<Delayed>,
}

impl Model for Delays {
    ghost use Rattle.std.specs.Prelude.{List};
    ghost use Rattle.image_reasons.specs.declared.entries.Delayed.{Delayed};

    ghost Value = { List Delayed };

    ghost view = { λ d. d.entries.items };
}

impl Delays {
    /// Nothing is delayed. It takes no memory.
    pub fn new(alloc: Global) -> Delays
        ensures { result ≡ [] }
    {
        Delays {
            entries: Vec::new(alloc),
        }
    }

    /// The same once more.
    pub fn copy(&self, alloc: Global) -> Result<Delays, AllocError>
        ensures { IfOk result (λ copy. copy ≡ self.now) }
    {
        let mut entries = Vec::new(alloc);
        entries.extend_from_slice(&self.entries)?;
        Ok(Delays { entries })
    }

    /// The entry at a place.
    pub fn get(&self, place: usize) -> Option<Delayed>
        ensures { result ≡ slice_get self.now place }
    {
        self.entries.get(place).copied()
    }

    /// Where the instruction stands that the entry at a place is of.
    pub fn site(&self, place: usize) -> Option<Site>
        ensures { result ≡ option_map (λ d. d.operation.site) (slice_get self.now place) }
    {
        let delayed = self.entries.get(place)?;
        Some(delayed.operation.site)
    }

    /// The entries.
    pub fn entries(&self) -> &[Delayed]
        ensures { result.now ≡ self.now }
    {
        self.entries.as_slice()
    }

    /// One more entry.
    pub fn push(&mut self, delayed: Delayed) -> Result<(), AllocError>
        ensures { OnOk result (self.new ≡ self.old ++ delayed ∷ []) }
    {
        // The toolchain has no proof for a push of an entry outside its own crate.
        self.entries.extend_from_slice(&[delayed])?;
        Ok(())
    }

    /// The entry at a place leaves.
    pub fn remove(&mut self, place: usize)
        requires { place < length self.old }
        ensures { self.new ≡ remove self.old place }
    {
        self.entries.remove(place);
    }

    /// Whether the operation of a step is delayed.
    pub fn has(&self, n: usize) -> bool
        ensures { result ≡ list_any (λ d. d.operation.step == n) self.now }
    {
        self.entries.iter().any(|d| d.operation.step == n)
    }
}
