//! The stores by which it is found why a write may be missing.
ghost use Rattle.std.specs.List.{cons_option};
ghost use Rattle.std.specs.Prelude.{◌≡◌, ◌++◌, [], IfOk, OnOk, filter_map, slice_get};
ghost use Rattle.image_reasons.specs.Reasons.{stores_of};

use crate::entries::Pended;
use crate::origins::{Origins, push_entry};
use std::alloc::{AllocError, Global};
use std::marker::Model;

/// Stores that have left their store buffers since the last crash: those that have persisted, and then what is pending.
#[derive(Drop)]
pub struct Stores {
    /// All of them.
    pub(crate) left: Vec<Pended>,
    /// Those that the image has.
    pub(crate) kept: Vec<Pended>,
}

impl Model for Stores {
    ghost use Rattle.image_reasons.specs.Reasons.{Stores};

    ghost Value = { Stores };

    ghost view = { λ s. record { left = s.left.items; kept = s.kept.items } };
}

/// Puts the pending entry at a place behind others, if there is one.
fn push_place(pended: &[Pended], place: usize, kept: &mut Vec<Pended>) -> Result<(), AllocError>
    ensures { OnOk result (kept.new.items ≡ kept.old.items ++ cons_option (slice_get pended.now place) []) }
{
    match pended.get(place) {
        Some(p) => push_entry(kept, p),
        None => Ok(()),
    }
}

/// Puts those at these places behind others.
fn push_places(
    pended: &[Pended],
    places: &[usize],
    kept: &mut Vec<Pended>,
) -> Result<(), AllocError>
    ensures { OnOk result (kept.new.items ≡ kept.old.items ++ filter_map (slice_get pended.now) places.now) }
{
    for place in places {
        push_place(pended, *place, kept)?;
    }
    Ok(())
}

impl Origins {
    /// Those of a closed set with these places.
    pub(crate) fn stores_of(&self, alloc: Global, places: &[usize]) -> Result<Stores, AllocError>
        ensures { IfOk result (λ s. s ≡ stores_of self.now places.now) }
    {
        let mut left = Vec::new(alloc);
        left.extend_from_slice(&self.persisted)?;
        left.extend_from_slice(&self.pended)?;
        let mut kept = Vec::new(alloc);
        kept.extend_from_slice(&self.persisted)?;
        push_places(&self.pended, places, &mut kept)?;
        Ok(Stores { left, kept })
    }
}
