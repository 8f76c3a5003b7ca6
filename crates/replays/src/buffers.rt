//! Entries of store buffers, here and in the run that is followed.
use std::alloc::{AllocError, Global};

/// Entries of a processor's store buffer, oldest first.
#[derive(Drop)]
pub(crate) struct Buffered {
    /// Of each entry here, whether an instruction made it that was put in.
    here: Vec<bool>,
    /// Of each entry that the followed run has there, whether it has left here.
    there: Vec<bool>,
}

/// The place of the flag that is false and has so many before it that are, if there is one.
fn place_of(flags: &[bool], before: usize) -> Option<usize> {
    let mut left = before;
    for (place, flag) in flags.iter().enumerate() {
        if !*flag {
            if left == 0 {
                return Some(place);
            }
            left -= 1;
        }
    }
    None
}

/// How many flags are false before a place.
fn count_before(flags: &[bool], place: usize) -> usize {
    let mut count: usize = 0;
    for (at, flag) in flags.iter().enumerate() {
        if at < place && !*flag {
            count = count.saturating_add(1);
        }
    }
    count
}

impl Buffered {
    /// Of an empty store buffer.
    pub(crate) fn new(alloc: Global) -> Buffered {
        Buffered {
            here: Vec::new(alloc),
            there: Vec::new(alloc),
        }
    }

    /// How many entries are here.
    pub(crate) fn count(&self) -> usize {
        self.here.len()
    }

    /// An instruction made an entry. The only error is out of memory.
    pub(crate) fn push(&mut self, put_in: bool) -> Result<(), AllocError> {
        self.here.push(put_in)?;
        if !put_in {
            self.there.push(false)?;
        }
        Ok(())
    }

    /// The entry at a place here has left.
    pub(crate) fn leave(&mut self, place: usize) {
        if place >= self.here.len() {
            return;
        }
        let before = count_before(&self.here, place);
        if self.here.remove(place) {
            return;
        }
        let Some(there) = place_of(&self.there, before) else {
            return;
        };
        if there < self.there.len() {
            self.there[there] = true;
        }
    }

    /// The place here of the entry at a place of the followed run; None where it has left, or there is no such entry.
    pub(crate) fn place(&self, there: usize) -> Option<usize> {
        if there >= self.there.len() || self.there[there] {
            return None;
        }
        place_of(&self.here, count_before(&self.there, there))
    }

    /// The entry at a place of the followed run has left there.
    pub(crate) fn leave_there(&mut self, there: usize) {
        if there < self.there.len() {
            self.there.remove(there);
        }
    }
}
