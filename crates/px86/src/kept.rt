//! What was read, kept so that a fault can be explained.
ghost use Rattle.std.specs.Prelude.{◌≡◌};

use commands::{Failed, Source};
use std::alloc::Global;
use std::marker::Model;

/// A reader that may keep a copy of what was read.
pub trait Keeps {
    /// What was read, where it is kept. It is not where nobody asked for it, or where memory ran out.
    fn kept(&self) -> Option<&[u8]>;
}

/// A source that keeps a copy of what was read, where that is asked for. It is read as the source is: where there is no
/// memory for the copy, there is none.
#[derive(Drop)]
pub struct Kept<S> {
    source: S,
    bytes: Option<Vec<u8>>,
}

impl<S> Model for Kept<S> {
    ghost Value = { S };

    ghost view = { λ kept. kept.source };
}

impl<S> Kept<S> {
    /// A source of which nothing was read.
    pub fn new(alloc: Global, source: S, is_asked: bool) -> Kept<S>
        ensures { result ≡ source }
    {
        let bytes = if is_asked {
            Some(Vec::new(alloc))
        } else {
            None
        };
        Kept { source, bytes }
    }

    /// Keeps a piece too, where there is memory for it.
    fn keep(&mut self, piece: &[u8])
        ensures { self.new ≡ self.old }
    {
        let Some(bytes) = &mut self.bytes else {
            return;
        };
        if bytes.extend_from_slice(piece).is_err() {
            self.bytes = None;
        }
    }
}

impl<S> Keeps for Kept<S> {
    fn kept(&self) -> Option<&[u8]> {
        match &self.bytes {
            Some(bytes) => Some(bytes),
            None => None,
        }
    }
}

impl<S: Source> Source for Kept<S> {
    ghost device = { λ kept. S.device kept };

    fn read(&mut self, buffer: &mut [u8]) -> Result<usize, Failed> {
        let count = self.source.read(buffer)?;
        self.keep(&buffer[..count]);
        Ok(count)
    }
}
