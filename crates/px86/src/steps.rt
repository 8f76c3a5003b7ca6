//! Steps, or a script, from where the words of the command line say.
ghost use Rattle.px86.specs.Starts.{steps_device};

use crate::kept::Keeps;
use commands::{Failed, Source};

/// What steps, or a script, are read from.
#[derive(Drop)]
pub enum Steps<F, S> {
    /// The standard input.
    Standard(S),
    /// A file.
    File(F),
    /// There are none: each read is at the end.
    Nothing,
}

impl<F: Source, S: Source> Source for Steps<F, S> {
    ghost device = { steps_device F.device S.device };

    fn read(&mut self, buffer: &mut [u8]) -> Result<usize, Failed> {
        match self {
            Steps::Standard(source) => source.read(buffer),
            Steps::File(source) => source.read(buffer),
            Steps::Nothing => Ok(0),
        }
    }
}

impl<F: Keeps, S: Keeps> Keeps for Steps<F, S> {
    fn kept(&self) -> Option<&[u8]> {
        match self {
            Steps::Standard(source) => source.kept(),
            Steps::File(source) => source.kept(),
            Steps::Nothing => Some(&[]),
        }
    }
}
