//! A reader and a writer as one terminal.
ghost use Rattle.std.specs.Prelude.{List};
ghost use Rattle.talks.specs.Events.{Event};
ghost use Rattle.commands.specs.Devices.{CanCountOneMore};
ghost use Rattle.talks.specs.Consoles.{WentOn, nothing_went, both_went};

use crate::terminal::Terminal;
use crate::write_all::write_whole;
use commands::{Failed, Sink, Source};

/// A reader and a writer, which make a terminal. The writer has no buffer, or is flushed by each write.
#[derive(Drop)]
pub struct Console<S, W> {
    /// What is read.
    pub source: S,
    /// What is written to.
    pub sink: W,
}

impl<S: Source, W: Sink> Terminal for Console<S, W> {
    ghost went = { λ a b talk. WentOn (S.device a.source) (S.device b.source) (W.device a.sink) (W.device b.sink) talk };

    ghost is_ready = { λ c. CanCountOneMore (S.device c.source) × CanCountOneMore (W.device c.sink) };

    fn hear(&mut self) -> Result<Option<u8>, Failed> {
        let mut byte = [0];
        match self.source.read(&mut byte) {
            Ok(0) => Ok(None),
            Ok(_) => Ok(Some(byte[0])),
            Err(Failed) => Err(Failed),
        }
    }

    fn tell(&mut self, text: &[u8]) -> Result<(), Failed> {
        write_whole(&mut self.sink, text)
    }

    ghost nothing = { λ c. nothing_went (S.device c.source) (W.device c.sink) };

    ghost both = { λ a b c x y. both_went (S.device a.source) (S.device b.source) (S.device c.source) (W.device a.sink) (W.device b.sink) (W.device c.sink) x y };
}
