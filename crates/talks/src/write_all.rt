//! A text is written whole.
ghost use Rattle.commands.specs.Devices.{CanCountOneMore};
ghost use Rattle.talks.specs.Consoles.{WritesAll};

use commands::{Failed, Sink};

/// Writes all of a text, by as many writes as that takes.
///
/// It fails where a write fails or takes no byte. A beginning of the text was then written.
#[tactic(auto, using(crate::proofs::WriteAll::more_written))]
pub(crate) fn write_whole<W: Sink>(sink: &mut W, text: &[u8]) -> Result<(), Failed>
    requires { CanCountOneMore (W.device sink.old) }
    ensures { WritesAll (W.device sink.old) (W.device sink.new) text.now result }
{
    let mut written = 0;
    while written < text.len() {
        match sink.write(&text[written..]) {
            Ok(0) | Err(_) => return Err(Failed),
            Ok(count) => written += count,
        }
    }
    Ok(())
}
