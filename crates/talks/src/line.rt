//! A line is heard.
ghost use Rattle.std.specs.Prelude.{◌≡◌, OnOk};
ghost use Rattle.talks.specs.Conversations.{is_nothing};
ghost use Rattle.talks.specs.Hearing.{Hears};

use crate::fault::TalkFault;
use crate::terminal::Terminal;
use commands::Failed;
use std::alloc::Global;

/// A line that was heard.
#[derive(Drop)]
pub struct Line {
    /// Its bytes, without the line feed.
    pub bytes: Vec<u8>,
    /// Whether a line feed ended it; otherwise the end did.
    pub is_fed: bool,
}

/// Hears a line, up to its line feed or to the end. At most `left` bytes may still be heard, of which it takes those of the line.
/// It reads byte by byte: what is behind the line is left to others.
///
/// # Errors
///
/// [`TalkFault::ReadFailed`]; [`TalkFault::TooLong`], where so many bytes were heard and no line feed;
/// [`TalkFault::NoMemory`], where there is none for the line.
pub fn hear_line<T: Terminal>(
    alloc: Global,
    terminal: &mut T,
    left: &mut usize,
) -> Result<Line, TalkFault>
    requires { T.is_ready terminal.old }
    ensures went { Hears (T.went terminal.old terminal.new) left.old left.new result }
    ensures ready { OnOk result (T.is_ready terminal.new) }
{
    let mut bytes = Vec::new(alloc);
    while *left > 0 {
        match terminal.hear() {
            Ok(Some(b'\n')) => {
                *left -= 1;
                return Ok(Line {
                    bytes,
                    is_fed: true,
                });
            }
            Ok(Some(byte)) => {
                *left -= 1;
                if bytes.push(byte).is_err() {
                    return Err(TalkFault::NoMemory);
                }
            }
            Ok(None) => return Ok(Line {
                bytes,
                is_fed: false,
            }),
            Err(Failed) => return Err(TalkFault::ReadFailed),
        }
    }
    Err(TalkFault::TooLong)
}

/// Whether nothing was heard before the end: there is no line more.
pub fn is_nothing(line: &Line) -> bool
    ensures { result ≡ is_nothing line.now.is_fed line.now.bytes.items }
{
    !line.is_fed && line.bytes.is_empty()
}
