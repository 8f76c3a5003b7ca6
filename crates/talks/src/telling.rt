//! A text is told.
ghost use Rattle.std.specs.Prelude.{OnOk};
ghost use Rattle.talks.specs.Events.{Says};

use crate::fault::TalkFault;
use crate::terminal::Terminal;
use commands::Failed;

/// Writes a text to a terminal.
///
/// # Errors
///
/// [`TalkFault::WriteFailed`], after which a beginning of the text was written.
pub fn say<T: Terminal>(terminal: &mut T, text: &[u8]) -> Result<(), TalkFault>
    requires { T.is_ready terminal.old }
    ensures went { Says (T.went terminal.old terminal.new) text.now result }
    ensures ready { OnOk result (T.is_ready terminal.new) }
{
    match terminal.tell(text) {
        Ok(()) => Ok(()),
        Err(Failed) => Err(TalkFault::WriteFailed),
    }
}
