//! What is found of what may be put into a program.
ghost use Rattle.std.specs.Prelude.{◌≡◌};
ghost use Rattle.mend_jobs.specs.MendsFound.{mend_status, mended_status};

use crate::asked_program::AskedProgram;
use commands::Status;
use jobs::found_status;
use mends::Mended;
use moves::FirstMove;

/// What is found of what may be put into a program.
#[derive(Drop)]
pub enum MendFound {
    /// This comes of all sets of flushes and fences, of the program as it is.
    AsItIs(Mended),
    /// No set of any size holds, and this is the first move with which one does, or none is needed.
    Moved(FirstMove),
    /// No set of any size holds, and with none of so many moves one is found.
    NoneMoved(usize),
}

/// Status 1 where nothing is found with which what is asked holds, or a condition is asked of no state.
fn mended_status(asked: &AskedProgram, mended: &Mended) -> Status
    ensures { result ≡ mended_status asked.now mended.now }
{
    match mended {
        Mended::NoneNeeded(found) => found_status(&asked.question, found),
        Mended::Put(put) => found_status(&asked.question, &put.found),
        Mended::None | Mended::NotKnown(_) => Status::Unmet,
    }
}

/// The same where moves may have been tried.
pub(crate) fn mend_status(asked: &AskedProgram, found: &MendFound) -> Status
    ensures { result ≡ mend_status asked.now found.now }
{
    match found {
        MendFound::AsItIs(mended) => mended_status(asked, mended),
        MendFound::Moved(first) => found_status(&asked.question, &first.put.found),
        MendFound::NoneMoved(_) => Status::Unmet,
    }
}
