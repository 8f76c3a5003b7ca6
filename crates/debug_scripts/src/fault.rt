//! Why there is no report of a script.
ghost use Rattle.std.specs.Prelude.{◌≡◌};
ghost use Rattle.debug_scripts.specs.declared.fault.PlayFault.TheVariants.{Report};
ghost use Rattle.debug_scripts.specs.declared.fault.ScriptError.TheVariants.{NoMemory};

use commands::ScriptFault;
use std::alloc::{AllocError, AllocFailed};

/// What memory was refused to.
#[derive(Clone, Copy, Debug, PartialEq, Eq)]
pub enum PlayFault {
    /// The session.
    Session,
    /// The text of the report.
    Report,
}

impl From<AllocError> for PlayFault {
    ghost from_gives = { λ _ fault. fault ≡ Report };

    fn from(_error: AllocError) -> PlayFault {
        PlayFault::Report
    }
}

/// Why a text is not read as a script.
#[derive(Clone, Copy, Debug, PartialEq, Eq)]
pub(crate) enum ScriptError {
    /// It is none.
    Fault(ScriptFault),
    /// Memory was refused to the condition of a stop.
    ConditionMemory,
    /// Memory was refused to the script.
    NoMemory,
}

impl<T: Drop> From<AllocFailed<T>> for ScriptError {
    ghost from_gives = { λ _ error. error ≡ NoMemory };

    fn from(_failed: AllocFailed<T>) -> ScriptError {
        ScriptError::NoMemory
    }
}
