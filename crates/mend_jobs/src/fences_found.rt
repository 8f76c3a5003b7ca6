//! What is found of the flushes and fences of a program.
ghost use Rattle.std.specs.Prelude.{◌≡◌};
ghost use Rattle.mend_jobs.specs.FencesFound.{fences_status};

use crate::asked_program::AskedProgram;
use commands::Status;
use explore::{Failure, Findings};
use fence_needs::SiteNeed;
use jobs::found_status;

/// What each flush and fence of a program is needed for.
#[derive(Drop)]
pub struct NeedsTold {
    /// What each of them is needed for.
    pub needs: Vec<SiteNeed>,
    /// Whether it is told that no larger number of them can go than are left out.
    pub least: bool,
}

/// What is found of the flushes and fences of a program.
#[derive(Drop)]
pub enum FencesFound {
    /// This run of the program as it is makes a condition false.
    Broken(Failure),
    /// What is asked holds of the program as it is, and this is what each of its flushes and fences is needed for.
    Each(Findings, NeedsTold),
    /// The same of the one that is asked about, alone.
    One(Findings, SiteNeed),
}

/// Status 1 where a condition fails or is asked of no state.
pub(crate) fn fences_status(asked: &AskedProgram, found: &FencesFound) -> Status
    ensures { result ≡ fences_status asked.now found.now }
{
    match found {
        FencesFound::Broken(_) => Status::Unmet,
        FencesFound::Each(found, _) | FencesFound::One(found, _) => {
            found_status(&asked.question, found)
        }
    }
}
