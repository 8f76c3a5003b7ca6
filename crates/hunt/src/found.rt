//! What is found: the number of a schedule that breaks a condition, with its loss where crashes are asked.
ghost use Rattle.std.specs.Prelude.{◌≡◌};
ghost use Rattle.hunt.specs.Founds.{lesser};

use crate::loss::Loss;

/// A schedule that breaks a condition.
#[derive(Debug, Drop)]
pub struct Found {
    /// Its number.
    pub number: u64,
    /// Where crashes are asked, its least turn after which the condition is broken, and what breaks it there.
    pub loss: Option<Loss>,
}

/// What was found of the smaller number, or else what there is.
pub(crate) fn lesser(found: Option<Found>, other: Option<Found>) -> Option<Found>
    ensures { result ≡ lesser found other }
{
    match (found, other) {
        (Some(found), Some(other)) => {
            if other.number < found.number {
                Some(other)
            } else {
                Some(found)
            }
        }
        (Some(found), None) => Some(found),
        (None, other) => other,
    }
}
