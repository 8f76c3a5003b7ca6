//! Why a hunt gives no answer.
ghost use Rattle.std.specs.Prelude.{Some, codes};

use outcomes::{OrNoMemory, Refusing};
use std::error::Error;
use std::fmt;

/// A thread could not be started: K3 in reports.
#[derive(Clone, Copy, Debug, PartialEq, Eq)]
pub struct NoThread;

impl fmt::Display for NoThread {
    ghost output = { λ _. Some (codes "K3 NoThread") };

    fn fmt<W: fmt::Write>(&self, f: &mut fmt::Formatter<W>) -> fmt::Result {
        write!(f, "K3 NoThread")
    }
}

impl Error for NoThread {}

impl Refusing for NoThread {}

/// Why a hunt gives no answer.
pub type HuntFault = OrNoMemory<NoThread>;
