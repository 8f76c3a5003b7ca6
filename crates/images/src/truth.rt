//! Whether a condition holds in a machine's state.
ghost use Rattle.std.specs.Prelude.{◌≡◌};
ghost use Rattle.images.specs.Truth.{holds_in, value_in};

use conditions::{Cond, Operand, Values};
use machine::View;

/// The values of operands in a machine's state.
#[derive(Clone, Copy)]
struct StateValues<'v, 'm> {
    view: &'v View<'m>,
}

impl<'v, 'm> Values for StateValues<'v, 'm> {
    ghost use Rattle.images.specs.Truth.{value_in};

    ghost values = { λ s. value_in s.view.now };

    fn value(&self, operand: Operand) -> Option<u64> {
        state_value(self.view, operand)
    }
}

/// The value of an operand in a machine's state, if its word or its processor is there.
pub(crate) fn state_value(view: &View, operand: Operand) -> Option<u64>
    ensures { result ≡ value_in view.now operand }
{
    match operand {
        Operand::Persisted(word) => view.persisted(word),
        Operand::Coherent(word) => view.coherent(word),
        Operand::Register(p, r) => view.reg(p as usize, r),
    }
}

/// Whether the condition holds in the state. A test of a word or a processor that is not there does not.
pub fn holds(cond: &Cond, view: &View) -> bool
    ensures { result ≡ holds_in view.now cond.now }
{
    cond.holds(&StateValues { view })
}
