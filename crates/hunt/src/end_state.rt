//! Whether a state is an end.
ghost use Rattle.std.specs.Prelude.{◌≡◌};
ghost use Rattle.hunt.specs.Ends.{is_end};

use explore::have_ended;
use machine::View;

/// Whether a state is an end, after a crash or before the first one: its processors have nothing left to do, and nothing is
/// pending.
pub(crate) fn is_end(view: &View<'_>, recovered: bool) -> bool
    ensures { result ≡ is_end recovered view.now }
{
    have_ended(view, recovered) && view.pending().len() == 0
}
