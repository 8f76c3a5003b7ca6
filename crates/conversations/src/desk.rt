//! What a conversation keeps beside its session.
ghost use Rattle.std.specs.Prelude.{◌≡◌, [], IfNone, IfSome, drop, slice_get};
ghost use Rattle.debug_scripts.specs.Ahead.{all_ahead, steps_ahead};

use crate::declaration::Declaration;
use crate::waiting::Waiting;
use machine::Step;
use std::alloc::Global;

/// What a conversation keeps beside its session.
#[derive(Drop)]
pub(crate) struct Desk {
    /// Where memory comes from.
    pub(crate) alloc: Global,
    /// The steps that are still to be made.
    pub(crate) ahead: Waiting,
    /// What declared the stops, watches and breaks that there are.
    pub(crate) declared: Vec<Declaration>,
}

impl Desk {
    /// Nothing yet.
    pub(crate) fn new(alloc: Global) -> Desk
        ensures ahead { result.ahead ≡ steps_ahead [] [] }
        ensures declared { result.declared.items ≡ [] }
    {
        Desk {
            alloc,
            ahead: Waiting::new(alloc),
            declared: Vec::new(alloc),
        }
    }
}

/// The first of the steps ahead.
fn first_ahead(ahead: &Waiting) -> Option<Step>
    ensures { result ≡ slice_get (all_ahead ahead.now) 0 }
{
    ahead.all().first().copied()
}

/// Takes the first of the steps ahead, if there is one: it is ahead no longer.
pub(crate) fn take_first(ahead: &mut Waiting) -> Option<Step>
    ensures first { result ≡ slice_get (all_ahead ahead.old) 0 }
    ensures taken { IfSome result (λ _. ahead.new ≡ steps_ahead (drop 1 (all_ahead ahead.old)) []) }
    ensures same { IfNone result (ahead.new ≡ ahead.old) }
{
    let step = first_ahead(ahead)?;
    ahead.pass(1);
    Some(step)
}
