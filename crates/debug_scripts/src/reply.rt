//! What a session answers to a command, and the forms in which that is put on a page.
ghost use Rattle.std.specs.Prelude.{◌≡◌, ◌∷◌, ◌++◌, [], List, OnOk, length, map};
ghost use Rattle.lines_layout.specs.Layouts.{NamedLines};
ghost use Rattle.debug_scripts.specs.Replies.{Told, told_by};

use crate::orders::ValuesOrder;
use debugger::{Halt, Note, Past, SessionFault};
use std::alloc::{AllocError, Global};

/// What is told of a command of a script, or of a watcher at its end.
#[derive(Clone, Copy)]
pub enum Reply<'a> {
    /// Of a step that is gathered: it is kept.
    Kept,
    /// Of a go: where it halted, and how many steps were made.
    Went(Halt, usize),
    /// The same of a continue.
    WentOn(Halt, usize),
    /// Of a going back by so many steps: how it went.
    WentBack(u32, Result<(), SessionFault>),
    /// The state is asked for.
    Shown,
    /// Its images are asked for.
    Listed,
    /// The values of a word are asked for.
    Valued(&'a ValuesOrder),
    /// Of taking out the stop of this id: whether there was one.
    Disarmed(u32, bool),
    /// The same of a watch.
    Detached(u32, bool),
    /// The notes of the watch of this id.
    Noted(u32, &'a [Note]),
}

/// A form of the reports of scripts: how a reply is put on a page, behind the others. The report is made of the page.
pub trait Form<P> {
    /// The names of the words of the machine.
    ghost names: { Self → NamedLines };

    /// A page tells this in the form, and nothing else.
    ghost Tells: { Self → P → List Told → Type 0 };

    /// Puts a reply on a page, behind the others. The session has been through this.
    ///
    /// # Errors
    ///
    /// Out of memory. What the page tells is not known then.
    fn put(
        &self,
        alloc: Global,
        page: &mut P,
        reply: &Reply<'_>,
        past: &Past,
    ) -> Result<(), AllocError>
        requires { past.now.state.shape ≡ map length (names self.now) }
        ensures { OnOk result ((told : List Told) → Tells self.now page.old told → Tells self.now page.new (told ++ told_by past.now reply.now ∷ [])) };
}
