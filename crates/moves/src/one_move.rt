//! One move.
ghost use Rattle.std.specs.Prelude.{◌≡◌, IfOk};
ghost use Rattle.moves.specs.Moves.{moved, put_by};

use fence_needs::{instr_at, without};
use image_reasons::{Repair, Side, Site, repaired};
use isa::Object;
use std::alloc::{AllocError, Global};

/// A store is put on a side of another instruction of its program.
#[derive(Clone, Copy, PartialEq, Eq)]
pub struct Move {
    /// Where the store stands.
    pub from: Site,
    /// On which side of the other instruction it is put.
    pub side: Side,
    /// The place of the other instruction.
    pub to: usize,
}

/// The store, on its side of the instruction to which it is moved.
fn put_by(object: &Object, one: Move) -> Repair
    ensures { result ≡ put_by object.now one }
{
    Repair {
        side: one.side,
        site: Site {
            place: one.to,
            ..one.from
        },
        instr: instr_at(object, one.from),
    }
}

/// The object with the store there, and a nop where it stood: so the places of others stay until the store is put in. None where that
/// cannot be loaded. The only error is out of memory.
pub fn moved(alloc: Global, object: &Object, one: Move) -> Result<Option<Object>, AllocError>
    ensures { IfOk result (λ changed. changed ≡ moved object.now one) }
{
    let left = without(alloc, object, one.from)?;
    repaired(alloc, &left, put_by(object, one))
}
