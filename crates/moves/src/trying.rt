//! The moves are tried.
ghost use Rattle.std.specs.Prelude.{◌≡◌, [], IfOk};
ghost use Rattle.moves.specs.Tried.{AreTried, IsTried};

use crate::listed::moves_of;
use crate::one_move::{Move, moved};
use crate::outcome::{FirstMove, MovesTried};
use explore::{Findings, Question};
use isa::Object;
use mends::{Mended, Put, mend};
use std::alloc::{AllocError, Global};
use std::thread::Threads;
use workers::Gate;

/// What is put in where nothing is needed.
fn nothing_put(alloc: Global, found: Findings) -> Put
    ensures set { result.set.items ≡ [] }
    ensures found { result.found ≡ found }
    ensures none_open { result.«open».items ≡ [] }
{
    Put {
        set: Vec::new(alloc),
        found,
        open: Vec::new(alloc),
    }
}

/// What is put into the program with a move, if a mend of it holds. The only error is out of memory.
fn try_move<R: Threads + Sync, G: Gate + Sync>(
    rt: &R,
    alloc: Global,
    object: &Object,
    question: &Question,
    limit: u64,
    workers: u64,
    one: Move,
    gate: &G,
) -> Result<Option<Put>, AllocError>
    ensures { IfOk result (IsTried question.now limit object.now one) }
{
    let Some(changed) = moved(alloc, object, one)? else {
        return Ok(None);
    };
    match mend(rt, alloc, &changed, question, limit, workers, gate)? {
        Ok(Mended::Put(put)) => Ok(Some(put)),
        Ok(Mended::NoneNeeded(found)) => Ok(Some(nothing_put(alloc, found))),
        Ok(Mended::None | Mended::NotKnown(_)) | Err(_) => Ok(None),
    }
}

/// The first move of one store with which a mend holds, and what that puts in; or that none does. Of each moved program the mend is
/// looked for as [`mend`] does: so many states of each are told apart at most, so many workers try sets at once, and the gate is told of
/// each exploration, and of each state.
///
/// # Errors
///
/// Out of memory.
pub fn first_move<R: Threads + Sync, G: Gate + Sync>(
    rt: &R,
    alloc: Global,
    object: &Object,
    question: &Question,
    limit: u64,
    workers: u64,
    gate: &G,
) -> Result<MovesTried, AllocError>
    ensures { IfOk result (AreTried question.now limit object.now) }
{
    let moves = moves_of(alloc, object)?;
    for one in &moves {
        if let Some(put) = try_move(rt, alloc, object, question, limit, workers, *one, gate)? {
            return Ok(MovesTried::Helps(FirstMove { made: *one, put }));
        }
    }
    Ok(MovesTried::NoneHelps(moves.len()))
}
