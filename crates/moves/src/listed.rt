//! All moves of a program.
ghost use Rattle.std.specs.Prelude.{◌≡◌, ◌++◌, ◌<◌, IfOk, OnOk, length};
ghost use Rattle.moves.specs.Moves.{moves_at, moves_before, moves_behind, moves_in, moves_of};

use crate::one_move::Move;
use crate::passing::{may_go_before, may_go_behind};
use image_reasons::{Side, Site};
use isa::{Access, Instr, Object, Program};
use std::alloc::{AllocError, Global};

/// Adds the moves of a store behind each later instruction of its stretch, the nearest first.
fn push_behind(
    moves: &mut Vec<Move>,
    code: &[Instr],
    from: Site,
    store: &Instr,
) -> Result<(), AllocError>
    requires { from.place < length code.now }
    ensures { OnOk result (moves.new.items ≡ moves.old.items ++ moves_behind code.now from store.now) }
{
    for to in from.place + 1..code.len() {
        if !may_go_behind(code, store, to) {
            return Ok(());
        }
        moves.push(Move {
            from,
            side: Side::Behind,
            to,
        })?;
    }
    Ok(())
}

/// Adds the moves of a store before each earlier one, the nearest first.
fn push_before(
    moves: &mut Vec<Move>,
    code: &[Instr],
    from: Site,
    store: &Instr,
) -> Result<(), AllocError>
    requires { from.place < length code.now }
    ensures { OnOk result (moves.new.items ≡ moves.old.items ++ moves_before code.now from store.now) }
{
    let mut left = from.place;
    while left > 0 && may_go_before(code, store, left - 1) {
        left -= 1;
        moves.push(Move {
            from,
            side: Side::Before,
            to: left,
        })?;
    }
    Ok(())
}

/// Adds the moves of the instruction at a site, if it is a store.
fn push_at(
    moves: &mut Vec<Move>,
    code: &[Instr],
    from: Site,
    instr: &Instr,
) -> Result<(), AllocError>
    requires { from.place < length code.now }
    ensures { OnOk result (moves.new.items ≡ moves.old.items ++ moves_at code.now from instr.now) }
{
    if let Instr::Memory(Access::Store(_), _) = instr {
        push_behind(moves, code, from, instr)?;
        push_before(moves, code, from, instr)?;
    }
    Ok(())
}

/// Adds the moves of a program.
fn push_moves(
    moves: &mut Vec<Move>,
    processor: u32,
    recovering: bool,
    program: &Program,
) -> Result<(), AllocError>
    ensures { OnOk result (moves.new.items ≡ moves.old.items ++ moves_in processor recovering program.now) }
{
    let code = program.instructions();
    for (place, instr) in code.iter().enumerate() {
        let from = Site {
            processor,
            recovering,
            place,
        };
        push_at(moves, code, from, instr)?;
    }
    Ok(())
}

/// All moves of one store within its straight stretch. Processor by processor, of the main program before the recovery program, by
/// place of the store: behind each later instruction, and then before each earlier one, the nearest first. The only error is out of
/// memory.
pub fn moves_of(alloc: Global, object: &Object) -> Result<Vec<Move>, AllocError>
    ensures { IfOk result (λ moves. moves.items ≡ moves_of object.now) }
{
    let mut moves = Vec::new(alloc);
    for (processor, programs) in object.processors().iter().enumerate() {
        let processor = processor as u32;
        push_moves(&mut moves, processor, false, &programs.main)?;
        push_moves(&mut moves, processor, true, &programs.recovery)?;
    }
    Ok(moves)
}
