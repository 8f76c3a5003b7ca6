//! What is told of moves is so. Each law is the contract of a function that does nothing.
ghost use Rattle.std.specs.Prelude.{◌≡◌, ℕ, ◌<◌, Some, slice_get};
ghost use Rattle.std.specs.Option.{option_and_then};
ghost use Rattle.isa.specs.Objects.{Object};
ghost use Rattle.machine.specs.Objects.{opening};
ghost use Rattle.explore.specs.declared.question.Question.{Question};
ghost use Rattle.explore.specs.Questions.{AreFindings};
ghost use Rattle.candidates.specs.Sets.{with_all};
ghost use Rattle.moves.specs.declared.one_move.Move.{Move};
ghost use Rattle.moves.specs.declared.outcome.FirstMove.{FirstMove};
ghost use Rattle.moves.specs.Moves.{moved, moves_of};
ghost use Rattle.moves.specs.Tried.{IsFirstMove, IsVain};

/// Of a move that is told: it is one of the list, and each before it there was tried in vain.
pub fn each_move_before_was_tried()
    ensures { (question : Question) (limit : ℕ) (object : Object) (first : FirstMove) → IsFirstMove question limit object first
        → (at : ℕ) × (slice_get (moves_of object) at ≡ Some first.made)
        × ((before : ℕ) (other : Move) → before < at → slice_get (moves_of object) before ≡ Some other → IsVain question limit object other) }
{}

/// With a move that is told, and with what is put in then, what is asked holds of all runs: this is found of them.
pub fn what_is_told_holds()
    ensures { (question : Question) (limit : ℕ) (object : Object) (first : FirstMove) → IsFirstMove question limit object first
        → (changed : Object) × (option_and_then (with_all first.put.set.items) (moved object first.made) ≡ Some changed)
        × AreFindings question (opening changed) limit first.put.found }
{}
