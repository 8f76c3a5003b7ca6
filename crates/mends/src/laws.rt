//! What is put in is the least. Each law is the contract of a function that does nothing.
ghost use Rattle.std.specs.Prelude.{◌≡◌, ℕ, ◌<◌, Bool, List, [], Ok};
ghost use Rattle.isa.specs.Objects.{Object};
ghost use Rattle.explore.specs.declared.question.Question.{Question};
ghost use Rattle.explore.specs.Findings.{Findings};
ghost use Rattle.image_reasons.specs.declared.repair.Repair.{Repair};
ghost use Rattle.added_fences.specs.Sets.{IsWithin};
ghost use Rattle.candidates.specs.Candidates.{candidates_of};
ghost use Rattle.candidates.specs.Sets.{cost};
ghost use Rattle.mends.specs.declared.outcome.Mended.TheVariants.{None};
ghost use Rattle.mends.specs.Mends.{IsChoice, IsFirst, IsMended, IsRuledOutSet, chosen};

/// Each set of candidates, in their order, is what some choice puts in.
pub fn each_set_is_chosen()
    ensures { (object : Object) (set : List Repair) → IsWithin (candidates_of object) set
        → (choice : List Bool) × IsChoice object choice × (chosen object choice ≡ set) }
{}

/// Of a set that is put in, where none before it is open: each set of any size that costs less is ruled out.
pub fn what_is_put_in_is_least()
    ensures { (question : Question) (limit : ℕ) (object : Object) (set other : List Repair) (found : Findings)
        → IsFirst question limit object set found []
        → IsWithin (candidates_of object) other → cost other < cost set → IsRuledOutSet question object other }
{}

/// Where none is found and none is open, each set of any size is ruled out.
pub fn none_is_none()
    ensures { (question : Question) (limit : ℕ) (object : Object) (set : List Repair)
        → IsMended question limit object (Ok None)
        → IsWithin (candidates_of object) set → IsRuledOutSet question object set }
{}
