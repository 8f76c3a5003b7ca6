//! What a verdict says of a program. Each function states some by its contract, and does nothing.
ghost use Rattle.std.specs.Prelude.{ℕ, List};
ghost use Rattle.isa.specs.Objects.{Object};
ghost use Rattle.machine.specs.declared.step.Step.{Step};
ghost use Rattle.machine.specs.Objects.{opening};
ghost use Rattle.explore.specs.declared.question.Question.{Question};
ghost use Rattle.explore.specs.declared.verdict.Asked.{Asked};
ghost use Rattle.explore.specs.Questions.{FailsBy};
ghost use Rattle.verdicts.specs.Verdicts.{IsBrokenBy, IsKeptBy, MakesFalse};

/// A run that a verdict tells makes a condition false.
pub fn failures_break()
    ensures { (asked : Asked) (question : Question) (object : Object) (run : List Step) (values : List ℕ)
        → FailsBy asked question (opening object) run values → MakesFalse asked question object run values }
{}

/// A program whose runs keep what is asked has none that breaks it.
pub fn what_is_kept_is_not_broken()
    ensures { (question : Question) (object : Object) → IsKeptBy question object → IsBrokenBy question object → ⊥ }
{}
