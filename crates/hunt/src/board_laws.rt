//! Laws of boards. Each function states some by its contract, and does nothing.
ghost use Rattle.std.specs.Prelude.{◌≡◌, ◌≢◌, ◌<◌, ◌≤◌, ℕ};
ghost use mathlib.Core.Option.{some};
ghost use lib.ListN.{get_elem?};
ghost use Rattle.atomic_table.specs.Table.{State};
ghost use Rattle.hunt.specs.declared.rule.SeatView.{SeatView};
ghost use Rattle.hunt.specs.Counts.{Has, times};
ghost use Rattle.hunt.specs.Rule.{IsBoard};

/// By the rule of a board, a number is claimed once: by one claim of its seat, and by no other seat.
pub fn numbers_are_claimed_once()
    ensures once { (n seats : ℕ) (s : State (Unit {0}) SeatView) → IsBoard n seats s
        → (seat : ℕ) (v : SeatView) → get_elem? s.views seat ≡ some v → (x : ℕ) → times x v.claimed ≤ 1 }
    ensures alone { (n seats : ℕ) (s : State (Unit {0}) SeatView) → IsBoard n seats s
        → (seat other : ℕ) (v w : SeatView) → seat ≢ other → get_elem? s.views seat ≡ some v → get_elem? s.views other ≡ some w
        → (x : ℕ) → Has v.claimed x → Has w.claimed x → ⊥ }
{}
