//! What a sheet asks.
use conditions::Cond;
use std::marker::Model;

/// Where a question is asked.
#[derive(Clone, Copy, Debug, PartialEq, Eq)]
pub enum Place {
    /// `crash`: of each image that a crash may leave, in each state that a run reaches.
    Crash,
    /// `end`: at each end before the first crash.
    End,
    /// `recovery`: at each end after a crash.
    Recovery,
}

/// A question of a sheet.
#[derive(Drop)]
pub struct NamedQuestion {
    /// Its name.
    pub name: Vec<u8>,
    /// Whether it is asked of every state, or of some.
    pub every: bool,
    /// Where it is asked.
    pub place: Place,
    /// The left side of its `->`, if it has one outside of brackets.
    pub left: Option<Cond>,
    /// The condition.
    pub condition: Cond,
}

impl Model for NamedQuestion {
    ghost use Rattle.conditions.specs.FormulaCodes.{coded_formula};
    ghost use Rattle.std.specs.Coded.{codes};
    ghost use Rattle.questions.specs.Questions.{NamedQuestion};

    ghost Value = { NamedQuestion };

    ghost coded = { Prim.hlevel (codes, coded_formula) };

    ghost view = { λ q. record { name = q.name.items; every = q.every; place = q.place; left = q.left; condition = q.condition } };
}
