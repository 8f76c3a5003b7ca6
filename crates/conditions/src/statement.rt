//! Conditions of which a test may be neither true nor false: that one is true, or that it is false.
ghost use Rattle.std.specs.Prelude.{◌≡◌, IfOk};
ghost use Rattle.conditions.specs.Formulas.{formula, strays};
ghost use Rattle.conditions.specs.Statements.{compares_so, opposite, stated};

use crate::cond::{Comparison, Cond};
use crate::tree::Node;
use std::alloc::{AllocError, Global};

impl Comparison {
    /// The comparison that is true of two numbers exactly where this one is false.
    pub fn opposite(self) -> Comparison
        ensures { result ≡ opposite self }
    {
        match self {
            Comparison::Equal => Comparison::NotEqual,
            Comparison::NotEqual => Comparison::Equal,
            Comparison::Less => Comparison::AtLeast,
            Comparison::AtMost => Comparison::Greater,
            Comparison::Greater => Comparison::AtMost,
            Comparison::AtLeast => Comparison::Less,
        }
    }

    /// This comparison, or its opposite.
    fn wanted(self, wanted: bool) -> Comparison
        ensures { result ≡ compares_so wanted self }
    {
        if wanted { self } else { self.opposite() }
    }
}

impl Cond {
    /// That this condition is true, or that it is false, where a test of what is not there is neither. The only error is out
    /// of memory.
    pub fn stated(&self, alloc: Global, wanted: bool) -> Result<Cond, AllocError>
        ensures { IfOk result (λ c. c ≡ stated wanted self.now) }
    {
        stated(alloc, self.root(), wanted)
    }
}

/// That what a tree says is true, or that it is false.
fn stated(alloc: Global, node: &Node, wanted: bool) -> Result<Cond, AllocError>
    requires { strays node.now ≡ 0 }
    ensures { IfOk result (λ c. c ≡ stated wanted (formula node.now)) }
{
    match node {
        Node::Atom(operand, comparison, number) => {
            Ok(Cond::test(*operand, comparison.wanted(wanted), *number))
        }
        Node::Compares(left, comparison, right) => {
            Cond::comparing(alloc, left, comparison.wanted(wanted), right)
        }
        Node::Not(inner) => stated(alloc, inner, !wanted),
        Node::And(left, right) => {
            let left = stated(alloc, left, wanted)?;
            let right = stated(alloc, right, wanted)?;
            if wanted {
                left.and(alloc, right)
            } else {
                left.or(alloc, right)
            }
        }
        Node::Or(left, right) => {
            let left = stated(alloc, left, wanted)?;
            let right = stated(alloc, right, wanted)?;
            if wanted {
                left.or(alloc, right)
            } else {
                left.and(alloc, right)
            }
        }
        _ => unreachable!(),
    }
}
