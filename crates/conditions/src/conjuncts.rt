//! Taking a condition apart: conditions that all hold exactly where it does.
//!
//! `and` is taken apart, `or` is distributed over it, and `not` goes inwards.
ghost use Rattle.std.specs.Prelude.{◌≡◌, ◌++◌, ◌∷◌, ◌≤◌, [], IfOk, MatchOption, OnOk, length, map};
ghost use Rattle.conditions.specs.Conjuncts.{AreConjuncts, claimed, combined, crossed};
ghost use Rattle.conditions.specs.Formulas.{Or, formula, strays};
ghost use Rattle.conditions.specs.Limits.{most_conjuncts};

use crate::cond::Cond;
use crate::tree::Node;
use std::alloc::{AllocError, Global};

/// How many conjuncts a condition is taken apart into. What would come to more stays one.
pub const MOST_CONJUNCTS: usize = 64;

impl Cond {
    /// Conditions that all hold exactly where this one does: its conjuncts, as far as it comes apart. There are at most
    /// [`MOST_CONJUNCTS`]. The only error is out of memory.
    pub fn conjuncts(&self, alloc: Global) -> Result<Vec<Cond>, AllocError>
        ensures conjuncts { IfOk result (λ parts. AreConjuncts parts.items self.now) }
        ensures few { IfOk result (λ parts. length parts.items ≤ most_conjuncts) }
    {
        parts_of(alloc, self.root(), true)
    }
}

/// The conjuncts of what a tree says, or of that it does not hold.
fn parts_of(alloc: Global, node: &Node, wanted: bool) -> Result<Vec<Cond>, AllocError>
    requires { strays node.now ≡ 0 }
    ensures conjuncts { IfOk result (λ parts. AreConjuncts parts.items (claimed wanted (formula node.now))) }
    ensures few { IfOk result (λ parts. length parts.items ≤ most_conjuncts) }
{
    match node {
        Node::Atom(_, _, _) | Node::Compares(_, _, _) => alone(alloc, node, wanted),
        Node::Not(inner) => parts_of(alloc, inner, !wanted),
        Node::And(left, right) => {
            let ones = parts_of(alloc, left, wanted)?;
            let others = parts_of(alloc, right, wanted)?;
            match combined(alloc, wanted, ones, others)? {
                Some(parts) => Ok(parts),
                None => alone(alloc, node, wanted),
            }
        }
        Node::Or(left, right) => {
            let ones = parts_of(alloc, left, wanted)?;
            let others = parts_of(alloc, right, wanted)?;
            match combined(alloc, !wanted, ones, others)? {
                Some(parts) => Ok(parts),
                None => alone(alloc, node, wanted),
            }
        }
        _ => unreachable!(),
    }
}

/// What a tree says, or that it does not hold, as one condition.
fn alone(alloc: Global, node: &Node, wanted: bool) -> Result<Vec<Cond>, AllocError>
    requires { strays node.now ≡ 0 }
    ensures { IfOk result (λ parts. parts.items ≡ claimed wanted (formula node.now) ∷ []) }
{
    let mut parts = Vec::new(alloc);
    parts.push(claimed(alloc, node, wanted)?)?;
    Ok(parts)
}

/// That a tree holds, or that it does not.
fn claimed(alloc: Global, node: &Node, wanted: bool) -> Result<Cond, AllocError>
    requires { strays node.now ≡ 0 }
    ensures { IfOk result (λ cond. cond ≡ claimed wanted (formula node.now)) }
{
    let cond = Cond::of(alloc, node)?;
    if wanted {
        Ok(cond)
    } else {
        cond.negated(alloc)
    }
}

/// The conjuncts of an `and`, or of an `or`, made of those of its two sides; None where there are too many.
fn combined(
    alloc: Global,
    both: bool,
    ones: Vec<Cond>,
    others: Vec<Cond>,
) -> Result<Option<Vec<Cond>>, AllocError>
    requires one_side { length ones.items ≤ most_conjuncts }
    requires other_side { length others.items ≤ most_conjuncts }
    ensures parts { IfOk result (λ made. MatchOption made (Unit {0}) (λ parts. parts.items ≡ combined both ones.items others.items)) }
    ensures few { IfOk result (λ made. MatchOption made (Unit {0}) (λ parts. length parts.items ≤ most_conjuncts)) }
{
    if both {
        if ones.len() + others.len() <= MOST_CONJUNCTS {
            return Ok(Some(joined(ones, others)?));
        }
    } else if ones.len() * others.len() <= MOST_CONJUNCTS {
        return Ok(Some(crossed(alloc, &ones, &others)?));
    }
    Ok(None)
}

/// Some conditions, and then others.
fn joined(ones: Vec<Cond>, others: Vec<Cond>) -> Result<Vec<Cond>, AllocError>
    ensures { IfOk result (λ parts. parts.items ≡ ones.items ++ others.items) }
{
    let mut parts = ones;
    let mut rest = others;
    parts.append(&mut rest)?;
    Ok(parts)
}

/// `or` of each of some conditions and each of others.
fn crossed(alloc: Global, ones: &[Cond], others: &[Cond]) -> Result<Vec<Cond>, AllocError>
    ensures { IfOk result (λ parts. parts.items ≡ crossed ones.now others.now) }
{
    let mut parts = Vec::new(alloc);
    for one in ones {
        push_each(alloc, one, others, &mut parts)?;
    }
    Ok(parts)
}

/// Adds `or` of one condition and each of others.
fn push_each(
    alloc: Global,
    one: &Cond,
    others: &[Cond],
    parts: &mut Vec<Cond>,
) -> Result<(), AllocError>
    ensures { OnOk result (parts.new.items ≡ parts.old.items ++ map (Or one.now) others.now) }
{
    for other in others {
        let left = one.copy(alloc)?;
        let right = other.copy(alloc)?;
        parts.push(left.or(alloc, right)?)?;
    }
    Ok(())
}
