//! The tree that conditions and terms are kept as.
ghost use Rattle.std.specs.Prelude.{◌≡◌, IfOk};
ghost use Rattle.conditions.specs.Formulas.{formula, strays};
ghost use Rattle.conditions.specs.Terms.{strays_in_term, term};

use crate::cond::{Comparison, Operand};
use std::alloc::{AllocError, Global};

/// A condition or a term as a tree. It is one type for both, so that it is soon found that a condition may cross threads.
#[derive(Drop)]
pub(crate) enum Node {
    /// A test of an operand against a number. It takes no memory, and is quick to evaluate.
    Atom(Operand, Comparison, u64),
    /// A test of two terms.
    Compares(Box<Node>, Comparison, Box<Node>),
    Not(Box<Node>),
    And(Box<Node>, Box<Node>),
    Or(Box<Node>, Box<Node>),
    // of terms
    Number(u64),
    Read(Operand),
    PersistedAt(Box<Node>),
    CoherentAt(Box<Node>),
    Plus(Box<Node>, Box<Node>),
}

/// An equal tree.
pub(crate) fn copy_node(alloc: Global, node: &Node) -> Result<Node, AllocError>
    ensures formula { IfOk result (λ n. formula n ≡ formula node.now) }
    ensures strays { IfOk result (λ n. strays n ≡ strays node.now) }
    ensures term { IfOk result (λ n. term n ≡ term node.now) }
    ensures strays_in_term { IfOk result (λ n. strays_in_term n ≡ strays_in_term node.now) }
{
    match node {
        Node::Atom(operand, comparison, number) => {
            Ok(Node::Atom(*operand, *comparison, *number))
        }
        Node::Compares(left, comparison, right) => {
            let left = Box::new(alloc, copy_node(alloc, left)?)?;
            let right = Box::new(alloc, copy_node(alloc, right)?)?;
            Ok(Node::Compares(left, *comparison, right))
        }
        Node::Not(inner) => {
            let inner = Box::new(alloc, copy_node(alloc, inner)?)?;
            Ok(Node::Not(inner))
        }
        Node::And(left, right) => {
            let left = Box::new(alloc, copy_node(alloc, left)?)?;
            let right = Box::new(alloc, copy_node(alloc, right)?)?;
            Ok(Node::And(left, right))
        }
        Node::Or(left, right) => {
            let left = Box::new(alloc, copy_node(alloc, left)?)?;
            let right = Box::new(alloc, copy_node(alloc, right)?)?;
            Ok(Node::Or(left, right))
        }
        Node::Number(number) => Ok(Node::Number(*number)),
        Node::Read(operand) => Ok(Node::Read(*operand)),
        Node::PersistedAt(address) => {
            let address = Box::new(alloc, copy_node(alloc, address)?)?;
            Ok(Node::PersistedAt(address))
        }
        Node::CoherentAt(address) => {
            let address = Box::new(alloc, copy_node(alloc, address)?)?;
            Ok(Node::CoherentAt(address))
        }
        Node::Plus(left, right) => {
            let left = Box::new(alloc, copy_node(alloc, left)?)?;
            let right = Box::new(alloc, copy_node(alloc, right)?)?;
            Ok(Node::Plus(left, right))
        }
    }
}
