//! What a test compares: terms.
ghost use Rattle.std.specs.Prelude.{◌≡◌, ◌+◌, ◌^◌, ◌<◌, IfOk, IfSome};
ghost use Rattle.conditions.specs.Terms.{Number, Read, PersistedAt, CoherentAt, Plus, addends, strays_in_term, term};

use crate::cond::Operand;
use crate::tree::{Node, copy_node};
use std::alloc::{AllocError, Global};
use std::marker::Model;

/// One side of a test: a number, the value of an operand, the value of the word at an address, or a sum.
#[derive(Drop)]
pub struct Term {
    root: Node,
    count: u64,
}

impl Model for Term {
    ghost use Rattle.std.specs.Prelude.{◌≡◌};
    ghost use Rattle.conditions.specs.Terms.{Term, addends, strays_in_term, term};
    ghost use Rattle.conditions.specs.TermCodes.{coded_term};

    ghost Value = { Term };

    ghost coded = { coded_term };

    ghost view = { λ t. term t.root };

    ghost invariant = { λ t. (strays_in_term t.root ≡ 0) × (addends (term t.root) ≡ t.count) };
}

impl Term {
    /// The number that the term is, if it is one.
    pub(crate) fn as_number(&self) -> Option<u64>
        ensures { IfSome result (λ n. self.now ≡ Number n) }
    {
        match &self.root {
            Node::Number(number) => Some(*number),
            _ => None,
        }
    }

    /// The operand that the term reads, if it is one.
    pub(crate) fn operand(&self) -> Option<Operand>
        ensures { IfSome result (λ operand. self.now ≡ Read operand) }
    {
        match &self.root {
            Node::Read(operand) => Some(*operand),
            _ => None,
        }
    }

    /// A number.
    pub fn number(number: u64) -> Term
        ensures { result ≡ Number number }
    {
        Term {
            root: Node::Number(number),
            count: 1,
        }
    }

    /// The value of an operand. A test of one that is not there does not hold.
    pub fn read(operand: Operand) -> Term
        ensures { result ≡ Read operand }
    {
        Term {
            root: Node::Read(operand),
            count: 1,
        }
    }

    /// The persisted value of the word whose address is this term's value. Where no word has it, a test does
    /// not hold. The only error is out of memory.
    pub fn persisted_at(self, alloc: Global) -> Result<Term, AllocError>
        ensures { IfOk result (λ t. t ≡ PersistedAt self) }
    {
        Ok(Term {
            root: Node::PersistedAt(Box::new(alloc, self.root)?),
            count: self.count,
        })
    }

    /// The coherent value of the word whose address is this term's value. Where no word has it, a test does
    /// not hold. The only error is out of memory.
    pub fn coherent_at(self, alloc: Global) -> Result<Term, AllocError>
        ensures { IfOk result (λ t. t ≡ CoherentAt self) }
    {
        Ok(Term {
            root: Node::CoherentAt(Box::new(alloc, self.root)?),
            count: self.count,
        })
    }

    /// The sum of two terms, which does not wrap. The only error is out of memory.
    pub fn plus(self, alloc: Global, other: Term) -> Result<Term, AllocError>
        requires few { addends self + addends other < 2 ^ 64 }
        ensures { IfOk result (λ t. t ≡ Plus self other) }
    {
        let count = self.count + other.count;
        let left = Box::new(alloc, self.root)?;
        let right = Box::new(alloc, other.root)?;
        Ok(Term {
            root: Node::Plus(left, right),
            count,
        })
    }

    /// How many numbers and operands the term is made of.
    pub fn addends(&self) -> u64
        ensures { result ≡ addends self.now }
    {
        self.count
    }

    /// An equal term. The only error is out of memory.
    pub fn copy(&self, alloc: Global) -> Result<Term, AllocError>
        ensures { IfOk result (λ t. t ≡ self.now) }
    {
        Ok(Term {
            root: copy_node(alloc, &self.root)?,
            count: self.count,
        })
    }

    /// The term as a tree.
    pub(crate) fn into_root(self) -> Node
        ensures tree { term result ≡ self }
        ensures strays { strays_in_term result ≡ 0 }
        ensures few { addends self < 2 ^ 64 }
    {
        let _fits = self.count;
        self.root
    }
}
