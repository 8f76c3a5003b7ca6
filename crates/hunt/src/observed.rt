//! How a schedule ends.
ghost use Rattle.std.specs.Prelude.{◌≡◌};
ghost use Rattle.hunt.specs.Outcomes.{is_same};
ghost use Rattle.hunt.specs.Same.{hash_input, same_equiv, same_hash_input, same_partial};

use std::hash::{Hash, Hasher};
use std::marker::Model;

/// The values of a word.
#[derive(Clone, Copy, Debug, PartialEq, Eq, Hash)]
pub struct WordPair {
    /// What every processor reads that has no write of it buffered.
    pub coherent: u64,
    /// What a crash would leave.
    pub persisted: u64,
}

/// What is observed at the end of a schedule: the values of each processor's registers, and the coherent
/// and the persisted value of each word. Programs' places, flags and what is buffered or pending are no
/// part of it.
#[derive(Debug, Drop)]
pub struct Outcome {
    registers: Vec<[u64; 8]>,
    words: Vec<WordPair>,
}

impl Model for Outcome {
    ghost use Rattle.hunt.specs.Outcomes.{Observed};

    ghost Value = { Observed };

    ghost view = { λ o. record { registers = o.registers.items; words = o.words.items } };
}

impl Outcome {
    /// An outcome of these values.
    pub(crate) fn new(registers: Vec<[u64; 8]>, words: Vec<WordPair>) -> Outcome
        ensures { result ≡ record { registers = registers.items; words = words.items } }
    {
        Outcome { registers, words }
    }

    /// The values of each processor's registers, in the order of `isa::REGISTERS`.
    pub fn registers(&self) -> &[[u64; 8]]
        ensures { result.now ≡ self.now.registers }
    {
        &self.registers
    }

    /// The values of each word of the shape, in order of number.
    pub fn words(&self) -> &[WordPair]
        ensures { result.now ≡ self.now.words }
    {
        &self.words
    }
}

impl PartialEq for Outcome {
    ghost eq = { is_same };

    ghost laws = { same_partial };

    fn eq(&self, other: &Outcome) -> bool {
        self.registers == other.registers && self.words == other.words
    }
}

impl Eq for Outcome {
    ghost laws = { same_equiv };
}

impl Hash for Outcome {
    ghost hash_input = { hash_input };

    ghost respects_eq = { same_hash_input };

    fn hash<H: Hasher>(&self, state: &mut H) {
        self.registers.hash(state);
        self.words.hash(state);
    }
}
