//! The values of terms, and what terms read. All is asked of trees, as conditions hold them.
ghost use Rattle.std.specs.Prelude.{◌≡◌, ◌-◌, ◌*◌, ◌^◌, ◌<◌, ◌≤◌, MatchOption};
ghost use Rattle.conditions.specs.Terms.{addends, strays_in_term, term};
ghost use Rattle.conditions.specs.Truth.{term_asks_line, term_asks_persisted, term_reads_persisted, term_reads_registers, term_value, word_with};

use crate::cond::Operand;
use crate::tree::Node;
use crate::truth::Values;
use lines_layout::{FIRST_ADDRESS, LineId, MAX_WORDS, WORD_BYTES, WordId};

/// The value of a tree, if all of it is there.
pub(crate) fn term_value<V: Values>(node: &Node, values: &V) -> Option<u128>
    requires tree { strays_in_term node.now ≡ 0 }
    requires few { addends (term node.now) < 2 ^ 64 }
    ensures value { result ≡ term_value (V.values values.now) (term node.now) }
    ensures bound { MatchOption result (Unit {0}) (λ v. v ≤ addends (term node.now) * (2 ^ 64 - 1)) }
{
    match node {
        Node::Number(number) => Some(u128::from(*number)),
        Node::Read(operand) => wide(values.value(*operand)),
        Node::PersistedAt(address) => {
            let word = word_with(term_value(address, values)?)?;
            wide(values.value(Operand::Persisted(word)))
        }
        Node::CoherentAt(address) => {
            let word = word_with(term_value(address, values)?)?;
            wide(values.value(Operand::Coherent(word)))
        }
        Node::Plus(left, right) => {
            let left = term_value(left, values)?;
            let right = term_value(right, values)?;
            Some(left + right)
        }
        _ => unreachable!(),
    }
}

/// The same value, with room for sums.
fn wide(value: Option<u64>) -> Option<u128>
    ensures same { result ≡ value }
    ensures bound { MatchOption result (Unit {0}) (λ v. v ≤ 2 ^ 64 - 1) }
{
    match value {
        Some(value) => Some(u128::from(value)),
        None => None,
    }
}

/// The word that has an address, where a layout can have one.
fn word_with(address: u128) -> Option<WordId>
    ensures { result ≡ word_with address }
{
    let number = address.saturating_sub(u128::from(FIRST_ADDRESS)) / u128::from(WORD_BYTES);
    if number >= MAX_WORDS as u128 {
        return None;
    }
    let word = WordId::new(number as usize)?;
    if address == u128::from(word.address()) {
        Some(word)
    } else {
        None
    }
}

/// Whether the tree reads a register.
pub(crate) fn term_reads_registers(node: &Node) -> bool
    requires { strays_in_term node.now ≡ 0 }
    ensures { result ≡ term_reads_registers (term node.now) }
{
    match node {
        Node::Number(_) => false,
        Node::Read(Operand::Register(_, _)) => true,
        Node::Read(_) => false,
        Node::PersistedAt(address) | Node::CoherentAt(address) => { term_reads_registers(address) }
        Node::Plus(left, right) => term_reads_registers(left) || term_reads_registers(right),
        _ => unreachable!(),
    }
}

/// Whether the tree reads persisted values alone, or nothing.
pub(crate) fn term_reads_persisted(node: &Node) -> bool
    requires { strays_in_term node.now ≡ 0 }
    ensures { result ≡ term_reads_persisted (term node.now) }
{
    match node {
        Node::Number(_) => true,
        Node::Read(Operand::Persisted(_)) => true,
        Node::Read(_) => false,
        Node::PersistedAt(address) => term_reads_persisted(address),
        Node::CoherentAt(_) => false,
        Node::Plus(left, right) => term_reads_persisted(left) && term_reads_persisted(right),
        _ => unreachable!(),
    }
}

/// Whether the tree reads a persisted value.
pub(crate) fn term_asks_persisted(node: &Node) -> bool
    requires { strays_in_term node.now ≡ 0 }
    ensures { result ≡ term_asks_persisted (term node.now) }
{
    match node {
        Node::Number(_) => false,
        Node::Read(Operand::Persisted(_)) => true,
        Node::Read(_) => false,
        Node::PersistedAt(_) => true,
        Node::CoherentAt(address) => term_asks_persisted(address),
        Node::Plus(left, right) => term_asks_persisted(left) || term_asks_persisted(right),
        _ => unreachable!(),
    }
}

/// Whether the tree may read the persisted value of a word of this line. Which word a pointer leads to
/// is not known before, so a pointer to a persisted value may lead to any line.
pub(crate) fn term_asks_line(node: &Node, line: LineId) -> bool
    requires { strays_in_term node.now ≡ 0 }
    ensures { result ≡ term_asks_line line (term node.now) }
{
    match node {
        Node::Number(_) => false,
        Node::Read(Operand::Persisted(word)) => word.line() == line,
        Node::Read(_) => false,
        Node::PersistedAt(_) => true, // of any line
        Node::CoherentAt(address) => term_asks_line(address, line),
        Node::Plus(left, right) => term_asks_line(left, line) || term_asks_line(right, line),
        _ => unreachable!(),
    }
}
