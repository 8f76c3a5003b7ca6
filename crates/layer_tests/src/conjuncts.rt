//! Taking conditions apart. All rows are worked out by hand.
use conditions::{Comparison, Cond, MOST_CONJUNCTS, Operand};
use lines_layout::WordId;
use std::alloc::{AllocError, Global};
use std::test::Fail;

/// `persisted x = N`, where x is word 0.
fn persisted(number: u64) -> Result<Cond, Fail> {
    let x = WordId::new(0).ok_or("no word")?;
    Ok(Cond::test(Operand::Persisted(x), Comparison::Equal, number))
}

/// `coherent x = N`.
fn coherent(number: u64) -> Result<Cond, Fail> {
    let x = WordId::new(0).ok_or("no word")?;
    Ok(Cond::test(Operand::Coherent(x), Comparison::Equal, number))
}

/// What a condition asks: p for persisted values alone, c for none, m for persisted values and others.
fn kind(cond: &Cond) -> u8 {
    if cond.reads_persisted() {
        b'p'
    } else if cond.asks_persisted() {
        b'm'
    } else {
        b'c'
    }
}

/// What each conjunct of a condition asks, in their order.
fn kinds(alloc: Global, cond: &Cond) -> Result<Vec<u8>, AllocError> {
    let parts = cond.conjuncts(alloc)?;
    let mut kinds = Vec::new(alloc);
    for part in &parts {
        kinds.push(kind(part))?;
    }
    Ok(kinds)
}

/// Whether the conjuncts of a condition ask this.
fn are(alloc: Global, cond: &Cond, asked: &[u8]) -> Result<bool, AllocError> {
    Ok(kinds(alloc, cond)?.as_slice() == asked)
}

/// So many tests of persisted values that are all to hold: `persisted x = 0 and persisted x = 1 and ..`.
fn tests(alloc: Global, count: u64) -> Result<Cond, Fail> {
    let mut cond = persisted(0)?;
    for number in 1..count {
        cond = cond.and(alloc, persisted(number)?)?;
    }
    Ok(cond)
}

/// `persisted x = 1 and coherent x = 2`: two, and so is `not not (..)`.
#[test]
fn and_comes_apart(rt: HostRuntime) -> Result<(), Fail> {
    let alloc = rt.alloc();
    let both = persisted(1)?.and(alloc, coherent(2)?)?;
    assert!(rt; are(alloc, &both, b"pc")?);
    let twice = both.negated(alloc)?.negated(alloc)?;
    assert!(rt; are(alloc, &twice, b"pc")?);
    Ok(())
}

/// `(persisted x = 1 and coherent x = 2) or persisted x = 3` is `(persisted x = 1 or persisted x = 3) and (coherent x = 2 or
/// persisted x = 3)`.
#[test]
fn or_is_spread_over_and(rt: HostRuntime) -> Result<(), Fail> {
    let alloc = rt.alloc();
    let both = persisted(1)?.and(alloc, coherent(2)?)?;
    let cond = both.or(alloc, persisted(3)?)?;
    assert!(rt; are(alloc, &cond, b"pm")?);
    Ok(())
}

/// `not (persisted x = 1 or coherent x = 2)` are two; `not (persisted x = 1 and coherent x = 2)` is one, `not .. or not ..`.
#[test]
fn not_goes_inwards(rt: HostRuntime) -> Result<(), Fail> {
    let alloc = rt.alloc();
    let either = persisted(1)?.or(alloc, coherent(2)?)?.negated(alloc)?;
    assert!(rt; are(alloc, &either, b"pc")?);
    let both = persisted(1)?.and(alloc, coherent(2)?)?.negated(alloc)?;
    assert!(rt; are(alloc, &both, b"m")?);
    Ok(())
}

/// 64 tests come apart, and 65 stay one.
#[test]
fn at_most_64_tests_come_apart(rt: HostRuntime) -> Result<(), Fail> {
    let alloc = rt.alloc();
    assert!(rt; tests(alloc, 64)?.conjuncts(alloc)?.len() == MOST_CONJUNCTS);
    assert!(rt; tests(alloc, 65)?.conjuncts(alloc)?.len() == 1);
    Ok(())
}

/// `or` of 8 tests and 8 tests are 64 conditions; of 8 and 9 they would be 72, and it stays one.
#[test]
fn at_most_64_pairs_come_apart(rt: HostRuntime) -> Result<(), Fail> {
    let alloc = rt.alloc();
    let pairs = tests(alloc, 8)?.or(alloc, tests(alloc, 8)?)?;
    assert!(rt; pairs.conjuncts(alloc)?.len() == MOST_CONJUNCTS);
    let more = tests(alloc, 8)?.or(alloc, tests(alloc, 9)?)?;
    assert!(rt; more.conjuncts(alloc)?.len() == 1);
    Ok(())
}
