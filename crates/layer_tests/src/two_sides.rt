//! Conditions that compare two terms: words, words that pointers lead to, and sums; and what is stated of a condition that may be
//! neither true nor false. All rows are worked out by hand. Words 0 and 1 have the addresses 4096 and 4104.
use crate::machines::loaded;
use conditions::{Comparison, Cond, Operand, Term};
use explore::{Question, Verdict, check};
use isa::Reg;
use lines_layout::{LineId, WordId};
use std::alloc::Global;
use std::test::Fail;
use workers::OpenGate;

/// Two words of equal values, and one of another.
const EQUAL: &str = "litmus 1\nline x y z\ninit x 5\ninit y 5\ninit z 6\ncpu\nend\n";

/// The greatest value of a word.
const GREATEST: &str = "litmus 1\nline x\ninit x 18446744073709551615\ncpu\nend\n";

/// The persisted value of the word of this number.
fn word(number: usize) -> Result<Term, Fail> {
    let word = WordId::new(number).ok_or("no word")?;
    Ok(Term::read(Operand::Persisted(word)))
}

/// The coherent value of the word of this number.
fn coherent(number: usize) -> Result<Term, Fail> {
    let word = WordId::new(number).ok_or("no word")?;
    Ok(Term::read(Operand::Coherent(word)))
}

/// The sum of two terms that are no sums.
fn sum(alloc: Global, left: Term, right: Term) -> Result<Term, Fail> {
    if left.addends() != 1 || right.addends() != 1 {
        return Err(Fail::new("a sum of a sum"));
    }
    Ok(left.plus(alloc, right)?)
}

/// Whether this holds in the first state of a text.
fn is_true(alloc: Global, text: &str, cond: &Cond) -> Result<bool, Fail> {
    let machine = loaded(alloc, text)?;
    let answer = images::holds(cond, &machine.view());
    drop(machine);
    Ok(answer)
}

/// Whether two terms compare so in the first state of a text.
fn compare(
    alloc: Global,
    text: &str,
    left: Term,
    comparison: Comparison,
    right: Term,
) -> Result<bool, Fail> {
    let cond = Cond::compare(alloc, left, comparison, right)?;
    is_true(alloc, text, &cond)
}

/// x = y is 5 = 5, and x = z is 5 = 6.
#[test]
fn two_words_are_equal_or_not(rt: HostRuntime) -> Result<(), Fail> {
    let alloc = rt.alloc();
    assert!(rt; compare(alloc, EQUAL, word(0)?, Comparison::Equal, word(1)?)?);
    assert!(rt; !compare(alloc, EQUAL, word(0)?, Comparison::NotEqual, word(1)?)?);
    assert!(rt; !compare(alloc, EQUAL, word(0)?, Comparison::Equal, word(2)?)?);
    assert!(rt; compare(alloc, EQUAL, word(0)?, Comparison::NotEqual, word(2)?)?);
    Ok(())
}

/// 5 < 6 and 5 <= 6; not 6 < 5, 6 <= 5, 5 > 6 or 5 >= 6. 5 <= 5 and 5 >= 5; not 5 < 5 or 5 > 5.
#[test]
fn sides_have_an_order(rt: HostRuntime) -> Result<(), Fail> {
    let alloc = rt.alloc();
    assert!(rt; compare(alloc, EQUAL, word(0)?, Comparison::Less, word(2)?)?);
    assert!(rt; compare(alloc, EQUAL, word(0)?, Comparison::AtMost, word(2)?)?);
    assert!(rt; !compare(alloc, EQUAL, word(2)?, Comparison::Less, word(0)?)?);
    assert!(rt; !compare(alloc, EQUAL, word(2)?, Comparison::AtMost, word(0)?)?);
    assert!(rt; !compare(alloc, EQUAL, word(0)?, Comparison::Greater, word(2)?)?);
    assert!(rt; !compare(alloc, EQUAL, word(0)?, Comparison::AtLeast, word(2)?)?);
    assert!(rt; compare(alloc, EQUAL, word(0)?, Comparison::AtMost, word(1)?)?);
    assert!(rt; compare(alloc, EQUAL, word(0)?, Comparison::AtLeast, word(1)?)?);
    assert!(rt; !compare(alloc, EQUAL, word(0)?, Comparison::Less, word(1)?)?);
    assert!(rt; !compare(alloc, EQUAL, word(0)?, Comparison::Greater, word(1)?)?);
    Ok(())
}

/// 18446744073709551615 + 1 is 2^64: it is not 0, and it is greater than each word.
#[test]
fn a_sum_does_not_wrap(rt: HostRuntime) -> Result<(), Fail> {
    let alloc = rt.alloc();
    let more = sum(alloc, word(0)?, Term::number(1))?;
    assert!(rt; !compare(alloc, GREATEST, more, Comparison::Equal, Term::number(0))?);
    let more = sum(alloc, word(0)?, Term::number(1))?;
    assert!(rt; compare(alloc, GREATEST, more, Comparison::Greater, word(0)?)?);
    let twice = sum(alloc, word(0)?, word(0)?)?;
    let same = sum(alloc, Term::number(u64::MAX), word(0)?)?;
    assert!(rt; compare(alloc, GREATEST, twice, Comparison::Equal, same)?);
    Ok(())
}

/// Whether y = 7 is found by the pointer p, which is word 0, y being word 1.
fn leads_to_7(alloc: Global, text: &str) -> Result<bool, Fail> {
    let found = word(0)?.persisted_at(alloc)?;
    compare(alloc, text, found, Comparison::Equal, Term::number(7))
}

/// 4104 is the address of y. At 0 and at 4103 no word lies; 4112 would be that of a third word, and 8192 that of none.
#[test]
fn a_pointer_leads_to_a_word_or_to_none(rt: HostRuntime) -> Result<(), Fail> {
    let alloc = rt.alloc();
    let there = "litmus 1\nline p y\ninit p 4104\ninit y 7\ncpu\nend\n";
    assert!(rt; leads_to_7(alloc, there)?);
    let itself = "litmus 1\nline p y\ninit p 4096\ninit y 7\ncpu\nend\n";
    assert!(rt; !leads_to_7(alloc, itself)?);
    for nowhere in [
        "litmus 1\nline p y\ninit y 7\ncpu\nend\n",
        "litmus 1\nline p y\ninit p 4103\ninit y 7\ncpu\nend\n",
        "litmus 1\nline p y\ninit p 4112\ninit y 7\ncpu\nend\n",
        "litmus 1\nline p y\ninit p 8192\ninit y 7\ncpu\nend\n",
    ] {
        assert!(rt; !leads_to_7(alloc, nowhere)?);
        let found = word(0)?.persisted_at(alloc)?;
        assert!(rt; !compare(alloc, nowhere, found, Comparison::NotEqual, Term::number(7))?);
    }
    Ok(())
}

/// 2^64 + 4104 is no address of y, though its low 64 bits are. A register that no processor has is in no sum.
#[test]
fn what_is_not_there_has_no_value(rt: HostRuntime) -> Result<(), Fail> {
    let alloc = rt.alloc();
    let far = sum(alloc, word(0)?, Term::number(4105))?;
    let found = far.coherent_at(alloc)?;
    assert!(rt; !compare(alloc, GREATEST, found, Comparison::AtLeast, Term::number(0))?);
    let gone = Term::read(Operand::Register(1, Reg::R8));
    let both = sum(alloc, Term::number(3), gone)?;
    let cond = Cond::compare(alloc, both, Comparison::AtLeast, Term::number(0))?;
    assert!(rt; !is_true(alloc, EQUAL, &cond)?);
    assert!(rt; is_true(alloc, EQUAL, &cond.negated(alloc)?)?);
    Ok(())
}

/// That x, which is 5, has this value.
fn x_is(number: u64) -> Result<Cond, Fail> {
    let x = WordId::new(0).ok_or("no word")?;
    Ok(Cond::test(Operand::Persisted(x), Comparison::Equal, number))
}

/// A test that is neither true nor false in `EQUAL`: x is 5, which is the address of no word.
fn lost(alloc: Global) -> Result<Cond, Fail> {
    let found = word(0)?.persisted_at(alloc)?;
    Ok(Cond::compare(alloc, found, Comparison::Equal, Term::number(7))?)
}

/// Whether a condition is true, false or neither in `EQUAL`, as this says: what is stated of it holds just there.
fn is_so(alloc: Global, cond: &Cond, truth: Option<bool>) -> Result<bool, Fail> {
    let yes = is_true(alloc, EQUAL, &cond.stated(alloc, true)?)?;
    let no = is_true(alloc, EQUAL, &cond.stated(alloc, false)?)?;
    Ok(match truth {
        Some(true) => yes && !no,
        Some(false) => !yes && no,
        None => !yes && !no,
    })
}

/// 5 is compared with 5 and 6 in each way, and so is the sum 2 + 3.
#[test]
fn what_is_there_is_true_or_false(rt: HostRuntime) -> Result<(), Fail> {
    let alloc = rt.alloc();
    for (comparison, with_5, with_6) in [
        (Comparison::Equal, true, false),
        (Comparison::NotEqual, false, true),
        (Comparison::Less, false, true),
        (Comparison::AtMost, true, true),
        (Comparison::Greater, false, false),
        (Comparison::AtLeast, true, false),
    ] {
        for (number, truth) in [(5, with_5), (6, with_6)] {
            let cond = Cond::compare(alloc, word(0)?, comparison, Term::number(number))?;
            assert!(rt; is_so(alloc, &cond, Some(truth))?);
            assert!(rt; is_so(alloc, &cond.negated(alloc)?, Some(!truth))?);
            let both = sum(alloc, Term::number(2), Term::number(3))?;
            let cond = Cond::compare(alloc, both, comparison, Term::number(number))?;
            assert!(rt; is_so(alloc, &cond, Some(truth))?);
        }
    }
    Ok(())
}

/// Whether `and` of two conditions is true, false or neither in `EQUAL`, as this says.
fn both_are(alloc: Global, one: Cond, other: Cond, truth: Option<bool>) -> Result<bool, Fail> {
    is_so(alloc, &one.and(alloc, other)?, truth)
}

/// Whether `or` of two conditions is true, false or neither in `EQUAL`, as this says.
fn either_is(alloc: Global, one: Cond, other: Cond, truth: Option<bool>) -> Result<bool, Fail> {
    is_so(alloc, &one.or(alloc, other)?, truth)
}

/// A test of what is not there is neither, and so is its `not`.
#[test]
fn what_is_not_there_is_neither(rt: HostRuntime) -> Result<(), Fail> {
    let alloc = rt.alloc();
    assert!(rt; is_so(alloc, &lost(alloc)?, None)?);
    assert!(rt; is_so(alloc, &lost(alloc)?.negated(alloc)?, None)?);
    Ok(())
}

/// Of `and` with what is not there the other side says it where it is false.
#[test]
fn what_is_false_makes_and_false(rt: HostRuntime) -> Result<(), Fail> {
    let alloc = rt.alloc();
    assert!(rt; both_are(alloc, lost(alloc)?, x_is(5)?, None)?);
    assert!(rt; both_are(alloc, x_is(6)?, lost(alloc)?, Some(false))?);
    assert!(rt; both_are(alloc, lost(alloc)?, x_is(6)?, Some(false))?);
    Ok(())
}

/// Of `or` with what is not there the other side says it where it is true.
#[test]
fn what_is_true_makes_or_true(rt: HostRuntime) -> Result<(), Fail> {
    let alloc = rt.alloc();
    assert!(rt; either_is(alloc, lost(alloc)?, x_is(6)?, None)?);
    assert!(rt; either_is(alloc, x_is(5)?, lost(alloc)?, Some(true))?);
    assert!(rt; either_is(alloc, lost(alloc)?, x_is(5)?, Some(true))?);
    assert!(rt; either_is(alloc, lost(alloc)?, lost(alloc)?.negated(alloc)?, None)?);
    Ok(())
}

/// `not` of what is neither is neither.
#[test]
fn what_is_neither_is_not_denied(rt: HostRuntime) -> Result<(), Fail> {
    let alloc = rt.alloc();
    let neither = lost(alloc)?.or(alloc, lost(alloc)?.negated(alloc)?)?;
    assert!(rt; is_so(alloc, &neither.negated(alloc)?, None)?);
    Ok(())
}

/// `not` of what is false is true.
#[test]
fn what_is_false_is_denied(rt: HostRuntime) -> Result<(), Fail> {
    let alloc = rt.alloc();
    let never = lost(alloc)?.and(alloc, x_is(6)?)?;
    assert!(rt; is_so(alloc, &never.negated(alloc)?, Some(true))?);
    Ok(())
}

/// head - tail <= 3 as head <= tail + 3: true of 10 and 7, and of 8 and 10; not of 12 and 8.
#[test]
fn a_difference_is_a_sum_on_the_other_side(rt: HostRuntime) -> Result<(), Fail> {
    let alloc = rt.alloc();
    for (text, answer) in [
        ("litmus 1\nline h t\ninit h 10\ninit t 7\ncpu\nend\n", true),
        ("litmus 1\nline h t\ninit h 8\ninit t 10\ncpu\nend\n", true),
        ("litmus 1\nline h t\ninit h 12\ninit t 8\ncpu\nend\n", false),
    ] {
        let right = sum(alloc, word(1)?, Term::number(3))?;
        assert!(rt; compare(alloc, text, word(0)?, Comparison::AtMost, right)? == answer);
    }
    Ok(())
}

/// What a condition asks: of a pointer to a persisted value each line, of one to a coherent value none but for where it is read.
#[test]
fn pointers_ask_all_lines(rt: HostRuntime) -> Result<(), Fail> {
    let alloc = rt.alloc();
    let here = LineId::new(0).ok_or("no line")?;
    let there = LineId::new(63).ok_or("no line")?;
    let found = word(0)?.persisted_at(alloc)?;
    let cond = Cond::compare(alloc, found, Comparison::Equal, Term::number(7))?;
    assert!(rt; cond.asks_line(here) && cond.asks_line(there));
    assert!(rt; cond.reads_persisted() && cond.asks_persisted() && !cond.reads_registers());
    let found = word(0)?.coherent_at(alloc)?;
    let cond = Cond::compare(alloc, found, Comparison::Equal, Term::number(7))?;
    assert!(rt; cond.asks_line(here) && !cond.asks_line(there));
    assert!(rt; !cond.reads_persisted() && cond.asks_persisted());
    let register = Term::read(Operand::Register(0, Reg::R8)).persisted_at(alloc)?;
    let cond = Cond::compare(alloc, coherent(0)?, Comparison::Equal, register)?;
    assert!(rt; cond.reads_registers() && !cond.reads_persisted() && cond.asks_persisted());
    let cond = Cond::compare(alloc, coherent(0)?, Comparison::Equal, coherent(1)?)?;
    assert!(rt; !cond.asks_persisted() && !cond.reads_registers() && !cond.asks_line(here));
    Ok(())
}

/// Whether all runs of a litmus text keep a condition.
fn is_kept(alloc: Global, text: &str, cond: Cond, crashes: bool) -> Result<bool, Fail> {
    let machine = loaded(alloc, text)?;
    let question = Question {
        crashes,
        all: Some(cond),
        ends: None,
        recovered: None,
        images: false,
    };
    let verdict = check(alloc, &machine, &question, 1000, &OpenGate);
    drop(question);
    drop(machine);
    Ok(matches!(verdict?, Verdict::Holds(_)))
}

/// Two words of one line persist in the order of their stores. Of two lines they do where the first is flushed before the second
/// store, and not where it is not.
#[test]
fn a_word_persists_before_another(rt: HostRuntime) -> Result<(), Fail> {
    let alloc = rt.alloc();
    for (text, second, answer) in [
        (
            "litmus 1\nline x y\ncpu\nmov [x], 1\nmov [y], 1\nend\n",
            1,
            true,
        ),
        (
            "litmus 1\nline x\nline y\ncpu\nmov [x], 1\nmov [y], 1\nend\n",
            8,
            false,
        ),
        (
            "litmus 1\nline x\nline y\ncpu\nmov [x], 1\nclflush [x]\nmov [y], 1\nend\n",
            8,
            true,
        ),
    ] {
        for crashes in [false, true] {
            let cond = Cond::compare(alloc, word(second)?, Comparison::AtMost, word(0)?)?;
            assert!(rt; is_kept(alloc, text, cond, crashes)? == answer);
        }
    }
    Ok(())
}

/// A pointer that persists leads to a 7 that has persisted, where the 7 is flushed before the pointer is stored.
#[test]
fn a_pointer_persists_after_what_it_leads_to(rt: HostRuntime) -> Result<(), Fail> {
    let alloc = rt.alloc();
    for (text, answer) in [
        (
            "litmus 1\nline x\nline p\ncpu\nmov [x], 7\nclflush [x]\nmov [p], 4096\nend\n",
            true,
        ),
        (
            "litmus 1\nline x\nline p\ncpu\nmov [x], 7\nmov [p], 4096\nend\n",
            false,
        ),
    ] {
        for crashes in [false, true] {
            let p = WordId::new(8).ok_or("no word")?;
            let empty = Cond::test(Operand::Persisted(p), Comparison::Equal, 0);
            let found = word(8)?.persisted_at(alloc)?;
            let full = Cond::compare(alloc, found, Comparison::Equal, Term::number(7))?;
            let cond = empty.or(alloc, full)?;
            assert!(rt; is_kept(alloc, text, cond, crashes)? == answer);
        }
    }
    Ok(())
}
