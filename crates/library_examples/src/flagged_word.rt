//! A small persistent structure, and whether every crash of every run leaves it whole.
ghost use Rattle.std.specs.Prelude.{◌≡◌, ◌↔◌, true, IfOk, IsTrue};
ghost use Rattle.px86_machine.specs.EveryRun.{IsAlwaysKept, IsSound, IsVerdict};
ghost use Rattle.px86_machine.specs.Machine.{opening};
ghost use Rattle.library_examples.specs.EveryCrash.{every_crash};

use anyhow::{Result, bail};
use px86_machine::{
    Cond, ExploreFault, Machine, Object, OpenGate, Question, Verdict, explore, read_cond,
    read_litmus,
};
use std::alloc::{AllocError, Global};

/// A word, and the flag that says that it is there: the word is flushed before the flag is stored.
const FLUSHED: &str = "litmus 1\nline data\nline flag
cpu\nmov [data], 1\nclwb [data]\nsfence\nmov [flag], 1\nend\n";

/// The same without the flush.
const UNFLUSHED: &str = "litmus 1\nline data\nline flag
cpu\nmov [data], 1\nsfence\nmov [flag], 1\nend\n";

/// Where the flag is set, the word is there.
const RULE: &str = "persisted flag = 0 or persisted data = 1";

/// The question whether every memory that a crash may leave keeps a rule, in every state that any run reaches.
fn every_crash(rule: Cond) -> Question
    ensures { result ≡ every_crash rule }
{
    Question {
        crashes: true,
        all: Some(rule),
        ends: None,
        recovered: None,
        images: false,
    }
}

/// The loaded machine of an object. Its state is sound, as [`explore::check`] asks.
fn loaded(alloc: Global, object: &Object) -> Result<Machine, AllocError>
    ensures state { IfOk result (λ machine. machine ≡ opening object.now) }
    ensures sound { IfOk result (λ machine. IsSound machine) }
{
    // The law's premises are known of these two values. The three lines are for the proof, and do nothing else.
    explore::laws::loaded_machines_are_sound();
    let _shape = object.shape().words();
    let _values = object.values();
    Machine::load(alloc, object)
}

/// The verdict on every run of an object's machine, if no more than 1,000 states can be told apart.
fn verdict_on(alloc: Global, object: &Object, question: &Question) -> Result<Verdict, ExploreFault>
    ensures { IsVerdict question.now (opening object.now) 1000 result }
{
    let machine = loaded(alloc, object)?;
    explore::check(alloc, &machine, question, 1000, &OpenGate)
}

/// Whether every memory that a crash may leave keeps a rule, in every state that any run of an object's machine reaches. A run
/// may crash any number of times.
#[tactic(auto, using(crate::proofs::EveryCrash::holds, crate::proofs::EveryCrash::fails))]
pub fn is_kept(alloc: Global, object: &Object, rule: Cond) -> Result<bool>
    ensures { IfOk result (λ kept. IsTrue kept ↔ IsAlwaysKept true rule (opening object.now)) }
{
    match verdict_on(alloc, object, &every_crash(rule)) {
        Ok(Verdict::Holds(_)) => Ok(true),
        Ok(Verdict::Fails(_)) => Ok(false),
        Err(fault) => bail!("{:?}", fault),
    }
}

/// Whether an object's machine keeps the rule.
fn keeps_rule(alloc: Global, object: &Object) -> Result<bool> {
    let rule = read_cond(alloc, object.layout(), RULE.as_bytes())?;
    is_kept(alloc, object, rule)
}

/// Whether that of a program of this text does.
fn text_keeps_rule(alloc: Global, text: &str) -> Result<bool> {
    let object = read_litmus(alloc, text.as_bytes())?;
    let kept = keeps_rule(alloc, &object);
    drop(object);
    kept
}

/// Prints which of the two programs keeps the rule.
pub fn show(rt: &impl Print, alloc: Global) -> Result<()> {
    let flushed = text_keeps_rule(alloc, FLUSHED)?;
    let unflushed = text_keeps_rule(alloc, UNFLUSHED)?;
    println!(rt; "every crash keeps the rule: {flushed} with the flush, {unflushed} without")?;
    Ok(())
}
