//! Calls that find no memory. `tests/refused-memory` runs each of these tests many times, and each time refuses another
//! allocation that is made between [`refuse`] and [`spare`]. A call that meets the refusal answers that memory ran out
//! or what it answers otherwise, and the same call made again answers that. Without that library no call lacks memory.
use crate::ending_states::is_pending;
use crate::machines::{DRAIN, EXEC, ONE_WRITE, loaded};
use crate::refusals::{found, refuse, say, spare};
use crate::sessions::{go, is_attached, opened, turns};
use crate::states::are_same;
use commands::Metered;
use debugger::{Halt, Session, WordWatch};
use hunt::{
    EndCounts, Losses, Moment, Search, Tally, count_ends, count_losses, hunt, hunt_crashes,
    hunt_ended, tally,
};
use images::{Comparison, Cond, Image, ImageFault, Operand, count, list, products};
use isa::Object;
use lines_layout::WordId;
use litmus_text::{read_litmus, write_litmus};
use loader::{read_object, write_object};
use machine::{Machine, Step};
use schedule::{Plan, Range};
use std::alloc::{AllocError, Global};
use std::io::Eprint;
use std::sync::atomic::{AtomicU64, Ordering};
use std::sync::{Arc, Wait};
use std::test::Fail;
use std::thread::Threads;
use thread_jobs::{Resources, TextReports, share};
use workers::Gate;

/// Whether of two calls no answer is wrong, and at least one did not run out of memory.
fn one_is_right(answers: [Option<bool>; 2]) -> bool {
    match answers {
        [Some(first), Some(second)] => first && second,
        [Some(only), None] | [None, Some(only)] => only,
        [None, None] => false,
    }
}

/// A program in its written form.
const TEXT: &str =
    "litmus 1\nline x\nline y\ninit y 6\ncpu\nl0:\nmov [x], 1\nclflush [x]\njmp l0\nrecover\nmov rax, [y]\nend\n";

/// The object of a processor that writes 1 to the only word, x, flushes it and waits.
const OBJECT: [u8; 52] = [
    0x50, 0x58, 0x38, 0x36, 0x4F, 0x42, 0x4A, 0x32, 0x01, 0x01, 0x01, 0x78, 0, 0, 0, 0, 0, 0, 0, 0,
    0x01, 0x17, 0, 0, 0, 0x48, 0xC7, 0x04, 0x25, 0, 0x10, 0, 0, 0x01, 0, 0, 0, 0x0F, 0xAE, 0x3C,
    0x25, 0, 0x10, 0, 0, 0x0F, 0xAE, 0xF8, 0, 0, 0, 0,
];

/// Whether a text is read as the program that has this written form; none where memory runs out.
fn reads_text<R: Eprint>(rt: &R, alloc: Global) -> Option<bool> {
    refuse(rt);
    let answer = read_litmus(alloc, TEXT.as_bytes());
    spare(rt);
    let object = found(rt, answer)?;
    let written = write_litmus(alloc, &object);
    drop(object);
    match written {
        Ok(text) => Some(text.as_str() == TEXT),
        Err(_) => Some(false),
    }
}

/// The same of an object file, which has one spelling.
fn reads_object<R: Eprint>(rt: &R, alloc: Global) -> Option<bool> {
    refuse(rt);
    let answer = read_object(alloc, &OBJECT);
    spare(rt);
    let object = found(rt, answer)?;
    let written = write_object(alloc, &object);
    drop(object);
    match written {
        Ok(written) => Some(written.as_slice() == OBJECT.as_slice()),
        Err(_) => Some(false),
    }
}

#[test]
fn texts_are_read(rt: HostRuntime) {
    let alloc = rt.alloc();
    assert!(rt; one_is_right([reads_text(&rt, alloc), reads_text(&rt, alloc)]));
}

#[test]
fn objects_are_read(rt: HostRuntime) {
    let alloc = rt.alloc();
    assert!(rt; one_is_right([reads_object(&rt, alloc), reads_object(&rt, alloc)]));
}

/// Whether the machine of an object is in this state.
fn loads<R: Eprint>(rt: &R, alloc: Global, object: &Object, opening: &Machine) -> Option<bool> {
    refuse(rt);
    let answer = Machine::load(alloc, object).map_err(|_| "out of memory");
    spare(rt);
    let machine = found(rt, answer)?;
    let is_same = are_same(alloc, &machine.view(), &opening.view());
    drop(machine);
    Some(is_same)
}

/// Whether it is so of two calls, in the state that a machine was loaded in before.
fn loads_twice<R: Eprint>(rt: &R, alloc: Global, object: &Object) -> Option<[Option<bool>; 2]> {
    let opening = Machine::load(alloc, object).ok()?;
    let loads = [
        loads(rt, alloc, object, &opening),
        loads(rt, alloc, object, &opening),
    ];
    drop(opening);
    Some(loads)
}

#[test]
fn machines_are_loaded(rt: HostRuntime) -> Result<(), Fail> {
    let alloc = rt.alloc();
    let object = read_litmus(alloc, TEXT.as_bytes())?;
    let loads = loads_twice(&rt, alloc, &object);
    drop(object);
    assert!(rt; one_is_right(loads.ok_or("no memory")?));
    Ok(())
}

/// Whether one of the images has this value of the only word.
fn has_value(images: &[Image], value: u64) -> bool {
    images
        .iter()
        .any(|image| image.values() == [value].as_slice())
}

/// Whether there are two images, of 0 and of 1.
fn are_two(images: &[Image]) -> bool {
    images.len() == 2 && has_value(images, 0) && has_value(images, 1)
}

/// What was answered, with the fault that is said of images where memory was refused.
fn of_images(answer: Result<Vec<Image>, AllocError>) -> Result<Vec<Image>, ImageFault> {
    Ok(answer?)
}

/// Whether these are the images of a machine.
fn lists<R: Eprint>(rt: &R, alloc: Global, machine: &Machine) -> Option<bool> {
    refuse(rt);
    let countable = count(&machine.view())?;
    let answer = of_images(list(alloc, &countable));
    spare(rt);
    Some(are_two(&found(rt, answer)?))
}

/// Whether they are those that are formed before they are listed.
fn forms<R: Eprint>(rt: &R, alloc: Global, machine: &Machine) -> Option<bool> {
    refuse(rt);
    let answer = of_images(products(alloc, &machine.view()));
    spare(rt);
    Some(are_two(&found(rt, answer)?))
}

#[test]
fn images_are_listed(rt: HostRuntime) -> Result<(), Fail> {
    let alloc = rt.alloc();
    let mut machine = loaded(alloc, ONE_WRITE)?;
    let is_run = machine.run(&[EXEC, DRAIN]) == (2, None);
    let lists = [lists(&rt, alloc, &machine), lists(&rt, alloc, &machine)];
    let forms = [forms(&rt, alloc, &machine), forms(&rt, alloc, &machine)];
    drop(machine);
    assert!(rt; is_run && one_is_right(lists) && one_is_right(forms));
    Ok(())
}

/// What schedules have in common.
fn plan(length: u32) -> Plan {
    Plan {
        seed: 1,
        length,
        crash_after: None,
        lazy: false,
    }
}

/// Counts the schedules that were begun, and those that have ended.
#[derive(Drop)]
struct Counting {
    begun: AtomicU64,
    ended: AtomicU64,
}

impl Counting {
    /// None was begun.
    fn new() -> Counting {
        Counting {
            begun: AtomicU64::new(0),
            ended: AtomicU64::new(0),
        }
    }

    /// What was answered, unless memory ran out, which is said: also whether it did so within a schedule, which the gate was
    /// told of before.
    fn found<R: Eprint, T: Drop>(&self, rt: &R, answer: Result<T, AllocError>) -> Option<T> {
        let begun = self.begun.load(Ordering::SeqCst);
        let ended = self.ended.load(Ordering::SeqCst);
        match answer {
            Ok(value) => Some(value),
            Err(AllocError) if begun == ended.wrapping_add(1) => {
                say(rt, "out of memory in a schedule");
                None
            }
            Err(AllocError) => {
                say(rt, "out of memory");
                None
            }
        }
    }
}

impl Gate for Counting {
    fn claimed(&self, _number: u64) {
        self.begun.fetch_add(1, Ordering::SeqCst);
    }

    fn ended(&self, _number: u64) {
        self.ended.fetch_add(1, Ordering::SeqCst);
    }
}

/// Whether a tally has 257 schedules, all with the write pending at their ends.
fn has_257(tally: &Tally) -> bool {
    match tally.get(0) {
        Some((outcome, times)) => is_pending(outcome) && times == 257 && tally.len() == 1,
        None => false,
    }
}

/// Whether 257 schedules of two turns, more than a thread takes at a time, end in one way.
fn tallies<R: Threads + Eprint + Sync>(rt: &R, alloc: Global, machine: &Machine) -> Option<bool> {
    let range = Range::new(0, 257)?;
    let gate = Counting::new();
    refuse(rt);
    let answer = tally(rt, alloc, machine, &plan(2), range, &gate);
    spare(rt);
    let tally = gate.found(rt, answer)?;
    let is_right = has_257(&tally);
    drop(tally);
    Some(is_right)
}

#[test]
fn schedules_are_tallied(rt: HostRuntime) -> Result<(), Fail> {
    let alloc = rt.alloc();
    let machine = loaded(alloc, ONE_WRITE)?;
    let tallies = [tallies(&rt, alloc, &machine), tallies(&rt, alloc, &machine)];
    drop(machine);
    assert!(rt; one_is_right(tallies));
    Ok(())
}

/// Whether three schedules break a condition when the write has left the store buffer.
fn counts<R: Threads + Eprint + Sync>(rt: &R, alloc: Global, search: &Search) -> Option<bool> {
    let gate = Counting::new();
    refuse(rt);
    let answer = count_losses(rt, alloc, search, &gate);
    spare(rt);
    let losses = gate.found(rt, answer)?;
    let first = Some(Moment { number: 0, turn: 2 });
    Some(losses == Losses { broken: 3, first })
}

/// A search of so many schedules, each of which persists the write of 1 to the only word, where the condition wants 0.
fn search(alloc: Global, schedules: u64) -> Result<Search, Fail> {
    let x = WordId::new(0).ok_or("no word")?;
    let range = Range::new(0, schedules).ok_or("no numbers")?;
    Ok(Search {
        machine: loaded(alloc, ONE_WRITE)?,
        plan: plan(9),
        cond: Cond::test(Operand::Persisted(x), Comparison::Equal, 0),
        range,
    })
}

#[test]
fn losses_are_counted(rt: HostRuntime) -> Result<(), Fail> {
    let alloc = rt.alloc();
    let search = search(alloc, 3)?;
    let counts = [counts(&rt, alloc, &search), counts(&rt, alloc, &search)];
    drop(search);
    assert!(rt; one_is_right(counts));
    Ok(())
}

/// Whether three schedules come to their ends, where the write has persisted, and the condition is false.
fn counts_of_ends<R: Threads + Eprint + Sync>(
    rt: &R,
    alloc: Global,
    search: &Search,
) -> Option<bool> {
    let gate = Counting::new();
    refuse(rt);
    let answer = count_ends(rt, alloc, search, false, &gate);
    spare(rt);
    let counts = gate.found(rt, answer)?;
    let wanted = EndCounts {
        ended: 3,
        broken: 3,
        first: Some(0),
    };
    Some(counts == wanted)
}

#[test]
fn ends_are_counted(rt: HostRuntime) -> Result<(), Fail> {
    let alloc = rt.alloc();
    let search = search(alloc, 3)?;
    let counts = [
        counts_of_ends(&rt, alloc, &search),
        counts_of_ends(&rt, alloc, &search),
    ];
    drop(search);
    assert!(rt; one_is_right(counts));
    Ok(())
}

/// How often a worker that is held looks at the count, which takes about a thousandth of a second.
const LOOKS: u32 = 1_000_000;

/// Holds each worker for a while, and counts those that it holds. It does not ask for ends.
#[derive(Drop)]
struct Delaying {
    held: Arc<AtomicU64, Global>,
}

impl Gate for Delaying {
    fn claimed(&self, _number: u64) {
        self.held.fetch_add(1, Ordering::SeqCst);
        for _ in 0..LOOKS {
            self.held.load(Ordering::SeqCst);
        }
        self.held.fetch_sub(1, Ordering::SeqCst);
    }
}

/// A count of held workers, and a gate that keeps it.
fn held_gate(alloc: Global) -> Option<(Arc<AtomicU64, Global>, Delaying)> {
    let held = Arc::new(alloc, AtomicU64::new(0)).ok()?;
    let gate = Delaying {
        held: Arc::try_clone(&held).ok()?,
    };
    Some((held, gate))
}

/// Whether no worker is held, and none has a gate that shares this count.
fn have_ended(held: &Arc<AtomicU64, Global>) -> bool {
    held.load(Ordering::SeqCst) == 0 && Arc::strong_count(held) == 1
}

/// What was found, if all workers have ended by then; none where memory ran out, and no worker goes on.
fn when_all_ended(held: &Arc<AtomicU64, Global>, is_right: Option<bool>) -> Option<bool> {
    let have_ended = have_ended(held);
    match is_right {
        Some(is_right) => Some(have_ended && is_right),
        None if have_ended => None,
        None => Some(false),
    }
}

/// Whether a hunt of two workers answers number 0, whose schedule breaks the condition as all do; or memory runs out, and no worker goes on.
fn hunts<R: Threads + Eprint>(rt: &R, alloc: Global, search: &Search) -> Option<bool> {
    let (held, gate) = held_gate(alloc)?;
    refuse(rt);
    let answer = hunt(rt, alloc, search, 2, gate);
    spare(rt);
    let is_right = found(rt, answer).map(|least| least == Some(0));
    when_all_ended(&held, is_right)
}

/// The same of a hunt of crashes, whose workers take memory for images.
fn hunts_of_crashes<R: Threads + Eprint>(rt: &R, alloc: Global, search: &Search) -> Option<bool> {
    let (held, gate) = held_gate(alloc)?;
    refuse(rt);
    let answer = hunt_crashes(rt, alloc, search, 2, gate);
    spare(rt);
    let is_right = found(rt, answer).map(|loss| loss.is_some_and(|loss| loss.at.number == 0));
    when_all_ended(&held, is_right)
}

/// The same of a hunt of ends: each schedule comes to one.
fn hunts_of_ends<R: Threads + Eprint>(rt: &R, alloc: Global, search: &Search) -> Option<bool> {
    let (held, gate) = held_gate(alloc)?;
    refuse(rt);
    let answer = hunt_ended(rt, alloc, search, false, 2, gate);
    spare(rt);
    let is_right = found(rt, answer).map(|least| least == Some(0));
    when_all_ended(&held, is_right)
}

#[test]
fn hunters_end_before_the_answer(rt: HostRuntime) -> Result<(), Fail> {
    let alloc = rt.alloc();
    let search = search(alloc, 4)?;
    let hunts = [hunts(&rt, alloc, &search), hunts(&rt, alloc, &search)];
    drop(search);
    assert!(rt; one_is_right(hunts));
    Ok(())
}

#[test]
fn hunters_of_crashes_end_before_the_answer(rt: HostRuntime) -> Result<(), Fail> {
    let alloc = rt.alloc();
    let search = search(alloc, 4)?;
    let hunts = [
        hunts_of_crashes(&rt, alloc, &search),
        hunts_of_crashes(&rt, alloc, &search),
    ];
    drop(search);
    assert!(rt; one_is_right(hunts));
    Ok(())
}

#[test]
fn hunters_of_ends_end_before_the_answer(rt: HostRuntime) -> Result<(), Fail> {
    let alloc = rt.alloc();
    let search = search(alloc, 4)?;
    let hunts = [
        hunts_of_ends(&rt, alloc, &search),
        hunts_of_ends(&rt, alloc, &search),
    ];
    drop(search);
    assert!(rt; one_is_right(hunts));
    Ok(())
}

/// Whether three threads make their steps on one machine; or memory runs out, nothing is written, and no thread goes on.
fn shares<R: Threads + Wait + Eprint + Sync>(rt: &R, alloc: Global) -> Option<bool> {
    let (held, gate) = held_gate(alloc)?;
    let mut program = Metered::new(ONE_WRITE.as_bytes());
    let mut steps = Metered::new("exec 0\nexec 0\nexec 0\n".as_bytes());
    let mut out = Metered::new(Vec::with_capacity(alloc, 1000).ok()?);
    refuse(rt);
    let resources = Resources { rt, alloc, gate };
    let answer = share::<TextReports, _, _, _, _, _>(
        resources,
        3,
        &mut program,
        &mut steps,
        &mut out,
    );
    spare(rt);
    let have_ended = have_ended(&held);
    let text = out.into_inner();
    match found(rt, answer) {
        Some(_) => Some(have_ended && text.starts_with(b"journal 3\n0 ")),
        None if have_ended && text.is_empty() => None,
        None => Some(false),
    }
}

#[test]
fn threads_end_before_the_answer(rt: HostRuntime) {
    let alloc = rt.alloc();
    assert!(rt; one_is_right([shares(&rt, alloc), shares(&rt, alloc)]));
}

/// A processor that writes both words for ever.
const TWO_WRITES: &str =
    "litmus 1\nline x\nline y\ncpu\nl0:\nmov [x], 1\nmov [y], 1\njmp l0\nend\n";

/// Both words are written 30 times, and the writes leave the store buffer.
fn many_steps(alloc: Global) -> Result<Vec<Step>, AllocError> {
    let mut steps = Vec::new(alloc);
    for _ in 0..30 {
        steps.extend_from_slice(&[EXEC, EXEC, EXEC, DRAIN, DRAIN])?;
    }
    Ok(steps)
}

/// Whether all steps are made. Where memory runs out at one, a further call is of the steps from there on.
fn goes_on<R: Eprint>(rt: &R, session: &mut Session, steps: &[Step]) -> bool {
    refuse(rt);
    let mut halt = session.go(steps);
    if let Halt::NoMemory(at) = halt {
        say(rt, "G4 NoMemory");
        let Some(rest) = steps.get(at..) else {
            return false;
        };
        halt = session.go(rest);
    }
    spare(rt);
    halt == Halt::End
}

/// Whether the two watchers of both have the same notes, 30 each.
fn have_same_notes(one: &Session, other: &Session) -> bool {
    for place in 0..2 {
        let (Some(one), Some(other)) = (one.watchers.get(place), other.watchers.get(place)) else {
            return false;
        };
        if one.notes() != other.notes() || one.notes().len() != 30 {
            return false;
        }
    }
    true
}

/// Whether the word of a number is watched under an id.
fn watches(alloc: Global, session: &mut Session, id: u32, number: usize) -> Option<bool> {
    let word = WordId::new(number)?;
    let watch = Box::new(alloc, WordWatch::new(alloc, word)).ok()?;
    Some(is_attached(session, id, watch))
}

/// Whether both words are watched.
fn watches_both(alloc: Global, session: &mut Session) -> bool {
    watches(alloc, session, 1, 0) == Some(true) && watches(alloc, session, 2, 8) == Some(true)
}

/// Two watchers note the writes of two words. A session that found no memory at a step goes on from there, and ends with
/// the state and the notes of one that found all.
#[test]
fn a_session_goes_on(rt: HostRuntime) -> Result<(), Fail> {
    let alloc = rt.alloc();
    let steps = many_steps(alloc)?;
    let mut calm = opened(alloc, TWO_WRITES)?;
    let mut session = opened(alloc, TWO_WRITES)?;
    let are_watched = [
        watches_both(alloc, &mut calm),
        watches_both(alloc, &mut session),
    ];
    let halt = go(&mut calm, &steps);
    let goes_on = goes_on(&rt, &mut session, &steps);
    let facts = [
        are_same(alloc, &session.look(), &calm.look()),
        have_same_notes(&session, &calm),
        turns(&session) == 150,
    ];
    drop((session, calm, steps));
    assert!(rt; are_watched == [true; 2] && halt == Halt::End);
    assert!(rt; goes_on && facts == [true; 3]);
    Ok(())
}
