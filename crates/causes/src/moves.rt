//! Steps that let writes go on.
ghost use Rattle.std.specs.Prelude.{◌≡◌, true, IfOk, Some};
ghost use Rattle.machine.specs.State.{persisted_at};
ghost use Rattle.causes.specs.Enough.{LeadsOn, acts};

use image_reasons::Missing;
use machine::{Entry, Machine, PendingEntry, Refusal, Step};
use pending_images::{Image, closed_set};
use std::alloc::{AllocError, Global};

/// Whether a step runs an instruction, or crashes.
fn acts(step: Step) -> bool
    ensures { result ≡ acts step }
{
    match step {
        Step::Exec(_) | Step::Crash => true,
        Step::Drain(..) | Step::Persist(_) | Step::Settle => false,
    }
}

/// Makes a step, if it lets writes go on and the machine accepts it: whether it did.
#[tactic(auto, using(crate::proofs::Leads::leads_by_a_step, crate::proofs::Leads::leads_nowhere))]
fn go_on(machine: &mut Machine, step: Step) -> bool
    ensures { LeadsOn machine.old machine.new }
{
    if acts(step) {
        return false;
    }
    match machine.step(step) {
        Ok(_) => true,
        Err(_) => false,
    }
}

/// Whether a step is refused because a marker is before the line's oldest write.
fn is_behind_marker(machine: &Machine, line: u32) -> bool {
    matches!(
        machine.check(Step::Persist(line)),
        Some(Refusal::BehindMarker)
    )
}

/// The line of the oldest pending marker, if there is one. The only error is out of memory.
fn first_marker(alloc: Global, machine: &Machine) -> Result<Option<u32>, AllocError> {
    let entries = machine.view().pending_list(alloc)?;
    for entry in &entries {
        if let PendingEntry::Marker(line) = entry {
            return Ok(Some(line.number() as u32));
        }
    }
    Ok(None)
}

/// Makes a step after which the oldest pending write of a line is nearer to being persisted: it persists; or, where it is behind a marker,
/// the oldest marker settles, or a write of that marker's line persists. Whether there was one. The only error is out of memory.
#[tactic(auto, using(crate::proofs::Leads::leads_further, crate::proofs::Leads::leads_nowhere))]
fn persist_nearer(alloc: Global, machine: &mut Machine, line: u32) -> Result<bool, AllocError>
    ensures { LeadsOn machine.old machine.new }
{
    if !is_behind_marker(machine, line) {
        return Ok(go_on(machine, Step::Persist(line)));
    }
    if go_on(machine, Step::Settle) {
        return Ok(true);
    }
    match first_marker(alloc, machine)? {
        Some(marked) => Ok(go_on(machine, Step::Persist(marked))),
        None => Ok(false),
    }
}

/// Whether a missing write has persisted: its word has its value.
pub(crate) fn is_there(machine: &Machine, write: &Missing) -> bool
    ensures { result ≡ true → persisted_at machine.now write.now.word ≡ Some write.now.value }
{
    match machine.view().persisted(write.word) {
        Some(value) => value == write.value,
        None => false,
    }
}

/// Persists writes of a missing write's line, and what has to go before them, until it has persisted or none is left. The only
/// error is out of memory.
#[tactic(auto, using(crate::proofs::Leads::leads_further, crate::proofs::Leads::leads_nowhere))]
fn persist_up_to(alloc: Global, machine: &mut Machine, write: &Missing) -> Result<(), AllocError>
    ensures { LeadsOn machine.old machine.new }
{
    let line = write.word.line().number() as u32;
    for _ in 0..machine.view().pending().len() {
        if is_there(machine, write) || !persist_nearer(alloc, machine, line)? {
            return Ok(());
        }
    }
    Ok(())
}

/// How many entries a processor's store buffer has.
fn buffered(machine: &Machine, p: u32) -> usize {
    match machine.view().buffer(p as usize) {
        Some(buffer) => buffer.len(),
        None => 0,
    }
}

/// Whether an entry of a store buffer is what a missing write left there.
fn is_of(entry: &Entry, write: &Missing) -> bool {
    match entry {
        Entry::Write(word, value) => *word == write.word && *value == write.value,
        Entry::Flush(_) | Entry::FlushOpt(_) | Entry::Sfence => false,
    }
}

/// The place of a missing write in its store buffer, if it is there.
fn buffered_at(machine: &Machine, write: &Missing) -> Option<usize> {
    let buffer = machine.view().buffer(write.site.processor as usize)?;
    buffer.iter().position(|entry| is_of(entry, write))
}

/// The step by which the entry at a place of a processor's store buffer leaves it.
fn drain_at(p: u32, place: usize) -> Step {
    Step::Drain(p, u32::try_from(place).unwrap_or(u32::MAX))
}

/// The place from which an entry of a processor's store buffer is left next, so that the one at a place leaves: its own, or where others hold
/// it, that of the oldest; and where others hold this, that of the oldest of them.
fn first_place(machine: &Machine, p: u32, place: usize) -> usize {
    let mut first = place;
    for _ in 0..place {
        match machine.check(drain_at(p, first)) {
            Some(Refusal::Held(oldest)) => first = oldest,
            Some(_) | None => return first,
        }
    }
    first
}

/// Lets a missing write leave its store buffer, or an entry that holds it there: whether one left.
#[tactic(auto, using(crate::proofs::Leads::leads_nowhere))]
fn drain_nearer(machine: &mut Machine, write: &Missing) -> bool
    ensures { LeadsOn machine.old machine.new }
{
    let p = write.site.processor;
    match buffered_at(machine, write) {
        Some(place) => {
            let first = first_place(machine, p, place);
            go_on(machine, drain_at(p, first))
        }
        None => false,
    }
}

/// Where a missing write has not persisted, lets it, or an entry that holds it, leave its store buffer, and persists what it can of its line:
/// whether an entry left. The only error is out of memory.
#[tactic(auto, using(crate::proofs::Leads::leads_further, crate::proofs::Leads::leads_nowhere))]
fn drain_and_persist(
    alloc: Global,
    machine: &mut Machine,
    write: &Missing,
) -> Result<bool, AllocError>
    ensures { LeadsOn machine.old machine.new }
{
    if is_there(machine, write) || !drain_nearer(machine, write) {
        return Ok(false);
    }
    persist_up_to(alloc, machine, write)?;
    Ok(true)
}

/// Lets a missing write go on until it has persisted, as far as that is found: of its store buffer those entries leave that hold it, and then
/// itself. The only error is out of memory.
#[tactic(auto, using(crate::proofs::Leads::leads_further, crate::proofs::Leads::leads_nowhere))]
pub(crate) fn let_go_on(
    alloc: Global,
    machine: &mut Machine,
    write: &Missing,
) -> Result<(), AllocError>
    ensures { LeadsOn machine.old machine.new }
{
    persist_up_to(alloc, machine, write)?;
    for _ in 0..buffered(machine, write.site.processor) {
        if !drain_and_persist(alloc, machine, write)? {
            return Ok(());
        }
    }
    Ok(())
}

/// The step by which a pending entry goes.
fn leaving(entry: PendingEntry) -> Step {
    match entry {
        PendingEntry::Write(word, _) => Step::Persist(word.line().number() as u32),
        PendingEntry::Marker(_) => Step::Settle,
    }
}

/// Lets the pending entries at these places go on, in order.
#[tactic(auto, using(crate::proofs::Leads::leads_further, crate::proofs::Leads::leads_nowhere))]
fn let_all_go(machine: &mut Machine, entries: &[PendingEntry], places: &[usize])
    ensures { LeadsOn machine.old machine.new }
{
    for place in places {
        if let Some(entry) = entries.get(*place) {
            go_on(machine, leaving(*entry));
        }
    }
}

/// Persists what an image has, by the least closed set that leaves it, if there is one. The only error is out of memory.
#[tactic(auto, using(crate::proofs::Leads::leads_further, crate::proofs::Leads::leads_nowhere))]
pub(crate) fn persist_image(
    alloc: Global,
    machine: &mut Machine,
    image: &Image,
) -> Result<(), AllocError>
    ensures { LeadsOn machine.old machine.new }
{
    if let Some(places) = closed_set(alloc, machine.view().pending(), image)? {
        let entries = machine.view().pending_list(alloc)?;
        let_all_go(machine, &entries, &places);
    }
    Ok(())
}
