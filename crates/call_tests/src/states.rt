//! Whether two machines are in one state.
use isa::REGISTERS;
use lines_layout::WordId;
use machine::View;
use std::alloc::Global;

/// Whether a processor of both is at one place, with the same registers and store buffer.
fn has_same_cpu(one: &View<'_>, other: &View<'_>, p: usize) -> bool {
    let facts = [
        one.place(p) == other.place(p),
        one.recovering(p) == other.recovering(p),
        one.halted(p) == other.halted(p),
        one.trap(p) == other.trap(p),
        one.zf(p) == other.zf(p),
        one.buffer(p) == other.buffer(p),
    ];
    for register in REGISTERS {
        if one.reg(p, register) != other.reg(p, register) {
            return false;
        }
    }
    facts == [true; 6]
}

/// Whether both have as many processors, each in one state.
fn have_same_cpus(one: &View<'_>, other: &View<'_>) -> bool {
    for p in 0..one.cpus() {
        if !has_same_cpu(one, other, p) {
            return false;
        }
    }
    one.cpus() == other.cpus()
}

/// Whether each word of both has the same values.
fn have_same_words(one: &View<'_>, other: &View<'_>) -> bool {
    for number in 0..512 {
        let Some(word) = WordId::new(number) else {
            return false;
        };
        if one.coherent(word) != other.coherent(word)
            || one.persisted(word) != other.persisted(word)
        {
            return false;
        }
    }
    true
}

/// Whether the same is pending in both.
fn have_same_pending(alloc: Global, one: &View<'_>, other: &View<'_>) -> bool {
    match (one.pending_list(alloc), other.pending_list(alloc)) {
        (Ok(one), Ok(other)) => one.as_slice() == other.as_slice(),
        _ => false,
    }
}

/// Whether two machines are in one state: their counts, processors, words and pending lists are the same.
pub fn are_same(alloc: Global, one: &View<'_>, other: &View<'_>) -> bool {
    one.turns() == other.turns()
        && one.crashes() == other.crashes()
        && have_same_cpus(one, other)
        && have_same_words(one, other)
        && have_same_pending(alloc, one, other)
}
