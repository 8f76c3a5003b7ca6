//! What each line may still leave: in place of the order of what is pending, the values that it had since its last marker.
ghost use Rattle.std.specs.Prelude.{◌≡◌, ◌*◌, ◌+◌, ◌++◌, ◌<◌, ◌≤◌, [], ◌∷◌, ℕ, IfOk, List, OnOk, filter, map, nat_eq, not, slice_index, slice_set};
ghost use Rattle.std.specs.List.{range_with_len};
ghost use Rattle.std.specs.Cmp.Lexicographic.{pointwise};
ghost use Rattle.lines_layout.specs.Lines.{line_words, max_words};
ghost use Rattle.persist_buffer.specs.Listings.{writes_on};
ghost use Rattle.explore.specs.LineSets.{Held, held_by, held_through, held_with, others};

use crate::asked::low;
use crate::key::push_values;
use crate::numbers::{Numbers, sort};
use lines_layout::{LINE_WORDS, LineId};
use persist_buffer::Pending;
use std::alloc::{AllocError, Global};
use std::marker::Model;

/// The values of a line's words, and those that they had since the line's last marker.
#[derive(Drop)]
struct Held {
    values: Vec<u64>,
    passed: Vec<Numbers>,
}

impl Model for Held {
    ghost use Rattle.explore.specs.LineSets.{Held};

    ghost Value = { Held };

    ghost view = { λ h. record { values = h.values.items; passed = h.passed.items } };
}

/// Sets the value at a place, where there is one.
fn set(values: &mut [u64], place: usize, value: u64)
    ensures { values.new ≡ slice_set values.old place value }
{
    if place < values.len() {
        values[place] = value;
    }
}

impl Held {
    /// The values once a write of the line has come: those before it are noted, unless a marker of the line is behind it.
    fn pass(
        &mut self,
        alloc: Global,
        settled: bool,
        place: usize,
        value: u64,
    ) -> Result<(), AllocError>
        ensures { OnOk result (self.new ≡ held_with settled place value self.old) }
    {
        if !settled {
            self.passed.push(Numbers::copied(alloc, &self.values)?)?;
        }
        set(&mut self.values, place, value);
        Ok(())
    }

    /// The values once all pending writes of a line have come, of which so many are before its last marker.
    fn pass_all(
        &mut self,
        alloc: Global,
        pending: &Pending,
        line: LineId,
        settled: usize,
    ) -> Result<(), AllocError>
        ensures { OnOk result (self.new ≡ held_through settled self.old (writes_on line pending.now.memory.pending)) }
    {
        for i in 0..pending.writes(line) {
            let (word, value) = pending.write(line, i);
            self.pass(alloc, i < settled, word.number() % LINE_WORDS, value)?;
        }
        Ok(())
    }
}

/// Drops those of some lists that are these values.
fn drop_like(lists: &mut Vec<Numbers>, values: &[u64])
    ensures { lists.new.items ≡ filter (λ list. not (pointwise nat_eq list values.now)) lists.old.items }
{
    lists.retain(|list| list.values() != values);
}

/// The values that a line of so many words had since its last marker, and has no more: ascending, each once.
pub(crate) fn others(
    alloc: Global,
    pending: &Pending,
    line: LineId,
    count: usize,
) -> Result<Vec<Numbers>, AllocError>
    requires { line_words * line + count ≤ max_words }
    ensures { IfOk result (λ found. found.items ≡ others (held_by pending.now.memory line count)) }
{
    let settled = low(pending, line, pending.markers());
    if settled == pending.writes(line) {
        return Ok(Vec::new(alloc));
    }
    let mut values = Vec::with_capacity(alloc, LINE_WORDS)?;
    push_values(&mut values, LINE_WORDS * line.number(), count, pending)?;
    let mut held = Held {
        values,
        passed: Vec::new(alloc),
    };
    held.pass_all(alloc, pending, line, settled)?;
    let Held { values, mut passed } = held;
    sort(&mut passed);
    drop_like(&mut passed, &values);
    Ok(passed)
}
