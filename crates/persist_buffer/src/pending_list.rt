//! The pending list as it is kept: in rings, whose room is taken whole when they are made, so that no
//! step needs memory.
ghost use Rattle.std.specs.Prelude.{◌≡◌, ◌<◌, ◌≤◌, ◌+◌, [], ◌∷◌, ◌++◌, find, count_by, length, IfOk, IsSome, None, Some};
ghost use Rattle.std.specs.List.{list_any};
ghost use Rattle.lines_layout.specs.Lines.{line_of, max_lines};
ghost use Rattle.persist_buffer.specs.Limits.{line_room, marker_room, serial_limit};
ghost use Rattle.persist_buffer.specs.Memories.{is_write_on, is_marker};
ghost use Rattle.persist_buffer.specs.Listings.{before_marker, IsNthMarker, IsNthWrite, LinesBelow};
ghost use Rattle.persist_buffer.specs.Rings.{entries};
ghost use Rattle.persist_buffer.specs.Firsts.{drop_first, before_first};
ghost use Rattle.persist_buffer.specs.Nexts.{FindsMarker, FindsWrite};
ghost use Rattle.persist_buffer.specs.declared.entry.PendingEntry.TheVariants.{Write, Marker};

use crate::entry::PendingEntry;
use crate::ring::StampedEntry;
use crate::rings::{MARKERS, Rings, ring_of_line};
use lines_layout::{LineId, WordId};
use std::alloc::{AllocError, Global};
use std::marker::Model;

/// The pending list, oldest entry first. It counts its entries, so that an empty list is seen without a
/// look at each ring: where many schedules are run, one machine is set back before each of them.
#[derive(Drop)]
pub struct PendingList {
    rings: Rings,
    len: u64,
}

impl Model for PendingList {
    ghost use Rattle.std.specs.Prelude.{◌≡◌, List, length};
    ghost use Rattle.persist_buffer.specs.declared.entry.PendingEntry.{PendingEntry};
    ghost use Rattle.persist_buffer.specs.Rings.{entries};

    ghost Value = { List PendingEntry };

    ghost view = { λ p. entries p.rings.stamped };

    ghost invariant = { λ p. p.len ≡ length p.rings.stamped };
}

/// Entries without their serials.
fn entries(alloc: Global, stamped: &[StampedEntry]) -> Result<Vec<PendingEntry>, AllocError>
    ensures { IfOk result (λ list. list.items ≡ entries stamped.now) }
{
    stamped.iter().map(|s| s.entry).collect(alloc)
}

impl PendingList {
    /// The empty list, with its room; the first entry gets this serial. The only error is that memory ran out.
    pub fn starting_at(alloc: Global, serial: u64) -> Result<PendingList, AllocError>
        requires { serial ≤ serial_limit }
        ensures { IfOk result (λ p. p ≡ []) }
    {
        let rings = Rings::starting_at(alloc, serial)?;
        Ok(PendingList { rings, len: 0 })
    }

    /// An equal list, with its own room. The only error is that memory ran out.
    pub fn copy(&self, alloc: Global) -> Result<PendingList, AllocError>
        ensures { IfOk result (λ p. p ≡ self.now) }
    {
        let rings = self.rings.copy(alloc)?;
        let len = self.len;
        Ok(PendingList { rings, len })
    }

    /// Makes the entries those of another list. It takes no memory.
    pub fn restore(&mut self, from: &PendingList)
        ensures { self.new ≡ from.now }
    {
        if self.len == 0 && from.len == 0 {
            return;
        }
        self.rings.restore(&from.rings);
        self.len = from.len;
    }

    /// The entries, oldest first. The only error is that memory ran out.
    pub fn list(&self, alloc: Global) -> Result<Vec<PendingEntry>, AllocError>
        ensures { IfOk result (λ list. list.items ≡ self.now) }
    {
        let stamped = self.rings.list(alloc)?;
        let list = entries(alloc, stamped.as_slice())?;
        Ok(list)
    }

    /// Drops all entries.
    pub fn clear(&mut self)
        ensures { self.new ≡ [] }
    {
        if self.len > 0 {
            self.rings.clear();
            self.len = 0;
        }
    }

    /// How many entries there are.
    pub fn len(&self) -> usize
        ensures { result ≡ length self.now }
    {
        self.len as usize
    }

    /// How many writes of a line there are. Each write is of a line that a layout can have.
    pub fn writes(&self, line: LineId) -> usize
        ensures value { result ≡ count_by (is_write_on line) self.now }
        ensures lines { LinesBelow max_lines self.now }
    {
        self.rings.count(ring_of_line(line))
    }

    /// Each write is of a line that a layout can have. It is a law, and does nothing.
    pub fn keeps_to_lines(&self)
        ensures { LinesBelow max_lines self.now }
    {
        self.rings.keep_to_lines();
    }

    /// Write i of a line, from 0 and oldest first.
    pub fn write(&self, line: LineId, i: usize) -> (WordId, u64)
        requires { i < count_by (is_write_on line) self.now }
        ensures { IsNthWrite line i result self.now }
    {
        let found = self.rings.nth(ring_of_line(line), i);
        let PendingEntry::Write(word, value) = found.entry else {
            unreachable!()
        };
        (word, value)
    }

    /// The oldest write of a line.
    pub fn oldest_write(&self, line: LineId) -> Option<(WordId, u64)>
        ensures { FindsWrite line self.now result }
    {
        let Some(found) = self.rings.front(ring_of_line(line)) else {
            return None;
        };
        let PendingEntry::Write(word, value) = found.entry else {
            unreachable!()
        };
        Some((word, value))
    }

    /// Whether a marker is before the oldest write of a line, which is there.
    pub fn marker_stands_before(&self, line: LineId) -> bool
        requires { IsSome (find (is_write_on line) self.now) }
        ensures { result ≡ list_any is_marker (before_first (is_write_on line) self.now) }
    {
        self.rings.stands_before(MARKERS, ring_of_line(line))
    }

    /// Appends a write.
    pub fn push_write(&mut self, word: WordId, value: u64)
        requires { count_by (is_write_on (line_of word)) self.old < line_room }
        ensures { self.new ≡ self.old ++ Write word value ∷ [] }
    {
        self.rings.ensure_serial();
        self.rings.push(PendingEntry::Write(word, value));
        self.len += 1;
    }

    /// Drops the oldest write of a line, which is there.
    pub fn pop_write(&mut self, line: LineId)
        requires { IsSome (find (is_write_on line) self.old) }
        ensures { self.new ≡ drop_first (is_write_on line) self.old }
    {
        self.rings.pop(ring_of_line(line));
        self.len -= 1;
    }

    /// How many markers there are.
    pub fn markers(&self) -> usize
        ensures { result ≡ count_by is_marker self.now }
    {
        self.rings.count(MARKERS)
    }

    /// The line of marker k, from 0 and oldest first.
    pub fn marker(&self, k: usize) -> LineId
        requires { k < count_by is_marker self.now }
        ensures { IsNthMarker k result self.now }
    {
        let found = self.rings.nth(MARKERS, k);
        let PendingEntry::Marker(line) = found.entry else {
            unreachable!()
        };
        line
    }

    /// The line of the oldest marker.
    pub fn oldest_marker(&self) -> Option<LineId>
        ensures { FindsMarker self.now result }
    {
        let Some(found) = self.rings.front(MARKERS) else {
            return None;
        };
        let PendingEntry::Marker(line) = found.entry else {
            unreachable!()
        };
        Some(line)
    }

    /// Whether a write of a line is before the oldest marker, which is there.
    pub fn write_stands_before(&self, line: LineId) -> bool
        requires { IsSome (find is_marker self.now) }
        ensures { result ≡ list_any (is_write_on line) (before_first is_marker self.now) }
    {
        self.rings.stands_before(ring_of_line(line), MARKERS)
    }

    /// Appends a marker.
    pub fn push_marker(&mut self, line: LineId)
        requires { count_by is_marker self.old < marker_room }
        ensures { self.new ≡ self.old ++ Marker line ∷ [] }
    {
        self.rings.ensure_serial();
        self.rings.push(PendingEntry::Marker(line));
        self.len += 1;
    }

    /// Drops the oldest marker, which is there.
    pub fn pop_marker(&mut self)
        requires { IsSome (find is_marker self.old) }
        ensures { self.new ≡ drop_first is_marker self.old }
    {
        self.rings.pop(MARKERS);
        self.len -= 1;
    }

    /// How many writes of a line are before marker k, from 0; where there are k markers, all of them.
    pub fn writes_before(&self, line: LineId, k: usize) -> usize
        requires { k ≤ count_by is_marker self.now }
        ensures { result ≡ count_by (is_write_on line) (before_marker k self.now) }
    {
        self.rings.count_before(ring_of_line(line), MARKERS, k)
    }
}
