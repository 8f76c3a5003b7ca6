//! The index of the newest writes: for each word the place after its newest buffered write, 0 where
//! none is buffered.
ghost use Rattle.std.specs.Prelude.{◌≤◌, length};
ghost use Rattle.store_buffer.specs.Buffers.{buffer_room};
ghost use Rattle.store_buffer.specs.Indexes.{AreNotedFrom, IsNoted};

use crate::entry::Entry;
use lines_layout::MAX_WORDS;

/// Notes an entry: where it is a write, `after` is the place after the newest of its word.
pub fn note(after_newest: &mut [u8; MAX_WORDS], entry: &Entry, after: usize)
    requires { after ≤ buffer_room }
    ensures { IsNoted after_newest.old after_newest.new entry.now after }
{
    if let Entry::Write(word, _) = entry {
        after_newest[word.number()] = after as u8;
    }
}

/// Notes the entries from place i on, oldest first.
pub fn note_from(after_newest: &mut [u8; MAX_WORDS], entries: &[Entry], i: usize)
    requires within { i ≤ length entries.now }
    requires room { length entries.now ≤ buffer_room }
    ensures { AreNotedFrom after_newest.old after_newest.new entries.now i }
{
    for place in i..entries.len() {
        note(after_newest, &entries[place], place + 1);
    }
}
