//! Cache lines, entries and addresses in the words of a program.
use crate::parts::Pushed;
use commands::word_name;
use lines_layout::{Layout, LineId, Name, WordId};
use machine::Entry;

/// Appends names in brackets, if there are any.
fn push_names(text: &mut String, names: &[Name]) -> Pushed {
    for (place, name) in names.iter().enumerate() {
        text.push_str(if place == 0 { " (" } else { " " })?;
        text.push_str(name.as_str())?;
    }
    text.push_str(if names.is_empty() { "" } else { ")" })
}

/// Appends a cache line with its words, as `line 0 (a b)`.
pub(crate) fn push_line(text: &mut String, layout: &Layout, line: usize) -> Pushed {
    write!(text, "line {line}")?;
    match layout.lines().get(line) {
        Some(named) => push_names(text, named.names()),
        None => Ok(()),
    }
}

/// Appends what a write is called, by its word.
pub(crate) fn push_write(text: &mut String, layout: &Layout, word: WordId) -> Pushed {
    text.push_str("the write of ")?;
    text.push_str(word_name(layout, word))
}

/// Appends what a flush is called, by its cache line.
pub(crate) fn push_flush(text: &mut String, layout: &Layout, line: LineId) -> Pushed {
    text.push_str("the flush of ")?;
    push_line(text, layout, line.number())
}

/// Appends what an entry of a store buffer is called.
pub(crate) fn push_entry(text: &mut String, layout: &Layout, entry: Entry) -> Pushed {
    match entry {
        Entry::Write(word, _) => push_write(text, layout, word),
        Entry::Flush(line) => push_flush(text, layout, line),
        Entry::FlushOpt(line) => {
            text.push_str("the optimized flush of ")?;
            push_line(text, layout, line.number())
        }
        Entry::Sfence => text.push_str("the sfence"),
    }
}
