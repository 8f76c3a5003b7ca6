//! Words as JSON.
ghost use Rattle.std.specs.Prelude.{◌≡◌, ◌<◌, ◌≤◌, ◌*◌, IfOk, IsTrue, OnOk, length, map, slice_index};
ghost use Rattle.lines_layout.specs.Lines.{has_word, line_words, max_lines};
ghost use Rattle.json_texts.specs.Objects.{list, GetsItems, IsJsonOf};
ghost use Rattle.json_texts.specs.StateData.{lines_from, word_data, words_from};

use lines_layout::{LINE_WORDS, Layout, Name, WordId};
use machine::View;
use serde_json::{Value, json, push};
use std::alloc::{AllocError, Global};

/// A word of this name, and the number of its cache line.
fn word_value(alloc: Global, view: &View<'_>, name: &str, word: WordId) -> Result<Value, AllocError>
    requires { IsTrue (has_word view.now.shape word) }
    ensures { IfOk result (IsJsonOf (word_data view.now.memory name.now word)) }
{
    let coherent = view.coherent(word).unwrap();
    let persisted = view.persisted(word).unwrap();
    let line = word.line().number() as u64;
    json!(in alloc; {
        "word": name, "cache_line": line, "coherent": coherent, "persisted": persisted
    })
}

/// Appends the words of the cache line of this number, which have these names.
fn push_line_words(
    words: &mut Vec<Value>,
    alloc: Global,
    view: &View<'_>,
    number: usize,
    names: &[Name],
) -> Result<(), AllocError>
    requires few { number < max_lines }
    requires short { length names.now ≤ line_words }
    requires named { slice_index view.now.shape number ≡ length names.now }
    ensures { OnOk result (GetsItems words.old.items words.new.items
        (words_from view.now.memory (line_words * number) names.now)) }
{
    for (place, name) in names.iter().enumerate() {
        let word = WordId::new(LINE_WORDS * number + place).unwrap();
        push(words, word_value(alloc, view, name.as_str(), word)?)?;
    }
    Ok(())
}

/// The words of all cache lines, in order of number.
#[tactic(auto, using(crate::proofs::Items::list_steps))]
pub(crate) fn words_value(
    alloc: Global,
    view: &View<'_>,
    layout: &Layout,
) -> Result<Value, AllocError>
    requires { view.now.shape ≡ map length layout.now }
    ensures { IfOk result (IsJsonOf (list (lines_from view.now.memory 0 layout.now))) }
{
    let mut words = Vec::new(alloc);
    for (number, line) in layout.lines().iter().enumerate() {
        push_line_words(&mut words, alloc, view, number, line.names())?;
    }
    Ok(Value::from(words))
}
