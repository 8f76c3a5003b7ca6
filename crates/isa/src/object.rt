//! The value of a program: what a text and a file of it say, and a machine is loaded from.
ghost use Rattle.std.specs.Prelude.{◌≡◌, ◌↔◌, true, IfOk, IfErr, IsOk, length, map};
ghost use Rattle.std.specs.List.{list_all};
ghost use Rattle.lines_layout.specs.Lines.{max_words};
ghost use Rattle.isa.specs.Loadables.{is_loadable, names_its_words, runs_on};
ghost use Rattle.lines_layout.specs.Values.{IsZeroElsewhere};
ghost use Rattle.isa.specs.Objects.{IsObject, made_of, shape};

use crate::{Instr, MAX_PROCESSORS, Program, Programs};
use lines_layout::{Layout, MAX_WORDS, Shape, WordId, WordValues};
use std::alloc::{AllocError, Global};
use std::marker::Model;

/// The names and the initial values of the words, and the programs of at most [`MAX_PROCESSORS`]
/// processors, which name no word but those. A number that is no word has the value 0, so that no
/// two objects are written alike.
#[derive(Debug, Drop)]
pub struct Object {
    layout: Layout,
    values: WordValues,
    processors: Vec<Programs>,
}

impl Model for Object {
    ghost use Rattle.isa.specs.Objects.{IsObject, Object};

    ghost Value = { Object };

    ghost view = { λ o. record { layout = o.layout; values = o.values; processors = o.processors.items } };

    ghost invariant = { λ o. IsObject (record { layout = o.layout; values = o.values; processors = o.processors.items }) };
}

impl Object {
    /// The object of these parts, if there are few enough processors, each word that a program names
    /// is a word of the layout, and each number that is no word of it has the value 0; otherwise what was
    /// given.
    pub fn new(
        layout: Layout,
        values: WordValues,
        processors: Vec<Programs>,
    ) -> Result<Object, (Layout, WordValues, Vec<Programs>)>
        ensures accepted { IsOk result
            ↔ ((is_loadable (map length layout) processors.items ≡ true) × IsZeroElsewhere (map length layout) values) }
        ensures object { IfOk result (λ o. o ≡ made_of layout values processors.items) }
        ensures back { IfErr result (λ given. given ≡ (layout, values, processors)) }
    {
        if processors.len() <= MAX_PROCESSORS
            && all_run_on(layout.shape(), &processors)
            && is_zero_elsewhere(layout.shape(), &values)
        {
            Ok(Object {
                layout,
                values,
                processors,
            })
        } else {
            Err((layout, values, processors))
        }
    }

    /// The object of these parts, which make one. It tests nothing.
    pub fn from_parts(layout: Layout, values: WordValues, processors: Vec<Programs>) -> Object
        requires { IsObject (made_of layout values processors.items) }
        ensures { result ≡ made_of layout values processors.items }
    {
        Object {
            layout,
            values,
            processors,
        }
    }

    /// The same object again, for a caller that is to hand one on and keep one. The only error is out of memory.
    pub fn of(alloc: Global, object: &Object) -> Result<Object, AllocError>
        ensures { IfOk result (λ o. o ≡ object.now) }
    {
        let layout = object.layout.copy(alloc)?;
        let values = object.values.copy(alloc)?;
        let processors = copy_all(alloc, &object.processors)?;
        Ok(Object {
            layout,
            values,
            processors,
        })
    }

    /// The cache lines of the memory, each with the names of its words.
    pub fn layout(&self) -> &Layout
        ensures { result.now ≡ self.now.layout }
    {
        &self.layout
    }

    /// How many words each line has.
    pub fn shape(&self) -> &Shape
        ensures { result.now ≡ shape self.now }
    {
        self.layout.shape()
    }

    /// The initial value of each word. A number that is no word has the value 0.
    pub fn values(&self) -> &WordValues
        ensures value { result.now ≡ self.now.values }
        ensures object { IsObject self.now }
    {
        &self.values
    }

    /// The programs of the processors, in order: at most [`MAX_PROCESSORS`].
    pub fn processors(&self) -> &[Programs]
        ensures value { result.now ≡ self.now.processors }
        ensures loadable { is_loadable (shape self.now) self.now.processors ≡ true }
    {
        self.processors.as_slice()
    }
}

/// The programs of each processor again.
fn copy_all(alloc: Global, processors: &[Programs]) -> Result<Vec<Programs>, AllocError>
    ensures { IfOk result (λ copies. copies.items ≡ processors.now) }
{
    let mut copies = Vec::with_capacity(alloc, processors.len())?;
    for programs in processors {
        copies.push(programs.copy(alloc)?)?;
    }
    Ok(copies)
}

/// Whether an instruction names no word but those of the shape.
fn names_its_words(shape: &Shape, instr: &Instr) -> bool
    ensures { result ≡ names_its_words shape.now instr.now }
{
    match instr.word_named() {
        Some(word) => shape.has_word(word),
        None => true,
    }
}

/// Whether a program names no word but those of the shape.
fn all_name_its_words(shape: &Shape, program: &Program) -> bool
    ensures { result ≡ list_all (names_its_words shape.now) program.now }
{
    let instructions = program.instructions();
    instructions.iter().all(|i| names_its_words(shape, i))
}

/// Whether the programs of a processor name no word but those of the shape.
fn runs_on(shape: &Shape, programs: &Programs) -> bool
    ensures { result ≡ runs_on shape.now programs.now }
{
    all_name_its_words(shape, &programs.main) && all_name_its_words(shape, &programs.recovery)
}

/// Whether no program of any processor names a word but those of the shape.
fn all_run_on(shape: &Shape, processors: &[Programs]) -> bool
    ensures { result ≡ list_all (runs_on shape.now) processors.now }
{
    processors.iter().all(|p| runs_on(shape, p))
}

/// Whether each number that is no word of the shape has the value 0.
fn is_zero_elsewhere(shape: &Shape, values: &WordValues) -> bool
    ensures count { length values.now ≡ max_words }
    ensures zero { (result ≡ true) ↔ IsZeroElsewhere shape.now values.now }
{
    for number in 0..MAX_WORDS {
        let word = WordId::new(number).unwrap();
        if values.get(word) != 0 && !shape.has_word(word) {
            return false;
        }
    }
    true
}
