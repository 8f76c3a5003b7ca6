//! What the tokens of an item may name.
ghost use Rattle.std.specs.Prelude.{◌≡◌, ◌++◌, ◌∷◌, [], IfOk, None, OnOk, Some, MatchOption};
ghost use Rattle.questions.specs.Scopes.{entry_named, is_item_name};

use crate::sum::Sum;
use crate::token::is_keyword;
use conditions::Cond;
use lines_layout::is_name;
use sheets::Names;
use std::alloc::{AllocError, Global};
use std::marker::Model;

/// What a name stands for.
#[derive(Drop)]
pub enum Meaning {
    /// A condition.
    Condition(Cond),
    /// A value.
    Value(Sum),
}

/// What an earlier item named.
#[derive(Drop)]
pub struct Entry {
    /// The name.
    pub name: Vec<u8>,
    /// What it stands for.
    pub meaning: Meaning,
    /// How large it is: its numbers, words and registers, its `not`s and square brackets.
    pub size: u32,
}

impl Model for Entry {
    ghost use Rattle.conditions.specs.FormulaCodes.{coded_formula};
    ghost use Rattle.conditions.specs.TermCodes.{coded_term};
    ghost use Rattle.std.specs.Coded.{codes};
    ghost use Rattle.questions.specs.Scopes.{Entry};

    ghost Value = { Entry };

    ghost coded = { Prim.hlevel (codes, coded_formula, coded_term) };

    ghost view = { λ e. record { name = e.name.items; meaning = e.meaning; size = e.size } };
}

/// What the tokens of an item, or of a condition behind the items, may name.
#[derive(Drop)]
pub struct Scope {
    /// The words and constants of the sheet.
    pub(crate) names: Names,
    /// How many processors it has.
    pub(crate) processors: usize,
    /// The earlier items.
    pub(crate) entries: Vec<Entry>,
}

impl Model for Scope {
    ghost use Rattle.conditions.specs.FormulaCodes.{coded_formula};
    ghost use Rattle.conditions.specs.TermCodes.{coded_term};
    ghost use Rattle.std.specs.Coded.{codes};
    ghost use Rattle.questions.specs.Scopes.{Scope};

    ghost Value = { Scope };

    ghost coded = { Prim.hlevel (codes, coded_formula, coded_term) };

    ghost view = { λ s. record { names = s.names; processors = s.processors; entries = s.entries.items } };
}

/// The entry of a name, if one has it.
fn entry_named<'a>(entries: &'a [Entry], token: &[u8]) -> Option<&'a Entry>
    ensures { MatchOption result
        (entry_named entries.now token.now ≡ None)
        (λ entry. entry_named entries.now token.now ≡ Some entry.now) }
{
    for entry in entries {
        if token == entry.name.as_slice() {
            return Some(entry);
        }
    }
    None
}

impl Scope {
    /// The entry of a name, if an earlier item has it.
    pub(crate) fn entry(&self, token: &[u8]) -> Option<&Entry>
        ensures { MatchOption result
            (entry_named self.now.entries token.now ≡ None)
            (λ entry. entry_named self.now.entries token.now ≡ Some entry.now) }
    {
        entry_named(&self.entries, token)
    }

    /// Whether the next item may have this name.
    pub(crate) fn is_item_name(&self, token: &[u8]) -> bool
        ensures { result ≡ is_item_name self.now token.now }
    {
        is_name(token) && !is_keyword(token) && self.entry(token).is_none()
    }
}
