//! What was read of an item, and what each further token adds to it.
ghost use Rattle.std.specs.Prelude.{◌≡◌, bytes_eq};
ghost use Rattle.outcomes.specs.Calls.{Leaves};
ghost use Rattle.outcomes.specs.Faults.{fault_in};
ghost use Rattle.questions.specs.Items.{head_after, head_of, is_question, item_after, item_begun, mark_of, told};

use crate::body::Body;
use crate::question::Place;
use crate::scope::Scope;
use crate::token::place;
use litmus_text::{LineFault, TextFault};
use outcomes::OrNoMemory;
use std::alloc::Global;
use std::marker::Model;

/// How many tokens an item may have.
pub const MAX_TOKENS: usize = 1024;

/// What an item is for.
#[derive(Clone, Copy, Debug, PartialEq, Eq)]
pub enum Purpose {
    /// It names a condition or a value.
    Let,
    /// It is asked of every state of a place, or of some.
    Asks(bool, Place),
}

/// What may come next in an item.
#[derive(Clone, Copy, Debug, PartialEq, Eq)]
pub enum Head {
    /// The place where it is asked of every state, or of some.
    Place(bool),
    /// Its name.
    Name(Purpose),
    /// `=` or `:`, behind the name.
    Mark(Purpose),
    /// Its condition or its value.
    Body(Purpose),
}

/// What was read of an item.
#[derive(Drop)]
pub struct Item {
    /// What may come next, and what it is for.
    pub head: Head,
    /// Its name.
    pub name: Vec<u8>,
    /// Its condition or its value.
    pub body: Body,
    /// Its first line.
    pub line: usize,
    /// The line of its last token.
    pub last: usize,
    /// How many tokens it has.
    pub tokens: usize,
}

impl Model for Item {
    ghost use Rattle.std.specs.Coded.{codes};
    ghost use Rattle.questions.specs.BodyCodes.{coded_body};
    ghost use Rattle.questions.specs.Items.{Item};

    ghost Value = { Item };

    ghost coded = { Prim.hlevel (codes, coded_body) };

    ghost view = { λ i. record { head = i.head; name = i.name.items; body = i.body; line = i.line; last = i.last; tokens = i.tokens } };
}

/// What the first token of an item says comes next; none of a token that begins no item.
#[tactic(auto, unfolding(crate::specs::Items::head_of))]
pub(crate) fn head_of(token: &[u8]) -> Option<Head>
    ensures { result ≡ head_of token.now }
{
    if token == b"let".as_slice() {
        Some(Head::Name(Purpose::Let))
    } else if token == b"every".as_slice() {
        Some(Head::Place(true))
    } else if token == b"some".as_slice() {
        Some(Head::Place(false))
    } else {
        None
    }
}

/// Whether an item that begins so is a question.
pub(crate) fn is_question(head: Head) -> bool
    ensures { result ≡ is_question head }
{
    matches!(head, Head::Place(_))
}

/// Whether a token is what stands behind the name.
fn is_mark(purpose: Purpose, token: &[u8]) -> bool
    ensures { result ≡ bytes_eq token.now (mark_of purpose) }
{
    match purpose {
        Purpose::Let => token == b"=".as_slice(),
        Purpose::Asks(_, _) => token == b":".as_slice(),
    }
}

/// A fault of a token of line `number`, of an item that begins on line `line`.
pub(crate) fn told(line: usize, number: usize, kind: LineFault) -> TextFault
    ensures { result ≡ told line number kind }
{
    match kind {
        LineFault::TooLong => TextFault::At(kind, line),
        _ => TextFault::At(kind, number),
    }
}

impl Item {
    /// An item whose first token is on line `number`. It takes no memory.
    pub(crate) fn new(alloc: Global, head: Head, number: usize) -> Item
        ensures { result ≡ item_begun head number }
    {
        Item {
            head,
            name: Vec::new(alloc),
            body: Body::new(alloc),
            line: number,
            last: number,
            tokens: 1,
        }
    }

    /// One more token.
    #[tactic(auto, unfolding(crate::specs::Items::head_after))]
    fn read_head(
        &mut self,
        alloc: Global,
        scope: &Scope,
        token: &[u8],
    ) -> Result<(), OrNoMemory<LineFault>>
        ensures { Leaves fault_in (head_after self.old.head scope.now self.old token.now) result self.new }
    {
        match self.head {
            Head::Place(every) => {
                let place = place(token).ok_or(LineFault::BadWord)?;
                self.head = Head::Name(Purpose::Asks(every, place));
            }
            Head::Name(purpose) => {
                if !scope.is_item_name(token) {
                    return Err(OrNoMemory::Fault(LineFault::BadName));
                }
                self.name = token.to_vec(alloc)?;
                self.head = Head::Mark(purpose);
            }
            Head::Mark(purpose) => {
                if !is_mark(purpose, token) {
                    return Err(OrNoMemory::Fault(LineFault::BadWord));
                }
                self.head = Head::Body(purpose);
            }
            Head::Body(_) => self.body.read_token(alloc, scope, token)?,
        }
        Ok(())
    }

    /// One more token, on line `number`.
    #[tactic(auto, unfolding(crate::specs::Items::item_after))]
    pub(crate) fn read_token(
        &mut self,
        alloc: Global,
        scope: &Scope,
        number: usize,
        token: &[u8],
    ) -> Result<(), OrNoMemory<TextFault>>
        ensures { Leaves fault_in (item_after scope.now number self.old token.now) result self.new }
    {
        if self.tokens >= MAX_TOKENS {
            return Err(OrNoMemory::Fault(TextFault::At(LineFault::TooLong, self.line)));
        }
        let line = self.line;
        self.tokens += 1;
        self.last = number;
        match self.read_head(alloc, scope, token) {
            Ok(()) => Ok(()),
            Err(OrNoMemory::Fault(kind)) => Err(OrNoMemory::Fault(told(line, number, kind))),
            Err(OrNoMemory::NoMemory) => Err(OrNoMemory::NoMemory),
        }
    }
}
