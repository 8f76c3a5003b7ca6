//! What was read of the items of a sheet so far, and what each further line adds to it.
ghost use Rattle.std.specs.Prelude.{◌≡◌, ◌^◌, ◌≤◌};
ghost use Rattle.text_tokens.specs.Text.{lines_of};
ghost use Rattle.questions.specs.Tokens.{item_tokens};
ghost use Rattle.outcomes.specs.Calls.{Answers, Leaves};
ghost use Rattle.outcomes.specs.Faults.{fault_in};
ghost use Rattle.questions.specs.Items.{begun, first_after, item_ended, item_said, items_in, line_after, lines_from, name_given, no_items, question_asked, text_after, token_after, tokens_after, tokens_from};

use crate::item::{Head, Item, Purpose, head_of, is_question, told};
use crate::question::{NamedQuestion, Place};
use crate::scope::{Entry, Meaning, Scope};
use crate::token::ItemTokens;
use litmus_text::{LineFault, TextFault};
use outcomes::OrNoMemory;
use std::alloc::Global;
use std::marker::Model;
use text_tokens::{Lines, is_plain_line};

/// How many questions a sheet may have.
pub const MAX_QUESTIONS: usize = 64;

/// What was read of the items of a sheet.
#[derive(Drop)]
pub struct Items {
    scope: Scope,
    questions: Vec<NamedQuestion>,
    item: Option<Item>,
}

impl Model for Items {
    ghost use Rattle.conditions.specs.FormulaCodes.{coded_formula};
    ghost use Rattle.conditions.specs.TermCodes.{coded_term};
    ghost use Rattle.std.specs.Coded.{codes};
    ghost use Rattle.questions.specs.BodyCodes.{coded_body};
    ghost use Rattle.questions.specs.Items.{Items};

    ghost Value = { Items };

    ghost coded = { Prim.hlevel (codes, coded_formula, coded_term, coded_body) };

    ghost view = { λ i. record { scope = i.scope; questions = i.questions.items; item = i.item } };
}

impl Items {
    /// Before the first item. It takes no memory.
    pub(crate) fn new(alloc: Global, scope: Scope) -> Items
        ensures { result ≡ no_items scope }
    {
        Items {
            scope,
            questions: Vec::new(alloc),
            item: None,
        }
    }

    /// A name for a condition or a value ends.
    fn give_name(&mut self, alloc: Global, item: Item) -> Result<(), OrNoMemory<LineFault>>
        ensures { Leaves fault_in (name_given item self.old) result self.new }
    {
        let size = item.body.size();
        let meaning = item.body.meaning(alloc)?;
        let name = item.name;
        self.scope.entries.push(Entry {
            name,
            meaning,
            size,
        })?;
        Ok(())
    }

    /// A question ends. Its name is that of its condition.
    fn ask(
        &mut self,
        alloc: Global,
        every: bool,
        place: Place,
        item: Item,
    ) -> Result<(), OrNoMemory<LineFault>>
        ensures { Leaves fault_in (question_asked every place item self.old) result self.new }
    {
        let size = item.body.size();
        let (left, condition) = item.body.condition(alloc)?;
        self.scope.entries.push(Entry {
            name: item.name.to_vec(alloc)?,
            meaning: Meaning::Condition(condition.copy(alloc)?),
            size,
        })?;
        self.questions.push(NamedQuestion {
            name: item.name,
            every,
            place,
            left,
            condition,
        })?;
        Ok(())
    }

    /// An item ends.
    #[tactic(auto, unfolding(crate::specs::Items::item_said))]
    fn say(&mut self, alloc: Global, item: Item) -> Result<(), OrNoMemory<LineFault>>
        ensures { Leaves fault_in (item_said item.head item self.old) result self.new }
    {
        match item.head {
            Head::Body(Purpose::Let) => self.give_name(alloc, item),
            Head::Body(Purpose::Asks(every, place)) => self.ask(alloc, every, place, item),
            _ => {
                drop(item);
                Err(OrNoMemory::Fault(LineFault::BadWord))
            }
        }
    }

    /// The item that goes on ends, if there is one.
    #[tactic(auto, unfolding(crate::specs::Items::item_ended))]
    pub(crate) fn end_item(&mut self, alloc: Global) -> Result<(), OrNoMemory<TextFault>>
        ensures { Leaves fault_in (item_ended self.old) result self.new }
    {
        let Some(item) = self.item.take() else {
            return Ok(());
        };
        let (line, last) = (item.line, item.last);
        match self.say(alloc, item) {
            Ok(()) => Ok(()),
            Err(OrNoMemory::Fault(kind)) => Err(OrNoMemory::Fault(told(line, last, kind))),
            Err(OrNoMemory::NoMemory) => Err(OrNoMemory::NoMemory),
        }
    }

    /// An item begins on line `number`.
    #[tactic(auto, unfolding(crate::specs::Items::begun))]
    fn begin(
        &mut self,
        alloc: Global,
        head: Head,
        number: usize,
    ) -> Result<(), OrNoMemory<TextFault>>
        ensures { Leaves fault_in (begun head number self.old) result self.new }
    {
        self.end_item(alloc)?;
        if is_question(head) && self.questions.len() >= MAX_QUESTIONS {
            return Err(OrNoMemory::Fault(TextFault::At(LineFault::TooLong, number)));
        }
        self.item = Some(Item::new(alloc, head, number));
        Ok(())
    }

    /// One more token of the item that goes on, on line `number`.
    #[tactic(auto, unfolding(crate::specs::Items::token_after))]
    pub(crate) fn read_token(
        &mut self,
        alloc: Global,
        number: usize,
        token: &[u8],
    ) -> Result<(), OrNoMemory<TextFault>>
        ensures { Leaves fault_in (token_after number self.old token.now) result self.new }
    {
        match &mut self.item {
            None => Err(OrNoMemory::Fault(TextFault::At(LineFault::BadWord, number))),
            Some(item) => item.read_token(alloc, &self.scope, number, token),
        }
    }

    /// The first token of line `number`.
    #[tactic(auto, unfolding(crate::specs::Items::first_after))]
    pub(crate) fn read_first(
        &mut self,
        alloc: Global,
        number: usize,
        token: &[u8],
    ) -> Result<(), OrNoMemory<TextFault>>
        ensures { Leaves fault_in (first_after number self.old token.now) result self.new }
    {
        match head_of(token) {
            None => self.read_token(alloc, number, token),
            Some(head) => self.begin(alloc, head, number),
        }
    }

    /// The tokens behind the first of line `number`.
    #[tactic(auto, using(crate::proofs::ItemSteps::token_steps))]
    fn read_others(
        &mut self,
        alloc: Global,
        number: usize,
        tokens: ItemTokens,
    ) -> Result<(), OrNoMemory<TextFault>>
        ensures { Leaves fault_in (tokens_from number self.old (item_tokens tokens.entry.rest.now)) result self.new }
    {
        for token in tokens {
            match self.read_token(alloc, number, token) {
                Ok(()) => {}
                Err(OrNoMemory::Fault(fault)) => return Err(OrNoMemory::Fault(fault)),
                Err(OrNoMemory::NoMemory) => return Err(OrNoMemory::NoMemory),
            }
        }
        Ok(())
    }

    /// The tokens of line `number`.
    #[tactic(auto, unfolding(crate::specs::Items::tokens_after))]
    fn read_tokens(
        &mut self,
        alloc: Global,
        number: usize,
        line: &[u8],
    ) -> Result<(), OrNoMemory<TextFault>>
        ensures { Leaves fault_in (tokens_after number self.old (item_tokens line.now)) result self.new }
    {
        let mut tokens = ItemTokens::new(line);
        let Some(first) = tokens.next() else {
            return Ok(());
        };
        self.read_first(alloc, number, first)?;
        self.read_others(alloc, number, tokens)
    }

    /// Line `number`.
    #[tactic(auto, unfolding(crate::specs::Items::line_after))]
    pub(crate) fn read_line(
        &mut self,
        alloc: Global,
        number: usize,
        line: &[u8],
    ) -> Result<(), OrNoMemory<TextFault>>
        ensures { Leaves fault_in (line_after number self.old line.now) result self.new }
    {
        if !is_plain_line(line) {
            return Err(OrNoMemory::Fault(TextFault::At(LineFault::NotAscii, number)));
        }
        self.read_tokens(alloc, number, line)
    }

    /// Lines, of which the first has the number `first`.
    #[tactic(auto, using(crate::proofs::ItemSteps::line_steps))]
    pub(crate) fn read_lines(
        &mut self,
        alloc: Global,
        first: usize,
        rows: &[u8],
    ) -> Result<(), OrNoMemory<TextFault>>
        requires { first ≤ 2 ^ 63 }
        ensures { Leaves fault_in (lines_from first self.old (lines_of rows.now)) result self.new }
    {
        let mut number = first;
        for line in Lines::new(rows) {
            match self.read_line(alloc, number, line) {
                Ok(()) => {}
                Err(OrNoMemory::Fault(fault)) => return Err(OrNoMemory::Fault(fault)),
                Err(OrNoMemory::NoMemory) => return Err(OrNoMemory::NoMemory),
            }
            number += 1;
        }
        Ok(())
    }

    /// A text, of whose lines the first has the number `first`.
    #[tactic(auto, unfolding(crate::specs::Items::text_after))]
    fn read_text(
        &mut self,
        alloc: Global,
        first: usize,
        rows: &[u8],
    ) -> Result<(), OrNoMemory<TextFault>>
        requires { first ≤ 2 ^ 63 }
        ensures { Leaves fault_in (text_after first self.old rows.now) result self.new }
    {
        self.read_lines(alloc, first, rows)?;
        self.end_item(alloc)
    }

    /// The questions, and what a condition may name behind them.
    pub(crate) fn into_parts(self) -> (Vec<NamedQuestion>, Scope)
        ensures questions { result.0.items ≡ self.questions }
        ensures scope { result.1 ≡ self.scope }
    {
        let Items {
            scope,
            questions,
            item,
        } = self;
        drop(item);
        (questions, scope)
    }
}

/// What the items in a text say, of whose lines the first has the number `first`.
pub(crate) fn read_items(
    alloc: Global,
    scope: Scope,
    first: usize,
    rows: &[u8],
) -> Result<Items, OrNoMemory<TextFault>>
    requires { first ≤ 2 ^ 63 }
    ensures { Answers fault_in (items_in scope first rows.now) result }
{
    let mut items = Items::new(alloc, scope);
    match items.read_text(alloc, first, rows) {
        Ok(()) => Ok(items),
        Err(error) => {
            drop(items);
            Err(error)
        }
    }
}
