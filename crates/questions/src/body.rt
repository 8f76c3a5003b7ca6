//! What was read of the condition or the value of an item, and what each further token adds to it.
ghost use Rattle.std.specs.Prelude.{◌≡◌, IfOk, None, OnOk, Some, if◌then◌else◌};
ghost use Rattle.outcomes.specs.Calls.{Answers, Leaves};
ghost use Rattle.outcomes.specs.Faults.{fault_in};
ghost use Rattle.questions.specs.Bodies.{address_after, at_start, behind_after, body_after, body_ended, closed, condition_at_end, counted, factor_after, factor_ended, is_deep, is_value, joint_after, leaf_after, meaning_after, meaning_at_end, name_after, not_after, part_after, part_ended, pointer_closed, pointer_opened, side_after, side_ended, test_ended, whole, word_after};

use crate::atom::{comparison, number, processor, word_named, word_operand};
use crate::level::{Level, implied, pop_level, push_level};
use crate::scope::{Meaning, Scope};
use crate::sum::{MAX_SIZE, Sum, compared};
use crate::test::{Pointer, Test, pointed, pop_pointer, push_pointer};
use crate::token::is_identifier;
use conditions::{Comparison, Cond, Operand, Term};
use isa::Reg;
use litmus_text::LineFault;
use outcomes::OrNoMemory;
use std::alloc::{AllocError, Global};
use std::marker::Model;
use std::mem;

/// How many brackets and `not`s may be open at once.
pub const MAX_DEPTH: usize = 64;

/// What may come next.
#[derive(Clone, Copy, Debug, PartialEq, Eq)]
pub enum Stage {
    /// A factor: `not`, `(`, the name of a condition, or the first token of a test.
    Factor,
    /// A part of a value.
    Part,
    /// The word whose persisted value is read: its name, or `[`.
    Persisted,
    /// The word whose coherent value is read: its name, or `[`.
    Coherent,
    /// The number of a processor, one of whose registers is read.
    Processor,
    /// A register of this processor.
    Register(u32),
    /// Behind a part: `+`, `-`, `]`, a comparison, or what may be behind a test.
    Behind,
    /// `and`, `or`, `->`, `)`, or the end of the item.
    Joint,
}

/// What was read of the condition or the value of an item.
#[derive(Drop)]
pub struct Body {
    stage: Stage,
    level: Level,
    outer: Vec<Level>,
    test: Test,
    pointers: Vec<Pointer>,
    size: u32,
}

impl Model for Body {
    ghost use Rattle.std.specs.Prelude.{reverse};
    ghost use Rattle.questions.specs.Bodies.{Body};
    ghost use Rattle.questions.specs.BodyCodes.{coded_body};

    ghost Value = { Body };

    ghost coded = { coded_body };

    ghost view = { λ b. record {
      stage = b.stage;
      level = b.level;
      outer = reverse b.outer.items;
      test = b.test;
      pointers = reverse b.pointers.items;
      size = b.size;
    } };
}

impl Body {
    /// Before the first token. It takes no memory.
    pub(crate) fn new(alloc: Global) -> Body
        ensures { result ≡ at_start }
    {
        Body {
            stage: Stage::Factor,
            level: Level::new(0),
            outer: Vec::new(alloc),
            test: Test::none(),
            pointers: Vec::new(alloc),
            size: 0,
        }
    }

    /// How many numbers, words, registers, `not`s and square brackets there are.
    pub(crate) fn size(&self) -> u32
        ensures { result ≡ self.now.size }
    {
        self.size
    }

    /// Whether one more bracket or `not` is too many.
    fn is_deep(&self) -> bool
        ensures { result ≡ is_deep self.now }
    {
        let brackets = u64::from(self.level.depth) + u64::from(self.level.nots);
        u128::from(brackets) + self.pointers.len() as u128 >= MAX_DEPTH as u128
    }

    /// It gets so much larger.
    fn count(&mut self, more: u32) -> Result<(), OrNoMemory<LineFault>>
        ensures { Leaves fault_in (counted more self.old) result self.new }
    {
        if u64::from(self.size) + u64::from(more) > MAX_SIZE {
            return Err(OrNoMemory::Fault(LineFault::TooLong));
        }
        self.size += more;
        Ok(())
    }

    /// A part ends.
    fn end_part(&mut self, alloc: Global, part: Sum) -> Result<(), OrNoMemory<LineFault>>
        ensures { Leaves fault_in (part_ended part self.old) result self.new }
    {
        match pop_pointer(&mut self.pointers) {
            None => {
                self.test.add(alloc, part)?;
                self.stage = Stage::Behind;
                Ok(())
            }
            Some(pointer) => {
                let pointer = pointer.with(alloc, part)?;
                self.stage = Stage::Behind;
                Ok(push_pointer(&mut self.pointers, pointer)?)
            }
        }
    }

    /// A number, a word or a register.
    #[tactic(auto, unfolding(crate::specs::Bodies::leaf_after))]
    fn read_leaf(&mut self, alloc: Global, term: Term) -> Result<(), OrNoMemory<LineFault>>
        ensures { Leaves fault_in (leaf_after term self.old) result self.new }
    {
        self.count(1)?;
        self.end_part(alloc, Sum::alone(term))
    }

    /// A factor ends.
    fn end_factor(&mut self, alloc: Global, factor: Cond) -> Result<(), AllocError>
        ensures { OnOk result (self.new ≡ factor_ended factor self.old) }
    {
        self.level.add_factor(alloc, factor)?;
        self.stage = Stage::Joint;
        Ok(())
    }

    /// What a name stands for, which is so large.
    fn read_meaning(
        &mut self,
        alloc: Global,
        meaning: &Meaning,
        size: u32,
    ) -> Result<(), OrNoMemory<LineFault>>
        ensures { Leaves fault_in (meaning_after meaning.now size self.old) result self.new }
    {
        match meaning {
            Meaning::Condition(condition) => {
                if self.stage != Stage::Factor {
                    return Err(OrNoMemory::Fault(LineFault::BadCond));
                }
                self.count(size)?;
                let factor = condition.copy(alloc)?;
                Ok(self.end_factor(alloc, factor)?)
            }
            Meaning::Value(sum) => {
                if sum.minus.is_some() && !self.pointers.is_empty() {
                    return Err(OrNoMemory::Fault(LineFault::BadCond));
                }
                self.count(size)?;
                let part = sum.copy(alloc)?;
                self.end_part(alloc, part)
            }
        }
    }

    /// The name of an earlier item.
    #[tactic(auto, unfolding(crate::specs::Bodies::name_after))]
    fn read_name(
        &mut self,
        alloc: Global,
        scope: &Scope,
        token: &[u8],
    ) -> Result<(), OrNoMemory<LineFault>>
        ensures { Leaves fault_in (name_after scope.now self.old token.now) result self.new }
    {
        match scope.entry(token) {
            None => Err(OrNoMemory::Fault(LineFault::UnknownName)),
            Some(entry) => self.read_meaning(alloc, &entry.meaning, entry.size),
        }
    }

    /// A part, or the first token of one.
    #[tactic(auto, unfolding(crate::specs::Bodies::part_after))]
    fn read_part(
        &mut self,
        alloc: Global,
        scope: &Scope,
        token: &[u8],
    ) -> Result<(), OrNoMemory<LineFault>>
        ensures { Leaves fault_in (part_after scope.now self.old token.now) result self.new }
    {
        if token == b"persisted".as_slice() {
            self.stage = Stage::Persisted;
            Ok(())
        } else if token == b"coherent".as_slice() {
            self.stage = Stage::Coherent;
            Ok(())
        } else if token == b"reg".as_slice() {
            self.stage = Stage::Processor;
            Ok(())
        } else if is_identifier(token) {
            self.read_name(alloc, scope, token)
        } else {
            let number = number(&scope.names, token)?;
            self.read_leaf(alloc, Term::number(number))
        }
    }

    /// `not`.
    #[tactic(auto, unfolding(crate::specs::Bodies::not_after))]
    fn read_not(&mut self) -> Result<(), OrNoMemory<LineFault>>
        ensures { Leaves fault_in (not_after self.old) result self.new }
    {
        if self.is_deep() {
            return Err(OrNoMemory::Fault(LineFault::BadCond));
        }
        self.level.nots += 1;
        self.count(1)
    }

    /// `not`, `(` or the first token of a part.
    #[tactic(auto, unfolding(crate::specs::Bodies::factor_after))]
    fn read_factor(
        &mut self,
        alloc: Global,
        scope: &Scope,
        token: &[u8],
    ) -> Result<(), OrNoMemory<LineFault>>
        ensures { Leaves fault_in (factor_after scope.now self.old token.now) result self.new }
    {
        if token == b"not".as_slice() {
            self.read_not()
        } else if token == b"(".as_slice() {
            if self.is_deep() {
                return Err(OrNoMemory::Fault(LineFault::BadCond));
            }
            let inner = Level::new(self.level.depth + self.level.nots + 1);
            let around = mem::replace(&mut self.level, inner);
            Ok(push_level(&mut self.outer, around)?)
        } else {
            self.read_part(alloc, scope, token)
        }
    }

    /// `[`.
    #[tactic(auto, unfolding(crate::specs::Bodies::pointer_opened))]
    fn open_pointer(&mut self, coherent: bool) -> Result<(), OrNoMemory<LineFault>>
        ensures { Leaves fault_in (pointer_opened coherent self.old) result self.new }
    {
        if self.is_deep() {
            return Err(OrNoMemory::Fault(LineFault::BadCond));
        }
        let sum = None;
        push_pointer(&mut self.pointers, Pointer { coherent, sum })?;
        self.stage = Stage::Part;
        self.count(1)
    }

    /// `[` or the name of a word, behind `coherent` or `persisted`.
    #[tactic(auto, unfolding(crate::specs::Bodies::word_after))]
    fn read_word(
        &mut self,
        alloc: Global,
        coherent: bool,
        scope: &Scope,
        token: &[u8],
    ) -> Result<(), OrNoMemory<LineFault>>
        ensures { Leaves fault_in (word_after coherent scope.now self.old token.now) result self.new }
    {
        if token == b"[".as_slice() {
            return self.open_pointer(coherent);
        }
        let word = word_named(&scope.names.layout, token)?;
        self.read_leaf(alloc, Term::read(word_operand(coherent, word)))
    }

    /// `]`.
    fn close_pointer(&mut self, alloc: Global) -> Result<(), OrNoMemory<LineFault>>
        ensures { Leaves fault_in (pointer_closed self.old.pointers self.old) result self.new }
    {
        let Some(pointer) = pop_pointer(&mut self.pointers) else {
            return Err(OrNoMemory::Fault(LineFault::BadCond));
        };
        let Pointer { coherent, sum } = pointer;
        let Some(address) = sum else {
            return Err(OrNoMemory::Fault(LineFault::BadCond));
        };
        let part = pointed(alloc, coherent, address)?;
        self.end_part(alloc, Sum::alone(part))
    }

    /// `)`.
    fn close(&mut self, alloc: Global) -> Result<(), OrNoMemory<LineFault>>
        ensures { Leaves fault_in (closed self.old.outer self.old) result self.new }
    {
        let Some(around) = pop_level(&mut self.outer) else {
            return Err(OrNoMemory::Fault(LineFault::BadCond));
        };
        let inside = mem::replace(&mut self.level, around);
        let Some(factor) = inside.condition(alloc)? else {
            return Err(OrNoMemory::Fault(LineFault::BadCond));
        };
        Ok(self.end_factor(alloc, factor)?)
    }

    /// `and`, `or`, `->` or `)`.
    #[tactic(auto, unfolding(crate::specs::Bodies::joint_after))]
    fn read_joint(&mut self, alloc: Global, token: &[u8]) -> Result<(), OrNoMemory<LineFault>>
        ensures { Leaves fault_in (joint_after self.old token.now) result self.new }
    {
        if token == b"and".as_slice() {
            self.stage = Stage::Factor;
            Ok(())
        } else if token == b"or".as_slice() {
            let terms = self.level.take_side(alloc)?;
            self.level.terms = terms;
            self.stage = Stage::Factor;
            Ok(())
        } else if token == b"->".as_slice() {
            if self.level.left.is_some() {
                return Err(OrNoMemory::Fault(LineFault::BadCond));
            }
            let left = self.level.take_side(alloc)?;
            self.level.left = left;
            self.stage = Stage::Factor;
            Ok(())
        } else if token == b")".as_slice() {
            self.close(alloc)
        } else {
            Err(OrNoMemory::Fault(LineFault::BadCond))
        }
    }

    /// The test ends whose left side and comparison are these.
    fn end_test(
        &mut self,
        alloc: Global,
        left: (Sum, Comparison),
    ) -> Result<(), OrNoMemory<LineFault>>
        ensures { Leaves fault_in (test_ended left self.old) result self.new }
    {
        let test = mem::replace(&mut self.test, Test::none());
        let factor = compared(alloc, left.0, left.1, test.side)?;
        Ok(self.end_factor(alloc, factor)?)
    }

    /// Behind a side of a test: its comparison, or what comes behind the test.
    fn end_side(&mut self, alloc: Global, token: &[u8]) -> Result<(), OrNoMemory<LineFault>>
        ensures { Leaves fault_in (side_ended self.old.test.left self.old token.now) result self.new }
    {
        match self.test.left.take() {
            None => {
                let comparison = comparison(token).ok_or(LineFault::BadCond)?;
                let test = mem::replace(&mut self.test, Test::none());
                self.test.left = Some((test.side, comparison));
                self.stage = Stage::Part;
                Ok(())
            }
            Some(left) => {
                self.end_test(alloc, left)?;
                self.read_joint(alloc, token)
            }
        }
    }

    /// Between square brackets: `+` or `]`.
    #[tactic(auto, unfolding(crate::specs::Bodies::address_after))]
    fn read_address(&mut self, alloc: Global, token: &[u8]) -> Result<(), OrNoMemory<LineFault>>
        ensures { Leaves fault_in (address_after self.old token.now) result self.new }
    {
        if token == b"+".as_slice() {
            self.stage = Stage::Part;
            Ok(())
        } else if token == b"]".as_slice() {
            self.close_pointer(alloc)
        } else {
            Err(OrNoMemory::Fault(LineFault::BadCond))
        }
    }

    /// Outside of square brackets: `+` or `-`, or the side ends.
    #[tactic(auto, unfolding(crate::specs::Bodies::side_after))]
    fn read_side(&mut self, alloc: Global, token: &[u8]) -> Result<(), OrNoMemory<LineFault>>
        ensures { Leaves fault_in (side_after self.old token.now) result self.new }
    {
        let plus = token == b"+".as_slice();
        if plus || token == b"-".as_slice() {
            self.test.takes = !plus;
            self.stage = Stage::Part;
            Ok(())
        } else {
            self.end_side(alloc, token)
        }
    }

    /// Behind a part.
    fn read_behind(&mut self, alloc: Global, token: &[u8]) -> Result<(), OrNoMemory<LineFault>>
        ensures { Leaves fault_in (behind_after self.old.pointers self.old token.now) result self.new }
    {
        if self.pointers.is_empty() {
            self.read_side(alloc, token)
        } else {
            self.read_address(alloc, token)
        }
    }

    /// Reads a token.
    #[tactic(auto, unfolding(crate::specs::Bodies::stage_after))]
    pub(crate) fn read_token(
        &mut self,
        alloc: Global,
        scope: &Scope,
        token: &[u8],
    ) -> Result<(), OrNoMemory<LineFault>>
        ensures { Leaves fault_in (body_after scope.now self.old token.now) result self.new }
    {
        match self.stage {
            Stage::Factor => self.read_factor(alloc, scope, token),
            Stage::Part => self.read_part(alloc, scope, token),
            Stage::Persisted => self.read_word(alloc, false, scope, token),
            Stage::Coherent => self.read_word(alloc, true, scope, token),
            Stage::Processor => {
                let processor = processor(scope.processors, token)?;
                self.stage = Stage::Register(processor);
                Ok(())
            }
            Stage::Register(processor) => {
                let register = Reg::named(token).ok_or(LineFault::BadCond)?;
                self.read_leaf(alloc, Term::read(Operand::Register(processor, register)))
            }
            Stage::Behind => self.read_behind(alloc, token),
            Stage::Joint => self.read_joint(alloc, token),
        }
    }

    /// At the end the test ends whose right side was read.
    #[tactic(auto, unfolding(crate::specs::Bodies::body_ended))]
    fn end(&mut self, alloc: Global) -> Result<(), OrNoMemory<LineFault>>
        ensures { Leaves fault_in (body_ended self.old) result self.new }
    {
        if self.stage != Stage::Behind || !self.pointers.is_empty() {
            return Ok(());
        }
        match self.test.left.take() {
            None => Ok(()),
            Some(left) => self.end_test(alloc, left),
        }
    }

    /// Whether a factor has ended, and no bracket is open.
    fn is_whole(&self) -> bool
        ensures { whole self.now.stage self.now.outer self.now.level ≡ (if result then Some self.now.level else None) }
    {
        self.stage == Stage::Joint && self.outer.is_empty()
    }

    /// What is left of the `->` outside of brackets, if there is one, and the whole condition.
    #[tactic(auto, unfolding(crate::specs::Bodies::condition_at_end))]
    pub(crate) fn condition(
        mut self,
        alloc: Global,
    ) -> Result<(Option<Cond>, Cond), OrNoMemory<LineFault>>
        ensures { Answers fault_in (condition_at_end self) result }
    {
        self.end(alloc)?;
        if !self.is_whole() {
            return Err(OrNoMemory::Fault(LineFault::BadCond));
        }
        let mut level = self.level;
        let Some(side) = level.take_side(alloc)? else {
            return Err(OrNoMemory::Fault(LineFault::BadCond));
        };
        let left = copy_condition(alloc, &level.left)?;
        let condition = implied(alloc, level.left, side)?;
        Ok((left, condition))
    }

    /// Whether a value alone was read, outside of brackets.
    fn is_value(&self) -> bool
        ensures { result ≡ is_value self.now }
    {
        self.stage == Stage::Behind
            && self.pointers.is_empty()
            && self.outer.is_empty()
            && self.test.left.is_none()
            && self.level.is_untouched()
    }

    /// What a name stands for that is given to this.
    #[tactic(auto, unfolding(crate::specs::Bodies::meaning_at_end))]
    pub(crate) fn meaning(self, alloc: Global) -> Result<Meaning, OrNoMemory<LineFault>>
        ensures { Answers fault_in (meaning_at_end self) result }
    {
        if self.is_value() {
            let test = self.test;
            return Ok(Meaning::Value(test.side));
        }
        let (_, condition) = self.condition(alloc)?;
        Ok(Meaning::Condition(condition))
    }
}

/// An equal condition, if there is one.
fn copy_condition(alloc: Global, condition: &Option<Cond>) -> Result<Option<Cond>, AllocError>
    ensures { IfOk result (λ copy. copy ≡ condition.now) }
{
    match condition {
        None => Ok(None),
        Some(condition) => Ok(Some(condition.copy(alloc)?)),
    }
}
