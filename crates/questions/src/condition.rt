//! Conditions of a program that stand apart from it.
ghost use Rattle.outcomes.specs.Calls.{Answers};
ghost use Rattle.outcomes.specs.Faults.{fault_in};
ghost use Rattle.std.specs.Prelude.{◌≡◌};
ghost use Rattle.questions.specs.Conditions.{asked_of, statement_asked, statement_at_end, statement_of, token_fault, told_at};

use crate::body::Body;
use crate::item::MAX_TOKENS;
use crate::reading::Questioned;
use crate::scope::Scope;
use crate::token::ItemTokens;
use conditions::{Cond, CondFault, TokenFault, read_cond};
use litmus_text::LineFault;
use outcomes::OrNoMemory;
use std::alloc::Global;

/// What is wrong with a token.
fn token_fault(kind: LineFault) -> TokenFault
    ensures { result ≡ token_fault kind }
{
    match kind {
        LineFault::UnknownName => TokenFault::UnknownName,
        _ => TokenFault::BadCond,
    }
}

/// A fault of the token with this number.
fn told_at(number: usize, kind: LineFault) -> CondFault
    ensures { result ≡ told_at number kind }
{
    CondFault::At(token_fault(kind), number)
}

/// The condition that was read, where the text ends with so many tokens.
#[tactic(auto, unfolding(crate::specs::Conditions::statement_at_end))]
fn end(alloc: Global, number: usize, body: Body) -> Result<Cond, OrNoMemory<CondFault>>
    ensures { Answers fault_in (statement_at_end number body) result }
{
    match body.condition(alloc) {
        Ok((left, condition)) => {
            drop(left);
            Ok(condition)
        }
        Err(OrNoMemory::Fault(kind)) => Err(OrNoMemory::Fault(told_at(number, kind))),
        Err(OrNoMemory::NoMemory) => Err(OrNoMemory::NoMemory),
    }
}

/// The condition that a text says by the items of a sheet.
#[tactic(auto, using(crate::proofs::StatementSteps::statement_steps))]
fn read_statement(alloc: Global, scope: &Scope, text: &[u8]) -> Result<Cond, OrNoMemory<CondFault>>
    ensures { Answers fault_in (statement_of scope.now text.now) result }
{
    let mut body = Body::new(alloc);
    let mut number = 0;
    for token in ItemTokens::new(text) {
        if number >= MAX_TOKENS {
            return Err(OrNoMemory::Fault(CondFault::At(TokenFault::BadCond, number)));
        }
        match body.read_token(alloc, scope, token) {
            Ok(()) => number += 1,
            Err(OrNoMemory::Fault(kind)) => return Err(OrNoMemory::Fault(told_at(number, kind))),
            Err(OrNoMemory::NoMemory) => return Err(OrNoMemory::NoMemory),
        }
    }
    end(alloc, number, body)
}

/// That a condition is true that a text says by the items of a sheet.
#[tactic(auto, unfolding(crate::specs::Conditions::statement_asked))]
fn ask_statement(alloc: Global, scope: &Scope, text: &[u8]) -> Result<Cond, OrNoMemory<CondFault>>
    ensures { Answers fault_in (statement_asked scope.now text.now) result }
{
    let condition = read_statement(alloc, scope, text)?;
    Ok(condition.stated(alloc, true)?)
}

impl Questioned {
    /// What a text asks of the program. Of a sheet it is written as the condition of an item, may name all that an item behind
    /// the last may name, and asks that this condition is true; of other programs it is a condition on the words of the layout.
    ///
    /// # Errors
    ///
    /// The fault of the first token that cannot be where it is; of the token after the last where the text ends too soon; or
    /// that memory ran out.
    pub fn read_condition(&self, alloc: Global, text: &[u8]) -> Result<Cond, OrNoMemory<CondFault>>
        ensures { Answers fault_in (asked_of self.now text.now) result }
    {
        match &self.scope {
            None => read_cond(alloc, self.lined.object.layout(), text),
            Some(scope) => ask_statement(alloc, scope, text),
        }
    }
}
