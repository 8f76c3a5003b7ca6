//! Reading a script, line by line.
ghost use Rattle.std.specs.Prelude.{◌≡◌, ◌==◌, []};
ghost use Rattle.std.specs.List.{list_any};
ghost use Rattle.outcomes.specs.Calls.{Answers, Leaves};
ghost use Rattle.commands.specs.Works.{Makes};
ghost use Rattle.text_tokens.specs.Cursors.{unread};
ghost use Rattle.debug_scripts.specs.ReadRows.{IsListed, said};
ghost use Rattle.debug_scripts.specs.Rows.{given_from};
ghost use Rattle.debug_scripts.specs.Scripts.{empty_script, script_after, script_fault, script_fault_in, script_of, script_work, stop_after, values_after, watch_after};

use crate::fault::ScriptError;
use crate::orders::{Command, Script, StopOrder, ValuesOrder, WatchOrder};
use crate::row::{BadRow, ScriptRow, given_on, row_on};
use commands::{Fault, Refused, ScriptFault, Stage};
use images::read_cond;
use lines_layout::{Layout, WordId};
use outcomes::OrNoMemory;
use std::alloc::Global;
use text_tokens::{Lines, Tokens};

/// What tokens give: each a word and its value.
#[tactic(auto, using(crate::proofs::GivenForms::given_steps))]
pub fn given_in(
    alloc: Global,
    layout: &Layout,
    tokens: Tokens<'_>,
) -> Result<Vec<(WordId, u64)>, OrNoMemory<BadRow>>
    ensures { IsListed (given_from layout.now [] (unread tokens.entry)) result }
{
    let mut given = Vec::new(alloc);
    for token in tokens {
        match given_on(layout, token) {
            Ok(next) => given.push(next)?,
            Err(BadRow) => return Err(OrNoMemory::Fault(BadRow)),
        }
    }
    Ok(given)
}

impl Script {
    /// Without a line.
    fn new(alloc: Global) -> Script
        ensures { result ≡ empty_script }
    {
        Script {
            stops: Vec::new(alloc),
            watches: Vec::new(alloc),
            commands: Vec::new(alloc),
        }
    }

    /// Whether a stop of this id is declared.
    fn has_stop(&self, id: u32) -> bool
        ensures { result ≡ list_any (λ t. t.id == id) self.now.stops }
    {
        self.stops.iter().any(|t| t.id == id)
    }

    /// Whether a watch of this id is declared.
    fn has_watch(&self, id: u32) -> bool
        ensures { result ≡ list_any (λ w. w.id == id) self.now.watches }
    {
        self.watches.iter().any(|w| w.id == id)
    }

    /// Line `number` declares a stop.
    #[tactic(auto, unfolding(crate::specs::Scripts::stop_after))]
    fn add_stop(
        &mut self,
        alloc: Global,
        layout: &Layout,
        number: usize,
        id: u32,
        condition: &[u8],
    ) -> Result<(), ScriptError>
        ensures { Leaves script_fault_in (stop_after layout.now number self.old id condition.now) result self.new }
    {
        if !self.commands.is_empty() {
            return Err(ScriptError::Fault(ScriptFault::BadLine(number)));
        }
        let cond = match read_cond(alloc, layout, condition) {
            Ok(cond) => cond,
            Err(OrNoMemory::Fault(fault)) => return Err(ScriptError::Fault(ScriptFault::Condition(
                fault,
            ))),
            Err(OrNoMemory::NoMemory) => return Err(ScriptError::ConditionMemory),
        };
        if self.has_stop(id) {
            return Err(ScriptError::Fault(ScriptFault::DoubleId));
        }
        self.stops.push(StopOrder { id, cond })?;
        Ok(())
    }

    /// Line `number` declares a watch.
    #[tactic(auto, unfolding(crate::specs::Scripts::watch_after))]
    fn add_watch(&mut self, number: usize, id: u32, word: WordId) -> Result<(), ScriptError>
        ensures { Leaves script_fault_in (watch_after number self.old id word) result self.new }
    {
        if !self.commands.is_empty() {
            return Err(ScriptError::Fault(ScriptFault::BadLine(number)));
        }
        if self.has_watch(id) {
            return Err(ScriptError::Fault(ScriptFault::DoubleId));
        }
        self.watches.push(WatchOrder { id, word })?;
        Ok(())
    }

    /// Line `number` asks for the values of a word.
    #[tactic(auto, unfolding(crate::specs::Scripts::values_after))]
    fn add_values(
        &mut self,
        alloc: Global,
        layout: &Layout,
        number: usize,
        word: WordId,
        tokens: Tokens<'_>,
    ) -> Result<(), ScriptError>
        ensures { Leaves script_fault_in (values_after layout.now number self.old word (unread tokens.entry)) result self.new }
    {
        let given = match given_in(alloc, layout, tokens) {
            Ok(given) => given,
            Err(OrNoMemory::Fault(BadRow)) => return Err(ScriptError::Fault(ScriptFault::BadLine(
                number,
            ))),
            Err(OrNoMemory::NoMemory) => return Err(ScriptError::NoMemory),
        };
        self.commands
            .push(Command::Values(ValuesOrder { word, given }))?;
        Ok(())
    }

    /// Adds what line `number` says.
    fn add(
        &mut self,
        alloc: Global,
        layout: &Layout,
        number: usize,
        row: ScriptRow<'_>,
    ) -> Result<(), ScriptError>
        ensures { Leaves script_fault_in (script_after layout.now number self.old (said row.entry)) result self.new }
    {
        match row {
            ScriptRow::Blank => Ok(()),
            ScriptRow::Stop(id, condition) => self.add_stop(alloc, layout, number, id, condition),
            ScriptRow::Watch(id, word) => self.add_watch(number, id, word),
            ScriptRow::Ask(word, tokens) => self.add_values(alloc, layout, number, word, tokens),
            ScriptRow::Do(command) => {
                self.commands.push(command)?;
                Ok(())
            }
        }
    }
}

/// The script that a text says, line by line.
#[tactic(auto, using(crate::proofs::ScriptLines::line_steps))]
fn script_in(alloc: Global, layout: &Layout, text: &[u8]) -> Result<Script, ScriptError>
    ensures { Answers script_fault_in (script_of layout.now text.now) result }
{
    let mut script = Script::new(alloc);
    let mut number = 0;
    for line in Lines::new(text) {
        number += 1;
        match row_on(layout, line) {
            Ok(row) => script.add(alloc, layout, number, row)?,
            Err(BadRow) => return Err(ScriptError::Fault(ScriptFault::BadLine(number))),
        }
    }
    Ok(script)
}

/// Why there is no script.
fn fault_of(error: ScriptError) -> Fault
    ensures { result ≡ script_fault error }
{
    match error {
        ScriptError::Fault(fault) => Fault::Refused(Refused::Script(fault)),
        ScriptError::ConditionMemory => Stage::Conditions.missing(),
        ScriptError::NoMemory => Stage::Steps.missing(),
    }
}

/// The script that a text says, with the names of a layout's words.
///
/// First come any number of `stop ID CONDITION` and `watch ID NAME`, each id once among the stops and once
/// among the watches; then steps as in a list of steps, `go`, `continue`, `back N`, `show`, `images`,
/// `values NAME [NAME=V ..]`, `disarm ID` and `detach ID`. Comments and lines without tokens may be anywhere.
///
/// # Errors
///
/// The fault of the lowest line that has one: that it is no such line or is too late, or else its
/// condition's, or else that its id is above; or that memory ran out.
#[tactic(auto, unfolding(commands::specs::Works::Makes))]
pub fn read_script(alloc: Global, layout: &Layout, text: &[u8]) -> Result<Script, Fault>
    ensures { Makes (script_work layout.now text.now) result }
{
    match script_in(alloc, layout, text) {
        Ok(script) => Ok(script),
        Err(error) => Err(fault_of(error)),
    }
}
