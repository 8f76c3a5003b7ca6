//! What scripts are made of.
use images::Cond;
use lines_layout::WordId;
use machine::Step;
use std::marker::Model;

/// A command of a script.
#[derive(Drop)]
pub enum Command {
    /// Keeps a step for the next `go`.
    Gather(Step),
    /// Makes the steps that were gathered. What it leaves of them is the rest.
    Go,
    /// Makes the rest, and then the steps that were gathered. What it leaves of them is the rest.
    Continue,
    /// Goes back before the last steps, so many.
    Back(u32),
    /// Shows the state.
    Show,
    /// Lists the images of the state.
    Images,
    /// Lists the values of a word in the images in which other words have given values.
    Values(ValuesOrder),
    /// Takes out the stop of this id.
    Disarm(u32),
    /// Takes out the watch of this id.
    Detach(u32),
}

/// `values NAME [NAME=V ..]`
#[derive(Drop)]
pub struct ValuesOrder {
    /// The word whose values are asked.
    pub word: WordId,
    /// The words that are given values, with these.
    pub given: Vec<(WordId, u64)>,
}

impl Model for ValuesOrder {
    ghost use Rattle.debug_scripts.specs.Asked as asks;

    ghost Value = { asks.Asked };

    ghost view = { λ o. asks.asked o.word o.given.items };
}

/// `stop ID CONDITION`
#[derive(Drop)]
pub struct StopOrder {
    /// The id.
    pub id: u32,
    /// The condition.
    pub cond: Cond,
}

/// `watch ID NAME`
#[derive(Clone, Copy, Debug, PartialEq, Eq)]
pub struct WatchOrder {
    /// The id.
    pub id: u32,
    /// The word.
    pub word: WordId,
}

/// A script.
#[derive(Drop)]
pub struct Script {
    /// The stops, in the order of the text.
    pub stops: Vec<StopOrder>,
    /// The watches, in the order of the text.
    pub watches: Vec<WatchOrder>,
    /// The commands, in the order of the text.
    pub commands: Vec<Command>,
}

impl Model for Script {
    ghost use Rattle.debug_scripts.specs.Scripts as scripts;
    ghost use Rattle.debug_scripts.specs.ScriptCodes.{coded_script};

    ghost Value = { scripts.Script };

    ghost coded = { coded_script };

    ghost view = { λ s. record { stops = s.stops.items; watches = s.watches.items; commands = s.commands.items } };
}
