//! What was heard.
use crate::asked::Order;
use crate::line_fault::LineFault;
use debug_scripts::WatchOrder;
use images::Cond;
use talks::Line;

/// What was heard, and what it asks.
#[derive(Drop)]
pub(crate) enum Heard {
    /// There is no line more.
    Nothing,
    /// A line that declares a stop of this id, and its condition, twice.
    Stop(Line, u32, Cond, Cond),
    /// A line that declares a watch of a word, and whether it halts steps.
    Watch(Line, WatchOrder, bool),
    /// A line that asks a condition of all runs.
    Check(Line, Cond),
    /// Any other line: what it orders, or why it orders nothing.
    Other(Line, Result<Order, LineFault>),
}
