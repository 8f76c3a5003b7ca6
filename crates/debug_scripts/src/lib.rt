//! The command `debug`, over readers and writers that may fail. The boxed tests and watchers that a script asks for
//! are made here, by the functions that hand them on (`command.rt`): what is proved of a box depends on who makes it.
//!
//! Promise: [`debug`] does `debug_command`; [`debug_read`] and then [`debug_run`] do it in two parts (`ReadsPlan`,
//! `PlaysPlan`; `laws::parts_are_the_command`); [`put_script`] puts on a page, in any form ([`Form`]), what a script
//! comes to, of which the report is the texts (`laws::reports_are_replies`).
//! Definitions: `specs/DebugPlans` (what is asked of a program, and its report); `Pieces`, `Asked`, `Rows`, `Scripts` (what a
//! script says), `ReadRows` (a row of the code as what its line says), `Grammar`, `ScriptFaults`; `Ahead`, `DebugReports`, `Replies`,
//! `SessionTexts` (what it does and writes), `SessionValues` (where a script is, by the session that plays it). `PlanCodes`
//! and `ScriptCodes` are for the logic alone.
#![tactic(auto)]

mod ahead;
mod command;
mod fault;
pub mod laws;
mod lines;
mod orders;
mod piece;
mod plan;
mod reply;
mod row;
mod script;
mod session;
mod session_text;

pub use ahead::StepsAhead;
pub use command::{debug, put_script};
pub use fault::PlayFault;
pub use orders::{Command, StopOrder, ValuesOrder, WatchOrder};
pub use piece::{before_comment, split_piece};
pub use plan::{DebugPlan, debug_read, debug_run};
pub use reply::{Form, Reply};
pub use row::{BadRow, ScriptRow, row_on};
pub use script::given_in;
pub use session::follow;
pub use session_text::push_each;
