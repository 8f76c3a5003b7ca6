//! Every run of a machine: whether what is asked is true of all that runs reach, by any steps, with any number of crashes, each
//! with every memory that it may leave; and which memories these are.
//!
//! `specs/Reachable` says what a run is, `Ends` and `Outcomes` what it comes to, `RunImages` what crashes may leave, `Questions` what
//! is asked and answered. Why a few states speak for all is said in `laws`.
//!
//! Of straight-line programs of one processor it says why one memory for each fence, and one for the end, has all that a crash
//! leaves anywhere in any run; so a program of one processor needs no search. `specs/StraightLine` says what their runs are, and `FenceMemories` what the memories are. `Alone` has the interpreter that finds the events of a program, and
//! `OneProcessor` what crashes leave, one after another. `one_processor_laws` says what is so of them.
//!
//! Promise: [`check`] returns a verdict that is right of every run from a sound state (`IsVerdict`), or why it is not told.
//! [`find_memories`] makes `fence_memories` of the events; no command uses it.
//! Definitions to read: `specs/Reachable`, `Ends`, `Outcomes`, `RunImages`, `Ran`, `Findings`, `Questions`, `Asked` (which
//! candidates count), `Sound` (states of loaded machines). How it is done: `Falls`, `Own`, `Followed`, `Ahead`, `LineSets`,
//! `Canonical`, `Covering`, `Explored`, `Apart`, `Trails` (machines from along a path), `KeyTables` (how keys are kept).
#![tactic(auto)]

mod apart;
mod asked;
mod asking;
mod canonical;
mod codes;
mod ends;
mod event;
mod falls;
mod fault;
mod found;
mod gathered;
mod key;
mod keys;
pub mod laws;
mod line_sets;
mod links;
mod looked;
mod memories;
mod moves;
mod node;
mod numbers;
mod on_the_way;
pub mod one_processor_laws;
mod own;
mod path;
mod question;
mod search;
mod sets_key;
mod trail;
mod tries;
mod verdict;
mod visit;

pub use asking::check;
pub use ends::have_ended;
pub use event::Event;
pub use fault::ExploreFault;
pub use memories::{CrashMemory, find_memories};
pub use numbers::Numbers;
pub use path::Path;
pub use question::Question;
pub use verdict::{Asked, Failure, Findings, Verdict};
