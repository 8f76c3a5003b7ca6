//! Tests of the layers below commands and threads: words and layouts, the table of kept order, store buffers, pending
//! lists, processors, programs as bytes, the lines of litmus texts, sheets, machines, crash images, the writes that are missing there,
//! conditions in parts and of two terms, programs with an instruction more, the memories at the fences of a program, the steps that a
//! state enables, the runs that are told where one fails, and the debugger's sessions. They are of public calls that no command
//! makes, of values that no report says, of stops and watchers that are other code than the commands', and of how many steps
//! going back replays.
//! `tests/refused-memory` runs some of them again and again, and refuses their allocations, or wants that there are none.
//! Crates `call_tests` and `gate_tests` have those of what stands above: this crate is checked while the crates above are
//! proved.
//!
//! Helpers have no clauses: a test then carries no facts. What takes long is what a helper holds at each `?`.
#![tactic(auto)]

#[cfg(test)]
mod buffers;
#[cfg(test)]
mod checkpoints;
#[cfg(test)]
mod conjuncts;
#[cfg(test)]
mod enabled_steps;
#[cfg(test)]
mod every_run;
#[cfg(test)]
mod fence_memories;
#[cfg(test)]
mod fixtures;
#[cfg(test)]
mod full_storage;
#[cfg(test)]
mod image_calls;
#[cfg(test)]
mod layouts;
#[cfg(test)]
mod machine_calls;
#[cfg(test)]
mod machines;
#[cfg(test)]
mod masks;
#[cfg(test)]
mod object_calls;
#[cfg(test)]
mod order;
#[cfg(test)]
mod origins;
#[cfg(test)]
mod processors;
#[cfg(test)]
mod put_in;
#[cfg(test)]
mod refusals;
#[cfg(test)]
mod refused_memory;
#[cfg(test)]
mod serials;
#[cfg(test)]
mod sessions;
#[cfg(test)]
mod sheet_texts;
#[cfg(test)]
mod stops;
#[cfg(test)]
mod taking_no_memory;
#[cfg(test)]
mod text_lines;
#[cfg(test)]
mod turns;
#[cfg(test)]
mod two_sides;
#[cfg(test)]
mod watchers;
