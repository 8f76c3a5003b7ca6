//! Tests of what no command of the program shows: of many threads on one live machine, of receipts that are kept back or are
//! strangers, of public calls that no command makes, and of a conversation of which each call fails. Those of the layers below are in crate `layer_tests`, those of gates
//! that hold the commands' workers in `gate_tests`. What texts, steps, scripts and reports say, and what comes of failures, is
//! asked of the built program (`tests/program.py`, `tests/texts.py`, `tests/refused-memory`, `tests/failing_devices.py`).
//! `tests/refused-memory` also runs some of these tests again and again, and refuses each of their allocations in turn.
//! They are in a crate of their own, since a crate with tests is proved twice.
//!
//! Helpers have no clauses: a test then carries no facts. What takes long is what a helper holds at each `?`.
#![tactic(auto)]

#[cfg(test)]
mod closing;
#[cfg(test)]
mod devices;
#[cfg(test)]
mod ending_states;
#[cfg(test)]
mod machines;
#[cfg(test)]
mod refusals;
#[cfg(test)]
mod refused_memory;
#[cfg(test)]
mod scripts;
#[cfg(test)]
mod seat_calls;
#[cfg(test)]
mod sessions;
#[cfg(test)]
mod sharing;
#[cfg(test)]
mod states;
#[cfg(test)]
mod terminals;
