//! Tests with gates of their own, which hold the commands' workers. What else only code can see of commands and threads is in
//! crate `call_tests`: beside it this crate is checked on another core, at the end of the longest chain.
#![tactic(auto)]

#[cfg(test)]
mod gates;
