//! A static library for the harness in `bench/`: each function does one piece of work `times`
//! times.
//!
//! It returns the sum of the results: a count of values or links, the length of an output, or 1 for
//! a value that is read. A piece of work that fails adds nothing. So a peer that does the same work
//! has the same sum.
#![tactic(auto)]

mod blocks;
mod cars;
mod cids;
mod message;
mod post;
mod trees;
mod typed;
