//! Failed allocations: each test makes one call, or a few related ones, and checks the state after
//! a failed allocation.
//!
//! Without a failed allocation, the tests show that the calls succeed. `.ci/failed-allocations`
//! runs each test with its Nth allocation failing, for N from 1 on, until no allocation fails. A
//! test then ends with the error `NoMemory` and the name of the call that reported the failed
//! allocation. It ends with `Around` if the allocation was for the input of the call, or for the
//! value that its result is compared with.
//!
//! The tests of the module `without_memory` do not allocate.
#![tactic(auto)]

#[cfg(test)]
mod blocks;
#[cfg(test)]
mod builders;
#[cfg(test)]
mod cars;
#[cfg(test)]
mod codecs;
#[cfg(test)]
mod cursors;
#[cfg(test)]
mod ended;
#[cfg(test)]
mod identifiers;
#[cfg(test)]
mod program;
#[cfg(test)]
mod samples;
#[cfg(test)]
mod serializer;
#[cfg(test)]
mod tokens;
#[cfg(test)]
mod trees;
#[cfg(test)]
mod typed;
#[cfg(test)]
mod without_memory;
