//! Tests of behaviour that neither a clause nor a row can state.
//!
//! They cover failing sources, readers and writers, errors as texts, `ipld!` as a macro, and code
//! that is generic over the codec. They also cover cursors and builders after a rejection and
//! dropped over deep trees, walks, blocks of many keys, each item of `ipld_core` under its path,
//! the program, and the hashes, nodes, files and folders that other programs make.
#![tactic(auto)]

#[cfg(test)]
mod codec;
#[cfg(test)]
mod counts;
#[cfg(test)]
mod deep;
#[cfg(test)]
mod facade;
#[cfg(test)]
mod failing;
#[cfg(test)]
mod files;
#[cfg(test)]
mod hashes;
#[cfg(test)]
mod large;
#[cfg(test)]
mod links;
#[cfg(test)]
mod macros;
#[cfg(test)]
mod messages;
#[cfg(test)]
mod nodes;
#[cfg(test)]
mod pieces;
#[cfg(test)]
mod reading;
#[cfg(test)]
mod tokens;
#[cfg(test)]
mod walks;
#[cfg(test)]
mod writing;
