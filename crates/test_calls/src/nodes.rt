//! Nodes of DAG-PB, and the fields of their blocks.

mod blocks;
mod fields;
