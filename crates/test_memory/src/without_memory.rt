//! Calls that do not allocate, on inputs that do not either. No test allocates, so all pass
//! whichever allocation fails.

mod blocks;
mod conversions;
mod deserializer;
mod identifiers;
mod serializer;
mod sources;
mod trees;
