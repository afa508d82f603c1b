//! The library `libkombilad`: CIDs, blocks of DAG-CBOR and DAG-PB, their DAG-JSON, files and folders of
//! UnixFS, and CARs for C and for languages that call C.
//!
//! Each export calls the libraries below, and its clauses state its result and its output. The
//! numbers that the exports return are those of `status`. `bindings/c/kombilad.h` declares the
//! exports for C, with the rules for callers.
#![tactic(auto)]

mod attributes;
mod base32;
mod block_at;
mod box_parts;
mod car_header;
mod car_index;
mod car_next_part;
mod car_open_part;
mod car_place;
mod car_section;
mod cid;
mod cid_record;
mod digest;
mod encode;
mod file;
mod fill;
mod folder;
mod handle;
mod held;
mod links;
mod lookup;
mod naming;
mod node;
mod of_json;
mod pack;
mod pack_folder;
mod packing;
mod pb_tape;
mod positions;
mod rewrite;
mod status;
mod status_text;
mod tape;
mod to_json;
mod verify;
mod version;
mod walk;
