//! The commands of the program `ipld` on blocks and CIDs: `show`, `links`, `check`, `cid` and
//! `encode`.
//!
//! Each takes the arguments of its command that `clap` parsed, reads its files, writes standard
//! output and standard error, and returns how it ended.

mod check;
mod cid;
mod encode;
mod follow;
mod links;
mod show;

pub use check::run_check;
pub use cid::{BASES, run_cid};
pub use encode::run_encode;
pub use links::run_links;
pub use show::run_show;
