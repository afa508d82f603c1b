//! The commands of the program `ipld` on files and folders of UnixFS: `cat`, `ls`, `pack` and
//! `unpack`.
//!
//! Each takes the arguments of its command that `clap` parsed, reads a CAR, or files and folders,
//! writes standard output, a folder or a CAR, and standard error, and returns how it ended.

mod cat;
mod entry;
mod ls;
mod pack;
mod unpack;

pub use cat::run_cat;
pub use ls::run_ls;
pub use pack::{pack_options_of, patterns_of, run_pack, unixfs_root};
pub use unpack::run_unpack;
