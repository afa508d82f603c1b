//! Each item of `ipld_core` under its path, and a small program such as a user writes.

mod paths;
mod worked;
