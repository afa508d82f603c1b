//! Files and folders of UnixFS.

mod built;
mod folders;
mod messages;
mod read;
