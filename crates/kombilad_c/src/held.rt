//! What a handle of C holds.

use crate::packing::Packing;
use unixfs_files::FileWalk;
use unixfs_folders::FolderWalk;

/// What a handle holds.
#[derive(Drop)]
pub enum Held {
    /// A walk over a file.
    File(FileWalk),
    /// A walk over a folder.
    Folder(FolderWalk),
    /// What is packed.
    Packing(Packing),
}
