//! The inputs and the options of packing.

use crate::pattern::Pattern;
use std::fs::File;
use unixfs_build::Layout;

/// How symbolic links are packed.
#[derive(Clone, Copy, Debug, PartialEq, Eq)]
pub enum Symlinks {
    /// They are packed as links.
    Kept,
    /// The files and folders to which they lead are packed.
    Followed,
}

/// How files and folders are packed. The default is that of `ipfs add`.
#[derive(Clone, Copy, Debug, PartialEq, Eq)]
pub struct PackOptions<'a> {
    /// The layout of files, and the version of the CIDs.
    pub layout: Layout,
    /// How many bytes each chunk of a file has, except the last. 0 counts as 1.
    pub chunk: usize,
    /// Whether permissions and times are packed.
    pub preserve: bool,
    /// Whether entries are packed if their names begin with a dot.
    pub hidden: bool,
    /// How symbolic links are packed.
    pub symlinks: Symlinks,
    /// Patterns of entries that are left out.
    pub ignored: &'a [Pattern<'a>],
}

impl<'a> Default for PackOptions<'a> {
    fn default() -> PackOptions<'a> {
        PackOptions {
            layout: Layout::default(),
            chunk: 262_144,
            preserve: false,
            hidden: false,
            symlinks: Symlinks::Kept,
            ignored: &[],
        }
    }
}

/// A file or folder that is packed with all that is in it.
#[derive(Clone, Copy)]
pub struct Top<'a> {
    /// The name that it has in the folder around it.
    pub name: &'a str,
    /// The path to it.
    pub path: &'a str,
    /// The open file to read, if it isn't the one at the path.
    pub file: Option<&'a File>,
}
