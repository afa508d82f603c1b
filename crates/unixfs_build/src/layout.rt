//! How a file is cut into blocks.

ghost use Rattle.std.specs.Prelude.{◌≡◌, ◌&&◌, false};
ghost use Rattle.unixfs_build.specs.Blocks.{has_none};

use ipld_cid::Version;
use unixfs::UnixTime;

/// How a file is cut into blocks, and which CIDs they have. The default is that of `ipfs add`:
/// version 0, and at most 174 links in a node.
#[derive(Clone, Copy, Debug, PartialEq, Eq)]
pub struct Layout {
    /// The version of the CIDs of nodes. Raw leaves have version 1.
    pub version: Version,
    /// Whether a chunk is a block of the codec `raw`. Otherwise it is in a node of UnixFS.
    pub raw_leaves: bool,
    /// The greatest number of links of a node. It is at least 2.
    pub width: usize,
}

impl Layout {
    // Returns whether a leaf with these attributes is a raw block.
    pub(crate) fn is_raw_leaf(&self, attributes: &Attributes) -> bool
        ensures { result ≡ (self.now.raw_leaves && has_none attributes.now) }
    {
        self.raw_leaves && attributes.is_none()
    }
}

impl Default for Layout {
    fn default() -> Layout
        ensures { result ≡ record { version = Version.V0; raw_leaves = false; width = 174 } }
    {
        Layout {
            version: Version::V0,
            raw_leaves: false,
            width: 174,
        }
    }
}

/// What the root of a file says of it beside its bytes. The default is nothing.
#[derive(Clone, Copy, Debug, Default, PartialEq, Eq)]
pub struct Attributes {
    /// The permissions. The low twelve bits are those of `chmod`.
    pub mode: Option<u32>,
    /// When the content was last changed.
    pub mtime: Option<UnixTime>,
}

impl Attributes {
    // Says nothing.
    pub(crate) const NONE: Attributes = Attributes {
        mode: None,
        mtime: None,
    };

    // Returns whether there are none.
    pub(crate) fn is_none(&self) -> bool
        ensures { result ≡ has_none self.now }
    {
        self.mode.is_none() && self.mtime.is_none()
    }
}
