//! The messages `Data` and `UnixTime`.

ghost use Rattle.std.specs.Prelude.{◌≡◌};
ghost use Rattle.unixfs.specs.Data.{code_of, type_of};

/// What a node of UnixFS stands for.
#[derive(Clone, Copy, Debug, PartialEq, Eq)]
pub enum DataType {
    /// Bytes of a file, in a node without a name of its own. Old writers have it in leaves.
    Raw,
    /// A folder, whose entries are the links of the node.
    Directory,
    /// A file, or a part of one.
    File,
    /// Metadata of another node. No writer is known to use it.
    Metadata,
    /// A symbolic link, whose target is the data of the message.
    Symlink,
    /// A part of a folder that is spread over several blocks by the hashes of its names.
    HamtShard,
}

impl DataType {
    /// Returns the number of the type in the message.
    #[inline(always)]
    pub fn code(self) -> u64
        ensures { result ≡ code_of self }
    {
        match self {
            DataType::Raw => 0,
            DataType::Directory => 1,
            DataType::File => 2,
            DataType::Metadata => 3,
            DataType::Symlink => 4,
            DataType::HamtShard => 5,
        }
    }

    /// Returns the type with this number in the message, if there is one.
    #[inline(always)]
    pub fn from_code(code: u64) -> Option<DataType>
        ensures { result ≡ type_of code }
    {
        match code {
            0 => Some(DataType::Raw),
            1 => Some(DataType::Directory),
            2 => Some(DataType::File),
            3 => Some(DataType::Metadata),
            4 => Some(DataType::Symlink),
            5 => Some(DataType::HamtShard),
            _ => None,
        }
    }
}

/// A time: the message `UnixTime`.
#[derive(Clone, Copy, Debug, PartialEq, Eq)]
pub struct UnixTime {
    /// The seconds since the beginning of 1970 in UTC. They are negative before it.
    pub seconds: i64,
    /// The nanoseconds after these seconds, at most 999,999,999. If they are 0, the message has no
    /// field for them.
    pub nanoseconds: u32,
}

/// The message `Data` of a node. Its bytes are borrowed from the block.
///
/// A field that is missing is `None`, which is not the same as 0 or empty.
#[derive(Drop)]
pub struct Data<'a> {
    /// What the node stands for.
    pub data_type: DataType,
    /// The bytes of a file in this node, the target of a symbolic link, or the bit field of a part
    /// of a folder.
    pub data: Option<&'a [u8]>,
    /// How many bytes of a file the node stands for. It is the claim of the block's author. Nothing
    /// checks it.
    pub filesize: Option<u64>,
    /// How many bytes of a file each link of the node stands for, in order. These are claims too.
    pub blocksizes: Vec<u64>,
    /// The hash function of a part of a folder, as a number of the table of multicodecs.
    pub hash_type: Option<u64>,
    /// The number of places in a part of a folder.
    pub fanout: Option<u64>,
    /// The permissions, as `chmod` has them in its low twelve bits.
    pub mode: Option<u32>,
    /// When the content was last changed.
    pub mtime: Option<UnixTime>,
}
