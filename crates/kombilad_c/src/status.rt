//! The numbers that the exports return. `kombilad.h` has a name for each.

ghost use Rattle.std.specs.Prelude.{◌≡◌};
ghost use Rattle.kombilad_c.specs.Status as numbers;

use dag_cbor_blocks::{BlockError, BlockErrorKind};
use dag_cbor_format::CborError;
use dag_cbor_tape::EncodeErrorKind;
use dag_json::ReadErrorKind;
use dag_pb::PbErrorKind;
use ipld_block::VerifyError;
use ipld_car::CarErrorKind;
use ipld_cid::CidError;
use ipld_cid_text::TextError;
use unixfs::{NodeError, UnixFsErrorKind};
use unixfs_build::BuildError;
use unixfs_files::PartError;
use unixfs_folders::FolderErrorKind;

/// The call succeeded.
pub(crate) const OK: u32 = 0;
/// An allocation failed.
pub(crate) const MEMORY: u32 = 1;
/// The buffer is too short for its content.
pub(crate) const TOO_SHORT: u32 = 2;
/// A block is not the canonical encoding of its tree.
pub(crate) const NOT_CANONICAL: u32 = 3;
/// A number is not that of a base.
pub(crate) const UNKNOWN_BASE: u32 = 4;
/// The text of a version 0 CID is only in base58btc.
pub(crate) const V0_BASE: u32 = 5;
/// A string, a byte string, a list or a map is too long for an entry of a tape.
pub(crate) const TOO_LONG: u32 = 8;
/// The error of an operation that no export performs.
pub(crate) const OTHER: u32 = 15;
/// The version of a CID is not known.
pub(crate) const CID_VERSION: u32 = 20;
/// A text is not UTF-8.
pub(crate) const TEXT_UTF8: u32 = 37;
/// A path leads to no key or index.
pub(crate) const PATH_MISSING: u32 = 64;
/// A path continues after a value that is not a list, a map or a link.
pub(crate) const PATH_NOT_A_CONTAINER: u32 = 65;
/// No section of a CAR is left.
pub(crate) const CAR_DONE: u32 = 96;
/// The length of a section is 2^64 or more.
pub(crate) const CAR_LENGTH: u32 = 99;
/// A map would be read as a link or as bytes in DAG-JSON.
pub(crate) const JSON_RESERVED_MAP: u32 = 169;

/// More bytes of a CAR are needed.
pub(crate) const CAR_MORE: u32 = 176;
/// A walk has taken all its blocks.
pub(crate) const WALK_DONE: u32 = 192;
/// A handle holds no walk of this kind.
pub(crate) const WALK_CLOSED: u32 = 193;
/// The codec of a CID is neither raw nor dag-pb.
pub(crate) const FILE_CODEC: u32 = 194;
/// A folder has no entry with the name.
pub(crate) const FOLDER_MISSING: u32 = 236;
/// A search needs one more block of its folder.
pub(crate) const FOLDER_MORE: u32 = 237;
/// Blocks that were packed before wait to be taken.
pub(crate) const PACK_WAITING: u32 = 246;

/// Returns the number of the reason why bytes are not a CID.
pub(crate) fn cid_status(error: CidError) -> u32
    ensures { result ≡ numbers.cid_status error }
{
    match error {
        CidError::Memory => MEMORY,
        CidError::End => 16,
        CidError::NotShortest => 17,
        CidError::VarintTooLarge => 18,
        CidError::ExplicitVersion0 => 19,
        CidError::UnknownVersion(_) => CID_VERSION,
        CidError::DigestTooLong => 21,
        CidError::TrailingBytes => 22,
        CidError::InvalidV0Multihash | CidError::InvalidText => OTHER,
    }
}

/// Returns the number of the reason why a text is not one of a CID.
pub(crate) fn text_status(error: TextError) -> u32
    ensures { result ≡ numbers.text_status error }
{
    match error {
        TextError::UnknownBase => 32,
        TextError::InvalidLength => 33,
        TextError::InvalidLetter(_) => 34,
        TextError::UnusedBits => 35,
        TextError::WrongVersion => 36,
        TextError::Cid(error) => cid_status(error),
    }
}

// Returns the number of the reason why the bytes of a link are not a CID.
fn link_status(error: CidError) -> u32
    ensures { result ≡ numbers.link_status error }
{
    match error {
        CidError::Memory => MEMORY,
        CidError::End => 80,
        CidError::NotShortest => 81,
        CidError::VarintTooLarge => 82,
        CidError::ExplicitVersion0 => 83,
        CidError::UnknownVersion(_) => 84,
        CidError::DigestTooLong => 85,
        CidError::TrailingBytes => 86,
        CidError::InvalidV0Multihash | CidError::InvalidText => OTHER,
    }
}

/// Returns the number of the reason why bytes are not a block.
pub(crate) fn block_status(error: CborError) -> u32
    ensures { result ≡ numbers.block_status error }
{
    match error {
        CborError::Memory => MEMORY,
        CborError::End => 48,
        CborError::NotShortest => 49,
        CborError::Float => 50,
        CborError::Unsupported => 51,
        CborError::Utf8 => 52,
        CborError::KeyNotText => 53,
        CborError::DuplicateKey => 54,
        CborError::LinkBytes => 55,
        CborError::TrailingBytes => 56,
        CborError::Cid(error) => link_status(error),
        CborError::Read | CborError::Write | CborError::IntegerRange => OTHER,
    }
}

/// Returns the number of the reason why a block is not read within limits.
pub(crate) fn limit_status(kind: BlockErrorKind) -> u32
    ensures { result ≡ numbers.limit_status kind }
{
    match kind {
        BlockErrorKind::Cbor(error) => block_status(error),
        BlockErrorKind::TooDeep => 6,
        BlockErrorKind::TooMany => 7,
    }
}

/// Returns the number of the reason why reading a block stopped, and writes the offset of the
/// error.
#[inline(always)]
pub(crate) fn stop_status(error: BlockError, offset: &mut usize) -> u32
    ensures status { result ≡ numbers.limit_status error.kind }
    ensures place { offset.new ≡ error.offset }
{
    *offset = error.offset;
    limit_status(error.kind)
}

/// Returns the number of the reason why a CAR is not read.
pub(crate) fn car_status(kind: CarErrorKind) -> u32
    ensures { result ≡ numbers.car_status kind }
{
    match kind {
        // A reader of bytes in memory does not fail.
        CarErrorKind::Memory | CarErrorKind::Read(_) => MEMORY,
        CarErrorKind::UnexpectedEnd => 97,
        CarErrorKind::LengthNotShortest => 98,
        CarErrorKind::LengthTooLarge => CAR_LENGTH,
        CarErrorKind::Empty => 100,
        CarErrorKind::TooLong(_) => 101,
        CarErrorKind::NotAHeader => 102,
        CarErrorKind::Payload => 103,
        CarErrorKind::ShortPayload { .. } => 104,
        CarErrorKind::Cid(error) => cid_status(error),
        CarErrorKind::HeaderBlock(kind) => limit_status(kind),
    }
}

/// Returns the number of the reason why a block is not known to match a CID.
pub(crate) fn verify_status(error: VerifyError) -> u32
    ensures { result ≡ numbers.verify_status error }
{
    match error {
        VerifyError::UnknownHash(_) => 112,
        VerifyError::WrongDigest => 113,
    }
}

/// Returns the number of the reason why a tape is not encoded as a block.
pub(crate) fn encode_status(kind: EncodeErrorKind) -> u32
    ensures { result ≡ numbers.encode_status kind }
{
    match kind {
        EncodeErrorKind::Memory => MEMORY,
        EncodeErrorKind::Missing => 128,
        EncodeErrorKind::LeftOver => 129,
        EncodeErrorKind::Kind => 130,
        EncodeErrorKind::Span => 131,
        EncodeErrorKind::Fields => 132,
        EncodeErrorKind::Content => 133,
        EncodeErrorKind::Utf8 => 134,
        EncodeErrorKind::Float => 135,
        EncodeErrorKind::DuplicateKey => 137,
        EncodeErrorKind::Cid(error) => link_status(error),
    }
}

/// Returns the number of the reason why bytes are not a node of DAG-PB.
pub(crate) fn pb_status(kind: PbErrorKind) -> u32
    ensures { result ≡ numbers.pb_status kind }
{
    match kind {
        PbErrorKind::Memory => MEMORY,
        PbErrorKind::End => 144,
        PbErrorKind::VarintTooLarge => 145,
        PbErrorKind::UnknownField(_) => 146,
        PbErrorKind::FieldOrder => 147,
        PbErrorKind::NoHash => 148,
        PbErrorKind::Utf8 => 149,
        PbErrorKind::Cid(error) => link_status(error),
    }
}

/// Returns the number of the reason why a text is not read as DAG-JSON within limits.
pub(crate) fn json_status(kind: ReadErrorKind) -> u32
    ensures { result ≡ numbers.json_status kind }
{
    match kind {
        ReadErrorKind::Memory => MEMORY,
        ReadErrorKind::TooDeep => 6,
        ReadErrorKind::TooMany => 7,
        ReadErrorKind::Utf8 => 160,
        ReadErrorKind::Syntax => 161,
        ReadErrorKind::End => 162,
        ReadErrorKind::Float => 163,
        ReadErrorKind::IntegerRange => 164,
        ReadErrorKind::DuplicateKey => 165,
        ReadErrorKind::Link => 166,
        ReadErrorKind::Bytes => 167,
        ReadErrorKind::Reserved => 168,
        ReadErrorKind::NotCanonical => OTHER,
    }
}

// Returns the number of the reason why the data of a node are not a message of UnixFS.
fn message_status(kind: UnixFsErrorKind) -> u32
    ensures { result ≡ numbers.message_status kind }
{
    match kind {
        UnixFsErrorKind::Memory => MEMORY,
        UnixFsErrorKind::End => 208,
        UnixFsErrorKind::VarintTooLarge => 209,
        UnixFsErrorKind::UnknownField(_) => 210,
        UnixFsErrorKind::FieldOrder => 211,
        UnixFsErrorKind::NoType => 212,
        UnixFsErrorKind::UnknownType(_) => 213,
        UnixFsErrorKind::ModeTooLarge(_) => 214,
        UnixFsErrorKind::NoSeconds => 215,
        UnixFsErrorKind::Nanoseconds(_) => 216,
    }
}

/// Returns the number of the reason why a block is not a node of UnixFS.
pub(crate) fn node_status(error: NodeError) -> u32
    ensures { result ≡ numbers.node_status error }
{
    match error {
        NodeError::Block(error) => pb_status(error.kind),
        NodeError::NoData => 195,
        NodeError::Message(error) => message_status(error.kind),
    }
}

// Returns the number of the reason why a walk doesn't take a block.
fn file_status(error: PartError) -> u32
    ensures { result ≡ numbers.file_status error }
{
    match error {
        PartError::Memory => MEMORY,
        PartError::Verify(error) => verify_status(error),
        PartError::Codec(_) => FILE_CODEC,
        PartError::Node(error) => node_status(error),
        PartError::NotFile(_) => 196,
        PartError::SizeCount => 197,
        PartError::FileSize => 198,
        PartError::PartSize => 199,
        PartError::TooLarge => 200,
        PartError::TooManyBlocks => 201,
        PartError::TooDeep => 202,
        PartError::TooManyParts => 203,
        PartError::Finished => WALK_DONE,
    }
}

/// Returns the byte at which a block is not a node of UnixFS: a byte of the block, or of the data of
/// the node.
pub(crate) fn node_place(error: NodeError) -> usize
    ensures { result ≡ numbers.node_place error }
{
    match error {
        NodeError::Block(error) => error.offset,
        NodeError::NoData => 0,
        NodeError::Message(error) => error.offset,
    }
}

/// Returns the number of the reason why a walk doesn't take a block, and writes the offset of the
/// error, which is 0 unless the block is not a node.
pub(crate) fn stop_file(error: PartError, offset: &mut usize) -> u32
    ensures status { result ≡ numbers.file_status error }
    ensures place { offset.new ≡ numbers.file_place error }
{
    *offset = match error {
        PartError::Node(error) => node_place(error),
        _ => 0,
    };
    file_status(error)
}

// Returns the number of the reason why a block is not taken for a folder.
fn folder_status(error: FolderErrorKind) -> u32
    ensures { result ≡ numbers.folder_status error }
{
    match error {
        FolderErrorKind::Memory => MEMORY,
        FolderErrorKind::Codec(_) => 224,
        FolderErrorKind::Verify(error) => verify_status(error),
        FolderErrorKind::Node(error) => node_status(error),
        FolderErrorKind::NotFolder(_) => 225,
        FolderErrorKind::HashFunction => 226,
        FolderErrorKind::Fanout => 227,
        FolderErrorKind::InvalidName(_) => 228,
        FolderErrorKind::NameOrder(_) => 229,
        FolderErrorKind::InvalidSlot(_) => 230,
        FolderErrorKind::SlotOrder(_) => 231,
        FolderErrorKind::BitField => 232,
        FolderErrorKind::NotShard => 233,
        FolderErrorKind::WrongSlot(_) => 234,
        FolderErrorKind::TooDeep => 235,
        FolderErrorKind::Finished => WALK_DONE,
    }
}

// Returns the byte at which a block is not a node, the number of the link at fault, or 0.
fn folder_place(error: FolderErrorKind) -> usize
    ensures { result ≡ numbers.folder_place error }
{
    match error {
        FolderErrorKind::Node(error) => node_place(error),
        FolderErrorKind::InvalidName(index) => index,
        FolderErrorKind::NameOrder(index) => index,
        FolderErrorKind::InvalidSlot(index) => index,
        FolderErrorKind::SlotOrder(index) => index,
        FolderErrorKind::WrongSlot(index) => index,
        _ => 0,
    }
}

/// Returns the number of the reason why a block is not taken for a folder, and writes the place of
/// the error: the byte at which the block is not a node, the number of the link at fault, or 0.
pub(crate) fn stop_folder(error: FolderErrorKind, place: &mut usize) -> u32
    ensures status { result ≡ numbers.folder_status error }
    ensures place { place.new ≡ numbers.folder_place error }
{
    *place = folder_place(error);
    folder_status(error)
}

/// Returns the number of the reason why something is not packed.
pub(crate) fn pack_status(error: BuildError) -> u32
    ensures { result ≡ numbers.pack_status error }
{
    match error {
        BuildError::Memory => MEMORY,
        BuildError::Width => 240,
        BuildError::TooLarge => 241,
        BuildError::Nanoseconds(_) => 242,
        BuildError::InvalidName(_) => 243,
        BuildError::NameOrder(_) => 244,
        BuildError::SameHash => 245,
    }
}

/// Returns the number of the reason why a folder is not packed, and writes the number of the entry
/// at fault, or 0.
pub(crate) fn stop_pack(error: BuildError, place: &mut usize) -> u32
    ensures status { result ≡ numbers.pack_status error }
    ensures place { place.new ≡ numbers.pack_place error }
{
    *place = match error {
        BuildError::InvalidName(index) | BuildError::NameOrder(index) => index,
        _ => 0,
    };
    pack_status(error)
}
