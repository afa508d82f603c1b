//! Blocks that the tests of JavaScript's `@ipld/dag-pb` have, links that are not sorted, and the
//! codec.

use dag_pb::{
    DagPbCodec, PbCodecError, PbEncodeError, PbError, PbErrorKind, PbLink, PbNode, PbNodeBuf,
    encode_node, read_node,
};
use ipld_cid::Cid;
use ipld_codec::{Codec, FaultReader, FaultWriter};
use std::alloc::{AllocError, Global};
use std::test::Fail;

// The CID of the bytes 0 to 4, with the hash function `identity` and the codec `raw`.
const CID: &[u8] = b"\x01\x55\x00\x05\x00\x01\x02\x03\x04";

// A name, a size, and the block of a node with only this link.
const LINKS: [(Option<&str>, Option<u64>, &[u8]); 6] = [
    (
        None,
        None,
        b"\x12\x0b\x0a\x09\x01\x55\x00\x05\x00\x01\x02\x03\x04",
    ),
    (
        Some(""),
        None,
        b"\x12\x0d\x0a\x09\x01\x55\x00\x05\x00\x01\x02\x03\x04\x12\x00",
    ),
    (
        Some("some name"),
        None,
        b"\x12\x16\x0a\x09\x01\x55\x00\x05\x00\x01\x02\x03\x04\x12\x09some name",
    ),
    (
        None,
        Some(0),
        b"\x12\x0d\x0a\x09\x01\x55\x00\x05\x00\x01\x02\x03\x04\x18\x00",
    ),
    (
        None,
        Some(1010),
        b"\x12\x0e\x0a\x09\x01\x55\x00\x05\x00\x01\x02\x03\x04\x18\xf2\x07",
    ),
    (
        None,
        Some(9_007_199_254_740_991),
        b"\x12\x14\x0a\x09\x01\x55\x00\x05\x00\x01\x02\x03\x04\x18\xff\xff\xff\xff\xff\xff\xff\x0f",
    ),
];

#[test]
fn blocks_of_links(rt: HostRuntime) -> Result<(), Fail> {
    let hash = Cid::try_from(CID)?;
    for (name, tsize, block) in LINKS {
        let mut links = Vec::new(rt.alloc());
        if links.push(PbLink { hash, name, tsize }).is_err() {
            return Err(Fail::from(AllocError));
        }
        let node = PbNode { links, data: None };
        let encoded = encode_node(rt.alloc(), &node)?;
        assert_eq!(rt; encoded.as_slice(), block);
        let read = read_node(rt.alloc(), block)?;
        assert!(rt; read.data.is_none() && read.links.len() == 1);
        assert!(rt; read.links[0].name == name && read.links[0].tsize == tsize);
    }
    Ok(())
}

#[test]
fn blocks_of_data(rt: HostRuntime) -> Result<(), Fail> {
    let none = PbNode {
        links: Vec::new(rt.alloc()),
        data: None,
    };
    assert!(rt; encode_node(rt.alloc(), &none)?.is_empty());
    let empty = PbNode {
        links: Vec::new(rt.alloc()),
        data: Some(b""),
    };
    assert_eq!(rt;
        encode_node(rt.alloc(), &empty)?.as_slice(),
        b"\x0a\x00".as_slice()
    );
    let some = PbNode {
        links: Vec::new(rt.alloc()),
        data: Some(b"\x00\x01\x02\x03\x04"),
    };
    let block: &[u8] = b"\x0a\x05\x00\x01\x02\x03\x04";
    assert_eq!(rt; encode_node(rt.alloc(), &some)?.as_slice(), block);
    Ok(())
}

// Encodes a node with a link of each name.
fn encode_names(alloc: Global, names: &[Option<&str>]) -> Result<Option<PbEncodeError>, Fail> {
    let mut links = Vec::new(alloc);
    for name in names {
        let link = PbLink {
            hash: Cid::try_from(CID)?,
            name: *name,
            tsize: None,
        };
        if links.push(link).is_err() {
            return Err(Fail::from(AllocError));
        }
    }
    let node = PbNode { links, data: None };
    match encode_node(alloc, &node) {
        Ok(_) => Ok(None),
        Err(error) => Ok(Some(error)),
    }
}

#[test]
fn order_of_links(rt: HostRuntime) -> Result<(), Fail> {
    let sorted = [
        None,
        Some(""),
        Some("Z"),
        Some("a"),
        Some("a"),
        Some("aa"),
        Some("\u{e9}"),
    ];
    assert!(rt; encode_names(rt.alloc(), &sorted)?.is_none());
    let unsorted = [Some("a"), Some("b"), None];
    let error = encode_names(rt.alloc(), &unsorted)?;
    assert!(rt; error == Some(PbEncodeError::LinkOrder(2)));
    Ok(())
}

// A node with two links, the second without a name, and data: the links after the data.
const DATA_FIRST: &[u8] =
    b"\x0a\x02hi\x12\x0e\x0a\x09\x01\x55\x00\x05\x00\x01\x02\x03\x04\x12\x01a\x12\x0d\x0a\x09\x01\x55\x00\x05\x00\x01\x02\x03\x04\x18\x07";

// The canonical block of this node with its links sorted.
const SORTED: &[u8] =
    b"\x12\x0d\x0a\x09\x01\x55\x00\x05\x00\x01\x02\x03\x04\x18\x07\x12\x0e\x0a\x09\x01\x55\x00\x05\x00\x01\x02\x03\x04\x12\x01a\x0a\x02hi";

// Returns the error of a call.
fn error_of<T: Drop>(outcome: Result<T, PbCodecError>) -> Option<PbCodecError> {
    match outcome {
        Ok(_) => None,
        Err(error) => Some(error),
    }
}

#[test]
fn codec(rt: HostRuntime) -> Result<(), Fail> {
    let alloc = rt.alloc();
    let mut reader = SORTED;
    let node: PbNodeBuf = DagPbCodec::decode(alloc, &mut reader)?;
    assert!(rt; reader.is_empty() && node.links.len() == 2);
    assert!(rt; node.links[0].name.is_none() && node.links[0].tsize == Some(7));
    let mut block = Vec::new(alloc);
    DagPbCodec::encode(alloc, &mut block, &node)?;
    assert_eq!(rt; block.as_slice(), SORTED);
    let same = DagPbCodec::encode_to_vec(alloc, &node)?;
    assert_eq!(rt; same.as_slice(), SORTED);
    let full = DagPbCodec::encode(alloc, &mut FaultWriter::new(0), &node);
    assert!(rt; error_of(full) == Some(PbCodecError::Write));
    Ok(())
}

#[test]
fn codec_rejects(rt: HostRuntime) -> Result<(), Fail> {
    let alloc = rt.alloc();
    let unsorted: PbNodeBuf = DagPbCodec::decode_from_slice(alloc, DATA_FIRST)?;
    let mut block = Vec::new(alloc);
    let rejected = DagPbCodec::encode(alloc, &mut block, &unsorted);
    assert!(rt; block.is_empty() && error_of(rejected) == Some(PbCodecError::LinkOrder(1)));
    let mut broken = FaultReader::new(SORTED, 4);
    let unread: Result<PbNodeBuf, PbCodecError> = DagPbCodec::decode(alloc, &mut broken);
    assert!(rt; error_of(unread) == Some(PbCodecError::Read));
    let cut: Result<PbNodeBuf, PbCodecError> = DagPbCodec::decode_from_slice(alloc, &SORTED[..33]);
    let error = PbError {
        kind: PbErrorKind::End,
        offset: 31,
    };
    assert!(rt; error_of(cut) == Some(PbCodecError::Block(error)));
    Ok(())
}
