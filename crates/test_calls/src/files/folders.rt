//! A sharded folder that `ipfs` made, a plain one, and blocks that are not folders. The CIDs were
//! computed apart from this crate.

use dag_pb::{PbLink, PbNode, encode_node};
use ipld_cid::Cid;
use std::alloc::{AllocError, Global};
use std::test::Fail;
use unixfs::DataType;
use unixfs_folders::{Folder, FolderErrorKind, FolderWalk, Lookup, LookupStep, read_folder};

// The root of a sharded folder of sixteen empty files `long-named-file-NNN`, by the tests of
// go-ipfs.
const ROOT: &[u8] =
    b"\x12+\x0a\x22\x12 \x90N\x14\x85\xd6\x8bV\xa7\x1fy\xd4L\xd3\x06\xd56\xeeR\xad\xb6\xa9\x0c)\xb6\xa1\xfa\x95\xa5\x04\xa08\xf7\x12\x0207\x18\xb5\x01\x12+\x0a\x22\x12 w &\xa2\xc0\xe0!q\x0f\x8d\x0d\x8fr\x08\x02U\xd5\x135V\xd3\xae\x88\x1e4\x05\xe6si/y\xa8\x12\x0213\x18\xb0\x01\x12+\x0a\x22\x12 u\xe9\xdf\x11\x8abQ \x00lc\xb7\x5c\x8f%\xf1\xe2\x83\x97U\x5c\xcf\x8c\x10p)3-^\x9bd\x8a\x12\x0254\x18\xaa\x01\x12+\x0a\x22\x12 \xdb\x91o\xd0\x00\xe1-\xec\xdf\x07$\x96\x5c\xbfA\x923\xa1\x87\xaeA]Y\xfb\xaf\xea,8Q\xe5\x84\xad\x12\x0256\x18\xb1\x01\x12+\x0a\x22\x12 \x9a\xdcg\xf70\xbd\x8b/~\xff\x8f)\x10\xec\x83\x91\x81M\xa9\xd7\xae\x08\xd0v\x16Z\x982\xbc\xe9\x9f\x92\x12\x0282\x18\xaf\x01\x12+\x0a\x22\x12 \xbbH\xed\xba\x8f\x02\x94\x83\xa6\x98;\xa7\x0a\xef,\xd8m\x14\xaac?3\x00|\xe1uh\x01\x05\xda\x8d\x81\x12\x02C1\x18\xaf\x01\x12+\x0a\x22\x12 G\xb1\xf3\x17\x15.\xb4%\xd8x\xe5\xe3W}\xd7\xc4\x0a\xf4\xbc+\x00P\x83\xc4\xbc\x9e\xc1\x91W\xa8`\x5c\x12\x02D4\x18\xa6\x01\x12+\x0a\x22\x12 {~\x16\x1c\xf9$m\x7f\xca.)\x86\xaa\xc9\x8b\xbf/\xefO\x13\xf6\xfe\xa4\x97\xfc\x8fC\xd8\x89\x9e\x0d\xe5\x12\x02F1\x18\xa6\x01\x0a(\x08\x05\x12\x1f\x02\x00\x00\x00\x10\x00\x02\x00\x00\x00\x00\x00\x00\x00\x04\x00\x00\x00\x00\x00P\x00\x00\x00\x00\x00\x00\x00\x08\x00\x80(\x220\x80\x02";

// The shard in the slot 07 of the root. It has the files 016 and 037.
const SHARD: &[u8] =
    b"\x12=\x0a\x22\x12 \xbf\xcc\xdax{\xab\xa3+Y\xc7\x84P\xac= \xb636\x0bC\x99,w(\x9f\x9e\xd4m\x845a\xe6\x12\x1548long-named-file-016\x18\x06\x12=\x0a\x22\x12 \xbf\xcc\xdax{\xab\xa3+Y\xc7\x84P\xac= \xb636\x0bC\x99,w(\x9f\x9e\xd4m\x845a\xe6\x12\x15FBlong-named-file-037\x18\x06\x0a)\x08\x05\x12 \x08\x00\x00\x00\x00\x00\x00\x00\x00\x00\x00\x00\x00\x00\x00\x00\x00\x00\x00\x00\x00\x00\x01\x00\x00\x00\x00\x00\x00\x00\x00\x00(\x220\x80\x02";

// QmZbFPTnDBMWbQ6iBxQAhuhLz8Nu9XptYS96e7cuf5wvbk
const ROOT_CID: &[u8] =
    b"\x12\x20\xa7\x2d\xe6\x0f\xc7\x1b\x48\xc3\x8f\x4e\xfe\x5c\x94\x5e\x33\x30\x92\x83\x0a\xd8\x63\xe2\x03\xbd\x0b\x7f\xf4\xe7\x1a\x95\x4f\x43";

// QmbFMke1KXqnYyBBWxB74N4c5SBnJMVAiMNRcGu6x1AwQH
const EMPTY_FILE: &[u8] =
    b"\x12\x20\xbf\xcc\xda\x78\x7b\xab\xa3\x2b\x59\xc7\x84\x50\xac\x3d\x20\xb6\x33\x36\x0b\x43\x99\x2c\x77\x28\x9f\x9e\xd4\x6d\x84\x35\x61\xe6";

// QmWMffEXJBirvAAsVaMCCpDvAzVKcophV2XPEbVXQiNdNX, the shard that comes next.
const NEXT_CID: &[u8] =
    b"\x12\x20\x77\x20\x26\xa2\xc0\xe0\x21\x71\x0f\x8d\x0d\x8f\x72\x08\x02\x55\xd5\x13\x35\x56\xd3\xae\x88\x1e\x34\x05\xe6\x73\x69\x2f\x79\xa8";

#[test]
fn look_up(rt: HostRuntime) -> Result<(), Fail> {
    let root = Cid::try_from(ROOT_CID)?;
    let mut lookup = Lookup::new(&root, "long-named-file-016");
    assert!(rt;
        matches!(
            lookup.take(rt.alloc(), SHARD),
            Err(FolderErrorKind::Verify(_))
        )
    );
    assert!(rt; matches!(lookup.take(rt.alloc(), ROOT)?, LookupStep::Below));
    let file = Cid::try_from(EMPTY_FILE)?;
    match lookup.take(rt.alloc(), SHARD)? {
        LookupStep::Found(cid) => assert!(rt; cid == file),
        _ => return Err(Fail::from(AllocError)),
    }
    assert!(rt; lookup.wanted().is_none());
    let mut lookup = Lookup::new(&root, "long-named-file-047");
    assert!(rt; matches!(lookup.take(rt.alloc(), ROOT)?, LookupStep::Missing));
    Ok(())
}

#[test]
fn list(rt: HostRuntime) -> Result<(), Fail> {
    let mut walk = FolderWalk::new(rt.alloc(), &Cid::try_from(ROOT_CID)?);
    assert!(rt; walk.take(rt.alloc(), ROOT)?.is_empty());
    let entries = walk.take(rt.alloc(), SHARD)?;
    assert!(rt; entries.len() == 2);
    assert!(rt; entries[0].name == "long-named-file-016" && entries[0].tsize == Some(6));
    assert!(rt; entries[1].name == "long-named-file-037");
    assert!(rt; entries[1].cid == Cid::try_from(EMPTY_FILE)?);
    assert!(rt; walk.wanted() == Some(Cid::try_from(NEXT_CID)?));
    Ok(())
}

// Adds a link to `hash` with this name.
fn push_link<'a>(links: &mut Vec<PbLink<'a>>, hash: Cid, name: &'a str) -> Result<(), AllocError> {
    let link = PbLink {
        hash,
        name: Some(name),
        tsize: None,
    };
    match links.push(link) {
        Ok(()) => Ok(()),
        Err(_) => Err(AllocError),
    }
}

// Returns a node with these data, whose links have these names.
fn block_of(alloc: Global, names: &[&str], data: &[u8]) -> Result<Vec<u8>, Fail> {
    let hash = Cid::try_from(EMPTY_FILE)?;
    let mut links = Vec::new(alloc);
    for name in names {
        push_link(&mut links, hash, *name)?;
    }
    let node = PbNode {
        links,
        data: Some(data),
    };
    Ok(encode_node(alloc, &node)?)
}

#[test]
fn plain_folder(rt: HostRuntime) -> Result<(), Fail> {
    let block = block_of(rt.alloc(), &["a", "b"], b"\x08\x01")?;
    let folder = read_folder(rt.alloc(), &block)?;
    match folder {
        Folder::Plain(entries) => assert!(rt; entries.len() == 2 && entries[1].name == "b"),
        Folder::Shard(_) => return Err(Fail::from(AllocError)),
    }
    Ok(())
}

// Returns the error of reading a folder with these data, whose links have these names.
fn error_of(alloc: Global, names: &[&str], data: &[u8]) -> Result<Option<FolderErrorKind>, Fail> {
    let block = block_of(alloc, names, data)?;
    match read_folder(alloc, &block) {
        Ok(_) => Ok(None),
        Err(error) => Ok(Some(error)),
    }
}

#[test]
fn plain_errors(rt: HostRuntime) -> Result<(), Fail> {
    let rows: [(&[&str], Option<FolderErrorKind>); 7] = [
        (&[], None),
        (&["a", "b"], None),
        (&["", "a"], Some(FolderErrorKind::InvalidName(0))),
        (&["..", "a"], Some(FolderErrorKind::InvalidName(0))),
        (&["a", "b/c"], Some(FolderErrorKind::InvalidName(1))),
        (&["a", "b\0"], Some(FolderErrorKind::InvalidName(1))),
        (&["a", "a"], Some(FolderErrorKind::NameOrder(1))),
    ];
    for (names, error) in rows {
        assert!(rt; error_of(rt.alloc(), names, b"\x08\x01")? == error);
    }
    let file = error_of(rt.alloc(), &[], b"\x08\x02")?;
    assert!(rt; file == Some(FolderErrorKind::NotFolder(DataType::File)));
    Ok(())
}

#[test]
fn shard_errors(rt: HostRuntime) -> Result<(), Fail> {
    let rows: [(&[&str], &[u8], Option<FolderErrorKind>); 9] = [
        (&["01a"], b"\x08\x05\x12\x01\x02\x28\x22\x30\x80\x02", None),
        (
            &["01", "0Fb"],
            b"\x08\x05\x12\x02\x80\x02\x28\x22\x30\x80\x02",
            None,
        ),
        (
            &["01a"],
            b"\x08\x05\x12\x01\x03\x28\x22\x30\x80\x02",
            Some(FolderErrorKind::BitField),
        ),
        (
            &["01a"],
            b"\x08\x05\x12\x02\x00\x02\x28\x22\x30\x80\x02",
            Some(FolderErrorKind::BitField),
        ),
        (
            &["0f"],
            b"\x08\x05\x12\x02\x80\x00\x28\x22\x30\x80\x02",
            Some(FolderErrorKind::InvalidSlot(0)),
        ),
        (
            &["01", "01a"],
            b"\x08\x05\x12\x01\x02\x28\x22\x30\x80\x02",
            Some(FolderErrorKind::SlotOrder(1)),
        ),
        (
            &["01."],
            b"\x08\x05\x12\x01\x02\x28\x22\x30\x80\x02",
            Some(FolderErrorKind::InvalidName(0)),
        ),
        (
            &["01a"],
            b"\x08\x05\x12\x01\x02\x28\x12\x30\x80\x02",
            Some(FolderErrorKind::HashFunction),
        ),
        (
            &["01a"],
            b"\x08\x05\x12\x01\x02\x28\x22\x30\x10",
            Some(FolderErrorKind::Fanout),
        ),
    ];
    for (names, data, error) in rows {
        assert!(rt; error_of(rt.alloc(), names, data)? == error);
    }
    Ok(())
}
