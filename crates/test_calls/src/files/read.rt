//! A file that `ipfs` made of `foobar` and a line feed in chunks of two bytes. The CID of its root
//! was computed apart from this crate.

use ipld_cid::Cid;
use std::alloc::{AllocError, Global};
use std::test::Fail;
use unixfs_files::{
    BlockStore, FileErrorKind, FileLimits, FileRange, FileWalk, PartError, write_file,
};

// QmRJHYTNvC3hmd9gJQARxLR1QMEincccBV53bBw524yyq6
const ROOT_CID: &[u8] =
    b"\x12\x20+\xf7\xf7[v\xe36\xf3J\x04\xab\xd8j\xf4#\xb5\x066(\xff\xd9\x1eS\x92D@x\x85\x1d\xc3\x16U";

const ROOT: &[u8] =
    b"\x12(\x0a\x22\x12\x20\xfe\xf9\xfe\x18\x04\x94+5\xe1\x9e\x14Z\x03\xf9\xc9\xd5\xca\x9c\x99}\xda\x0a\x94\x16\xf3\xf5\x15\xa5/\x1b<\xe1\x12\x00\x18\x0a\x12(\x0a\x22\x12\x20\xdf\xb9Ku\xac\xb2\x08\xfdHs\xd8Hr\xafX\xbde\xc71w\x0a}L\x0d\xee\xb4\x08\x8e\x879\x0b\xfe\x12\x00\x18\x0a\x12(\x0a\x22\x12\x20\x05D\x97\xaeN\x89\x81,\x83'jH\xe3\xe6y\x01:x\x8b|\x0e\xb0'\x12\xdf\x15\x09\x5c\x02\xd6\xcd,\x12\x00\x18\x0a\x12(\x0a\x22\x12\x20\xcc3,\xeb7\xde\xa7\xd3\xd7\xc0\x0d\x13\x93\x11v8\xd3\xed\x965u\x83lmD\xa2IQ\xe4D\xcf]\x12\x00\x18\x09\x0a\x0c\x08\x02\x18\x07\x20\x02\x20\x02\x20\x02\x20\x01";

const LEAVES: [&[u8]; 4] = [
    b"\x0a\x08\x08\x02\x12\x02fo\x18\x02",
    b"\x0a\x08\x08\x02\x12\x02ob\x18\x02",
    b"\x0a\x08\x08\x02\x12\x02ar\x18\x02",
    b"\x0a\x07\x08\x02\x12\x01\x0a\x18\x01",
];

// The blocks of the file, as far as they are there, in the order in which a walk wants them.
#[derive(Drop)]
struct InOrder {
    next: usize,
    count: usize,
}

impl BlockStore for InOrder {
    type Fault = ();

    fn block(&mut self, _cid: &Cid) -> Result<Option<&[u8]>, ()> {
        if self.next >= self.count {
            return Ok(None);
        }
        let block = match self.next {
            0 => ROOT,
            1 => LEAVES[0],
            2 => LEAVES[1],
            3 => LEAVES[2],
            _ => LEAVES[3],
        };
        self.next = self.next.saturating_add(1);
        Ok(Some(block))
    }
}

#[test]
fn walk(rt: HostRuntime) -> Result<(), Fail> {
    let root = Cid::try_from(ROOT_CID)?;
    let mut walk = FileWalk::new(rt.alloc(), &root, FileRange::WHOLE, &FileLimits::DEFAULT);
    assert!(rt; matches!(walk.take(rt.alloc(), LEAVES[0]), Err(PartError::Verify(_))));
    assert!(rt; walk.wanted() == Some(root));
    assert!(rt; walk.take(rt.alloc(), ROOT)?.is_empty());
    assert!(rt; matches!(walk.take(rt.alloc(), LEAVES[1]), Err(PartError::Verify(_))));
    assert_eq!(rt; walk.take(rt.alloc(), LEAVES[0])?, b"fo".as_slice());
    assert_eq!(rt; walk.take(rt.alloc(), LEAVES[1])?, b"ob".as_slice());
    assert_eq!(rt; walk.take(rt.alloc(), LEAVES[2])?, b"ar".as_slice());
    assert_eq!(rt; walk.take(rt.alloc(), LEAVES[3])?, b"\n".as_slice());
    assert!(rt; walk.wanted().is_none());
    assert!(rt; matches!(walk.take(rt.alloc(), ROOT), Err(PartError::Finished)));
    Ok(())
}

#[test]
fn range(rt: HostRuntime) -> Result<(), Fail> {
    let root = Cid::try_from(ROOT_CID)?;
    let mut range = FileRange {
        start: 3,
        length: Some(2),
    };
    let mut limits = FileLimits::DEFAULT;
    limits.bytes = 2;
    let mut walk = FileWalk::new(rt.alloc(), &root, range, &limits);
    assert!(rt; walk.take(rt.alloc(), ROOT)?.is_empty());
    assert_eq!(rt; walk.take(rt.alloc(), LEAVES[1])?, b"b".as_slice());
    assert_eq!(rt; walk.take(rt.alloc(), LEAVES[2])?, b"a".as_slice());
    assert!(rt; walk.wanted().is_none());
    limits.bytes = 1;
    let mut walk = FileWalk::new(rt.alloc(), &root, range, &limits);
    assert!(rt; matches!(walk.take(rt.alloc(), ROOT), Err(PartError::TooLarge)));
    range.length = None;
    range.start = 6;
    let mut walk = FileWalk::new(rt.alloc(), &root, range, &limits);
    assert!(rt; walk.take(rt.alloc(), ROOT)?.is_empty());
    assert_eq!(rt; walk.take(rt.alloc(), LEAVES[3])?, b"\n".as_slice());
    assert!(rt; walk.wanted().is_none());
    range.start = u64::MAX;
    let mut walk = FileWalk::new(rt.alloc(), &root, range, &limits);
    assert!(rt; walk.take(rt.alloc(), ROOT)?.is_empty());
    assert!(rt; walk.wanted().is_none());
    Ok(())
}

// Returns the error of the root within these limits.
fn error_of_root(alloc: Global, limits: &FileLimits) -> Option<PartError> {
    let Ok(root) = Cid::try_from(ROOT_CID) else {
        return None;
    };
    FileWalk::new(alloc, &root, FileRange::WHOLE, limits)
        .take(alloc, ROOT)
        .err()
}

#[test]
fn limits(rt: HostRuntime) -> Result<(), Fail> {
    let mut limits = FileLimits {
        bytes: 7,
        blocks: 1,
        waiting: 4,
        levels: 1,
    };
    assert!(rt; error_of_root(rt.alloc(), &limits).is_none());
    limits.bytes = 6;
    assert!(rt; error_of_root(rt.alloc(), &limits) == Some(PartError::TooLarge));
    limits.bytes = 7;
    limits.blocks = 0;
    assert!(rt; error_of_root(rt.alloc(), &limits) == Some(PartError::TooManyBlocks));
    limits.blocks = 1;
    limits.waiting = 3;
    assert!(rt; error_of_root(rt.alloc(), &limits) == Some(PartError::TooManyParts));
    limits.waiting = 4;
    limits.levels = 0;
    assert!(rt; error_of_root(rt.alloc(), &limits) == Some(PartError::TooDeep));
    Ok(())
}

#[test]
fn write(rt: HostRuntime) -> Result<(), Fail> {
    let root = Cid::try_from(ROOT_CID)?;
    let mut writer = Vec::new(rt.alloc());
    let mut store = InOrder { next: 0, count: 5 };
    let written = write_file(
        rt.alloc(),
        &root,
        FileRange::WHOLE,
        &FileLimits::DEFAULT,
        &mut store,
        &mut writer,
    );
    assert!(rt; written.is_ok());
    assert_eq!(rt; writer.as_slice(), b"foobar\n".as_slice());
    writer.clear();
    let mut store = InOrder { next: 0, count: 3 };
    let stopped = write_file(
        rt.alloc(),
        &root,
        FileRange::WHOLE,
        &FileLimits::DEFAULT,
        &mut store,
        &mut writer,
    );
    match stopped {
        Ok(()) => return Err(Fail::from(AllocError)),
        Err(error) => assert!(rt; matches!(&error.kind, FileErrorKind::Missing)),
    }
    assert_eq!(rt; writer.as_slice(), b"foob".as_slice());
    Ok(())
}
