//! Roots of files and folders. Those of `IPFS`, and those of folders that have version 0, are what
//! `ipfs add` gives. The others were computed apart from this crate, by the writer of UnixFS in
//! tests/ipld.

use ipld_cid::Version;
use ipld_cid_text::usual_text;
use std::alloc::{AllocError, Global};
use std::test::Fail;
use unixfs::UnixTime;
use unixfs_build::{
    Attributes, BuildError, FileBlock, FileBuilder, Layout, NewEntry, NodeBlock, SHARDED_ABOVE,
    build_folder, build_symlink,
};
use unixfs_folders::FolderWalk;

// A file: its content, how many bytes a chunk has, and the root.
struct Row {
    content: &'static [u8],
    chunk: usize,
    root: &'static str,
}

const LOREM: &[u8] =
    b"Lorem ipsum dolor sit amet, sit enim montes aliquam. Cras non lorem, rhoncus condimentum, irure et ante. Pulvinar suscipit odio ante, et tellus a enim, wisi ipsum, vel rhoncus eget faucibus varius, luctus turpis nibh vel odio nulla pede.";

const IPFS: [Row; 8] = [
    Row {
        content: b"",
        chunk: 262_144,
        root: "QmbFMke1KXqnYyBBWxB74N4c5SBnJMVAiMNRcGu6x1AwQH",
    },
    Row {
        content: b"hello world",
        chunk: 262_144,
        root: "Qmf412jQZiuVUtdgnB36FXFX7xg5V6KEbSJ4dpQuhkLyfD",
    },
    Row {
        content: b"foobar\n",
        chunk: 262_144,
        root: "QmRgutAxd8t7oGkSm4wmeuByG6M51wcTso6cubDdQtuEfL",
    },
    Row {
        content: b"foobar\n",
        chunk: 2,
        root: "QmRJHYTNvC3hmd9gJQARxLR1QMEincccBV53bBw524yyq6",
    },
    Row {
        content: LOREM,
        chunk: 1,
        root: "QmRQ6NZNUs4JrCT2y7tmCC1wUhjqYuTssB8VXbbN3rMffg",
    },
    Row {
        content: LOREM,
        chunk: 32,
        root: "QmYSLcVQqxKygiq7x9w1XGYxU29EShB8ZemiaQ8GAAw17h",
    },
    Row {
        content: &[0; 349],
        chunk: 2,
        root: "QmcHNWF1d56uCDSfJPA7t9fadZRV9we5HGSTGSmwuqmMP9",
    },
    Row {
        content: &[0; 174],
        chunk: 1,
        root: "QmdgQac8c6Bo3MP5bHAg2yQ25KebFUsmkZFvyByYzf8UCB",
    },
];

// Returns the last of the blocks of a file that is cut into chunks of this length.
fn root_of(
    alloc: Global,
    layout: &Layout,
    attributes: &Attributes,
    chunk: usize,
    content: &[u8],
) -> Result<FileBlock, Fail> {
    let mut builder = FileBuilder::new(alloc, layout)?;
    let mut rest = content;
    for _ in 0..content.len() {
        if rest.len() <= chunk {
            break;
        }
        let (first, others) = rest.split_at(chunk);
        builder.push(alloc, first)?;
        rest = others;
    }
    let mut blocks = builder.finish(alloc, rest, attributes)?;
    match blocks.pop() {
        Some(root) => Ok(root),
        None => Err(Fail::from(AllocError)),
    }
}

// Returns the CID of the root.
fn root_text(
    alloc: Global,
    layout: &Layout,
    attributes: &Attributes,
    chunk: usize,
    content: &[u8],
) -> Result<String, Fail> {
    let root = root_of(alloc, layout, attributes, chunk, content)?;
    Ok(usual_text(alloc, &root.cid)?)
}

#[test]
fn roots_of_ipfs(rt: HostRuntime) -> Result<(), Fail> {
    let alloc = rt.alloc();
    for row in &IPFS {
        let root = root_text(
            alloc,
            &Layout::default(),
            &Attributes::default(),
            row.chunk,
            row.content,
        )?;
        assert_eq!(rt; root.as_str(), row.root);
    }
    Ok(())
}

#[test]
fn other_layouts(rt: HostRuntime) -> Result<(), Fail> {
    let alloc = rt.alloc();
    let none = Attributes::default();
    let raw = Layout {
        version: Version::V1,
        raw_leaves: true,
        width: 2,
    };
    let root = root_text(alloc, &raw, &none, 262_144, b"")?;
    assert_eq!(rt;
        root.as_str(),
        "bafkreihdwdcefgh4dqkjv67uzcmw7ojee6xedzdetojuzjevtenxquvyku"
    );
    let root = root_text(alloc, &raw, &none, 262_144, b"hello world")?;
    assert_eq!(rt;
        root.as_str(),
        "bafkreifzjut3te2nhyekklss27nh3k72ysco7y32koao5eei66wof36n5e"
    );
    let root = root_text(alloc, &raw, &none, 1, b"12345678")?;
    assert_eq!(rt;
        root.as_str(),
        "bafybeiggrspbevbe63o3hasedsmqmkc6zf7o5oz4467rvm54sk2v4ajode"
    );
    let root = root_of(alloc, &raw, &none, 1, b"123456789")?;
    let text = usual_text(alloc, &root.cid)?;
    assert_eq!(rt;
        text.as_str(),
        "bafybeifp4suip7m3csqminzfsyg4a6meztrrzkliqpdpr3jzsmx2evsgna"
    );
    assert_eq!(rt; root.size, 9);
    assert_eq!(rt; root.total, 953);
    let nodes = Layout {
        version: Version::V1,
        raw_leaves: false,
        width: 3,
    };
    let root = root_text(alloc, &nodes, &none, 1, b"1234567890")?;
    assert_eq!(rt;
        root.as_str(),
        "bafybeig4z3o5zuupkrmstafwzzhrvn2llsovt2nxoeksulazmn7hf55wry"
    );
    let mixed = Layout {
        version: Version::V0,
        raw_leaves: true,
        width: 174,
    };
    let root = root_text(alloc, &mixed, &none, 2, b"foobar\n")?;
    assert_eq!(rt;
        root.as_str(),
        "QmP1h7NSAhBDW2moahZxX5TMy7oVpqAxrLjxXhxwQk5EXU"
    );
    Ok(())
}

#[test]
fn attributes_of_the_root(rt: HostRuntime) -> Result<(), Fail> {
    let alloc = rt.alloc();
    let layout = Layout::default();
    let mut attributes = Attributes {
        mode: Some(0o644),
        mtime: Some(UnixTime {
            seconds: 1_700_000_000,
            nanoseconds: 123,
        }),
    };
    let root = root_text(alloc, &layout, &attributes, 2, b"foobar\n")?;
    assert_eq!(rt;
        root.as_str(),
        "QmRid8hfWKA9ktQLuS69EXzdddMxvhti5krCbRKpJdXpuA"
    );
    attributes.mtime = Some(UnixTime {
        seconds: -1,
        nanoseconds: 0,
    });
    let root = root_text(alloc, &layout, &attributes, 262_144, b"foobar\n")?;
    assert_eq!(rt;
        root.as_str(),
        "QmWEGtJK5wgBGahJG3UCgXksLJDNtC8uSADfYmugtNdsSV"
    );
    attributes.mtime = None;
    let raw = Layout {
        version: Version::V1,
        raw_leaves: true,
        width: 174,
    };
    let root = root_text(alloc, &raw, &attributes, 262_144, b"foobar\n")?;
    assert_eq!(rt;
        root.as_str(),
        "bafybeih7opfpjeeprz6heblkylou64ygy3ks33l7hfzy6rql4zdhnqc4di"
    );
    Ok(())
}

#[test]
fn many_chunks(rt: HostRuntime) -> Result<(), Fail> {
    let alloc = rt.alloc();
    let mut builder = FileBuilder::new(alloc, &Layout::default())?;
    for _ in 0..69_999 {
        builder.push(alloc, &[0])?;
    }
    let mut blocks = builder.finish(alloc, &[0], &Attributes::default())?;
    let Some(root) = blocks.pop() else {
        return Err(Fail::from(AllocError));
    };
    let text = usual_text(alloc, &root.cid)?;
    assert_eq!(rt;
        text.as_str(),
        "QmX43vrW8tYsrsAGraYfN5HN9c8qk9f4jnEdvzvVrhY7qx"
    );
    assert_eq!(rt; root.size, 70_000);
    assert_eq!(rt; root.total, 3_731_936);
    Ok(())
}

#[test]
fn errors(rt: HostRuntime) -> Result<(), Fail> {
    let alloc = rt.alloc();
    let mut layout = Layout::default();
    layout.width = 1;
    assert!(rt; matches!(FileBuilder::new(alloc, &layout), Err(BuildError::Width)));
    layout.width = 2;
    let builder = FileBuilder::new(alloc, &layout)?;
    let attributes = Attributes {
        mode: None,
        mtime: Some(UnixTime {
            seconds: 0,
            nanoseconds: 1_000_000_000,
        }),
    };
    let error = builder.finish(alloc, b"", &attributes).err();
    assert!(rt; error == Some(BuildError::Nanoseconds(1_000_000_000)));
    let sentence = format!(in alloc; "{}", BuildError::Nanoseconds(1_000_000_000))?;
    assert_eq!(rt;
        sentence.as_str(),
        "the nanoseconds of a time are more than 999999999: 1000000000"
    );
    Ok(())
}

// The entry of a block.
fn entry_of<'a>(name: &'a str, block: &NodeBlock) -> NewEntry<'a> {
    NewEntry {
        name,
        cid: block.cid,
        total: block.total,
    }
}

// Returns the first of the blocks of a folder of version 0.
fn folder_of(
    alloc: Global,
    sharded_above: u64,
    entries: &[NewEntry<'_>],
) -> Result<NodeBlock, Fail> {
    let none = Attributes::default();
    let mut blocks = build_folder(alloc, Version::V0, &none, sharded_above, entries)?;
    blocks.reverse();
    match blocks.pop() {
        Some(root) => Ok(root),
        None => Err(Fail::from(AllocError)),
    }
}

// Returns the root of a file of version 0.
fn file_of(alloc: Global, content: &[u8]) -> Result<FileBlock, Fail> {
    let none = Attributes::default();
    root_of(alloc, &Layout::default(), &none, 262_144, content)
}

// The entry of a file.
fn file_entry<'a>(name: &'a str, file: &FileBlock) -> NewEntry<'a> {
    NewEntry {
        name,
        cid: file.cid,
        total: file.total,
    }
}

// Returns entries with these names and this total, which lead to a file.
fn entries_named<'a>(
    alloc: Global,
    names: &[&'a str],
    file: &FileBlock,
    total: u64,
) -> Result<Vec<NewEntry<'a>>, AllocError> {
    let mut entries = Vec::with_capacity(alloc, names.len())?;
    for name in names {
        let entry = NewEntry {
            name: *name,
            cid: file.cid,
            total,
        };
        if entries.push(entry).is_err() {
            return Err(AllocError);
        }
    }
    Ok(entries)
}

#[test]
fn symlinks_and_plain_folders(rt: HostRuntime) -> Result<(), Fail> {
    let alloc = rt.alloc();
    let none = Attributes::default();
    let link = build_symlink(alloc, Version::V0, &none, "foobar")?;
    let text = usual_text(alloc, &link.cid)?;
    assert_eq!(rt;
        text.as_str(),
        "QmNgQEdXVdLw79nH2bnxLMxnyWMaXrijfqMTiDVat3iyuz"
    );
    let link = build_symlink(alloc, Version::V0, &none, "b")?;
    let text = usual_text(alloc, &link.cid)?;
    assert_eq!(rt;
        text.as_str(),
        "QmfLJN6HLyREnWr7QQNmgmuNziUhcbwUopkHQ8gD3pMfp6"
    );
    let car = file_of(alloc, b"car\n")?;
    let inside = folder_of(alloc, SHARDED_ABOVE, &[file_entry("car", &car)])?;
    let root = folder_of(
        alloc,
        SHARDED_ABOVE,
        &[entry_of("a", &link), entry_of("b", &inside)],
    )?;
    let text = usual_text(alloc, &root.cid)?;
    assert_eq!(rt;
        text.as_str(),
        "QmZDVQHwjHwA4SyzEDtJLNxmZeJVK1W8BWFAHV61x2Rs19"
    );
    assert_eq!(rt; root.total, 158);
    Ok(())
}

#[test]
fn empty_folders(rt: HostRuntime) -> Result<(), Fail> {
    let alloc = rt.alloc();
    let root = folder_of(alloc, 0, &[])?;
    let text = usual_text(alloc, &root.cid)?;
    assert_eq!(rt;
        text.as_str(),
        "QmUNLLsPACCz1vLxQVkXqqLX5R1X345qqfHbsf67hvA3Nn"
    );
    let mut attributes = Attributes::default();
    let blocks = build_folder(alloc, Version::V1, &attributes, SHARDED_ABOVE, &[])?;
    assert_eq!(rt; blocks.len(), 1);
    let text = usual_text(alloc, &blocks[0].cid)?;
    assert_eq!(rt;
        text.as_str(),
        "bafybeiczsscdsbs7ffqz55asqdf3smv6klcw3gofszvwlyarci47bgf354"
    );
    attributes.mode = Some(0o755);
    let blocks = build_folder(alloc, Version::V1, &attributes, SHARDED_ABOVE, &[])?;
    let text = usual_text(alloc, &blocks[0].cid)?;
    assert_eq!(rt;
        text.as_str(),
        "bafybeibvjvylaiqr3dng5lcgfi4efjxiytcoodswp2m3dx5oyludj4orda"
    );
    Ok(())
}

// The names of sixteen empty files, sorted.
const LONG_NAMES: [&str; 16] = [
    "long-named-file-003",
    "long-named-file-004",
    "long-named-file-009",
    "long-named-file-016",
    "long-named-file-017",
    "long-named-file-025",
    "long-named-file-033",
    "long-named-file-034",
    "long-named-file-037",
    "long-named-file-038",
    "long-named-file-040",
    "long-named-file-041",
    "long-named-file-048",
    "long-named-file-049",
    "long-named-file-050",
    "long-named-file-058",
];

#[test]
fn sharded_folders(rt: HostRuntime) -> Result<(), Fail> {
    let alloc = rt.alloc();
    let file = file_of(alloc, b"")?;
    let entries = entries_named(alloc, &LONG_NAMES, &file, file.total)?;
    let none = Attributes::default();
    // The names and the CIDs have 848 bytes.
    let blocks = build_folder(alloc, Version::V0, &none, 848, &entries)?;
    assert_eq!(rt; blocks.len(), 1);
    let blocks = build_folder(alloc, Version::V0, &none, 847, &entries)?;
    assert_eq!(rt; blocks.len(), 9);
    let text = usual_text(alloc, &blocks[0].cid)?;
    assert_eq!(rt;
        text.as_str(),
        "QmZbFPTnDBMWbQ6iBxQAhuhLz8Nu9XptYS96e7cuf5wvbk"
    );
    let mut walk = FolderWalk::new(alloc, &blocks[0].cid);
    let mut found = 0;
    for block in &blocks {
        assert!(rt; walk.wanted() == Some(block.cid));
        let entries = walk.take(alloc, &block.data)?.len();
        found = entries.saturating_add(found);
    }
    assert_eq!(rt; found, 16);
    assert!(rt; walk.wanted().is_none());
    Ok(())
}

#[test]
fn folder_in_a_shard(rt: HostRuntime) -> Result<(), Fail> {
    let alloc = rt.alloc();
    let foobar = file_of(alloc, b"foobar\n")?;
    let inside = folder_of(alloc, SHARDED_ABOVE, &[file_entry("foobar", &foobar)])?;
    let root = folder_of(alloc, 0, &[entry_of("non_sharded_dir", &inside)])?;
    let text = usual_text(alloc, &root.cid)?;
    assert_eq!(rt;
        text.as_str(),
        "QmQXUANxYGpkwMTWQUdZBPx9jqfFP7acNgL4FHRWkndKCe"
    );
    Ok(())
}

// Returns the error of a plain folder of entries with these names, each of this total.
fn error_of(alloc: Global, names: &[&str], total: u64) -> Result<Option<BuildError>, Fail> {
    let file = file_of(alloc, b"")?;
    let entries = entries_named(alloc, names, &file, total)?;
    let none = Attributes::default();
    Ok(build_folder(alloc, Version::V0, &none, SHARDED_ABOVE, &entries).err())
}

#[test]
fn errors_of_folders(rt: HostRuntime) -> Result<(), Fail> {
    let alloc = rt.alloc();
    let rows: [(&[&str], u64, Option<BuildError>); 8] = [
        (&["a", "b"], 7, None),
        (&["a", "b"], u64::MAX, Some(BuildError::TooLarge)),
        (&["a", "a"], 0, Some(BuildError::NameOrder(1))),
        (&["a", "c", "b"], 0, Some(BuildError::NameOrder(2))),
        (&["", "a"], 0, Some(BuildError::InvalidName(0))),
        (&["..", "a"], 0, Some(BuildError::InvalidName(0))),
        (&["a", "b/c"], 0, Some(BuildError::InvalidName(1))),
        (&["a", "b\0"], 0, Some(BuildError::InvalidName(1))),
    ];
    for (names, total, error) in rows {
        assert!(rt; error_of(alloc, names, total)? == error);
    }
    let sentence = format!(in alloc; "{}", BuildError::NameOrder(2))?;
    assert_eq!(rt;
        sentence.as_str(),
        "names have to ascend by their bytes, each once: entry 2"
    );
    Ok(())
}
