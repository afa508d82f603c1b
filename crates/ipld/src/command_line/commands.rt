//! The commands of `ipld`, their arguments and their help.

use crate::block_commands::BASES;
use crate::command_line::{Argument, Description, Kind};

pub(super) const ABOUT: &str = "Read, check and create IPLD blocks, CIDs and CAR files.";

pub(super) const WORDS: &str = "\
Terms:
  block  the bytes of one value, in DAG-CBOR, DAG-PB (files and folders of
         IPFS), DAG-JSON or raw (plain bytes).
  CID    identifies a block by its codec and the hash of its bytes.
  link   a CID inside a block.
  CAR    a file that contains blocks and their CIDs.
  FILE   a file name, or - for standard input.

Exit status:
  0  success, and every check passed.
  1  a check failed: invalid block, no such path, missing block, unverified
     digest.
  2  usage, I/O or memory error.

'ipld COMMAND --help' prints the options of a command, with examples.";

// An option without a value or other properties.
const FLAG: Argument = Argument {
    name: "",
    short: None,
    kind: Kind::Flag,
    help: "",
    needs: &[],
    excludes: &[],
};

const BLOCK_CODEC: Argument = Argument {
    name: "codec",
    short: Some('c'),
    kind: Kind::Codec(&["dag-cbor", "dag-pb", "dag-json", "raw"]),
    help: "Codec of the block.",
    ..FLAG
};

const BLOCKS: Argument = Argument {
    name: "files",
    kind: Kind::Words(&["FILE"]),
    help: "Blocks to read.",
    ..FLAG
};

const JSON_LINES: Argument = Argument {
    name: "json",
    help: "Print JSON objects, one per line.",
    ..FLAG
};

const LIMIT: Argument = Argument {
    name: "limit",
    kind: Kind::Value("SIZE"),
    help: "Maximum size of a CAR section, e.g. 512K or 8M. [default: 8M]",
    ..FLAG
};

const ZERO_PADDING: Argument = Argument {
    name: "zero-padding",
    help: "Allow zeros after the last section, in a file that is padded to a size.",
    ..FLAG
};

// How files and folders are packed.
const CID_VERSION: Argument = Argument {
    name: "cid-version",
    kind: Kind::OneOf("N", &["0", "1"]),
    help: "Version of the CIDs. Version 1 includes --raw-leaves, unless --preserve is given. [default: 0]",
    ..FLAG
};

const RAW_LEAVES: Argument = Argument {
    name: "raw-leaves",
    help: "Put the bytes of files into raw blocks.",
    excludes: &["no-raw-leaves"],
    ..FLAG
};

const NO_RAW_LEAVES: Argument = Argument {
    name: "no-raw-leaves",
    help: "Put the bytes of files into nodes of DAG-PB, also for version 1.",
    ..FLAG
};

const CHUNK: Argument = Argument {
    name: "chunk",
    kind: Kind::Value("SIZE"),
    help: "Number of bytes of a chunk, at most 1M. [default: 256K]",
    ..FLAG
};

const WIDTH: Argument = Argument {
    name: "width",
    kind: Kind::Value("N"),
    help: "Maximum number of links of a node of a file, from 2 to 8192. [default: 174]",
    ..FLAG
};

const PACK_ATTRIBUTES: Argument = Argument {
    name: "preserve",
    help: "Pack permissions and times.",
    ..FLAG
};

const HIDDEN: Argument = Argument {
    name: "hidden",
    help: "Pack also the entries of folders whose names begin with a dot.",
    ..FLAG
};

const IGNORE: Argument = Argument {
    name: "ignore",
    kind: Kind::Repeated("PATTERN"),
    help: "Leave out entries of folders that match PATTERN, in the syntax of .gitignore. It can be given several times.",
    ..FLAG
};

const PACK_LINKS: Argument = Argument {
    name: "symlinks",
    kind: Kind::OneOf("LINKS", &["keep", "follow"]),
    help: "Pack symbolic links (keep), or the files and folders to which they lead (follow). [default: keep]",
    ..FLAG
};

const SHOW: Description = Description {
    name: "show",
    about: "Print a block, or the value at a path.",
    more: Some(SHOW_MORE),
    arguments: &[
        Argument {
            name: "words",
            kind: Kind::Words(&["FILE", "PATH"]),
            help: "A block or a CAR, and a path: map keys and list indexes, such as a/b/0/c.",
            ..FLAG
        },
        Argument {
            name: "path",
            short: Some('p'),
            kind: Kind::Hyphened("PATH"),
            help: "Path to print in several files, which are the other arguments. / is the whole block.",
            ..FLAG
        },
        Argument {
            name: "json",
            help: "Print DAG-JSON on one line, e.g. for jq.",
            ..FLAG
        },
        Argument {
            name: "unchecked",
            help: "Print a block of a CAR even if its digest is wrong or its hash function unsupported.",
            excludes: &["codec"],
            ..FLAG
        },
        Argument {
            excludes: &["codec"],
            ..LIMIT
        },
        Argument {
            excludes: &["codec"],
            ..ZERO_PADDING
        },
        BLOCK_CODEC,
    ],
};

const SHOW_MORE: &str = "\
Links are printed as CIDs, bytes as hexadecimal digits in h'..', and strings in
quotation marks, with control characters escaped. Below 40 levels, lines show
the level number instead of more indentation.

A FILE that begins with a CAR header is read as a CAR, unless --codec is given.
A path that begins with a CID, such as CID/a, /ipfs/CID/a or ipfs://CID/a,
starts in that block, and any other path in the block of the first root. The
path follows links through the blocks of the CAR. If it ends at a link, the CID
is printed. Digests are verified, unless --unchecked is given.

Examples:
  $ ipld show photo.cbor
  {
    \"name\": \"photo\"
    \"size\": 42
  }

  $ ipld show photo.cbor size
  42

  $ ipld show --json album.cbor
  {\"photos\":[{\"/\":\"bafyreidl4puu5qgoyaxslyujtbdk5g7ps2j5jziwepjyktvekap6cpeeui\"}],\"title\":\"Cats\"}

  $ ipld show album.car photos/0/name
  \"photo\"

  $ ipld show --path name photo.cbor cat.cbor
  \"photo\"
  \"cat\"";

const LINKS: Description = Description {
    name: "links",
    about: "List the links in blocks.",
    more: Some(LINKS_MORE),
    arguments: &[BLOCKS, JSON_LINES, BLOCK_CODEC],
};

const LINKS_MORE: &str = "\
Links are printed in the order of the block's bytes, or of its sorted keys for
DAG-JSON. A repeated link is printed again.

Examples:
  $ ipld links album.cbor
  bafyreidl4puu5qgoyaxslyujtbdk5g7ps2j5jziwepjyktvekap6cpeeui

  $ ipld links --json photo.cbor album.cbor
  {\"file\":\"photo.cbor\",\"links\":[]}
  {\"file\":\"album.cbor\",\"links\":[\"bafyreidl4puu5qgoyaxslyujtbdk5g7ps2j5jziwepjyktvekap6cpeeui\"]}

  $ ipld links --codec dag-pb folder.pb
  bafkreibxtagdhfi542yoiugdoansdg7652jqkrdql5rxzuivrnrye65tsa";

const CHECK: Description = Description {
    name: "check",
    about: "Validate blocks.",
    more: Some(CHECK_MORE),
    arguments: &[
        BLOCKS,
        Argument {
            name: "canonical",
            help: "Also require sorted map keys (canonical DAG-CBOR).",
            ..FLAG
        },
        JSON_LINES,
        BLOCK_CODEC,
    ],
};

const CHECK_MORE: &str = "\
Valid blocks are listed on standard output, and the first error of an invalid
block is printed on standard error. --json prints both on standard output.

Examples:
  $ ipld check photo.cbor album.cbor
  photo.cbor: valid
  album.cbor: valid

  $ ipld check --codec dag-pb folder.pb
  folder.pb: valid

  $ ipld check notes.txt
  ipld: notes.txt: not valid DAG-CBOR: 4 bytes left over after the value, from byte 9 (it looks like text)

  $ ipld check --canonical unsorted.cbor
  ipld: unsorted.cbor: valid, but not canonical DAG-CBOR: the keys of a map are not sorted length first

  $ ipld check --json photo.cbor
  {\"file\":\"photo.cbor\",\"valid\":true}";

const CID: Description = Description {
    name: "cid",
    about: "Print a file's CID, or decode a CID.",
    more: Some(CID_MORE),
    arguments: &[
        Argument {
            name: "what",
            kind: Kind::Words(&["FILE|TEXT"]),
            help: "A file, or a CID.",
            ..FLAG
        },
        Argument {
            name: "text",
            short: Some('t'),
            help: "Read all arguments as CIDs, and - as standard input with a CID on every line.",
            excludes: &["codec"],
            ..FLAG
        },
        Argument {
            name: "base",
            short: Some('b'),
            kind: Kind::OneOf("BASE", BASES),
            help: "Print only the CID, in this base.",
            ..FLAG
        },
        Argument {
            name: "v0",
            help: "Print only the CID, as version 0 (DAG-PB with SHA2-256).",
            excludes: &["v1"],
            ..FLAG
        },
        Argument {
            name: "v1",
            help: "Print only the CID, as version 1.",
            ..FLAG
        },
        JSON_LINES,
        BLOCK_CODEC,
        Argument {
            name: "unixfs",
            help: "Print the root that 'ipld pack' gives a file or folder, and write nothing.",
            excludes: &["text", "codec"],
            ..FLAG
        },
        Argument {
            needs: ONLY_UNIXFS,
            ..CID_VERSION
        },
        Argument {
            needs: ONLY_UNIXFS,
            ..RAW_LEAVES
        },
        Argument {
            needs: ONLY_UNIXFS,
            ..NO_RAW_LEAVES
        },
        Argument {
            needs: ONLY_UNIXFS,
            ..CHUNK
        },
        Argument {
            needs: ONLY_UNIXFS,
            ..WIDTH
        },
        Argument {
            needs: ONLY_UNIXFS,
            ..PACK_ATTRIBUTES
        },
        Argument {
            needs: ONLY_UNIXFS,
            ..HIDDEN
        },
        Argument {
            needs: ONLY_UNIXFS,
            ..IGNORE
        },
        Argument {
            needs: ONLY_UNIXFS,
            ..PACK_LINKS
        },
    ],
};

// The options for packing have no effect on blocks.
const ONLY_UNIXFS: &[&str] = &["unixfs"];

const CID_MORE: &str = "\
An argument that is a CID, with or without /ipfs/ or ipfs:// before it, is
decoded. Any other argument is a file, whose block gets a CID with SHA2-256, of
version 1 unless --v0 is given. For a file whose name is a CID, write ./NAME.
--codec applies only to files. A CID of version 0 is always written in
base58btc.

With --unixfs every argument is a file or folder, and its CID is the root that
'ipfs add' and 'ipld pack --no-wrap' give it.

Examples:
  $ ipld cid photo.cbor
  bafyreidl4puu5qgoyaxslyujtbdk5g7ps2j5jziwepjyktvekap6cpeeui

  $ ipld cid --codec raw notes.txt
  bafkreibxtagdhfi542yoiugdoansdg7652jqkrdql5rxzuivrnrye65tsa

  $ ipld cid bafkqaaa
  cid         bafkqaaa
  version     1
  codec       raw (0x55)
  hash        identity (0x0)
  digest
  bytes       01550000
  base16      f01550000
  base32      bafkqaaa
  base32upper BAFKQAAA
  base36      kdaznk
  base58btc   z2yYDV
  base64url   uAVUAAA

  $ ipld cid --v0 bafybeidywu7sffpdpcbsxcmoq47gi2qrjhp7litv4pa52rxmfsx3yz3dh4
  QmWTqvpQAeDQYZEHoYSbhoUvWY3SCJPehPBHiu5LfcPNAa

  $ ipld cid --unixfs notes.txt
  QmaMLRsvmDRCezZe2iebcKWtEzKNjBaQfwcu7mcpdm8eY2";

/// The commands on blocks and CIDs.
pub(super) const BLOCK_COMMANDS: &[Description] = &[SHOW, LINKS, CHECK, CID];

// A CAR of files and folders, and a path in it.
const FOLDER_CAR: Argument = Argument {
    name: "file",
    kind: Kind::Word("FILE"),
    help: "A CAR with files and folders of IPFS (UnixFS).",
    ..FLAG
};

const FILE_PATH: Argument = Argument {
    name: "path",
    kind: Kind::OptionalWord("PATH"),
    help: "A path that begins in the first root, such as a/b, or with a CID, such as CID/a/b.",
    ..FLAG
};

const HOLD: Argument = Argument {
    name: "hold",
    kind: Kind::Value("SIZE"),
    help: "Maximum size of the blocks that are held, if the CAR is standard input or a pipe. [default: 32M]",
    ..FLAG
};

const CAT: Description = Description {
    name: "cat",
    about: "Write a file of IPFS out of a CAR.",
    more: Some(CAT_MORE),
    arguments: &[
        FOLDER_CAR,
        FILE_PATH,
        Argument {
            name: "offset",
            kind: Kind::Value("SIZE"),
            help: "Leave out this many bytes at the beginning of the file, and the blocks that only they are in.",
            ..FLAG
        },
        Argument {
            name: "length",
            kind: Kind::Value("SIZE"),
            help: "Write at most this many bytes, and read no block after them.",
            ..FLAG
        },
        Argument {
            name: "max-size",
            kind: Kind::Value("SIZE"),
            help: "Maximum size of the output, e.g. 8M or 1G. A larger file or range is rejected before its first byte.",
            ..FLAG
        },
        HOLD,
        LIMIT,
        ZERO_PADDING,
    ],
};

const CAT_MORE: &str = "\
The output is what the CID names: every block is verified before its bytes are
written, and each size in a block is compared with that of its bytes. If a block
is missing or invalid, its CID is printed, the status is 1, and the output is the
beginning of what was asked for. A file can have 16,777,216 blocks, in 64 levels.

A CAR on standard input is read once, so files of any size can be piped from a
gateway that is not trusted. A block can come before it is needed, or be needed
again. Blocks that have passed are held up to --hold.

Examples:
  $ ipld cat site.car about.txt
  Cats, and their pictures.

  $ ipld cat site.car pictures/0.txt | wc -c
  16

  $ ipld cat --offset 6 --length 3 - about.txt < site.car
  and

  $ ipld cat site.car pictures
  ipld: site.car: bafybeihjlinmnctf3gw64zx6zvgttii22xc4o7xqpdz7at6j4lkpedl7qi: a folder, not a file";

const LS: Description = Description {
    name: "ls",
    about: "List a folder of IPFS in a CAR.",
    more: Some(LS_MORE),
    arguments: &[
        FOLDER_CAR,
        FILE_PATH,
        Argument {
            name: "long",
            short: Some('l'),
            help: "Print the type, the size of a file, the CID and the name.",
            excludes: &["json"],
            ..FLAG
        },
        Argument {
            name: "recursive",
            short: Some('R'),
            help: "List the folders in the folder too.",
            ..FLAG
        },
        JSON_LINES,
        HOLD,
        LIMIT,
        ZERO_PADDING,
    ],
};

const LS_MORE: &str = "\
Every block that is read is verified. The names are printed in the order of the
folder: sorted, or in the order of their hashes if the folder is sharded. Control
characters are escaped. A folder with a name that is invalid or repeated is
rejected, and nothing of it is printed.

The type is file, folder, link or ?, if the block of the entry is not in the CAR
or is none of these.

JSON objects:
  {\"name\":..,\"cid\":..,\"type\":..,\"size\":..}

Only files have a size.

Examples:
  $ ipld ls site.car
  about.txt
  pictures

  $ ipld ls -R site.car
  about.txt
  pictures
  pictures/0.txt

  $ ipld ls -l site.car pictures
  file\t16\tbafkreic2xehcbhzu4fp5vxpuf7rmc6xugg37ufs56o3w4wc5a53cju3kci\t0.txt

  $ ipld ls --json site.car | jq -r .type
  file
  folder";

const UNPACK: Description = Description {
    name: "unpack",
    about: "Write a folder of IPFS in a CAR as files and folders.",
    more: Some(UNPACK_MORE),
    arguments: &[
        FOLDER_CAR,
        FILE_PATH,
        Argument {
            name: "directory",
            short: Some('d'),
            kind: Kind::Required("DIR"),
            help: "The folder to create. If it exists, it must be empty.",
            ..FLAG
        },
        Argument {
            name: "symlinks",
            kind: Kind::OneOf("LINKS", &["inside", "skip", "any"]),
            help: "Symbolic links that may lead out of DIR: reject them (inside), leave them out (skip) or create them (any). [default: inside]",
            ..FLAG
        },
        Argument {
            name: "preserve",
            help: "Set the permissions and times in the CAR. A time before 1970 is not set.",
            ..FLAG
        },
        Argument {
            name: "max-size",
            kind: Kind::Value("SIZE"),
            help: "Maximum size of all files. Each file, folder and link counts as 4K more. [default: 64G]",
            ..FLAG
        },
        HOLD,
        LIMIT,
        ZERO_PADDING,
    ],
};

const UNPACK_MORE: &str = "\
DIR contains what the CID names, as with cat: every block is verified before it
is used. It is created under the name .DIR.ipld-PID next to it, which only its
owner can open, and renamed when it is complete. After an error, nothing is left
of it. If the program is killed, the next run for the same DIR removes it.

Nothing outside of DIR is changed, and nothing is overwritten. A folder with a
name that is invalid or repeated is rejected. DIR can't be in a folder that
others can write to, unless it has the sticky bit, as /tmp has.

A symbolic link may lead out of DIR if it is absolute, if it leads above DIR, or
if '..' comes after a name in it.

A CAR on standard input is read once. Blocks that have passed are held up to
--hold.

Examples:
  $ ipld unpack site.car -d site
  $ cat site/about.txt
  Cats, and their pictures.

  $ ipld unpack site.car pictures -d site/new
  $ ls site/new
  0.txt

  $ ipld unpack site.car -d site
  ipld: site: the folder is not empty; choose another name";

const PACK: Description = Description {
    name: "pack",
    about: "Pack files and folders into a CAR, as ipfs add does.",
    more: Some(PACK_MORE),
    arguments: &[
        Argument {
            name: "paths",
            kind: Kind::Words(&["PATH"]),
            help: "Files and folders to pack.",
            ..FLAG
        },
        Argument {
            name: "output",
            short: Some('o'),
            kind: Kind::Required("CAR"),
            help: "The CAR to create, or - for standard output.",
            ..FLAG
        },
        Argument {
            name: "force",
            short: Some('f'),
            help: "Replace CAR if it exists.",
            ..FLAG
        },
        Argument {
            name: "no-wrap",
            help: "Pack one file without a folder around it.",
            ..FLAG
        },
        PACK_ATTRIBUTES,
        HIDDEN,
        IGNORE,
        PACK_LINKS,
        CID_VERSION,
        RAW_LEAVES,
        NO_RAW_LEAVES,
        CHUNK,
        WIDTH,
    ],
};

const PACK_MORE: &str = "\
The root is printed: on standard error, if the CAR goes to standard output. It
is the root that 'ipfs add' gives the same folder by default, or with
--cid-version=1. A folder is packed without another around it. A file or several
paths get a folder around them, with the last names of the paths.

Every file is read once. If its length changes meanwhile, no CAR is created.
Devices, sockets and pipes in a folder are errors. Standard input, or a pipe as
PATH, is copied to a temporary file first.

A folder is sharded if the names and CIDs of its entries have more than 262144
bytes. The CAR is of version 1. Every block comes before those below it, so
'ipld cat' and 'ipld unpack' can read the CAR from a pipe.

CAR is created under the name .CAR.ipld-PID next to it, and renamed when it is
complete.

Examples:
  $ ipld unpack site.car -d site
  $ ipld pack site -o new.car
  QmRZvmyrRL69RKCwvh9jF113QNRPht5PvuWjZ7B3jJ7anq

  $ ipld pack site --cid-version 1 --force -o new.car
  bafybeiarnvbildq6bmjmzqzl3sqqxjs3unwnqyadaclppidzh4ee64ntii
  $ ipld car roots site.car
  bafybeiarnvbildq6bmjmzqzl3sqqxjs3unwnqyadaclppidzh4ee64ntii

  $ ipld pack notes.txt -o - 2>root.txt | ipld cat - notes.txt
  Hello, world";

/// The commands on files and folders.
pub(super) const FILE_COMMANDS: &[Description] = &[CAT, LS, PACK, UNPACK];

/// The commands on CARs.
pub(super) const CAR: Description = Description {
    name: "car",
    about: "List, verify, extract and create CAR files.",
    more: Some(CAR_MORE),
    arguments: &[],
};

const CAR_MORE: &str = "\
A CAR is a file that contains blocks and their CIDs. Both versions are read.
Digests are verified with SHA2-256, SHA2-512, BLAKE2b-256 and identity.

Examples:
  $ ipld car list album.car
  version 1
  root bafyreidglldmsjx73lvndeob54rzgouut6j7sxzoxr4zatpbydx7btmfpa
  bafyreidglldmsjx73lvndeob54rzgouut6j7sxzoxr4zatpbydx7btmfpa dag-cbor 61 bytes, 1 links
  bafyreidl4puu5qgoyaxslyujtbdk5g7ps2j5jziwepjyktvekap6cpeeui dag-cbor 19 bytes, 0 links

  $ ipld car verify album.car && ipld car missing album.car && echo whole
  whole

  $ ipld car create -o new.car album.cbor photo.cbor
  $ ipld car roots new.car
  bafyreidglldmsjx73lvndeob54rzgouut6j7sxzoxr4zatpbydx7btmfpa";

// The CAR of a command that reads one.
const ONE_CAR: Argument = Argument {
    name: "file",
    kind: Kind::Word("FILE"),
    help: "A CAR.",
    ..FLAG
};

const PROGRESS: Argument = Argument {
    name: "progress",
    help: "Print the bytes read and the time left on standard error, once a second.",
    ..FLAG
};

const OUTPUT_CAR: Argument = Argument {
    name: "output",
    short: Some('o'),
    kind: Kind::Required("CAR"),
    help: "File to create, or - for standard output.",
    ..FLAG
};

const FORCE: Argument = Argument {
    name: "force",
    help: "Replace the file if it exists.",
    ..FLAG
};

const VERSION: Argument = Argument {
    name: "version",
    kind: Kind::OneOf("VERSION", &["1", "2"]),
    help: "Version of the new CAR. Version 2 has an index (MultihashIndexSorted). [default: 1]",
    ..FLAG
};

const LIST: Description = Description {
    name: "list",
    about: "List the blocks of a CAR.",
    more: Some(LIST_MORE),
    arguments: &[ONE_CAR, JSON_LINES, LIMIT, ZERO_PADDING, PROGRESS],
};

const LIST_MORE: &str = "\
ipld prints the version, the roots, and a line for every block: its CID, codec,
size and number of links. If a block is invalid for its codec, or the codec is
unsupported, its line has a note instead of the number.

The error of an invalid block is printed on standard error, or with --json in
its object, and the status is 1.

JSON objects:
  first     {\"version\":1,\"roots\":[..]}
  a block   {\"cid\":..,\"codec\":..,\"offset\":..,\"size\":..,\"links\":[..]}

The object of an invalid block has \"error\" and \"at\" instead of \"links\". A
block of an unsupported codec has no \"links\".

Examples:
  $ ipld car list album.car
  version 1
  root bafyreidglldmsjx73lvndeob54rzgouut6j7sxzoxr4zatpbydx7btmfpa
  bafyreidglldmsjx73lvndeob54rzgouut6j7sxzoxr4zatpbydx7btmfpa dag-cbor 61 bytes, 1 links
  bafyreidl4puu5qgoyaxslyujtbdk5g7ps2j5jziwepjyktvekap6cpeeui dag-cbor 19 bytes, 0 links

  $ ipld car list --json album.car | jq -r 'select(.size > 20) | .cid'
  bafyreidglldmsjx73lvndeob54rzgouut6j7sxzoxr4zatpbydx7btmfpa

  $ cat album.car | ipld car list - | head -n 1
  version 1";

const INSPECT: Description = Description {
    name: "inspect",
    about: "Print a summary of a CAR.",
    more: Some(INSPECT_MORE),
    arguments: &[ONE_CAR, JSON_LINES, LIMIT, ZERO_PADDING, PROGRESS],
};

const INSPECT_MORE: &str = "\
The summary has the number of blocks for every codec and hash function. unknown
counts the blocks of unsupported codecs, whose links are not known, invalid the
blocks that are invalid for their codec, and missing the roots and links whose
block is not in the CAR. If nothing is unknown, invalid or missing, the graph is
whole. Digests are not verified.

The errors of invalid blocks are printed on standard error, and the status is 1.

Examples:
  $ ipld car inspect album.car
  version  1
  root     bafyreidglldmsjx73lvndeob54rzgouut6j7sxzoxr4zatpbydx7btmfpa
  blocks   2
  bytes    80 (each block 19 to 61)
  codec    dag-cbor 2
  hash     sha2-256 2
  unknown  0
  invalid  0
  missing  0

  $ ipld car inspect --json part.car | jq .missing
  1

  $ ipld car inspect --json album.car | jq -c .codecs
  {\"dag-cbor\":2}";

const ROOTS: Description = Description {
    name: "roots",
    about: "List the roots of a CAR.",
    more: Some(ROOTS_MORE),
    arguments: &[ONE_CAR, JSON_LINES, LIMIT],
};

const ROOTS_MORE: &str = "\
Only the header of the CAR is read.

JSON objects:
  {\"root\":\"CID\"}

Examples:
  $ ipld car roots album.car
  bafyreidglldmsjx73lvndeob54rzgouut6j7sxzoxr4zatpbydx7btmfpa

  $ ipld car roots album.car | ipld car extract album.car - | cmp - album.cbor && echo same
  same

  $ ipld car roots --json album.car
  {\"root\":\"bafyreidglldmsjx73lvndeob54rzgouut6j7sxzoxr4zatpbydx7btmfpa\"}";

const LINKS_OF_CAR: Description = Description {
    name: "links",
    about: "List the links of a CAR.",
    more: Some(LINKS_OF_CAR_MORE),
    arguments: &[ONE_CAR, LIMIT, ZERO_PADDING, PROGRESS],
};

const LINKS_OF_CAR_MORE: &str = "\
Every line has the CID of a block and a link of that block. The errors of
invalid blocks are printed on standard error, and the status is 1.

Examples:
  $ ipld car links album.car
  bafyreidglldmsjx73lvndeob54rzgouut6j7sxzoxr4zatpbydx7btmfpa bafyreidl4puu5qgoyaxslyujtbdk5g7ps2j5jziwepjyktvekap6cpeeui

  $ ipld car links album.car | wc -l
  1

  $ ipld car links part.car | cut -d ' ' -f 2
  bafyreidl4puu5qgoyaxslyujtbdk5g7ps2j5jziwepjyktvekap6cpeeui";

const GRAPH: Description = Description {
    name: "graph",
    about: "Print the graph of a CAR for Graphviz.",
    more: Some(GRAPH_MORE),
    arguments: &[ONE_CAR, LIMIT, ZERO_PADDING, PROGRESS],
};

const GRAPH_MORE: &str = "\
The roots are boxes. The errors of invalid blocks are printed on standard error,
and the status is 1.

Examples:
  $ ipld car graph album.car > album.dot
  $ head -n 1 album.dot
  digraph car {

  $ ipld car graph album.car | grep -c -- '->'
  1

  $ ipld car graph part.car | tail -n 1
  }";

const MISSING: Description = Description {
    name: "missing",
    about: "List roots and links whose block is not in the CARs.",
    more: Some(MISSING_MORE),
    arguments: &[
        Argument {
            name: "files",
            kind: Kind::Words(&["FILE"]),
            help: "CARs, which count as one.",
            ..FLAG
        },
        Argument {
            name: "by-cid",
            help: "Compare whole CIDs, so that a block with another codec or version is missing.",
            ..FLAG
        },
        JSON_LINES,
        LIMIT,
        ZERO_PADDING,
        PROGRESS,
    ],
};

const MISSING_MORE: &str = "\
A block is there if a block with its hash is, also under another codec or
version of CID. If a block is missing, the status is 1. The errors of invalid
blocks are printed on standard error, also those of blocks inside identity CIDs.

JSON objects:
  {\"missing\":\"CID\"}

Examples:
  $ ipld car missing part.car
  bafyreidl4puu5qgoyaxslyujtbdk5g7ps2j5jziwepjyktvekap6cpeeui

  $ ipld car missing part.car album.car && echo complete
  complete

  $ ipld car missing --json part.car
  {\"missing\":\"bafyreidl4puu5qgoyaxslyujtbdk5g7ps2j5jziwepjyktvekap6cpeeui\"}";

const VERIFY: Description = Description {
    name: "verify",
    about: "Verify the digests and the index of a CAR.",
    more: Some(VERIFY_MORE),
    arguments: &[
        ONE_CAR,
        Argument {
            name: "known",
            help: "Ignore unsupported hash functions in the exit status.",
            ..FLAG
        },
        JSON_LINES,
        LIMIT,
        ZERO_PADDING,
        PROGRESS,
    ],
};

const VERIFY_MORE: &str = "\
ipld lists the blocks whose digest is wrong or whose hash function is
unsupported. Supported are SHA2-256, SHA2-512, BLAKE2b-256 and identity.

The index of a CAR of version 2 is compared with the blocks, except for standard
input and pipes. It must have an entry for every block, no entry twice, and no
other entry.

JSON objects:
  a block   {\"cid\":..,\"offset\":..,\"error\":..}
  an entry  {\"offset\":..,\"error\":..}

The error of a block is WrongDigest, UnknownHash, whose object has \"hash\", or
NotIndexed if the index has no entry for it. That of an entry of the index is
WrongEntry or RepeatedEntry.

Examples:
  $ ipld car verify album.car && echo verified
  verified

  $ cat album.car | ipld car verify - && echo verified
  verified

  $ ipld car index -o indexed.car album.car && ipld car verify indexed.car && echo verified
  verified";

const EXTRACT: Description = Description {
    name: "extract",
    about: "Write the blocks of these CIDs.",
    more: Some(EXTRACT_MORE),
    arguments: &[
        ONE_CAR,
        Argument {
            name: "cids",
            kind: Kind::WordsUnless(&["CID"], "all"),
            help: "CIDs of the blocks, or - for standard input with a CID on every line. Without -d, only one.",
            ..FLAG
        },
        Argument {
            name: "all",
            help: "With -d, write all blocks.",
            needs: &["directory"],
            excludes: &["cids"],
            ..FLAG
        },
        Argument {
            name: "directory",
            short: Some('d'),
            kind: Kind::Value("DIR"),
            help: "Write blocks to files in this existing folder, named by their CIDs.",
            ..FLAG
        },
        Argument {
            name: "force",
            help: "With -d, replace existing files.",
            needs: &["directory"],
            ..FLAG
        },
        LIMIT,
        ZERO_PADDING,
        Argument {
            name: "unchecked",
            help: "Write a block even if its digest is wrong or its hash function unsupported.",
            ..FLAG
        },
    ],
};

const EXTRACT_MORE: &str = "\
Without -d, the block is written to standard output. Its digest must match the
CID, unless --unchecked is given. Supported hash functions are SHA2-256,
SHA2-512, BLAKE2b-256 and identity.

With -d, existing files are kept unless --force is given. A block is written to
a temporary file in the same folder, which is renamed when it is complete. The
folder is synced to the disk once, at the end.

Unless --unchecked or --all is given, the index of a CAR of version 2 is used,
but not trusted. If it does not lead to a block with the CID, ipld searches the
file.

Examples:
  $ ipld car extract album.car $(ipld cid photo.cbor) | ipld show - name
  \"photo\"

  $ ipld links album.cbor | ipld car extract -d blocks album.car -
  $ ls blocks
  bafyreidl4puu5qgoyaxslyujtbdk5g7ps2j5jziwepjyktvekap6cpeeui

  $ mkdir all
  $ ipld car extract -d all --all album.car && ls all | wc -l
  2

  $ ipld car extract album.car $(ipld cid photo.cbor) | cmp - photo.cbor && echo same
  same";

const FILTER: Description = Description {
    name: "filter",
    about: "Copy blocks and their descendants to a new CAR.",
    more: Some(FILTER_MORE),
    arguments: &[
        ONE_CAR,
        Argument {
            name: "cids",
            kind: Kind::Words(&["CID"]),
            help: "CIDs of the blocks, or - for standard input with a CID on every line.",
            ..FLAG
        },
        OUTPUT_CAR,
        FORCE,
        VERSION,
        Argument {
            name: "unchecked",
            help: "Copy blocks without a check of their digest and content.",
            ..FLAG
        },
        LIMIT,
        ZERO_PADDING,
    ],
};

const FILTER_MORE: &str = "\
The new CAR has these blocks and all blocks of the CAR that their links lead to,
each once. The CIDs are its roots. If the CAR has no block of a CID, nothing is
written. The output is written as 'ipld car create --help' describes it.

Examples:
  $ ipld car filter -o photo.car album.car $(ipld cid photo.cbor)
  $ ipld car list photo.car
  version 1
  root bafyreidl4puu5qgoyaxslyujtbdk5g7ps2j5jziwepjyktvekap6cpeeui
  bafyreidl4puu5qgoyaxslyujtbdk5g7ps2j5jziwepjyktvekap6cpeeui dag-cbor 19 bytes, 0 links

  $ ipld car roots album.car | ipld car filter -o copy.car album.car -
  $ ipld car missing copy.car && echo complete
  complete

  $ ipld links album.cbor | ipld car filter -o - album.car - | ipld car roots -
  bafyreidl4puu5qgoyaxslyujtbdk5g7ps2j5jziwepjyktvekap6cpeeui";

const INDEX: Description = Description {
    name: "index",
    about: "Copy a CAR to version 2, with an index.",
    more: Some(INDEX_MORE),
    arguments: &[ONE_CAR, OUTPUT_CAR, FORCE, LIMIT, ZERO_PADDING],
};

const INDEX_MORE: &str = "\
The new CAR has the payload byte for byte, and an index of its blocks
(MultihashIndexSorted). Digests are not verified. The output is written as
'ipld car create --help' describes it.

Examples:
  $ ipld car index -o fast.car album.car
  $ ipld car verify fast.car && echo verified
  verified

  $ ipld car list fast.car | head -n 1
  version 2

  $ ipld car index -o - album.car | ipld car roots -
  bafyreidglldmsjx73lvndeob54rzgouut6j7sxzoxr4zatpbydx7btmfpa";

const SALVAGE: Description = Description {
    name: "salvage",
    about: "Copy what is whole in a damaged CAR to a new one.",
    more: Some(SALVAGE_MORE),
    arguments: &[
        ONE_CAR,
        OUTPUT_CAR,
        FORCE,
        Argument {
            name: "root",
            kind: Kind::Repeated("CID"),
            help: "A root of the new CAR. [default: the roots in the header, if it can be read]",
            ..FLAG
        },
        JSON_LINES,
        LIMIT,
    ],
};

const SALVAGE_MORE: &str = "\
The new CAR has version 1 and each block that is whole, once and in order. ipld
prints the ranges of bytes that are not whole sections, with the first error in
each, and at the end the number of blocks and of bytes left. They are printed on
standard error if the CAR goes to standard output. The status is 0 if the CAR is
whole. The output is written as 'ipld car create --help' describes it.

Behind an error ipld tries each byte, until a section begins there whose block
has the digest of its CID. A block with an identity CID or an unsupported hash
function is copied only if its section comes right after the header or a whole
section. The digests of the latter are unverified. An index is not read.

Bytes can begin like a long section without being one. At a byte, ipld has
computed digests of at most 4 bytes in vain for each byte before it and each
byte of --limit. A block that would need more is left, and its range says where
the search gave up.

JSON objects:
  a range   {\"offset\":..,\"size\":..,\"message\":..}
  the last  {\"blocks\":..,\"unverified\":..,\"left\":..}

A range where the search gave up has \"gave_up\", the offset of the first block
that was not checked.

Examples:
  $ head -c 200 album.car > cut.car
  $ ipld car salvage -o saved.car cut.car
  bytes 157 to 199: truncated: the section that begins at byte 157 is cut off at byte 200
  blocks written: 1 (unverified: 0), bytes left: 43

  $ ipld car missing saved.car
  bafyreidl4puu5qgoyaxslyujtbdk5g7ps2j5jziwepjyktvekap6cpeeui

  $ ipld car salvage --json -o json.car cut.car | tail -n 1
  {\"blocks\":1,\"unverified\":0,\"left\":43}

  $ ipld car salvage -o copy.car album.car && cmp copy.car album.car && echo same
  blocks written: 2 (unverified: 0), bytes left: 0
  same";

/// The command that creates a CAR.
pub(super) const CREATE: Description = Description {
    name: "create",
    about: "Create a CAR from blocks and other CARs.",
    more: Some(CREATE_MORE),
    arguments: &[
        Argument {
            name: "files",
            kind: Kind::WordsUnless(&["FILE"], "files-from"),
            help: "Blocks to include, and car:FILE for all blocks of a CAR.",
            ..FLAG
        },
        Argument {
            name: "files-from",
            kind: Kind::Value("LIST"),
            help: "Also include the files that LIST names, one on every line. - is standard input.",
            ..FLAG
        },
        OUTPUT_CAR,
        FORCE,
        Argument {
            name: "root",
            kind: Kind::Repeated("CID"),
            help: "A root of the CAR. [default: the roots of CARs, and files that no other block links to]",
            ..FLAG
        },
        VERSION,
        Argument {
            name: "v0",
            help: "Give blocks of DAG-PB CIDs of version 0.",
            ..FLAG
        },
        Argument {
            name: "unchecked",
            help: "Include the blocks of CARs without a check of their digest and content.",
            ..FLAG
        },
        Argument {
            name: "split",
            kind: Kind::Value("SIZE"),
            help: "Create CARs of at most this size: NAME-0.car and so on for NAME.car, DIR/0.car for DIR/.",
            ..FLAG
        },
        LIMIT,
        ZERO_PADDING,
        BLOCK_CODEC,
    ],
};

const CREATE_MORE: &str = "\
FILE is a block of the codec that --codec names. CODEC:FILE is a block of that
codec, e.g. dag-pb:FILE, and car:FILE is a CAR. To read a file whose name begins
with such a prefix, write ./NAME. A block that occurs twice is written once.
--root can be given several times.

The roots are those of all CARs, in order, and the blocks of files that no other
block links to. If there are no such roots, they are all blocks that no other
block links to.

ipld can read the new CAR with the same --limit. If its header or one of its
blocks would be larger, nothing is written. A CAR with many roots has a large
header, and --root names fewer.

An existing file is kept unless --force is given. The CAR is written to the
temporary file .NAME.ipld-PID in the same folder, which is renamed when it is
complete and removed if writing fails. If ipld is killed, the file stays, and
the next run with the same output removes it. No file is both read and written.
A device or a pipe is written to directly.

--split does not cut blocks. A block larger than SIZE gets a CAR of its own.
A CAR has only the roots whose blocks it contains. SIZE must be at least the
size of its header.

Examples:
  $ ipld car create -o new.car album.cbor photo.cbor
  $ ipld car roots new.car
  bafyreidglldmsjx73lvndeob54rzgouut6j7sxzoxr4zatpbydx7btmfpa

  $ ipld car create -o all.car car:album.car raw:notes.txt dag-pb:folder.pb
  $ ipld car missing all.car && echo complete
  complete

  $ ls photo.cbor cat.cbor | ipld car create -o two.car --version 2 --files-from -
  $ ipld car list two.car | wc -l
  5

  $ ipld car create -o both.car --split 150 photo.cbor cat.cbor
  $ ls both-*
  both-0.car
  both-1.car";

/// The commands that list what a CAR has.
pub(super) const CAR_LISTINGS: &[Description] = &[LIST, INSPECT, ROOTS, LINKS_OF_CAR, GRAPH];

/// The commands that check CARs.
pub(super) const CAR_CHECKS: &[Description] = &[MISSING, VERIFY];

/// The commands that copy blocks of a CAR.
pub(super) const CAR_COPIES: &[Description] = &[EXTRACT, FILTER, INDEX, SALVAGE];

/// The command that makes a block.
pub(super) const ENCODE: Description = Description {
    name: "encode",
    about: "Convert DAG-JSON to a block.",
    more: Some(ENCODE_MORE),
    arguments: &[
        Argument {
            name: "file",
            kind: Kind::Word("FILE"),
            help: "DAG-JSON to read.",
            ..FLAG
        },
        Argument {
            name: "output",
            short: Some('o'),
            kind: Kind::Value("BLOCK"),
            help: "File to create, or - for standard output. [default: -]",
            ..FLAG
        },
        Argument {
            name: "force",
            help: "With -o, replace the file if it exists.",
            needs: &["output"],
            ..FLAG
        },
        Argument {
            name: "canonical",
            help: "Require canonical DAG-JSON. A line feed at the end is allowed.",
            ..FLAG
        },
        Argument {
            name: "codec",
            short: Some('c'),
            kind: Kind::Codec(&["dag-cbor", "dag-json", "raw"]),
            help: "Codec of the block.",
            ..FLAG
        },
    ],
};

const ENCODE_MORE: &str = "\
A link is {\"/\":\"CID\"}, with a CID in base32 (version 1) or base58btc (version
0). Bytes are {\"/\":{\"bytes\":\"..\"}}, in base64 without padding. The text can
have whitespace, escapes, and keys in any order, but no duplicate keys.

A number with a fraction or an exponent becomes the nearest 64-bit float. Any
other number is an integer from -2^64 to 2^64 - 1, or with --codec dag-json of
128 bits. Arrays and objects nest at most 1024 levels deep.

--codec dag-json writes canonical DAG-JSON. --codec raw requires a value that is
bytes, and writes these bytes. Both reject floats.

An existing file is kept unless --force is given. The block is written to a
temporary file in the same folder, which is renamed when it is complete.

Examples:
  $ echo '{\"name\":\"photo\",\"size\":42}' | ipld encode -o new.cbor -
  $ ipld cid new.cbor
  bafyreidl4puu5qgoyaxslyujtbdk5g7ps2j5jziwepjyktvekap6cpeeui

  $ ipld show --json photo.cbor | ipld encode - | cmp - photo.cbor && echo same
  same

  $ echo '{\"/\":{\"bytes\":\"aGVsbG8K\"}}' | ipld encode --codec raw -
  hello

  $ echo '{\"a\":1,\"a\":2}' | ipld encode -
  ipld: -: line 1, column 8 (byte 7): duplicate key \"a\"";
