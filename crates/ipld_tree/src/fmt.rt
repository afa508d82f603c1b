//! Trees, indexes and errors as strings.

use crate::index::{IndexError, IpldIndex};
use crate::ipld::Ipld;
use ipld_cid::Cid;
use std::{error, fmt};

/// Prints a value in one of two forms. Width, precision and other flags are ignored.
///
/// - Without `#`, it prints `null` for [`Ipld::Null`], the text of the CID for a link, and the
///   debug string of the content for every other kind.
/// - With `#`, it prints the name of the kind, with the content in parentheses. The items of a list
///   and the members of a map are on their own lines, and all other content is on one line.
///
/// It recurses once for every level of nesting, so a tree that nests too deep for the call stack
/// ends the process.
impl fmt::Debug for Ipld {
    #[cycle(shown)]
    fn fmt<W: fmt::Write>(&self, f: &mut fmt::Formatter<W>) -> fmt::Result {
        match self {
            Ipld::Null => f.write_str(if f.alternate() { "Null" } else { "null" }),
            Ipld::Bool(truth) => fmt_content("Bool", truth, f),
            Ipld::Integer(number) => fmt_content("Integer", number, f),
            Ipld::String(text) => fmt_content("String", text, f),
            Ipld::Bytes(bytes) => fmt_bytes(bytes, f),
            Ipld::List(items) => fmt_content("List", items, f),
            Ipld::Map(members) => fmt_content("Map", members, f),
            Ipld::Link(cid) => fmt_link(cid, f),
        }
    }
}

// The content of a kind. With `#` it is on its own lines.
fn fmt_content<T: fmt::Debug, W: fmt::Write>(
    kind: &str,
    content: &T,
    f: &mut fmt::Formatter<W>,
) -> fmt::Result {
    if f.alternate() {
        write!(f, "{kind}({content:#?})")
    } else {
        write!(f, "{content:?}")
    }
}

fn fmt_bytes<W: fmt::Write>(bytes: &Vec<u8>, f: &mut fmt::Formatter<W>) -> fmt::Result {
    if f.alternate() {
        write!(f, "Bytes({bytes:?})")
    } else {
        write!(f, "{bytes:?}")
    }
}

fn fmt_link<W: fmt::Write>(cid: &Cid, f: &mut fmt::Formatter<W>) -> fmt::Result {
    if f.alternate() {
        write!(f, "Link({cid})")
    } else {
        write!(f, "{cid}")
    }
}

impl fmt::Display for IndexError<'_> {
    fn fmt<W: fmt::Write>(&self, f: &mut fmt::Formatter<W>) -> fmt::Result {
        match self {
            IndexError::ParseInteger(index) => {
                f.write_str("cannot parse key into integer: ")?;
                match index {
                    IpldIndex::List(number) => write!(f, "{number}"),
                    IpldIndex::Map(key) => f.write_str(key),
                    IpldIndex::MapRef(key) => f.write_str(key),
                }
            }
            IndexError::WrongKind(kind) => {
                write!(f, "expected IPLD List or Map but found: {kind:?}")
            }
        }
    }
}

impl error::Error for IndexError<'_> {}
