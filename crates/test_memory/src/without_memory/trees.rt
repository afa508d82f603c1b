//! Empty trees, measured, looked into and compared.

use crate::ended::Ended;
use crate::samples::{A, KINDS, cid, of_kind};
use ipld_tree::{IndexError, IntoIndex, Ipld, IpldIndex, IpldKind};
use std::alloc::Global;
use std::collections::BTreeMap;
use std::process::Abort;

#[test]
fn kinds(rt: HostRuntime) -> Result<(), Ended> {
    let alloc = rt.alloc();
    let link = Ipld::Link(cid(&A)?);
    assert!(rt; Ipld::Null.kind() == IpldKind::Null && link.kind() == IpldKind::Link);
    assert!(rt; Ipld::List(Vec::new(alloc)).nesting() == Some(1) && link.nesting() == Some(0));
    assert!(rt; link != Ipld::Null && link == Ipld::Link(cid(&A)?));
    Ok(())
}

#[test]
fn looked_into(rt: HostRuntime) {
    let list = Ipld::List(Vec::new(rt.alloc()));
    assert!(rt; list.get(0) == Ok(None) && list.get("+7") == Ok(None));
    assert!(rt; list.get("x") == Err(IndexError::ParseInteger(IpldIndex::MapRef("x"))));
    assert!(rt; list.take(String::new(rt.alloc())).is_err());
    let map = Ipld::Map(BTreeMap::new(rt.alloc()));
    assert!(rt; map.get(0) == Ok(None) && map.take("x") == Ok(None));
    assert!(rt; Ipld::Null.take(0) == Err(IndexError::WrongKind(IpldKind::Null)));
    let list = Ipld::List(Vec::new(rt.alloc()));
    assert!(rt; list.at_path("/0/a") == Ok(None) && list.at_path("") == Ok(Some(&list)));
    assert!(rt; list.at_path("x/0") == Err(IndexError::ParseInteger(IpldIndex::MapRef("x"))));
}

#[test]
fn indexes(rt: HostRuntime) {
    let empty = String::new(rt.alloc());
    assert!(rt; usize::try_from("7".into_index()) == Ok(7));
    assert!(rt; usize::try_from(7.into_index()) == Ok(7));
    assert!(rt; usize::try_from(empty.into_index()).is_err());
}

// Checks that a tree other than a list or a map is rejected by its kind, whatever the index is.
fn is_no_container(rt: &impl Abort, alloc: Global, kind: IpldKind) -> Result<(), Ended> {
    let tree = of_kind(alloc, kind)?;
    assert!(rt; tree.get(0) == Err(IndexError::WrongKind(kind)));
    assert!(rt; tree.get("x") == Err(IndexError::WrongKind(kind)));
    assert!(rt; tree.get(String::new(alloc)) == Err(IndexError::WrongKind(kind)));
    assert!(rt; tree.get(IpldIndex::List(1)) == Err(IndexError::WrongKind(kind)));
    assert!(rt; tree.take(0) == Err(IndexError::WrongKind(kind)));
    let tree = of_kind(alloc, kind)?;
    assert!(rt; tree.take("x") == Err(IndexError::WrongKind(kind)));
    let tree = of_kind(alloc, kind)?;
    assert!(rt; tree.take(String::new(alloc)) == Err(IndexError::WrongKind(kind)));
    let tree = of_kind(alloc, kind)?;
    assert!(rt; tree.take(IpldIndex::List(1)) == Err(IndexError::WrongKind(kind)));
    Ok(())
}

#[test]
fn kinds_that_hold_nothing(rt: HostRuntime) -> Result<(), Ended> {
    for kind in KINDS {
        let tree = of_kind(rt.alloc(), kind)?;
        assert!(rt; tree.kind() == kind);
        if kind != IpldKind::List && kind != IpldKind::Map {
            is_no_container(&rt, rt.alloc(), kind)?;
        }
    }
    Ok(())
}

// Checks that a list reads a text as Rust reads a `usize`.
#[test]
fn texts_as_indexes_of_a_list(rt: HostRuntime) {
    let alloc = rt.alloc();
    let list = Ipld::List(Vec::new(alloc));
    for text in ["0", "7", "+7", "007", "18446744073709551615"] {
        assert!(rt; list.get(text) == Ok(None), "{text}");
        assert!(rt;
            Ipld::List(Vec::new(alloc)).take(text) == Ok(None),
            "{text}"
        );
    }
    for text in ["", "+", "-1", "-0", " 1", "x", "18446744073709551616"] {
        let expected = IndexError::ParseInteger(IpldIndex::MapRef(text));
        assert!(rt; list.get(text) == Err(expected), "{text}");
        let expected = IndexError::ParseInteger(IpldIndex::MapRef(text));
        assert!(rt;
            Ipld::List(Vec::new(alloc)).take(text) == Err(expected),
            "{text}"
        );
        let expected = IndexError::ParseInteger(IpldIndex::MapRef(text));
        assert!(rt;
            usize::try_from(text.into_index()) == Err(expected),
            "{text}"
        );
    }
    assert!(rt; list.get(IpldIndex::List(7)) == Ok(None));
    assert!(rt; usize::try_from(IpldIndex::MapRef("+7")) == Ok(7));
    assert!(rt; usize::try_from("18446744073709551615".into_index()) == Ok(usize::MAX));
}

#[test]
fn no_keys_of_a_map(rt: HostRuntime) {
    let alloc = rt.alloc();
    let map = Ipld::Map(BTreeMap::new(alloc));
    for text in ["", "7", "x", "-1"] {
        assert!(rt; map.get(text) == Ok(None), "{text}");
        assert!(rt;
            Ipld::Map(BTreeMap::new(alloc)).take(text) == Ok(None),
            "{text}"
        );
    }
    assert!(rt; map.get(usize::MAX) == Ok(None) && map.get(IpldIndex::List(0)) == Ok(None));
    assert!(rt; map.get(String::new(alloc)) == Ok(None));
    assert!(rt; map.take(IpldIndex::List(usize::MAX)) == Ok(None));
}
