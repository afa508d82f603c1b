//! The values of a tree in the order of the walk, and its links.

use ipld_core::cid::Cid;
use ipld_core::ipld;
use ipld_core::ipld::Ipld;
use std::alloc::Global;
use std::process::Abort;
use std::test::Fail;

// Checks that the walk yields values of these debug strings, and then nothing for good.
fn yields(rt: &impl Abort, alloc: Global, tree: &Ipld, expected: &[&str]) -> Result<(), Fail> {
    let mut walk = tree.iter(alloc)?;
    for text in expected {
        let value = format!(in alloc; "{:?}", walk.next())?;
        assert_eq!(rt; value.as_str(), *text);
    }
    for _ in 0..3 {
        assert!(rt; walk.next().is_none());
    }
    Ok(())
}

#[test]
fn each_value_before_what_it_holds(rt: HostRuntime) -> Result<(), Fail> {
    let alloc = rt.alloc();
    let tree = ipld!(alloc, {"a": [1u8, null]})?;
    let expected = [
        "Some({\"a\": [1, null]})",
        "Some([1, null])",
        "Some(1)",
        "Some(null)",
    ];
    yields(&rt, alloc, &tree, &expected)?;
    let link = Cid::from_text(alloc, "bafkqaaa")?;
    let tree = ipld!(alloc, {"2": link, "10": 1u8})?;
    let expected = [
        "Some({\"10\": 1, \"2\": bafkqaaa})",
        "Some(1)",
        "Some(bafkqaaa)",
    ];
    yields(&rt, alloc, &tree, &expected)
}

#[test]
fn links_behind_those_that_a_vector_has(rt: HostRuntime) -> Result<(), Fail> {
    let alloc = rt.alloc();
    let (a, b) = (
        Cid::from_text(alloc, "bafkqaaa")?,
        Cid::from_text(alloc, "bafkqaaih")?,
    );
    let tree = ipld!(alloc, [a, {"b": b, "a": a}])?;
    let mut links = vec![in alloc; b]?;
    tree.references(alloc, &mut links)?;
    assert!(rt; links.as_slice() == [b, a, a, b].as_slice());
    Ok(())
}
