//! One value through all of the crate: built, walked for its links, written as tokens and read
//! back.

use ipld_core::cid::{Cid, CidGeneric};
use ipld_core::ipld;
use ipld_core::ipld::Ipld;
use ipld_core::serde::{
    ExtractLinks, IpldTokens, SliceSource, Stopped, Token, TokenBytes, TokenError, TokenSource,
    read_ipld,
};
use std::alloc::{AllocError, Global};
use std::process::Abort;
use std::test::Fail;

const TEXT: &str = "bafkreibme22gw2h7y2h7tg2fhqotaqjucnbc24deqo72b6mkl2egezxhvy";

fn tree(alloc: Global, cid: Cid) -> Result<Ipld, AllocError> {
    ipld!(alloc, {"some": {"nested": cid}, "or": [cid, cid], "more": true})
}

fn is_at_its_end(tokens: &mut IpldTokens<'_>) -> bool {
    matches!(tokens.next_token(), Ok(None))
}

// The tree is read from its tokens.
fn is_read_back(rt: &impl Abort, alloc: Global, tree: &Ipld) -> Result<(), Fail> {
    let mut tokens = IpldTokens::new(alloc, tree)?;
    assert!(rt; read_ipld(alloc, &mut tokens)? == *tree);
    assert!(rt; is_at_its_end(&mut tokens));
    Ok(())
}

// The CID is found three times in the tree, and in its tokens.
fn has_three_links(rt: &impl Abort, alloc: Global, tree: &Ipld) -> Result<(), Fail> {
    let cid = Cid::from_text(alloc, TEXT)?;
    let mut links = Vec::new(alloc);
    tree.references(alloc, &mut links)?;
    assert!(rt; links.as_slice() == [cid, cid, cid].as_slice());
    let mut tokens = IpldTokens::new(alloc, tree)?;
    let found = ExtractLinks::<64>::deserialize(alloc, &mut tokens)?.into_vec();
    assert!(rt; found.as_slice() == [cid, cid, cid].as_slice());
    assert!(rt; is_at_its_end(&mut tokens));
    Ok(())
}

#[test]
fn a_value_and_its_tokens(rt: HostRuntime) -> Result<(), Fail> {
    let cid = Cid::from_text(rt.alloc(), TEXT)?;
    let tree = tree(rt.alloc(), cid)?;
    has_three_links(&rt, rt.alloc(), &tree)?;
    is_read_back(&rt, rt.alloc(), &tree)
}

// [begin: links]
fn links<'a>(
    alloc: Global,
    tokens: &'a [Token<'a>],
) -> Result<Vec<CidGeneric<64>>, TokenError<Stopped>> {
    Ok(ExtractLinks::<64>::deserialize(alloc, &mut SliceSource::new(tokens))?.into_vec())
}
// [end: links]

const LINK: [Token<'static>; 2] = [Token::Link, Token::Bytes(TokenBytes::Lent(b"\x01\x55\0\0"))];

#[test]
fn a_link_in_tokens(rt: HostRuntime) -> Result<(), Fail> {
    let cid = Cid::try_from(b"\x01\x55\0\0".as_slice())?;
    assert!(rt; links(rt.alloc(), &LINK)?.as_slice() == [cid].as_slice());
    Ok(())
}
