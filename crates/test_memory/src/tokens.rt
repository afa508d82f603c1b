//! Tokens of a tree, a tree read from tokens, and the links in them.

use crate::ended::{Ended, ended_by, reported};
use crate::samples::{A, cid, is_same, nested};
use ipld_core::serde::{
    ExtractLinks, IpldTokens, SliceSource, Token, TokenBytes, TokenError, TokenSource, read_ipld,
    read_ipld_within,
};
use ipld_tree::{Ipld, Limits};
use std::alloc::Global;
use std::process::Abort;

/// The tokens of a map of one key to a list of two links.
const MAP: [Token<'static>; 9] = [
    Token::Map(Some(1)),
    Token::Str("or"),
    Token::Seq(Some(2)),
    Token::Link,
    Token::Bytes(TokenBytes::Lent(&A)),
    Token::Link,
    Token::Bytes(TokenBytes::Lent(&A)),
    Token::SeqEnd,
    Token::MapEnd,
];

fn has_pair(tree: &Ipld, link: &Ipld) -> bool {
    let second = |pair: &Ipld| pair.get(1usize) == Ok(Some(link));
    matches!(tree.get("or"), Ok(Some(pair)) if second(pair))
}

#[test]
fn tree_read_within_limits(rt: HostRuntime) -> Result<(), Ended> {
    let tokens = MAP;
    let mut source = SliceSource::new(&tokens);
    let outcome = read_ipld_within(rt.alloc(), &mut source, &Limits::default());
    let tree = reported("read_ipld_within", outcome)?;
    assert!(rt; has_pair(&tree, &Ipld::Link(cid(&A)?)));
    Ok(())
}

fn tokens_of<'a>(alloc: Global, tree: &'a Ipld) -> Result<IpldTokens<'a>, Ended> {
    match IpldTokens::new(alloc, tree) {
        Ok(source) => Ok(source),
        Err(error) => Err(ended_by("IpldTokens::new", error)),
    }
}

fn yields_a_token(rt: &impl Abort, source: &mut IpldTokens<'_>) -> Result<(), Ended> {
    let token = source.next_token();
    // After a rejection, it has failed for good.
    assert_eq!(rt; source.has_failed(), token.is_err());
    if token.is_err() {
        assert!(rt; source.next_token().is_err());
    }
    assert!(rt; reported("next_token", token)?.is_some());
    Ok(())
}

#[test]
fn tokens_of_a_tree(rt: HostRuntime) -> Result<(), Ended> {
    let tree = nested(rt.alloc(), cid(&A)?)?;
    let mut source = tokens_of(rt.alloc(), &tree)?;
    for _ in 0..17 {
        yields_a_token(&rt, &mut source)?;
    }
    assert!(rt; reported("next_token at the end", source.next_token())?.is_none());
    Ok(())
}

// The error is a failed allocation of the call, or that of the source.

#[test]
fn tree_read(rt: HostRuntime) -> Result<(), Ended> {
    let tree = nested(rt.alloc(), cid(&A)?)?;
    let mut source = match IpldTokens::new(rt.alloc(), &tree) {
        Ok(source) => source,
        Err(error) => return Err(ended_by("IpldTokens::new", error)),
    };
    let outcome = read_ipld(rt.alloc(), &mut source);
    let of_source = matches!(outcome, Err(TokenError::Source(_)));
    assert_eq!(rt; source.has_failed(), of_source);
    assert!(rt; is_same(&reported("read_ipld", outcome)?, &tree));
    Ok(())
}

#[test]
fn links_found(rt: HostRuntime) -> Result<(), Ended> {
    let cid = cid(&A)?;
    let tree = nested(rt.alloc(), cid)?;
    let mut source = match IpldTokens::new(rt.alloc(), &tree) {
        Ok(source) => source,
        Err(error) => return Err(ended_by("IpldTokens::new", error)),
    };
    let outcome = ExtractLinks::<64>::deserialize(rt.alloc(), &mut source);
    let of_source = matches!(outcome, Err(TokenError::Source(_)));
    assert_eq!(rt; source.has_failed(), of_source);
    let links = reported("ExtractLinks::deserialize", outcome)?.into_vec();
    assert!(rt; links.as_slice() == [cid, cid, cid].as_slice());
    Ok(())
}

// Takes the rest of a source of `tokens` tokens. If they were read, nothing is left. Otherwise, a
// contract states that an ending of them is left.
fn holds_an_ending(rt: &impl Abort, source: &mut SliceSource<'_>, tokens: usize, is_read: bool) {
    let mut left = 0usize;
    for _ in 0..tokens {
        if source.next_token() != Ok(None) {
            left = left.saturating_add(1);
        }
    }
    assert!(rt; source.next_token() == Ok(None) && !source.has_failed());
    assert!(rt; !is_read || left == 0);
}

#[test]
fn tree_read_from_a_slice(rt: HostRuntime) -> Result<(), Ended> {
    let tokens = MAP;
    let mut source = SliceSource::new(&tokens);
    let outcome = read_ipld(rt.alloc(), &mut source);
    holds_an_ending(&rt, &mut source, 9, outcome.is_ok());
    let tree = reported("read_ipld", outcome)?;
    assert!(rt; has_pair(&tree, &Ipld::Link(cid(&A)?)));
    Ok(())
}

/// A link, its bytes, and it again as the content of a variant.
const LIST: [Token<'static>; 8] = [
    Token::Seq(None),
    Token::Link,
    Token::Bytes(TokenBytes::Lent(&A)),
    Token::Bytes(TokenBytes::Lent(&A)),
    Token::Variant("v"),
    Token::Link,
    Token::Bytes(TokenBytes::Lent(&A)),
    Token::SeqEnd,
];

#[test]
fn links_found_in_a_slice(rt: HostRuntime) -> Result<(), Ended> {
    let tokens = LIST;
    let mut source = SliceSource::new(&tokens);
    let outcome = ExtractLinks::<64>::deserialize(rt.alloc(), &mut source);
    holds_an_ending(&rt, &mut source, 8, outcome.is_ok());
    let links = reported("ExtractLinks::deserialize", outcome)?.into_vec();
    let cid = cid(&A)?;
    assert!(rt; links.as_slice() == [cid, cid].as_slice());
    Ok(())
}
