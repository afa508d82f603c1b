//! Sources that fail.

use ipld_core::cid::Cid;
use ipld_core::serde::{
    ExtractLinks, FaultSource, Stopped, Token, TokenBytes, TokenError, TokenSource, read_ipld,
};
use std::alloc::Global;
use std::process::Abort;

const A: Token<'static> = Token::Bytes(TokenBytes::Lent(b"\x01\x55\0\0"));

// A link, its bytes as bytes, and it again as a variant's content.
const LINKS: [Token<'static>; 8] = [
    Token::Seq(None),
    Token::Link,
    A,
    A,
    Token::Variant("v"),
    Token::Link,
    A,
    Token::SeqEnd,
];

// The tokens of `{"some": {"nested": link}, "or": [link, link], "more": true}`.
const TREE: [Token<'static>; 17] = [
    Token::Map(Some(3)),
    Token::Str("more"),
    Token::Bool(true),
    Token::Str("or"),
    Token::Seq(Some(2)),
    Token::Link,
    A,
    Token::Link,
    A,
    Token::SeqEnd,
    Token::Str("some"),
    Token::Map(Some(1)),
    Token::Str("nested"),
    Token::Link,
    A,
    Token::MapEnd,
    Token::MapEnd,
];

fn is_a(cid: &Cid) -> bool {
    Cid::try_from(b"\x01\x55\0\0".as_slice()) == Ok(*cid)
}

// Checks whether the source failed, and that its next two calls fail. A source that failed used up
// its calls, so tokens are left. One that was read to its end fails at the next call.
fn assert_still_fails(rt: &impl Abort, source: &mut FaultSource<'_>, has_failed: bool) {
    assert_eq!(rt; source.has_failed(), has_failed);
    assert!(rt; source.next_token() == Err(Stopped) && source.has_failed());
    assert!(rt; source.next_token() == Err(Stopped) && source.has_failed());
}

fn assert_links_fail<'a>(rt: &impl Abort, alloc: Global, tokens: &'a [Token<'a>], calls: usize) {
    let mut source = FaultSource::new(tokens, calls);
    let outcome = ExtractLinks::<64>::deserialize(alloc, &mut source);
    assert!(rt;
        matches!(outcome, Err(TokenError::Source(Stopped))),
        "{calls}"
    );
    assert_still_fails(rt, &mut source, true);
}

fn assert_tree_fails<'a>(rt: &impl Abort, alloc: Global, tokens: &'a [Token<'a>], calls: usize) {
    let mut source = FaultSource::new(tokens, calls);
    let outcome = read_ipld(alloc, &mut source);
    assert!(rt;
        matches!(outcome, Err(TokenError::Source(Stopped))),
        "{calls}"
    );
    assert_still_fails(rt, &mut source, true);
}

// Checks that no item ends before the source fails.
#[test]
fn a_source_that_fails_after_some_calls(rt: HostRuntime) {
    let links = LINKS;
    for calls in 0..8 {
        assert_links_fail(&rt, rt.alloc(), &links, calls);
    }
    let tree = TREE;
    for calls in 0..17 {
        assert_links_fail(&rt, rt.alloc(), &tree, calls);
        assert_tree_fails(&rt, rt.alloc(), &tree, calls);
    }
}

#[test]
fn a_source_that_fails_behind_the_item(rt: HostRuntime) {
    let tree = TREE;
    let mut source = FaultSource::new(&tree, 17);
    assert!(rt; read_ipld(rt.alloc(), &mut source).is_ok());
    assert_still_fails(&rt, &mut source, false);
    let links = LINKS;
    let mut source = FaultSource::new(&links, 8);
    let found = match ExtractLinks::<64>::deserialize(rt.alloc(), &mut source) {
        Ok(found) => found.into_vec(),
        Err(_) => Vec::new(rt.alloc()),
    };
    assert!(rt; found.len() == 2 && found.iter().all(is_a));
    assert_still_fails(&rt, &mut source, false);
}
