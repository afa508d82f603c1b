//! Sources of tokens, values read from a few tokens, codecs, and ends that fail.

use crate::ended::{Ended, reported};
use crate::samples::A;
use dag_cbor::CborTokens;
use ipld_core::codec::{Codec, FaultReader, FaultWriter, LinkIter, Links, RawCodec, RawError};
use ipld_core::serde::{
    ExtractLinks, FaultSource, SliceSource, Stopped, Token, TokenBytes, TokenSource, read_ipld,
};
use ipld_links_run::{Status, run};
use ipld_tree::Ipld;

const TOKENS: [Token<'static>; 2] = [Token::Link, Token::Bytes(TokenBytes::Lent(&A))];

const SOME: [Token<'static>; 2] = [Token::Some, Token::Bool(true)];

#[test]
fn of_tokens(rt: HostRuntime) {
    let tokens = TOKENS;
    let mut source = SliceSource::new(&tokens);
    assert!(rt; source.next_token() == Ok(Some(Token::Link)));
    let bytes = TokenBytes::Lent(A.as_slice());
    assert!(rt; bytes.as_slice() == A.as_slice());
    assert!(rt; source.next_token() == Ok(Some(Token::Bytes(bytes))));
    assert!(rt; source.next_token() == Ok(None) && !source.has_failed());
    let tokens = TOKENS;
    let mut source = FaultSource::new(&tokens, 1);
    assert!(rt; source.next_token() == Ok(Some(Token::Link)));
    assert!(rt; source.next_token() == Err(Stopped) && source.has_failed());
    assert!(rt; !CborTokens::new(rt.alloc(), &A).has_failed());
}

#[test]
fn read_from_tokens(rt: HostRuntime) -> Result<(), Ended> {
    let tree = read_ipld(rt.alloc(), &mut SliceSource::new(&SOME));
    assert!(rt; tree == Ok(Ipld::Bool(true)));
    let links = ExtractLinks::<64>::deserialize(rt.alloc(), &mut SliceSource::new(&SOME));
    let links = reported("ExtractLinks::deserialize", links)?.into_vec();
    assert!(rt; links.is_empty());
    Ok(())
}

#[test]
fn of_codecs(rt: HostRuntime) -> Result<(), Ended> {
    assert!(rt;
        reported("links", RawCodec::links(rt.alloc(), &A))?
            .next()
            .is_none()
    );
    assert!(rt; LinkIter::new(Vec::new(rt.alloc())).next().is_none());
    let read: Result<Ipld, RawError> = RawCodec::decode(rt.alloc(), &mut FaultReader::new(&A, 0));
    assert!(rt; read == Err(RawError::Read));
    let value = Ipld::Bytes(Vec::new(rt.alloc()));
    assert!(rt; RawCodec::encode(rt.alloc(), &mut FaultWriter::new(0), &value) == Ok(()));
    let refused = RawCodec::encode(rt.alloc(), &mut FaultWriter::new(0), &Ipld::Null);
    assert!(rt; matches!(refused, Err(RawError::NotBytes(_))));
    Ok(())
}

#[test]
fn an_unknown_word(rt: HostRuntime) -> Result<(), Ended> {
    let mut page = [0u8; 64];
    let mut writer = page.as_mut_slice();
    let status = run(rt.alloc(), "none", &mut A.as_slice(), &mut writer);
    assert!(rt; reported("run", status)? == Status::NotUnderstood);
    assert!(rt; page.starts_with(b"usage: "));
    Ok(())
}

const EACH: [Token<'static>; 17] = [
    Token::None,
    Token::Unit,
    Token::UnitStruct,
    Token::Bool(true),
    Token::Int(-7),
    Token::U128(7),
    Token::Char('c'),
    Token::Str("x"),
    Token::Bytes(TokenBytes::Lent(&A)),
    Token::UnitVariant("v"),
    Token::Some,
    Token::Variant("v"),
    Token::Link,
    Token::Seq(Some(usize::MAX)),
    Token::SeqEnd,
    Token::Map(None),
    Token::MapEnd,
];

#[test]
fn of_each_token(rt: HostRuntime) {
    let (tokens, expected) = (EACH, EACH);
    let mut source = SliceSource::new(&tokens);
    for token in expected {
        assert!(rt; source.next_token() == Ok(Some(token)));
    }
    assert!(rt; source.next_token() == Ok(None) && !source.has_failed());
    let expected = EACH;
    let mut source = FaultSource::new(&tokens, 17);
    for token in expected {
        assert!(rt; source.next_token() == Ok(Some(token)));
    }
    assert!(rt; !source.has_failed());
    assert!(rt; source.next_token() == Err(Stopped) && source.has_failed());
}
