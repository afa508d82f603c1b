//! The bytes that the tokens of a block refer to.

use dag_cbor::CborTokens;
use ipld_core::serde::{Token, TokenBytes, TokenSource};
use std::test::Fail;

fn is_lent(token: &Option<Token<'_>>, expected: &[u8]) -> bool {
    matches!(token, Some(Token::Bytes(TokenBytes::Lent(bytes))) if *bytes == expected)
}

// Checks that bytes in the block are not allocated again.
#[test]
fn bytes_are_lent(rt: HostRuntime) -> Result<(), Fail> {
    let block = [0x41, 0x07];
    let mut source = CborTokens::new(rt.alloc(), &block);
    let token = source.next_token()?;
    assert!(rt; is_lent(&token, &[7]));
    Ok(())
}
