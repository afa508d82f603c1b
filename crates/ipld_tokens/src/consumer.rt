//! The trait for readers of one item, token by token, and the loop that passes them the tokens of a
//! source.

ghost use Rattle.std.specs.Prelude.{◌≡◌, ◌<◌, Bool, true, false, length, OnOk};
ghost use Rattle.ipld_tokens.specs.Token.{TokenModel, erase};
ghost use Rattle.ipld_tokens.specs.Outcome.{IfSource, IfEnd, is_source};
ghost use Rattle.ipld_tokens.specs.ConsumerMachine.{error_of, Takes, Advances, Consumes};
ghost use Rattle.ipld_tokens.specs.declared.consumer.Rejection.TheVariants.{Memory};

use crate::error::TokenError;
use crate::source::TokenSource;
use crate::token::Token;
use ipld_cid::CidError;
use std::alloc::{AllocError, AllocFailed};

// The reason why a token isn't taken.
#[derive(Drop)]
pub(crate) enum Rejection {
    Memory,
    Token,
    Cid(CidError),
    DuplicateKey,
}

impl From<AllocError> for Rejection {
    ghost from_gives = { λ _ rejection. rejection ≡ Memory };

    #[inline(always)]
    fn from(_error: AllocError) -> Self {
        Rejection::Memory
    }
}

impl<T: Drop> From<AllocFailed<T>> for Rejection {
    ghost from_gives = { λ _ rejection. rejection ≡ Memory };

    #[inline(always)]
    fn from(_error: AllocFailed<T>) -> Self {
        Rejection::Memory
    }
}

impl<F> From<Rejection> for TokenError<F> {
    ghost from_gives = { λ rejection error. error ≡ error_of rejection };

    fn from(rejection: Rejection) -> Self {
        match rejection {
            Rejection::Memory => TokenError::Memory,
            Rejection::Token => TokenError::Token,
            Rejection::Cid(cid_error) => TokenError::Cid(cid_error),
            Rejection::DuplicateKey => TokenError::DuplicateKey,
        }
    }
}

// A reader of one item, token by token, that follows a machine.
pub(crate) trait TokenConsumer: Sized + Drop {
    ghost use Rattle.ipld_tokens.specs.declared.consumer.Rejection.{Rejection};

    // The value that the item is read as.
    type Output;

    // the states of the machine
    ghost State: { Type 0 };

    // the state of the machine
    ghost state: { Self → State };

    // the state after a token
    ghost next_state: { State → TokenModel → State };

    // neither complete nor rejected
    ghost goes_on: { State → Type 0 };

    // the item is complete
    ghost is_complete: { State → Bool };

    // a token may be rejected with this error
    ghost rejects: { State → TokenModel → Rejection → Type 0 };

    // the output that is read at the end
    ghost reads: { State → Self.Output → Type 0 };

    // Takes one token. The state after a rejection is unspecified.
    fn take(&mut self, token: &Token<'_>) -> Result<(), Rejection>
        requires { goes_on (state self.old) }
        ensures { Takes next_state rejects (state self.old) (erase token.now)
            (state self.new) result };

    // Returns whether the item is complete.
    fn has_ended(&self) -> bool
        ensures ended { result ≡ is_complete (state self.now) }
        ensures going { result ≡ false → goes_on (state self.now) };

    fn into_output(self) -> Self::Output
        requires { is_complete (state self) ≡ true }
        ensures { reads (state self) result };
}

// Takes one token.
#[inline(always)]
fn advance<'a, T: TokenSource<'a>, C: TokenConsumer>(
    source: &mut T,
    consumer: &mut C,
) -> Result<(), TokenError<T::Fault>>
    requires { C.goes_on (C.state consumer.old) }
    ensures advances { Advances C.next_state C.rejects (C.state consumer.old) (C.state consumer.new)
        (T.remaining source.old) (T.remaining source.new) result }
    ensures shorter { OnOk result (length (T.remaining source.new) < length
        (T.remaining source.old)) }
    ensures failed { T.failed source.new ≡ is_source result }
    ensures origin { T.origin source.new ≡ T.origin source.old }
    ensures allowed { IfSource result (T.allows_fault (T.origin source.old)) }
    ensures ended { IfEnd result (T.allows_end (T.origin source.old)) }
{
    match source.next_token() {
        Ok(Some(token)) => match consumer.take(&token) {
            Ok(()) => Ok(()),
            Err(rejection) => Err(TokenError::from(rejection)),
        },
        Ok(None) => Err(TokenError::End),
        Err(fault) => Err(TokenError::Source(fault)),
    }
}

// Takes tokens until they form an item.
pub(crate) fn consume<'a, T: TokenSource<'a>, C: TokenConsumer>(
    source: &mut T,
    mut consumer: C,
) -> Result<C::Output, TokenError<T::Fault>>
    requires { T.failed source.old ≡ false }
    ensures consumes { Consumes C.next_state C.goes_on C.rejects C.reads (C.state consumer)
        (T.remaining source.old) (T.remaining source.new) result }
    ensures failed { T.failed source.new ≡ is_source result }
    ensures origin { T.origin source.new ≡ T.origin source.old }
    ensures allowed { IfSource result (T.allows_fault (T.origin source.old)) }
    ensures ended { IfEnd result (T.allows_end (T.origin source.old)) }
{
    while !consumer.has_ended() {
        advance(source, &mut consumer)?;
    }
    Ok(consumer.into_output())
}
