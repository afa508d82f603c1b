//! Code that is generic over the codec. It is proved once, for every codec.

ghost use Rattle.std.specs.Prelude.{◌≡◌, ◌⊎◌, None, Some, IfOk, IfErr, MatchOption, ⊤};
ghost use Rattle.ipld_codec.specs.Codec.{writing, MemoryOr};

use ipld_core::codec::Codec;
use std::alloc::Global;

/// Returns the block of a value.
pub fn encode_generic<C, T>(alloc: Global, value: &T) -> Result<Vec<u8>, C::Error>
where
    C: Codec<T>,
    ensures ok { IfOk result (λ bytes. C.writes (C.contents value.now) ≡ Some bytes.items) }
    ensures err { IfErr result (λ error. MatchOption (C.failure_of error)
        (C.writes (C.contents value.now) ≡ None) (MemoryOr writing)) }
{
    C::encode_to_vec(alloc, value)
}

/// Returns the value that the block of a value decodes to, which is the same value. Other than for
/// failures, it is rejected only if the value can't be written.
pub fn sent_and_received<C, T>(alloc: Global, value: &T) -> Result<T, C::Error>
where
    C: Codec<T>,
    ensures same { IfOk result (λ received. C.contents received ≡ C.contents value.now) }
    ensures err { IfErr result (λ error. MatchOption (C.failure_of error)
        (C.writes (C.contents value.now) ≡ None) (λ _. ⊤)) }
{
    let block = match C::encode_to_vec(alloc, value) {
        Ok(block) => block,
        Err(error) => return Err(error),
    };
    C::decode_from_slice(alloc, &block)
}
