//! Values that are explained as a whole.

ghost use Rattle.ipld_explain.specs.Failures.{FailsHere};
ghost use Rattle.ipld_explain.specs.declared.explanation.Expected.TheVariants as expected;

use crate::explain::{Explain, explain_whole};
use crate::explanation::{Expected, Explanation};
use ipld_cid::Cid;
use ipld_de::{Deserialize, IgnoredAny};
use ipld_ser::ByteBuf;
use ipld_tree::Ipld;
use std::alloc::{AllocError, Global};

/// A Bool.
impl Explain for bool {
    ghost fails = { λ t. FailsHere expected.Bool (⟦<bool as Deserialize>⟧.read_error t) };

    fn explain(alloc: Global, value: Ipld) -> Result<Option<Explanation>, AllocError> {
        explain_whole::<bool>(alloc, value, Expected::Bool)
    }
}

/// An Integer in range.
impl Explain for i8 {
    ghost fails = { λ t. FailsHere (expected.Signed 8) (⟦<i8 as Deserialize>⟧.read_error t) };

    fn explain(alloc: Global, value: Ipld) -> Result<Option<Explanation>, AllocError> {
        explain_whole::<i8>(alloc, value, Expected::Signed(8))
    }
}

/// An Integer in range.
impl Explain for i16 {
    ghost fails = { λ t. FailsHere (expected.Signed 16) (⟦<i16 as Deserialize>⟧.read_error t) };

    fn explain(alloc: Global, value: Ipld) -> Result<Option<Explanation>, AllocError> {
        explain_whole::<i16>(alloc, value, Expected::Signed(16))
    }
}

/// An Integer in range.
impl Explain for i32 {
    ghost fails = { λ t. FailsHere (expected.Signed 32) (⟦<i32 as Deserialize>⟧.read_error t) };

    fn explain(alloc: Global, value: Ipld) -> Result<Option<Explanation>, AllocError> {
        explain_whole::<i32>(alloc, value, Expected::Signed(32))
    }
}

/// An Integer in range.
impl Explain for i64 {
    ghost fails = { λ t. FailsHere (expected.Signed 64) (⟦<i64 as Deserialize>⟧.read_error t) };

    fn explain(alloc: Global, value: Ipld) -> Result<Option<Explanation>, AllocError> {
        explain_whole::<i64>(alloc, value, Expected::Signed(64))
    }
}

/// An Integer in range.
impl Explain for i128 {
    ghost fails = { λ t. FailsHere (expected.Signed 128) (⟦<i128 as Deserialize>⟧.read_error t) };

    fn explain(alloc: Global, value: Ipld) -> Result<Option<Explanation>, AllocError> {
        explain_whole::<i128>(alloc, value, Expected::Signed(128))
    }
}

/// An Integer in range.
impl Explain for isize {
    ghost fails = { λ t. FailsHere (expected.Signed 64) (⟦<isize as Deserialize>⟧.read_error t) };

    fn explain(alloc: Global, value: Ipld) -> Result<Option<Explanation>, AllocError> {
        explain_whole::<isize>(alloc, value, Expected::Signed(64))
    }
}

/// An Integer in range.
impl Explain for u8 {
    ghost fails = { λ t. FailsHere (expected.Unsigned 8) (⟦<u8 as Deserialize>⟧.read_error t) };

    fn explain(alloc: Global, value: Ipld) -> Result<Option<Explanation>, AllocError> {
        explain_whole::<u8>(alloc, value, Expected::Unsigned(8))
    }
}

/// An Integer in range.
impl Explain for u16 {
    ghost fails = { λ t. FailsHere (expected.Unsigned 16) (⟦<u16 as Deserialize>⟧.read_error t) };

    fn explain(alloc: Global, value: Ipld) -> Result<Option<Explanation>, AllocError> {
        explain_whole::<u16>(alloc, value, Expected::Unsigned(16))
    }
}

/// An Integer in range.
impl Explain for u32 {
    ghost fails = { λ t. FailsHere (expected.Unsigned 32) (⟦<u32 as Deserialize>⟧.read_error t) };

    fn explain(alloc: Global, value: Ipld) -> Result<Option<Explanation>, AllocError> {
        explain_whole::<u32>(alloc, value, Expected::Unsigned(32))
    }
}

/// An Integer in range.
impl Explain for u64 {
    ghost fails = { λ t. FailsHere (expected.Unsigned 64) (⟦<u64 as Deserialize>⟧.read_error t) };

    fn explain(alloc: Global, value: Ipld) -> Result<Option<Explanation>, AllocError> {
        explain_whole::<u64>(alloc, value, Expected::Unsigned(64))
    }
}

/// An Integer in range.
impl Explain for u128 {
    ghost fails = { λ t. FailsHere (expected.Unsigned 128) (⟦<u128 as Deserialize>⟧.read_error t) };

    fn explain(alloc: Global, value: Ipld) -> Result<Option<Explanation>, AllocError> {
        explain_whole::<u128>(alloc, value, Expected::Unsigned(128))
    }
}

/// An Integer in range.
impl Explain for usize {
    ghost fails = { λ t. FailsHere (expected.Unsigned 64) (⟦<usize as Deserialize>⟧.read_error t) };

    fn explain(alloc: Global, value: Ipld) -> Result<Option<Explanation>, AllocError> {
        explain_whole::<usize>(alloc, value, Expected::Unsigned(64))
    }
}

/// A String of one character.
impl Explain for char {
    ghost fails = { λ t. FailsHere expected.Char (⟦<char as Deserialize>⟧.read_error t) };

    fn explain(alloc: Global, value: Ipld) -> Result<Option<Explanation>, AllocError> {
        explain_whole::<char>(alloc, value, Expected::Char)
    }
}

/// A String.
impl Explain for String {
    ghost fails = { λ t. FailsHere expected.String (⟦<String as Deserialize>⟧.read_error t) };

    fn explain(alloc: Global, value: Ipld) -> Result<Option<Explanation>, AllocError> {
        explain_whole::<String>(alloc, value, Expected::String)
    }
}

/// Bytes.
impl Explain for ByteBuf {
    ghost fails = { λ t. FailsHere expected.Bytes (⟦<ByteBuf as Deserialize>⟧.read_error t) };

    fn explain(alloc: Global, value: Ipld) -> Result<Option<Explanation>, AllocError> {
        explain_whole::<ByteBuf>(alloc, value, Expected::Bytes)
    }
}

/// A Link.
impl Explain for Cid {
    ghost fails = { λ t. FailsHere expected.Link (⟦<Cid as Deserialize>⟧.read_error t) };

    fn explain(alloc: Global, value: Ipld) -> Result<Option<Explanation>, AllocError> {
        explain_whole::<Cid>(alloc, value, Expected::Link)
    }
}

/// Null.
impl Explain for () {
    ghost fails = { λ t. FailsHere expected.Null (⟦<() as Deserialize>⟧.read_error t) };

    fn explain(alloc: Global, value: Ipld) -> Result<Option<Explanation>, AllocError> {
        explain_whole::<()>(alloc, value, Expected::Null)
    }
}

/// Every tree is read.
impl Explain for Ipld {
    ghost fails = { λ t. FailsHere expected.Value (⟦<Ipld as Deserialize>⟧.read_error t) };

    fn explain(alloc: Global, value: Ipld) -> Result<Option<Explanation>, AllocError> {
        explain_whole::<Ipld>(alloc, value, Expected::Value)
    }
}

/// Every tree is read.
impl Explain for IgnoredAny {
    ghost fails = { λ t. FailsHere expected.Value (⟦<IgnoredAny as Deserialize>⟧.read_error t) };

    fn explain(alloc: Global, value: Ipld) -> Result<Option<Explanation>, AllocError> {
        explain_whole::<IgnoredAny>(alloc, value, Expected::Value)
    }
}
