//! The name and the sentence of each error.

use dag_cbor::{BlockError, BlockErrorKind, CborError};
use dag_cbor_serde::{DecodeError, EncodeError};
use ipld_block::VerifyError;
use ipld_cid::CidError;
use ipld_cid_text::{TextError, ToStringError};
use ipld_core::codec::RawError;
use ipld_core::ipld::{IndexError, IpldIndex, IpldKind};
use ipld_core::serde::{ReadError, SerdeError, Stopped, TokenError};
use ipld_links_run::RunFault;
use std::alloc::Global;
use std::fmt::Display;
use std::process::Abort;
use std::test::Fail;

const CIDS: [(CidError, &str); 10] = [
    (CidError::End, "End: the bytes end before the CID does"),
    (
        CidError::NotShortest,
        "NotShortest: a varint is not in its shortest form",
    ),
    (
        CidError::VarintTooLarge,
        "VarintTooLarge: a varint encodes a number of 2^64 or more",
    ),
    (
        CidError::ExplicitVersion0,
        "ExplicitVersion0: CIDv0 cannot be specified in CIDv1 format",
    ),
    (
        CidError::UnknownVersion(18),
        "UnknownVersion: unknown CID version 18",
    ),
    (
        CidError::DigestTooLong,
        "DigestTooLong: the digest is longer than the type can hold",
    ),
    (
        CidError::TrailingBytes,
        "TrailingBytes: trailing bytes after the CID",
    ),
    (
        CidError::InvalidV0Multihash,
        "InvalidV0Multihash: CIDv0 requires a SHA2-256 multihash with a digest of 32 bytes",
    ),
    (
        CidError::InvalidText,
        "InvalidText: not a CIDv1 in base32: expected b, then lower-case letters and digits from 2 to 7",
    ),
    (CidError::Memory, "Memory: out of memory"),
];

const CBOR: [(CborError, &str); 14] = [
    (CborError::Memory, "Memory: out of memory"),
    (CborError::Read, "Read: the reader failed"),
    (CborError::Write, "Write: the writer failed"),
    (CborError::End, "End: the bytes end before the item does"),
    (
        CborError::NotShortest,
        "NotShortest: an argument is not in its shortest form",
    ),
    (
        CborError::Float,
        "Float: a float that cannot be read: trees hold none, and tapes hold finite 64-bit floats",
    ),
    (
        CborError::Unsupported,
        "Unsupported: a simple value, a tag or an indefinite length that DAG-CBOR does not allow",
    ),
    (CborError::Utf8, "Utf8: a text string is not UTF-8"),
    (
        CborError::KeyNotText,
        "KeyNotText: a map key is not a text string",
    ),
    (CborError::DuplicateKey, "DuplicateKey: duplicate map key"),
    (
        CborError::LinkBytes,
        "LinkBytes: invalid link: a byte string that starts with 0x00 must follow tag 42",
    ),
    (
        CborError::Cid(CidError::UnknownVersion(5)),
        "Cid: invalid link: not a CID: unknown CID version 5",
    ),
    (CborError::TrailingBytes, "TrailingBytes: trailing bytes"),
    (
        CborError::IntegerRange,
        "IntegerRange: an integer is below -2^64 or above 2^64 - 1",
    ),
];

const BLOCKS: [(BlockError, &str); 3] = [
    (
        BlockError {
            kind: BlockErrorKind::TooDeep,
            offset: 7,
        },
        "TooDeep: lists and maps nest deeper than the limit at byte 7",
    ),
    (
        BlockError {
            kind: BlockErrorKind::TooMany,
            offset: 7,
        },
        "TooMany: more values than the limit at byte 7",
    ),
    (
        BlockError {
            kind: BlockErrorKind::Cbor(CborError::Float),
            offset: 7,
        },
        "Float: a float that cannot be read: trees hold none, and tapes hold finite 64-bit floats at byte 7",
    ),
];

const RAW: [(RawError, &str); 4] = [
    (RawError::Memory, "Memory: out of memory"),
    (RawError::Read, "Read: the reader failed"),
    (RawError::Write, "Write: the writer failed"),
    (
        RawError::NotBytes(IpldKind::Null),
        "NotBytes: a raw block can be written only of Bytes, not of Null",
    ),
];

const TOKENS: [(TokenError<Stopped>, &str); 6] = [
    (TokenError::Memory, "Memory: out of memory"),
    (
        TokenError::Source(Stopped),
        "Source: the source of tokens failed",
    ),
    (TokenError::Token, "Token: unexpected token"),
    (
        TokenError::Cid(CidError::UnknownVersion(5)),
        "Cid: invalid link: not a CID: unknown CID version 5",
    ),
    (TokenError::End, "End: the tokens end before the item does"),
    (TokenError::DuplicateKey, "DuplicateKey: duplicate map key"),
];

const READS: [(ReadError<Stopped>, &str); 3] = [
    (
        ReadError::TooDeep,
        "TooDeep: lists and maps nest deeper than the limit",
    ),
    (ReadError::TooMany, "TooMany: more values than the limit"),
    (
        ReadError::Token(TokenError::End),
        "End: the tokens end before the item does",
    ),
];

const VALUES: [(SerdeError, &str); 16] = [
    (SerdeError::Memory, "Memory: out of memory"),
    (
        SerdeError::Unit,
        "Unit: () cannot be written: it has no image",
    ),
    (
        SerdeError::UnitStruct,
        "UnitStruct: a unit struct cannot be written: it has no image",
    ),
    (SerdeError::U128, "U128: a u128 is above 2^127 - 1"),
    (
        SerdeError::KeyNotText,
        "KeyNotText: a map key is not a string",
    ),
    (
        SerdeError::InvalidCid(CidError::End),
        "InvalidCid: invalid link: not a CID: the bytes end before the CID does",
    ),
    (
        SerdeError::WrongKind(IpldKind::Map),
        "WrongKind: the type does not accept a value of the kind Map",
    ),
    (
        SerdeError::OutOfRange,
        "OutOfRange: the integer is out of the type's range",
    ),
    (
        SerdeError::NotOneChar,
        "NotOneChar: the string is not exactly one character",
    ),
    (
        SerdeError::WrongLength,
        "WrongLength: the list has another length than the type",
    ),
    (
        SerdeError::Leftover(1),
        "Leftover: elements or entries left unread: 1",
    ),
    (
        SerdeError::MissingValue,
        "MissingValue: next_value was called before next_key",
    ),
    (SerdeError::NoKey, "NoKey: the map of an enum has no key"),
    (
        SerdeError::MoreKeys,
        "MoreKeys: the map of an enum has more than one key",
    ),
    (
        SerdeError::VariantContent,
        "VariantContent: the variant has no content",
    ),
    (SerdeError::Custom("no such town"), "Custom: no such town"),
];

const TEXTS: [(TextError, &str); 6] = [
    (
        TextError::UnknownBase,
        "the text is empty, or has an unknown multibase prefix",
    ),
    (TextError::InvalidLength, "no CID has a text of this length"),
    (TextError::InvalidLetter(17), "invalid character at byte 17"),
    (
        TextError::UnusedBits,
        "the last character has unused bits that are set",
    ),
    (
        TextError::WrongVersion,
        "wrong form for its version (Qm.. is version 0, and a multibase text version 1)",
    ),
    (
        TextError::Cid(CidError::UnknownVersion(5)),
        "the decoded bytes are invalid: unknown CID version 5",
    ),
];

const ENCODED: [(EncodeError, &str); 4] = [
    (EncodeError::Memory, "Memory: out of memory"),
    (
        EncodeError::Value(SerdeError::U128),
        "U128: a u128 is above 2^127 - 1",
    ),
    (
        EncodeError::IntegerRange,
        "IntegerRange: an integer is below -2^64 or above 2^64 - 1",
    ),
    (EncodeError::Write, "Write: the writer failed"),
];

const DECODED: [(DecodeError, &str); 4] = [
    (DecodeError::Memory, "Memory: out of memory"),
    (DecodeError::Read, "Read: the reader failed"),
    (
        DecodeError::Block(BlockError {
            kind: BlockErrorKind::TooMany,
            offset: 7,
        }),
        "TooMany: more values than the limit at byte 7",
    ),
    (
        DecodeError::Value(SerdeError::NotOneChar),
        "NotOneChar: the string is not exactly one character",
    ),
];

const RUNS: [(RunFault, &str); 3] = [
    (RunFault::Memory, "Memory: out of memory"),
    (RunFault::Read, "Read: the reader failed"),
    (RunFault::Write, "Write: the writer failed"),
];

// Checks that an error has this name, a colon and this sentence.
fn says<E: Display>(
    rt: &impl Abort,
    alloc: Global,
    name: &str,
    sentence: &E,
    expected: &str,
) -> Result<(), Fail> {
    let text = format!(in alloc; "{name}: {sentence}")?;
    assert_eq!(rt; text.as_str(), expected);
    Ok(())
}

// Checks that each error prints this text by `{}` and by `{:#}`.
fn prints<E: Display>(rt: &impl Abort, alloc: Global, rows: &[(E, &str)]) -> Result<(), Fail> {
    for (error, expected) in rows {
        let text = format!(in alloc; "{error}")?;
        let styled = format!(in alloc; "{error:#}")?;
        assert_eq!(rt; text.as_str(), *expected);
        assert_eq!(rt; styled.as_str(), *expected);
    }
    Ok(())
}

// Checks that each error of a ported crate prints its name by `{}` and its sentence by `{:#}`.
fn prints_both<E: Display>(rt: &impl Abort, alloc: Global, rows: &[(E, &str)]) -> Result<(), Fail> {
    for (error, expected) in rows {
        let text = format!(in alloc; "{error}: {error:#}")?;
        assert_eq!(rt; text.as_str(), *expected);
    }
    Ok(())
}

#[test]
fn ported_names_and_sentences(rt: HostRuntime) -> Result<(), Fail> {
    let alloc = rt.alloc();
    prints_both(&rt, alloc, &CIDS)?;
    prints_both(&rt, alloc, &CBOR)?;
    prints_both(&rt, alloc, &RAW)?;
    for (error, expected) in &CIDS {
        says(&rt, alloc, error.name(), &error.sentence(), expected)?;
    }
    for (error, expected) in &CBOR {
        says(&rt, alloc, error.name(), &error.sentence(), expected)?;
    }
    for (error, expected) in &RAW {
        says(&rt, alloc, error.name(), &error.sentence(), expected)?;
    }
    for (error, expected) in &VALUES {
        says(&rt, alloc, error.name(), &error.sentence(), expected)?;
    }
    let custom = SerdeError::Custom("no such town");
    let text = format!(in alloc; "{custom}, {custom:#}, {}", SerdeError::NoKey)?;
    assert_eq!(&rt;
        text.as_str(),
        "serde error: no such town, no such town, NoKey"
    );
    Ok(())
}

#[test]
fn names_and_sentences(rt: HostRuntime) -> Result<(), Fail> {
    let alloc = rt.alloc();
    for (error, expected) in &BLOCKS {
        says(&rt, alloc, error.kind.name(), error, expected)?;
    }
    for (error, expected) in &TOKENS {
        says(&rt, alloc, error.name(), error, expected)?;
    }
    for (error, expected) in &READS {
        says(&rt, alloc, error.name(), error, expected)?;
    }
    for (error, expected) in &ENCODED {
        says(&rt, alloc, error.name(), error, expected)?;
    }
    for (error, expected) in &DECODED {
        says(&rt, alloc, error.name(), error, expected)?;
    }
    for (error, expected) in &RUNS {
        says(&rt, alloc, error.name(), error, expected)?;
    }
    Ok(())
}

#[test]
fn sentences(rt: HostRuntime) -> Result<(), Fail> {
    let alloc = rt.alloc();
    prints(&rt, alloc, &TEXTS)?;
    prints(
        &rt,
        alloc,
        &[
            (
                ToStringError::InvalidCidV0Base,
                "a CID of version 0 has a text only in base58btc",
            ),
            (ToStringError::Memory, "out of memory"),
        ],
    )?;
    prints(
        &rt,
        alloc,
        &[
            (
                VerifyError::UnknownHash(17),
                "unsupported hash function with the code 17",
            ),
            (
                VerifyError::WrongDigest,
                "the block's digest is not that of its CID",
            ),
        ],
    )
}

// Checks that the texts are those of the Rust crate.
#[test]
fn rejected_indexes(rt: HostRuntime) -> Result<(), Fail> {
    let alloc = rt.alloc();
    let own = IpldIndex::Map(String::from_str(alloc, "x")?);
    let errors = [
        (
            IndexError::ParseInteger(IpldIndex::MapRef("-1")),
            "cannot parse key into integer: -1",
        ),
        (
            IndexError::ParseInteger(IpldIndex::List(7)),
            "cannot parse key into integer: 7",
        ),
        (
            IndexError::WrongKind(IpldKind::Bool),
            "expected IPLD List or Map but found: Bool",
        ),
        (
            IndexError::ParseInteger(own),
            "cannot parse key into integer: x",
        ),
    ];
    prints(&rt, alloc, &errors)
}
