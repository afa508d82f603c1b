//! The laws of CIDs as bytes and as text.

ghost use Rattle.std.specs.Prelude.{◌≡◌, ◌↔◌, ◌++◌, ◌∷◌, ℕ, List, Ok, Err, IsTrue};
ghost use Rattle.std.specs.Cmp.{IsTotalOrder};
ghost use Rattle.ipld_cid.specs.Order.{link_eq, link_cmp};
ghost use Rattle.ipld_cid.specs.Bytes.{IsCid, bytes_of, read_cid};
ghost use Rattle.ipld_cid.specs.Cid.{Link, IsValid};
ghost use Rattle.ipld_cid.specs.Multihash.{HashParts, IsBytes, IsMultihash};
ghost use Rattle.ipld_cid.specs.MultihashBytes.{IsEncodedHash, hash_bytes_of, read_hash};
ghost use Rattle.ipld_cid.specs.Text.{text_of};
ghost use Rattle.ipld_cid.specs.TextReading.{IsText, read_text};

use crate::cid::Version;
use crate::error::CidError;
use std::cmp::Ordering;

/// States the laws of CIDs as bytes, for every capacity `S` for the digest. A call does nothing.
///
/// - Reading returns a CID if and only if the bytes encode it.
/// - Every valid CID has exactly one encoding. An encoded CID is valid, and bytes encode at most
///   one CID.
/// - Bytes are rejected as trailing if and only if they are the bytes of a CID with more bytes
///   after them.
/// - The bytes of a CID that are cut anywhere are rejected as ending early. So the bytes of a CID
///   never begin with those of another CID.
pub fn cid_bytes_law<const S: usize>()
    ensures read_is_encoded { (bytes : List ℕ) (link : Link) → IsBytes bytes
        → read_cid S bytes ≡ Ok link → IsCid S bytes link }
    ensures encoded_is_read { (bytes : List ℕ) (link : Link) → IsCid S bytes link
        → read_cid S bytes ≡ Ok link }
    ensures each_has_an_encoding { (link : Link) → IsValid S link → IsCid S (bytes_of link) link }
    ensures encoded_is_valid { (bytes : List ℕ) (link : Link) → IsCid S bytes link
        → IsValid S link }
    ensures one_encoding { (bytes : List ℕ) (link : Link) → IsCid S bytes link
        → bytes ≡ bytes_of link }
    ensures one_meaning { (bytes : List ℕ) (link other : Link) → IsCid S bytes link
        → IsCid S bytes other → link ≡ other }
    ensures trailing { (front : List ℕ) (x : ℕ) (more : List ℕ) (link : Link) → IsCid S front link
        → read_cid S (front ++ x ∷ more) ≡ Err CidError.TrailingBytes }
    ensures trailing_only { (bytes : List ℕ) → IsBytes bytes
        → read_cid S bytes ≡ Err CidError.TrailingBytes
        → (front : List ℕ) × (x : ℕ) × (more : List ℕ) × (link : Link) × (bytes ≡ front ++ x ∷ more)
        × IsCid S front link }
    ensures cut { (front : List ℕ) (x : ℕ) (more : List ℕ) (link : Link)
        → IsCid S (front ++ x ∷ more) link
        → read_cid S front ≡ Err CidError.End }
    ensures no_front { (front : List ℕ) (x : ℕ) (more : List ℕ) (link other : Link)
        → IsCid S (front ++ x ∷ more) link → IsCid S front other → ⊥ }
{}

/// States the laws of multihashes as bytes, for every capacity `S` for the digest. A call does
/// nothing.
///
/// - Reading returns a multihash if and only if the bytes encode it.
/// - Every valid multihash has exactly one encoding. An encoded multihash is valid, and bytes
///   encode at most one multihash.
/// - Bytes after those of a multihash are rejected as trailing.
pub fn multihash_bytes_law<const S: usize>()
    ensures read_is_encoded { (bytes : List ℕ) (hash : HashParts) → IsBytes bytes
        → read_hash S bytes ≡ Ok hash → IsEncodedHash S bytes hash }
    ensures encoded_is_read { (bytes : List ℕ) (hash : HashParts) → IsEncodedHash S bytes hash
        → read_hash S bytes ≡ Ok hash }
    ensures each_has_an_encoding { (hash : HashParts) → IsMultihash S hash
        → IsEncodedHash S (hash_bytes_of hash) hash }
    ensures encoded_is_valid { (bytes : List ℕ) (hash : HashParts) → IsEncodedHash S bytes hash
        → IsMultihash S hash }
    ensures one_encoding { (bytes : List ℕ) (hash : HashParts) → IsEncodedHash S bytes hash
        → bytes ≡ hash_bytes_of hash }
    ensures one_meaning { (bytes : List ℕ) (hash other : HashParts) → IsEncodedHash S bytes hash
        → IsEncodedHash S bytes other → hash ≡ other }
    ensures trailing { (front : List ℕ) (x : ℕ) (more : List ℕ) (hash : HashParts)
        → IsEncodedHash S front hash
        → read_hash S (front ++ x ∷ more) ≡ Err CidError.TrailingBytes }
{}

/// States the laws of CIDs as text, for every capacity `S` for the digest. A call does nothing.
///
/// - Reading a text returns a CID if and only if the text encodes it, and a text encodes at most
///   one CID.
/// - Every valid version 1 CID has exactly one text, the printed one. So reading the printed text
///   returns the same CID.
/// - The text that is printed for a version 0 CID is rejected.
pub fn cid_text_law<const S: usize>()
    ensures read_is_encoded { (text : List ℕ) (link : Link) → read_text S text ≡ Ok link
        → IsText S link text }
    ensures encoded_is_read { (text : List ℕ) (link : Link) → IsText S link text
        → read_text S text ≡ Ok link }
    ensures each_has_a_text { (link : Link) → IsValid S link → link.version ≡ Version.V1
        → IsText S link (text_of link) }
    ensures round_trip { (link : Link) → IsValid S link → link.version ≡ Version.V1
        → read_text S (text_of link) ≡ Ok link }
    ensures one_text { (text : List ℕ) (link : Link) → IsText S link text → text ≡ text_of link }
    ensures one_meaning { (text : List ℕ) (link other : Link) → IsText S link text
        → IsText S other text → link ≡ other }
    ensures no_version_0 { (link : Link) → link.version ≡ Version.V0
        → read_text S (text_of link) ≡ Err CidError.InvalidText }
{}

/// States the laws of the comparisons of CIDs. A call does nothing.
///
/// - Two CIDs are equal if and only if they have the same version, codec, hash code and digest.
/// - The order is total, and two CIDs tie if and only if they are equal.
pub fn cid_order_law()
    ensures equal_parts { (a b : Link) → IsTrue (link_eq a b) ↔ (a ≡ b) }
    ensures total { IsTotalOrder link_cmp }
    ensures ties { (a b : Link) → (link_cmp a b ≡ Ordering.Equal) ↔ (a ≡ b) }
{}
