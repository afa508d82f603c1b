//! The bases of texts.

ghost use Rattle.std.specs.Prelude.{◌≡◌, ◌≤◌};
ghost use Rattle.ipld_cid_text.specs.Base.{prefix, base_of};

/// A base of multibase texts. The variants have the names of the Rust crate `multibase`.
#[derive(Clone, Copy, Debug, PartialEq, Eq)]
pub enum Base {
    /// Hexadecimal digits in lower case, prefix `f`.
    Base16Lower,
    /// Base32 (RFC 4648) in lower case and without padding, prefix `b`.
    Base32Lower,
    /// Base32 (RFC 4648) in upper case and without padding, prefix `B`.
    Base32Upper,
    /// Base36 in lower case, prefix `k`.
    Base36Lower,
    /// Base58 with the alphabet of Bitcoin, prefix `z`.
    Base58Btc,
    /// Base64 with the alphabet for URLs (RFC 4648, section 5) and without padding, prefix `u`.
    Base64Url,
}

impl Base {
    // The multibase prefix.
    #[inline(always)]
    pub(crate) fn prefix(self) -> u8
        ensures { result ≡ prefix self }
    {
        match self {
            Base::Base16Lower => b'f',
            Base::Base32Lower => b'b',
            Base::Base32Upper => b'B',
            Base::Base36Lower => b'k',
            Base::Base58Btc => b'z',
            Base::Base64Url => b'u',
        }
    }

    /// Returns the multibase prefix.
    #[inline(always)]
    pub fn code(self) -> char
        ensures { result ≡ prefix self }
    {
        char::from(self.prefix())
    }

    /// Returns the base with this multibase prefix, or `None` if no `Base` has it.
    #[inline(always)]
    pub fn from_code(code: char) -> Option<Self>
        ensures { result ≡ base_of code }
    {
        match code {
            'f' => Some(Base::Base16Lower),
            'b' => Some(Base::Base32Lower),
            'B' => Some(Base::Base32Upper),
            'k' => Some(Base::Base36Lower),
            'z' => Some(Base::Base58Btc),
            'u' => Some(Base::Base64Url),
            _ => None,
        }
    }

    // An upper bound on the number of letters for bytes of this length.
    #[inline(always)]
    pub(crate) fn most_letters(self, len: usize) -> usize
        requires { len ≤ 95 }
        ensures { result ≤ 190 }
    {
        match self {
            Base::Base16Lower => 2 * len,
            Base::Base32Lower | Base::Base32Upper => (8 * len).div_ceil(5),
            Base::Base36Lower => 155 * len / 100 + 1,
            Base::Base58Btc => 137 * len / 100 + 1,
            Base::Base64Url => (4 * len).div_ceil(3),
        }
    }
}
