//! Hexadecimal digits.

ghost use Rattle.std.specs.Prelude.{◌≡◌, true, false, length, MatchResult};
ghost use Rattle.hex.specs.Hex.{decode_sized};

/// The value of each hexadecimal digit of either case, and 255 for every other byte.
static DIGIT_VALUES: [u8; 256] = [
    255, 255, 255, 255, 255, 255, 255, 255, 255, 255, 255, 255, 255, 255, 255, 255, 255, 255, 255,
    255, 255, 255, 255, 255, 255, 255, 255, 255, 255, 255, 255, 255, 255, 255, 255, 255, 255, 255,
    255, 255, 255, 255, 255, 255, 255, 255, 255, 255, 0, 1, 2, 3, 4, 5, 6, 7, 8, 9, 255, 255, 255,
    255, 255, 255, 255, 10, 11, 12, 13, 14, 15, 255, 255, 255, 255, 255, 255, 255, 255, 255, 255,
    255, 255, 255, 255, 255, 255, 255, 255, 255, 255, 255, 255, 255, 255, 255, 255, 10, 11, 12, 13,
    14, 15, 255, 255, 255, 255, 255, 255, 255, 255, 255, 255, 255, 255, 255, 255, 255, 255, 255,
    255, 255, 255, 255, 255, 255, 255, 255, 255, 255, 255, 255, 255, 255, 255, 255, 255, 255, 255,
    255, 255, 255, 255, 255, 255, 255, 255, 255, 255, 255, 255, 255, 255, 255, 255, 255, 255, 255,
    255, 255, 255, 255, 255, 255, 255, 255, 255, 255, 255, 255, 255, 255, 255, 255, 255, 255, 255,
    255, 255, 255, 255, 255, 255, 255, 255, 255, 255, 255, 255, 255, 255, 255, 255, 255, 255, 255,
    255, 255, 255, 255, 255, 255, 255, 255, 255, 255, 255, 255, 255, 255, 255, 255, 255, 255, 255,
    255, 255, 255, 255, 255, 255, 255, 255, 255, 255, 255, 255, 255, 255, 255, 255, 255, 255, 255,
    255, 255, 255, 255, 255, 255, 255, 255, 255, 255, 255, 255, 255, 255, 255, 255, 255, 255, 255,
    255, 255, 255,
];

/// Writes the bytes that hexadecimal digits of either case encode, and returns whether these are
/// digits, two for each of `bytes`.
pub(crate) fn decode_digits(digits: &[u8], bytes: &mut [u8]) -> bool
    ensures { MatchResult (decode_sized digits.now (length bytes.old))
        (λ decoded. (result ≡ true) × (bytes.new ≡ decoded))
        (λ _. result ≡ false) }
{
    if digits.len() % 2 != 0 || digits.len() / 2 != bytes.len() {
        return false;
    }
    // The bitwise or of all values, which is below 16 if each of them is.
    let mut seen = 0;
    for i in 0..bytes.len() {
        let high = DIGIT_VALUES[digits[2 * i] as usize];
        let low = DIGIT_VALUES[digits[2 * i + 1] as usize];
        bytes[i] = high << 4 | low;
        seen |= high | low;
    }
    seen < 16
}
