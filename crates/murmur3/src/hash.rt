//! The steps of the hash function, and the hashes.

ghost use Rattle.std.specs.Prelude.{◌≡◌, ◌+◌, ◌%◌, ◌<◌, ◌≤◌, length};
ghost use Rattle.murmur3.specs.Murmur3.{added, finalized, fmix64, mix_block, mix_k1, mix_k2, murmur3_x64, murmur3_x64_64, murmur3_x64_128, tail, with_tail, word_at};

// The length of a block in bytes.
const BLOCK_LEN: usize = 16;

const C1: u64 = 0x87c3_7b91_1142_53d5;

const C2: u64 = 0x4cf5_ad43_2745_937f;

// Mixes the first word of a block, before it is combined with the state.
#[tactic(auto, unfolding(crate::specs::Murmur3::mix_k1))]
#[inline(always)]
fn mix_k1(k: u64) -> u64
    ensures { result ≡ mix_k1 k }
{
    k.wrapping_mul(C1).rotate_left(31).wrapping_mul(C2)
}

// Mixes the second word of a block, before it is combined with the state.
#[tactic(auto, unfolding(crate::specs::Murmur3::mix_k2))]
#[inline(always)]
fn mix_k2(k: u64) -> u64
    ensures { result ≡ mix_k2 k }
{
    k.wrapping_mul(C2).rotate_left(33).wrapping_mul(C1)
}

// Mixes the block of the words `k1` and `k2` into the state.
#[inline(always)]
fn mix_block(h: (u64, u64), k1: u64, k2: u64) -> (u64, u64)
    ensures { result ≡ mix_block h k1 k2 }
{
    let h1 = (h.0 ^ mix_k1(k1))
        .rotate_left(27)
        .wrapping_add(h.1)
        .wrapping_mul(5)
        .wrapping_add(0x52dc_e729);
    let h2 = (h.1 ^ mix_k2(k2))
        .rotate_left(31)
        .wrapping_add(h1)
        .wrapping_mul(5)
        .wrapping_add(0x3849_5ab5);
    (h1, h2)
}

// Reads the word at byte `i`, low byte first.
#[inline(always)]
fn load_le(bytes: &[u8], i: usize) -> u64
    requires { i + 8 ≤ length bytes.now }
    ensures { result ≡ word_at bytes.now i }
{
    u64::from_le_bytes([
        bytes[i],
        bytes[i + 1],
        bytes[i + 2],
        bytes[i + 3],
        bytes[i + 4],
        bytes[i + 5],
        bytes[i + 6],
        bytes[i + 7],
    ])
}

// Pads the bytes after the last whole block with zeros.
#[inline(always)]
fn tail(bytes: &[u8]) -> [u8; BLOCK_LEN]
    ensures { result ≡ tail bytes.now }
{
    let rest = &bytes[BLOCK_LEN * (bytes.len() / BLOCK_LEN)..];
    let mut block = [0; BLOCK_LEN];
    block[..rest.len()].copy_from_slice(rest);
    block
}

// Mixes the padded tail into the state.
#[tactic(auto, unfolding(crate::specs::Murmur3::with_tail))]
#[inline(always)]
fn with_tail(h: (u64, u64), rest: &[u8; BLOCK_LEN]) -> (u64, u64)
    ensures { result ≡ with_tail h rest.now }
{
    (
        h.0 ^ mix_k1(load_le(rest, 0)),
        h.1 ^ mix_k2(load_le(rest, 8)),
    )
}

// Makes all bits of the result depend on all bits of `k`.
#[tactic(auto, unfolding(crate::specs::Murmur3::fmix64))]
#[inline(always)]
fn fmix64(k: u64) -> u64
    ensures { result ≡ fmix64 k }
{
    let a = (k ^ (k >> 33)).wrapping_mul(0xff51_afd7_ed55_8ccd);
    let b = (a ^ (a >> 33)).wrapping_mul(0xc4ce_b9fe_1a85_ec53);
    b ^ (b >> 33)
}

// Adds the second word to the first, and the sum to the second.
#[tactic(auto, unfolding(crate::specs::Murmur3::added))]
#[inline(always)]
fn add(h: (u64, u64)) -> (u64, u64)
    ensures { result ≡ added h }
{
    let h1 = h.0.wrapping_add(h.1);
    (h1, h.1.wrapping_add(h1))
}

// Mixes in the length of the message, and returns the hash.
#[tactic(auto, unfolding(crate::specs::Murmur3::finalized))]
#[inline(always)]
fn finalize(h: (u64, u64), len: u64) -> (u64, u64)
    ensures { result ≡ finalized h len }
{
    let sums = add((h.0 ^ len, h.1 ^ len));
    add((fmix64(sums.0), fmix64(sums.1)))
}

// Returns the two words of the hash.
fn murmur3_x64(bytes: &[u8], seed: u32) -> (u64, u64)
    ensures { result ≡ murmur3_x64 seed bytes.now }
{
    let mut h = (u64::from(seed), u64::from(seed));
    'each: for i in 0..bytes.len() / BLOCK_LEN {
        let at = BLOCK_LEN * i;
        h = mix_block(h, load_le(bytes, at), load_le(bytes, at + 8));
    }
    finalize(with_tail(h, &tail(bytes)), bytes.len() as u64)
}

/// Returns MurmurHash3_x64_128 of a message.
///
/// The low half is the first word of the author's program, and the high half is the second. So
/// `to_le_bytes` returns the bytes that the program writes on a little-endian machine.
pub fn murmur3_x64_128(bytes: &[u8], seed: u32) -> u128
    ensures { result ≡ murmur3_x64_128 seed bytes.now }
{
    let (h1, h2) = murmur3_x64(bytes, seed);
    u128::from(h1) | u128::from(h2) << 64
}

/// Returns the hash `murmur3-x64-64` of multihashes (code 0x22), by which UnixFS finds a name in a
/// sharded folder.
///
/// It is the first word of MurmurHash3_x64_128 with the seed 0, high byte first.
pub fn murmur3_x64_64(bytes: &[u8]) -> [u8; 8]
    ensures { result ≡ murmur3_x64_64 bytes.now }
{
    murmur3_x64(bytes, 0).0.to_be_bytes()
}
