//! Digests that the RFC and Python's `hashlib.blake2b` state.

ghost use Rattle.std.specs.Prelude.{◌≡◌, ◌++◌};
ghost use Rattle.blake2b.specs.Blake2b.{blake2b};

use blake2b::{Blake2b256, Blake2b512};
use std::process::Abort;
use std::test::Fail;

// The length of a message, and its digest of 32 bytes in words, highest byte first. They are those of
// `hashlib.blake2b(bytes(i % 251 for i in range(length)), digest_size=32)`.
const DIGESTS: [(usize, [u64; 4]); 10] = [
    (
        0,
        [
            0x0e57_51c0_26e5_43b2,
            0xe8ab_2eb0_6099_daa1,
            0xd1e5_df47_778f_7787,
            0xfaab_45cd_f12f_e3a8,
        ],
    ),
    (
        1,
        [
            0x0317_0a2e_7597_b7b7,
            0xe3d8_4c05_391d_139a,
            0x62b1_57e7_8786_d8c0,
            0x82f2_9dcf_4c11_1314,
        ],
    ),
    (
        127,
        [
            0xf2fe_67ff_342e_21b8,
            0xf45e_8f2e_0bcd_1d92,
            0x4324_5d50_ee6c_7804,
            0x2e9c_4913_8879_1c72,
        ],
    ),
    (
        128,
        [
            0xc358_2f71_ebb2_be66,
            0xfa5d_d750_f80b_aae9,
            0x7554_f3b0_1566_3c8b,
            0xe377_cfcb_2488_c1d1,
        ],
    ),
    (
        129,
        [
            0xf7f3_c46b_a256_4ff4,
            0xc4c1_62da_1f5b_605f,
            0x9f1c_4aa6_a206_52a9,
            0xf9a3_37c1_a2f5_b9c9,
        ],
    ),
    (
        255,
        [
            0xd9ef_0fc5_21b4_266d,
            0x16df_662b_ec23_1bc2,
            0xec39_89e7_adea_f631,
            0x69c2_95dc_239d_bbea,
        ],
    ),
    (
        256,
        [
            0x582f_7822_2601_8ec3,
            0x3076_bd8d_1c42_4135,
            0x30ac_7e11_2626_0ffc,
            0x0f30_6ba3_befc_3f24,
        ],
    ),
    (
        257,
        [
            0x227e_15ed_64ee_8e93,
            0xeb7b_c538_28f7_6eed,
            0x974f_2c4a_b140_8c3d,
            0x08f2_12b7_f8d6_9904,
        ],
    ),
    (
        1000,
        [
            0xb372_d060_8f72_0c8c,
            0x3dd4_1e9c_8eec_b101,
            0x43b4_1abe_520b_6166,
            0x07e7_54bf_79c0_8331,
        ],
    ),
    (
        65537,
        [
            0xe170_ee53_3727_839d,
            0xe3e7_3bea_ed47_8e51,
            0x54dc_3cf1_697b_fa6f,
            0xa0a1_a94a_5931_84e5,
        ],
    ),
];

// Asserts that the digest has these words.
fn assert_words(rt: &impl Abort, digest: &[u8], words: &[u64]) {
    assert_eq!(rt; digest.len() / 8, words.len());
    for i in 0..words.len() {
        assert_eq!(rt;
            &digest[8 * i..8 * i + 8],
            words[i].to_be_bytes().as_slice()
        );
    }
}

// [begin: parts]
/// Returns the digest of two pieces as one message.
pub fn digest_of_parts(first: &[u8], second: &[u8]) -> [u8; 32]
    ensures { result ≡ blake2b 32 (first.now ++ second.now) }
{
    let mut hasher = Blake2b256::new();
    hasher.update(first);
    hasher.update(second);
    hasher.finalize()
}
// [end: parts]

// Appendix A of the RFC.
#[test]
fn digest_of_the_rfc(rt: HostRuntime) {
    let words = [
        0xba80_a53f_981c_4d0d,
        0x6a27_97b6_9f12_f6e9,
        0x4c21_2f14_685a_c4b7,
        0x4b12_bb6f_dbff_a2d1,
        0x7d87_c539_2aab_792d,
        0xc252_d5de_4533_cc95,
        0x18d3_8aa8_dbf1_925a,
        0xb923_86ed_d400_9923,
    ];
    assert_words(&rt, &Blake2b512::digest(b"abc"), &words);
}

#[test]
fn digests_of_hashlib(rt: HostRuntime) -> Result<(), Fail> {
    let mut bytes = Vec::new(rt.alloc());
    for i in 0..65537_u32 {
        bytes.push((i % 251) as u8)?;
    }
    for (len, words) in DIGESTS {
        assert!(rt; len <= bytes.len());
        let message = &bytes[..len];
        assert_words(&rt, &Blake2b256::digest(message), &words);
        for size in [1, 3, 64, 127, 128, 129, 1000] {
            let mut hasher = Blake2b256::new();
            for piece in message.chunks(size) {
                hasher.update(piece);
            }
            assert_words(&rt, &hasher.finalize(), &words);
        }
    }
    Ok(())
}

// A message of two blocks and a byte, split into three pieces in each way.
#[test]
fn three_pieces(rt: HostRuntime) -> Result<(), Fail> {
    let words = [
        0x227e_15ed_64ee_8e93,
        0xeb7b_c538_28f7_6eed,
        0x974f_2c4a_b140_8c3d,
        0x08f2_12b7_f8d6_9904,
    ];
    let mut message = [0; 257];
    for i in 0..257 {
        message[i] = (i % 251) as u8;
    }
    for first in 0..258 {
        let mut hasher = Blake2b256::new();
        hasher.update(&message[..first]);
        for second in first..258 {
            let mut longer = hasher.clone()?;
            longer.update(&message[first..second]);
            longer.update(&message[second..]);
            assert_words(&rt, &longer.finalize(), &words);
        }
    }
    Ok(())
}
