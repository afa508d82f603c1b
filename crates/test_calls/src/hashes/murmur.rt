//! Hashes that other programs state.

ghost use Rattle.std.specs.Prelude.{◌≡◌, slice_index};
ghost use Rattle.murmur3.specs.Murmur3.{murmur3_x64_64};

use murmur3::{murmur3_x64_64, murmur3_x64_128};
use std::process::Abort;
use std::test::Fail;

// The hashes of messages of 0 to 40 bytes, which are 0, 1, 2 and so on. The seed is 0. They are those
// of a C program that was written from the author's definition.
const HASHES: [u128; 41] = [
    0x0000_0000_0000_0000_0000_0000_0000_0000,
    0x5162_2daa_78f8_3583_4610_abe5_6eff_5cb5,
    0xf03c_0132_6ec2_e044_7cb3_f5c5_8dab_264c,
    0xfb62_55c2_52b3_96b6_b872_a12f_ef53_e6be,
    0xd3d6_05bd_13c2_fde2_e1c5_94ae_0ddf_af10,
    0xf8d0_155e_630c_23f6_41ee_8cd4_a6f9_4036,
    0x57e0_240b_1651_2ca0_6698_3abb_a4f5_043c,
    0x613a_ddd4_bd25_c787_bd4c_6987_ca4b_0d68,
    0x60e6_ee02_ec31_dcc7_47a7_e1bd_d68e_2fc8,
    0x78de_751d_0200_ffb9_fbb4_cb0f_6e81_2d32,
    0x2543_13c4_72ad_2076_cfca_25e8_9e58_e463,
    0x6965_ea8d_2071_1bb0_c57b_4f47_c756_4f88,
    0x8075_f146_ecf7_5346_b35d_a7e6_9212_a5ca,
    0x84ff_869e_afa6_d8fc_4b52_d9f2_c55f_41c2,
    0x0d78_2573_380f_c9df_5fa9_33ee_3590_6d64,
    0xcd84_6dee_88c6_7de9_4723_1598_fd49_25e9,
    0xab90_6456_762f_e845_4449_24b5_9190_3f30,
    0xc15f_026b_9eda_a824_5c76_f40f_9fe7_c20e,
    0xce26_8418_0bb9_eb5f_1648_e4d1_bae9_c47b,
    0x954f_7960_bfae_1fdc_a665_a455_64a3_0163,
    0x5a1f_0625_6c7b_9c7a_a3d2_5370_5736_954b,
    0x6bc5_0efc_2da2_e7cb_cdd1_3da0_28d4_1203,
    0x1730_a373_601e_5662_45f8_f3bf_27c1_2a71,
    0x2645_1c93_b42a_4941_b9a1_376f_1535_81db,
    0x9470_7eab_bbfb_9e52_734e_8462_75b2_dfde,
    0xa2d3_5433_beef_9ffc_3bbe_7cb5_2ee9_82cb,
    0x2e0c_68dc_fcc4_7d78_a515_dcfe_0222_6f72,
    0x2874_1948_dc1d_b519_1116_0288_4d59_2eed,
    0x6620_50bb_4567_cb8b_dc14_ff62_ee05_813c,
    0x649e_12f7_8ccf_e176_aae4_94b1_1518_cf1a,
    0x22f3_687f_e3d2_6b19_f069_080d_38a2_01e3,
    0x9ee5_9aef_b400_5490_053d_d3e1_a32c_d094,
    0x1c05_0a6e_34c3_1151_c66d_9022_b62f_500f,
    0x55ac_8073_a7d6_a30b_7d41_281b_faba_4612,
    0xd9be_17f6_0387_eac2_b051_3f27_8aba_7dc3,
    0xbcd8_12e5_da3e_4010_7911_72c0_3b54_a7ce,
    0xd9c2_3e6a_bdd5_bf52_2033_059a_2956_3630,
    0x8084_5399_c703_cdb0_5174_ad5e_dd02_d820,
    0x1e12_bf98_bfa0_1f1a_681b_645b_7d16_cb14,
    0x1b2f_5a95_75a1_3567_1960_ccf4_8bad_a0c0,
    0xa001_ca30_974c_12ad_c3a0_54d8_418c_8064,
];

// A text, a seed, and the hash that the tests of Go's package `spaolacci/murmur3` state.
const TEXTS: [(&str, u32, u128); 15] = [
    ("", 0, 0x0000_0000_0000_0000_0000_0000_0000_0000),
    ("hello", 0, 0x5b1e_906a_48ae_1d19_cbd8_a7b3_41bd_9b02),
    ("hello, world", 0, 0x4cdc_bc07_9642_414d_342f_ac62_3a5e_bc8e),
    (
        "19 Jan 2038 at 3:14:07 AM",
        0,
        0x664f_c295_0231_b2cb_b89e_5988_b737_affc,
    ),
    (
        "The quick brown fox jumps over the lazy dog.",
        0,
        0x695d_a1a3_8987_b6e7_cd99_481f_9ee9_02c9,
    ),
    ("", 1, 0x5162_2daa_78f8_3583_4610_abe5_6eff_5cb5),
    ("hello", 1, 0x1289_00ef_2090_0135_a78d_dff5_adae_8d10),
    ("hello, world", 1, 0x1597_ed54_22bd_493b_8b95_f808_8407_25c6),
    (
        "19 Jan 2038 at 3:14:07 AM",
        1,
        0x56a4_1d99_af43_a2db_2a92_9de9_c8f9_7b2f,
    ),
    (
        "The quick brown fox jumps over the lazy dog.",
        1,
        0xaaf8_b92a_5f72_2952_fb33_2517_1f97_44da,
    ),
    ("", 42, 0xd101_6610_da11_cbb9_f02a_a77d_fa1b_8523),
    ("hello", 42, 0x2334_b875_b0ef_bc7a_c4b8_b3c9_60af_6f08),
    (
        "hello, world",
        42,
        0xd5d1_39a5_5afe_6150_b918_64d7_97ca_a956,
    ),
    (
        "19 Jan 2038 at 3:14:07 AM",
        42,
        0xd30f_dc31_0fa0_8ff9_fd8f_19eb_dc8c_6b6a,
    ),
    (
        "The quick brown fox jumps over the lazy dog.",
        42,
        0x4ec7_a891_caf3_16f0_74f3_3c65_9cda_5af7,
    ),
];

// A name, and the first byte of its hash in the links of a sharded folder that `ipfs` made.
const NAMES: [(&[u8], u8); 4] = [
    (b"long-named-file-016", 0x07),
    (b"long-named-file-037", 0x07),
    (b"long-named-file-048", 0xf1),
    (b"non_sharded_dir", 0xfa),
];

// Asserts that the message has this hash, and that the shorter hash is the first word of it.
fn assert_hash(rt: &impl Abort, message: &[u8], hash: u128) {
    assert_eq!(rt; murmur3_x64_128(message, 0), hash);
    let bytes = hash.to_be_bytes();
    assert_eq!(rt; murmur3_x64_64(message).as_slice(), &bytes[8..]);
}

// [begin: slot]
/// Returns the slot of a name in the root of a sharded folder with 256 slots.
pub fn slot_of(name: &[u8]) -> u8
    ensures { result ≡ slice_index (murmur3_x64_64 name.now) 0 }
{
    murmur3_x64_64(name)[0]
}
// [end: slot]

// SMHasher's verification value: keys of 0 to 255 bytes, each with its own seed, and the hash of
// their hashes.
#[test]
fn verification_value(rt: HostRuntime) {
    let mut key = [0; 256];
    let mut hashes = [0; 4096];
    for i in 0..256 {
        key[i] = i as u8;
        let hash = murmur3_x64_128(&key[..i], (256 - i) as u32);
        hashes[16 * i..16 * i + 16].copy_from_slice(&hash.to_le_bytes());
    }
    assert_eq!(rt; murmur3_x64_128(&hashes, 0) % (1 << 32), 0x6384_ba69);
}

#[test]
fn hashes_by_length(rt: HostRuntime) -> Result<(), Fail> {
    let mut bytes = Vec::new(rt.alloc());
    for i in 0..70_000_u32 {
        bytes.push((i % 251) as u8)?;
    }
    assert!(rt; bytes.len() == 70_000);
    for i in 0..HASHES.len() {
        assert_hash(&rt, &bytes[..i], HASHES[i]);
    }
    assert_hash(&rt, &bytes, 0x50b9_45ed_340b_e88e_24d2_0777_5766_989e);
    assert_eq!(rt;
        murmur3_x64_128(&bytes, u32::MAX),
        0xcbe2_733a_9236_03a4_eb26_819d_da6d_c324
    );
    Ok(())
}

#[test]
fn hashes_of_texts(rt: HostRuntime) {
    for (text, seed, hash) in TEXTS {
        assert_eq!(rt; murmur3_x64_128(text.as_bytes(), seed), hash);
    }
}

#[test]
fn slots_of_names(rt: HostRuntime) {
    for (name, slot) in NAMES {
        assert_eq!(rt; slot_of(name), slot);
    }
    assert_eq!(rt; murmur3_x64_64(b"long-named-file-016")[1], 0x48);
    assert_eq!(rt; murmur3_x64_64(b"long-named-file-037")[1], 0xfb);
    assert_eq!(rt; murmur3_x64_64(b"long-named-file-048")[1], 0x85);
}
