//! Blocks that are read by recursion.

use crate::blocks::{FLOAT, with_floats};
use dag_cbor::{BlockSize, check_block, count_links, measure_block};
use std::process::Abort;

#[test]
fn checked_counted_and_measured(rt: HostRuntime) {
    let options = with_floats();
    assert!(rt; check_block(rt.alloc(), &FLOAT, &options).is_ok());
    assert!(rt; count_links(rt.alloc(), &FLOAT, &options) == Ok(1));
    let expected = BlockSize {
        levels: 2,
        values: 4,
        links: 1,
    };
    assert!(rt; measure_block(rt.alloc(), &FLOAT, &options) == Ok(expected));
}
