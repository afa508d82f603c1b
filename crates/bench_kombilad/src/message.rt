//! A message of Filecoin: a struct that is read from the list of its fields.

ghost use Rattle.ipld_de.specs.Described.{around, tuple10, byte_buf, u64, i64};

use ipld_core::ipld::Ipld;
use ipld_de::{Described, Deserialize, ImageReader, Unread, from_ipld};
use ipld_ser::{ByteBuf, SerdeError};
use std::alloc::Global;

/// A message: its sender, its receiver, the request and the price.
#[derive(Drop)]
pub struct Message {
    pub version: u64,
    pub to: ByteBuf,
    pub from: ByteBuf,
    pub nonce: u64,
    pub value: ByteBuf,
    pub gas_limit: i64,
    pub gas_fee_cap: ByteBuf,
    pub gas_premium: ByteBuf,
    pub method: u64,
    pub params: ByteBuf,
}

impl Described for Message {
    ghost known = { around (λ m. (m.version, m.to, m.from, m.nonce, m.value, m.gas_limit, m.gas_fee_cap, m.gas_premium, m.method, m.params))
        (tuple10 u64 byte_buf byte_buf u64 byte_buf i64 byte_buf byte_buf u64 byte_buf) };
}

impl Deserialize for Message {
    ghost Contents = { ⟦<Message as Described>⟧.known.Contents };

    ghost contents = { ⟦<Message as Described>⟧.known.contents };

    ghost reads = { ⟦<Message as Described>⟧.known.reads };

    ghost read_error = { ⟦<Message as Described>⟧.known.read_error };

    fn deserialize(alloc: Global, value: Ipld) -> Result<Message, SerdeError> {
        let (version, to, from, nonce, value, gas_limit, gas_fee_cap, gas_premium, method, params) =
            from_ipld(alloc, value)?;
        Ok(Message {
            version,
            to,
            from,
            nonce,
            value,
            gas_limit,
            gas_fee_cap,
            gas_premium,
            method,
            params,
        })
    }

    fn read_image<R: ImageReader>(
        alloc: Global,
        reader: &mut R,
        levels: usize,
    ) -> Result<Message, Unread> {
        let (version, to, from, nonce, value, gas_limit, gas_fee_cap, gas_premium, method, params) =
            Deserialize::read_image(alloc, reader, levels)?;
        Ok(Message {
            version,
            to,
            from,
            nonce,
            value,
            gas_limit,
            gas_fee_cap,
            gas_premium,
            method,
            params,
        })
    }
}
