//! Codecs: blocks of plain bytes, ends that fail, and code that is generic over the codec.

mod blocks;
mod ends;
mod generic;
