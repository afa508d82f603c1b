//! Digits or bytes on the stack.

use ipld_cid::ByteBuffer;

// A buffer that is long enough for every call.
pub(crate) type Digits = ByteBuffer<448>;
