//! A page of raw flash: bytes alone, without a mark that tells whether it is torn.

/// All bytes that raw flash keeps of a page: the 4,096 bytes of a block, its 32 spare bytes, and a seal of 32 bytes.
#[derive(Clone, Copy)]
pub struct RawPage(pub [u8; 4160]);
