//! The hash FNV-1a of 64 bits, by which tests compare outputs that are too long to be written out.
#![tactic(auto)]

/// The hash of these bytes.
pub fn hash_of(bytes: &[u8]) -> u64 {
    let mut hash: u64 = 0xCBF2_9CE4_8422_2325;
    for byte in bytes {
        hash = (hash ^ u64::from(*byte)).wrapping_mul(0x100_0000_01B3);
    }
    hash
}
