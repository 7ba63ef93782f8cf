// Payloads from a seed, and the mix that delivered bytes are compared through.

fn stepped(x: u32) -> u32 {
    x.wrapping_mul(1_664_525).wrapping_add(1_013_904_223)
}

// The longest payload of a seed; shorter ones are its beginnings.
pub(crate) fn of(seed: u16) -> [u8; 1024] {
    let mut bytes = [0; 1024];
    let mut x = u32::from(seed);
    for byte in bytes.iter_mut() {
        x = stepped(x);
        *byte = (x >> 24) as u8;
    }
    bytes
}

pub(crate) fn mix(bytes: &[u8]) -> u32 {
    bytes.iter().fold(2_166_136_261, |mix, byte| {
        (mix ^ u32::from(*byte)).wrapping_mul(16_777_619)
    })
}
