// The transfer CRC, CRC-16/CCITT-FALSE, eight bytes at a time and with no table: a number of eight bytes is moved past
// the next eight by shifts and sums, and brought down to the register only once, at the end. No public function has a
// `requires`.
#![tactic(auto)]

ghost use Rattle.std.specs.Prelude.{◌≡◌, ◌/◌, ◌^◌};
ghost use Rattle.std.specs.List.{concat};
ghost use Rattle.rules.specs.Crc.{crc_bits, crc_byte, crc_from};
ghost use Rattle.crc.specs.Wide.{wide};

// The register before the first byte.
pub const INITIAL: u16 = 0xFFFF;

// The register after one byte, with no loop over its bits.
#[tactic(auto, using(crate::proofs::Shifts::byte_steps))]
fn byte_step(crc: u16, b: u8) -> u16
    ensures { result ≡ crc_byte crc b }
{
    let y = crc ^ (u16::from(b) << 8);
    let x = (y >> 8) ^ (y >> 12);
    (y << 8) ^ (x ^ (x << 5) ^ (x << 12))
}

// A number that leaves in the register what x leaves with eight bytes of 0 behind it. The fourth power of the
// polynomial is z^64 + z^48 + z^20 + 1, so what moves out at the top comes back in two places and at the bottom.
#[tactic(auto, using(crate::proofs::Shifts::fold_moves))]
fn fold(x: u64) -> u64
    ensures { wide 8 result ≡ crc_bits 64 (wide 8 x) }
{
    let u = x ^ (x >> 16);
    let q = u ^ (x >> 44) ^ (u >> 32);
    q ^ (q << 20) ^ (q << 48)
}

// What the eight bytes of x, whose upper half is top, leave in the register: q is the quotient by the polynomial, and the last line its remainder.
#[tactic(auto, using(crate::proofs::Shifts::rest_leaves))]
fn rest(x: u64, top: u64) -> u16
    requires { top ≡ x / 2 ^ 32 }
    ensures { result ≡ wide 8 x }
{
    let t = x ^ top;
    let u = t ^ (t >> 16) ^ (t >> 44);
    let v = u ^ (u >> 8) ^ (u >> 22) ^ (u >> 32);
    let q = v ^ (v >> 4) ^ (v >> 11) ^ (v >> 16);
    ((q ^ (q << 5) ^ (q << 12)) % 65536) as u16
}

// The register and the seven bytes behind it, as one number that leaves the same, and its upper half. That is told beside it, not shifted out of it: the
// compiler then loads four bytes at once.
fn first_seven(crc: u16, bytes: [u8; 7]) -> (u64, u64)
    ensures { (wide 8 result.0 ≡ crc_from crc bytes) × (result.1 ≡ result.0 / 2 ^ 32) }
{
    let [a, b, c, d, e, f, g] = bytes;
    let four = u32::from_be_bytes([a, b, c, d]);
    let three = u32::from_be_bytes([0, e, f, g]);
    let high = (u64::from(crc) << 16) ^ u64::from(four);
    ((high << 24) ^ u64::from(three), high >> 8)
}

// The register after the bytes, one at a time.
#[tactic(auto, using(crate::proofs::Blocks::by_fold))]
fn few(crc: u16, bytes: &[u8]) -> u16
    ensures { result ≡ crc_from crc bytes.now }
{
    bytes.iter().fold(crc, |c, b| byte_step(c, *b))
}

// The register and the eight bytes behind it, as one number that leaves the same.
fn first_eight(crc: u16, block: [u8; 8]) -> u64
    ensures { wide 8 result ≡ crc_from crc block }
{
    (u64::from(crc) << 48) ^ u64::from_be_bytes(block)
}

// The number x and the eight bytes behind it, as one number that leaves the same.
fn next_eight(x: u64, block: [u8; 8]) -> u64
    ensures { wide 8 result ≡ crc_from (wide 8 x) block }
{
    fold(x) ^ u64::from_be_bytes(block)
}

// The register after the eight bytes of x and those of the blocks.
#[tactic(auto, using(crate::proofs::Blocks::next_block))]
fn folds(x: u64, blocks: &[[u8; 8]]) -> u16
    ensures { result ≡ crc_from (wide 8 x) (concat blocks.now) }
{
    let mut w = x;
    for block in blocks {
        w = next_eight(w, *block);
    }
    rest(w, w >> 32)
}

// The register after seven bytes: they need no fold.
fn just_seven(crc: u16, bytes: [u8; 7]) -> u16
    ensures { result ≡ crc_from crc bytes }
{
    let (x, top) = first_seven(crc, bytes);
    rest(x, top)
}

// The register after the bytes, from the register crc: the odd bytes first, then folds of eight. One call to `folds`, so that the compiler puts it in line.
pub fn digest_bytes(crc: u16, bytes: &[u8]) -> u16
    ensures { result ≡ crc_from crc bytes.now }
{
    if let Some(seven) = bytes.as_array::<7>() {
        return just_seven(crc, *seven);
    }
    let (front, blocks) = bytes.as_rchunks::<8>();
    let (x, others) = match (front.as_array::<7>(), blocks.split_first()) {
        (Some(seven), _) => (first_seven(crc, *seven).0, blocks),
        (None, Some((first, others))) => (first_eight(few(crc, front), *first), others),
        (None, None) => return few(crc, front),
    };
    folds(x, others)
}

// As digest_bytes, for a caller that mostly has seven bytes, as a full frame of 8 has before its tail byte: the compiler puts them in line.
pub fn digest_seven(crc: u16, bytes: &[u8]) -> u16
    ensures { result ≡ crc_from crc bytes.now }
{
    match bytes.as_array::<7>() {
        Some(seven) => just_seven(crc, *seven),
        None => digest_bytes(crc, bytes),
    }
}
