// The bytes of the last frames, after tx/breakdown.rs. The caller lends the array: one returned by value would be copied twice.
ghost use Rattle.std.specs.Prelude.{◌≡◌, ◌+◌, ◌≤◌, ◌++◌, length, take, replicate};
ghost use Rattle.rules.specs.Transfer.{with_crc};

// What is left of a transfer of several frames, laid over lent zeros: the last bytes of its payload, padding and CRC; crc is the register of the whole payload.
pub(crate) fn close(rest: &mut [u8; 128], crc: u16, padding: usize, part: &[u8])
    requires { (rest.old ≡ replicate 128 0) × (length part.now ≤ 64) × (padding ≤ 62) }
    ensures { take (length part.now + padding + 2) rest.new ≡ part.now ++ with_crc crc (replicate padding 0) }
{
    let n = part.len();
    let high = n + padding;
    blocks::copy(part, rest);
    let crc = crc::digest_bytes(crc, &rest[n..high]);
    let [first, second] = crc.to_be_bytes();
    rest[high] = first;
    rest[high + 1] = second;
}
