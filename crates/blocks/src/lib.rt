// A copy of bytes: of few bytes by two blocks, the first and the last, which may overlap, so that no loop over single bytes is left. No public function has a
// `requires`.
#![tactic(auto)]

ghost use Rattle.std.specs.Prelude.{◌≡◌, ◌+◌, ◌≤◌, ◌++◌, length, take, drop};
ghost use Rattle.laws.specs.Laid.{laid};
ghost use Rattle.blocks.specs.Laid.{Copied};

// Copies the first N bytes. They are held in between, so that the compiler sees that no write changes what is read, and makes one load and one store, or two.
fn put<const N: usize>(src: &[u8], dst: &mut [u8])
    requires { (N ≤ length src.now) × (N ≤ length dst.old) }
    ensures { dst.new ≡ take N src.now ++ drop N dst.old }
{
    let held = *src.first_chunk::<N>().unwrap();
    dst[..N].copy_from_slice(&held);
}

// Copies N to 2 N bytes: the first N and the last N, which may overlap.
fn ends<const N: usize>(src: &[u8], dst: &mut [u8])
    requires { (N ≤ length src.now) × (length src.now ≤ N + N) × (length src.now ≤ length dst.old) }
    ensures { dst.new ≡ laid src.now dst.old }
{
    let last = src.len() - N;
    put::<N>(src, dst);
    put::<N>(&src[last..last + N], &mut dst[last..last + N]);
}

// Copies 16 bytes and more by blocks of sixteen, of which the last ends where the bytes end and may overlap the one before it.
fn sixteens(src: &[u8], dst: &mut [u8])
    requires { (16 ≤ length src.now) × (length src.now ≤ length dst.old) }
    ensures { dst.new ≡ laid src.now dst.old }
{
    let last = src.len() - 16;
    for k in 0..src.len().div_ceil(16) {
        let at = last.min(16 * k);
        put::<16>(&src[at..at + 16], &mut dst[at..at + 16]);
    }
}

// Copies all of src. Not by `copy_from_slice`: of a length that is not known it calls `memmove`, which a board with no C library would have to bring. Out of line: in
// line it keeps its callers from being put in line, and a send of 1,024 bytes at MTU 8 takes some 45 in a hundred instructions more.
#[inline(never)]
fn whole(src: &[u8], dst: &mut [u8])
    requires { length src.now ≤ length dst.old }
    ensures { dst.new ≡ laid src.now dst.old }
{
    match src.len() {
        0 => {}
        1 => put::<1>(src, dst),
        2..=3 => ends::<2>(src, dst),
        4..=7 => ends::<4>(src, dst),
        8..=15 => ends::<8>(src, dst),
        16..=32 => ends::<16>(src, dst),
        33..=64 => ends::<32>(src, dst),
        _ => sixteens(src, dst),
    }
}

// Copies the leading bytes of src over those of dst, as many as both have, and returns how many. dst past them is
// unchanged.
pub fn copy(src: &[u8], dst: &mut [u8]) -> usize
    ensures { Copied src.now dst.old result dst.new }
{
    let n = src.len().min(dst.len());
    whole(&src[..n], dst);
    n
}

// As copy, for a caller that mostly has seven bytes and room for them, as a full frame of 8 has before its tail byte: the compiler puts them in line.
pub fn copy_seven(src: &[u8], dst: &mut [u8]) -> usize
    ensures { Copied src.now dst.old result dst.new }
{
    if src.len() == 7 && dst.len() >= 7 {
        ends::<4>(src, dst);
        return 7;
    }
    copy(src, dst)
}
