// Little-endian numbers and parts of byte slices: reading, storing, copying.
// Every function takes every input. A byte past the end reads as 0; what does not fit is not written at all.
#![tactic(auto)]

ghost use Rattle.std.specs.Prelude.{◌≡◌, ◌+◌, ◌-◌, ◌<◌, leb, drop, length, MatchOption};
ghost use Rattle.wire.specs.Numbers.{le, le_at, bytes_of};
ghost use Rattle.wire.specs.Parts.{put};

// Whether n bytes stand at `at` of `len` bytes. No sum is formed, so none wraps.
pub fn fits(len: usize, at: usize, n: usize) -> bool
    ensures { result ≡ leb (at + n) len }
{
    at <= len && n <= len - at
}

// How many of `len` bytes stand from `at` on.
pub fn left(len: usize, at: usize) -> usize
    ensures { result ≡ len - at }
{
    len.saturating_sub(at)
}

// The bytes from `at` on; none where it lies past the end.
pub fn tail(s: &[u8], at: usize) -> &[u8]
    ensures { result.now ≡ drop at s.now }
{
    &s[at.min(s.len())..]
}

// ---- reading

// The N bytes at `at`, if they all stand there.
fn whole_at<const N: usize>(s: &[u8], at: usize) -> Option<[u8; N]>
    ensures { MatchOption result (length s.now < at + N) (λ w. (le w ≡ le_at N s.now at) × (length w ≡ N)) }
{
    s.get(at..)?.first_chunk().copied()
}

// A number that the end cuts short, from its last byte to its first; by index, which is faster here than over the bytes of `tail`.
fn cut_at(s: &[u8], at: usize) -> u64
    requires { length s.now < at + 8 }
    ensures { result ≡ le_at 8 s.now at }
{
    let mut x = 0;
    for i in (at..s.len()).rev() {
        x = x * 256 + u64::from(s[i]);
    }
    x
}

pub fn u8_at(s: &[u8], at: usize) -> u8
    ensures { result ≡ le_at 1 s.now at }
{
    s.get(at).copied().unwrap_or(0)
}

pub fn u16_at(s: &[u8], at: usize) -> u16
    ensures { result ≡ le_at 2 s.now at }
{
    match whole_at(s, at) {
        Some(bytes) => u16::from_le_bytes(bytes),
        None => cut_at(s, at) as u16,
    }
}

pub fn u32_at(s: &[u8], at: usize) -> u32
    ensures { result ≡ le_at 4 s.now at }
{
    match whole_at(s, at) {
        Some(bytes) => u32::from_le_bytes(bytes),
        None => cut_at(s, at) as u32,
    }
}

pub fn u64_at(s: &[u8], at: usize) -> u64
    ensures { result ≡ le_at 8 s.now at }
{
    match whole_at(s, at) {
        Some(bytes) => u64::from_le_bytes(bytes),
        None => cut_at(s, at),
    }
}

// ---- storing

// A few bytes over `out` from `at` on, if they fit. Kept beside `copy`, whose `copy_from_slice` of so few is slower.
fn store<const N: usize>(out: &mut [u8], at: usize, bytes: [u8; N])
    ensures { out.new ≡ put at bytes.entry out.old }
{
    if fits(out.len(), at, N) {
        for (i, b) in bytes.iter().enumerate() {
            out[at + i] = *b;
        }
    }
}

pub fn put_u8(out: &mut [u8], at: usize, x: u8)
    ensures { out.new ≡ put at (bytes_of 1 x) out.old }
{
    store(out, at, [x]);
}

pub fn put_u16(out: &mut [u8], at: usize, x: u16)
    ensures { out.new ≡ put at (bytes_of 2 x) out.old }
{
    store(out, at, u16::to_le_bytes(x));
}

pub fn put_u32(out: &mut [u8], at: usize, x: u32)
    ensures { out.new ≡ put at (bytes_of 4 x) out.old }
{
    store(out, at, u32::to_le_bytes(x));
}

pub fn put_u64(out: &mut [u8], at: usize, x: u64)
    ensures { out.new ≡ put at (bytes_of 8 x) out.old }
{
    store(out, at, u64::to_le_bytes(x));
}

// ---- copying

// All of `src` over `out` from `at` on.
pub fn copy(out: &mut [u8], at: usize, src: &[u8])
    ensures { out.new ≡ put at src.now out.old }
{
    if fits(out.len(), at, src.len()) {
        out[at..at + src.len()].copy_from_slice(src);
    }
}
