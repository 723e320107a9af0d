// UTF-8 as in RFC 3629: whether bytes are a text, and if not, the first place at which no text continues.
// Slices that are handed on as `&s[..]` go in registers (decision 38).
#![tactic(auto)]

ghost use Rattle.std.specs.Prelude.{◌≡◌, true, [], ◌∷◌, ◌+◌, ◌≤◌, ◌<◌, length};
ghost use Rattle.utf8.specs.Grammar.{◌⋯◌, tails as tailsOf, text_of, Reads};
ghost use Rattle.utf8.specs.Scan.{scan, is_text};
ghost use Rattle.utf8.specs.Steps.{AtMost, Passes, Reaches};

// The highest byte. The loop has no other way out, so that it compiles to vector instructions.
fn highest(s: &[u8]) -> u8
    ensures { AtMost s.now result }
{
    let mut top = 0;
    for &b in s {
        top = b.max(top);
    }
    top
}

// The highest byte of a text of any length: whole blocks, and the last bytes once more as a block of their own, so that no loop goes byte by byte but for the shortest.
fn peak(s: &[u8]) -> u8
    ensures { AtMost s.now result }
{
    let n = s.len();
    if n < 16 {
        return highest(s);
    }
    if n < 32 {
        return highest(&s[..16]).max(highest(&s[n - 16..]));
    }
    let m = n - n % 32;
    highest(&s[..m]).max(highest(&s[n - 32..]))
}

// n( UTF8-tail ) from i on.
fn tails(s: &[u8], i: usize, n: usize) -> Result<usize, usize>
    requires { i ≤ length s.now }
    ensures { Reaches s.now i (tailsOf n) i result }
{
    let mut at = i;
    for _ in 0..n {
        match s.get(at) {
            Some(&b) if 0x80 <= b && b <= 0xBF => at += 1,
            _ => return Err(at),
        }
    }
    Ok(at)
}

// %xLO-HI n( UTF8-tail ) from i on.
fn then(s: &[u8], i: usize, lo: u8, hi: u8, n: usize) -> Result<usize, usize>
    requires { i ≤ length s.now }
    ensures { Reaches s.now i (lo ⋯ hi ∷ tailsOf n) i result }
{
    match s.get(i) {
        Some(&b) if lo <= b && b <= hi => tails(s, i + 1, n),
        _ => Err(i),
    }
}

// UTF8-char = UTF8-1 / UTF8-2 / UTF8-3 / UTF8-4: the character at i, each alternative of RFC 3629, section 4, as one case in the RFC's order.
fn utf8_char(s: &[u8], i: usize) -> Result<usize, usize>
    requires { i < length s.now }
    ensures { Reaches s.now i [] (i + 1) result }
{
    let next = i + 1;
    let b = s[i];
    match b {
        // UTF8-1 = %x00-7F
        0x00..=0x7F => Ok(next),

        // UTF8-2 = %xC2-DF UTF8-tail
        0xC2..=0xDF => tails(s, next, 1),

        // UTF8-3 = %xE0 %xA0-BF UTF8-tail / %xE1-EC 2( UTF8-tail ) /
        //          %xED %x80-9F UTF8-tail / %xEE-EF 2( UTF8-tail )
        0xE0 => then(s, next, 0xA0, 0xBF, 1),
        0xE1..=0xEC => tails(s, next, 2),
        0xED => then(s, next, 0x80, 0x9F, 1),
        0xEE..=0xEF => tails(s, next, 2),

        // UTF8-4 = %xF0 %x90-BF 2( UTF8-tail ) / %xF1-F3 3( UTF8-tail ) /
        //          %xF4 %x80-8F 2( UTF8-tail )
        0xF0 => then(s, next, 0x90, 0xBF, 2),
        0xF1..=0xF3 => tails(s, next, 3),
        0xF4 => then(s, next, 0x80, 0x8F, 2),

        _ => Err(i),
    }
}

// Past the blocks of 32 ASCII bytes (those below 0x80) from i on. A block is two vector registers, tested at once.
fn blocks(s: &[u8], i: usize) -> usize
    requires { i ≤ length s.now }
    ensures { Passes s.now i [] result }
{
    let mut at = i;
    for block in s[i..].chunks_exact(32) {
        if 0x80 <= highest(block) {
            return at;
        }
        at += 32;
    }
    at
}

// The fast path for ASCII within a text: past the ASCII bytes from i on, whole blocks first, then byte by byte. It changes nothing if the scan goes on from there.
fn ascii(s: &[u8], i: usize) -> usize
    requires { i ≤ length s.now }
    ensures { Passes s.now i [] result }
{
    let start = blocks(s, i);
    for at in start..s.len() {
        if 0x80 <= s[at] {
            return at;
        }
    }
    s.len()
}

// UTF8-octets = *( UTF8-char ): character by character, but for runs of ASCII. No `for`, since the place goes on by what was read.
fn utf8_octets(s: &[u8]) -> Result<(), usize>
    ensures { result ≡ scan s.now }
{
    let mut i = 0;
    while i < s.len() {
        if s[i] < 0x80 {
            i = ascii(s, i + 1);
        } else {
            i = utf8_char(s, i)?;
        }
    }
    Ok(())
}

// The fast path for a text that is all ASCII: it changes nothing, as the scan finds such a text whole.
fn all_ascii(s: &[u8]) -> bool
    ensures { result ≡ true → scan s.now ≡ Ok tt }
{
    peak(s) < 0x80
}

// Whether s is a text, and if not, where it breaks.
pub fn text(s: &[u8]) -> Result<(), usize>
    ensures { Reads s.now (text_of result) }
{
    if all_ascii(&s[..]) {
        return Ok(());
    }
    utf8_octets(&s[..])
}

// Whether s is a text.
pub fn is_text(s: &[u8]) -> bool
    ensures { result ≡ is_text s.now }
{
    text(s).is_ok()
}
