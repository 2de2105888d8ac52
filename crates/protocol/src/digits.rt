// Numbers and bytes as a request writes them: decimal digits, and pairs of hex digits.
ghost use Rattle.std.specs.Prelude.{◌≡◌, ◌<◌, ◌≤◌, length};
ghost use Rattle.protocol.specs.Digits.{Digit, glyph_of, number_in, bytes_in, pairs_of, Decoded};

// What a hex digit stands for. Capitals are none.
pub fn digit(b: u8) -> Option<usize>
    ensures { Digit b result }
{
    match b {
        b'0'..=b'9' => Some(usize::from(b - b'0')),
        // The letter a, byte 97, stands for 10.
        b'a'..=b'f' => Some(usize::from(b - 87)),
        _ => None,
    }
}

// The digit that stands for d.
#[tactic(auto, unfolding(crate::specs::Digits::glyph_of))]
pub fn glyph(d: u8) -> u8
    requires { d < 16 }
    ensures { result ≡ glyph_of d }
{
    if d < 10 { b'0' + d } else { b'a' - 10 + d }
}

// The number that w writes in decimal.
pub fn value_of(w: &[u8]) -> Option<usize>
    ensures { result ≡ number_in w.now }
{
    if w.is_empty() || w.len() > 20 {
        return None;
    }
    let mut v: usize = 0;
    for b in w {
        let d = digit(*b)?;
        if d > 9 {
            return None;
        }
        v = v.checked_mul(10)?.checked_add(d)?;
    }
    Some(v)
}

// The bytes that the pairs of digits of w stand for, into out, and how many they are.
fn pairs(w: &[u8], out: &mut [u8]) -> Option<usize>
    requires { (length w.now ≤ 16384) × (8192 ≤ length out.old) }
    ensures { Decoded (pairs_of w.now) result out.new }
{
    let (pairs, odd) = w.as_chunks::<2>();
    for (k, [high, low]) in pairs.iter().enumerate() {
        out[k] = (digit(*high)? * 16 + digit(*low)?) as u8;
    }
    if odd.is_empty() {
        Some(pairs.len())
    } else {
        None
    }
}

// The same, with `-` for no byte at all.
pub fn bytes(w: &[u8], out: &mut [u8]) -> Option<usize>
    requires { 8192 ≤ length out.old }
    ensures { Decoded (bytes_in w.now) result out.new }
{
    if w == b"-".as_slice() {
        return Some(0);
    }
    if w.is_empty() || w.len() > 16384 {
        return None;
    }
    pairs(w, out)
}
