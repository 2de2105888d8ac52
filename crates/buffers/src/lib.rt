// Writing into a lent buffer: what every call that writes is made of. Room is decided in `lay` and by the callers of `push`,
// from the finished length, before the first byte is written.
#![tactic(auto, using(crate::specs::Laws::writes))]

ghost use Rattle.std.specs.Prelude.{◌≡◌, ◌+◌, ◌^◌, ◌<◌, ◌≤◌, cond, [], ◌∷◌, ◌++◌, length, take, drop};
ghost use Rattle.answers.specs.Outcome.{give};
ghost use Rattle.answers.specs.Written.{over, Wrote};

use answers::{Reply, View};

// dst's front becomes src, byte by byte. Not `copy_from_slice`: the archives for C would ask for `memmove` from outside, and a kernel
// may have none.
fn copy_bytes(dst: &mut [u8], src: &[u8])
    requires { length src.now ≤ length dst.old }
    ensures { dst.new ≡ over src.now dst.old }
{
    for (i, b) in src.iter().enumerate() {
        dst[i] = *b;
    }
}

// 16 bytes of src from i on, over those of dst. They pass through a block that is nobody else's: so a compiler can move them at
// once.
fn copy_block(dst: &mut [u8], src: &[u8], i: usize)
    requires { (i + 16 ≤ length src.now) × (length src.now ≤ length dst.old) }
    ensures { dst.new ≡ over (take i dst.old ++ take 16 (drop i src.now)) dst.old }
{
    let mut t = [0; 16];
    copy_bytes(&mut t, &src[i..i + 16]);
    copy_bytes(&mut dst[i..], &t);
}

// dst's front becomes src; every later byte stays. Blocks from the front, and the one that ends where src ends.
pub fn copy(dst: &mut [u8], src: &[u8])
    requires { length src.now ≤ length dst.old }
    ensures { dst.new ≡ over src.now dst.old }
{
    let n = src.len();
    if n < 16 {
        return copy_bytes(dst, src);
    }
    for k in 0..(n - 1) / 16 {
        copy_block(dst, src, 16 * k);
    }
    copy_block(dst, src, n - 16);
}

// src at n in out, behind what is written; the place behind it. What is pushed is mostly a name, too short for blocks. Buffer and
// place are no struct: `verbatim` writes from the back, at places that it counts down to.
pub fn push(out: &mut [u8], n: usize, src: &[u8]) -> usize
    requires { n + length src.now ≤ length out.old }
    ensures r_value { result ≡ n + length src.now }
    ensures out_after { out.new ≡ over (take n out.old ++ src.now) out.old }
{
    copy_bytes(&mut out[n..], src);
    n + src.len()
}

// One byte at n in out; the place behind it.
pub fn push_byte(out: &mut [u8], n: usize, b: u8) -> usize
    requires { n < length out.old }
    ensures r_value { result ≡ n + 1 }
    ensures out_after { out.new ≡ over (take n out.old ++ (b ∷ [])) out.old }
{
    out[n] = b;
    n + 1
}

// p, then sep where the two are set apart, then q at the front of out; Room where they do not fit. The part of out behind p and
// sep is lent to the copy.
pub fn lay(p: &[u8], apart: bool, sep: u8, q: &[u8], out: &mut [u8]) -> View
    requires { length p.now + 1 + length q.now < 2 ^ 64 }
    ensures { Wrote (give (p.now ++ cond apart (sep ∷ []) [] ++ q.now)) result out.old out.new }
{
    let m = p.len();
    let n = m + usize::from(apart);
    let whole = n + q.len();
    if out.len() < whole {
        return View::from(Reply::Room);
    }
    copy(out, p);
    if apart {
        out[m] = sep;
    }
    copy(&mut out[n..], q);
    View {
        reply: Reply::Done,
        start: 0,
        len: whole,
    }
}
