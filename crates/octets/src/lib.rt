// Bytes: the class of each, the three sets of separators, where a segment ends, and the longest path that is taken.
#![tactic(auto, using(crate::specs::Laws::classes, crate::specs::Laws::letters, crate::specs::Laws::far_is))]

ghost use Rattle.std.specs.Prelude.{◌≡◌, ◌≤◌, ◌||◌, false, length};
ghost use Rattle.std.specs.List.{fold, position};
ghost use Rattle.octets.specs.Class.{class_of, is_letter, is_sep, seps_of};
ghost use Rattle.octets.specs.Segment.{EndAt};
ghost use Rattle.octets.specs.Leaves.{Clear};

// The longest input that is taken; `limit` of specs/Class.antt is its name in every definition.
pub const LIMIT: usize = 4096;

#[derive(Clone, Copy, PartialEq, Eq)]
pub enum Class {
    Slash,
    Backslash,
    Dot,
    Colon,
    Letter,
    Other,
}

// The sets of separators: `/`; `/` and `\`; `\` alone, inside a verbatim prefix's path. A set and a path are no struct:
// of one path the head and the body are read by two sets.
#[derive(Clone, Copy, PartialEq, Eq)]
pub enum Seps {
    Unix,
    Windows,
    Verbatim,
}

pub fn class_of(b: u8) -> Class
    ensures { result ≡ class_of b }
{
    match b {
        47 => Class::Slash,
        92 => Class::Backslash,
        46 => Class::Dot,
        58 => Class::Colon,
        65..=90 | 97..=122 => Class::Letter,
        _ => Class::Other,
    }
}

// Whether a byte is a drive letter: bit 5 tells a small letter from its capital, so without it every letter is a capital,
// and no other byte is.
pub fn is_letter(b: u8) -> bool
    ensures { result ≡ is_letter b }
{
    matches!(b & 223, 65..=90)
}

pub fn is_sep(k: Seps, b: u8) -> bool
    ensures { result ≡ is_sep k b }
{
    match k {
        Seps::Unix => b == 47,
        // Not `||`: with it the walks back in Windows mode take up to 1.4 times as long.
        Seps::Windows => { if b == 47 { true } else { b == 92 } }
        Seps::Verbatim => b == 92,
    }
}

// The one place where a mode becomes a set of separators. Not a From<usize>: only 0 and 1 are modes, and the calls refuse all others.
pub fn seps_of(mode: usize) -> Seps
    ensures { result ≡ seps_of mode }
{
    match mode {
        0 => Seps::Unix,
        _ => Seps::Windows,
    }
}

// Whether one of 16 bytes separates. `fold` reads them all, so that a compiler can test them at once: with `any`, which stops at the
// first, a walk over long names takes 1.4 to 3.1 times as long.
fn has_sep(k: Seps, block: &[u8; 16]) -> bool
    ensures { result ≡ fold (λ hit b. hit || is_sep k b) false block.now }
{
    block.iter().fold(false, |hit, b| hit | is_sep(k, *b))
}

// How many bytes the blocks of 16 have that come before the first with a separator in it.
fn skip_clear(k: Seps, s: &[u8]) -> usize
    ensures { Clear (is_sep k) s.now result }
{
    let blocks = s.as_chunks::<16>().0;
    let n = blocks
        .iter()
        .position(|b| has_sep(k, b))
        .unwrap_or(blocks.len());
    16 * n
}

// The first separator.
fn scan(k: Seps, s: &[u8]) -> Option<usize>
    ensures { result ≡ position (is_sep k) s.now }
{
    s.iter().position(|b| is_sep(k, *b))
}

// Where the segment at `at` ends, looked for by blocks: for long names.
pub fn far_sep(k: Seps, s: &[u8], at: usize) -> usize
    requires { at ≤ length s.now }
    ensures { EndAt (is_sep k) s.now at result }
{
    let i = at + skip_clear(k, &s[at..]);
    i + scan(k, &s[i..]).unwrap_or(s.len() - i)
}

// Where the segment at `at` ends: the first separator at or after it, or the path's end. The first 16 bytes are looked through one by
// one: by blocks alone, a walk over short names takes up to 1.4 times as long; by bytes alone, one over long names 1.6 to 3 times.
pub fn next_sep(k: Seps, s: &[u8], at: usize) -> usize
    requires { at ≤ length s.now }
    ensures { EndAt (is_sep k) s.now at result }
{
    let near = s.len().min(at + 16);
    match scan(k, &s[at..near]) {
        Some(i) => at + i,
        None => far_sep(k, s, near),
    }
}
