// An answer's text, put into a buffer behind the answers that it holds. The buffer holds two of the longest answers, so
// that whoever empties it has only to look before an answer, and no piece is ever cut. Proved: that it stays within
// the buffer and puts no more than it says. Which bytes it puts is tested.
ghost use Rattle.std.specs.Prelude.{◌≡◌, ◌+◌, ◌*◌, ◌≤◌, ◌<◌, ◌↔◌, IsTrue, length};

use crate::digits::glyph;
use crate::{ANSWER, SPACE};
use std::marker::Model;

// Up to this place of the buffer there is room for one more answer.
const FULL: usize = SPACE - ANSWER;

// The answers that were not written out yet.
#[derive(Drop)]
pub struct Answers {
    text: [u8; SPACE],
    held: usize,
}

// Clauses see how many bytes are held.
impl Model for Answers {
    ghost use Rattle.std.specs.Prelude.{ℕ, ◌≤◌};
    ghost use Rattle.protocol.specs.declared.TheConstants.{SPACE};

    ghost Value = { ℕ };

    ghost view = { λ a. a.held };

    ghost invariant = { λ a. a.held ≤ SPACE };
}

impl Answers {
    pub fn new() -> Answers
        ensures { result ≡ 0 }
    {
        Answers {
            text: [0; SPACE],
            held: 0,
        }
    }

    pub fn bytes(&self) -> &[u8]
        ensures { length result.now ≡ self.now }
    {
        &self.text[..self.held]
    }

    pub fn clear(&mut self)
        ensures { self.new ≡ 0 }
    {
        self.held = 0;
    }

    // Whether one more answer might not fit.
    pub fn is_full(&self) -> bool
        ensures { IsTrue result ↔ (SPACE < self.now + ANSWER) }
    {
        self.held > FULL
    }

    pub fn put(&mut self, b: u8)
        requires { self.old < SPACE }
        ensures { self.new ≡ self.old + 1 }
    {
        self.text[self.held] = b;
        self.held += 1;
    }

    pub fn put_all(&mut self, s: &[u8])
        requires { self.old + length s.now ≤ SPACE }
        ensures { self.new ≡ self.old + length s.now }
    {
        let end = self.held + s.len();
        self.text[self.held..end].copy_from_slice(s);
        self.held = end;
    }

    // In decimal. Of a number below 10, as most in an answer are, the one digit is put at once.
    pub fn put_number(&mut self, v: usize)
        requires { self.old + 20 ≤ SPACE }
        ensures { self.new ≤ self.old + 20 }
    {
        if v < 10 {
            self.put(glyph(v as u8));
        } else {
            self.put_digits(v);
        }
    }

    // Twenty digits are enough for any number. The digits come from the last on, and a `for` could not hand on where it stopped.
    // They are set one by one, since a copy of so few would be a call.
    fn put_digits(&mut self, v: usize)
        requires { self.old + 20 ≤ SPACE }
        ensures { self.new ≤ self.old + 20 }
    {
        let mut digits = [0; 20];
        let mut first = 20;
        let mut rest = v;
        while first > 0 {
            first -= 1;
            digits[first] = glyph((rest % 10) as u8);
            rest /= 10;
            if rest == 0 {
                break;
            }
        }
        let mut at = self.held;
        for d in &digits[first..] {
            self.text[at] = *d;
            at += 1;
        }
        self.held = at;
    }

    // The numbers of a row with a space between, and `last` behind them: the line's end, or a space where more follows.
    pub fn put_row(&mut self, row: &[usize], last: u8)
        requires { self.old + 21 * length row.now ≤ SPACE }
        ensures { self.new ≤ self.old + 21 * length row.now }
    {
        for (i, v) in row.iter().enumerate() {
            self.put_number(*v);
            self.put(if i + 1 < row.len() { b' ' } else { last });
        }
    }

    // The bytes of s in hex, `-` for none. Each byte is read once, the place is counted here and not in `self`, and it is not inlined,
    // since the caller's bytes lie in one struct with `self`: so a compiler can make many digits at once, in a ninth of the time.
    #[inline(never)]
    pub fn put_hex(&mut self, s: &[u8])
        requires { self.old + 2 * length s.now < SPACE }
        ensures { (self.old + 2 * length s.now ≤ self.new) × (self.new ≤ self.old + 2 * length s.now + 1) }
    {
        if s.is_empty() {
            self.put(b'-');
        }
        let mut at = self.held;
        for &b in s {
            self.text[at] = glyph(b / 16);
            self.text[at + 1] = glyph(b % 16);
            at += 2;
        }
        self.held = at;
    }

    // A line that is no request.
    pub fn put_bad(&mut self)
        requires { self.old + 2 ≤ SPACE }
        ensures { self.new ≡ self.old + 2 }
    {
        self.put_all(b"?\n");
    }
}
