// A component as a line: its kind in words, its start and its length in columns, and its bytes.
ghost use Rattle.std.specs.Prelude.{◌≡◌, ◌+◌, ◌-◌, ◌*◌, ◌≤◌, ◌<◌, [], ◌∷◌, ◌++◌, length};
ghost use Rattle.wording.specs.Lines.{Fronted, spaces, cell_of, column_of, hex_of, shown_of, escaped_of, prefix_words, kind_words, columns_of, line_of};
ghost use Rattle.wording.specs.Rows.{Added};

use parts::Component;
use prefixes::Prefix;
use protocol::glyph;

// The digit that v ends in, or a space where v is 0: a number's digit ahead of its last.
#[tactic(auto, unfolding(crate::specs::Lines::cell_of))]
fn cell(v: usize) -> u8
    ensures { result ≡ cell_of v }
{
    if v == 0 { b' ' } else { b'0' + (v % 10) as u8 }
}

// A line while it is written: the lent buffer, and the place behind what stands in it.
#[derive(Drop)]
struct Row<'a> {
    out: &'a mut [u8],
    n: usize,
}

impl Row<'_> {
    fn put(&mut self, text: &[u8])
        requires { self.old.n + length text.now ≤ length self.old.out.now }
        ensures { Added text.now self.old self.new }
    {
        self.n = buffers::push(self.out, self.n, text);
    }

    // Spaces up to place `to`.
    fn pad(&mut self, to: usize)
        requires { (self.old.n ≤ to) × (to ≤ length self.old.out.now) }
        ensures value { self.new.n ≡ to }
        ensures put { Added (spaces (to - self.old.n)) self.old self.new }
    {
        self.out[self.n..to].fill(b' ');
        self.n = to;
    }

    // The last four digits of v, spaces in the place of leading zeros. No place of a path has more.
    #[tactic(auto, unfolding(crate::specs::Lines::column_of))]
    fn column(&mut self, v: usize)
        requires { self.old.n + 4 ≤ length self.old.out.now }
        ensures value { self.new.n ≡ self.old.n + 4 }
        ensures put { Added (column_of v) self.old self.new }
    {
        let last = b'0' + (v % 10) as u8;
        self.put(&[cell(v / 1000), cell(v / 100), cell(v / 10), last]);
    }

    // A byte as \xNN.
    #[tactic(auto, unfolding(crate::specs::Lines::hex_of))]
    fn hex(&mut self, b: u8)
        requires { self.old.n + 4 ≤ length self.old.out.now }
        ensures value { self.new.n ≡ self.old.n + 4 }
        ensures put { Added (hex_of b) self.old self.new }
    {
        self.put(&[b'\\', b'x', glyph(b / 16), glyph(b % 16)]);
    }

    // One byte of a path: as it is if it is printable ASCII, else as \xNN.
    #[tactic(auto, unfolding(crate::specs::Lines::shown_of))]
    fn shown(&mut self, b: u8)
        requires { self.old.n + 4 ≤ length self.old.out.now }
        ensures upper_bound { self.new.n ≤ self.old.n + 4 }
        ensures put { Added (shown_of b) self.old self.new }
    {
        match b {
            b' '..=b'~' => self.put(&[b]),
            _ => self.hex(b),
        }
    }

    fn escaped(&mut self, s: &[u8])
        requires { self.old.n + 4 * length s.now ≤ length self.old.out.now }
        ensures upper_bound { self.new.n ≤ self.old.n + 4 * length s.now }
        ensures put { Added (escaped_of s.now) self.old self.new }
    {
        for b in s {
            self.shown(*b);
        }
    }

    // Text and a drive's letter.
    fn drive(&mut self, text: &[u8], letter: u8)
        requires { self.old.n + length text.now < length self.old.out.now }
        ensures { Added (text.now ++ (letter ∷ [])) self.old self.new }
    {
        self.put(text);
        self.put(&[letter]);
    }

    // Which prefix it is.
    fn prefix(&mut self, p: Prefix)
        requires { self.old.n + 26 ≤ length self.old.out.now }
        ensures upper_bound { self.new.n ≤ self.old.n + 26 }
        ensures put { Added (prefix_words p) self.old self.new }
    {
        match p {
            Prefix::Verbatim(_) => self.put(b"prefix, verbatim"),
            Prefix::VerbatimUnc(_) => self.put(b"prefix, verbatim UNC"),
            Prefix::VerbatimDisk(d) => self.drive(b"prefix, verbatim disk ", d),
            Prefix::DeviceNs(_) => self.put(b"prefix, device"),
            Prefix::Unc(_) => self.put(b"prefix, UNC"),
            Prefix::Disk(d) => self.drive(b"prefix, disk ", d),
        }
    }

    fn kind(&mut self, c: Component)
        requires { self.old.n + 26 ≤ length self.old.out.now }
        ensures upper_bound { self.new.n ≤ self.old.n + 26 }
        ensures put { Added (kind_words c) self.old self.new }
    {
        match c {
            Component::Prefix(p) => self.prefix(p),
            Component::RootDir => self.put(b"root"),
            Component::CurDir => self.put(b"current directory"),
            Component::ParentDir => self.put(b"parent directory"),
            Component::Normal => self.put(b"name"),
        }
    }

    // All but the bytes, at the front of the line: 40 bytes.
    fn columns(&mut self, c: Component, start: usize, len: usize)
        requires { (self.old.n ≡ 0) × (40 ≤ length self.old.out.now) }
        ensures value { self.new.n ≡ 40 }
        ensures put { Added (columns_of c start len) self.old self.new }
    {
        self.kind(c);
        self.pad(26);
        self.column(start);
        self.put(b"    ");
        self.column(len);
        self.put(b"  ");
    }

    // A component that stands at `start`, with the byte 10. The bytes are text.
    fn component(&mut self, c: Component, start: usize, text: &[u8])
        requires { (self.old.n ≡ 0) × (41 + 4 * length text.now ≤ length self.old.out.now) }
        ensures upper_bound { self.new.n ≤ length self.old.out.now }
        ensures put { Added (line_of c start text.now) self.old self.new }
    {
        self.columns(c, start, text.len());
        self.escaped(text);
        self.put(b"\n");
    }
}

// The line of a component that stands at `start`, with its byte 10; how long it is. The bytes are text.
pub fn line(out: &mut [u8], c: Component, start: usize, text: &[u8]) -> usize
    requires { 41 + 4 * length text.now ≤ length out.old }
    ensures upper_bound { result ≤ length out.old }
    ensures fronted { Fronted (line_of c start text.now) out.old result out.new }
{
    let mut row = Row { out, n: 0 };
    row.component(c, start, text);
    row.n
}
