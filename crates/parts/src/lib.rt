// The body of a path: its segments in order, as components, and steps over places from either end. A step reads the
// bytes that it passes and no others.
#![tactic(auto, using(crate::specs::Laws::sorts, crate::specs::Runs::runs))]

ghost use Rattle.std.specs.Prelude.{◌≡◌, ℕ, ◌+◌, ◌-◌, ◌<◌, ◌≤◌, length};
ghost use Rattle.std.specs.Iterator.{item_count};
ghost use Rattle.octets.specs.Class.{is_sep};
ghost use Rattle.parts.specs.Body.{component_of, dots, sort_of, from};
ghost use Rattle.parts.specs.Elements.{nth_of, nth_back_of};
ghost use Rattle.parts.specs.Steps.{is_name, part_at, raised, FirstAt, within, BeginAt, LastAt, BackAt, parts_left, GivesFirst, GivesLast};

use octets::Seps;
use prefixes::Prefix;

// Document 01's five kinds of component; the prefix is the whole of it.
#[derive(Clone, Copy)]
pub enum Component {
    Prefix(Prefix),
    RootDir,
    CurDir,
    ParentDir,
    Normal,
}

// An element of a path's list: a component and its extent.
#[derive(Clone, Copy)]
pub struct Element {
    pub component: Component,
    pub start: usize,
    pub len: usize,
}

// What a segment of the body can be, `.`, `..` or a name: few enough to be handed about in a register.
#[derive(Clone, Copy)]
pub enum Kind {
    Dot,
    DotDot,
    Name,
}

#[derive(Clone, Copy)]
pub struct Part {
    pub kind: Kind,
    pub start: usize,
    pub len: usize,
}

// No From<Kind>: docs/READING.md names it as the place where a component is made.
pub fn component_of(k: Kind) -> Component
    ensures { result ≡ component_of k }
{
    match k {
        Kind::Dot => Component::CurDir,
        Kind::DotDot => Component::ParentDir,
        Kind::Name => Component::Normal,
    }
}

pub fn is_name(k: Kind) -> bool
    ensures { result ≡ is_name k }
{
    matches!(k, Kind::Name)
}

// A part as an element of the list.
pub fn lifted(p: Option<Part>) -> Option<Element>
    ensures { result ≡ raised p }
{
    let q = p?;
    Some(Element {
        component: component_of(q.kind),
        start: q.start,
        len: q.len,
    })
}

// Whether a lone dot is a part.
fn dot_counts(k: Seps) -> bool
    ensures { result ≡ dots k }
{
    matches!(k, Seps::Verbatim)
}

// What a segment is, if it is a part.
fn sort_of(k: Seps, w: &[u8]) -> Option<Kind>
    ensures { result ≡ sort_of (dots k) w.now }
{
    match w {
        [] => None,
        [b'.'] => dot_counts(k).then_some(Kind::Dot),
        [b'.', b'.'] => Some(Kind::DotDot),
        _ => Some(Kind::Name),
    }
}

// The segment from `at` to `end`, if it is a part.
fn part_at(k: Seps, s: &[u8], at: usize, end: usize) -> Option<Part>
    requires { (at ≤ end) × (end ≤ length s.now) }
    ensures { result ≡ part_at (dots k) s.now at end }
{
    let kind = sort_of(k, &s[at..end])?;
    Some(Part {
        kind,
        start: at,
        len: end - at,
    })
}

// Where the segment that ends at `hi` begins: behind the last separator before it, or at `lo`. A `for`, since `rposition`,
// which proved too, made the calls above that walk back (`ancestor`, `element_back`) take 1.1 times the time.
#[tactic(auto, using(crate::specs::Laws::begins))]
fn prev_sep(k: Seps, s: &[u8], lo: usize, hi: usize) -> usize
    requires { (lo ≤ hi) × (hi ≤ length s.now) }
    ensures { BeginAt (is_sep k) s.now lo hi result }
{
    for j in (lo..hi).rev() {
        if octets::is_sep(k, s[j]) {
            return j + 1;
        }
    }
    lo
}

// What is left of a body: the parts of `bytes` from place `at` on. It can be taken from either end. Where a segment ends
// says where the next one begins, so each step looks with a `while`; both are inlined, since `count`, `nth` and `first`
// take 1.2 times the time where they call one function.
#[derive(Drop)]
pub struct Parts<'a> {
    seps: Seps,
    bytes: &'a [u8],
    at: usize,
}

impl<'a> Parts<'a> {
    pub fn new(seps: Seps, bytes: &'a [u8], at: usize) -> Parts<'a>
        ensures seps { result.seps ≡ seps }
        ensures bytes { result.bytes.now ≡ bytes.now }
        ensures at { result.at ≡ at }
        ensures left { parts_left result ≡ from (is_sep seps) (dots seps) bytes.now at }
    {
        Parts { seps, bytes, at }
    }
}

impl<'a> Iterator for Parts<'a> {
    type Item = Part;

    ghost next_gives = { GivesFirst };

    ghost remaining = { item_count parts_left };

    #[inline(always)]
    #[tactic(auto, using(crate::specs::Laws::firsts))]
    fn next(&mut self) -> Option<Part> {
        let Parts { seps, bytes, at } = *self;
        let mut i = at;
        while i < bytes.len() {
            let e = octets::next_sep(seps, bytes, i);
            if let Some(p) = part_at(seps, bytes, i, e) {
                *self = Parts {
                    seps,
                    bytes,
                    at: e + 1,
                };
                return Some(p);
            }
            i = e + 1;
        }
        None
    }
}

impl<'a> DoubleEndedIterator for Parts<'a> {
    ghost next_back_gives = { GivesLast };

    #[inline(always)]
    #[tactic(auto, using(crate::specs::Laws::lasts, crate::specs::Runs::none_left))]
    fn next_back(&mut self) -> Option<Part> {
        let Parts { seps, bytes, at } = *self;
        let mut e = bytes.len();
        while at < e {
            let i = prev_sep(seps, bytes, at, e);
            let ahead = i - usize::from(at < i);
            if let Some(p) = part_at(seps, bytes, i, e) {
                *self = Parts {
                    seps,
                    bytes: &bytes[..ahead],
                    at,
                };
                return Some(p);
            }
            e = ahead;
        }
        None
    }
}

// The first part at or after `at`.
pub fn first(k: Seps, s: &[u8], at: usize) -> Option<Part>
    ensures { FirstAt (is_sep k) (dots k) s.now at result }
{
    Parts::new(k, s, at).next()
}

// How many parts there are from `at` on.
pub fn count(k: Seps, s: &[u8], at: usize) -> usize
    ensures { result ≡ length (from (is_sep k) (dots k) s.now at) }
{
    Parts::new(k, s, at).count()
}

// Part `f` of those from `at` on.
pub fn nth(k: Seps, s: &[u8], at: usize, f: usize) -> Option<Part>
    ensures { raised result ≡ nth_of (from (is_sep k) (dots k) s.now at) f }
{
    Parts::new(k, s, at).nth(f)
}

// The last part between `lo` and `hi`.
pub fn last(k: Seps, s: &[u8], lo: usize, hi: usize) -> Option<Part>
    requires { hi ≤ length s.now }
    ensures { LastAt (is_sep k) (dots k) s.now lo hi result }
{
    Parts::new(k, &s[..hi], lo).next_back()
}

// `b` parts back from `hi`, no farther than `lo`: the part there, or how many of the `b` are left to go, which `nth_back` does
// not tell.
pub fn walk_back(k: Seps, s: &[u8], lo: usize, hi: usize, b: usize) -> Result<Part, usize>
    requires { hi ≤ length s.now }
    ensures { BackAt (within (is_sep k) (dots k) s.now lo hi) b result }
{
    let mut left = b;
    let mut parts = Parts::new(k, &s[..hi], lo);
    while let Some(p) = parts.next_back() {
        if left == 0 {
            return Ok(p);
        }
        left -= 1;
    }
    Err(left)
}

// The part that has `b` others behind it, of those between `lo` and `hi`.
pub fn nth_back(k: Seps, s: &[u8], lo: usize, hi: usize, b: usize) -> Option<Part>
    requires { hi ≤ length s.now }
    ensures { raised result ≡ nth_back_of (within (is_sep k) (dots k) s.now lo hi) b }
{
    Parts::new(k, &s[..hi], lo).nth_back(b)
}
