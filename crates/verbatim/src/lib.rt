// Join onto a path with a verbatim prefix. The result is a stack, from which a later `..` takes a name off again: what stays
// of both paths is read from the back, once to count its bytes and once to write them, and no list is stored.
#![tactic(auto, using(crate::specs::Laws::counts, crate::specs::Laws::reads, crate::specs::Sharing::shares, crate::specs::Writing::joins, crate::specs::Writing::texts, crate::specs::Writing::writes))]

ghost use Rattle.std.specs.Prelude.{◌≡◌, true, ◌∷◌, ◌++◌, ◌+◌, ◌^◌, ◌<◌, ◌≤◌, length, take, drop, None};
ghost use Rattle.octets.specs.Class.{limit};
ghost use Rattle.octets.specs.declared.Seps.TheVariants.{Windows};
ghost use Rattle.answers.specs.Outcome.{give};
ghost use Rattle.answers.specs.Written.{over, Wrote};
ghost use Rattle.prefixes.specs.Prefix.{prefix_in};
ghost use Rattle.parts.specs.Body.{component_of};
ghost use Rattle.verbatim.specs.Verbatim.{verbatim_in, verbatim_join};
ghost use Rattle.verbatim.specs.Leaves.{mend_of, sift_of, stretch_text, Tallied, ending_at, roots_of, Shared, plan_text, Planned};

use answers::{Reply, View};
use components::Dir;
use octets::Seps;
use parts::{Kind, Part, Parts};
use prefixes::Prefix;

// What becomes of a part, met from the back: it stays, or it is left out, and then so many names before it are to go.
// Not an `Option`: what goes would be its `Some`.
#[derive(Clone, Copy)]
pub enum Sift {
    Keep,
    Drop(usize),
}

// What is read of a path: its parts from `lo` to `hi`, of whose last names `left` are to go.
#[derive(Clone, Copy)]
pub struct Stretch {
    pub lo: usize,
    pub hi: usize,
    pub left: usize,
}

// How many bytes stay of a stretch, with a `\` before each part, and how many names are to go before it.
#[derive(Clone, Copy)]
pub struct Tally {
    pub len: usize,
    pub left: usize,
}

// What the result is made of: p's prefix, a root or none, p's parts from `lo` to `hi`, and q's from `at` on.
#[derive(Clone, Copy)]
pub struct Share {
    pub end: usize,
    pub root: bool,
    pub lo: usize,
    pub hi: usize,
    pub at: usize,
}

// The same with the names that go, and the finished length: `root` says that a root stands behind the prefix and nothing more.
#[derive(Clone, Copy)]
pub struct Plan {
    pub end: usize,
    pub root: bool,
    pub front: Stretch,
    pub tail: Stretch,
    pub len: usize,
}

// Whether a prefix is a verbatim one.
pub fn is_verbatim(p: Option<Prefix>) -> bool
    ensures { result ≡ verbatim_in p }
{
    matches!(
        p,
        Some(Prefix::Verbatim(_) | Prefix::VerbatimUnc(_) | Prefix::VerbatimDisk(_))
    )
}

// A `.` or a `..`: it stays in p, which is read by `\` alone; in q it goes, with d names before it.
fn mend(k: Seps, d: usize) -> Sift
    ensures { result ≡ mend_of k d }
{
    match k {
        Seps::Unix | Seps::Windows => Sift::Drop(d),
        Seps::Verbatim => Sift::Keep,
    }
}

// What becomes of a part of a kind, where c names are to go.
fn sift_kind(k: Seps, kind: Kind, c: usize) -> Sift
    requires { c < 2 ^ 32 }
    ensures { result ≡ sift_of k (component_of kind) c }
{
    match kind {
        Kind::Dot => mend(k, c),
        Kind::DotDot => mend(k, c + 1),
        Kind::Name if c == 0 => Sift::Keep,
        Kind::Name => Sift::Drop(c - 1),
    }
}

// What stays of a stretch.
#[tactic(auto, using(crate::specs::Laws::counts, crate::specs::Laws::reads, parts::specs::Runs::turns))]
fn count_kept(k: Seps, s: &[u8], t: Stretch) -> Tally
    requires { (length s.now ≤ limit) × (t.hi ≤ length s.now) × (t.left ≤ limit + 1) }
    ensures { Tallied k s.now t result }
{
    let mut c = t.left;
    let mut n: usize = 0;
    // A `while`: of a `for` over `rev` a compiler calls the step, once a part: 1.3 times the time.
    let mut parts = Parts::new(k, &s[..t.hi], t.lo);
    while let Some(x) = parts.next_back() {
        match sift_kind(k, x.kind, c) {
            Sift::Keep => {
                c = 0;
                n = n + 1 + x.len;
            }
            Sift::Drop(d) => c = d,
        }
    }
    Tally { len: n, left: c }
}

// `\` and then the part x of s, so that they end at k; where they start.
fn put_part(out: &mut [u8], k: usize, s: &[u8], x: Part) -> usize
    requires len_in_bounds { (x.start + x.len ≤ length s.now) × (length s.now ≤ limit) }
    requires len_bound { (x.len + 1 ≤ k) × (k ≤ length out.old) }
    ensures k_value { k ≡ result + (x.len + 1) }
    ensures out_after { out.new ≡ over (take result out.old ++ (92 ∷ take x.len (drop x.start s.now))) out.old }
{
    let e = x.start + x.len;
    let j = k - (x.len + 1);
    let m = buffers::push_byte(out, j, b'\\');
    buffers::push(out, m, &s[x.start..e]);
    j
}

// What stays of a stretch, written so that it ends at n; where it starts. A walk for both this and `count_kept` would hand on, from
// part to part, how many names are still to go: that is all that the two loops share.
#[tactic(auto, using(crate::specs::Laws::reads, crate::specs::Writing::writes, parts::specs::Runs::turns))]
fn write_kept(k: Seps, s: &[u8], t: Stretch, out: &mut [u8], n: usize) -> usize
    requires { (length s.now ≤ limit) × (t.hi ≤ length s.now) × (t.left ≤ limit + 1) × (length (stretch_text k s.now t) ≤ n) × (n ≤ length out.old) }
    ensures n_value { n ≡ result + length (stretch_text k s.now t) }
    ensures out_after { out.new ≡ ending_at n (stretch_text k s.now t) out.old }
{
    let mut c = t.left;
    let mut j = n;
    let mut parts = Parts::new(k, &s[..t.hi], t.lo);
    while let Some(x) = parts.next_back() {
        match sift_kind(k, x.kind, c) {
            Sift::Keep => {
                c = 0;
                j = put_part(out, j, s, x);
            }
            Sift::Drop(d) => c = d,
        }
    }
    j
}

// Whether step 2 of a list is a RootDir.
fn roots(d: Dir) -> bool
    ensures { result ≡ roots_of d }
{
    matches!(d, Dir::Root | Dir::Implied)
}

// A root of q takes the place of all that p has behind its prefix.
fn share_of(p: &[u8], q: &[u8]) -> Share
    requires { (verbatim_in (prefix_in Windows p.now) ≡ true) × (prefix_in Windows q.now ≡ None) }
    ensures { Shared p.now q.now result }
{
    let h = components::begin(Seps::Windows, p);
    let g = components::begin(Seps::Windows, q);
    if roots(g.dir) {
        return Share {
            end: h.end,
            root: true,
            lo: h.at,
            hi: h.at,
            at: g.at,
        };
    }
    Share {
        end: h.end,
        root: roots(h.dir),
        lo: h.at,
        hi: p.len(),
        at: g.at,
    }
}

// Where everything of the result comes from, and how long it is. A root has a byte of its own if nothing stands behind it.
fn plan_of(p: &[u8], q: &[u8]) -> Plan
    requires p_len_bound { (length p.now ≤ limit) × (length q.now ≤ limit) }
    requires p_value { (verbatim_in (prefix_in Windows p.now) ≡ true) × (prefix_in Windows q.now ≡ None) }
    ensures { Planned p.now q.now result }
{
    let b = share_of(p, q);
    let tail = Stretch {
        lo: b.at,
        hi: q.len(),
        left: 0,
    };
    let x = count_kept(Seps::Windows, q, tail);
    let front = Stretch {
        lo: b.lo,
        hi: b.hi,
        left: x.left,
    };
    let y = count_kept(Seps::Verbatim, p, front);
    let m = y.len + x.len;
    let len = b.end + m;
    match (m, b.root) {
        (0, true) => Plan {
            end: b.end,
            root: true,
            front,
            tail,
            len: len + 1,
        },
        _ => Plan {
            end: b.end,
            root: false,
            front,
            tail,
            len,
        },
    }
}

// What stands behind the prefix, from the back.
fn write_text(p: &[u8], q: &[u8], w: Plan, out: &mut [u8])
    requires planned { Planned p.now q.now w }
    requires p_len_bound { (length p.now ≤ limit) × (length q.now ≤ limit) × (w.len ≤ length out.old) }
    ensures { out.new ≡ ending_at w.len (plan_text p.now q.now w) out.old }
{
    if w.root {
        buffers::push_byte(out, w.end, b'\\');
        return;
    }
    let j = write_kept(Seps::Windows, q, w.tail, out, w.len);
    write_kept(Seps::Verbatim, p, w.front, out, j);
}

// p, which has a verbatim prefix, joined with q, which has none.
pub fn join(p: &[u8], q: &[u8], out: &mut [u8]) -> View
    requires p_len_bound { (length p.now ≤ limit) × (length q.now ≤ limit) }
    requires p_value { (verbatim_in (prefix_in Windows p.now) ≡ true) × (prefix_in Windows q.now ≡ None) }
    ensures { Wrote (give (verbatim_join p.now q.now)) result out.old out.new }
{
    let w = plan_of(p, q);
    let n = w.len;
    if out.len() < n {
        return View::from(Reply::Room);
    }
    buffers::copy(out, &p[0..w.end]);
    write_text(p, q, w, out);
    View {
        reply: Reply::Done,
        start: 0,
        len: n,
    }
}
