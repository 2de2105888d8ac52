// The order of two paths: their lists are compared element by element, heads first and then bodies, in one walk over both.
// What is compared of an element is its value, kind, letter and names, never its extent.
#![tactic(auto, using(crate::proofs::Laws::bodies, crate::proofs::Laws::headings, crate::proofs::Laws::orders, crate::proofs::Laws::skips, crate::proofs::Laws::strings, crate::proofs::Laws::values, crate::specs::Eights::eights))]

ghost use Rattle.std.specs.Prelude.{◌≡◌, ◌+◌, ◌<◌, ◌≤◌, length, take};
ghost use Rattle.std.specs.Int.{to_le_bytes, w64};
ghost use Rattle.octets.specs.Class.{is_sep};
ghost use Rattle.prefixes.specs.Prefix.{parsed_figures};
ghost use Rattle.prefixes.specs.Leaves.{NamesIn};
ghost use Rattle.parts.specs.Elements.{bytes_at};
ghost use Rattle.parts.specs.Steps.{lift};
ghost use Rattle.order.specs.Values.{prefix_value, value_of};
ghost use Rattle.order.specs.Order.{and_then, cmp_bytes, cmp_value, cmp_values, compare_of, order_number};
ghost use Rattle.order.specs.Leaves.{Differ, rank_of, dir_rank, dir_values, head_values, body_values, is_nil, meet_then, meet, meet_lone, SeamAt, SkipAt};

use components::{Dir, Start};
use octets::Seps;
use parts::{Kind, Part, Parts};
use prefixes::Figures;
use std::cmp::Ordering;

// How two heads meet: alike, apart, or one goes on where the other is used up.
#[derive(Clone, Copy)]
pub enum Heads {
    Same,
    Apart(Ordering),
    First,
    Second,
}

// An order as a number, from 0: the first path comes first, both are equal, the second comes first. The C interface has these.
pub fn number(o: Ordering) -> usize
    ensures { result ≡ order_number o }
{
    match o {
        Ordering::Less => 0,
        Ordering::Equal => 1,
        Ordering::Greater => 2,
    }
}

// Eight bytes of s from i on as one number, of which the compiler makes one read.
fn eight_bytes(s: &[u8], i: usize) -> u64
    requires { i + 8 ≤ length s.now }
    ensures { to_le_bytes w64 result ≡ bytes_at s.now i 8 }
{
    u64::from_le_bytes([
        s[i],
        s[i + 1],
        s[i + 2],
        s[i + 3],
        s[i + 4],
        s[i + 5],
        s[i + 6],
        s[i + 7],
    ])
}

// A place up to which the first n bytes of a and b are the same, found by eights: fewer than eight are left, or a difference is
// among the next eight.
fn stretch(a: &[u8], b: &[u8], n: usize) -> usize
    requires { (n ≤ length a.now) × (n ≤ length b.now) }
    ensures { (result ≤ n) × (take result a.now ≡ take result b.now) }
{
    for j in 0..n / 8 {
        let i = 8 * j;
        if eight_bytes(a, i) != eight_bytes(b, i) {
            return i;
        }
    }
    8 * (n / 8)
}

// The first place at which a and b differ, or where the shorter ends.
pub fn mismatch(a: &[u8], b: &[u8]) -> usize
    ensures { Differ a.now b.now result }
{
    let n = a.len().min(b.len());
    for i in stretch(a, b, n)..n {
        if a[i] != b[i] {
            return i;
        }
    }
    n
}

pub fn cmp_bytes(a: &[u8], b: &[u8]) -> Ordering
    ensures { result ≡ cmp_bytes a.now b.now }
{
    let i = mismatch(a, b);
    if i < a.len() && i < b.len() {
        return a[i].cmp(&b[i]);
    }
    a.len().cmp(&b.len())
}

// The order of n bytes of s from i on and m bytes of t from j on.
fn cmp_name(s: &[u8], i: usize, n: usize, t: &[u8], j: usize, m: usize) -> Ordering
    requires { (i + n ≤ length s.now) × (j + m ≤ length t.now) }
    ensures { result ≡ cmp_bytes (bytes_at s.now i n) (bytes_at t.now j m) }
{
    cmp_bytes(&s[i..i + n], &t[j..j + m])
}

// A part's kind in the order of kinds. A number and no derived order: `Kind` and `Dir` share one order of kinds.
fn rank(k: Kind) -> usize
    ensures { result ≡ rank_of k }
{
    match k {
        Kind::Dot => 3,
        Kind::DotDot => 4,
        Kind::Name => 5,
    }
}

// The order of a part p of s and a part q of t.
pub fn cmp_part(s: &[u8], p: Part, t: &[u8], q: Part) -> Ordering
    requires { (p.start + p.len ≤ length s.now) × (q.start + q.len ≤ length t.now) }
    ensures { result ≡ cmp_value (value_of s.now (lift p)) (value_of t.now (lift q)) }
{
    match rank(p.kind).cmp(&rank(q.kind)) {
        Ordering::Equal if parts::is_name(p.kind) => {
            cmp_name(s, p.start, p.len, t, q.start, q.len)
        }
        o => o,
    }
}

// The order of two prefixes' names, a's in s and b's in t: the server before the share.
fn cmp_names(s: &[u8], a: Figures, t: &[u8], b: Figures) -> Ordering
    requires { NamesIn s.now a × NamesIn t.now b }
    ensures { result ≡ and_then (cmp_bytes (bytes_at s.now a.start1 a.len1) (bytes_at t.now b.start1 b.len1)) (cmp_bytes (bytes_at s.now a.start2 a.len2) (bytes_at t.now b.start2 b.len2)) }
{
    match cmp_name(s, a.start1, a.len1, t, b.start1, b.len1) {
        Ordering::Equal => cmp_name(s, a.start2, a.len2, t, b.start2, b.len2),
        o => o,
    }
}

// The order of a prefix a of s and a prefix b of t, told by figures: by kind, letter, names.
pub fn cmp_prefix(s: &[u8], a: Figures, t: &[u8], b: Figures) -> Ordering
    requires { NamesIn s.now a × NamesIn t.now b }
    ensures { result ≡ cmp_value (prefix_value s.now a) (prefix_value t.now b) }
{
    match a.kind.cmp(&b.kind).then(a.letter.cmp(&b.letter)) {
        Ordering::Equal => cmp_names(s, a, t, b),
        o => o,
    }
}

// Step 2's component in the order of kinds; 0 for none.
pub fn dir_rank(d: Dir) -> usize
    ensures { result ≡ dir_rank d }
{
    match d {
        Dir::Bare => 0,
        Dir::Root => 2,
        Dir::Implied => 2,
        Dir::Dot => 3,
    }
}

// How step 2's components meet.
fn meet_dirs(d: Dir, e: Dir) -> Heads
    ensures { result ≡ meet (dir_values (dir_rank d)) (dir_values (dir_rank e)) }
{
    let a = dir_rank(d);
    let b = dir_rank(e);
    if a == b {
        return Heads::Same;
    }
    if a == 0 {
        return Heads::Second;
    }
    if b == 0 {
        return Heads::First;
    }
    Heads::Apart(a.cmp(&b))
}

// A prefix on one side alone: where the other has no step 2, its head is used up; else the prefix comes first.
fn meet_lone(other: Dir, alone: Heads, o: Ordering) -> Heads
    ensures { result ≡ meet_lone (dir_rank other) alone o }
{
    if dir_rank(other) == 0 {
        return alone;
    }
    Heads::Apart(o)
}

// A prefix on both sides.
fn meet_prefixes(s: &[u8], g: Start, t: &[u8], h: Start) -> Heads
    requires { NamesIn s.now (parsed_figures g.prefix) × NamesIn t.now (parsed_figures h.prefix) }
    ensures { result ≡ meet_then (cmp_value (prefix_value s.now (parsed_figures g.prefix)) (prefix_value t.now (parsed_figures h.prefix))) (meet (dir_values (dir_rank g.dir)) (dir_values (dir_rank h.dir))) }
{
    let a = prefixes::figures_of(g.prefix);
    let b = prefixes::figures_of(h.prefix);
    match cmp_prefix(s, a, t, b) {
        Ordering::Equal => meet_dirs(g.dir, h.dir),
        o => Heads::Apart(o),
    }
}

// How the head g of s and the head h of t meet.
pub fn meet_heads(s: &[u8], g: Start, t: &[u8], h: Start) -> Heads
    requires { NamesIn s.now (parsed_figures g.prefix) × NamesIn t.now (parsed_figures h.prefix) }
    ensures { result ≡ meet (head_values s.now g) (head_values t.now h) }
{
    match (g.prefix, h.prefix) {
        (None, None) => meet_dirs(g.dir, h.dir),
        (None, Some(_)) => meet_lone(g.dir, Heads::Second, Ordering::Greater),
        (Some(_), None) => meet_lone(h.dir, Heads::First, Ordering::Less),
        (Some(_), Some(_)) => meet_prefixes(s, g, t, h),
    }
}

// Whether the body of s, whose head is g, has no part.
pub fn is_bare(g: Start, s: &[u8]) -> bool
    ensures { result ≡ is_nil (body_values g.seps s.now g.at) }
{
    parts::first(g.seps, s, g.at).is_none()
}

// The order of the parts of s from i on and those of t from j on.
#[tactic(auto, using(parts::specs::Runs::turns), unfolding(crate::specs::Leaves::body_values, crate::specs::Order::lexical, crate::specs::Values::values_in))]
fn walk(k: Seps, s: &[u8], i: usize, h: Seps, t: &[u8], j: usize) -> Ordering
    ensures { result ≡ cmp_values (body_values k s.now i) (body_values h t.now j) }
{
    let mut ours = Parts::new(k, s, i);
    let mut theirs = Parts::new(h, t, j);
    loop {
        match (ours.next(), theirs.next()) {
            (None, None) => return Ordering::Equal,
            (None, Some(_)) => return Ordering::Less,
            (Some(_), None) => return Ordering::Greater,
            (Some(a), Some(b)) => match cmp_part(s, a, t, b) {
                Ordering::Equal => {}
                o => return o,
            },
        }
    }
}

// Behind the last separator between lo and hi; lo where there is none. What `parts` looks for back is a segment, between places
// that are in order; these need not be.
fn seam(k: Seps, s: &[u8], lo: usize, hi: usize) -> usize
    requires { hi ≤ length s.now }
    ensures { SeamAt (is_sep k) s.now lo hi result }
{
    if hi <= lo {
        return lo;
    }
    match s[lo..hi].iter().rposition(|&b| octets::is_sep(k, b)) {
        None => lo,
        Some(i) => lo + i + 1,
    }
}

// How many bytes two bodies have in common, up to a separator. Where both paths begin with the same n bytes and are read alike,
// these are passed over without looking for parts in them, as Rust does.
pub fn skip(k: Seps, s: &[u8], i: usize, h: Seps, t: &[u8], j: usize, n: usize) -> usize
    requires { (i ≤ length s.now) × (j ≤ length t.now) × Differ s.now t.now n }
    ensures { SkipAt k s.now i h t.now j result }
{
    if i == j && k == h {
        return seam(k, s, i, n) - i;
    }
    0
}

// The order of two bodies, behind the heads g and h, of paths that begin with the same n bytes.
fn cmp_bodies(s: &[u8], g: Start, t: &[u8], h: Start, n: usize) -> Ordering
    requires { (g.at ≤ length s.now) × (h.at ≤ length t.now) × Differ s.now t.now n }
    ensures { result ≡ cmp_values (body_values g.seps s.now g.at) (body_values h.seps t.now h.at) }
{
    let m = skip(g.seps, s, g.at, h.seps, t, h.at, n);
    walk(g.seps, s, g.at + m, h.seps, t, h.at + m)
}

// The order of two paths that begin with the same n bytes.
fn compare_behind(k: Seps, s: &[u8], t: &[u8], n: usize) -> Ordering
    requires { Differ s.now t.now n }
    ensures { result ≡ compare_of k s.now t.now }
{
    let g = components::begin(k, s);
    let h = components::begin(k, t);
    match meet_heads(s, g, t, h) {
        Heads::Same => cmp_bodies(s, g, t, h, n),
        Heads::Apart(o) => o,
        Heads::First => {
            if is_bare(h, t) {
                return Ordering::Greater;
            }
            Ordering::Less
        }
        Heads::Second => {
            if is_bare(g, s) {
                return Ordering::Less;
            }
            Ordering::Greater
        }
    }
}

// The order of two paths.
pub fn compare(k: Seps, s: &[u8], t: &[u8]) -> Ordering
    ensures { result ≡ compare_of k s.now t.now }
{
    let n = mismatch(s, t);
    if n == s.len() && n == t.len() {
        return Ordering::Equal;
    }
    compare_behind(k, s, t, n)
}
