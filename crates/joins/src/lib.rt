// Join of two paths by a set of separators: document 01's four cases, the first that applies. Each path's start is read once.
#![tactic(auto, using(crate::specs::Laws::joins, crate::specs::Laws::tests))]

ghost use Rattle.std.specs.Prelude.{◌≡◌, ◌++◌, ◌≤◌, length, take};
ghost use Rattle.octets.specs.Class.{limit};
ghost use Rattle.octets.specs.declared.Seps.TheVariants.{Unix};
ghost use Rattle.answers.specs.Outcome.{give};
ghost use Rattle.answers.specs.Written.{Wrote};
ghost use Rattle.joins.specs.Join.{joined};
ghost use Rattle.joins.specs.Leaves.{replaced_by, mended_by, mere_by, parted_by, behind, kept_unix};

use answers::View;
use components::Start;
use octets::Seps;

// Case 1: whether a path that starts with h takes the place of the other.
fn replaces(k: Seps, h: Start) -> bool
    ensures { result ≡ replaced_by k h }
{
    match k {
        Seps::Windows => prefixes::has_prefix(h.prefix),
        Seps::Unix | Seps::Verbatim => components::is_root(h.dir),
    }
}

// Case 2: whether q is laid onto a path that starts with g, a verbatim one.
fn mends(g: Start, q: &[u8]) -> bool
    ensures { result ≡ mended_by g q.now }
{
    !q.is_empty() && verbatim::is_verbatim(g.prefix)
}

// Case 3: q behind p's prefix, which ends at e. Each of these asks that both are within the limit: a type that says so would be
// taken apart wherever a part of a path is handed on, as `&p[0..e]` here.
fn join_root(p: &[u8], e: usize, q: &[u8], out: &mut [u8]) -> View
    requires { (length p.now ≤ limit) × (length q.now ≤ limit) × (e ≤ length p.now) }
    ensures { Wrote (give (take e p.now ++ q.now)) result out.old out.new }
{
    buffers::lay(&p[0..e], false, 92, q, out)
}

// Whether p, which starts with g, is merely a Disk prefix.
fn is_mere_drive(g: Start, p: &[u8]) -> bool
    ensures { result ≡ mere_by g p.now }
{
    prefixes::on_disk(g.prefix) && g.end == p.len()
}

// Case 4: whether a separator goes between p, which starts with g, and q.
fn parts_from(k: Seps, g: Start, p: &[u8]) -> bool
    ensures { result ≡ parted_by k g p.now }
{
    !is_mere_drive(g, p) && seams::wants_sep(k, p)
}

// Case 4: q behind p, and a separator between the two or none.
fn join_behind(k: Seps, p: &[u8], apart: bool, q: &[u8], out: &mut [u8]) -> View
    requires { (length p.now ≤ limit) × (length q.now ≤ limit) }
    ensures { Wrote (give (behind k p.now apart q.now)) result out.old out.new }
{
    buffers::lay(p, apart, seams::sep_of(k), q, out)
}

// How much of p stays in front of q: nothing where q is absolute.
fn kept_unix(p: &[u8], q: &[u8]) -> usize
    ensures r_value { result ≡ kept_unix p.now q.now }
    ensures r_in_bounds { result ≤ length p.now }
{
    if components::sep_at(Seps::Unix, q, 0) {
        0
    } else {
        p.len()
    }
}

// In Unix mode no path has a prefix: two bytes decide. By `join_any` a join takes up to 1.6 times its time.
pub fn join_unix(p: &[u8], q: &[u8], out: &mut [u8]) -> View
    requires { (length p.now ≤ limit) × (length q.now ≤ limit) }
    ensures { Wrote (give (joined Unix p.now q.now)) result out.old out.new }
{
    let e = kept_unix(p, q);
    let b = &p[0..e];
    let apart = seams::wants_sep(Seps::Unix, b);
    buffers::lay(b, apart, 47, q, out)
}

// Not inlined, and `join_in` is: a compiler would take this one, which it finds called in one place, into that one, and a Unix join
// would save registers for it, up to 1.6 times its time.
#[inline(never)]
pub fn join_any(k: Seps, p: &[u8], q: &[u8], out: &mut [u8]) -> View
    requires { (length p.now ≤ limit) × (length q.now ≤ limit) }
    ensures { Wrote (give (joined k p.now q.now)) result out.old out.new }
{
    let h = components::begin(k, q);
    if replaces(k, h) {
        return buffers::lay(b"", false, 92, q, out);
    }
    let g = components::begin(k, p);
    if mends(g, q) {
        return verbatim::join(p, q, out);
    }
    if components::is_root(h.dir) {
        return join_root(p, g.end, q, out);
    }
    join_behind(k, p, parts_from(k, g, p), q, out)
}

#[inline(always)]
pub fn join_in(k: Seps, p: &[u8], q: &[u8], out: &mut [u8]) -> View
    requires { (length p.now ≤ limit) × (length q.now ≤ limit) }
    ensures { Wrote (give (joined k p.now q.now)) result out.old out.new }
{
    match k {
        Seps::Unix => join_unix(p, q, out),
        Seps::Windows | Seps::Verbatim => join_any(k, p, q, out),
    }
}
