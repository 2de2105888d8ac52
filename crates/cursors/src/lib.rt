// What a counted cursor finds in a path's list: whether anything is left, and the part of the path that no step has taken.
#![tactic(auto, using(crate::specs::Laws::cursors, crate::specs::Ends::ends, crate::specs::Ends::alls))]

ghost use Rattle.std.specs.Prelude.{◌≡◌, false, cond, ℕ, ◌+◌, ◌-◌, ◌^◌, ◌<◌, ◌≤◌, length};
ghost use Rattle.parts.specs.Elements.{nth_of, nth_back_of, start_or, end_or};
ghost use Rattle.components.specs.List.{whole_of, list_of, start_of};
ghost use Rattle.cursors.specs.Rest.{left_of, is_prefix, left_end, right_end, empty_at, dotted, behind_dot, rest_of, rest_asked};
ghost use Rattle.cursors.specs.Leaves.{SeenAt};

use components::{Dir, Opened, Start};
use octets::Seps;
use parts::{Component, Element};

// Whether a cursor has taken more than there is, all there is, or less.
#[derive(Clone, Copy)]
pub enum Left {
    Beyond,
    Spent,
    More,
}

// A part of a path, by its ends.
#[derive(Clone, Copy)]
pub struct Span {
    pub start: usize,
    pub end: usize,
}

// What is left of n elements when f were taken at the front and b at the back. No sum can wrap.
fn left_of(n: usize, f: usize, b: usize) -> Left
    ensures { result ≡ left_of n f b }
{
    if b <= n {
        if f < n - b {
            return Left::More;
        }
        if f == n - b {
            return Left::Spent;
        }
    }
    Left::Beyond
}

// The same of a path's list.
pub fn left_in(k: Seps, s: &[u8], f: usize, b: usize) -> Left
    ensures { result ≡ left_of (length (list_of k s.now)) f b }
{
    left_of(components::total(k, s), f, b)
}

fn start_or(i: Option<Element>) -> usize
    ensures { result ≡ start_or i }
{
    i.map_or(0, |e| e.start)
}

fn end_or(i: Option<Element>) -> usize
    requires { end_or i < 2 ^ 63 }
    ensures { result ≡ end_or i }
{
    match i {
        None => 0,
        Some(e) => e.start + e.len,
    }
}

fn is_prefix(i: Option<Element>) -> bool
    ensures { result ≡ is_prefix i }
{
    matches!(
        i,
        Some(Element {
            component: Component::Prefix(_),
            ..
        })
    )
}

// The end of element f; it lies in the path.
fn end_at(o: &Opened<'_>, f: usize) -> usize
    ensures { result ≡ end_or (nth_of (whole_of o.now.start o.now.path.now) f) }
{
    end_or(components::element_of(o.start, o.path, f))
}

// The left end of what is left behind the first element.
fn left_second(o: &Opened<'_>) -> usize
    ensures { result ≡ left_end (whole_of o.now.start o.now.path.now) 1 }
{
    let i = components::element_of(o.start, o.path, 0);
    if is_prefix(i) {
        return end_or(i);
    }
    start_or(components::element_of(o.start, o.path, 1))
}

// The left end of what is left.
fn left_end(o: &Opened<'_>, f: usize) -> usize
    ensures { result ≡ left_end (whole_of o.now.start o.now.path.now) f }
{
    match f {
        0 => 0,
        1 => left_second(o),
        _ => start_or(components::element_of(o.start, o.path, f)),
    }
}

// The right end of what is left.
fn right_end(o: &Opened<'_>, b: usize) -> usize
    ensures { result ≡ right_end (whole_of o.now.start o.now.path.now) b }
{
    end_or(components::element_back_of(o.start, o.path, b))
}

// Where nothing is left.
fn empty_at(o: &Opened<'_>, f: usize) -> usize
    ensures { result ≡ empty_at (whole_of o.now.start o.now.path.now) f }
{
    if f == 0 {
        return 0;
    }
    end_at(o, f - 1)
}

// Whether a Disk prefix with no root is followed by a segment `.`, which belongs to no component.
pub fn is_dotted(h: Start, s: &[u8]) -> bool
    ensures { result ≡ dotted h s.now }
{
    prefixes::on_disk(h.prefix)
        && matches!(h.dir, Dir::Bare)
        && components::dot_at(h.seps, s, h.end)
}

// Where the head ends, with a dot that is no component behind a drive, as in `C:.`.
pub fn head_end(o: &Opened<'_>) -> usize
    ensures { (result ≡ o.now.start.at + cond (dotted o.now.start o.now.path.now) 1 0) × (result ≤ length o.now.path.now) }
{
    if is_dotted(o.start, o.path) {
        o.start.at + 1
    } else {
        o.start.at
    }
}

// Whether, of n elements, none behind the prefix remains, and the right end is behind that dot.
fn behind_dot(d: bool, n: usize, f: usize, b: usize) -> bool
    ensures { result ≡ behind_dot d n f b }
{
    d && f < 2 && b < n && n - b == 1
}

// What is left of an opened path's list, which has n elements.
fn rest_of(o: &Opened<'_>, n: usize, f: usize, b: usize) -> Span
    requires { (n ≡ length (whole_of o.now.start o.now.path.now)) × (f + b ≤ n) }
    ensures { result ≡ rest_of (dotted o.now.start o.now.path.now) (whole_of o.now.start o.now.path.now) f b }
{
    if behind_dot(is_dotted(o.start, o.path), n, f, b) {
        return Span {
            start: left_end(o, f),
            end: end_at(o, 0) + 1,
        };
    }
    if f + b < n {
        return Span {
            start: left_end(o, f),
            end: right_end(o, b),
        };
    }
    let e = empty_at(o, f);
    Span { start: e, end: e }
}

// With none taken at the front, what stands before the last b.
fn rest_back(o: &Opened<'_>, b: usize) -> Option<Span>
    requires { dotted o.now.start o.now.path.now ≡ false }
    ensures { SeenAt o.now.start o.now.path.now 0 b result }
{
    let i = components::element_back_of(o.start, o.path, b);
    let end = end_or(i);
    i.map(|_| Span { start: 0, end })
}

// With one taken at the front, of a head: all parts are left, and the one that has b behind it is the last.
fn rest_second(o: &Opened<'_>, b: usize) -> Option<Span>
    requires { dotted o.now.start o.now.path.now ≡ false }
    ensures { SeenAt o.now.start o.now.path.now 1 b result }
{
    if components::head_count(o.start) == 0 {
        return None;
    }
    let x = parts::nth_back(o.start.seps, o.path, o.start.at, o.path.len(), b)?;
    Some(Span {
        start: left_second(o),
        end: x.start + x.len,
    })
}

// Behind the head: from part f to the part that has b behind it, which is looked for no farther than part f.
fn rest_between(o: &Opened<'_>, f: usize, b: usize) -> Option<Span>
    requires { 2 ≤ f }
    ensures { SeenAt o.now.start o.now.path.now f b result }
{
    let n = components::head_count(o.start);
    let x = parts::nth(o.start.seps, o.path, o.start.at, f - n)?;
    let y = parts::nth_back(o.start.seps, o.path, x.start, o.path.len(), b)?;
    Some(Span {
        start: x.start,
        end: y.start + y.len,
    })
}

// The rest where at most one was taken at the front.
fn rest_first(o: &Opened<'_>, f: usize, b: usize) -> Option<Span>
    requires { f ≤ 1 }
    ensures { SeenAt o.now.start o.now.path.now f b result }
{
    if is_dotted(o.start, o.path) {
        return None;
    }
    if f == 0 {
        return rest_back(o, b);
    }
    rest_second(o, b)
}

// The rest where the ends alone tell it.
fn rest_seen(o: &Opened<'_>, f: usize, b: usize) -> Option<Span>
    ensures { SeenAt o.now.start o.now.path.now f b result }
{
    if f < 2 {
        return rest_first(o, f, b);
    }
    rest_between(o, f, b)
}

// The rest where all elements are counted.
fn rest_counted(o: &Opened<'_>, f: usize, b: usize) -> Option<Span>
    ensures { result ≡ rest_asked o.now.seps o.now.path.now f b }
{
    let n = components::total_of(o.start, o.path);
    if n < f {
        return None;
    }
    if n - f < b {
        return None;
    }
    Some(rest_of(o, n, f, b))
}

// The rest, from where the body starts. With a match: what a closure that borrows an opened path returns is not told by its contract.
fn rest_begun(o: &Opened<'_>, f: usize, b: usize) -> Option<Span>
    ensures { result ≡ rest_asked o.now.seps o.now.path.now f b }
{
    match rest_seen(o, f, b) {
        Some(w) => Some(w),
        None => rest_counted(o, f, b),
    }
}

// The rest where nothing was taken: all up to the end of the last part, if there is one.
fn rest_whole(k: Seps, s: &[u8]) -> Option<Span>
    ensures { result ≡ rest_asked k s.now 0 0 }
{
    let w = components::body_in(k, s);
    match parts::last(w.seps, s, w.at, s.len()) {
        None => rest_begun(&Opened::new(k, s), 0, 0),
        Some(q) => Some(Span {
            start: 0,
            end: q.start + q.len,
        }),
    }
}

// The part of the path that no step has taken, where no more were taken than there are.
pub fn rest_in(k: Seps, s: &[u8], f: usize, b: usize) -> Option<Span>
    ensures { result ≡ rest_asked k s.now f b }
{
    if f == 0 && b == 0 {
        return rest_whole(k, s);
    }
    rest_begun(&Opened::new(k, s), f, b)
}
