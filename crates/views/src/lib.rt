// Views over a path's list: parent, ancestors, file name, stem, extension. All work from the path's end and read only
// what they need: the last part, and for an ancestor those that it lacks and one more.
#![tactic(auto, using(crate::specs::Laws::climbing, crate::specs::Laws::naming))]

ghost use Rattle.std.specs.Prelude.{◌≡◌, ◌+◌, ◌≤◌, length};
ghost use Rattle.answers.specs.Outcome.{told};
ghost use Rattle.answers.specs.Reply.{refused_view};
ghost use Rattle.components.specs.List.{start_of, head_list, list_of};
ghost use Rattle.cursors.specs.Rest.{dotted};
ghost use Rattle.views.specs.Views.{parent_of, ancestor_of, file_name_of, file_stem_of, extension_of};
ghost use Rattle.views.specs.Leaves.{up_by, ViewAt, CutAt, list_to, head_up, NameAt, BaseAt, DotAt, StemAt};

use answers::{Reply, View};
use components::{Dir, Opened};
use octets::Seps;
use parts::Part;

// Where the last component before place e ends; 0 if there is none.
fn end_before(o: &Opened<'_>, e: usize) -> usize
    requires { e ≤ length o.now.path.now }
    ensures { CutAt (dotted o.now.start o.now.path.now) (list_to o.now.start o.now.path.now e) o.now.path.now result }
{
    match parts::last(o.start.seps, o.path, o.start.at, e) {
        None => cursors::head_end(o),
        Some(q) => q.start + q.len,
    }
}

// What remains of a head alone after steps back: a lone dot can be taken, a prefix and a root cannot.
fn head_up(d: Dir, left: usize) -> View
    ensures { result ≡ told refused_view (head_up d left) }
{
    match (d, left) {
        (Dir::Dot, 1) => View {
            reply: Reply::Done,
            start: 0,
            len: 0,
        },
        _ => View::from(Reply::Absent),
    }
}

// What remains of the head after `left` steps back, which may be none.
fn head_left(o: &Opened<'_>, left: usize) -> View
    ensures { ViewAt (up_by (dotted o.now.start o.now.path.now) (head_list o.now.start) left) o.now.path.now result }
{
    if left == 0 {
        return View {
            reply: Reply::Done,
            start: 0,
            len: cursors::head_end(o),
        };
    }
    head_up(o.start.dir, left)
}

// What remains after n steps back: all up to the end of the part that has n behind it, or what the body leaves of the head.
fn up(o: &Opened<'_>, n: usize) -> View
    ensures { ViewAt (up_by (dotted (start_of o.now.seps o.now.path.now) o.now.path.now) (list_of o.now.seps o.now.path.now) n) o.now.path.now result }
{
    match parts::walk_back(o.start.seps, o.path, o.start.at, o.path.len(), n) {
        Ok(q) => View {
            reply: Reply::Done,
            start: 0,
            len: q.start + q.len,
        },
        Err(left) => head_left(o, left),
    }
}

pub fn parent(k: Seps, s: &[u8]) -> View
    ensures { ViewAt (parent_of k s.now) s.now result }
{
    let o = Opened::new(k, s);
    match parts::last(o.start.seps, s, o.start.at, s.len()) {
        None => head_up(o.start.dir, 1),
        Some(q) => View {
            reply: Reply::Done,
            start: 0,
            len: end_before(&o, q.start),
        },
    }
}

// The n-th ancestor; 0 is the path itself.
pub fn ancestor(k: Seps, s: &[u8], n: usize) -> View
    ensures { ViewAt (ancestor_of n k s.now) s.now result }
{
    if n == 0 {
        return View {
            reply: Reply::Done,
            start: 0,
            len: s.len(),
        };
    }
    up(&Opened::new(k, s), n)
}

// The last part, if it is a name. No head is one, so the body alone is asked. No `filter`: by it a `file_stem` of a short name takes
// 1.3 times its time.
pub fn name_part(k: Seps, s: &[u8]) -> Option<Part>
    ensures { NameAt k s.now result }
{
    let w = components::body_in(k, s);
    match parts::last(w.seps, s, w.at, s.len()) {
        Some(q) if parts::is_name(q.kind) => Some(q),
        _ => None,
    }
}

// How many bytes stand before the file name: those of the parent, or all where there is no name.
pub fn base_len(k: Seps, s: &[u8]) -> usize
    ensures { BaseAt k s.now result }
{
    let o = Opened::new(k, s);
    match parts::last(o.start.seps, s, o.start.at, s.len()) {
        Some(q) if parts::is_name(q.kind) => end_before(&o, q.start),
        _ => s.len(),
    }
}

// The place of the last dot between lo and hi; lo where none stands behind it.
fn last_dot(s: &[u8], lo: usize, hi: usize) -> usize
    requires { (lo ≤ hi) × (hi ≤ length s.now) }
    ensures { DotAt s.now lo hi result }
{
    match s[lo..hi].iter().rposition(|&b| b == b'.') {
        None => lo,
        Some(i) => lo + i,
    }
}

pub fn file_name(k: Seps, s: &[u8]) -> View
    ensures { ViewAt (file_name_of k s.now) s.now result }
{
    match name_part(k, s) {
        None => View::from(Reply::Absent),
        Some(q) => View {
            reply: Reply::Done,
            start: q.start,
            len: q.len,
        },
    }
}

// Where the stem of a name ends.
pub fn stem_end(s: &[u8], q: Part) -> usize
    requires { q.start + q.len ≤ length s.now }
    ensures { StemAt s.now q result }
{
    let hi = q.start + q.len;
    let d = last_dot(s, q.start, hi);
    if q.start < d { d } else { hi }
}

pub fn file_stem(k: Seps, s: &[u8]) -> View
    ensures { ViewAt (file_stem_of k s.now) s.now result }
{
    match name_part(k, s) {
        None => View::from(Reply::Absent),
        Some(q) => View {
            reply: Reply::Done,
            start: q.start,
            len: stem_end(s, q) - q.start,
        },
    }
}

pub fn extension(k: Seps, s: &[u8]) -> View
    ensures { ViewAt (extension_of k s.now) s.now result }
{
    match name_part(k, s) {
        None => View::from(Reply::Absent),
        Some(q) => {
            let hi = q.start + q.len;
            let d = last_dot(s, q.start, hi);
            let b = d + 1;
            if d == q.start {
                return View::from(Reply::Absent);
            }
            View {
                reply: Reply::Done,
                start: b,
                len: hi - b,
            }
        }
    }
}
