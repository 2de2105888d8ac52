// Unix `absolute`: a path made absolute in a current directory that is handed in. A walk over the path's parts writes; where
// the room may not be enough, another before it finds the finished length.
#![tactic(auto, using(crate::specs::Laws::finishes, crate::specs::Laws::gaps, crate::specs::Laws::lens, crate::specs::Laws::replies, crate::specs::Laws::slashes, crate::specs::Laws::writes, parts::specs::Runs::turns))]

ghost use Rattle.std.specs.Prelude.{◌≡◌, ◌++◌, ◌+◌, ◌^◌, ◌<◌, ◌≤◌, length, take};
ghost use Rattle.answers.specs.Outcome.{give};
ghost use Rattle.answers.specs.Written.{over, Wrote};
ghost use Rattle.absolute.specs.Absolute.{two_slashes, ends, finished, absolute_of};
ghost use Rattle.absolute.specs.Leaves.{sep_if, tail_from, TailLen, RoomAt};

use answers::{Reply, View};
use octets::Seps;
use parts::Parts;

// Whether a path ends in a separator.
fn ends_sep(s: &[u8]) -> bool
    ensures { result ≡ ends s.now }
{
    !s.is_empty() && components::sep_at(Seps::Unix, s, s.len() - 1)
}

// POSIX 4.13: what two leading slashes mean is left open, so they stay two; more count as one.
fn two_slashes(s: &[u8]) -> bool
    ensures { result ≡ two_slashes s.now }
{
    components::sep_at(Seps::Unix, s, 0)
        && components::sep_at(Seps::Unix, s, 1)
        && !components::sep_at(Seps::Unix, s, 2)
}

// How many bytes a separator takes, where one is wanted.
fn gap(apart: bool) -> usize
    ensures { result ≡ length (sep_if apart) }
{
    usize::from(apart)
}

// A separator at n in out, where one is wanted; the place behind it. Buffer and place are no struct, as in `buffers`.
fn put_gap(out: &mut [u8], n: usize, apart: bool) -> usize
    requires { n + length (sep_if apart) ≤ length out.old }
    ensures r_value { result ≡ n + length (sep_if apart) }
    ensures out_after { out.new ≡ over (take n out.old ++ sep_if apart) out.old }
{
    if apart {
        return buffers::push_byte(out, n, 47);
    }
    n
}

// How many bytes come of s from `at` on, where the start before them wants a separator or does not.
#[tactic(auto, using(crate::specs::Laws::lens, parts::specs::Runs::turns))]
fn tail_len(s: &[u8], at: usize, apart: bool) -> usize
    ensures { TailLen s.now apart at result }
{
    let mut o = apart;
    let mut n: usize = 0;
    for x in Parts::new(Seps::Unix, s, at) {
        n += gap(o) + x.len;
        o = true;
    }
    if ends_sep(s) {
        return n + gap(o);
    }
    n
}

// Whether n bytes hold m and what comes of s from `at` on. That is counted only where it may be too much.
fn has_room(s: &[u8], at: usize, apart: bool, m: usize, n: usize) -> bool
    requires { m + length s.now + 2 < 2 ^ 64 }
    ensures { RoomAt s.now apart at m n result }
{
    m + s.len() + 2 <= n || m + tail_len(s, at, apart) <= n
}

// The same bytes, written behind a start that ends at `begin`; the place behind them.
#[tactic(auto, using(crate::specs::Laws::writes, parts::specs::Runs::turns))]
fn write_tail(s: &[u8], at: usize, apart: bool, out: &mut [u8], begin: usize) -> usize
    requires { begin + length (tail_from s.now apart at) ≤ length out.old }
    ensures r_value { result ≡ begin + length (tail_from s.now apart at) }
    ensures out_after { out.new ≡ over (take begin out.old ++ tail_from s.now apart at) out.old }
{
    let mut o = apart;
    let mut n = begin;
    for x in Parts::new(Seps::Unix, s, at) {
        let m = put_gap(out, n, o);
        n = buffers::push(out, m, &s[x.start..x.start + x.len]);
        o = true;
    }
    if ends_sep(s) {
        return put_gap(out, n, o);
    }
    n
}

// s, started with t.
fn finish(t: &[u8], s: &[u8], out: &mut [u8]) -> View
    requires { length t.now + length s.now + 2 < 2 ^ 64 }
    ensures { Wrote (give (finished s.now t.now)) result out.old out.new }
{
    let at = components::begin(Seps::Unix, s).at;
    let o = seams::wants_sep(Seps::Unix, t);
    let m = t.len();
    if has_room(s, at, o, m, out.len()) {
        buffers::copy(out, t);
        return View {
            reply: Reply::Done,
            start: 0,
            len: write_tail(s, at, o, out, m),
        };
    }
    View::from(Reply::Room)
}

// The path s made absolute in the current directory cwd, which is looked at for a relative path only.
pub fn absolute(s: &[u8], cwd: &[u8], out: &mut [u8]) -> View
    requires { length cwd.now + length s.now + 2 < 2 ^ 64 }
    ensures { Wrote (absolute_of s.now cwd.now) result out.old out.new }
{
    if s.is_empty() {
        return View::from(Reply::Empty);
    }
    if components::is_absolute(Seps::Unix, s) {
        if two_slashes(s) {
            return finish(b"//", s, out);
        }
        return finish(b"/", s, out);
    }
    if components::sep_at(Seps::Unix, cwd, 0) {
        return finish(cwd, s, out);
    }
    View::from(Reply::Base)
}
