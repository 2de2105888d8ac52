// Whether a path starts or ends with another, by components, and what remains of it behind the other. Each call is one walk
// over both paths: heads first and then bodies, or for the end bodies first and from the back.
#![tactic(auto, using(crate::specs::EndLaws::backs, crate::specs::EndLaws::endings, crate::specs::Laws::follows, crate::specs::Laws::pieces, crate::specs::StripLaws::lasts, crate::specs::StripLaws::strips, order::proofs::Laws::headings))]

ghost use Rattle.std.specs.Prelude.{◌≡◌, ◌+◌, ◌≤◌, length};
ghost use Rattle.prefixes.specs.Prefix.{parsed_figures};
ghost use Rattle.prefixes.specs.Leaves.{NamesIn};
ghost use Rattle.parts.specs.Steps.{parts_left};
ghost use Rattle.components.specs.Leaves.{OpenAt};
ghost use Rattle.answers.specs.Reply.{refused_view};
ghost use Rattle.answers.specs.Outcome.{told};
ghost use Rattle.order.specs.Leaves.{head_values};
ghost use Rattle.matches.specs.Match.{is_equal, starts_of, ends_with, ends_of};
ghost use Rattle.matches.specs.Strip.{strip_of};
ghost use Rattle.matches.specs.Leaves.{is_dot, head_start, lonely, BehindAt, AfterAt, LastEnd, Begun, all_of, front_of, same_prefix};

use answers::{Reply, View};
use components::{Opened, Start};
use octets::Seps;
use order::Heads;
use parts::{Kind, Parts};
use prefixes::Prefix;
use std::cmp::Ordering;

// What a base leaves of a path: it is no base; nothing but the prefix is gone, if that, and the rest starts at a place; or
// the body from a place on.
#[derive(Clone, Copy)]
pub enum After {
    Off,
    Head(usize),
    Body(usize),
}

// Whether the parts of s from i on start with those of t from j on, and where they go on behind them.
#[tactic(auto, using(parts::specs::Runs::turns), unfolding(crate::specs::Leaves::left_body, crate::specs::Leaves::starts_body, crate::specs::Match::starts_with, order::specs::Leaves::body_values, order::specs::Values::values_in))]
fn walk(k: Seps, s: &[u8], i: usize, h: Seps, t: &[u8], j: usize) -> After
    ensures { BehindAt k s.now i h t.now j result }
{
    let mut x = i;
    let mut ours = Parts::new(k, s, i);
    for b in Parts::new(h, t, j) {
        let Some(a) = ours.next() else {
            return After::Off;
        };
        if order::cmp_part(s, a, t, b) != Ordering::Equal {
            return After::Off;
        }
        x = a.start + a.len + 1;
    }
    After::Body(x)
}

// The same of the bodies behind the heads g and h.
fn follow_bodies(s: &[u8], g: Start, t: &[u8], h: Start) -> After
    requires { (g.at ≤ length s.now) × (h.at ≤ length t.now) }
    ensures { BehindAt g.seps s.now g.at h.seps t.now h.at result }
{
    let n = order::mismatch(s, t);
    let m = order::skip(g.seps, s, g.at, h.seps, t, h.at, n);
    walk(g.seps, s, g.at + m, h.seps, t, h.at + m)
}

// Where the rest starts while nothing is taken, or nothing but the prefix, which ends at e.
fn head_start(q: Option<Prefix>, e: usize) -> usize
    ensures { result ≡ head_start q e }
{
    if q.is_some() { e } else { 0 }
}

// Whether the path t, whose head is h, is nothing, or nothing but a prefix.
fn is_lone(h: Start, t: &[u8]) -> bool
    ensures { result ≡ lonely t.now h }
{
    order::dir_rank(h.dir) == 0 && order::is_bare(h, t)
}

// What t leaves of the path o.
fn follow(o: &Opened<'_>, t: &[u8]) -> After
    ensures { AfterAt o.now.seps o.now.path.now o.now.start t.now result }
{
    let g = o.start;
    let h = components::begin(o.seps, t);
    match order::meet_heads(o.path, g, t, h) {
        Heads::Same if is_lone(h, t) => After::Head(head_start(h.prefix, g.end)),
        Heads::Same => follow_bodies(o.path, g, t, h),
        Heads::First if is_lone(h, t) => After::Head(head_start(h.prefix, g.end)),
        _ => After::Off,
    }
}

pub fn starts_with(k: Seps, s: &[u8], t: &[u8]) -> bool
    ensures { result ≡ starts_of k s.now t.now }
{
    !matches!(follow(&Opened::new(k, s), t), After::Off)
}

// Where the last component of the path o ends; or behind a dot that belongs to none: `C:.`.
fn last_end(o: &Opened<'_>) -> usize
    ensures { LastEnd o.now.seps o.now.path.now o.now.start result }
{
    match parts::last(o.start.seps, o.path, o.start.at, o.path.len()) {
        None => cursors::head_end(o),
        Some(q) => q.start + q.len,
    }
}

// What remains of s behind t.
pub fn strip_prefix(k: Seps, s: &[u8], t: &[u8]) -> View
    ensures { result ≡ told refused_view (strip_of k s.now t.now) }
{
    let o = Opened::new(k, s);
    match follow(&o, t) {
        After::Off => View::from(Reply::Absent),
        After::Head(start) => View {
            reply: Reply::Done,
            start,
            len: last_end(&o) - start,
        },
        After::Body(x) => {
            let e = last_end(&o);
            match parts::first(o.start.seps, s, x) {
                None => View {
                    reply: Reply::Done,
                    start: e,
                    len: 0,
                },
                Some(q) => View {
                    reply: Reply::Done,
                    start: q.start,
                    len: e - q.start,
                },
            }
        }
    }
}

fn is_dot(k: Kind) -> bool
    ensures { result ≡ is_dot k }
{
    matches!(k, Kind::Dot)
}

// Whether both heads have a prefix, and it is the same.
fn same_prefix(s: &[u8], p: Option<Prefix>, t: &[u8], q: Option<Prefix>) -> bool
    requires { NamesIn s.now (parsed_figures p) × NamesIn t.now (parsed_figures q) }
    ensures { result ≡ same_prefix s.now t.now p q }
{
    if p.is_none() {
        return false;
    }
    let a = prefixes::figures_of(p);
    let b = prefixes::figures_of(q);
    order::cmp_prefix(s, a, t, b) == Ordering::Equal
}

// Whether the head g of s ends with the head h of t.
fn ends_heads(s: &[u8], g: Start, t: &[u8], h: Start) -> bool
    requires { NamesIn s.now (parsed_figures g.prefix) × NamesIn t.now (parsed_figures h.prefix) }
    ensures { result ≡ ends_with (head_values s.now g) (head_values t.now h) }
{
    let c = order::dir_rank(g.dir);
    let e = order::dir_rank(h.dir);
    if h.prefix.is_some() {
        return c == e && same_prefix(s, g.prefix, t, h.prefix);
    }
    e == 0 || c == e
}

// Whether the head g of s and what is left of its body end with the head h of t. Of a head only a dot can be a part of a body.
#[tactic(auto, using(crate::specs::EndLaws::backs, parts::specs::Runs::turns))]
fn ends_head(s: &[u8], g: Start, mut left: Parts, t: &[u8], h: Start) -> bool
    requires { Begun s.now g × Begun t.now h }
    ensures { result ≡ ends_with (front_of s.now g (parts_left left.entry)) (head_values t.now h) }
{
    match left.next_back() {
        None => ends_heads(s, g, t, h),
        Some(a) => match order::dir_rank(h.dir) {
            3 => is_dot(a.kind),
            0 => h.prefix.is_none(),
            _ => false,
        },
    }
}

// The walk from the back: whether s, with the head g, ends with t, with the head h.
#[tactic(auto, using(crate::specs::EndLaws::backs, parts::specs::Runs::turns))]
fn walk_back(s: &[u8], g: Start, t: &[u8], h: Start) -> bool
    requires { Begun s.now g × Begun t.now h }
    ensures { result ≡ ends_with (all_of s.now g) (all_of t.now h) }
{
    let mut ours = Parts::new(g.seps, s, g.at);
    for b in Parts::new(h.seps, t, h.at).rev() {
        let Some(a) = ours.next_back() else {
            return false;
        };
        if order::cmp_part(s, a, t, b) != Ordering::Equal {
            return false;
        }
    }
    ends_head(s, g, ours, t, h)
}

pub fn ends_with(k: Seps, s: &[u8], t: &[u8]) -> bool
    ensures { result ≡ ends_of k s.now t.now }
{
    walk_back(s, components::begin(k, s), t, components::begin(k, t))
}
