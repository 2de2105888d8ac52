// The counted cursor: how many components were taken at the front and at the back of a path. It goes in by value, and comes back
// inside the answer, moved by one or, refused, as it was.
ghost use Rattle.std.specs.Prelude.{◌≡◌, ◌+◌, ◌<◌, ◌≤◌, ◌&&◌, length, is_some, IsTrue};
ghost use Rattle.octets.specs.Class.{limit};
ghost use Rattle.components.specs.List.{list_of};
ghost use Rattle.answers.specs.Reply.{refused_view};
ghost use Rattle.answers.specs.Outcome.{told};
ghost use Rattle.paths.specs.Steps.{refused_step, took_at, step_asked, next_in, next_back_in, next_call, next_back_call, rest_call};

use crate::guards::accept;
use answers::{Reply, View};
use cursors::Left;
use octets::Seps;
use parts::{Component, Element};

// The mode is a number, which may be none: by document 01 it is the calls that refuse it.
#[derive(Clone, Copy)]
pub struct Cursor {
    pub mode: usize,
    pub front: usize,
    pub back: usize,
}

// One step: the component with its extent, and the cursor handed back. No Result: a refusal has all its numbers too.
#[derive(Clone, Copy)]
pub struct Stepped {
    pub reply: Reply,
    pub component: Option<Component>,
    pub start: usize,
    pub len: usize,
    pub cursor: Cursor,
}

fn refuse_step(c: Cursor, r: Reply) -> Stepped
    ensures { result ≡ refused_step c r }
{
    Stepped {
        reply: r,
        component: None,
        start: 0,
        len: 0,
        cursor: c,
    }
}

// The element of a step that is Done, and the cursor behind it.
#[inline(always)]
fn took(i: Option<Element>, d: Cursor) -> Stepped
    ensures { result ≡ took_at i d }
{
    match i {
        None => refuse_step(d, Reply::Done),
        Some(e) => Stepped {
            reply: Reply::Done,
            component: Some(e.component),
            start: e.start,
            len: e.len,
            cursor: d,
        },
    }
}

// A step that looks for the element i of a path's list, and hands back the cursor d. Where none was taken at the other end
// (`alone`), finding it is all there is to do; else the elements are counted. Inlined, since its answer and its cursors go through
// memory.
#[inline(always)]
fn step(k: Seps, path: &[u8], c: Cursor, alone: bool, i: Option<Element>, d: Cursor) -> Stepped
    requires { IsTrue (alone && is_some i) → c.front + c.back < length (list_of k path.now) }
    ensures { result ≡ told (refused_step c) (step_asked (length (list_of k path.now)) c i d) }
{
    if alone && i.is_some() {
        return took(i, d);
    }
    match cursors::left_in(k, path, c.front, c.back) {
        Left::Beyond => refuse_step(c, Reply::Cursor),
        Left::Spent => refuse_step(c, Reply::Absent),
        Left::More => took(i, d),
    }
}

// A front step by a set of separators. A number at its top is more than any path has: the step is refused, and no cursor moved.
fn step_front(k: Seps, path: &[u8], c: Cursor) -> Stepped
    requires { length path.now ≤ limit }
    ensures { result ≡ told (refused_step c) (next_in (list_of k path.now) c) }
{
    let i = components::element(k, path, c.front);
    let front = c.front.saturating_add(1);
    step(k, path, c, c.back == 0, i, Cursor { front, ..c })
}

// A back step, the same way.
fn step_back(k: Seps, path: &[u8], c: Cursor) -> Stepped
    requires { length path.now ≤ limit }
    ensures { result ≡ told (refused_step c) (next_back_in (list_of k path.now) c) }
{
    let i = components::element_back(k, path, c.back);
    let back = c.back.saturating_add(1);
    step(k, path, c, c.front == 0, i, Cursor { back, ..c })
}

impl Cursor {
    pub fn next(self, path: &[u8]) -> Stepped
        ensures { result ≡ told (refused_step self) (next_call self path.now) }
    {
        match accept(self.mode, path) {
            Ok(k) => step_front(k, path, self),
            Err(r) => refuse_step(self, r),
        }
    }

    pub fn next_back(self, path: &[u8]) -> Stepped
        ensures { result ≡ told (refused_step self) (next_back_call self path.now) }
    {
        match accept(self.mode, path) {
            Ok(k) => step_back(k, path, self),
            Err(r) => refuse_step(self, r),
        }
    }

    // The part of the path that no step has taken.
    pub fn as_path(self, path: &[u8]) -> View
        ensures { result ≡ told refused_view (rest_call self path.now) }
    {
        match accept(self.mode, path) {
            Ok(k) => match cursors::rest_in(k, path, self.front, self.back) {
                None => View::from(Reply::Cursor),
                Some(s) => View {
                    reply: Reply::Done,
                    start: s.start,
                    len: s.end.saturating_sub(s.start),
                },
            },
            Err(r) => View::from(r),
        }
    }
}
