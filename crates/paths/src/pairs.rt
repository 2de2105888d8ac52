// The public calls that hold two paths against each other: order, starts, ends, strip.
ghost use Rattle.std.specs.Prelude.{◌≡◌};
ghost use Rattle.answers.specs.Reply.{refused_view, refused_verdict};
ghost use Rattle.answers.specs.Outcome.{told};
ghost use Rattle.paths.specs.Pairs.{compare_call, starts_call, ends_call, strip_call};

use crate::guards::accept_both;
use answers::{Reply, Verdict, View};

// 0 where p comes first, 1 where they are equal, 2 where q comes first.
pub fn compare(mode: usize, p: &[u8], q: &[u8]) -> Verdict
    ensures { result ≡ told refused_verdict (compare_call mode p.now q.now) }
{
    match accept_both(mode, p, q) {
        Ok(k) => {
            let o = order::compare(k, p, q);
            Verdict {
                reply: Reply::Done,
                value: order::number(o),
            }
        }
        Err(r) => Verdict::from(r),
    }
}

// Whether p starts with q, by components.
pub fn starts_with(mode: usize, p: &[u8], q: &[u8]) -> Verdict
    ensures { result ≡ told refused_verdict (starts_call mode p.now q.now) }
{
    match accept_both(mode, p, q) {
        Ok(k) => answers::judge(matches::starts_with(k, p, q)),
        Err(r) => Verdict::from(r),
    }
}

// Whether p ends with q, by components.
pub fn ends_with(mode: usize, p: &[u8], q: &[u8]) -> Verdict
    ensures { result ≡ told refused_verdict (ends_call mode p.now q.now) }
{
    match accept_both(mode, p, q) {
        Ok(k) => answers::judge(matches::ends_with(k, p, q)),
        Err(r) => Verdict::from(r),
    }
}

// What of p remains behind q.
pub fn strip_prefix(mode: usize, p: &[u8], q: &[u8]) -> View
    ensures { result ≡ told refused_view (strip_call mode p.now q.now) }
{
    match accept_both(mode, p, q) {
        Ok(k) => matches::strip_prefix(k, p, q),
        Err(r) => View::from(r),
    }
}
