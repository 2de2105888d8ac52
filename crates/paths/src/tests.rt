// The tests of a path's head: whether it has a root, and whether it is absolute.
ghost use Rattle.std.specs.Prelude.{◌≡◌};
ghost use Rattle.answers.specs.Reply.{refused_verdict};
ghost use Rattle.answers.specs.Outcome.{told};
ghost use Rattle.paths.specs.Tests.{root_call, absolute_test};

use crate::guards::accept;
use answers::Verdict;

pub fn has_root(mode: usize, path: &[u8]) -> Verdict
    ensures { result ≡ told refused_verdict (root_call mode path.now) }
{
    match accept(mode, path) {
        Ok(k) => answers::judge(components::has_root(k, path)),
        Err(r) => Verdict::from(r),
    }
}

pub fn is_absolute(mode: usize, path: &[u8]) -> Verdict
    ensures { result ≡ told refused_verdict (absolute_test mode path.now) }
{
    match accept(mode, path) {
        Ok(k) => answers::judge(components::is_absolute(k, path)),
        Err(r) => Verdict::from(r),
    }
}
