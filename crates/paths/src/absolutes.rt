// The public call `absolute`. The crate of that name has the path made absolute; here the mode and the lengths are asked.
ghost use Rattle.answers.specs.Written.{Wrote};
ghost use Rattle.paths.specs.Absolute.{absolute_call};

use crate::guards::accept_both;
use answers::{Reply, View};

// The path made absolute in the current directory cwd, at the front of out.
pub fn absolute(mode: usize, path: &[u8], cwd: &[u8], out: &mut [u8]) -> View
    ensures { Wrote (absolute_call mode path.now cwd.now) result out.old out.new }
{
    if mode > 0 {
        return View::from(Reply::Mode);
    }
    match accept_both(mode, path, cwd) {
        Ok(_) => absolute::absolute(path, cwd, out),
        Err(r) => View::from(r),
    }
}
