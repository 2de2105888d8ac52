// The public calls that make one path of two inputs: join, another file name, another extension.
ghost use Rattle.answers.specs.Written.{Wrote};
ghost use Rattle.paths.specs.Writes.{join_call, set_name_call, set_extension_call};

use crate::guards::accept_both;
use answers::View;

// p and q made one path, at the front of out.
pub fn join(mode: usize, p: &[u8], q: &[u8], out: &mut [u8]) -> View
    ensures { Wrote (join_call mode p.now q.now) result out.old out.new }
{
    match accept_both(mode, p, q) {
        Ok(k) => joins::join_in(k, p, q, out),
        Err(r) => View::from(r),
    }
}

// p with the file name q, at the front of out.
pub fn set_file_name(mode: usize, p: &[u8], q: &[u8], out: &mut [u8]) -> View
    ensures { Wrote (set_name_call mode p.now q.now) result out.old out.new }
{
    match accept_both(mode, p, q) {
        Ok(k) => setters::set_file_name_in(k, p, q, out),
        Err(r) => View::from(r),
    }
}

// p with the extension e, at the front of out.
pub fn set_extension(mode: usize, p: &[u8], e: &[u8], out: &mut [u8]) -> View
    ensures { Wrote (set_extension_call mode p.now e.now) result out.old out.new }
{
    match accept_both(mode, p, e) {
        Ok(k) => setters::set_extension_in(k, p, e, out),
        Err(r) => View::from(r),
    }
}
