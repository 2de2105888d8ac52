// The guards in front of every public call: a mode that is one, and inputs that are not too long. Each stands here once. What a
// call makes of a refusal (`Err(r) => View::from(r)`) stays with it: its answer has a type, or a cursor, of its own.
#![tactic(auto, using(crate::specs::GuardLaws::guards_asked))]

ghost use Rattle.std.specs.Prelude.{◌≡◌};
ghost use Rattle.paths.specs.Guards.{accepted_one, accepted_both};

use answers::Reply;
use octets::Seps;

// What separates in a call of one path, or why it is refused. Inlined: a call of it would be most of what `has_root` takes.
#[inline(always)]
pub fn accept(mode: usize, path: &[u8]) -> Result<Seps, Reply>
    ensures { result ≡ accepted_one mode path.now }
{
    if mode > 1 {
        return Err(Reply::Mode);
    }
    if path.len() > octets::LIMIT {
        return Err(Reply::Length);
    }
    Ok(octets::seps_of(mode))
}

// The same of a call of two inputs.
#[inline(always)]
pub fn accept_both(mode: usize, p: &[u8], q: &[u8]) -> Result<Seps, Reply>
    ensures { result ≡ accepted_both mode p.now q.now }
{
    let k = accept(mode, p)?;
    if q.len() > octets::LIMIT {
        return Err(Reply::Length);
    }
    Ok(k)
}
