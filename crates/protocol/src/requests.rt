// A whole line as a request. That a path lies within its buffer is in its type; that a line is read as the protocol
// says is tested.
ghost use Rattle.std.specs.Prelude.{◌≤◌, IfSome, length};
ghost use Rattle.protocol.specs.declared.TheConstants.{PATH};

use crate::PATH;
use crate::digits::{bytes, value_of};
use crate::verbs::{Verb, verb_of};

// A request. A number that the verb does not have is 0, a path that it does not have is empty: no Option, since each verb's arm
// reads the ones that it has.
#[derive(Clone, Copy)]
pub struct Request<'a> {
    pub verb: Verb,
    pub mode: usize,
    pub first: usize,
    pub second: usize,
    pub path: &'a [u8],
    pub other: &'a [u8],
    ghost within: { (length path.now ≤ PATH) × (length other.now ≤ PATH) },
}

// The path that w stands for, put into out.
fn path_in<'a>(w: &[u8], out: &'a mut [u8; PATH]) -> Option<&'a [u8]>
    ensures { IfSome result (λ path. length path.now ≤ PATH) }
{
    let n = bytes(w, out)?;
    Some(&out[..n])
}

// The request in a line, with its paths at the front of a and b. There is exactly one space between two words.
pub fn read<'a>(line: &[u8], a: &'a mut [u8; PATH], b: &'a mut [u8; PATH]) -> Option<Request<'a>> {
    let mut words = line.split(|c| *c == b' ');
    let verb = verb_of(words.next()?)?;
    let numbers = verb.numbers();
    let mode = value_of(words.next()?)?;
    let first = if numbers > 1 {
        value_of(words.next()?)?
    } else {
        0
    };
    let second = if numbers > 2 {
        value_of(words.next()?)?
    } else {
        0
    };
    let path = path_in(words.next()?, a)?;
    let other = if verb.has_two_paths() {
        path_in(words.next()?, b)?
    } else {
        &[]
    };
    if words.next().is_some() {
        return None;
    }
    Some(Request {
        verb,
        mode,
        first,
        second,
        path,
        other,
    })
}
