// A path with what stands ahead of its body. That the start is the path's own is in the type, so no function asks for it.
ghost use Rattle.std.specs.Prelude.{◌≡◌, ◌^◌, ◌<◌, length};
ghost use Rattle.components.specs.Leaves.{OpenAt};

use crate::{Start, begin};
use octets::Seps;

#[derive(Clone, Copy)]
pub struct Opened<'a> {
    pub seps: Seps,
    pub path: &'a [u8],
    pub start: Start,
    pub ghost open: { OpenAt seps path.now start },
    pub ghost small: { length path.now < 2 ^ 63 },
}

impl<'a> Opened<'a> {
    // A path opened: a walk over its first bytes.
    pub fn new(seps: Seps, path: &'a [u8]) -> Opened<'a>
        ensures { (result.seps ≡ seps) × (result.path.now ≡ path.now) × OpenAt seps path.now result.start }
    {
        Opened {
            seps,
            path,
            start: begin(seps, path),
        }
    }
}
