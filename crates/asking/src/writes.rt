// The answers of the calls that write: the buffer is `room` bytes of value 165 before the call, and all of it is shown after it.
ghost use Rattle.std.specs.Prelude.{◌+◌, ◌≤◌};

use answers::View;
use protocol::{ANSWER, Answers, ROOM, SPACE};

pub fn put_written<F: FnOnce(&mut [u8]) -> View>(
    call: F,
    room: usize,
    space: &mut [u8; ROOM],
    out: &mut Answers,
)
    requires callable { F.IsAlwaysCallable call }
    requires room { out.old + ANSWER ≤ SPACE }
    ensures { out.new ≤ out.old + ANSWER }
{
    if room > ROOM {
        return out.put_bad();
    }
    let lent = &mut space[..room];
    lent.fill(165);
    let v = call(lent);
    out.put_row(&[usize::from(v.reply), v.len], b' ');
    out.put_hex(lent);
    out.put(b'\n');
}
