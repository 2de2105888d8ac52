// A request of the ask protocol, answered by the library's public calls. Proved: every function is safe whatever the line, and no
// answer is longer than protocol::ANSWER. That each answer is put together as the protocol says is tested against stored answers.
#![tactic(auto)]

mod rows;
mod writes;

ghost use Rattle.std.specs.Prelude.{◌≡◌, ◌+◌, ◌≤◌};

use paths::Cursor;
use protocol::{ANSWER, Answers, LONGEST, PATH, ROOM, Request, SPACE, Verb};
use rows::{put_prefix, put_step, put_verdict, put_view};
use writes::put_written;

// What a request is read into, what it writes into, and the answers.
#[derive(Drop)]
pub struct Desk {
    a: [u8; PATH],
    b: [u8; PATH],
    space: [u8; ROOM],
    pub answers: Answers,
}

// The answer to a request. One arm a request.
fn put_reply(q: Request<'_>, space: &mut [u8; ROOM], out: &mut Answers)
    requires { out.old + ANSWER ≤ SPACE }
    ensures { out.new ≤ out.old + ANSWER }
{
    let (mode, path, other) = (q.mode, q.path, q.other);
    let cursor = Cursor {
        mode,
        front: q.first,
        back: q.second,
    };
    match q.verb {
        Verb::Prefix => put_prefix(paths::prefix(mode, path), out),
        Verb::Front => put_step(cursor.next(path), out),
        Verb::Back => put_step(cursor.next_back(path), out),
        Verb::Rest => put_view(cursor.as_path(path), out),
        Verb::Root => put_verdict(paths::has_root(mode, path), out),
        Verb::IsAbsolute => put_verdict(paths::is_absolute(mode, path), out),
        Verb::Parent => put_view(paths::parent(mode, path), out),
        Verb::Ancestor => put_view(paths::ancestor(mode, path, q.first), out),
        Verb::Name => put_view(paths::file_name(mode, path), out),
        Verb::Stem => put_view(paths::file_stem(mode, path), out),
        Verb::Extension => put_view(paths::extension(mode, path), out),
        Verb::Compare => put_verdict(paths::compare(mode, path, other), out),
        Verb::Starts => put_verdict(paths::starts_with(mode, path, other), out),
        Verb::Ends => put_verdict(paths::ends_with(mode, path, other), out),
        Verb::Strip => put_view(paths::strip_prefix(mode, path, other), out),
        Verb::Join => put_written(|w| paths::join(mode, path, other, w), q.first, space, out),
        Verb::SetName => put_written(
            |w| paths::set_file_name(mode, path, other, w),
            q.first,
            space,
            out,
        ),
        Verb::SetExtension => put_written(
            |w| paths::set_extension(mode, path, other, w),
            q.first,
            space,
            out,
        ),
        Verb::Absolute => put_written(
            |w| paths::absolute(mode, path, other, w),
            q.first,
            space,
            out,
        ),
    }
}

impl Desk {
    pub fn new() -> Desk
        ensures { result.answers ≡ 0 }
    {
        Desk {
            a: [0; PATH],
            b: [0; PATH],
            space: [0; ROOM],
            answers: Answers::new(),
        }
    }

    // Puts the answer to a line, which has no byte 10, behind the answers that are held.
    pub fn answer(&mut self, line: &[u8])
        requires { self.old.answers + ANSWER ≤ SPACE }
        ensures { self.new.answers ≤ self.old.answers + ANSWER }
    {
        if line.len() > LONGEST {
            return self.answers.put_bad();
        }
        match protocol::read(line, &mut self.a, &mut self.b) {
            Some(q) => put_reply(q, &mut self.space, &mut self.answers),
            None => self.answers.put_bad(),
        }
    }
}
