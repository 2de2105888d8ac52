// What a call answers: the nine replies with their numbers, the answer structs, and how a refusal of each looks.
// One `from` makes every refusal of a struct, so that one more number in a struct is one edit. An answer is no Result: by document 01
// and in the C interface a refusal has all its numbers too.
#![tactic(auto)]

ghost use Rattle.std.specs.Prelude.{◌≡◌};
ghost use Rattle.answers.specs.Reply.{number_of, refused_view, refused_verdict, bit, judged};

// The numbers are those of the table.
#[derive(Clone, Copy, PartialEq, Eq)]
pub enum Reply {
    Done = 0,
    Mode = 1,
    Length = 2,
    Absent = 3,
    Name = 4,
    Empty = 5,
    Base = 6,
    Room = 7,
    Cursor = 8,
}

// A part of a path, or of the output buffer: where it starts and how long it is.
#[derive(Clone, Copy)]
pub struct View {
    pub reply: Reply,
    pub start: usize,
    pub len: usize,
}

// The value of a test or of a comparison.
#[derive(Clone, Copy)]
pub struct Verdict {
    pub reply: Reply,
    pub value: usize,
}

impl From<Reply> for usize {
    ghost from_gives = { λ r n. n ≡ number_of r };

    fn from(r: Reply) -> usize {
        r as usize
    }
}

// A refusal: its reply, all other numbers 0.
impl From<Reply> for View {
    ghost from_gives = { λ r a. a ≡ refused_view r };

    fn from(r: Reply) -> View {
        View {
            reply: r,
            start: 0,
            len: 0,
        }
    }
}

impl From<Reply> for Verdict {
    ghost from_gives = { λ r a. a ≡ refused_verdict r };

    fn from(r: Reply) -> Verdict {
        Verdict { reply: r, value: 0 }
    }
}

// What a test answers: 1 or 0.
pub fn judge(b: bool) -> Verdict
    ensures { result ≡ judged (bit b) }
{
    Verdict {
        reply: Reply::Done,
        value: usize::from(b),
    }
}
