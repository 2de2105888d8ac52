// The public calls. Each takes the mode as a number and any bytes, and refuses what document 01 says is refused; none has
// a `requires`. What a call promises is its definition in specs/, a chain of guards in front of what was asked for.
#![tactic(auto, using(crate::specs::AbsoluteLaws::absolutes, crate::specs::Laws::calls, crate::specs::PairLaws::pairs, crate::specs::StepLaws::step_calls, crate::specs::StepLaws::steps, crate::specs::TestLaws::tests, crate::specs::ViewLaws::views, crate::specs::WriteLaws::writes))]

mod absolutes;
mod guards;
mod pairs;
mod steps;
mod tests;
mod view;
mod writes;

ghost use Rattle.std.specs.Prelude.{◌≡◌};
ghost use Rattle.answers.specs.Outcome.{told};
ghost use Rattle.prefixes.specs.Prefix.{prefix_of};
ghost use Rattle.paths.specs.Prefix.{refused_prefix, prefix_asked, prefix_call};

pub use absolutes::absolute;
use answers::Reply;
use guards::accept;
use octets::Seps;
pub use pairs::{compare, ends_with, starts_with, strip_prefix};
use prefixes::Prefix;
pub use steps::{Cursor, Stepped};
pub use tests::{has_root, is_absolute};
pub use view::{ancestor, extension, file_name, file_stem, parent};
pub use writes::{join, set_extension, set_file_name};

// The prefix of a path, and how many bytes it takes. No Result: a refusal has all its numbers too.
#[derive(Clone, Copy)]
pub struct Prefixed {
    pub reply: Reply,
    pub prefix: Option<Prefix>,
    pub len: usize,
}

impl From<Reply> for Prefixed {
    ghost from_gives = { λ r a. a ≡ refused_prefix r };

    fn from(r: Reply) -> Prefixed {
        Prefixed {
            reply: r,
            prefix: None,
            len: 0,
        }
    }
}

// The prefix of a Windows path. A drive, and that there is none, are told without a call: these are the commonest.
fn windows_prefix(path: &[u8]) -> Prefixed
    ensures { result ≡ told refused_prefix (prefix_asked (prefix_of path.now)) }
{
    if prefixes::is_drive(path) {
        let d = prefixes::to_capital(path[0]);
        return Prefixed {
            reply: Reply::Done,
            prefix: Some(Prefix::Disk(d)),
            len: 2,
        };
    }
    if components::sep_at(Seps::Windows, path, 0) {
        return match prefixes::parse_prefix(path) {
            None => Prefixed::from(Reply::Absent),
            Some(q) => Prefixed {
                reply: Reply::Done,
                prefix: Some(q),
                len: prefixes::prefix_len(q),
            },
        };
    }
    Prefixed::from(Reply::Absent)
}

pub fn prefix(mode: usize, path: &[u8]) -> Prefixed
    ensures { result ≡ told refused_prefix (prefix_call mode path.now) }
{
    match accept(mode, path) {
        Ok(Seps::Windows) => windows_prefix(path),
        Ok(_) => Prefixed::from(Reply::Absent),
        Err(r) => Prefixed::from(r),
    }
}
