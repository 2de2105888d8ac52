// The text of the ask protocol: a line as a request, an answer's numbers and bytes as a line. What the digits of a word stand
// for, and which request a word names, are equations (digits, verbs); of the rest it is proved that it is safe whatever the
// line and puts no more than it says, and tested that it reads and writes as the protocol says.
#![tactic(auto, using(crate::specs::Laws::digits, crate::specs::Laws::numbers, crate::specs::Laws::pairs, crate::specs::Laws::bytes))]

mod digits;
mod output;
mod requests;
mod verbs;
mod words;

pub use digits::glyph;
pub use output::Answers;
pub use requests::{Request, read};
pub use verbs::Verb;
pub use words::beside;

// A longer line is no request.
pub const LONGEST: usize = 33000;

// The buffers: each of the two paths of a request, what a request writes, and the answers.
pub const PATH: usize = 8192;

pub const ROOM: usize = 65536;

pub const SPACE: usize = 262144;

// No answer is longer: 65,536 bytes in hex, and less than 512 bytes of numbers.
pub const ANSWER: usize = 131584;
