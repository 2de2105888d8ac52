// What the command `bridlestep` reads and shows: which command and which mode a word names, and a component as a line of a table, each
// equal to a definition, byte by byte.
#![tactic(auto)]

mod commands;
mod lines;

pub use commands::{Command, command_of, mode_of, words_of};
pub use lines::line;
