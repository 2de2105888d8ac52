// The words of the command line: which command it is, how many words go with it, which mode.
ghost use Rattle.std.specs.Prelude.{◌≡◌};
ghost use Rattle.wording.specs.Commands.{command_of, mode_of};

use protocol::beside;

#[derive(Clone, Copy)]
pub enum Command {
    Help,
    List,
    Parent,
    Absolute,
    Join,
    Compare,
    Strip,
}

// The word of each command.
static COMMANDS: [(&[u8], Command); 7] = [
    (b"--help", Command::Help),
    (b"list", Command::List),
    (b"parent", Command::Parent),
    (b"absolute", Command::Absolute),
    (b"join", Command::Join),
    (b"compare", Command::Compare),
    (b"strip", Command::Strip),
];

// The word of each mode, and its number.
static MODES: [(&[u8], usize); 2] = [(b"unix", 0), (b"windows", 1)];

// The command that w names, if it names one.
#[tactic(auto, unfolding(protocol::specs::Verbs::named, crate::specs::Commands::command_of))]
pub fn command_of(w: &[u8]) -> Option<Command>
    ensures { result ≡ command_of w.now }
{
    beside(&COMMANDS, w)
}

// How many words its line has, the program's own name and the command among them. No line is that of no command.
pub fn words_of(c: Option<Command>) -> usize {
    match c {
        None => 0,
        Some(Command::Help) => 2,
        Some(Command::List | Command::Parent | Command::Absolute) => 4,
        Some(Command::Join | Command::Compare | Command::Strip) => 5,
    }
}

// The mode that w names, if it names one.
#[tactic(auto, unfolding(protocol::specs::Verbs::named, crate::specs::Commands::mode_of))]
pub fn mode_of(w: &[u8]) -> Option<usize>
    ensures { result ≡ mode_of w.now }
{
    beside(&MODES, w)
}
