// The command for people: reads the words that it was started with, asks the library, and writes what it answers. Proved: it is safe
// and ends whatever the words. What it writes, and its exit status, are tested (args and stdout here, tests/command).
#![tactic(auto)]

ghost use Rattle.std.specs.Prelude.{◌≤◌, length};

use answers::{Reply, View};
use paths::Cursor;
use protocol::ROOM;
use std::cmp::Ordering;
use std::env::FillError;
use std::io;
use std::process::ExitCode;
use std::rt::Env;
use wording::Command;

// A word is kept up to this many bytes: one more than a path may have. Of a longer one that many are handed on, and refused.
const WORD: usize = 4097;

// The buffer for a line: 41 bytes, and four for each byte of a path that is escaped.
const LINE: usize = 16448;

// A path of n bytes has at most n + 3 components.
const MOST: usize = 4100;

// More words than any command has, the program's name among them.
const MANY: usize = 6;

const HELP: &str = "\
bridlestep: what a path is made of, by the rules of Unix or of Windows. No file is looked at.

  bridlestep list MODE PATH        the components of PATH: kind, start, length, bytes
  bridlestep join MODE P Q         P and Q made one path
  bridlestep compare MODE P Q      before, equal or after: where P stands to Q
  bridlestep strip MODE PATH BASE  what of PATH remains behind BASE
  bridlestep parent MODE PATH      PATH without its last component
  bridlestep absolute PATH CWD     PATH made absolute in the directory CWD, in Unix

MODE is unix or windows. In a list a byte that is not printable ASCII is shown as \\xNN.
Exit status: 0 well; 1 refused, and the reason on standard error; 2 bad usage.

  bridlestep list windows 'C:\\maps\\12'
  bridlestep join windows 'C:\\maps' 12        C:\\maps\\12
  bridlestep compare unix /maps/12 /maps/120  before
  bridlestep strip unix /maps/12/a.map /maps  12/a.map
  bridlestep parent windows 'C:\\maps\\12'      C:\\maps
  bridlestep absolute 12/a.map /maps          /maps/12/a.map
";

// Why a run does not end well, with what is said of it.
#[derive(Clone, Copy)]
enum Failure {
    // A call was refused.
    Refused(&'static str),
    // Bad usage.
    Misused(&'static str),
    // Standard output could not be written.
    Unwritten,
}

impl Failure {
    fn reason(self) -> &'static str {
        match self {
            Failure::Refused(reason) | Failure::Misused(reason) => reason,
            Failure::Unwritten => "bridlestep: standard output could not be written\n",
        }
    }
}

impl From<io::Error> for Failure {
    fn from(_e: io::Error) -> Failure {
        Failure::Unwritten
    }
}

impl From<Failure> for ExitCode {
    fn from(f: Failure) -> ExitCode {
        match f {
            Failure::Refused(_) | Failure::Unwritten => ExitCode::FAILURE,
            Failure::Misused(_) => ExitCode::from(2),
        }
    }
}

// A reply that is no refusal, or what the refusal is called; `absent` says what is not there.
fn accepted(r: Reply, absent: &'static str) -> Result<(), Failure> {
    let reason = match r {
        Reply::Done => return Ok(()),
        Reply::Mode => "mode: MODE is neither unix nor windows\n",
        Reply::Length => "length: a path is longer than 4,096 bytes\n",
        Reply::Absent => absent,
        Reply::Name => "name: the extension holds a separator\n",
        Reply::Empty => "empty: PATH is empty\n",
        Reply::Base => "base: PATH is relative, and CWD does not start with /\n",
        Reply::Room => "room: the result is longer than 65,536 bytes\n",
        Reply::Cursor => "cursor: more components were taken than PATH has\n",
    };
    Err(Failure::Refused(reason))
}

// A part of a path. The library names no place outside of it, so nothing is cut off; that it is so need not be proved here.
fn part(path: &[u8], start: usize, len: usize) -> &[u8]
    ensures { length result.now ≤ length path.now }
{
    let from = start.min(path.len());
    let to = from.saturating_add(len).min(path.len());
    &path[from..to]
}

// A part of a path on a line of its own, or why there is none.
fn show(rt: &impl Print, v: View, path: &[u8], absent: &'static str) -> Result<(), Failure> {
    accepted(v.reply, absent)?;
    rt.write_all(part(path, v.start, v.len))?;
    rt.write_all(b"\n")?;
    Ok(())
}

// How a list ends whose first `front` components were taken.
fn list_end(rt: &impl Print, front: usize, r: Reply) -> Result<(), Failure> {
    match r {
        Reply::Absent if front == 0 => rt.write_all(b"no components\n")?,
        _ if front == 0 => accepted(r, "absent: PATH has no components\n")?,
        _ => {}
    }
    Ok(())
}

fn list(rt: &impl Print, mode: usize, path: &[u8]) -> Result<(), Failure>
    requires { length path.now ≤ 4097 }
{
    let mut line = [0; LINE];
    for front in 0..MOST {
        let back = 0;
        let s = Cursor { mode, front, back }.next(path);
        let Some(c) = s.component else {
            return list_end(rt, front, s.reply);
        };
        if front == 0 {
            rt.write_all(b"kind                     start  length  text\n")?;
        }
        let n = wording::line(&mut line, c, s.start, part(path, s.start, s.len));
        rt.write_all(&line[..n])?;
    }
    Ok(())
}

// Says in a word which of the two paths comes first.
fn compare(rt: &impl Print, mode: usize, p: &[u8], q: &[u8]) -> Result<(), Failure> {
    let v = paths::compare(mode, p, q);
    accepted(v.reply, "absent: there is no order\n")?;
    rt.print(match v.value.cmp(&1) {
        Ordering::Less => "before\n",
        Ordering::Equal => "equal\n",
        Ordering::Greater => "after\n",
    })?;
    Ok(())
}

// Which words a command wants.
fn usage(c: Command) -> &'static str {
    match c {
        Command::Help => "bridlestep: --help stands alone\n",
        Command::List => "usage: bridlestep list unix|windows PATH\n",
        Command::Parent => "usage: bridlestep parent unix|windows PATH\n",
        Command::Absolute => "usage: bridlestep absolute PATH CWD\n",
        Command::Join => "usage: bridlestep join unix|windows P Q\n",
        Command::Compare => "usage: bridlestep compare unix|windows P Q\n",
        Command::Strip => "usage: bridlestep strip unix|windows PATH BASE\n",
    }
}

// The i-th word, at the front of w; no bytes where there is none.
fn word<'a>(rt: &impl Env, i: usize, w: &'a mut [u8; WORD]) -> &'a [u8]
    ensures { length result.now ≤ 4097 }
{
    let n = match rt.arg(i, w) {
        Ok(n) => n,
        Err(FillError::TooLong) => WORD,
        Err(FillError::NotPresent) => 0,
    };
    &w[..n]
}

// How many words there are, the program's name among them; where there are MANY or more, MANY. Each is put at the front of w.
fn count_words(rt: &impl Env, w: &mut [u8; WORD]) -> usize {
    (0..MANY)
        .find(|i| matches!(rt.arg(*i, w), Err(FillError::NotPresent)))
        .unwrap_or(MANY)
}

// The command that the first word names, if the number of words is its own.
fn command(rt: &impl Env, p: &mut [u8; WORD]) -> Result<Command, Failure> {
    let named = wording::command_of(word(rt, 1, p));
    let counted = count_words(rt, p) == wording::words_of(named);
    match named {
        Some(c) if counted => Ok(c),
        Some(c) => Err(Failure::Misused(usage(c))),
        None => Err(Failure::Misused(
            "bridlestep: list, join, compare, strip, parent or absolute is wanted; bridlestep --help shows how\n",
        )),
    }
}

// What a command answers for its words: to p, and to q where it takes two.
fn answer(
    rt: &impl Print,
    c: Command,
    mode: usize,
    p: &[u8],
    q: &[u8],
    out: &mut [u8; ROOM],
) -> Result<(), Failure>
    requires { length p.now ≤ 4097 }
{
    let unwritten = "absent: there is no such path\n";
    match c {
        Command::Help => {
            rt.print(HELP)?;
            Ok(())
        }
        Command::List => list(rt, mode, p),
        Command::Compare => compare(rt, mode, p, q),
        Command::Parent => show(
            rt,
            paths::parent(mode, p),
            p,
            "absent: PATH has no parent\n",
        ),
        Command::Strip => show(
            rt,
            paths::strip_prefix(mode, p, q),
            p,
            "absent: BASE is no start of PATH\n",
        ),
        Command::Join => show(rt, paths::join(mode, p, q, out), out, unwritten),
        Command::Absolute => show(rt, paths::absolute(mode, p, q, out), out, unwritten),
    }
}

// One run: the command, its mode, its paths, its answer.
fn run(
    rt: &(impl Env + Print),
    p: &mut [u8; WORD],
    q: &mut [u8; WORD],
    out: &mut [u8; ROOM],
) -> Result<(), Failure> {
    let c = command(rt, p)?;
    // The mode, and the word behind it, where the paths begin. Help has neither, and `absolute` is for Unix alone.
    let (mode, first) = match c {
        Command::Help | Command::Absolute => (Some(0), 2),
        _ => (wording::mode_of(word(rt, 2, p)), 3),
    };
    let Some(mode) = mode else {
        return Err(Failure::Misused(usage(c)));
    };
    answer(rt, c, mode, word(rt, first, p), word(rt, first + 1, q), out)
}

fn main(rt: HostRuntime) -> ExitCode {
    let mut p = [0; WORD];
    let mut q = [0; WORD];
    let mut out = [0; ROOM];
    match run(&rt, &mut p, &mut q, &mut out) {
        Ok(()) => ExitCode::SUCCESS,
        Err(f) => {
            let _ = rt.eprint(f.reason());
            ExitCode::from(f)
        }
    }
}
