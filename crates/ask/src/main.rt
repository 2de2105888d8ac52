// Answers each line of standard input on standard output. Proved: it is safe and ends on any input; that it serves
// every line once and in order is tested.
#![tactic(auto)]

ghost use Rattle.std.specs.Prelude.{◌≡◌, ◌≤◌, length};
ghost use Rattle.ask.specs.declared.TheConstants.{KEPT};

use asking::Desk;
use std::io::Read;

// The input is read by blocks, into a buffer of this size.
const BLOCK: usize = 65536;

// A line of at most 33,000 bytes is kept whole. Of a longer one this much is kept from block to block: it is then
// still too long, and gets its one answer when its end comes.
const KEPT: usize = 33001;

// The input's buffer, and how many bytes at its front are kept for the next block.
#[derive(Drop)]
struct Input {
    block: [u8; BLOCK],
    kept: usize,
    ghost room: { kept ≤ KEPT },
}

// Writes the answers out. A write that fails has nobody to be told.
fn flush(rt: &impl Print, desk: &mut Desk)
    ensures { desk.new.answers ≡ 0 }
{
    let _ = rt.write_all(desk.answers.bytes());
    desk.answers.clear();
}

// Answers a line, with room made for the answer.
fn serve(rt: &impl Print, line: &[u8], desk: &mut Desk) {
    if desk.answers.is_full() {
        flush(rt, desk);
    }
    desk.answer(line);
}

// Answers the whole lines of text, and gives how many bytes stand behind the last of them.
fn serve_all(rt: &impl Print, text: &[u8], desk: &mut Desk) -> usize
    ensures { result ≤ length text.now }
{
    let Some(last) = text.iter().rposition(|b| *b == b'\n') else {
        return text.len();
    };
    for line in text[..last].split(|b| *b == b'\n') {
        serve(rt, line, desk);
    }
    text.len() - last - 1
}

// Reads until buf is full, the input ends or a read fails, and gives how many bytes it put at the front of buf.
// The library's read_exact does not say how many those are.
fn read_full<R: Read>(from: &mut R, buf: &mut [u8]) -> usize
    ensures { result ≤ length buf.old }
{
    let mut done = 0;
    while done < buf.len() {
        match from.read(&mut buf[done..]) {
            Ok(0) | Err(_) => break,
            Ok(n) => done += n,
        }
    }
    done
}

// Reads a block behind the bytes that were kept, serves the lines in it, and says whether more may come. A block that does
// not fill the buffer is the last: what stands behind its last line is a line too, but no bytes are none.
fn turn<R: Read>(rt: &impl Print, from: &mut R, input: &mut Input, desk: &mut Desk) -> bool {
    let end = input.kept + read_full(from, &mut input.block[input.kept..]);
    let start = end - serve_all(rt, &input.block[..end], desk);
    if end < BLOCK {
        if start < end {
            serve(rt, &input.block[start..end], desk);
        }
        flush(rt, desk);
        return false;
    }
    input.kept = (end - start).min(KEPT);
    input.block.copy_within(start..start + input.kept, 0);
    true
}

fn main(rt: HostRuntime) {
    let mut from = rt.reader();
    let mut input = Input {
        block: [0; BLOCK],
        kept: 0,
    };
    let mut desk = Desk::new();
    // Nothing says that the input ends, so the turns are counted, up to a number that no run uses up.
    for _ in 0..u64::MAX {
        if !turn(&rt, &mut from, &mut input, &mut desk) {
            break;
        }
    }
}
