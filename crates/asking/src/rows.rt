// The answers that are a row of numbers: a line each.
ghost use Rattle.std.specs.Prelude.{◌+◌, ◌≤◌, length};

use answers::{Verdict, View};
use paths::{Prefixed, Stepped};
use protocol::{ANSWER, Answers, SPACE};

// The reply's number and then the others.
fn put_line(reply: usize, row: &[usize], out: &mut Answers)
    requires short { length row.now ≤ 12 }
    requires room { out.old + ANSWER ≤ SPACE }
    ensures { out.new ≤ out.old + ANSWER }
{
    out.put_number(reply);
    out.put(b' ');
    out.put_row(row, b'\n');
}

// One function an answer of `numbers`, since a closure's bound may not name the row's length, which differs.
pub fn put_prefix(a: Prefixed, out: &mut Answers)
    requires { out.old + ANSWER ≤ SPACE }
    ensures { out.new ≤ out.old + ANSWER }
{
    let mut row = [0; 7];
    let reply = numbers::put_prefix(a, &mut row);
    put_line(reply, &row, out)
}

pub fn put_step(a: Stepped, out: &mut Answers)
    requires { out.old + ANSWER ≤ SPACE }
    ensures { out.new ≤ out.old + ANSWER }
{
    let mut row = [0; 12];
    let reply = numbers::put_step(a, &mut row);
    put_line(reply, &row, out)
}

pub fn put_view(a: View, out: &mut Answers)
    requires { out.old + ANSWER ≤ SPACE }
    ensures { out.new ≤ out.old + ANSWER }
{
    let mut row = [0; 2];
    let reply = numbers::put_view(a, &mut row);
    put_line(reply, &row, out)
}

pub fn put_verdict(a: Verdict, out: &mut Answers)
    requires { out.old + ANSWER ≤ SPACE }
    ensures { out.new ≤ out.old + ANSWER }
{
    let mut row = [0; 1];
    let reply = numbers::put_verdict(a, &mut row);
    put_line(reply, &row, out)
}
