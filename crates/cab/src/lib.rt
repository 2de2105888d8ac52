// What the cab's firmware links: prefix, one step from either end, join and compare as C functions on numbers and byte slices.
// include/bridlestep.h is the other side of it. Each returns its reply's number and hands its other numbers back through a reference.
// The promise is that of the call below it: these numbers, in this order, are the numbers of that call's answer.
// The two steps stay apart, with a cursor in three numbers, because the C interface has them so.
#![tactic(auto)]

ghost use Rattle.std.specs.Prelude.{◌≡◌, ◌∷◌, [], length};
ghost use Rattle.answers.specs.Outcome.{told};
ghost use Rattle.answers.specs.Reply.{refused_verdict};
ghost use Rattle.answers.specs.Written.{answered, left};
ghost use Rattle.paths.specs.Prefix.{refused_prefix, prefix_call};
ghost use Rattle.paths.specs.Steps.{refused_step, next_call, next_back_call};
ghost use Rattle.paths.specs.Pairs.{compare_call};
ghost use Rattle.paths.specs.Writes.{join_call};
ghost use Rattle.numbers.specs.Numbers.{prefix_numbers, step_numbers, verdict_numbers};
ghost use Rattle.cab.specs.Numbers.{cursor_at, written_numbers};

use paths::Cursor;

#[unsafe(no_mangle)]
pub extern "C" fn bridlestep_prefix(mode: usize, path: &[u8], answer: &mut [usize; 7]) -> usize
    ensures { result ∷ answer.new ≡ prefix_numbers (told refused_prefix (prefix_call mode path.now)) }
{
    let a = paths::prefix(mode, path);
    numbers::put_prefix(a, answer)
}

#[unsafe(no_mangle)]
pub extern "C" fn bridlestep_next(
    mode: usize,
    front: usize,
    back: usize,
    path: &[u8],
    answer: &mut [usize; 12],
) -> usize
    ensures { result ∷ answer.new ≡ step_numbers (told (refused_step (cursor_at mode front back)) (next_call (cursor_at mode front back) path.now)) }
{
    let c = Cursor { mode, front, back };
    let a = c.next(path);
    numbers::put_step(a, answer)
}

#[unsafe(no_mangle)]
pub extern "C" fn bridlestep_next_back(
    mode: usize,
    front: usize,
    back: usize,
    path: &[u8],
    answer: &mut [usize; 12],
) -> usize
    ensures { result ∷ answer.new ≡ step_numbers (told (refused_step (cursor_at mode front back)) (next_back_call (cursor_at mode front back) path.now)) }
{
    let c = Cursor { mode, front, back };
    let a = c.next_back(path);
    numbers::put_step(a, answer)
}

#[tactic(auto, unfolding(numbers::specs::Numbers::verdict_numbers))]
#[unsafe(no_mangle)]
pub extern "C" fn bridlestep_compare(mode: usize, p: &[u8], q: &[u8], order: &mut usize) -> usize
    ensures { result ∷ order.new ∷ [] ≡ verdict_numbers (told refused_verdict (compare_call mode p.now q.now)) }
{
    let a = paths::compare(mode, p, q);
    *order = a.value;
    usize::from(a.reply)
}

// The result stands at the front of out; its start, which is 0, is not handed back.
#[tactic(auto, unfolding(crate::specs::Numbers::written_numbers))]
#[unsafe(no_mangle)]
pub extern "C" fn bridlestep_join(
    mode: usize,
    p: &[u8],
    q: &[u8],
    out: &mut [u8],
    len: &mut usize,
) -> usize
    ensures len_after { result ∷ len.new ∷ [] ≡ written_numbers (answered (length out.old) (join_call mode p.now q.now)) }
    ensures out_after { out.new ≡ left (join_call mode p.now q.now) out.old }
{
    let a = paths::join(mode, p, q, out);
    *len = a.len;
    usize::from(a.reply)
}
