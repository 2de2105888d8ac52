// The answers of the public calls in numbers, in the order of docs/PROTOCOL.md: the reply's number is returned, the others are put into
// an array. The program `ask`, the firmware's exports and those for tests say them by these functions alone.
// One function an answer: their rows differ in length and in what stands in them, so a trait for the four would be longer than they are.
#![tactic(auto)]

ghost use Rattle.std.specs.Prelude.{◌≡◌, ◌∷◌, length};
ghost use Rattle.numbers.specs.Numbers.{prefix_numbers, component_number, taken_prefix, taken_number, step_numbers, view_numbers, verdict_numbers};

use answers::{Verdict, View};
use parts::Component;
use paths::{Prefixed, Stepped};
use prefixes::Prefix;

#[tactic(auto, unfolding(crate::specs::Numbers::prefix_numbers))]
pub fn put_prefix(a: Prefixed, answer: &mut [usize; 7]) -> usize
    ensures answer_after { result ∷ answer.new ≡ prefix_numbers a }
    ensures answer_len { length answer.new ≡ 7 }
{
    let f = prefixes::figures_of(a.prefix);
    *answer = [f.kind, f.letter, f.start1, f.len1, f.start2, f.len2, a.len];
    usize::from(a.reply)
}

// The kinds' numbers of the protocol and of include/bridlestep.h.
fn component_number(c: Component) -> usize
    ensures { result ≡ component_number c }
{
    match c {
        Component::Prefix(_) => 1,
        Component::RootDir => 2,
        Component::CurDir => 3,
        Component::ParentDir => 4,
        Component::Normal => 5,
    }
}

// The prefix that a step took, if it took one.
fn taken_prefix(t: Option<Component>) -> Option<Prefix>
    ensures { result ≡ taken_prefix t }
{
    match t {
        Some(Component::Prefix(p)) => Some(p),
        _ => None,
    }
}

fn taken_number(t: Option<Component>) -> usize
    ensures { result ≡ taken_number t }
{
    match t {
        None => 0,
        Some(c) => component_number(c),
    }
}

#[tactic(auto, unfolding(crate::specs::Numbers::step_numbers))]
pub fn put_step(a: Stepped, answer: &mut [usize; 12]) -> usize
    ensures answer_after { result ∷ answer.new ≡ step_numbers a }
    ensures answer_len { length answer.new ≡ 12 }
{
    let f = prefixes::figures_of(taken_prefix(a.component));
    let c = a.cursor;
    *answer = [
        taken_number(a.component),
        f.kind,
        f.letter,
        f.start1,
        f.len1,
        f.start2,
        f.len2,
        a.start,
        a.len,
        c.mode,
        c.front,
        c.back,
    ];
    usize::from(a.reply)
}

#[tactic(auto, unfolding(crate::specs::Numbers::view_numbers))]
pub fn put_view(a: View, answer: &mut [usize; 2]) -> usize
    ensures answer_after { result ∷ answer.new ≡ view_numbers a }
    ensures answer_len { length answer.new ≡ 2 }
{
    *answer = [a.start, a.len];
    usize::from(a.reply)
}

#[tactic(auto, unfolding(crate::specs::Numbers::verdict_numbers))]
pub fn put_verdict(a: Verdict, answer: &mut [usize; 1]) -> usize
    ensures answer_after { result ∷ answer.new ≡ verdict_numbers a }
    ensures answer_len { length answer.new ≡ 1 }
{
    *answer = [a.value];
    usize::from(a.reply)
}
