// Windows prefixes: the six kinds, how long each is, and the numbers that stand for each.
#![tactic(auto, using(crate::specs::Laws::prefixes))]

ghost use Rattle.std.specs.Prelude.{◌≡◌, ℕ, ◌+◌, ◌-◌, ◌^◌, ◌<◌, ◌≤◌, [], ◌∷◌, false, length, drop};
ghost use Rattle.octets.specs.Class.{is_sep};
ghost use Rattle.prefixes.specs.Prefix.{begins, capital, drive, drive_exact, name_of, names_of, is_verbatim, verbatim_of, unc_of, device_of, prefix_of, prefix_in, share_len, len_of, end_of_prefix, has_prefix, on_disk, drive_figures, name_figures, names_figures, figures_of, parsed_figures};
ghost use Rattle.prefixes.specs.Leaves.{Past};

use octets::Seps;

// A name: a part of the path.
#[derive(Clone, Copy)]
pub struct Name {
    pub start: usize,
    pub len: usize,
}

// A server and a share.
#[derive(Clone, Copy)]
pub struct Names {
    pub server: Name,
    pub share: Name,
}

#[derive(Clone, Copy)]
pub enum Prefix {
    Verbatim(Name),
    VerbatimUnc(Names),
    VerbatimDisk(u8),
    DeviceNs(Name),
    Unc(Names),
    Disk(u8),
}

// Whether s starts with `\\`, read so that `/` counts as `\`.
fn two_seps(s: &[u8]) -> bool
    ensures { result ≡ begins (92 ∷ 92 ∷ []) s.now }
{
    s.len() >= 2 && octets::is_sep(Seps::Windows, s[0]) && octets::is_sep(Seps::Windows, s[1])
}

// A letter as a capital. Not `to_ascii_uppercase`: that leaves `{` as it is, and `capital` says otherwise.
pub fn to_capital(b: u8) -> u8
    ensures { result ≡ capital b }
{
    if b < 97 {
        return b;
    }
    b - 32
}

// Whether a letter and `:` stand at the front.
pub fn is_drive(t: &[u8]) -> bool
    ensures { result ≡ drive t.now }
{
    t.len() >= 2 && octets::is_letter(t[0]) && t[1] == b':'
}

// The same, and then the end or either separator.
fn is_drive_exact(t: &[u8]) -> bool
    ensures { result ≡ drive_exact t.now }
{
    is_drive(t) && (t.len() == 2 || octets::is_sep(Seps::Windows, t[2]))
}

// The name at the front of t, which starts at place i.
fn name_of(k: Seps, t: &[u8], i: usize) -> Name
    ensures { result ≡ name_of (is_sep k) i t.now }
{
    let n = octets::next_sep(k, t, 0);
    Name { start: i, len: n }
}

// Behind the separator at place a, of n bytes, if there is one.
fn step_past(a: usize, n: usize) -> usize
    requires { a ≤ n }
    ensures { Past a n result }
{
    if a < n {
        return a + 1;
    }
    a
}

// The two names at the front of t, which starts at place i.
fn names_of(k: Seps, t: &[u8], i: usize) -> Names
    requires { i ≤ 8 }
    ensures { result ≡ names_of (is_sep k) i t.now }
{
    let a = octets::next_sep(k, t, 0);
    let b = step_past(a, t.len());
    let e = octets::next_sep(k, t, b);
    Names {
        server: Name { start: i, len: a },
        share: Name {
            start: i + b,
            len: e - b,
        },
    }
}

// Whether `\\` goes on to a verbatim prefix: the four bytes are really those of `\\?\`.
fn is_verbatim(s: &[u8]) -> bool
    ensures { result ≡ is_verbatim s.now }
{
    match s {
        [a, b, b'?', b'\\', ..] => *a != b'/' && *b != b'/',
        _ => false,
    }
}

// Whether `UNC\` or `UNC/` stands behind `\\?\`.
#[tactic(auto, using(crate::specs::Laws::unc_marks))]
fn is_unc(s: &[u8]) -> bool
    ensures { result ≡ begins (85 ∷ 78 ∷ 67 ∷ 92 ∷ []) (drop 4 s.now) }
{
    match s {
        [_, _, _, _, b'U', b'N', b'C', b, ..] => octets::is_sep(Seps::Windows, *b),
        _ => false,
    }
}

// The prefix of a path that starts with `\\?\`.
fn verbatim(s: &[u8]) -> Prefix
    requires { 4 ≤ length s.now }
    ensures { result ≡ verbatim_of s.now }
{
    if is_unc(s) {
        let n = names_of(Seps::Verbatim, &s[8..], 8);
        return Prefix::VerbatimUnc(n);
    }
    if is_drive_exact(&s[4..]) {
        let d = to_capital(s[4]);
        return Prefix::VerbatimDisk(d);
    }
    let n = name_of(Seps::Verbatim, &s[4..], 4);
    Prefix::Verbatim(n)
}

// Server and share in t, the part behind `\\`, if neither is empty.
fn unc(t: &[u8]) -> Option<Prefix>
    ensures { result ≡ unc_of t.now }
{
    let n = names_of(Seps::Windows, t, 2);
    let a = n.server;
    let b = n.share;
    if a.len == 0 || b.len == 0 {
        return None;
    }
    Some(Prefix::Unc(n))
}

// Whether `\\` goes on to `.\`.
fn is_device(s: &[u8]) -> bool
    ensures { result ≡ begins (46 ∷ 92 ∷ []) (drop 2 s.now) }
{
    match s {
        [_, _, b'.', b, ..] => octets::is_sep(Seps::Windows, *b),
        _ => false,
    }
}

// The prefix of a path that starts with `\\` and is not verbatim.
fn device_or_unc(s: &[u8]) -> Option<Prefix>
    requires { 2 ≤ length s.now }
    ensures { result ≡ device_of s.now }
{
    if is_device(s) {
        let n = name_of(Seps::Windows, &s[4..], 4);
        return Some(Prefix::DeviceNs(n));
    }
    unc(&s[2..])
}

// The prefix of a Windows path, but for a drive: that, the commonest, is told by its first two bytes before this is asked.
pub fn parse_prefix(s: &[u8]) -> Option<Prefix>
    requires { drive s.now ≡ false }
    ensures { result ≡ prefix_of s.now }
{
    if two_seps(s) {
        if is_verbatim(s) {
            let p = verbatim(s);
            return Some(p);
        }
        return device_or_unc(s);
    }
    None
}

// The same of a path read with k, the set of separators of a mode: Unix mode has none.
pub fn prefix_in(k: Seps, s: &[u8]) -> Option<Prefix>
    requires { drive s.now ≡ false }
    ensures { result ≡ prefix_in k s.now }
{
    match k {
        Seps::Unix | Seps::Verbatim => None,
        Seps::Windows => parse_prefix(s),
    }
}

fn share_len(n: usize) -> usize
    requires { n < 2 ^ 63 }
    ensures { result ≡ share_len n }
{
    if n == 0 {
        return 0;
    }
    1 + n
}

// How many bytes a prefix takes.
pub fn prefix_len(p: Prefix) -> usize
    requires { len_of p < 2 ^ 63 }
    ensures { result ≡ len_of p }
{
    match p {
        Prefix::Verbatim(n) => 4 + n.len,
        Prefix::VerbatimUnc(n) => {
            let a = n.server;
            let b = n.share;
            8 + a.len + share_len(b.len)
        }
        Prefix::VerbatimDisk(_) => 6,
        Prefix::DeviceNs(n) => 4 + n.len,
        Prefix::Unc(n) => {
            let a = n.server;
            let b = n.share;
            2 + a.len + 1 + b.len
        }
        Prefix::Disk(_) => 2,
    }
}

// Where a prefix of the path s ends; 0 if there is none.
pub fn end_of(p: Option<Prefix>, s: &[u8]) -> usize
    requires { end_of_prefix p ≤ length s.now }
    ensures { result ≡ end_of_prefix p }
{
    match p {
        None => 0,
        Some(q) => prefix_len(q),
    }
}

// Whether a path has a prefix.
pub fn has_prefix(p: Option<Prefix>) -> bool
    ensures { result ≡ has_prefix p }
{
    p.is_some()
}

// Whether it has one that is a Disk.
pub fn on_disk(p: Option<Prefix>) -> bool
    ensures { result ≡ on_disk p }
{
    matches!(p, Some(Prefix::Disk(_)))
}

// A prefix in numbers: its kind from 1, the capital letter, and the places of its names; zeros for what it has not. The C
// interface has it so, and the order of prefixes goes by the same numbers.
#[derive(Clone, Copy)]
pub struct Figures {
    pub kind: usize,
    pub letter: usize,
    pub start1: usize,
    pub len1: usize,
    pub start2: usize,
    pub len2: usize,
}

fn drive_figures(kind: usize, d: u8) -> Figures
    ensures { result ≡ drive_figures kind d }
{
    Figures {
        kind,
        letter: d as usize,
        start1: 0,
        len1: 0,
        start2: 0,
        len2: 0,
    }
}

fn name_figures(kind: usize, n: Name) -> Figures
    ensures { result ≡ name_figures kind n }
{
    Figures {
        kind,
        letter: 0,
        start1: n.start,
        len1: n.len,
        start2: 0,
        len2: 0,
    }
}

fn names_figures(kind: usize, n: Names) -> Figures
    ensures { result ≡ names_figures kind n }
{
    let a = n.server;
    let b = n.share;
    Figures {
        kind,
        letter: 0,
        start1: a.start,
        len1: a.len,
        start2: b.start,
        len2: b.len,
    }
}

fn prefix_figures(p: Prefix) -> Figures
    ensures { result ≡ figures_of p }
{
    match p {
        Prefix::Verbatim(n) => name_figures(1, n),
        Prefix::VerbatimUnc(n) => names_figures(2, n),
        Prefix::VerbatimDisk(d) => drive_figures(3, d),
        Prefix::DeviceNs(n) => name_figures(4, n),
        Prefix::Unc(n) => names_figures(5, n),
        Prefix::Disk(d) => drive_figures(6, d),
    }
}

// The same of a prefix that may be missing: then all are 0.
pub fn figures_of(p: Option<Prefix>) -> Figures
    ensures { result ≡ parsed_figures p }
{
    match p {
        None => drive_figures(0, 0),
        Some(q) => prefix_figures(q),
    }
}
