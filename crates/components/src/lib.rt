// A path's list of components: what stands ahead of the body, the body, elements from either end, and the tests on the head.
#![tactic(auto, using(crate::specs::Laws::bodies, crate::specs::Laws::heads, crate::specs::Laws::lasts, crate::specs::Laws::lists))]

ghost use Rattle.std.specs.Prelude.{◌≡◌, true, false, ℕ, ◌+◌, ◌^◌, ◌<◌, ◌≤◌, length, None};
ghost use Rattle.octets.specs.declared.Seps.TheVariants.{Windows};
ghost use Rattle.prefixes.specs.Prefix.{drive, prefix_in};
ghost use Rattle.parts.specs.Elements.{nth_of, nth_back_of};
ghost use Rattle.components.specs.List.{dot_at, sep_at, inner_seps, prefix_seps, prefix_dir, behind_prefix, dir_of, dir_len, dir_part, prefix_part, head_list, whole_of, list_of, is_root, has_root, is_absolute};
ghost use Rattle.components.specs.Leaves.{start_with, OpenAt, BodyAt, CountAt};

mod opened;

use octets::Seps;
pub use opened::Opened;
use parts::{Component, Element};
use prefixes::Prefix;

// What document 01's second step finds behind the prefix: nothing, a separator, a root without a byte of its own, a dot.
#[derive(Clone, Copy)]
pub enum Dir {
    Bare,
    Root,
    Implied,
    Dot,
}

// What stands ahead of the body: the prefix and where it ends, step 2, where the body starts, and what separates in it.
#[derive(Clone, Copy)]
pub struct Start {
    pub prefix: Option<Prefix>,
    pub end: usize,
    pub dir: Dir,
    pub at: usize,
    pub seps: Seps,
}

// Where the body starts, and what separates in it: all that its last part asks for, and little enough for two registers.
#[derive(Clone, Copy)]
pub struct Body {
    pub at: usize,
    pub seps: Seps,
}

// Whether a separator stands at place i.
pub fn sep_at(k: Seps, s: &[u8], i: usize) -> bool
    ensures { result ≡ sep_at k s.now i }
{
    i < s.len() && octets::is_sep(k, s[i])
}

// Whether the segment at place i is a lone dot.
pub fn dot_at(k: Seps, s: &[u8], i: usize) -> bool
    ensures { result ≡ dot_at k s.now i }
{
    i < s.len() && s[i] == b'.' && (i + 1 == s.len() || sep_at(k, s, i + 1))
}

fn prefix_seps(k: Seps, p: Prefix) -> Seps
    ensures { result ≡ prefix_seps k p }
{
    match p {
        Prefix::Verbatim(_) => Seps::Verbatim,
        Prefix::VerbatimUnc(_) => Seps::Verbatim,
        Prefix::VerbatimDisk(_) => Seps::Verbatim,
        Prefix::DeviceNs(_) => k,
        Prefix::Unc(_) => k,
        Prefix::Disk(_) => k,
    }
}

// What separates behind a prefix.
fn inner_seps(k: Seps, p: Option<Prefix>) -> Seps
    ensures { result ≡ inner_seps k p }
{
    match p {
        None => k,
        Some(q) => prefix_seps(k, q),
    }
}

fn prefix_dir(p: Prefix) -> Dir
    ensures { result ≡ prefix_dir p }
{
    match p {
        Prefix::Verbatim(_) => Dir::Bare,
        Prefix::VerbatimUnc(_) => Dir::Bare,
        Prefix::VerbatimDisk(_) => Dir::Bare,
        Prefix::DeviceNs(_) => Dir::Implied,
        Prefix::Unc(_) => Dir::Implied,
        Prefix::Disk(_) => Dir::Bare,
    }
}

// Step 2 where no separator follows the prefix.
fn behind_prefix(k: Seps, p: Option<Prefix>, s: &[u8]) -> Dir
    ensures { result ≡ behind_prefix k p s.now }
{
    match p {
        None => {
            if dot_at(k, s, 0) {
                return Dir::Dot;
            }
            Dir::Bare
        }
        Some(q) => prefix_dir(q),
    }
}

// Step 2, where the prefix ends at e.
fn dir_of(k: Seps, p: Option<Prefix>, s: &[u8], e: usize) -> Dir
    ensures { result ≡ dir_of k p s.now e }
{
    if sep_at(k, s, e) {
        return Dir::Root;
    }
    behind_prefix(k, p, s)
}

fn dir_len(d: Dir) -> usize
    ensures { result ≡ dir_len d }
{
    usize::from(matches!(d, Dir::Root | Dir::Dot))
}

// A start, of a prefix that ends at e and what step 2 found there.
fn start_with(k: Seps, prefix: Option<Prefix>, end: usize, dir: Dir) -> Start
    requires { end + dir_len dir < 2 ^ 63 }
    ensures { result ≡ start_with k prefix end dir }
{
    let seps = inner_seps(k, prefix);
    let at = end + dir_len(dir);
    Start {
        prefix,
        end,
        dir,
        at,
        seps,
    }
}

// The start of a path that has no prefix.
fn plain_start(k: Seps, s: &[u8]) -> Start
    requires { prefix_in k s.now ≡ None }
    ensures { OpenAt k s.now result }
{
    let p = None;
    let d = dir_of(k, p, s, 0);
    start_with(k, p, 0, d)
}

// The start of a path on a drive. It is told by three bytes, without the parser of prefixes: most Windows paths are such.
fn drive_start(k: Seps, s: &[u8]) -> Start
    requires { (k ≡ Windows) × (drive s.now ≡ true) }
    ensures { OpenAt k s.now result }
{
    let c = prefixes::to_capital(s[0]);
    let p = Some(Prefix::Disk(c));
    let d = dir_of(k, p, s, 2);
    start_with(k, p, 2, d)
}

// The start of a path that is on no drive.
fn parsed_start(k: Seps, s: &[u8]) -> Start
    requires { drive s.now ≡ false }
    ensures { OpenAt k s.now result }
{
    let p = prefixes::prefix_in(k, s);
    let e = prefixes::end_of(p, s);
    let d = dir_of(k, p, s, e);
    start_with(k, p, e, d)
}

// The start of a Windows path. One that begins with neither a drive nor a separator has no prefix.
fn windows_start(k: Seps, s: &[u8]) -> Start
    requires { k ≡ Windows }
    ensures { OpenAt k s.now result }
{
    if prefixes::is_drive(s) {
        return drive_start(k, s);
    }
    if sep_at(k, s, 0) {
        return parsed_start(k, s);
    }
    plain_start(k, s)
}

// Where the body starts, and what stands ahead of it.
pub fn begin(k: Seps, s: &[u8]) -> Start
    ensures { OpenAt k s.now result }
{
    match k {
        Seps::Unix | Seps::Verbatim => plain_start(k, s),
        Seps::Windows => windows_start(k, s),
    }
}

// The body of a path that has no prefix: a root or a lone dot ahead of it is one byte.
fn plain_body(k: Seps, s: &[u8]) -> Body
    requires { prefix_in k s.now ≡ None }
    ensures { BodyAt k s.now result }
{
    Body {
        at: usize::from(sep_at(k, s, 0) || dot_at(k, s, 0)),
        seps: k,
    }
}

// The body of any path.
fn begun_body(k: Seps, s: &[u8]) -> Body
    ensures { BodyAt k s.now result }
{
    let Start { at, seps, .. } = begin(k, s);
    Body { at, seps }
}

// The body of a path on a drive.
fn drive_body(k: Seps, s: &[u8]) -> Body
    requires { (k ≡ Windows) × (drive s.now ≡ true) }
    ensures { BodyAt k s.now result }
{
    Body {
        at: 2 + usize::from(sep_at(k, s, 2)),
        seps: k,
    }
}

// The body of a Windows path, told as its start is.
fn windows_body(k: Seps, s: &[u8]) -> Body
    requires { k ≡ Windows }
    ensures { BodyAt k s.now result }
{
    if prefixes::is_drive(s) {
        return drive_body(k, s);
    }
    if sep_at(k, s, 0) {
        return begun_body(k, s);
    }
    plain_body(k, s)
}

// Where the body starts, for callers that need nothing of the head: it has ways of its own, since by `begin` a `file_name` in Unix
// mode takes 1.5 times its time.
pub fn body_in(k: Seps, s: &[u8]) -> Body
    ensures { BodyAt k s.now result }
{
    match k {
        Seps::Unix | Seps::Verbatim => plain_body(k, s),
        Seps::Windows => windows_body(k, s),
    }
}

fn prefix_count(p: Option<Prefix>) -> usize
    ensures { result ≡ length (prefix_part p 0) }
{
    usize::from(p.is_some())
}

fn dir_count(d: Dir) -> usize
    ensures { result ≡ length (dir_part d 0) }
{
    usize::from(!matches!(d, Dir::Bare))
}

// How many elements stand ahead of the body.
pub fn head_count(h: Start) -> usize
    ensures { CountAt (head_list h) result }
{
    prefix_count(h.prefix) + dir_count(h.dir)
}

// Step 2's element, behind a prefix that ends at e.
fn dir_item(d: Dir, e: usize) -> Option<Element>
    ensures { result ≡ nth_of (dir_part d e) 0 }
{
    match d {
        Dir::Bare => None,
        Dir::Root => Some(Element {
            component: Component::RootDir,
            start: e,
            len: 1,
        }),
        Dir::Implied => Some(Element {
            component: Component::RootDir,
            start: e,
            len: 0,
        }),
        Dir::Dot => Some(Element {
            component: Component::CurDir,
            start: e,
            len: 1,
        }),
    }
}

// Element f of the head.
fn head_at(h: Start, f: usize) -> Option<Element>
    ensures { result ≡ nth_of (head_list h) f }
{
    match (h.prefix, f) {
        (Some(q), 0) => Some(Element {
            component: Component::Prefix(q),
            start: 0,
            len: h.end,
        }),
        (Some(_), 1) | (None, 0) => dir_item(h.dir, h.end),
        _ => None,
    }
}

// Element f of the list that a start tells of.
pub fn element_of(h: Start, s: &[u8], f: usize) -> Option<Element>
    ensures { result ≡ nth_of (whole_of h s.now) f }
{
    let n = head_count(h);
    if f < n {
        return head_at(h, f);
    }
    parts::lifted(parts::nth(h.seps, s, h.at, f - n))
}

// The element of the head that has b others behind it.
fn head_back(h: Start, b: usize) -> Option<Element>
    ensures { result ≡ nth_back_of (head_list h) b }
{
    let n = head_count(h);
    if b < n {
        return head_at(h, n - 1 - b);
    }
    None
}

// The element of that list that has b others behind it: of the body, or of the head where the body runs out.
pub fn element_back_of(h: Start, s: &[u8], b: usize) -> Option<Element>
    ensures { result ≡ nth_back_of (whole_of h s.now) b }
{
    match parts::walk_back(h.seps, s, h.at, s.len(), b) {
        Ok(q) => parts::lifted(Some(q)),
        Err(c) => head_back(h, c),
    }
}

// Element f of a path's list.
pub fn element(k: Seps, s: &[u8], f: usize) -> Option<Element>
    ensures { result ≡ nth_of (list_of k s.now) f }
{
    element_of(begin(k, s), s, f)
}

// The last element of a path's list: most often a part, for which no head is needed.
fn last_element(k: Seps, s: &[u8]) -> Option<Element>
    ensures { result ≡ nth_back_of (list_of k s.now) 0 }
{
    let w = body_in(k, s);
    match parts::last(w.seps, s, w.at, s.len()) {
        None => head_back(begin(k, s), 0),
        part => parts::lifted(part),
    }
}

// The element of a path's list that has b others behind it.
pub fn element_back(k: Seps, s: &[u8], b: usize) -> Option<Element>
    ensures { result ≡ nth_back_of (list_of k s.now) b }
{
    if b == 0 {
        return last_element(k, s);
    }
    element_back_of(begin(k, s), s, b)
}

pub fn total_of(h: Start, s: &[u8]) -> usize
    ensures { CountAt (whole_of h s.now) result }
{
    head_count(h) + parts::count(h.seps, s, h.at)
}

// How many elements a path's list has.
pub fn total(k: Seps, s: &[u8]) -> usize
    ensures { CountAt (list_of k s.now) result }
{
    total_of(begin(k, s), s)
}

pub fn is_root(d: Dir) -> bool
    ensures { result ≡ is_root d }
{
    matches!(d, Dir::Root)
}

// Whether a Windows path has a root: a drive is followed by the root, and any other prefix begins with a separator.
fn windows_root(k: Seps, s: &[u8]) -> bool
    requires { k ≡ Windows }
    ensures { result ≡ has_root k s.now }
{
    if prefixes::is_drive(s) {
        return sep_at(k, s, 2);
    }
    sep_at(k, s, 0)
}

pub fn has_root(k: Seps, s: &[u8]) -> bool
    ensures { result ≡ has_root k s.now }
{
    match k {
        Seps::Unix | Seps::Verbatim => sep_at(k, s, 0),
        Seps::Windows => windows_root(k, s),
    }
}

// Whether a Windows path is absolute: any prefix but a drive has a root with it.
fn windows_absolute(k: Seps, s: &[u8]) -> bool
    requires { k ≡ Windows }
    ensures { result ≡ is_absolute k s.now }
{
    if prefixes::is_drive(s) {
        return sep_at(k, s, 2);
    }
    prefixes::has_prefix(prefixes::prefix_in(k, s))
}

pub fn is_absolute(k: Seps, s: &[u8]) -> bool
    ensures { result ≡ is_absolute k s.now }
{
    match k {
        Seps::Unix | Seps::Verbatim => sep_at(k, s, 0),
        Seps::Windows => windows_absolute(k, s),
    }
}
