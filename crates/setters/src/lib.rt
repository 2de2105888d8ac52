// A path with another file name, or with another extension.
#![tactic(auto, using(crate::specs::Laws::setting))]

ghost use Rattle.std.specs.Prelude.{◌≡◌, ℕ, ◌≤◌, length};
ghost use Rattle.octets.specs.Class.{is_sep, limit};
ghost use Rattle.answers.specs.Outcome.{give};
ghost use Rattle.answers.specs.Written.{Wrote};
ghost use Rattle.joins.specs.Join.{joined};
ghost use Rattle.setters.specs.Set.{holds, base_of, pointed, extended};

use answers::{Reply, View};
use octets::Seps;

pub fn set_file_name_in(k: Seps, p: &[u8], q: &[u8], out: &mut [u8]) -> View
    requires { (length p.now ≤ limit) × (length q.now ≤ limit) }
    ensures { Wrote (give (joined k (base_of k p.now) q.now)) result out.old out.new }
{
    let e = views::base_len(k, p);
    joins::join_in(k, &p[0..e], q, out)
}

// Whether a separator stands in e. A `for`: what `any` answers of a test that is a function's contract is not found.
fn holds_sep(k: Seps, e: &[u8]) -> bool
    ensures { result ≡ holds (is_sep k) e.now }
{
    for &b in e {
        if octets::is_sep(k, b) {
            return true;
        }
    }
    false
}

pub fn set_extension_in(k: Seps, p: &[u8], e: &[u8], out: &mut [u8]) -> View
    requires { (length p.now ≤ limit) × (length e.now ≤ limit) }
    ensures { Wrote (extended k p.now e.now) result out.old out.new }
{
    if holds_sep(k, e) {
        return View::from(Reply::Name);
    }
    match views::name_part(k, p) {
        None => View::from(Reply::Absent),
        Some(q) => {
            let end = views::stem_end(p, q);
            put_extension(&p[0..end], e, out)
        }
    }
}

// A path that ends with a stem, and behind it a dot and the extension, if there is one.
fn put_extension(p: &[u8], e: &[u8], out: &mut [u8]) -> View
    requires { (length p.now ≤ limit) × (length e.now ≤ limit) }
    ensures { Wrote (give (pointed p.now e.now)) result out.old out.new }
{
    buffers::lay(p, !e.is_empty(), 46, e, out)
}
