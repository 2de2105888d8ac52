// Views of a path: parent, ancestors, file name, stem and extension.
ghost use Rattle.std.specs.Prelude.{◌≡◌};
ghost use Rattle.answers.specs.Reply.{refused_view};
ghost use Rattle.answers.specs.Outcome.{told};
ghost use Rattle.paths.specs.Views.{parent_call, ancestor_call, file_name_call, file_stem_call, extension_call};

use crate::guards::accept;
use answers::View;

pub fn parent(mode: usize, path: &[u8]) -> View
    ensures { result ≡ told refused_view (parent_call mode path.now) }
{
    match accept(mode, path) {
        Ok(k) => views::parent(k, path),
        Err(r) => View::from(r),
    }
}

// The n-th ancestor: 0 is the path itself untrimmed.
pub fn ancestor(mode: usize, path: &[u8], n: usize) -> View
    ensures { result ≡ told refused_view (ancestor_call n mode path.now) }
{
    match accept(mode, path) {
        Ok(k) => views::ancestor(k, path, n),
        Err(r) => View::from(r),
    }
}

pub fn file_name(mode: usize, path: &[u8]) -> View
    ensures { result ≡ told refused_view (file_name_call mode path.now) }
{
    match accept(mode, path) {
        Ok(k) => views::file_name(k, path),
        Err(r) => View::from(r),
    }
}

pub fn file_stem(mode: usize, path: &[u8]) -> View
    ensures { result ≡ told refused_view (file_stem_call mode path.now) }
{
    match accept(mode, path) {
        Ok(k) => views::file_stem(k, path),
        Err(r) => View::from(r),
    }
}

pub fn extension(mode: usize, path: &[u8]) -> View
    ensures { result ≡ told refused_view (extension_call mode path.now) }
{
    match accept(mode, path) {
        Ok(k) => views::extension(k, path),
        Err(r) => View::from(r),
    }
}
