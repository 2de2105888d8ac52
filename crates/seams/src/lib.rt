// How one path is set behind another by a set of separators: whether a separator is wanted between the two.
#![tactic(auto, using(crate::specs::Laws::seams))]

ghost use Rattle.std.specs.Prelude.{◌≡◌};
ghost use Rattle.seams.specs.Seam.{sep_of, wants};

use octets::Seps;

// The separator that is written.
pub fn sep_of(k: Seps) -> u8
    ensures { result ≡ sep_of k }
{
    match k {
        Seps::Unix => 47,
        Seps::Windows | Seps::Verbatim => 92,
    }
}

// Whether a separator is wanted behind s: s is not empty and does not end in one.
pub fn wants_sep(k: Seps, s: &[u8]) -> bool
    ensures { result ≡ wants k s.now }
{
    s.last().is_some_and(|b| !octets::is_sep(k, *b))
}
