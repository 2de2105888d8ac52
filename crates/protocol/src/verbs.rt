// The first word of a request: which request it is, and how many words of each kind follow it.
ghost use Rattle.std.specs.Prelude.{◌≡◌};
ghost use Rattle.protocol.specs.Verbs.{verb_of};

use crate::words::beside;

#[derive(Clone, Copy)]
pub enum Verb {
    Prefix,
    Parent,
    Name,
    Stem,
    Extension,
    Root,
    IsAbsolute,
    Front,
    Back,
    Rest,
    Ancestor,
    Compare,
    Starts,
    Ends,
    Strip,
    Join,
    SetName,
    SetExtension,
    Absolute,
}

impl Verb {
    // How many numbers follow the verb, the mode first. No request has none.
    pub(crate) fn numbers(self) -> usize {
        match self {
            Verb::Front | Verb::Back | Verb::Rest => 3,
            Verb::Ancestor | Verb::Join | Verb::SetName | Verb::SetExtension | Verb::Absolute => 2,
            _ => 1,
        }
    }

    // Whether two paths follow them, and not one.
    pub(crate) fn has_two_paths(self) -> bool {
        matches!(
            self,
            Verb::Compare
                | Verb::Starts
                | Verb::Ends
                | Verb::Strip
                | Verb::Join
                | Verb::SetName
                | Verb::SetExtension
                | Verb::Absolute
        )
    }
}

// The word of each request.
static WORDS: [(&[u8], Verb); 19] = [
    (b"prefix", Verb::Prefix),
    (b"parent", Verb::Parent),
    (b"name", Verb::Name),
    (b"stem", Verb::Stem),
    (b"extension", Verb::Extension),
    (b"root", Verb::Root),
    (b"absolute?", Verb::IsAbsolute),
    (b"front", Verb::Front),
    (b"back", Verb::Back),
    (b"rest", Verb::Rest),
    (b"ancestor", Verb::Ancestor),
    (b"compare", Verb::Compare),
    (b"starts", Verb::Starts),
    (b"ends", Verb::Ends),
    (b"strip", Verb::Strip),
    (b"join", Verb::Join),
    (b"set-name", Verb::SetName),
    (b"set-extension", Verb::SetExtension),
    (b"absolute", Verb::Absolute),
];

// The request that w names.
#[tactic(auto, unfolding(crate::specs::Verbs::named, crate::specs::Verbs::verb_of))]
pub fn verb_of(w: &[u8]) -> Option<Verb>
    ensures { result ≡ verb_of w.now }
{
    beside(&WORDS, w)
}
