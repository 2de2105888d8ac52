// Words told by a table.
ghost use Rattle.std.specs.Prelude.{◌≡◌};
ghost use Rattle.protocol.specs.Words.{beside};

// What stands beside the word w in a table.
pub fn beside<T: Copy>(table: &[(&[u8], T)], w: &[u8]) -> Option<T>
    ensures { result ≡ beside table.now w.now }
{
    table
        .iter()
        .find(|(word, _)| w == *word)
        .map(|(_, value)| *value)
}
