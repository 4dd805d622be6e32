// The bytes of which words are made.
ghost use Rattle.std.specs.Prelude.{◌≡◌};
ghost use Rattle.grammar.specs.PhraseWalk.{permitted};

// Whether a byte may stand in a word: 0x21 to 0x7E, or 0x80 to 0xFF.
pub fn is_permitted(byte: u8) -> bool
    ensures { result ≡ permitted byte }
{
    matches!(byte, 0x21..=0x7E | 0x80..=0xFF)
}
