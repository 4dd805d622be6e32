// The bytes of an image, with the places where its sections begin.
#![tactic(auto)]

ghost use Rattle.std.specs.Prelude.{◌≡◌, ◌^◌, ◌<◌};
ghost use Rattle.view.specs.Layout.{functions_from, words_from, rules_from, symbols_from, spelled_from};

mod fields;
mod parts;

// The image is not owned, and need not be sound: a byte that is not there reads as 0. Where the sections begin is kept beside the bytes, so that no
// reading adds up the head again; the ghost fields say that it follows from them.
#[derive(Clone, Copy)]
pub struct ImageView<'a> {
    bytes: &'a [u8],
    functions_at: usize,
    words_at: usize,
    rules_at: usize,
    symbols_at: usize,
    spelled_at: usize,
    ghost functions_placed: { functions_at ≡ functions_from bytes.now },
    ghost words_placed: { words_at ≡ words_from bytes.now },
    ghost rules_placed: { rules_at ≡ rules_from bytes.now },
    ghost symbols_placed: { symbols_at ≡ symbols_from bytes.now },
    ghost spelled_placed: { spelled_at ≡ spelled_from bytes.now },
    ghost low: { spelled_at < 2 ^ 21 },
}
