// The words of a notation: f0, f1 and on, then ( and ) and the comma.
ghost use Rattle.std.specs.Prelude.{◌≡◌, ◌<◌, length};
ghost use Rattle.std.specs.List.{slice_get};
ghost use Rattle.notation.specs.Notations.{function_word, marks};
ghost use Rattle.grammar.specs.Questions.{at};

// The element at a place, if there is one.
pub(super) fn item<T: Copy>(items: &[T], index: u8) -> Option<T>
    ensures { result ≡ slice_get items.now index }
{
    items.get(usize::from(index)).copied()
}

// How long a function's word is.
pub(super) fn function_word_length(number: u8) -> u8
    requires { number < 64 }
    ensures { result ≡ length (function_word number) }
{
    if number < 10 { 2 } else { 3 }
}

// A byte of a function's word.
pub(super) fn function_word_byte(number: u8, index: u8) -> Option<u8>
    requires { number < 64 }
    ensures { result ≡ slice_get (function_word number) index }
{
    if number < 10 {
        item(&[b'f', b'0' + number], index)
    } else {
        item(&[b'f', b'0' + number / 10, b'0' + number % 10], index)
    }
}

// A byte of a mark: of ( by 0, of ) by 1, of the comma by 2.
pub(super) fn mark_byte(mark: u16, index: u8) -> Option<u8>
    ensures { result ≡ at (slice_get marks mark) index }
{
    match mark {
        0 => item(b"(", index),
        1 => item(b")", index),
        2 => item(b",", index),
        _ => None,
    }
}
