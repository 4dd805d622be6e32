// The word writer over a lent part of a page, and the fault of a text that does not fit its page.
#![tactic(auto)]

ghost use Rattle.std.specs.Prelude.{◌≡◌, ◌≤◌, false, length};

mod page;
mod words;

pub use self::page::write_words;

// Puts words down in a lent part of a page, from its front: `used` bytes are written, and `started` says whether a word was begun.
// A rule of the project lends it the part. Its methods answer `bool`, as a set's `insert` does: no value stands beside the yes or no, which a caller that has
// made room does not ask for.
#[derive(Drop)]
pub struct WordWriter<'a> {
    part: &'a mut [u8],
    used: usize,
    started: bool,
    ghost within: { used ≤ length part.now },
}

impl<'a> WordWriter<'a> {
    // A writer at the front of the part.
    pub fn new(part: &'a mut [u8]) -> WordWriter<'a>
        ensures part { result.part.now ≡ part.old }
        ensures lender { result.part.ghost_name ≡ part.entry.ghost_name }
        ensures used { result.used ≡ 0 }
        ensures started { result.started ≡ false }
    {
        WordWriter {
            part,
            used: 0,
            started: false,
        }
    }

    // How many bytes are written.
    pub fn used(&self) -> usize
        ensures { result ≡ self.now.used }
    {
        self.used
    }
}

// A text that does not fit its page: how long the text is, or the largest number where it is longer than that.
#[derive(Clone, Copy, Debug, PartialEq, Eq)]
pub struct PageFault {
    pub length: usize,
}
