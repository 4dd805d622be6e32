// Why a tree has no text in memory of its own.
ghost use Rattle.std.specs.Prelude.{◌≡◌, Some};
ghost use Rattle.linearizer.specs.TextLines.{text_line};
ghost use Rattle.linearizer.specs.declared.text.TextFault.TheVariants.{Unsaid, Memory};

use fault::kinds::SayFault;
use std::alloc::AllocError;
use std::fmt;

pub mod whole;

// The tree is not said, or there is no memory for its text.
#[derive(Clone, Copy, Debug, PartialEq, Eq)]
pub enum TextFault {
    Unsaid(SayFault),
    Memory,
}

// By hand: a contract has to know which case `?` makes of an error.
impl From<SayFault> for TextFault {
    ghost from_gives = { λ x r. r ≡ Unsaid x };

    fn from(fault: SayFault) -> TextFault {
        TextFault::Unsaid(fault)
    }
}

impl From<AllocError> for TextFault {
    ghost from_gives = { λ x r. r ≡ Memory };

    fn from(_error: AllocError) -> TextFault {
        TextFault::Memory
    }
}

// By hand, as each case has a text of its own.
impl fmt::Display for TextFault {
    ghost output = { λ x. Some (text_line x) };

    fn fmt<W: fmt::Write>(&self, f: &mut fmt::Formatter<W>) -> fmt::Result {
        match self {
            TextFault::Unsaid(fault) => write!(f, "{fault}"),
            TextFault::Memory => write!(f, "no memory for the text"),
        }
    }
}
