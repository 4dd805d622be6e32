// Sizes and measures.
ghost use Rattle.std.specs.Prelude.{◌≡◌, ◌+◌, ◌^◌, ◌<◌};
ghost use Rattle.fault.specs.declared.kinds.SayFault.TheVariants.{Mute};

use fault::kinds::SayFault;

// How many words a string has, and how many bytes these have, blanks left out.
#[derive(Clone, Copy, Debug, Default, PartialEq, Eq)]
pub struct Size {
    pub words: u32,
    pub bytes: u32,
}

impl Size {
    // The size of two strings, one after the other.
    pub(crate) fn plus(self, more: Size) -> Size
        requires words { self.words + more.words < 2 ^ 32 }
        requires bytes { self.bytes + more.bytes < 2 ^ 32 }
        ensures { result ≡ record { words = self.words + more.words; bytes = self.bytes + more.bytes } }
    {
        Size {
            words: self.words + more.words,
            bytes: self.bytes + more.bytes,
        }
    }
}

// What a tree comes to, its words told by their numbers alone: its form, and the size of each of four constituents; one that is not there has no words. There are
// always four, so an array.
#[derive(Clone, Copy, Debug, Default, PartialEq, Eq)]
pub struct Measure {
    pub form: u8,
    pub sizes: [Size; 4],
}

// Why a tree has no linearization: its first mute node, by that node's place in the code.
#[derive(Clone, Copy, Debug, PartialEq, Eq)]
pub struct Muteness {
    pub node: usize,
}

// By hand: a contract has to know which fault `?` makes of it.
impl From<Muteness> for SayFault {
    ghost from_gives = { λ muteness fault. fault ≡ Mute muteness.node };

    fn from(muteness: Muteness) -> SayFault {
        SayFault::Mute {
            node: muteness.node,
        }
    }
}

// Of a node in a code: where the code of its tree ends, the places and the forms of its three arguments, 0 for one that is not there, and the tree's
// measure, or its first mute node.
// The forms stand apart from the places, since a language is asked by the three forms at once; the place of an argument that is not there is never read.
#[derive(Clone, Copy, Debug, PartialEq, Eq)]
pub struct NodeMeasure {
    pub end: usize,
    pub places: [usize; 3],
    pub forms: [u8; 3],
    pub said: Result<Measure, Muteness>,
}

// Of a node's arguments: where their codes end, the place of each in the code, 0 for one that is not there, and their measures, or the first mute node
// among them. The places are an array, as those of a node are.
#[derive(Clone, Copy, Debug, PartialEq, Eq)]
pub struct Row {
    pub end: usize,
    pub places: [usize; 3],
    pub said: Result<[Measure; 3], Muteness>,
}
