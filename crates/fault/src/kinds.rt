// What can be refused: the faults of the tree, phrase and chart layers, and why a tree is not said.

// What is wrong with a depth, a signature or a draft.
#[derive(Clone, Copy, Debug, PartialEq, Eq)]
pub enum TreeFault {
    DepthOutOfRange,
    OtherSignature,
    EndsEarly { length: usize },
    LeftOver { byte: usize },
    WrongNode { byte: usize },
    TooDeep { byte: usize },
}

// What is wrong with a phrase.
#[derive(Clone, Copy, Debug, PartialEq, Eq)]
pub enum PhraseFault {
    WrongByte { byte: usize },
    LongWord { byte: usize },
    TooManyWords { byte: usize },
    UnknownWord { word: usize },
}

// Why no listing can be started although draft and phrase are sound.
#[derive(Clone, Copy, Debug, PartialEq, Eq)]
pub enum ChartFault {
    TooLarge,
    Unread,
}

// Why a listing is not opened: a fault of one of the three layers that open goes through.
#[derive(Clone, Copy, Debug, PartialEq, Eq)]
pub enum OpenFault {
    InTree(TreeFault),
    InPhrase(PhraseFault),
    InChart(ChartFault),
}

// Why a tree is not said in a language: the language has another signature, a node is mute, or the text has no room on its page.
#[derive(Clone, Copy, Debug, PartialEq, Eq)]
pub enum SayFault {
    OtherSignature,
    Mute { node: usize },
    NoRoom { length: usize },
}
