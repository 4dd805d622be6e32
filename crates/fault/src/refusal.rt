// What each fault says: its number, layer and place, and a reason in words.
ghost use Rattle.fault.specs.Reasons.{tree_reason, phrase_reason, chart_reason, open_reason, say_reason};
ghost use Rattle.fault.specs.Refusals.{tree_refusal, phrase_refusal, chart_refusal, open_refusal, say_refusal};

use crate::kinds::{ChartFault, OpenFault, PhraseFault, SayFault, TreeFault};
use refusals::kinds::{Layer, Refusal};
use refusals::refusal::Fault;

impl Fault for TreeFault {
    ghost says = { tree_refusal };

    ghost tells = { tree_reason };

    fn refusal(&self) -> Refusal {
        match self {
            TreeFault::DepthOutOfRange => Refusal::new(7, Layer::Tree, 0),
            TreeFault::OtherSignature => Refusal::new(8, Layer::Tree, 0),
            TreeFault::EndsEarly { length } => Refusal::new(9, Layer::Tree, *length),
            TreeFault::LeftOver { byte } => Refusal::new(9, Layer::Tree, *byte),
            TreeFault::WrongNode { byte } => Refusal::new(10, Layer::Tree, *byte),
            TreeFault::TooDeep { byte } => Refusal::new(11, Layer::Tree, *byte),
        }
    }

    fn reason(&self) -> &'static str {
        match self {
            TreeFault::DepthOutOfRange => "the depth is not 1 to 6",
            TreeFault::OtherSignature => "the language has another signature than the session",
            TreeFault::EndsEarly { .. } => "the draft ends early",
            TreeFault::LeftOver { .. } => "bytes are left over after the draft",
            TreeFault::WrongNode { .. } =>
                "neither a hole nor a function of the category that the place calls for",
            TreeFault::TooDeep { .. } => "the node is deeper than the depth",
        }
    }
}

impl Fault for PhraseFault {
    ghost says = { phrase_refusal };

    ghost tells = { phrase_reason };

    fn refusal(&self) -> Refusal {
        match self {
            PhraseFault::WrongByte { byte } => Refusal::new(12, Layer::Phrase, *byte),
            PhraseFault::LongWord { byte } => Refusal::new(13, Layer::Phrase, *byte),
            PhraseFault::TooManyWords { byte } => Refusal::new(13, Layer::Phrase, *byte),
            PhraseFault::UnknownWord { word } => Refusal::new(14, Layer::Phrase, *word),
        }
    }

    fn reason(&self) -> &'static str {
        match self {
            PhraseFault::WrongByte { .. } =>
                "a byte that no word has, or a blank first, last or after a blank",
            PhraseFault::LongWord { .. } => "a word of more than 24 bytes",
            PhraseFault::TooManyWords { .. } => "more than 32 words",
            PhraseFault::UnknownWord { .. } => "no word of the language",
        }
    }
}

impl Fault for ChartFault {
    ghost says = { chart_refusal };

    ghost tells = { chart_reason };

    fn refusal(&self) -> Refusal {
        match self {
            ChartFault::TooLarge => Refusal::new(15, Layer::Chart, 0),
            ChartFault::Unread => Refusal::new(16, Layer::Chart, 0),
        }
    }

    fn reason(&self) -> &'static str {
        match self {
            ChartFault::TooLarge => "more than 512 items or 4096 edges",
            ChartFault::Unread => "the phrase has no reading",
        }
    }
}

impl Fault for OpenFault {
    ghost says = { open_refusal };

    ghost tells = { open_reason };

    fn refusal(&self) -> Refusal {
        match self {
            OpenFault::InTree(fault) => fault.refusal(),
            OpenFault::InPhrase(fault) => fault.refusal(),
            OpenFault::InChart(fault) => fault.refusal(),
        }
    }

    fn reason(&self) -> &'static str {
        match self {
            OpenFault::InTree(fault) => fault.reason(),
            OpenFault::InPhrase(fault) => fault.reason(),
            OpenFault::InChart(fault) => fault.reason(),
        }
    }
}

impl Fault for SayFault {
    ghost says = { say_refusal };

    ghost tells = { say_reason };

    fn refusal(&self) -> Refusal {
        match self {
            SayFault::OtherSignature => Refusal::new(8, Layer::Tree, 0),
            SayFault::Mute { node } => Refusal::new(20, Layer::Session, *node),
            SayFault::NoRoom { length } => Refusal::new(21, Layer::Session, *length),
        }
    }

    fn reason(&self) -> &'static str {
        match self {
            SayFault::OtherSignature => "the language has another signature than the session",
            SayFault::Mute { .. } => "the node has no rule for the forms of its arguments",
            SayFault::NoRoom { .. } =>
                "the start is past the page, or too few bytes are left on it",
        }
    }
}
