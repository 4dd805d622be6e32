// The plain parts that rules and charts are made of, as every crate shares them.

// A part of a rule's sequence: a word of the language by its number, or a constituent of one of the function's arguments.
#[derive(Clone, Copy, Debug, PartialEq, Eq)]
pub enum Symbol {
    Word(u16),
    Reference { argument: u8, constituent: u8 },
}

// What a language answers about a rule: the form of its result, or that there is none. Not an `Option<u8>`: the answer stands in an `Option` itself.
#[derive(Clone, Copy, Debug, PartialEq, Eq)]
pub enum RuleForm {
    Form(u8),
    Missing,
}

// What names a rule: its function and the forms of its arguments, 0 for one that is not there, as the definitions have it. The forms are always three, so
// an array.
#[derive(Clone, Copy, Debug, PartialEq, Eq)]
pub struct RuleKey {
    pub function: u8,
    pub forms: [u8; 3],
}

// Where a string of words stands in a phrase: its first start and its length. A string that does not occur, which is called outside, has none.
#[derive(Clone, Copy, Debug, PartialEq, Eq)]
pub struct Window {
    pub start: u8,
    pub length: u8,
}
