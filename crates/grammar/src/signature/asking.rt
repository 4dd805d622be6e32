// Asking a signature's table, and how many arguments a function has.
ghost use Rattle.std.specs.Prelude.{◌≡◌, length};
ghost use Rattle.std.specs.List.{slice_get};
ghost use Rattle.grammar.specs.Questions.{argument_list};
ghost use Rattle.grammar.specs.Tables.{listed, signature_of};

use super::{Arguments, FunctionType, SignatureTable};

impl Arguments {
    // How many arguments there are.
    pub fn arity(self) -> u8
        ensures { result ≡ length (argument_list self) }
    {
        match self {
            Arguments::Zero => 0,
            Arguments::One(_) => 1,
            Arguments::Two(_, _) => 2,
            Arguments::Three(_, _, _) => 3,
        }
    }
}

impl SignatureTable {
    pub fn categories(&self) -> u8
        ensures { result ≡ (signature_of self.now).categories }
    {
        self.categories
    }

    pub fn start(&self) -> u8
        ensures { result ≡ (signature_of self.now).start }
    {
        self.start
    }

    // How many functions there are.
    pub fn len(&self) -> usize
        ensures { result ≡ length (listed self.now) }
    {
        self.functions.len()
    }

    // The types of the functions, by number.
    pub fn functions(&self) -> &[FunctionType]
        ensures { result.now ≡ listed self.now }
    {
        self.functions.as_slice()
    }

    // The type of the function of that number, if there is one.
    pub fn function(&self, number: u8) -> Option<FunctionType>
        ensures { result ≡ slice_get (listed self.now) number }
    {
        // `as`: the number is an index here, and nothing else is made of it.
        self.functions.get(number as usize)
    }
}
