// Making a signature's table.
ghost use Rattle.std.specs.Prelude.{◌≡◌, [], ◌∷◌, ◌++◌, length, if◌then◌else◌, nat_lt};
ghost use Rattle.grammar.specs.Tables.{listed, signature_of};

use super::{Arguments, FUNCTIONS, FunctionType, SignatureTable};
use tables::Table;

impl SignatureTable {
    // A signature that has no functions yet.
    pub fn new(categories: u8, start: u8) -> SignatureTable
        ensures categories { (signature_of result).categories ≡ categories }
        ensures start { (signature_of result).start ≡ start }
        ensures functions { listed result ≡ [] }
    {
        let unused = FunctionType {
            result: 0,
            arguments: Arguments::Zero,
        };
        SignatureTable {
            categories,
            start,
            functions: Table::new([unused; FUNCTIONS]),
        }
    }

    // One function more, under the next number; false, and nothing changed, where there are 64 already.
    // A `bool`, as a set's `insert` answers: no value stands beside the yes or no.
    pub fn add(&mut self, function: FunctionType) -> bool
        ensures test { result ≡ nat_lt (length (listed self.old)) 64 }
        ensures functions { listed self.new ≡ (if result then listed self.old ++ function ∷ [] else listed self.old) }
        ensures categories { (signature_of self.new).categories ≡ (signature_of self.old).categories }
        ensures start { (signature_of self.new).start ≡ (signature_of self.old).start }
    {
        self.functions.push(function).is_some()
    }
}
