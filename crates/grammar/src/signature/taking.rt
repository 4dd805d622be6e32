// Taking a language's signature into a table.
ghost use Rattle.std.specs.Prelude.{◌≡◌};
ghost use Rattle.std.specs.List.{slice_get};
ghost use Rattle.std.specs.Option.{option_map};
ghost use Rattle.grammar.specs.Tables.{typed, signature_of};

use super::{FunctionType, SignatureTable};
use crate::language::Language;

// The type of a language's function of that number, if there is one.
fn function_type<L: Language>(language: &L, function: u8) -> Option<FunctionType>
    ensures { option_map typed result ≡ slice_get (L.meaning language.now).signature.functions function }
{
    let result = language.result(function)?;
    let arguments = language.arguments(function)?;
    Some(FunctionType { result, arguments })
}

impl SignatureTable {
    // The signature of a language: it has at most 64 functions, so each of them has its place.
    pub fn of<L: Language>(language: &L) -> SignatureTable
        ensures { signature_of result ≡ (L.meaning language.now).signature }
    {
        let mut table = SignatureTable::new(language.categories(), language.start());
        // By number, as a language is asked: no slice of its functions can be lent.
        for number in 0..language.functions() {
            if let Some(function) = function_type(language, number) {
                table.add(function);
            }
        }
        table
    }
}
