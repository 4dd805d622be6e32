// Whether two tables hold the same signature.
ghost use Rattle.std.specs.Prelude.{◌≡◌, true, false, ◌≢◌};
ghost use Rattle.grammar.specs.Tables.{signature_of};

use grammar::signature::SignatureTable;

// Whether two signatures are the same: categories, start category and functions. It is what `==` derives, written out, so that an edit can
// change what is compared. The contract says what it means of signatures.
pub fn same_signature(first: &SignatureTable, second: &SignatureTable) -> bool
    ensures same { result ≡ true → signature_of first.now ≡ signature_of second.now }
    ensures other { result ≡ false → signature_of first.now ≢ signature_of second.now }
{
    first.categories() == second.categories()
        && first.start() == second.start()
        && first.functions() == second.functions()
}
