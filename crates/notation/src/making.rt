// Making a notation.
ghost use Rattle.std.specs.Prelude.{◌≡◌, is_some, IfSome, Decides};
ghost use Rattle.grammar.specs.Languages.{SignatureLawful};
ghost use Rattle.grammar.specs.Tables.{signature_of};
ghost use Rattle.notation.specs.Notations.{signature_in};

use super::Notation;
use super::check::is_lawful;
use grammar::language::Language;
use grammar::signature::SignatureTable;

impl Notation {
    // The notation for the signature of a language.
    pub fn of<L: Language>(language: &L) -> Notation
        ensures { signature_in result ≡ (L.meaning language.now).signature }
    {
        let signature = SignatureTable::of(language);
        Notation { signature }
    }

    // The notation for a signature, where that is lawful.
    pub fn of_signature(table: SignatureTable) -> Option<Notation>
        ensures test { Decides (is_some result) (SignatureLawful (signature_of table)) }
        ensures signature { IfSome result (λ n. n.signature ≡ table) }
    {
        // A plain test, since the closure of a `then` would need a clause to know that it held.
        if is_lawful(&table) {
            Some(Notation { signature: table })
        } else {
            None
        }
    }
}
