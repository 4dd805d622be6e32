// The notation of a signature: a language that writes each tree as it is built, as f3 ( f0 ( f2 ) ).
#![tactic(auto)]

ghost use Rattle.std.specs.Prelude.{◌≡◌, true};
ghost use Rattle.grammar.specs.Tables.{signature_of};
ghost use Rattle.notation.specs.Checks.{is_lawful};

use grammar::signature::SignatureTable;

mod check;
pub mod language;
mod making;
mod rules;
mod words;

// The signature whose trees are written.
#[derive(Clone, Copy)]
pub struct Notation {
    signature: SignatureTable,
    ghost lawful: { is_lawful (signature_of signature) ≡ true },
}
