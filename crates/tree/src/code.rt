// A code that stands for a tree.
ghost use Rattle.std.specs.Prelude.{◌≡◌, false, is_some};
ghost use Rattle.grammar.specs.Tables.{signature_of};
ghost use Rattle.tree.specs.Codes.{tree_fault};

use grammar::signature::SignatureTable;

mod read;

// The code of a tree of the signature: of the start category, at most 6 deep, without holes. It is read in place.
#[derive(Clone, Copy)]
pub struct TreeCode<'a> {
    signature: &'a SignatureTable,
    bytes: &'a [u8],
    ghost sound: { is_some (tree_fault (signature_of signature.now) bytes.now) ≡ false },
}
