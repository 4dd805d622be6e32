// Reading a tree's code.
ghost use Rattle.std.specs.Prelude.{◌≡◌, true, false, length, ◌≢◌};
ghost use Rattle.std.specs.List.{slice_get};
ghost use Rattle.tree.specs.Codes.{first_hole};
ghost use Rattle.tree.specs.Read.{bytes_of, tree_signature, ReadAs};

use super::TreeCode;
use crate::signatures::same_signature;
use draft::depth::Depth;
use draft::walk::{HOLE, read_draft};
use fault::kinds::TreeFault;
use grammar::language::Language;
use grammar::signature::SignatureTable;

// The fault of the first hole, if there is one.
fn find_hole(bytes: &[u8]) -> Option<TreeFault>
    ensures { result ≡ first_hole 0 bytes.now }
{
    bytes
        .iter()
        .position(|byte| *byte == HOLE)
        .map(|byte| TreeFault::WrongNode { byte })
}

impl<'a> TreeCode<'a> {
    // The code, if it is that of a tree of the signature; or its first fault.
    pub fn read(signature: &'a SignatureTable, bytes: &'a [u8]) -> Result<TreeCode<'a>, TreeFault>
        ensures { ReadAs signature.now bytes.now result }
    {
        read_draft(signature, Depth::new(6)?, bytes)?;
        match find_hole(bytes) {
            Some(fault) => Err(fault),
            None => Ok(TreeCode { signature, bytes }),
        }
    }

    // How many bytes the code has.
    pub fn len(&self) -> usize
        ensures { result ≡ length (bytes_of self.now) }
    {
        self.bytes.len()
    }

    // The byte at a place, if there is one.
    pub fn byte(&self, place: usize) -> Option<u8>
        ensures { result ≡ slice_get (bytes_of self.now) place }
    {
        self.bytes.get(place).copied()
    }

    // Whether the language has the signature of the tree.
    pub fn is_of<L: Language>(&self, language: &L) -> bool
        ensures same { result ≡ true → tree_signature self.now ≡ (L.meaning language.now).signature }
        ensures other { result ≡ false → tree_signature self.now ≢ (L.meaning language.now).signature }
    {
        same_signature(self.signature, &SignatureTable::of(language))
    }
}
