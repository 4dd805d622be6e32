// A tree with the measures of its nodes in a language, and what it is asked while its text is written.
ghost use Rattle.std.specs.Prelude.{◌≡◌, ◌<◌, slice_index, Some};
ghost use Rattle.std.specs.List.{slice_get};
ghost use Rattle.std.proofs.Props.{props};
ghost use Rattle.grammar.specs.Linearization.{Said, linearized, main_constituent};
ghost use Rattle.grammar.specs.Trees.{Tree};
ghost use Rattle.saying.specs.Sizes.{text_length};
ghost use Rattle.tree.specs.Codes.{IsTree};
ghost use Rattle.tree.specs.Read.{bytes_of, tree_signature};
ghost use Rattle.measure.specs.Measured.{measured_at};
ghost use Rattle.linearizer.specs.Frames.{frame_symbols, word_count};
ghost use Rattle.linearizer.specs.Written.{SaidTree};

use crate::frame::Frame;
use grammar::language::Language;
use grammar::symbol::{RuleKey, Symbol};
use measure::table::MeasureTable;
use tree::code::TreeCode;

// A tree that is said in a language, and the measures of its nodes there.
pub(crate) struct MeasuredTree<'a, L: Language> {
    pub(crate) tree: &'a TreeCode<'a>,
    pub(crate) language: &'a L,
    pub(crate) table: &'a MeasureTable,
    ghost of: { (L.meaning language.now).signature ≡ tree_signature tree.now },
    ghost said: { SaidTree (L.meaning language.now) tree.now table.now } by { Prim.hlevel props },
}

// By hand, since a derive would ask that the language may be let go too.
impl<'a, L: Language> Drop for MeasuredTree<'a, L> {
    fn drop(self) {
        let Self {
            tree,
            language,
            table,
        } = self;
    }
}

impl<'a, L: Language> MeasuredTree<'a, L> {
    // The next symbol of a frame; none at the end of its sequence.
    pub(crate) fn next_symbol(&self, frame: Frame) -> Option<Symbol>
        ensures { result ≡ slice_get (frame_symbols (L.meaning self.now.language.now) self.now.tree.now self.now.table.now frame) frame.next }
    {
        let function = self.tree.byte(frame.place)?;
        let forms = self.table.at(frame.place).forms;
        let key = RuleKey { function, forms };
        self.language.symbol(key, frame.constituent, frame.next)
    }

    // Where an argument of a node stands in the code.
    pub(crate) fn argument_place(&self, place: usize, argument: u8) -> usize
        requires { argument < 3 }
        ensures { result ≡ slice_index (measured_at self.now.table.now place).places argument }
    {
        self.table.at(place).places[usize::from(argument)]
    }

    // How many words a constituent of the node at a place has: none, where the node has no measure.
    pub(crate) fn count_words(&self, place: usize, constituent: u8) -> u32
        requires { constituent < 4 }
        ensures { result ≡ word_count (measured_at self.now.table.now place).said constituent }
    {
        match self.table.at(place).said {
            Ok(measure) => measure.sizes[usize::from(constituent)].words,
            Err(_) => 0,
        }
    }

    // The length of the tree's text: the bytes of its words, and a blank between each two words; 0, where it has none.
    pub(crate) fn text_length(&self) -> usize
        ensures { (t : Tree) (s : Said) → IsTree (L.meaning self.now.language.now).signature (bytes_of self.now.tree.now) t → linearized (L.meaning self.now.language.now) t ≡ Some s → result ≡ text_length (main_constituent s) }
    {
        match self.table.at(0).said {
            Ok(measure) => {
                // `as`, since std has no From<u32> for usize.
                let size = measure.sizes[0];
                size.bytes as usize + size.words.saturating_sub(1) as usize
            }
            Err(_) => 0,
        }
    }
}
