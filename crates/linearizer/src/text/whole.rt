// The text of a tree in a language, in memory of its own.
ghost use Rattle.std.specs.Prelude.{vec_items};
ghost use Rattle.linearizer.specs.Texts.{TextTold};

use crate::measured::MeasuredTree;
use crate::text::TextFault;
use grammar::language::Language;
use measure::scan::measure_into;
use measure::table::MeasureTable;
use std::alloc::Global;
use tree::code::TreeCode;

// The tree's text, or why there is none.
pub fn text_of<L: Language>(
    heap: Global,
    tree: &TreeCode,
    language: &L,
) -> Result<Vec<u8>, TextFault>
    ensures { TextTold vec_items (L.meaning language.now) tree.now result }
{
    let mut table = MeasureTable::new();
    measure_into(tree, language, &mut table)?;
    let measured = MeasuredTree {
        tree,
        language,
        table: &table,
    };
    let mut text = Vec::from_elem(heap, 0, measured.text_length())?;
    measured.write_front(text.as_mut_slice());
    Ok(text)
}
