// Saying a tree in a language, on a page from a start place on.
ghost use Rattle.linearizer.specs.Says.{SaysCode};

use crate::measured::MeasuredTree;
use fault::kinds::SayFault;
use grammar::language::Language;
use measure::scan::measure_into;
use measure::table::MeasureTable;
use tree::code::TreeCode;

// Writes the text of the tree in the language from the start place of the page on, and answers how long it is. Refused, and the page left as it
// is, where the language has another signature than the tree, a node is mute, or the text does not fit.
pub fn say<L: Language>(
    tree: &TreeCode,
    language: &L,
    page: &mut [u8],
    start: usize,
) -> Result<usize, SayFault>
    ensures { SaysCode (L.meaning language.now) tree.now page.old start result page.new }
{
    let mut table = MeasureTable::new();
    measure_into(tree, language, &mut table)?;
    let measured = MeasuredTree {
        tree,
        language,
        table: &table,
    };
    let length = measured.text_length();
    // The same test as in `writer::write_words`, which tells a fault of its own.
    if start > page.len() || length > page.len() - start {
        return Err(SayFault::NoRoom { length });
    }
    measured.write_front(&mut page[start..]);
    Ok(length)
}
