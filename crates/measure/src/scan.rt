// Measuring a whole tree: one scan of its code from the right.
ghost use Rattle.std.specs.Prelude.{◌≡◌};
ghost use Rattle.grammar.specs.Trees.{Tree};
ghost use Rattle.tree.specs.Codes.{IsTree};
ghost use Rattle.tree.specs.Read.{bytes_of, tree_signature};
ghost use Rattle.measure.specs.Measured.{Measured};
ghost use Rattle.measure.specs.Scanned.{MeasuredAs, MeasuredInto};

use crate::node::node_at;
use crate::table::MeasureTable;
use fault::kinds::SayFault;
use grammar::language::Language;
use tree::code::TreeCode;

// The measure of each node, the last one found first.
fn scan<L: Language>(tree: &TreeCode, language: &L, table: &mut MeasureTable)
    requires { tree_signature tree.now ≡ (L.meaning language.now).signature }
    ensures { (t : Tree) → IsTree (L.meaning language.now).signature (bytes_of tree.now) t → Measured (L.meaning language.now) t table.new }
{
    // By the place, at which the table is filled: an iterator over bytes and places says the same in more words.
    for place in (0..tree.len()).rev() {
        if let Some(function) = tree.byte(place) {
            table.put(place, node_at(language, table, place, function));
        }
    }
}

// The measures of the tree's nodes in the language, put into a table; refused where a node is mute, with the measures in the table all the same, or where the
// language has another signature, and the table left as it is. The table is lent, since one that is answered is copied on its way.
pub fn measure_into<L: Language>(
    tree: &TreeCode,
    language: &L,
    table: &mut MeasureTable,
) -> Result<(), SayFault>
    ensures { MeasuredInto (L.meaning language.now) tree.now table.old result table.new }
{
    if !tree.is_of(language) {
        return Err(SayFault::OtherSignature);
    }
    scan(tree, language, table);
    table.at(0).said?;
    Ok(())
}

// The measures of the tree's nodes in the language, in a table of their own; refused where `measure_into` refuses.
pub fn measure<L: Language>(tree: &TreeCode, language: &L) -> Result<MeasureTable, SayFault>
    ensures { MeasuredAs (L.meaning language.now) tree.now result }
{
    let mut table = MeasureTable::new();
    measure_into(tree, language, &mut table)?;
    Ok(table)
}
