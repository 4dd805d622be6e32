// Measuring one node from the measures of its arguments.
ghost use Rattle.std.specs.Prelude.{◌≡◌, ◌<◌};
ghost use Rattle.grammar.specs.Languages.{Meaning};
ghost use Rattle.grammar.specs.Questions.{argument_list};
ghost use Rattle.grammar.specs.Signatures.{Signature};
ghost use Rattle.grammar.specs.Trees.{Tree, Trees, HaveCategories};
ghost use Rattle.saying.specs.Mute.{RowAt};
ghost use Rattle.measure.specs.Sums.{all_three};
ghost use Rattle.measure.specs.Measured.{MeasuredFrom, NodeAt, NodeMeasured, RowMeasured};

use crate::kinds::{Measure, Muteness, NodeMeasure, Row};
use crate::sums::ArgumentMeasures;
use crate::table::MeasureTable;
use grammar::language::Language;
use grammar::signature::Arguments;
use grammar::symbol::RuleKey;

// The three measures, or the first mute node.
fn three(
    first: Result<Measure, Muteness>,
    second: Result<Measure, Muteness>,
    third: Result<Measure, Muteness>,
) -> Result<[Measure; 3], Muteness>
    ensures { result ≡ all_three first second third }
{
    Ok([first?, second?, third?])
}

// The row of a node's arguments, whose codes stand from the place on.
fn row_at(table: &MeasureTable, arguments: Arguments, place: usize) -> Row
    ensures { (m : Meaning) (s : Signature) (t : Tree) (ts : Trees) → HaveCategories s (argument_list arguments) ts → RowAt t place ts → MeasuredFrom m t place table.now → RowMeasured m place ts result }
{
    let nothing = Ok(Measure::default());
    // An arm for each case: where an argument stands follows from the one before it.
    match arguments {
        Arguments::Zero => Row {
            end: place,
            places: [0; 3],
            said: three(nothing, nothing, nothing),
        },
        Arguments::One(_) => {
            let first = table.at(place);
            Row {
                end: first.end,
                places: [place, 0, 0],
                said: three(first.said, nothing, nothing),
            }
        }
        Arguments::Two(_, _) => {
            let first = table.at(place);
            let second = table.at(first.end);
            Row {
                end: second.end,
                places: [place, first.end, 0],
                said: three(first.said, second.said, nothing),
            }
        }
        Arguments::Three(_, _, _) => {
            let first = table.at(place);
            let second = table.at(first.end);
            let third = table.at(second.end);
            Row {
                end: third.end,
                places: [place, first.end, second.end],
                said: three(first.said, second.said, third.said),
            }
        }
    }
}

// The measure of the node at a place, from those of the nodes after it.
pub(crate) fn node_at<L: Language>(
    language: &L,
    table: &MeasureTable,
    place: usize,
    function: u8,
) -> NodeMeasure
    requires within { place < 364 }
    requires ready { (t : Tree) × (ts : Trees) × NodeAt (L.meaning language.now) t place function ts table.now }
    ensures { (t : Tree) (ts : Trees) → NodeAt (L.meaning language.now) t place function ts table.now → NodeMeasured (L.meaning language.now) place function ts result }
{
    let Some(arguments) = language.arguments(function) else {
        return table.at(place);
    };
    let row = row_at(table, arguments, place + 1);
    let places = row.places;
    match row.said {
        Err(muteness) => NodeMeasure {
            end: row.end,
            places,
            forms: [0; 3],
            said: Err(muteness),
        },
        Ok(measures) => {
            let arguments = ArgumentMeasures { measures };
            let forms = arguments.forms();
            NodeMeasure {
                end: row.end,
                places,
                forms,
                said: arguments
                    .by_rule(language, RuleKey { function, forms })
                    .ok_or(Muteness { node: place }),
            }
        }
    }
}
