// Listing the edges of a function: every way to give its arguments forms that occur, and for each the choices of items.
ghost use Rattle.std.specs.Prelude.{◌≡◌, ℕ, ◌≤◌, List, length, Some, is_some};
ghost use Rattle.grammar.specs.Questions.{asked};
ghost use Rattle.chart.specs.Forms.{ruled_edges};
ghost use Rattle.chart.specs.Rows.{Chains, Filled, listed};

use super::EdgeTable;
use crate::index::Index;
use grammar::language::Language;
use grammar::symbol::{RuleForm, RuleKey};

impl EdgeTable {
    // The edges by a key, whose forms are chosen for all arguments; none where there is no rule for them. Nothing where some have no place.
    fn add_ruled<L: Language>(
        &mut self,
        language: &L,
        index: &Index,
        key: RuleKey,
        starts: &[Option<usize>],
    ) -> Option<()>
        requires few { length starts.now ≤ 3 }
        requires chains { (chains : List (List ℕ)) × Chains index.now.next starts.now chains }
        ensures { (chains : List (List ℕ)) (ks : List ℕ) → Chains index.now.next starts.now chains → asked (L.meaning language.now) key.function key.forms ≡ Some ks → Filled (listed self.old) (ruled_edges key.function chains ((L.meaning language.now).rule key.function ks)) (is_some result) (listed self.new) }
    {
        let Some(rule) = language.rule(key) else {
            return Some(());
        };
        match rule {
            RuleForm::Missing => Some(()),
            RuleForm::Form(_) => self.add_rows(index, key.function, starts, [0; 3], 0),
        }
    }
}
