// Making the chains of an index, and following them.
ghost use Rattle.std.specs.Prelude.{◌≡◌, ◌+◌, ◌*◌, ◌<◌, None, slice_index_or};
ghost use Rattle.std.specs.List.{AllByRecursion};
ghost use Rattle.chart.specs.Index.{InBounds, Indexed, head_of};
ghost use Rattle.chart.specs.Places.{held};

use super::Index;
use crate::table::{ITEMS, ItemTable};

// The slot of a category and a form.
fn slot(category: u8, form: u8) -> usize
    ensures { result ≡ 8 * category + form }
{
    // `as`: the numbers are an index here, and nothing else is made of them.
    8 * category as usize + form as usize
}

impl Index {
    // The index of the items that a table holds.
    pub(crate) fn of(items: &ItemTable) -> Index
        requires { AllByRecursion InBounds (held items.now) }
        ensures { Indexed (held items.now) 0 result }
    {
        let mut heads = [None; 128];
        let mut next = [None; ITEMS];
        // By the place, which is what is written: `iter().enumerate().rev()` says the same in more words.
        for place in (0..items.len()).rev() {
            if let Some(item) = items.item(place) {
                let at = slot(item.category, item.form);
                next[place] = heads[at];
                heads[at] = Some(place);
            }
        }
        Index { heads, next }
    }

    // The first place of an item of a category and a form, if there is one.
    pub(crate) fn first(&self, category: u8, form: u8) -> Option<usize>
        requires { (category < 16) × (form < 8) }
        ensures { result ≡ head_of self.now category form }
    {
        self.heads[slot(category, form)]
    }

    // The next place of an item of the same category and form, if there is one.
    pub(crate) fn after(&self, place: usize) -> Option<usize>
        requires { place < 512 }
        ensures { result ≡ slice_index_or self.now.next place None }
    {
        self.next[place]
    }
}
