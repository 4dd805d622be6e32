// Asking a table of items, and giving an item its place.
ghost use Rattle.std.specs.Prelude.{◌≡◌, [], length};
ghost use Rattle.std.specs.List.{slice_get};
ghost use Rattle.chart.specs.Places.{held, FoundAt, PlacedAt};

use super::{ITEMS, ItemTable};
use crate::item::Item;
use tables::Table;

impl ItemTable {
    // A table that holds nothing.
    pub fn new() -> ItemTable
        ensures { held result ≡ [] }
    {
        let unused = Item {
            category: 0,
            form: 0,
            windows: [None; 4],
        };
        ItemTable {
            items: Table::new([unused; ITEMS]),
        }
    }

    // How many items there are.
    pub fn len(&self) -> usize
        ensures { result ≡ length (held self.now) }
    {
        self.items.len()
    }

    // The item at a place, if there is one.
    pub fn item(&self, place: usize) -> Option<Item>
        ensures { result ≡ slice_get (held self.now) place }
    {
        self.items.get(place)
    }

    // The place of an item, if it is there.
    pub fn find(&self, item: &Item) -> Option<usize>
        ensures { FoundAt (held self.now) item.now result }
    {
        self.items.as_slice().iter().position(|held| held.is(item))
    }

    // Gives an item its place: the one that it has, or the next one; none, and nothing changed, where all places are used by others.
    pub fn place(&mut self, item: Item) -> Option<usize>
        ensures { PlacedAt (held self.old) item result (held self.new) }
    {
        match self.find(&item) {
            Some(place) => Some(place),
            None => self.items.push(item),
        }
    }
}
