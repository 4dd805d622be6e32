// The places of a chart's items.
use crate::item::Item;
use tables::Table;

mod places;

// How many places a chart has for items.
pub const ITEMS: usize = 512;

// The items in the order in which they were found.
#[derive(Clone, Copy)]
pub struct ItemTable {
    items: Table<Item, ITEMS>,
}
