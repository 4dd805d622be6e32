// The places of a chart's items by category and form.
use crate::table::ITEMS;

pub(crate) mod chains;

// For each of 16 categories and 8 forms the first place of an item of that category and form, and for each of 512 places the next one of the same.
// Fixed memory is a rule of the project, so chains and no lists.
#[derive(Clone, Copy)]
pub(crate) struct Index {
    heads: [Option<usize>; 128],
    next: [Option<usize>; ITEMS],
}
