// What can be wrong with an image.

// The first rule of the format that an image's bytes break, with the place that is told.
#[derive(Clone, Copy, Debug, PartialEq, Eq)]
pub enum ImageFault {
    Mark { byte: usize },
    Short { length: usize },
    Range { byte: usize },
    Total,
    Field { byte: usize },
    Word { entry: usize },
    Rule { entry: usize },
    Symbol { symbol: usize },
}
