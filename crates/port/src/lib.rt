// The small port: its worked cases as one theorem, and its two languages as images.
#![tactic(auto)]

ghost use Rattle.port.specs.Cases.{WorkedCases};

pub mod images;

// The worked cases follow from the definitions.
pub fn worked_cases_hold()
    ensures { WorkedCases }
{}
