// Small grammars as lines of text: what the sayings are tried on.

// Dimension 2; constituents used twice, swapped or not at all, an empty sequence, an empty text.
pub const TWICE: &str = "
    dimensions 1 2
    function 0 1
    function 1
    function 1
    function 0 0
    function 0 1 1
    function 0 1
    word aye
    word haul
    word in
    word slack
    rule 0 0 0 0 0 | r00 w0 r00
    rule 1 0 0 0 0 | w1 w2 | w3
    rule 2 0 0 0 0 | | w3 w3
    rule 3 0 0 0 0 | r00 r00
    rule 4 0 0 0 0 | r11 r00 r01
    rule 5 0 0 0 0 | r00
";

// Dimension 4, functions with no to three arguments, a word of 24 bytes, a sequence of eight symbols.
pub const FOUR: &str = "
    dimensions 1 4
    function 0 1
    function 1
    function 1 1 1 1
    function 1 1 1
    function 0
    function 0 1 1 1
    word a
    word bb
    word ccc
    word abcdefghijklmnopqrstuvwx
    rule 0 0 0 0 0 | r03 r02 r01 r00
    rule 1 0 0 0 0 | w0 | w1 | | w2
    rule 2 0 0 0 0 | r00 r10 r20 | r23 r13 r03 | r02 r12 w3 |
    rule 3 0 0 0 0 | r00 w0 r11 | r01 | r12 | r13 r13
    rule 4 0 0 0 0 |
    rule 5 0 0 0 0 | r20 r12 r01 r03 w3 r00 r00 r21
";

// Several forms: f0 lacks a rule at form 2, f4 has none, f5 and f6 have theirs at some pairs of forms.
pub const FORMS: &str = "
    dimensions 1 1
    function 0 1
    function 1
    function 1
    function 1
    function 1
    function 1 1 1
    function 0 0 0
    word one
    word two
    word six
    word and
    rule 0 0 0 0 0 | w0 r00
    rule 0 1 0 0 1 | w1 r00
    rule 0 7 0 0 0 | r00 w2
    rule 1 0 0 0 0 | w0
    rule 2 0 0 0 1 | w1
    rule 3 0 0 0 2 | w2
    rule 5 0 0 0 0 | r00 w3 r10
    rule 5 0 1 0 7 | r10 w3 r00
    rule 5 1 0 0 2 | r00
    rule 6 0 0 0 0 | r00 w3 r10
    rule 6 0 1 0 1 | r10
";

// Equal spellings under two numbers, capitals, and bytes above 0x7F.
pub const ALIKE: &str = "
    dimensions 1
    function 0
    function 0
    function 0 0 0
    word Hål
    word Hål
    word Og
    rule 0 0 0 0 0 | w0
    rule 1 0 0 0 0 | w1
    rule 2 0 0 0 0 | r00 w2 r10
";

// A message made of a place, and one place.
pub const SHORT: &str = "
    dimensions 1 1
    function 0 1
    function 1
    word a
    rule 0 0 0 0 0 | w0 r00
    rule 1 0 0 0 0 | w0
";

// The signature of SHORT, with other dimensions and without rules.
pub const SPEECHLESS: &str = "
    dimensions 2 3
    function 0 1
    function 1
";

// Signatures that differ from that of SHORT in one thing each, and have no rules.
pub const OTHERS: [&str; 7] = [
    "dimensions 1 1 1\nfunction 0 1\nfunction 1",
    "dimensions 1 1\nstart 1\nfunction 0 1\nfunction 1",
    "dimensions 1 1\nfunction 0 0\nfunction 1",
    "dimensions 1 1\nfunction 0 1 1\nfunction 1",
    "dimensions 1 1\nfunction 0 1\nfunction 0",
    "dimensions 1 1\nfunction 0 1",
    "dimensions 1 1\nfunction 0 1\nfunction 1\nfunction 1",
];
