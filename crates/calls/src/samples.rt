// The built-in small port: its signature, and the phrases, drafts, calls and trees that the program reads.
ghost use Rattle.std.specs.Prelude.{◌≡◌};
ghost use Rattle.grammar.specs.Tables.{signature_of};
ghost use Rattle.port.specs.SmallPort.{port as written_out};

use grammar::signature::{Arguments, FunctionType, SignatureTable};

// Phrases as a ferry sends them, sound and damaged.
pub const PHRASES: [&str; 7] = [
    "hold three",
    "hold three repeat hold three",
    "",
    "hold  three",
    " hold three",
    "hold three ",
    "hold\tthree",
];

// Depths and the codes of drafts; 255 is a hole.
pub const DRAFTS: [(u8, &[u8]); 9] = [
    (2, &[255]),
    (2, &[0, 2]),
    (3, &[3, 0, 255]),
    (2, &[1]),
    (2, &[0]),
    (2, &[0, 1, 1]),
    (2, &[]),
    (2, &[3, 3, 255]),
    (7, &[255]),
];

// What comes with one call: a depth, a draft's code and a phrase.
pub const CALLS: [(u8, &[u8], &str); 4] = [
    (2, &[255], "hold three"),
    (0, &[1], "hold  three"),
    (2, &[1], "hold  three"),
    (2, &[0, 2], "hold  three"),
];

// The codes of trees that the program says; after the last tree a byte is left over.
pub const TREES: [&[u8]; 4] = [&[0, 1], &[0, 2], &[3, 0, 2], &[0, 1, 1]];

// Two categories, messages and places, of which messages are the start; f0 makes a message of a place, f1 and f2 are places, f3 makes a message of a message.
pub fn small_port() -> SignatureTable
    ensures { signature_of result ≡ written_out }
{
    // Four calls prove as they stand; a loop over an array of the types needs an invariant with a case for each of them.
    let mut table = SignatureTable::new(2, 0);
    table.add(FunctionType {
        result: 0,
        arguments: Arguments::One(1),
    });
    table.add(FunctionType {
        result: 1,
        arguments: Arguments::Zero,
    });
    table.add(FunctionType {
        result: 1,
        arguments: Arguments::Zero,
    });
    table.add(FunctionType {
        result: 0,
        arguments: Arguments::One(0),
    });
    table
}
