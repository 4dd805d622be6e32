// Whether a table holds a lawful signature.
ghost use Rattle.std.specs.Prelude.{◌≡◌, map};
ghost use Rattle.grammar.specs.Questions.{argument_list};
ghost use Rattle.grammar.specs.Tables.{typed, listed, signature_of};
ghost use Rattle.notation.specs.Checks.{all_below, function_fits, functions_fit, counts_fit, is_lawful};

use grammar::signature::{Arguments, FunctionType, SignatureTable};

// Whether the categories of a function's arguments are below a limit: an arm for each case, as a loop would need them as a list.
fn arguments_fit(arguments: Arguments, limit: u8) -> bool
    ensures { result ≡ all_below limit (argument_list arguments) }
{
    match arguments {
        Arguments::Zero => true,
        Arguments::One(first) => first < limit,
        Arguments::Two(first, second) => first < limit && second < limit,
        Arguments::Three(first, second, third) => first < limit && second < limit && third < limit,
    }
}

// Whether the categories of a function are below a limit.
fn function_fits(function: FunctionType, limit: u8) -> bool
    ensures { result ≡ function_fits limit (typed function) }
{
    function.result < limit && arguments_fit(function.arguments, limit)
}

// Whether each function's categories are below a limit.
fn functions_fit(table: &SignatureTable, limit: u8) -> bool
    ensures { result ≡ functions_fit limit (map typed (listed table.now)) }
{
    table
        .functions()
        .iter()
        .all(|function| function_fits(*function, limit))
}

// Whether the counts and the start category are in range.
fn counts_fit(table: &SignatureTable) -> bool
    ensures { result ≡ counts_fit (signature_of table.now) }
{
    let categories = table.categories();
    let functions = table.len();
    (1..=16).contains(&categories) && table.start() < categories && (1..=64).contains(&functions)
}

// Whether the signature is lawful: its counts, and each of its functions.
pub(super) fn is_lawful(table: &SignatureTable) -> bool
    ensures { result ≡ is_lawful (signature_of table.now) }
{
    counts_fit(table) && functions_fit(table, table.categories())
}
