// Signatures as plain values of fixed size: what a panel holds of its port's categories and functions.
mod asking;
mod making;
mod taking;

use tables::Table;

// The most functions that a signature has.
pub const FUNCTIONS: usize = 64;

// The categories of a function's arguments, from left to right.
#[derive(Clone, Copy, Debug, PartialEq, Eq)]
pub enum Arguments {
    Zero,
    One(u8),
    Two(u8, u8),
    Three(u8, u8, u8),
}

// What a function makes of what: its result category and its arguments' categories.
#[derive(Clone, Copy, Debug, PartialEq, Eq)]
pub struct FunctionType {
    pub result: u8,
    pub arguments: Arguments,
}

// A signature as a table: how many categories, which is the start category, and the type of each function by its number.
#[derive(Clone, Copy, PartialEq, Eq)]
pub struct SignatureTable {
    categories: u8,
    start: u8,
    functions: Table<FunctionType, FUNCTIONS>,
}
