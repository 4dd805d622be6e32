// A stack of plain values over cells that are lent to it: no allocation, and each call takes constant time.
#![tactic(auto)]

ghost use Rattle.std.specs.Prelude.{◌≤◌, length};

mod count;
mod methods;
#[cfg(test)]
mod tests;

// The first `used` cells hold the values, the bottom one first, and the cells past them are free.
// A rule of the project names this form: lent cells, and a `pop` that fills a lent place.
#[derive(Drop)]
pub struct Stack<'a, T> {
    cells: &'a mut [T],
    used: usize,
    ghost within: { used ≤ length cells.now },
}
