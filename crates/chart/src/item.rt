// Items as plain values of fixed size.
ghost use Rattle.std.specs.Prelude.{◌≡◌, true, false, ◌≢◌};

use grammar::symbol::Window;

// A category, a form, and a window or outside for each of four constituents; a constituent that is not there has the window of no words. There are always four,
// so an array.
#[derive(Clone, Copy, Debug, PartialEq, Eq)]
pub struct Item {
    pub category: u8,
    pub form: u8,
    pub windows: [Option<Window>; 4],
}

impl Item {
    // Whether two items are the same: `==`, with what the derive means said in a contract.
    pub fn is(&self, other: &Item) -> bool
        ensures same { result ≡ true → self.now ≡ other.now }
        ensures other { result ≡ false → self.now ≢ other.now }
    {
        self == other
    }
}
