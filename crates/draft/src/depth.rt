// The depth that trees and drafts are held to.
ghost use Rattle.std.specs.Prelude.{◌≡◌, ◌≤◌, Ok, Err};
ghost use Rattle.grammar.specs.DraftWalk.{depth_check};

use fault::kinds::TreeFault;

// A depth is 1 to 6.
#[derive(Clone, Copy)]
pub struct Depth {
    value: u8,
    ghost positive: { 1 ≤ value },
    ghost within: { value ≤ 6 },
}

impl Depth {
    // The depth of that number, if it is one.
    pub fn new(depth: u8) -> Result<Depth, TreeFault>
        ensures { elim result [ Ok d ↦ depth_check depth ≡ Ok d.value | Err fault ↦ depth_check depth ≡ Err fault ] }
    {
        if (1..=6).contains(&depth) {
            Ok(Depth { value: depth })
        } else {
            Err(TreeFault::DepthOutOfRange)
        }
    }

    // The depth as a number.
    pub fn get(self) -> u8
        ensures { result ≡ self.value }
    {
        self.value
    }
}
