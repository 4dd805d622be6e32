// The walk that reads a draft from its code: from the front, one byte and then the rest, up to the first fault.
ghost use Rattle.std.specs.Prelude.{◌+◌, ◌*◌, ◌≤◌, length};
ghost use Rattle.grammar.specs.Questions.{argument_list};
ghost use Rattle.grammar.specs.Tables.{signature_of};
ghost use Rattle.draft.specs.Nodes.{held};
ghost use Rattle.draft.specs.Walks.{WalkedAll, WalkedOne, WalkedWhole, most};

use crate::depth::Depth;
use crate::nodes::{DraftNode, DraftNodes};
use fault::kinds::TreeFault;
use grammar::signature::{Arguments, SignatureTable};

// The byte that stands for a hole.
pub const HOLE: u8 = 255;

// The nodes of the draft that the code stands for: one of the signature's start category, no deeper than the depth.
pub fn read_draft(
    signature: &SignatureTable,
    depth: Depth,
    code: &[u8],
) -> Result<DraftNodes, TreeFault>
    ensures { WalkedWhole (signature_of signature.now) depth.value code.now result }
{
    let mut nodes = DraftNodes::new();
    match nodes.read_one(signature, signature.start(), depth.get(), code)? {
        [] => Ok(nodes),
        _ => Err(TreeFault::LeftOver { byte: nodes.len() }),
    }
}

impl DraftNodes {
    // Reads a draft of the category off the front of the code, and answers the rest. As each byte read has become a
    // node, the number of nodes is the place of the next byte.
    #[cycle(walk)]
    fn read_one<'a>(
        &mut self,
        signature: &SignatureTable,
        category: u8,
        left: u8,
        code: &'a [u8],
    ) -> Result<&'a [u8], TreeFault>
        requires { length (held self.old) + most left ≤ 364 }
        ensures { WalkedOne (signature_of signature.now) left category code.now (held self.old) (held self.new) result }
    {
        let [root, rest @ ..] = code else {
            return Err(TreeFault::EndsEarly { length: self.len() });
        };
        if left == 0 {
            return Err(TreeFault::TooDeep { byte: self.len() });
        }
        if *root == HOLE {
            self.push(DraftNode {
                function: None,
                category,
                left,
            });
            return Ok(rest);
        }
        match signature.function(*root) {
            Some(function) if function.result == category => {
                self.push(DraftNode {
                    function: Some(*root),
                    category,
                    left,
                });
                self.read_all(signature, function.arguments, left - 1, rest)
            }
            _ => Err(TreeFault::WrongNode { byte: self.len() }),
        }
    }

    // Reads a draft for each of the arguments, one after the other, and answers the rest.
    #[cycle(walk)]
    fn read_all<'a>(
        &mut self,
        signature: &SignatureTable,
        arguments: Arguments,
        left: u8,
        code: &'a [u8],
    ) -> Result<&'a [u8], TreeFault>
        requires { length (held self.old) + length (argument_list arguments) * most left ≤ 364 }
        ensures { WalkedAll (signature_of signature.now) left (argument_list arguments) code.now (held self.old) (held self.new) result }
    {
        // An arm for each case: a loop over the categories would need them as a list.
        match arguments {
            Arguments::Zero => Ok(code),
            Arguments::One(a) => self.read_one(signature, a, left, code),
            Arguments::Two(a, b) => {
                let code = self.read_one(signature, a, left, code)?;
                self.read_one(signature, b, left, code)
            }
            Arguments::Three(a, b, c) => {
                let code = self.read_one(signature, a, left, code)?;
                let code = self.read_one(signature, b, left, code)?;
                self.read_one(signature, c, left, code)
            }
        }
    }
}
