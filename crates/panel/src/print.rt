// Printing what was read, or the refusal by number, layer, place and reason.
use calls::check_call;
use draft::depth::Depth;
use draft::nodes::DraftNodes;
use draft::walk::read_draft;
use grammar::signature::SignatureTable;
use std::io;
use std::io::Write;
use text::reader::PhraseReader;

// What is read over a signature, and where it is printed.
#[derive(Drop)]
pub struct Reading<'a> {
    pub rt: &'a HostRuntime,
    pub signature: SignatureTable,
}

impl<'a> Reading<'a> {
    // A phrase's words with their places, up to the end or the first byte at fault.
    pub fn print_phrase(&self, phrase: &str) -> io::Result<()> {
        println!(self.rt; "  phrase {phrase:?}")?;
        let mut reader = PhraseReader::new(phrase.as_bytes());
        // It ends with the reader, and counts nothing.
        loop {
            match reader.next_word() {
                Ok(Some(word)) => {
                    let place = word.place;
                    print!(self.rt; "    word at {place}: ")?;
                    self.rt.stdout().write_all(word.text)?;
                    println!(self.rt; "")?;
                }
                Ok(None) => return Ok(()),
                Err(fault) => return println!(self.rt; "    {fault}"),
            }
        }
    }

    // A draft's nodes with their categories and depths.
    fn print_nodes(&self, depth: u8, nodes: &DraftNodes) -> io::Result<()> {
        for (place, node) in nodes.as_slice().iter().enumerate() {
            let category = node.category;
            let at = depth.saturating_sub(node.left).saturating_add(1);
            match node.function {
                Some(f) => println!(self.rt;
                    "    node {place}: f{f} of category {category}, depth {at}"
                )?,
                None => println!(self.rt;
                    "    node {place}: a hole of category {category}, depth {at}"
                )?,
            }
        }
        Ok(())
    }

    // The nodes of the draft that a code stands for.
    pub fn print_draft(&self, depth: u8, code: &[u8]) -> io::Result<()> {
        println!(self.rt; "  draft {code:?} at depth {depth}")?;
        match Depth::new(depth).and_then(|limit| read_draft(&self.signature, limit, code)) {
            Ok(nodes) => self.print_nodes(depth, &nodes),
            Err(fault) => println!(self.rt; "    {fault}"),
        }
    }

    // What a whole call is found to be.
    pub fn print_call(&self, depth: u8, code: &[u8], phrase: &str) -> io::Result<()> {
        println!(self.rt; "  depth {depth}, draft {code:?}, phrase {phrase:?}")?;
        match check_call(&self.signature, depth, code, phrase.as_bytes()) {
            Ok((nodes, words)) => println!(self.rt; "    sound: {nodes} nodes, {words} words"),
            Err(fault) => println!(self.rt; "    {fault}"),
        }
    }
}

// A text with its length; the bytes as they are.
// Crate port_trees prints the like: no program rests on another, and every function of a library has a contract on what it does.
pub fn print_text(rt: &HostRuntime, name: &str, text: &[u8]) -> io::Result<()> {
    let length = text.len();
    print!(rt; "{name} ({length} bytes): ")?;
    rt.stdout().write_all(text)?;
    println!(rt; "")
}
