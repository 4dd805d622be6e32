// Writing the text of a tree: its symbols in turn, with a frame on the stack for each node that is not finished.
ghost use Rattle.std.specs.Prelude.{◌≡◌, false, length};
ghost use Rattle.linearizer.specs.Written.{room_left, HasRoom, Wrote, AtFront};

use crate::frame::Frame;
use crate::measured::MeasuredTree;
use crate::words::write_word;
use grammar::language::Language;
use grammar::symbol::Symbol;
use stack::Stack;
use writer::WordWriter;

// How many frames can wait: the deepest tree has six nodes on its way down, and the last of them is at work.
const MOST_FRAMES: usize = 5;

impl<'a, L: Language> MeasuredTree<'a, L> {
    // Writes the tree's text, with a writer that has room for it. A constituent without words is passed over, so each frame has a word to write.
    fn write(&self, writer: &mut WordWriter)
        requires room { HasRoom (L.meaning self.now.language.now) self.now.tree.now (room_left writer.old) }
        requires fresh { writer.old.started ≡ false }
        ensures lender { writer.new.part.ghost_name ≡ writer.old.part.ghost_name }
        ensures wrote { Wrote (L.meaning self.now.language.now) self.now.tree.now writer.old writer.new }
    {
        let mut frame = Frame::start(0, 0);
        let mut cells = [frame; MOST_FRAMES];
        let mut frames = Stack::new(&mut cells);
        // It counts nothing: it ends when no frame waits.
        loop {
            let Some(symbol) = self.next_symbol(frame) else {
                if frames.pop(&mut frame) {
                    continue;
                }
                return;
            };
            frame.next += 1;
            match symbol {
                Symbol::Word(word) => write_word(self.language, word, writer),
                Symbol::Reference {
                    argument,
                    constituent,
                } => {
                    let place = self.argument_place(frame.place, argument);
                    if self.count_words(place, constituent) != 0 {
                        frames.push(frame);
                        frame = Frame::start(place, constituent);
                    }
                }
            }
        }
    }

    // Writes the tree's text at the front of a lent part of a page, which has room for it.
    pub(crate) fn write_front(&self, part: &mut [u8])
        requires { HasRoom (L.meaning self.now.language.now) self.now.tree.now (length part.old) }
        ensures { AtFront (L.meaning self.now.language.now) self.now.tree.now part.old part.new }
    {
        let mut writer = WordWriter::new(part);
        self.write(&mut writer);
    }
}
