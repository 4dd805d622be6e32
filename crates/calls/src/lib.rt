// The checks of a call that sends a depth, a draft and a phrase, in their order; and the calls of the built-in small port.
#![tactic(auto)]

ghost use Rattle.grammar.specs.Tables.{signature_of};
ghost use Rattle.calls.specs.Calls.{WordCount, Found};

use draft::depth::Depth;
use draft::walk::read_draft;
use fault::kinds::{OpenFault, PhraseFault};
use grammar::signature::SignatureTable;
use text::reader::PhraseReader;

pub mod samples;

// How many words a phrase has.
fn count_words(phrase: &[u8]) -> Result<usize, PhraseFault>
    ensures { WordCount phrase.now result }
{
    // Counted as they are handed out: a `Phrase` would hold 32 words to be counted, at nearly twice the time.
    let mut reader = PhraseReader::new(phrase);
    let mut count = 0;
    while let Some(_word) = reader.next_word()? {
        count += 1;
    }
    Ok(count)
}

// How many nodes the draft and how many words the phrase of a sound call has; or the first fault.
pub fn check_call(
    signature: &SignatureTable,
    depth: u8,
    code: &[u8],
    phrase: &[u8],
) -> Result<(usize, usize), OpenFault>
    ensures { Found (signature_of signature.now) depth code.now phrase.now result }
{
    let depth = Depth::new(depth)?;
    let nodes = read_draft(signature, depth, code)?;
    let words = count_words(phrase)?;
    Ok((nodes.len(), words))
}
