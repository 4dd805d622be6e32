// What is said of all trees of small grammars, held to texts and mute nodes that an enumeration of its own comes to.
use crate::enumeration::build_trees;
use crate::expect::expect;
use crate::grammars;
use crate::maker::make_language;
use fault::kinds::{SayFault, TreeFault};
use grammar::language::Language;
use grammar::signature::SignatureTable;
use layers::hiding::Hiding;
use layers::small_letters::SmallLetters;
use linearizer::say::say;
use notation::Notation;
use std::alloc::Global;
use std::test::Fail;
use tree::code::TreeCode;

// Trees whose texts are worked out by hand.
#[rattlefmt::skip]
const TEXTS: [(&str, &[u8], &str); 19] = [
    (grammars::TWICE, &[0, 1], "haul in aye haul in"),
    (grammars::TWICE, &[0, 2], "aye"),
    (grammars::TWICE, &[5, 2], ""),
    (grammars::TWICE, &[3, 5, 2], ""),
    (grammars::TWICE, &[3, 0, 2], "aye aye"),
    (grammars::TWICE, &[4, 1, 2], "slack slack haul in slack"),
    (grammars::TWICE, &[4, 2, 1], "slack slack slack"),
    (grammars::FOUR, &[0, 1], "ccc bb a"),
    (grammars::FOUR, &[4], ""),
    (grammars::FOUR, &[0, 2, 1, 1, 1], "abcdefghijklmnopqrstuvwx ccc ccc ccc a a a"),
    (grammars::FOUR, &[0, 3, 1, 1], "ccc ccc bb a a bb"),
    (grammars::FOUR, &[5, 1, 1, 1], "a bb ccc abcdefghijklmnopqrstuvwx a a bb"),
    (grammars::FORMS, &[0, 5, 1, 1], "one one and one"),
    (grammars::FORMS, &[0, 5, 1, 2], "two and one six"),
    (grammars::FORMS, &[6, 0, 1, 0, 1], "one one and one one"),
    (grammars::FORMS, &[6, 0, 1, 0, 2], "two two"),
    (grammars::ALIKE, &[0], "Hål"),
    (grammars::ALIKE, &[1], "Hål"),
    (grammars::ALIKE, &[2, 0, 1], "Hål Og Hål"),
];

// Trees of FORMS with their first mute nodes.
#[rattlefmt::skip]
const MUTE: [(&[u8], usize); 7] = [
    (&[0, 3], 0),
    (&[0, 4], 1),
    (&[0, 5, 2, 2], 1),
    (&[0, 5, 3, 4], 3),
    (&[6, 0, 3, 0, 4], 1),
    (&[6, 0, 4, 0, 3], 2),
    (&[6, 0, 2, 0, 1], 0),
];

// A tree that is to be said in a language.
#[derive(Drop)]
struct Trial<'a, L> {
    heap: Global,
    language: &'a L,
    tree: TreeCode<'a>,
}

impl<'a, L: Language> Trial<'a, L> {
    // The tree of the code.
    fn of_code(
        heap: Global,
        language: &'a L,
        signature: &'a SignatureTable,
        code: &'a [u8],
    ) -> Result<Trial<'a, L>, Fail> {
        let tree = TreeCode::read(signature, code)?;
        Ok(Trial {
            heap,
            language,
            tree,
        })
    }

    // The text is granted from the start place on, with so many bytes of the page behind it, and no other byte changes.
    fn expect_granted(&self, text: &[u8], start: usize, behind: usize) -> Result<(), Fail> {
        let mut expected = Vec::from_elem(self.heap, b'.', start)?;
        expected.extend_from_slice(text)?;
        expected.resize(expected.len().saturating_add(behind), b'.')?;
        let mut page = Vec::from_elem(self.heap, b'.', expected.len())?;
        let answer = say(&self.tree, self.language, page.as_mut_slice(), start);
        expect(answer == Ok(text.len()), "another answer than the length")?;
        expect(
            page.as_slice() == expected.as_slice(),
            "another page than the text",
        )
    }

    // The tree is refused on a page of that size, of which no byte changes.
    fn expect_refused(&self, size: usize, start: usize, fault: SayFault) -> Result<(), Fail> {
        let mut page = Vec::from_elem(self.heap, b'.', size)?;
        let answer = say(&self.tree, self.language, page.as_mut_slice(), start);
        expect(answer == Err(fault), "another answer than the fault")?;
        expect(
            page.iter().all(|byte| *byte == b'.'),
            "the page has changed",
        )
    }

    // The text is granted on a page of its size and on a larger one, and refused on pages that are one byte short.
    fn expect_said(&self, text: &[u8]) -> Result<(), Fail> {
        let length = text.len();
        self.expect_granted(text, 0, 0)?;
        self.expect_granted(text, 3, 2)?;
        if length > 0 {
            self.expect_refused(length - 1, 0, SayFault::NoRoom { length })?;
        }
        self.expect_refused(length.saturating_add(3), 4, SayFault::NoRoom { length })
    }

    // The mute node is told wherever the tree would begin.
    fn expect_mute(&self, node: usize) -> Result<(), Fail> {
        self.expect_refused(64, 0, SayFault::Mute { node })?;
        self.expect_refused(2, 3, SayFault::Mute { node })
    }
}

// The code is refused, since its root has another category than the start.
fn expect_elsewhere(signature: &SignatureTable, code: &[u8]) -> Result<(), Fail> {
    let fault = TreeCode::read(signature, code).err();
    expect(
        fault == Some(TreeFault::WrongNode { byte: 0 }),
        "another fault than a wrong node",
    )
}

// Goes through all trees up to the depth; answers how many of the start category have a text, and how many have none.
fn compare<L: Language>(heap: Global, language: &L, depth: u8) -> Result<(usize, usize), Fail> {
    let signature = SignatureTable::of(language);
    let start = language.start();
    let trees = build_trees(heap, language, depth)?;
    for built in trees.iter() {
        let code = built.code.as_slice();
        if built.category != start {
            expect_elsewhere(&signature, code)?;
            continue;
        }
        let trial = Trial::of_code(heap, language, &signature, code)?;
        match &built.outcome {
            Ok(said) => {
                trial.expect_said(said.strings.get(0).ok_or("no constituent")?.as_slice())?;
            }
            Err(mute) => trial.expect_mute(mute.node)?,
        }
    }
    let said = trees
        .iter()
        .filter(|built| built.category == start && built.outcome.is_ok());
    let mute = trees
        .iter()
        .filter(|built| built.category == start && built.outcome.is_err());
    Ok((said.count(), mute.count()))
}

#[test]
fn texts_by_hand(rt: HostRuntime) -> Result<(), Fail> {
    let heap = rt.alloc();
    for (grammar, code, text) in TEXTS {
        let language = make_language(heap, grammar)?;
        let signature = SignatureTable::of(&language);
        Trial::of_code(heap, &language, &signature, code)?.expect_said(text.as_bytes())?;
    }
    Ok(())
}

#[test]
fn mute_nodes_by_hand(rt: HostRuntime) -> Result<(), Fail> {
    let heap = rt.alloc();
    let language = make_language(heap, grammars::FORMS)?;
    let signature = SignatureTable::of(&language);
    for (code, node) in MUTE {
        Trial::of_code(heap, &language, &signature, code)?.expect_mute(node)?;
    }
    Ok(())
}

#[test]
fn all_trees_of_images(rt: HostRuntime) -> Result<(), Fail> {
    let heap = rt.alloc();
    assert_eq!(rt;
        compare(heap, &make_language(heap, grammars::TWICE)?, 6)?,
        (40, 0)
    );
    assert_eq!(rt;
        compare(heap, &make_language(heap, grammars::FOUR)?, 3)?,
        (31, 0)
    );
    assert_eq!(rt;
        compare(heap, &make_language(heap, grammars::FORMS)?, 3)?,
        (6, 30)
    );
    assert_eq!(rt;
        compare(heap, &make_language(heap, grammars::ALIKE)?, 3)?,
        (38, 0)
    );
    Ok(())
}

#[test]
fn all_trees_of_layers(rt: HostRuntime) -> Result<(), Fail> {
    let heap = rt.alloc();
    let small = SmallLetters {
        below: make_language(heap, grammars::ALIKE)?,
    };
    assert_eq!(rt; compare(heap, &small, 3)?, (38, 0));
    assert_eq!(rt; compare(heap, &Notation::of(&small), 3)?, (38, 0));
    let mut hiding = Hiding::new(small);
    assert!(rt; hiding.hide(1));
    assert_eq!(rt; compare(heap, &hiding, 3)?, (5, 33));
    let signature = SignatureTable::of(&hiding);
    let notation = Notation::of(&hiding);
    let code = [2, 0, 1];
    Trial::of_code(heap, hiding.below(), &signature, &code)?.expect_said("hål og hål".as_bytes())?;
    Trial::of_code(heap, &notation, &signature, &code)?.expect_said(b"f2 ( f0 , f1 )")?;
    Trial::of_code(heap, &hiding, &signature, &code)?.expect_mute(2)
}

#[test]
fn other_signatures(rt: HostRuntime) -> Result<(), Fail> {
    let heap = rt.alloc();
    let language = make_language(heap, grammars::SHORT)?;
    let speechless = make_language(heap, grammars::SPEECHLESS)?;
    let signature = SignatureTable::of(&language);
    let code = [0, 1];
    Trial::of_code(heap, &language, &signature, &code)?.expect_said(b"a a")?;
    Trial::of_code(heap, &speechless, &signature, &code)?.expect_mute(1)?;
    for grammar in grammars::OTHERS {
        let other = make_language(heap, grammar)?;
        let trial = Trial::of_code(heap, &other, &signature, &code)?;
        trial.expect_refused(8, 0, SayFault::OtherSignature)?;
        trial.expect_refused(2, 3, SayFault::OtherSignature)?;
    }
    Ok(())
}
