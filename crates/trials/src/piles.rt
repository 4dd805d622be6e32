// What layers answer when they are piled over the notation of a small port.
use calls::samples::small_port;
use grammar::language::Language;
use grammar::signature::SignatureTable;
use grammar::symbol::{RuleForm, RuleKey, Symbol};
use layers::either::Either;
use layers::hiding::Hiding;
use layers::small_letters::SmallLetters;
use notation::Notation;
use std::test::Fail;

const ZERO: [u8; 3] = [0, 0, 0];

// The key of a function's rule at the forms.
fn key(function: u8, forms: [u8; 3]) -> RuleKey {
    RuleKey { function, forms }
}

// The notation of the small port.
fn port_notation() -> Result<Notation, Fail> {
    Ok(Notation::of_signature(small_port()).ok_or("the signature is refused")?)
}

#[test]
fn words_of_a_notation(rt: HostRuntime) -> Result<(), Fail> {
    let small = SmallLetters {
        below: port_notation()?,
    };
    assert_eq!(rt; small.words(), 7);
    assert_eq!(rt; small.word_length(3), Some(2));
    assert_eq!(rt; small.word_byte(3, 0), Some(b'f'));
    assert_eq!(rt; small.word_byte(3, 1), Some(b'3'));
    assert_eq!(rt; small.word_byte(4, 0), Some(b'('));
    assert_eq!(rt; small.word_byte(5, 0), Some(b')'));
    assert_eq!(rt; small.word_byte(6, 0), Some(b','));
    assert_eq!(rt; small.word_byte(6, 1), None);
    assert_eq!(rt; small.word_length(7), None);
    Ok(())
}

#[test]
fn rules_of_a_notation(rt: HostRuntime) -> Result<(), Fail> {
    let notation = port_notation()?;
    assert_eq!(rt; notation.sequence_length(key(0, ZERO), 0), Some(4));
    assert_eq!(rt; notation.symbol(key(0, ZERO), 0, 1), Some(Symbol::Word(4)));
    assert_eq!(rt;
        notation.symbol(key(0, ZERO), 0, 2),
        Some(Symbol::Reference {
            argument: 0,
            constituent: 0,
        })
    );
    assert_eq!(rt; notation.sequence_length(key(0, ZERO), 1), None);
    assert_eq!(rt; notation.rule(key(0, [7, 0, 0])), Some(RuleForm::Missing));
    assert_eq!(rt; notation.rule(key(0, [8, 0, 0])), None);
    assert_eq!(rt; notation.rule(key(1, [1, 0, 0])), None);
    assert_eq!(rt; notation.rule(key(4, ZERO)), None);
    Ok(())
}

#[test]
fn no_notation_without_functions(rt: HostRuntime) {
    assert!(rt; Notation::of_signature(SignatureTable::new(2, 0)).is_none());
}

#[test]
fn hidden_function(rt: HostRuntime) -> Result<(), Fail> {
    let mut hiding = Hiding::new(SmallLetters {
        below: port_notation()?,
    });
    assert!(rt; hiding.hide(2) && !hiding.hide(64));
    let language: Either<Notation, Hiding<SmallLetters<Notation>>> = Either::Second(hiding);
    assert_eq!(rt; language.rule(key(1, ZERO)), Some(RuleForm::Form(0)));
    assert_eq!(rt; language.rule(key(2, ZERO)), Some(RuleForm::Missing));
    assert_eq!(rt; language.rule(key(2, [1, 0, 0])), None);
    assert_eq!(rt; language.sequence_length(key(2, ZERO), 0), None);
    assert_eq!(rt;
        Notation::of(&language).rule(key(2, ZERO)),
        Some(RuleForm::Form(0))
    );
    Ok(())
}
