// The command `say`: a tree, by the bytes of its code, in the language of an image from a file and in notation.
use crate::file::read_image;
use crate::print::print_text;
use crate::refuse::refuse;
use anyhow::anyhow;
use grammar::language::Language;
use grammar::signature::SignatureTable;
use linearizer::text::whole::text_of;
use notation::Notation;
use std::env::Args;
use tree::code::TreeCode;

// A byte in decimal, without a sign.
fn byte_of(text: &str) -> Option<u8> {
    if text.starts_with('+') {
        return None;
    }
    text.parse::<u8>().ok()
}

// The bytes of a code, or on standard error the first argument that is no byte.
fn read_code(rt: &HostRuntime, arguments: Args) -> anyhow::Result<Vec<u8>> {
    let mut code = Vec::new(rt.alloc());
    for argument in arguments {
        match byte_of(argument.as_str()) {
            Some(byte) => code.push(byte)?,
            None => {
                let why = format_args!("no byte 0 to 255: {argument}");
                return refuse(rt, why, anyhow!("an argument is no byte"));
            }
        }
    }
    Ok(code)
}

// The tree's text in a language, or the refusal on standard error.
fn say_in<L: Language>(
    rt: &HostRuntime,
    name: &str,
    tree: &TreeCode,
    language: &L,
) -> anyhow::Result<()> {
    match text_of(rt.alloc(), tree, language) {
        Ok(text) => Ok(print_text(rt, name, text.as_slice())?),
        Err(fault) => refuse(rt, fault, anyhow!("the tree is not said")),
    }
}

// The tree in the image of that path, by the bytes of its code.
pub fn run_say(rt: &HostRuntime, path: &str, arguments: Args) -> anyhow::Result<()> {
    let code = read_code(rt, arguments)?;
    let language = read_image(rt, path)?;
    let signature = SignatureTable::of(&language);
    match TreeCode::read(&signature, code.as_slice()) {
        Ok(tree) => {
            say_in(rt, "language", &tree, &language)?;
            say_in(rt, "notation", &tree, &Notation::of(&language))
        }
        Err(fault) => refuse(rt, fault, anyhow!("the code is refused")),
    }
}
