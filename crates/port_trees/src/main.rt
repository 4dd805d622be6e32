// What the languages of the built-in small port say of its trees: in both, in notation, in small letters, and with a function hidden.
#![tactic(auto)]

use anyhow::anyhow;
use calls::samples;
use grammar::language::Language;
use grammar::signature::SignatureTable;
use image::language::ImageLanguage;
use image::load::LoadFault;
use layers::hiding::Hiding;
use layers::small_letters::SmallLetters;
use linearizer::say::say;
use linearizer::text::whole::text_of;
use notation::Notation;
use port::images::{bridge_image, quay_image};
use std::io;
use std::io::Write;
use tree::code::TreeCode;

// The two languages of the small port: Q below small letters, and B below the hiding of f2.
#[derive(Drop)]
struct Port {
    quay: SmallLetters<ImageLanguage>,
    bridge: Hiding<ImageLanguage>,
}

// A tree, and where what is said of it is printed.
#[derive(Drop)]
struct Saying<'a> {
    rt: &'a HostRuntime,
    tree: TreeCode<'a>,
}

// The language of an image, or why there is none. Crate panel loads the like, and tells the fault: no program rests on another.
fn load_image(rt: &HostRuntime, bytes: &[u8]) -> anyhow::Result<ImageLanguage> {
    let heap = rt.alloc();
    let mut language = ImageLanguage::new(heap)?;
    match language.load(heap, bytes) {
        Ok(()) => Ok(language),
        Err(LoadFault::Image(_)) => Err(anyhow!("the image is refused")),
        Err(LoadFault::Memory) => Err(anyhow!("no memory")),
    }
}

impl Port {
    fn load(rt: &HostRuntime) -> anyhow::Result<Port> {
        let quay = SmallLetters {
            below: load_image(rt, &quay_image())?,
        };
        let mut bridge = Hiding::new(load_image(rt, &bridge_image())?);
        bridge.hide(2);
        Ok(Port { quay, bridge })
    }
}

impl<'a> Saying<'a> {
    // The tree's text in a language with its length, the bytes as they are; or the refusal. The panel prints the like, and no program rests on another.
    fn print_in<L: Language>(&self, name: &str, language: &L) -> io::Result<()> {
        match text_of(self.rt.alloc(), &self.tree, language) {
            Ok(text) => {
                let length = text.len();
                print!(self.rt; "    {name} ({length} bytes): ")?;
                self.rt.stdout().write_all(text.as_slice())?;
                println!(self.rt; "")
            }
            Err(fault) => println!(self.rt; "    {name}: {fault}"),
        }
    }

    // The tree in a language on a page of 16 bytes.
    fn print_on_short_page<L: Language>(&self, name: &str, language: &L) -> io::Result<()> {
        let mut page = [b'.'; 16];
        match say(&self.tree, language, &mut page, 0) {
            Ok(length) => println!(self.rt; "    {name} on a page of 16 bytes: {length} bytes"),
            Err(fault) => println!(self.rt; "    {name} on a page of 16 bytes: {fault}"),
        }
    }

    // The tree in every language of the small port, and on the short page.
    fn print_all(&self, port: &Port) -> io::Result<()> {
        self.print_in("Q", &port.quay.below)?;
        self.print_in("B", port.bridge.below())?;
        self.print_in("notation", &Notation::of(&port.bridge))?;
        self.print_in("Q in small letters", &port.quay)?;
        self.print_in("B without f2", &port.bridge)?;
        self.print_on_short_page("B", port.bridge.below())
    }
}

fn main(rt: HostRuntime) -> anyhow::Result<()> {
    let port = Port::load(&rt)?;
    let signature = samples::small_port();
    println!(rt; "Trees")?;
    for code in samples::TREES {
        println!(rt; "  tree {code:?}")?;
        match TreeCode::read(&signature, code) {
            Ok(tree) => Saying { rt: &rt, tree }.print_all(&port)?,
            Err(fault) => println!(rt; "    {fault}")?,
        }
    }
    Ok(())
}
