// An image from a file: what it states, or why it cannot be read.
use crate::refuse::refuse;
use crate::states::print_language;
use anyhow::anyhow;
use image::language::ImageLanguage;
use image::load::LoadFault;
use std::fs;

// Loads the image, or says on standard error why not. Program `port_trees` loads one too: no program rests on another.
pub fn load_image(rt: &HostRuntime, bytes: &[u8]) -> anyhow::Result<ImageLanguage> {
    let heap = rt.alloc();
    let mut language = ImageLanguage::new(heap)?;
    match language.load(heap, bytes) {
        Ok(()) => Ok(language),
        Err(LoadFault::Image(fault)) => refuse(rt, fault, anyhow!("the image is refused")),
        Err(LoadFault::Memory) => refuse(rt, "no memory for the image", anyhow!("no memory")),
    }
}

// Loads the image in a file, or says on standard error why not.
pub fn read_image(rt: &HostRuntime, path: &str) -> anyhow::Result<ImageLanguage> {
    match fs::read(rt, path) {
        Ok(bytes) => load_image(rt, bytes.as_slice()),
        Err(error) => refuse(
            rt,
            format_args!("cannot read {path}: {error}"),
            anyhow!("the file cannot be read"),
        ),
    }
}

// Prints what the image in the bytes states.
pub fn print_image(rt: &HostRuntime, bytes: &[u8]) -> anyhow::Result<()> {
    print_language(rt, &load_image(rt, bytes)?)?;
    Ok(())
}

// Prints what the image in a file states.
pub fn print_file(rt: &HostRuntime, path: &str) -> anyhow::Result<()> {
    print_language(rt, &read_image(rt, path)?)?;
    Ok(())
}
