// The built-in small port: what its two languages state, and phrases, drafts and calls read.
use crate::file::print_image;
use crate::print::Reading;
use calls::samples;
use port::images::{bridge_image, quay_image};
use std::io;

// Phrases and drafts go through the walks, whole calls through all checks.
fn read_all(rt: &HostRuntime) -> io::Result<()> {
    let reading = Reading {
        rt,
        signature: samples::small_port(),
    };
    println!(rt; "Phrases")?;
    for phrase in samples::PHRASES {
        reading.print_phrase(phrase)?;
    }
    println!(rt; "Drafts")?;
    for (depth, code) in samples::DRAFTS {
        reading.print_draft(depth, code)?;
    }
    println!(rt; "Calls")?;
    for (depth, code, phrase) in samples::CALLS {
        reading.print_call(depth, code, phrase)?;
    }
    Ok(())
}

pub fn run_builtin(rt: &HostRuntime) -> anyhow::Result<()> {
    println!(rt; "Language Q")?;
    print_image(rt, &quay_image())?;
    println!(rt; "Language B")?;
    print_image(rt, &bridge_image())?;
    read_all(rt)?;
    Ok(())
}
