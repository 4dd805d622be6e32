// The panel's program: it prints what an image from a file states, says a tree in its language, or works on the built-in small port.
#![tactic(auto)]

mod builtin;
mod command;
mod file;
mod print;
mod refuse;
mod states;

use builtin::run_builtin;
use command::run_say;
use file::print_file;
use std::env;

fn main(rt: HostRuntime) -> anyhow::Result<()> {
    let mut arguments = env::args(&rt)?;
    let _program = arguments.next();
    let Some(first) = arguments.next() else {
        return run_builtin(&rt);
    };
    match arguments.next() {
        Some(path) if first.as_str() == "say" => run_say(&rt, path.as_str(), arguments),
        _ => print_file(&rt, first.as_str()),
    }
}
