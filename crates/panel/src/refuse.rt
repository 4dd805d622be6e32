// Refusing on standard error.
use std::fmt::Display;

// Says why the panel refuses, and ends what it does with the error.
pub fn refuse<T, W: Display + Drop>(
    rt: &HostRuntime,
    why: W,
    error: anyhow::Error,
) -> anyhow::Result<T> {
    eprintln!(rt; "panel: {why}")?;
    Err(error)
}
