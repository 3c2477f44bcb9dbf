//! Formatting of faults for test files.

use case_text::Trouble;
use std::alloc::Global;

/// Formats a fault as its number and its name.
pub(crate) fn format_fault(alloc: Global, code: u32, name: &str) -> Result<String, Trouble> {
    Ok(format!(in alloc; "{code} {name}")?)
}

/// Formats a fault as its number, its name and its position.
pub(crate) fn format_fault_at(
    alloc: Global,
    code: u32,
    name: &str,
    position_name: &str,
    position: usize,
) -> Result<String, Trouble> {
    Ok(format!(in alloc; "{code} {name} {position_name} {position}")?)
}
