//! Tests of URLs that a user enters, and of paths that a client requests.

use crate::answers::{OUT_OF_MEMORY, SUCCESS};
use crate::trouble::Trouble;
use gitwords::{Ending, GitUrl, ServedPath};
use std::alloc::{AllocError, Allocator, Global};

// The result for a path that cannot name a served repository.
const NONE: &str = "none";

/// Returns the result of parsing a URL: `ok`, the host, the port and the path, or the fault.
pub(crate) fn url_result(alloc: Global, text: &[u8]) -> Result<String, Trouble> {
    let Ok(text) = str::from_utf8(text) else {
        return Err(Trouble::NotUtf8);
    };
    let result = match GitUrl::parse(text) {
        Ok(GitUrl { host, port, path }) => format!(in alloc; "{SUCCESS} {host} {port} {path}"),
        Err(fault) => format!(in alloc; "{fault}"),
    };
    result.map_err(Trouble::from)
}

/// Returns the result of parsing a client's path: `none`, or `ok` and the last directory that the
/// server would try below its base directory.
pub(crate) fn served_path_result<A: Allocator + Copy>(
    alloc: Global,
    tested_alloc: A,
    text: &[u8],
) -> Result<String, AllocError> {
    let path = match str::from_utf8(text) {
        Ok(text) => ServedPath::parse(text),
        Err(_) => None,
    };
    let Some(path) = path else {
        return String::from_str(alloc, NONE);
    };
    match path.candidate(tested_alloc, Ending::Bare) {
        Ok(candidate) => format!(in alloc; "{SUCCESS} {candidate}"),
        Err(_) => String::from_str(alloc, OUT_OF_MEMORY),
    }
}
