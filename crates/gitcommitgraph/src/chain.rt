//! The file `commit-graph-chain`, which lists the files of a chain.

ghost use Rattle.std.specs.Prelude.{◌≡◌, ◌≢◌, List, IfOk, MatchOption, take, drop};
ghost use Rattle.gname.specs.Ids.{Id};
ghost use Rattle.gitcommitgraph.specs.Chains.{IsChainText, IsLine};

use gname::Oid;
use gname::laws::texts_have_one_reading;
use std::alloc::{AllocError, Allocator};

// The number of hexadecimal digits of a SHA-1 id.
const DIGITS: usize = 40;

// The length in bytes of a line: an id and a line feed.
const LINE: usize = 41;

/// Parses the text of the file `commit-graph-chain` into the checksums of the files of the chain,
/// lowest file first. Returns `None` if the text is malformed. Fails only if out of memory.
pub fn parse_chain<A: Allocator + Copy>(
    alloc: A,
    text: &[u8],
) -> Result<Option<Vec<Oid, A>>, AllocError>
    ensures { IfOk result (λ found. MatchOption found ((ids : List Id) → ¬ IsChainText ids text.now)
        (λ ids. IsChainText ids.items text.now)) }
{
    let mut ids = Vec::new(alloc);
    let (lines, rest) = text.as_chunks::<LINE>();
    for line in lines {
        let Some(id) = read_line(line) else {
            return Ok(None);
        };
        ids.push(id)?;
    }
    if rest.is_empty() {
        Ok(Some(ids))
    } else {
        Ok(None)
    }
}

// Returns the id on the line, or `None` if the line is not an id and a line feed.
fn read_line(line: &[u8; LINE]) -> Option<Oid>
    ensures { MatchOption result ((id : Id) → ¬ IsLine id line.now) (λ id. IsLine id line.now) }
{
    // The proof uses this law.
    texts_have_one_reading();
    if line[DIGITS] != b'\n' {
        return None;
    }
    match Oid::from_hex(&line[..DIGITS]) {
        Ok(id) => Some(id),
        Err(_) => None,
    }
}
