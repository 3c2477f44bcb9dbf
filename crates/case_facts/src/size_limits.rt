//! Facts about size limits: a graph with the maximum number of objects, and a pack of the maximum
//! size.

use crate::formatting::{format_fault, format_fault_at};
use case_text::{Fact, Trouble, parse_number};
use ggraph::{Entry, Graph, Indexer, Kind, Node, PackFault, Packer, Parents, PlainPack};
use gname::{Format, Oid};
use std::alloc::Global;

// The maximum number of parents of a commit.
const MAX_PARENTS: usize = 64;

/// Returns the result of adding commits to a graph, or of packing commits. The fact's text states
/// the number of commits to add. For a pack, the text states the number of commits with 64 parents,
/// and the number of parents of one more commit.
pub(crate) fn actual_result(alloc: Global, fact: &Fact<'_>) -> Result<String, Trouble> {
    let mut words = fact.text.split(|byte| *byte == b' ');
    let count = parse_number(words.next().unwrap_or(b""));
    let parents = parse_number(words.next().unwrap_or(b""));
    match fact.keyword {
        "grown" => grow_graph(alloc, fact.format, count),
        _ => pack_size(
            alloc,
            wide_commits(alloc, fact.format, count, parents)?.as_slice(),
        ),
    }
}

// Adds commits to a graph, one by one. Returns the final number of objects, or the first fault and
// the number of objects added before that fault.
fn grow_graph(alloc: Global, format: Format, count: usize) -> Result<String, Trouble> {
    let mut graph = Graph::new_in(alloc, format);
    for number in 0..count {
        let commit = commit(alloc, format, number, 0)?;
        if let Err(fault) = graph.insert(commit) {
            return format_fault_at(alloc, fault.code(), fault.name(), "after", graph.len());
        }
    }
    let count = graph.len();
    Ok(format!(in alloc; "ok {count}")?)
}

// Returns the size in bytes of a pack of the commits. The pack must parse to one entry per commit.
fn pack_size(alloc: Global, commits: &[Entry]) -> Result<String, Trouble> {
    let pack = match PlainPack.pack(alloc, commits) {
        Ok(pack) => pack,
        Err(PackFault::TooLarge) => return format_fault(alloc, 65, "TooLarge"),
        Err(fault) => return format_fault(alloc, fault.code(), fault.name()),
    };
    let length = pack.len();
    match PlainPack.index(alloc, pack.as_slice()) {
        Ok(entries) if entries.len() == commits.len() => Ok(format!(in alloc; "ok {length}")?),
        Ok(_) => Ok(String::from_str(alloc, "another list")?),
        Err(fault) => format_fault(alloc, fault.code(), fault.name()),
    }
}

// Returns `count` commits with 64 parents each, and one commit with `parents` parents.
fn wide_commits(
    alloc: Global,
    format: Format,
    count: usize,
    parents: usize,
) -> Result<Vec<Entry>, Trouble> {
    let mut commits = Vec::new(alloc);
    for number in 0..count {
        commits.push(commit(alloc, format, number, MAX_PARENTS)?)?;
    }
    commits.push(commit(alloc, format, count, parents)?)?;
    Ok(commits)
}

// Returns the commit with this number. The parents of the commit have the next `count` numbers.
fn commit(alloc: Global, format: Format, number: usize, count: usize) -> Result<Entry, Trouble> {
    let mut parents = Parents::new(alloc);
    for offset in 1..=count {
        parents.push(id_of_number(format, number.wrapping_add(offset))?)?;
    }
    Ok(Entry {
        id: id_of_number(format, number)?,
        node: Node {
            kind: Kind::Commit,
            parents,
        },
    })
}

// Returns an id whose first eight bytes are `number` in big-endian order.
fn id_of_number(format: Format, number: usize) -> Result<Oid, Trouble> {
    let mut bytes = [0; 32];
    bytes[..8].copy_from_slice(&number.to_be_bytes());
    let length = match format {
        Format::Sha1 => 20,
        Format::Sha256 => 32,
    };
    match Oid::from_bytes(&bytes[..length]) {
        Some(id) => Ok(id),
        None => Err(Trouble::InvalidId),
    }
}
