//! Loading of a repository text.

ghost use Rattle.std.specs.Prelude.{◌≡◌, ◌++◌, ◌≤◌, MatchOption, IfOk, IfErr};
ghost use Rattle.gobject.specs.PlainPackText.{IsInLine, line};
ghost use Rattle.gdag.specs.Graphs.{max_nodes};
ghost use Rattle.ggraph.specs.Loading.{AcceptsText, StopsAt};
ghost use Rattle.ggraph.specs.RepositoryText.{IsLoadable, repository_text};

use crate::fault::LoadFault;
use crate::text::laws::text_laws;
use crate::text::parts::Room;
use crate::text::reading::{Reading, TextStage};
use crate::text::{Order, Repository};
use gdag::{Graph, MAX_NODES};
use grefs::{Head, Refs};
use memchr::{memchr, memchr_iter};
use std::alloc::Allocator;

// `load` counts the lines in at most this many bytes at the beginning of a text, to estimate the
// number of nodes.
const SAMPLE: usize = 65_536;

// The minimum length in bytes of a node's line: a letter, a space, the 40 digits of an id, and an
// LF.
const SHORTEST_NODE: usize = 43;

/// Reads the text of a repository. The first line names the format of all ids.
///
/// Fails with `Text` at the first line that breaks a rule of the format or exceeds a limit, or if
/// the text ends early. Under `Order::ParentsFirst`, fails with `ParentLater` at the first line
/// with a parent that is not on an earlier line. If both faults apply, the call reports the fault
/// at the earlier line, or `Text` if both are at the same line. Fails with `Memory` only at a valid
/// line of a node, a ref, or a symbolic HEAD.
pub fn load<A: Allocator + Copy>(
    alloc: A,
    text: &[u8],
    order: Order,
) -> Result<Repository<A>, LoadFault>
    ensures ok { IfOk result (λ it.
        (text.now ≡ repository_text it.graph it.refs it.head)
        × IsLoadable order it.graph it.refs it.head) }
    ensures refused { IfErr result (StopsAt A order text.now) }
    ensures accepts { AcceptsText A order text.now result }
{
    // The proof uses these laws.
    text_laws();
    let mut reading = Reading::new(alloc);
    let mut room = Room::new(expected_nodes(text));
    let mut rest = text;
    let mut number = 1;
    while let Some(pair) = split_line(rest) {
        reading.take_line(&mut room, order, pair.0, number)?;
        rest = pair.1;
        number += 1;
    }
    if !rest.is_empty() || reading.stage != TextStage::Done {
        return Err(LoadFault::Text { line: number });
    }
    Ok(Repository {
        graph: reading.graph,
        refs: reading.refs,
        head: reading.head,
    })
}

// Estimates the number of nodes from a prefix of the text. The estimate is at most `MAX_NODES`, and
// at most the number of nodes for which the text is long enough.
fn expected_nodes(text: &[u8]) -> usize
    ensures { result ≤ max_nodes }
{
    let front = &text[..text.len().min(SAMPLE)];
    let lines = memchr_iter(b'\n', front).count();
    let expected = lines.saturating_mul(text.len().div_ceil(SAMPLE));
    expected.min(text.len() / SHORTEST_NODE).min(MAX_NODES)
}

// Returns the first line without its LF, and the text after the LF, or `None` if the text has no
// LF.
fn split_line(text: &[u8]) -> Option<(&[u8], &[u8])>
    ensures { MatchOption result (IsInLine text.now) (λ pair.
        (text.now ≡ line pair.0.now ++ pair.1.now) × IsInLine pair.0.now) }
{
    match memchr(b'\n', text) {
        Some(end) => Some((&text[..end], &text[end + 1..])),
        None => None,
    }
}
