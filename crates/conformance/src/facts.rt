//! Checks of facts. The text of a fact is read at once, then in pieces, and then with each
//! allocation refused in turn.

use crate::command_lines;
use crate::launches::launch_arguments;
use crate::tally::{Depth, Tally, print_trouble};
use case_facts::{ActualResult, Limits};
use case_launches::System;
use case_text::{Fact, FactKind, Script, Trouble};
use case_worlds::simulate_at_random;
use std::alloc::Global;
use std::io;

/// Checks a fact of the script's test files, and prints the first unexpected result, if any.
pub fn check_fact<R: System>(
    rt: &R,
    script: &Script<'_>,
    fact: &Fact<'_>,
    tally: &mut Tally,
) -> io::Result<()> {
    tally.count_fact();
    match first_wrong_result(rt.alloc(), script, fact, tally) {
        Ok(None) if fact.kind == FactKind::CommandLine => launch_command_line(
            rt, script, fact, tally,
        ),
        Ok(None) => Ok(()),
        Ok(Some(actual_result)) => print_wrong_fact(rt, fact, actual_result.as_str(), tally),
        Err(trouble) => print_trouble(rt, fact.file_name, fact.line_number, trouble, tally),
    }
}

fn launch_command_line<R: System>(
    rt: &R,
    script: &Script<'_>,
    fact: &Fact<'_>,
    tally: &mut Tally,
) -> io::Result<()> {
    tally.count_fact_run();
    match launch_arguments(rt, script, fact) {
        Ok(None) => Ok(()),
        Ok(Some(actual_result)) => print_wrong_fact(rt, fact, actual_result.as_str(), tally),
        Err(trouble) => print_trouble(rt, fact.file_name, fact.line_number, trouble, tally),
    }
}

fn print_wrong_fact<R: Print>(
    rt: &R,
    fact: &Fact<'_>,
    actual_result: &str,
    tally: &mut Tally,
) -> io::Result<()> {
    tally.count_failure();
    let file_name = fact.file_name;
    let line_number = fact.line_number;
    let keyword = fact.keyword;
    println!(rt; "{file_name}:{line_number}: {keyword} {actual_result}")
}

// The maximum length of a text that is also checked with refused allocations.
const LONG_TEXT_LEN: usize = 10_000;

// The maximum length of the text of a graph that is searched more than once.
const LONG_GRAPH_LEN: usize = 150_000;

// Returns the first unexpected result, if any. The text is read at once, then in pieces of one byte
// and of three bytes, and then with each allocation refused in turn.
fn first_wrong_result(
    alloc: Global,
    script: &Script<'_>,
    fact: &Fact<'_>,
    tally: &mut Tally,
) -> Result<Option<String>, Trouble> {
    let graph = script.text(fact.graph_name)?;
    let is_long = matches!(fact.kind, FactKind::RandomSimulation | FactKind::SizeLimits)
        || graph.len() > LONG_GRAPH_LEN;
    for max_per_call in [usize::MAX, 1, 3] {
        let actual_result = find_result(
            alloc,
            fact,
            graph,
            Limits {
                max_per_call,
                refused_allocation: 0,
            },
        )?;
        tally.count_fact_run();
        if actual_result.text.as_bytes() != fact.expected.as_slice() {
            return Ok(Some(actual_result.text));
        }
        if tally.depth == Depth::Once || is_long {
            return Ok(None);
        }
    }
    if fact.text.len() > LONG_TEXT_LEN {
        return Ok(None);
    }
    first_wrong_result_with_refusals(alloc, fact, graph, tally)
}

// Returns the first result that is neither the expected result nor an out-of-memory fault, if any.
// The first run refuses the first allocation, the second run the second, and so on.
fn first_wrong_result_with_refusals(
    alloc: Global,
    fact: &Fact<'_>,
    graph: &[u8],
    tally: &mut Tally,
) -> Result<Option<String>, Trouble> {
    for refused_allocation in 1..u64::MAX {
        let limits = Limits {
            max_per_call: usize::MAX,
            refused_allocation,
        };
        let actual_result = find_result(alloc, fact, graph, limits)?;
        tally.count_fact_run();
        let is_expected = actual_result.text.as_bytes() == fact.expected.as_slice();
        if !is_expected
            && !(actual_result.was_refused && actual_result.text.as_str().ends_with(" Memory"))
        {
            return Ok(Some(actual_result.text));
        }
        if !actual_result.was_refused {
            break;
        }
    }
    Ok(None)
}

fn find_result(
    alloc: Global,
    fact: &Fact<'_>,
    graph: &[u8],
    limits: Limits,
) -> Result<ActualResult, Trouble> {
    match fact.kind {
        FactKind::CommandLine => without_refusal(command_lines::parsed_command(
            alloc,
            fact.text.as_slice(),
        )),
        FactKind::RandomSimulation => without_refusal(simulate_at_random(alloc, fact, graph)),
        _ => case_facts::actual_result(alloc, fact, graph, limits),
    }
}

// Returns a result with this text, for a run without a refused allocation.
fn without_refusal(text: Result<String, Trouble>) -> Result<ActualResult, Trouble> {
    Ok(ActualResult {
        text: text?,
        was_refused: false,
    })
}
