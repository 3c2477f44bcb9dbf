//! The check of one fact. `actual_result` calls the function that the fact tests, and returns the
//! actual result.

use crate::{client_objects, history, parsing, printed_faults, size_limits};
use case_text::{Fact, FactKind, RefusingAllocator, Trouble};
use std::alloc::{Allocator, Global};

/// The limits of a check: the maximum number of bytes in one read or write, and the allocation to
/// refuse.
#[derive(Clone, Copy)]
pub struct Limits {
    /// The maximum number of bytes in one read or write.
    pub max_per_call: usize,
    /// The number of the allocation to refuse, counted from 1. The number 0 refuses no allocation.
    pub refused_allocation: u64,
}

/// The actual result for a fact.
#[derive(Drop)]
pub struct ActualResult {
    /// The result, in the form used in test files.
    pub text: String,
    /// Whether the run reached the allocation to refuse.
    pub was_refused: bool,
}

/// The allocation to refuse. `number` is its number, counted from 1 after the call to
/// `start_counting`.
#[derive(Clone, Copy)]
pub(crate) struct RefusedAllocation<'m> {
    refusing_alloc: &'m RefusingAllocator<Global>,
    number: u64,
}

impl RefusedAllocation<'_> {
    /// Starts the count of allocations, so that the chosen allocation is refused.
    pub(crate) fn start_counting(self) {
        self.refusing_alloc.refuse_allocation(self.number);
    }
}

/// Returns the actual result for a fact. For a fact about a history or a client, `graph` is the
/// text of the repository.
pub fn actual_result(
    alloc: Global,
    fact: &Fact<'_>,
    graph: &[u8],
    limits: Limits,
) -> Result<ActualResult, Trouble> {
    let tested_alloc = RefusingAllocator::new(alloc);
    let parameters = CheckParameters {
        alloc,
        refusal: RefusedAllocation {
            refusing_alloc: &tested_alloc,
            number: limits.refused_allocation,
        },
        max_per_call: limits.max_per_call,
    };
    let text = find_result(parameters, &tested_alloc, fact, graph)?;
    Ok(ActualResult {
        text,
        was_refused: !tested_alloc.awaits_refusal(),
    })
}

// The parameters of a check.
#[derive(Clone, Copy)]
struct CheckParameters<'m> {
    alloc: Global,
    refusal: RefusedAllocation<'m>,
    max_per_call: usize,
}

fn find_result<A: Allocator + Copy>(
    parameters: CheckParameters<'_>,
    tested_alloc: A,
    fact: &Fact<'_>,
    graph: &[u8],
) -> Result<String, Trouble> {
    match fact.kind {
        FactKind::HistorySearch => history::actual_result(
            parameters.alloc,
            tested_alloc,
            fact,
            graph,
            parameters.refusal,
        ),
        FactKind::ClientObjects => client_objects::actual_result(
            parameters.alloc,
            tested_alloc,
            fact,
            graph,
            parameters.refusal,
        ),
        _ => {
            parameters.refusal.start_counting();
            result_of_text(parameters, tested_alloc, fact)
        }
    }
}

fn result_of_text<A: Allocator + Copy>(
    parameters: CheckParameters<'_>,
    tested_alloc: A,
    fact: &Fact<'_>,
) -> Result<String, Trouble> {
    match fact.kind {
        FactKind::PrintedFault => printed_faults::actual_result(parameters.alloc, fact),
        FactKind::SizeLimits => size_limits::actual_result(parameters.alloc, fact),
        _ => parsing::actual_result(
            parameters.alloc,
            tested_alloc,
            fact,
            parameters.max_per_call,
        ),
    }
}
