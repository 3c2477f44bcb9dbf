//! Facts about the objects that a client marks as connected, because its refs reach them. A `known`
//! fact states the ids of the marked objects. An `unheld` or `counted-past` fact states a missing
//! id in the ancestry of the given ids, or `none`. A `counted-past` fact also counts the visited
//! objects. A slash separates lists of ids, and the last list holds the ids of the refs.

use crate::checking::RefusedAllocation;
use crate::formatting::format_fault;
use crate::history::{
    SearchArguments, format_id_or_none, format_ids, format_missing_and_count, parse_arguments,
};
use crate::repository_text::load_text;
use case_text::{Fact, Trouble, add_padded_number};
use gclient::{Repo, RepoFault};
use ggraph::{Count, Graph, GraphFault, Order, Refs, missing_known};
use gname::{Oid, RefName};
use std::alloc::{Allocator, Global};

/// Makes the call that a fact describes, on a client with the graph of this repository text.
/// Returns the actual result of the call. `refusal` states which allocation of the client to
/// refuse, if any.
pub(crate) fn actual_result<A: Allocator + Copy>(
    alloc: Global,
    tested_alloc: A,
    fact: &Fact<'_>,
    repository_text: &[u8],
    refusal: RefusedAllocation<'_>,
) -> Result<String, Trouble> {
    match load_text(tested_alloc, repository_text, Order::Any) {
        Ok(repository) => query_repository(alloc, tested_alloc, fact, repository.graph, refusal),
        Err(_) => Err(Trouble::InvalidGraph),
    }
}

fn query_repository<A: Allocator + Copy>(
    alloc: Global,
    tested_alloc: A,
    fact: &Fact<'_>,
    graph: Graph<A>,
    refusal: RefusedAllocation<'_>,
) -> Result<String, Trouble> {
    let arguments = parse_arguments(alloc, fact.text.as_slice())?;
    let refs = refs_to(alloc, tested_alloc, ref_targets(&arguments, fact.keyword))?;
    refusal.start_counting();
    let repo = open_repo(graph, refs);
    query_opened(alloc, &repo, fact.keyword, arguments.first_ids.as_slice())
}

fn open_repo<A: Allocator + Copy>(graph: Graph<A>, refs: Refs<A>) -> Result<Repo<A>, RepoFault<A>> {
    Repo::new(graph, refs)
}

// Returns the ids that the client's refs point to.
fn ref_targets<'b>(arguments: &'b SearchArguments, keyword: &str) -> &'b [Oid] {
    if keyword == "known" {
        arguments.first_ids.as_slice()
    } else {
        arguments.second_ids.as_slice()
    }
}

// Returns one ref for each id.
fn refs_to<A: Allocator + Copy>(
    alloc: Global,
    tested_alloc: A,
    tips: &[Oid],
) -> Result<Refs<A>, Trouble> {
    let mut refs = Refs::new(tested_alloc);
    for (index, tip) in tips.iter().enumerate() {
        let mut name = Vec::from_slice(alloc, b"refs/heads/")?;
        add_padded_number(alloc, 4, index, &mut name)?;
        let Ok(name) = RefName::new(tested_alloc, name.as_slice()) else {
            return Err(Trouble::UnknownName);
        };
        if refs.set(name, *tip).is_err() {
            return Err(Trouble::InvalidGraph);
        }
    }
    Ok(refs)
}

fn query_opened<A: Allocator + Copy>(
    alloc: Global,
    repo: &Result<Repo<A>, RepoFault<A>>,
    keyword: &str,
    ids: &[Oid],
) -> Result<String, Trouble> {
    match repo {
        Ok(repo) => query_client(alloc, repo, keyword, ids),
        Err(fault) => format_fault(alloc, fault.code(), fault.name()),
    }
}

fn query_client<A: Allocator + Copy>(
    alloc: Global,
    repo: &Repo<A>,
    keyword: &str,
    ids: &[Oid],
) -> Result<String, Trouble> {
    match keyword {
        "known" => format_ids(alloc, marked_ids(alloc, repo)?.as_slice()),
        "unheld" => match repo.missing(ids) {
            Ok(missing) => format_id_or_none(alloc, missing),
            Err(fault) => format_fault(alloc, fault.code(), fault.name()),
        },
        _ => match missing_and_count(repo, ids) {
            Ok((missing, count)) => format_missing_and_count(alloc, missing, count),
            Err(fault) => format_fault(alloc, fault.code(), fault.name()),
        },
    }
}

// Returns the ids of the marked objects, in the order in which the objects were added.
fn marked_ids<A: Allocator + Copy>(alloc: Global, repo: &Repo<A>) -> Result<Vec<Oid>, Trouble> {
    let mut ids = Vec::new(alloc);
    for index in 0..repo.graph().len() {
        match repo.graph().at(index) {
            Some((id, _)) if repo.marks().is_marked(index) => ids.push(*id)?,
            _ => {}
        }
    }
    Ok(ids)
}

// Searches the ancestry of `ids` for an id that the graph lacks, without walking past marked
// objects. Returns the missing id, if any, and the counts of visited objects.
fn missing_and_count<A: Allocator + Copy>(
    repo: &Repo<A>,
    ids: &[Oid],
) -> Result<(Option<Oid>, Count), GraphFault> {
    // This call makes laws of the repository available to the proof.
    repo.laws();
    missing_known(repo.graph(), ids, repo.marks())
}
