//! Facts about searches in a repository's history. The names of these facts are `missing`,
//! `counted`, `sent`, `sent-tags`, `sent-count`, `common`, `ready`, `reaches`, `offered` and
//! `peeled`. A slash separates lists of ids, and `none` means no id.

use crate::checking::RefusedAllocation;
use crate::formatting::format_fault;
use crate::repository_text::load_text;
use case_text::{Fact, Trouble, id_text, parse_number};
use ggraph::{
    Count, Entry, Graph, GraphFault, Order, Refs, Repository, common_ids, haves, missing,
    missing_counted, reaches, ready, send_list, send_list_tags,
};
use gname::{Format, Oid};
use std::alloc::{Allocator, Global};

/// The arguments of a search: two lists of ids and a number.
#[derive(Drop)]
pub(crate) struct SearchArguments {
    pub(crate) first_ids: Vec<Oid>,
    pub(crate) second_ids: Vec<Oid>,
    pub(crate) count: usize,
}

// The result of a search.
#[derive(Drop)]
enum SearchResult<A: Allocator + Copy> {
    Ids(Vec<Oid, A>),
    Entries(Vec<Entry<A>, A>),
    Id(Option<Oid>),
    IdAndCount(Option<Oid>, Count),
    Number(usize),
    YesNo(bool),
}

/// Returns the result of a fact's search in the repository with this text. `refusal` states which
/// allocation of the search to refuse, if any.
pub(crate) fn actual_result<A: Allocator + Copy>(
    alloc: Global,
    tested_alloc: A,
    fact: &Fact<'_>,
    repository_text: &[u8],
    refusal: RefusedAllocation<'_>,
) -> Result<String, Trouble> {
    match load_text(tested_alloc, repository_text, Order::Any) {
        Ok(repository) => search_repository(alloc, fact, &repository, refusal),
        Err(_) => Err(Trouble::InvalidGraph),
    }
}

fn search_repository<A: Allocator + Copy>(
    alloc: Global,
    fact: &Fact<'_>,
    repository: &Repository<A>,
    refusal: RefusedAllocation<'_>,
) -> Result<String, Trouble> {
    let arguments = parse_arguments(alloc, fact.text.as_slice())?;
    refusal.start_counting();
    match search(
        &repository.graph,
        &repository.refs,
        fact.keyword,
        &arguments,
    ) {
        Ok(search_result) => format_result(alloc, &search_result),
        Err(fault) => format_fault(alloc, fault.code(), fault.name()),
    }
}

/// Parses two lists of ids and a number, separated by `/`.
pub(crate) fn parse_arguments(alloc: Global, text: &[u8]) -> Result<SearchArguments, Trouble> {
    let mut parts = text.split(|byte| *byte == b'/');
    let first_ids = parse_ids(alloc, parts.next().unwrap_or(b""))?;
    let second_ids = parse_ids(alloc, parts.next().unwrap_or(b""))?;
    let count = parse_number(parts.next().unwrap_or(b""));
    Ok(SearchArguments {
        first_ids,
        second_ids,
        count,
    })
}

fn parse_ids(alloc: Global, text: &[u8]) -> Result<Vec<Oid>, Trouble> {
    let mut ids = Vec::new(alloc);
    for word in text.split(|byte| *byte == b' ') {
        if !word.is_empty() {
            ids.push(parse_id(word)?)?;
        }
    }
    Ok(ids)
}

fn parse_id(text: &[u8]) -> Result<Oid, Trouble> {
    let format = if text.len() == Format::Sha256.id_text_length() {
        Format::Sha256
    } else {
        Format::Sha1
    };
    match Oid::from_hex_in(format, text) {
        Ok(id) => Ok(id),
        Err(_) => Err(Trouble::InvalidId),
    }
}

fn search<A: Allocator + Copy>(
    graph: &Graph<A>,
    refs: &Refs<A>,
    keyword: &str,
    arguments: &SearchArguments,
) -> Result<SearchResult<A>, GraphFault> {
    let first_ids = arguments.first_ids.as_slice();
    let second_ids = arguments.second_ids.as_slice();
    match keyword {
        "missing" => find_missing(graph, first_ids),
        "counted" => find_missing_and_count(graph, first_ids),
        "sent" => find_objects_to_send(graph, first_ids, second_ids),
        "sent-count" => count_objects_to_send(graph, first_ids, second_ids),
        "sent-tags" => find_objects_to_send_with_tags(graph, (first_ids, second_ids), refs),
        "common" => find_common_ids(graph, first_ids),
        "ready" => check_ready(graph, first_ids, second_ids),
        "offered" => find_haves(graph, first_ids, second_ids, arguments.count),
        "reaches" => check_reach(graph, first_ids),
        _ => Ok(peel_single_id(graph, first_ids)),
    }
}

fn find_missing<A: Allocator + Copy>(
    graph: &Graph<A>,
    ids: &[Oid],
) -> Result<SearchResult<A>, GraphFault> {
    Ok(SearchResult::Id(missing(graph, ids)?))
}

fn find_missing_and_count<A: Allocator + Copy>(
    graph: &Graph<A>,
    ids: &[Oid],
) -> Result<SearchResult<A>, GraphFault> {
    let (missing, count) = missing_counted(graph, ids)?;
    Ok(SearchResult::IdAndCount(missing, count))
}

fn find_objects_to_send<A: Allocator + Copy>(
    graph: &Graph<A>,
    wants: &[Oid],
    commons: &[Oid],
) -> Result<SearchResult<A>, GraphFault> {
    Ok(SearchResult::Entries(send_list(graph, wants, commons)?))
}

fn count_objects_to_send<A: Allocator + Copy>(
    graph: &Graph<A>,
    wants: &[Oid],
    commons: &[Oid],
) -> Result<SearchResult<A>, GraphFault> {
    Ok(SearchResult::Number(send_list(graph, wants, commons)?.len()))
}

fn find_objects_to_send_with_tags<A: Allocator + Copy>(
    graph: &Graph<A>,
    (wants, commons): (&[Oid], &[Oid]),
    refs: &Refs<A>,
) -> Result<SearchResult<A>, GraphFault> {
    Ok(SearchResult::Entries(send_list_tags(graph, wants, commons, refs)?))
}

fn find_common_ids<A: Allocator + Copy>(
    graph: &Graph<A>,
    haves: &[Oid],
) -> Result<SearchResult<A>, GraphFault> {
    Ok(SearchResult::Ids(common_ids(graph, haves)?))
}

fn check_ready<A: Allocator + Copy>(
    graph: &Graph<A>,
    wants: &[Oid],
    commons: &[Oid],
) -> Result<SearchResult<A>, GraphFault> {
    Ok(SearchResult::YesNo(ready(graph, wants, commons)?))
}

fn find_haves<A: Allocator + Copy>(
    graph: &Graph<A>,
    tips: &[Oid],
    commons: &[Oid],
    count: usize,
) -> Result<SearchResult<A>, GraphFault> {
    Ok(SearchResult::Ids(haves(graph, tips, commons, &[], count)?))
}

// Returns whether the first of the two ids reaches the second. If the list does not have exactly
// two ids, the result is `none`.
fn check_reach<A: Allocator + Copy>(
    graph: &Graph<A>,
    ids: &[Oid],
) -> Result<SearchResult<A>, GraphFault> {
    match ids {
        [from, to] => Ok(SearchResult::YesNo(reaches(graph, from, to)?)),
        _ => Ok(SearchResult::Id(None)),
    }
}

// Returns the id to which the id in `ids` peels. If `ids` does not have exactly one id, the result
// is `no`.
fn peel_single_id<A: Allocator + Copy>(graph: &Graph<A>, ids: &[Oid]) -> SearchResult<A> {
    match ids {
        [id] => SearchResult::Id(graph.peel(id)),
        _ => SearchResult::YesNo(false),
    }
}

fn format_result<A: Allocator + Copy>(
    alloc: Global,
    search_result: &SearchResult<A>,
) -> Result<String, Trouble> {
    match search_result {
        SearchResult::Ids(ids) => format_ids(alloc, ids.as_slice()),
        SearchResult::Entries(entries) => format_entry_ids(alloc, entries.as_slice()),
        SearchResult::Id(id) => format_id_or_none(alloc, *id),
        SearchResult::IdAndCount(missing, count) => format_missing_and_count(
            alloc, *missing, *count,
        ),
        SearchResult::Number(count) => Ok(format!(in alloc; "{count}")?),
        SearchResult::YesNo(answer) => Ok(String::from_str(
            alloc,
            if *answer { "yes" } else { "no" },
        )?),
    }
}

fn format_entry_ids<A: Allocator + Copy>(
    alloc: Global,
    entries: &[Entry<A>],
) -> Result<String, Trouble> {
    let mut ids = Vec::new(alloc);
    for entry in entries {
        ids.push(entry.id)?;
    }
    format_ids(alloc, ids.as_slice())
}

/// Formats a list of ids, or `none` for an empty list.
pub(crate) fn format_ids(alloc: Global, ids: &[Oid]) -> Result<String, Trouble> {
    if ids.is_empty() {
        return format_id_or_none(alloc, None);
    }
    let mut text = String::new(alloc);
    for id in ids {
        if !text.is_empty() {
            text.push(' ')?;
        }
        text.push_str(id_text(alloc, id)?.as_str())?;
    }
    Ok(text)
}

/// Formats an id, or `none`.
pub(crate) fn format_id_or_none(alloc: Global, id: Option<Oid>) -> Result<String, Trouble> {
    match id {
        Some(id) => id_text(alloc, &id),
        None => Ok(String::from_str(alloc, "none")?),
    }
}

/// Formats a missing id, the number of visited ids and the number of visited parents.
pub(crate) fn format_missing_and_count(
    alloc: Global,
    missing: Option<Oid>,
    count: Count,
) -> Result<String, Trouble> {
    let missing = format_id_or_none(alloc, missing)?;
    let missing = missing.as_str();
    let ids = count.ids;
    let parents = count.parents;
    Ok(format!(in alloc; "{missing} ids {ids} parents {parents}")?)
}
