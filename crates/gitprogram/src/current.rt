//! The check whether all refs of a fetch are already up to date.

use crate::directory::Directories;
use gclient::{Ask, Asks, Fetched, RefUpdate, Settled, Spec};
use ggraph::Refs;
use gitobjects::{ObjectFiles, QuickReader, StoredFiles};
use gitrepository::{RepositoryFault, check_form};
use glsreply::{LsReply, RefLine};
use std::alloc::Global;
use std::rt::Files;

/// Returns the report of a fetch if each destination ref is already up to date and its object
/// exists. Returns `None` for any other fetch. This function does not read the history.
///
/// Fails if the repository cannot be opened.
pub(crate) fn fetched_already<R>(
    rt: &R,
    found: &Directories,
    specs: &[Spec<Global>],
    listed: &LsReply<Global>,
) -> Result<Option<Fetched<Global>>, RepositoryFault<Global>>
where
    R: Files + AllocGlobal,
{
    if listed.unborn().is_some() {
        return Ok(None);
    }
    let alloc = rt.alloc();
    let Some(asks) = asks_of(alloc, specs, listed)? else {
        return Ok(None);
    };
    let files = StoredFiles::new(rt);
    let path = found.common.as_str();
    check_form(&files, alloc, path)?;
    let (refs, _head) = found.refs(alloc, rt).read_refs()?;
    if are_current(&asks, &refs) && are_stored(alloc, &files, path, &asks)? {
        return Ok(Some(report_of(alloc, asks)?));
    }
    Ok(None)
}

// Returns the ref updates that the refspecs request, in the order in which a fetch applies them.
// Returns `None` if a destination is not a ref name.
fn asks_of(
    alloc: Global,
    specs: &[Spec<Global>],
    listed: &LsReply<Global>,
) -> Result<Option<Asks<Global>>, RepositoryFault<Global>> {
    let mut asks = Asks::new(alloc);
    for spec in specs {
        if !add_asks(alloc, &mut asks, spec, listed)? {
            return Ok(None);
        }
    }
    Ok(Some(asks))
}

// Adds a ref update for each listed ref that the refspec matches. Returns `false` if a destination
// is not a ref name.
fn add_asks(
    alloc: Global,
    asks: &mut Asks<Global>,
    spec: &Spec<Global>,
    listed: &LsReply<Global>,
) -> Result<bool, RepositoryFault<Global>> {
    for index in 0..listed.len() {
        if let Some(line) = listed.at(index) {
            if !add_ask(alloc, asks, spec, line)? {
                return Ok(false);
            }
        }
    }
    Ok(true)
}

// Adds the ref update for a server's ref, if the refspec matches the ref. Returns `false` if the
// destination is not a ref name.
fn add_ask(
    alloc: Global,
    asks: &mut Asks<Global>,
    spec: &Spec<Global>,
    line: &RefLine<Global>,
) -> Result<bool, RepositoryFault<Global>> {
    match spec.destination(alloc, &line.name) {
        Ok(Some(name)) => {
            asks.add(Ask {
                name,
                id: line.id,
                forced: spec.is_forced(),
            })?;
            Ok(true)
        }
        Ok(None) => Ok(true),
        Err(_) => Ok(false),
    }
}

// Returns whether each destination ref already has its requested id.
fn are_current(asks: &Asks<Global>, refs: &Refs<Global>) -> bool {
    (0..asks.len()).all(|index| match asks.at(index) {
        Some((name, id)) => refs.get(name) == Some(id),
        None => false,
    })
}

// Returns whether each requested object exists. Looks them up in ascending order of their ids,
// which is quickest.
fn are_stored<F: ObjectFiles>(
    alloc: Global,
    files: &F,
    path: &str,
    asks: &Asks<Global>,
) -> Result<bool, RepositoryFault<Global>> {
    let mut reader = QuickReader::open(files, alloc, path)?;
    let mut ids = asks.ids(alloc)?;
    ids.sort_unstable();
    ids.dedup();
    for id in &ids {
        if !reader.holds(id)? {
            return Ok(false);
        }
    }
    Ok(true)
}

// Returns the report of a fetch that changes no ref.
fn report_of(
    alloc: Global,
    asks: Asks<Global>,
) -> Result<Fetched<Global>, RepositoryFault<Global>> {
    let mut updates = Vec::new(alloc);
    updates.resize(asks.len(), RefUpdate::Same)?;
    Ok(Fetched {
        settled: Settled { asks, updates },
        requests: 0,
        unborn: None,
    })
}
