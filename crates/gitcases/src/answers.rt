//! The results of the tested crates, as texts.

use crate::arrivals::arrival_result;
use crate::locations::{served_path_result, url_result};
use crate::memory::memory_result;
use crate::ref_updates::{clone_result, reading_refs_result, ref_update_result};
use crate::replaced_files::ReplacedFiles;
use crate::row::{Row, RowCheck, TestedCall};
use crate::stores::{File, GIT_DIR, to_memory_files};
use crate::trouble::Trouble;
use gitobject::ObjectType;
use gitobjects::{Found, ObjectFiles, ObjectReader, ObjectStore, StoreFault};
use gitpack::{IndexedPack, ObjectVisitor, PackFileFault, index_pack};
use gname::Oid;
use std::alloc::{AllocError, Allocator, Global};
use std::rt::Files;

/// The text for a success.
pub(crate) const SUCCESS: &str = "ok";

/// The text for an out-of-memory fault.
pub(crate) const OUT_OF_MEMORY: &str = "out of memory";

/// The inputs of one test run: the call to test, the pack and the files of the store. After
/// `calls_before_replacement` calls to the file system, `replacement_files` replace `files`.
#[derive(Clone, Copy)]
pub(crate) struct RunInputs<'t, 'a> {
    pub(crate) row: &'t Row<'a>,
    pub(crate) check: &'t RowCheck,
    pub(crate) pack: &'t [u8],
    pub(crate) files: &'t [File],
    pub(crate) replacement_files: &'t [File],
    pub(crate) calls_before_replacement: u64,
}

/// A visitor that accepts all objects.
#[derive(Drop)]
struct AnyObject;

impl ObjectVisitor for AnyObject {
    fn visit(&mut self, _id: &Oid, _kind: ObjectType, _body: &[u8]) -> Result<(), PackFileFault> {
        Ok(())
    }
}

/// Returns the result of a test run, in which the tested crates allocate with `tested_alloc`.
pub(crate) fn actual_result<R: Files + AllocGlobal, A: Allocator + Copy>(
    rt: &R,
    tested_alloc: A,
    inputs: RunInputs<'_, '_>,
) -> Result<String, Trouble> {
    match inputs.check.tested_call {
        TestedCall::ReadRefs => reading_refs_result(rt, tested_alloc, inputs.files),
        TestedCall::UpdateRefs => ref_update_result(rt, tested_alloc, inputs),
        TestedCall::CloneRefs => clone_result(rt, inputs.row),
        TestedCall::ParseUrl => url_result(rt.alloc(), inputs.check.text.as_slice()),
        _ => result_in_memory(rt.alloc(), tested_alloc, inputs).map_err(Trouble::from),
    }
}

// Returns the result of a test run that uses no files on disk.
fn result_in_memory<A: Allocator + Copy>(
    alloc: Global,
    tested_alloc: A,
    inputs: RunInputs<'_, '_>,
) -> Result<String, AllocError> {
    match inputs.check.tested_call {
        TestedCall::IndexPack => index_result(alloc, tested_alloc, inputs.row, inputs.pack),
        TestedCall::ReceivePack => arrival_result(alloc, tested_alloc, inputs),
        TestedCall::ReceiveInMemory => memory_result(alloc, tested_alloc, inputs.pack),
        TestedCall::ParseServedPath => {
            served_path_result(alloc, tested_alloc, inputs.check.text.as_slice())
        }
        _ => reading_result(alloc, tested_alloc, inputs),
    }
}

// Indexes a pack. Returns `ok` and the number of objects, or the fault.
fn index_result<A: Allocator + Copy>(
    alloc: Global,
    tested_alloc: A,
    row: &Row<'_>,
    pack: &[u8],
) -> Result<String, AllocError> {
    match index_pack(tested_alloc, pack, row.limits, &mut AnyObject) {
        Ok(index) => format_index(alloc, &index, row.indexed_ids.as_slice()),
        Err(PackFileFault::Memory) => String::from_str(alloc, OUT_OF_MEMORY),
        Err(fault) => format!(in alloc; "{fault:?}"),
    }
}

// Returns `ok` and the number of objects in the index. Returns an error text if an id is not in the
// index.
fn format_index<A: Allocator + Copy>(
    alloc: Global,
    index: &IndexedPack<A>,
    ids: &[Oid],
) -> Result<String, AllocError> {
    for id in ids {
        if index.find(id).is_none() {
            return String::from_str(alloc, "an object is not in the index");
        }
    }
    let count = index.entries().len();
    format!(in alloc; "{SUCCESS} {count}")
}

// Opens the store, and reads an object if the check names one. Returns `ok` or the fault.
fn reading_result<A: Allocator + Copy>(
    alloc: Global,
    tested_alloc: A,
    inputs: RunInputs<'_, '_>,
) -> Result<String, AllocError> {
    match read_store(tested_alloc, inputs) {
        Ok(()) => String::from_str(alloc, SUCCESS),
        Err(fault) => format!(in alloc; "{fault}"),
    }
}

fn read_store<A: Allocator + Copy>(
    tested_alloc: A,
    inputs: RunInputs<'_, '_>,
) -> Result<(), StoreFault<A>> {
    let original = to_memory_files(tested_alloc, inputs.files)?;
    let replacement = to_memory_files(tested_alloc, inputs.replacement_files)?;
    let files = ReplacedFiles::new(&original, &replacement, inputs.calls_before_replacement);
    read_files(&files, tested_alloc, inputs.check)
}

fn read_files<F: ObjectFiles, A: Allocator + Copy>(
    files: &F,
    tested_alloc: A,
    check: &RowCheck,
) -> Result<(), StoreFault<A>> {
    let store = ObjectStore::open(files, tested_alloc, GIT_DIR)?;
    let Some(id) = check.id else {
        return Ok(());
    };
    let mut reader = ObjectReader::new(store)?;
    match check.tested_call {
        TestedCall::ReadRawEntry => read_raw(&mut reader, &id),
        _ => read_checked(&mut reader, &id),
    }
}

fn read_checked<F: ObjectFiles, A: Allocator + Copy>(
    reader: &mut ObjectReader<'_, F, A>,
    id: &Oid,
) -> Result<(), StoreFault<A>> {
    match reader.read_checked(id) {
        Ok(_) => Ok(()),
        Err(fault) => Err(fault),
    }
}

fn read_raw<F: ObjectFiles, A: Allocator + Copy>(
    reader: &mut ObjectReader<'_, F, A>,
    id: &Oid,
) -> Result<(), StoreFault<A>> {
    if let Some(Found::Packed { pack, place }) = reader.store().find(id)? {
        let _entry = reader.raw_entry(pack, place)?;
    }
    Ok(())
}
