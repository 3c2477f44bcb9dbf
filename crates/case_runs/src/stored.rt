//! A fetch of a client whose repository is in a file in memory. A chosen operation on the file
//! fails, or the run stops at that operation.

ghost use Rattle.std.specs.Prelude.{◌≡◌, IfOk};
ghost use Rattle.glockfile.specs.declared.storage.Lockfile.TheVariants.{Absent};

use crate::inputs::parse_specs;
use crate::program::{CommandRun, Devices, pack_limit_of};
use case_text::{Trouble, split_words};
use gcmd::{FetchOptions, Spec, cmd_failed, cmd_fetch_stored};
use glockfile::MemoryFile;
use gpkt::{Sink, Source};
use std::alloc::{Allocator, Global};

/// A problem with the client's file during a fetch.
#[derive(Clone, Copy, PartialEq, Eq)]
pub enum FileProblem {
    /// No operation fails.
    None,
    /// Another process holds the lock on the file.
    LockedByOther,
    /// The file operation with this number, counted from 1, fails.
    FailedCall(usize),
    /// The run stops before the file operation with this number: this operation and all later
    /// operations fail without effect.
    StopBefore(usize),
    /// The run stops after the file operation with this number: this operation takes effect but
    /// fails, and all later operations fail.
    StopAfter(usize),
}

/// The result of a fetch, and the client's file afterwards.
#[derive(Drop)]
pub struct StoredFetch {
    pub status: u8,
    pub file: MemoryFile<Global>,
    /// Whether the run reached the allocation to refuse.
    pub was_refused: bool,
}

/// Fetches with `PlainPack` into a file in memory that holds the client's repository.
pub fn fetch_into_stored_file<A: Allocator + Copy, I: Source, O: Sink, R: Sink, E: Sink>(
    run: &CommandRun<'_, '_, '_, A>,
    file_problem: FileProblem,
    devices: &mut Devices<I, O, R, E>,
) -> Result<StoredFetch, Trouble> {
    let arguments = split_words(run.tested_alloc, run.command.operands)?;
    let mut file = file_with_problem(run.alloc, run.repository_text, file_problem)?;
    run.refusing_alloc.refuse_allocation(run.refused_allocation);
    let status = match parse_specs(run.tested_alloc, arguments.as_slice()) {
        Ok(specs) => fetch_into_file(run, specs.as_slice(), &mut file, devices),
        Err(fault) => cmd_failed(fault, &mut devices.errors),
    };
    Ok(StoredFetch {
        status,
        file,
        was_refused: !run.refusing_alloc.awaits_refusal(),
    })
}

fn fetch_into_file<A: Allocator + Copy, I: Source, O: Sink, R: Sink, E: Sink>(
    run: &CommandRun<'_, '_, '_, A>,
    specs: &[Spec<A>],
    file: &mut MemoryFile<Global>,
    devices: &mut Devices<I, O, R, E>,
) -> u8
    requires { file.old.lockfile ≡ Absent }
{
    let fetch = FetchOptions {
        specs,
        limit: pack_limit_of(run.command.pack_limit),
        ends: run.command.reply_ends,
    };
    cmd_fetch_stored(
        run.tested_alloc,
        file,
        &fetch,
        &mut devices.input,
        &mut devices.output,
        &mut devices.errors,
    )
}

fn file_with_problem(
    alloc: Global,
    text: &[u8],
    file_problem: FileProblem,
) -> Result<MemoryFile<Global>, Trouble>
    ensures { IfOk result (λ file. file.lockfile ≡ Absent) }
{
    let Ok(file) = MemoryFile::new(alloc, text) else {
        return Err(Trouble::Memory);
    };
    Ok(match file_problem {
        FileProblem::None => file,
        FileProblem::LockedByOther => file.locked_by_another(),
        FileProblem::FailedCall(call) => file.fail_call(call),
        FileProblem::StopBefore(call) => file.stop_from(call),
        FileProblem::StopAfter(call) => file.stopping_after(call),
    })
}
