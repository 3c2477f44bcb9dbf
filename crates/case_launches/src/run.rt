//! A launch of a program, and the comparison of its output and files with the plan.

use crate::file_checks::{InodeNumbers, first_wrong_file, first_wrong_mode};
use crate::folder::{
    create_items, enter_folder, ignores_permissions, leave_folder, restore_permissions,
};
use crate::journal::Journal;
use crate::launch_runtime::{LaunchRuntime, StandardError};
use crate::peers::Peers;
use crate::plan::Plan;
use crate::planned_streams::{PlannedStreams, WRONG_USAGE_STATUS};
use crate::system::System;
use case_text::{InitialItem, Trouble};
use gprogram::run_gitv2;
use std::alloc::{AllocError, Global};
use std::env;
use std::rt::{Env, Files};

// The word for the port in the expected standard output.
const PORT_WORD: &str = "PORT";

// The permissions that allow a file's owner to read and write.
const OWNER_READ_WRITE: u32 = 0o600;

/// Runs the program in a separate folder. Returns a description of the unexpected results, or
/// `None` if all results match the plan. The program does not run, and the result is `None`, if an
/// item's permissions deny its owner access but this process ignores permissions.
pub fn launch<R: System>(rt: &R, plan: &Plan<'_>) -> Result<Option<String>, Trouble> {
    enter_folder(rt)?;
    let difference = launch_in_folder(rt, plan);
    restore_permissions(rt, plan.initial_items.as_slice());
    leave_folder(rt).and(difference)
}

fn launch_in_folder<R: System>(rt: &R, plan: &Plan<'_>) -> Result<Option<String>, Trouble> {
    let initial_items = plan.initial_items.as_slice();
    if denies_owner(initial_items) && ignores_permissions(rt)? {
        return Ok(None);
    }
    create_items(rt, plan.script, initial_items)?;
    let inode_numbers = InodeNumbers::of_kept_files(rt, plan.final_items.as_slice())?;
    match run_and_compare(rt, plan) {
        Ok(None) => compare_files(rt, plan, &inode_numbers),
        difference => difference,
    }
}

// Returns whether the permissions of an item forbid its owner to read or to write.
fn denies_owner(initial_items: &[InitialItem<'_>]) -> bool {
    for item in initial_items {
        match item {
            InitialItem::Mode { name: _, mode } if mode & OWNER_READ_WRITE != OWNER_READ_WRITE =>
                return true,
            _ => {}
        }
    }
    false
}

// Runs the program. Returns a description of the results if the status, streams or operations
// differ from the plan, or `None` otherwise.
fn run_and_compare<R: System>(rt: &R, plan: &Plan<'_>) -> Result<Option<String>, Trouble> {
    let alloc = rt.alloc();
    let journal = Journal::new(alloc, current_folder(rt)?, plan.failing_step);
    let peers = Peers::new(alloc, plan.streams.exchanges.as_slice());
    run_with_peers(rt, plan, &journal, &peers)
}

fn current_folder<R: AllocGlobal + Env>(rt: &R) -> Result<String, Trouble> {
    let folder = env::current_dir(rt)?;
    String::from_str(rt.alloc(), folder.as_str()).map_err(Trouble::from)
}

fn run_with_peers<R: System>(
    rt: &R,
    plan: &Plan<'_>,
    journal: &Journal<'_>,
    peers: &Peers<'_>,
) -> Result<Option<String>, Trouble> {
    let alloc = rt.alloc();
    let runtime = LaunchRuntime::new(rt, alloc, plan, journal, peers);
    let mut errors = StandardError::new(alloc, journal);
    let status = run_gitv2(&runtime, &mut errors);
    let output = runtime.into_output();
    let results = RunResults {
        status,
        output: output.as_slice(),
        errors: errors.written.as_slice(),
        journal,
        peers,
    };
    results.difference(alloc, plan)
}

// The results of a run.
#[derive(Clone, Copy)]
struct RunResults<'t> {
    status: u8,
    output: &'t [u8],
    errors: &'t [u8],
    journal: &'t Journal<'t>,
    peers: &'t Peers<'t>,
}

impl RunResults<'_> {
    // Returns a description of the results if they differ from the plan, or `None` otherwise.
    fn difference(&self, alloc: Global, plan: &Plan<'_>) -> Result<Option<String>, Trouble> {
        if self.are_expected(alloc, plan)? {
            Ok(None)
        } else {
            Ok(Some(self.describe(alloc)?))
        }
    }

    fn describe(&self, alloc: Global) -> Result<String, AllocError> {
        let status = self.status;
        let steps = self.journal.text()?;
        let output = printable_text(self.output);
        let printed = printable_text(self.errors);
        format!(in alloc; "status {status}; {steps}; {output}; {printed}")
    }

    fn are_expected(&self, alloc: Global, plan: &Plan<'_>) -> Result<bool, AllocError> {
        Ok(
            self.have_expected_status(&plan.streams)
                && self.have_expected_output(alloc, plan.streams.output.as_slice())?
                && self.journal.has_expected_steps(plan.steps)
                && self.peers.have_received_expected(alloc),
        )
    }

    // Returns whether the status and the errors are as expected.
    fn have_expected_status(&self, streams: &PlannedStreams) -> bool {
        match streams.status {
            Some(status) => self.status == status && self.errors == streams.errors.as_slice(),
            None => self.status != WRONG_USAGE_STATUS,
        }
    }

    // Returns whether the output is as expected. The word `PORT` stands for the program's port.
    fn have_expected_output(&self, alloc: Global, expected: &[u8]) -> Result<bool, AllocError> {
        let Some((before, after)) = split_at_port(expected) else {
            return Ok(expected == self.output);
        };
        let port = self.peers.program_port();
        let line = format!(in alloc; "{before}{port}{after}")?;
        Ok(line.as_bytes() == self.output)
    }
}

fn printable_text(bytes: &[u8]) -> &str {
    match std::str::from_utf8(bytes) {
        Ok(text) => text.trim_end(),
        Err(_) => "no text",
    }
}

// Returns the text before and after the word for the port, or `None` if the text has no such word.
fn split_at_port(expected: &[u8]) -> Option<(&str, &str)> {
    std::str::from_utf8(expected).ok()?.split_once(PORT_WORD)
}

// Returns a description that names the first file that differs from the plan, if any.
fn compare_files<R: AllocGlobal + Files>(
    rt: &R,
    plan: &Plan<'_>,
    inode_numbers: &InodeNumbers<'_>,
) -> Result<Option<String>, Trouble> {
    match first_different_file(rt, plan, inode_numbers)? {
        Some(name) => Ok(Some(format!(in rt.alloc(); "file {name}")?)),
        None => Ok(None),
    }
}

fn first_different_file<'b, R: AllocGlobal + Files>(
    rt: &R,
    plan: &Plan<'b>,
    inode_numbers: &InodeNumbers<'b>,
) -> Result<Option<&'b str>, Trouble> {
    let difference = match inode_numbers.first_changed(rt) {
        None => first_wrong_mode(rt, plan.final_items.as_slice()),
        changed => changed,
    };
    restore_permissions(rt, plan.initial_items.as_slice());
    match difference {
        None => first_wrong_file(rt, plan),
        Some(_) => Ok(difference),
    }
}
