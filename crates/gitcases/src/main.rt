//! Tests of the crates that read Git's formats: packs, Git directories, refs, URLs and client
//! paths. Test files describe the inputs and the expected results.
//!
//! The arguments are the names of test files. FORMAT.md describes the lines of these files. A
//! row states the expected result for a pack, a text or a store. A store is a Git directory. A row
//! is tested with its input unchanged. A row without the keyword `large` is also tested with each
//! allocation refused in turn. A row may name files that replace the files of its store during a
//! run. A row with the keyword `sweep` is also tested with each bit of the input flipped, and with
//! a pack truncated after each byte. Packs and stores are in memory. Refs are files in a folder
//! that each run creates anew. The program prints a line for each wrong result. The last lines
//! state the number of runs.
//!
//! # Proved
//!
//! Every call returns, with no index out of range, overflow or use after free.
//!
//! # What the contracts do not rule out
//!
//! No contract states the results of this program. The tests were run on deliberately wrong rows
//! and crates, to check that the tests reject them.
//!
//! # Dependencies
//!
//! The program tests `gitpack`, `gitobjects`, `gitrefs`, `gitrepository`, `gitmemory` and
//! `gitwords`. `gitobject`, `gname`, `gzlib` and `sha1` create packs and stores, and `gcomplete`
//! defines stores in memory. `ggraph` defines graphs, refs and indexers, and `case_text` defines an
//! allocator that refuses an allocation.
#![tactic(auto)]

mod answers;
mod arrivals;
mod deltas;
mod escapes;
mod indexes;
mod keywords;
mod locations;
mod memory;
mod names;
mod packs;
mod ref_updates;
mod replaced_files;
mod row;
mod row_tests;
mod script;
mod stores;
mod tally;
mod trouble;

use crate::row_tests::test_row;
use crate::script::Script;
use crate::tally::Tally;
use crate::trouble::Trouble;
use std::process::ExitCode;
use std::rt::{Env, Files};
use std::{env, fs, io};

fn main(rt: HostRuntime) -> ExitCode {
    match run_cases(&rt) {
        Ok(true) => ExitCode::from(0),
        Ok(false) | Err(_) => ExitCode::from(1),
    }
}

// Runs the tests of the files that the arguments name. Returns whether all results were as
// expected.
fn run_cases<R: AllocGlobal + Env + Files + Print>(rt: &R) -> io::Result<bool> {
    let names: Vec<String> = env::args(rt)?.skip(1).collect(rt.alloc())?;
    let mut files = Vec::new(rt.alloc());
    for name in &names {
        files.push(fs::read_to_string(rt, name.as_str())?)?;
    }
    let mut tally = Tally::new();
    match test_files(rt, names.as_slice(), files.as_slice(), &mut tally) {
        Ok(()) => {
            tally.print(rt)?;
            Ok(tally.failures == 0)
        }
        Err((file_name, line_number, trouble)) => {
            let why = trouble.text();
            println!(rt; "{file_name}:{line_number}: {why}")?;
            Ok(false)
        }
    }
}

// Runs the tests of the files with these names. If a file can't be tested, returns the file, the
// line and the reason.
fn test_files<'a, R: Files + Print + AllocGlobal>(
    rt: &R,
    names: &'a [String],
    files: &'a [String],
    tally: &mut Tally,
) -> Result<(), (&'a str, usize, Trouble)> {
    let mut script = match Script::new(rt.alloc()) {
        Ok(script) => script,
        Err(trouble) => return Err(("", 0, trouble)),
    };
    for (name, text) in names.iter().zip(files) {
        if let Err(trouble) = script.read_file(name.as_str(), text.as_str()) {
            return Err((script.file_name, script.line_number, trouble));
        }
    }
    for row in &script.rows {
        if let Err(trouble) = test_row(rt, &script, row, tally) {
            return Err((row.file_name, row.line_number, trouble));
        }
    }
    Ok(())
}
