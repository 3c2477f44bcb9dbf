//! Tests of cases. Each program of a case is tested with each `Variation`.

use crate::tally::{Tally, print_trouble};
use crate::{deadlines, launches, socket};
use case_launches::System;
use case_text::{
    Case, Conversation, Invocation, Program, Script, Trouble, has_replies_without_response_end,
    parse_command, split_first_word,
};
use case_tries::{ByteChanges, Row, RowTest, Variation};
use ggrammar::Ends;
use std::alloc::Global;
use std::io;

// The first word of a command line for a server and a client in one process.
const PAIR_COMMAND: &str = "pair ";

// A case with one of its command lines. `adds_response_ends` states whether response-end packets
// are added to the replies.
#[derive(Clone, Copy)]
struct CaseRun<'b> {
    script: &'b Script<'b>,
    case: &'b Case<'b>,
    command_line: &'b str,
    adds_response_ends: bool,
}

/// Tests a case with each of its programs. Replies that may end with response-end packets are
/// tested with and without these packets.
pub fn test_case<'b, R: System>(
    rt: &R,
    script: &'b Script<'b>,
    case: &'b Case<'b>,
    tally: &mut Tally,
) -> io::Result<()> {
    let mut plain_run = CaseRun {
        script,
        case,
        command_line: "",
        adds_response_ends: false,
    };
    if case.launch.is_some() {
        test_launch(rt, plain_run, tally)?;
    }
    for command_line in case.commands.as_slice() {
        plain_run.command_line = *command_line;
        test_command_line(rt, plain_run, tally)?;
    }
    Ok(())
}

fn test_command_line<R: System>(
    rt: &R,
    plain_run: CaseRun<'_>,
    tally: &mut Tally,
) -> io::Result<()> {
    if plain_run.command_line.starts_with(PAIR_COMMAND) {
        return test_launch(rt, plain_run, tally);
    }
    let mut run_with_response_ends = plain_run;
    run_with_response_ends.adds_response_ends = true;
    test_run(rt, plain_run, tally)?;
    test_run(rt, run_with_response_ends, tally)
}

// Tests a case by launching the program. The case describes the launch, or names a server and a
// client for one process.
fn test_launch<R: System>(rt: &R, run: CaseRun<'_>, tally: &mut Tally) -> io::Result<()> {
    tally.count_row();
    tally.count_runs(Variation::LaunchedProgram, 1);
    let difference = match run.command_line.strip_prefix(PAIR_COMMAND) {
        Some(command_line) => launches::launch_pair(rt, run.script, run.case, command_line),
        None => launches::launch_case(rt, run.script, run.case),
    };
    match difference {
        Ok(None) => Ok(()),
        Ok(Some(difference)) => print_failure(
            rt,
            run,
            (Variation::LaunchedProgram, 0),
            difference.as_bytes(),
            tally,
        ),
        Err(trouble) => print_trouble(rt, run.case.file_name, run.case.line_number, trouble, tally),
    }
}

fn test_run<R: System>(rt: &R, run: CaseRun<'_>, tally: &mut Tally) -> io::Result<()> {
    match make_row(rt.alloc(), run.script, run) {
        Ok(Some(row)) => test_row(rt, run, &row, tally),
        Ok(None) => Ok(()),
        Err(trouble) => print_trouble(rt, run.case.file_name, run.case.line_number, trouble, tally),
    }
}

// Returns the row of a run, or `None` if the run adds response-end packets to replies that must not
// have them.
fn make_row<'b>(
    alloc: Global,
    script: &'b Script<'b>,
    run: CaseRun<'b>,
) -> Result<Option<Row<'b>>, Trouble> {
    match make_command(script, run)? {
        Some(command) => Ok(Some(make_row_for_command(alloc, script, run, command)?)),
        None => Ok(None),
    }
}

// Returns the command of a run, or `None` if the run adds response-end packets to replies that must
// not have them.
fn make_command<'b>(
    script: &'b Script<'b>,
    run: CaseRun<'b>,
) -> Result<Option<Invocation<'b>>, Trouble> {
    let case = run.case;
    let mut command = parse_command(run.command_line, script.format)?;
    command.pack_tool = case.pack_tool;
    if run.adds_response_ends {
        if !may_add_response_ends(command, case) {
            return Ok(None);
        }
        command.reply_ends = Ends::Response;
    }
    add_simulation_texts(script, &mut command)?;
    Ok(Some(command))
}

fn make_row_for_command<'b>(
    alloc: Global,
    script: &'b Script<'b>,
    run: CaseRun<'b>,
    command: Invocation<'b>,
) -> Result<Row<'b>, Trouble> {
    let case = run.case;
    let repository_text = script.text(command.repository_name)?;
    let new_file = expected_new_file(script, case, command)?;
    let conversation = Conversation::of_case(alloc, &command, case, run.adds_response_ends)?;
    Ok(Row {
        command,
        repository_text,
        new_file,
        conversation,
        memory_faults: case.memory_faults.as_slice(),
        packet_offsets: case.packet_offsets.as_slice(),
        table: case.table.as_slice(),
        byte_changes: byte_changes_for(case, run.adds_response_ends),
        is_late: case.is_late,
        is_long: case.is_long,
    })
}

// Returns the text that the client's file must have after a fetch, or `None` if the file does not
// change.
fn expected_new_file<'b>(
    script: &'b Script<'b>,
    case: &Case<'b>,
    command: Invocation<'_>,
) -> Result<Option<&'b [u8]>, Trouble> {
    match case.new_file {
        Some(name) if command.program == Program::Fetch => Ok(Some(script.text(name)?)),
        _ => Ok(None),
    }
}

// Sets the text of the client and the text of the scenario, if the command is a simulation.
fn add_simulation_texts<'b>(
    script: &'b Script<'b>,
    command: &mut Invocation<'b>,
) -> Result<(), Trouble> {
    if command.program != Program::Simulate {
        return Ok(());
    }
    let (client, scenario) = split_first_word(command.operands);
    command.client_text = script.text(client)?;
    command.scenario_text = script.text(scenario)?;
    Ok(())
}

// Returns whether response-end packets may be added to the replies of a case. A case may forbid
// response-end packets, or already contain them.
fn may_add_response_ends(command: Invocation<'_>, case: &Case<'_>) -> bool {
    command.program.may_have_response_ends()
        && command.reply_ends == Ends::Plain
        && !case.forbids_response_ends
        && has_replies_without_response_end(case, command.has_hello())
}

// Returns the changes made to each byte. With added response-end packets, only one bit of each byte
// is flipped.
fn byte_changes_for(case: &Case<'_>, adds_response_ends: bool) -> ByteChanges {
    if adds_response_ends {
        ByteChanges::OneBit
    } else if case.is_deep {
        ByteChanges::EveryValue
    } else {
        ByteChanges::EveryBit
    }
}

// Tests a row with each `Variation`, and stops at the first failure.
fn test_row<R: System>(
    rt: &R,
    run: CaseRun<'_>,
    row: &Row<'_>,
    tally: &mut Tally,
) -> io::Result<()> {
    tally.count_row();
    for variation in Variation::ALL {
        if (row.is_long && !variation.applies_to_long_rows()) || !tally.depth.includes(variation) {
            continue;
        }
        if !passes_variation(rt, run, row, variation, tally)? {
            break;
        }
    }
    Ok(())
}

// Tests a row with one variation, counts the runs, and prints a failure. Returns whether no run
// failed.
fn passes_variation<R: System>(
    rt: &R,
    run: CaseRun<'_>,
    row: &Row<'_>,
    variation: Variation,
    tally: &mut Tally,
) -> io::Result<bool> {
    let mut row_test = RowTest::new(rt.alloc(), row);
    match test_variation(rt, run, &mut row_test, row, variation) {
        Ok(failed_run) => {
            tally.count_runs(variation, row_test.runs);
            let printed = row_test.printed.as_slice();
            print_if_failed(rt, run, (variation, failed_run), printed, tally)?;
            Ok(failed_run.is_none())
        }
        Err(trouble) => {
            print_trouble(rt, run.case.file_name, run.case.line_number, trouble, tally)?;
            Ok(false)
        }
    }
}

fn print_if_failed<R: Print>(
    rt: &R,
    run: CaseRun<'_>,
    (variation, failed_run): (Variation, Option<usize>),
    printed: &[u8],
    tally: &mut Tally,
) -> io::Result<()> {
    match failed_run {
        Some(failed_run) => print_failure(rt, run, (variation, failed_run), printed, tally),
        None => Ok(()),
    }
}

// Tests a row with one variation, and returns the number of the first run that failed, if any.
fn test_variation<R: System>(
    rt: &R,
    run: CaseRun<'_>,
    row_test: &mut RowTest<'_, '_>,
    row: &Row<'_>,
    variation: Variation,
) -> Result<Option<usize>, Trouble> {
    match variation {
        Variation::Socket => socket::first_failure(rt, rt.alloc(), row, &mut row_test.runs),
        Variation::LatePeer => deadlines::first_failure(rt.alloc(), row, &mut row_test.runs),
        Variation::LaunchedProgram => launches::launch_row(rt, run.script, run.case, row, row_test),
        _ => row_test.test_variation(variation),
    }
}

fn print_failure<R: Print>(
    rt: &R,
    run: CaseRun<'_>,
    (variation, failed_run): (Variation, usize),
    printed: &[u8],
    tally: &mut Tally,
) -> io::Result<()> {
    tally.count_failure();
    let file_name = run.case.file_name;
    let line_number = run.case.line_number;
    let title = run.case.name;
    let command_line = run.command_line;
    let ends = if run.adds_response_ends {
        " (response-end)"
    } else {
        ""
    };
    let name = variation.name();
    let printed = match std::str::from_utf8(printed) {
        Ok(text) => text.trim_end(),
        Err(_) => "",
    };
    println!(rt;
        "{file_name}:{line_number}: {title}: {command_line}{ends}: {name}, {failed_run}: {printed}"
    )
}
