//! Launches of the program itself for rows, cases and facts.

use case_launches::{Plan, System, can_launch, launch, push_arguments};
use case_text::{Case, Fact, Script, Trouble};
use case_tries::{Row, RowTest};

/// Launches the program with the arguments of a row and a file that holds the row's repository. If
/// the results are unexpected, stores a description of the results in `row_test` and returns 0.
/// Otherwise returns `None`. Does nothing if the program can't run the row.
pub fn launch_row<R: System>(
    rt: &R,
    script: &Script<'_>,
    case: &Case<'_>,
    row: &Row<'_>,
    row_test: &mut RowTest<'_, '_>,
) -> Result<Option<usize>, Trouble> {
    if !can_launch(rt.alloc(), row)? {
        return Ok(None);
    }
    row_test.runs = row_test.runs.saturating_add(1);
    let plan = Plan::for_row(rt.alloc(), script, case, row)?;
    match launch(rt, &plan)? {
        Some(difference) => {
            row_test.printed.extend_from_slice(difference.as_bytes())?;
            Ok(Some(0))
        }
        None => Ok(None),
    }
}

/// Launches the program with a server and a client in one process. Returns a description of the
/// unexpected results, if any.
pub fn launch_pair<R: System>(
    rt: &R,
    script: &Script<'_>,
    case: &Case<'_>,
    arguments: &str,
) -> Result<Option<String>, Trouble> {
    launch(rt, &Plan::for_pair(rt.alloc(), script, case, arguments)?)
}

/// Launches the program as a case describes. Returns a description of the unexpected results, if
/// any.
pub fn launch_case<R: System>(
    rt: &R,
    script: &Script<'_>,
    case: &Case<'_>,
) -> Result<Option<String>, Trouble> {
    match &case.launch {
        Some(case_launch) => launch(
            rt,
            &Plan::for_launch(rt.alloc(), script, case, case_launch)?,
        ),
        None => Ok(None),
    }
}

/// Launches the program with the arguments of a fact, in an empty folder. Returns a description of
/// the unexpected results, if any. The program must report wrong usage if and only if the expected
/// result of the fact is `none`.
pub fn launch_arguments<R: System>(
    rt: &R,
    script: &Script<'_>,
    fact: &Fact<'_>,
) -> Result<Option<String>, Trouble> {
    let alloc = rt.alloc();
    let Ok(text) = std::str::from_utf8(fact.text.as_slice()) else {
        return Ok(None);
    };
    let mut arguments = Vec::new(alloc);
    push_arguments(alloc, text, &mut arguments)?;
    let is_valid_usage = fact.expected.as_slice() != b"none".as_slice();
    launch(
        rt,
        &Plan::for_arguments(alloc, script, arguments, is_valid_usage)?,
    )
}
