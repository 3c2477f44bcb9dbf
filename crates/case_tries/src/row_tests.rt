//! Tests of a row with each `Variation`. A function with the result `Option<usize>` returns the
//! number of the first run that failed, or `None` if no run failed.

use crate::judge::{
    ByteChanges, InputStop, Row, is_as_expected, is_as_expected_after_failed_report,
    is_as_expected_after_failed_stderr, is_as_expected_after_failed_write,
    is_as_expected_after_input_stop, is_as_expected_after_refusal, is_as_table_lists,
    is_valid_for_changed_input, keeps_repository, ran_out_of_memory_at_load,
};
use crate::memory_runs::{Device, RunParameters, RunResults, run_in_memory};
use crate::stored_fetch::{
    StoredFetchParameters, StoredFetchResults, fetch_into_row_file, has_stored_file,
    is_as_expected_after_problem, is_as_expected_when_cut_short, is_stored_as_expected,
};
use crate::variations::Variation;
use case_runs::{DeviceLimits, FileProblem};
use case_text::{Change, PackTool, Program, Trouble, fault_text};
use case_worlds::{SimulationResults, WorldInputs, run_one_by_one, run_with_refusal};
use std::alloc::Global;

/// An upper bound on the number of runs in a series. Each run makes fewer calls to a source or sink
/// than this bound, and fewer allocations.
const MAX_RUNS: usize = 1_000_000;

/// The masks of the eight bits of a byte.
const BITS: [u8; 8] = [1, 2, 4, 8, 16, 32, 64, 128];

// A series of runs, each of which fails later than the run before.
#[derive(Drop)]
enum Series<'s> {
    // Each call to a source or sink fails in turn.
    FailingCalls(Device),
    // Each allocation is refused in turn.
    Refusals(RefusalProgress),
    // Each allocation of a simulation in a separate world is refused in turn.
    WorldRefusals(WorldRun<'s>),
    // Each write to standard error fails in turn, during a fetch into a file.
    StoredFileStderr,
    // Each allocation is refused in turn, during a fetch into a file.
    StoredFileRefusals,
}

// A simulation that runs in a separate world, and its result with enough memory.
#[derive(Clone, Copy)]
struct WorldRun<'s> {
    inputs: WorldInputs<'s>,
    unrefused: &'s SimulationResults,
}

// The result of one run in a series of runs.
#[derive(Clone, Copy)]
enum SeriesStep {
    // The run was correct, and more runs follow.
    Continue,
    // The run was correct, and is the last of its series.
    End,
    Failure,
}

impl SeriesStep {
    fn after(is_right: bool, is_last: bool) -> SeriesStep {
        if !is_right {
            SeriesStep::Failure
        } else if is_last {
            SeriesStep::End
        } else {
            SeriesStep::Continue
        }
    }
}

// The state of a series of runs. Each run refuses the allocation after the one that the previous
// run refused.
#[derive(Drop)]
struct RefusalProgress {
    // The number of faults in the row's list that the runs so far have printed.
    faults_seen: usize,
    // Whether an earlier run ran out of memory, but not while a server loaded its repository.
    ran_out_after_load: bool,
}

/// A row to test, and the number of runs so far.
#[derive(Drop)]
pub struct RowTest<'a, 'b> {
    alloc: Global,
    row: &'a Row<'b>,
    // Whether the runs use std readers and writers.
    uses_std: bool,
    // The packer or indexer of the runs, or `None` for `PlainPack`.
    pack_tool: Option<PackTool>,
    pub runs: u64,
    /// The printed bytes of the run that failed.
    pub printed: Vec<u8>,
}

impl<'a, 'b> RowTest<'a, 'b> {
    pub fn new(alloc: Global, row: &'a Row<'b>) -> RowTest<'a, 'b> {
        RowTest {
            alloc,
            row,
            uses_std: false,
            pack_tool: row.command.pack_tool,
            runs: 0,
            printed: Vec::new(alloc),
        }
    }

    /// Tests the row with this variation, and returns the number of the first run that failed, if
    /// any. Variations that use sockets, launches of the program or late peers are not tested here.
    pub fn test_variation(&mut self, variation: Variation) -> Result<Option<usize>, Trouble> {
        match variation {
            Variation::WholeInput => self.test_whole_input(),
            Variation::InputInPieces => self.test_in_pieces(),
            Variation::StdDevices => self.test_std_devices(),
            Variation::Socket | Variation::LaunchedProgram | Variation::LatePeer => Ok(None),
            Variation::CheckedIndexer => self.test_checked_indexer(),
            Variation::FailingReads => self.test_failing_calls(Device::Input),
            Variation::FailingWrites => self.test_failing_calls(Device::Output),
            Variation::FailingReports => self.test_failing_calls(Device::Report),
            Variation::FailingStderr => self.test_failing_calls(Device::Errors),
            Variation::TruncatedInput => self.test_truncations(),
            Variation::ChangedBytes => self.test_changed_bytes(),
            Variation::TableChanges => self.test_table(),
            Variation::RefusedAllocations => self.test_refused_allocations(),
            Variation::FailingFile => self.test_stored_file(),
        }
    }

    fn run(&mut self, input: &[u8], parameters: RunParameters) -> Result<RunResults, Trouble> {
        self.runs = self.runs.saturating_add(1);
        let row = self.row;
        let mut command = row.command;
        command.pack_tool = self.pack_tool;
        let mut parameters = parameters;
        parameters.uses_std = self.uses_std;
        run_in_memory(self.alloc, command, row.repository_text, input, parameters)
    }

    fn run_whole_input(&mut self, parameters: RunParameters) -> Result<RunResults, Trouble> {
        let row = self.row;
        self.run(row.conversation.input.as_slice(), parameters)
    }

    // Returns whether a run was correct and left the repository in the expected state. Otherwise
    // stores the bytes that the run printed.
    fn check_run(&mut self, is_right: bool, results: &RunResults) -> Result<bool, Trouble> {
        if is_right && !results.was_misused && keeps_repository(self.alloc, self.row, results) {
            return Ok(true);
        }
        self.printed.clear();
        self.printed
            .extend_from_slice(results.errors.written_bytes())?;
        Ok(false)
    }

    // Returns whether a run of the whole input has the row's expected results.
    fn runs_as_expected(&mut self, parameters: RunParameters) -> Result<bool, Trouble> {
        let results = self.run_whole_input(parameters)?;
        let is_right = is_as_expected(self.row, &results);
        self.check_run(is_right, &results)
    }

    fn test_whole_input(&mut self) -> Result<Option<usize>, Trouble> {
        let is_right = self.runs_as_expected(RunParameters::UNLIMITED)?;
        Ok(failed_run_at(is_right, 0))
    }

    // Tests the row with the input read in pieces of one byte and of three bytes. Each call writes
    // one byte. The events of a simulation also run one by one.
    fn test_in_pieces(&mut self) -> Result<Option<usize>, Trouble> {
        for max_per_call in [1usize, 3] {
            if !self.runs_as_expected(RunParameters::in_pieces(max_per_call))? {
                return Ok(Some(max_per_call));
            }
        }
        if !self.has_world() || self.uses_std {
            return Ok(None);
        }
        let is_right = self.runs_one_by_one()?;
        Ok(failed_run_at(is_right, 0))
    }

    // Returns whether the row is a simulation that starts without a fault.
    fn has_world(&self) -> bool {
        self.row.command.program == Program::Simulate && self.row.conversation.errors.is_empty()
    }

    // Returns whether a simulation with a check after each event has the row's expected outcomes.
    fn runs_one_by_one(&mut self) -> Result<bool, Trouble> {
        let row = self.row;
        self.runs = self.runs.saturating_add(1);
        let results = run_one_by_one(
            self.alloc,
            WorldInputs::for_command(row.command, row.repository_text),
        )?;
        Ok(
            results.has_connected_refs
                && results.text.as_bytes() == row.conversation.output.as_slice(),
        )
    }

    // Tests the row on std readers and writers. The input is read at once, and also in pieces if
    // the row is not long. If `is_thorough` returns `true`, each read and each write also fails in
    // turn.
    fn test_std_devices(&mut self) -> Result<Option<usize>, Trouble> {
        self.uses_std = true;
        let failed_run = self.test_with_std_devices()?;
        self.uses_std = false;
        Ok(failed_run)
    }

    fn test_with_std_devices(&mut self) -> Result<Option<usize>, Trouble> {
        let mut failed_run = self.test_whole_and_in_pieces()?;
        if failed_run.is_some() || !self.is_thorough() {
            return Ok(failed_run);
        }
        failed_run = self.test_failing_calls(Device::Input)?;
        if failed_run.is_none() {
            failed_run = self.test_failing_calls(Device::Output)?;
        }
        Ok(failed_run)
    }

    // Tests the row with the input read at once, and also in pieces if the row is not long.
    fn test_whole_and_in_pieces(&mut self) -> Result<Option<usize>, Trouble> {
        let failed_run = self.test_whole_input()?;
        if failed_run.is_some() || self.row.is_long {
            return Ok(failed_run);
        }
        self.test_in_pieces()
    }

    // Returns whether the slow tests also run. Long rows, and rows with added response-end packets,
    // skip the slow tests.
    fn is_thorough(&self) -> bool {
        let row = self.row;
        !row.is_long && row.byte_changes != ByteChanges::OneBit
    }

    // Tests a fetch with an indexer whose calls are checked. The input is read at once, and also in
    // pieces if the row is not long. Rows that name an indexer are skipped. If `is_thorough`
    // returns `true`, the input is also truncated, and each allocation is also refused.
    fn test_checked_indexer(&mut self) -> Result<Option<usize>, Trouble> {
        let row = self.row;
        let is_fetch = row.command.program == Program::Fetch && !row.conversation.input.is_empty();
        if !is_fetch || row.command.pack_tool.is_some() {
            return Ok(None);
        }
        self.pack_tool = Some(PackTool::CheckingIndexer);
        let failed_run = self.test_with_checked_indexer()?;
        self.pack_tool = None;
        Ok(failed_run)
    }

    fn test_with_checked_indexer(&mut self) -> Result<Option<usize>, Trouble> {
        let mut failed_run = self.test_whole_and_in_pieces()?;
        if failed_run.is_some() || !self.is_thorough() {
            return Ok(failed_run);
        }
        failed_run = self.test_truncations()?;
        if failed_run.is_none() {
            failed_run = self.test_refused_allocations()?;
        }
        Ok(failed_run)
    }

    // Tests the row with each run of a series.
    fn test_series(&mut self, series: Series<'_>) -> Result<Option<usize>, Trouble> {
        let mut series = series;
        for number in 1..MAX_RUNS {
            match self.test_step(&mut series, number)? {
                SeriesStep::Continue => {}
                SeriesStep::End => return Ok(None),
                SeriesStep::Failure => return Ok(Some(number)),
            }
        }
        Ok(Some(MAX_RUNS))
    }

    fn test_step(&mut self, series: &mut Series<'_>, number: usize) -> Result<SeriesStep, Trouble> {
        match series {
            Series::FailingCalls(device) => self.test_failing_call(*device, number),
            Series::Refusals(progress) => self.test_refusal(number, progress),
            Series::WorldRefusals(world_run) => self.test_world_refusal(*world_run, number),
            Series::StoredFileStderr => self.test_failing_stderr(number),
            Series::StoredFileRefusals => self.test_stored_file_refusal(number),
        }
    }

    // Tests the row while each call to this source or sink fails in turn. Each call transfers at
    // most one byte.
    fn test_failing_calls(&mut self, device: Device) -> Result<Option<usize>, Trouble> {
        self.test_series(Series::FailingCalls(device))
    }

    fn test_failing_call(&mut self, device: Device, call: usize) -> Result<SeriesStep, Trouble> {
        let results = self.run_whole_input(RunParameters::with_failing_call(device, call))?;
        let has_failed = results.has_failed(device);
        let is_right = if has_failed {
            self.is_as_expected_after_failure(device, &results)?
        } else {
            is_as_expected(self.row, &results)
        };
        let is_right = self.check_run(is_right, &results)?;
        Ok(SeriesStep::after(is_right, !has_failed))
    }

    // Returns whether the run had the expected results after the source or sink failed.
    fn is_as_expected_after_failure(
        &mut self,
        device: Device,
        results: &RunResults,
    ) -> Result<bool, Trouble> {
        let row = self.row;
        match device {
            Device::Input => {
                let len = row
                    .conversation
                    .input
                    .len()
                    .saturating_sub(results.unread_len);
                is_as_expected_after_input_stop(
                    self.alloc,
                    row,
                    results,
                    len,
                    InputStop::ReadFailure,
                )
            }
            Device::Output => Ok(is_as_expected_after_failed_write(row, results)),
            Device::Report => Ok(is_as_expected_after_failed_report(row, results)),
            Device::Errors => Ok(is_as_expected_after_failed_stderr(row, results)),
        }
    }

    // Tests a fetch into a file: without a failure, while another process holds the lock, and with
    // a failure or a stop at each file operation. If `is_thorough` returns `true`, each write to
    // standard error also fails in turn. For rows with `ByteChanges::EveryValue`, each allocation
    // is also refused in turn.
    fn test_stored_file(&mut self) -> Result<Option<usize>, Trouble> {
        if !has_stored_file(self.row) {
            return Ok(None);
        }
        let results = self.fetch_into_file(StoredFetchParameters::UNLIMITED)?;
        let is_right = is_stored_as_expected(self.row, &results);
        if !self.check_fetch(is_right, &results)? {
            return Ok(Some(0));
        }
        self.test_stored_file_failures(results.calls())
    }

    fn test_stored_file_failures(&mut self, calls: usize) -> Result<Option<usize>, Trouble> {
        let mut failed_run = self.test_file_problems(calls)?;
        if failed_run.is_none() && self.is_thorough() {
            failed_run = self.test_series(Series::StoredFileStderr)?;
        }
        if failed_run.is_none() && self.row.byte_changes == ByteChanges::EveryValue {
            failed_run = self.test_series(Series::StoredFileRefusals)?;
        }
        Ok(failed_run)
    }

    fn fetch_into_file(
        &mut self,
        parameters: StoredFetchParameters,
    ) -> Result<StoredFetchResults, Trouble> {
        self.runs = self.runs.saturating_add(1);
        fetch_into_row_file(self.alloc, self.row, parameters)
    }

    // Returns whether a fetch was correct. Otherwise stores the bytes that the fetch printed.
    fn check_fetch(
        &mut self,
        is_right: bool,
        results: &StoredFetchResults,
    ) -> Result<bool, Trouble> {
        if !is_right {
            self.printed.clear();
            self.printed.extend_from_slice(results.printed_bytes())?;
        }
        Ok(is_right)
    }

    // Tests the row while another process holds the lock, and with a failure or a stop at each of
    // the first `calls` file operations.
    fn test_file_problems(&mut self, calls: usize) -> Result<Option<usize>, Trouble> {
        for call in 1..=calls {
            if !self.is_right_with_problems_at(call, calls)? {
                return Ok(Some(call));
            }
        }
        Ok(None)
    }

    fn is_right_with_problems_at(&mut self, call: usize, calls: usize) -> Result<bool, Trouble> {
        let file_problems = [
            FileProblem::LockedByOther,
            FileProblem::FailedCall(call),
            FileProblem::StopBefore(call),
            FileProblem::StopAfter(call),
        ];
        for file_problem in &file_problems {
            if !self.is_right_with_problem(*file_problem, calls)? {
                return Ok(false);
            }
        }
        Ok(true)
    }

    fn is_right_with_problem(
        &mut self,
        file_problem: FileProblem,
        calls: usize,
    ) -> Result<bool, Trouble> {
        let mut parameters = StoredFetchParameters::UNLIMITED;
        parameters.file_problem = file_problem;
        let results = self.fetch_into_file(parameters)?;
        let is_right = is_as_expected_after_problem(self.row, &results, file_problem, calls);
        self.check_fetch(is_right, &results)
    }

    // Tests a fetch into a file while the call to standard error with this number fails.
    fn test_failing_stderr(&mut self, call: usize) -> Result<SeriesStep, Trouble> {
        let mut parameters = StoredFetchParameters::UNLIMITED;
        parameters.stderr_limits = DeviceLimits::with_failing_call(call);
        let results = self.fetch_into_file(parameters)?;
        let is_last = !results.has_failed();
        let is_right = is_last || is_as_expected_when_cut_short(self.row, &results);
        let is_right = self.check_fetch(is_right, &results)?;
        Ok(SeriesStep::after(is_right, is_last))
    }

    // Tests a fetch into a file while the allocation with this number is refused.
    fn test_stored_file_refusal(&mut self, number: usize) -> Result<SeriesStep, Trouble> {
        let mut parameters = StoredFetchParameters::UNLIMITED;
        parameters.refused_allocation = number as u64;
        let results = self.fetch_into_file(parameters)?;
        let is_right = is_stored_as_expected(self.row, &results)
            || (results.was_refused() && is_as_expected_when_cut_short(self.row, &results));
        let is_right = self.check_fetch(is_right, &results)?;
        Ok(SeriesStep::after(is_right, !results.was_refused()))
    }

    // Tests the row with the input truncated after each of its bytes.
    fn test_truncations(&mut self) -> Result<Option<usize>, Trouble> {
        let row = self.row;
        if !row.packet_offsets.is_empty()
            && !row.conversation.has_packet_offsets(row.packet_offsets)
        {
            return Ok(Some(MAX_RUNS));
        }
        let read_len = self.count_read_bytes()?;
        for len in 0..row.conversation.input.len() {
            if !self.is_truncated_as_expected(len, read_len)? {
                return Ok(Some(len));
            }
        }
        Ok(None)
    }

    // Returns the number of input bytes that the program reads.
    fn count_read_bytes(&mut self) -> Result<usize, Trouble> {
        let results = self.run_whole_input(RunParameters::UNLIMITED)?;
        Ok(
            self.row
                .conversation
                .input
                .len()
                .saturating_sub(results.unread_len),
        )
    }

    // Returns whether a run of the first `len` input bytes has the expected results. `read_len` is
    // the number of bytes that a run of the whole input reads.
    fn is_truncated_as_expected(&mut self, len: usize, read_len: usize) -> Result<bool, Trouble> {
        let row = self.row;
        let Some(part) = row.conversation.input.as_slice().get(..len) else {
            return Ok(false);
        };
        let results = self.run(part, RunParameters::UNLIMITED)?;
        let is_right = if len < read_len {
            is_as_expected_after_input_stop(self.alloc, row, &results, len, InputStop::End)?
        } else {
            is_as_expected(row, &results)
        };
        self.check_run(is_right, &results)
    }

    fn test_changed_bytes(&mut self) -> Result<Option<usize>, Trouble> {
        let row = self.row;
        let mut input = Vec::from_slice(self.alloc, row.conversation.input.as_slice())?;
        for (offset, byte) in row.conversation.input.as_slice().iter().enumerate() {
            if !self.are_changes_valid(offset, *byte, &mut input)? {
                return Ok(Some(offset));
            }
            set_byte(&mut input, offset, *byte);
        }
        Ok(None)
    }

    // Returns whether all runs in which the byte at `offset` is changed are correct. The row's
    // `byte_changes` determines the new values.
    fn are_changes_valid(
        &mut self,
        offset: usize,
        byte: u8,
        input: &mut Vec<u8>,
    ) -> Result<bool, Trouble> {
        for change in 1..=255u8 {
            if includes_change(self.row.byte_changes, offset, change) {
                set_byte(input, offset, byte ^ change);
                if !self.is_valid_for_changed_input(input.as_slice())? {
                    return Ok(false);
                }
            }
        }
        Ok(true)
    }

    fn is_valid_for_changed_input(&mut self, input: &[u8]) -> Result<bool, Trouble> {
        let results = self.run(input, RunParameters::UNLIMITED)?;
        let is_right = is_valid_for_changed_input(self.row, &results);
        self.check_run(is_right, &results)
    }

    // Tests the row with the request truncated after each byte, and with each byte changed to every
    // other value. Rows without a table are skipped.
    fn test_table(&mut self) -> Result<Option<usize>, Trouble> {
        let row = self.row;
        if row.table.is_empty() {
            return Ok(None);
        }
        let mut input = Vec::from_slice(self.alloc, row.conversation.input.as_slice())?;
        for (offset, byte) in row.conversation.input.as_slice().iter().enumerate() {
            if !self.is_truncated_as_listed(offset)?
                || !self.is_changed_as_listed(offset, *byte, &mut input)?
            {
                return Ok(Some(offset));
            }
            set_byte(&mut input, offset, *byte);
        }
        Ok(None)
    }

    fn is_truncated_as_listed(&mut self, len: usize) -> Result<bool, Trouble> {
        let row = self.row;
        match row.conversation.input.as_slice().get(..len) {
            Some(part) => self.runs_as_table_lists(part, Change::Cut(len)),
            None => Ok(false),
        }
    }

    fn is_changed_as_listed(
        &mut self,
        offset: usize,
        byte: u8,
        input: &mut Vec<u8>,
    ) -> Result<bool, Trouble> {
        for change in 1..=255u8 {
            let value = byte ^ change;
            set_byte(input, offset, value);
            if !self.runs_as_table_lists(input.as_slice(), Change::Byte(offset, value))? {
                return Ok(false);
            }
        }
        Ok(true)
    }

    // Returns whether a run with a changed input has the result that the row's table lists.
    fn runs_as_table_lists(&mut self, input: &[u8], change: Change) -> Result<bool, Trouble> {
        let results = self.run(input, RunParameters::UNLIMITED)?;
        let is_right = is_as_table_lists(self.alloc, self.row, &results, input, change)?;
        self.check_run(is_right, &results)
    }

    // Tests the row with each allocation refused in turn. A simulation also runs in a separate
    // world.
    fn test_refused_allocations(&mut self) -> Result<Option<usize>, Trouble> {
        let failed_run = self.test_refusals_in_turn()?;
        if failed_run.is_some() || !self.has_world() {
            return Ok(failed_run);
        }
        let row = self.row;
        let inputs = WorldInputs::for_command(row.command, row.repository_text);
        let unrefused = &run_with_refusal(self.alloc, inputs, 0)?;
        self.test_series(Series::WorldRefusals(WorldRun { inputs, unrefused }))
    }

    // Runs a simulation with the allocation `number` refused. If memory runs out, the remaining
    // events run with enough memory in the same world. The run is correct if its outcomes are
    // consistent with the result with enough memory.
    fn test_world_refusal(
        &mut self,
        world_run: WorldRun<'_>,
        number: usize,
    ) -> Result<SeriesStep, Trouble> {
        self.runs = self.runs.saturating_add(1);
        let results = run_with_refusal(self.alloc, world_run.inputs, number as u64)?;
        let is_right = results.is_consistent_with(world_run.unrefused);
        Ok(SeriesStep::after(is_right, !results.was_refused))
    }

    // Tests the row with each allocation refused in turn. The out-of-memory faults that the row
    // lists must occur in the listed order. Once a run has run out of memory after a server loaded
    // its repository, no later run may run out of memory during the loading.
    fn test_refusals_in_turn(&mut self) -> Result<Option<usize>, Trouble> {
        self.test_series(Series::Refusals(RefusalProgress {
            faults_seen: 0,
            ran_out_after_load: false,
        }))
    }

    fn test_refusal(
        &mut self,
        number: usize,
        progress: &mut RefusalProgress,
    ) -> Result<SeriesStep, Trouble> {
        let row = self.row;
        let results = self.run_whole_input(RunParameters::with_refused_allocation(number))?;
        let is_right = if results.was_refused {
            self.is_as_expected_after_refusal(&results, progress)
        } else {
            is_as_expected(row, &results) && self.has_seen_all_faults(progress.faults_seen)
        };
        let is_right = self.check_run(is_right, &results)?;
        Ok(SeriesStep::after(is_right, !results.was_refused))
    }

    // Returns whether the run ended as expected after a refused allocation, with a fault that the
    // row lists.
    fn is_as_expected_after_refusal(
        &self,
        results: &RunResults,
        progress: &mut RefusalProgress,
    ) -> bool {
        let row = self.row;
        let ran_out_of_memory_at_load = ran_out_of_memory_at_load(row, results);
        let is_right = is_as_expected_after_refusal(row, results)
            && !(progress.ran_out_after_load && ran_out_of_memory_at_load)
            && self.is_listed_fault(results, &mut progress.faults_seen);
        progress.ran_out_after_load = progress.ran_out_after_load
            || !(ran_out_of_memory_at_load || is_as_expected(row, results));
        is_right
    }

    // Returns whether the row lists all possible out-of-memory faults of this run. With an indexer
    // that the row does not name, other faults are possible.
    fn lists_memory_faults(&self) -> bool {
        !self.row.memory_faults.is_empty() && self.pack_tool == self.row.command.pack_tool
    }

    fn has_seen_all_faults(&self, faults_seen: usize) -> bool {
        !self.lists_memory_faults() || faults_seen == self.row.memory_faults.len()
    }

    // Returns whether the run's fault is the most recently printed fault of the row's list, or the
    // next fault in the list. Returns `true` if the row lists no faults, or if the run has the
    // expected results.
    fn is_listed_fault(&self, results: &RunResults, faults_seen: &mut usize) -> bool {
        let listed = self.row.memory_faults;
        if !self.lists_memory_faults() || is_as_expected(self.row, results) {
            return true;
        }
        let Some(text) = fault_text(results.errors.written_bytes()) else {
            return false;
        };
        if has_fault_at(listed, *faults_seen, text) {
            *faults_seen = faults_seen.saturating_add(1);
            return true;
        }
        has_fault_at(listed, faults_seen.wrapping_sub(1), text)
    }
}

// Returns `number` if the run with this number failed, or `None` if the run was correct.
fn failed_run_at(is_right: bool, number: usize) -> Option<usize> {
    if is_right { None } else { Some(number) }
}

// Returns whether the text at index `index` of the list is `text`.
fn has_fault_at(listed: &[Vec<u8>], index: usize, text: &[u8]) -> bool {
    match listed.get(index) {
        Some(fault) => fault.as_slice() == text,
        None => false,
    }
}

// Returns whether `byte_changes` includes flipping the bits of the mask `change` at `offset`.
fn includes_change(byte_changes: ByteChanges, offset: usize, change: u8) -> bool {
    match byte_changes {
        ByteChanges::EveryValue => true,
        ByteChanges::EveryBit => change.is_power_of_two(),
        ByteChanges::OneBit => BITS.get(offset % 8) == Some(&change),
    }
}

fn set_byte(bytes: &mut Vec<u8>, offset: usize, value: u8) {
    if let Some(byte) = bytes.get_mut(offset) {
        *byte = value;
    }
}
