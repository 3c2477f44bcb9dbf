//! A run on sources and sinks in memory, and the result of the run.

use case_runs::{
    CommandRun, DeviceLimits, Devices, IndexerCheck, Reader, RunOutcome, StdAdapter, Writer,
    outcome_without_file,
};
use case_text::{Invocation, Program, RefusingAllocator, Trouble};
use case_worlds::{WorldInputs, simulate_with_tools};
use gpkt::{FromRead, Sink, Source, ToWrite};
use gsimulate::{Simulation, cmd_simulate};
use std::alloc::{Allocator, Global};

/// The parameters of a run: the limits of the sources and sinks, and the number of the allocation
/// to refuse. The number 0 refuses no allocation.
#[derive(Clone, Copy)]
pub(crate) struct RunParameters {
    pub(crate) read_limits: DeviceLimits,
    pub(crate) write_limits: DeviceLimits,
    pub(crate) report_limits: DeviceLimits,
    pub(crate) stderr_limits: DeviceLimits,
    pub(crate) refused_allocation: u64,
    /// Whether the sources and sinks are wrapped in std readers and writers.
    pub(crate) uses_std: bool,
}

impl RunParameters {
    pub(crate) const UNLIMITED: RunParameters = RunParameters {
        read_limits: DeviceLimits::NONE,
        write_limits: DeviceLimits::NONE,
        report_limits: DeviceLimits::NONE,
        stderr_limits: DeviceLimits::NONE,
        refused_allocation: 0,
        uses_std: false,
    };

    /// Returns the parameters of a run that reads at most `max_per_call` bytes per call, and writes
    /// one byte per call.
    pub(crate) fn in_pieces(max_per_call: usize) -> RunParameters {
        let mut parameters = RunParameters::UNLIMITED;
        parameters.read_limits = DeviceLimits::with_max_per_call(max_per_call);
        parameters.write_limits = DeviceLimits::with_max_per_call(1);
        parameters
    }

    /// Returns the parameters of a run in which the given call to the source or sink fails.
    pub(crate) fn with_failing_call(device: Device, call: usize) -> RunParameters {
        let mut parameters = RunParameters::UNLIMITED;
        let limits = DeviceLimits::with_failing_call(call);
        match device {
            Device::Input => parameters.read_limits = limits,
            Device::Output => parameters.write_limits = limits,
            Device::Report => parameters.report_limits = limits,
            Device::Errors => parameters.stderr_limits = limits,
        }
        parameters
    }

    /// Returns the parameters of a run that refuses the allocation with this number.
    pub(crate) fn with_refused_allocation(number: usize) -> RunParameters {
        let mut parameters = RunParameters::UNLIMITED;
        parameters.refused_allocation = number as u64;
        parameters
    }
}

/// The source or sink that fails during a run.
#[derive(Clone, Copy)]
pub(crate) enum Device {
    Input,
    Output,
    Report,
    Errors,
}

/// The result of a run.
#[derive(Drop)]
pub struct RunResults {
    pub(crate) status: u8,
    /// The new text of the client's file, if the run changed the file.
    pub(crate) new_file: Option<Vec<u8>>,
    /// The text of the client's repository at the end, or `None` if the command does not return it.
    pub(crate) final_repository_text: Option<Vec<u8>>,
    pub(crate) output: Writer,
    pub(crate) report: Writer,
    pub(crate) errors: Writer,
    /// The number of input bytes that were not read.
    pub(crate) unread_len: usize,
    pub(crate) read_failed: bool,
    /// Whether a source or sink was called after its failure, a read had an empty buffer, or an
    /// indexer was called incorrectly.
    pub(crate) was_misused: bool,
    /// Whether the run reached the allocation to refuse.
    pub(crate) was_refused: bool,
}

impl RunResults {
    /// Returns the result of a run on a connection, with the writers for the peer, the report and
    /// standard error.
    pub fn on_connection(
        run_outcome: RunOutcome,
        output: Writer,
        report: Writer,
        errors: Writer,
    ) -> RunResults {
        RunResults {
            status: run_outcome.status,
            new_file: run_outcome.new_file,
            final_repository_text: run_outcome.final_repository_text,
            output,
            report,
            errors,
            unread_len: 0,
            read_failed: false,
            was_misused: false,
            was_refused: run_outcome.was_refused,
        }
    }

    /// Returns whether the run reached the allocation to refuse.
    pub fn was_refused(&self) -> bool {
        self.was_refused
    }

    /// Returns the bytes printed on standard error.
    pub fn printed_bytes(&self) -> &[u8] {
        self.errors.written_bytes()
    }

    /// Returns whether a call to the source or sink failed.
    pub(crate) fn has_failed(&self, device: Device) -> bool {
        match device {
            Device::Input => self.read_failed,
            Device::Output => self.output.has_failed(),
            Device::Report => self.report.has_failed(),
            Device::Errors => self.errors.has_failed(),
        }
    }
}

/// Runs a command with the text of a repository and an input.
pub(crate) fn run_in_memory(
    alloc: Global,
    command: Invocation<'_>,
    repository_text: &[u8],
    input: &[u8],
    parameters: RunParameters,
) -> Result<RunResults, Trouble> {
    let tested_alloc = RefusingAllocator::new(alloc);
    let indexer_check = IndexerCheck::new();
    let run = CommandRun {
        alloc,
        tested_alloc: &tested_alloc,
        refusing_alloc: &tested_alloc,
        indexer_check: &indexer_check,
        command,
        repository_text,
        input,
        refused_allocation: parameters.refused_allocation,
    };
    if parameters.uses_std {
        run_over_std_devices(&run, parameters)
    } else {
        run_over_memory_devices(&run, parameters)
    }
}

fn run_over_memory_devices<A: Allocator + Copy>(
    run: &CommandRun<'_, '_, '_, A>,
    parameters: RunParameters,
) -> Result<RunResults, Trouble> {
    let mut devices = Devices {
        input: Reader::new(run.input, parameters.read_limits, run.indexer_check),
        output: Writer::new(run.alloc, parameters.write_limits),
        report: Writer::new(run.alloc, parameters.report_limits),
        errors: Writer::new(run.alloc, parameters.stderr_limits),
    };
    let run_outcome = run_command(run, &mut devices)?;
    Ok(results_of_run(run, run_outcome, devices))
}

fn run_over_std_devices<A: Allocator + Copy>(
    run: &CommandRun<'_, '_, '_, A>,
    parameters: RunParameters,
) -> Result<RunResults, Trouble> {
    let mut input = StdAdapter::new(
        Reader::new(run.input, parameters.read_limits, run.indexer_check),
        parameters.read_limits,
    );
    let mut output = std_writer(run.alloc, parameters.write_limits);
    let mut report = std_writer(run.alloc, parameters.report_limits);
    let mut errors = std_writer(run.alloc, parameters.stderr_limits);
    let run_outcome = run_command(
        run,
        &mut Devices {
            input: FromRead::new(&mut input),
            output: ToWrite::new(&mut output),
            report: ToWrite::new(&mut report),
            errors: ToWrite::new(&mut errors),
        },
    );
    let devices = Devices {
        input: input.into_inner(),
        output: output.into_inner(),
        report: report.into_inner(),
        errors: errors.into_inner(),
    };
    Ok(results_of_run(run, run_outcome?, devices))
}

fn std_writer(alloc: Global, limits: DeviceLimits) -> StdAdapter<Writer> {
    StdAdapter::new(Writer::new(alloc, limits), limits)
}

// Returns the result of a run, including the final state of its source and sinks.
fn results_of_run<A: Allocator + Copy>(
    run: &CommandRun<'_, '_, '_, A>,
    run_outcome: RunOutcome,
    devices: Devices<Reader<'_, '_>, Writer, Writer, Writer>,
) -> RunResults {
    let Devices {
        input,
        output,
        report,
        errors,
    } = devices;
    let was_misused = input.was_misused()
        || output.was_misused()
        || report.was_misused()
        || errors.was_misused()
        || run.indexer_check.is_wrong();
    RunResults {
        status: run_outcome.status,
        new_file: run_outcome.new_file,
        final_repository_text: run_outcome.final_repository_text,
        output,
        report,
        errors,
        unread_len: input.unread_len(),
        read_failed: input.has_failed(),
        was_misused,
        was_refused: run_outcome.was_refused,
    }
}

// Runs a command, which may be a simulation.
fn run_command<A: Allocator + Copy, I: Source, O: Sink, R: Sink, E: Sink>(
    run: &CommandRun<'_, '_, '_, A>,
    devices: &mut Devices<I, O, R, E>,
) -> Result<RunOutcome, Trouble> {
    if run.command.program != Program::Simulate {
        return case_runs::run_command(run, devices);
    }
    run.refusing_alloc.refuse_allocation(run.refused_allocation);
    let status = simulate(run, &mut devices.output, &mut devices.errors)?;
    Ok(outcome_without_file(run, status))
}

// Runs a simulation, and returns the exit status.
fn simulate<A: Allocator + Copy, O: Sink, E: Sink>(
    run: &CommandRun<'_, '_, '_, A>,
    output: &mut O,
    errors: &mut E,
) -> Result<u8, Trouble> {
    let command = run.command;
    if command.pack_tool.is_some() {
        let inputs = WorldInputs::for_command(command, run.repository_text);
        return simulate_with_tools(run.alloc, run.tested_alloc, inputs, output, errors);
    }
    Ok(simulate_with_plain_pack(run, output, errors))
}

fn simulate_with_plain_pack<A: Allocator + Copy, O: Sink, E: Sink>(
    run: &CommandRun<'_, '_, '_, A>,
    output: &mut O,
    errors: &mut E,
) -> u8 {
    let simulation = Simulation {
        server: run.repository_text,
        client: run.command.client_text,
        scenario: run.command.scenario_text,
    };
    cmd_simulate(run.tested_alloc, &simulation, output, errors)
}
