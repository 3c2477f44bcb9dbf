//! A plan: the arguments, files and peers of a program, and all expected results.

use crate::arguments::{add_command, file_name_for, push_arguments};
use crate::planned_streams::PlannedStreams;
use crate::streams::CommandStreams;
use case_text::{
    Case, FinalItem, InitialItem, Invocation, Launch, Program, Script, Trouble, split_first_word,
};
use case_tries::Row;
use std::alloc::{AllocError, Global};

/// The arguments, files and peers of a program, and all expected results.
#[derive(Drop)]
pub struct Plan<'b> {
    pub(crate) script: &'b Script<'b>,
    /// The arguments of the command line, starting with the program's name.
    pub(crate) arguments: Vec<String>,
    pub(crate) initial_items: Vec<InitialItem<'b>>,
    pub(crate) final_items: Vec<FinalItem<'b>>,
    pub(crate) streams: PlannedStreams,
    pub(crate) steps: Option<&'b str>,
    /// The operation that fails whenever the program performs it, if any.
    pub(crate) failing_step: Option<&'b str>,
}

impl<'b> Plan<'b> {
    // Returns a plan without arguments, for an empty folder.
    fn new(alloc: Global, script: &'b Script<'b>) -> Plan<'b> {
        Plan {
            script,
            arguments: Vec::new(alloc),
            initial_items: Vec::new(alloc),
            final_items: Vec::new(alloc),
            streams: PlannedStreams::new(alloc),
            steps: None,
            failing_step: None,
        }
    }

    /// Returns a plan, with an empty folder, that tests whether the arguments match the usage. The
    /// first argument is the program's name.
    pub fn for_arguments(
        alloc: Global,
        script: &'b Script<'b>,
        arguments: Vec<String>,
        is_valid_usage: bool,
    ) -> Result<Plan<'b>, Trouble> {
        let mut plan = Plan::new(alloc, script);
        plan.arguments = arguments;
        if !is_valid_usage {
            plan.streams.expect_wrong_usage()?;
        }
        Ok(plan)
    }

    /// Returns the plan for the command of a row, with a file that holds the row's repository.
    pub fn for_row(
        alloc: Global,
        script: &'b Script<'b>,
        case: &'b Case<'b>,
        row: &Row<'b>,
    ) -> Result<Plan<'b>, Trouble> {
        let mut plan = Plan::new(alloc, script);
        plan.add_row(alloc, case, row)?;
        Ok(plan)
    }

    // Adds the arguments, messages and files of a row.
    fn add_row(&mut self, alloc: Global, case: &'b Case<'b>, row: &Row<'b>) -> Result<(), Trouble> {
        add_command(alloc, row.command, &mut self.arguments)?;
        self.streams.expect_row(row)?;
        self.add_files_of(row.command, case.new_file)
    }

    // Adds the files that a command reads, and the file that the command writes, if any.
    fn add_files_of(
        &mut self,
        command: Invocation<'b>,
        new_file: Option<&'b str>,
    ) -> Result<(), Trouble> {
        if command.program != Program::Lines && command.program != Program::LsClient {
            self.add_file(command.repository_name)?;
        }
        if command.program == Program::Simulate {
            let (client, scenario) = split_first_word(command.operands);
            self.add_file(client)?;
            self.add_file(scenario)?;
        }
        if command.program == Program::Fetch {
            self.expect_file(command.repository_name, new_file)?;
        }
        Ok(())
    }

    // Adds a file that has the name and the contents of a named text.
    fn add_file(&mut self, text_name: &'b str) -> Result<(), Trouble> {
        let name = file_name_for(text_name);
        let item = InitialItem::File {
            name,
            text: text_name,
        };
        self.initial_items.push(item).map_err(Trouble::from)
    }

    // If `text` is a name, expects the file to hold the text with that name after the launch.
    fn expect_file(&mut self, file: &'b str, text: Option<&'b str>) -> Result<(), Trouble> {
        let Some(text) = text else {
            return Ok(());
        };
        let name = file_name_for(file);
        self.final_items
            .push(FinalItem::File { name, text })
            .map_err(Trouble::from)
    }

    /// Returns a plan for a server and a client in one process. `arguments` holds the names of both
    /// repositories and the refspecs, separated by spaces.
    pub fn for_pair(
        alloc: Global,
        script: &'b Script<'b>,
        case: &Case<'_>,
        arguments: &'b str,
    ) -> Result<Plan<'b>, Trouble> {
        let mut plan = Plan::new(alloc, script);
        plan.add_pair(alloc, case, arguments)?;
        Ok(plan)
    }

    // Adds the arguments, the messages, and the files of both repositories.
    fn add_pair(
        &mut self,
        alloc: Global,
        case: &Case<'_>,
        arguments: &'b str,
    ) -> Result<(), Trouble> {
        push_arguments(alloc, "gitv2 pair", &mut self.arguments)?;
        push_arguments(alloc, arguments, &mut self.arguments)?;
        let streams = CommandStreams::of_command("pair");
        self.streams
            .expect_transcript(case.transcript.as_slice(), &[], streams)?;
        let (server, rest) = split_first_word(arguments);
        let (client, _) = split_first_word(rest);
        self.add_file(server)?;
        self.add_file(client)
    }

    /// Returns the plan for a launch that a case describes.
    pub fn for_launch(
        alloc: Global,
        script: &'b Script<'b>,
        case: &Case<'_>,
        launch: &Launch<'b>,
    ) -> Result<Plan<'b>, Trouble> {
        let mut plan = Plan::new(alloc, script);
        plan.steps = launch.steps;
        plan.failing_step = launch.failing_step;
        plan.add_launch(alloc, case, launch)?;
        Ok(plan)
    }

    // Adds the arguments, messages and files of a launch.
    fn add_launch(
        &mut self,
        alloc: Global,
        case: &Case<'_>,
        launch: &Launch<'b>,
    ) -> Result<(), Trouble> {
        push_arguments(alloc, "gitv2", &mut self.arguments)?;
        push_arguments(alloc, launch.arguments, &mut self.arguments)?;
        self.expect_streams(case, launch)?;
        self.initial_items
            .extend_from_slice(launch.initial_items.as_slice())?;
        self.final_items
            .extend_from_slice(launch.final_items.as_slice())
            .map_err(Trouble::from)
    }

    // Adds the messages of a launch, and its exit status.
    fn expect_streams(&mut self, case: &Case<'_>, launch: &Launch<'b>) -> Result<(), AllocError> {
        self.streams.expect_transcript(
            case.transcript.as_slice(),
            launch.connection_starts.as_slice(),
            CommandStreams::of_command(launch.arguments),
        )?;
        if launch.status.is_some() {
            self.streams.status = launch.status;
        }
        Ok(())
    }
}
