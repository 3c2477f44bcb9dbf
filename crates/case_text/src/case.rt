//! The cases and the facts of test files.

use crate::kind::FactKind;
use crate::launch::Launch;
use crate::pack_tools::PackTool;
use crate::table::TableLine;
use crate::trouble::Trouble;
use gname::Format;
use std::alloc::Global;

/// The sender of a packet, or the stream on which the program prints a line.
#[derive(Clone, Copy, PartialEq, Eq)]
pub enum Speaker {
    Client,
    Server,
    /// The standard output of the program, for lines that are not packets.
    Output,
    /// The standard error of the program.
    Errors,
    /// The report that a client prints: its ref updates, or the listed refs.
    Report,
}

impl Speaker {
    /// Returns whether this speaker is a peer: the client or the server, and not a stream.
    pub fn is_peer(self) -> bool {
        match self {
            Speaker::Client | Speaker::Server => true,
            Speaker::Output | Speaker::Errors | Speaker::Report => false,
        }
    }
}

/// A packet that the client or the server sends, or a line that the program prints.
#[derive(Drop)]
pub struct TranscriptEntry {
    pub speaker: Speaker,
    pub bytes: Vec<u8>,
}

/// A case of a test file: messages, the programs to run, and the expected results.
#[derive(Drop)]
pub struct Case<'a> {
    /// The name of the test file.
    pub file_name: &'a str,
    /// The number of the line in which the case begins.
    pub line_number: usize,
    pub name: &'a str,
    /// The command lines of the programs to run.
    pub commands: Vec<&'a str>,
    /// The arguments and files of a launch, for a case that launches the program itself.
    pub launch: Option<Launch<'a>>,
    /// The packets that the peers send and the lines that the program prints, in order.
    pub transcript: Vec<TranscriptEntry>,
    /// The name of the text that the client's file must hold after the run, if the file changes.
    pub new_file: Option<&'a str>,
    /// The packer or indexer that the program uses instead of `PlainPack`, if any.
    pub pack_tool: Option<PackTool>,
    /// The fault lines that the program must print, in this order, as each allocation is refused in
    /// turn.
    pub memory_faults: Vec<Vec<u8>>,
    /// The offsets at which packets begin in the last message that the program reads. The list is
    /// empty if the case lists no offsets.
    pub packet_offsets: Vec<usize>,
    /// The expected results when the request is truncated or one of its bytes is changed.
    pub table: Vec<TableLine<'a>>,
    /// Whether the case is tested only with its unchanged input. Some runs read the input at once,
    /// and others read it in pieces.
    pub is_long: bool,
    /// Whether the tests change each byte of the input to every other value.
    pub is_deep: bool,
    /// Whether the case is also tested with a peer that sends or accepts bytes late, and over a
    /// socket while each allocation is refused in turn.
    pub is_late: bool,
    /// Whether the tests must not add response-end packets to the replies.
    pub forbids_response_ends: bool,
}

impl<'a> Case<'a> {
    /// Returns an empty case with this name, which begins at this line of the file.
    pub(crate) fn new(
        alloc: Global,
        file_name: &'a str,
        line_number: usize,
        name: &'a str,
    ) -> Case<'a> {
        Case {
            file_name,
            line_number,
            name,
            commands: Vec::new(alloc),
            launch: None,
            transcript: Vec::new(alloc),
            new_file: None,
            pack_tool: None,
            memory_faults: Vec::new(alloc),
            packet_offsets: Vec::new(alloc),
            table: Vec::new(alloc),
            is_long: false,
            is_deep: false,
            is_late: false,
            forbids_response_ends: false,
        }
    }

    /// Reads a line about the whole case or about its launch. Returns `false` for any other line.
    pub(crate) fn read_line(
        &mut self,
        alloc: Global,
        keyword: &str,
        value: &'a str,
    ) -> Result<bool, Trouble> {
        match keyword {
            "run" => self.commands.push(value)?,
            "words" => self.launch = Some(Launch::new(alloc, value)),
            "file" => self.new_file = Some(value),
            "long" => self.is_long = true,
            "deep" => self.is_deep = true,
            "late" => self.is_late = true,
            "plain" => self.forbids_response_ends = true,
            _ => return self.read_tool_line(keyword, value),
        }
        Ok(true)
    }

    // Reads a line about a packer or an indexer, or about a launch. Returns `false` for any other
    // line.
    fn read_tool_line(&mut self, keyword: &str, value: &'a str) -> Result<bool, Trouble> {
        let pack_tool = match keyword {
            "packer" => PackTool::packer_named(value),
            "indexer" => PackTool::indexer_named(value),
            _ => return self.read_launch_line(keyword, value),
        };
        if pack_tool.is_none() {
            return Err(Trouble::UnknownPackTool);
        }
        self.pack_tool = pack_tool;
        Ok(true)
    }

    // Reads a line about a launch of the program. Returns `false` if the line is not about the
    // launch, or if the case has no launch.
    fn read_launch_line(&mut self, keyword: &str, value: &'a str) -> Result<bool, Trouble> {
        let entry_count = self.transcript.len();
        match &mut self.launch {
            Some(launch) => launch.read_line(keyword, value, entry_count),
            None => Ok(false),
        }
    }
}

/// The expected result of one function call on a text, or on ids of a graph.
#[derive(Drop)]
pub struct Fact<'a> {
    /// The name of the test file.
    pub file_name: &'a str,
    /// The number of the fact's line.
    pub line_number: usize,
    pub kind: FactKind,
    /// The first word of the fact's line in the file.
    pub keyword: &'a str,
    pub format: Format,
    /// The name of the text block that holds the graph.
    pub graph_name: &'a str,
    /// The expected result of the call.
    pub expected: Vec<u8>,
    /// The argument of the call.
    pub text: Vec<u8>,
}
