//! Launches of the program itself, with their arguments, files and standard streams.

use crate::command::split_first_word;
use crate::trouble::Trouble;
use std::alloc::Global;

/// A file, folder or link that the test creates before a launch, or permissions that the test sets.
#[derive(Clone, Copy)]
pub enum InitialItem<'a> {
    /// A file that holds the named text of the test file.
    File { name: &'a str, text: &'a str },
    /// A folder.
    Folder { name: &'a str },
    /// A symbolic link to `target`.
    Link { name: &'a str, target: &'a str },
    /// The permissions of a file or folder that an earlier item creates.
    Mode { name: &'a str, mode: u32 },
}

/// An expectation about the folder after a launch. A file that existed before the launch must keep
/// its contents, unless an item states the file's new text or absence.
#[derive(Clone, Copy)]
pub enum FinalItem<'a> {
    /// A file that holds the named text of the test file.
    File { name: &'a str, text: &'a str },
    /// The absence of an item with this name.
    Absent { name: &'a str },
    /// A file or a folder with these permissions.
    Mode { name: &'a str, mode: u32 },
    /// A symbolic link.
    Link { name: &'a str },
    /// A file that still has the inode from before the launch, because it was not replaced.
    SameFile { name: &'a str },
}

/// The arguments of a launch, and the expected files and exit status after the launch. The messages
/// of the case are sent over standard streams or sockets.
#[derive(Drop)]
pub struct Launch<'a> {
    /// The arguments after the program's name, separated by spaces; `""` is the empty argument.
    pub arguments: &'a str,
    pub initial_items: Vec<InitialItem<'a>>,
    pub final_items: Vec<FinalItem<'a>>,
    /// The expected exit status, if the case states it.
    pub status: Option<u8>,
    /// The expected operations on files, sockets and standard streams, in order, if the case lists
    /// them.
    pub steps: Option<&'a str>,
    /// The index of each transcript entry that starts a new connection.
    pub connection_starts: Vec<usize>,
    /// The operation that fails whenever the program performs it, if any.
    pub failing_step: Option<&'a str>,
}

impl<'a> Launch<'a> {
    /// Returns a launch with these arguments, in an empty folder.
    pub(crate) fn new(alloc: Global, arguments: &'a str) -> Launch<'a> {
        Launch {
            arguments,
            initial_items: Vec::new(alloc),
            final_items: Vec::new(alloc),
            status: None,
            steps: None,
            connection_starts: Vec::new(alloc),
            failing_step: None,
        }
    }

    /// Reads a line, and returns whether the line is about the launch. `entry_count` is the number
    /// of transcript entries before this line.
    pub(crate) fn read_line(
        &mut self,
        keyword: &str,
        value: &'a str,
        entry_count: usize,
    ) -> Result<bool, Trouble> {
        match keyword {
            "next" => self.connection_starts.push(entry_count)?,
            "status" => self.status = Some(parse_status(value)?),
            "steps" => self.steps = Some(value),
            "failing" => self.failing_step = Some(value),
            _ => return self.read_initial_item(keyword, value),
        }
        Ok(true)
    }

    // Reads a line about an item that exists before the launch, or about an item expected after the
    // launch. Returns `false` for any other line.
    fn read_initial_item(&mut self, keyword: &str, value: &'a str) -> Result<bool, Trouble> {
        let (name, value) = split_first_word(value);
        let item = match keyword {
            "found" => InitialItem::File { name, text: value },
            "found-folder" => InitialItem::Folder { name },
            "found-link" => InitialItem::Link {
                name,
                target: value,
            },
            "found-mode" => InitialItem::Mode {
                name,
                mode: parse_mode(value)?,
            },
            _ => return self.read_final_item(keyword, name, value),
        };
        self.initial_items.push(item)?;
        Ok(true)
    }

    // Reads a line about an item expected after the launch. Returns `false` for any other line.
    fn read_final_item(
        &mut self,
        keyword: &str,
        name: &'a str,
        value: &'a str,
    ) -> Result<bool, Trouble> {
        let item = match keyword {
            "left" => FinalItem::File { name, text: value },
            "left-nothing" => FinalItem::Absent { name },
            "left-mode" => FinalItem::Mode {
                name,
                mode: parse_mode(value)?,
            },
            "left-link" => FinalItem::Link { name },
            "left-same" => FinalItem::SameFile { name },
            _ => return Ok(false),
        };
        self.final_items.push(item)?;
        Ok(true)
    }
}

fn parse_status(text: &str) -> Result<u8, Trouble> {
    match text.parse::<u8>() {
        Ok(status) => Ok(status),
        Err(_) => Err(Trouble::UnknownLine),
    }
}

// Parses permissions from octal digits.
fn parse_mode(text: &str) -> Result<u32, Trouble> {
    match u32::from_str_radix(text, 8) {
        Ok(mode) => Ok(mode),
        Err(_) => Err(Trouble::UnknownLine),
    }
}
