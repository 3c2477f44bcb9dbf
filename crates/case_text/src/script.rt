//! The parser of test files.
//!
//! `crates/conformance/FORMAT.md` describes the format of cases (there called rows), facts, texts
//! and talks. A talk is a named list of lines that cases can use.

use crate::case::{Case, Fact, TranscriptEntry};
use crate::command::split_first_word;
use crate::escapes::{EscapeContext, NamedText, expand_escapes, find_text, parse_number};
use crate::kind::FactKind;
use crate::line_parser::{adapt_to_format, add_entries, add_keyword_entries};
use crate::long_texts::{first_line, long_text};
use crate::packets::concatenate;
use crate::table::{ExpectedOutcome, TableLine};
use crate::trouble::Trouble;
use gname::Format;
use std::alloc::Global;

/// The contents of the test files parsed so far. All ids in the contents have one format.
#[derive(Drop)]
pub struct Script<'a> {
    pub format: Format,
    pub cases: Vec<Case<'a>>,
    pub facts: Vec<Fact<'a>>,
    /// The name of the most recently parsed file.
    pub file_name: &'a str,
    /// The number of the most recently parsed line.
    pub line_number: usize,
    texts: Vec<NamedText<'a>>,
    talks: Vec<Talk<'a>>,
    open_block: OpenBlock,
    repetitions: usize,
    // The name of the text block that holds the graph for the facts after the current line.
    graph_name: &'a str,
    // Whether the cases and facts after the current line are tested with ids of both formats.
    runs_both_formats: bool,
    // Whether the following lines are skipped because their case runs only with SHA-1 ids.
    skips_case: bool,
}

// A named list of lines that cases can use.
#[derive(Drop)]
struct Talk<'a> {
    name: &'a str,
    lines: Vec<&'a str>,
}

// The kind of block that continues until an empty line: a text or a talk.
#[derive(Clone, Copy)]
enum OpenBlock {
    None,
    Text,
    Talk,
}

impl<'a> Script<'a> {
    /// Returns an empty script for ids of this format.
    pub fn new(alloc: Global, format: Format) -> Script<'a> {
        Script {
            format,
            cases: Vec::new(alloc),
            facts: Vec::new(alloc),
            file_name: "",
            line_number: 0,
            texts: Vec::new(alloc),
            talks: Vec::new(alloc),
            open_block: OpenBlock::None,
            repetitions: 1,
            graph_name: "",
            runs_both_formats: true,
            skips_case: false,
        }
    }

    /// Parses the text of the file with this name.
    pub fn read_file(
        &mut self,
        alloc: Global,
        file_name: &'a str,
        text: &'a str,
    ) -> Result<(), Trouble> {
        self.file_name = file_name;
        self.line_number = 0;
        self.runs_both_formats = true;
        for line in text.lines() {
            self.line_number = self.line_number.saturating_add(1);
            self.read_line(alloc, line)?;
        }
        self.open_block = OpenBlock::None;
        self.check_last_case()
    }

    /// Returns the text with this name, or an empty text for an empty name.
    pub fn text(&self, name: &str) -> Result<&[u8], Trouble> {
        if name.is_empty() {
            return Ok(b"");
        }
        match find_text(self.texts.as_slice(), name.as_bytes()) {
            Some(text) => Ok(text),
            None => Err(Trouble::UnknownName),
        }
    }

    fn read_line(&mut self, alloc: Global, line: &'a str) -> Result<(), Trouble> {
        if line.is_empty() {
            self.open_block = OpenBlock::None;
            return Ok(());
        }
        match self.open_block {
            OpenBlock::Text => self.add_to_text(alloc, line),
            OpenBlock::Talk => self.add_to_talk(line),
            OpenBlock::None if line.starts_with('#') => Ok(()),
            OpenBlock::None => self.read_outer_line(alloc, line),
        }
    }

    // Parses a line outside a text or a talk.
    fn read_outer_line(&mut self, alloc: Global, line: &'a str) -> Result<(), Trouble> {
        let (keyword, value) = split_first_word(line);
        match keyword {
            "text" => self.begin_text(alloc, value),
            "talk" => self.begin_talk(alloc, value),
            "row" => self.begin_case(alloc, value),
            "both" => self.set_runs_both_formats(true),
            "single" => self.set_runs_both_formats(false),
            "graph" => self.set_graph(value),
            "long" if !value.is_empty() => self.add_long_text(alloc, value),
            _ => self.read_fact_or_case_line(alloc, keyword, value),
        }
    }

    // Parses a line of a fact or of a case.
    fn read_fact_or_case_line(
        &mut self,
        alloc: Global,
        keyword: &'a str,
        value: &'a str,
    ) -> Result<(), Trouble> {
        match FactKind::from_keyword(keyword) {
            Some(kind) => self.add_fact(alloc, kind, keyword, value),
            None if self.skips_case => Ok(()),
            None if keyword == "use" => self.use_talk(alloc, value),
            None => self.add_to_case(alloc, keyword, value),
        }
    }

    fn set_runs_both_formats(&mut self, runs_both_formats: bool) -> Result<(), Trouble> {
        self.runs_both_formats = runs_both_formats;
        Ok(())
    }

    fn set_graph(&mut self, name: &'a str) -> Result<(), Trouble> {
        self.graph_name = name;
        Ok(())
    }

    // Returns whether this script has SHA-256 ids, but the cases and facts after the current line
    // are only for SHA-1 ids.
    fn excludes_format(&self) -> bool {
        self.format == Format::Sha256 && !self.runs_both_formats
    }

    fn set_repetitions(&mut self, digits: &str) -> Result<(), Trouble> {
        self.repetitions = parse_number(digits.as_bytes());
        Ok(())
    }

    fn escape_context(&self, repetition: usize) -> EscapeContext<'_, 'a> {
        EscapeContext {
            texts: self.texts.as_slice(),
            format: self.format,
            repetition,
        }
    }

    // Returns the bytes of a line after all escapes are replaced.
    fn expand(&self, alloc: Global, line: &str) -> Result<Vec<u8>, Trouble> {
        expand_escapes(alloc, line, self.escape_context(1))
    }

    fn use_talk(&mut self, alloc: Global, name: &str) -> Result<(), Trouble> {
        let escape_context = EscapeContext {
            texts: self.texts.as_slice(),
            format: self.format,
            repetition: 1,
        };
        let talks = self.talks.as_slice();
        match self.cases.last_mut() {
            Some(case) => add_talk(alloc, talks, name, escape_context, &mut case.transcript),
            None => Err(Trouble::NoCurrentRow),
        }
    }

    fn add_long_text(&mut self, alloc: Global, name: &'a str) -> Result<(), Trouble> {
        let bytes = long_text(alloc, name, self.format)?;
        self.add_text(name, bytes)
    }

    fn begin_text(&mut self, alloc: Global, name: &'a str) -> Result<(), Trouble> {
        self.open_block = OpenBlock::Text;
        self.add_text(name, Vec::new(alloc))
    }

    fn add_text(&mut self, name: &'a str, bytes: Vec<u8>) -> Result<(), Trouble> {
        self.texts.push(NamedText {
            name: name.as_bytes(),
            bytes,
        })?;
        Ok(())
    }

    fn begin_talk(&mut self, alloc: Global, name: &'a str) -> Result<(), Trouble> {
        self.open_block = OpenBlock::Talk;
        self.talks.push(Talk {
            name,
            lines: Vec::new(alloc),
        })?;
        Ok(())
    }

    fn add_to_talk(&mut self, line: &'a str) -> Result<(), Trouble> {
        let Some(talk) = self.talks.last_mut() else {
            return Err(Trouble::UnknownLine);
        };
        talk.lines.push(line)?;
        Ok(())
    }

    fn add_to_text(&mut self, alloc: Global, line: &'a str) -> Result<(), Trouble> {
        if let Some(repetitions) = line.strip_prefix("times ") {
            return self.set_repetitions(repetitions);
        }
        let line = adapt_to_format(self.format, line);
        for repetition in 1..=self.take_repetitions() {
            self.add_text_line(alloc, line, repetition)?;
        }
        Ok(())
    }

    // Appends a line to the last text.
    fn add_text_line(
        &mut self,
        alloc: Global,
        line: &str,
        repetition: usize,
    ) -> Result<(), Trouble> {
        let bytes = expand_escapes(alloc, line, self.escape_context(repetition))?;
        if let Some(text) = self.texts.last_mut() {
            text.bytes.extend_from_slice(bytes.as_slice())?;
            text.bytes.push(b'\n')?;
        }
        Ok(())
    }

    // Returns how many times the next line is repeated, and resets that number to 1.
    fn take_repetitions(&mut self) -> usize {
        let repetitions = self.repetitions;
        self.repetitions = 1;
        repetitions
    }

    // Fails with `RowWithoutProgram` if the last case names no program and has no launch.
    fn check_last_case(&self) -> Result<(), Trouble> {
        match self.cases.last() {
            Some(case) if case.commands.is_empty() && case.launch.is_none() => Err(
                Trouble::RowWithoutProgram,
            ),
            _ => Ok(()),
        }
    }

    fn begin_case(&mut self, alloc: Global, name: &'a str) -> Result<(), Trouble> {
        self.check_last_case()?;
        self.repetitions = 1;
        self.skips_case = self.excludes_format();
        if self.skips_case {
            return Ok(());
        }
        self.cases
            .push(Case::new(alloc, self.file_name, self.line_number, name))?;
        Ok(())
    }

    fn add_fact(
        &mut self,
        alloc: Global,
        kind: FactKind,
        keyword: &'a str,
        value: &'a str,
    ) -> Result<(), Trouble> {
        let Some((expected, text)) = value.split_once(": ") else {
            return Err(Trouble::UnknownLine);
        };
        if self.excludes_format() {
            return Ok(());
        }
        let expected = self.expand(alloc, expected)?;
        let text = self.fact_text(alloc, text)?;
        self.facts.push(Fact {
            file_name: self.file_name,
            line_number: self.line_number,
            kind,
            keyword,
            format: self.format,
            graph_name: self.graph_name,
            expected,
            text,
        })?;
        Ok(())
    }

    // Returns the text of a fact. The first line of a repository's text is adapted to the script's
    // object format.
    fn fact_text(&self, alloc: Global, line: &str) -> Result<Vec<u8>, Trouble> {
        match line.strip_prefix("gitv2 1\\n") {
            Some(rest) => {
                let rest = self.expand(alloc, rest)?;
                concatenate(alloc, first_line(self.format), rest.as_slice())
            }
            None => self.expand(alloc, line),
        }
    }

    fn add_to_case(
        &mut self,
        alloc: Global,
        keyword: &'a str,
        value: &'a str,
    ) -> Result<(), Trouble> {
        match keyword {
            "times" => self.set_repetitions(value),
            "memory" => self.add_memory_fault(alloc, value),
            "packets" => self.add_packet_offsets(value),
            "cut" | "change" => self.add_table_line(alloc, keyword == "cut", value),
            _ => self.read_case_line(alloc, keyword, value),
        }
    }

    // Parses a line about the whole case, about its launch or about its transcript.
    fn read_case_line(
        &mut self,
        alloc: Global,
        keyword: &'a str,
        value: &'a str,
    ) -> Result<(), Trouble> {
        let Some(case) = self.cases.last_mut() else {
            return Err(Trouble::NoCurrentRow);
        };
        if case.read_line(alloc, keyword, value)? {
            return Ok(());
        }
        self.add_repeated_entries(alloc, keyword, value)
    }

    // Appends the transcript entries of a line once for each repetition of the line.
    fn add_repeated_entries(
        &mut self,
        alloc: Global,
        keyword: &'a str,
        value: &'a str,
    ) -> Result<(), Trouble> {
        let repetitions = self.take_repetitions();
        let Some(case) = self.cases.last_mut() else {
            return Err(Trouble::NoCurrentRow);
        };
        for repetition in 1..=repetitions {
            let escape_context = EscapeContext {
                texts: self.texts.as_slice(),
                format: self.format,
                repetition,
            };
            add_keyword_entries(alloc, keyword, value, escape_context, &mut case.transcript)?;
        }
        Ok(())
    }

    fn add_memory_fault(&mut self, alloc: Global, line: &str) -> Result<(), Trouble> {
        let fault = self.expand(alloc, line)?;
        match self.cases.last_mut() {
            Some(case) => Ok(case.memory_faults.push(fault)?),
            None => Err(Trouble::NoCurrentRow),
        }
    }

    fn add_packet_offsets(&mut self, offsets: &str) -> Result<(), Trouble> {
        let Some(case) = self.cases.last_mut() else {
            return Err(Trouble::NoCurrentRow);
        };
        for offset in offsets.split(' ') {
            case.packet_offsets.push(parse_number(offset.as_bytes()))?;
        }
        Ok(())
    }

    // Adds a line to the table of results for a truncated or changed request.
    fn add_table_line(
        &mut self,
        alloc: Global,
        is_cut: bool,
        line: &'a str,
    ) -> Result<(), Trouble> {
        let Some((offsets, expected)) = line.split_once(" = ") else {
            return Err(Trouble::UnknownLine);
        };
        let expected = self.parse_expected_outcome(alloc, expected)?;
        let Some(case) = self.cases.last_mut() else {
            return Err(Trouble::NoCurrentRow);
        };
        case.table.push(TableLine::new(is_cut, offsets, expected))?;
        Ok(())
    }

    fn parse_expected_outcome(
        &self,
        alloc: Global,
        expected: &'a str,
    ) -> Result<ExpectedOutcome<'a>, Trouble> {
        if expected == "as it stands" {
            return Ok(ExpectedOutcome::unchanged(alloc));
        }
        if expected == "nothing" {
            return Ok(ExpectedOutcome::with_output(Vec::new(alloc)));
        }
        if let Some(name) = expected.strip_prefix("use ") {
            return Ok(ExpectedOutcome::with_output(self.talk_bytes(alloc, name)?));
        }
        match expected.split_once(" | ") {
            Some((text, fault)) => Ok(ExpectedOutcome::with_error_packet(alloc, text, fault)),
            None => Err(Trouble::UnknownLine),
        }
    }

    // Returns the bytes of all entries in the talk with this name.
    fn talk_bytes(&self, alloc: Global, name: &str) -> Result<Vec<u8>, Trouble> {
        let mut transcript = Vec::new(alloc);
        add_talk(
            alloc,
            self.talks.as_slice(),
            name,
            self.escape_context(1),
            &mut transcript,
        )?;
        bytes_of_entries(alloc, transcript.as_slice())
    }
}

// Appends the transcript entries of the talk with this name.
fn add_talk(
    alloc: Global,
    talks: &[Talk<'_>],
    name: &str,
    escape_context: EscapeContext<'_, '_>,
    transcript: &mut Vec<TranscriptEntry>,
) -> Result<(), Trouble> {
    let Some(lines) = talk_lines(talks, name) else {
        return Err(Trouble::UnknownName);
    };
    for line in lines {
        add_entries(alloc, line, escape_context, transcript)?;
    }
    Ok(())
}

fn bytes_of_entries(alloc: Global, transcript: &[TranscriptEntry]) -> Result<Vec<u8>, Trouble> {
    let mut bytes = Vec::new(alloc);
    for entry in transcript {
        bytes.extend_from_slice(entry.bytes.as_slice())?;
    }
    Ok(bytes)
}

// Returns the lines of the talk with this name, or `None` if there is no such talk.
fn talk_lines<'b, 'a>(talks: &'b [Talk<'a>], name: &str) -> Option<&'b [&'a str]> {
    for talk in talks {
        if talk.name == name {
            return Some(talk.lines.as_slice());
        }
    }
    None
}
