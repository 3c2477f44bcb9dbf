//! Results of parsing or writing one text, such as a ref name, an id, a refspec, a repository, a
//! pack, a scenario or a payload.
//!
//! The result of a valid text is `ok`. For some kinds of texts, counts or parts of the text follow.
//! The result of an invalid text is the fault's number and name, and for some faults the position
//! or the line. For `name-text` the result is only the printed text of the fault.

use crate::formatting::{format_fault, format_fault_at};
use crate::repository_text::{load_text, save_text};
use case_text::{Fact, Trouble};
use ggrammar::MessageFault;
use ggraph::{IndexFault, Indexer, LoadFault, Order, PlainPack, Repository};
use ghello::{Hello, read_hello};
use gname::{Format, NameFault, Oid, OidFault, Prefix, RefName};
use gpkt::memory::{Limited, SliceSource, VecSink};
use gpkt::{Band, PacketReader, PacketWriter, Source, WriteFault, band_of};
use grefs::{Spec, SpecFault};
use gscenario::{Scenario, ScenarioFault};
use std::alloc::{Allocator, Global};

/// Returns the result of parsing or writing the fact's text. A read or write transfers at most
/// `max_per_call` bytes.
pub(crate) fn actual_result<A: Allocator + Copy>(
    alloc: Global,
    tested_alloc: A,
    fact: &Fact<'_>,
    max_per_call: usize,
) -> Result<String, Trouble> {
    let text = fact.text.as_slice();
    match fact.keyword {
        "name" => name_result(alloc, tested_alloc, text),
        "name-text" => name_fault_text(alloc, text),
        "prefix" => prefix_result(alloc, tested_alloc, text),
        "id" => id_result(alloc, fact.format, text),
        "id64" => id_result(alloc, Format::Sha256, text),
        "spec" => spec_result(alloc, tested_alloc, text),
        "hello" => hello_result(alloc, tested_alloc, text, max_per_call),
        "load" => repository_result(alloc, tested_alloc, text, Order::Any),
        "load-parents-first" => repository_result(alloc, tested_alloc, text, Order::ParentsFirst),
        "pack" => pack_result(alloc, tested_alloc, text, max_per_call),
        "scenario" => scenario_result(alloc, tested_alloc, text),
        "band" => band_result(alloc, text),
        _ => payload_result(alloc, text, max_per_call),
    }
}

fn name_result<A: Allocator + Copy>(
    alloc: Global,
    tested_alloc: A,
    text: &[u8],
) -> Result<String, Trouble> {
    match RefName::new(tested_alloc, text) {
        Ok(name) => comparison_text(alloc, name.as_bytes() == text),
        Err(fault) => format_name_fault(alloc, &fault),
    }
}

// Returns the printed text of the fault in a name, or `ok` if the name is valid.
fn name_fault_text(alloc: Global, text: &[u8]) -> Result<String, Trouble> {
    match RefName::check(text) {
        Ok(()) => comparison_text(alloc, true),
        Err(fault) => Ok(format!(in alloc; "{fault}")?),
    }
}

fn prefix_result<A: Allocator + Copy>(
    alloc: Global,
    tested_alloc: A,
    text: &[u8],
) -> Result<String, Trouble> {
    match Prefix::new(tested_alloc, text) {
        Ok(prefix) => comparison_text(alloc, prefix.as_bytes() == text),
        Err(fault) => format_name_fault(alloc, &fault),
    }
}

fn id_result(alloc: Global, format: Format, text: &[u8]) -> Result<String, Trouble> {
    match Oid::from_hex_in(format, text) {
        Ok(_) => comparison_text(alloc, true),
        Err(fault) => format_id_fault(alloc, &fault),
    }
}

fn spec_result<A: Allocator + Copy>(
    alloc: Global,
    tested_alloc: A,
    text: &[u8],
) -> Result<String, Trouble> {
    match parse_spec(tested_alloc, text) {
        Ok(_) => comparison_text(alloc, true),
        Err(fault) => format_fault(alloc, fault.code(), fault.name()),
    }
}

fn parse_spec<A: Allocator + Copy>(tested_alloc: A, text: &[u8]) -> Result<Spec<A>, SpecFault> {
    Spec::parse(tested_alloc, text)
}

fn hello_result<A: Allocator + Copy>(
    alloc: Global,
    tested_alloc: A,
    text: &[u8],
    max_per_call: usize,
) -> Result<String, Trouble> {
    let mut source = Limited::new(SliceSource::new(text)).with_most(max_per_call);
    match PacketReader::new(tested_alloc, &mut source) {
        Ok(mut reader) => format_hello_result(alloc, &read_first_line(tested_alloc, &mut reader)),
        Err(fault) => format_fault(alloc, fault.code(), fault.name()),
    }
}

fn read_first_line<A: Allocator + Copy, S: Source>(
    tested_alloc: A,
    reader: &mut PacketReader<S, A>,
) -> Result<Hello<A>, MessageFault> {
    read_hello(reader, tested_alloc)
}

fn format_hello_result<A: Allocator + Copy>(
    alloc: Global,
    outcome: &Result<Hello<A>, MessageFault>,
) -> Result<String, Trouble> {
    match outcome {
        Ok(hello) => format_hello(alloc, hello.host(), hello.path()),
        Err(fault) => format_fault(alloc, fault.code(), fault.name()),
    }
}

fn format_hello(alloc: Global, host: &[u8], path: &[u8]) -> Result<String, Trouble> {
    match (std::str::from_utf8(host), std::str::from_utf8(path)) {
        (Ok(host), Ok(path)) => Ok(format!(in alloc; "ok {host} {path}")?),
        _ => comparison_text(alloc, false),
    }
}

// Parses a repository, and checks that saving it produces the same text.
fn repository_result<A: Allocator + Copy>(
    alloc: Global,
    tested_alloc: A,
    text: &[u8],
    order: Order,
) -> Result<String, Trouble> {
    match load_text(tested_alloc, text, order) {
        Ok(repository) => compare_saved_text(alloc, tested_alloc, &repository, text),
        Err(fault) => format_load_fault(alloc, &fault),
    }
}

fn compare_saved_text<A: Allocator + Copy>(
    alloc: Global,
    tested_alloc: A,
    repository: &Repository<A>,
    text: &[u8],
) -> Result<String, Trouble> {
    match save_text(tested_alloc, repository) {
        Ok(saved_text) => comparison_text(alloc, saved_text.as_slice() == text),
        Err(fault) => format_fault(alloc, fault.code(), fault.name()),
    }
}

fn format_load_fault(alloc: Global, fault: &LoadFault) -> Result<String, Trouble> {
    match fault {
        LoadFault::Text { line } | LoadFault::ParentLater { line } => {
            format_fault_at(alloc, fault.code(), fault.name(), "line", *line)
        }
        LoadFault::Memory => format_fault(alloc, fault.code(), fault.name()),
    }
}

fn pack_result<A: Allocator + Copy>(
    alloc: Global,
    tested_alloc: A,
    text: &[u8],
    max_per_call: usize,
) -> Result<String, Trouble> {
    match count_entries(tested_alloc, text, max_per_call) {
        Ok(count) => Ok(format!(in alloc; "ok {count}")?),
        Err(IndexFault::Bad { line }) => format_fault_at(alloc, 66, "Bad", "line", line),
        Err(IndexFault::Memory) => format_fault(alloc, 66, "Memory"),
        Err(fault) => format_fault(alloc, fault.code(), fault.name()),
    }
}

// Passes a pack to the indexer in pieces, and returns the number of the pack's entries.
fn count_entries<A: Allocator + Copy>(
    tested_alloc: A,
    text: &[u8],
    max_per_call: usize,
) -> Result<usize, IndexFault> {
    let mut feed = PlainPack.start(tested_alloc)?;
    let mut unread = text;
    for _ in 0..text.len() {
        let (piece, remaining) = unread.split_at(max_per_call.min(unread.len()));
        if piece.is_empty() {
            break;
        }
        PlainPack.feed(&mut feed, piece)?;
        unread = remaining;
    }
    Ok(PlainPack.finish(feed)?.len())
}

// Returns the number of events in a scenario.
fn scenario_result<A: Allocator + Copy>(
    alloc: Global,
    tested_alloc: A,
    text: &[u8],
) -> Result<String, Trouble> {
    match Scenario::read(tested_alloc, text) {
        Ok(events) => {
            let count = events.len();
            Ok(format!(in alloc; "ok {count}")?)
        }
        Err(ScenarioFault::Scenario { line }) => format_fault_at(
            alloc, 92, "Scenario", "line", line,
        ),
        Err(fault) => format_fault(alloc, fault.code(), fault.name()),
    }
}

// Returns the result of writing a payload as one packet. A write that fails must not write any
// byte.
fn payload_result(alloc: Global, text: &[u8], max_per_call: usize) -> Result<String, Trouble> {
    let mut sink = Limited::new(VecSink::new(alloc)).with_most(max_per_call);
    let outcome = write_packet(&mut sink, text);
    let sink = sink.into_inner();
    match outcome {
        Ok(()) => comparison_text(alloc, sink.written_bytes().get(4..) == Some(text)),
        Err(fault) if sink.written_bytes().is_empty() => format_fault(
            alloc,
            fault.code(),
            fault.name(),
        ),
        Err(_) => comparison_text(alloc, false),
    }
}

fn write_packet(sink: &mut Limited<VecSink>, text: &[u8]) -> Result<(), WriteFault> {
    let mut writer = PacketWriter::new(sink);
    let outcome = writer.put(text);
    let _sink = writer.into_inner();
    outcome
}

// Returns the side band of a payload, and the number of bytes after the band byte.
fn band_result(alloc: Global, text: &[u8]) -> Result<String, Trouble> {
    let (word, bytes) = match band_of(text) {
        Ok(Band::Data(bytes)) => ("data", bytes),
        Ok(Band::Progress(bytes)) => ("progress", bytes),
        Ok(Band::Fatal(bytes)) => ("fatal", bytes),
        Err(fault) => return format_fault(alloc, fault.code(), fault.name()),
    };
    if text.get(1..) != Some(bytes) {
        return comparison_text(alloc, false);
    }
    let count = bytes.len();
    Ok(format!(in alloc; "ok {word} {count}")?)
}

fn comparison_text(alloc: Global, is_same: bool) -> Result<String, Trouble> {
    let word = if is_same { "ok" } else { "another text" };
    Ok(String::from_str(alloc, word)?)
}

fn format_name_fault(alloc: Global, fault: &NameFault) -> Result<String, Trouble> {
    match fault {
        NameFault::BadByte { at }
        | NameFault::Component { at }
        | NameFault::DoubleDot { at }
        | NameFault::AtBrace { at } => format_fault_at(
            alloc,
            fault.code(),
            fault.name(),
            "at",
            *at,
        ),
        _ => format_fault(alloc, fault.code(), fault.name()),
    }
}

fn format_id_fault(alloc: Global, fault: &OidFault) -> Result<String, Trouble> {
    match fault {
        OidFault::Digit { at } => format_fault_at(alloc, fault.code(), fault.name(), "at", *at),
        _ => format_fault(alloc, fault.code(), fault.name()),
    }
}
