//! The printed lines of faults. A line begins with `gitv2: fault NUMBER NAME`. The following parts
//! come after the name, if the fault has them: ` frame K`, ` line K`, ` at K`, and a space with an
//! id, a ref name or an error text. A `?` replaces each byte outside the range 32 to 126.

ghost use Rattle.std.specs.Prelude.{◌≡◌, ◌+◌, ◌≤◌, ◌++◌, length, map, None, []};
ghost use Rattle.std.specs.Option.{option_copied};
ghost use Rattle.gcmd.specs.Faults.{id_in_build, id_in_graph, id_in_request, frame_in_request, line_in_text, place_in_name, printed_of, printed_of_build, printed_of_client, printed_of_fetch, printed_of_name, printed_of_request, printed_of_text, ref_in_build, said_in, said_in_request};
ghost use Rattle.gcmd.specs.steps.Printing.{max_decimal, max_fault_line, max_fault_name, max_subject, row_view, IsShort, IsShortText};
ghost use Rattle.gcmd.specs.Printing.{number_part, printed_line, printable, subject_part};
ghost use Rattle.gcmd.specs.steps.Outputs.{SendsTo};

use crate::client_fault::{frame_in_client, id_in_client, line_in_client, text_in_client};
use crate::compose::add_number;
use crate::fault::ProgramFault;
use crate::send::send;
use arrayvec::ArrayVec;
use ganswer::{BuildFault, ServeFault};
use gclient::{ClientFault, FetchFault};
use ggrammar::Why;
use ggrammar::compose::{add, add_id};
use ggraph::{GraphFault, LoadFault};
use gname::{HEAD, NameFault, OUT_OF_MEMORY, Oid};
use gpkt::{Down, Sink, WriteFault};
use std::alloc::Allocator;

/// The maximum length in bytes of the line that reports a fault. The line has fixed words, a name
/// of 32 bytes, four numbers of 20 digits, and a text of 1,000 bytes.
const MAX_FAULT_LINE: usize = 1_145;

/// The printed parts of a fault.
#[derive(Clone, Copy)]
pub(crate) struct FaultLine<'a> {
    number: u32,
    name: &'static str,
    frame: Option<u64>,
    line: Option<usize>,
    // The index of a byte in a refused name.
    at: Option<usize>,
    id: Option<Oid>,
    // A ref name, or the error text of a peer.
    text: Option<&'a [u8]>,
}

impl<'a> FaultLine<'a> {
    /// Returns the printed parts of the fault.
    pub(crate) fn of<A: Allocator + Copy>(fault: &'a ProgramFault<A>) -> FaultLine<'a>
        ensures row { row_view result ≡ printed_of fault.now }
        ensures short { IsShort result }
    {
        match fault {
            ProgramFault::Memory => FaultLine::plain(OUT_OF_MEMORY.0, OUT_OF_MEMORY.1),
            ProgramFault::File => FaultLine::plain(95, "File"),
            ProgramFault::Text(fault) => FaultLine::of_text(fault),
            ProgramFault::Build(fault) => FaultLine::of_build(fault),
            ProgramFault::Request(fault) => FaultLine::of_request(fault),
            ProgramFault::Line(fault) => FaultLine::plain(fault.code(), fault.name()),
            ProgramFault::Spec(fault) => FaultLine::plain(fault.code(), fault.name()),
            ProgramFault::Fetch(fault) => FaultLine::of_fetch(fault),
            ProgramFault::WriteFailed => FaultLine::plain(
                WriteFault::Io.code(),
                WriteFault::Io.name(),
            ),
            ProgramFault::Name(fault) => FaultLine::of_name(fault),
            ProgramFault::PairLimit => FaultLine::plain(94, "PairLimit"),
            ProgramFault::Socket => FaultLine::plain(96, "Socket"),
        }
    }

    // Returns the line of a fault with only a number and a name.
    fn plain(number: u32, name: &'static str) -> FaultLine<'a>
        requires { length name.now ≤ max_fault_name }
        ensures number { result.number ≡ number }
        ensures name { result.name.now ≡ name.now }
        ensures places { (result.frame ≡ None) × (result.line ≡ None) × (result.at ≡ None) }
        ensures subject { (result.id ≡ None) × (option_copied result.text ≡ None) }
    {
        FaultLine {
            number,
            name,
            frame: None,
            line: None,
            at: None,
            id: None,
            text: None,
        }
    }

    // Returns the line for a text that is not a repository, with the number of the malformed line.
    fn of_text(fault: &LoadFault) -> FaultLine<'a>
        ensures row { row_view result ≡ printed_of_text fault.now }
        ensures short { IsShort result }
    {
        FaultLine {
            line: line_in_text(fault),
            ..FaultLine::plain(fault.code(), fault.name())
        }
    }

    // Returns the line for a refused name, with the index of the refused byte.
    fn of_name(fault: &NameFault) -> FaultLine<'a>
        ensures row { row_view result ≡ printed_of_name fault.now }
        ensures short { IsShort result }
    {
        FaultLine {
            at: place_in_name(fault),
            ..FaultLine::plain(fault.code(), fault.name())
        }
    }

    // Returns the line for a repository that can't be served, with the id in the fault, or the name
    // of the ref whose object is missing.
    fn of_build<A: Allocator + Copy>(fault: &'a BuildFault<A>) -> FaultLine<'a>
        ensures row { row_view result ≡ printed_of_build fault.now }
        ensures short { IsShort result }
    {
        FaultLine {
            id: id_in_build(fault),
            text: ref_in_build(fault),
            ..FaultLine::plain(fault.code(), fault.name())
        }
    }

    // Returns the line for a refused request, with the position of the packet, the error text of a
    // peer, or the missing want.
    fn of_request(fault: &'a ServeFault) -> FaultLine<'a>
        ensures row { row_view result ≡ printed_of_request fault.now }
        ensures short { IsShort result }
    {
        FaultLine {
            frame: frame_in_request(fault),
            id: id_in_request(fault),
            text: said_in_request(fault),
            ..FaultLine::plain(fault.code(), fault.name())
        }
    }

    // Returns the line for a failed fetch.
    fn of_fetch<A: Allocator + Copy>(fault: &'a FetchFault<A>) -> FaultLine<'a>
        ensures row { row_view result ≡ printed_of_fetch fault.now }
        ensures short { IsShort result }
    {
        match fault {
            FetchFault::Client(cause) => FaultLine::of_client(cause),
            FetchFault::NoBuffer | FetchFault::WriteFailed => {
                FaultLine::plain(fault.code(), fault.name())
            }
        }
    }

    // Returns the line for a fault of the client. The line shows these parts if the fault has them:
    // the packet's position, the line number in the pack, and an id, a ref name or an error text.
    fn of_client<A: Allocator + Copy>(fault: &'a ClientFault<A>) -> FaultLine<'a>
        ensures row { row_view result ≡ printed_of_client fault.now }
        ensures short { IsShort result }
    {
        FaultLine {
            frame: frame_in_client(fault),
            line: line_in_client(fault),
            id: id_in_client(fault),
            text: text_in_client(fault),
            ..FaultLine::plain(fault.code(), fault.name())
        }
    }

    pub(crate) fn number(&self) -> u32
        ensures { result ≡ (row_view self.now).number }
    {
        self.number
    }

    pub(crate) fn name(&self) -> &'static str
        ensures { result.now ≡ (row_view self.now).name }
    {
        self.name
    }

    /// Prints the line, and flushes it. Fails if the sink fails, after a prefix of the line was
    /// printed.
    pub(crate) fn print<E: Sink>(&self, errors: &mut E) -> Result<(), Down>
        requires { IsShort self.now }
        ensures { SendsTo E.Sink errors.old errors.new result (printed_line (row_view self.now)) }
    {
        let mut text = ArrayVec::new();
        self.compose(&mut text);
        send(text.as_slice(), errors)
    }

    // Composes the text of the line.
    fn compose(&self, text: &mut ArrayVec<u8, MAX_FAULT_LINE>)
        requires short { IsShort self.now }
        requires empty { text.old.items ≡ [] }
        ensures { text.new.items ≡ printed_line (row_view self.now) }
    {
        add(b"gitv2: fault ", text);
        add_number(u64::from(self.number), text);
        add(b" ", text);
        add(self.name.as_bytes(), text);
        add_place(b" frame ", self.frame, text);
        add_place(b" line ", as_number(self.line), text);
        add_place(b" at ", as_number(self.at), text);
        add_subject(self.id, self.text, text);
        add(b"\n", text);
    }
}

fn as_number(place: Option<usize>) -> Option<u64>
    ensures { result ≡ place }
{
    place.map(|place| place as u64)
}

// Appends the word and the number `place`, or nothing if `place` is `None`.
fn add_place(word: &[u8], place: Option<u64>, text: &mut ArrayVec<u8, MAX_FAULT_LINE>)
    requires { length text.old.items + length word.now + max_decimal ≤ max_fault_line }
    ensures text { text.new.items ≡ text.old.items ++ number_part word.now place }
    ensures long { length text.new.items ≤ length text.old.items + length word.now + max_decimal }
{
    if let Some(place) = place {
        add(word, text);
        add_number(place, text);
    }
}

// Appends the fault's id, ref name or error text. Appends nothing if the fault has none of them.
fn add_subject(id: Option<Oid>, printable: Option<&[u8]>, text: &mut ArrayVec<u8, MAX_FAULT_LINE>)
    requires room { length text.old.items + max_subject ≤ max_fault_line }
    requires short { IsShortText (option_copied printable) }
    ensures text { text.new.items ≡ text.old.items ++ subject_part id (option_copied printable.entry) }
    ensures long { length text.new.items ≤ length text.old.items + max_subject }
{
    match (id, printable) {
        (Some(id), _) => {
            add(b" ", text);
            add_id(&id, text);
        }
        (None, Some(printable)) => {
            add(b" ", text);
            add_shown(printable, text);
        }
        (None, None) => {}
    }
}

// Appends a text with `?` for each byte that can't be printed.
fn add_shown(piece: &[u8], text: &mut ArrayVec<u8, MAX_FAULT_LINE>)
    requires { length text.old.items + length piece.now ≤ max_fault_line }
    ensures text { text.new.items ≡ text.old.items ++ map printable piece.now }
    ensures long { length text.new.items ≡ length text.old.items + length piece.now }
{
    for byte in piece {
        text.push(printable(*byte));
    }
}

// Returns the byte, or `?` if the byte is not printable ASCII.
fn printable(byte: u8) -> u8
    ensures { result ≡ printable byte }
{
    if (32..=126).contains(&byte) {
        byte
    } else {
        b'?'
    }
}

// Returns the index of the first byte that makes a name invalid, or `None` if the fault has no
// index.
fn place_in_name(fault: &NameFault) -> Option<usize>
    ensures { result ≡ place_in_name fault.now }
{
    match fault {
        NameFault::BadByte { at }
        | NameFault::Component { at }
        | NameFault::DoubleDot { at }
        | NameFault::AtBrace { at } => Some(*at),
        _ => None,
    }
}

fn line_in_text(fault: &LoadFault) -> Option<usize>
    ensures { result ≡ line_in_text fault.now }
{
    match fault {
        LoadFault::Text { line } | LoadFault::ParentLater { line } => Some(*line),
        LoadFault::Memory => None,
    }
}

/// Returns the id in the fault: the id of two different objects, or an id that does not have the
/// graph's object format. Returns `None` if the fault has no id.
pub(crate) fn id_in_graph(fault: &GraphFault) -> Option<Oid>
    ensures { result ≡ id_in_graph fault.now }
{
    match fault {
        GraphFault::Conflict { id } | GraphFault::OtherFormat { id } => Some(*id),
        _ => None,
    }
}

fn id_in_build<A: Allocator + Copy>(fault: &BuildFault<A>) -> Option<Oid>
    ensures { result ≡ id_in_build fault.now }
{
    match fault {
        BuildFault::Graph(cause) => id_in_graph(cause),
        BuildFault::NotClosed { id } | BuildFault::MissingParent { id } => Some(*id),
        _ => None,
    }
}

fn ref_in_build<A: Allocator + Copy>(fault: &BuildFault<A>) -> Option<&[u8]>
    ensures name { option_copied result ≡ ref_in_build fault.now }
    ensures short { IsShortText (option_copied result) }
{
    match fault {
        BuildFault::RefMissing { name } => Some(name.as_bytes()),
        BuildFault::HeadMissing => Some(HEAD.as_slice()),
        _ => None,
    }
}

fn frame_in_request(fault: &ServeFault) -> Option<u64>
    ensures { result ≡ frame_in_request fault.now }
{
    match fault {
        ServeFault::Request(cause) => Some(cause.frame),
        _ => None,
    }
}

fn id_in_request(fault: &ServeFault) -> Option<Oid>
    ensures { result ≡ id_in_request fault.now }
{
    match fault {
        ServeFault::NotOurs { id } => Some(*id),
        _ => None,
    }
}

fn said_in_request(fault: &ServeFault) -> Option<&[u8]>
    ensures text { option_copied result ≡ said_in_request fault.now }
    ensures short { IsShortText (option_copied result) }
{
    match fault {
        ServeFault::Request(cause) => said_in(&cause.why),
        _ => None,
    }
}

/// Returns the error text of a peer, or `None` if the peer sent no error text.
pub(crate) fn said_in(why: &Why) -> Option<&[u8]>
    ensures text { option_copied result ≡ said_in why.now }
    ensures short { IsShortText (option_copied result) }
{
    match why {
        Why::RemoteErr(text) | Why::RemoteFatal(text) => Some(text.as_bytes()),
        _ => None,
    }
}
