//! A single commit-graph file.

ghost use Rattle.std.specs.Prelude.{◌≡◌, ◌↔◌, ◌*◌, ◌<◌, List, IfOk, IsTrue, MatchOption, MatchResult, length, map};
ghost use Rattle.std.specs.List.{HoldsAt};
ghost use Rattle.gname.specs.Ids.{IsIdOf};
ghost use Rattle.gname.specs.declared.formats.Format.TheVariants.{Sha1};
ghost use Rattle.gitcommitgraph.specs.Chains.{FindsCommit, ListsParents, checksum_of};
ghost use Rattle.gitcommitgraph.specs.Faults.{IsRefused};
ghost use Rattle.gitcommitgraph.specs.Files.{GraphFile, HasPositionsBefore, IsGraphFile, file_commits};
ghost use Rattle.gitcommitgraph.specs.Texts.{IsGraphText};
ghost use Rattle.gitcommitgraph.specs.steps.Layers.{ArePlaces, AreTested, AreWithin, HaveLengths, IsCut, IsWithin, LacksChunk, MayBeSpan, size, table};
ghost use Rattle.gitcommitgraph.specs.steps.Tables.{IsFanOut};

use crate::contents::{ENTRY_BYTES, Span, read_header, read_rows, span_of};
use crate::fault::CommitGraphFault;
use crate::position::{MAX_COMMITS, Position};
use crate::tables::{ID_BYTES, ROW_BYTES, Tables};
use gname::Oid;
use gname::laws::ids_have_one_format;
use std::alloc::{AllocError, Allocator};
use std::marker::Model;

// The length of the fan-out table in bytes.
const FAN_OUT_BYTES: usize = 1_024;

// The length of an edge in bytes.
const EDGE_BYTES: usize = 4;

// The location of a missing optional chunk: an empty span.
const NOWHERE: Span = Span { start: 0, end: 0 };

// The locations of the chunks of a file.
#[derive(Clone, Copy, Drop)]
struct Places {
    fan_out: Span,
    ids: Span,
    rows: Span,
    edges: Span,
    bases: Span,
}

/// A commit-graph file whose form has been checked.
#[derive(Drop)]
pub(crate) struct Layer<A: Allocator + Copy> {
    bytes: Vec<u8, A>,
    places: Places,
}

impl<A: Allocator + Copy> Model for Layer<A> {
    ghost use Rattle.gitcommitgraph.specs.Faults.{IsRefused};
    ghost use Rattle.gitcommitgraph.specs.Files.{GraphFile};

    ghost Value = { GraphFile };

    ghost use Rattle.gitcommitgraph.specs.steps.Layers.{IsFileAt, file_at};

    ghost view = { λ layer. file_at layer.bytes.items layer.places };

    ghost invariant = { λ layer. IsFileAt layer.bytes.items layer.places };
}

impl<A: Allocator + Copy> Layer<A> {
    /// Parses and checks the bytes of a file.
    ///
    /// Fails with `Header`, `Contents` or `Chunk` if the header, the table of contents or a chunk
    /// is wrong. Fails with `Order` if the ids are not in ascending order, and with `FanOut` if the
    /// fan-out table does not match the ids. Fails with `Edges` if an edge list has no end, or
    /// begins outside the edge table.
    pub(crate) fn read(bytes: Vec<u8, A>) -> Result<Layer<A>, CommitGraphFault>
        ensures { MatchResult result (λ file. IsGraphText file bytes.items)
            (λ fault. (old : List GraphFile) → IsRefused old bytes.items fault) }
    {
        let places = read_places(bytes.as_slice())?;
        test_tables(bytes.as_slice(), &places)?;
        Ok(Layer { bytes, places })
    }

    /// Returns the number of commits in the file.
    pub(crate) fn len(&self) -> usize
        ensures { result ≡ length (file_commits self.now) }
    {
        self.tables().ids.len()
    }

    /// Returns the index of the commit with this id, or `None` if the file has no such commit.
    pub(crate) fn find(&self, id: &[u8; ID_BYTES]) -> Option<usize>
        ensures { FindsCommit (file_commits self.now) id.now result }
    {
        self.tables().find(id)
    }

    /// Returns the id of the commit at this index.
    pub(crate) fn id(&self, place: usize) -> Oid
        requires { place < length (file_commits self.now) }
        ensures id { HoldsAt (λ commit. commit.id ≡ result) (file_commits self.now) place }
        ensures format { IsIdOf Sha1 result }
    {
        id_of_bytes(&self.tables().ids[place])
    }

    /// Returns the parents of the commit at this index, or `None` if the commit has more than
    /// `most` parents. Fails only if out of memory.
    pub(crate) fn parents_of(
        &self,
        alloc: A,
        place: usize,
        most: usize,
    ) -> Result<Option<Vec<Position, A>>, AllocError>
        requires { place < length (file_commits self.now) }
        ensures { IfOk result (λ found.
            HoldsAt (λ commit. ListsParents most commit.parents found) (file_commits self.now) place) }
    {
        self.tables().parents_of(alloc, place, most)
    }

    /// Returns whether each parent position in the file is less than `end`.
    pub(crate) fn is_before(&self, end: usize) -> bool
        ensures { IsTrue result ↔ HasPositionsBefore end self.now }
    {
        self.tables().are_before(end)
    }

    /// Returns whether the base graphs of the file are exactly these files, in this order.
    pub(crate) fn is_above(&self, layers: &[Layer<A>]) -> bool
        ensures { IsTrue result ↔ (self.now.bases ≡ map checksum_of layers.now) }
    {
        let bases = self.bases();
        if bases.len() != layers.len() {
            return false;
        }
        for (place, layer) in layers.iter().enumerate() {
            if !is_same(&bases[place], layer.checksum()) {
                return false;
            }
        }
        true
    }

    // Returns the checksums of the base graphs of the file.
    fn bases(&self) -> &[[u8; ID_BYTES]]
        ensures { result.now ≡ self.now.bases }
    {
        cut_rows(self.bytes.as_slice(), &self.places.bases)
    }

    // Returns the trailer of the file.
    fn checksum(&self) -> &[u8; ID_BYTES]
        ensures { result.now ≡ self.now.checksum }
    {
        self.bytes.as_slice().last_chunk::<ID_BYTES>().unwrap()
    }

    // Returns the tables of the file.
    fn tables(&self) -> Tables<'_>
        ensures ids { result.ids.now ≡ self.now.ids }
        ensures rows { result.rows.now ≡ self.now.rows }
        ensures edges { result.edges.now ≡ self.now.edges }
        ensures fan_out { IsFanOut result.fan_out.now self.now.ids }
        ensures formed { IsGraphFile self.now }
        ensures ids_long { length result.ids.now ≡ length (file_commits self.now) }
        ensures rows_long { length result.rows.now ≡ length (file_commits self.now) }
    {
        tables_of(self.bytes.as_slice(), &self.places)
    }
}

// Returns the locations of the chunks of a file. Fails with `Header` or `Contents` if the header or
// the table of contents is wrong. Fails with `Chunk` if a required chunk is missing, or a chunk has
// a wrong length.
fn read_places(bytes: &[u8]) -> Result<Places, CommitGraphFault>
    ensures { MatchResult result (IsCut bytes.now)
        (λ fault. (old : List GraphFile) → IsRefused old bytes.now fault) }
{
    let Some((body, _checksum)) = bytes.split_last_chunk::<ID_BYTES>() else {
        return Err(CommitGraphFault::Header);
    };
    let Some(header) = read_header(body) else {
        return Err(CommitGraphFault::Header);
    };
    let Some(rows) = read_rows(header.chunks, body) else {
        return Err(CommitGraphFault::Contents);
    };
    let Some(places) = find_places(rows) else {
        return Err(CommitGraphFault::Chunk);
    };
    if !have_lengths(&places, usize::from(header.bases)) {
        return Err(CommitGraphFault::Chunk);
    }
    Ok(places)
}

// Checks the tables at these locations. Fails with `Order`, `FanOut` or `Edges` if the ids, the
// fan-out table or the edges are wrong.
fn test_tables(bytes: &[u8], places: &Places) -> Result<(), CommitGraphFault>
    requires { IsCut bytes.now places.now }
    ensures { MatchResult result (λ _. AreTested bytes.now places.now)
        (λ fault. (old : List GraphFile) → IsRefused old bytes.now fault) }
{
    let tables = tables_of(bytes, places);
    if !tables.are_ascending() {
        return Err(CommitGraphFault::Order);
    }
    if !tables.is_fan_out() {
        return Err(CommitGraphFault::FanOut);
    }
    if !tables.lists_end() {
        return Err(CommitGraphFault::Edges);
    }
    Ok(())
}

// Returns the locations of the chunks that these rows describe, or `None` if a required chunk is
// missing.
fn find_places(rows: &[[u8; ENTRY_BYTES]]) -> Option<Places>
    ensures { MatchOption result (LacksChunk rows.now) (ArePlaces rows.now) }
{
    Some(Places {
        fan_out: span_of(rows, b"OIDF")?,
        ids: span_of(rows, b"OIDL")?,
        rows: span_of(rows, b"CDAT")?,
        edges: optional_span_of(rows, b"EDGE"),
        bases: optional_span_of(rows, b"BASE"),
    })
}

// Returns the location of an optional chunk, or an empty span if the chunk is absent.
fn optional_span_of(rows: &[[u8; ENTRY_BYTES]], name: &[u8; 4]) -> Span
    ensures { MayBeSpan rows.now name.now result }
{
    match span_of(rows, name) {
        Some(span) => span,
        None => NOWHERE,
    }
}

// Returns whether the chunks of a file with `bases` base graphs have the right lengths.
fn have_lengths(places: &Places, bases: usize) -> bool
    requires { bases < 256 }
    ensures { IsTrue result ↔ HaveLengths places.now bases }
{
    size_of(&places.fan_out) == FAN_OUT_BYTES
        && size_of(&places.ids) % ID_BYTES == 0
        && size_of(&places.ids) / ID_BYTES <= MAX_COMMITS
        && size_of(&places.rows) % ROW_BYTES == 0
        && size_of(&places.rows) / ROW_BYTES == size_of(&places.ids) / ID_BYTES
        && size_of(&places.edges) % EDGE_BYTES == 0
        && size_of(&places.bases) == bases * ID_BYTES
}

// Returns the length of a span in bytes.
fn size_of(span: &Span) -> usize
    ensures { result ≡ size span.now }
{
    span.end.saturating_sub(span.start)
}

// Returns the tables at these locations.
fn tables_of<'a>(bytes: &'a [u8], places: &Places) -> Tables<'a>
    requires { AreWithin bytes.now places.now }
    ensures fan_out { result.fan_out.now ≡ table 4 bytes.now places.now.fan_out }
    ensures ids { result.ids.now ≡ table 20 bytes.now places.now.ids }
    ensures rows { result.rows.now ≡ table 36 bytes.now places.now.rows }
    ensures edges { result.edges.now ≡ table 4 bytes.now places.now.edges }
{
    Tables {
        fan_out: cut_rows(bytes, &places.fan_out),
        ids: cut_rows(bytes, &places.ids),
        rows: cut_rows(bytes, &places.rows),
        edges: cut_rows(bytes, &places.edges),
    }
}

// Returns the SHA-1 id that consists of these bytes.
fn id_of_bytes(bytes: &[u8; ID_BYTES]) -> Oid
    ensures bytes { result ≡ bytes.now }
    ensures format { IsIdOf Sha1 result }
{
    // The proof uses this law.
    ids_have_one_format();
    Oid::from_bytes(bytes).unwrap()
}

// Returns whether two checksums are equal.
fn is_same(one: &[u8; ID_BYTES], other: &[u8; ID_BYTES]) -> bool
    ensures { IsTrue result ↔ (one.now ≡ other.now) }
{
    one == other
}

// Returns the table at this span, as rows of `N` bytes.
fn cut_rows<'a, const N: usize>(bytes: &'a [u8], span: &Span) -> &'a [[u8; N]]
    requires some { 0 < N }
    requires within { IsWithin bytes.now span.now }
    ensures { result.now ≡ table N bytes.now span.now }
{
    let (rows, _rest) = bytes[span.start..span.end].as_chunks::<N>();
    rows
}
