//! The header and the table of contents of a commit-graph file (gitformat-commit-graph(5), "HEADER"
//! and "CHUNK LOOKUP"; gitformat-chunk(5)).

ghost use Rattle.std.specs.Prelude.{◌≡◌, ◌<◌, ◌++◌, ◌↔◌, List, ℕ, IsTrue, MatchOption, length, slice_index_or};
ghost use Rattle.gitcommitgraph.specs.Texts.{header};
ghost use Rattle.gitcommitgraph.specs.steps.Rows.{AreDistinct, AreRows, IsRising, IsSpan, IsTable, LacksName, row_name, row_offset};

// The length of the header in bytes.
const HEADER_BYTES: usize = 8;

// The first six bytes of a file: the signature, version 1, and the number for SHA-1.
const SIGNATURE: &[u8; 6] = b"CGPH\x01\x01";

/// The length in bytes of a row of the table of contents: the name and the offset of a chunk.
pub(crate) const ENTRY_BYTES: usize = 12;

// The name in the last row of the table of contents.
const NO_NAME: &[u8; 4] = b"\0\0\0\0";

/// The counts in a header.
#[derive(Clone, Copy, Drop)]
pub(crate) struct Header {
    /// The number of chunks.
    pub(crate) chunks: u8,
    /// The number of base graphs.
    pub(crate) bases: u8,
}

/// The location of a chunk in a file.
#[derive(Clone, Copy, Drop)]
pub(crate) struct Span {
    /// The offset of the first byte.
    pub(crate) start: usize,
    /// The offset after the last byte.
    pub(crate) end: usize,
}

/// Returns the header at the start of the bytes, or `None` if there is no valid header.
pub(crate) fn read_header(bytes: &[u8]) -> Option<Header>
    ensures { MatchOption result
        ((chunks bases : ℕ) (rest : List ℕ) → ¬ (bytes.now ≡ header chunks bases ++ rest))
        (λ head. (rest : List ℕ) × (bytes.now ≡ header head.chunks head.bases ++ rest)) }
{
    let after = bytes.strip_prefix(SIGNATURE)?;
    let counts = after.first_chunk::<2>()?;
    Some(Header {
        chunks: counts[0],
        bases: counts[1],
    })
}

/// Returns the rows of the table of contents for `chunks` chunks. `body` is all bytes of the file
/// before its trailer. Returns `None` if the chunks do not fill the file up to its trailer, or if
/// two chunks have the same name.
pub(crate) fn read_rows(chunks: u8, body: &[u8]) -> Option<&[[u8; ENTRY_BYTES]]>
    ensures { MatchOption result ((rows : List (List ℕ)) → ¬ IsTable chunks body.now rows)
        (λ rows. IsTable chunks body.now rows.now) }
{
    let start = HEADER_BYTES + (usize::from(chunks) + 1) * ENTRY_BYTES;
    let table = body.get(HEADER_BYTES..start)?;
    let (rows, _rest) = table.as_chunks::<ENTRY_BYTES>();
    if are_rows(rows, start as u64, body.len() as u64) {
        Some(rows)
    } else {
        None
    }
}

// Returns whether the rows describe contiguous chunks from `start` to `end`, with distinct names.
fn are_rows(rows: &[[u8; ENTRY_BYTES]], start: u64, end: u64) -> bool
    ensures { IsTrue result ↔ AreRows start end rows.now }
{
    let (Some(first), Some(last)) = (rows.first(), rows.last()) else {
        return false;
    };
    if offset_of(first) != start {
        return false;
    }
    if offset_of(last) != end {
        return false;
    }
    if name_of(last) != NO_NAME {
        return false;
    }
    is_rising(rows) && are_distinct(rows)
}

// Returns whether no row has a lower offset than the previous row.
fn is_rising(rows: &[[u8; ENTRY_BYTES]]) -> bool
    ensures { IsTrue result ↔ IsRising rows.now }
{
    rows.is_sorted_by(|one, other| offset_of(one) <= offset_of(other))
}

// Returns whether all rows have different names.
fn are_distinct(rows: &[[u8; ENTRY_BYTES]]) -> bool
    ensures { IsTrue result ↔ AreDistinct rows.now }
{
    for (place, row) in rows.iter().enumerate() {
        if place_of(&rows[..place], name_of(row)).is_some() {
            return false;
        }
    }
    true
}

// Returns the index of the first row with this name, or `None` if no row has the name.
fn place_of(rows: &[[u8; ENTRY_BYTES]], name: &[u8; 4]) -> Option<usize>
    ensures { MatchOption result
        ((k : ℕ) (d : List ℕ) → k < length rows.now → ¬ (row_name (slice_index_or rows.now k d) ≡ name.now))
        (λ place. (place < length rows.now)
        × ((d : List ℕ) → row_name (slice_index_or rows.now place d) ≡ name.now)
        × ((k : ℕ) (d : List ℕ) → k < place → ¬ (row_name (slice_index_or rows.now k d) ≡ name.now))) }
{
    for (place, row) in rows.iter().enumerate() {
        if name_of(row) == name {
            return Some(place);
        }
    }
    None
}

// Returns the chunk name in a row.
fn name_of(row: &[u8; ENTRY_BYTES]) -> &[u8; 4]
    ensures { result.now ≡ row_name row.now }
{
    row.first_chunk::<4>().unwrap()
}

// Returns the chunk offset in a row.
#[tactic(auto, unfolding(crate::specs::steps::Rows::row_offset))]
fn offset_of(row: &[u8; ENTRY_BYTES]) -> u64
    ensures { result ≡ row_offset row.now }
{
    u64::from_be_bytes(*row.last_chunk::<8>().unwrap())
}

/// Returns the location of the chunk with this name, or `None` if no chunk has the name.
pub(crate) fn span_of(rows: &[[u8; ENTRY_BYTES]], name: &[u8; 4]) -> Option<Span>
    ensures { MatchOption result (LacksName rows.now name.now) (IsSpan rows.now name.now) }
{
    let place = place_of(rows, name)?;
    let start = offset_of(rows.get(place)?) as usize;
    let end = offset_of(rows.get(place + 1)?) as usize;
    Some(Span { start, end })
}
