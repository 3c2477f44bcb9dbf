//! Reading the headers of pack entries.

ghost use Rattle.std.specs.Prelude.{◌≡◌, ◌+◌, ◌*◌, ◌/◌, ◌%◌, ◌≤◌, ◌++◌, List, ℕ, MatchOption, OnOk, length, drop};
ghost use Rattle.gitpack.specs.Entries.{BeginsWithHead, IsBaseOf, IsHead, IsTypeAndSize};
ghost use Rattle.gitpack.specs.declared.entry.EntryForm.{EntryForm};

use crate::numbers::{low_first, split_number, split_offset};
use gitobject::{ID_BYTES, ObjectType, id_of_bytes};
use gname::Oid;

/// The maximum length of an entry header: nine bytes for the type and the size, and twenty for an
/// id.
pub const MAX_HEAD: usize = 29;

// The maximum encoded length of the type and the size in an entry header.
const MAX_TYPE_AND_SIZE: usize = 9;

// The number of values of the low four bits of the first byte. These bits are part of the size.
const LOW_SIZES: u8 = 16;

// The number of values of the three bits of a type number.
const TYPES: u8 = 8;

// The type number of an offset delta (gitformat-pack(5), "Object types").
pub(crate) const OFFSET_DELTA: u8 = 6;

// The type number of a ref delta.
pub(crate) const REF_DELTA: u8 = 7;

/// The type of a pack entry (gitformat-pack(5), "Object types").
#[derive(Clone, Copy, Debug, PartialEq, Eq, Drop)]
pub enum EntryForm {
    /// An undeltified object of this type.
    Whole(ObjectType),
    /// A delta whose base is the entry that begins this number of bytes before the delta.
    OffsetDelta(usize),
    /// A delta whose base is the object with this id.
    RefDelta(Oid),
}

/// The header of a pack entry. The zlib stream of the entry follows its header.
#[derive(Clone, Copy, Debug, Drop)]
pub struct EntryHead {
    /// The type of the entry.
    pub form: EntryForm,
    /// The size of the inflated zlib stream.
    pub size: usize,
    /// The length of the entry header.
    pub length: usize,
}

/// Returns the entry header at the start of the bytes, or `None` if the bytes do not begin with an
/// entry header. This function accepts sizes of at most 60 bits, and offsets of at most eight
/// bytes.
pub fn read_head(bytes: &[u8]) -> Option<EntryHead>
    ensures { MatchOption result
        ((form : EntryForm) (size : ℕ) (rest : List ℕ)
        → ¬ (BeginsWithHead bytes.now form size rest))
        (λ head. (head.length ≤ length bytes.now)
        × BeginsWithHead bytes.now head.form head.size (drop head.length bytes.now)) }
{
    let Some((sized, after)) = split_type_and_size(bytes) else {
        return None;
    };
    let Some((form, rest)) = split_form(sized.number, after) else {
        return None;
    };
    let length = bytes.len() - rest.len();
    let size = sized.size;
    Some(EntryHead { form, size, length })
}

// The type number and the size in an entry header.
#[derive(Clone, Copy)]
struct TypeAndSize {
    number: u8,
    size: usize,
}

// Returns the type number and the size at the start of the bytes, and the remaining bytes. Returns
// `None` if the bytes do not begin with a type number and a size.
fn split_type_and_size(bytes: &[u8]) -> Option<(TypeAndSize, &[u8])>
    ensures { MatchOption result
        ((number size : ℕ) (text rest : List ℕ) → IsTypeAndSize number size text
        → ¬ (bytes.now ≡ text ++ rest))
        (λ parts. (text : List ℕ) × IsTypeAndSize parts.0.number parts.0.size text
        × (bytes.now ≡ text ++ parts.1.now)) }
{
    let Some((text, rest)) = split_number(MAX_TYPE_AND_SIZE, bytes) else {
        return None;
    };
    let Some((first, more)) = text.split_first() else {
        return None;
    };
    let size = usize::from(*first % LOW_SIZES) + usize::from(LOW_SIZES) * low_first(more);
    let number = *first / LOW_SIZES % TYPES;
    Some((TypeAndSize { number, size }, rest))
}

// Returns the entry type with this number, and the remaining bytes. For a delta, the offset or id
// of the base is read from the start of the bytes. Returns `None` if no type has this number, or if
// the bytes do not begin with the offset or id.
fn split_form(number: u8, bytes: &[u8]) -> Option<(EntryForm, &[u8])>
    ensures { MatchOption result
        ((form : EntryForm) (text rest : List ℕ) → IsBaseOf form number text
        → ¬ (bytes.now ≡ text ++ rest))
        (λ parts. (text : List ℕ) × IsBaseOf parts.0 number text
        × (bytes.now ≡ text ++ parts.1.now)) }
{
    match number {
        OFFSET_DELTA => match split_offset(bytes) {
            Some((back, rest)) => Some((EntryForm::OffsetDelta(back), rest)),
            None => None,
        },
        REF_DELTA => match bytes.split_first_chunk::<ID_BYTES>() {
            Some((id, rest)) => Some((EntryForm::RefDelta(id_of_bytes(id)), rest)),
            None => None,
        },
        _ => match ObjectType::from_pack_number(number) {
            Some(kind) => Some((EntryForm::Whole(kind), bytes)),
            None => None,
        },
    }
}
