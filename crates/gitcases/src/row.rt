//! Rows of test files: calls with their inputs and expected results.

use crate::keywords::Keyword;
use crate::trouble::Trouble;
use gitpack::IndexLimits;
use gname::Oid;
use std::alloc::Global;

/// The call that a row tests.
#[derive(Clone, Copy, Drop)]
pub(crate) enum TestedCall {
    /// Indexes a pack.
    IndexPack,
    /// Receives a pack in the store.
    ReceivePack,
    /// Receives a pack in an empty store in memory.
    ReceiveInMemory,
    /// Opens the store.
    OpenStore,
    /// Reads an object, and checks its id.
    ReadObject,
    /// Reads the raw entry of an object from a pack.
    ReadRawEntry,
    /// Reads the refs of the store.
    ReadRefs,
    /// Updates refs of the store.
    UpdateRefs,
    /// Writes received refs to a new clone.
    CloneRefs,
    /// Parses a text as a URL.
    ParseUrl,
    /// Parses a text as a path that a client requests.
    ParseServedPath,
}

/// An update of a ref: the name, the old id and the new id.
#[derive(Drop)]
pub(crate) struct Update {
    pub(crate) name: Vec<u8>,
    pub(crate) old: Option<Oid>,
    pub(crate) new: Oid,
}

/// A tested call, the object id or text that the call uses, and the expected result.
#[derive(Drop)]
pub(crate) struct RowCheck {
    pub(crate) tested_call: TestedCall,
    pub(crate) id: Option<Oid>,
    pub(crate) text: Vec<u8>,
    pub(crate) expected: Vec<u8>,
}

/// A row of a test file.
#[derive(Drop)]
pub(crate) struct Row<'a> {
    pub(crate) file_name: &'a str,
    pub(crate) line_number: usize,
    pub(crate) title: &'a str,
    /// The name of the pack.
    pub(crate) pack: &'a str,
    /// The name of the store, which is a Git directory.
    pub(crate) store: &'a str,
    /// The name of the store whose files replace those of `store` during a run.
    pub(crate) replacement_store: &'a str,
    pub(crate) limits: IndexLimits,
    /// The ids of the objects that the index must hold.
    pub(crate) indexed_ids: Vec<Oid>,
    /// The ids of the peer's refs.
    pub(crate) tips: Vec<Oid>,
    pub(crate) updates: Vec<Update>,
    /// The text for the next tested call of the row.
    pub(crate) call_text: Vec<u8>,
    pub(crate) checks: Vec<RowCheck>,
    /// Further results that are allowed if an allocation is refused, a bit is flipped, or the files
    /// are replaced.
    pub(crate) other_results: Vec<Vec<u8>>,
    /// Whether the row is tested only with its input unchanged.
    pub(crate) is_large: bool,
    /// Whether the row is also tested with each bit of the input flipped, and with the pack
    /// truncated.
    pub(crate) is_swept: bool,
}

// The default limits for indexing a pack.
const LIMITS: IndexLimits = IndexLimits {
    objects: 1_048_576,
    object: 268_435_456,
    held: 268_435_456,
    total: 4_294_967_296,
    table: 0,
};

impl<'a> Row<'a> {
    pub(crate) fn new(
        alloc: Global,
        file_name: &'a str,
        line_number: usize,
        title: &'a str,
    ) -> Row<'a> {
        Row {
            file_name,
            line_number,
            title,
            pack: "",
            store: "",
            replacement_store: "",
            limits: LIMITS,
            indexed_ids: Vec::new(alloc),
            tips: Vec::new(alloc),
            updates: Vec::new(alloc),
            call_text: Vec::new(alloc),
            checks: Vec::new(alloc),
            other_results: Vec::new(alloc),
            is_large: false,
            is_swept: false,
        }
    }

    pub(crate) fn add_check(
        &mut self,
        tested_call: TestedCall,
        id: Option<Oid>,
        expected: Vec<u8>,
    ) -> Result<(), Trouble> {
        let text = self
            .call_text
            .as_slice()
            .to_vec(*self.call_text.allocator())?;
        let check = RowCheck {
            tested_call,
            id,
            text,
            expected,
        };
        self.checks.push(check).map_err(Trouble::from)
    }

    /// Sets the field that a line with this keyword describes, or adds a check. `bytes` is `value`
    /// after all escapes are replaced.
    pub(crate) fn set_field(
        &mut self,
        keyword: Keyword,
        value: &'a str,
        bytes: Vec<u8>,
    ) -> Result<(), Trouble> {
        match keyword {
            Keyword::Call(tested_call) => self.add_check(tested_call, None, bytes),
            Keyword::Or => self.other_results.push(bytes).map_err(Trouble::from),
            Keyword::Asked => {
                self.call_text = bytes;
                Ok(())
            }
            _ => {
                self.set_name(keyword, value);
                Ok(())
            }
        }
    }

    // Sets the name of a pack or a store, or how the row is tested.
    fn set_name(&mut self, keyword: Keyword, value: &'a str) {
        match keyword {
            Keyword::Of => self.pack = value,
            Keyword::In => self.store = value,
            Keyword::Then => self.replacement_store = value,
            Keyword::Sweep => self.is_swept = true,
            _ => self.is_large = true,
        }
    }
}
