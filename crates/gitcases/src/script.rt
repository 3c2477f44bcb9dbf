//! The parser of test files. FORMAT.md describes each kind of line.

use crate::deltas::{copy_instruction, delta_header, insert_instructions};
use crate::escapes::{expand_escapes, parse_number, parse_numbers, split_first_word};
use crate::indexes::{IndexEntry, PackIndex};
use crate::keywords::{Keyword, keyword_of};
use crate::names::Names;
use crate::packs::{Pack, parse_type_number};
use crate::row::{Row, TestedCall, Update};
use crate::stores::{File, Store, loose_text};
use crate::trouble::Trouble;
use gitobject::ObjectType;
use gitpack::IndexLimits;
use gzlib::Deflater;
use std::alloc::Global;

/// The contents of the test files parsed so far.
#[derive(Drop)]
pub(crate) struct Script<'a> {
    alloc: Global,
    deflater: Deflater<Global>,
    names: Names<'a>,
    packs: Vec<Pack<'a>>,
    indexes: Vec<PackIndex<'a>>,
    stores: Vec<Store<'a>>,
    pub(crate) rows: Vec<Row<'a>>,
    // The number of times that the next line is repeated.
    repetitions: usize,
    /// The name of the current file.
    pub(crate) file_name: &'a str,
    /// The number of the current line.
    pub(crate) line_number: usize,
}

impl<'a> Script<'a> {
    /// Returns a `Script` without contents.
    pub(crate) fn new(alloc: Global) -> Result<Script<'a>, Trouble> {
        Ok(Script {
            alloc,
            deflater: Deflater::new(alloc)?,
            names: Names::new(alloc),
            packs: Vec::new(alloc),
            indexes: Vec::new(alloc),
            stores: Vec::new(alloc),
            rows: Vec::new(alloc),
            repetitions: 1,
            file_name: "",
            line_number: 0,
        })
    }

    /// Parses the text of the file with this name.
    pub(crate) fn read_file(&mut self, file_name: &'a str, text: &'a str) -> Result<(), Trouble> {
        self.file_name = file_name;
        self.line_number = 0;
        for line in text.lines() {
            self.line_number = self.line_number.saturating_add(1);
            self.read_line(line)?;
        }
        Ok(())
    }

    /// Returns the bytes of the pack with this name, or no bytes for an empty name.
    pub(crate) fn pack_bytes(&self, name: &str) -> Result<Vec<u8>, Trouble> {
        if name.is_empty() {
            return Ok(Vec::new(self.alloc));
        }
        find_pack(self.packs.as_slice(), name)?.bytes(self.alloc)
    }

    /// Returns the files of the store with this name, or no files for an empty name.
    pub(crate) fn files(&self, name: &str) -> Result<&[File], Trouble> {
        for store in &self.stores {
            if store.name == name {
                return Ok(store.files.as_slice());
            }
        }
        if name.is_empty() {
            return Ok(&[]);
        }
        Err(Trouble::UnknownName)
    }

    // Parses a line once for each of its repetitions.
    fn read_line(&mut self, line: &'a str) -> Result<(), Trouble> {
        if line.is_empty() || line.starts_with('#') {
            return Ok(());
        }
        let (word, value) = split_first_word(line);
        let keyword = keyword_of(word);
        if let Keyword::Times = keyword {
            self.repetitions = parse_number(value)?;
            return Ok(());
        }
        let repetitions = self.repetitions;
        self.repetitions = 1;
        for _ in 0..repetitions {
            self.read_keyword_line(keyword, value)?;
        }
        Ok(())
    }

    fn read_keyword_line(&mut self, keyword: Keyword, value: &'a str) -> Result<(), Trouble> {
        match keyword {
            Keyword::Text => self.add_text(value),
            Keyword::Object(kind) => self.add_object(kind, value),
            Keyword::Delta => self.begin_delta(value),
            Keyword::Copy | Keyword::Insert | Keyword::Also => self.add_to_delta(keyword, value),
            Keyword::Pack => self.begin_pack(value),
            Keyword::Lines => self.begin_index(value),
            Keyword::Line | Keyword::WrongLine | Keyword::Unsorted => {
                self.add_to_index(keyword, value)
            }
            Keyword::Store => self.begin_store(value),
            Keyword::Loose => self.add_loose(value),
            Keyword::File => self.add_file(value),
            Keyword::Packed => self.add_packed(value),
            Keyword::At => self.set_folder(value),
            Keyword::Row => self.begin_row(value),
            _ => self.read_entry_or_row_line(keyword, value),
        }
    }

    // Parses a line that adds to a pack or to a row.
    fn read_entry_or_row_line(&mut self, keyword: Keyword, value: &'a str) -> Result<(), Trouble> {
        match keyword {
            Keyword::Read(tested_call) => self.add_read(tested_call, value),
            Keyword::Has | Keyword::Tips => self.add_ids(keyword, value),
            Keyword::Limits => self.set_limits(value),
            Keyword::Update => self.add_update(value),
            Keyword::Of
            | Keyword::In
            | Keyword::Then
            | Keyword::Asked
            | Keyword::Call(_)
            | Keyword::Or
            | Keyword::Large
            | Keyword::Sweep => self.set_row_field(keyword, value),
            _ => self.add_to_pack(keyword, value),
        }
    }

    fn expand_escapes(&self, line: &str) -> Result<Vec<u8>, Trouble> {
        expand_escapes(self.alloc, &self.names, line)
    }

    fn add_text(&mut self, value: &'a str) -> Result<(), Trouble> {
        let (name, line) = split_first_word(value);
        let bytes = self.expand_escapes(line)?;
        self.names.add_text(name, bytes)
    }

    fn add_object(&mut self, kind: ObjectType, value: &'a str) -> Result<(), Trouble> {
        let (name, line) = split_first_word(value);
        let body = self.expand_escapes(line)?;
        self.names.add_object(name, kind, body)
    }

    // Begins a delta with its name, the size of the base, and the size of the result.
    fn begin_delta(&mut self, value: &'a str) -> Result<(), Trouble> {
        let (name, sizes) = split_first_word(value);
        let sizes = parse_numbers::<2>(sizes)?;
        self.names.add_text(name, delta_header(self.alloc, sizes)?)
    }

    fn add_to_delta(&mut self, keyword: Keyword, value: &str) -> Result<(), Trouble> {
        let bytes = match keyword {
            Keyword::Copy => {
                let [offset, size] = parse_numbers::<2>(value)?;
                copy_instruction(self.alloc, offset, size)
            }
            Keyword::Insert => self.insert_instructions(value),
            _ => self.expand_escapes(value),
        };
        self.names.add_to_text(bytes?.as_slice())
    }

    fn insert_instructions(&self, line: &str) -> Result<Vec<u8>, Trouble> {
        let bytes = self.expand_escapes(line)?;
        insert_instructions(self.alloc, bytes.as_slice())
    }

    fn begin_pack(&mut self, name: &'a str) -> Result<(), Trouble> {
        self.packs
            .push(Pack::new(self.alloc, name))
            .map_err(Trouble::from)
    }

    fn add_to_pack(&mut self, keyword: Keyword, value: &str) -> Result<(), Trouble> {
        let Some(pack) = self.packs.last_mut() else {
            return Err(Trouble::NoCurrentItem);
        };
        match keyword {
            Keyword::Whole => put_whole(&self.names, &mut self.deflater, pack, value),
            Keyword::Entry => put_entry(self.alloc, &self.names, &mut self.deflater, pack, value),
            Keyword::Back | Keyword::Far => put_offset_delta(&self.names, pack, keyword, value),
            Keyword::ById => put_ref_delta(&self.names, pack, value),
            Keyword::Head => begin_entry(pack, value),
            _ => {
                let bytes = expand_escapes(self.alloc, &self.names, value)?;
                pack.set_field(keyword, value, bytes)
            }
        }
    }

    fn begin_index(&mut self, value: &'a str) -> Result<(), Trouble> {
        let (name, pack) = split_first_word(value);
        self.indexes
            .push(PackIndex::new(self.alloc, name, pack))
            .map_err(Trouble::from)
    }

    // Adds an entry to an index, or marks the index as unsorted.
    fn add_to_index(&mut self, keyword: Keyword, value: &str) -> Result<(), Trouble> {
        let Some(index) = self.indexes.last_mut() else {
            return Err(Trouble::NoCurrentItem);
        };
        if let Keyword::Unsorted = keyword {
            index.set_unsorted();
            return Ok(());
        }
        let pack = find_pack(self.packs.as_slice(), index.pack)?;
        let mut entry = index_entry(&self.names, pack, value)?;
        if let Keyword::WrongLine = keyword {
            entry.crc = !entry.crc;
        }
        index.push(entry)
    }

    fn begin_store(&mut self, name: &'a str) -> Result<(), Trouble> {
        let store = Store::new(self.alloc, name)?;
        self.stores.push(store).map_err(Trouble::from)
    }

    fn set_folder(&mut self, folder: &'a str) -> Result<(), Trouble> {
        match self.stores.last_mut() {
            Some(store) => {
                store.set_objects_folder(folder);
                Ok(())
            }
            None => Err(Trouble::NoCurrentItem),
        }
    }

    fn add_file(&mut self, value: &str) -> Result<(), Trouble> {
        let (path, line) = split_first_word(value);
        let bytes = self.expand_escapes(line)?;
        let path = String::from_str(self.alloc, path)?;
        match self.stores.last_mut() {
            Some(store) => store.add_file(path, bytes),
            None => Err(Trouble::NoCurrentItem),
        }
    }

    // Adds a loose object, or a file that has the object's path but a different text.
    fn add_loose(&mut self, value: &str) -> Result<(), Trouble> {
        let (name, line) = split_first_word(value);
        let object = self.names.find_object(name)?;
        let text = if line.is_empty() {
            loose_text(self.alloc, object)?
        } else {
            expand_escapes(self.alloc, &self.names, line)?
        };
        match self.stores.last_mut() {
            Some(store) => {
                store.add_loose(self.alloc, &mut self.deflater, &object.id, text.as_slice())
            }
            None => Err(Trouble::NoCurrentItem),
        }
    }

    // Adds a pack and its index, whose names the line states.
    fn add_packed(&mut self, value: &str) -> Result<(), Trouble> {
        let (name, index_name) = split_first_word(value);
        let pack = self.pack_bytes(name)?;
        let index = self.index_bytes(index_name)?;
        match self.stores.last_mut() {
            Some(store) => store.add_packed(self.alloc, name, pack, index),
            None => Err(Trouble::NoCurrentItem),
        }
    }

    // Returns the bytes of the index with this name.
    fn index_bytes(&self, name: &str) -> Result<Vec<u8>, Trouble> {
        for index in &self.indexes {
            if index.name == name {
                return index.bytes(self.alloc, find_pack(self.packs.as_slice(), index.pack)?);
            }
        }
        Err(Trouble::UnknownName)
    }

    fn begin_row(&mut self, title: &'a str) -> Result<(), Trouble> {
        let row = Row::new(self.alloc, self.file_name, self.line_number, title);
        self.rows.push(row).map_err(Trouble::from)
    }

    fn set_row_field(&mut self, keyword: Keyword, value: &'a str) -> Result<(), Trouble> {
        let bytes = self.expand_escapes(value)?;
        match self.rows.last_mut() {
            Some(row) => row.set_field(keyword, value, bytes),
            None => Err(Trouble::NoCurrentItem),
        }
    }

    fn add_read(&mut self, tested_call: TestedCall, value: &str) -> Result<(), Trouble> {
        let (name, line) = split_first_word(value);
        let id = self.names.find_object(name)?.id;
        let expected = self.expand_escapes(line)?;
        match self.rows.last_mut() {
            Some(row) => row.add_check(tested_call, Some(id), expected),
            None => Err(Trouble::NoCurrentItem),
        }
    }

    // Adds an update of a ref. The line states the old object or `-`, the new object, and the name
    // of the ref.
    fn add_update(&mut self, value: &str) -> Result<(), Trouble> {
        let (old, other_values) = split_first_word(value);
        let (new, line) = split_first_word(other_values);
        let old = if old == "-" {
            None
        } else {
            Some(self.names.find_object(old)?.id)
        };
        let new = self.names.find_object(new)?.id;
        let name = self.expand_escapes(line)?;
        match self.rows.last_mut() {
            Some(row) => row
                .updates
                .push(Update { name, old, new })
                .map_err(Trouble::from),
            None => Err(Trouble::NoCurrentItem),
        }
    }

    fn add_ids(&mut self, keyword: Keyword, value: &str) -> Result<(), Trouble> {
        for name in value.split(' ') {
            let id = self.names.find_object(name)?.id;
            let Some(row) = self.rows.last_mut() else {
                return Err(Trouble::NoCurrentItem);
            };
            let ids = match keyword {
                Keyword::Has => &mut row.indexed_ids,
                _ => &mut row.tips,
            };
            ids.push(id)?;
        }
        Ok(())
    }

    // Sets the limits of indexing: the number of objects, the size of an object, the bytes held in
    // memory, and the size of all objects.
    fn set_limits(&mut self, value: &str) -> Result<(), Trouble> {
        let [objects, object, held, total] = parse_numbers::<4>(value)?;
        let limits = IndexLimits {
            objects,
            object,
            held,
            total,
            table: 0,
        };
        match self.rows.last_mut() {
            Some(row) => {
                row.limits = limits;
                Ok(())
            }
            None => Err(Trouble::NoCurrentItem),
        }
    }
}

// Appends the whole object that the line names.
fn put_whole(
    names: &Names<'_>,
    deflater: &mut Deflater<Global>,
    pack: &mut Pack<'_>,
    value: &str,
) -> Result<(), Trouble> {
    let (name, _) = split_first_word(value);
    pack.put_whole(deflater, names.find_object(name)?)
}

// Appends an entry with the type, the size and the text that the line states.
fn put_entry(
    alloc: Global,
    names: &Names<'_>,
    deflater: &mut Deflater<Global>,
    pack: &mut Pack<'_>,
    value: &str,
) -> Result<(), Trouble> {
    let (kind, other_values) = split_first_word(value);
    let (size, line) = split_first_word(other_values);
    let body = expand_escapes(alloc, names, line)?;
    pack.begin_entry(parse_type_number(kind)?, parse_number(size)?)?;
    pack.put_stream(deflater, body.as_slice())
}

// Appends an offset delta. The line states the name of the delta, and either how many entries
// before it the base is, or the distance of the base in bytes.
fn put_offset_delta(
    names: &Names<'_>,
    pack: &mut Pack<'_>,
    keyword: Keyword,
    value: &str,
) -> Result<(), Trouble> {
    let (number, name) = split_first_word(value);
    let number = parse_number(number)?;
    let distance = match keyword {
        Keyword::Back => pack.distance_of(number)?,
        _ => number,
    };
    pack.put_offset_delta(distance, names.find_text(name)?)
}

// Appends a ref delta. The line states the names of the base and of the delta.
fn put_ref_delta(names: &Names<'_>, pack: &mut Pack<'_>, value: &str) -> Result<(), Trouble> {
    let (base, name) = split_first_word(value);
    let base = names.find_object(base)?;
    pack.put_ref_delta(base, names.find_text(name)?)
}

// Begins an entry with the type and the size that the line states.
fn begin_entry(pack: &mut Pack<'_>, value: &str) -> Result<(), Trouble> {
    let (kind, size) = split_first_word(value);
    pack.begin_entry(parse_type_number(kind)?, parse_number(size)?)
}

fn find_pack<'p, 'a>(packs: &'p [Pack<'a>], name: &str) -> Result<&'p Pack<'a>, Trouble> {
    for pack in packs {
        if pack.name == name {
            return Ok(pack);
        }
    }
    Err(Trouble::UnknownName)
}

// Returns an index entry. Its line states the name of an object and the number of a pack entry. The
// index entry has the offset of the pack entry, unless the line states another offset.
fn index_entry(names: &Names<'_>, pack: &Pack<'_>, value: &str) -> Result<IndexEntry, Trouble> {
    let (name, rest) = split_first_word(value);
    let (number, offset) = split_first_word(rest);
    let (start, crc) = pack.offset_and_crc(parse_number(number)?)?;
    let offset = entry_offset(start, offset)?;
    let id = names.find_object(name)?.id;
    Ok(IndexEntry { id, crc, offset })
}

// Parses the offset of an entry. An empty text means `start`, and a leading `+` marks a distance
// from `start`.
fn entry_offset(start: usize, offset: &str) -> Result<u64, Trouble> {
    if offset.is_empty() {
        return Ok(start as u64);
    }
    match offset.strip_prefix('+') {
        Some(distance) => Ok(start.saturating_add(parse_number(distance)?) as u64),
        None => Ok(parse_number(offset)? as u64),
    }
}
