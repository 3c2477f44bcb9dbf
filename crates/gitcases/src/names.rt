//! Named texts and objects of test files.

use crate::trouble::Trouble;
use gitobject::{ObjectType, id_of};
use gname::Oid;
use std::alloc::Global;

/// A named text or delta.
#[derive(Drop)]
struct NamedText<'a> {
    name: &'a str,
    bytes: Vec<u8>,
}

/// A named object.
#[derive(Drop)]
pub(crate) struct NamedObject<'a> {
    pub(crate) name: &'a str,
    pub(crate) kind: ObjectType,
    pub(crate) body: Vec<u8>,
    pub(crate) id: Oid,
}

/// The named texts and objects. If several texts or several objects have the same name, only the
/// first is used.
#[derive(Drop)]
pub(crate) struct Names<'a> {
    texts: Vec<NamedText<'a>>,
    objects: Vec<NamedObject<'a>>,
}

impl<'a> Names<'a> {
    pub(crate) fn new(alloc: Global) -> Names<'a> {
        Names {
            texts: Vec::new(alloc),
            objects: Vec::new(alloc),
        }
    }

    pub(crate) fn add_text(&mut self, name: &'a str, bytes: Vec<u8>) -> Result<(), Trouble> {
        self.texts
            .push(NamedText { name, bytes })
            .map_err(Trouble::from)
    }

    /// Appends bytes to the most recently added text.
    pub(crate) fn add_to_text(&mut self, bytes: &[u8]) -> Result<(), Trouble> {
        match self.texts.last_mut() {
            Some(text) => text.bytes.extend_from_slice(bytes).map_err(Trouble::from),
            None => Err(Trouble::NoCurrentItem),
        }
    }

    pub(crate) fn add_object(
        &mut self,
        name: &'a str,
        kind: ObjectType,
        body: Vec<u8>,
    ) -> Result<(), Trouble> {
        let id = id_of(kind, body.as_slice());
        let object = NamedObject {
            name,
            kind,
            body,
            id,
        };
        self.objects.push(object).map_err(Trouble::from)
    }

    /// Returns the bytes of the text with this name.
    pub(crate) fn find_text(&self, name: &str) -> Result<&[u8], Trouble> {
        for text in &self.texts {
            if text.name == name {
                return Ok(text.bytes.as_slice());
            }
        }
        Err(Trouble::UnknownName)
    }

    /// Returns the object with this name.
    pub(crate) fn find_object(&self, name: &str) -> Result<&NamedObject<'a>, Trouble> {
        for object in &self.objects {
            if object.name == name {
                return Ok(object);
            }
        }
        Err(Trouble::UnknownName)
    }
}
