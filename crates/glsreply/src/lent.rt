//! The line of a ref with borrowed names, and the text of that line.

ghost use Rattle.std.specs.Prelude.{◌≡◌, ◌+◌, ◌≤◌, ◌++◌, [], length};
ghost use Rattle.std.specs.Option.{option_copied};
ghost use Rattle.gname.specs.Names.{max_name};
ghost use Rattle.glsreply.specs.LentViews.{lent_view};
ghost use Rattle.glsreply.specs.RefTexts.{peeled_text, ref_text, symref_text};
ghost use Rattle.glsreply.specs.TextLengths.{max_peeled_text, max_ref_text, max_symref_text};
ghost use Rattle.glsreply.specs.steps.WellFormed.{IsLine};

use arrayvec::ArrayVec;
use ggrammar::compose::{add, add_id};
use gname::{Oid, RefName};
use std::alloc::Allocator;
use std::marker::Model;

// The maximum length of a line's text in bytes: two ids, two names, and the attribute words.
const MAX_REF_TEXT: usize = 2_152;

/// The line of a ref in an ls-refs reply (gitprotocol-v2(5), "ls-refs"), with borrowed names.
#[derive(Clone, Copy, Debug)]
pub struct LentLine<'a, A: Allocator + Copy> {
    /// The id that the ref points at.
    pub id: Oid,
    /// The name of the ref.
    pub name: &'a RefName<A>,
    /// The value of `symref-target:`, if present: the name that the symbolic ref points at.
    pub symref: Option<&'a RefName<A>>,
    /// The value of `peeled:`, if present: the id of the object that the tag peels to.
    pub peeled: Option<Oid>,
}

impl<'a, A: Allocator + Copy> LentLine<'a, A> {
    /// Returns the line with the given id, name, symref target and peeled id. The name and the
    /// target may be borrowed from different values.
    pub fn new(
        id: Oid,
        name: &'a RefName<A>,
        symref: Option<&'a RefName<A>>,
        peeled: Option<Oid>,
    ) -> LentLine<'a, A>
        ensures { lent_view result
            ≡ record {
              id = id;
              name = name.now;
              symref = option_copied symref.entry;
              peeled =
                  peeled;
            } }
    {
        LentLine {
            id,
            name,
            symref,
            peeled,
        }
    }

    /// Proves that the ids and the names in a line are well-formed.
    pub(crate) fn laws(&self)
        ensures { IsLine (lent_view self.now) }
    {
        self.id.laws();
        self.name.laws();
        if let Some(target) = self.symref {
            target.laws();
        }
        if let Some(id) = &self.peeled {
            id.laws();
        }
    }
}

/// The text of a ref's line, in a buffer with room for any line. The buffer never allocates, and
/// can be reused for other lines.
#[derive(Drop)]
pub struct RefText {
    text: ArrayVec<u8, MAX_REF_TEXT>,
}

impl Model for RefText {
    ghost use Rattle.std.specs.Prelude.{List, ℕ};

    ghost Value = { List ℕ };

    ghost view = { λ t. t.text.items };
}

impl RefText {
    /// Returns an empty text.
    pub fn new() -> RefText
        ensures { result ≡ [] }
    {
        RefText {
            text: ArrayVec::new(),
        }
    }

    /// Replaces the text with the text of `line`: the id, a space, the name, ` symref-target:` with
    /// the target, and ` peeled:` with the peeled id. The two attributes are optional. The text has
    /// no line feed, and the ids are in lower case.
    pub fn set<A: Allocator + Copy>(&mut self, line: &LentLine<'_, A>)
        ensures text { self.new ≡ ref_text (lent_view line.now) }
        ensures long { length self.new ≤ max_ref_text }
    {
        compose(line, &mut self.text);
    }

    /// Returns the bytes of the text.
    pub fn as_bytes(&self) -> &[u8]
        ensures { result.now ≡ self.now }
    {
        self.text.as_slice()
    }
}

#[tactic(auto, unfolding(crate::specs::RefTexts::ref_text))]
fn compose<A: Allocator + Copy>(line: &LentLine<'_, A>, text: &mut ArrayVec<u8, MAX_REF_TEXT>)
    ensures text { text.new.items ≡ ref_text (lent_view line.now) }
    ensures long { length text.new.items ≤ max_ref_text }
{
    text.clear();
    add_id(&line.id, text);
    add(b" ", text);
    add_name(line.name, text);
    add_symref(line.symref, text);
    add_peeled(line.peeled.as_ref(), text);
}

fn add_symref<A: Allocator + Copy>(
    target: Option<&RefName<A>>,
    text: &mut ArrayVec<u8, MAX_REF_TEXT>,
)
    requires { length text.old.items + max_symref_text ≤ max_ref_text }
    ensures text { text.new.items ≡ text.old.items ++ symref_text (option_copied target.entry) }
    ensures long { length text.new.items ≤ length text.old.items + max_symref_text }
{
    if let Some(target) = target {
        add(b" symref-target:", text);
        add_name(target, text);
    }
}

fn add_peeled(id: Option<&Oid>, text: &mut ArrayVec<u8, MAX_REF_TEXT>)
    requires { length text.old.items + max_peeled_text ≤ max_ref_text }
    ensures text { text.new.items ≡ text.old.items ++ peeled_text (option_copied id.entry) }
    ensures long { length text.new.items ≤ length text.old.items + max_peeled_text }
{
    if let Some(id) = id {
        add(b" peeled:", text);
        add_id(id, text);
    }
}

fn add_name<A: Allocator + Copy>(name: &RefName<A>, text: &mut ArrayVec<u8, MAX_REF_TEXT>)
    requires { length text.old.items + max_name ≤ max_ref_text }
    ensures text { text.new.items ≡ text.old.items ++ name.now }
    ensures long { length text.new.items ≤ length text.old.items + max_name }
{
    add(name.as_bytes(), text);
}
