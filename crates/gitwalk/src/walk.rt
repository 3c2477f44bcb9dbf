//! The objects to send for a list of commits and tags.

ghost use Rattle.std.specs.Prelude.{◌≡◌, ◌∷◌, ◌++◌, ◌↔◌, [], ℕ, List, All, Contains, IfOk, IfSome, IsTrue, None, OnOk};
ghost use Rattle.std.specs.Bool.{IsFalse};
ghost use Rattle.std.specs.Option.{option_to_list};
ghost use Rattle.gname.specs.Ids.{Id};
ghost use Rattle.gobject.specs.declared.node.Entry.{Entry as GraphEntry};
ghost use Rattle.gitobject.specs.Trees.{link_of};
ghost use Rattle.gitobject.specs.declared.types.ObjectType.TheVariants as types;
ghost use Rattle.gcomplete.specs.Naming.{IsNameOf};
ghost use Rattle.gcomplete.specs.Stores.{GitObject, object_of};
ghost use Rattle.gitobject.specs.Naming.{id_of};
ghost use Rattle.gitobjects.specs.declared.store.Found.{Found};
ghost use Rattle.gitwalk.specs.Gathering.{IsDecided, IsGathered, IsParent, IsWalked, decided_at, is_sent};
ghost use Rattle.gitwalk.specs.StoredTrees.{IsLocated};
ghost use Rattle.gitwalk.specs.steps.Walking.{Decides, HasDecidedParents, HasFateAs, HasIdIn, HasNoReceived, IsCovered, IsDecidedAs, IsOnlyListed, IsOpen, IsReceived, IsSentEntry, IsWalkedEntry, LeadsOn, LooksUp, Notes, NotesObject, Settles, StaysDecided};

use crate::fates::{Decided, Fate, Fates};
use crate::fault::WalkFault;
use crate::path_hash::PathHash;
use crate::received::find_entry;
use gitobject::{Link, ObjectFault, ObjectType, commit_links, split_entry};
use gitobjects::{Found, Object, ObjectFiles, ObjectReader, StoreFault};
use gitpack::IndexedEntry;
use gname::Oid;
use gobject::{Entry, Kind};
use std::alloc::Allocator;

/// A store whose objects are read to find the objects to send.
pub trait WalkedStore<A: Allocator + Copy> {
    // The objects that the store returns for an id.
    ghost has: { Id → GitObject → Type 0 };

    // The locations where the store finds the object with an id.
    ghost located: { Id → Found → Type 0 };

    /// Returns the allocator of the store.
    fn allocator(&self) -> A;

    /// Returns the location of the object with this id. Fails if the object is missing or broken,
    /// if the store cannot be read, or if out of memory.
    fn locate(&mut self, id: &Oid) -> Result<Found, StoreFault<A>>
        ensures { IfOk result (λ found. located id.now found) };

    /// Returns the object with this id. Fails if the object is missing or broken, or has another
    /// id. Fails also if the store cannot be read, or if out of memory.
    fn object(&mut self, id: &Oid) -> Result<Object<A>, StoreFault<A>>
        ensures { IfOk result (λ object. has id.now (object_of object.kind object.body.items)) };

    /// Returns the object with this id, which is expected at this location. Fails as `object` does.
    fn object_at(&mut self, id: &Oid, found: Found) -> Result<Object<A>, StoreFault<A>>
        ensures { IfOk result (λ object. has id.now (object_of object.kind object.body.items)) };
}

impl<F: ObjectFiles, A: Allocator + Copy> WalkedStore<A> for ObjectReader<'_, F, A> {
    ghost has = { IsNameOf };

    ghost located = { IsLocated };

    fn allocator(&self) -> A {
        self.store().allocator()
    }

    fn locate(&mut self, id: &Oid) -> Result<Found, StoreFault<A>> {
        if let Some(found) = self.store().find(id)? {
            return Ok(found);
        }
        // This call lists the packs again, in case Git has packed the object meanwhile.
        let _object = self.read(id)?;
        match self.store().find(id)? {
            Some(found) => Ok(found),
            None => Err(StoreFault::Missing(*id)),
        }
    }

    fn object(&mut self, id: &Oid) -> Result<Object<A>, StoreFault<A>> {
        let object = self.read_checked(id)?;
        names_object(id, object.kind, object.body.as_slice());
        Ok(object)
    }

    fn object_at(&mut self, id: &Oid, found: Found) -> Result<Object<A>, StoreFault<A>> {
        if let Some(object) = self.read_found(id, found)? {
            if object.has_id(id) {
                names_object(id, object.kind, object.body.as_slice());
                return Ok(object);
            }
        }
        self.object(id)
    }
}

// Proves that the id names the object with this type and these bytes.
fn names_object(id: &Oid, kind: ObjectType, body: &[u8])
    requires { id_of kind body.now ≡ id.now }
    ensures { IsNameOf id.now (object_of kind body.now) }
{}

/// Decides which objects are sent for a list of commits and tags. The listed commits and tags are
/// sent. The trees and blobs that the listed commits reach are also sent, unless a parent outside
/// the list reaches them.
///
/// Reads the listed objects, the parents of listed commits outside the list, and all trees that
/// these commits reach, and checks their ids. Each of these objects is hashed once. The blobs that
/// trees name are only located, and so are the targets of listed tags outside the list.
///
/// Fails with `Store` at the first object that is missing, or that is read and is broken or has
/// another id. Fails with `Malformed` at a commit or tree that is malformed. Fails with `Type` if a
/// link to a tree leads to an object of another type. Fails with `Type` also if two links give an
/// object two types, unless the object is listed or a parent of a listed object. Fails with
/// `Memory` if out of memory.
pub fn gather<S: WalkedStore<A>, A: Allocator + Copy>(
    store: &mut S,
    entries: &[Entry<A>],
) -> Result<Fates<A>, WalkFault<A>>
    ensures { IfOk result (λ fates. IsGathered S.has entries.now fates) }
{
    let mut walk = Walk::new(store.allocator());
    walk.send_all(store, entries)?;
    walk.leave_out_parents(store, entries)?;
    walk.send_trees(store, entries)?;
    walk.fates.laws();
    Ok(walk.fates)
}

/// A tree whose fate is decided. The fates of the objects that the tree names may be undecided.
#[derive(Clone, Copy, Drop)]
pub(crate) struct PendingTree {
    /// The id of the tree.
    pub id: Oid,
    /// The location of the tree.
    pub found: Found,
    /// The fate of the tree.
    pub fate: Fate,
}

/// The fates that are decided so far.
#[derive(Drop)]
pub(crate) struct Walk<'r, A: Allocator + Copy> {
    alloc: A,
    fates: Fates<A>,
    trees: Vec<PendingTree, A>,
    // The objects of a received pack, which need no fate.
    received: &'r [IndexedEntry],
}

impl<'r, A: Allocator + Copy> Walk<'r, A> {
    /// Returns a `Walk` in which no fate is decided.
    pub(crate) fn new(alloc: A) -> Walk<'r, A>
        ensures fates { result.fates ≡ [] }
        ensures trees { result.trees.items ≡ [] }
        ensures received { HasNoReceived result }
    {
        Walk::beside(alloc, &[])
    }

    /// Returns a `Walk` in which no fate is decided. The objects of the received pack need no fate,
    /// and the walk stops at them.
    pub(crate) fn beside(alloc: A, received: &'r [IndexedEntry]) -> Walk<'r, A>
        ensures fates { result.fates ≡ [] }
        ensures trees { result.trees.items ≡ [] }
        ensures received { result.received.now ≡ received.now }
    {
        Walk {
            alloc,
            fates: Fates::new(alloc),
            trees: Vec::new(alloc),
            received,
        }
    }

    /// Marks a linked object as sent, unless its fate is already decided. If the object is a tree,
    /// marks also the trees and blobs that it reaches. Fails as [`gather`] does, or with `Type` if
    /// the received pack has a reached object with another type than the link to it.
    pub(crate) fn send_link<S: WalkedStore<A>>(
        &mut self,
        store: &mut S,
        link: Link,
    ) -> Result<(), WalkFault<A>>
        ensures received { OnOk result (self.new.received ≡ self.old.received) }
        ensures empty { OnOk result (self.new.trees.items ≡ []) }
        ensures keeps { OnOk result (StaysDecided self.old.fates self.new.fates) }
        ensures looks { OnOk result (LooksUp S.has S.located self.old
            → LooksUp S.has S.located self.new) }
        ensures leads { OnOk result (LooksUp S.has S.located self.old → LeadsOn self.new link) }
    {
        self.settle_link(store, link, Fate::Sent(PathHash::NONE))?;
        self.walk_trees(store)?;
        Ok(())
    }

    // Marks the listed commits and tags as sent.
    fn send_all<S: WalkedStore<A>>(
        &mut self,
        store: &mut S,
        entries: &[Entry<A>],
    ) -> Result<(), WalkFault<A>>
        ensures received { self.new.received ≡ self.old.received }
        ensures trees { self.new.trees.items ≡ self.old.trees.items }
        ensures only { OnOk result (HasNoReceived self.old → self.old.fates ≡ []
            → IsOnlyListed entries.now self.new.fates) }
        ensures each { OnOk result (HasNoReceived self.old → self.old.fates ≡ []
            → All (IsSentEntry self.new.fates) entries.now) }
    {
        for entry in entries {
            let fate = Fate::Sent(PathHash::NONE);
            let _found = self.settle(store, &entry.id, fate)?;
        }
        Ok(())
    }

    // Marks the unlisted parents of listed commits, and the trees and blobs that these parents
    // reach, as not sent, because the peer has them. Also marks the unlisted targets of listed tags,
    // but not what they reach: a tag leads to no tree that is sent.
    fn leave_out_parents<S: WalkedStore<A>>(
        &mut self,
        store: &mut S,
        entries: &[Entry<A>],
    ) -> Result<(), WalkFault<A>>
        ensures empty { self.old.trees.items ≡ [] → OnOk result (self.new.trees.items ≡ []) }
        ensures keeps { OnOk result (StaysDecided self.old.fates self.new.fates) }
        ensures open { OnOk result (IsOpen S.has entries.now self.old
            → IsOpen S.has entries.now self.new) }
        ensures parents { OnOk result (HasNoReceived self.old
            → All (HasDecidedParents self.new.fates) entries.now) }
    {
        self.leave_out_below_commits(store, entries)?;
        self.leave_out_targets(store, entries)?;
        Ok(())
    }

    // Marks the unlisted parents of listed commits, and the trees and blobs that these parents
    // reach, as not sent.
    fn leave_out_below_commits<S: WalkedStore<A>>(
        &mut self,
        store: &mut S,
        entries: &[Entry<A>],
    ) -> Result<(), WalkFault<A>>
        ensures received { OnOk result (self.new.received ≡ self.old.received) }
        ensures empty { self.old.trees.items ≡ [] → OnOk result (self.new.trees.items ≡ []) }
        ensures keeps { OnOk result (StaysDecided self.old.fates self.new.fates) }
        ensures open { OnOk result (IsOpen S.has entries.now self.old
            → IsOpen S.has entries.now self.new) }
    {
        for entry in entries {
            self.leave_out_below(store, entry.node.kind, entry.node.parents.as_slice())?;
        }
        Ok(())
    }

    // Marks these parents of a listed commit, and the trees and blobs that they reach, as not sent,
    // if their fates are undecided. Marks nothing if `kind` is a tag.
    fn leave_out_below<S: WalkedStore<A>>(
        &mut self,
        store: &mut S,
        kind: Kind,
        parents: &[Oid],
    ) -> Result<(), WalkFault<A>>
        ensures received { OnOk result (self.new.received ≡ self.old.received) }
        ensures empty { self.old.trees.items ≡ [] → OnOk result (self.new.trees.items ≡ []) }
        ensures keeps { OnOk result (StaysDecided self.old.fates self.new.fates) }
        ensures open { OnOk result ((entries : List (GraphEntry A)) → All (IsParent entries) parents.now
            → IsOpen S.has entries self.old → IsOpen S.has entries self.new) }
    {
        match kind {
            Kind::Commit => self.leave_out(store, parents),
            Kind::Tag => Ok(()),
        }
    }

    // Marks the parents of listed commits and the targets of listed tags as not sent, if their fates
    // are undecided.
    fn leave_out_targets<S: WalkedStore<A>>(
        &mut self,
        store: &mut S,
        entries: &[Entry<A>],
    ) -> Result<(), WalkFault<A>>
        ensures empty { self.old.trees.items ≡ [] → OnOk result (self.new.trees.items ≡ []) }
        ensures keeps { OnOk result (StaysDecided self.old.fates self.new.fates) }
        ensures open { OnOk result (IsOpen S.has entries.now self.old
            → IsOpen S.has entries.now self.new) }
        ensures parents { OnOk result (HasNoReceived self.old
            → All (HasDecidedParents self.new.fates) entries.now) }
    {
        for entry in entries {
            self.leave_out_ids(store, entry.node.parents.as_slice())?;
        }
        Ok(())
    }

    // Marks these parents of listed commits or tags as not sent, if their fates are undecided.
    fn leave_out_ids<S: WalkedStore<A>>(
        &mut self,
        store: &mut S,
        parents: &[Oid],
    ) -> Result<(), WalkFault<A>>
        ensures received { OnOk result (self.new.received ≡ self.old.received) }
        ensures empty { self.old.trees.items ≡ [] → OnOk result (self.new.trees.items ≡ []) }
        ensures keeps { OnOk result (StaysDecided self.old.fates self.new.fates) }
        ensures open { OnOk result ((entries : List (GraphEntry A)) → All (IsParent entries) parents.now
            → IsOpen S.has entries self.old → IsOpen S.has entries self.new) }
        ensures parents { OnOk result (HasNoReceived self.old
            → All (IsDecided self.new.fates) parents.now) }
    {
        for id in parents {
            let _found = self.settle(store, id, Fate::NotSent)?;
        }
        Ok(())
    }

    // Marks these parents of listed commits, and the trees and blobs that they reach, as not sent,
    // if their fates are undecided.
    fn leave_out<S: WalkedStore<A>>(
        &mut self,
        store: &mut S,
        parents: &[Oid],
    ) -> Result<(), WalkFault<A>>
        ensures received { OnOk result (self.new.received ≡ self.old.received) }
        ensures empty { self.old.trees.items ≡ [] → OnOk result (self.new.trees.items ≡ []) }
        ensures keeps { OnOk result (StaysDecided self.old.fates self.new.fates) }
        ensures open { OnOk result ((entries : List (GraphEntry A)) → All (IsParent entries) parents.now
            → IsOpen S.has entries self.old → IsOpen S.has entries self.new) }
        ensures parents { OnOk result (HasNoReceived self.old
            → All (IsDecided self.new.fates) parents.now) }
    {
        for id in parents {
            self.leave_out_one(store, id)?;
        }
        Ok(())
    }

    // Marks a parent of a listed commit, and the trees and blobs that it reaches, as not sent, if
    // its fate is undecided.
    fn leave_out_one<S: WalkedStore<A>>(
        &mut self,
        store: &mut S,
        id: &Oid,
    ) -> Result<(), WalkFault<A>>
        ensures received { OnOk result (self.new.received ≡ self.old.received) }
        ensures empty { self.old.trees.items ≡ [] → OnOk result (self.new.trees.items ≡ []) }
        ensures keeps { OnOk result (StaysDecided self.old.fates self.new.fates) }
        ensures open { OnOk result ((entries : List (GraphEntry A)) → IsParent entries id.now
            → IsOpen S.has entries self.old → IsOpen S.has entries self.new) }
        ensures parent { OnOk result (HasNoReceived self.old → IsDecided self.new.fates id.now) }
    {
        let Some(_found) = self.settle(store, id, Fate::NotSent)? else {
            return Ok(());
        };
        self.walk_from(store, id, Fate::NotSent)?;
        Ok(())
    }

    // Marks as sent all undecided trees and blobs that the commits and tags reach.
    fn send_trees<S: WalkedStore<A>>(
        &mut self,
        store: &mut S,
        entries: &[Entry<A>],
    ) -> Result<(), WalkFault<A>>
        ensures empty { self.old.trees.items ≡ [] → OnOk result (self.new.trees.items ≡ []) }
        ensures keeps { OnOk result (StaysDecided self.old.fates self.new.fates) }
        ensures open { OnOk result (All (IsSentEntry self.old.fates) entries.now
            → IsOpen S.has entries.now self.old → IsOpen S.has entries.now self.new) }
        ensures walked { OnOk result (HasNoReceived self.old → (listed : List Id)
            → All (HasIdIn listed) entries.now
            → All (IsWalkedEntry S.has listed self.new.fates) entries.now) }
    {
        for entry in entries {
            self.walk_from(store, &entry.id, Fate::Sent(PathHash::NONE))?;
        }
        Ok(())
    }

    // Returns the type of an object of the received pack, or `None` if the pack lacks the object.
    fn received_kind(&self, id: &Oid) -> Option<ObjectType>
        ensures { IfSome result (λ kind. IsReceived self.now (link_of kind id.now)) }
    {
        match find_entry(self.received, id) {
            Some(entry) => Some(entry.kind),
            None => None,
        }
    }

    // Returns whether the fate of an object is decided.
    fn is_decided(&self, id: &Oid) -> bool
        ensures decided { IsTrue result → IsDecided self.now.fates id.now }
        ensures open { IsFalse result → decided_at self.now.fates id.now ≡ None }
    {
        self.fates.get(id).is_some()
    }

    // Sets the fate of an undecided object, and returns its location. Returns `None` if the fate
    // was already decided, or if the received pack has the object.
    fn settle<S: WalkedStore<A>>(
        &mut self,
        store: &mut S,
        id: &Oid,
        fate: Fate,
    ) -> Result<Option<Found>, WalkFault<A>>
        ensures received { self.new.received ≡ self.old.received }
        ensures trees { self.new.trees.items ≡ self.old.trees.items }
        ensures settles { IfOk result (λ found. Settles S.located self.old id.now fate found self.new) }
    {
        match self.received_kind(id) {
            Some(_) => Ok(None),
            None => self.decide(store, id, None, fate),
        }
    }

    // Sets the fate of an undecided object that the received pack lacks, and returns the location
    // of the object. Returns `None` if the fate was already decided. `kind` is the type that a
    // followed link gives the object.
    fn decide<S: WalkedStore<A>>(
        &mut self,
        store: &mut S,
        id: &Oid,
        kind: Option<ObjectType>,
        fate: Fate,
    ) -> Result<Option<Found>, WalkFault<A>>
        ensures received { self.new.received ≡ self.old.received }
        ensures trees { self.new.trees.items ≡ self.old.trees.items }
        ensures decides { IfOk result (λ found.
            Decides S.located self.old id.now kind fate found self.new) }
    {
        if self.is_decided(id) {
            return Ok(None);
        }
        let found = store.locate(id)?;
        let decided = Decided { fate, found, kind };
        self.fates.settle(id, decided)?;
        Ok(Some(found))
    }

    // Decides the fates of all objects that a tree, or the tree of a commit, reaches. Skips the
    // object that a tag names, because the caller adds that object separately.
    fn walk_from<S: WalkedStore<A>>(
        &mut self,
        store: &mut S,
        id: &Oid,
        fate: Fate,
    ) -> Result<(), WalkFault<A>>
        ensures received { OnOk result (self.new.received ≡ self.old.received) }
        ensures empty { OnOk result (self.new.trees.items ≡ []) }
        ensures keeps { OnOk result (StaysDecided self.old.fates self.new.fates) }
        ensures open { OnOk result ((entries : List (GraphEntry A)) → HasFateAs self.old.fates id.now fate
            → IsOpen S.has entries self.old → IsOpen S.has entries self.new) }
        ensures walked { OnOk result (HasNoReceived self.old → (listed : List Id)
            → Contains listed id.now → IsWalked S.has listed self.new.fates id.now) }
    {
        let object = store.object(id)?;
        self.walk_object(store, id, &object, fate)?;
        self.walk_trees(store)?;
        Ok(())
    }

    // Decides the fates of all objects that the trees reach. The fate of each object is decided
    // only once, so the loop ends.
    fn walk_trees<S: WalkedStore<A>>(&mut self, store: &mut S) -> Result<(), WalkFault<A>>
        ensures received { OnOk result (self.new.received ≡ self.old.received) }
        ensures empty { OnOk result (self.new.trees.items ≡ []) }
        ensures keeps { OnOk result (StaysDecided self.old.fates self.new.fates) }
        ensures open { OnOk result ((entries : List (GraphEntry A)) → IsOpen S.has entries self.old
            → IsOpen S.has entries self.new) }
        ensures looks { OnOk result (LooksUp S.has S.located self.old
            → LooksUp S.has S.located self.new) }
    {
        for _ in 0..u64::MAX {
            let Some(tree) = self.take_tree() else {
                return Ok(());
            };
            self.walk_tree(store, tree)?;
        }
        Err(WalkFault::Count)
    }

    // Removes and returns the last tree of `trees`, or returns `None` if there is none.
    fn take_tree(&mut self) -> Option<PendingTree>
        ensures received { self.new.received ≡ self.old.received }
        ensures fates { self.new.fates ≡ self.old.fates }
        ensures trees { self.old.trees.items ≡ self.new.trees.items ++ option_to_list result }
        ensures empty { result ≡ None → self.new.trees.items ≡ [] }
    {
        self.trees.pop()
    }

    // Decides the fates of the objects that a tree names.
    fn walk_tree<S: WalkedStore<A>>(
        &mut self,
        store: &mut S,
        tree: PendingTree,
    ) -> Result<(), WalkFault<A>>
        ensures { OnOk result ((body : List ℕ) × S.has tree.id (object_of types.Tree body)
            × NotesObject S.located self.old types.Tree body (is_sent tree.fate) self.new) }
    {
        let object = store.object_at(&tree.id, tree.found)?;
        if object.kind != ObjectType::Tree {
            return Err(WalkFault::Type { id: tree.id });
        }
        self.walk_entries(store, &tree.id, object.body.as_slice(), tree.fate)
    }

    // Decides the fates of the objects that an object names. Each named tree whose fate was
    // undecided is added to `trees`.
    fn walk_object<S: WalkedStore<A>>(
        &mut self,
        store: &mut S,
        id: &Oid,
        object: &Object<A>,
        fate: Fate,
    ) -> Result<(), WalkFault<A>>
        ensures { OnOk result (NotesObject S.located self.old object.now.kind object.now.body.items (is_sent fate) self.new) }
    {
        let body = object.body.as_slice();
        match object.kind {
            ObjectType::Commit => self.walk_commit(store, id, body, fate),
            ObjectType::Tree => self.walk_entries(store, id, body, fate),
            ObjectType::Tag => Ok(()),
            ObjectType::Blob => Ok(()),
        }
    }

    // Decides the fate of the tree that a commit names.
    fn walk_commit<S: WalkedStore<A>>(
        &mut self,
        store: &mut S,
        id: &Oid,
        body: &[u8],
        fate: Fate,
    ) -> Result<(), WalkFault<A>>
        ensures { OnOk result (NotesObject S.located self.old types.Commit body.now (is_sent fate) self.new) }
    {
        let links = match commit_links(self.alloc, body) {
            Ok(links) => links,
            Err(fault) => return Err(WalkFault::of_object(id, fault)),
        };
        let link = Link {
            id: links.tree,
            kind: ObjectType::Tree,
        };
        self.settle_link(store, link, fate)
    }

    // Decides the fates of the objects that a tree names, one by one. A list of the named objects
    // would need more memory than the tree.
    fn walk_entries<S: WalkedStore<A>>(
        &mut self,
        store: &mut S,
        id: &Oid,
        body: &[u8],
        fate: Fate,
    ) -> Result<(), WalkFault<A>>
        ensures { OnOk result (NotesObject S.located self.old types.Tree body.now (is_sent fate) self.new) }
    {
        let mut rest = body;
        while !is_over(rest) {
            let Some(parts) = split_entry(rest) else {
                return Err(WalkFault::of_object(id, ObjectFault::Malformed));
            };
            self.settle_some(store, parts.0.link(), fate.of_entry(parts.0.name))?;
            rest = parts.1;
        }
        Ok(())
    }

    // Decides the fate of a named object, if there is one.
    fn settle_some<S: WalkedStore<A>>(
        &mut self,
        store: &mut S,
        link: Option<Link>,
        fate: Fate,
    ) -> Result<(), WalkFault<A>>
        ensures { OnOk result (Notes S.located self.old (option_to_list link) (is_sent fate) self.new) }
    {
        match link {
            Some(link) => self.settle_link(store, link, fate),
            None => Ok(()),
        }
    }

    // Decides the fate of a named object. If the object is a tree whose fate was undecided, it is
    // added to `trees`. Fails if the received pack has the object with another type.
    fn settle_link<S: WalkedStore<A>>(
        &mut self,
        store: &mut S,
        link: Link,
        fate: Fate,
    ) -> Result<(), WalkFault<A>>
        ensures { OnOk result (Notes S.located self.old (link ∷ []) (is_sent fate) self.new) }
    {
        match self.received_kind(&link.id) {
            Some(kind) => check_type(&link, kind),
            None => self.decide_link(store, link, fate),
        }
    }

    // Decides the fate of a named object that the received pack lacks. If the object is a tree
    // whose fate was undecided, it is added to `trees`. Fails with `Type` if an earlier link gives
    // the object another type.
    fn decide_link<S: WalkedStore<A>>(
        &mut self,
        store: &mut S,
        link: Link,
        fate: Fate,
    ) -> Result<(), WalkFault<A>>
        ensures { OnOk result (Notes S.located self.old (link ∷ []) (is_sent fate) self.new) }
    {
        let Some(found) = self.decide(store, &link.id, Some(link.kind), fate)? else {
            return self.check_linked(&link);
        };
        if !leads_to_tree(&link) {
            return Ok(());
        }
        let id = link.id;
        self.trees.push(PendingTree { id, found, fate })?;
        Ok(())
    }

    // Fails with `Type` if the fate was decided through a link to another type.
    fn check_linked(&self, link: &Link) -> Result<(), WalkFault<A>>
        ensures { OnOk result (IsDecided self.now.fates link.now.id
            → IsDecidedAs self.now.fates link.now) }
    {
        match self.fates.linked_kind(&link.id) {
            Some(kind) => check_type(link, kind),
            None => Ok(()),
        }
    }
}

// Fails with `Type` if this type of the named object differs from the type of the link.
fn check_type<A: Allocator + Copy>(link: &Link, kind: ObjectType) -> Result<(), WalkFault<A>>
    ensures { OnOk result (kind ≡ link.now.kind) }
{
    if kind != link.kind {
        return Err(WalkFault::Type { id: link.id });
    }
    Ok(())
}

// Returns whether the link leads to a tree.
fn leads_to_tree(link: &Link) -> bool
    ensures { IsTrue result ↔ (link.now.kind ≡ types.Tree) }
{
    link.kind == ObjectType::Tree
}

// Returns whether the text is empty.
fn is_over(text: &[u8]) -> bool
    ensures { IsTrue result ↔ (text.now ≡ []) }
{
    text.is_empty()
}
