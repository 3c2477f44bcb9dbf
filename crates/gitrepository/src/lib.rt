//! A Git directory as a repository: its graph of commits and tags, its refs and HEAD, and the packs
//! that it sends and receives (gitrepository-layout(5), gitformat-pack(5)).
//!
//! - [`open_repository`] returns the graph of everything the refs reach. The function
//!   [`read_commit_graph`] reads the commit-graph, which lists the parents of commits. A commit
//!   that the commit-graph lists need not be read.
//! - [`open_tips`] returns the objects that refs point to, without their history. The command
//!   `ls-refs` needs no other objects. [`lead_with_newest`] puts refs to the newest objects first.
//! - A [`StorePacker`] packs commits and tags with their trees and blobs. The packer copies the
//!   streams of stored pack entries unchanged. It sends other objects as new deltas if it finds
//!   small enough deltas. A pack is returned in parts, with one entry in memory at a time.
//! - A [`StoreIndexer`] indexes a pack while receiving it, and stores the pack in a temporary file
//!   ([`StoredSpools`]) or in memory ([`MemorySpools`]). The function [`install_pack`] writes the
//!   index, and gives both files their final names.
//! - [`open_store`] refuses a repository in an unsupported format, and [`is_bare`] returns whether
//!   a repository has no work tree. A clone creates a [`NewRepository`]. [`check_repository`]
//!   checks connectivity: every object that the refs reach exists.
//!
//! # Proved
//!
//! - Each entry of the graph describes an object that was read, or a commit as the commit-graph
//!   lists it. The id of an object is the SHA-1 of its type and bytes. The parents of an entry are
//!   the commits or the tagged object that the bytes name, in order. Parents precede their
//!   children. Each ref points to an entry of the graph.
//! - [`open_tips`] and [`lead_with_newest`] return only refs that point to entries of the graph.
//!   [`open_tips`] returns exactly the listed refs, in order.
//! - If [`check_refs`] succeeds, a closed store has an object for the id of each ref and of a
//!   detached HEAD. So each of these ids is complete: the store has everything that it reaches,
//!   with trees and blobs. The returned numbers count the refs, and the objects of this store.
//! - The ids to send are those that `gitwalk::gather` chooses for the listed commits and tags. The
//!   objects that the packer reads for this choice have the ids by which they were read.
//! - A sent pack consists of a header, as many entries as there are objects to send, and the SHA-1
//!   of all preceding bytes. Each entry of a sent pack has a well-formed header. The pack has at
//!   most `gparts::MAX_PARTS` bytes. The concatenation of the returned parts is the pack. If the
//!   call for a part fails, no contract describes the parts returned before.
//! - A pack is accepted only if its trailer is the SHA-1 of all preceding bytes. Each entry that
//!   the indexer returns describes an object, or is a tree or blob that a tag names. In the second
//!   case the entry of the tag is also returned.
//! - The spool that stores a received pack was given exactly the received bytes, in order. The
//!   checksum of the index is the trailer of the pack. A [`StoreIndexer`] keeps this pack, and
//!   accepts no other pack before it is taken.
//! - For each id and type in the index of a [`Received`] pack, there is an object of this type
//!   whose SHA-1 is the id. The parts of the object that contain links are well-formed. Each object
//!   that it names is in the index, or is one of the prerequisites of the pack. In both cases the
//!   named object has the expected type ([`Received::laws`]).
//! - Each prerequisite of a received pack is in the index, or was looked up. For each tree that was
//!   looked up, there is a tree whose SHA-1 is the id. Each link of this tree leads to an object of
//!   the index, or to an object that was looked up. Suppose an object was looked up and is not in
//!   the index. Then these links and prerequisites all give it the same type ([`Received::laws`]).
//! - A store is closed if each object that its objects name is in the store, with the expected
//!   type. Suppose a closed store has the prerequisites of a received pack. Then it stays closed
//!   when the objects of the pack are added, unless two different objects have the same id
//!   ([`laws`]).
//! - A [`StoreIndexer`] keeps an id if an object or a prerequisite of the accepted pack has it. It
//!   keeps the id of each entry that it returns, and loses no id until the pack is taken.
//! - Suppose a closed store has each object of a client's graph and the prerequisites of a pack.
//!   Suppose also that the graph gains only ids that the indexer keeps, as in a fetch. Then each id
//!   of the graph is complete once the objects of the pack are added: the store has everything that
//!   it reaches. The exception is again two different objects with the same id
//!   ([`laws::kept_is_complete`]). The closed store need not have the trees that were looked up.
//!   The ids are then complete together with these trees ([`laws::read_is_complete`]).
//! - [`install_files`] installs a pack in a [`PackFolder`], and then its index. After `Ok` both
//!   files exist, with the bytes that they were given. A file gets its final name only once both
//!   files are written and synced. After a fault the folder has both files, only the pack, or
//!   neither file.
//! - [`MemoryFolder`] is a [`PackFolder`] that records all files it receives.
//! - For any contents of the files, no call panics, overflows or reads out of bounds, and every
//!   call returns.
//!
//! # What the proofs rely on
//!
//! No contract can describe the contents of a system file. So the proofs do not say which objects
//! the Git directory has. The proofs about received packs also rely on the file system, which must
//! return the pack as it was written.
//!
//! # Differences from Git
//!
//! - A tree or blob that a ref or tag points to counts as a commit without parents.
//! - [`open_repository`] and [`open_refs`] leave out a ref whose object is missing. [`open_tips`]
//!   may return such a ref. If HEAD points to a missing object, the repository is refused.
//! - The packer packs a list of commits and tags. If a parent of a listed commit is not in the
//!   list, the packer assumes that the client has the parent. It also assumes that the client has
//!   everything that the tree of the parent reaches.
//! - New deltas are made only for objects that are not copied: loose objects, stored deltas whose
//!   base is not sent, some stored deltas whose base is stored twice, and objects with broken
//!   entries. Only these are bases of new deltas. Git also makes new deltas for objects that are
//!   stored whole in a pack.
//! - Before deltas are made, objects are sorted by the ends of their paths, but not by size. No new
//!   delta is made for an object of more than 8 MiB; Git's limit is 512 MiB.
//! - A graph holds at most 1,048,576 commits and tags, with at most 64 parents each.
//! - A copied delta names its base by offset if the base was already copied, even if the client
//!   does not request `ofs-delta`. A new delta names its base by id.
//! - Git looks for signs of a SHA-1 collision attack when it computes an id. This crate does not.
//! - A received pack has a file `.keep` until refs reach its objects, as in Git.
//! - The commit-graph of an alternate is not read. `core.commitGraph` is read only from the file
//!   `config` of the repository.
//! - A multi-pack index, bitmaps, grafts and replace refs are not read. A shallow repository, a
//!   partial clone, SHA-256 ids, a reftable and an unknown extension are refused.
//! - When a pack is received, each object that the pack's objects name must exist. If a named
//!   object is a tree of the store, everything that the tree reaches must exist. Git does not look
//!   up what is reachable from refs.
//!
//! # What the contracts do not rule out
//!
//! No contract rules out any of the following:
//!
//! - The packer may send one object's entry in place of another's, or an entry twice. The contracts
//!   cover only the ids of the objects to send, and the number of entries.
//! - The packer may compare the wrong objects to make deltas.
//! - The header of a sent entry may state a wrong type or size, or a wrong offset of its base. The
//!   base may have another type.
//! - The stream of a sent entry may be arbitrary bytes, and a delta may name a base that is not
//!   sent. The reader compares the CRC-32 of each copied entry with the index, but no contract
//!   covers this comparison.
//! - A wrong commit-graph may lead to a wrong graph. The commit-graph is used only for commits in
//!   the store. No contract covers which commits are looked up in the commit-graph, or from which
//!   file it is read.
//! - The graph may contain objects that no ref reaches. A ref may be left out, or may point to
//!   another object of the graph. No contract covers HEAD.
//! - [`open_tips`] may find objects other than those of the refs, or may peel a tag to the wrong
//!   object. The function trusts the peeled ids in `packed-refs`, as Git does.
//! - [`lead_with_newest`] may leave refs out, or put other refs first.
//! - No contract says that the closed store of [`check_refs`] has the bytes that the reader
//!   returned, or only objects that the refs reach. The function [`check_repository`] has no
//!   contract.
//! - [`Tips`] may lose an id or have other ids, and [`add_leaves`] may add or remove other nodes.
//!   No contract covers the result of [`Tips::contains`].
//! - No contract says which repository formats are opened or refused. No contract covers the result
//!   of [`is_bare`], or the names and ids of peeled refs in a new repository.
//! - The indexer may leave out an entry, or return an entry for a prerequisite. The index of a
//!   received pack may leave out an object of the pack. It may have an object that the pack does
//!   not have, or state a wrong offset or CRC-32.
//! - The prerequisites may include an object of the pack, or one that no object of the pack names.
//!   No public contract says that the store returned their types. No contract covers the limits on
//!   a received pack, such as its number of objects, their sizes, and the memory for the ids that
//!   they name.
//! - The store may lack objects that the prerequisites reach, because no contract says that the
//!   store has what was looked up. Nothing that a commit or tag among the prerequisites reaches is
//!   checked here. A session moves no ref to an unconnected id.
//! - A prerequisite that is not a tree need not have been looked up. The same holds for an object
//!   that a stored tree names, unless it is a tree. Only the types of these objects are proved to
//!   be the same everywhere.
//! - A link of a stored tree may give an object of the index, or a blob of the store, another type.
//! - The store may return the type of an object that it does not have, or that is malformed.
//! - The indexer compares objects that the store already has. No contract covers these comparisons,
//!   or states when the indexer reads an object. The indexer can miss a loose object that is added
//!   while a pack arrives.
//! - A parent of a commit in the graph may be a tag, a tree or a blob. The types of parents are
//!   checked, but no contract covers this check.
//! - [`PackCounts`] and [`StorePacker::counts`] have no contract, because they serve only
//!   measurements.
//! - [`StoreIndexer::kind_of`] may return the wrong type.
//! - A [`NewRepository`] may lack its configuration, its pack, its refs or HEAD. Its files may be
//!   removed by `finish`, or may remain after a fault.
//! - A contract cannot describe the contents of a system file, so only the order of the calls in
//!   [`install_files`] is proved for system files. The function [`install_pack`] may install
//!   nothing, or may not create the file `.keep`. The folder of packs may fail to write, sync or
//!   rename a file, may give a file a wrong name, or may leave temporary files.
//! - A dropped [`KeptPack`] may leave its file `.keep`, or may remove another file.
//! - A [`StoredSpool`] may write or return wrong bytes, may leave its file, or may create its file
//!   in the wrong folder.
//! - `MemoryFolder::clean` may keep the bytes of the pack and the index.
//! - A call may fail without a reason. The contracts do not cover which fault is returned, the text
//!   of a fault, running time, or memory use. The `take_fault` of a packer or an indexer may return
//!   no fault. No contract covers the result of [`RepositoryFault::is_of_spool`].
//!
//! This crate has no tests.
//!
//! # Dependencies
//!
//! `gitwalk` chooses the objects to send, and checks stored trees. `gparts` defines packers that
//! return parts, and `ggraph` and `gdag` define graphs. `gobject` defines the objects of a graph,
//! and `grefs` defines refs. `gitobjects` reads objects, `gitcommitgraph` reads commit-graphs,
//! `gitrefs` reads refs, and `gitconfig` reads settings. `gitpack` reads and writes packs,
//! `gitobject` parses links, and `gcomplete` defines closed stores. `gzlib` deflates, `gname`
//! defines ids, and `sha1` computes the trailer of a pack.
#![tactic(auto)]

mod arrival;
mod checking;
mod commit_graph;
mod copying;
mod fault;
mod feed;
mod folder;
mod form;
mod history;
mod indexer;
mod install;
mod kept;
pub mod laws;
mod leaves;
mod limits;
mod linking;
mod memory_folder;
mod needs;
mod new_repository;
mod newest;
mod nodes;
mod opening;
mod outgoing;
mod packer;
mod parts;
mod ref_tips;
mod source;
mod spools;
mod stored_folder;
mod stored_spool;
mod temporary;
mod tips;
mod window;
mod written;

pub use crate::checking::{Checked, check_refs, check_repository};
pub use crate::commit_graph::read_commit_graph;
pub use crate::copying::PackCounts;
pub use crate::fault::{CheckFault, FormFault, ObjectCause, RepositoryFault};
pub use crate::feed::{Received, StoreFeed};
pub use crate::folder::{PackFileStage, PackFolder};
pub use crate::form::{check_form, is_bare, open_store};
pub use crate::indexer::StoreIndexer;
pub use crate::install::{install_files, install_pack};
pub use crate::kept::KeptPack;
pub use crate::leaves::add_leaves;
pub use crate::memory_folder::{MemoryFolder, PackFile};
pub use crate::new_repository::NewRepository;
pub use crate::newest::lead_with_newest;
pub use crate::opening::{open_refs, open_repository};
pub use crate::packer::StorePacker;
pub use crate::parts::StoreParts;
pub use crate::ref_tips::open_tips;
pub use crate::spools::{MemorySpools, PackSpools, StoredSpools};
pub use crate::stored_spool::StoredSpool;
pub use crate::tips::Tips;
