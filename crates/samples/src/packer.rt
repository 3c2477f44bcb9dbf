//! A packer and an indexer for a custom pack format, and a fetch that uses both.

ghost use Rattle.std.specs.Prelude.{⊤};
ghost use Rattle.gclientrepo.specs.Repos.{IsConnectedRepo};

use gclient::{FetchFault, Fetched, Repo, Spec, fetch_over};
use gcmd::PackLimit;
use ggrammar::Ends;
use ggraph::{Entry, IndexFault, Indexer, Kind, Node, PackFault, Packer, Parents};
use gname::{MAX_PACK, Oid};
use gpkt::{Sink, Source};
use std::alloc::Allocator;

/// The length of a record in bytes: one letter, and a SHA-1 id.
const RECORD: usize = 21;

/// A pack format that consists of records. Each record is a letter and an id. A record `c` or `t`
/// begins a commit or a tag, and a record `p` adds a parent to the current commit or tag.
#[derive(Clone, Copy, Drop)]
pub struct Records;

impl<A: Allocator + Copy> Packer<A> for Records {
    ghost packs = { λ _ list pack. ⊤ };

    ghost pack_fails = { λ _ list fault. ⊤ };

    fn pack(&self, alloc: A, entries: &[Entry<A>]) -> Result<Vec<u8, A>, PackFault> {
        let mut pack = Vec::new(alloc);
        for entry in entries {
            let letter = match entry.node.kind {
                Kind::Commit => b'c',
                Kind::Tag => b't',
            };
            add_record(&mut pack, letter, &entry.id)?;
            for parent in entry.node.parents.as_slice() {
                add_record(&mut pack, b'p', parent)?;
            }
        }
        if pack.len() > MAX_PACK {
            return Err(PackFault::TooLarge);
        }
        Ok(pack)
    }
}

impl<A: Allocator + Copy> Indexer<A> for Records {
    type Feed = Vec<u8, A>;

    ghost indexes = { λ pack list. ⊤ };

    ghost index_fails = { λ pack fault. ⊤ };

    ghost fed = { λ feed pack. ⊤ };

    fn start(&self, alloc: A) -> Result<Vec<u8, A>, IndexFault> {
        Ok(Vec::new(alloc))
    }

    fn feed(&self, feed: &mut Vec<u8, A>, piece: &[u8]) -> Result<(), IndexFault> {
        feed.extend_from_slice(piece)?;
        Ok(())
    }

    fn finish(&self, feed: Vec<u8, A>) -> Result<Vec<Entry<A>, A>, IndexFault> {
        let alloc = *feed.allocator();
        let mut entries: Vec<Entry<A>, A> = Vec::new(alloc);
        for record in feed.chunks(RECORD) {
            let id = Oid::from_bytes(&record[1..]).ok_or(IndexFault::Other)?;
            match (record[0], entries.last_mut()) {
                (b'c', _) => entries.push(without_parents(alloc, Kind::Commit, id))?,
                (b't', _) => entries.push(without_parents(alloc, Kind::Tag, id))?,
                (b'p', Some(entry)) => entry.node.parents.push(id)?,
                _ => return Err(IndexFault::Other),
            }
        }
        Ok(entries)
    }
}

/// Fetches refs from a server that sends packs of [`Records`]. `specs` selects the refs. After the
/// call, the repository has every object that its refs reach, even if the server is malicious.
///
/// Fails for the same reasons as `fetch_over`. A failed call leaves the refs unchanged.
pub fn fetch_records<A: Allocator + Copy, S: Source, W: Sink>(
    repo: &mut Repo<A>,
    specs: &[Spec<A>],
    source: &mut S,
    sink: &mut W,
) -> Result<Fetched<A>, FetchFault<A>>
    ensures { IsConnectedRepo repo.new }
{
    let limit = PackLimit::default();
    fetch_over(repo, source, sink, &Records, specs, limit, Ends::Plain)
}

fn add_record<A: Allocator + Copy>(
    pack: &mut Vec<u8, A>,
    letter: u8,
    id: &Oid,
) -> Result<(), PackFault> {
    pack.extend_from_slice(&[letter])?;
    pack.extend_from_slice(id.as_bytes())?;
    Ok(())
}

fn without_parents<A: Allocator + Copy>(alloc: A, kind: Kind, id: Oid) -> Entry<A> {
    let parents = Parents::new(alloc);
    Entry {
        id,
        node: Node { kind, parents },
    }
}
