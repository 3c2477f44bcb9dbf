//! The state of reading a repository text.

ghost use Rattle.std.specs.Prelude.{◌≡◌, ◌++◌, ◌∷◌, [], IfErr, OnOk, IsTrue, ◌↔◌, All, codes};
ghost use Rattle.gname.specs.Ids.{IsIdOf};
ghost use Rattle.gobject.specs.Objects.{IsShaped, entry_of, node_of};
ghost use Rattle.gobject.specs.PlainPackText.{letter};
ghost use Rattle.gdag.specs.Graphs.{HasIdsOf};
ghost use Rattle.ggraph.specs.RepositoryText.{MayFollow, RefMayFollow};
ghost use Rattle.ggraph.specs.steps.Reading.{RefusesEntry, RefusesRef, with_entry};

use crate::fault::LoadFault;
use crate::text::Order;
use crate::text::laws::text_laws;
use crate::text::lines::{NodeLine, RawRef, format_of, head_of, node_parts, ref_parts};
use crate::text::parts::{Room, name_of, take_spaced};
use gdag::{Graph, MAX_NODES};
use gname::{Format, Oid};
use gobject::{Entry, Kind, MAX_PARENTS, Node, Parents};
use grefs::{Head, MAX_REFS, Refs};
use std::alloc::Allocator;

/// The stage of reading a text, which determines the kinds of lines that are allowed next.
#[derive(Clone, Copy, Debug, PartialEq, Eq)]
pub(crate) enum TextStage {
    /// Only the first line is allowed, which names the object format.
    First,
    /// The line of a node, of a ref or of HEAD is allowed.
    Nodes,
    /// The line of a ref or of HEAD is allowed.
    Refs,
    /// Only the last line is allowed, which is `end`.
    Last,
    /// No further line is allowed, because the text is complete.
    Done,
}

/// The state of reading a text: the stage, and the contents of the lines read so far.
#[derive(Drop)]
pub(crate) struct Reading<A: Allocator + Copy> {
    pub stage: TextStage,
    pub graph: Graph<A>,
    pub refs: Refs<A>,
    pub head: Head<A>,
}

impl<A: Allocator + Copy> Reading<A> {
    ghost use Rattle.ggraph.specs.steps.Reading.{RefusesLine, ComesNext, RefMayCome, nothing_read};
    ghost use Rattle.ggraph.specs.steps.NoSuchPart.{IsNoNode, IsNoRef};
    ghost use Rattle.ggraph.specs.declared.text.Order.{Order};

    /// Returns the state before the first line. The call does not allocate.
    pub(crate) fn new(alloc: A) -> Reading<A>
        ensures { result ≡ nothing_read }
    {
        Reading {
            stage: TextStage::First,
            graph: Graph::new(alloc),
            refs: Refs::new(alloc),
            head: Head::None,
        }
    }

    /// Reads the next line, whose number in the text is `number`. `room` is the data that
    /// all calls share.
    pub(crate) fn take_line<'a>(
        &mut self,
        room: &mut Room<'a>,
        order: Order,
        line: &'a [u8],
        number: usize,
    ) -> Result<(), LoadFault>
        ensures ok { OnOk result (ComesNext order self.old line.now self.new) }
        ensures refused { IfErr result (RefusesLine order self.old line.now number) }
    {
        match self.stage {
            TextStage::First => self.take_first(room.nodes, line, number),
            TextStage::Nodes => match node_parts(line) {
                Some(node) => self.take_node(room, order, node, number),
                None => self.take_ref(line, number),
            },
            TextStage::Refs => self.take_ref(line, number),
            TextStage::Last => self.take_last(line, number),
            TextStage::Done => Err(LoadFault::Text { line: number }),
        }
    }

    // Reads the first line, and reserves memory for the expected nodes.
    fn take_first(&mut self, nodes: usize, line: &[u8], number: usize) -> Result<(), LoadFault>
        requires { self.old.stage ≡ TextStage.First }
        ensures ok { ((order : Order) → OnOk result (ComesNext order self.old line.now self.new)) }
        ensures refused { ((order : Order)
            → IfErr result (RefusesLine order self.old line.now number)) }
    {
        match format_of(line) {
            Some(format) => {
                self.stage = TextStage::Nodes;
                self.graph = Graph::new_in(self.graph.allocator(), format);
                self.graph.make_room(nodes);
                Ok(())
            }
            None => Err(LoadFault::Text { line: number }),
        }
    }

    fn take_last(&mut self, line: &[u8], number: usize) -> Result<(), LoadFault>
        requires { self.old.stage ≡ TextStage.Last }
        ensures ok { ((order : Order) → OnOk result (ComesNext order self.old line.now self.new)) }
        ensures refused { ((order : Order)
            → IfErr result (RefusesLine order self.old line.now number)) }
    {
        if line != b"end".as_slice() {
            return Err(LoadFault::Text { line: number });
        }
        self.stage = TextStage::Done;
        Ok(())
    }

    fn take_node<'a>(
        &mut self,
        room: &mut Room<'a>,
        order: Order,
        line: NodeLine<'a>,
        number: usize,
    ) -> Result<(), LoadFault>
        requires { self.old.stage ≡ TextStage.Nodes }
        ensures ok { OnOk result
            (ComesNext order self.old (letter line.entry.kind ∷ line.entry.ids.now) self.new) }
        ensures refused { IfErr result
            (RefusesLine order self.old (letter line.entry.kind ∷ line.entry.ids.now) number) }
    {
        // The proof uses these laws.
        text_laws();
        let format = self.graph.format();
        let Some(first) = take_spaced(format, line.ids) else {
            return Err(LoadFault::Text { line: number });
        };
        let Some(parents) = room.read(format, first.rest) else {
            return Err(LoadFault::Text { line: number });
        };
        let node = NewNode {
            kind: line.kind,
            id: first.id,
            parents,
        };
        let added = add_node(&mut self.graph, order, node, number);
        room.recent.keep(first.digits, first.id);
        added
    }

    // Reads the line of a ref or of HEAD.
    fn take_ref(&mut self, line: &[u8], number: usize) -> Result<(), LoadFault>
        requires stage { RefMayCome self.old.stage }
        requires no_node { self.old.stage ≡ TextStage.Nodes → IsNoNode line.now }
        ensures ok { ((order : Order) → OnOk result (ComesNext order self.old line.now self.new)) }
        ensures refused { ((order : Order)
            → IfErr result (RefusesLine order self.old line.now number)) }
    {
        // The proof uses these laws.
        text_laws();
        let Some(text) = line.strip_prefix(b"r ") else {
            return self.take_head(line, number);
        };
        let format = self.graph.format();
        let Some(found) = ref_parts(format, text) else {
            return Err(LoadFault::Text { line: number });
        };
        self.stage = TextStage::Refs;
        let alloc = self.graph.allocator();
        add_ref(&mut self.refs, alloc, format, found, number)
    }

    fn take_head(&mut self, line: &[u8], number: usize) -> Result<(), LoadFault>
        requires stage { RefMayCome self.old.stage }
        requires no_node { self.old.stage ≡ TextStage.Nodes → IsNoNode line.now }
        requires no_ref { IsNoRef line.now }
        ensures ok { ((order : Order) → OnOk result (ComesNext order self.old line.now self.new)) }
        ensures refused { ((order : Order)
            → IfErr result (RefusesLine order self.old line.now number)) }
    {
        match head_of(self.graph.allocator(), self.graph.format(), line)? {
            Some(head) => {
                self.head = head;
                self.stage = TextStage::Last;
                Ok(())
            }
            None => Err(LoadFault::Text { line: number }),
        }
    }
}

// The node of a line, with its parents borrowed from a `Room`.
#[derive(Clone, Copy)]
struct NewNode<'a> {
    kind: Kind,
    id: Oid,
    parents: &'a [Oid],
}

// Adds the node of a line to the graph. All checks happen before the first allocation.
fn add_node<A: Allocator + Copy>(
    graph: &mut Graph<A>,
    order: Order,
    node: NewNode<'_>,
    number: usize,
) -> Result<(), LoadFault>
    requires { HasIdsOf graph.old.format
        (entry_of {A = A} node.id (node_of node.kind node.parents.now)) }
    ensures ok { OnOk result (MayFollow order graph.old.format graph.old.entries
        (entry_of node.entry.id (node_of node.entry.kind node.entry.parents.now))
        × (graph.new ≡ with_entry graph.old
        (entry_of node.entry.id (node_of node.entry.kind node.entry.parents.now)))) }
    ensures refused { IfErr result (RefusesEntry order graph.old
        (entry_of node.entry.id (node_of node.entry.kind node.entry.parents.now)) number) }
{
    let NewNode { kind, id, parents } = node;
    if graph.len() >= MAX_NODES || !is_shaped(kind, parents) || graph.contains(&id) {
        return Err(LoadFault::Text { line: number });
    }
    let parents_held = graph.contains_all(parents);
    if order == Order::ParentsFirst && !parents_held {
        return Err(LoadFault::ParentLater { line: number });
    }
    let parents = Parents::from_slice(graph.allocator(), parents)?;
    let node = Node { kind, parents };
    match graph.push_after(Entry { id, node }, parents_held) {
        Ok(()) => Ok(()),
        Err(_) => Err(LoadFault::Memory),
    }
}

// Returns whether a node of this kind may have these parents.
fn is_shaped(kind: Kind, parents: &[Oid]) -> bool
    ensures { IsTrue result ↔ IsShaped {A = Unit {0}} (node_of kind parents.now) }
{
    match kind {
        Kind::Commit => parents.len() <= MAX_PARENTS,
        Kind::Tag => parents.len() == 1,
    }
}

// Adds the ref of a line to the refs. All checks happen before the first allocation.
fn add_ref<A: Allocator + Copy>(
    refs: &mut Refs<A>,
    alloc: A,
    format: Format,
    line: RawRef<'_>,
    number: usize,
) -> Result<(), LoadFault>
    requires id { IsIdOf format line.id }
    ensures ok { OnOk result (RefMayFollow format refs.old (line.entry.name.now, line.entry.id)
        × (refs.new ≡ refs.old ++ (line.entry.name.now, line.entry.id) ∷ [])) }
    ensures refused { IfErr result
        (RefusesRef format refs.old (line.entry.name.now, line.entry.id) number) }
{
    if refs.len() >= MAX_REFS || !refs.are_below(line.name) {
        return Err(LoadFault::Text { line: number });
    }
    match name_of(alloc, line.name)? {
        Some(name) => {
            refs.push(name, line.id)?;
            Ok(())
        }
        None => Err(LoadFault::Text { line: number }),
    }
}
