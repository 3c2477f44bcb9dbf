//! The answers to ls-refs (gitprotocol-v2(5), "ls-refs").

ghost use Rattle.std.specs.Prelude.{◌≡◌, ◌∷◌, ◌++◌, [], nat_eq, IfOk, IfErr, IfSome, OnOk};
ghost use Rattle.std.specs.List.{list_any, starts_with};
ghost use Rattle.std.specs.Option.{option_copied};
ghost use Rattle.ggrammar.specs.declared.fault.Why.TheVariants as why;
ghost use Rattle.glsreply.specs.LentViews.{lent_view};
ghost use Rattle.grefs.specs.RefLists.{RefList};
ghost use Rattle.ganswer.specs.LsAnswers.{IsPeeled, LsAnswer, ShowsLines, all_refs, head_id, head_ref, is_asked, missing_target, symref_of, target_of, unborn_of};
ghost use Rattle.ganswer.specs.steps.Answers.{IsAnswering, IsNextRef, line_list};
ghost use Rattle.ganswer.specs.declared.fault.ServeFault.TheVariants.{Memory};

use crate::fault::ServeFault;
use crate::peels::peeled_if;
use crate::server::Server;
use ggrammar::MessageFault;
use ggraph::Head;
use ggraph::graph_laws::positions_are_nodes;
use glsreply::{LentLine, LsReply, RefLine};
use gname::laws::ids_have_one_format;
use gname::{Oid, Prefix, RefName};
use grequest::{LsRefsFlag, LsRefsRequest};
use std::alloc::{AllocError, Allocator};

impl<A: Allocator + Copy> Server<A> {
    // Returns the reply to an ls-refs request. Fails only if memory runs out.
    pub(crate) fn answer_ls(&self, request: &LsRefsRequest<A>) -> Result<LsReply<A>, ServeFault>
        ensures answer { IfOk result (LsAnswer self.now request.now.asked) }
        ensures fault { IfErr result (λ fault. fault ≡ Memory) }
    {
        let mut reply = self.begin_ls(request)?;
        self.add_head(request, &mut reply)?;
        self.add_refs(request, self.refs().as_slice(), &mut reply)?;
        Ok(reply)
    }

    // Returns a reply without refs. The reply contains the name that an unborn HEAD points at, if
    // the request asks for this name.
    fn begin_ls(&self, request: &LsRefsRequest<A>) -> Result<LsReply<A>, ServeFault>
        ensures reply { IfOk result (λ reply. reply
            ≡ record { unborn = unborn_of self.now request.now.asked; lines = [] }) }
        ensures fault { IfErr result (λ fault. fault ≡ Memory) }
    {
        let mut reply = LsReply::new(self.graph().allocator());
        if let Some(target) = self.unborn(request) {
            reply.set_unborn(target.clone()?).unwrap();
        }
        Ok(reply)
    }

    // Appends the line of HEAD, if HEAD has an id and the request includes HEAD.
    fn add_head(&self, request: &LsRefsRequest<A>, reply: &mut LsReply<A>) -> Result<(), ServeFault>
        requires { reply.old
            ≡ record { unborn = unborn_of self.now request.now.asked; lines = [] } }
        ensures head { OnOk result (IsAnswering self.now request.now.asked
            (head_ref (head_id self.now.head self.now.refs)) reply.new) }
        ensures fault { IfErr result (λ fault. fault ≡ Memory) }
    {
        match self.head_id() {
            Some(id) => self.add_ref_line(request, self.name_of_head(), id, None, reply),
            None => Ok(()),
        }
    }

    // Appends the lines of the requested refs.
    fn add_refs(
        &self,
        request: &LsRefsRequest<A>,
        refs: &[(RefName<A>, Oid)],
        reply: &mut LsReply<A>,
    ) -> Result<(), ServeFault>
        requires refs { refs.now ≡ self.now.refs }
        requires head { IsAnswering self.now request.now.asked
            (head_ref (head_id self.now.head self.now.refs)) reply.old }
        ensures all { OnOk result (IsAnswering self.now request.now.asked (all_refs self.now)
            reply.new) }
        ensures fault { IfErr result (λ fault. fault ≡ Memory) }
    {
        for (place, reference) in refs.iter().enumerate() {
            let known = self.peeled_at(place);
            self.add_ref_line(request, &reference.0, reference.1, known, reply)?;
        }
        Ok(())
    }

    // Appends the line of a ref, if the request includes the ref. `known` is the peeled id of the
    // ref, `Some(None)` if the ref has no peeled id, or `None` if the peeled id was not looked up
    // before.
    fn add_ref_line(
        &self,
        request: &LsRefsRequest<A>,
        name: &RefName<A>,
        id: Oid,
        known: Option<Option<Oid>>,
        reply: &mut LsReply<A>,
    ) -> Result<(), ServeFault>
        requires next { IsNextRef self.now request.now.asked (name.now, id) reply.old }
        requires known { IfSome known (IsPeeled self.now.graph.entries id) }
        ensures added { OnOk result ((front : RefList)
            → IsAnswering self.now request.now.asked front reply.old
            → IsAnswering self.now request.now.asked (front ++ (name.now, id) ∷ []) reply.new) }
        ensures fault { IfErr result (λ fault. fault ≡ Memory) }
    {
        // Laws that the proof uses.
        positions_are_nodes::<A>();
        ids_have_one_format();
        self.laws();
        let Some(line) = self.line(request, name, id, known) else {
            return Ok(());
        };
        let line = own_line(line)?;
        match reply.push(line) {
            Ok(()) => Ok(()),
            Err(fault) => Err(no_memory(fault)),
        }
    }

    /// Returns the line of a ref with the requested attributes, or `None` if the request does not
    /// include the ref. `known` is the peeled id of the ref, `Some(None)` if the ref has no peeled
    /// id, or `None` if the peeled id was not looked up before.
    pub fn line<'a>(
        &'a self,
        request: &LsRefsRequest<A>,
        name: &'a RefName<A>,
        id: Oid,
        known: Option<Option<Oid>>,
    ) -> Option<LentLine<'a, A>>
        requires { IfSome known (IsPeeled self.now.graph.entries id) }
        ensures { ShowsLines self.now request.now.asked ((name.now, id) ∷ []) (line_list result) }
    {
        if !is_asked(request.prefixes(), name) {
            return None;
        }
        Some(LentLine {
            id,
            name,
            symref: self.symref(request, name),
            peeled: peeled_if(request.has(LsRefsFlag::Peel), self.graph(), &id, known),
        })
    }

    /// Returns the id of the object that HEAD points at, directly or through a ref, or `None` if
    /// HEAD is unborn or there is no HEAD.
    pub fn head_id(&self) -> Option<Oid>
        ensures { result ≡ head_id self.now.head self.now.refs }
    {
        match self.head() {
            Head::None => None,
            Head::Id(id) => Some(*id),
            Head::Symref(target) => self.refs().get(target.name()),
        }
    }

    // Returns the name that HEAD points at, if any.
    fn target(&self) -> Option<&RefName<A>>
        ensures { option_copied result ≡ target_of self.now.head }
    {
        match self.head() {
            Head::Symref(target) => Some(target.name()),
            Head::None | Head::Id(_) => None,
        }
    }

    // Returns the name that HEAD points at, if the request has `symrefs` and `name` is HEAD.
    fn symref(&self, request: &LsRefsRequest<A>, name: &RefName<A>) -> Option<&RefName<A>>
        ensures { option_copied result ≡ symref_of self.now.head request.now.asked name.now }
    {
        if request.has(LsRefsFlag::Symrefs) && name.is_head() {
            self.target()
        } else {
            None
        }
    }

    // Returns the name that HEAD points at, if HEAD is unborn.
    fn missing_target(&self) -> Option<&RefName<A>>
        ensures { option_copied result ≡ missing_target self.now.head self.now.refs }
    {
        let target = self.target()?;
        match self.refs().get(target) {
            Some(_) => None,
            None => Some(target),
        }
    }

    /// Returns the name that an unborn HEAD points at, if the request includes HEAD and has
    /// `unborn`.
    pub fn unborn(&self, request: &LsRefsRequest<A>) -> Option<&RefName<A>>
        ensures { option_copied result ≡ unborn_of self.now request.now.asked }
    {
        if request.has(LsRefsFlag::Unborn) && is_asked(request.prefixes(), self.name_of_head()) {
            self.missing_target()
        } else {
            None
        }
    }
}

// Copies a line with borrowed names into a line with owned names.
fn own_line<A: Allocator + Copy>(line: LentLine<'_, A>) -> Result<RefLine<A>, AllocError>
    ensures { IfOk result (λ own. own ≡ lent_view line.entry) }
{
    let symref = match line.symref {
        Some(target) => Some(target.clone()?),
        None => None,
    };
    Ok(RefLine {
        id: line.id,
        name: line.name.clone()?,
        symref,
        peeled: line.peeled,
    })
}

// Returns true if the name begins with one of the prefixes, or if `prefixes` is empty.
fn is_asked<A: Allocator + Copy>(prefixes: &[Prefix<A>], name: &RefName<A>) -> bool
    ensures { result ≡ is_asked prefixes.now name.now }
{
    prefixes.is_empty() || begins_with_any(prefixes, name)
}

fn begins_with_any<A: Allocator + Copy>(prefixes: &[Prefix<A>], name: &RefName<A>) -> bool
    ensures { result ≡ list_any (starts_with nat_eq name.now) prefixes.now }
{
    prefixes.iter().any(|prefix| name.starts_with(prefix))
}

// Returns `Memory` for the fault of a line that could not be added. The reply has room for the
// line, so the only possible cause is a lack of memory.
fn no_memory(fault: MessageFault) -> ServeFault
    requires { fault.why ≡ why.Memory }
    ensures { result ≡ Memory }
{
    let _ = fault;
    ServeFault::Memory
}
