//! An ls-refs reply as an owned value.

ghost use Rattle.std.specs.Prelude.{◌≡◌, ◌↔◌, ◌+◌, [], All, length, IfErr, IfSome, IsTrue, MatchOption, None};
ghost use Rattle.std.specs.List.{slice_get};
ghost use Rattle.std.specs.Option.{option_copied};
ghost use Rattle.ggrammar.specs.declared.fault.Why.TheVariants.{Limit};
ghost use Rattle.gname.specs.Names.{IsRefName};
ghost use Rattle.glsreply.specs.LentViews.{lent_view};
ghost use Rattle.glsreply.specs.LsReplies.{max_lines, unborn_packets};
ghost use Rattle.glsreply.specs.steps.WellFormed.{Adds};
ghost use Rattle.glsreply.specs.WellFormed.{IsLsReplyIn, IsRefLine, IsReplyValue, Pushes, SetsUnborn, has_one_format, has_room, last_frame, line_count};

use crate::lent::LentLine;
use ggrammar::{Ends, MessageFault, Why};
use gname::laws::ids_have_one_format;
use gname::{Format, Oid, RefName};
use std::alloc::Allocator;
use std::marker::Model;

/// The maximum number of lines of a reply: one for `HEAD`, even if it is unborn, and 65,536 for
/// other refs.
pub const MAX_LINES: usize = 65_537;

/// The line of a ref in an ls-refs reply (gitprotocol-v2(5), "ls-refs").
#[derive(Debug, Drop)]
pub struct RefLine<A: Allocator + Copy> {
    /// The id that the ref points at.
    pub id: Oid,
    /// The name of the ref.
    pub name: RefName<A>,
    /// The value of `symref-target:`, if present: the name that the symbolic ref points at.
    pub symref: Option<RefName<A>>,
    /// The value of `peeled:`, if present: the id of the object that the tag peels to.
    pub peeled: Option<Oid>,
}

impl<A: Allocator + Copy> Model for RefLine<A> {
    ghost use Rattle.glsreply.specs.RefTexts.{RefLine};

    ghost Value = { RefLine };

    ghost view = { λ line. record { id = line.id; name = line.name; symref = line.symref; peeled = line.peeled } };
}

impl<A: Allocator + Copy> RefLine<A> {
    /// Returns the same line with borrowed names.
    pub fn lend(&self) -> LentLine<'_, A>
        ensures { lent_view result ≡ self.now }
    {
        LentLine {
            id: self.id,
            name: &self.name,
            symref: self.symref.as_ref(),
            peeled: self.peeled,
        }
    }
}

/// An ls-refs reply: the target of an unborn `HEAD`, if any, and the refs in order. All ids have
/// the same format.
#[derive(Debug, Drop)]
pub struct LsReply<A: Allocator + Copy> {
    unborn: Option<RefName<A>>,
    lines: Vec<RefLine<A>, A>,
}

impl<A: Allocator + Copy> Model for LsReply<A> {
    ghost use Rattle.glsreply.specs.LsReplies.{LsReply};
    ghost use Rattle.glsreply.specs.WellFormed.{IsReplyValue};

    ghost Value = { LsReply };

    ghost view = { λ reply. record { unborn = reply.unborn; lines = reply.lines.items } };

    ghost invariant = { λ reply. IsReplyValue (record { unborn = reply.unborn; lines = reply.lines.items }) };
}

impl<A: Allocator + Copy> LsReply<A> {
    /// Returns a reply without lines. Allocates nothing.
    pub fn new(alloc: A) -> LsReply<A>
        ensures { result ≡ record { unborn = None; lines = [] } }
    {
        LsReply {
            unborn: None,
            lines: Vec::new(alloc),
        }
    }

    // Returns the reply with this target of an unborn `HEAD`, and with these lines.
    pub(crate) fn of_parts(unborn: Option<RefName<A>>, lines: Vec<RefLine<A>, A>) -> LsReply<A>
        requires { IsReplyValue (record { unborn = unborn; lines = lines.items }) }
        ensures { result ≡ record { unborn = unborn; lines = lines.items } }
    {
        LsReply { unborn, lines }
    }

    // Returns the reply with this target of an unborn `HEAD`, and with these lines. Returns `None` if
    // the reply has too many lines, or an id of another format.
    pub(crate) fn checked(
        format: Format,
        unborn: Option<RefName<A>>,
        lines: Vec<RefLine<A>, A>,
    ) -> Option<LsReply<A>>
        ensures { MatchOption result
            (¬ (IsLsReplyIn format (record { unborn = unborn; lines = lines.items })))
            (λ reply. (reply ≡ record { unborn = unborn; lines = lines.items })
            × IsLsReplyIn format reply) }
    {
        if lines.len() > most_lines(&unborn) {
            return None;
        }
        if !are_ref_lines(format, lines.as_slice()) {
            return None;
        }
        Some(LsReply::of_parts(unborn, lines))
    }

    /// Sets or replaces the target of an unborn `HEAD`. Fails with `Limit` and changes nothing if
    /// the reply has no target yet and no room for another line. Allocates nothing.
    pub fn set_unborn(&mut self, target: RefName<A>) -> Result<(), MessageFault>
        ensures sets { SetsUnborn self.old target self.new result }
        ensures full { IfErr result (λ fault. fault.why ≡ Limit) }
    {
        // Laws that the proof uses.
        target.laws();
        if self.unborn.is_none() && !self.has_room() {
            return Err(MessageFault::of_value(Why::Limit));
        }
        self.unborn = Some(target);
        Ok(())
    }

    /// Adds a line. Fails with `BadText` if the ids of the line differ in format from each other or
    /// from the ids of earlier lines. Otherwise fails with `Limit` if the reply has no room for
    /// another line, or with `Memory` if memory runs out. A failed call leaves the reply unchanged.
    pub fn push(&mut self, line: RefLine<A>) -> Result<(), MessageFault>
        ensures { Pushes self.old line self.new result }
    {
        // Laws that the proof uses.
        ids_have_one_format();
        line.lend().laws();
        if !has_one_format(self.lines(), &line) {
            return Err(MessageFault::of_value(Why::BadText));
        }
        if !self.has_room() {
            return Err(MessageFault::of_value(Why::Limit));
        }
        push_ref_line(&mut self.lines, line)
    }

    // Returns whether the reply has room for another line.
    fn has_room(&self) -> bool
        ensures room { result ≡ has_room self.now }
        ensures formed { IsReplyValue self.now }
    {
        self.line_count() < MAX_LINES
    }

    // Returns the number of lines, including the line of an unborn `HEAD`.
    fn line_count(&self) -> usize
        ensures count { result ≡ line_count self.now }
        ensures formed { IsReplyValue self.now }
    {
        match &self.unborn {
            Some(_target) => self.lines.len() + 1,
            None => self.lines.len(),
        }
    }

    /// Returns the number of refs.
    pub fn len(&self) -> usize
        ensures len { result ≡ length self.now.lines }
        ensures formed { IsReplyValue self.now }
    {
        self.lines.len()
    }

    /// Returns the position of the reply's last packet: the response-end if `ends` requires one,
    /// otherwise the flush.
    pub fn last_frame(&self, ends: Ends) -> u64
        ensures { result ≡ last_frame ends self.now }
    {
        let flush = self.line_count() as u64;
        match ends {
            Ends::Plain => flush,
            Ends::Response => flush + 1,
        }
    }

    /// Returns the ref at index `place`, or `None` after the last ref.
    pub fn at(&self, place: usize) -> Option<&RefLine<A>>
        ensures { option_copied result ≡ slice_get self.now.lines place }
    {
        self.lines.get(place)
    }

    /// Returns the refs, in order.
    pub(crate) fn lines(&self) -> &[RefLine<A>]
        ensures lines { result.now ≡ self.now.lines }
        ensures formed { IsReplyValue self.now }
    {
        self.lines.as_slice()
    }

    /// Returns the target of an unborn `HEAD`, if any.
    pub fn unborn(&self) -> Option<&RefName<A>>
        ensures { option_copied result ≡ self.now.unborn }
    {
        self.unborn.as_ref()
    }
}

// Returns the maximum number of lines of a reply with this target of an unborn `HEAD`.
fn most_lines<A: Allocator + Copy>(unborn: &Option<RefName<A>>) -> usize
    ensures count { result + length (unborn_packets unborn.now) ≡ max_lines }
    ensures name { IfSome unborn.now IsRefName }
{
    match unborn {
        Some(target) => {
            // Laws that the proof uses.
            target.laws();
            MAX_LINES - 1
        }
        None => MAX_LINES,
    }
}

// Returns whether all ids of the lines have this format.
fn are_ref_lines<A: Allocator + Copy>(format: Format, lines: &[RefLine<A>]) -> bool
    ensures { IsTrue result ↔ All (IsRefLine format) lines.now }
{
    lines.iter().all(|line| is_ref_line(format, line))
}

// Returns whether both ids of the line have this format.
fn is_ref_line<A: Allocator + Copy>(format: Format, line: &RefLine<A>) -> bool
    ensures { IsTrue result ↔ IsRefLine format line.now }
{
    // Laws that the proof uses.
    line.lend().laws();
    if line.id.format() != format {
        return false;
    }
    match &line.peeled {
        Some(id) => id.format() == format,
        None => true,
    }
}

// Returns whether the ids of `line` and of `lines` all have the same format.
fn has_one_format<A: Allocator + Copy>(lines: &[RefLine<A>], line: &RefLine<A>) -> bool
    ensures { result ≡ has_one_format lines.now line.now }
{
    let format = line.id.format();
    let fits_first_line = match lines.first() {
        Some(first) => first.id.format() == format,
        None => true,
    };
    let fits_peeled_id = match &line.peeled {
        Some(id) => id.format() == format,
        None => true,
    };
    fits_first_line && fits_peeled_id
}

// Adds a line, or fails with `Memory` and changes nothing.
fn push_ref_line<A: Allocator + Copy>(
    lines: &mut Vec<RefLine<A>, A>,
    line: RefLine<A>,
) -> Result<(), MessageFault>
    ensures { Adds lines.old.items line lines.new.items result }
{
    match lines.push(line) {
        Ok(()) => Ok(()),
        Err(_) => Err(MessageFault::of_value(Why::Memory)),
    }
}
