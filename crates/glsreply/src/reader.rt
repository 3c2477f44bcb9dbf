//! Reading an ls-refs reply.

ghost use Rattle.std.specs.Prelude.{◌≡◌, ◌<◌, true, false, [], IfOk, IfSome, List, Ok};
ghost use Rattle.gpkt.specs.Packets.{Data, Flush, ResponseEnd, packet_of, text};
ghost use Rattle.gpkt.specs.Packets as packets;
ghost use Rattle.gpkt.specs.Change.{change_of};
ghost use Rattle.ggrammar.specs.Kinds.{ReadsOrRefuses};
ghost use Rattle.ggrammar.specs.MessageReading.{LeavesReader, TakesAs, TakesPacket};
ghost use Rattle.glsreply.specs.LsReplies.{IsRead, Says, judge, judge_at, judge_text, judge_line, max_lines, within_limit, brings};
ghost use Rattle.glsreply.specs.RefTexts.{line_of};
ghost use Rattle.glsreply.specs.steps.LineViews.{parts_view};
ghost use Rattle.ggrammar.specs.Grammar.{IsOpen, IsWhole, Open};
ghost use Rattle.ggrammar.specs.declared.ends.Ends.{Ends};
ghost use Rattle.glsreply.specs.steps.ReplyState.{Holds, KeepsKind, state_in, state_of, with_packet, with_text, with_line, with_unborn, with_flush};
ghost use Rattle.glsreply.specs.WellFormed.{IsLsReplyIn, IsReplyValue};
ghost use Rattle.gname.specs.declared.formats.Format.TheVariants as format;

use crate::line::{FirstText, LineParts, first_form, line_of};
use crate::reply::{LsReply, MAX_LINES, RefLine};
use ggrammar::laws::grammars_are_exact;
use ggrammar::{Ends, Message, MessageFault, PeerText, Step, Why, peer_error, read_message};
use gname::laws::texts_have_one_reading;
use gname::{Format, RefName};
use gpkt::{Packet, PacketReader, Source, text_of};
use std::alloc::{AllocError, Allocator};

/// Reads an ls-refs reply with SHA-1 ids, as [`read_ls_reply_in`] does.
pub fn read_ls_reply<S: Source, A: Allocator + Copy, B: Allocator + Copy>(
    reader: &mut PacketReader<S, A>,
    ends: Ends,
    alloc: B,
) -> Result<LsReply<B>, MessageFault>
    ensures read { ReadsOrRefuses (judge format.Sha1 ends) brings (Says format.Sha1 ends)
        (change_of S.remaining reader.old.source reader.new.source) result }
    ensures formed { IfOk result (λ reply. IsLsReplyIn format.Sha1 reply) }
    ensures loans { S.loans reader.new.source ≡ S.loans reader.old.source }
    ensures reader { LeavesReader S.is_down reader.old reader.new result }
{
    read_ls_reply_in(reader, Format::Sha1, ends, alloc)
}

/// Reads one ls-refs reply, and nothing after it (gitprotocol-v2(5), "ls-refs"). The ids of the
/// reply have the given format.
///
/// The fault contains the reason, and the position of the first packet that does not fit. A fault
/// of the packet reader ([`Why::Line`]) takes precedence over the end of the input
/// ([`Why::Ended`]). Next in precedence is an error that the peer reports ([`Why::RemoteErr`]), and
/// last a fault of the grammar. The grammar checks a line from left to right. A well-formed
/// 65,538th line is refused with [`Why::Limit`]. [`Why::Memory`] is reported only at a line that
/// the grammar accepts. After a refusal, the packet reader is unusable exactly if the fault is
/// [`Why::Line`].
pub fn read_ls_reply_in<S: Source, A: Allocator + Copy, B: Allocator + Copy>(
    reader: &mut PacketReader<S, A>,
    format: Format,
    ends: Ends,
    alloc: B,
) -> Result<LsReply<B>, MessageFault>
    ensures read { ReadsOrRefuses (judge format ends) brings (Says format ends)
        (change_of S.remaining reader.old.source reader.new.source) result }
    ensures formed { IfOk result (λ reply. IsLsReplyIn format reply) }
    ensures loans { S.loans reader.new.source ≡ S.loans reader.old.source }
    ensures reader { LeavesReader S.is_down reader.old reader.new result }
{
    // Laws that the proof uses.
    texts_have_one_reading();
    let mut message = LsReplyReader::new(alloc, format, ends);
    match read_message(reader, &mut message) {
        Ok(()) => Ok(message.finish()),
        Err(fault) => Err(fault),
    }
}

/// An ls-refs reply that is being read.
#[derive(Drop)]
pub struct LsReplyReader<A: Allocator + Copy> {
    alloc: A,
    format: Format,
    ends: Ends,
    // Whether the flush was read, so that only a response-end may follow.
    is_over: bool,
    // The number of text lines read.
    count: usize,
    unborn: Option<RefName<A>>,
    lines: Vec<RefLine<A>, A>,
}

impl<A: Allocator + Copy> LsReplyReader<A> {
    /// Returns a reader that has not read any packet yet.
    pub fn new(alloc: A, format: Format, ends: Ends) -> LsReplyReader<A>
        ensures format { result.format ≡ format }
        ensures ends { result.ends ≡ ends }
        ensures state { state_in result ≡ state_of format [] }
    {
        LsReplyReader {
            alloc,
            format,
            ends,
            is_over: false,
            count: 0,
            unborn: None,
            lines: Vec::new(alloc),
        }
    }

    /// Returns the reply that the accepted packets encode.
    fn finish(self) -> LsReply<A>
        requires { IsReplyValue (state_in self).reply }
        ensures { result ≡ (state_in self).reply }
    {
        let LsReplyReader { unborn, lines, .. } = self;
        LsReply::of_parts(unborn, lines)
    }

    /// Returns the reply that the accepted packets encode. Returns `None` if that reply has too many
    /// lines, or an id of another format, which never happens after a complete reply.
    pub fn into_reply(self, format: Format) -> Option<LsReply<A>>
        ensures read { (ends : Ends) (lines : List packets.Packet) → IsWhole (judge format ends) lines
            → Holds self lines → IsRead format ends lines result }
        ensures formed { IfSome result (IsLsReplyIn format) }
    {
        // Laws that the proof uses.
        texts_have_one_reading();
        let LsReplyReader { unborn, lines, .. } = self;
        LsReply::checked(format, unborn, lines)
    }

    /// Accepts the next packet, as [`Message::accept_packet`] does.
    pub fn hear_packet(&mut self, line: Packet<'_>) -> Result<Step, Why>
        ensures kept { KeepsKind self.old self.new }
        ensures takes { (front : List packets.Packet)
            → IsOpen (judge self.old.format self.old.ends) front → Holds self.old front
            → TakesPacket (judge self.old.format self.old.ends) brings Holds
            (λ reply packets. Unit {0}) front (packet_of line.entry) self.new result }
    {
        self.take_packet(line)
    }

    #[tactic(auto, unfolding(crate::specs::LsReplies::judge_at))]
    fn take_packet(&mut self, line: Packet<'_>) -> Result<Step, Why>
        ensures kept { KeepsKind self.old self.new }
        ensures takes { TakesAs (judge_at self.old.format self.old.ends self.old.is_over
            self.old.count (packet_of line.entry)) (brings [] (packet_of line.entry))
            (state_in self.new ≡ with_packet self.old.format (state_in self.old)
            (packet_of line.entry)) result }
    {
        match line {
            Packet::Data(payload) => self.take_data(payload),
            Packet::Flush => self.take_flush(),
            Packet::Delim => Err(Why::UnexpectedFrame),
            Packet::ResponseEnd => self.take_response_end(),
        }
    }

    #[tactic(auto, unfolding(crate::specs::LsReplies::judge_at))]
    fn take_flush(&mut self) -> Result<Step, Why>
        ensures kept { KeepsKind self.old self.new }
        ensures takes { TakesAs (judge_at self.old.format self.old.ends self.old.is_over
            self.old.count Flush) false
            (state_in self.new ≡ with_flush (state_in self.old)) result }
    {
        if self.is_over {
            return Err(Why::UnexpectedFrame);
        }
        self.is_over = true;
        match self.ends {
            Ends::Plain => Ok(Step::Whole),
            Ends::Response => Ok(Step::Open),
        }
    }

    #[tactic(auto, unfolding(crate::specs::LsReplies::judge_at))]
    fn take_response_end(&self) -> Result<Step, Why>
        ensures { TakesAs (judge_at self.now.format self.now.ends self.now.is_over self.now.count
            ResponseEnd) false (Unit {0}) result }
    {
        if self.is_over {
            Ok(Step::Whole)
        } else {
            Err(Why::UnexpectedFrame)
        }
    }

    #[tactic(auto, unfolding(crate::specs::LsReplies::judge_at))]
    fn take_data(&mut self, payload: &[u8]) -> Result<Step, Why>
        ensures kept { KeepsKind self.old self.new }
        ensures takes { TakesAs (judge_at self.old.format self.old.ends self.old.is_over
            self.old.count (Data payload.now)) true
            (state_in self.new ≡ with_text self.old.format (state_in self.old) (text payload.now))
            result }
    {
        if let Some(error) = peer_error(payload) {
            return Err(Why::RemoteErr(PeerText::new(error)));
        }
        if self.is_over {
            return Err(Why::UnexpectedFrame);
        }
        self.take_text(text_of(payload))
    }

    fn take_text(&mut self, text: &[u8]) -> Result<Step, Why>
        ensures kept { KeepsKind self.old self.new }
        ensures takes { TakesAs (judge_text self.old.format self.old.count text.now) true
            (state_in self.new ≡ with_text self.old.format (state_in self.old) text.now) result }
    {
        if self.count > 0 {
            return self.take_ref(text);
        }
        match first_form(text) {
            FirstText::Unborn(Ok(target)) => self.take_unborn(target),
            FirstText::Unborn(Err(why)) => Err(why),
            FirstText::Ref => self.take_ref(text),
        }
    }

    fn take_unborn(&mut self, target: &[u8]) -> Result<Step, Why>
        requires { self.old.count ≡ 0 }
        ensures kept { KeepsKind self.old self.new }
        ensures takes { TakesAs Open true (state_in self.new
            ≡ with_unborn (state_in self.old) (Ok target.now)) result }
    {
        match RefName::new(self.alloc, target) {
            Ok(name) => {
                self.unborn = Some(name);
                self.count += 1;
                Ok(Step::Open)
            }
            Err(_fault) => Err(Why::Memory),
        }
    }

    fn take_ref(&mut self, text: &[u8]) -> Result<Step, Why>
        ensures kept { KeepsKind self.old self.new }
        ensures takes { TakesAs (within_limit self.old.count
            (judge_line (line_of self.old.format text.now))) true
            (state_in self.new ≡ with_line (state_in self.old) (line_of self.old.format text.now))
            result }
    {
        match line_of(self.format, text) {
            Ok(line) => self.take_line(&line),
            Err(why) => Err(why),
        }
    }

    fn take_line(&mut self, line: &LineParts<'_>) -> Result<Step, Why>
        ensures kept { KeepsKind self.old self.new }
        ensures takes { TakesAs (within_limit self.old.count Open) true
            (state_in self.new ≡ with_line (state_in self.old) (Ok (parts_view line.now))) result }
    {
        if self.count >= MAX_LINES {
            return Err(Why::Limit);
        }
        match keep_line(self.alloc, line) {
            Ok(line) => self.keep_ref_line(line),
            Err(_) => Err(Why::Memory),
        }
    }

    fn keep_ref_line(&mut self, line: RefLine<A>) -> Result<Step, Why>
        requires { self.old.count < max_lines }
        ensures kept { KeepsKind self.old self.new }
        ensures takes { TakesAs Open true
            (state_in self.new ≡ with_line (state_in self.old) (Ok line)) result }
    {
        match self.lines.push(line) {
            Ok(()) => {
                self.count += 1;
                Ok(Step::Open)
            }
            Err(_) => Err(Why::Memory),
        }
    }
}

// Copies the borrowed parts of a line into an owned line.
fn keep_line<A: Allocator + Copy>(alloc: A, line: &LineParts<'_>) -> Result<RefLine<A>, AllocError>
    ensures { IfOk result (λ kept. kept ≡ parts_view line.now) }
{
    let name = keep_name(alloc, line.name)?;
    let symref = match line.symref {
        Some(target) => Some(keep_name(alloc, target)?),
        None => None,
    };
    Ok(RefLine {
        id: line.id,
        name,
        symref,
        peeled: line.peeled,
    })
}

// Copies the text of a valid ref name into an owned name.
fn keep_name<A: Allocator + Copy>(alloc: A, text: &[u8]) -> Result<RefName<A>, AllocError>
    ensures { IfOk result (λ kept. kept ≡ text.now) }
{
    match RefName::new(alloc, text) {
        Ok(name) => Ok(name),
        Err(_fault) => Err(AllocError),
    }
}

impl<A: Allocator + Copy> Message for LsReplyReader<A> {
    ghost judge = { λ reply. judge reply.format reply.ends };

    ghost brings = { λ _. brings };

    ghost holds = { Holds };

    ghost left = { λ _ _. Unit {0} };

    fn accept_packet(&mut self, line: Packet<'_>) -> Result<Step, Why> {
        self.hear_packet(line)
    }

    fn laws() {
        grammars_are_exact();
    }
}
