//! The sections of a fetch reply, and their contents.

ghost use Rattle.std.specs.Prelude.{◌≡◌, ◌+◌, ◌<◌, ◌&&◌, nat_le, nat_lt, if◌then◌else◌, false, true, Some, None};
ghost use Rattle.gpkt.specs.Packets.{Flush, Delim, ResponseEnd};
ghost use Rattle.ggrammar.specs.Grammar.{Refused, if_room};
ghost use Rattle.ggrammar.specs.Endings.{at_flush};
ghost use Rattle.gfetchreply.specs.FetchReplies.{Reading, Acking, Start, BeforePack, Ack, Nak, judge_acking, judge_ack, judge_before_pack, judge_late, judge_start, judge_there, max_packets, form_brings};
ghost use Rattle.ggrammar.specs.MessageReading.{TakesAs};
ghost use Rattle.gfetchreply.specs.steps.FetchHeads.{head_by};
ghost use Rattle.gfetchreply.specs.steps.ReplyState.{kept_in, first_kept, place_in, state_in, verdict_of, with_band, with_packet, with_text};
ghost use Rattle.gfetchreply.specs.Views.{IsHeadOf, head_in};
ghost use Rattle.gfetchreply.specs.steps.Views.{form_in};

use crate::form::ReplyForm;
use crate::limit::StreamLimit;
use crate::value::{Acks, FetchHead};
use ggrammar::{Ends, Limits, Step, Why, id_of_text};
use gname::Format;
use gname::laws::texts_have_one_reading;
use std::alloc::Allocator;

/// The maximum number of packets in the section of the pack.
const MAX_PACKETS: u32 = 4_294_967_295;

/// The state of reading a reply, which determines the packets that may come next.
#[derive(Clone, Copy, Debug, PartialEq, Eq)]
pub(crate) enum Point {
    /// The heading of the acknowledgments is expected.
    Start,
    /// The heading of the acknowledgments was read, and possibly acknowledged ids.
    Acking,
    /// `NAK` was read. A flush is expected.
    AfterNak,
    /// `ready` was read. The delimiter is expected.
    AfterReady,
    /// The heading of the pack is expected.
    BeforePack,
    /// The heading of the pack was read, and possibly some of the pack.
    InPack,
    /// The flush was read. Only a response-end may follow.
    Over,
}

/// The contents of a reply so far, without the pack's bytes.
#[derive(Drop)]
pub(crate) struct Sections<A: Allocator + Copy> {
    // The state of reading.
    pub(crate) place: Point,
    acks: Acks<A>,
    ready: bool,
    // The number of packets in the section of the pack so far, including progress packets.
    band_count: u32,
    // The number of bytes of the pack so far.
    byte_count: usize,
}

impl<A: Allocator + Copy> Sections<A> {
    /// Returns the contents of a reply before its first packet. If `direct` is true, the reply
    /// starts with its pack, without acknowledgments.
    pub(crate) fn new(alloc: A, limits: Limits, format: Format, direct: bool) -> Sections<A>
        ensures { kept_in result ≡ first_kept limits format direct }
    {
        Sections {
            place: if direct {
                Point::BeforePack
            } else {
                Point::Start
            },
            acks: Acks::within(alloc, format, limits),
            ready: false,
            band_count: 0,
            byte_count: 0,
        }
    }

    /// Accepts the heading of the acknowledgments, and rejects any other text.
    pub(crate) fn take_start(&mut self, form: ReplyForm<'_>) -> Result<Step, Why>
        ensures { TakesAs (judge_start (form_in form.entry)) false
            (kept_in self.new ≡ with_text Start (kept_in self.old) (form_in form.entry)) result }
    {
        match form {
            ReplyForm::Acknowledgments => {
                self.place = Point::Acking;
                Ok(Step::Open)
            }
            ReplyForm::Packfile => Err(Why::WrongSection),
            _ => Err(Why::BadText),
        }
    }

    /// Accepts a text of the acknowledgments.
    pub(crate) fn take_acking(&mut self, form: ReplyForm<'_>) -> Result<Step, Why>
        ensures { TakesAs (judge_acking self.old.acks.limits self.old.acks.format
            (state_in self.old) (form_in form.entry)) (form_brings (form_in form.entry))
            (kept_in self.new ≡ with_text Acking (kept_in self.old) (form_in form.entry)) result }
    {
        match form {
            ReplyForm::Ack(id) => self.take_ack(id),
            ReplyForm::Nak => self.take_nak(),
            ReplyForm::Readiness => {
                self.place = Point::AfterReady;
                self.ready = true;
                Ok(Step::Open)
            }
            ReplyForm::Acknowledgments | ReplyForm::Packfile => Err(Why::WrongSection),
            ReplyForm::Other => Err(Why::BadText),
        }
    }

    fn take_ack(&mut self, id: &[u8]) -> Result<Step, Why>
        ensures { TakesAs (judge_ack self.old.acks.limits self.old.acks.format
            (state_in self.old) id.now) true
            (kept_in self.new ≡ with_text Acking (kept_in self.old) (Ack id.now)) result }
    {
        // Laws that the proof uses.
        texts_have_one_reading();
        let id = match id_of_text(self.acks.format(), id) {
            Some(id) => id,
            None => return Err(Why::BadId),
        };
        match self.acks.add(id) {
            Ok(()) => Ok(Step::Open),
            Err(why) => Err(why),
        }
    }

    fn take_nak(&mut self) -> Result<Step, Why>
        ensures { TakesAs (judge_acking self.old.acks.limits self.old.acks.format
            (state_in self.old) Nak) false
            (kept_in self.new ≡ with_text Acking (kept_in self.old) Nak) result }
    {
        if self.acks.ids().is_empty() {
            self.place = Point::AfterNak;
            Ok(Step::Open)
        } else {
            Err(Why::WrongSection)
        }
    }

    /// Accepts the heading of the pack, and rejects any other text.
    pub(crate) fn take_before_pack(&mut self, form: ReplyForm<'_>) -> Result<Step, Why>
        ensures { TakesAs (judge_before_pack (form_in form.entry)) false
            (kept_in self.new ≡ with_text BeforePack (kept_in self.old) (form_in form.entry))
            result }
    {
        match form {
            ReplyForm::Packfile => {
                self.place = Point::InPack;
                Ok(Step::Open)
            }
            ReplyForm::Acknowledgments => Err(Why::WrongSection),
            _ => Err(Why::BadText),
        }
    }

    /// Returns the length of the pack after `more` further bytes, or `None` if the bytes or a
    /// further packet would exceed a limit.
    pub(crate) fn with_room(&self, limit: StreamLimit, more: usize) -> Option<usize>
        ensures { result ≡ (if nat_lt self.now.band_count max_packets && nat_le
            (self.now.byte_count + more) limit then Some (self.now.byte_count + more) else None) }
    {
        match self.byte_count.checked_add(more) {
            Some(bytes) if self.band_count < MAX_PACKETS && bytes <= limit.bytes() => Some(bytes),
            _ => None,
        }
    }

    /// Counts another packet of the pack's section, and sets the length of the pack to `bytes`.
    pub(crate) fn count(&mut self, bytes: usize)
        requires { self.old.band_count < max_packets }
        ensures { kept_in self.new
            ≡ record (kept_in self.old) {
              band_count = self.old.band_count
                  + 1;
              byte_count = bytes;
            } }
    {
        self.band_count += 1;
        self.byte_count = bytes;
    }

    /// Accepts and counts a progress packet.
    pub(crate) fn take_progress(&mut self) -> Result<Step, Why>
        ensures { TakesAs (if_room (nat_lt self.old.band_count max_packets)) false
            (kept_in self.new ≡ with_band (kept_in self.old) 0) result }
    {
        if self.band_count >= MAX_PACKETS {
            return Err(Why::Limit);
        }
        self.band_count += 1;
        Ok(Step::Open)
    }

    /// Accepts a flush if a flush is expected, and rejects it otherwise.
    pub(crate) fn take_flush(&mut self, ends: Ends) -> Result<Step, Why>
        ensures { (reading : Reading) → reading.ends ≡ ends
            → TakesAs (judge_there reading (place_in self.old.place) (state_in self.old) Flush)
            false (kept_in self.new ≡ with_packet (kept_in self.old) Flush) result }
    {
        match self.place {
            Point::Acking | Point::AfterNak | Point::InPack => {
                self.place = Point::Over;
                Ok(after_flush(ends))
            }
            Point::Start | Point::AfterReady | Point::BeforePack => Err(Why::WrongSection),
            Point::Over => Err(Why::UnexpectedFrame),
        }
    }

    /// Accepts a delimiter if a delimiter is expected, and rejects it otherwise.
    pub(crate) fn take_delim(&mut self) -> Result<Step, Why>
        ensures { (reading : Reading)
            → TakesAs (judge_there reading (place_in self.old.place) (state_in self.old) Delim)
            false (kept_in self.new ≡ with_packet (kept_in self.old) Delim) result }
    {
        match self.place {
            Point::AfterReady => {
                self.place = Point::BeforePack;
                Ok(Step::Open)
            }
            Point::Over => Err(Why::UnexpectedFrame),
            _ => Err(Why::WrongSection),
        }
    }

    /// Accepts a response-end if a response-end is expected, and rejects it otherwise.
    pub(crate) fn take_response_end(&self) -> Result<Step, Why>
        ensures { (reading : Reading)
            → TakesAs (judge_there reading (place_in self.now.place) (state_in self.now)
            ResponseEnd) false
            (kept_in self.now ≡ with_packet (kept_in self.now) ResponseEnd) result }
    {
        match self.place {
            Point::Over => Ok(Step::Whole),
            _ => Err(Why::UnexpectedFrame),
        }
    }

    /// Returns the contents of the complete reply, without its pack.
    pub(crate) fn into_head(self, direct: bool) -> FetchHead<A>
        ensures head { head_in result ≡ head_by direct self.ready self.acks.ids }
        ensures format { IsHeadOf self.acks.limits self.acks.format result }
    {
        let Sections { acks, ready, .. } = self;
        if direct {
            FetchHead::Pack
        } else if ready {
            FetchHead::Ready(acks)
        } else {
            FetchHead::Acks(acks)
        }
    }
}

// Returns the state of a reply after its flush: complete, or incomplete if a response-end must
// follow.
fn after_flush(ends: Ends) -> Step
    ensures { verdict_of result ≡ at_flush ends }
{
    match ends {
        Ends::Plain => Step::Whole,
        Ends::Response => Step::Open,
    }
}

/// Returns the reason to reject a text after `NAK` or `ready`, where no text is allowed.
pub(crate) fn late(form: ReplyForm<'_>) -> Why
    ensures { judge_late (form_in form.entry) ≡ Refused result }
{
    match form {
        ReplyForm::Other => Why::BadText,
        _ => Why::WrongSection,
    }
}
