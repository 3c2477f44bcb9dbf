//! The state of reading a request.

ghost use Rattle.std.specs.Prelude.{◌≡◌, [], true, false, if◌then◌else◌};
ghost use Rattle.gpkt.specs.Packets.{packet_of, text};
ghost use Rattle.ggrammar.specs.Capabilities.{is_word_value};
ghost use Rattle.ggrammar.specs.Limits.{profile};
ghost use Rattle.ggrammar.specs.MessageReading.{TakesAs};
ghost use Rattle.ggrammar.specs.PeerErrors.{judge_unless_error};
ghost use Rattle.ggrammar.specs.Grammar.{Verdict, Refused};
ghost use Rattle.ggrammar.specs.declared.fault.Why.TheVariants as why;
ghost use Rattle.grequest.specs.Arguments.{Agent, ObjectFormat, capability_form, command_form};
ghost use Rattle.grequest.specs.Requests.{brings, capability_brings, judge, judge_at, judge_capability, judge_command, judge_delim, judge_flush, judge_text, state_of, text_brings, unless_unnamed};
ghost use Rattle.grequest.specs.steps.RequestState.{HoldsPackets, LeavesNothing, packet_brings, with_capability, with_command, with_delim, with_packet, with_text};

use crate::command::{Command, CommandForm, command_form};
use crate::fetch::FetchRequest;
use crate::line::{CapabilityForm, capability_form};
use crate::ls_refs::LsRefsRequest;
use crate::request::Request;
use crate::section::Section;
use ggrammar::laws::grammars_are_exact;
use ggrammar::{Limits, Message, PeerText, Step, Why, peer_error};
use gname::Format;
use gpkt::{Packet, text_of};
use std::alloc::Allocator;
use std::marker::Model;

/// The maximum number of arguments of a request.
pub(crate) const MAX_ARGUMENTS: u32 = 4_294_967_295;

/// A request that is being read.
#[derive(Drop)]
pub struct RequestReader<A: Allocator + Copy> {
    alloc: A,
    format: Format,
    limits: Limits,
    section: Section,
    // Whether the request has named the object format.
    names_format: bool,
    // The number of arguments read.
    arguments: u32,
    request: Request<A>,
}

impl<A: Allocator + Copy> Model for RequestReader<A> {
    ghost use Rattle.grequest.specs.steps.RequestState.{RequestSoFar, one, place_in};
    ghost use Rattle.grequest.specs.RequestValues.{HasLimits, IsOfFormat, asked_by_request};

    ghost Value = { RequestSoFar };

    ghost view = { λ r. record {
      limits = r.limits;
      format = r.format;
      state = record {
        place = place_in r.section (asked_by_request r.request);
        format_lines = one r.names_format;
        argument_lines = r.arguments;
        asked = asked_by_request r.request;
      };
    } };

    ghost invariant = { λ r. IsOfFormat r.format r.request × HasLimits r.limits r.request };
}

impl<A: Allocator + Copy> RequestReader<A> {
    ghost use Rattle.grequest.specs.RequestValues.{HasLimits, IsOfFormat, asked_by_request};

    /// Returns a reader that has not read any packet yet, for a request with the default limits.
    pub fn new(alloc: A, format: Format) -> RequestReader<A>
        ensures { result
            ≡ record { limits = profile; format = format; state = state_of format [] } }
    {
        RequestReader::within(alloc, format, Limits::default())
    }

    /// Returns a reader that has not read any packet yet, for a request with these limits. A limit
    /// above 2^30 counts as 2^30.
    #[tactic(auto, unfolding(crate::specs::RequestLines::capability_texts, crate::specs::RequestLines::argument_texts))]
    pub fn within(alloc: A, format: Format, limits: Limits) -> RequestReader<A>
        ensures { result
            ≡ record { limits = limits; format = format; state = state_of format [] } }
    {
        RequestReader {
            alloc,
            format,
            limits,
            section: Section::Capabilities,
            names_format: false,
            arguments: 0,
            request: Request::Empty,
        }
    }

    /// Returns the request that the accepted packets encode.
    pub fn finish(self) -> Request<A>
        ensures asked { asked_by_request result ≡ self.state.asked }
        ensures format { IsOfFormat self.format result }
        ensures limits { HasLimits self.limits result }
    {
        let RequestReader { request, .. } = self;
        request
    }

    #[tactic(auto, unfolding(crate::specs::Requests::judge_at, crate::specs::steps::RequestState::with_packet))]
    fn take_packet(&mut self, line: Packet<'_>) -> Result<Step, Why>
        ensures takes { TakesAs (judge_at self.old.limits self.old.format self.old.state
            (packet_of line.entry))
            (packet_brings self.old.state.place (packet_of line.entry))
            (self.new.state ≡ with_packet self.old.format self.old.state (packet_of line.entry))
            result }
        ensures format { self.new.format ≡ self.old.format }
        ensures limits { self.new.limits ≡ self.old.limits }
    {
        match line {
            Packet::Data(payload) => self.take_data(payload),
            Packet::Flush => self.take_flush(),
            Packet::Delim => self.take_delim(),
            Packet::ResponseEnd => Err(Why::UnexpectedFrame),
        }
    }

    // Accepts the flush that ends a request.
    fn take_flush(&mut self) -> Result<Step, Why>
        ensures takes { TakesAs (judge_flush self.old.format self.old.state.place self.old.state)
            false (self.new.state ≡ self.old.state) result }
        ensures format { self.new.format ≡ self.old.format }
        ensures limits { self.new.limits ≡ self.old.limits }
    {
        match (&self.request, self.section) {
            (Request::Ls(_) | Request::Fetch(_), Section::Capabilities) if self.is_unnamed() => Err(
                Why::Format,
            ),
            _ => Ok(Step::Whole),
        }
    }

    // Accepts the delimiter between the capabilities and the arguments.
    fn take_delim(&mut self) -> Result<Step, Why>
        ensures takes { TakesAs (judge_delim self.old.format self.old.state.place self.old.state)
            false (self.new.state ≡ with_delim self.old.state.place self.old.state) result }
        ensures format { self.new.format ≡ self.old.format }
        ensures limits { self.new.limits ≡ self.old.limits }
    {
        match (&self.request, self.section) {
            (Request::Ls(_) | Request::Fetch(_), Section::Capabilities) if self.is_unnamed() => Err(
                Why::Format,
            ),
            (Request::Ls(_) | Request::Fetch(_), Section::Capabilities) => {
                self.section = Section::Arguments;
                Ok(Step::Open)
            }
            _ => Err(Why::UnexpectedFrame),
        }
    }

    // Returns whether the request must name the object format and has not named it.
    fn is_unnamed(&self) -> bool
        ensures { (verdict : Verdict)
            → unless_unnamed self.now.format self.now.state verdict
            ≡ (if result then Refused why.Format else verdict) }
    {
        match self.format {
            Format::Sha1 => false,
            Format::Sha256 => !self.names_format,
        }
    }

    fn take_data(&mut self, payload: &[u8]) -> Result<Step, Why>
        ensures takes { TakesAs (judge_unless_error
            (λ bytes. judge_text self.old.limits self.old.format self.old.state.place self.old.state
            (text bytes)) payload.now) (text_brings self.old.state.place (text payload.now))
            (self.new.state ≡ with_text self.old.format self.old.state.place self.old.state
            (text payload.now)) result }
        ensures format { self.new.format ≡ self.old.format }
        ensures limits { self.new.limits ≡ self.old.limits }
    {
        match peer_error(payload) {
            Some(error) => Err(Why::RemoteErr(PeerText::new(error))),
            None => self.take_text(text_of(payload)),
        }
    }

    fn take_text(&mut self, text: &[u8]) -> Result<Step, Why>
        ensures takes { TakesAs (judge_text self.old.limits self.old.format self.old.state.place
            self.old.state text.now) (text_brings self.old.state.place text.now)
            (self.new.state ≡ with_text self.old.format self.old.state.place self.old.state
            text.now) result }
        ensures format { self.new.format ≡ self.old.format }
        ensures limits { self.new.limits ≡ self.old.limits }
    {
        match (&mut self.request, self.section) {
            (Request::Empty, _) => self.take_command(text),
            (Request::Ls(_) | Request::Fetch(_), Section::Capabilities) => self.take_capability(
                text,
            ),
            (Request::Ls(request), Section::Arguments) => match request.take_argument(
                self.arguments,
                text,
            ) {
                Ok(()) => {
                    self.arguments += 1;
                    Ok(Step::Open)
                }
                Err(why) => Err(why),
            },
            (Request::Fetch(request), Section::Arguments) => match request.take_argument(
                self.arguments,
                text,
            ) {
                Ok(()) => {
                    self.arguments += 1;
                    Ok(Step::Open)
                }
                Err(why) => Err(why),
            },
        }
    }

    fn take_command(&mut self, text: &[u8]) -> Result<Step, Why>
        ensures takes { TakesAs (judge_command (command_form text.now)) false
            (self.new.state ≡ with_command self.old.format self.old.state (command_form text.now))
            result }
        ensures format { self.new.format ≡ self.old.format }
        ensures limits { self.new.limits ≡ self.old.limits }
    {
        self.request = match command_form(text) {
            CommandForm::Known(Command::LsRefs) => Request::Ls(LsRefsRequest::within(
                self.alloc,
                self.limits,
            )),
            CommandForm::Known(Command::Fetch) => Request::Fetch(FetchRequest::within(
                self.alloc,
                self.format,
                self.limits,
            )),
            CommandForm::Unknown => return Err(Why::UnknownCommand),
            CommandForm::Bad => return Err(Why::BadText),
        };
        self.section = Section::Capabilities;
        Ok(Step::Open)
    }

    fn take_capability(&mut self, text: &[u8]) -> Result<Step, Why>
        ensures takes { TakesAs (judge_capability self.old.format self.old.state
            (capability_form text.now)) (capability_brings (capability_form text.now))
            (self.new.state ≡ with_capability self.old.state (capability_form text.now)) result }
        ensures format { self.new.format ≡ self.old.format }
        ensures limits { self.new.limits ≡ self.old.limits }
    {
        match capability_form(text) {
            CapabilityForm::Agent(agent) => self.take_agent(agent),
            CapabilityForm::ObjectFormat(name) => self.take_format(name),
            CapabilityForm::Unknown => Err(Why::UnknownCapability),
            CapabilityForm::Bad => Err(Why::BadText),
        }
    }

    fn take_agent(&mut self, agent: &[u8]) -> Result<Step, Why>
        requires { is_word_value agent.now ≡ true }
        ensures takes { TakesAs (judge_capability self.old.format self.old.state (Agent agent.now))
            true (self.new.state ≡ with_capability self.old.state (Agent agent.now)) result }
        ensures format { self.new.format ≡ self.old.format }
        ensures limits { self.new.limits ≡ self.old.limits }
    {
        if self.request.agent().is_some() {
            return Err(Why::BadText);
        }
        match self.request.keep_agent(agent) {
            Ok(()) => Ok(Step::Open),
            Err(_) => Err(Why::Memory),
        }
    }

    fn take_format(&mut self, name: &[u8]) -> Result<Step, Why>
        ensures takes { TakesAs (judge_capability self.old.format self.old.state
            (ObjectFormat name.now)) false
            (self.new.state ≡ with_capability self.old.state (ObjectFormat name.now)) result }
        ensures format { self.new.format ≡ self.old.format }
        ensures limits { self.new.limits ≡ self.old.limits }
    {
        if self.names_format {
            return Err(Why::BadText);
        }
        if name != self.format.name().as_bytes() {
            return Err(Why::Format);
        }
        self.names_format = true;
        Ok(Step::Open)
    }
}

impl<A: Allocator + Copy> Message for RequestReader<A> {
    ghost judge = { λ reader. judge reader.limits reader.format };

    ghost brings = { λ reader. brings };

    ghost holds = { HoldsPackets };

    ghost left = { LeavesNothing };

    fn accept_packet(&mut self, line: Packet<'_>) -> Result<Step, Why> {
        self.take_packet(line)
    }

    fn laws() {
        grammars_are_exact();
    }
}
