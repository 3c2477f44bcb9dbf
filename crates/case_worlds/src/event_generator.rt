//! Random events, each as a line of a scenario. Most events are the next step of an honest session.
//! The other events deliver late, repeated, truncated or forged messages, or change or restart the
//! server or the client.

use crate::dice::Dice;
use crate::forgery::Forger;
use crate::world::WorldInputs;
use gworld::Outcome;
use std::alloc::{AllocError, Global};
use std::ops::Range;

// The numbers of the unused ids, which neither repository contains at the start of a run.
const NEW_IDS: Range<usize> = 900..924;

const REF_NAMES: [&str; 5] = [
    "refs/heads/main",
    "refs/heads/x",
    "refs/tags/v1",
    "refs/remotes/origin/main",
    "HEAD",
];

const REFSPECS: [&str; 6] = [
    "refs/heads/main:refs/remotes/origin/main",
    "+refs/heads/*:refs/remotes/origin/*",
    "refs/heads/*:refs/remotes/x/*",
    "refs/tags/*:refs/tags/*",
    "HEAD:refs/remotes/origin/HEAD",
    "refs/heads/x:refs/heads/x +refs/heads/main:refs/heads/y",
];

// A step of a fetch session, which is an event of a scenario.
#[derive(Clone, Copy)]
enum SessionStep {
    // The client begins a session.
    Begin,
    // The session makes its next request.
    Ask,
    // The server replies to the request at this index.
    Serve(usize),
    // The client receives the whole reply at this index.
    Deliver(usize),
    // The client receives only a part of a reply. The fields are the reply's index and the number
    // of bytes to deliver.
    DeliverPart(usize, usize),
    // The session updates the refs.
    Settle,
}

/// A generator of the events in a world.
#[derive(Drop)]
pub(crate) struct EventGenerator {
    alloc: Global,
    dice: Dice,
    forger: Forger,
    step: SessionStep,
    // Whether the last event was the next step of the session.
    was_next_step: bool,
    request_count: usize,
    reply_count: usize,
}

impl EventGenerator {
    /// Returns a generator of events for the server and the client in `inputs`.
    pub(crate) fn new(
        alloc: Global,
        seed: usize,
        inputs: WorldInputs<'_>,
    ) -> Result<EventGenerator, AllocError> {
        let ids = object_ids(alloc, inputs)?;
        Ok(EventGenerator {
            alloc,
            dice: Dice::new(seed),
            forger: Forger {
                alloc,
                format: inputs.tools.format,
                dice: Dice::new(seed.wrapping_add(1)),
                ids,
                expects_fetch_reply: false,
            },
            step: SessionStep::Begin,
            was_next_step: false,
            request_count: 0,
            reply_count: 0,
        })
    }

    /// Returns a random number below `sides`.
    pub(crate) fn roll(&mut self, sides: usize) -> usize {
        self.dice.roll(sides)
    }

    /// Appends the line of the next event.
    pub(crate) fn add_event(&mut self, line: &mut String) -> Result<(), AllocError> {
        let roll = self.dice.roll(100);
        self.was_next_step = roll < 60;
        match roll {
            0..=59 => self.add_next_step(line),
            60..=77 => self.add_step_out_of_order(roll, line),
            78..=85 => self.add_forged_reply(line),
            86..=89 => self.add_stranger_request(line),
            _ => self.add_change(roll, line),
        }
    }

    // Appends the next step of the session. Sometimes appends a forged reply instead.
    fn add_next_step(&mut self, line: &mut String) -> Result<(), AllocError> {
        match self.step {
            SessionStep::Serve(_) if self.dice.is_one_in(3) => self.add_forged_reply(line),
            step => self.add_step(step, line),
        }
    }

    // Appends a step of the session that is out of order.
    fn add_step_out_of_order(&mut self, roll: usize, line: &mut String) -> Result<(), AllocError> {
        let request_index = self.dice.roll(self.request_count.saturating_add(1));
        let reply_index = self.dice.roll(self.reply_count.saturating_add(1));
        let step = match roll {
            60..=62 => SessionStep::Begin,
            63..=65 => SessionStep::Ask,
            66..=69 => SessionStep::Serve(request_index),
            70..=73 => SessionStep::Deliver(reply_index),
            74..=75 => SessionStep::Settle,
            _ => SessionStep::DeliverPart(reply_index, self.dice.roll(300)),
        };
        self.add_step(step, line)
    }

    fn add_step(&mut self, step: SessionStep, line: &mut String) -> Result<(), AllocError> {
        match step {
            SessionStep::Begin => self.add_begin(line),
            SessionStep::Ask => line.push_str("ask\n"),
            SessionStep::Serve(request) => write!(line, "serve {request}\n"),
            SessionStep::Deliver(reply) => write!(line, "deliver {reply} all\n"),
            SessionStep::DeliverPart(reply, count) => write!(line, "deliver {reply} {count}\n"),
            SessionStep::Settle => line.push_str("settle\n"),
        }
    }

    fn add_begin(&mut self, line: &mut String) -> Result<(), AllocError> {
        let specs = pick_word(&REFSPECS, &mut self.dice);
        write!(line, "begin {specs}\n")
    }

    fn add_forged_reply(&mut self, line: &mut String) -> Result<(), AllocError> {
        let mut bytes = Vec::new(self.alloc);
        self.forger.add_reply(&mut bytes)?;
        add_bytes("forge ", bytes.as_slice(), line)
    }

    // Appends a `stranger` event, which is a request from another client.
    fn add_stranger_request(&mut self, line: &mut String) -> Result<(), AllocError> {
        let mut bytes = Vec::new(self.alloc);
        self.forger.add_request(&mut bytes)?;
        add_bytes("stranger ", bytes.as_slice(), line)
    }

    // Appends a change or a restart of the server or the client.
    fn add_change(&mut self, roll: usize, line: &mut String) -> Result<(), AllocError> {
        match roll {
            90 => line.push_str("restart-client\n"),
            91 => line.push_str("restart-server\n"),
            92..=94 => self.add_object("server-add ", line),
            95..=96 => self.add_object("client-add ", line),
            97 => self.add_ref("server-ref ", line),
            _ => self.add_ref("client-ref ", line),
        }
    }

    fn add_object(&mut self, word: &str, line: &mut String) -> Result<(), AllocError> {
        line.push_str(word)?;
        self.forger.add_entry(line)?;
        line.push('\n')
    }

    fn add_ref(&mut self, word: &str, line: &mut String) -> Result<(), AllocError> {
        let name = pick_word(&REF_NAMES, &mut self.dice);
        line.push_str(word)?;
        self.forger.add_id(line)?;
        write!(line, " {name}\n")
    }

    /// Updates the state of the session from the outcome of the event in `line`.
    pub(crate) fn note_outcome(&mut self, line: &str, outcome: Outcome) {
        match outcome {
            Outcome::Done if line.starts_with("begin") => self.expect_refs(),
            Outcome::Done if line.starts_with("restart-client") => self.step = SessionStep::Begin,
            Outcome::Done | Outcome::StrangerServed { .. } => {}
            Outcome::Asked { request } => {
                self.request_count = self.request_count.saturating_add(1);
                self.step = SessionStep::Serve(request);
            }
            Outcome::Served { reply } => {
                self.reply_count = self.reply_count.saturating_add(1);
                self.step = SessionStep::Deliver(reply);
            }
            Outcome::LsTaken { wants, .. } => self.expect_fetch_reply(wants == 0),
            Outcome::Round { .. } => self.step = SessionStep::Ask,
            Outcome::PackTaken { .. } => self.step = SessionStep::Settle,
            Outcome::Settled { .. } => self.step = SessionStep::Begin,
            Outcome::Fault { code } => self.end_session_on_fault(code),
        }
    }

    fn expect_refs(&mut self) {
        self.forger.expects_fetch_reply = false;
        self.step = SessionStep::Ask;
    }

    fn expect_fetch_reply(&mut self, has_all: bool) {
        self.forger.expects_fetch_reply = true;
        self.step = if has_all {
            SessionStep::Settle
        } else {
            SessionStep::Ask
        };
    }

    // Ends the session if the last event was the next step of the session, or if a fault with this
    // number ends a session.
    fn end_session_on_fault(&mut self, code: u32) {
        if self.was_next_step || matches!(code, 20..=54 | 84..=86) {
            self.step = SessionStep::Begin;
        }
    }
}

// Returns a random word of the list.
fn pick_word(words: &[&'static str], dice: &mut Dice) -> &'static str {
    match words.get(dice.roll(words.len())) {
        Some(word) => word,
        None => "",
    }
}

// Appends a line with the word and the bytes in hexadecimal, or with the word and `-` if there are
// no bytes.
fn add_bytes(word: &str, bytes: &[u8], line: &mut String) -> Result<(), AllocError> {
    line.push_str(word)?;
    if bytes.is_empty() {
        line.push('-')?;
    }
    for byte in bytes {
        write!(line, "{byte:02x}")?;
    }
    line.push('\n')
}

// Returns the ids of all objects in both repositories, followed by unused ids.
fn object_ids(alloc: Global, inputs: WorldInputs<'_>) -> Result<Vec<String>, AllocError> {
    let mut ids = Vec::new(alloc);
    add_object_ids(alloc, inputs.server_text, &mut ids)?;
    add_object_ids(alloc, inputs.client_text, &mut ids)?;
    add_new_ids(alloc, inputs.tools.format.id_text_length(), &mut ids)?;
    Ok(ids)
}

// Appends the ids of the objects in a repository's text.
fn add_object_ids(alloc: Global, text: &[u8], ids: &mut Vec<String>) -> Result<(), AllocError> {
    for line in text.split(|byte| *byte == b'\n') {
        if let Some(id) = object_id(line) {
            ids.push(String::from_str(alloc, id)?)?;
        }
    }
    Ok(())
}

// Returns the id of the object that a line of a repository's text describes, or `None` if the line
// describes no object.
fn object_id(line: &[u8]) -> Option<&str> {
    let line = std::str::from_utf8(line).ok()?;
    let mut words = line.split(' ');
    match words.next() {
        Some("c") | Some("t") => words.next(),
        _ => None,
    }
}

fn add_new_ids(alloc: Global, width: usize, ids: &mut Vec<String>) -> Result<(), AllocError> {
    for number in NEW_IDS {
        ids.push(format!(in alloc; "{number:0width$}")?)?;
    }
    Ok(())
}
