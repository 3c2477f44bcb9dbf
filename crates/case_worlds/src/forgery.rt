//! Random forged replies, random requests from other clients, and random objects.

use crate::dice::Dice;
use case_text::{packet, text_packet};
use gname::Format;
use std::alloc::{AllocError, Global};

/// A generator of random messages and objects that uses the given ids.
#[derive(Drop)]
pub(crate) struct Forger {
    pub(crate) alloc: Global,
    pub(crate) format: Format,
    pub(crate) dice: Dice,
    /// The ids of objects to choose from.
    pub(crate) ids: Vec<String>,
    /// Whether the client has read the server's refs and now waits for objects.
    pub(crate) expects_fetch_reply: bool,
}

impl Forger {
    /// Appends one of the ids at random.
    pub(crate) fn add_id(&mut self, text: &mut String) -> Result<(), AllocError> {
        let index = self.dice.roll(self.ids.len());
        match self.ids.get(index) {
            Some(id) => text.push_str(id.as_str()),
            None => Ok(()),
        }
    }

    /// Appends a random object as a line of a pack in text form.
    pub(crate) fn add_entry(&mut self, text: &mut String) -> Result<(), AllocError> {
        let is_tag = self.dice.is_one_in(5);
        let count = if is_tag { 1 } else { self.dice.roll(3) };
        text.push(if is_tag { 't' } else { 'c' })?;
        for _ in 0..=count {
            text.push(' ')?;
            self.add_id(text)?;
        }
        Ok(())
    }

    /// Appends a random reply, which usually has the form that the client expects.
    pub(crate) fn add_reply(&mut self, bytes: &mut Vec<u8>) -> Result<(), AllocError> {
        if self.dice.is_one_in(8) {
            self.add_random_bytes(bytes)?;
        } else if self.expects_fetch_reply {
            self.add_fetch_reply(bytes)?;
        } else {
            self.add_ls_refs_reply(bytes)?;
        }
        self.corrupt(bytes);
        Ok(())
    }

    fn add_ls_refs_reply(&mut self, bytes: &mut Vec<u8>) -> Result<(), AllocError> {
        let mut line = String::new(self.alloc);
        self.add_ref(&mut line)?;
        self.add_packets(&[line.as_str(), "0000"], bytes)
    }

    // Appends an id and a ref name.
    fn add_ref(&mut self, line: &mut String) -> Result<(), AllocError> {
        self.add_id(line)?;
        let name = if self.dice.is_one_in(3) {
            " refs/heads/x"
        } else {
            " refs/heads/main"
        };
        line.push_str(name)
    }

    fn add_fetch_reply(&mut self, bytes: &mut Vec<u8>) -> Result<(), AllocError> {
        match self.dice.roll(4) {
            0 => self.add_pack(bytes)?,
            1 => self.add_acknowledgments(bytes)?,
            _ => {
                self.add_packets(&["acknowledgments", "ready", "0001"], bytes)?;
                self.add_pack(bytes)?;
            }
        }
        self.add_packets(&["0000"], bytes)
    }

    // Appends an `acknowledgments` section with a `NAK` or one `ACK`.
    fn add_acknowledgments(&mut self, bytes: &mut Vec<u8>) -> Result<(), AllocError> {
        self.add_packets(&["acknowledgments"], bytes)?;
        if self.dice.is_one_in(2) {
            self.add_packets(&["NAK"], bytes)
        } else {
            self.add_id_packet("ACK ", bytes)
        }
    }

    // Appends a `packfile` section with a pack on side band 1.
    fn add_pack(&mut self, bytes: &mut Vec<u8>) -> Result<(), AllocError> {
        let mut pack = String::new(self.alloc);
        self.add_plain_pack(&mut pack)?;
        self.add_packets(&["packfile"], bytes)?;
        match packet(self.alloc, b"\x01", pack.as_bytes(), b"") {
            Ok(piece) => bytes.extend_from_slice(piece.as_slice()),
            Err(_) => Err(AllocError),
        }
    }

    // Appends a random pack in text form.
    fn add_plain_pack(&mut self, pack: &mut String) -> Result<(), AllocError> {
        let count = self.dice.roll(5);
        pack.push_str("GPK1\n")?;
        for _ in 0..count {
            self.add_entry(pack)?;
            pack.push('\n')?;
        }
        write!(pack, "end {count}\n")
    }

    /// Appends a random request from another client.
    pub(crate) fn add_request(&mut self, bytes: &mut Vec<u8>) -> Result<(), AllocError> {
        match self.dice.roll(3) {
            0 => self.add_random_bytes(bytes)?,
            1 => self.add_ls_refs_request(bytes)?,
            _ => self.add_fetch_request(bytes)?,
        }
        self.corrupt(bytes);
        Ok(())
    }

    fn add_ls_refs_request(&mut self, bytes: &mut Vec<u8>) -> Result<(), AllocError> {
        self.add_command("command=ls-refs", bytes)?;
        self.add_packets(&["peel", "symrefs", "0000", "0000"], bytes)
    }

    fn add_fetch_request(&mut self, bytes: &mut Vec<u8>) -> Result<(), AllocError> {
        self.add_command("command=fetch", bytes)?;
        self.add_id_packet("want ", bytes)?;
        if self.dice.is_one_in(2) {
            self.add_id_packet("have ", bytes)?;
        }
        if self.dice.is_one_in(2) {
            self.add_packets(&["done"], bytes)?;
        }
        self.add_packets(&["0000", "0000"], bytes)
    }

    fn add_command(&self, command: &str, bytes: &mut Vec<u8>) -> Result<(), AllocError> {
        match self.format {
            Format::Sha1 => self.add_packets(&[command, "0001"], bytes),
            Format::Sha256 => self.add_packets(&[command, "object-format=sha256", "0001"], bytes),
        }
    }

    // Appends a packet that contains a word and an id.
    fn add_id_packet(&mut self, word: &str, bytes: &mut Vec<u8>) -> Result<(), AllocError> {
        let mut line = String::from_str(self.alloc, word)?;
        self.add_id(&mut line)?;
        self.add_packets(&[line.as_str()], bytes)
    }

    // Appends a packet for each line. The line `0000` becomes a flush packet, and the line `0001`
    // becomes a delimiter packet.
    fn add_packets(&self, lines: &[&str], bytes: &mut Vec<u8>) -> Result<(), AllocError> {
        for line in lines {
            self.add_packet(line, bytes)?;
        }
        Ok(())
    }

    fn add_packet(&self, line: &str, bytes: &mut Vec<u8>) -> Result<(), AllocError> {
        match text_packet(self.alloc, line.as_bytes()) {
            Ok(line) => bytes.extend_from_slice(line.as_slice()),
            Err(_) => Err(AllocError),
        }
    }

    fn add_random_bytes(&mut self, bytes: &mut Vec<u8>) -> Result<(), AllocError> {
        for _ in 0..self.dice.roll(40) {
            bytes.push(self.random_byte())?;
        }
        Ok(())
    }

    fn random_byte(&mut self) -> u8 {
        let bits = [1u8, 2, 4, 8, 16, 32, 64, 128];
        let mut byte = 0u8;
        for bit in bits {
            if self.dice.is_one_in(2) {
                byte |= bit;
            }
        }
        byte
    }

    // Changes a byte of the message or truncates the message, in one of six calls on average.
    fn corrupt(&mut self, bytes: &mut Vec<u8>) {
        let offset = self.dice.roll(bytes.len());
        match self.dice.roll(12) {
            0 => bytes.truncate(offset),
            1 => {
                let changed = self.random_byte();
                if let Some(byte) = bytes.get_mut(offset) {
                    *byte = changed;
                }
            }
            _ => {}
        }
    }
}
