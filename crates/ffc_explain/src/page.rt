//! Text that grows.
use itoa::Buffer;
use std::alloc::{AllocError, Global};

/// A text that is written piece by piece. Where memory runs out it takes no more, and `finish` says so.
#[derive(Drop)]
pub struct Page {
    bytes: Vec<u8>,
    is_out_of_memory: bool,
}

impl Page {
    /// An empty text. It takes no memory.
    pub fn new(alloc: Global) -> Page {
        Page {
            bytes: Vec::new(alloc),
            is_out_of_memory: false,
        }
    }

    /// Memory ran out.
    pub fn fail(&mut self) {
        self.is_out_of_memory = true;
    }

    /// Appends bytes.
    pub fn bytes(&mut self, bytes: &[u8]) {
        if self.is_out_of_memory {
            return;
        }
        if self.bytes.extend_from_slice(bytes).is_err() {
            self.is_out_of_memory = true;
        }
    }

    /// Appends a text.
    pub fn text(&mut self, text: &str) {
        self.bytes(text.as_bytes());
    }

    /// Appends a number in decimal.
    pub fn number(&mut self, number: u64) {
        let mut buffer = Buffer::new();
        self.bytes(buffer.format(number).as_bytes());
    }

    /// Appends a number, and what is counted: with an `s` where the number is not 1.
    pub fn count(&mut self, number: u64, what: &str) {
        self.number(number);
        self.text(" ");
        self.text(what);
        if number != 1 {
            self.text("s");
        }
    }

    /// Appends a text with two spaces before each of its lines.
    pub fn indented(&mut self, bytes: &[u8]) {
        for line in bytes.split(|byte| *byte == b'\n') {
            if !line.is_empty() {
                self.text("  ");
                self.bytes(line);
                self.text("\n");
            }
        }
    }

    /// The text, unless memory ran out.
    pub fn finish(self) -> Result<Vec<u8>, AllocError> {
        let Page {
            bytes,
            is_out_of_memory,
        } = self;
        if is_out_of_memory {
            return Err(AllocError);
        }
        Ok(bytes)
    }
}
