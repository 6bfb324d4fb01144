//! Lines of output, put together piece by piece.

use std::alloc::Global;
use std::io;

/// Text that grows at its end. Where an allocation failed, printing fails.
#[derive(Drop)]
pub struct Output {
    text: String,
    is_short: bool,
}

impl Output {
    /// Nothing so far.
    pub fn new(alloc: Global) -> Output {
        Output {
            text: String::new(alloc),
            is_short: false,
        }
    }

    /// Writes text.
    pub fn text(&mut self, text: &str) {
        self.is_short |= self.text.push_str(text).is_err();
    }

    /// Writes a space and a word.
    pub fn word(&mut self, word: &str) {
        self.text(" ");
        self.text(word);
    }

    /// Writes a number.
    pub fn number(&mut self, number: i128) {
        self.is_short |= write!(self.text, " {number}").is_err();
    }

    /// Writes bytes in hexadecimal; `-` are none.
    pub fn bytes(&mut self, bytes: &[u8]) {
        self.word(if bytes.is_empty() { "-" } else { "" });
        for byte in bytes {
            self.is_short |= write!(self.text, "{byte:02x}").is_err();
        }
    }

    /// Ends a line: with the word `BAD` where a step isn't done.
    pub fn end(&mut self, is_done: bool) {
        self.text(if is_done { "\n" } else { " BAD\n" });
    }

    /// Prints all.
    pub fn print<R: Print>(&self, rt: &R) -> io::Result<()> {
        if self.is_short {
            return Err(io::Error::from(io::ErrorKind::OutOfMemory));
        }
        let text = self.text.as_str();
        print!(rt; "{text}")
    }
}
