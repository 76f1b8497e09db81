//! What is printed of a row.
use std::alloc::Global;
use std::fmt::Display;

/// The text of a row so far. Where memory is out, the text says so when it is read.
#[derive(Drop)]
pub struct Page {
    text: String,
    is_cut: bool,
}

impl Page {
    pub fn new(alloc: Global) -> Self {
        Page {
            text: String::new(alloc),
            is_cut: false,
        }
    }

    /// Adds a text.
    pub fn say(&mut self, text: &str) {
        if self.text.push_str(text).is_err() {
            self.is_cut = true;
        }
    }

    /// Adds what is displayed of a value.
    pub fn show<D: Display>(&mut self, value: &D) {
        if write!(self.text, "{value}").is_err() {
            self.is_cut = true;
        }
    }

    /// Adds a number.
    pub fn number(&mut self, number: u64) {
        self.show(&number);
    }

    /// Adds a number after these words.
    pub fn count(&mut self, before: &str, number: u64) {
        self.say(before);
        self.number(number);
    }

    /// Adds `yes` or `no`.
    pub fn answer(&mut self, holds: bool) {
        self.say(if holds { "yes" } else { "no" });
    }

    /// Begins a step of the row.
    pub fn begin(&mut self, step: &str) {
        if !self.text.is_empty() {
            self.say(" | ");
        }
        self.say(step.trim());
        self.say(": ");
    }

    /// The text, or that memory is out.
    pub fn text(&self) -> &str {
        if self.is_cut {
            return "out of memory";
        }
        self.text.as_str()
    }

    /// Begins anew.
    pub fn clear(&mut self) {
        self.text.clear();
        self.is_cut = false;
    }
}
