//! The way through a text, line by line.
ghost use Rattle.std.specs.Prelude.{◌≡◌, ℕ, [], ◌+◌, ◌<◌, ◌≤◌, ◌^◌, ◌==◌, length, drop, None, IfOk, OnOk};
ghost use Rattle.std.specs.List.{position_or_len};
ghost use Rattle.ffc_cert.specs.Reading.{is_line_end, reading_of, stop_fault};
ghost use Rattle.ffc_cert.specs.Scan.{IsReady, IsWindow, AfterStep, AfterScan, AfterEnd, GoesFurther};
ghost use Rattle.ffc_cert.specs.Certificate.{next_entry_of};

use crate::MAX_BYTES;
use crate::entries::{CertFault, CertStop, Numbered};
use crate::items::place_of;
use crate::progress::Progress;
use ffc_base::GhostText;
use std::alloc::Global;

/// What a step found.
#[derive(Debug, Drop)]
pub enum Found {
    /// A line of an entry that is not whole.
    Line,
    /// The last line of an entry.
    Whole(Numbered),
    /// Nothing, in the bytes so far.
    Nothing,
}

/// How far a text is read. Of the text a window is there, without the bytes in front that were dropped.
#[derive(Debug, Drop)]
pub struct Scanner {
    pub progress: Progress,
    /// How many bytes of the text were dropped.
    pub gone: u64,
    /// Where in the text the next line begins.
    pub start: u64,
    /// Up to where no LF was found after that.
    pub scanned: u64,
}

impl Scanner {
    /// At the start of a text.
    pub fn new(alloc: Global, bits: bool) -> Scanner
        ensures ready { (wanted : ℕ) → IsReady bits wanted [] result }
        ensures start { result.progress.complete ≡ 0 }
        ensures gone { result.gone ≡ 0 }
    {
        Scanner {
            progress: Progress::new(alloc, bits),
            gone: 0,
            start: 0,
            scanned: 0,
        }
    }

    /// The place in the text of the LF that ends the next line, or the length of the text.
    fn line_end(&self, _fed: &GhostText, window: &[u8]) -> u64
        requires kept { self.now.gone ≤ self.now.start }
        requires within { self.now.start ≤ self.now.scanned }
        requires limit { self.now.scanned ≤ length _fed.now.bytes }
        requires unended { self.now.scanned ≤ self.now.start + position_or_len is_line_end
            (drop self.now.start _fed.now.bytes) }
        requires size { length _fed.now.bytes < 2 ^ 63 }
        requires window { IsWindow self.now.gone _fed.now.bytes window.now }
        ensures end { result ≡ self.now.start + position_or_len is_line_end (drop self.now.start _fed.now.bytes) }
        ensures within { result ≤ length _fed.now.bytes }
    {
        let after = &window[(self.scanned - self.gone) as usize..];
        self.scanned + place_of(b'\n', after) as u64
    }

    /// Takes a line that is whole, and its LF. Only clauses name the flag.
    fn take_whole(
        &mut self,
        alloc: Global,
        _bits: bool,
        wanted: u64,
        _fed: &GhostText,
        window: &[u8],
        end: u64,
    ) -> Result<Found, CertStop>
        requires ready { IsReady _bits wanted _fed.now.bytes self.old }
        requires size { length _fed.now.bytes < 2 ^ 63 }
        requires window { IsWindow self.old.gone _fed.now.bytes window.now }
        requires end { end ≡ self.old.start + position_or_len is_line_end (drop self.old.start _fed.now.bytes) }
        requires whole { end < length _fed.now.bytes }
        ensures after { AfterStep result _bits wanted self.old.progress.complete _fed.now.bytes self.new }
        ensures further { OnOk result (self.old.start < self.new.start) }
        ensures gone { self.new.gone ≡ self.old.gone }
    {
        let line = &window[(self.start - self.gone) as usize..(end - self.gone) as usize];
        let taken = self.progress.take_line(alloc, wanted, line)?;
        self.start = end + 1;
        self.scanned = end + 1;
        match taken {
            Some(entry) => Ok(Found::Whole(entry)),
            None => Ok(Found::Line),
        }
    }

    /// Judges what has come of a line that is not whole. Only clauses name the flag.
    fn judge_rest(
        &mut self,
        alloc: Global,
        _bits: bool,
        wanted: u64,
        _fed: &GhostText,
        window: &[u8],
    ) -> Result<Found, CertStop>
        requires ready { IsReady _bits wanted _fed.now.bytes self.old }
        requires size { length _fed.now.bytes < 2 ^ 63 }
        requires window { IsWindow self.old.gone _fed.now.bytes window.now }
        requires unended { length _fed.now.bytes ≤ self.old.start + position_or_len is_line_end
            (drop self.old.start _fed.now.bytes) }
        ensures after { AfterStep result _bits wanted self.old.progress.complete _fed.now.bytes self.new }
        ensures nothing { IfOk result (λ found. found ≡ Found.Nothing) }
        ensures gone { self.new.gone ≡ self.old.gone }
    {
        let rest = &window[(self.start - self.gone) as usize..];
        if rest.len() as u64 > MAX_BYTES {
            return match self.progress.take_line(alloc, wanted, rest) {
                Ok(_) => unreachable!(),
                Err(stop) => Err(stop),
            };
        }
        if self.progress.is_over(wanted, rest) {
            return Err(CertStop::Fault(self.progress.fault(2)));
        }
        self.scanned = self.gone + window.len() as u64;
        Ok(Found::Nothing)
    }

    /// Takes the next line, or judges what has come of it.
    pub fn step(
        &mut self,
        alloc: Global,
        bits: bool,
        wanted: u64,
        fed: &GhostText,
        window: &[u8],
    ) -> Result<Found, CertStop>
        requires ready { IsReady bits wanted fed.now.bytes self.old }
        requires size { length fed.now.bytes < 2 ^ 63 }
        requires window { IsWindow self.old.gone fed.now.bytes window.now }
        ensures after { AfterStep result bits wanted self.old.progress.complete fed.now.bytes self.new }
        ensures further { IfOk result (λ found. GoesFurther found self.old self.new) }
        ensures gone { self.new.gone ≡ self.old.gone }
    {
        let end = self.line_end(fed, window);
        if end < self.gone + window.len() as u64 {
            self.take_whole(alloc, bits, wanted, fed, window, end)
        } else {
            self.judge_rest(alloc, bits, wanted, fed, window)
        }
    }

    /// Reads on to the end of the next entry, or to the end of the text so far.
    pub fn scan(
        &mut self,
        alloc: Global,
        bits: bool,
        wanted: u64,
        fed: &GhostText,
        window: &[u8],
    ) -> Result<Option<Numbered>, CertStop>
        requires ready { IsReady bits wanted fed.now.bytes self.old }
        requires size { length fed.now.bytes < 2 ^ 63 }
        requires window { IsWindow self.old.gone fed.now.bytes window.now }
        ensures after { AfterScan result bits wanted self.old.progress.complete fed.now.bytes self.new }
        ensures gone { self.new.gone ≡ self.old.gone }
    {
        'lines: loop {
            match self.step(alloc, bits, wanted, fed, window)? {
                Found::Line => {}
                Found::Whole(entry) => return Ok(Some(entry)),
                Found::Nothing => return Ok(None),
            }
        }
    }

    /// The fault where a text ends here whose entries were all given, and that is not at fault so far.
    pub fn end(
        &mut self,
        alloc: Global,
        bits: bool,
        wanted: u64,
        fed: &GhostText,
        window: &[u8],
    ) -> Result<Option<CertFault>, CertStop>
        requires ready { IsReady bits wanted fed.now.bytes self.old }
        requires size { length fed.now.bytes < 2 ^ 63 }
        requires window { IsWindow self.old.gone fed.now.bytes window.now }
        requires given { next_entry_of bits wanted fed.now.bytes self.old.progress.complete ≡ None }
        requires faultless { stop_fault (reading_of bits wanted fed.now.bytes).end ≡ None }
        ensures after { AfterEnd result bits wanted fed.now.bytes }
        ensures ready { IsReady bits wanted fed.now.bytes self.new }
        ensures complete { self.new.progress.complete ≡ self.old.progress.complete }
        ensures gone { self.new.gone ≡ self.old.gone }
    {
        match self.scan(alloc, bits, wanted, fed, window) {
            Ok(None) => {}
            Ok(Some(_)) => unreachable!(),
            Err(CertStop::Fault(_)) => unreachable!(),
            Err(CertStop::Memory) => return Err(CertStop::Memory),
        }
        Ok(self.progress.fault_at_end(wanted))
    }
}
