//! Sources and sinks of bytes at each kind of failing call, and the adapters over real files, input and output.
ghost use Rattle.std.specs.Prelude.{◌≤◌, IfOk};

use crate::naming::named;
use crate::page::Page;
use crate::reading::{Words, numbers, words_of};
use crate::rows::alone;
use ffc_base::{
    Failed, FileSink, FileSource, MemSink, MemSource, NamedSink, NamedSource, Sink, Source,
    StdSink, StdSource, SureSink, SureSource, WriteStop,
};
use std::alloc::Global;
use std::io::{self, Error, ErrorKind, Read, Write};
use std::rt::Files;
use std::{fs, str};

/// Writes bytes that are letters, and how many bytes there are.
fn write_bytes(page: &mut Page, bytes: &[u8]) {
    page.number(bytes.len() as u64);
    if bytes.is_empty() || !bytes.iter().all(|byte| byte.is_ascii_graphic()) {
        return;
    }
    if let Ok(text) = str::from_utf8(bytes) {
        page.say(" ");
        page.say(text);
    }
}

/// Reads into a buffer of four bytes, and writes what came.
fn read_four<S: Source>(source: &mut S, page: &mut Page) {
    let mut buf = [0u8; 4];
    match source.read(&mut buf) {
        Ok(count) => write_bytes(page, &buf[..count]),
        Err(_) => page.say("failed"),
    }
}

/// Does steps on a source, each of which reads.
fn read_steps<S: Source>(source: &mut S, steps: &[&str], page: &mut Page) -> Option<()> {
    page.say("begun");
    for step in steps {
        page.begin(step);
        if step.trim() != "read" {
            return None;
        }
        read_four(source, page);
    }
    Some(())
}

/// Writes whether the content of a name is opened.
fn open<S: NamedSource>(source: &mut S, name: &str, page: &mut Page) {
    page.say(match source.open_named(name) {
        Ok(()) => "opened",
        Err(_) => "failed",
    });
}

/// What begins a step on a source or a sink.
#[derive(Clone, Copy)]
enum Verb {
    Open,
    Read,
    Create,
    Write,
}

const VERBS: [(&str, Verb); 4] = [
    ("open", Verb::Open),
    ("read", Verb::Read),
    ("create", Verb::Create),
    ("write", Verb::Write),
];

/// Does a step on a source: opens the name that is given, or reads.
fn source_step<S: NamedSource>(
    source: &mut S,
    words: &mut Words<'_>,
    page: &mut Page,
) -> Option<()> {
    match named(&VERBS, words.next()?)? {
        Verb::Open => open(source, words.next()?, page),
        Verb::Read => read_four(source, page),
        _ => return None,
    }
    Some(())
}

/// Does steps on a source.
fn source_steps<S: NamedSource>(
    alloc: Global,
    source: &mut S,
    steps: &[&str],
    page: &mut Page,
) -> Option<()> {
    page.say("begun");
    for text in steps {
        page.begin(text);
        let words = words_of(alloc, text)?;
        source_step(source, &mut Words::new(words.as_slice()), page)?;
    }
    Some(())
}

/// Writes whether a call of a sink failed.
fn write_result(page: &mut Page, answer: Result<(), WriteStop>) {
    match answer {
        Ok(()) => page.say("done"),
        Err(stop) => page.show(&stop),
    }
}

/// Does a step on a sink: creates the content of the name that is given, or writes.
fn sink_step<S: NamedSink>(sink: &mut S, words: &mut Words<'_>, page: &mut Page) -> Option<()> {
    match named(&VERBS, words.next()?)? {
        Verb::Create => write_result(page, sink.create(words.next()?)),
        Verb::Write => write_result(page, sink.write(words.next()?.as_bytes())),
        _ => return None,
    }
    Some(())
}

/// Does steps on a sink.
fn sink_steps<S: NamedSink>(
    alloc: Global,
    sink: &mut S,
    steps: &[&str],
    page: &mut Page,
) -> Option<()> {
    page.say("begun");
    for text in steps {
        page.begin(text);
        let words = words_of(alloc, text)?;
        sink_step(sink, &mut Words::new(words.as_slice()), page)?;
    }
    Some(())
}

/// Writes how many calls failed.
fn write_faults(page: &mut Page, faults: u64) {
    page.count("; faults ", faults);
}

/// Writes what a sink holds.
fn write_held(page: &mut Page, bytes: &[u8]) {
    page.say("; holds ");
    write_bytes(page, bytes);
}

/// The bytes of the next word.
fn bytes(alloc: Global, words: &mut Words<'_>) -> Option<Vec<u8>> {
    let text = words.next()?;
    Vec::from_slice(alloc, text.as_bytes()).ok()
}

/// A source in memory: its bytes, the size of its pieces and the calls that fail.
fn memory_source(alloc: Global, words: &mut Words<'_>) -> Option<MemSource> {
    let bytes = bytes(alloc, words)?;
    let piece = words.small()? as usize;
    let fails = numbers(alloc, words.next()?)?;
    if piece == 0 {
        return None;
    }
    Some(MemSource::new(bytes, piece, fails))
}

/// A source in memory that fails at given calls.
fn with_memory_source(
    alloc: Global,
    words: &mut Words<'_>,
    steps: &[&str],
    page: &mut Page,
) -> Option<()> {
    let mut source = memory_source(alloc, words)?;
    source_steps(alloc, &mut source, steps, page)?;
    write_faults(page, source.faults());
    Some(())
}

/// A call that fails and how much of its bytes it takes before, as `2:1`.
fn failing(text: &str) -> Option<(u64, usize)> {
    let (call, prefix) = text.split_once(':')?;
    Some((call.parse::<u64>().ok()?, prefix.parse::<usize>().ok()?))
}

/// The calls that fail, with commas between them.
fn failings(alloc: Global, text: &str) -> Option<Vec<(u64, usize)>> {
    let mut out = Vec::new(alloc);
    for part in text.split(',') {
        out.push(failing(part)?).ok()?;
    }
    Some(out)
}

/// A sink in memory that fails at given calls.
fn with_memory_sink(
    alloc: Global,
    words: &mut Words<'_>,
    steps: &[&str],
    page: &mut Page,
) -> Option<()> {
    let bytes = bytes(alloc, words)?;
    let mut sink = MemSink::new(bytes, failings(alloc, words.next()?)?);
    sink_steps(alloc, &mut sink, steps, page)?;
    write_held(page, sink.bytes());
    write_faults(page, sink.faults());
    Some(())
}

/// A source in memory that never fails.
fn with_sure_source(
    alloc: Global,
    words: &mut Words<'_>,
    steps: &[&str],
    page: &mut Page,
) -> Option<()> {
    let mut source = SureSource::new(bytes(alloc, words)?);
    source_steps(alloc, &mut source, steps, page)
}

/// A sink in memory that never fails.
fn with_sure_sink(
    alloc: Global,
    words: &mut Words<'_>,
    steps: &[&str],
    page: &mut Page,
) -> Option<()> {
    let mut sink = SureSink::new(bytes(alloc, words)?);
    sink_steps(alloc, &mut sink, steps, page)?;
    write_held(page, sink.bytes());
    Some(())
}

/// A real file as a source.
fn with_file_source<R: Files + AllocGlobal>(rt: &R, steps: &[&str], page: &mut Page) -> Option<()> {
    let mut source = FileSource::new(rt);
    source_steps(rt.alloc(), &mut source, steps, page)?;
    write_faults(page, source.faults());
    Some(())
}

/// A real file as a sink.
fn with_file_sink<R: Files + AllocGlobal>(rt: &R, steps: &[&str], page: &mut Page) -> Option<()> {
    let mut sink = FileSink::new(rt);
    sink_steps(rt.alloc(), &mut sink, steps, page)?;
    write_faults(page, sink.faults());
    Some(())
}

/// A reader and writer that is interrupted so many times, and then answers once more.
#[derive(Drop)]
struct Interrupted {
    times: u8,
    then: Option<usize>,
}

impl Interrupted {
    fn answer(&mut self, most: usize) -> io::Result<usize>
        ensures { IfOk result (λ n. n ≤ most) }
    {
        if self.times > 0 {
            self.times -= 1;
            return Err(Error::from(ErrorKind::Interrupted));
        }
        match self.then {
            Some(count) => Ok(count.min(most)),
            None => Err(Error::from(ErrorKind::Other)),
        }
    }
}

impl Read for Interrupted {
    fn read(&mut self, buf: &mut [u8]) -> io::Result<usize> {
        self.answer(buf.len())
    }
}

impl Write for Interrupted {
    fn write(&mut self, buf: &[u8]) -> io::Result<usize> {
        self.answer(buf.len())
    }

    fn flush(&mut self) -> io::Result<()> {
        Ok(())
    }
}

/// A reader and writer that is interrupted twice, and then takes so many bytes at a time, or fails.
fn interrupted_twice(words: &mut Words<'_>) -> Interrupted {
    let then = words.small().map(|count| count as usize);
    Interrupted { times: 2, then }
}

/// A source over a reader.
fn with_reader<R: Read + Drop>(reader: R, steps: &[&str], page: &mut Page) -> Option<()> {
    let mut source = StdSource::new(reader);
    read_steps(&mut source, steps, page)?;
    write_faults(page, source.faults());
    Some(())
}

/// A sink over a writer, to which a text is written once.
fn with_writer<W: Write + Drop>(writer: W, text: &str, page: &mut Page) {
    let mut sink = StdSink::new(writer);
    write_result(page, sink.write(text.as_bytes()));
    write_faults(page, sink.faults());
}

/// Writes a real file.
fn put_file<R: Files>(rt: &R, words: &mut Words<'_>, page: &mut Page) -> Option<()> {
    fs::write(rt, words.next()?, words.next()?).ok()?;
    page.say("done");
    Some(())
}

/// Removes a real file.
fn remove_file<R: Files>(rt: &R, words: &mut Words<'_>, page: &mut Page) -> Option<()> {
    fs::remove_file(rt, words.next()?).ok()?;
    page.say("done");
    Some(())
}

/// What is read from or written to.
#[derive(Clone, Copy)]
enum Kind {
    Memory,
    Sure,
    File,
    Standard,
    Interrupted,
    Put,
    Remove,
}

const KINDS: [(&str, Kind); 7] = [
    ("memory", Kind::Memory),
    ("sure", Kind::Sure),
    ("file", Kind::File),
    ("standard", Kind::Standard),
    ("interrupted", Kind::Interrupted),
    ("put-file", Kind::Put),
    ("remove-file", Kind::Remove),
];

/// Begins a source, and does the steps.
pub fn source_row<R: Files + Input + AllocGlobal>(
    rt: &R,
    words: &mut Words<'_>,
    steps: &[&str],
    page: &mut Page,
) -> Option<()> {
    let kind = named(&KINDS, words.next()?)?;
    match kind {
        Kind::Memory => with_memory_source(rt.alloc(), words, steps, page),
        Kind::Sure => with_sure_source(rt.alloc(), words, steps, page),
        Kind::File => with_file_source(rt, steps, page),
        Kind::Standard => with_reader(rt.reader(), steps, page),
        Kind::Interrupted => with_reader(interrupted_twice(words), steps, page),
        _ => None,
    }
}

/// The line that is written to standard output.
const LINE: &str = "a line on standard output\n";

/// Writes to a sink once, or puts a file there, or removes it.
fn sink_once<R: Files + Print>(
    rt: &R,
    kind: Kind,
    words: &mut Words<'_>,
    page: &mut Page,
) -> Option<()> {
    match kind {
        Kind::Put => return put_file(rt, words, page),
        Kind::Remove => return remove_file(rt, words, page),
        Kind::Standard => with_writer(io::writer(rt), LINE, page),
        Kind::Interrupted => with_writer(interrupted_twice(words), "abcde", page),
        _ => return None,
    }
    Some(())
}

/// Begins a sink, and does the steps; or what is done once.
pub fn sink_row<R: Files + Print + AllocGlobal>(
    rt: &R,
    words: &mut Words<'_>,
    steps: &[&str],
    page: &mut Page,
) -> Option<()> {
    let kind = named(&KINDS, words.next()?)?;
    match kind {
        Kind::Memory => with_memory_sink(rt.alloc(), words, steps, page),
        Kind::Sure => with_sure_sink(rt.alloc(), words, steps, page),
        Kind::File => with_file_sink(rt, steps, page),
        other => {
            alone(steps)?;
            sink_once(rt, other, words, page)
        }
    }
}
