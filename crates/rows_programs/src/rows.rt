//! The row that is read, step by step.
use crate::bytes::shown;
use crate::objects::Objects;
use crate::runs::{Left, check, solve};
use crate::steps::{Edit, Place, Program, Setting, Show, Step, halves, step_of};
use crate::sums::summed;
use crate::texts::Texts;
use std::alloc::{AllocError, Global};
use std::io;

/// The row that is read, and how many rows and runs there were.
#[derive(Drop)]
pub(crate) struct Rows {
    alloc: Global,
    texts: Texts,
    objects: Objects,
    is_out_hidden: bool,
    /// What the last run added to the output.
    out: Vec<u8>,
    /// How many of its calls failed on the script, the certificate and the output.
    faults: [u64; 3],
    rows: u64,
    runs: u64,
}

/// Whether the bytes have this text in them, in a word.
fn finds(bytes: &[u8], text: &str) -> &'static str {
    let text = text.as_bytes();
    if bytes.windows(text.len().max(1)).any(|part| part == text) {
        "yes"
    } else {
        "no"
    }
}

fn print_bytes<R: Print>(rt: &R, alloc: Global, bytes: &[u8]) -> io::Result<()> {
    let text = shown(alloc, bytes)?;
    print!(rt; "{text}")
}

impl Rows {
    pub(crate) fn new(alloc: Global) -> Rows {
        Rows {
            alloc,
            texts: Texts::new(alloc),
            objects: Objects::new(alloc),
            is_out_hidden: false,
            out: Vec::new(alloc),
            faults: [0; 3],
            rows: 0,
            runs: 0,
        }
    }

    /// Begins a row with the texts that are there.
    fn begin<R: Print>(&mut self, rt: &R, name: &str) -> io::Result<()> {
        self.objects = Objects::new(self.alloc);
        self.is_out_hidden = false;
        self.out.clear();
        self.faults = [0; 3];
        self.rows = self.rows.wrapping_add(1);
        println!(rt; "\nrow {name}")
    }

    /// What a run leaves with the words of a line.
    fn left(&self, program: Program, line: &str) -> Result<Left, AllocError> {
        let words: Vec<&str> = line.split(' ').collect(self.alloc)?;
        let words = words.as_slice();
        let script = self.texts.script.as_slice();
        match program {
            Program::Solver => solve(self.alloc, &self.objects, words, script),
            Program::Checker => {
                let cert = self.texts.cert.as_slice();
                check(self.alloc, &self.objects, words, script, cert)
            }
        }
    }

    /// Keeps what a run left, and says whether the output has what it held.
    fn keep(&mut self, left: Left) -> bool {
        self.runs = self.runs.wrapping_add(1);
        self.texts.cert = left.cert;
        self.faults = left.faults;
        match left.out {
            Some(out) => {
                self.out = out;
                true
            }
            None => {
                self.out.clear();
                false
            }
        }
    }

    /// Runs a program with the words of a line, and prints what it did.
    fn run<R: Print>(&mut self, rt: &R, program: Program, line: &str) -> io::Result<()> {
        let left = self.left(program, line)?;
        println!(rt; "{line}: {}", left.status)?;
        if !self.keep(left) {
            return println!(rt; "what the output held is gone");
        }
        if self.is_out_hidden {
            return Ok(());
        }
        print_bytes(rt, self.alloc, self.out.as_slice())
    }

    fn print_cert<R: Print>(&self, rt: &R) -> io::Result<()> {
        println!(rt; "certificate")?;
        print_bytes(rt, self.alloc, self.texts.cert.as_slice())
    }

    fn print_sums<R: Print>(&self, rt: &R) -> io::Result<()> {
        println!(rt; "certificate, counts added up")?;
        let cert = summed(self.alloc, self.texts.cert.as_slice())?;
        print_bytes(rt, self.alloc, cert.as_slice())
    }

    fn print_faults<R: Print>(&self, rt: &R) -> io::Result<()> {
        let [script, cert, out] = self.faults;
        println!(rt; "faults: script {script}, certificate {cert}, output {out}")
    }

    fn show<R: Print>(&mut self, rt: &R, show: Show) -> io::Result<()> {
        match show {
            Show::Cert => self.print_cert(rt),
            Show::Sums => self.print_sums(rt),
            Show::Faults => self.print_faults(rt),
            Show::NoOut => {
                self.is_out_hidden = true;
                Ok(())
            }
        }
    }

    /// Prints whether a text is there.
    fn find<R: Print>(&self, rt: &R, place: Place, text: &str) -> io::Result<()> {
        match place {
            Place::Out => println!(rt; "output has {text}: {}", finds(self.out.as_slice(), text)),
            Place::Cert => {
                let found = finds(self.texts.cert.as_slice(), text);
                println!(rt; "certificate has {text}: {found}")
            }
        }
    }

    /// Changes a text, and prints a step that is no text itself, so that it cannot be left out unseen.
    fn edit<R: Print>(&mut self, rt: &R, edit: Edit, line: &str, rest: &str) -> io::Result<bool> {
        let is_read = self.texts.edit(edit, rest)?;
        if is_read && !edit.is_text() {
            println!(rt; "{line}")?;
        }
        Ok(is_read)
    }

    /// Changes an object, and prints the step.
    fn set<R: Print>(
        &mut self,
        rt: &R,
        setting: Setting,
        line: &str,
        rest: &str,
    ) -> io::Result<bool> {
        let is_read = self.objects.set(setting, rest)?;
        if is_read {
            println!(rt; "{line}")?;
        }
        Ok(is_read)
    }

    /// Takes a line, and says whether it is a step that can be read.
    fn step<R: Print>(&mut self, rt: &R, line: &str) -> io::Result<bool> {
        let (word, rest) = halves(line);
        match step_of(word) {
            None => return Ok(false),
            Some(Step::Note) => {}
            Some(Step::Row) => {
                self.texts.clear();
                self.begin(rt, rest)?;
            }
            Some(Step::Also) => self.begin(rt, rest)?,
            Some(Step::Edit(edit)) => return self.edit(rt, edit, line, rest),
            Some(Step::Setting(setting)) => return self.set(rt, setting, line, rest),
            Some(Step::Run(program)) => self.run(rt, program, line)?,
            Some(Step::Show(show)) => {
                self.show(rt, show)?;
                return Ok(rest.is_empty());
            }
            Some(Step::Find(place)) => self.find(rt, place, rest)?,
        }
        Ok(true)
    }

    /// Takes a line, and prints one that cannot be read.
    pub(crate) fn take<R: Print>(&mut self, rt: &R, line: &str) -> io::Result<()> {
        if line.is_empty() || self.step(rt, line)? {
            return Ok(());
        }
        println!(rt; "cannot be read: {line}")
    }

    pub(crate) fn print_counts<R: Print>(&self, rt: &R) -> io::Result<()> {
        println!(rt; "\n{} rows, {} runs\n", self.rows, self.runs)
    }
}
