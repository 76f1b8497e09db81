//! The script and the certificate of a row.
use crate::bytes::push_text;
use crate::changes::{first_lines, with_line};
use crate::repeats::push_times;
use crate::steps::{Edit, numbered};
use ffc_solve::make_script;
use std::alloc::{AllocError, Global};

/// The largest script that `ffsolve` makes.
const MOST_MADE: u64 = 10_000;

/// The texts of a row.
#[derive(Drop)]
pub(crate) struct Texts {
    alloc: Global,
    pub(crate) script: Vec<u8>,
    pub(crate) cert: Vec<u8>,
    /// Whether what follows is text of the certificate.
    is_cert_open: bool,
}

impl Texts {
    pub(crate) fn new(alloc: Global) -> Texts {
        Texts {
            alloc,
            script: Vec::new(alloc),
            cert: Vec::new(alloc),
            is_cert_open: false,
        }
    }

    pub(crate) fn clear(&mut self) {
        self.script.clear();
        self.cert.clear();
        self.is_cert_open = false;
    }

    /// Begins one of the two, and says whether nothing follows the word for it.
    fn open(&mut self, is_cert: bool, text: &str) -> bool {
        self.is_cert_open = is_cert;
        if is_cert {
            self.cert.clear();
        } else {
            self.script.clear();
        }
        text.is_empty()
    }

    fn put(&mut self, bytes: &[u8]) -> Result<(), AllocError> {
        if self.is_cert_open {
            self.cert.extend_from_slice(bytes)
        } else {
            self.script.extend_from_slice(bytes)
        }
    }

    /// Appends a text and what ends it.
    fn put_text(&mut self, text: &str, end: &[u8]) -> Result<bool, AllocError> {
        let mut bytes = Vec::new(self.alloc);
        let is_read = push_text(&mut bytes, text)?;
        bytes.extend_from_slice(end)?;
        self.put(bytes.as_slice())?;
        Ok(is_read)
    }

    /// Appends a text as often as is said before it.
    fn put_times(&mut self, text: &str) -> Result<bool, AllocError> {
        let Some((count, text)) = numbered(text) else {
            return Ok(false);
        };
        let mut bytes = Vec::new(self.alloc);
        let is_read = push_times(self.alloc, &mut bytes, text, count)?;
        self.put(bytes.as_slice())?;
        Ok(is_read)
    }

    fn generate(&mut self, text: &str) -> Result<bool, AllocError> {
        let Ok(size) = text.parse::<u64>() else {
            return Ok(false);
        };
        if size == 0 || size > MOST_MADE {
            return Ok(false);
        }
        self.script = make_script(self.alloc, size)?.into_vec();
        Ok(true)
    }

    fn cut_cert(&mut self, text: &str) -> Result<bool, AllocError> {
        let Ok(count) = text.parse::<usize>() else {
            return Ok(false);
        };
        self.cert = first_lines(self.alloc, self.cert.as_slice(), count)?;
        Ok(true)
    }

    /// Takes an edit, and says whether it can be read.
    pub(crate) fn edit(&mut self, edit: Edit, text: &str) -> Result<bool, AllocError> {
        match edit {
            Edit::Script => Ok(self.open(false, text)),
            Edit::Certificate => Ok(self.open(true, text)),
            Edit::Line => self.put_text(text, b"\n"),
            Edit::Part => self.put_text(text, b""),
            Edit::Times => self.put_times(text),
            Edit::Generated => self.generate(text),
            Edit::ScriptLine => change_line(self.alloc, &mut self.script, text),
            Edit::CertLine => change_line(self.alloc, &mut self.cert, text),
            Edit::CertCut => self.cut_cert(text),
        }
    }
}

/// Puts a line in the place that is said before it, and says whether it can be read and there is one.
fn change_line(alloc: Global, whole: &mut Vec<u8>, text: &str) -> Result<bool, AllocError> {
    let Some((number, text)) = numbered(text) else {
        return Ok(false);
    };
    let mut line = Vec::new(alloc);
    if !push_text(&mut line, text)? {
        return Ok(false);
    }
    match with_line(alloc, whole.as_slice(), number, line.as_slice())? {
        Some(changed) => {
            *whole = changed;
            Ok(true)
        }
        None => Ok(false),
    }
}
