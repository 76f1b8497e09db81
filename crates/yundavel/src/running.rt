//! A run: the arguments, what is read and written by name, and the report.
use ffc_base::{FileSink, FileSource, NamedSink, NamedSource, Sink, StdSource};
use ffc_report::{
    InputStop, MOST_OF_CERT, MOST_OF_SCRIPT, Report, ReportStatus, Request, RequestStop, Task,
    complaint, may_overwrite, read_request, read_whole, report_certificate, report_script,
    status_table,
};
use std::alloc::Global;
use std::io::{self, ErrorKind};
use std::rt::{Env, Files};
use std::{env, str};

/// What a run comes to.
#[derive(Drop)]
pub enum Outcome {
    /// A text that the arguments ask for, as the help.
    Notice(String),
    /// A status, what is to be printed, and what is to be printed as an error.
    Ran {
        status: ReportStatus,
        text: Vec<u8>,
        complaint: Vec<u8>,
    },
}

/// A run that ends with a status, and with this as an error.
fn ended(alloc: Global, status: ReportStatus, complaint: Vec<u8>) -> Outcome {
    Outcome::Ran {
        status,
        text: Vec::new(alloc),
        complaint,
    }
}

/// A run that stopped with a status.
fn stopped(alloc: Global, status: ReportStatus) -> Outcome {
    ended(alloc, status, complaint(alloc, status))
}

/// A run that stopped with a status, for a cause that is given.
fn stopped_for(alloc: Global, status: ReportStatus, name: &str, cause: &str) -> Outcome {
    let sentence = status.sentence();
    match format!(in alloc; "yundavel: {sentence}: {name}: {cause}\n") {
        Ok(text) => ended(alloc, status, text.into_bytes()),
        Err(_) => stopped(alloc, ReportStatus::Memory),
    }
}

/// The status of a reading that stopped, where the outside failed with this one.
fn status_of(stop: InputStop, failed: ReportStatus) -> ReportStatus {
    match stop {
        InputStop::Failed => failed,
        InputStop::Memory => ReportStatus::Memory,
    }
}

/// Reads a file whole, or up to so many bytes.
fn read_file<R: Files + AllocGlobal>(
    rt: &R,
    name: &str,
    most: usize,
) -> Result<Vec<u8>, InputStop> {
    let mut file = FileSource::new(rt);
    if file.open_named(name).is_err() {
        return Err(InputStop::Failed);
    }
    read_whole(rt.alloc(), &mut file, most)
}

/// Reads the script.
fn read_script<R: Files + Input + AllocGlobal>(rt: &R, name: &str) -> Result<Vec<u8>, InputStop> {
    if name == "-" {
        let mut source = StdSource::new(rt.reader());
        return read_whole(rt.alloc(), &mut source, MOST_OF_SCRIPT);
    }
    read_file(rt, name, MOST_OF_SCRIPT)
}

/// Why the certificate may not be written under a name, if it may not: it is the script's, or that of a file with other contents.
fn refusal_of_name<R: Files + AllocGlobal>(
    rt: &R,
    name: &str,
    script: &str,
) -> Option<&'static str> {
    if name == script {
        return Some("is the script");
    }
    let mut file = FileSource::new(rt);
    if file.open_named(name).is_err() {
        return None;
    }
    match may_overwrite(rt.alloc(), &mut file) {
        Ok(true) => None,
        Ok(false) => Some("is there, and is no certificate"),
        Err(_) => Some("is there, and cannot be read"),
    }
}

/// Writes the certificate under a name, and says whether all of it is written.
fn write_certificate<R: Files>(rt: &R, name: &str, certificate: &[u8]) -> bool {
    let mut sink = FileSink::new(rt);
    sink.create(name).is_ok() && sink.write(certificate).is_ok()
}

/// What the report comes to, once the certificate is written where the arguments ask for that.
fn finished<R: Files + AllocGlobal>(rt: &R, request: &Request<'_>, report: Report) -> Outcome {
    let Report {
        status,
        text,
        complaint,
        certificate,
    } = report;
    let is_accepted = matches!(status, ReportStatus::Decided | ReportStatus::Undecided);
    if let Some(name) = request.cert {
        if is_accepted && !write_certificate(rt, name, certificate.as_slice()) {
            return stopped_for(rt.alloc(), ReportStatus::CertFault, name, "not written");
        }
    }
    let text = if request.is_quiet {
        Vec::new(rt.alloc())
    } else {
        text
    };
    Outcome::Ran {
        status,
        text,
        complaint,
    }
}

/// What is asked of the library.
fn task_of<'a>(request: &Request<'a>) -> Task<'a> {
    Task {
        script_name: if request.script == "-" {
            "<stdin>"
        } else {
            request.script
        },
        cert_name: match request.judge {
            Some(name) => name,
            None => "certificate",
        },
        steps: request.steps,
        bits: request.bits,
        explains: request.explains,
    }
}

/// Does what the arguments ask for.
fn run<R: Files + Input + AllocGlobal>(rt: &R, request: &Request<'_>) -> Outcome {
    let alloc = rt.alloc();
    if let Some(name) = request.cert {
        if let Some(cause) = refusal_of_name(rt, name, request.script) {
            return stopped_for(alloc, ReportStatus::Usage, name, cause);
        }
    }
    let script = match read_script(rt, request.script) {
        Ok(script) => script,
        Err(stop) => {
            let status = status_of(stop, ReportStatus::ReadFault);
            return stopped_for(alloc, status, request.script, "not read");
        }
    };
    let task = task_of(request);
    let Some(name) = request.judge else {
        return finished(rt, request, report_script(alloc, &task, script.as_slice()));
    };
    match read_file(rt, name, MOST_OF_CERT) {
        Ok(certificate) => {
            let given = report_certificate(alloc, &task, script.as_slice(), certificate);
            finished(rt, request, given)
        }
        Err(stop) => {
            let status = status_of(stop, ReportStatus::CheckCertFault);
            stopped_for(alloc, status, name, "not read")
        }
    }
}

/// Runs with these arguments, the program's name first.
fn run_with<R: Files + Input + AllocGlobal>(rt: &R, words: &[&str]) -> Outcome {
    let alloc = rt.alloc();
    let Ok(table) = status_table(alloc) else {
        return stopped(alloc, ReportStatus::Memory);
    };
    let after = str::from_utf8(table.as_slice()).unwrap_or("");
    match read_request(alloc, words, after) {
        Ok(request) => run(rt, &request),
        Err(RequestStop::Memory) => stopped(alloc, ReportStatus::Memory),
        Err(RequestStop::Notice(notice)) => {
            if notice.is_error {
                ended(alloc, ReportStatus::Usage, notice.text.into_bytes())
            } else {
                Outcome::Notice(notice.text)
            }
        }
    }
}

/// The arguments, the program's name first.
fn words_of<R: Env + AllocGlobal>(rt: &R) -> io::Result<Vec<String>> {
    let words = env::args(rt)?.collect(rt.alloc())?;
    Ok(words)
}

/// Runs with the arguments of the command line.
pub fn run_with_words<R: Files + Env + Input + AllocGlobal>(rt: &R) -> Outcome {
    let alloc = rt.alloc();
    let words = match words_of(rt) {
        Ok(words) => words,
        Err(error) if error.kind() == ErrorKind::OutOfMemory => {
            return stopped(alloc, ReportStatus::Memory);
        }
        Err(_) => return stopped(alloc, ReportStatus::Usage),
    };
    match words
        .iter()
        .map(|word| word.as_str())
        .collect::<Vec<&str>>(alloc)
    {
        Ok(words) => run_with(rt, words.as_slice()),
        Err(_) => stopped(alloc, ReportStatus::Memory),
    }
}
