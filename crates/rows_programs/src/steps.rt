//! The steps of a row, by their first words.

/// A step that adds to a text or changes it.
#[derive(Clone, Copy)]
pub(crate) enum Edit {
    Script,
    Certificate,
    Line,
    Part,
    Times,
    Generated,
    ScriptLine,
    CertLine,
    CertCut,
}

impl Edit {
    /// Whether it is a text to add, once.
    pub(crate) fn is_text(self) -> bool {
        matches!(self, Edit::Line | Edit::Part)
    }
}

/// An object that a run reads or writes.
#[derive(Clone, Copy)]
pub(crate) enum Object {
    Script,
    Cert,
    Out,
}

/// A step that says how an object differs from a plain one.
#[derive(Clone, Copy)]
pub(crate) enum Setting {
    ScriptPiece,
    CertPiece,
    Fails(Object),
}

#[derive(Clone, Copy)]
pub(crate) enum Program {
    Solver,
    Checker,
}

/// A step that has no words after its first one.
#[derive(Clone, Copy)]
pub(crate) enum Show {
    Cert,
    Sums,
    Faults,
    NoOut,
}

/// Where a text is looked for.
#[derive(Clone, Copy)]
pub(crate) enum Place {
    Out,
    Cert,
}

#[derive(Clone, Copy)]
pub(crate) enum Step {
    Note,
    Row,
    Also,
    Edit(Edit),
    Setting(Setting),
    Run(Program),
    Show(Show),
    Find(Place),
}

const STEPS: [(&str, Step); 25] = [
    ("#", Step::Note),
    ("row", Step::Row),
    ("also", Step::Also),
    ("script", Step::Edit(Edit::Script)),
    ("certificate", Step::Edit(Edit::Certificate)),
    ("|", Step::Edit(Edit::Line)),
    ("+", Step::Edit(Edit::Part)),
    ("*", Step::Edit(Edit::Times)),
    ("generated", Step::Edit(Edit::Generated)),
    ("script-line", Step::Edit(Edit::ScriptLine)),
    ("cert-line", Step::Edit(Edit::CertLine)),
    ("cert-cut", Step::Edit(Edit::CertCut)),
    ("script-piece", Step::Setting(Setting::ScriptPiece)),
    ("cert-piece", Step::Setting(Setting::CertPiece)),
    (
        "script-fails",
        Step::Setting(Setting::Fails(Object::Script)),
    ),
    ("cert-fails", Step::Setting(Setting::Fails(Object::Cert))),
    ("out-fails", Step::Setting(Setting::Fails(Object::Out))),
    ("ffsolve", Step::Run(Program::Solver)),
    ("ffcheck", Step::Run(Program::Checker)),
    ("show-cert", Step::Show(Show::Cert)),
    ("show-sums", Step::Show(Show::Sums)),
    ("show-faults", Step::Show(Show::Faults)),
    ("hide-out", Step::Show(Show::NoOut)),
    ("out-has", Step::Find(Place::Out)),
    ("cert-has", Step::Find(Place::Cert)),
];

/// The step of a first word.
pub(crate) fn step_of(word: &str) -> Option<Step> {
    for (known, step) in STEPS {
        if known == word {
            return Some(step);
        }
    }
    None
}

/// A first word, and what follows it after a space.
pub(crate) fn halves(line: &str) -> (&str, &str) {
    match line.split_once(' ') {
        Some(parts) => parts,
        None => (line, ""),
    }
}

/// A number, and what follows it after a space.
pub(crate) fn numbered(text: &str) -> Option<(usize, &str)> {
    let (number, rest) = halves(text);
    Some((number.parse::<usize>().ok()?, rest))
}
