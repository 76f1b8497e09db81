//! Parts of answers.
ghost use Rattle.std.specs.Prelude.{◌≡◌, ◌∷◌, [], ◌++◌, codes, decimal, OnOk};
ghost use Rattle.ffc_answer.specs.Answers.{error_answer, line, listed, sort_text, spaced};
ghost use Rattle.ffc_answer.specs.Seen.{printed};
ghost use Rattle.ffc_elab.specs.Answers.{truth_text};

use ffc_lex::Text;
use ffc_term::{Sort, Value};
use itoa::Buffer;
use std::alloc::AllocError;

/// Appends a number in decimal.
pub(crate) fn append_number(n: u64, out: &mut Vec<u8>) -> Result<(), AllocError>
    ensures { OnOk result (out.new.items ≡ out.old.items ++ decimal n) }
{
    let mut buffer = Buffer::new();
    out.extend_from_slice(buffer.format(n).as_bytes())
}

/// Appends a line.
pub(crate) fn append_line(text: &[u8], out: &mut Vec<u8>) -> Result<(), AllocError>
    ensures { OnOk result (out.new.items ≡ out.old.items ++ line text.now) }
{
    out.extend_from_slice(text)?;
    out.push(b'\n')?;
    Ok(())
}

/// Appends the line that says that something is not there.
pub(crate) fn append_error(message: &[u8], out: &mut Vec<u8>) -> Result<(), AllocError>
    ensures { OnOk result (out.new.items ≡ out.old.items ++ error_answer message.now) }
{
    out.extend_from_slice(b"(error \"")?;
    out.extend_from_slice(message)?;
    out.extend_from_slice(b"\")\n")
}

pub(crate) fn append_sort(sort: Sort, out: &mut Vec<u8>) -> Result<(), AllocError>
    ensures { OnOk result (out.new.items ≡ out.old.items ++ sort_text sort) }
{
    match sort {
        Sort::Bool => out.extend_from_slice(b"Bool"),
        Sort::Field(order) => {
            out.extend_from_slice(b"(_ FiniteField ")?;
            append_number(order, out)?;
            out.push(b')')?;
            Ok(())
        }
    }
}

fn append_truth(truth: bool, out: &mut Vec<u8>) -> Result<(), AllocError>
    ensures { OnOk result (out.new.items ≡ out.old.items ++ truth_text truth) }
{
    if truth {
        out.extend_from_slice(b"true")
    } else {
        out.extend_from_slice(b"false")
    }
}

/// Appends a value of a sort. A residue is written as a constant of its field.
pub(crate) fn append_value(sort: Sort, value: Value, out: &mut Vec<u8>) -> Result<(), AllocError>
    ensures { OnOk result (out.new.items ≡ out.old.items ++ printed sort value) }
{
    match sort {
        Sort::Bool => append_truth(value.truth(), out),
        Sort::Field(_) => {
            out.extend_from_slice(b"(as ff")?;
            append_number(value.residue(), out)?;
            out.push(b' ')?;
            append_sort(sort, out)?;
            out.push(b')')?;
            Ok(())
        }
    }
}

/// Appends texts, a space between two of them.
fn append_spaced(texts: &[Text], out: &mut Vec<u8>) -> Result<(), AllocError>
    ensures { OnOk result (out.new.items ≡ out.old.items ++ spaced texts.now) }
{
    for (i, text) in texts.iter().enumerate() {
        if i > 0 {
            out.push(b' ')?;
        }
        out.extend_from_slice(text.bytes())?;
    }
    Ok(())
}

/// Appends the line of a list.
pub(crate) fn append_list(texts: &[Text], out: &mut Vec<u8>) -> Result<(), AllocError>
    ensures { OnOk result (out.new.items ≡ out.old.items ++ listed texts.now) }
{
    out.push(b'(')?;
    append_spaced(texts, out)?;
    out.extend_from_slice(b")\n")
}
