//! Scripts of any size, for trying the solver.
ghost use Rattle.std.specs.Prelude.{◌≡◌, ℕ, ◌++◌, ◌<◌, ◌≤◌, string_bytes, IfOk, OnOk};
ghost use Rattle.ffc_solve.specs.Generated.{made_text, step_text, tail_text};

use ffc_lex::Text;
use std::alloc::{AllocError, Global};

/// The lines before the first step.
const HEAD: &str =
    "(set-logic QF_FF)\n(define-sort F () (_ FiniteField 18446744069414584321))\n(declare-const x0 F)\n(assert (= x0 (as ff3 F)))\n";

/// Appends the lines of a step.
fn push_step(text: &mut String, i: u64) -> Result<(), AllocError>
    requires some { 0 < i }
    ensures { OnOk result (string_bytes text.new ≡ string_bytes text.old ++ step_text i) }
{
    let j = i - 1;
    write!(text, "(declare-const x{i} F)\n")?;
    write!(
        text,
        "(assert (= x{i} (ff.add (ff.mul x{j} x{j}) (as ff{i} F))))\n"
    )?;
    Ok(())
}

/// Appends the lines after the last step.
fn push_tail(text: &mut String, n: u64) -> Result<(), AllocError>
    requires some { 0 < n }
    ensures { OnOk result (string_bytes text.new ≡ string_bytes text.old ++ tail_text n) }
{
    let m = n - 1;
    text.push_str("(check-sat)\n(push 1)\n(declare-const y F)\n")?;
    write!(
        text,
        "(assert (= y (ff.add (ff.mul x{m} x{m}) (as ff{n} F))))\n"
    )?;
    write!(text, "(assert (distinct y x{n}))\n")?;
    text.push_str("(check-sat)\n(pop 1)\n(check-sat)\n")?;
    Ok(())
}

/// A script of this size: a chain of so many products, and the question whether its last value is determined.
pub fn make_script(alloc: Global, n: u64) -> Result<Text, AllocError>
    requires some { 0 < n }
    requires few { n ≤ 10000 }
    ensures { IfOk result (λ text. text ≡ made_text n) }
{
    let mut text = String::from_str(alloc, HEAD)?;
    for i in 0..n {
        push_step(&mut text, i + 1)?;
    }
    push_tail(&mut text, n)?;
    Ok(Text::from_vec(text.into_bytes()))
}
