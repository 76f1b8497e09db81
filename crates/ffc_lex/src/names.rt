//! Names that scripts may not take, and how a symbol is written.
ghost use Rattle.std.specs.Prelude.{◌≡◌, IfOk};
ghost use Rattle.std.specs.List.{list_any};
ghost use Rattle.std.specs.Str.{bytes_eq};
ghost use Rattle.ffc_lex.specs.Names.{is_reserved_word, is_theory_name, written_symbol};

use crate::texts::Text;
use crate::words::is_symbol;
use std::alloc::{AllocError, Global};

/// The reserved words of SMT-LIB 2.6, section 3.1, and its command names.
pub const RESERVED_WORDS: [&str; 43] = [
    "!",
    "_",
    "as",
    "BINARY",
    "DECIMAL",
    "exists",
    "HEXADECIMAL",
    "forall",
    "let",
    "match",
    "NUMERAL",
    "par",
    "STRING",
    "assert",
    "check-sat",
    "check-sat-assuming",
    "declare-const",
    "declare-datatype",
    "declare-datatypes",
    "declare-fun",
    "declare-sort",
    "define-fun",
    "define-fun-rec",
    "define-funs-rec",
    "define-sort",
    "echo",
    "exit",
    "get-assertions",
    "get-assignment",
    "get-info",
    "get-model",
    "get-option",
    "get-proof",
    "get-unsat-assumptions",
    "get-unsat-core",
    "get-value",
    "pop",
    "push",
    "reset",
    "reset-assertions",
    "set-info",
    "set-logic",
    "set-option",
];

/// The functions and constants of the core theory and of the theory of finite fields.
pub const THEORY_SYMBOLS: [&str; 14] = [
    "true",
    "false",
    "not",
    "and",
    "or",
    "xor",
    "=>",
    "=",
    "distinct",
    "ite",
    "ff.add",
    "ff.mul",
    "ff.neg",
    "ff.bitsum",
];

/// Whether a name is this word. Most words differ from it in their length already.
#[inline(always)]
#[tactic(auto, using(crate::proofs::NameLemmas::other_length))]
fn is_spelled(word: &str, name: &[u8]) -> bool
    ensures { result ≡ bytes_eq word.now name.now }
{
    let bytes = word.as_bytes();
    if bytes.len() != name.len() {
        return false;
    }
    bytes == name
}

fn is_among(words: &[&str], name: &[u8]) -> bool
    ensures { result ≡ list_any (λ word. bytes_eq word.now name.now) words.now }
{
    words.iter().any(|word| is_spelled(word, name))
}

/// Whether a name is a reserved word. A quoted symbol never is one: ask only of a symbol without bars.
pub fn is_reserved(name: &[u8]) -> bool
    ensures { result ≡ is_reserved_word name.now }
{
    is_among(&RESERVED_WORDS, name)
}

/// Whether a name is a theory's.
pub fn is_theory_symbol(name: &[u8]) -> bool
    ensures { result ≡ is_theory_name name.now }
{
    is_among(&THEORY_SYMBOLS, name)
}

/// How the symbol of this name is written: without bars where it can be.
pub fn symbol_text(alloc: Global, name: &[u8]) -> Result<Text, AllocError>
    ensures { IfOk result (λ text. text ≡ written_symbol name.now) }
{
    if is_symbol(name) && !is_reserved(name) {
        return Text::copy_of(alloc, name);
    }
    let mut bytes = Vec::new(alloc);
    bytes.push(b'|')?;
    bytes.extend_from_slice(name)?;
    bytes.push(b'|')?;
    Ok(Text::from_vec(bytes))
}
