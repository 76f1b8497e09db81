//! Models, and values in them.
ghost use Rattle.std.specs.Prelude.{◌≡◌, ◌<◌, ◌++◌, length, map, Some, All, IfOk, OnOk};
ghost use Rattle.std.specs.List.{flat_map};
ghost use Rattle.std.specs.Option.{option_copied};
ghost use Rattle.ffc_answer.specs.Seen.{AreAskedWithin, FitsModel, definition_head, definition_text, definition_with};
ghost use Rattle.ffc_answer.specs.Seen.{model_by, model_seen, pair_with, pairs_seen, typed_text, values_by};
ghost use Rattle.ffc_answer.specs.Seen.{values_seen};

use crate::constants::values_of;
use crate::texts::{append_error, append_line, append_list, append_sort, append_value};
use crate::view::View;
use ffc_cert::Entry;
use ffc_elab::{Asked, Declared};
use ffc_lex::{Text, symbol_text};
use ffc_term::{NodeId, NodeTable, Sort, Value};
use std::alloc::{AllocError, Global};

const NO_MODEL: &[u8] = b"no model";

/// The values that the last entry lists, where they are a model still.
fn listed_pairs<'a>(view: &View<'a>) -> Option<&'a [(u32, u64)]>
    ensures { option_copied result ≡ pairs_seen view.now }
{
    match view.last {
        Some(Entry::Sat(pairs)) if view.fresh => Some(pairs.as_slice()),
        _ => None,
    }
}

/// The nodes of declared constants.
fn declared_nodes(alloc: Global, declared: &[Declared]) -> Result<Vec<NodeId>, AllocError>
    ensures { IfOk result (λ ids. ids.items ≡ map (λ d. d.node) declared.now) }
{
    let mut ids = Vec::new(alloc);
    for constant in declared {
        ids.push(constant.node)?;
    }
    Ok(ids)
}

/// The nodes of terms that are asked for.
fn asked_nodes(alloc: Global, asked: &[Asked]) -> Result<Vec<NodeId>, AllocError>
    ensures { IfOk result (λ ids. ids.items ≡ map (λ a. a.node) asked.now) }
{
    let mut ids = Vec::new(alloc);
    for term in asked {
        ids.push(term.node)?;
    }
    Ok(ids)
}

/// Appends a sort, and a value of it.
#[tactic(auto, unfolding(crate::specs::Seen::typed_text))]
fn append_typed(sort: Sort, value: Value, out: &mut Vec<u8>) -> Result<(), AllocError>
    ensures { OnOk result (out.new.items ≡ out.old.items ++ typed_text sort value) }
{
    append_sort(sort, out)?;
    out.push(b' ')?;
    append_value(sort, value, out)
}

/// Appends how a definition of a constant begins.
#[tactic(auto, unfolding(crate::specs::Seen::definition_head))]
fn append_definition_head(name: &[u8], out: &mut Vec<u8>) -> Result<(), AllocError>
    ensures { OnOk result (out.new.items ≡ out.old.items ++ definition_head name.now) }
{
    out.extend_from_slice(b"(define-fun ")?;
    out.extend_from_slice(name)?;
    out.extend_from_slice(b" () ")
}

/// Appends the line that defines a name as a value.
fn append_definition_line(
    name: &[u8],
    sort: Sort,
    value: Value,
    out: &mut Vec<u8>,
) -> Result<(), AllocError>
    ensures { OnOk result (out.new.items ≡ out.old.items ++ definition_text name.now sort value) }
{
    append_definition_head(name, out)?;
    append_typed(sort, value, out)?;
    out.extend_from_slice(b")\n")
}

/// Appends the definition of a constant as its value.
#[tactic(auto, unfolding(crate::specs::Seen::definition_with))]
fn append_definition(
    alloc: Global,
    constant: &Declared,
    values: &[Value],
    out: &mut Vec<u8>,
) -> Result<(), AllocError>
    requires { constant.now.node < length values.now }
    ensures { OnOk result (out.new.items ≡ out.old.items ++ definition_with values.now constant.now) }
{
    let name = symbol_text(alloc, constant.name.bytes())?;
    let value = values[constant.node as usize];
    append_definition_line(name.bytes(), constant.sort, value, out)
}

fn append_definitions(
    alloc: Global,
    declared: &[Declared],
    values: &[Value],
    out: &mut Vec<u8>,
) -> Result<(), AllocError>
    requires { All (λ d. d.node < length values.now) declared.now }
    ensures { OnOk result (out.new.items ≡ out.old.items ++ flat_map (definition_with values.now) declared.now) }
{
    for constant in declared {
        append_definition(alloc, constant, values, out)?;
    }
    Ok(())
}

/// Appends the model that lists these values.
fn append_listed_model(
    alloc: Global,
    table: &NodeTable,
    declared: &[Declared],
    pairs: &[(u32, u64)],
    out: &mut Vec<u8>,
) -> Result<(), AllocError>
    requires declared { All (λ d. d.node < length table.now) declared.now }
    requires pairs { All (λ p. p.0 < length table.now) pairs.now }
    ensures { OnOk result (out.new.items ≡ out.old.items ++ model_by table.now declared.now (Some pairs.now)) }
{
    let ids = declared_nodes(alloc, declared)?;
    let values = values_of(alloc, table, ids.as_slice(), pairs)?;
    append_line(b"(", out)?;
    append_definitions(alloc, declared, values.as_slice(), out)?;
    append_line(b")", out)
}

/// Appends the definitions of all constants in scope, where there is a model.
pub(crate) fn append_model(alloc: Global, view: &View, out: &mut Vec<u8>) -> Result<(), AllocError>
    requires { FitsModel view.now }
    ensures { OnOk result (out.new.items ≡ out.old.items ++ model_seen view.now) }
{
    match listed_pairs(view) {
        None => append_error(NO_MODEL, out),
        Some(pairs) => {
            let context = view.context;
            append_listed_model(alloc, context.table(), context.declared(), pairs, out)
        }
    }
}

/// A term as written, and its value.
fn pair_text(
    alloc: Global,
    table: &NodeTable,
    term: &Asked,
    values: &[Value],
) -> Result<Text, AllocError>
    requires within { term.now.node < length table.now }
    requires long { length values.now ≡ length table.now }
    ensures { IfOk result (λ text. text ≡ pair_with table.now values.now term.now) }
{
    let mut bytes = Vec::new(alloc);
    bytes.push(b'(')?;
    bytes.extend_from_slice(term.text.bytes())?;
    bytes.push(b' ')?;
    append_value(
        table.sort_of(term.node),
        values[term.node as usize],
        &mut bytes,
    )?;
    bytes.push(b')')?;
    Ok(Text::from_vec(bytes))
}

fn pair_texts(
    alloc: Global,
    table: &NodeTable,
    asked: &[Asked],
    values: &[Value],
) -> Result<Vec<Text>, AllocError>
    requires within { All (λ a. a.node < length table.now) asked.now }
    requires long { length values.now ≡ length table.now }
    ensures { IfOk result (λ texts. texts.items ≡ map (pair_with table.now values.now) asked.now) }
{
    let mut texts = Vec::new(alloc);
    for term in asked {
        texts.push(pair_text(alloc, table, term, values)?)?;
    }
    Ok(texts)
}

/// Appends the values of these terms in the model that lists these values.
fn append_listed_values(
    alloc: Global,
    table: &NodeTable,
    asked: &[Asked],
    pairs: &[(u32, u64)],
    out: &mut Vec<u8>,
) -> Result<(), AllocError>
    requires asked { All (λ a. a.node < length table.now) asked.now }
    requires pairs { All (λ p. p.0 < length table.now) pairs.now }
    ensures { OnOk result (out.new.items ≡ out.old.items ++ values_by table.now asked.now (Some pairs.now)) }
{
    let ids = asked_nodes(alloc, asked)?;
    let values = values_of(alloc, table, ids.as_slice(), pairs)?;
    let texts = pair_texts(alloc, table, asked, values.as_slice())?;
    append_list(texts.as_slice(), out)
}

/// Appends the values of these terms, where there is a model.
pub(crate) fn append_values(
    alloc: Global,
    view: &View,
    asked: &[Asked],
    out: &mut Vec<u8>,
) -> Result<(), AllocError>
    requires asked { AreAskedWithin view.now asked.now }
    requires model { FitsModel view.now }
    ensures { OnOk result (out.new.items ≡ out.old.items ++ values_seen view.now asked.now) }
{
    match listed_pairs(view) {
        None => append_error(NO_MODEL, out),
        Some(pairs) => append_listed_values(alloc, view.context.table(), asked, pairs, out),
    }
}
