//! The rows of one file, one after another.
use crate::checks::{Asserted, CHECK_COMMANDS, assert_row, check_row};
use crate::commands::{Finding, MALFORMED, command_of, say, split_row};
use crate::lexing::{LEXER_COMMANDS, OpenLexer, lexer_row};
use crate::nodes::{KINDS, node_row};
use crate::pieces::{PIECES_COMMANDS, Pieces, pieces_row};
use crate::polynomials::{POLY_COMMANDS, poly_row};
use crate::queries::{QUERIES, query_row, values_row};
use crate::reading::{READ_COMMANDS, read_row};
use crate::scripts::{SCRIPT_COMMANDS, script_row};
use crate::texts::{TEXT_COMMANDS, text_row};
use ffc_ckpoly::CkPoly;
use ffc_elab::Context;
use ffc_field::F5;
use ffc_term::{Assignment, NodeTable};
use std::alloc::{AllocError, Global};

/// What the rows of a file have built up.
#[derive(Drop)]
pub(crate) struct Built {
    /// The text of the rows since the last empty one.
    text: Vec<u8>,
    pieces: Pieces,
    lexer: OpenLexer,
    context: Context,
    table: NodeTable,
    values: Assignment,
    asserted: Asserted,
    polys: Vec<CkPoly<F5>>,
}

impl Built {
    pub(crate) fn new(alloc: Global) -> Result<Built, AllocError> {
        Ok(Built {
            text: Vec::new(alloc),
            pieces: Pieces::EachTwo,
            lexer: OpenLexer::new(alloc),
            context: Context::new(alloc)?,
            table: NodeTable::new(alloc)?,
            values: Assignment::new(Vec::new(alloc)),
            asserted: Asserted::none(alloc),
            polys: Vec::new(alloc),
        })
    }

    /// Takes a row about texts and scripts, where its name is that of one.
    fn text_row(&mut self, alloc: Global, name: &str, rest: &str) -> Option<Finding> {
        if let Some(command) = command_of(&TEXT_COMMANDS, name) {
            return Some(text_row(alloc, &mut self.text, command, rest));
        }
        if let Some(command) = command_of(&PIECES_COMMANDS, name) {
            return Some(pieces_row(alloc, &mut self.pieces, command, rest));
        }
        if let Some(command) = command_of(&READ_COMMANDS, name) {
            return Some(read_row(alloc, command, &self.text, &self.pieces, rest));
        }
        if let Some(command) = command_of(&LEXER_COMMANDS, name) {
            return Some(lexer_row(alloc, &mut self.lexer, command, rest));
        }
        let command = command_of(&SCRIPT_COMMANDS, name)?;
        Some(script_row(alloc, &mut self.context, command, rest))
    }

    /// Takes a row about nodes and checks, where its name is that of one.
    fn node_row(&mut self, alloc: Global, name: &str, rest: &str) -> Option<Finding> {
        if let Some(kind) = command_of(&KINDS, name) {
            return Some(node_row(alloc, &mut self.table, kind, rest));
        }
        if let Some(query) = command_of(&QUERIES, name) {
            return Some(query_row(alloc, &mut self.table, &self.values, query, rest));
        }
        if let Some(command) = command_of(&POLY_COMMANDS, name) {
            return Some(poly_row(alloc, &self.table, &mut self.polys, command, rest));
        }
        let command = command_of(&CHECK_COMMANDS, name)?;
        Some(check_row(
            alloc,
            &self.table,
            &self.asserted,
            &self.text,
            command,
            rest,
        ))
    }

    /// Takes a row that sets something for later ones.
    fn setting_row(&mut self, alloc: Global, name: &str, rest: &str) -> Finding {
        match name {
            "" => self.text = Vec::new(alloc),
            "nodes" => self.table = NodeTable::new(alloc)?,
            "values" => return values_row(alloc, &mut self.values, rest),
            "check" => return assert_row(alloc, &mut self.asserted, rest),
            _ => return say(alloc, MALFORMED),
        }
        Ok(String::new(alloc))
    }

    /// Does what a row says, and answers what is found.
    pub(crate) fn row(&mut self, alloc: Global, row: &str) -> Finding {
        let (name, rest) = split_row(row);
        if let Some(finding) = self.text_row(alloc, name, rest) {
            return finding;
        }
        if let Some(finding) = self.node_row(alloc, name, rest) {
            return finding;
        }
        self.setting_row(alloc, name, rest)
    }
}
