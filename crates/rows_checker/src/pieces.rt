//! The pieces that a text is read in.
use crate::commands::{Finding, MALFORMED, numbers, say};
use std::alloc::{AllocError, Global};

/// The length of a text's first piece, and of each later one.
#[derive(Clone, Copy)]
pub(crate) struct Cut {
    pub(crate) first: usize,
    pub(crate) later: usize,
}

/// The ways to cut a text into pieces that are tried one after another.
#[derive(Drop)]
pub(crate) enum Pieces {
    /// In pieces of each of these lengths.
    Lengths(Vec<u64>),
    /// In two pieces, cut at this place.
    Two(u64),
    /// In two pieces, cut at each place.
    EachTwo,
}

#[derive(Clone, Copy)]
pub(crate) enum PiecesCommand {
    Pieces,
    Two,
    EachTwo,
}

pub(crate) const PIECES_COMMANDS: [(&str, PiecesCommand); 3] = [
    ("pieces", PiecesCommand::Pieces),
    ("cut", PiecesCommand::Two),
    ("cut-anywhere", PiecesCommand::EachTwo),
];

/// The pieces that a row names.
fn named(command: PiecesCommand, numbers: Vec<u64>) -> Option<Pieces> {
    match command {
        PiecesCommand::Pieces => Some(Pieces::Lengths(numbers)),
        PiecesCommand::Two => match numbers.as_slice() {
            [place] => Some(Pieces::Two(*place)),
            _ => None,
        },
        PiecesCommand::EachTwo => Some(Pieces::EachTwo),
    }
}

/// Says in which pieces the texts of later rows are read.
pub(crate) fn pieces_row(
    alloc: Global,
    pieces: &mut Pieces,
    command: PiecesCommand,
    rest: &str,
) -> Finding {
    let Some(numbers) = numbers(alloc, rest)? else {
        return say(alloc, MALFORMED);
    };
    match named(command, numbers) {
        Some(named) => {
            *pieces = named;
            Ok(String::new(alloc))
        }
        None => say(alloc, MALFORMED),
    }
}

fn equal_pieces(alloc: Global, lengths: &[u64]) -> Result<Vec<Cut>, AllocError> {
    let mut cuts = Vec::new(alloc);
    for length in lengths {
        let length = *length as usize;
        cuts.push(Cut {
            first: length,
            later: length,
        })?;
    }
    Ok(cuts)
}

fn two_pieces(place: usize) -> Cut {
    Cut {
        first: place,
        later: usize::MAX,
    }
}

/// Where a text of so many bytes is cut, one way after another.
pub(crate) fn cuts(alloc: Global, pieces: &Pieces, length: usize) -> Result<Vec<Cut>, AllocError> {
    match pieces {
        Pieces::Lengths(lengths) => equal_pieces(alloc, lengths),
        Pieces::Two(place) => Vec::from_slice(alloc, &[two_pieces(*place as usize)]),
        Pieces::EachTwo => (0..=length).map(two_pieces).collect(alloc),
    }
}
