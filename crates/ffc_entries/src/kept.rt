//! Lemmas that are kept from one check to the next.
use crate::lemma::{Lemma, listed};
use crate::origin::Origin;
use ffc_cdcl::{Lit, Literals};
use ffc_cert::{CertLine, Literal, Sequence};
use ffc_mirror::{Mirror, Naming, relisted, renamed_all};
use ffc_term::NodeId;
use std::alloc::{AllocError, Global};
use std::collections::BTreeMap;

/// Of each search lemmas are kept until their trees have so many lines: later ones would take memory and time of all checks after
/// it, and most say little more.
const MOST_LINES: usize = 16_384;

/// A lemma over the nodes of the table that checks share. The variables of its tree from a number on are inverses.
#[derive(Drop)]
struct Kept {
    order: u64,
    lits: Sequence<Literal>,
    tree: Vec<CertLine>,
    first_inverse: u32,
}

/// The lemmas of all checks so far, in the numbers of the table that these share, by the newest node of their literals.
#[derive(Drop)]
pub struct KeptLemmas {
    alloc: Global,
    lemmas: Vec<Kept>,
    places: BTreeMap<NodeId, Vec<usize>>,
}

/// Literals of a certificate as those of a solver.
fn literals(alloc: Global, lits: &[Literal]) -> Result<Literals, AllocError> {
    let mut made = Literals::new(alloc);
    for literal in lits {
        made.push(Lit {
            node: literal.1,
            positive: literal.0,
        })?;
    }
    Ok(made)
}

/// The newest of the nodes of literals, of which a check without it needs no lemma over them.
fn newest(lits: &[Literal]) -> NodeId {
    let mut newest = 0;
    for literal in lits {
        newest = newest.max(literal.1);
    }
    newest
}

impl KeptLemmas {
    /// No lemmas. It takes no memory.
    pub fn new(alloc: Global) -> KeptLemmas {
        KeptLemmas {
            alloc,
            lemmas: Vec::new(alloc),
            places: BTreeMap::new(alloc),
        }
    }

    /// Drops all.
    pub fn clear(&mut self) {
        self.lemmas = Vec::new(self.alloc);
        self.places = BTreeMap::new(self.alloc);
    }

    /// Lists the lemma of a place by a node.
    fn list(&mut self, node: NodeId, place: usize) -> Result<(), AllocError> {
        match self.places.get_mut(&node) {
            Some(places) => places.push(place)?,
            None => {
                let mut places = Vec::new(self.alloc);
                places.push(place)?;
                self.places.insert(node, places)?;
            }
        }
        Ok(())
    }

    /// Keeps a lemma over copies of the nodes of a table that has so many.
    fn keep(&mut self, lemma: &Lemma, mirror: &Mirror, nodes: u32) -> Result<(), AllocError> {
        let outside = mirror.outside(nodes);
        let own = listed(self.alloc, lemma.lits.as_slice())?;
        let lits = relisted(self.alloc, &outside, own.as_slice())?;
        let tree = renamed_all(self.alloc, &outside, lemma.tree.as_slice())?;
        if let (Some(lits), Some(tree)) = (lits, tree) {
            let place = self.lemmas.len();
            let newest = newest(lits.as_slice());
            self.lemmas.push(Kept {
                order: lemma.order,
                lits,
                tree,
                first_inverse: nodes,
            })?;
            self.list(newest, place)?;
        }
        Ok(())
    }

    /// Keeps those of these clauses that are lemmas over copies of the nodes of a table that has so many, up to a bound.
    pub fn keep_all(
        &mut self,
        origins: &[Origin],
        mirror: &Mirror,
        nodes: u32,
    ) -> Result<(), AllocError> {
        let mut lines = 0usize;
        for origin in origins {
            if lines >= MOST_LINES {
                break;
            }
            if let Origin::Lemma(lemma) = origin {
                lines = lines.saturating_add(lemma.tree.len());
                self.keep(lemma, mirror, nodes)?;
            }
        }
        Ok(())
    }

    /// Appends the clauses over copies of the lemmas that are listed by a node, each with its place, where all their nodes have
    /// copies.
    fn append_over(
        &self,
        node: NodeId,
        mirror: &Mirror,
        found: &mut Vec<(usize, Literals)>,
    ) -> Result<(), AllocError> {
        let Some(places) = self.places.get(&node) else {
            return Ok(());
        };
        for place in places {
            if let Some(kept) = self.lemmas.get(*place) {
                let inside = mirror.inside(kept.first_inverse);
                if let Some(lits) = relisted(self.alloc, &inside, kept.lits.as_slice())? {
                    found.push((*place, literals(self.alloc, lits.as_slice())?))?;
                }
            }
        }
        Ok(())
    }

    /// The clauses over copies of the lemmas whose nodes all have copies, each with its place.
    pub fn over(&self, mirror: &Mirror) -> Result<Vec<(usize, Literals)>, AllocError> {
        let mut found = Vec::new(self.alloc);
        for node in mirror.nodes() {
            self.append_over(*node, mirror, &mut found)?;
        }
        Ok(found)
    }

    /// The lemma of a place over copies; none where a node has no copy.
    pub fn lemma(&self, place: usize, mirror: &Mirror) -> Result<Option<Lemma>, AllocError> {
        let Some(kept) = self.lemmas.get(place) else {
            return Ok(None);
        };
        let inside = mirror.inside(kept.first_inverse);
        let lits = relisted(self.alloc, &inside, kept.lits.as_slice())?;
        let tree = renamed_all(self.alloc, &inside, kept.tree.as_slice())?;
        match (lits, tree) {
            (Some(lits), Some(tree)) => Ok(Some(Lemma {
                order: kept.order,
                lits: literals(self.alloc, lits.as_slice())?,
                tree,
            })),
            _ => Ok(None),
        }
    }
}
