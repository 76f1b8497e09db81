//! In which polynomials a variable occurs.
use crate::generators::{Generator, variables_of};
use ffc_field::Field;
use std::alloc::{AllocError, Global};
use std::collections::BTreeMap;

/// The variables of polynomials, and for each variable the polynomials in which it occurs, by place.
#[derive(Drop)]
pub struct Occurrences {
    variables: Vec<Vec<u32>>,
    places: BTreeMap<u32, Vec<usize>>,
}

impl Occurrences {
    /// Those in no polynomials. It takes no memory.
    pub fn new(alloc: Global) -> Self {
        Occurrences {
            variables: Vec::new(alloc),
            places: BTreeMap::new(alloc),
        }
    }

    /// Adds the occurrences in the next polynomial.
    pub fn add<F: Field>(&mut self, alloc: Global, poly: &Generator<F>) -> Result<(), AllocError> {
        let place = self.variables.len();
        let variables = variables_of(alloc, std::slice::from_ref(poly))?;
        for x in variables.as_slice() {
            match self.places.get_mut(x) {
                Some(places) => places.push(place)?,
                None => {
                    let mut places = Vec::new(alloc);
                    places.push(place)?;
                    self.places.insert(*x, places)?;
                }
            }
        }
        self.variables.push(variables)?;
        Ok(())
    }

    /// The variables that occur, in increasing order.
    pub fn all(&self, alloc: Global) -> Result<Vec<u32>, AllocError> {
        let mut all = Vec::new(alloc);
        for (x, _) in &self.places {
            all.push(*x)?;
        }
        Ok(all)
    }

    /// How many variables each polynomial has.
    pub fn counts(&self, alloc: Global) -> Result<Vec<usize>, AllocError> {
        let mut counts = Vec::new(alloc);
        for variables in &self.variables {
            counts.push(variables.len())?;
        }
        Ok(counts)
    }

    /// The polynomials in which a variable occurs.
    pub fn places_of(&self, x: u32) -> &[usize] {
        match self.places.get(&x) {
            Some(places) => places.as_slice(),
            None => &[],
        }
    }

    /// Appends the polynomials that share a variable with one. Each variable is followed once.
    pub fn append_neighbours(
        &mut self,
        place: usize,
        open: &mut Vec<usize>,
    ) -> Result<(), AllocError> {
        let Some(variables) = self.variables.get(place) else {
            return Ok(());
        };
        for x in variables {
            if let Some(places) = self.places.remove(x) {
                for other in places {
                    open.push(other)?;
                }
            }
        }
        Ok(())
    }
}
