//! Names and what they mean, the last ones first.
ghost use Rattle.std.specs.Prelude.{◌≡◌, ◌<◌, ◌≤◌, ℕ, ◌∷◌, [], List, length, drop, OnOk, OnErr, Some, None};
ghost use Rattle.std.specs.Prelude.{MatchOption, IfOk, option_map, if◌then◌else◌, is_some, IfSome, IfNone, ◌-◌};
ghost use Rattle.std.specs.Option.{option_copied};
ghost use Rattle.std.specs.Str.{bytes_eq};
ghost use Rattle.ffc_smt.specs.Meaning.{found};
ghost use Rattle.ffc_terms.specs.Slots.{at_slot, indexed, slot_of, with_last};

use std::alloc::{AllocError, Global};
use std::collections::BTreeMap;
use std::marker::Model;

/// A name with its value, and the place of the name that it hides.
#[derive(Drop)]
struct Entry<V> {
    name: Vec<u8>,
    value: V,
    hidden: Option<usize>,
}

/// Names with their values, which come and go in last-in, first-out order. A name may hide an earlier one that is the same.
///
/// A look-up takes one look-up in an ordered map; to add or to drop a name takes one or two.
#[derive(Drop)]
pub struct Names<V> {
    entries: Vec<Entry<V>>,
    index: BTreeMap<Vec<u8>, usize>,
}

impl<V> Model for Names<V> {
    ghost use Rattle.std.specs.Prelude.{List, ℕ};
    ghost use Rattle.ffc_terms.specs.Slots.{env_of, IsIndex};

    ghost Value = { List (List ℕ × V) };

    ghost view = { λ n. env_of n.entries.items };

    ghost invariant = { λ n. IsIndex n.entries.items n.index };
}

/// Gives a name this place.
fn set(index: &mut BTreeMap<Vec<u8>, usize>, name: Vec<u8>, slot: usize) -> Result<(), AllocError>
    ensures ok { OnOk result ((other : List ℕ) → indexed index.new other
        ≡ (if bytes_eq name.items other then Some slot else indexed index.old other)) }
    ensures err { OnErr result ((other : List ℕ) → indexed index.new other ≡ indexed index.old other) }
{
    index.insert(name, slot)?;
    Ok(())
}

/// Gives a name that has a place this one, or takes its place away.
fn set_back(index: &mut BTreeMap<Vec<u8>, usize>, name: &[u8], slot: Option<usize>)
    ensures { (other : List ℕ) → indexed index.new other
        ≡ (if bytes_eq name.now other then (if is_some (indexed index.old name.now) then slot else None) else indexed
        index.old other) }
{
    match slot {
        None => {
            let _ = index.remove(name);
        }
        Some(earlier) => {
            if let Some(place) = index.get_mut(name) {
                *place = earlier;
            }
        }
    }
}

impl<V: Drop> Names<V> {
    /// No names. It takes no memory.
    pub fn new(alloc: Global) -> Names<V>
        ensures { result ≡ [] }
    {
        Names {
            entries: Vec::new(alloc),
            index: BTreeMap::new(alloc),
        }
    }

    pub fn len(&self) -> usize
        ensures { result ≡ length self.now }
    {
        self.entries.len()
    }

    /// The place of a name, the last one where it occurs more than once.
    pub fn find(&self, name: &[u8]) -> Option<usize>
        ensures { result ≡ slot_of self.now name.now }
    {
        self.index.get(name).copied()
    }

    /// What the name at a place means.
    pub fn value(&self, slot: usize) -> &V
        requires { slot < length self.now }
        ensures { option_map (λ x. x.1) (at_slot self.now slot) ≡ Some result.now }
    {
        &self.entries[slot].value
    }

    /// The place of a name, and what it means.
    pub fn locate(&self, name: &[u8]) -> Option<(usize, &V)>
        ensures place { option_map (λ x. x.0) result ≡ slot_of self.now name.now }
        ensures value { option_map (λ x. x.1.now) result ≡ found self.now name.now }
    {
        match self.find(name) {
            Some(slot) => Some((slot, self.value(slot))),
            None => None,
        }
    }

    /// What a name means.
    pub fn get(&self, name: &[u8]) -> Option<&V>
        ensures { option_copied result ≡ found self.now name.now }
    {
        match self.locate(name) {
            Some((_, value)) => Some(value),
            None => None,
        }
    }

    /// Adds a name, which hides an earlier one that is the same.
    pub fn push(&mut self, alloc: Global, name: Vec<u8>, value: V) -> Result<(), AllocError>
        ensures ok { OnOk result (self.new ≡ (name.items, value) ∷ self.old) }
        ensures err { OnErr result (self.new ≡ self.old) }
    {
        let slot = self.entries.len();
        let key = Vec::from_slice(alloc, &name)?;
        let hidden = self.index.get(name.as_slice()).copied();
        self.entries.push(Entry {
            name,
            value,
            hidden,
        })?;
        match set(&mut self.index, key, slot) {
            Ok(()) => Ok(()),
            Err(error) => {
                let _ = self.entries.pop();
                Err(error)
            }
        }
    }

    /// Gives the last name, if there is one, this value.
    pub fn set_last(&mut self, value: V)
        ensures { self.new ≡ with_last value self.old }
    {
        let count = self.entries.len();
        if count > 0 {
            self.entries[count - 1].value = value;
        }
    }

    /// Takes the last name away.
    pub fn pop(&mut self) -> Option<(Vec<u8>, V)>
        ensures some { IfSome result (λ last. self.old ≡ (last.0.items, last.1) ∷ self.new) }
        ensures none { IfNone result ((self.old ≡ []) × (self.new ≡ [])) }
    {
        let last = self.entries.pop()?;
        let Entry {
            name,
            value,
            hidden,
        } = last;
        set_back(&mut self.index, &name, hidden);
        Some((name, value))
    }

    /// Takes the last names away, so that so many are left. It costs what it takes away.
    pub fn cut(&mut self, len: usize)
        requires { len ≤ length self.old }
        ensures { self.new ≡ drop (length self.old - len) self.old }
    {
        while self.len() > len {
            let _ = self.pop();
        }
    }
}
