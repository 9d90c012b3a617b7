// Maps whose entries are numbered.

ghost use Rattle.std.specs.Prelude.{◌≡◌, ℕ, [], length, is_some, slice_get, option_copied, OnOk, OnErr, IfOk};
ghost use Rattle.std.specs.Map.{lookup, keys_of};
ghost use Rattle.std.specs.Option.{option_map};
ghost use Rattle.ordered.specs.Order.{insert_entry};

use std::alloc::{AllocError, Global};
use std::collections::HashMap;
use std::hash::Hash;
use std::marker::Model;
use std::mem;

/// A map from keys to values. The first key has the number 0, and each key that is new the next one.
#[derive(Drop)]
pub struct OrderedMap<K: Copy + Eq + Hash, V> {
    entries: Vec<(K, V)>,
    numbers: HashMap<K, usize>,
}

impl<K: Copy + Eq + Hash, V> Model for OrderedMap<K, V> {
    ghost use Rattle.std.specs.Map.{keys_of};
    ghost use Rattle.ordered.specs.Order.{Entries, AreNumbered};

    ghost Value = { Entries K V };

    ghost view = { λ m. record { entries = m.entries.items } };

    ghost invariant = { λ m. AreNumbered K.eq (keys_of m.entries.items) m.numbers };
}

impl<K: Copy + Eq + Hash, V> OrderedMap<K, V> {
    /// No entries.
    pub fn new(alloc: Global) -> OrderedMap<K, V>
        ensures empty { result.entries ≡ [] }
    {
        OrderedMap {
            entries: Vec::new(alloc),
            numbers: HashMap::new(alloc),
        }
    }

    /// How many entries there are.
    pub fn len(&self) -> usize
        ensures len { result ≡ length self.now.entries }
    {
        self.entries.len()
    }

    /// The entry of a number.
    pub fn get_index(&self, index: usize) -> Option<(&K, &V)>
        ensures entry { option_map (λ e. (e.0.now, e.1.now)) result ≡ slice_get self.now.entries index }
    {
        let (key, value) = self.entries.get(index)?;
        Some((key, value))
    }

    /// The value of a key.
    pub fn get(&self, key: &K) -> Option<&V>
        ensures value { option_copied result ≡ lookup (K.eq key.now) self.now.entries }
    {
        match self.numbers.get(key).copied() {
            Some(number) => Some(&self.entries[number].1),
            None => None,
        }
    }

    /// Whether a key has a value.
    pub fn contains_key(&self, key: &K) -> bool
        ensures { result ≡ is_some (lookup (K.eq key.now) self.now.entries) }
    {
        self.get(key).is_some()
    }

    /// A key gets a value: the key keeps its number, or is put last if it is new. The answer is the value that it had. An `Err`
    /// changes nothing.
    pub fn insert(&mut self, key: K, value: V) -> Result<Option<V>, AllocError>
    where
        V: Drop,
        ensures old { IfOk result (λ had. had ≡ lookup (K.eq key) self.old.entries) }
        ensures entries { OnOk result (self.new.entries ≡ insert_entry K.eq self.old.entries key value) }
        ensures err { OnErr result (self.new.entries ≡ self.old.entries) }
    {
        if let Some(number) = self.numbers.get(&key).copied() {
            let place = &mut self.entries[number].1;
            return Ok(Some(mem::replace(place, value)));
        }
        let number = self.entries.len();
        self.entries.push((key, value))?;
        match self.numbers.insert(key, number) {
            Ok(_) => Ok(None),
            Err(_) => {
                self.entries.truncate(number);
                Err(AllocError)
            }
        }
    }
}
