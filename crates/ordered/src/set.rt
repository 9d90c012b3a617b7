// Sets whose values are numbered.

ghost use Rattle.std.specs.Prelude.{◌≡◌, ℕ, ◌<◌, ◌^◌, [], Bool, Some, true, not, length, position, slice_get, option_copied, IfOk, IfSome, OnErr, IsTrue};
ghost use Rattle.std.specs.List.{list_any, position_or_len, IsDistinct};
ghost use Rattle.ordered.specs.Order.{insert_key};

use std::alloc::{AllocError, Global};
use std::collections::HashMap;
use std::hash::Hash;
use std::marker::Model;

/// A set of values. The first value has the number 0, and each value that is new the next one.
#[derive(Drop)]
pub struct OrderedSet<T: Copy + Eq + Hash> {
    keys: Vec<T>,
    numbers: HashMap<T, usize>,
}

impl<T: Copy + Eq + Hash> Model for OrderedSet<T> {
    ghost use Rattle.ordered.specs.Order.{Keys, AreNumbered};

    ghost Value = { Keys T };

    ghost view = { λ s. record { keys = s.keys.items } };

    ghost invariant = { λ s. AreNumbered T.eq s.keys.items s.numbers };
}

impl<T: Copy + Eq + Hash> OrderedSet<T> {
    /// No values.
    pub fn new(alloc: Global) -> OrderedSet<T>
        ensures empty { result.keys ≡ [] }
    {
        OrderedSet {
            keys: Vec::new(alloc),
            numbers: HashMap::new(alloc),
        }
    }

    /// How many values there are.
    pub fn len(&self) -> usize
        ensures len { result ≡ length self.now.keys }
        ensures unique { IsDistinct T.eq self.now.keys }
    {
        self.keys.len()
    }

    /// The values in their order.
    pub fn as_slice(&self) -> &[T]
        ensures keys { result.now ≡ self.now.keys }
    {
        self.keys.as_slice()
    }

    /// The value of a number.
    pub fn get_index(&self, index: usize) -> Option<&T>
        ensures key { option_copied result ≡ slice_get self.now.keys index }
    {
        self.keys.get(index)
    }

    /// The number of a value.
    pub fn get_index_of(&self, value: &T) -> Option<usize>
        ensures index { result ≡ position (T.eq value.now) self.now.keys }
    {
        self.numbers.get(value).copied()
    }

    /// Whether there is such a value.
    pub fn contains(&self, value: &T) -> bool
        ensures { result ≡ list_any (T.eq value.now) self.now.keys }
    {
        self.numbers.contains_key(value)
    }

    /// The number of a value, which is put last if it is new, and whether it was new. An `Err` changes nothing.
    pub fn insert_full(&mut self, value: T) -> Result<(usize, bool), AllocError>
        ensures added { IfOk result (λ r. r.1 ≡ not (list_any (T.eq value) self.old.keys)) }
        ensures keys { IfOk result (λ r. self.new.keys ≡ insert_key T.eq self.old.keys value) }
        ensures index { IfOk result (λ r. r.0 ≡ position_or_len (T.eq value) self.old.keys) }
        ensures stored { IfOk result (λ r. (k : T) × (slice_get self.new.keys r.0 ≡ Some k) × (T.eq value k ≡ true)) }
        ensures err { OnErr result (self.new.keys ≡ self.old.keys) }
    {
        if let Some(number) = self.numbers.get(&value).copied() {
            return Ok((number, false));
        }
        let number = self.keys.len();
        self.keys.push(value)?;
        match self.numbers.insert(value, number) {
            Ok(_) => Ok((number, true)),
            Err(_) => {
                self.keys.truncate(number);
                Err(AllocError)
            }
        }
    }

    /// A value is put last if it is new. The answer is whether it was. An `Err` changes nothing.
    pub fn insert(&mut self, value: T) -> Result<bool, AllocError>
        ensures added { IfOk result (λ r. r ≡ not (list_any (T.eq value) self.old.keys)) }
        ensures keys { IfOk result (λ r. self.new.keys ≡ insert_key T.eq self.old.keys value) }
        ensures err { OnErr result (self.new.keys ≡ self.old.keys) }
    {
        let (_, is_new) = self.insert_full(value)?;
        Ok(is_new)
    }
}
