// Values in slots, the top last.
ghost use Rattle.std.specs.Prelude.{◌+◌, ◌≡◌, ◌≤◌, ◌-◌, ◌∷◌, true, false, length, drop, slice_get};
ghost use Rattle.piet_lang.specs.Stack.{values_of, pair_of, rolled_by};

/// The value so many places below the top.
#[inline(always)]
pub fn value_at(slots: &[i64], len: usize, depth: usize) -> Option<i64>
    requires { len ≤ length slots.now }
    ensures { result ≡ slice_get (values_of slots.now len) depth }
{
    if depth < len {
        Some(slots[len - 1 - depth])
    } else {
        None
    }
}

/// The second value and the top, if there are two.
#[inline(always)]
pub fn two_values(slots: &[i64], len: usize) -> Option<(i64, i64)>
    requires { len ≤ length slots.now }
    ensures { result ≡ pair_of (values_of slots.now len) }
{
    if len < 2 {
        return None;
    }
    Some((slots[len - 2], slots[len - 1]))
}

/// Puts a value in the place of so many values at the top, where there is a slot for it.
#[inline(always)]
pub fn put_in_slot(slots: &mut [i64], len: &mut usize, count: usize, value: i64) -> bool
    requires { len.old ≤ length slots.old }
    ensures len { len.new ≤ length slots.new }
    ensures size { length slots.new ≡ length slots.old }
    ensures done { result ≡ true → values_of slots.new len.new ≡ value ∷ drop count (values_of slots.old len.old) }
    ensures full { result ≡ false → (slots.new ≡ slots.old) × (len.new ≡ len.old) × (length slots.old ≤ len.old - count) }
{
    let place = len.saturating_sub(count);
    if place >= slots.len() {
        return false;
    }
    slots[place] = value;
    *len = place + 1;
    true
}

/// Turns so many values at the top by so many places towards the bottom.
pub fn roll_slots(slots: &mut [i64], len: usize, depth: usize, times: usize)
    requires size { len ≤ length slots.old }
    requires deep { depth ≤ len }
    requires few { times ≤ depth }
    ensures size { length slots.new ≡ length slots.old }
    ensures rolled { values_of slots.new len ≡ rolled_by (values_of slots.old len) depth times }
{
    slots[len - depth..len].rotate_right(times);
}
