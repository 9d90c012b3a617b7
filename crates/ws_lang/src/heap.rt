// The values that a program stored.
ghost use Rattle.std.specs.Prelude.{◌≡◌, ◌<◌, ◌≤◌, ◌*◌, pos, true, false, MatchOption, IfOk, OnOk, OnErr};
ghost use Rattle.std.specs.FinMap as map;
ghost use Rattle.mach_core.specs.Sparse.{value_at, with_value};
ghost use Rattle.mach_core.specs.Integer.{is_zero};
ghost use Rattle.ws_lang.specs.Pages.{index_of, IsBlank};

use std::alloc::{AllocError, Global};
use std::collections::BTreeMap;
use std::marker::Model;

// How many values a page has, and how many pages there are.
const SIZE: usize = 4096;

const PAGES: usize = 4097;

/// Values at addresses, which are 0 where nothing else was stored: pages for the addresses from -4096 to 2^24 - 1, where
/// a page of zeros may take no memory, and an ordered map for all others.
#[derive(Drop)]
pub struct Heap {
    pages: Vec<Vec<i64>>,
    far: BTreeMap<i64, i64>,
    alloc: Global,
}

impl Model for Heap {
    ghost use Rattle.std.specs.Prelude.{ℤ};
    ghost use Rattle.std.specs.Ordering.{int_cmp};
    ghost use Rattle.std.specs.FinMap as map;
    ghost use Rattle.std.specs.Coded.{coded_ℤ};
    ghost use Rattle.ws_lang.specs.Pages.{heap_of, IsPaged};

    ghost Value = { map.FinMap int_cmp ℤ };

    ghost coded = { map.code coded_ℤ coded_ℤ };

    ghost view = { λ h. heap_of h.pages.items (map.from_entries h.far.entries) };

    ghost invariant = { λ h. IsPaged h.pages.items };
}

// Where the pages have the value of an address, if they do.
#[inline(always)]
fn page_index(address: i64) -> Option<usize>
    ensures { MatchOption result (4097 * 4096 ≤ index_of address) (λ k. (k ≡ index_of address) × (k < 4097 * 4096)) }
{
    if address < -4096 || address >= 16777216 {
        return None;
    }
    Some((address + 4096).unsigned_abs() as usize)
}

impl Heap {
    /// All values are 0.
    pub fn new(alloc: Global) -> Result<Heap, AllocError>
        ensures { IfOk result (λ h. h ≡ map.empty) }
    {
        let mut pages = Vec::new(alloc);
        for _k in 0..PAGES {
            pages.push(Vec::new(alloc))?;
        }
        Ok(Heap {
            pages,
            far: BTreeMap::new(alloc),
            alloc,
        })
    }

    // The value at an address that no page has.
    #[cold]
    #[inline(never)]
    fn get_far(&self, address: i64) -> i64
        requires { 4097 * 4096 ≤ index_of address }
        ensures { result ≡ value_at (pos 0) self.now address }
    {
        match self.far.get(&address) {
            Some(value) => *value,
            None => 0,
        }
    }

    /// The value at an address.
    #[inline(always)]
    pub fn get(&self, address: i64) -> i64
        ensures { result ≡ value_at (pos 0) self.now address }
    {
        let Some(at) = page_index(address) else {
            return self.get_far(address);
        };
        let page = self.pages[at / SIZE].as_slice();
        let place = at % SIZE;
        if place < page.len() { page[place] } else { 0 }
    }

    /// Changes the value at an address, where a page has it and that needs no memory.
    #[inline(always)]
    pub fn put(&mut self, address: i64, value: i64) -> bool
        ensures done { result ≡ true → self.new ≡ with_value is_zero self.old address value }
        ensures not { result ≡ false → self.new ≡ self.old }
        ensures cause { result ≡ false → index_of address < 4097 * 4096 → IsBlank self.old address }
    {
        let Some(at) = page_index(address) else {
            return false;
        };
        let page = &mut self.pages[at / SIZE];
        let place = at % SIZE;
        if place < page.len() {
            page[place] = value;
            return true;
        }
        value == 0
    }

    // Changes the value at an address that no page has.
    fn set_far(&mut self, address: i64, value: i64) -> Result<(), AllocError>
        requires { 4097 * 4096 ≤ index_of address }
        ensures ok { OnOk result (self.new ≡ with_value is_zero self.old address value) }
        ensures err { OnErr result (self.new ≡ self.old) }
    {
        if value == 0 {
            let _old = self.far.remove(&address);
            Ok(())
        } else {
            self.far.insert(address, value)?;
            Ok(())
        }
    }

    /// Changes the value at an address.
    pub fn set(&mut self, address: i64, value: i64) -> Result<(), AllocError>
        ensures ok { OnOk result (self.new ≡ with_value is_zero self.old address value) }
        ensures err { OnErr result (self.new ≡ self.old) }
    {
        if self.put(address, value) {
            return Ok(());
        }
        let Some(at) = page_index(address) else {
            return self.set_far(address, value);
        };
        let mut page = vec![in self.alloc; 0i64; 4096]?;
        page[at % SIZE] = value;
        self.pages[at / SIZE] = page;
        Ok(())
    }
}
