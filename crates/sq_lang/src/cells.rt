// The cells, in pages.

ghost use Rattle.std.specs.Prelude.{◌≡◌, ◌≢◌, ◌≤◌, ◌<◌, ◌+◌, ◌^◌, ◌⊎◌, length, pos, set, false, ℕ, IsTrue, IfOk, IfSome, OnOk, OnErr};
ghost use Rattle.std.specs.FinMap as map;
ghost use Rattle.sq_lang.specs.Step.{cell_at, with_cell};
ghost use Rattle.sq_lang.specs.Want.{IsBlank};
ghost use Rattle.sq_lang.specs.Pages.{Front, page_at, cells_in, IsPageSet};
ghost use Rattle.std.specs.BTreeMap.{is_at};
ghost use Rattle.std.specs.Map.{lookup};
ghost use Rattle.std.specs.Ordering.{nat_cmp};

use std::alloc::{AllocError, Global};
use std::collections::BTreeMap;
use std::marker::Model;

// How many cells a page has, and how many pages come first.
const SIZE: u64 = 4096;

/// The cells, which are 0 where nothing else was put, in pages of 4096. The pages below address 2^24 stand in a row,
/// those behind it in an ordered map by their numbers. A page of zeros may take no memory. A clause sees the map of the
/// cells other than 0.
#[derive(Drop)]
pub(crate) struct Cells {
    front: Vec<Vec<i64>>,
    behind: BTreeMap<u64, Vec<i64>>,
    alloc: Global,
}

impl Model for Cells {
    ghost use Rattle.std.specs.Prelude.{ℤ};
    ghost use Rattle.std.specs.Ordering.{nat_cmp};
    ghost use Rattle.std.specs.FinMap as map;
    ghost use Rattle.std.specs.Coded.{coded_ℕ, coded_ℤ};
    ghost use Rattle.sq_lang.specs.Pages.{cells_of, page_at, IsPaged};

    ghost Value = { map.FinMap nat_cmp ℤ };

    ghost coded = { map.code coded_ℕ coded_ℤ };

    ghost view = { λ a. cells_of (page_at a.front.items a.behind.entries) };

    ghost invariant = { λ a. IsPaged a.front.items a.behind.entries };
}

// The cells of a page behind the first ones, or none.
#[cold]
#[inline(never)]
fn page_behind(behind: &BTreeMap<u64, Vec<i64>>, k: u64) -> &[i64]
    ensures { result.now ≡ cells_in (lookup (is_at (nat_cmp k)) behind.now.entries) }
{
    match behind.get(&k) {
        Some(page) => page.as_slice(),
        None => &[],
    }
}

// The cells of a page, or none of a page that takes no memory.
#[inline(always)]
fn page<'a>(front: &'a [Vec<i64>], behind: &'a BTreeMap<u64, Vec<i64>>, k: u64) -> &'a [i64]
    requires { length front.now ≡ 4096 }
    ensures { result.now ≡ page_at front.now behind.now.entries k }
{
    if k < SIZE {
        return front[k as usize].as_slice();
    }
    page_behind(behind, k)
}

// Changes a cell of a page, where the page has its cells or the cell stays 0.
#[inline(always)]
fn put_in(page: &mut Vec<i64>, index: usize, value: i64) -> bool
    ensures cells { page.new.items ≡ set page.old.items index value }
    ensures done { IsTrue result → (index < length page.old.items) ⊎ (value ≡ pos 0) }
    ensures not { result ≡ false → (length page.old.items ≤ index) × (value ≢ pos 0) }
{
    if index < page.len() {
        page[index] = value;
        return true;
    }
    value == 0
}

// Changes a cell of a page behind the first ones, where the page has its cells or the cell stays 0.
#[cold]
#[inline(never)]
fn put_behind(behind: &mut BTreeMap<u64, Vec<i64>>, k: u64, index: usize, value: i64) -> bool
    requires { 4096 ≤ k }
    ensures cells { (front : Front) → IsPageSet (page_at front behind.old.entries) (page_at front behind.new.entries) k
        (set (page_at front behind.old.entries k) index value) }
    ensures done { IsTrue result → (front : Front) → (index < length (page_at front behind.old.entries k)) ⊎ (value ≡ pos 0) }
    ensures not { result ≡ false → (front : Front) → (length (page_at front behind.old.entries k) ≤ index) × (value ≢ pos 0) }
{
    match behind.get_mut(&k) {
        Some(page) => {
            return put_in(page, index, value);
        }
        None => {
            return value == 0;
        }
    }
}

// Changes a cell of a page, where the page has its cells or the cell stays 0.
#[inline(always)]
fn put_page(
    front: &mut Vec<Vec<i64>>,
    behind: &mut BTreeMap<u64, Vec<i64>>,
    k: u64,
    index: usize,
    value: i64,
) -> bool
    requires { length front.old.items ≡ 4096 }
    ensures count { length front.new.items ≡ 4096 }
    ensures cells { IsPageSet (page_at front.old.items behind.old.entries) (page_at front.new.items behind.new.entries) k
        (set (page_at front.old.items behind.old.entries k) index value) }
    ensures done { IsTrue result → (index < length (page_at front.old.items behind.old.entries k)) ⊎ (value ≡ pos 0) }
    ensures not { result ≡ false → (length (page_at front.old.items behind.old.entries k) ≤ index) × (value ≢ pos 0) }
{
    if k < SIZE {
        return put_in(&mut front[k as usize], index, value);
    }
    put_behind(behind, k, index, value)
}

// Gives a page these cells.
fn set_page(
    front: &mut Vec<Vec<i64>>,
    behind: &mut BTreeMap<u64, Vec<i64>>,
    k: u64,
    page: Vec<i64>,
) -> Result<(), AllocError>
    requires { length front.old.items ≡ 4096 }
    ensures count { length front.new.items ≡ 4096 }
    ensures ok { OnOk result (IsPageSet (page_at front.old.items behind.old.entries) (page_at front.new.items behind.new.entries) k page.items) }
    ensures err { OnErr result ((j : ℕ) → page_at front.new.items behind.new.entries j ≡ page_at front.old.items behind.old.entries j) }
{
    if k < SIZE {
        front[k as usize] = page;
        return Ok(());
    }
    match behind.insert(k, page) {
        Ok(_) => Ok(()),
        Err(_) => Err(AllocError),
    }
}

impl Cells {
    /// Each cell is 0.
    pub(crate) fn new(alloc: Global) -> Result<Cells, AllocError>
        ensures { IfOk result (λ cells. cells ≡ map.empty) }
    {
        let mut front = Vec::new(alloc);
        for _k in 0..SIZE {
            front.push(Vec::new(alloc))?;
        }
        Ok(Cells {
            front,
            behind: BTreeMap::new(alloc),
            alloc,
        })
    }

    /// The cell at an address.
    #[inline(always)]
    pub(crate) fn get(&self, address: u64) -> i64
        ensures { result ≡ cell_at self.now address }
    {
        let page = page(&self.front, &self.behind, address / SIZE);
        let index = (address % SIZE) as usize;
        if index < page.len() { page[index] } else { 0 }
    }

    /// The three cells from an address on, where they stand in one page that takes memory.
    #[inline(always)]
    pub(crate) fn three(&self, address: u64) -> Option<(i64, i64, i64)>
        ensures first { IfSome result (λ words. words.0 ≡ cell_at self.now address) }
        ensures second { IfSome result (λ words. words.1 ≡ cell_at self.now (address + 1)) }
        ensures third { IfSome result (λ words. words.2 ≡ cell_at self.now (address + 2)) }
    {
        let page = page(&self.front, &self.behind, address / SIZE);
        let index = (address % SIZE) as usize;
        if index + 2 < page.len() {
            Some((page[index], page[index + 1], page[index + 2]))
        } else {
            None
        }
    }

    /// Changes the cell at an address, where that needs no memory.
    #[inline(always)]
    pub(crate) fn put(&mut self, address: u64, value: i64) -> bool
        ensures done { IsTrue result → self.new ≡ with_cell self.old address value }
        ensures not { result ≡ false → self.new ≡ self.old }
        ensures cause { result ≡ false → (value ≢ pos 0) × IsBlank self.old address }
    {
        put_page(
            &mut self.front,
            &mut self.behind,
            address / SIZE,
            (address % SIZE) as usize,
            value,
        )
    }

    /// Changes the cell at an address. Memory is wanted only for a value other than 0 in a page that holds 0 alone.
    pub(crate) fn set(&mut self, address: u64, value: i64) -> Result<(), AllocError>
        ensures ok { OnOk result (self.new ≡ with_cell self.old address value) }
        ensures err { OnErr result (self.new ≡ self.old) }
        ensures cause { OnErr result ((value ≢ pos 0) × IsBlank self.old address) }
    {
        if self.put(address, value) {
            return Ok(());
        }
        let mut page = vec![in self.alloc; 0; 4096]?;
        page[(address % SIZE) as usize] = value;
        match set_page(&mut self.front, &mut self.behind, address / SIZE, page) {
            Ok(()) => return Ok(()),
            Err(failed) => return Err(failed),
        }
    }
}
