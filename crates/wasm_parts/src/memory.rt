// The memory of a module.

ghost use Rattle.std.specs.Prelude.{◌≡◌, ◌≢◌, ℕ, ◌+◌, ◌*◌, ◌/◌, ◌%◌, ◌^◌, ◌<◌, ◌≤◌, false, length, vec_len, IsTrue, OnOk, OnErr};
ghost use Rattle.std.specs.FinMap as map;
ghost use Rattle.wasm_rule.specs.Memory.{byte_at, with_byte, with_bytes, word_at, bytes_of, is_within, IsBlank, WantsPage};
ghost use Rattle.wasm_parts.specs.Inside.{page_of, with_bytes_in, word_in, bytes_of_pages, HasByte, Fits, AreWhole, Grows};

use std::alloc::{AllocError, Global};
use std::marker::Model;

/// How many bytes a page has.
const PAGE: usize = 65536;

/// The four bytes from an address on lie in one page, which has its bytes.
#[inline(always)]
fn is_in_page(pages: &Vec<Vec<u8>>, address: usize) -> bool
    requires { address / 65536 < length pages.now.items }
    ensures { IsTrue result → address % 65536 + 4 ≤ length (page_of pages.now.items (address / 65536)) }
{
    address % PAGE + 4 <= pages[address / PAGE].len()
}

/// The number that four bytes of a page spell from an index on, the lowest first.
#[inline(always)]
fn word_from(page: &[u8], index: usize) -> u32
    requires { index + 4 ≤ length page.now }
    ensures { result ≡ word_in page.now index 4 }
{
    let second = index + 1;
    let third = second + 1;
    let fourth = third + 1;
    page[index] as u32
        + 256 * (page[second] as u32 + 256 * (page[third] as u32 + 256 * page[fourth] as u32))
}

/// Puts the four bytes of a word into a page from an index on, the lowest first.
#[inline(always)]
fn write_word(page: &mut [u8], index: usize, word: u32)
    requires { index + 4 ≤ length page.old }
    ensures { page.new ≡ with_bytes_in page.old index (bytes_of 4 word) }
{
    let second = index + 1;
    let third = second + 1;
    let fourth = third + 1;
    page[index] = (word % 256) as u8;
    page[second] = (word / 256 % 256) as u8;
    page[third] = (word / 256 / 256 % 256) as u8;
    page[fourth] = (word / 256 / 256 / 256 % 256) as u8;
}

/// The number that four bytes spell, in the page that they lie in.
#[inline(always)]
fn word_in_page(pages: &Vec<Vec<u8>>, address: usize) -> u32
    requires there { address / 65536 < length pages.now.items }
    requires low { address + 4 ≤ 2 ^ 48 }
    requires whole { AreWhole pages.now.items }
    requires inside { address % 65536 + 4 ≤ length (page_of pages.now.items (address / 65536)) }
    ensures { result ≡ word_at (bytes_of_pages pages.now.items) address 4 }
{
    word_from(pages[address / PAGE].as_slice(), address % PAGE)
}

/// Stores the four bytes of a word in the page that they lie in.
#[inline(always)]
fn set_in_page(pages: &mut Vec<Vec<u8>>, address: usize, word: u32)
    requires there { address / 65536 < length pages.old.items }
    requires low { address + 4 ≤ 2 ^ 48 }
    requires whole { AreWhole pages.old.items }
    requires inside { address % 65536 + 4 ≤ length (page_of pages.old.items (address / 65536)) }
    ensures bytes { bytes_of_pages pages.new.items ≡ with_bytes (bytes_of_pages pages.old.items) address (bytes_of 4 word) }
    ensures grows { Grows pages.old.items pages.new.items }
{
    let page = &mut pages[address / PAGE];
    write_word(page.as_mut_slice(), address % PAGE, word);
}

/// Changes a byte. It is 0 where its page has no bytes.
#[inline(always)]
fn set_byte(pages: &mut Vec<Vec<u8>>, address: usize, byte: u8)
    requires there { address / 65536 < length pages.old.items }
    requires low { address < 2 ^ 48 }
    requires whole { AreWhole pages.old.items }
    requires fits { byte ≢ 0 → HasByte pages.old.items address }
    ensures bytes { bytes_of_pages pages.new.items ≡ with_byte (bytes_of_pages pages.old.items) address byte }
    ensures grows { Grows pages.old.items pages.new.items }
{
    let page = &mut pages[address / PAGE];
    let index = address % PAGE;
    if index < page.len() {
        page[index] = byte;
    }
}

/// Stores so many bytes of a word one after the other, the lowest first.
#[inline(always)]
fn set_bytes(pages: &mut Vec<Vec<u8>>, address: usize, count: u32, word: u32)
    requires within { address + count ≤ 65536 * length pages.old.items }
    requires low { address + count ≤ 2 ^ 48 }
    requires whole { AreWhole pages.old.items }
    requires fits { Fits pages.old.items address (bytes_of count word) }
    ensures bytes { bytes_of_pages pages.new.items ≡ with_bytes (bytes_of_pages pages.old.items) address (bytes_of count word) }
    ensures grows { Grows pages.old.items pages.new.items }
{
    let mut rest = word;
    for k in 0..count {
        set_byte(pages, address + k as usize, (rest % 256) as u8);
        rest /= 256;
    }
}

/// The same, with a loop of its own for each number of bytes that an instruction stores.
#[inline(always)]
fn set_word(pages: &mut Vec<Vec<u8>>, address: usize, count: u32, word: u32)
    requires within { address + count ≤ 65536 * length pages.old.items }
    requires low { address + count ≤ 2 ^ 48 }
    requires whole { AreWhole pages.old.items }
    requires fits { Fits pages.old.items address (bytes_of count word) }
    ensures bytes { bytes_of_pages pages.new.items ≡ with_bytes (bytes_of_pages pages.old.items) address (bytes_of count word) }
    ensures grows { Grows pages.old.items pages.new.items }
{
    match count {
        4 => set_bytes(pages, address, 4, word),
        2 => set_bytes(pages, address, 2, word),
        1 => set_bytes(pages, address, 1, word),
        _ => set_bytes(pages, address, count, word),
    }
}

/// The pages of so many bytes have theirs. It may say no where the bytes are none or more than four.
#[inline(always)]
fn has_bytes(pages: &Vec<Vec<u8>>, address: usize, count: u32) -> bool
    requires within { address + count ≤ 65536 * length pages.now.items }
    requires low { address + count ≤ 2 ^ 48 }
    requires whole { AreWhole pages.now.items }
    ensures { IsTrue result → (word : ℕ) → Fits pages.now.items address (bytes_of count word) }
{
    if count == 0 || count > 4 {
        return false;
    }
    let last = address + (count - 1) as usize;
    !pages[address / PAGE].is_empty() && !pages[last / PAGE].is_empty()
}

/// Gives the page of an address its bytes, zeros, if it has none and the byte isn't 0.
fn take_page(
    pages: &mut Vec<Vec<u8>>,
    alloc: Global,
    address: usize,
    byte: u8,
) -> Result<(), AllocError>
    requires there { address / 65536 < length pages.old.items }
    requires low { address < 2 ^ 48 }
    requires whole { AreWhole pages.old.items }
    ensures has { OnOk result (byte ≢ 0 → HasByte pages.new.items address) }
    ensures bytes { bytes_of_pages pages.new.items ≡ bytes_of_pages pages.old.items }
    ensures grows { Grows pages.old.items pages.new.items }
    ensures wants { OnErr result ((byte ≢ 0) × IsBlank (bytes_of_pages pages.old.items) address) }
{
    if byte == 0 {
        return Ok(());
    }
    if !pages[address / PAGE].is_empty() {
        return Ok(());
    }
    let page = vec![in alloc; 0u8; 65536]?;
    pages[address / PAGE] = page;
    Ok(())
}

/// Gives the pages of so many bytes of a word theirs, where the byte isn't 0.
fn take_pages(
    pages: &mut Vec<Vec<u8>>,
    alloc: Global,
    address: usize,
    count: u32,
    word: u32,
) -> Result<(), AllocError>
    requires within { address + count ≤ 65536 * length pages.old.items }
    requires low { address + count ≤ 2 ^ 48 }
    requires whole { AreWhole pages.old.items }
    ensures fits { OnOk result (Fits pages.new.items address (bytes_of count word)) }
    ensures bytes { bytes_of_pages pages.new.items ≡ bytes_of_pages pages.old.items }
    ensures grows { Grows pages.old.items pages.new.items }
    ensures wants { OnErr result (WantsPage (bytes_of_pages pages.old.items) address (bytes_of count word)) }
{
    let mut rest = word;
    for k in 0..count {
        take_page(pages, alloc, address + k as usize, (rest % 256) as u8)?;
        rest /= 256;
    }
    Ok(())
}

/// Makes the table as long as this, by pages of zeros.
fn lengthen(pages: &mut Vec<Vec<u8>>, alloc: Global, count: usize) -> Result<(), AllocError>
    ensures long { OnOk result (count ≤ length pages.new.items) }
    ensures longer { length pages.old.items ≤ length pages.new.items }
    ensures same { (k : ℕ) → page_of pages.new.items k ≡ page_of pages.old.items k }
{
    while pages.len() < count {
        pages.push(Vec::new(alloc))?;
    }
    Ok(())
}

/// Pages of 65,536 bytes. A page of zeros may take no memory. A clause sees their number and the bytes other than 0.
#[derive(Drop)]
pub struct Pages {
    count: u32,
    pages: Vec<Vec<u8>>,
    alloc: Global,
}

impl Model for Pages {
    ghost use Rattle.wasm_rule.specs.Memory.{Memory};
    ghost use Rattle.wasm_rule.specs.Codes.{memory_code};

    ghost Value = { Memory };

    ghost coded = { memory_code };

    ghost use Rattle.wasm_parts.specs.Inside.{memory_of, IsInside};

    ghost view = { memory_of };

    ghost invariant = { IsInside };
}

impl Pages {
    /// No pages.
    pub fn new(alloc: Global) -> Pages
        ensures pages { result.pages ≡ 0 }
        ensures bytes { result.bytes ≡ map.empty }
    {
        Pages {
            count: 0,
            pages: Vec::new(alloc),
            alloc,
        }
    }

    /// How many pages there are.
    #[inline(always)]
    pub fn count(&self) -> u32
        ensures { result ≡ self.now.pages }
    {
        self.count
    }

    /// So many bytes from an address on lie in the memory.
    #[inline(always)]
    pub fn contains(&self, address: u64, count: u32) -> bool
        ensures { result ≡ is_within self.now address count }
    {
        match address.checked_add(count as u64) {
            Some(end) => end <= self.count as u64 * 65536,
            None => false,
        }
    }

    /// The byte at an address.
    #[inline(always)]
    fn byte(&self, address: usize) -> u8
        requires { address < 65536 * self.now.pages }
        ensures { result ≡ byte_at self.now.bytes address }
    {
        let page = self.pages[address / PAGE].as_slice();
        let index = address % PAGE;
        if index < page.len() { page[index] } else { 0 }
    }

    /// The number that one byte spells.
    #[inline(always)]
    pub fn byte_word(&self, address: usize) -> u32
        requires { address + 1 ≤ 65536 * self.now.pages }
        ensures word { result ≡ word_at self.now.bytes address 1 }
        ensures small { result < 2 ^ 8 }
    {
        self.byte(address) as u32
    }

    #[tactic(auto, using(crate::proofs::WordLemmas::words))]
    /// The number that two bytes spell, the lower one first.
    #[inline(always)]
    pub fn half_word(&self, address: usize) -> u32
        requires { address + 2 ≤ 65536 * self.now.pages }
        ensures word { result ≡ word_at self.now.bytes address 2 }
        ensures small { result < 2 ^ 16 }
    {
        let _ = &self.count;
        self.byte_word(address) + 256 * self.byte_word(address + 1)
    }

    /// The number that four bytes spell, the lowest first.
    #[inline(always)]
    pub fn full_word(&self, address: usize) -> u32
        requires { address + 4 ≤ 65536 * self.now.pages }
        ensures { result ≡ word_at self.now.bytes address 4 }
    {
        if is_in_page(&self.pages, address) {
            return word_in_page(&self.pages, address);
        }
        self.parted_word(address)
    }

    #[tactic(auto, using(crate::proofs::WordLemmas::words))]
    /// The same, where the bytes may lie in two pages or in one of zeros.
    #[cold]
    #[inline(never)]
    fn parted_word(&self, address: usize) -> u32
        requires { address + 4 ≤ 65536 * self.now.pages }
        ensures { result ≡ word_at self.now.bytes address 4 }
    {
        let _ = &self.count;
        self.half_word(address) + 65536 * self.half_word(address + 2)
    }

    /// Stores so many bytes of a word, the lowest first, if that needs no memory, and says so.
    #[inline(always)]
    pub fn put(&mut self, address: usize, count: u32, word: u32) -> bool
        requires { address + count ≤ 65536 * self.old.pages }
        ensures done { IsTrue result → self.new ≡ record self.old { bytes = with_bytes self.old.bytes address (bytes_of count word) } }
        ensures not { result ≡ false → self.new ≡ self.old }
    {
        if count == 4 && is_in_page(&self.pages, address) {
            set_in_page(&mut self.pages, address, word);
            return true;
        }
        self.put_bytes(address, count, word)
    }

    /// The same, where the bytes may lie in two pages or in one of zeros.
    #[inline(never)]
    fn put_bytes(&mut self, address: usize, count: u32, word: u32) -> bool
        requires { address + count ≤ 65536 * self.old.pages }
        ensures done { IsTrue result → self.new ≡ record self.old { bytes = with_bytes self.old.bytes address (bytes_of count word) } }
        ensures not { result ≡ false → self.new ≡ self.old }
    {
        if !has_bytes(&self.pages, address, count) {
            return false;
        }
        set_word(&mut self.pages, address, count, word);
        true
    }

    /// Stores so many bytes of a word, the lowest first. Memory is wanted only for a byte other than 0 in a page of zeros.
    pub fn store(&mut self, address: usize, count: u32, word: u32) -> Result<(), AllocError>
        requires { address + count ≤ 65536 * self.old.pages }
        ensures ok { OnOk result (self.new ≡ record self.old { bytes = with_bytes self.old.bytes address (bytes_of count word) }) }
        ensures err { OnErr result (self.new ≡ self.old) }
        ensures cause { OnErr result (WantsPage self.old.bytes address (bytes_of count word)) }
    {
        take_pages(&mut self.pages, self.alloc, address, count, word)?;
        set_word(&mut self.pages, address, count, word);
        Ok(())
    }

    /// Changes the byte at an address.
    fn set(&mut self, address: usize, byte: u8) -> Result<(), AllocError>
        requires { address < 65536 * self.old.pages }
        ensures ok { OnOk result (self.new ≡ record self.old { bytes = with_byte self.old.bytes address byte }) }
    {
        take_page(&mut self.pages, self.alloc, address, byte)?;
        set_byte(&mut self.pages, address, byte);
        Ok(())
    }

    /// Puts bytes from an address on.
    pub fn write(&mut self, address: usize, bytes: &[u8]) -> Result<(), AllocError>
        requires { address + length bytes.now ≤ 65536 * self.old.pages }
        ensures { OnOk result (self.new ≡ record self.old { bytes = with_bytes self.old.bytes address bytes.now }) }
    {
        let _ = &self.count;
        for (k, byte) in bytes.iter().enumerate() {
            self.set(address + k, *byte)?;
        }
        Ok(())
    }

    /// So many more pages of zeros.
    pub fn grow(&mut self, more: u32) -> Result<(), AllocError>
        requires { self.old.pages + more < 2 ^ 32 }
        ensures ok { OnOk result (self.new ≡ record self.old { pages = self.old.pages + more }) }
        ensures err { OnErr result (self.new ≡ self.old) }
    {
        let count = self.count + more;
        lengthen(&mut self.pages, self.alloc, count as usize)?;
        self.count = count;
        Ok(())
    }
}
