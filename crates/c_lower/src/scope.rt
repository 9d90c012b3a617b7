// What is known of a text's file scope before its code is made.

ghost use Rattle.std.specs.Prelude.{◌≡◌, ℕ, true, List, ◌++◌, [], ◌∷◌, Ok, length, map, IfOk};
ghost use Rattle.std.specs.List.{flat_map};
ghost use Rattle.c_syntax.specs.View.{item_of, unit_of};
ghost use Rattle.c_types.specs.Scope.{Scope, contains};
ghost use Rattle.c_types.specs.Units.{all_items, start_scope};
ghost use Rattle.c_eval.specs.Environment.{Environment};
ghost use Rattle.c_eval.specs.Text.{text_of, file_start};
ghost use Rattle.c_declared.specs.Held.{HoldsSome};
ghost use Rattle.c_opening.specs.Named.{tags_in, HasNumber};
ghost use Rattle.c_lowered.specs.Locations.{Linking};
ghost use Rattle.c_types.specs.Table.{texts};
ghost use Rattle.c_lowered.specs.Operations.{wrapped};
ghost use Rattle.c_lowered.specs.Whole.{letter_words, words_from, file_literals, all_letters, literals_of};
ghost use Rattle.c_counted.specs.Numbers.{IsNumber};
ghost use Rattle.c_lower_data.specs.Letters.{AreAddresses};
ghost use Rattle.c_lower.specs.Words.{IsBefore, PassesBetween};
ghost use Rattle.c_lower.specs.Scopes.{literal_start, functions_start, functions_literals, KnowsBases, IsFileScope};

use crate::texts::file_texts;
use crate::words::add_words;
use c_addressing::{Here, Literals, Output};
use c_cells::StructKinds;
use c_counted::{next, plus};
use c_emission::Location;
use c_lower_bases::{Ends, file_bases, file_sizes, firsts_given, low, words_given};
use c_lower_data::{add_addresses, add_letters, entries};
use c_opening::open;
use c_scopes::Names;
use c_syntax::tree::{Item, Unit};
use ordered::OrderedMap;
use std::alloc::{AllocError, Global};
use word24::Word;

/// The file scope of a text: the numbers of its names, where its objects lie by their numbers, the first blocks of its
/// functions, the words of the first memory, the address of the first string literal of a function, and the base of the
/// opening call's frame.
#[derive(Drop)]
pub struct FileScope<'t> {
    pub slots: Names<'t>,
    pub bases: Vec<Location>,
    pub entries: OrderedMap<&'t [u8], u32>,
    pub words: Vec<Word>,
    pub first: u32,
    pub frames: u32,
}

/// Where the objects of file scope lie, the address behind those with first values, where the literals begin, and that of
/// the opening call's frame.
#[derive(Drop)]
pub struct Bases {
    pub bases: Vec<Location>,
    pub literals: u32,
    pub frames: u32,
}

// The words of literals: those of file scope, and those of functions behind them.
fn letters(alloc: Global, file: &[&[u8]], bodies: &[&[u8]]) -> Result<Vec<Word>, AllocError>
    ensures { IfOk result (λ v. v.items ≡ words_from (flat_map letter_words (texts file.now) ++ flat_map letter_words (texts bodies.now))) }
{
    let mut words = Vec::new(alloc);
    add_letters(file, &mut words)?;
    add_letters(bodies, &mut words)?;
    Ok(words)
}

// Where the objects of file scope of a typed text lie, whose literals have so many words.
fn bases_of(alloc: Global, unit: &Unit, letters: usize) -> Result<Bases, AllocError>
    ensures { (end : Scope) → all_items (start_scope (unit_of unit.now)) (unit_of unit.now).items ≡ Ok end → letters ≡ length (all_letters (literals_of (unit_of unit.now))) → IfOk result (λ b. KnowsBases b (unit_of unit.now)) }
{
    let items = unit.items.items.as_slice();
    let sizes = file_sizes(alloc, unit)?;
    let given = firsts_given(alloc, items)?;
    let firsts = given.as_slice();
    let all = sizes.as_slice();
    let mine = words_given(true, firsts, all);
    let literals = next(mine);
    let count = low(letters);
    let end = plus(literals, count);
    let from = Ends {
        given: 1,
        other: end,
    };
    let bases = file_bases(alloc, firsts, all, from)?;
    let rest = words_given(false, firsts, all);
    let frames = plus(end, rest);
    Ok(Bases {
        bases,
        literals,
        frames,
    })
}

// The word 0.
fn null() -> Word
    ensures { result ≡ wrapped 0 }
{
    Word::wrap(0)
}

// The word of null.
fn null_word(alloc: Global) -> Result<Vec<Word>, AllocError>
    ensures { IfOk result (λ v. v.items ≡ words_from (0 ∷ [])) }
{
    let mut words = Vec::new(alloc);
    words.push(null())?;
    Ok(words)
}

// The words of the first values of typed externals, behind that of null, with these words behind them; what the externals
// declare is declared.
fn object_words<'t>(
    alloc: Global,
    out: &mut Output<'_>,
    structs: &mut StructKinds,
    here: &mut Here<'t>,
    items: &'t [Item],
    letters: &[Word],
) -> Result<Vec<Word>, AllocError>
    requires holds { HoldsSome out.old.types here.old.declared }
    requires numbered { (name : List ℕ) → contains (tags_in (map item_of items.now)) name ≡ true → HasNumber out.old.types name }
    ensures { (w : Linking) (env : Environment) (end : Scope) → IsBefore here.old structs.old out.old 0 w env → all_items env.scope (map item_of items.now) ≡ Ok end
        → IfOk result (λ v. PassesBetween here.new out.new w env (map item_of items.now) v.items letters.now) }
{
    let mut words = null_word(alloc)?;
    add_words(out, structs, here, items, &mut words)?;
    words.extend_from_slice(letters)?;
    Ok(words)
}

// The file scope of a typed text whose literals at file scope have these addresses, with another one behind them, and whose
// literals have these words.
fn placed_scope<'t>(
    alloc: Global,
    unit: &'t Unit,
    addresses: &[u32],
    first: u32,
    places: Bases,
    letters: &[Word],
) -> Result<FileScope<'t>, AllocError>
    ensures { (end : Scope) → all_items (start_scope (unit_of unit.now)) (unit_of unit.now).items ≡ Ok end → KnowsBases places (unit_of unit.now) → AreAddresses addresses.now first (literal_start (unit_of unit.now)) (file_literals (unit_of unit.now).items (file_start (unit_of unit.now)))
        → IsNumber first (functions_start (unit_of unit.now)) → letters.now ≡ words_from (all_letters (literals_of (unit_of unit.now))) → IfOk result (λ f. IsFileScope f (unit_of unit.now)) }
{
    let opening = open(alloc, unit)?;
    let items = unit.items.items.as_slice();
    let blocks = entries(alloc, items)?;
    let slots = Names::new(alloc);
    let ops = Vec::new(alloc);
    let mut here = Here {
        declared: opening.declared,
        slots,
        bases: places.bases,
        entries: blocks,
    };
    let mut out = Output {
        types: opening.types,
        literals: Literals {
            next: addresses,
            end: first,
        },
        ops,
    };
    let mut structs = StructKinds::new(alloc);
    let words = object_words(alloc, &mut out, &mut structs, &mut here, items, letters)?;
    Ok(FileScope {
        slots: here.slots,
        bases: here.bases,
        entries: here.entries,
        words,
        first,
        frames: places.frames,
    })
}

/// The file scope of a typed text, whose functions have these string literals.
pub fn file_scope<'t>(
    alloc: Global,
    unit: &'t Unit,
    bodies: &[&[u8]],
) -> Result<FileScope<'t>, AllocError>
    ensures { (end : Scope) → all_items (start_scope (unit_of unit.now)) (unit_of unit.now).items ≡ Ok end → texts bodies.now ≡ functions_literals (text_of (unit_of unit.now)).functions → IfOk result (λ f. IsFileScope f (unit_of unit.now)) }
{
    let texts = file_texts(alloc, unit)?;
    let file = texts.as_slice();
    let words = letters(alloc, file, bodies)?;
    let count = words.len();
    let places = bases_of(alloc, unit, count)?;
    let mut addresses = Vec::new(alloc);
    let first = add_addresses(file, places.literals, &mut addresses)?;
    let own = addresses.as_slice();
    let all = words.as_slice();
    placed_scope(alloc, unit, own, first, places, all)
}
