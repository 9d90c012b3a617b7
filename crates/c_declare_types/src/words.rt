//! The types that words say, and the structs that they declare.

ghost use Rattle.std.specs.Prelude.{◌≡◌, IfOk, Bool};
ghost use Rattle.c_grammar.specs.Tree as grammar;
ghost use Rattle.c_grammar.specs.Tree.{more, none, act};
ghost use Rattle.c_grammar.specs.declared.names.Production.TheVariants as production;
ghost use Rattle.c_held.specs.View.{meaning_of, means, base_of, struct_items};
ghost use Rattle.c_held.specs.Shape.{AreWords, IsWords};

use c_held::parts::{first, is_none, key, place, take_declarations, take_token, text, token};
use c_held::value::{Base, Meaning, Value};
use c_syntax::Key;
use c_syntax::text::Text;
use c_syntax::tree::{Decls, Tag};
use std::alloc::{AllocError, Global};
use std::mem;

/// The type that the words of a value say, taken out of it.
pub fn words(value: &mut Value) -> Base
    requires { IsWords value.old }
    ensures { base_of result ≡ grammar.type_of (means value.old) }
{
    match value {
        Value::Part(made) => take_words(&mut made.meaning),
        _ => Base::Void,
    }
}

/// The type that the words of a meaning say, taken out of it.
fn take_words(part: &mut Meaning) -> Base
    requires { AreWords part.old }
    ensures { base_of result ≡ grammar.type_of (meaning_of part.old) }
{
    match part {
        Meaning::Words(base, _, _, _) => mem::replace(base, Base::Void),
        _ => Base::Void,
    }
}

/// The type that the words of a value say, and the struct that they declare, taken out of it.
pub fn words_with_tag(value: &mut Value) -> (Base, Option<Tag>)
    requires { IsWords value.old }
    ensures base { base_of result.0 ≡ grammar.type_of (means value.old) }
    ensures tag { struct_items result.1 ≡ grammar.tags_of (means value.old) }
{
    match value {
        Value::Part(made) => take_words_with_tag(&mut made.meaning),
        _ => (Base::Void, None),
    }
}

/// The type that the words of a meaning say, and the struct that they declare, taken out of it.
fn take_words_with_tag(part: &mut Meaning) -> (Base, Option<Tag>)
    requires { AreWords part.old }
    ensures base { base_of result.0 ≡ grammar.type_of (meaning_of part.old) }
    ensures tag { struct_items result.1 ≡ grammar.tags_of (meaning_of part.old) }
{
    match part {
        Meaning::Words(base, _, _, tag) => {
            (mem::replace(base, Base::Void), mem::replace(tag, None))
        }
        _ => (Base::Void, None),
    }
}

/// The words of a type behind `const`.
#[tactic(auto, unfolding(c_grammar::specs::Tree::act))]
pub fn const_words(w: &Value, spec: &mut Value) -> Meaning
    requires { IsWords spec.old }
    ensures gives { (e : Bool) → meaning_of result ≡ act (production.ConstSpec e) (more (means w.now) (more (means spec.old) none)) }
    ensures words { AreWords result }
{
    let pos = place(w);
    let (base, tag) = words_with_tag(spec);
    Meaning::Words(base, pos, false, tag)
}

/// The type that one word says.
fn word_type(key: Key) -> Base
    ensures { base_of result ≡ grammar.word_type key }
{
    match key {
        Key::Void => Base::Void,
        Key::Char => Base::Char,
        _ => Base::Int,
    }
}

/// Whether a keyword is `void`.
fn is_void(key: Key) -> bool
    ensures { result ≡ grammar.is_void key }
{
    match key {
        Key::Void => true,
        _ => false,
    }
}

/// Whether both hold.
pub fn and(a: bool, b: bool) -> bool
    ensures { result ≡ grammar.and a b }
{
    if a { b } else { false }
}

/// A type of one word.
#[tactic(auto, unfolding(c_grammar::specs::Tree::act))]
pub fn one_word(w: &mut Value, consts: &mut Value) -> Meaning
    ensures gives { (e : Bool) → meaning_of result ≡ act (production.WordSpec e) (more (means w.old) (more (means consts.old) none)) }
    ensures words { AreWords result }
{
    let w = token(w);
    let key = key(&w.kind);
    let bare = and(is_void(key), is_none(consts));
    Meaning::Words(word_type(key), w.pos, bare, None)
}

/// The type that `signed` or `unsigned` and the word behind it say.
fn sign_type(sign: Key, second: Option<Key>) -> Base
    ensures { base_of result ≡ grammar.sign_type sign second }
{
    match sign {
        Key::Unsigned => match second {
            Some(Key::Char) => Base::UChar,
            _ => Base::Unsigned,
        },
        _ => match second {
            Some(Key::Char) => Base::Char,
            _ => Base::Int,
        },
    }
}

/// The keyword that a row has, taken out of it, if there is one.
fn second_word(value: &mut Value) -> Option<Key>
    ensures { result ≡ grammar.second_word (means value.old) }
{
    match value {
        Value::Row(row) => match first(row) {
            Some(word) => Some(key(&take_token(word).kind)),
            None => None,
        },
        _ => None,
    }
}

/// A type of `signed` or `unsigned`, and the word behind it.
#[tactic(auto, unfolding(c_grammar::specs::Tree::act))]
pub fn sign_words(w: &mut Value, second: &mut Value) -> Meaning
    ensures gives { (e : Bool) (consts : grammar.Meaning) → meaning_of result ≡ act (production.SignSpec e) (more (means w.old) (more consts (more (means second.old) none))) }
    ensures words { AreWords result }
{
    let w = token(w);
    let base = sign_type(key(&w.kind), second_word(second));
    Meaning::Words(base, w.pos, false, None)
}

/// The struct of a name at a place with the members of a row, or none where the row is empty.
fn struct_tag(alloc: Global, name: Text, pos: u32, body: &mut Value) -> Option<Tag>
    ensures { (n : grammar.Meaning) → grammar.name n ≡ name → grammar.place n ≡ pos → struct_items result ≡ grammar.struct_tags n (means body.old) }
{
    match body {
        Value::Row(row) => match first(row) {
            Some(members) => {
                let items = take_declarations(alloc, members);
                Some(Tag {
                    name,
                    pos,
                    members: Decls { items },
                })
            }
            None => None,
        },
        _ => None,
    }
}

/// A struct by its name.
#[tactic(auto, unfolding(c_grammar::specs::Tree::act))]
pub fn struct_words(alloc: Global, s: &Value, n: &mut Value) -> Meaning
    ensures gives { (e : Bool) (consts : grammar.Meaning) → meaning_of result ≡ act (production.StructSpec e) (more (means s.now) (more (means n.old) (more consts none))) }
    ensures words { AreWords result }
{
    let pos = place(s);
    let mut n = token(n);
    let name = text(alloc, &mut n.kind);
    Meaning::Words(Base::Struct(name), pos, false, None)
}

/// A struct by its name, with its members or without.
#[tactic(auto, unfolding(c_grammar::specs::Tree::act))]
pub fn struct_with_members(
    alloc: Global,
    s: &Value,
    n: &mut Value,
    body: &mut Value,
) -> Result<Meaning, AllocError>
    ensures gives { (e : Bool) (consts : grammar.Meaning) → IfOk result (λ m. meaning_of m ≡ act (production.StructSpec e) (more (means s.now) (more (means n.old) (more (means body.old) (more consts none))))) }
    ensures words { IfOk result (λ m. AreWords m) }
{
    let pos = place(s);
    let mut n = token(n);
    let at = n.pos;
    let name = text(alloc, &mut n.kind);
    let tag = struct_tag(alloc, name.copied(alloc)?, at, body);
    Ok(Meaning::Words(Base::Struct(name), pos, false, tag))
}
