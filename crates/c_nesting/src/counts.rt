//! What is counted for the nesting at the places of productions.

ghost use Rattle.std.specs.Prelude.{◌≡◌, ◌+◌, ◌∷◌, [], length, drop, map, IfOk, ℕ, slice_get, if◌then◌else◌};
ghost use Rattle.c_grammar.specs.Nesting.{Context, Walk, counted, in_hand, counts, hands, piece_counts, piece_hands, is_operator, goes_on, place, total};
ghost use Rattle.c_nesting.specs.Nested.{count_of, hand_of, context_of, carries_at};

use c_grammar::names::{Piece, Production};
use std::alloc::AllocError;

/// What is counted before a part: the declarator in hand, all else, and whether a type in brackets makes a cast there.
#[derive(Clone, Copy)]
pub struct Counted {
    pub rest: u32,
    pub declarator: u32,
    pub cast: bool,
}

/// What a place of a production counts.
#[derive(Clone, Copy)]
pub enum Count {
    Same,
    None,
    One,
    Two,
    Sized,
    Inner,
    Close,
    CloseType,
}

/// The declarator in hand at a place.
#[derive(Clone, Copy)]
pub enum Hand {
    Stay,
    More,
    Ended,
    Within,
}

fn count_at(counts: &[Count], index: usize) -> Option<Count>
    ensures { result ≡ slice_get counts.now index }
{
    counts.get(index).copied()
}

#[tactic(auto, using(crate::proofs::Counting::count_there, crate::proofs::Counting::count_behind))]
fn pick_count(counts: &[Count], index: usize) -> Count
    ensures { (c : Context) → counted (drop index (map count_of counts.now)) c ≡ counted (count_of result ∷ []) c }
{
    match count_at(counts, index) {
        Some(count) => count,
        None => Count::None,
    }
}

fn hand_at(hands: &[Hand], index: usize) -> Option<Hand>
    ensures { result ≡ slice_get hands.now index }
{
    hands.get(index).copied()
}

#[tactic(auto, using(crate::proofs::Counting::hand_there, crate::proofs::Counting::hand_behind))]
fn pick_hand(hands: &[Hand], index: usize) -> Hand
    ensures { (c : Context) → in_hand (drop index (map hand_of hands.now)) c ≡ in_hand (hand_of result ∷ []) c }
{
    match hand_at(hands, index) {
        Some(hand) => hand,
        None => Hand::Ended,
    }
}

// What a place of a piece counts.
fn piece_count(piece: Piece, index: usize) -> Count
    ensures { (c : Context) → counted (drop index (piece_counts piece)) c ≡ counted (count_of result ∷ []) c }
{
    match piece {
        Piece::FunctionPart => pick_count(
            &[Count::One, Count::One, Count::None, Count::One, Count::One],
            index,
        ),
        Piece::Members => pick_count(&[Count::One, Count::One], index),
        Piece::AnyLength => pick_count(&[Count::One, Count::One], index),
        Piece::FullLength => pick_count(&[Count::One, Count::One], index),
        Piece::ParamLengths => pick_count(&[Count::One, Count::One], index),
        _ => pick_count(&[], index),
    }
}

// What a place of a production counts.
fn count_at_place(production: Production, index: usize) -> Count
    ensures { (c : Context) → counted (drop index (counts production)) c ≡ counted (count_of result ∷ []) c }
{
    match production {
        Production::Parens => pick_count(&[Count::One, Count::Inner], index),
        Production::ExprInside => pick_count(&[Count::Same, Count::Close], index),
        Production::TypeInside => pick_count(
            &[Count::Same, Count::Same, Count::Same, Count::CloseType],
            index,
        ),
        Production::Prefix => pick_count(&[Count::One, Count::One], index),
        Production::SizeOf => pick_count(&[Count::One, Count::Sized], index),
        Production::Suffix => pick_count(&[Count::Same, Count::One], index),
        Production::Member => pick_count(&[Count::Same, Count::One, Count::One], index),
        Production::Index => pick_count(&[Count::Same, Count::One, Count::One, Count::One], index),
        Production::Call => pick_count(&[Count::Same, Count::One, Count::One], index),
        Production::Arguments => pick_count(&[Count::Same], index),
        Production::Cast => pick_count(&[Count::Same, Count::One], index),
        Production::Binary(_) => pick_count(&[Count::Same, Count::One, Count::One], index),
        Production::Assign => pick_count(&[Count::Same, Count::One, Count::One], index),
        Production::CommaExpr => pick_count(&[Count::Same, Count::One, Count::One], index),
        Production::Cond => pick_count(
            &[Count::Same, Count::One, Count::One, Count::One, Count::One],
            index,
        ),
        Production::PieceP(piece) => piece_count(piece, index),
        Production::FunctionCore(_) => pick_count(
            &[
                Count::One,
                Count::One,
                Count::One,
                Count::One,
                Count::None,
                Count::One,
                Count::One,
            ],
            index,
        ),
        Production::ParamFunction => pick_count(
            &[
                Count::One,
                Count::One,
                Count::One,
                Count::One,
                Count::None,
                Count::One,
                Count::One,
            ],
            index,
        ),
        Production::NoParams => pick_count(&[Count::Close], index),
        Production::Params => pick_count(
            &[
                Count::Same,
                Count::None,
                Count::None,
                Count::None,
                Count::Close,
            ],
            index,
        ),
        Production::Function => pick_count(&[Count::Same, Count::One, Count::One], index),
        Production::Objects => pick_count(&[Count::Same], index),
        Production::MemberP => pick_count(&[Count::Same], index),
        Production::Declaration => pick_count(&[Count::Same], index),
        Production::DeclaredP => pick_count(&[Count::Same], index),
        Production::FirstValue => pick_count(&[Count::One, Count::One], index),
        Production::ValueComma => pick_count(&[Count::Same, Count::One], index),
        Production::NextValue => pick_count(&[Count::Same, Count::One], index),
        Production::Braces => pick_count(&[Count::Same], index),
        Production::ExprStatement => pick_count(&[Count::Same], index),
        Production::Block => pick_count(&[Count::One, Count::One], index),
        Production::If => pick_count(
            &[Count::One, Count::Two, Count::Two, Count::One, Count::One],
            index,
        ),
        Production::IfElse => pick_count(&[Count::Same, Count::One, Count::One], index),
        Production::While => pick_count(
            &[Count::One, Count::Two, Count::Two, Count::One, Count::One],
            index,
        ),
        Production::Do => pick_count(
            &[Count::One, Count::One, Count::None, Count::One, Count::One],
            index,
        ),
        Production::For => pick_count(
            &[
                Count::One,
                Count::Two,
                Count::Two,
                Count::Two,
                Count::Two,
                Count::Two,
                Count::One,
                Count::One,
            ],
            index,
        ),
        Production::Switch => pick_count(
            &[
                Count::One,
                Count::Two,
                Count::Two,
                Count::One,
                Count::Two,
                Count::Two,
                Count::One,
            ],
            index,
        ),
        _ => pick_count(&[], index),
    }
}

// The declarator in hand at a place of a piece.
fn piece_hand(piece: Piece, index: usize) -> Hand
    ensures { (c : Context) → in_hand (drop index (piece_hands piece)) c ≡ in_hand (hand_of result ∷ []) c }
{
    match piece {
        Piece::FunctionPart => pick_hand(&[Hand::Stay, Hand::Stay], index),
        Piece::Pointer => pick_hand(&[Hand::More, Hand::More], index),
        Piece::NextMember => pick_hand(&[Hand::Ended, Hand::Stay, Hand::Stay], index),
        Piece::AnyLength => pick_hand(&[Hand::More, Hand::Within, Hand::More], index),
        Piece::FullLength => pick_hand(&[Hand::More, Hand::Within, Hand::More], index),
        Piece::NextParam => pick_hand(&[Hand::Ended, Hand::Ended, Hand::Stay, Hand::Stay], index),
        Piece::ParamLengths => pick_hand(
            &[Hand::More, Hand::Within, Hand::More, Hand::More],
            index,
        ),
        Piece::NamePart => pick_hand(&[Hand::Stay], index),
        Piece::NextInit => pick_hand(&[Hand::Ended, Hand::Stay, Hand::Stay], index),
        _ => pick_hand(&[], index),
    }
}

// The declarator in hand at a place of a production.
fn hand_at_place(production: Production, index: usize) -> Hand
    ensures { (c : Context) → in_hand (drop index (hands production)) c ≡ in_hand (hand_of result ∷ []) c }
{
    match production {
        Production::PieceP(piece) => piece_hand(piece, index),
        Production::TypeInside => pick_hand(&[Hand::Stay, Hand::Stay, Hand::Stay], index),
        Production::MemberP => pick_hand(&[Hand::Stay, Hand::Stay, Hand::Stay], index),
        Production::NameCore(_) => pick_hand(&[Hand::Stay, Hand::Stay], index),
        Production::FunctionCore(_) => pick_hand(
            &[Hand::Stay, Hand::Stay, Hand::Stay, Hand::Stay],
            index,
        ),
        Production::Params => pick_hand(&[Hand::Stay, Hand::Stay, Hand::Stay], index),
        Production::ParamName => pick_hand(&[Hand::Stay, Hand::Stay], index),
        Production::ParamFunction => pick_hand(
            &[Hand::Stay, Hand::Stay, Hand::Stay, Hand::Stay],
            index,
        ),
        Production::Declaration => pick_hand(&[Hand::Stay, Hand::Stay, Hand::Stay], index),
        Production::Pointed => pick_hand(&[Hand::More, Hand::More, Hand::More], index),
        Production::ExprInside => pick_hand(&[Hand::Stay], index),
        Production::Suffix => pick_hand(&[Hand::Stay], index),
        Production::Member => pick_hand(&[Hand::Stay], index),
        Production::Index => pick_hand(&[Hand::Stay], index),
        Production::Call => pick_hand(&[Hand::Stay], index),
        Production::Arguments => pick_hand(&[Hand::Stay], index),
        Production::Binary(_) => pick_hand(&[Hand::Stay], index),
        Production::Assign => pick_hand(&[Hand::Stay], index),
        Production::Cond => pick_hand(&[Hand::Stay], index),
        Production::CommaExpr => pick_hand(&[Hand::Stay], index),
        Production::Cast => pick_hand(&[Hand::Stay], index),
        Production::ValueComma => pick_hand(&[Hand::Stay], index),
        Production::NextValue => pick_hand(&[Hand::Stay], index),
        Production::Braces => pick_hand(&[Hand::Stay], index),
        Production::ExprStatement => pick_hand(&[Hand::Stay], index),
        Production::IfElse => pick_hand(&[Hand::Stay], index),
        Production::DeclaredP => pick_hand(&[Hand::Stay], index),
        Production::Function => pick_hand(&[Hand::Stay], index),
        Production::Objects => pick_hand(&[Hand::Stay], index),
        _ => pick_hand(&[], index),
    }
}

/// The sum of two counts; none fits where memory would not hold what is counted.
pub fn sum(a: u32, b: u32) -> Result<u32, AllocError>
    ensures { IfOk result (λ n. n ≡ a + b) }
{
    match a.checked_add(b) {
        Some(n) => Ok(n),
        None => Err(AllocError),
    }
}

fn more(counted: Counted, by: u32, cast: bool) -> Result<Counted, AllocError>
    ensures { IfOk result (λ d. context_of d ≡ record { rest = counted.rest + by; declarator = counted.declarator; cast = cast }) }
{
    Ok(Counted {
        rest: sum(counted.rest, by)?,
        declarator: counted.declarator,
        cast,
    })
}

fn at_count(count: Count, so_far: Counted) -> Result<Counted, AllocError>
    ensures { IfOk result (λ d. context_of d ≡ counted (count_of count ∷ []) (context_of so_far)) }
{
    match count {
        Count::Same => Ok(so_far),
        Count::None => more(so_far, 0, true),
        Count::One => more(so_far, 1, true),
        Count::Two => more(so_far, 2, true),
        Count::Sized => more(so_far, 1, false),
        Count::Inner => more(so_far, 1, so_far.cast),
        Count::Close => Ok(Counted {
            rest: so_far.rest.saturating_sub(1),
            declarator: so_far.declarator,
            cast: true,
        }),
        Count::CloseType => {
            if so_far.cast {
                more(so_far, 0, true)
            } else {
                Ok(Counted {
                    rest: so_far.rest.saturating_sub(1),
                    declarator: so_far.declarator,
                    cast: true,
                })
            }
        }
    }
}

fn at_hand(hand: Hand, so_far: Counted) -> Result<Counted, AllocError>
    ensures { IfOk result (λ d. context_of d ≡ in_hand (hand_of hand ∷ []) (context_of so_far)) }
{
    match hand {
        Hand::Stay => Ok(so_far),
        Hand::More => Ok(Counted {
            rest: so_far.rest,
            declarator: sum(so_far.declarator, 1)?,
            cast: so_far.cast,
        }),
        Hand::Ended => Ok(Counted {
            rest: so_far.rest,
            declarator: 0,
            cast: so_far.cast,
        }),
        Hand::Within => Ok(Counted {
            rest: sum(sum(so_far.rest, so_far.declarator)?, 1)?,
            declarator: 0,
            cast: so_far.cast,
        }),
    }
}

/// What is counted before the part at a place of a production.
pub fn at_place(
    production: Production,
    index: usize,
    so_far: Counted,
) -> Result<Counted, AllocError>
    ensures { IfOk result (λ d. context_of d ≡ in_hand (drop index (hands production)) (counted (drop index (counts production)) (context_of so_far))) }
{
    let so_far = at_count(count_at_place(production, index), so_far)?;
    at_hand(hand_at_place(production, index), so_far)
}

/// Whether the operators of the part at a place count behind it.
pub fn carries(production: Production, index: usize) -> bool
    ensures { result ≡ carries_at production index }
{
    if index == 0 {
        is_operator(production)
    } else {
        goes_on(production)
    }
}

fn is_operator(production: Production) -> bool
    ensures { result ≡ is_operator production }
{
    match production {
        Production::Suffix | Production::Member | Production::Index | Production::Call => true,
        _ => goes_on(production),
    }
}

fn goes_on(production: Production) -> bool
    ensures { result ≡ goes_on production }
{
    match production {
        Production::Binary(_) | Production::Assign | Production::CommaExpr | Production::Cond =>
            true,
        _ => false,
    }
}
