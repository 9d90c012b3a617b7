//! The result, as far as it is made.

ghost use Rattle.std.specs.Prelude.{◌≡◌, [], ◌∷◌, List, OnOk, Ok, Err};
ghost use Rattle.c_prep.specs.Macros.{Act, Replaces, Gives, item_of};
ghost use Rattle.c_prep.specs.Prepared.{outcome};
ghost use Rattle.c_prep.specs.Outcome.{Answers};

use crate::fault::PrepFault;
use c_syntax::{Kind, RawKind, Token, put};
use std::alloc::{AllocError, Global};

const MOST_REPLACED: u32 = 1_000_000;

// With the end.
const MOST_TOKENS: usize = 1_000_001;

/// The tokens so far; once there are too many, or too many names were replaced, none is kept.
#[derive(Drop)]
pub struct Output {
    pub tokens: Vec<Token>,
    /// Why the first token that there can't be is refused.
    pub refused: Option<PrepFault>,
    pub replaced: u32,
    pub over: bool,
}

ghost use Rattle.c_prep.specs.Views.{Follows, Adds, place_of};

impl Output {
    /// Nothing yet.
    pub fn new(alloc: Global) -> Output
        ensures { Follows result [] }
    {
        Output {
            tokens: Vec::new(alloc),
            refused: None,
            replaced: 0,
            over: false,
        }
    }

    /// Whether the result is too large.
    pub fn is_over(&self) -> bool
        ensures { result ≡ self.now.over }
    {
        self.over
    }

    /// Counts a name that is replaced.
    pub fn replace(&mut self)
        ensures { Adds self.old self.new (Replaces ∷ []) }
    {
        if self.over {
            return;
        }
        if self.replaced >= MOST_REPLACED {
            self.over = true;
            return;
        }
        self.replaced += 1;
    }

    /// Adds a token.
    pub fn put_token(&mut self, token: Token) -> Result<(), AllocError>
        ensures { OnOk result (Adds self.old self.new (Gives (Ok token) ∷ [])) }
    {
        if self.over {
            return Ok(());
        }
        put(&mut self.tokens, token)?;
        self.over = self.tokens.len() > MOST_TOKENS;
        Ok(())
    }

    // Adds a token that there can't be.
    fn refuse(&mut self, fault: PrepFault, pos: u32) -> Result<(), AllocError>
        requires { place_of fault ≡ pos }
        ensures { OnOk result (Adds self.old self.new (Gives (Err fault) ∷ [])) }
    {
        if self.over {
            return Ok(());
        }
        let kind = Kind::Null;
        put(&mut self.tokens, Token { kind, pos })?;
        self.refused = Some(self.refused.unwrap_or(fault));
        self.over = self.tokens.len() > MOST_TOKENS;
        Ok(())
    }

    /// Adds a token at a place, if there can be one.
    pub fn give(&mut self, kind: RawKind, pos: u32) -> Result<(), AllocError>
        ensures { OnOk result (Adds self.old self.new (Gives (item_of kind pos) ∷ [])) }
    {
        match kind {
            RawKind::Plain(kind) => self.put_token(Token { kind, pos }),
            RawKind::Hash => self.refuse(PrepFault::BadChar(pos), pos),
            RawKind::Wide => self.refuse(PrepFault::NumberRange(pos), pos),
        }
    }

    /// The tokens, or the refusal of the first that there can't be.
    pub fn into_tokens(self) -> Result<Vec<Token>, PrepFault>
        ensures { (acts : List Act) → Follows self acts → Answers (λ v. v.items) result (outcome acts) }
    {
        if self.over {
            return Err(PrepFault::TooLarge);
        }
        match self.refused {
            Some(fault) => Err(fault),
            None => Ok(self.tokens),
        }
    }
}
