//! Bytes of a text: a name, or the value of a string.

ghost use Rattle.std.specs.Prelude.{◌≡◌, ℕ, List, length, ◌++◌, IfOk, OnOk, OnErr, IsTrue, ◌↔◌};
ghost use Rattle.std.proofs.Common.{ap};
ghost use Rattle.std.specs.Str.{bytes_eq};
ghost use Rattle.std.specs.Cmp.{partial_equiv_from_equiv};
ghost use Rattle.std.specs.Cmp.Lexicographic.{bytes_decides, nat_list_eq_equiv};
ghost use Rattle.std.specs.Hash as fed;

use std::alloc::{AllocError, Global};
use std::hash::{Hash, Hasher};
use std::marker::Model;

/// A list of bytes, seen as that list.
#[derive(Drop)]
pub struct Text {
    bytes: Vec<u8>,
}

impl Model for Text {
    ghost use Rattle.std.specs.Prelude.{ℕ, List};

    ghost Value = { List ℕ };

    ghost view = { λ t. t.bytes.items };
}

impl Text {
    /// The text of these bytes.
    pub fn from_bytes(bytes: Vec<u8>) -> Text
        ensures { result ≡ bytes.items }
    {
        Text { bytes }
    }

    /// The bytes of the text.
    pub fn as_bytes(&self) -> &[u8]
        ensures { result.now ≡ self.now }
    {
        self.bytes.as_slice()
    }

    /// A copy of the text.
    pub fn copied(&self, alloc: Global) -> Result<Text, AllocError>
        ensures { IfOk result (λ t. t ≡ self.now) }
    {
        let bytes = Vec::from_slice(alloc, self.bytes.as_slice())?;
        Ok(Text { bytes })
    }

    /// Adds the bytes of another text at the end. An `Err` changes nothing.
    pub fn append(&mut self, other: &Text) -> Result<(), AllocError>
        ensures ok { OnOk result (self.new ≡ self.old ++ other.now) }
        ensures err { OnErr result (self.new ≡ self.old) }
    {
        self.bytes.extend_from_slice(other.as_bytes())
    }
}

impl PartialEq for Text {
    ghost eq = { bytes_eq };

    ghost laws = { partial_equiv_from_equiv nat_list_eq_equiv };

    fn eq(&self, other: &Text) -> bool {
        self.as_bytes() == other.as_bytes()
    }
}

impl Eq for Text {
    ghost laws = { nat_list_eq_equiv };
}

impl Hash for Text {
    ghost hash_input = { fed.slice fed.u8 };

    ghost respects_eq = { λ a b e. ap (fed.slice fed.u8) ((bytes_decides a b).0 e) };

    fn hash<H: Hasher>(&self, state: &mut H) {
        self.as_bytes().hash(state);
    }
}
