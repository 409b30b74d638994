//! The names of views.

ghost use Rattle.std.specs.Prelude.{◌≡◌, ◌≤◌, length};

use std::marker::Model;

/// The name of a view: at most 32 bytes, which it holds itself.
#[derive(Drop)]
pub struct Name {
    bytes: [u8; Name::MAX_LEN],
    len: usize,
}

impl Model for Name {
    ghost use Rattle.std.specs.Prelude.{ℕ, List, take, ◌≤◌};
    ghost use Rattle.sab_report_text.specs.declared.words.name.TheConstants.Name.{MAX_LEN};

    ghost Value = { List ℕ };

    ghost view = { λ n. take n.len n.bytes };

    ghost invariant = { λ n. n.len ≤ MAX_LEN };
}

impl Name {
    /// How many bytes a name can have.
    pub const MAX_LEN: usize = 32;

    /// A name of these bytes.
    pub fn new(name: &[u8]) -> Name
        requires { length name.now ≤ Name.MAX_LEN }
        ensures { result ≡ name.now }
    {
        let mut bytes = [0; Self::MAX_LEN];
        let len = name.len();
        bytes[..len].copy_from_slice(name);
        Name { bytes, len }
    }

    /// Its bytes.
    pub fn bytes(&self) -> &[u8]
        ensures bytes { result.now ≡ self.now }
        ensures len { length result.now ≤ Name.MAX_LEN }
    {
        &self.bytes[..self.len]
    }
}
