//! Names of obstacles, screens and routes.

ghost use Rattle.std.specs.Prelude.{◌≡◌, Some, None, if◌then◌else◌};
ghost use Rattle.std.specs.List.{list_all};
ghost use Rattle.text_spec.specs.Names.{is_allowed, is_name, IsName};

use arrayvec::ArrayVec;
use std::hash::{Hash, Hasher};
use std::marker::Model;

/// How many bytes a name may have.
pub const MAX_NAME_BYTES: usize = 32;

/// A name of 1 to 32 letters, digits, `_` and `-`. Contracts see its bytes.
#[derive(Drop)]
pub struct Name {
    bytes: ArrayVec<u8, MAX_NAME_BYTES>,
}

impl Model for Name {
    ghost use Rattle.std.specs.Prelude.{List, ℕ};
    ghost use Rattle.text_spec.specs.Names.{IsName};

    ghost Value = { List ℕ };

    ghost view = { λ a. a.bytes.items };

    ghost invariant = { λ a. IsName a.bytes.items };
}

fn allowed(byte: u8) -> bool
    ensures { result ≡ is_allowed byte }
{
    byte.is_ascii_alphanumeric() || byte == b'_' || byte == b'-'
}

fn all_allowed(bytes: &[u8]) -> bool
    ensures { result ≡ list_all is_allowed bytes.now }
{
    bytes.iter().all(|byte| allowed(*byte))
}

impl Name {
    /// The bytes as a name, or `None` exactly where they aren't one.
    pub fn of(bytes: &[u8]) -> Option<Name>
        ensures { result ≡ (if is_name bytes.now then Some bytes.now else None) }
    {
        if bytes.is_empty() || bytes.len() > MAX_NAME_BYTES || !all_allowed(bytes) {
            return None;
        }
        let mut kept = ArrayVec::new();
        for byte in bytes {
            kept.push(*byte);
        }
        Some(Name { bytes: kept })
    }

    /// The bytes of the name, which callers then know to be one.
    pub fn bytes(&self) -> &[u8]
        ensures value { result.now ≡ self.now }
        ensures named { IsName self.now }
    {
        &self.bytes
    }

    /// The same name again.
    pub fn copy(&self) -> Name
        ensures { result ≡ self.now }
    {
        let mut kept = ArrayVec::new();
        for byte in self.bytes.as_slice() {
            kept.push(*byte);
        }
        Name { bytes: kept }
    }
}

impl PartialEq for Name {
    ghost use Rattle.std.specs.Str.{bytes_eq};
    ghost use Rattle.std.specs.Cmp.{partial_equiv_from_equiv};
    ghost use Rattle.std.proofs.lemmas.Cmp.{nat_list_eq_equiv};

    ghost eq = { bytes_eq };

    ghost laws = { partial_equiv_from_equiv nat_list_eq_equiv };

    fn eq(&self, other: &Self) -> bool {
        self.bytes.as_slice() == other.bytes.as_slice()
    }
}

impl Eq for Name {
    ghost use Rattle.std.proofs.lemmas.Cmp.{nat_list_eq_equiv};

    ghost laws = { nat_list_eq_equiv };
}

impl Hash for Name {
    ghost use Rattle.std.proofs.Common.{rules};
    ghost use Rattle.std.specs.Hash as fed;
    ghost use Rattle.std.specs.Cmp.Rules.{comparing, hashing};

    ghost hash_input = { fed.slice fed.u8 };

    ghost respects_eq = { Prim.search (hashing, rules) };

    fn hash<H: Hasher>(&self, state: &mut H) {
        self.bytes.as_slice().hash(state);
    }
}
