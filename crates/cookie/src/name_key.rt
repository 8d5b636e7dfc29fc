//! The keys of a jar's tables.
ghost use Rattle.std.specs.Prelude.{◌≡◌};
ghost use Rattle.std.specs.Arc.{arc_value};
ghost use Rattle.cookie.specs.LastBytes.{last_byte};

use cookie_core::Cookie;
use indexmap::Equivalent;
use std::alloc::{AllocError, Global};
use std::fmt;
use std::hash::{Hash, Hasher};
use std::sync::Arc;

// The name of a cookie, read in the cookie itself, which the key shares.
#[derive(Drop)]
pub(crate) struct NameKey {
    cookie: Arc<Cookie<'static>, Global>,
    // Most names differ in it, so that they aren't compared.
    last: u8,
    ghost ends: { last ≡ last_byte (arc_value cookie).fields.name },
}

impl NameKey {
    ghost use Rattle.std.specs.Prelude.{◌≡◌, IfOk, bytes_eq};
    ghost use Rattle.std.specs.Arc.{arc_value};
    ghost use Rattle.cookie.specs.Table.{key_name};

    // The name of this cookie.
    pub(crate) fn of(cookie: &Arc<Cookie<'static>, Global>) -> Result<NameKey, AllocError>
        ensures { IfOk result (λ key. key_name key ≡ (arc_value cookie.now).fields.name) }
    {
        let last = last_byte(cookie.name());
        Ok(NameKey {
            cookie: Arc::try_clone(cookie)?,
            last,
        })
    }

    // Whether it is this name, which ends with the byte `last`.
    #[inline(always)]
    pub(crate) fn is(&self, name: &str, last: u8) -> bool
        requires { last ≡ last_byte name.now }
        ensures { result ≡ bytes_eq name.now (key_name self.now) }
    {
        self.last == last && name == self.as_str()
    }

    pub(crate) fn as_str(&self) -> &str
        ensures { result.now ≡ key_name self.now }
    {
        self.cookie.name()
    }

    // The same name, in the same cookie.
    pub(crate) fn copy(&self) -> Result<NameKey, AllocError>
        ensures { IfOk result (λ key. key_name key ≡ key_name self.now) }
    {
        NameKey::of(&self.cookie)
    }
}

// The last byte of a name, or 0.
pub(crate) fn last_byte(name: &str) -> u8
    ensures { result ≡ last_byte name.now }
{
    match name.as_bytes() {
        [.., last] => *last,
        [] => 0,
    }
}

impl PartialEq for NameKey {
    ghost use Rattle.std.specs.Prelude.{bytes_eq};
    ghost use Rattle.std.specs.Cmp.{on_per, partial_equiv_from_equiv};
    ghost use Rattle.std.specs.Cmp.Lexicographic.{nat_list_eq_equiv};
    ghost use Rattle.cookie.specs.Table.{key_name};

    ghost eq = { λ a b. bytes_eq (key_name a) (key_name b) };

    ghost laws = { on_per key_name (partial_equiv_from_equiv nat_list_eq_equiv) };

    fn eq(&self, other: &NameKey) -> bool {
        self.as_str() == other.as_str()
    }
}

impl Eq for NameKey {
    ghost use Rattle.std.specs.Cmp.{on_equiv};
    ghost use Rattle.std.specs.Cmp.Lexicographic.{nat_list_eq_equiv};
    ghost use Rattle.cookie.specs.Table.{key_name};

    ghost laws = { on_equiv key_name nat_list_eq_equiv };
}

impl Hash for NameKey {
    ghost use Rattle.std.proofs.Common.{rules};
    ghost use Rattle.std.specs.Cmp.Rules.{hashing};
    ghost use Rattle.std.specs.Hash as fed;
    ghost use Rattle.cookie.specs.Table.{key_name};

    ghost hash_input = { λ key. fed.str (key_name key) };

    ghost respects_eq = { Prim.search (hashing, rules) };

    fn hash<H: Hasher>(&self, state: &mut H) {
        self.as_str().hash(state);
    }
}

// A name is looked up by its text.
impl Equivalent<NameKey> for &str {
    ghost use Rattle.std.specs.Prelude.{bytes_eq};
    ghost use Rattle.std.proofs.Common.{ap};
    ghost use Rattle.std.specs.Cmp.Lexicographic.{bytes_decides, nat_list_eq_equiv};
    ghost use Rattle.std.specs.Hash as fed;
    ghost use Rattle.cookie.specs.Table.{key_name};

    ghost equivalent = { λ name key. bytes_eq name.now (key_name key) };

    ghost respects_hash = { λ name key same.
        ap fed.str ((bytes_decides name.now (key_name key)).0 same) };

    ghost respects_eq = { λ name x y. nat_list_eq_equiv.congr name.now (key_name x) (key_name y) };

    fn equivalent(&self, key: &NameKey) -> bool {
        *self == key.as_str()
    }
}

impl fmt::Debug for NameKey {
    fn fmt<W: fmt::Write>(&self, f: &mut fmt::Formatter<W>) -> fmt::Result {
        fmt::Debug::fmt(&self.as_str(), f)
    }
}
