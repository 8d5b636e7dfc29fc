//! The entries of a jar's two tables.
ghost use Rattle.std.specs.Prelude.{◌≡◌, ℕ, List, IfOk};
ghost use Rattle.cookie.specs.Table.{delta_mark, key_name, original_fields};
ghost use Rattle.cookie_core.specs.Record.{Record};
ghost use Rattle.cookie.specs.Jar.{Marked};

use crate::delta::DeltaCookie;
use crate::name_key::NameKey;
use crate::original::Original;
use std::alloc::AllocError;
use std::sync::Arc;

// The entry under a cookie's name.
pub(crate) trait Entry: Drop {
    // What a jar's contracts see of it.
    ghost Shown: { Type 0 };

    ghost shows: { Self → Shown };

    // The name of its cookie.
    ghost name_of: { Shown → List ℕ };

    // Its key in the table.
    fn key(&self) -> Result<NameKey, AllocError>
        ensures { IfOk result (λ key. key_name key ≡ name_of (shows self.now)) };

    // A copy that shows the same, and shares the cookie.
    fn copy(&self) -> Result<Self, AllocError>
        ensures { IfOk result (λ copy. shows copy ≡ shows self.now) };
}

impl Entry for Original {
    ghost Shown = { Record };

    ghost shows = { original_fields };

    ghost name_of = { λ r. r.name };

    fn key(&self) -> Result<NameKey, AllocError> {
        NameKey::of(&self.cookie)
    }

    fn copy(&self) -> Result<Original, AllocError> {
        let cookie = Arc::try_clone(&self.cookie)?;
        Ok(Original { cookie })
    }
}

impl Entry for DeltaCookie {
    ghost Shown = { Marked };

    ghost shows = { delta_mark };

    ghost name_of = { λ m. m.cookie.name };

    fn key(&self) -> Result<NameKey, AllocError> {
        NameKey::of(&self.cookie)
    }

    fn copy(&self) -> Result<DeltaCookie, AllocError> {
        let cookie = Arc::try_clone(&self.cookie)?;
        Ok(DeltaCookie {
            cookie,
            removed: self.removed,
        })
    }
}
