//! The cookies of a jar's delta.
ghost use Rattle.std.specs.Prelude.{◌≡◌, IfOk};
ghost use Rattle.cookie.specs.Jar.{added_mark, dropped_mark};
ghost use Rattle.cookie.specs.Table.{delta_mark};
ghost use Rattle.cookie_core.specs.Removal.{removal};

use cookie_core::Cookie;
use jiff::civil::DateTime;
use std::alloc::{AllocError, Global};
use std::sync::Arc;

// A cookie that was added, or one that tells the client to drop its name. Its key shares it, and so do copies of the jar.
#[derive(Debug, Drop)]
pub(crate) struct DeltaCookie {
    pub(crate) cookie: Arc<Cookie<'static>, Global>,
    pub(crate) removed: bool,
}

impl DeltaCookie {
    pub(crate) fn addition(
        alloc: Global,
        cookie: Cookie<'static>,
    ) -> Result<DeltaCookie, AllocError>
        ensures { IfOk result (λ made. delta_mark made ≡ added_mark cookie.entry.fields) }
    {
        let cookie = Arc::new(alloc, cookie)?;
        Ok(DeltaCookie {
            cookie,
            removed: false,
        })
    }

    pub(crate) fn removal(
        alloc: Global,
        mut cookie: Cookie<'static>,
        now: DateTime,
    ) -> Result<DeltaCookie, AllocError>
        ensures { IfOk result (λ made.
            delta_mark made ≡ dropped_mark (removal now cookie.entry.fields)) }
    {
        cookie.make_removal(now);
        let cookie = Arc::new(alloc, cookie)?;
        Ok(DeltaCookie {
            cookie,
            removed: true,
        })
    }
}
