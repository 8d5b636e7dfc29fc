//! The original cookies of a jar.
ghost use Rattle.std.specs.Prelude.{◌≡◌, IfOk};
ghost use Rattle.cookie.specs.Table.{original_fields};

use cookie_core::Cookie;
use std::alloc::{AllocError, Global};
use std::sync::Arc;

// A cookie that the jar began with. Its key shares it, and so do copies of the jar. Its type names no lifetime, as the
// calls on tables require.
#[derive(Debug, Drop)]
pub(crate) struct Original {
    pub(crate) cookie: Arc<Cookie<'static>, Global>,
}

impl Original {
    pub(crate) fn new(alloc: Global, cookie: Cookie<'static>) -> Result<Original, AllocError>
        ensures { IfOk result (λ made. original_fields made ≡ cookie.entry.fields) }
    {
        let cookie = Arc::new(alloc, cookie)?;
        Ok(Original { cookie })
    }
}
