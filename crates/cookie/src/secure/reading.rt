//! How stored values are read: each key reads them in a way of its own.
ghost use Rattle.std.specs.Prelude.{◌≡◌, ◌↔◌, ℕ, List, None, Some, IfSome, alloc_error, option_map, string_bytes};
ghost use Rattle.cookie_core.specs.Memory.{Gives};
ghost use Rattle.cookie.specs.AnswersExactly.{AnswersExactly};
ghost use Rattle.cookie.specs.Jar.{view};

use crate::jar::CookieJar;
use cookie_core::Cookie;
use std::alloc::{AllocError, Global};

// How the values that are stored are read.
pub(crate) trait Reading: Drop {
    // The text that is stored under the name stands for this value.
    ghost StandsFor: { Self → List ℕ → List ℕ → List ℕ → Type 0 };

    // The value that the text stands for under the name, if it stands for one.
    fn value_of(&self, alloc: Global, name: &str, text: &str) -> Result<Option<String>, AllocError>
        ensures { Gives alloc_error result (λ answer. (v : List ℕ)
            → (option_map string_bytes answer ≡ Some v)
            ↔ StandsFor self.now name.now text.now v) };
}

// The cookie with the value that its own stands for, if it stands for one.
pub(crate) fn read<'c, R: Reading>(
    alloc: Global,
    reader: &R,
    mut cookie: Cookie<'c>,
) -> Result<Option<Cookie<'c>>, AllocError>
    ensures answers { Gives alloc_error result (λ answer.
        AnswersExactly (λ c v. R.StandsFor reader.now c.name c.value v)
        (Some cookie.entry.fields) (option_map (λ c. c.fields) answer)) }
    ensures raw { Gives alloc_error result (λ answer.
        IfSome answer (λ c. c.raw ≡ record cookie.entry.raw { value = None })) }
{
    let Some(value) = reader.value_of(alloc, cookie.name(), cookie.value())? else {
        return Ok(None);
    };
    cookie.set_value_owned(value);
    Ok(Some(cookie))
}

impl CookieJar {
    // The cookie that the jar shows under the name, with the value that its own stands for.
    pub(crate) fn get_read<R: Reading>(
        &self,
        reader: &R,
        name: &str,
    ) -> Result<Option<Cookie<'static>>, AllocError>
        ensures answers { Gives alloc_error result (λ answer.
            AnswersExactly (λ c v. R.StandsFor reader.now c.name c.value v)
            (view self.now name.now) (option_map (λ c. c.fields) answer)) }
        ensures raw { Gives alloc_error result (λ answer.
            IfSome answer (λ c. c.raw.value ≡ None)) }
    {
        let alloc = self.allocator();
        match self.get(name) {
            Some(cookie) => read(alloc, reader, cookie.clone(alloc)?),
            None => Ok(None),
        }
    }
}
