//! The texts of a jar's changes, as a response sends them (RFC 6265 4.1.1).
ghost use Rattle.std.specs.Prelude.{◌↔◌, map, IfOk, IsErrOf, string_bytes};
ghost use Rattle.cookie.specs.AttributeValues.{AllFitFields};
ghost use Rattle.cookie.specs.DeltaTexts.{AreDeltaTextsOnce};
ghost use Rattle.cookie.specs.declared.texts_error.TextsError.TheVariants as refusal;

use crate::jar::CookieJar;
use crate::texts_error::TextsError;
use std::alloc::AllocError;

impl CookieJar {
    /// Returns the encoded texts of the delta's cookies, one for each. Their order isn't promised. A response sends
    /// each in a `Set-Cookie` header (RFC 6265 4.1.1).
    ///
    /// Names and values are escaped, and a path and a domain aren't. So the delta is refused as
    /// `TextsError::InvalidValue` if a path or a domain in it holds a control character, such as a line break, or a
    /// `;`. This comes before anything is allocated. Else it fails only if out of memory.
    /// Example: `answer` in crates/cookie_examples/src/main.rt.
    pub fn set_cookie_texts(&self) -> Result<Vec<String>, TextsError>
        ensures once { IfOk result (λ texts.
            AreDeltaTextsOnce self.now.delta (map string_bytes texts.items)) }
        ensures invalid { IsErrOf result refusal.InvalidValue ↔ ¬ (AllFitFields self.now.delta) }
    {
        if !self.fits_fields() {
            return Err(TextsError::InvalidValue);
        }
        Ok(self.all_texts()?)
    }

    // The texts, whatever paths and domains they have.
    fn all_texts(&self) -> Result<Vec<String>, AllocError>
        ensures { IfOk result (λ texts.
            AreDeltaTextsOnce self.now.delta (map string_bytes texts.items)) }
    {
        let alloc = self.allocator();
        let mut texts = Vec::new(alloc);
        for cookie in self.delta() {
            let text = cookie.encoded().to_string(alloc)?;
            texts.push(text)?;
        }
        Ok(texts)
    }
}
