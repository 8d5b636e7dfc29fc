//! The texts of a jar's changes, in any order.
ghost use Rattle.std.specs.Prelude.{map, IfOk, string_bytes};
ghost use Rattle.cookie.specs.DeltaTexts.{AreDeltaTexts, AreDeltaTextsOnce};

use crate::order::reorder;
use cookie::CookieJar;
use std::alloc::{AllocError, Global};

/// Returns the encoded text of each cookie of the delta, in the order of `pick`, whatever paths and domains they have:
/// unlike `CookieJar::set_cookie_texts`, it refuses none. So print these texts into no header.
///
/// The i-th text is number `pick[i]` of those that are left, in the order of `CookieJar::delta` and modulo their
/// number, or number 0 after the end of `pick`. Fails only if out of memory.
pub fn delta_texts(
    alloc: Global,
    jar: &CookieJar,
    pick: &[usize],
) -> Result<Vec<String>, AllocError>
    ensures each { IfOk result (λ texts.
        AreDeltaTexts jar.now.delta (map string_bytes texts.items)) }
    ensures once { IfOk result (λ texts.
        AreDeltaTextsOnce jar.now.delta (map string_bytes texts.items)) }
{
    let texts = all_texts(alloc, jar)?;
    reorder(alloc, texts, pick)
}

// The texts, in the order of `CookieJar::delta`.
fn all_texts(alloc: Global, jar: &CookieJar) -> Result<Vec<String>, AllocError>
    ensures { IfOk result (λ texts.
        AreDeltaTextsOnce jar.now.delta (map string_bytes texts.items)) }
{
    let mut texts = Vec::new(alloc);
    for cookie in jar.delta() {
        let text = cookie.encoded().to_string(alloc)?;
        texts.push(text)?;
    }
    Ok(texts)
}
