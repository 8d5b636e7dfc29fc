//! Texts with escapes (RFC 3986 2.1).
ghost use Rattle.std.specs.Prelude.{◌≡◌, ◌≤◌, ◌++◌, OnOk, length, take, drop, nat_lt};
ghost use Rattle.cookie_core.specs.EscapeTest.{has_escape};
ghost use Rattle.cookie_core.specs.Escapes.{unescape};

use crate::encoding::plain_length;
use percent_encoding::percent_decode;
use std::alloc::AllocError;

/// A text, and how many of its bytes stand before the first escape. Ghost fields say so.
#[derive(Clone, Copy)]
pub(crate) struct EscapedText<'t> {
    pub(crate) text: &'t str,
    plain: usize,
    ghost bound: { plain ≤ length text.now },
    ghost kept: { unescape text.now ≡ take plain text.now ++ unescape (drop plain text.now) },
    ghost escape: { has_escape text.now ≡ nat_lt plain (length text.now) },
}

impl<'t> EscapedText<'t> {
    // The text, once its first escape is looked for.
    pub(crate) fn of(text: &'t str) -> EscapedText<'t>
        ensures { result.text.now ≡ text.now }
    {
        let plain = plain_length(text.as_bytes());
        EscapedText { text, plain }
    }

    pub(crate) fn holds_escape(self) -> bool
        ensures { result ≡ has_escape self.entry.text.now }
    {
        self.plain < self.text.len()
    }

    // Adds the percent-decoded bytes of the text.
    pub(crate) fn push_decoded(self, bytes: &mut Vec<u8>) -> Result<(), AllocError>
        ensures { OnOk result (bytes.new.items
            ≡ bytes.old.items ++ unescape self.entry.text.now) }
    {
        let (plain, rest) = self.text.as_bytes().split_at(self.plain);
        bytes.extend_from_slice(plain)?;
        percent_decode(rest).append_to(bytes)
    }
}
