//! A token that was read.

use std::marker::Model;

/// A token that was read. Contracts see it as a `TokenState`.
#[derive(Drop)]
pub struct Token {
    /// Its value.
    pub value: String,
    /// When it was made, in seconds since 1970 in UTC.
    pub made: u64,
    /// The second, since 1970 in UTC, in which it is over.
    pub end: u64,
}

impl Model for Token {
    ghost use Rattle.std.specs.Prelude.{string_bytes};
    ghost use Rattle.cookie_session.specs.Tokens.{TokenState, token_code};

    ghost Value = { TokenState };

    ghost coded = { token_code };

    ghost view = { λ t. record {
      made = t.made;
      end = t.end;
      value = string_bytes t.value;
    } };
}
