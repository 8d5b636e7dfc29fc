//! What is told of a token.
ghost use Rattle.std.specs.Prelude.{◌≡◌, ◌≤◌, length};
ghost use Rattle.cookie_session.specs.Tokens.{token_id};
ghost use Rattle.cookie_c.specs.Tokens.{IsGivenToken, unread_token};

use crate::answer::Answer;
use crate::status::Status;
use cookie_session::{Token, Tokens};

/// The return value of a call that reads a token.
#[repr(C)]
#[derive(Clone, Copy, Default)]
pub struct TokenReading {
    /// The number of a `Status`. If it is neither `Status::Done` nor `Status::BufferTooShort`, the other fields are 0.
    pub status: u32,
    /// The number of bytes of the token's value, whether they had room or not.
    pub length: usize,
    /// When the token was made, in seconds since 1970 in UTC.
    pub made: u64,
    /// The second, since 1970 in UTC, in which the token is over.
    pub end: u64,
    /// The token's id, under which a store keeps until its end that it was read.
    pub id: [u8; 16],
}

impl TokenReading {
    // What is told where there is no token.
    pub(super) fn none(why: Status) -> TokenReading
        ensures { result ≡ unread_token why }
    {
        TokenReading {
            status: why.code(),
            ..TokenReading::default()
        }
    }

    // This token, which has this text. Its value is for the buffer.
    pub(super) fn give(token: &Token, text: &str, out: &mut [u8]) -> TokenReading
        requires { 16 ≤ length text.now }
        ensures { IsGivenToken token.now (token_id text.now) result out.old out.new }
    {
        let Answer { status, length } = Answer::give(token.value.as_bytes(), out);
        TokenReading {
            status,
            length,
            made: token.made,
            end: token.end,
            id: Tokens::id_of(text),
        }
    }
}
