//! Refusals, and other values without a look of their own, as texts under each flag of a formatter.
use cookie::prefix::{Host, Prefix, Secure};
use cookie::{Error, Expiration, JarError, KeyError, ParseError, SameSite, TextsError};
use cookie_client::{ClientError, PrefixKind, RunError};
use cookie_http::HttpError;
use cookie_session::{KeyTextError, OpenError, SessionError, VisitError};
use cookie_theorems::ReturnError;
use rows::{Answer, Player, Step, debugged, printed};
use rows_children::test_key;
use std::fmt;
use std::fmt::{Debug, Display};

/// What plays the rows on refusals.
#[derive(Clone, Copy)]
pub struct Refusals;

impl Player for Refusals {
    fn answer(&mut self, step: Step<'_>) -> Answer {
        match step.words {
            "JarError::OutOfMemory" => told(step, JarError::OutOfMemory),
            "JarError::TooLong" => told(step, JarError::TooLong),
            "JarError::Generator" => told(step, JarError::Generator),
            "TextsError::OutOfMemory" => told(step, TextsError::OutOfMemory),
            "TextsError::InvalidValue" => told(step, TextsError::InvalidValue),
            "HttpError::OutOfMemory" => told(step, HttpError::OutOfMemory),
            "HttpError::InvalidValue" => told(step, HttpError::InvalidValue),
            "HttpError::TooManyFields" => told(step, HttpError::TooManyFields),
            "ParseError::OutOfMemory" => told(step, ParseError::OutOfMemory),
            "KeyError::TooShort(6)" => told(step, KeyError::TooShort(6)),
            "KeyError::MasterTooShort(31)" => told(step, KeyError::MasterTooShort(31)),
            "ClientError::OutOfMemory" => told(step, ClientError::OutOfMemory),
            "Error::OutOfMemory" => told(step, Error::OutOfMemory),
            "Error::InvalidValue" => told(step, Error::InvalidValue),
            "Error::Key" => told(step, Error::Key(KeyError::TooShort(6))),
            "Error::Parse" => told(step, Error::Parse(ParseError::EmptyName)),
            "Error::TooLong" => told(step, Error::Jar(JarError::TooLong)),
            "Error::Generator" => told(step, Error::Jar(JarError::Generator)),
            "SameSite::Strict" => told(step, SameSite::Strict),
            "SameSite::Lax" => told(step, SameSite::Lax),
            "SameSite::None" => told(step, SameSite::None),
            _ => fault_answer(step),
        }
    }
}

fn told<T: Display + Debug + Drop>(step: Step<'_>, value: T) -> Answer {
    match step.call {
        "text" => printed(step.alloc, &value),
        _ => named(step, value),
    }
}

fn named<T: Debug + Drop>(step: Step<'_>, value: T) -> Answer {
    (step.call == "debug").then_some(())?;
    step.escaped(debugged(step.alloc, &value)?.as_bytes())
}

fn fault_answer(step: Step<'_>) -> Answer {
    let fault = match step.words {
        "RunError::OutOfMemory" => RunError::OutOfMemory,
        "RunError::from(ClientError::OutOfMemory)" => RunError::from(ClientError::OutOfMemory),
        "RunError::Input" => RunError::Input,
        "RunError::Output" => RunError::Output,
        "RunError::BadMoment" => RunError::BadMoment,
        "RunError::BadInput" => RunError::BadInput,
        "RunError::BadLine(7)" => RunError::BadLine(7),
        _ => return session_answer(step),
    };
    match step.call {
        "status" => step.printed(fault.status()),
        _ => told(step, fault),
    }
}

// Refusals of what opens and saves sessions.
fn session_answer(step: Step<'_>) -> Answer {
    match step.words {
        "KeyTextError::OutOfMemory" => told(step, KeyTextError::OutOfMemory),
        "KeyTextError::Missing" => told(step, KeyTextError::Missing),
        "KeyTextError::NotBase64(1)" => told(step, KeyTextError::NotBase64(1)),
        "KeyTextError::TooShort(2, 63)" => told(step, KeyTextError::TooShort(2, 63)),
        "OpenError::OutOfMemory" => told::<OpenError<fmt::Error>>(step, OpenError::OutOfMemory),
        "OpenError::Revocations" => told(step, OpenError::Revocations(fmt::Error)),
        "VisitError::Session" => told::<VisitError<fmt::Error>>(step, SessionError::Over.into()),
        "VisitError::Gone" => told::<VisitError<fmt::Error>>(step, VisitError::Gone),
        "VisitError::Revocations" => told(step, VisitError::Revocations(fmt::Error)),
        "ReturnError::Session" => told(step, ReturnError::Session(SessionError::Over)),
        "ReturnError::Http" => told(step, ReturnError::Http(HttpError::TooManyFields)),
        _ => name_answer(step),
    }
}

// What has only a text for a programmer.
fn name_answer(step: Step<'_>) -> Answer {
    match step.words {
        "Key" => named(step, test_key()),
        "Host" => named(step, Host),
        "Secure" => named(step, Secure),
        "Host::PREFIX" => named(step, Host::PREFIX),
        "PrefixKind::Host" => named(step, PrefixKind::Host),
        "PrefixKind::Secure" => named(step, PrefixKind::Secure),
        "Expiration::Session" => named(step, Expiration::Session),
        words => {
            let date = words.strip_prefix("Expiration::DateTime(")?;
            let date = date.strip_suffix(')')?.parse().ok()?;
            named(step, Expiration::DateTime(date))
        }
    }
}
