//! A client that keeps cookies by name (RFC 6265 5.3, 5.4).
ghost use Rattle.std.specs.Prelude.{◌≡◌, ◌<◌, ◌^◌, ◌++◌, true, [], length, map, None, Some, IfOk, OnOk, OnErr, is_some, option_map, string_bytes};
ghost use Rattle.std.specs.FinMap.{empty, entries, get, insert};
ghost use Rattle.std.specs.Option.{option_copied};
ghost use Rattle.cookie.specs.CookieOf.{cookie_of};
ghost use Rattle.cookie.specs.Header.{header_texts};
ghost use Rattle.cookie.specs.Jar.{Name, view};
ghost use Rattle.cookie.specs.Memory.{Gives};
ghost use Rattle.cookie.specs.Originals.{field_cookies, jar_for};
ghost use Rattle.cookie.specs.Record.{IsCookie, plain};
ghost use Rattle.cookie_client.specs.Client.{after_cookie, after_text, header_text, pair_text};
ghost use Rattle.cookie_client.specs.declared.client_error.ClientError.TheVariants as refusal;

use crate::client_error::ClientError;
use crate::live::is_live;
use cookie::{Cookie, CookieJar, Pairs, ParseError, TextMap};
use jiff::civil::DateTime;
use std::alloc::{AllocError, Global};
use std::marker::Model;

/// A client that holds a value for each name.
#[derive(Drop)]
pub struct Client {
    alloc: Global,
    values: TextMap,
}

// Contracts see the finite map from names to values.
impl Model for Client {
    ghost use Rattle.std.specs.Prelude.{List, ℕ};
    ghost use Rattle.std.specs.FinMap.{FinMap};
    ghost use Rattle.cookie.specs.Jar.{name_cmp};
    ghost use Rattle.cookie.specs.TextMap.{texts_code};

    ghost Value = { FinMap name_cmp (List ℕ) };

    ghost coded = { texts_code };

    ghost view = { λ c. c.values };
}

impl Client {
    /// A client that holds nothing.
    pub fn new(alloc: Global) -> Client
        ensures { result ≡ empty }
    {
        Client {
            alloc,
            values: TextMap::new(alloc),
        }
    }

    /// Returns the value that it holds under the name.
    pub fn get(&self, name: &str) -> Option<&str>
        ensures { option_copied result ≡ get self.now name.now }
    {
        self.values.get(name)
    }

    /// Iterates over the names that it holds, with their values, in byte order of the names. It doesn't allocate.
    /// Example: `print` in crates/cookie_examples/src/following.rt.
    pub fn iter(&self) -> Pairs<'_>
        ensures listed { result ≡ entries self.now }

        // They can be counted.
        ensures fits { length result < 2 ^ 64 }
    {
        self.values.pairs()
    }

    /// Holds this value under the name from now on. Fails only with `ClientError::OutOfMemory`, and then the client is
    /// as before.
    pub fn hold(&mut self, name: &str, value: &str) -> Result<(), ClientError>
        ensures gives { Gives refusal.OutOfMemory result (λ _.
            self.new ≡ insert self.old name.now value.now) }
        ensures err { OnErr result (self.new ≡ self.old) }
    {
        self.values.set(name, value)?;
        Ok(())
    }

    /// A client that holds the same values. Fails only with `ClientError::OutOfMemory`.
    pub fn clone(&self) -> Result<Client, ClientError>
        ensures { Gives refusal.OutOfMemory result (λ made. made ≡ self.now) }
    {
        Ok(Client {
            alloc: self.alloc,
            values: self.values.clone()?,
        })
    }

    // Takes a cookie that was read: one that is live sets its name to its value, and another drops its name.
    fn take(&mut self, cookie: &Cookie<'_>, now: DateTime) -> Result<(), ClientError>
        ensures gives { Gives refusal.OutOfMemory result (λ _.
            self.new ≡ after_cookie now (Some cookie.now.fields) self.old) }
        ensures err { OnErr result (self.new ≡ self.old) }
    {
        if is_live(cookie, now) {
            self.hold(cookie.name(), cookie.value())?;
        } else {
            self.values.remove(cookie.name());
        }
        Ok(())
    }

    /// Reads the text of a `Set-Cookie` header at the time `now` in UTC, as by `Cookie::parse_encoded`, and returns
    /// whether it is a cookie. A cookie that is live ([`is_live`]) sets its name to its value, one that isn't drops its
    /// name, and a text that is no cookie changes nothing. Domain, path and `Secure` don't count, unlike in RFC 6265
    /// 5.3. Fails only with `ClientError::OutOfMemory`, and then the client is as before.
    pub fn read(&mut self, text: &str, now: DateTime) -> Result<bool, ClientError>
        ensures gives { Gives refusal.OutOfMemory result (λ is_cookie.
            (self.new ≡ after_text now text.now self.old)
            × (is_cookie ≡ is_some (cookie_of true text.now))) }
        ensures err { OnErr result (self.new ≡ self.old) }
    {
        match Cookie::parse_encoded(self.alloc, text) {
            Ok(cookie) => {
                self.take(&cookie, now)?;
                Ok(true)
            }
            Err(ParseError::OutOfMemory) => Err(ClientError::OutOfMemory),
            Err(ParseError::MissingPair | ParseError::EmptyName | ParseError::Utf8Error(_)) => {
                Ok(false)
            }
        }
    }

    /// Returns the value of its `Cookie` header (RFC 6265 5.4): each name and value, escaped, in byte order of the
    /// names.
    ///
    /// If it holds nothing under the empty name, the header's cookies, decoded, are those names and values. None is
    /// refused, and none is skipped by `CookieJar::with_originals`. Fails only with `ClientError::OutOfMemory`.
    /// Example: `print` in crates/cookie_examples/src/following.rt.
    pub fn header(&self) -> Result<String, ClientError>
        ensures text { Gives refusal.OutOfMemory result (λ header.
            string_bytes header ≡ header_text self.now) }
        ensures reads_back { get self.now [] ≡ None → IfOk result (λ header.
            map (cookie_of true) (header_texts (string_bytes header))
            ≡ map (λ pair. Some (plain pair.0 pair.1)) (entries self.now)) }
        ensures cookies { get self.now [] ≡ None → IfOk result (λ header.
            field_cookies (string_bytes header)
            ≡ map (λ pair. plain pair.0 pair.1) (entries self.now)) }
    {
        let mut header = String::new(self.alloc);
        let mut pairs = self.iter();
        let Some((name, value)) = pairs.next() else {
            return Ok(header);
        };
        push_pair(self.alloc, &mut header, name, value)?;
        for (name, value) in pairs {
            header.push_str("; ")?;
            push_pair(self.alloc, &mut header, name, value)?;
        }
        Ok(header)
    }

    /// Makes the jar of its next request (RFC 6265 5.4): a new one, whose originals are the cookies of its header,
    /// decoded.
    ///
    /// If it holds nothing under the empty name, the jar shows each name that it holds, with its value and nothing
    /// else, and no other name. Fails only with `ClientError::OutOfMemory`.
    pub fn next_jar(&self) -> Result<CookieJar, ClientError>
        ensures made { Gives refusal.OutOfMemory result (λ jar.
            jar ≡ jar_for (header_text self.now)) }
        ensures shows { get self.now [] ≡ None → IfOk result (λ jar. (name : Name)
            → view jar name ≡ option_map (plain name) (get self.now name)) }
    {
        let header = self.header()?;
        let jar = CookieJar::new(self.alloc).with_originals(header.as_str())?;
        Ok(jar)
    }
}

// Writes the name and the value as a cookie without attributes, escaped.
fn push_pair(alloc: Global, header: &mut String, name: &str, value: &str) -> Result<(), AllocError>
    ensures written { OnOk result (string_bytes header.new
        ≡ string_bytes header.old ++ pair_text (name.now, value.now)) }
    ensures cookie { IsCookie (plain name.now value.now) }
{
    let cookie = Cookie::new(name, value);
    let pair = cookie.encoded().stripped().to_string(alloc)?;
    header.push_str(pair.as_str())
}
