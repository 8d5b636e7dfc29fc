//! A session.
ghost use Rattle.std.specs.Prelude.{◌≡◌, ◌↔◌, ◌<◌, ◌^◌, IfOk, IsTrue, OnErr, OnOk, length, string_bytes};
ghost use Rattle.std.specs.FinMap.{empty, entries, get, insert, remove};
ghost use Rattle.std.specs.Option.{option_copied};
ghost use Rattle.cookie_session.specs.Form.{form_of_texts, texts_of_form};
ghost use Rattle.cookie_session.specs.Id.{IsId};
ghost use Rattle.cookie_session.specs.Session.{IsAlive, IsSessionText, pass_of, seen_at};

use crate::id::ID_LENGTH;
use crate::pair_text::push_pair;
use crate::pass::Pass;
use crate::times::Times;
use base64::engine::general_purpose::URL_SAFE_NO_PAD;
use cookie::{Pairs, TextMap};
use form_urlencoded::Serializer;
use itoa::Buffer;
use std::alloc::{AllocError, Global};
use std::marker::Model;

// Most texts have at most this many bytes.
const USUAL_LENGTH: usize = 256;

/// A session: its id, when it started, the limits that it started with, when it was last saved, and texts by name.
/// Contracts see these as a `SessionState`. [`Sessions::start`] makes one.
///
/// ```
/// let mut session = sessions.start(alloc, now, &mut rng)?;
/// session.set("user", "ann")?;
/// ```
#[derive(Drop)]
pub struct Session {
    id: [u8; ID_LENGTH],
    times: Times,
    texts: TextMap,
}

impl Model for Session {
    ghost use Rattle.cookie_session.specs.Id.{IsId};
    ghost use Rattle.cookie_session.specs.Session.{SessionState, session_code};

    ghost Value = { SessionState };

    ghost coded = { session_code };

    ghost view = { λ s. record {
      id = s.id;
      started = s.times.started;
      end = s.times.end;
      idle = s.times.idle;
      seen = s.times.seen;
      texts = s.texts;
    } };

    ghost invariant = { λ s. IsId s.id };
}

impl Session {
    // A session of these parts.
    pub(crate) fn of(id: [u8; 16], times: Times, texts: TextMap) -> Session
        ensures { result ≡ record {
          id = id;
          started = times.started;
          end = times.end;
          idle = times.idle;
          seen = times.seen;
          texts = texts;
        } }
    {
        Session { id, times, texts }
    }

    // Its times and limits.
    pub(crate) fn times(&self) -> Times
        ensures { result ≡ record {
          started = self.now.started;
          end = self.now.end;
          idle = self.now.idle;
          seen = self.now.seen;
        } }
    {
        self.times
    }

    // Starts it anew, with this id and these times.
    pub(crate) fn restart(&mut self, id: [u8; 16], times: Times)
        ensures { self.new ≡ record {
          id = id;
          started = times.started;
          end = times.end;
          idle = times.idle;
          seen = times.seen;
          texts = self.old.texts;
        } }
    {
        self.id = id;
        self.times = times;
    }

    /// Its id. Each copy of its cookie has it, whenever it was saved, until it is renewed.
    pub fn id(&self) -> &[u8; 16]
        ensures value { result.now ≡ self.now.id }
        ensures is_id { IsId self.now.id }
    {
        &self.id
    }

    /// When it started, in seconds since 1970 in UTC.
    pub fn started(&self) -> u64
        ensures { result ≡ self.now.started }
    {
        self.times.started
    }

    /// The second, since 1970 in UTC, in which it is over, however it is used: when it started or was renewed, plus the
    /// site's lifetime at that time. Each copy of its cookie has it. Under a shorter lifetime of the site it is over
    /// earlier.
    pub fn end(&self) -> u64
        ensures { result ≡ self.now.end }
    {
        self.times.end
    }

    /// What all copies of its cookie have in common: its id, and the second in which it is over.
    pub fn pass(&self) -> Pass
        ensures { result ≡ pass_of self.now }
    {
        Pass {
            id: self.id,
            end: self.times.end,
        }
    }

    /// The seconds that it lives after it was last saved: the site's idle time when it started or was renewed. Under a
    /// shorter one of the site it lives shorter.
    pub fn idle(&self) -> u64
        ensures { result ≡ self.now.idle }
    {
        self.times.idle
    }

    /// When it was last saved before it was opened, or else when it started or was renewed, in seconds since 1970 in
    /// UTC. `save` doesn't change it.
    pub fn seen(&self) -> u64
        ensures { result ≡ self.now.seen }
    {
        self.times.seen
    }

    /// Returns the text at `name`, or `None` if there is none.
    /// Example: `print` in crates/cookie_examples/src/handler.rt.
    pub fn get(&self, name: &str) -> Option<&str>
        ensures { option_copied result ≡ get self.now.texts name.now }
    {
        self.texts.get(name)
    }

    /// Whether it has no texts. It doesn't allocate.
    pub fn is_empty(&self) -> bool
        ensures { IsTrue result ↔ (self.now.texts ≡ empty) }
    {
        self.texts.pairs().next().is_none()
    }

    /// Iterates over the names with their texts, in byte order of the names. It doesn't allocate.
    pub fn iter(&self) -> Pairs<'_>
        ensures listed { result ≡ entries self.now.texts }

        // They can be counted.
        ensures fits { length result < 2 ^ 64 }
    {
        self.texts.pairs()
    }

    /// Puts a copy of `text` at `name`. Fails only if out of memory, and then leaves the session as it was.
    pub fn set(&mut self, name: &str, text: &str) -> Result<(), AllocError>
        ensures ok { OnOk result (self.new
            ≡ record self.old { texts = insert self.old.texts name.now text.now }) }
        ensures err { OnErr result (self.new ≡ self.old) }
    {
        self.texts.set(name, text)
    }

    /// Drops the text at `name`.
    pub fn remove(&mut self, name: &str)
        ensures { self.new ≡ record self.old { texts = remove self.old.texts name.now } }
    {
        self.texts.remove(name);
    }

    /// Its texts as a form, `name=value&name=value`, in byte order of the names (URL Standard 5.2). `set_form` reads
    /// it back.
    ///
    /// Fails only if out of memory.
    pub fn to_form(&self, alloc: Global) -> Result<String, AllocError>
        ensures value { IfOk result (λ form. string_bytes form ≡ form_of_texts self.now.texts) }

        // Read as a form, it is these texts again.
        ensures back { IfOk result (λ form. texts_of_form (string_bytes form) ≡ self.now.texts) }
    {
        let mut form = Serializer::new(String::new(alloc));
        for (name, value) in self.texts.pairs() {
            form.append_pair(name, value)?;
        }
        Ok(form.finish())
    }

    // Whether it lives in the second `now`, if it was last saved in the second `seen`.
    pub(crate) fn is_alive(&self, lifetime: u32, idle: u32, seen: u64, now: u64) -> bool
        ensures { IsTrue result ↔ IsAlive lifetime idle now (seen_at seen self.now) }
    {
        let Times {
            started,
            end,
            idle: own,
            ..
        } = self.times;
        started <= now
            && now - started < lifetime as u64
            && now < end
            && now.saturating_sub(seen) < own.min(idle as u64)
    }

    // The text of the session, saved in the second `seen`. An id has no escapes.
    pub(crate) fn text_at(&self, alloc: Global, seen: u64) -> Result<String, AllocError>
        ensures { IfOk result (λ text. IsSessionText (string_bytes text) (seen_at seen self.now)) }
    {
        let mut text = String::with_capacity(alloc, USUAL_LENGTH)?;
        text.push_str("v=4&id=")?;
        URL_SAFE_NO_PAD.encode_string(&self.id, &mut text)?;
        push_pair(
            &mut text,
            "started",
            Buffer::new().format(self.times.started),
        )?;
        push_pair(&mut text, "end", Buffer::new().format(self.times.end))?;
        push_pair(&mut text, "idle", Buffer::new().format(self.times.idle))?;
        push_pair(&mut text, "seen", Buffer::new().format(seen))?;
        for (name, value) in self.texts.pairs() {
            push_pair(&mut text, name, value)?;
        }
        Ok(text)
    }
}
