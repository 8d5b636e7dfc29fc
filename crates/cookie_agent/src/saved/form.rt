//! The forms in which stored cookies are saved.
ghost use Rattle.std.specs.Prelude.{◌≡◌, ◌++◌, [], ◌∷◌, true, IfOk, OnOk};
ghost use Rattle.std.specs.List.{list_all};
ghost use Rattle.jiff.specs.Types.{DateTime};
ghost use Rattle.cookie_browser.specs.Storage.{CookieStore};
ghost use Rattle.cookie_agent.specs.JsonLines.{has_bytes};
ghost use Rattle.cookie_agent.specs.Saved.{bad_lines_of, cookies_of, left_out};
ghost use Rattle.cookie_agent.specs.SavedForms as spec;
ghost use Rattle.cookie_agent.specs.SavedFormsCode as code;
ghost use Rattle.cookie_agent.specs.Storable.{is_storable_by};
ghost use Rattle.cookie_agent.specs.declared.saved.form.SavedForm.TheVariants as form;

use crate::cookies::Cookies;
use crate::saved::line::Line;
use crate::saved::loaded::LoadedCookies;
use crate::saved::{
    SavedCookies, cookies_txt, is_persistent, json_lines, lines_of, without_return,
};
use crate::stored::StoredCookie;
use cookie_browser::Suffixes;
use jiff::civil::DateTime;
use std::alloc::{AllocError, Global};

/// A form in which stored cookies are saved: a text of lines, each of which has one cookie.
#[derive(Clone, Copy)]
pub enum SavedForm {
    /// Netscape's `cookies.txt`, as curl and wget write and read it, after the line `# Netscape HTTP Cookie File`.
    ///
    /// Seven fields with tabs between them are a cookie: the domain, with a dot before it if the hosts below it get the
    /// cookie too; `TRUE` if they do; the path; `TRUE` if it is secure-only; its expiry in seconds since 1970; its name
    /// and its value. `#HttpOnly_` before them says that it is http-only. Other lines that begin with `#` say nothing.
    ///
    /// It can't carry a cookie without a name, one whose path doesn't begin with `/`, and one that has a tab or another
    /// control character in a text. `SameSite`, the last access and parts of a second are lost: a cookie that is read
    /// counts as without `SameSite`, and as sent just then. One with the expiry 0 ended with the browser that wrote it,
    /// so it is skipped.
    CookiesTxt,
    /// JSON lines: an object (RFC 8259) for each cookie, with every field.
    ///
    /// The texts `name`, `value`, `domain` and `path` are strings in which each byte is the character of its number, so
    /// ASCII stays as it is. `host_only`, `secure` and `http_only` are `true` or `false`, and `same_site` is `default`,
    /// `strict`, `lax` or `none`. `expiry` and `last_access` are nanoseconds since 1970 in UTC. Of two members with one
    /// name the last is read, and others are passed over.
    ///
    /// It can't carry a cookie with a time before the year 1678 or after 2261.
    JsonLines,
}

impl SavedForm {
    /// Writes the persistent cookies that aren't expired at the time `now` in UTC: a line for each, in their order. One
    /// that the form can't carry, or that no user agent could have stored, is left out. So each line is one cookie,
    /// whoever chose its texts. Fails only if out of memory.
    ///
    /// A caller writes the text to a new file beside the old one, and renames it: then a crash leaves one of the two.
    /// Only the owner should be able to read it, since cookies are credentials.
    /// Example: `save` in crates/cookie_c/src/agent/save.rt.
    pub fn write(
        self,
        alloc: Global,
        mut cookies: Cookies<'_>,
        now: DateTime,
    ) -> Result<SavedCookies, AllocError>
        ensures text { IfOk result (λ saved.
            saved.text.items ≡ spec.saved_text self now cookies.entry) }
        ensures left_out { IfOk result (λ saved.
            saved.left_out.items ≡ left_out now (spec.carries self) cookies.entry) }
    {
        let mut saved = SavedCookies {
            text: Vec::from_slice(alloc, self.head())?,
            left_out: Vec::new(alloc),
        };
        for place in 0..cookies.len() {
            if let Some(cookie) = cookies.next() {
                self.save(&mut saved, alloc, cookie, place, now)?;
            }
        }
        Ok(saved)
    }

    /// Reads what [`write`](SavedForm::write) wrote, or a text of others in the form. Returns the cookies of the good
    /// lines, in their order, and the numbers of the bad ones. Any bytes can be read. Fails only if out of memory.
    ///
    /// A line is bad if it has no cookie of the form, or one that no user agent could have stored: among these is one
    /// for a public suffix and the hosts below it, and one whose domain is no host, as with a port or a byte order mark.
    /// Empty lines say nothing, and a line may end in CR LF. `now` is in UTC. A cookie that expires more than 400 days
    /// after `now` expires then (RFC 6265bis, Cookie Lifetime Limits), and a last access after `now` is `now`.
    /// Example: `load` in crates/cookie_c/src/agent/load.rt.
    pub fn read(
        self,
        alloc: Global,
        suffixes: &Suffixes,
        text: &[u8],
        now: DateTime,
    ) -> Result<LoadedCookies, AllocError>
        ensures cookies { IfOk result (λ loaded. loaded.cookies.items
            ≡ spec.loaded_cookies self suffixes.now now text.now) }
        ensures bad_lines { IfOk result (λ loaded. loaded.bad_lines.items
            ≡ spec.bad_lines self suffixes.now now text.now) }
        ensures storable { IfOk result (λ loaded.
            list_all (is_storable_by now) loaded.cookies.items ≡ true) }

        // What `write` wrote of a store is read as its persistent cookies, in their order, but those for a public suffix.
        ensures txt_again { (moment : DateTime) (store : CookieStore)
            → spec.IsReadAgain form.CookiesTxt suffixes.now moment now store }
        ensures json_again { (moment : DateTime) (store : CookieStore)
            → list_all has_bytes store ≡ true
            → spec.IsReadAgain form.JsonLines suffixes.now moment now store }
    {
        let lines = lines_of(alloc, text)?;
        self.read_all(alloc, suffixes, &lines, now)
    }

    // The text before the lines of the cookies.
    fn head(self) -> &'static [u8]
        ensures { result.now ≡ spec.head_text self }
    {
        match self {
            SavedForm::CookiesTxt => cookies_txt::HEAD_LINE,
            SavedForm::JsonLines => b"",
        }
    }

    // Writes the line of the cookie at the place, or notes that it is left out, if it is persistent and not expired.
    fn save(
        self,
        saved: &mut SavedCookies,
        alloc: Global,
        cookie: &StoredCookie,
        place: usize,
        now: DateTime,
    ) -> Result<(), AllocError>
        ensures text { OnOk result (saved.new.text.items
            ≡ saved.old.text.items ++ code.lines_text self now (cookie.now ∷ [])) }
        ensures left_out { OnOk result (saved.new.left_out.items
            ≡ saved.old.left_out.items ++ code.left_out_from self place now (cookie.now ∷ [])) }
    {
        if !is_persistent(cookie, now) {
            return Ok(());
        }
        let is_carried = self.push_line(&mut saved.text, alloc, cookie)?;
        if !is_carried {
            saved.left_out.push(place)?;
        }
        Ok(())
    }

    // Writes the line of the cookie, if the form can carry it. Returns whether it can.
    fn push_line(
        self,
        text: &mut Vec<u8>,
        alloc: Global,
        cookie: &StoredCookie,
    ) -> Result<bool, AllocError>
        ensures carried { IfOk result (λ carried. carried ≡ spec.carries self cookie.now) }
        ensures text { OnOk result (text.new.items
            ≡ text.old.items ++ code.carried_text self cookie.now) }
    {
        match self {
            SavedForm::CookiesTxt => cookies_txt::push_carried(text, cookie),
            SavedForm::JsonLines => json_lines::push_carried(text, alloc, cookie),
        }
    }

    // The cookies of the lines, and the numbers of the bad ones.
    fn read_all(
        self,
        alloc: Global,
        suffixes: &Suffixes,
        lines: &[&[u8]],
        now: DateTime,
    ) -> Result<LoadedCookies, AllocError>
        ensures cookies { IfOk result (λ loaded. loaded.cookies.items
            ≡ cookies_of (code.lines_taken_of self suffixes.now now lines.now)) }
        ensures bad_lines { IfOk result (λ loaded. loaded.bad_lines.items
            ≡ bad_lines_of (code.lines_taken_of self suffixes.now now lines.now)) }
    {
        let mut loaded = LoadedCookies::new(alloc);
        for place in 0..lines.len() {
            let line = self.read_line(alloc, without_return(lines[place]), now)?;
            loaded.take(line.taken(suffixes), place + 1)?;
        }
        Ok(loaded)
    }

    // What a line holds.
    fn read_line(self, alloc: Global, line: &[u8], now: DateTime) -> Result<Line, AllocError>
        ensures { IfOk result (λ read. read ≡ spec.line_read self now line.now) }
    {
        match self {
            SavedForm::CookiesTxt => cookies_txt::read_line(alloc, line, now),
            SavedForm::JsonLines => json_lines::read_line(alloc, line, now),
        }
    }
}
