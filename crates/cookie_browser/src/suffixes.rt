//! The list of public suffixes.
ghost use Rattle.std.specs.Prelude.{◌≡◌, ◌||◌, [], codes, eqb, false, find, option_map, unwrap_or, IfOk, OnOk};
ghost use Rattle.std.specs.Char.{is_ascii_whitespace};
ghost use Rattle.std.specs.List.{before_first, cons_option, list_all, list_any, starts_with};
ghost use Rattle.std.specs.Str.{bytes_eq};
ghost use Rattle.std.specs.String.{string_bytes};
ghost use Rattle.cookie_browser.specs.Bytes.{cut};
ghost use Rattle.cookie_browser.specs.Request.{is_in_domain};
ghost use Rattle.cookie_browser.specs.Suffixes as spec;
ghost use Rattle.cookie_browser.specs.Suffixes.{HasSameElements, is_number_byte};
ghost use Rattle.cookie_browser.specs.SuffixList.{canonical, rule_of, rules_of};
ghost use Rattle.cookie_browser.specs.SuffixCode.{texts_of};

use crate::bytes::cut;
use crate::domain::to_ascii;
use idna::AsciiDenyList;
use std::alloc::{AllocError, Global};
use std::collections::HashSet;
use std::marker::Model;
use std::str;

type Texts = HashSet<String>;

/// The rules of a list of public suffixes (publicsuffix.org). Contracts see the list of the rules.
///
/// ```
/// let suffixes = Suffixes::new(alloc, b"com\n*.ck\n!www.ck\n")?;
/// suffixes.is_public(b"any.ck");   // true
/// suffixes.is_public(b"www.ck");   // false
/// ```
#[derive(Drop)]
pub struct Suffixes {
    // As `co.uk`.
    plain: Texts,
    // What follows `*.`, as `ck` of `*.ck`.
    wild: Texts,
    // What follows `!`, as `www.ck` of `!www.ck`.
    except: Texts,
}

impl Model for Suffixes {
    ghost use Rattle.std.specs.Prelude.{List};
    ghost use Rattle.cookie_browser.specs.Suffixes.{Rule};
    ghost use Rattle.cookie_browser.specs.SuffixCode.{rules_view, texts_of};

    ghost Value = { List Rule };

    ghost view = { λ s. rules_view (texts_of s.plain.keys) (texts_of s.wild.keys) (texts_of s.except.keys) };
}

impl Suffixes {
    /// No rules: each domain of one label is a public suffix, and no other. It doesn't allocate.
    pub fn empty(alloc: Global) -> Suffixes
        ensures { result ≡ [] }
    {
        Suffixes {
            plain: HashSet::new(alloc),
            wild: HashSet::new(alloc),
            except: HashSet::new(alloc),
        }
    }

    /// Reads the list of publicsuffix.org (Format). Debian's package `publicsuffix` installs it as
    /// `/usr/share/publicsuffix/public_suffix_list.dat`. Labels of other alphabets are kept in Punycode, and a rule with
    /// invalid labels is passed over. Fails only if out of memory.
    pub fn new(alloc: Global, list: &[u8]) -> Result<Suffixes, AllocError>
        ensures { IfOk result (λ suffixes. HasSameElements suffixes (rules_of list.now)) }
    {
        let mut suffixes = Suffixes::empty(alloc);
        let mut rest = Some(list);
        while let Some(text) = rest {
            let (line, after) = cut(text, b'\n');
            suffixes.add_rule(alloc, first_word(line))?;
            rest = after;
        }
        Ok(suffixes)
    }

    // Adds the rule that the text writes, if it is one.
    fn add_rule(&mut self, alloc: Global, rule: &[u8]) -> Result<(), AllocError>
        ensures { OnOk result (HasSameElements self.new (cons_option (rule_of rule.now) self.old)) }
    {
        if is_no_rule(rule) {
            return Ok(());
        }
        if rule.starts_with(b"*.") {
            return add(alloc, &mut self.wild, &rule[2..]);
        }
        if rule.starts_with(b"!") {
            return add(alloc, &mut self.except, &rule[1..]);
        }
        add(alloc, &mut self.plain, rule)
    }

    /// Whether the domain, in lower case and in ASCII, is a public suffix (publicsuffix.org, Algorithm). A domain of
    /// one label is one, unless a rule excepts it. The dot that ends an absolute name, as `com.`, doesn't count. A text
    /// that begins with a dot is no domain, and so none. The time grows with the number of labels, and not with the
    /// number of rules.
    #[tactic(auto, unfolding(crate::specs::Suffixes::is_public_suffix))]
    pub fn is_public(&self, domain: &[u8]) -> bool
        ensures { result ≡ spec.is_public_suffix self.now domain.now }
    {
        !domain.starts_with(b".") && self.fills_rule(without_last_dot(domain))
    }

    /// The site of a domain, in lower case and in ASCII: its registrable domain, which is a public suffix and one more
    /// label (publicsuffix.org, Algorithm). A public suffix is its own site, and so is an IP address: a domain of digits
    /// and dots, or one in brackets. The time grows with the length of the domain, and not with the number of rules.
    ///
    /// ```
    /// let suffixes = Suffixes::new(alloc, b"com\nco.uk\n")?;
    /// suffixes.site(b"www.shop.co.uk");   // shop.co.uk
    /// suffixes.site(b"co.uk");            // co.uk
    /// ```
    #[tactic(auto, unfolding(crate::specs::Suffixes::site_domain))]
    pub fn site<'d>(&self, domain: &'d [u8]) -> &'d [u8]
        ensures { result.now ≡ spec.site_domain self.now domain.now }
    {
        if is_address(domain) || self.is_public(domain) {
            return domain;
        }
        self.registrable(domain)
    }

    // The first of the domain and of what follows its dots that is registrable; the domain, if none is.
    fn registrable<'d>(&self, domain: &'d [u8]) -> &'d [u8]
        ensures { result.now
            ≡ unwrap_or (find (spec.is_registrable self.now) (spec.endings domain.now)) domain.now }
    {
        let mut rest = Some(domain);
        while let Some(ending) = rest {
            if self.is_registrable(ending) {
                return ending;
            }
            rest = cut(ending, b'.').1;
        }
        domain
    }

    // Whether the domain is an exception, or has one label before a public suffix.
    fn is_registrable(&self, domain: &[u8]) -> bool
        ensures { result ≡ spec.is_registrable self.now domain.now }
    {
        self.is_exception(without_last_dot(domain)) || self.has_public_parent(domain)
    }

    // Whether what follows the first dot of the domain is a public suffix.
    fn has_public_parent(&self, domain: &[u8]) -> bool
        ensures { result ≡ spec.is_public_parent self.now (cut 46 domain.now).1 }
    {
        match cut(domain, b'.').1 {
            Some(parent) => self.is_public(parent),
            None => false,
        }
    }

    // Whether the domain is the text of an exception.
    fn is_exception(&self, domain: &[u8]) -> bool
        ensures { result ≡ list_any (spec.is_exception domain.now) self.now }
    {
        has(&self.except, domain)
    }

    // Whether the prevailing rule has as many labels as the domain.
    fn fills_rule(&self, domain: &[u8]) -> bool
        ensures { result ≡ spec.fills_rule self.now domain.now }
    {
        self.is_listed(domain) && !self.is_excepted(domain)
    }

    // Whether the domain has one label, or matches a rule with all its labels. A domain that isn't UTF-8 is never a
    // rule's text, but what follows its first dot may be.
    fn is_listed(&self, domain: &[u8]) -> bool
        ensures { result
            ≡ (spec.is_one_label domain.now || list_any (spec.is_covered domain.now) self.now) }
    {
        match str::from_utf8(domain) {
            Ok(text) => self.is_text_listed(text),
            Err(_) => is_one_label(domain) || has_parent(&self.wild, domain),
        }
    }

    // The same of a text, which is cut only once.
    fn is_text_listed(&self, domain: &str) -> bool
        ensures { result
            ≡ (spec.is_one_label domain.now || list_any (spec.is_covered domain.now) self.now) }
    {
        match domain.as_bytes().iter().position(|&byte| byte == b'.') {
            Some(dot) => self.plain.contains(domain) || self.wild.contains(&domain[dot + 1..]),
            None => true,
        }
    }

    // Whether the domain matches an exception.
    fn is_excepted(&self, domain: &[u8]) -> bool
        ensures { result ≡ list_any (spec.is_excepted domain.now) self.now }
    {
        has_domain_of(&self.except, domain)
    }
}

// The text before the first white space, or all of it.
fn first_word(line: &[u8]) -> &[u8]
    ensures { result.now ≡ before_first is_ascii_whitespace line.now }
{
    match line.iter().position(|byte| byte.is_ascii_whitespace()) {
        Some(end) => &line[..end],
        None => line,
    }
}

fn is_no_rule(text: &[u8]) -> bool
    ensures { result ≡ (bytes_eq text.now [] || starts_with eqb text.now (codes "//")) }
{
    text.is_empty() || text.starts_with(b"//")
}

// The labels in lower case and in Punycode, without a last dot, if they are valid.
fn canonical(alloc: Global, labels: &[u8]) -> Result<Option<String>, AllocError>
    ensures { IfOk result (λ text. option_map string_bytes text ≡ canonical labels.now) }
{
    to_ascii(alloc, without_last_dot(labels), AsciiDenyList::EMPTY)
}

// Adds the labels in their canonical form, if they have one.
fn add(alloc: Global, texts: &mut Texts, labels: &[u8]) -> Result<(), AllocError>
    ensures { OnOk result (HasSameElements (texts_of texts.new.keys)
        (cons_option (canonical labels.now) (texts_of texts.old.keys))) }
{
    if let Some(text) = canonical(alloc, labels)? {
        texts.insert(text)?;
    }
    Ok(())
}

fn has(texts: &Texts, text: &[u8]) -> bool
    ensures { result ≡ list_any (bytes_eq text.now) (texts_of texts.now.keys) }
{
    match str::from_utf8(text) {
        Ok(text) => texts.contains(text),
        Err(_) => false,
    }
}

// Whether the domain without its first label is one of the texts.
fn has_parent(texts: &Texts, domain: &[u8]) -> bool
    ensures { result ≡ list_any (λ text. spec.has_parent text (cut 46 domain.now).1)
        (texts_of texts.now.keys) }
{
    match cut(domain, b'.').1 {
        Some(parent) => has(texts, parent),
        None => false,
    }
}

// Whether the domain is in one of the texts: it is one, or what follows one of its dots is.
fn has_domain_of(texts: &Texts, domain: &[u8]) -> bool
    ensures { result ≡ list_any (is_in_domain domain.now false) (texts_of texts.now.keys) }
{
    let mut rest = Some(domain);
    while let Some(text) = rest {
        if has(texts, text) {
            return true;
        }
        rest = cut(text, b'.').1;
    }
    false
}

// The domain without the dot that ends an absolute name, if it has one.
fn without_last_dot(domain: &[u8]) -> &[u8]
    ensures { result.now ≡ spec.without_last_dot domain.now }
{
    if domain.ends_with(b".") {
        &domain[..domain.len() - 1]
    } else {
        domain
    }
}

// Whether the domain is an IP address, as a URL has it.
fn is_address(domain: &[u8]) -> bool
    ensures { result ≡ spec.is_address domain.now }
{
    domain.starts_with(b"[") || is_dotted_number(domain)
}

// Whether the domain has digits and dots only.
fn is_dotted_number(domain: &[u8]) -> bool
    ensures { result ≡ list_all is_number_byte domain.now }
{
    domain
        .iter()
        .all(|&byte| byte.is_ascii_digit() || byte == b'.')
}

fn is_one_label(domain: &[u8]) -> bool
    ensures { result ≡ spec.is_one_label domain.now }
{
    cut(domain, b'.').0 == domain
}
