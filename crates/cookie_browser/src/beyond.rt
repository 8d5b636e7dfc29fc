//! What browsers refuse beyond the standard.
ghost use Rattle.std.specs.Prelude.{◌≡◌, ◌&&◌, not};
ghost use Rattle.cookie_browser.specs.Beyond as spec;
ghost use Rattle.cookie_browser.specs.Beyond.{has_byte};
ghost use Rattle.cookie_browser.specs.Received.{attribute_name, attribute_value, spells};
ghost use Rattle.cookie_browser.specs.ReceivedCode.{received_view};

use crate::attributes::{spells, value_of};
use crate::browser_choices::BrowserChoices;
use crate::bytes::cut;
use crate::received::Received;
use cookie_core::{begins_in_any_case, trim_wsp};

/// Why [`BrowserChoices`] refuse a cookie that the standard may store.
#[derive(Clone, Copy, Debug, PartialEq, Eq)]
pub enum Beyond {
    /// A tab is inside the name, the value or an attribute.
    Tab,
    /// There is no name, and the value has `=`.
    NamelessPair,
    /// The domain is a dot.
    DotDomain,
    /// The name begins with `__Host-`, and the text lacks `Path=/` or has a domain.
    UnwrittenHostPrefix,
    /// `Partitioned` came without `Secure`.
    PartitionedWithoutSecure,
}

fn has_byte(text: &[u8], mark: u8) -> bool
    ensures { result ≡ has_byte mark text.now }
{
    text.iter().any(|&byte| byte == mark)
}

// The name and the value that a piece has.
fn attribute_of(piece: &[u8]) -> (&[u8], &[u8])
    ensures name { result.0.now ≡ attribute_name piece.now }
    ensures value { result.1.now ≡ attribute_value piece.now }
{
    let (name, value) = cut(piece, b'=');
    (trim_wsp(name), value_of(value))
}

fn has_inner_tab(piece: &[u8]) -> bool
    ensures { result ≡ spec.has_inner_tab piece.now }
{
    let (name, value) = attribute_of(piece);
    has_byte(name, b'\t') || has_byte(value, b'\t')
}

fn has_tab(text: &[u8]) -> bool
    ensures { result ≡ spec.has_tab text.now }
{
    text.split(|&byte| byte == b';').any(has_inner_tab)
}

fn is_unwritten_host_prefix(received: &Received<'_>) -> bool
    ensures { result ≡ spec.is_unwritten_host_prefix (received_view received.now) }
{
    let is_host_bound = received.attributes.path == b"/".as_slice()
        && received.attributes.domain.is_empty();
    begins_in_any_case(b"__Host-", received.name) && !is_host_bound
}

fn is_partition_mark(piece: &[u8]) -> bool
    ensures { result ≡ spec.is_partition_mark piece.now }
{
    let (name, value) = attribute_of(piece);
    spells(name, b"partitioned") && value.len() <= 1024
}

/// Whether the text of a `Set-Cookie` header has the attribute `Partitioned`, which keeps a cookie by the top-level site
/// (CHIPS). The standard doesn't know it.
pub fn is_partitioned(text: &[u8]) -> bool
    ensures { result ≡ spec.is_partitioned text.now }
{
    text.split(|&byte| byte == b';')
        .skip(1)
        .any(is_partition_mark)
}

/// The first of the choices that refuses the text of a `Set-Cookie` header, or `None`. `received` is what it is received
/// as. With the standard's choices it is `None`.
#[tactic(auto, unfolding(crate::specs::Beyond::refusal_beyond))]
pub fn refused_beyond(
    choices: BrowserChoices,
    text: &[u8],
    received: &Received<'_>,
) -> Option<Beyond>
    ensures { result ≡ spec.refusal_beyond choices text.now (received_view received.now) }
{
    if choices.refuses_tabs && has_tab(text) {
        return Some(Beyond::Tab);
    }
    if choices.refuses_nameless_pairs
        && received.name.is_empty()
        && has_byte(received.value, b'=')
    {
        return Some(Beyond::NamelessPair);
    }
    if choices.refuses_dot_domains && received.attributes.domain == b".".as_slice() {
        return Some(Beyond::DotDomain);
    }
    if choices.asks_written_host_prefix && is_unwritten_host_prefix(received) {
        return Some(Beyond::UnwrittenHostPrefix);
    }
    if choices.partitions && is_partitioned(text) && !received.attributes.secure {
        return Some(Beyond::PartitionedWithoutSecure);
    }
    None
}
