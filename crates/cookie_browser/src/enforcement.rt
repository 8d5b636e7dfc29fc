//! The attribute `SameSite`, as a browser keeps it.

/// To which requests of other sites a browser sends a cookie (RFC 6265bis, The SameSite Attribute).
#[derive(Clone, Copy, Debug, PartialEq, Eq)]
pub enum Enforcement {
    /// No valid `SameSite` attribute. A browser does as for `Lax`.
    Default,
    /// To no request of another site.
    Strict,
    /// To top-level navigations with a safe method only.
    Lax,
    /// To every request.
    None,
}
