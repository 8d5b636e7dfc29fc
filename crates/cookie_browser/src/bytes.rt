//! Small steps on bytes.
ghost use Rattle.std.specs.Prelude.{◌≡◌, option_copied};
ghost use Rattle.cookie_browser.specs.Bytes as spec;
ghost use Rattle.cookie_browser.specs.Storage.{is_ascii};

// The text before the first `mark`, or all of it, and the text after that mark, if there is one.
pub(crate) fn cut(text: &[u8], mark: u8) -> (&[u8], Option<&[u8]>)
    ensures before { result.0.now ≡ (spec.cut mark text.now).0 }
    ensures after { option_copied result.1 ≡ (spec.cut mark text.now).1 }
{
    match text.iter().position(|&byte| byte == mark) {
        Some(at) => (&text[..at], Some(&text[at + 1..])),
        None => (text, None),
    }
}

pub(crate) fn is_ascii(text: &[u8]) -> bool
    ensures { result ≡ is_ascii text.now }
{
    text.iter().all(|&byte| byte < 128)
}
