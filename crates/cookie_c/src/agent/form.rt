//! The numbers of the forms of a user agent's saved cookies, for C.
ghost use Rattle.std.specs.Prelude.{◌≡◌};
ghost use Rattle.cookie_c.specs.SavedAgents.{form_of};

use cookie_agent::SavedForm;

// The form of this number, if it is one's. No later version changes the meaning of a number.
pub(super) fn form_of(number: u32) -> Option<SavedForm>
    ensures { result ≡ form_of number }
{
    match number {
        0 => Some(SavedForm::CookiesTxt),
        1 => Some(SavedForm::JsonLines),
        _ => None,
    }
}
