//! Names with their texts as they are, in a list for C.
ghost use Rattle.std.specs.Prelude.{◌≡◌, OnOk};
ghost use Rattle.cookie_c.specs.TextLists.{with_listed};

use std::alloc::AllocError;

// Adds a text to the list, after both lengths and its name.
pub(crate) fn push_listed(list: &mut Vec<u8>, name: &str, text: &str) -> Result<(), AllocError>
    ensures { OnOk result (list.new.items
        ≡ with_listed list.old.items (name.now, text.now)) }
{
    list.extend_from_slice(&(name.len() as u64).to_le_bytes())?;
    list.extend_from_slice(&(text.len() as u64).to_le_bytes())?;
    list.extend_from_slice(name.as_bytes())?;
    list.extend_from_slice(text.as_bytes())
}
