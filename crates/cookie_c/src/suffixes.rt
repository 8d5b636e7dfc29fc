//! A list of public suffixes in a handle of C.
ghost use Rattle.std.specs.Prelude.{◌≡◌, None};
ghost use Rattle.cookie_c.specs.Explanations.{MakesRules, suffixes_of};
ghost use Rattle.cookie_c.specs.Handles.{Tells};

use crate::handle::Handle;
use crate::handle::content::Content;
use crate::status::Status;
use std::alloc::Global;

/// A handle of the rules of a list of public suffixes.
#[repr(C)]
#[derive(Drop)]
pub struct Suffixes {
    /// What has the rules.
    pub handle: Handle,
}

/// Puts the rules of a list of public suffixes into the handle, and frees those that it had, if it had some. `list` is
/// the text of the list of publicsuffix.org. If it is empty, exactly the domains of one label are public suffixes.
///
/// It fails only when memory runs out, and then the handle is as before.
#[unsafe(no_mangle)]
pub extern "C" fn cookie_suffixes_new(alloc: Global, list: &[u8], suffixes: &mut Suffixes) -> u32
    ensures { Tells (λ answer. MakesRules list.now answer
        (suffixes_of suffixes.old) (suffixes_of suffixes.new)) result }
{
    put_rules(alloc, list, suffixes).code()
}

fn put_rules(alloc: Global, list: &[u8], suffixes: &mut Suffixes) -> Status
    ensures { MakesRules list.now result (suffixes_of suffixes.old) (suffixes_of suffixes.new) }
{
    match cookie_browser::Suffixes::new(alloc, list) {
        Ok(rules) => suffixes.handle.set(alloc, Content::Suffixes(rules)),
        Err(_) => Status::OutOfMemory,
    }
}

/// Frees the handle's rules, if it has some. The handle has none then.
#[unsafe(no_mangle)]
pub extern "C" fn cookie_suffixes_free(alloc: Global, suffixes: &mut Suffixes)
    ensures { suffixes.new.handle.held.content ≡ None }
{
    suffixes.handle.free(alloc);
}
