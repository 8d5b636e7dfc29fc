//! A handle of C.
ghost use Rattle.std.specs.Prelude.{◌≡◌, Some, None, option_map};
ghost use Rattle.cookie_c.specs.Handles.{IsPut};
ghost use Rattle.cookie_c.specs.Held.{TellsOf};

pub mod content;
pub mod held;
mod raw_box;

use crate::status::Status;
use content::Content;
use held::Held;
use raw_box::RawBox;
use std::alloc::Global;
use std::mem::replace;

// What a call makes of the content of a handle, which is put back after it. A handle without a content of this kind is
// refused.
macro_rules! with_content {
    (
        $alloc:expr, $handle:expr,
        $kind:ident($content:ident) => $call:expr,
        _ => $refusal:expr $(,)?
    ) => {
        match $handle.take($alloc) {
            Some(mut held) => match held.as_mut() {
                $crate::handle::content::Content::$kind($content) => {
                    let answer = $call;
                    $handle.put(held);
                    answer
                }
                _ => {
                    $handle.put(held);
                    $refusal
                }
            },
            None => $refusal,
        }
    };
}

pub(crate) use with_content;

/// A handle, which has a content or none. All its bytes may be 0 at first: then it has none.
#[repr(C)]
#[derive(Drop)]
pub struct Handle {
    /// Whether it has one.
    pub is_open: bool,
    /// The content.
    pub held: Held,
    ghost known: { TellsOf is_open held.content },
}

impl Handle {
    // A handle with nothing.
    pub(crate) fn closed(alloc: Global) -> Handle
        ensures { result.held.content ≡ None }
    {
        Handle {
            is_open: false,
            held: Held::none(alloc),
        }
    }

    // Takes the content out of the handle, if it has one.
    pub(crate) fn take(&mut self, alloc: Global) -> Option<Box<Content>>
        ensures taken { option_map (λ content. content.value) result ≡ self.old.held.content }
        ensures closed { self.new.held.content ≡ None }
    {
        let Handle { is_open, held } = replace(self, Handle::closed(alloc));
        if is_open {
            Some(held.into_raw().into_box())
        } else {
            None
        }
    }

    // Puts a content into the handle, which has none.
    pub(crate) fn put(&mut self, content: Box<Content>)
        requires { self.old.held.content ≡ None }
        ensures { self.new.held.content ≡ Some content.value }
    {
        *self = Handle {
            is_open: true,
            held: Held::from_raw(RawBox::for_c(content)),
        };
    }

    // Frees what the handle has, if it has something.
    pub(crate) fn free(&mut self, alloc: Global)
        ensures { self.new.held.content ≡ None }
    {
        drop(self.take(alloc));
    }

    // Puts the content into the handle, and frees what it had.
    pub(crate) fn set(&mut self, alloc: Global, content: Content) -> Status
        ensures { IsPut content result self.old.held.content self.new.held.content }
    {
        let Ok(made) = Box::new(alloc, content) else {
            return Status::OutOfMemory;
        };
        self.free(alloc);
        self.put(made);
        Status::Done
    }
}
