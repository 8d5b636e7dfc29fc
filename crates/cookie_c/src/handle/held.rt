//! What a handle of C has, by a pointer that C doesn't follow.
ghost use Rattle.std.specs.Prelude.{◌≡◌, ◌≢◌, Some, None, Option};
ghost use Rattle.cookie_c.specs.Held.{held_coded, held_owns};
ghost use Rattle.cookie_c.specs.declared.handle.content.Content.{Content as ContentValue};

use super::content::Content;
use super::raw_box::RawBox;
use std::alloc::Global;
use std::marker::Model;
use std::ptr::null_mut;

/// A content on the heap, or none. C keeps the pointer, and neither follows nor copies it. Dropping it frees no memory:
/// its content is taken out first.
#[repr(C)]
#[derive(Drop)]
pub struct Held {
    at: *mut (),
    alloc: Global,
    pub ghost content: { Option ContentValue } by { held_coded },
}

impl Model for Held {
    ghost also_owns = { λ h. held_owns h.alloc h.at h.content };
}

impl Held {
    // No content.
    pub(crate) fn none(alloc: Global) -> Held
        ensures { result.content ≡ None }
    {
        Held {
            at: null_mut(),
            alloc,
        }
    }

    // The content that a box's pointer owns.
    pub(crate) fn from_raw(raw: RawBox<Content, Global>) -> Held
        ensures { result.content ≡ Some raw.value }
    {
        let RawBox { at, alloc } = raw;
        Held {
            at: at as *mut (),
            alloc,
        }
    }

    // The pointer of the content's box again.
    pub(crate) fn into_raw(self) -> RawBox<Content, Global>
        requires { self.content ≢ None }
        ensures { Some result.value ≡ self.content }
    {
        let Held { at, alloc } = self;
        RawBox {
            at: at as *mut Content,
            alloc,
        }
    }
}

// A content may go to another thread, and so may the right to free it.
unsafe impl Send for Held {}
