//! What a visit's session keeps: a number, and a message that is shown once.
use crate::moment::moment;
use cookie::{Cookie, Key};
use cookie_session::{KeyRing, Sessions, Visit};
use rand::rngs::SysRng;
use std::test::Fail;

#[test]
fn a_visit_keeps_a_number_and_a_message_once(rt: HostRuntime) -> Result<(), Fail> {
    let keys = KeyRing::new(rt.alloc(), Key::from(&[7; 64]))?;
    let cookie = Cookie::new("session", "");
    let (lifetime, idle) = (1200, 600);
    let sessions = Sessions {
        keys: &keys,
        cookie: &cookie,
        lifetime,
        idle,
    };
    let mut visit = Visit::start(rt.alloc(), &sessions, moment(), &mut SysRng::new(&rt))?;
    assert!(rt; visit.is_new() && !visit.is_changed());
    visit.set_as(rt.alloc(), "count", &3u32)?;
    assert!(rt; visit.is_changed());
    assert_eq!(rt; visit.session().get_as::<u32>("count")?, Some(3));
    visit.set_flash("saved")?;
    let message = visit.take_flash(rt.alloc())?;
    assert!(rt; message.as_ref().map(|text| text.as_str()) == Some("saved"));
    assert!(rt; visit.take_flash(rt.alloc())?.is_none());
    Ok(())
}
