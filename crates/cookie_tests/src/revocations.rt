//! Calls on the set in SQLite and in memory, files that are opened again, and what is refused.
use cookie_session::Revocations;
use session_revocations::{MemoryRevocations, RevocationError, SqliteRevocations};
use sqlite::{Alter, Connection, Options};
use std::fs;
use std::test::Fail;

const ANN: [u8; 16] = [1; 16];

const BOB: [u8; 16] = [2; 16];

// Calls on a new set: `ann 100` revokes Ann until 100, who isn't revoked yet, and `again ann 100` Ann, who is already.
// `forget 150` forgets at 150, and `only ann` says who is revoked then. A call after `late` is refused for its second.
// Then the number of rows of the table, and the greatest second.
const ROWS: &str = "\
only none, ann 100, again ann 100, again ann 200, again ann 50, only ann -> 2 200
ann 9223372036854775807, late bob 9223372036854775808, only ann -> 1 9223372036854775807
ann 100, again ann 200, bob 150, forget 149, only ann bob, forget 150, only ann -> 1 200
ann 100, again ann 200, bob 150, forget 149, forget 150, forget 200, only none -> 0 0
ann 100, again ann 200, bob 150, forget 150, only ann, forget 120, only ann, \
bob 150, forget 149, only ann bob -> 2 200
ann 100, again ann 200, bob 150, late forget 9223372036854775808, forget 0, only ann bob -> 3 200
ann 100, again ann 100, forget 100, only none, ann 50, again ann 100, only ann -> 2 100";

// Revokes or forgets. Returns whether the session was revoked already.
fn change<S: Alter + Drop>(
    set: &mut SqliteRevocations<S>,
    call: &str,
) -> Result<bool, RevocationError> {
    let (verb, second) = call.split_once(' ').unwrap_or((call, ""));
    let second = second.parse().unwrap_or(0);
    match verb {
        "ann" => set.revoke(&ANN, second),
        "bob" => set.revoke(&BOB, second),
        _ => {
            set.forget(second)?;
            Ok(false)
        }
    }
}

// Whether each call returns what it has to.
fn holds<S: Alter + Drop>(
    set: &mut SqliteRevocations<S>,
    calls: &str,
) -> Result<bool, RevocationError> {
    for call in calls.split(", ") {
        if let Some(names) = call.strip_prefix("only ") {
            let (ann, bob) = (set.is_revoked(&ANN)?, set.is_revoked(&BOB)?);
            if (ann, bob) != (names.contains("ann"), names.contains("bob")) {
                return Ok(false);
            }
        } else if let Some(call) = call.strip_prefix("late ") {
            if change(set, call) != Err(RevocationError::TooLate) {
                return Ok(false);
            }
        } else {
            let again = call.strip_prefix("again ");
            if change(set, again.unwrap_or(call))? != again.is_some() {
                return Ok(false);
            }
        }
    }
    Ok(true)
}

// As a site calls a new set: Ann is revoked until the later second, and Bob until 150. Of two calls for one id only the
// first says that it wasn't revoked.
fn revokes<R: Revocations>(set: &mut R) -> Result<bool, R::Error> {
    let already = [
        set.revoke(&ANN, 200)?,
        set.revoke(&ANN, 100)?,
        set.revoke(&BOB, 150)?,
    ];
    let none = set.first_unrevoked(&[ANN, BOB])?;
    set.forget(150)?;
    let only_ann = set.is_revoked(&ANN)? && !set.is_revoked(&BOB)?;
    let second = set.first_unrevoked(&[ANN, BOB, ANN])?;
    set.forget(200)?;
    let first = set.first_unrevoked(&[ANN, BOB])?;
    let right = (none, second, first) == (None, Some(1), Some(0));
    Ok(already == [false, true, false] && right && only_ann && !set.is_revoked(&ANN)?)
}

#[test]
fn calls_return_what_they_have_to(rt: HostRuntime) -> Result<(), Fail> {
    for row in ROWS.lines() {
        let (calls, wanted) = row.split_once(" -> ").unwrap_or((row, ""));
        let mut set = SqliteRevocations::new(Connection::open_in_memory(rt.alloc())?)?;
        assert!(rt; holds(&mut set, calls)?, "{row}");
        let text = "SELECT count(*), coalesce(max(until), 0) FROM revoked";
        let found = set.into_connection().query_row(text, &[])?;
        let (count, last) = (found.get::<i64>(0)?, found.get::<i64>(1)?);
        assert_eq!(rt; format!(in rt.alloc(); "{count} {last}")?.as_str(), wanted);
    }
    let mut set = SqliteRevocations::new(Connection::open_in_memory(rt.alloc())?)?;
    assert!(rt; revokes(&mut set)?);
    let late = format!(in rt.alloc(); "{}", RevocationError::TooLate)?;
    assert_eq!(rt; late.as_str(), "the second is past what the database keeps");
    Ok(())
}

#[test]
fn revokes_in_memory(rt: HostRuntime) -> Result<(), Fail> {
    let mut revocations = MemoryRevocations::new(rt.alloc());
    assert!(rt; !revocations.revoke(&ANN, 200)?);
    assert!(rt; revocations.revoke(&ANN, 100)?);
    assert!(rt; !revocations.revoke(&BOB, 150)?);
    revocations.forget(150);
    assert!(rt; revocations.is_revoked(&ANN)?);
    assert!(rt; !revocations.is_revoked(&BOB)?);
    revocations.forget(200);
    assert!(rt; !revocations.is_revoked(&ANN)?);
    assert!(rt; revokes(&mut revocations)?);
    Ok(())
}

fn refusal<S: Alter + Drop>(mut conn: Connection<S>, text: &str) -> Option<RevocationError> {
    conn.execute(text, &[]).ok()?;
    SqliteRevocations::new(conn).err()
}

#[test]
fn refuses_another_schema(rt: HostRuntime) -> Result<(), Fail> {
    for text in [
        "CREATE TABLE revoked (id BLOB NOT NULL, until INTEGER NOT NULL) STRICT",
        "CREATE TABLE revoked (id BLOB NOT NULL, until INTEGER NOT NULL, PRIMARY KEY (until, id)) STRICT",
        "CREATE TABLE other (id INTEGER) STRICT",
        "BEGIN",
    ] {
        let conn = Connection::open_in_memory(rt.alloc())?;
        assert_eq!(rt; refusal(conn, text), Some(RevocationError::OtherSchema));
    }
    Ok(())
}

// Why the path isn't opened as a database.
fn refusal_of(rt: &HostRuntime, path: &str) -> Option<RevocationError> {
    Connection::open(rt, path).err().map(RevocationError::from)
}

// A set that is dropped isn't closed, as after a crash.
#[test]
fn outlives_its_connection(rt: HostRuntime) -> Result<(), Fail> {
    let (folder, path) = ("session_revocations", "session_revocations/revoked.db");
    let _ = fs::remove_dir_all(&rt, folder);
    fs::create_dir(&rt, folder)?;
    let mut revocations = SqliteRevocations::new(Connection::open(&rt, path)?)?;
    assert!(rt;
        holds(
            &mut revocations,
            "ann 100, again ann 100, again ann 200, again ann 50"
        )?
    );
    assert_eq!(rt; refusal_of(&rt, path), Some(RevocationError::Busy));
    let mut again = revocations.reopen(rt.alloc(), Options::new(7))?;
    assert!(rt; again.is_revoked(&ANN)?);
    drop(again);
    let mut last = SqliteRevocations::new(Connection::open(&rt, path)?)?;
    assert!(rt; last.is_revoked(&ANN)?);
    assert!(rt; holds(&mut last, "only ann, again ann 60, bob 150, forget 150")?);
    drop(last);
    let mut last = SqliteRevocations::new(Connection::open(&rt, path)?)?;
    let calls = "forget 0, only ann, bob 150, only ann bob, forget 150";
    assert!(rt; holds(&mut last, calls)?);
    let mut again = last.reopen(rt.alloc(), Options::new(7))?;
    assert!(rt; holds(&mut again, "forget 0, only ann")?);
    drop(again);
    assert_eq!(rt; refusal_of(&rt, folder), Some(RevocationError::CannotOpen));
    fs::write(&rt, path, [7u8; 4096].as_slice())?;
    assert_eq!(rt; refusal_of(&rt, path), Some(RevocationError::Damaged));
    fs::remove_dir_all(&rt, folder)?;
    Ok(())
}
