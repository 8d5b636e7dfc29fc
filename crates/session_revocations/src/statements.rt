//! The statements on the table.
ghost use Rattle.std.specs.Prelude.{◌≡◌, ◌+ℤ◌, [], IfOk, IsTrue, OnErr, OnOk, pos};
ghost use Rattle.session_revocations.specs.Held.{IsBlank, IsKept, IsStill, Keeps, WasOpen, is_revoked_in, rows_of};
ghost use Rattle.session_revocations.specs.Revoked.{IsAdded, IsExtended, IsPruned, is_among_until};
ghost use Rattle.session_revocations.specs.Rowids.{HasRowids};
ghost use Rattle.sqlite.specs.Held.{state};
ghost use Rattle.sqlite.specs.State.{HasCleanDisk, IsUnchanged, Survives};

use crate::rowids::has_rowids;
use sqlite::{Alter, Connection, Error, ErrorCode, params};

// Whether a row revokes the id.
pub fn find<S: Alter>(conn: &mut Connection<S>, id: &[u8]) -> Result<bool, Error>
    requires { IsKept (state S.Store conn.old) }
    ensures exact { HasCleanDisk (state S.Store conn.new)
        → IfOk result (λ found. found ≡ is_revoked_in (state S.Store conn.old) id.now) }
    ensures same { HasCleanDisk (state S.Store conn.new)
        → OnOk result (IsUnchanged (state S.Store conn.old) (state S.Store conn.new)) }
    ensures still { IsStill (state S.Store conn.old) (state S.Store conn.new) }
    ensures kept { IsKept (state S.Store conn.new) }
    ensures opened { WasOpen (state S.Store conn.old) (state S.Store conn.new) }
    ensures crash { Survives (state S.Store conn.old) (state S.Store conn.new)
        (λ _. IsTrue (state S.Store conn.old).is_open → ⊥) }
{
    let rows = conn.query_all("SELECT until FROM revoked WHERE id = ?1", params![id])?;
    Ok(!rows.is_empty())
}

// Whether a row revokes the id until this second or a later one.
pub fn find_until<S: Alter>(conn: &mut Connection<S>, id: &[u8], until: i64) -> Result<bool, Error>
    requires { IsKept (state S.Store conn.old) }
    ensures exact { HasCleanDisk (state S.Store conn.new)
        → IfOk result (λ found. found
        ≡ is_among_until (rows_of (state S.Store conn.old)) id.now until) }
    ensures same { HasCleanDisk (state S.Store conn.new)
        → OnOk result (IsUnchanged (state S.Store conn.old) (state S.Store conn.new)) }
    ensures still { IsStill (state S.Store conn.old) (state S.Store conn.new) }
    ensures kept { IsKept (state S.Store conn.new) }
    ensures opened { WasOpen (state S.Store conn.old) (state S.Store conn.new) }
    ensures crash { Survives (state S.Store conn.old) (state S.Store conn.new)
        (λ _. IsTrue (state S.Store conn.old).is_open → ⊥) }
{
    let rows = conn.query_all(
        "SELECT until FROM revoked WHERE id = ?1 AND until >= ?2",
        params![id, until],
    )?;
    Ok(!rows.is_empty())
}

// Adds a row.
pub fn add<S: Alter>(conn: &mut Connection<S>, id: &[u8], until: i64) -> Result<usize, Error>
    requires { IsKept (state S.Store conn.old) }
    ensures added { HasCleanDisk (state S.Store conn.new) → OnOk result
        (IsTrue (state S.Store conn.new).is_open
        → IsAdded (rows_of (state S.Store conn.old)) id.now until
        (rows_of (state S.Store conn.new))) }
    ensures still { OnErr result (IsStill (state S.Store conn.old) (state S.Store conn.new)) }
    ensures kept { IsKept (state S.Store conn.new) }
    ensures opened { WasOpen (state S.Store conn.old) (state S.Store conn.new) }
    ensures crash { Survives (state S.Store conn.old) (state S.Store conn.new)
        (λ db. IsTrue (state S.Store conn.old).is_open
        → IsAdded (rows_of (state S.Store conn.old)) id.now until (db 0)) }
{
    conn.execute(
        "INSERT INTO revoked (id, until) VALUES (?1, ?2)",
        params![id, until],
    )
}

// Makes the table in an empty database.
pub fn create<S: Alter>(conn: &mut Connection<S>) -> Result<usize, Error>
    requires { IsBlank (state S.Store conn.old) }
    ensures { HasCleanDisk (state S.Store conn.new) → OnOk result
        (IsTrue (state S.Store conn.new).is_open
        → Keeps (state S.Store conn.new) × (rows_of (state S.Store conn.new) ≡ [])) }
{
    conn.execute(
        "CREATE TABLE revoked (id BLOB NOT NULL, until INTEGER NOT NULL, PRIMARY KEY (id, until)) STRICT",
        &[],
    )
}

// Adds a row, unless one revokes the id until this second or a later one.
pub fn extend<S: Alter>(conn: &mut Connection<S>, id: &[u8], until: i64) -> Result<(), Error>
    requires { IsKept (state S.Store conn.old) }
    ensures revoked { HasCleanDisk (state S.Store conn.new) → OnOk result
        (IsTrue (state S.Store conn.new).is_open
        → IsExtended (rows_of (state S.Store conn.old)) id.now until
        (rows_of (state S.Store conn.new))) }
    ensures still { OnErr result (IsStill (state S.Store conn.old) (state S.Store conn.new)) }
    ensures kept { IsKept (state S.Store conn.new) }
    ensures opened { WasOpen (state S.Store conn.old) (state S.Store conn.new) }
    ensures crash { Survives (state S.Store conn.old) (state S.Store conn.new)
        (λ db. IsTrue (state S.Store conn.old).is_open
        → IsExtended (rows_of (state S.Store conn.old)) id.now until (db 0)) }
{
    if find_until(conn, id, until)? {
        return Ok(());
    }
    add(conn, id, until)?;
    Ok(())
}

// Revokes the id until this second, unless a row does until this second or a later one. Returns whether one revoked it.
pub fn revoke<S: Alter>(conn: &mut Connection<S>, id: &[u8], until: i64) -> Result<bool, Error>
    requires { IsKept (state S.Store conn.old) }
    ensures already { HasCleanDisk (state S.Store conn.new)
        → IfOk result (λ already. already ≡ is_revoked_in (state S.Store conn.old) id.now) }
    ensures revoked { HasCleanDisk (state S.Store conn.new) → OnOk result
        (IsTrue (state S.Store conn.new).is_open
        → IsExtended (rows_of (state S.Store conn.old)) id.now until
        (rows_of (state S.Store conn.new))) }
    ensures still { OnErr result (IsStill (state S.Store conn.old) (state S.Store conn.new)) }
    ensures kept { IsKept (state S.Store conn.new) }
    ensures opened { WasOpen (state S.Store conn.old) (state S.Store conn.new) }
    ensures crash { Survives (state S.Store conn.old) (state S.Store conn.new)
        (λ db. IsTrue (state S.Store conn.old).is_open
        → IsExtended (rows_of (state S.Store conn.old)) id.now until (db 0)) }
{
    let was_revoked = find(conn, id)?;
    extend(conn, id, until)?;
    Ok(was_revoked)
}

// Deletes each row whose second isn't after `now`.
pub fn delete<S: Alter>(conn: &mut Connection<S>, now: i64) -> Result<usize, Error>
    requires { IsKept (state S.Store conn.old) }
    ensures deleted { HasCleanDisk (state S.Store conn.new) → OnOk result
        (IsTrue (state S.Store conn.new).is_open
        → HasRowids (rows_of (state S.Store conn.old))
        → IsPruned (rows_of (state S.Store conn.old)) (now +ℤ pos 1)
        (rows_of (state S.Store conn.new))) }
    ensures still { OnErr result (IsStill (state S.Store conn.old) (state S.Store conn.new)) }
    ensures kept { IsKept (state S.Store conn.new) }
    ensures opened { WasOpen (state S.Store conn.old) (state S.Store conn.new) }
    ensures crash { Survives (state S.Store conn.old) (state S.Store conn.new)
        (λ db. IsTrue (state S.Store conn.old).is_open
        → HasRowids (rows_of (state S.Store conn.old))
        → IsPruned (rows_of (state S.Store conn.old)) (now +ℤ pos 1) (db 0)) }
{
    conn.execute("DELETE FROM revoked WHERE until <= ?1", params![now])
}

// Deletes each row whose second isn't after `now`, once it has seen that a rowid names one row.
pub fn forget<S: Alter>(conn: &mut Connection<S>, now: i64) -> Result<(), Error>
    requires { IsKept (state S.Store conn.old) }
    ensures forgotten { HasCleanDisk (state S.Store conn.new) → OnOk result
        (IsTrue (state S.Store conn.new).is_open
        → IsPruned (rows_of (state S.Store conn.old)) (now +ℤ pos 1)
        (rows_of (state S.Store conn.new))) }
    ensures still { OnErr result (IsStill (state S.Store conn.old) (state S.Store conn.new)) }
    ensures kept { IsKept (state S.Store conn.new) }
    ensures opened { WasOpen (state S.Store conn.old) (state S.Store conn.new) }
    ensures crash { Survives (state S.Store conn.old) (state S.Store conn.new)
        (λ db. IsTrue (state S.Store conn.old).is_open
        → IsPruned (rows_of (state S.Store conn.old)) (now +ℤ pos 1) (db 0)) }
{
    if !has_rowids(conn)? {
        return Err(Error::SqliteFailure(ErrorCode::DatabaseCorrupt));
    }
    delete(conn, now)?;
    Ok(())
}
