//! Whether each rowid names one row. SQLite has it so, but the contracts of `sqlite` don't say it, and a deletion goes by
//! rowids.
ghost use Rattle.std.specs.Prelude.{IfOk, IsTrue, None, OnOk};
ghost use Rattle.session_revocations.specs.Held.{IsKept, IsStill, WasOpen, rows_of};
ghost use Rattle.session_revocations.specs.Rowids.{AreRising, HasRowids, IsAfter};
ghost use Rattle.sqlite.specs.Held.{state};
ghost use Rattle.sqlite.specs.State.{HasCleanDisk, IsUnchanged, Survives};

use sqlite::{Alter, Connection, Error, Row};

// Whether a number comes after the one before it, if there is one.
fn is_after(last: Option<i64>, next: i64) -> bool
    ensures { IsTrue result → IsAfter last next }
{
    match last {
        None => true,
        Some(last) => last < next,
    }
}

// Whether the first two columns are integers, and the first one rises.
fn are_rising(rows: &[Row]) -> bool
    ensures { IsTrue result → AreRising None rows.now }
{
    let mut last: Option<i64> = None;
    for row in rows {
        let Ok(rowid) = row.get::<i64>(0) else {
            return false;
        };
        let Ok(_until) = row.get::<i64>(1) else {
            return false;
        };
        if !is_after(last, rowid) {
            return false;
        }
        last = Some(rowid);
    }
    true
}

// Whether each row has a rowid of its own, an integer, and its second is an integer.
pub fn has_rowids<S: Alter>(conn: &mut Connection<S>) -> Result<bool, Error>
    requires { IsKept (state S.Store conn.old) }
    ensures exact { HasCleanDisk (state S.Store conn.new)
        → IfOk result (λ found. IsTrue found → HasRowids (rows_of (state S.Store conn.old))) }
    ensures same { HasCleanDisk (state S.Store conn.new)
        → OnOk result (IsUnchanged (state S.Store conn.old) (state S.Store conn.new)) }
    ensures still { IsStill (state S.Store conn.old) (state S.Store conn.new) }
    ensures kept { IsKept (state S.Store conn.new) }
    ensures opened { WasOpen (state S.Store conn.old) (state S.Store conn.new) }
    ensures crash { Survives (state S.Store conn.old) (state S.Store conn.new)
        (λ _. IsTrue (state S.Store conn.old).is_open → ⊥) }
{
    let rows = conn.query_all("SELECT rowid, until FROM revoked ORDER BY rowid", &[])?;
    Ok(are_rising(rows.as_slice()))
}
