//! The set of revoked sessions in an SQLite database.
ghost use Rattle.std.specs.Prelude.{◌≡◌, ◌≢◌, ◌⊎◌, ◌↔◌, ◌≤◌, ◌^◌, [], Err, false, IfOk, IsTrue, MatchOption, Ok, OnErr, OnOk, pos};
ghost use Rattle.session_revocations.specs.Crash.{AreRowsLeft, IsLeftBy, IsLeftOpen};
ghost use Rattle.session_revocations.specs.Held.{Forgets, IsKept, IsStill, Keeps, Revokes, WasOpen, is_revoked_in, rows_of};
ghost use Rattle.session_revocations.specs.Table.{no_schema, revoked_schema};
ghost use Rattle.session_revocations.specs.declared.revocation_error.RevocationError.TheVariants as refusal;
ghost use Rattle.sqlite.specs.Files.{Finds, file_state, image_of};
ghost use Rattle.sqlite.specs.Held.{Held, state};
ghost use Rattle.sqlite.specs.State.{HasCleanDisk, IsUnchanged, Opens, Survives};
ghost use Rattle.sqlite.specs.Tree.{Trees};
ghost use Rattle.sqlite_store.specs.declared.store.FileStore.{FileStore};

use crate::revocation_error::RevocationError;
use crate::{schema, statements};
use cookie_session::Revocations;
use sqlite::{Alter, Connection, FileStore, Options};
use sqlite_disk::{Disk, Files};
use std::alloc::Global;
use std::marker::Model;

/// The ids of revoked sessions, and until when each is revoked, in the table of an SQLite database. Between two calls
/// all that was written is committed. Contracts see the connection, as `sqlite` does.
///
/// ```
/// let mut revocations = SqliteRevocations::new(Connection::open(rt, "revoked.db")?)?;
/// revocations.revoke(&id, until)?;
/// if revocations.is_revoked(&id)? {
///     return Ok(None);
/// }
/// ```
pub struct SqliteRevocations<S: Alter> {
    conn: Connection<S>,
}

impl<S: Alter + Drop> Drop for SqliteRevocations<S> {
    fn drop(self) {
        let SqliteRevocations { conn: _ } = self;
    }
}

impl<S: Alter> Model for SqliteRevocations<S> {
    ghost use Rattle.sqlite.specs.Held.{Held, held_code, state};
    ghost use Rattle.session_revocations.specs.Held.{IsKept};

    ghost Value = { Held S };

    ghost coded = { held_code S.code };

    ghost view = { λ r. r.conn };

    // While the connection is open, it has the table, and all that was written is committed.
    ghost invariant = { λ r. IsKept (state S.Store r.conn) };
}

// A second as SQLite keeps it, or `None` if it is past the last.
fn second_of(until: u64) -> Option<i64>
    ensures { MatchOption result (2 ^ 63 ≤ until) (λ second. second ≡ pos until) }
{
    i64::try_from(until).ok()
}

// Makes the table if the database is empty. Returns whether the database is this crate's.
fn prepare<S: Alter>(conn: &mut Connection<S>) -> Result<bool, RevocationError>
    ensures kept { HasCleanDisk (state S.Store conn.new) → IfOk result (λ ours. IsTrue ours
        → IsTrue (state S.Store conn.new).is_open → Keeps (state S.Store conn.new)) }
    ensures same { OnOk result ((state S.Store conn.old).now.schema ≡ revoked_schema
        → conn.new ≡ conn.old) }
    ensures made { HasCleanDisk (state S.Store conn.new) → IfOk result (λ ours. IsTrue ours
        → IsTrue (state S.Store conn.new).is_open → (state S.Store conn.old).now.schema ≡ no_schema
        → rows_of (state S.Store conn.new) ≡ []) }
    ensures known { IfOk result (λ ours. IsTrue ours
        → ((state S.Store conn.old).now.schema ≡ revoked_schema)
        ⊎ ((state S.Store conn.old).now.schema ≡ no_schema)) }
    ensures other { (result ≡ Ok false) ↔ (IsTrue (state S.Store conn.old).in_transaction
        ⊎ (((state S.Store conn.old).now.schema ≢ revoked_schema)
        × ((state S.Store conn.old).now.schema ≢ no_schema))) }
    ensures named { result ≢ Err refusal.OtherSchema }
{
    if !conn.is_autocommit() {
        return Ok(false);
    }
    if schema::is_blank(conn.schema()) {
        statements::create(conn)?;
        return Ok(true);
    }
    Ok(schema::is_ours(conn.schema()))
}

// Takes a connection to a database that is this crate's already.
fn adopt<S: Alter + Drop>(conn: Connection<S>) -> Result<SqliteRevocations<S>, RevocationError>
    ensures { IfOk result (λ r. r ≡ conn) }
{
    if conn.is_autocommit() && schema::is_ours(conn.schema()) {
        return Ok(SqliteRevocations { conn });
    }
    Err(RevocationError::OtherSchema)
}

impl<S: Alter + Drop> SqliteRevocations<S> {
    /// Takes a connection to a database of revoked sessions. If the database is empty, it makes the table.
    ///
    /// Fails with `OtherSchema` exactly if the database has another schema, or if a transaction is open.
    pub fn new(mut conn: Connection<S>) -> Result<SqliteRevocations<S>, RevocationError>
        // A database of revoked sessions is taken as it is.
        ensures found { IfOk result (λ r. (state S.Store conn).now.schema ≡ revoked_schema
            → r ≡ conn) }

        // In an empty one nothing is revoked.
        ensures made { IfOk result (λ r. HasCleanDisk (state S.Store r)
            → IsTrue (state S.Store r).is_open → (state S.Store conn).now.schema ≡ no_schema
            → rows_of (state S.Store r) ≡ []) }

        // Any other is refused.
        ensures known { OnOk result (((state S.Store conn).now.schema ≡ revoked_schema)
            ⊎ ((state S.Store conn).now.schema ≡ no_schema)) }

        // `OtherSchema` means that, or an open transaction.
        ensures other { (result ≡ Err refusal.OtherSchema)
            ↔ (IsTrue (state S.Store conn).in_transaction
            ⊎ (((state S.Store conn).now.schema ≢ revoked_schema)
            × ((state S.Store conn).now.schema ≢ no_schema))) }
    {
        if prepare(&mut conn)? {
            Ok(SqliteRevocations { conn })
        } else {
            Err(RevocationError::OtherSchema)
        }
    }

    /// Whether the session with this id is revoked.
    ///
    /// After an error refuse the session.
    pub fn is_revoked(&mut self, id: &[u8; 16]) -> Result<bool, RevocationError>
        ensures exact { HasCleanDisk (state S.Store self.new)
            → IfOk result (λ found. found ≡ is_revoked_in (state S.Store self.old) id.now) }

        // It changes nothing, also if it fails.
        ensures same { HasCleanDisk (state S.Store self.new)
            → OnOk result (IsUnchanged (state S.Store self.old) (state S.Store self.new)) }
        ensures still { IsStill (state S.Store self.old) (state S.Store self.new) }
        ensures opened { WasOpen (state S.Store self.old) (state S.Store self.new) }

        // A crash leaves what it could leave before.
        ensures crash { Survives (state S.Store self.old) (state S.Store self.new)
            (λ _. IsTrue (state S.Store self.old).is_open → ⊥) }
    {
        Ok(statements::find(&mut self.conn, id.as_slice())?)
    }

    /// Revokes the session with this id until the second `until` since 1970 in UTC, in which it is over. Returns whether
    /// it was revoked already. If it was, the later of the two seconds counts. Once it returns `Ok`, the session stays
    /// revoked after a crash.
    ///
    /// Fails with `TooLate` if `until` is after 2^63 - 1. After any error each session is revoked as before.
    ///
    /// ```
    /// let was_revoked = revocations.revoke(&id, until)?;
    /// ```
    pub fn revoke(&mut self, id: &[u8; 16], until: u64) -> Result<bool, RevocationError>
        // Whether a row revoked the id.
        ensures already { HasCleanDisk (state S.Store self.new) → IfOk result (λ already.
            already ≡ is_revoked_in (state S.Store self.old) id.now) }

        // The id is revoked until then or longer, and every other id is as before.
        ensures revoked { HasCleanDisk (state S.Store self.new) → OnOk result
            (IsTrue (state S.Store self.new).is_open → Revokes id.now until
            (rows_of (state S.Store self.old)) (rows_of (state S.Store self.new))) }
        ensures still { OnErr result (IsStill (state S.Store self.old) (state S.Store self.new)) }
        ensures opened { WasOpen (state S.Store self.old) (state S.Store self.new) }

        // What is past SQLite's last second is refused, and then nothing is done.
        ensures too_late { 2 ^ 63 ≤ until → (result ≡ Err refusal.TooLate) × (self.new ≡ self.old) }
        ensures within { result ≡ Err refusal.TooLate → 2 ^ 63 ≤ until }

        // It is committed: after a crash an open finds the same rows.
        ensures durable { HasCleanDisk (state S.Store self.new)
            → IsTrue (state S.Store self.new).is_open
            → (db : Trees) → (state S.Store self.new).may_leave db
            → db ≡ (state S.Store self.new).now.trees }

        // A crash within it leaves what it could leave before, or what it commits.
        ensures crash { Survives (state S.Store self.old) (state S.Store self.new)
            (λ db. IsTrue (state S.Store self.old).is_open → Revokes id.now until
            (rows_of (state S.Store self.old)) (db 0)) }
    {
        match second_of(until) {
            None => Err(RevocationError::TooLate),
            Some(second) => Ok(statements::revoke(&mut self.conn, id.as_slice(), second)?),
        }
    }

    /// Forgets each id whose second isn't after `now`, in seconds since 1970 in UTC. Such a session is over, so no copy
    /// of its cookie opens any more. Every other id stays revoked, until the same second. Once it returns `Ok`, a crash
    /// brings no id back. It reads all rows.
    ///
    /// If the clock goes back after that, a forgotten session is no longer revoked.
    ///
    /// Fails with `TooLate` if `now` is after 2^63 - 1. After any error each session is revoked as before.
    ///
    /// ```
    /// revocations.revoke(&id, 200)?;
    /// revocations.forget(199)?;
    /// let still = revocations.is_revoked(&id)?;
    /// revocations.forget(200)?;
    /// ```
    pub fn forget(&mut self, now: u64) -> Result<(), RevocationError>
        // Exactly the ids stay whose second comes after `now`, each until the same second.
        ensures forgotten { HasCleanDisk (state S.Store self.new) → OnOk result
            (IsTrue (state S.Store self.new).is_open → Forgets now
            (rows_of (state S.Store self.old)) (rows_of (state S.Store self.new))) }
        ensures still { OnErr result (IsStill (state S.Store self.old) (state S.Store self.new)) }
        ensures opened { WasOpen (state S.Store self.old) (state S.Store self.new) }

        // What is past SQLite's last second is refused, and then nothing is done.
        ensures too_late { 2 ^ 63 ≤ now → (result ≡ Err refusal.TooLate) × (self.new ≡ self.old) }
        ensures within { result ≡ Err refusal.TooLate → 2 ^ 63 ≤ now }

        // It is committed: after a crash an open finds the same rows.
        ensures durable { HasCleanDisk (state S.Store self.new)
            → IsTrue (state S.Store self.new).is_open
            → (db : Trees) → (state S.Store self.new).may_leave db
            → db ≡ (state S.Store self.new).now.trees }

        // A crash within it leaves what it could leave before, or what it commits.
        ensures crash { Survives (state S.Store self.old) (state S.Store self.new)
            (λ db. IsTrue (state S.Store self.old).is_open → Forgets now
            (rows_of (state S.Store self.old)) (db 0)) }
    {
        let conn = &mut self.conn;
        let Some(second) = second_of(now) else {
            return Err(RevocationError::TooLate);
        };
        Ok(statements::forget(conn, second)?)
    }

    /// The connection, to close its files.
    pub fn into_connection(self) -> Connection<S>
        ensures value { result ≡ self }
        ensures kept { IsKept (state S.Store result) }
    {
        let SqliteRevocations { conn } = self;
        conn
    }
}

/// By the calls of the same names. The session with an id is revoked as the rows say, while the connection is open and
/// the disk has returned what was written.
impl<S: Alter + Drop> Revocations for SqliteRevocations<S> {
    ghost use Rattle.session_revocations.specs.Held.{lasts_until, rows_of};
    ghost use Rattle.sqlite.specs.Held.{state};
    ghost use Rattle.sqlite.specs.State.{HasCleanDisk};

    type Error = RevocationError;

    ghost is_intact = { λ r. HasCleanDisk (state S.Store r) × IsTrue (state S.Store r).is_open };

    ghost revoked_until = { λ r id second. lasts_until (rows_of (state S.Store r)) id second };

    fn is_revoked(&mut self, id: &[u8; 16]) -> Result<bool, RevocationError> {
        SqliteRevocations::is_revoked(self, id)
    }

    fn revoke(&mut self, id: &[u8; 16], until: u64) -> Result<bool, RevocationError> {
        SqliteRevocations::revoke(self, id, until)
    }

    fn forget(&mut self, now: u64) -> Result<(), RevocationError> {
        SqliteRevocations::forget(self, now)
    }
}

impl<D: Disk + Drop> SqliteRevocations<FileStore<D>> {
    /// Opens the set that two files hold, the log and the database, also if a crash left them. After a crash exactly what
    /// was revoked is revoked.
    ///
    /// Fails with `OtherSchema` if the files hold no set of revoked sessions.
    ///
    /// ```
    /// let files = revocations.into_connection().close_files()?;
    /// let again = SqliteRevocations::open_files(alloc, files, Options::new(seed))?;
    /// ```
    pub fn open_files(
        alloc: Global,
        files: Files<D>,
        options: Options,
    ) -> Result<SqliteRevocations<FileStore<D>>, RevocationError>
        requires log { IsTrue (D.Disk.is_usable files.log) }
        requires db { IsTrue (D.Disk.is_usable files.db) }

        // It finds the database that the files hold.
        ensures found { IfOk result (λ again. HasCleanDisk (file_state again)
            → Finds files again × Opens (file_state again)) }

        // After a crash between two calls each row is as the set showed it.
        ensures after_crash { IfOk result (λ again. HasCleanDisk (file_state again)
            → (before : Held (FileStore D D.Disk)) → IsLeftOpen before (image_of D.Disk files)
            → rows_of (file_state again) ≡ rows_of (file_state before)) }

        // After a crash within a call the rows are of a database that the call may leave.
        ensures within { IfOk result (λ again. HasCleanDisk (file_state again)
            → (before : Held (FileStore D D.Disk)) → IsLeftBy before (image_of D.Disk files)
            → AreRowsLeft before (rows_of (file_state again))) }
    {
        match Connection::open_files(alloc, files, options) {
            Ok(conn) => adopt(conn),
            Err((error, _)) => Err(error.into()),
        }
    }

    /// Closes the two files, which copies the log into the database file, and opens them again. Exactly what was
    /// revoked is revoked.
    pub fn reopen(
        self,
        alloc: Global,
        options: Options,
    ) -> Result<SqliteRevocations<FileStore<D>>, RevocationError>
        ensures { IfOk result (λ again. HasCleanDisk (file_state again)
            → rows_of (file_state again) ≡ rows_of (file_state self)) }
    {
        let files = match self.into_connection().close_files() {
            Ok(files) => files,
            Err((error, store)) => {
                drop(store.close());
                return Err(error.into());
            }
        };
        SqliteRevocations::open_files(alloc, files, options)
    }
}
