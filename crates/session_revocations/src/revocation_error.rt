//! Why a call on revoked sessions failed.
use sqlite::{Error as SqliteError, ErrorCode};
use std::error::Error;
use std::fmt;

/// Why a call on the revoked sessions in a database failed. A caller that can't look up an id refuses the session.
#[derive(Clone, Copy, Debug, PartialEq, Eq)]
pub enum RevocationError {
    /// Memory ran out.
    OutOfMemory,
    /// The second is after 2^63 - 1 since 1970, the last one that SQLite keeps.
    TooLate,
    /// The database has another schema than this crate's, or a transaction is open in it.
    OtherSchema,
    /// Another process has the file open.
    Busy,
    /// The file can't be opened for reading and writing: it is read-only, or the path names no file.
    CannotOpen,
    /// The file isn't a database, what was read isn't what was written, or a rowid names two rows.
    Damaged,
    /// The disk is full.
    Full,
    /// The disk failed otherwise.
    Disk,
    /// An earlier failure of the disk closed the database.
    Closed,
    /// Another refusal of SQLite, as that the limit on steps was met.
    Sqlite(SqliteError),
}

impl fmt::Display for RevocationError {
    ghost use Rattle.std.specs.Prelude.{Some};
    ghost use Rattle.session_revocations.specs.RevocationError.{refusal_text};

    ghost output = { λ e. Some (refusal_text e) };

    ghost styled_output = { λ e _. Some (refusal_text e) };

    fn fmt<W: fmt::Write>(&self, f: &mut fmt::Formatter<W>) -> fmt::Result {
        f.write_str(match self {
            RevocationError::OutOfMemory => "out of memory",
            RevocationError::TooLate => "the second is past what the database keeps",
            RevocationError::OtherSchema => "the database is not one of revoked sessions",
            RevocationError::Busy => "the database is locked",
            RevocationError::CannotOpen => "the database can't be opened for writing",
            RevocationError::Damaged => "the database is damaged",
            RevocationError::Full => "the disk is full",
            RevocationError::Disk => "the disk failed",
            RevocationError::Closed => "the database was closed by an earlier failure",
            RevocationError::Sqlite(_) => "SQLite refused the statement",
        })
    }
}

impl Error for RevocationError {}

impl From<SqliteError> for RevocationError {
    ghost use Rattle.std.specs.Prelude.{◌≡◌};
    ghost use Rattle.session_revocations.specs.RevocationError.{refusal_of};

    ghost from_gives = { λ error e. e ≡ refusal_of error };

    fn from(error: SqliteError) -> RevocationError {
        match error {
            SqliteError::SqliteFailure(ErrorCode::OutOfMemory) => RevocationError::OutOfMemory,
            SqliteError::SqliteFailure(ErrorCode::DatabaseBusy) => RevocationError::Busy,
            SqliteError::SqliteFailure(ErrorCode::CannotOpen) => RevocationError::CannotOpen,
            SqliteError::SqliteFailure(ErrorCode::NotADatabase | ErrorCode::DatabaseCorrupt) =>
                RevocationError::Damaged,
            SqliteError::SqliteFailure(ErrorCode::DiskFull) => RevocationError::Full,
            SqliteError::SqliteFailure(ErrorCode::SystemIoFailure) => RevocationError::Disk,
            SqliteError::SqliteFailure(ErrorCode::Closed) => RevocationError::Closed,
            other => RevocationError::Sqlite(other),
        }
    }
}
