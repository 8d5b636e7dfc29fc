//! Sessions of the program over readers and writers that fail, and a long one.
use cookie_client::{RunError, run};
use std::alloc::Global;
use std::io::{self, Read, Write};
use std::test::Fail;

const MOMENT: &str = "Wed, 21 Oct 2015 07:28:00 GMT";

// A session with an original, two additions and a removal, and its text.
const INPUT: &[u8] = b"\
name=val; x=%C3%A9\nadd a=1; Path=/; Secure\nadd b=2%3B; HttpOnly\nremove name\nreset\nremove x\nadd c=3";

const TEXT: &[u8] = b"\
Set-Cookie: c=3\nSet-Cookie: x=; Max-Age=0; Expires=Tue, 21 Oct 2014 07:28:00 GMT\nCookie: c=3; name=val\n";

// A reader that returns its text by one byte a call, and then fails.
#[derive(Drop)]
struct FailingReader<'t>(&'t [u8]);

impl<'t> Read for FailingReader<'t> {
    fn read(&mut self, buf: &mut [u8]) -> io::Result<usize> {
        let (Some((byte, rest)), Some(place)) = (self.0.split_first(), buf.first_mut()) else {
            return Err(io::Error::from(io::ErrorKind::BrokenPipe));
        };
        *place = *byte;
        self.0 = rest;
        Ok(1)
    }
}

// A writer that takes this many bytes a call at most, and fails after this many calls.
#[derive(Drop)]
struct FailingWriter {
    taken: Vec<u8>,
    most: usize,
    left: usize,
}

impl Write for FailingWriter {
    fn write(&mut self, buf: &[u8]) -> io::Result<usize> {
        if self.left == 0 {
            return Err(io::Error::from(io::ErrorKind::BrokenPipe));
        }
        let part = buf.get(..self.most).unwrap_or(buf);
        self.taken.extend_from_slice(part)?;
        self.left -= 1;
        Ok(part.len())
    }

    fn flush(&mut self) -> io::Result<()> {
        Ok(())
    }
}

// What comes of the session over a writer that takes at most `most` bytes a call and fails after `left` calls, and what
// it took.
fn outcome<R: Read + Drop>(
    alloc: Global,
    mut reader: R,
    most: usize,
    left: usize,
) -> (Result<(), RunError>, Vec<u8>) {
    let taken = Vec::new(alloc);
    let mut writer = FailingWriter { taken, most, left };
    (run(alloc, MOMENT, &mut reader, &mut writer), writer.taken)
}

// One writer takes whatever it is given, and one fails as soon as anything is written. A bad time is told before a
// read.
#[test]
fn a_failed_read_writes_nothing(rt: HostRuntime) {
    for reads in 0..=INPUT.len() {
        for writes in [usize::MAX, 0] {
            let reader = FailingReader(INPUT.get(..reads).unwrap_or(b""));
            let (outcome, taken) = outcome(rt.alloc(), reader, 1, writes);
            assert!(rt; matches!(outcome, Err(RunError::Input)), "{reads}");
            assert!(rt; taken.is_empty(), "{reads}");
        }
    }
    let mut written = Vec::new(rt.alloc());
    let outcome = run(rt.alloc(), "", &mut FailingReader(b""), &mut written);
    assert!(rt; matches!(outcome, Err(RunError::BadMoment)));
}

// A writer that takes no byte is reported, too.
#[test]
fn a_failed_write_leaves_a_beginning(rt: HostRuntime) {
    for writes in 0..TEXT.len() {
        let (outcome, taken) = outcome(rt.alloc(), INPUT, 1, writes);
        assert!(rt; matches!(outcome, Err(RunError::Output)), "{writes}");
        assert!(rt; TEXT.get(..writes) == Some(taken.as_slice()), "{writes}");
    }
    for writes in [TEXT.len(), usize::MAX] {
        let (outcome, taken) = outcome(rt.alloc(), INPUT, 1, writes);
        assert!(rt; outcome.is_ok() && taken.as_slice() == TEXT, "{writes}");
    }
    let (unmoved, taken) = outcome(rt.alloc(), INPUT, 0, usize::MAX);
    assert!(rt; matches!(unmoved, Err(RunError::Output)) && taken.is_empty());
}

#[test]
fn a_long_text_is_written_whole(rt: HostRuntime) -> Result<(), Fail> {
    let value = "abcd".repeat(rt.alloc(), 12_500)?;
    let input = format!(in rt.alloc(); "\nadd n={value}")?;
    let text = format!(in rt.alloc(); "Set-Cookie: n={value}\nCookie: n={value}\n")?;
    let (outcome, taken) = outcome(rt.alloc(), input.as_bytes(), usize::MAX, usize::MAX);
    assert!(rt; outcome.is_ok() && taken.as_slice() == text.as_bytes());
    Ok(())
}
