use std::io::{self, Read, Write};

/// A reader that returns its text by one byte a call.
#[derive(Drop)]
pub struct ByteReader<'t>(pub &'t [u8]);

impl<'t> Read for ByteReader<'t> {
    fn read(&mut self, buf: &mut [u8]) -> io::Result<usize> {
        let (Some((byte, rest)), Some(place)) = (self.0.split_first(), buf.first_mut()) else {
            return Ok(0);
        };
        *place = *byte;
        self.0 = rest;
        Ok(1)
    }
}

/// A writer that takes seven bytes a call at most.
#[derive(Drop)]
pub struct ShortWriter(pub Vec<u8>);

impl Write for ShortWriter {
    fn write(&mut self, buf: &[u8]) -> io::Result<usize> {
        let part = buf.get(..7).unwrap_or(buf);
        self.0.extend_from_slice(part)?;
        Ok(part.len())
    }

    fn flush(&mut self) -> io::Result<()> {
        Ok(())
    }
}
