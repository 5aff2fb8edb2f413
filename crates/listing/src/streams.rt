// Standard input and output, and whether each read and write of them was made. A read that fails counts as
// the end of the input, and after a write that fails nothing more is written; `finish` tells of both.
ghost use Rattle.std.specs.Prelude.{◌≡◌, ◌≤◌, ◌&&◌, true, false, is_ok, length};

use std::io;
use std::io::{Error, Print, Read, Stdin, Stdout};

pub struct Streams {
    stdin: Stdin,
    stdout: Stdout,
    pub is_read: bool,
    pub is_written: bool,
}

// Streams of which nothing is read or written yet.
pub fn streams_on(stdin: Stdin, stdout: Stdout) -> Streams
    ensures read { result.is_read ≡ true }
    ensures written { result.is_written ≡ true }
{
    Streams {
        stdin,
        stdout,
        is_read: true,
        is_written: true,
    }
}

// Writes bytes, where all before them were written.
pub fn write_bytes(streams: &mut Streams, bytes: &[u8])
    ensures read { streams.new.is_read ≡ streams.old.is_read }
    ensures written { streams.old.is_written ≡ false → streams.new.is_written ≡ false }
{
    if streams.is_written {
        streams.is_written = Print::write_all(&streams.stdout, bytes).is_ok();
    }
}

// Reads bytes into the front of a piece; answers how many, 0 at the end of the input.
pub fn read_bytes(streams: &mut Streams, piece: &mut [u8]) -> usize
    ensures in_bounds { result ≤ length piece.new }
    ensures read { streams.old.is_read ≡ false → streams.new.is_read ≡ false }
    ensures written { streams.new.is_written ≡ streams.old.is_written }
{
    match streams.stdin.read(piece) {
        Ok(count) => count,
        Err(_) => {
            streams.is_read = false;
            0
        }
    }
}

// Answers an error, if a read or a write failed.
pub fn finish(streams: Streams) -> io::Result<()>
    ensures { is_ok result ≡ (streams.is_read && streams.is_written) }
{
    let Streams {
        stdin: _,
        stdout: _,
        is_read,
        is_written,
    } = streams;
    if !is_read {
        return Err(Error::other("standard input cannot be read"));
    }
    if !is_written {
        return Err(Error::other("standard output takes no more"));
    }
    Ok(())
}
