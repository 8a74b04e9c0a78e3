// An input that is read whole, into a buffer that has room for one byte more than is wanted.
// Reading goes in here that programs share; what the bytes say is of other crates.
#![tactic(auto)]

ghost use Rattle.std.specs.Prelude.{◌<◌, length, take, IfOk};
ghost use Rattle.std.specs.Io.{ReadsAtMost};
ghost use Rattle.std.specs.Io.KnownBytes.{Consumes, IsAtEnd};

use std::io;
use std::io::Read;

// Reads until `buf` is full or the input ends, and answers how many bytes it put at the front of `buf`. After an error nothing is
// said of how much was read.
pub fn read_full<R: Read>(from: &mut R, buf: &mut [u8]) -> io::Result<usize>
    ensures bound { ReadsAtMost result buf.new }
    ensures bytes { IfOk result (λ n. Consumes (R.remaining from.old) (R.remaining from.new) (take n buf.new)) }
    ensures end { IfOk result (λ n. n < length buf.new → IsAtEnd (R.remaining from.new)) }
{
    let mut done = 0;
    // A read may put fewer bytes than were asked for; `read_exact` leaves unsaid how many came before the end.
    while done < buf.len() {
        let n = from.read(&mut buf[done..])?;
        if n == 0 {
            break;
        }
        done += n;
    }
    Ok(done)
}

#[cfg(test)]
mod tests {
    use super::read_full;
    use std::io;
    use std::io::{Error, ErrorKind, Read};

    // Gives its bytes one at a time, and then an error.
    #[derive(Drop)]
    struct Failing<'a>(&'a [u8]);

    impl Read for Failing<'_> {
        fn read(&mut self, buf: &mut [u8]) -> io::Result<usize> {
            if buf.is_empty() {
                return Ok(0);
            }
            let Some((first, rest)) = self.0.split_first() else {
                return Err(Error::from(ErrorKind::ConnectionReset));
            };
            buf[0] = *first;
            self.0 = rest;
            Ok(1)
        }
    }

    #[test]
    fn short_and_long(rt: HostRuntime) {
        let mut buf = [0u8; 4];
        assert_eq!(rt; read_full(&mut &b"abc"[..], &mut buf).ok(), Some(3));
        assert_eq!(rt; buf, *b"abc\0");
        assert_eq!(rt; read_full(&mut &b"vwxyz"[..], &mut buf).ok(), Some(4));
        assert_eq!(rt; buf, *b"vwxy");
        assert_eq!(rt; read_full(&mut &b""[..], &mut buf).ok(), Some(0));
    }

    #[test]
    fn error_in_mid_stream(rt: HostRuntime) {
        let mut buf = [0u8; 4];
        let read = read_full(&mut Failing(b"abc"), &mut buf);
        assert_eq!(rt; read.map_err(|e| e.kind()), Err(ErrorKind::ConnectionReset));
        let read = read_full(&mut Failing(b"abcd"), &mut buf);
        assert_eq!(rt; read.ok(), Some(4));
        assert_eq!(rt; buf, *b"abcd");
    }
}
