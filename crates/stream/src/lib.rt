// Reading an input whole into a buffer of fixed length.
#![tactic(auto)]

ghost use Rattle.std.specs.Prelude.{◌≡◌, IfOk, IfSome, length, take};
ghost use Rattle.std.specs.Io.{ReadsAtMost};
ghost use Rattle.std.specs.Io.KnownBytes.{Consumes};

use std::io;
use std::io::Read;

// Reads until the buffer is full or the input ends, and returns how many bytes stand at the buffer's front: those that the
// input began with, as many as there is room for. They are no longer the reader's.
pub fn read_full<R: Read>(reader: &mut R, buf: &mut [u8]) -> io::Result<usize>
    ensures bound { ReadsAtMost result buf.new }
    ensures front { IfOk result (λ n. IfSome (R.remaining reader.old) (λ s. take n buf.new ≡ take (length buf.new) s)) }
    ensures bytes { IfOk result (λ n. Consumes (R.remaining reader.old) (R.remaining reader.new) (take n buf.new)) }
{
    let mut done = 0;
    while done < buf.len() {
        let n = reader.read(&mut buf[done..])?;
        if n == 0 {
            break;
        }
        done += n;
    }
    Ok(done)
}

#[cfg(test)]
mod tests {
    use super::*;
    use std::io::ErrorKind;

    // Gives a byte a call, and fails once none is left.
    #[derive(Drop)]
    struct Faulty {
        left: u8,
    }

    impl Read for Faulty {
        fn read(&mut self, buf: &mut [u8]) -> io::Result<usize> {
            if self.left == 0 {
                return Err(io::Error::from(ErrorKind::Other));
            }
            if buf.is_empty() {
                return Ok(0);
            }
            buf[0] = self.left;
            self.left -= 1;
            Ok(1)
        }
    }

    #[test]
    fn reads_as_much_as_there_is_room_for(rt: HostRuntime) -> io::Result<()> {
        let mut input = &b"abc"[..];
        let mut buf = [0u8; 2];
        assert_eq!(rt; read_full(&mut input, &mut buf)?, 2);
        assert!(rt; buf == *b"ab");
        assert_eq!(rt; read_full(&mut input, &mut buf)?, 1);
        assert!(rt; buf == *b"cb");
        assert_eq!(rt; read_full(&mut input, &mut buf)?, 0);
        Ok(())
    }

    #[test]
    fn fails_where_a_read_fails(rt: HostRuntime) -> io::Result<()> {
        let mut buf = [0u8; 3];
        assert_eq!(rt; read_full(&mut Faulty { left: 3 }, &mut buf)?, 3);
        assert!(rt; read_full(&mut Faulty { left: 2 }, &mut buf).is_err());
        Ok(())
    }
}
