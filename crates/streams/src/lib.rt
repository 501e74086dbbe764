// Bytes in and out in blocks, as the programs need them. Beside the standard streams a launcher hands a program descriptors of its
// own. std takes none by its number, so each is opened by the name that the system has for it; one that is closed, or that was
// opened for the other direction, isn't there. A read that fails counts as the end of what is read.
#![tactic(auto)]

ghost use Rattle.std.specs.Prelude.{◌≤◌, length, take};
ghost use Rattle.std.specs.Io.KnownBytes.{Consumes};

use std::fs;
use std::fs::{File, OpenOptions};
use std::io::Read;
use std::os::unix::fs::MetadataExt;

// The owner's permissions, by which the system tells what a descriptor was opened for.
const MAY_READ: u32 = 0o400;

const MAY_WRITE: u32 = 0o200;

// One read: how many bytes it put at the start of buf, 0 at the end.
pub fn read_some<R: Read>(reader: &mut R, buf: &mut [u8]) -> usize
    ensures in_bounds { result ≤ length buf.new }
    ensures bytes { Consumes (R.remaining reader.old) (R.remaining reader.new) (take result buf.new) }
{
    reader.read(buf).unwrap_or(0)
}

// Reads until buf is full or the input ends, and returns how many bytes it put at the start of buf.
pub fn read_full<R: Read>(reader: &mut R, buf: &mut [u8]) -> usize
    ensures in_bounds { result ≤ length buf.new }
    ensures bytes { Consumes (R.remaining reader.old) (R.remaining reader.new) (take result buf.new) }
{
    let mut done = 0;
    // how far a read comes is known only behind it: no index goes up by one
    while done < buf.len() {
        let n = read_some(reader, &mut buf[done..]);
        if n == 0 {
            break;
        }
        done += n;
    }
    done
}

// Whether the descriptor that has this name is open for that. It is a link, whose own permissions say so.
fn is_open(rt: &HostRuntime, name: &str, permission: u32) -> bool {
    fs::symlink_metadata(rt, name).is_ok_and(|link| link.mode() & permission != 0)
}

// Reads what stands on the descriptor that has this name, as `read_full` does: 0 where there is none.
pub fn read_named(rt: &HostRuntime, name: &str, buf: &mut [u8]) -> usize
    ensures { result ≤ length buf.new }
{
    if !is_open(rt, name, MAY_READ) {
        return 0;
    }
    match File::open(rt, name) {
        Ok(mut file) => read_full(&mut file, buf),
        Err(_) => 0,
    }
}

// The descriptor that has this name, to be written, behind what stands there already where it is a file.
pub fn to_write(rt: &HostRuntime, name: &str) -> Option<File> {
    if !is_open(rt, name, MAY_WRITE) {
        return None;
    }
    OpenOptions::new().append(true).open(rt, name).ok()
}

#[cfg(test)]
mod tests {
    use super::{read_full, read_named, to_write};
    use std::io;
    use std::io::{ErrorKind, Read, Write};

    // Gives one byte a read, counting down, and then fails.
    #[derive(Drop)]
    struct Countdown {
        left: u8,
    }

    impl Read for Countdown {
        fn read(&mut self, buf: &mut [u8]) -> io::Result<usize> {
            if self.left == 0 {
                return Err(io::Error::from(ErrorKind::Other));
            }
            if buf.is_empty() {
                return Ok(0);
            }
            buf[0] = self.left;
            self.left -= 1;
            Ok(1)
        }
    }

    #[test]
    fn fills_over_several_reads(rt: HostRuntime) {
        let mut buf = [0u8; 3];
        assert_eq!(rt; read_full(&mut Countdown { left: 5 }, &mut buf), 3);
        assert_eq!(rt; buf, [5, 4, 3]);
    }

    #[test]
    fn keeps_what_came_before_a_failed_read(rt: HostRuntime) {
        let mut buf = [0u8; 4];
        assert_eq!(rt; read_full(&mut Countdown { left: 2 }, &mut buf), 2);
        assert_eq!(rt; buf, [2, 1, 0, 0]);
    }

    // A file stands in for a descriptor: both are opened by a name.
    #[test]
    fn appends_and_reads_by_name(rt: HostRuntime) -> io::Result<()> {
        std::fs::write(&rt, "handed", "ab")?;
        let mut file = to_write(&rt, "handed").expect(&rt, "the file is there");
        file.write_all(b"c")?;
        let mut buf = [0u8; 4];
        assert_eq!(rt; read_named(&rt, "handed", &mut buf), 3);
        assert_eq!(rt; buf, [97, 98, 99, 0]);
        std::fs::remove_file(&rt, "handed")
    }

    #[test]
    fn finds_nothing_where_nothing_is_open(rt: HostRuntime) {
        let mut buf = [0u8; 4];
        assert_eq!(rt; read_named(&rt, "/dev/fd/99", &mut buf), 0);
        assert!(rt; to_write(&rt, "/dev/fd/99").is_none());
    }
}
