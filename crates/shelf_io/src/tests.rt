use super::*;
use std::io::Write;
use std::test::Fail;
use std::{env, fs, io};

/// A shelf with the one text `abc`, named `t1`.
fn one_text(rt: &HostRuntime, failing: Vec<u64>) -> Result<MemShelf, Fail> {
    let alloc = rt.alloc();
    let name = String::from_str(alloc, "t1")?;
    let text = vec![in alloc; b'a', b'b', b'c']?;
    Ok(MemShelf::open(vec![in alloc; (name, text)]?, failing))
}

#[test]
fn shelf_in_memory(rt: HostRuntime) -> Result<(), Fail> {
    let alloc = rt.alloc();
    let mut shelf = one_text(&rt, vec![in alloc; 3]?)?;
    assert_eq!(rt; shelf.fetch(alloc, "t1", 9)?.as_slice(), b"abc".as_slice());
    assert_eq!(rt; shelf.fetch(alloc, "t1", 2)?.as_slice(), b"ab".as_slice());
    assert_eq!(rt; shelf.fetch(alloc, "t1", 9).err(), Some(ShelfError::Failed));
    assert_eq!(rt; shelf.fetch(alloc, "t2", 9).err(), Some(ShelfError::Failed));
    assert_eq!(rt; shelf.fetch(alloc, "t1", 9)?.as_slice(), b"abc".as_slice());
    Ok(())
}

#[test]
fn sink_in_memory(rt: HostRuntime) -> Result<(), Fail> {
    let alloc = rt.alloc();
    let mut sink = MemSink::open(alloc, 9, vec![in alloc; (2, 1)]?)?;
    assert_eq!(rt; sink.write_all(b"ab"), Ok(()));
    assert_eq!(rt; sink.write_all(b"cd"), Err(Failed));
    assert_eq!(rt; sink.write_all(b"efgh"), Ok(()));
    assert_eq!(rt; sink.write_all(b"ijkl"), Err(Failed));
    assert_eq!(rt; sink.bytes(), b"abcefghij".as_slice());
    Ok(())
}

#[test]
fn sink_without_room(rt: HostRuntime) -> Result<(), Fail> {
    let alloc = rt.alloc();
    let mut sink = MemSink::open(alloc, 0, Vec::new(alloc))?;
    assert_eq!(rt; sink.write_all(b"a"), Err(Failed));
    assert_eq!(rt; sink.bytes(), b"".as_slice());
    Ok(())
}

#[test]
fn shelf_of_files(rt: HostRuntime) -> Result<(), Fail> {
    let alloc = rt.alloc();
    let folder = env::temp_dir(&rt)?;
    let path = folder.as_path().join(alloc, "bonsai_shelf_of_files")?;
    fs::write(&rt, path.as_path(), "some text")?;
    let mut shelf = FileShelf::open(&rt);
    let name = path.as_path().as_str();
    let short = shelf.fetch(alloc, name, 4)?;
    let whole = shelf.fetch(alloc, name, 99)?;
    fs::remove_file(&rt, path.as_path())?;
    assert_eq!(rt; short.as_slice(), b"some".as_slice());
    assert_eq!(rt; whole.as_slice(), b"some text".as_slice());
    assert_eq!(rt;
        shelf.fetch(alloc, name, 99).err(),
        Some(ShelfError::Failed)
    );
    assert_eq!(rt; shelf.fetch(alloc, "/", 99).err(), Some(ShelfError::Failed));
    Ok(())
}

/// A stream that takes two bytes a write, and none once it has four.
#[derive(Drop)]
struct Narrow<'a> {
    bytes: &'a mut Vec<u8>,
}

impl Write for Narrow<'_> {
    fn write(&mut self, bytes: &[u8]) -> io::Result<usize> {
        let count = bytes.len().min(2);
        if self.bytes.len() >= 4 {
            return Ok(0);
        }
        self.bytes.extend_from_slice(&bytes[..count])?;
        Ok(count)
    }

    fn flush(&mut self) -> io::Result<()> {
        Ok(())
    }
}

#[test]
fn sink_over_a_stream(rt: HostRuntime) -> Result<(), Fail> {
    let mut bytes = Vec::new(rt.alloc());
    let mut sink = StreamSink::open(Narrow { bytes: &mut bytes });
    assert_eq!(rt; sink.write_all(b"abc"), Ok(()));
    assert_eq!(rt; sink.write_all(b"defg"), Err(Failed));
    assert_eq!(rt; bytes.as_slice(), b"abcde".as_slice());
    Ok(())
}
