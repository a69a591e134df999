use std::alloc::{AllocError, Global};
use std::io::{ErrorKind, Read, Write};
use std::test::Fail;
use std::{env, io};
use sv_channels::{
    FetchError, FileShelf, MemoryShelf, MemorySink, NamedBytes, Numbers, Pairs, PutError, Shelf,
    Sink, SinkError, StdSink, SteadySink, WordsError, read_up_to, words_of, write_whole,
};

// A shelf that holds "a" twice, first with three bytes, and "b" with none.
fn small_shelf(alloc: Global, fails: &[u64]) -> Result<MemoryShelf, AllocError> {
    let mut files = NamedBytes::new(alloc);
    files.push("a", b"abc")?;
    files.push("a", b"other")?;
    files.push("b", b"")?;
    let mut numbers = Numbers::new(alloc);
    for &number in fails {
        numbers.push(number)?;
    }
    Ok(MemoryShelf::new(alloc, files, numbers))
}

#[test]
fn fetches_within_the_limit(rt: HostRuntime) -> Result<(), Fail> {
    let alloc = rt.alloc();
    let mut shelf = small_shelf(alloc, &[])?;
    assert_eq!(rt; shelf.fetch(alloc, "a", 3)?.as_slice(), b"abc".as_slice());
    assert_eq!(rt;
        shelf.fetch(alloc, "a", 2).err(),
        Some(FetchError::TooLarge { limit: 2 })
    );
    assert_eq!(rt; shelf.fetch(alloc, "b", 0)?.len(), 0);
    assert_eq!(rt; shelf.fetch(alloc, "c", 9).err(), Some(FetchError::Failed));
    Ok(())
}

#[test]
fn puts_in_place_and_at_the_end(rt: HostRuntime) -> Result<(), Fail> {
    let alloc = rt.alloc();
    let mut shelf = small_shelf(alloc, &[])?;
    shelf.put(alloc, "a", b"new")?;
    shelf.put(alloc, "c", b"more")?;
    assert_eq!(rt; shelf.fetch(alloc, "a", 9)?.as_slice(), b"new".as_slice());
    assert_eq!(rt; shelf.fetch(alloc, "c", 9)?.as_slice(), b"more".as_slice());
    assert_eq!(rt; shelf.bytes("b").map(|bytes| bytes.len()), Some(0));
    assert_eq!(rt; shelf.bytes("d").map(|bytes| bytes.len()), None);
    Ok(())
}

#[test]
fn listed_calls_of_a_shelf_fail(rt: HostRuntime) -> Result<(), Fail> {
    let alloc = rt.alloc();
    let mut shelf = small_shelf(alloc, &[1, 2])?;
    assert_eq!(rt; shelf.fetch(alloc, "a", 9)?.len(), 3);
    assert_eq!(rt; shelf.fetch(alloc, "a", 9).err(), Some(FetchError::Failed));
    assert_eq!(rt; shelf.put(alloc, "a", b"new"), Err(PutError::Failed));
    assert_eq!(rt; shelf.fetch(alloc, "a", 9)?.len(), 3);
    Ok(())
}

#[test]
fn listed_calls_of_a_sink_write_a_first_part(rt: HostRuntime) -> Result<(), Fail> {
    let alloc = rt.alloc();
    let mut fails = Pairs::new(alloc);
    fails.push((1, 2))?;
    fails.push((2, 9))?;
    fails.push((2, 0))?;
    let mut sink = MemorySink::new(alloc, fails);
    sink.write(alloc, b"abc")?;
    assert_eq!(rt; sink.write(alloc, b"def"), Err(SinkError::Failed));
    assert_eq!(rt; sink.write(alloc, b"ghi"), Err(SinkError::Failed));
    sink.write(alloc, b"jkl")?;
    assert_eq!(rt; sink.written(), b"abcdeghijkl".as_slice());
    Ok(())
}

#[test]
fn a_steady_sink_keeps_all(rt: HostRuntime) -> Result<(), Fail> {
    let alloc = rt.alloc();
    let mut sink = SteadySink::new(alloc);
    sink.write(alloc, b"ab")?;
    sink.write(alloc, b"")?;
    sink.write(alloc, b"c")?;
    assert_eq!(rt; sink.written(), b"abc".as_slice());
    Ok(())
}

#[test]
fn files_are_read_back_within_the_limit(rt: HostRuntime) -> Result<(), Fail> {
    let alloc = rt.alloc();
    let mut shelf = FileShelf::new(rt.clone()?);
    // More than two buffers of bytes that differ.
    let mut bytes = Vec::new(alloc);
    for number in 0..40_000u32 {
        bytes.push((number % 251) as u8)?;
    }
    shelf.put(alloc, "file", b"longer at first")?;
    shelf.put(alloc, "file", &bytes)?;
    assert_eq!(rt;
        shelf.fetch(alloc, "file", 40_000)?.as_slice(),
        bytes.as_slice()
    );
    assert_eq!(rt;
        shelf.fetch(alloc, "file", 39_999).err(),
        Some(FetchError::TooLarge { limit: 39_999 })
    );
    assert_eq!(rt; shelf.fetch(alloc, "file", u64::MAX)?.len(), 40_000);
    shelf.put(alloc, "file", b"")?;
    assert_eq!(rt; shelf.fetch(alloc, "file", 0)?.len(), 0);
    Ok(())
}

#[test]
fn missing_files_and_folders_are_failures(rt: HostRuntime) -> Result<(), Fail> {
    let alloc = rt.alloc();
    let mut shelf = FileShelf::new(rt.clone()?);
    assert_eq!(rt;
        shelf.fetch(alloc, "missing", 9).err(),
        Some(FetchError::Failed)
    );
    // A folder opens, and reading it fails: that is no empty file.
    assert_eq!(rt; shelf.fetch(alloc, ".", 9).err(), Some(FetchError::Failed));
    assert_eq!(rt;
        shelf.put(alloc, "missing/file", b"abc"),
        Err(PutError::Failed)
    );
    Ok(())
}

#[test]
fn the_standard_output_is_written(rt: HostRuntime) -> Result<(), Fail> {
    let alloc = rt.alloc();
    let mut sink = StdSink::new(rt.clone()?);
    assert_eq!(rt; sink.write(alloc, b"frame\n"), Ok(()));
    assert_eq!(rt; sink.write(alloc, b""), Ok(()));
    Ok(())
}

// Gives one byte at a time, and then fails.
#[derive(Drop)]
struct ShortReader {
    left: u32,
}

impl Read for ShortReader {
    fn read(&mut self, buffer: &mut [u8]) -> io::Result<usize> {
        if self.left == 0 {
            return Err(io::Error::from(ErrorKind::Other));
        }
        match buffer.first_mut() {
            Some(byte) => {
                *byte = b'x';
                self.left -= 1;
                Ok(1)
            }
            None => Ok(0),
        }
    }
}

// Keeps one byte at a time, and then takes none.
#[derive(Drop)]
struct ShortWriter {
    room: u32,
    kept: Vec<u8>,
}

impl Write for ShortWriter {
    fn write(&mut self, bytes: &[u8]) -> io::Result<usize> {
        if self.room == 0 || bytes.is_empty() {
            return Ok(0);
        }
        self.room -= 1;
        match self.kept.push(bytes[0]) {
            Ok(()) => Ok(1),
            Err(_) => Err(io::Error::from(ErrorKind::OutOfMemory)),
        }
    }

    fn flush(&mut self) -> io::Result<()> {
        Ok(())
    }
}

// Whether three bytes are written to a writer with this room, and what it kept of them.
fn written(alloc: Global, room: u32) -> (bool, Vec<u8>) {
    let mut writer = ShortWriter {
        room,
        kept: Vec::new(alloc),
    };
    let whole = write_whole(&mut writer, b"abc");
    let ShortWriter { kept, .. } = writer;
    (whole, kept)
}

#[test]
fn a_transfer_may_stop_half_way(rt: HostRuntime) -> Result<(), Fail> {
    let alloc = rt.alloc();
    let whole = read_up_to(alloc, &mut ShortReader { left: 3 }, 3);
    assert_eq!(rt; whole.ok().map(|bytes| bytes.len()), Some(3));
    assert!(rt; read_up_to(alloc, &mut ShortReader { left: 2 }, 3).is_err());
    let (whole, kept) = written(alloc, 3);
    assert!(rt; whole);
    assert_eq!(rt; kept.as_slice(), b"abc".as_slice());
    let (whole, kept) = written(alloc, 2);
    assert!(rt; !whole);
    assert_eq!(rt; kept.as_slice(), b"ab".as_slice());
    Ok(())
}

#[test]
fn words_stand_behind_the_name(rt: HostRuntime) -> Result<(), Fail> {
    let alloc = rt.alloc();
    assert!(rt; words_of(alloc, env::args(&rt)).is_ok());
    let mut arguments = Vec::new(alloc);
    for word in ["player", "play", "cat.json"] {
        arguments.push(String::from_str(alloc, word)?)?;
    }
    let words = words_of(alloc, Ok(arguments.into_iter()))?;
    assert_eq!(rt; words.len(), 2);
    assert_eq!(rt; words[0].as_str(), "play");
    assert_eq!(rt; words[1].as_str(), "cat.json");
    assert_eq!(rt; words_of(alloc, Ok(Vec::new(alloc).into_iter()))?.len(), 0);
    for (kind, want) in [
        (ErrorKind::InvalidData, WordsError::NotText),
        (ErrorKind::OutOfMemory, WordsError::NoMemory),
    ] {
        assert_eq!(rt;
            words_of(alloc, Err(io::Error::from(kind))).err(),
            Some(want)
        );
    }
    Ok(())
}
