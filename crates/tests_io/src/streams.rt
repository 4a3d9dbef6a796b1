use it_io::{
    Failed, MemSink, MemSource, ReadErr, Sink, Source, StdSink, StdSource, WriteErr, read_all,
    write_all,
};
use std::alloc::Global;
use std::io;
use std::io::{Error, ErrorKind, Read, Write};
use std::test::Fail;

/// The piece, the call that fails (0 for none), the limit, and what reading the text gives. In pieces of 10 the text and its
/// end take four calls, so the fifth isn't made.
const READS: [(usize, u64, usize, Result<usize, ReadErr>); 3] = [
    (4, 0, 30, Ok(30)),
    (4, 0, 29, Err(ReadErr::TooBig)),
    (10, 5, 99, Ok(30)),
];

/// How many bytes reading to the end gives.
fn length_read(alloc: Global, source: &mut MemSource, limit: usize) -> Result<usize, ReadErr> {
    match read_all(alloc, source, limit) {
        Ok(all) => Ok(all.len()),
        Err(e) => Err(e),
    }
}

#[test]
fn reads_to_the_end_within_the_limit(rt: HostRuntime) -> Result<(), Fail> {
    for (piece, call, limit, want) in READS {
        let fail = [call].to_vec(rt.alloc())?;
        let mut source = MemSource::new(TEXT.to_vec(rt.alloc())?, piece, fail);
        assert_eq!(rt; length_read(rt.alloc(), &mut source, limit), want);
    }
    Ok(())
}

#[test]
fn a_full_sink_fails(rt: HostRuntime) -> Result<(), Fail> {
    let mut sink = MemSink::new(rt.alloc(), 12, 10, Vec::new(rt.alloc()))?;
    assert_eq!(rt; write_all(&mut sink, TEXT), Err(WriteErr::Fault(12)));
    assert_eq!(rt; sink.written(), &TEXT[..12]);
    Ok(())
}

const TEXT: &[u8] = b"0123456789abcdefghijABCDEFGHIJ";

/// For pieces of 1 and of 10 bytes: the first, a middle and the last of the calls that read the text and its end, and how
/// many bytes the calls before it took.
const FAILING_READS: [(usize, u64, usize); 6] = [
    (1, 1, 0),
    (1, 16, 15),
    (1, 31, 30),
    (10, 1, 0),
    (10, 2, 10),
    (10, 4, 30),
];

#[test]
fn each_failing_read_is_told_at_its_call(rt: HostRuntime) -> Result<(), Fail> {
    for (piece, call, taken) in FAILING_READS {
        let fail = [call].to_vec(rt.alloc())?;
        let mut source = MemSource::new(TEXT.to_vec(rt.alloc())?, piece, fail);
        assert_eq!(rt;
            length_read(rt.alloc(), &mut source, 99),
            Err(ReadErr::Fault)
        );
        assert_eq!(rt; source.left().len() + taken, 30);
        assert_eq!(rt; length_read(rt.alloc(), &mut source, 99), Ok(30 - taken));
    }
    Ok(())
}

/// The same of the calls that write the text.
const FAILING_WRITES: [(usize, u64, usize); 6] = [
    (1, 1, 0),
    (1, 15, 14),
    (1, 30, 29),
    (10, 1, 0),
    (10, 2, 10),
    (10, 3, 20),
];

#[test]
fn each_failing_write_is_told_at_its_call(rt: HostRuntime) -> Result<(), Fail> {
    for (piece, call, done) in FAILING_WRITES {
        let fail = [call].to_vec(rt.alloc())?;
        let mut sink = MemSink::new(rt.alloc(), 60, piece, fail)?;
        assert_eq!(rt; write_all(&mut sink, TEXT), Err(WriteErr::Fault(done)));
        assert_eq!(rt; TEXT.starts_with(sink.written()), true);
        assert_eq!(rt; sink.written().len(), done);
        assert_eq!(rt; write_all(&mut sink, TEXT), Ok(()));
        assert_eq!(rt; sink.written().len(), done + 30);
    }
    Ok(())
}

// A reader whose first read a signal breaks off, and whose third fails, but no other.
#[derive(Drop)]
struct Broken {
    reads: u32,
}

impl Read for Broken {
    fn read(&mut self, _buf: &mut [u8]) -> io::Result<usize> {
        self.reads = self.reads.saturating_add(1);
        match self.reads {
            1 => Err(Error::from(ErrorKind::Interrupted)),
            3 => Err(Error::from(ErrorKind::BrokenPipe)),
            _ => Ok(0),
        }
    }
}

// A reader whose second read tells the end, though its others give a byte each.
#[derive(Drop)]
struct Resumed {
    reads: u32,
}

impl Read for Resumed {
    fn read(&mut self, buf: &mut [u8]) -> io::Result<usize> {
        self.reads = self.reads.saturating_add(1);
        if self.reads == 2 || buf.is_empty() {
            return Ok(0);
        }
        buf[0] = b'x';
        Ok(1)
    }
}

#[test]
fn a_std_source_passes_on_what_its_reader_answers(rt: HostRuntime) -> Result<(), Fail> {
    let mut input = StdSource::new(rt.reader());
    assert_eq!(rt; input.read(&mut [0u8; 4]), Ok(0));
    let mut resumed = StdSource::new(Resumed { reads: 0 });
    let read = read_all(rt.alloc(), &mut resumed, 9)?;
    assert_eq!(rt; read.as_slice(), b"x".as_slice());
    let mut broken = StdSource::new(Broken { reads: 0 });
    assert_eq!(rt; broken.read(&mut [0u8; 4]), Ok(0));
    assert_eq!(rt; broken.read(&mut [0u8; 4]), Err(Failed));
    Ok(())
}

// A writer whose first write a signal breaks off, whose third fails, and whose fourth takes nothing.
#[derive(Drop)]
struct Choosy {
    writes: u32,
}

impl Write for Choosy {
    fn write(&mut self, bytes: &[u8]) -> io::Result<usize> {
        self.writes = self.writes.saturating_add(1);
        match self.writes {
            1 => Err(Error::from(ErrorKind::Interrupted)),
            3 => Err(Error::from(ErrorKind::BrokenPipe)),
            4 => Ok(0),
            _ => Ok(bytes.len().min(1)),
        }
    }

    fn flush(&mut self) -> io::Result<()> {
        Ok(())
    }
}

#[test]
fn a_std_sink_passes_on_what_its_writer_answers(rt: HostRuntime) {
    let mut output = StdSink::new(io::writer(&rt));
    assert_eq!(rt; write_all(&mut output, b"written\n"), Ok(()));
    let mut choosy = StdSink::new(Choosy { writes: 0 });
    assert_eq!(rt; choosy.write(b"ab"), Ok(1));
    assert_eq!(rt; choosy.write(b"ab"), Err(Failed));
    assert_eq!(rt; choosy.write(b"ab"), Err(Failed));
    assert_eq!(rt; choosy.write(b"ab"), Ok(1));
}

// With buffers of one place, of two, and of as many as one read of `read_all` asks for.
#[test]
fn std_streams_carry_each_byte_once(rt: HostRuntime) -> Result<(), Fail> {
    let mut bytes = Vec::new(rt.alloc());
    for i in 0..5000u32 {
        bytes.push((i % 251) as u8)?;
    }
    let mut buf = [0u8; 4096];
    for places in [1, 2, 4096] {
        let mut taken = Vec::new(rt.alloc());
        let mut source = StdSource::new(bytes.as_slice());
        let mut sink = StdSink::new(&mut taken);
        for _ in 0..=bytes.len() {
            let n = source.read(&mut buf[..places])?;
            write_all(&mut sink, &buf[..n])?;
        }
        assert_eq!(rt; taken.as_slice(), bytes.as_slice());
    }
    Ok(())
}
