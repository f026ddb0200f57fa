use seam_io::{
    Lines, MemSink, MemSource, Next, RealSink, RealSource, Source, WriteFault, write_whole,
};
use std::alloc::{AllocError, Global};
use std::io;
use std::io::{ErrorKind, Read, Write};
use std::test::Fail;

// The answers of a reader of lines up to the end or the limit, and the one after it, each with a bar after it, and before that
// a plus sign where the reader has one more line.
fn told<S: Source>(alloc: Global, limit: u64, source: &mut S) -> Result<Vec<u8>, AllocError> {
    let mut lines = Lines::new(alloc, limit)?;
    let mut text = Vec::new(alloc);
    let mut last = false;
    for _ in 0..16 {
        let next = lines.next(source);
        match next {
            Next::Line => {
                text.extend_from_slice(b"line ")?;
                text.extend_from_slice(lines.line())?;
            }
            Next::Long => text.extend_from_slice(b"long")?,
            Next::End => text.extend_from_slice(b"end")?,
            Next::ReadFault => text.extend_from_slice(b"fault")?,
            Next::Limit => text.extend_from_slice(b"limit")?,
        }
        if lines.has_line() {
            text.push(b'+')?;
        }
        text.push(b'|')?;
        if last {
            return Ok(text);
        }
        last = next == Next::End || next == Next::Limit;
    }
    Ok(text)
}

#[derive(Clone, Copy)]
struct Row {
    input: &'static [u8],
    cuts: &'static [u32],
    fails: &'static [u64],
    limit: u64,
    told: &'static [u8],
}

static ROWS: [Row; 5] = [
    // the limit is reached in the second line
    Row {
        input: b"abc\ndefghijk",
        cuts: &[],
        fails: &[],
        limit: 10,
        told: b"line abc|limit|limit|",
    },
    // the bytes come one at a time
    Row {
        input: b"ab\r\ncd",
        cuts: &[1, 0, 1, 1, 1, 1],
        fails: &[],
        limit: 99,
        told: b"line ab|line cd|end|end|",
    },
    // a read fails in the first line, and the reading goes on
    Row {
        input: b"ab\ncd\n",
        cuts: &[1],
        fails: &[2],
        limit: 99,
        told: b"fault|line ab+|line cd|end|end|",
    },
    // an empty line is one, and of two carriage returns one stays
    Row {
        input: b"\n\r\r\n\r",
        cuts: &[],
        fails: &[],
        limit: 99,
        told: b"line +|line \r|line |end|end|",
    },
    Row {
        input: b"",
        cuts: &[],
        fails: &[1],
        limit: 99,
        told: b"fault|end|end|",
    },
];

fn source_of(alloc: Global, row: &Row) -> Result<MemSource, AllocError> {
    let bytes = row.input.to_vec(alloc)?;
    let cuts = row.cuts.to_vec(alloc)?;
    Ok(MemSource::new(bytes, cuts, row.fails.to_vec(alloc)?))
}

fn told_of(alloc: Global, row: &Row) -> Result<Vec<u8>, AllocError> {
    let mut source = source_of(alloc, row)?;
    told(alloc, row.limit, &mut source)
}

// How many rows are kept to before the first one that is not.
fn kept_rows(alloc: Global) -> Result<usize, AllocError> {
    let mut kept = 0usize;
    for row in &ROWS {
        let told = told_of(alloc, row)?;
        if !is_text(&told, row.told) {
            return Ok(kept);
        }
        kept = kept.saturating_add(1);
    }
    Ok(kept)
}

fn is_text(bytes: &[u8], wanted: &[u8]) -> bool {
    bytes == wanted
}

// So many bytes and then the others.
fn long_source(alloc: Global, len: usize, tail: &[u8]) -> Result<MemSource, AllocError> {
    let mut bytes = vec![in alloc; b'a'; len]?;
    bytes.extend_from_slice(tail)?;
    Ok(MemSource::new(bytes, Vec::new(alloc), Vec::new(alloc)))
}

// The first two answers, whether the second line is a b, and how many bytes were taken.
fn two_lines(
    alloc: Global,
    len: usize,
    tail: &[u8],
) -> Result<(Next, Next, bool, u64), AllocError> {
    let mut source = long_source(alloc, len, tail)?;
    let mut lines = Lines::new(alloc, 1 << 40)?;
    let first = lines.next(&mut source);
    let second = lines.next(&mut source);
    let is_b = is_text(lines.line(), b"b");
    Ok((first, second, is_b, lines.taken()))
}

// The first two answers where the line goes on after its 4,097th byte and the next read fails, and how many bytes were taken.
fn refused_at_once(alloc: Global) -> Result<(Next, Next, u64), AllocError> {
    let bytes = vec![in alloc; b'a'; 5000]?;
    let cuts = [4096, 1].to_vec(alloc)?;
    let mut source = MemSource::new(bytes, cuts, [3].to_vec(alloc)?);
    let mut lines = Lines::new(alloc, 1 << 40)?;
    let first = lines.next(&mut source);
    let second = lines.next(&mut source);
    Ok((first, second, lines.taken()))
}

// A line has 4,096 bytes at most: how many of these rows are kept to before the first one that is not.
fn kept_lengths(alloc: Global) -> Result<usize, AllocError> {
    let mut kept = 0usize;
    for (len, tail, first, taken) in [
        (4096, b"\nb".as_slice(), Next::Line, 4098),
        (4097, b"\nb".as_slice(), Next::Long, 4099),
        (4095, b"\r\nb".as_slice(), Next::Line, 4098),
        (4096, b"\r\nb".as_slice(), Next::Long, 4099),
        (20000, b"\nb".as_slice(), Next::Long, 20002),
    ] {
        if two_lines(alloc, len, tail)? != (first, Next::Line, true, taken) {
            return Ok(kept);
        }
        kept = kept.saturating_add(1);
    }
    Ok(kept)
}

// A sink that fills has what it had room for.
fn fills(alloc: Global) -> Result<bool, AllocError> {
    let mut sink = MemSink::new(alloc, 4, Vec::new(alloc))?;
    let wrote = write_whole(&mut sink, b"abcdef");
    let taken = is_text(sink.bytes(), b"abcd");
    Ok((wrote, taken) == (Err(WriteFault { wrote: 4 }), true))
}

// A sink whose first write fails takes the second one.
fn fails_once(alloc: Global) -> Result<bool, AllocError> {
    let fails = [1].to_vec(alloc)?;
    let mut sink = MemSink::new(alloc, 4, fails)?;
    let first = write_whole(&mut sink, b"ab");
    let second = write_whole(&mut sink, b"cd");
    let taken = is_text(sink.bytes(), b"cd");
    Ok((first, second, taken) == (Err(WriteFault { wrote: 0 }), Ok(()), true))
}

// A stream that cannot be read, and takes nothing.
#[derive(Drop)]
struct Broken;

impl Read for Broken {
    fn read(&mut self, _buf: &mut [u8]) -> io::Result<usize> {
        Err(ErrorKind::Other.into())
    }
}

impl Write for Broken {
    fn write(&mut self, _buf: &[u8]) -> io::Result<usize> {
        Ok(0)
    }

    fn flush(&mut self) -> io::Result<()> {
        Ok(())
    }
}

fn reads_slices(alloc: Global) -> Result<bool, AllocError> {
    let mut source = RealSource::new(b"a\nb".as_slice());
    let told = told(alloc, 99, &mut source)?;
    Ok(is_text(&told, b"line a|line b|end|end|"))
}

// Neither is a broken stream read, nor does it take anything.
fn breaks(alloc: Global) -> Result<bool, AllocError> {
    let mut lines = Lines::new(alloc, 99)?;
    let read = lines.next(&mut RealSource::new(Broken));
    let wrote = write_whole(&mut RealSink::new(Broken), b"ab");
    Ok((read, wrote) == (Next::ReadFault, Err(WriteFault { wrote: 0 })))
}

fn writes(alloc: Global) -> bool {
    let mut sink = RealSink::new(Vec::new(alloc));
    write_whole(&mut sink, b"ab") == Ok(())
}

#[test]
fn lines_are_read_and_sinks_and_streams_of_std_do_as_they_should(
    rt: HostRuntime,
) -> Result<(), Fail> {
    let kept = (kept_rows(rt.alloc())?, kept_lengths(rt.alloc())?);
    let refused = refused_at_once(rt.alloc())?;
    let sinks = (fills(rt.alloc())?, fails_once(rt.alloc())?);
    let streams = (
        reads_slices(rt.alloc())?,
        breaks(rt.alloc())?,
        writes(rt.alloc()),
    );
    assert_eq!(rt;
        (kept, refused, (sinks, streams)),
        (
            (ROWS.len(), 5),
            (Next::Long, Next::ReadFault, 4097),
            ((true, true), (true, true, true))
        )
    );
    Ok(())
}
