//! Tests of `run` with std's reader and writer, and with readers and writers that fail after every number of bytes.
use dwexpr_cli::{Layout, run, run_program};
use std::alloc::{AllocError, Global};
use std::io;
use std::io::{ErrorKind, Read, Write};
use std::process::Abort;

/// Gives these bytes, and then ends or fails.
#[derive(Drop)]
struct Source<'a> {
    left: &'a [u8],
    failure: Option<ErrorKind>,
}

impl Read for Source<'_> {
    fn read(&mut self, buf: &mut [u8]) -> io::Result<usize> {
        match self.failure {
            Some(kind) if self.left.is_empty() => Err(io::Error::from(kind)),
            _ => self.left.read(buf),
        }
    }
}

/// Accepts this many bytes, and then fails.
#[derive(Drop)]
struct Sink {
    taken: Vec<u8>,
    room: usize,
}

impl Write for Sink {
    fn write(&mut self, buf: &[u8]) -> io::Result<usize> {
        if self.room == 0 {
            return Err(io::Error::from(ErrorKind::StorageFull));
        }
        let taken = buf.len().min(self.room);
        self.taken.extend_from_slice(&buf[..taken])?;
        self.room -= taken;
        Ok(taken)
    }

    fn flush(&mut self) -> io::Result<()> {
        Ok(())
    }
}

/// The words, the input if it is read, the output, and the status.
struct Row {
    words: &'static str,
    input: Option<&'static str>,
    output: &'static str,
    status: u8,
}

static ROWS: [Row; 8] = [
    Row {
        words: "ops 4 4 4 le 0a010296a8e50e",
        input: None,
        output: "0 0a0102 UnsignedConstant\n3 96 Nop\n4 a8e50e Convert\n",
        status: 0,
    },
    Row {
        words: "ops 4 4 4 le 3193",
        input: None,
        output: "0 31 UnsignedConstant\n1 fault UnexpectedEof\n",
        status: 1,
    },
    Row {
        words: "eval 9 4 4 le 33",
        input: None,
        output: "bad words\n",
        status: 2,
    },
    Row {
        words: "eval 4 4 4 le 707f",
        input: Some("evaluate\nregister generic:0x500000000\n"),
        output: "register 0 0\ncomplete\npiece none none address 0xffffffff\nvalue generic:0xffffffff\n",
        status: 0,
    },
    Row {
        words: "eval 4 4 4 le 707f",
        input: Some("evaluate\nmemory generic:0\n"),
        output: "register 0 0\nmisplaced 2\n",
        status: 2,
    },
    Row {
        words: "eval 4 4 4 le 9805009304",
        input: Some("evaluate\nlocation 50\n"),
        output: "location unit 5\ncomplete\npiece 32 none register 0\nvalue none\n",
        status: 0,
    },
    Row {
        words: "eval 4 4 4 le 3193049c",
        input: Some("evaluate\ncfa 1\n"),
        output: "cfa\nfault InvalidPiece\n",
        status: 1,
    },
    Row {
        words: "eval 4 4 4 le 31",
        input: Some("evaluate\ninitial\n"),
        output: "bad step 2\n",
        status: 2,
    },
];

/// The words in a line.
fn words_in(alloc: Global, line: &str) -> Result<Vec<String>, AllocError> {
    let mut words = Vec::new(alloc);
    for word in line.split(' ') {
        words.push(String::from_str(alloc, word)?)?;
    }
    Ok(words)
}

/// Runs the words, and expects this output and status.
fn expect(
    rt: &impl Abort,
    alloc: Global,
    words: &str,
    (input, room): (Source<'_>, usize),
    (printed, status): (&[u8], u8),
) -> Result<(), AllocError> {
    let taken = Vec::new(alloc);
    let mut output = Sink { taken, room };
    let ended = run(
        alloc,
        words_in(alloc, words)?.as_slice(),
        input,
        &mut &mut output,
    );
    assert!(rt;
        output.taken.as_slice() == printed && ended == status,
        "{words}"
    );
    Ok(())
}

#[test]
fn reader_and_writer_of_std(rt: HostRuntime) -> Result<(), AllocError> {
    for row in &ROWS {
        let words = words_in(rt.alloc(), row.words)?;
        let mut input = row.input.unwrap_or("").as_bytes();
        let mut output = Vec::new(rt.alloc());
        let status = run(rt.alloc(), words.as_slice(), &mut input, &mut &mut output);
        assert!(rt;
            output.as_slice() == row.output.as_bytes() && status == row.status,
            "{}",
            row.words
        );
    }
    Ok(())
}

#[test]
fn failing_readers_and_writers(rt: HostRuntime) -> Result<(), AllocError> {
    for row in &ROWS {
        let printed = row.output.as_bytes();
        for room in 0..=printed.len() {
            let input = Source {
                left: row.input.unwrap_or("").as_bytes(),
                failure: row.input.is_none().then_some(ErrorKind::ConnectionReset),
            };
            let status = if room < printed.len() { 1 } else { row.status };
            expect(
                &rt,
                rt.alloc(),
                row.words,
                (input, room),
                (&printed[..room], status),
            )?;
        }
        let Some(input) = row.input else { continue };
        for count in 0..=input.len() {
            for kind in [ErrorKind::ConnectionReset, ErrorKind::OutOfMemory] {
                let input = Source {
                    left: &input.as_bytes()[..count],
                    failure: Some(kind),
                };
                expect(&rt, rt.alloc(), row.words, (input, usize::MAX), (&[], 1))?;
            }
        }
    }
    Ok(())
}

/// A trace, of which nothing else says what it prints.
static TRACED: Row = Row {
    words: "trace 4 4 4 le 9805009c22",
    input: Some("evaluate\nlocation 33\ncfa 1\n"),
    output: "0\t980500\tDW_OP_call2 5\t-\n\
        2:0\t33\tDW_OP_lit3\tgeneric:0x3\n\
        3\t9c\tDW_OP_call_frame_cfa\tgeneric:0x3 generic:0x1\n\
        4\t22\tDW_OP_plus\tgeneric:0x4\n\
        complete\npiece none none address 0x4\nvalue generic:0x4\n",
    status: 0,
};

#[test]
fn trace_to_failing_writers(rt: HostRuntime) -> Result<(), AllocError> {
    let printed = TRACED.output.as_bytes();
    let words = words_in(rt.alloc(), TRACED.words)?;
    for room in 0..=printed.len() {
        let mut output = Sink {
            taken: Vec::new(rt.alloc()),
            room,
        };
        let ended = run_program(
            rt.alloc(),
            words.as_slice(),
            TRACED.input.unwrap_or("").as_bytes(),
            Layout::Tabs,
            &mut &mut output,
        );
        let status = if room < printed.len() {
            1
        } else {
            TRACED.status
        };
        assert!(rt;
            output.taken.as_slice() == &printed[..room] && ended == status,
            "{room}"
        );
    }
    Ok(())
}
