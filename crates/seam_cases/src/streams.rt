// Scripts over streams that fail, that give or take a few bytes at a time, or that bring what no file of rows has.
use crate::runs::{GOOD, ROOM, Run, Streams, play};
use seam_io::{RealSink, RealSource};
use seam_watch::NoWatch;
use seam_workers::OpenGate;
use seam_world::{Status, run_seamless};
use std::alloc::{AllocError, Global};
use std::io;
use std::io::Write;
use std::random::RandomSource;
use std::sync::Wait;
use std::test::Fail;
use std::thread::Threads;

// A text that comes so many times. In it `@` is the number of the time, from 1, and `~` the byte x, so often as the last number says.
struct Part(&'static [u8], u32, u32);

const DEAD_CALL: &[Part] = &[Part(
    b"%%\ncreate 1 Avatar 100 100\ncall b1 9 heal 1\nsync\n",
    1,
    0,
)];

// The text of a round in which avatar 1 was made and nothing was called.
const ONE_AVATAR: Part = Part(
    b"round 1\nhome 1 0 0 100 100 hp=100 mana=50 mood=0 note=\"\" scent=0 xp=0\nbase 1 0 gold=0 rank=1\nend 1\n",
    1,
    0,
);

const ONE_BYTE_A_READ: [u32; 100] = [1; 100];

// A run, how it ends, and what was written then.
struct Row {
    name: &'static str,
    words: &'static [&'static str],
    script: &'static [Part],
    streams: Streams,
    status: Status,
    output: &'static [Part],
}

const TWO_CELLS: &[Part] = &[
    Part(
        b"%%\ncut 0 x 5000\ncreate 1 Avatar 4000 1\ncreate 2 Avatar 6000 1\n",
        1,
        0,
    ),
    Part(b"call b1 1 heal 1\ncall b2 2 heal 1\n", 6_000, 0),
];

const IN_TWO_CELLS: &[Part] = &[
    Part(b"round 1\n", 1, 0),
    Part(b"did 1 b1 @ heal 1\n", 6_000, 0),
    Part(b"did 2 b2 @ heal 1\n", 6_000, 0),
    Part(
        b"home 1 0 6000 4000 1 hp=6100 mana=50 mood=0 note=\"\" scent=0 xp=0\n",
        1,
        0,
    ),
    Part(
        b"home 2 1 6000 6000 1 hp=6100 mana=50 mood=0 note=\"\" scent=0 xp=0\n",
        1,
        0,
    ),
    Part(
        b"base 1 0 gold=0 rank=1\nbase 2 0 gold=0 rank=1\nend 1\n",
        1,
        0,
    ),
];

// So many avatars that several workers write their text. The first one and the last have clients and a ghost.
const MANY_AVATARS: &[Part] = &[
    Part(
        b"%%\ncut 0 x 5000\ncreate 1 Avatar 5010 9000\ncreate 20000 Avatar 4990 2000\nclient 1\nclient 20000\n",
        1,
        0,
    ),
    Part(b"create 1@ Avatar 100 100\n", 8_200, 0),
    Part(b"call b1 1@ heal 1\n", 8_200, 0),
];

const OF_MANY_AVATARS: &[Part] = &[
    Part(b"round 1\n", 1, 0),
    Part(b"did 1@ b1 1 heal 1\n", 8_200, 0),
    Part(
        b"home 1 1 0 5010 9000 hp=100 mana=50 mood=0 note=\"\" scent=0 xp=0\n",
        1,
        0,
    ),
    Part(
        b"home 1@ 0 1 100 100 hp=101 mana=50 mood=0 note=\"\" scent=0 xp=0\n",
        8_200,
        0,
    ),
    Part(
        b"home 20000 0 0 4990 2000 hp=100 mana=50 mood=0 note=\"\" scent=0 xp=0\nbase 1 0 gold=0 rank=1\n",
        1,
        0,
    ),
    Part(b"base 1@ 0 gold=0 rank=1\n", 8_200, 0),
    Part(
        b"base 20000 0 gold=0 rank=1\nghost 1 0 0\nghost 20000 1 0\n",
        1,
        0,
    ),
    Part(
        b"to 1 1 base 0 rank=1\nto 1 2 own 0 5010 9000 hp=100 mana=50 xp=0\n",
        1,
        0,
    ),
    Part(
        b"to 20000 1 base 0 rank=1\nto 20000 2 own 0 4990 2000 hp=100 mana=50 xp=0\nend 1\n",
        1,
        0,
    ),
];

static ROWS: [Row; 20] = [
    Row {
        name: "a first read that fails ends the run",
        words: &[],
        script: DEAD_CALL,
        streams: Streams {
            cuts: &[],
            bad_reads: &[1],
            limit: ROOM,
            bad_writes: &[],
        },
        status: Status::ReadFault,
        output: &[Part(b"fault read\n", 1, 0)],
    },
    Row {
        name: "a later read that fails comes after the round",
        words: &[],
        script: DEAD_CALL,
        streams: Streams {
            cuts: &[27],
            bad_reads: &[3],
            limit: ROOM,
            bad_writes: &[],
        },
        status: Status::ReadFault,
        output: &[
            Part(b"line 3 dead\n", 1, 0),
            ONE_AVATAR,
            Part(b"fault read\n", 1, 0),
        ],
    },
    Row {
        name: "the rest of a line is none where a read fails",
        words: &[],
        script: &[Part(b"%%\ndance\ndan", 1, 0)],
        streams: Streams {
            cuts: &[],
            bad_reads: &[2],
            limit: ROOM,
            bad_writes: &[],
        },
        status: Status::ReadFault,
        output: &[Part(b"line 2 command\nfault read\n", 1, 0)],
    },
    Row {
        name: "a first write that fails writes nothing",
        words: &[],
        script: DEAD_CALL,
        streams: Streams {
            cuts: &[],
            bad_reads: &[],
            limit: ROOM,
            bad_writes: &[1],
        },
        status: Status::WriteFault,
        output: &[],
    },
    Row {
        name: "a first read and a first write that fail write nothing",
        words: &[],
        script: DEAD_CALL,
        streams: Streams {
            cuts: &[],
            bad_reads: &[1],
            limit: ROOM,
            bad_writes: &[1],
        },
        status: Status::ReadFault,
        output: &[],
    },
    Row {
        name: "a full sink ends the run",
        words: &[],
        script: DEAD_CALL,
        streams: Streams {
            cuts: &[],
            bad_reads: &[],
            limit: 20,
            bad_writes: &[],
        },
        status: Status::WriteFault,
        output: &[Part(b"line 3 dead\nround 1\n", 1, 0)],
    },
    Row {
        name: "a sink that fails has a part of the summary",
        words: &["--storm", "1"],
        script: &[Part(b"no header", 1, 0)],
        streams: Streams {
            cuts: &[],
            bad_reads: &[],
            limit: 8,
            bad_writes: &[],
        },
        status: Status::WriteFault,
        output: &[Part(b"storm 1 ", 1, 0)],
    },
    Row {
        name: "bytes may come one at a time",
        words: &[],
        script: &[Part(
            b"%%\ncreate 1 Avatar 100 100\ncall b1 1 hit 30\ncall b1 1 heal 5\nsync\n",
            1,
            0,
        )],
        streams: Streams {
            cuts: &ONE_BYTE_A_READ,
            bad_reads: &[],
            limit: ROOM,
            bad_writes: &[],
        },
        status: Status::Done,
        output: &[Part(
            b"round 1\ndid 1 b1 1 hit 30\ndid 1 b1 2 heal 5\nhome 1 0 2 100 100 hp=75 mana=50 mood=0 note=\"\" scent=0 xp=0\n\
              base 1 0 gold=0 rank=1\nend 1\n",
            1,
            0,
        )],
    },
    Row {
        name: "a line that is too long is answered before the read after it",
        words: &[],
        script: &[Part(b"%%\n~", 1, 5_000)],
        streams: Streams {
            cuts: &[],
            bad_reads: &[3],
            limit: ROOM,
            bad_writes: &[],
        },
        status: Status::ReadFault,
        output: &[Part(b"line 2 long\nfault read\n", 1, 0)],
    },
    Row {
        name: "and in a header too",
        words: &[],
        script: &[Part(b"~", 1, 5_000)],
        streams: Streams {
            cuts: &[],
            bad_reads: &[3],
            limit: ROOM,
            bad_writes: &[],
        },
        status: Status::BadHeader(9),
        output: &[Part(b"fault header 9\n", 1, 0)],
    },
    Row {
        name: "the rest of a line that is too long is passed over",
        words: &[],
        script: &[Part(b"%%\n~\ndance\n~", 1, 20_000)],
        streams: GOOD,
        status: Status::Done,
        output: &[Part(b"line 2 long\nline 3 command\nline 4 long\n", 1, 0)],
    },
    Row {
        name: "a header of 33 long lines",
        words: &[],
        script: &[Part(b"#~\n", 33, 4_095)],
        streams: GOOD,
        status: Status::BadHeader(9),
        output: &[Part(b"fault header 9\n", 1, 0)],
    },
    Row {
        name: "a byte that is no text",
        words: &[],
        script: &[Part(
            b"%%\ncreate 1 Avatar 100 100\ncall b1 1 write \"\xFF\"\n",
            1,
            0,
        )],
        streams: GOOD,
        status: Status::Done,
        output: &[Part(b"line 3 words 1\n", 1, 0), ONE_AVATAR],
    },
    Row {
        name: "numbers that no entity has",
        words: &[],
        script: &[Part(
            b"%%\ncreate 0 Avatar 1 1\ncreate 4294967296 Avatar 1 1\ncreate 01 Avatar 1 1\n",
            1,
            0,
        )],
        streams: GOOD,
        status: Status::Done,
        output: &[Part(b"line 2 number\nline 3 number\nline 4 number\n", 1, 0)],
    },
    Row {
        name: "seventy thousand blank lines",
        words: &[],
        script: &[
            Part(b"%%\n", 1, 0),
            Part(b"\n", 70_000, 0),
            Part(b"dance\n", 1, 0),
        ],
        streams: GOOD,
        status: Status::Done,
        output: &[Part(b"line 70002 command\n", 1, 0)],
    },
    Row {
        name: "a thousand calls of one sender",
        words: &[],
        script: &[
            Part(b"%%\ncreate 1 Avatar 100 100\n", 1, 0),
            Part(b"call b1 1 heal 1\n", 1_000, 0),
        ],
        streams: GOOD,
        status: Status::Done,
        output: &[
            Part(b"round 1\n", 1, 0),
            Part(b"did 1 b1 @ heal 1\n", 1_000, 0),
            Part(
                b"home 1 0 1000 100 100 hp=1100 mana=50 mood=0 note=\"\" scent=0 xp=0\nbase 1 0 gold=0 rank=1\nend 1\n",
                1,
                0,
            ),
        ],
    },
    Row {
        name: "twelve thousand calls in two cells, with one worker",
        words: &["--workers", "1"],
        script: TWO_CELLS,
        streams: GOOD,
        status: Status::Done,
        output: IN_TWO_CELLS,
    },
    Row {
        name: "twelve thousand calls in two cells, with four workers",
        words: &["--workers", "4"],
        script: TWO_CELLS,
        streams: GOOD,
        status: Status::Done,
        output: IN_TWO_CELLS,
    },
    Row {
        name: "the text of 8,202 avatars, with one worker",
        words: &["--workers", "1"],
        script: MANY_AVATARS,
        streams: GOOD,
        status: Status::Done,
        output: OF_MANY_AVATARS,
    },
    Row {
        name: "the text of 8,202 avatars, in threads of four workers",
        words: &["--workers", "4"],
        script: MANY_AVATARS,
        streams: GOOD,
        status: Status::Done,
        output: OF_MANY_AVATARS,
    },
];

// Forty avatars with clients that see one another, walk over a border, and die.
const FORTY_AVATARS: &[Part] = &[
    Part(b"%%\ncut 0 x 5000\n", 1, 0),
    Part(b"create @ Avatar 4900 @\n", 40, 0),
    Part(b"client @\n", 40, 0),
    Part(b"call b1 @ hit @\n", 40, 0),
    Part(b"sync\n", 1, 0),
    Part(b"move b1 @ 5100 @\n", 40, 0),
    Part(b"sync\n", 1, 0),
    Part(b"destroy @\n", 40, 0),
];

fn push_text(alloc: Global, bytes: &mut Vec<u8>, part: &Part, time: u32) -> Result<(), AllocError> {
    let number = format!(in alloc; "{time}")?;
    let fill = vec![in alloc; b'x'; part.2 as usize]?;
    for byte in part.0 {
        match *byte {
            b'@' => bytes.extend_from_slice(number.as_bytes())?,
            b'~' => bytes.extend_from_slice(&fill)?,
            other => bytes.push(other)?,
        }
    }
    Ok(())
}

// The bytes of a text.
fn joined(alloc: Global, parts: &[Part]) -> Result<Vec<u8>, AllocError> {
    let mut bytes = Vec::new(alloc);
    for part in parts {
        for time in 1..=part.1 {
            push_text(alloc, &mut bytes, part, time)?;
        }
    }
    Ok(bytes)
}

// A writer that takes one byte at a time.
#[derive(Drop)]
struct Narrow {
    taken: Vec<u8>,
}

impl Write for Narrow {
    fn write(&mut self, buf: &[u8]) -> io::Result<usize> {
        match buf.first() {
            Some(byte) => {
                self.taken.push(*byte)?;
                Ok(1)
            }
            None => Ok(0),
        }
    }

    fn flush(&mut self) -> io::Result<()> {
        Ok(())
    }
}

// How a script ends, and what was written to a sink that takes one byte at a time.
fn play_narrow<R: Threads + Wait + Sync + RandomSource>(
    rt: &R,
    alloc: Global,
    script: &[u8],
) -> (Status, Vec<u8>) {
    let mut narrow = Narrow {
        taken: Vec::new(alloc),
    };
    let status = run_seamless(
        rt,
        alloc,
        Ok(Vec::new(alloc).into_iter()),
        &mut RealSource::new(script),
        &mut RealSink::new(&mut narrow),
        &OpenGate,
        &mut NoWatch,
    );
    (status, narrow.taken)
}

#[test]
fn runs_with_such_streams_end_as_the_rules_say(rt: HostRuntime) -> Result<(), Fail> {
    for row in &ROWS {
        let script = joined(rt.alloc(), row.script)?;
        let output = joined(rt.alloc(), row.output)?;
        let run = Run {
            words: row.words,
            script: &script,
            streams: row.streams,
        };
        let (status, out) = play(&rt, rt.alloc(), &run, &OpenGate, &mut NoWatch)?;
        assert_eq!(rt;
            (status, out.bytes()),
            (row.status, output.as_slice()),
            "{}",
            row.name
        );
    }
    let script = joined(rt.alloc(), FORTY_AVATARS)?;
    let run = Run {
        words: &[],
        script: &script,
        streams: GOOD,
    };
    let (status, out) = play(&rt, rt.alloc(), &run, &OpenGate, &mut NoWatch)?;
    let (narrow, taken) = play_narrow(&rt, rt.alloc(), &script);
    assert_eq!(rt;
        (narrow, taken.as_slice(), taken.len() > 10_000),
        (status, out.bytes(), true)
    );
    Ok(())
}
