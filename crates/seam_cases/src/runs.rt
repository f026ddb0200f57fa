// Runs over memory.
use seam_io::{MemSink, MemSource};
use seam_watch::Watch;
use seam_workers::Gate;
use seam_world::{Status, run_seamless};
use std::alloc::{AllocError, Global};
use std::env::Args;
use std::random::RandomSource;
use std::sync::Wait;
use std::thread::Threads;

/// What a source and a sink do to a run, beside giving and taking bytes.
#[derive(Clone, Copy)]
pub struct Streams {
    /// How many bytes the first reads give at most.
    pub cuts: &'static [u32],
    /// The numbers of the reads that fail.
    pub bad_reads: &'static [u64],
    /// How many bytes the sink takes.
    pub limit: u32,
    /// The numbers of the writes that fail.
    pub bad_writes: &'static [u64],
}

/// Ample room of a sink.
pub const ROOM: u32 = 1 << 20;

/// Streams that never fail, with ample room.
pub const GOOD: Streams = Streams {
    cuts: &[],
    bad_reads: &[],
    limit: ROOM,
    bad_writes: &[],
};

/// The words of the command line, the script, and its streams.
#[derive(Clone, Copy)]
pub struct Run<'a> {
    pub words: &'static [&'static str],
    pub script: &'a [u8],
    pub streams: Streams,
}

fn input_of(alloc: Global, run: &Run) -> Result<MemSource, AllocError> {
    let bytes = run.script.to_vec(alloc)?;
    let cuts = run.streams.cuts.to_vec(alloc)?;
    let fails = run.streams.bad_reads.to_vec(alloc)?;
    Ok(MemSource::new(bytes, cuts, fails))
}

fn sink_of(alloc: Global, run: &Run) -> Result<MemSink, AllocError> {
    let fails = run.streams.bad_writes.to_vec(alloc)?;
    MemSink::new(alloc, run.streams.limit, fails)
}

// The program's name and then the words, as the system answers with them.
fn words_of(alloc: Global, run: &Run) -> Result<Args, AllocError> {
    let mut words = Vec::new(alloc);
    words.push(String::from_str(alloc, "seamless")?)?;
    for text in run.words.iter() {
        words.push(String::from_str(alloc, text)?)?;
    }
    Ok(words.into_iter())
}

/// Runs a script through a gate and beside a watch, and gives its status and what was written.
pub fn play<R: Threads + Wait + Sync + RandomSource, G: Gate + Sync, W: Watch>(
    rt: &R,
    alloc: Global,
    run: &Run,
    gate: &G,
    watch: &mut W,
) -> Result<(Status, MemSink), AllocError> {
    let words = words_of(alloc, run)?;
    let mut input = input_of(alloc, run)?;
    let mut out = sink_of(alloc, run)?;
    let status = run_seamless(rt, alloc, Ok(words), &mut input, &mut out, gate, watch);
    Ok((status, out))
}
