// What the words of the command line ask for is run, and its fault line is written.
ghost use Rattle.std.specs.Prelude.{◌≡◌, ◌≤◌, ◌⊎◌, IfOk, IfErr, OnOk, MatchOption};
ghost use Rattle.seam_rule_rounds.specs.Prelude.{Rose};
ghost use Rattle.seam_world_ends.specs.Status.{IsRunEnd};
ghost use Rattle.seam_world_ends.specs.Ends.{MayComplete};
ghost use Rattle.seam_world_rounds.specs.Output.{text_output};
ghost use Rattle.seam_world.specs.Requests.{request_of, request_for, request_to_run, EndsAs};
ghost use Rattle.seam_world.specs.Stopping.{StopsAs, IsTextFor};
ghost use Rattle.seam_args.specs.Words.{AreInRange, ArePassed, AreRefused};

use seam_args::{ArgsError, Options, read_words, usage_text, version_text};
use seam_io::{Sink, Source};
use seam_quiet::Workers;
use seam_table::HashKey;
use seam_watch::Watch;
use seam_workers::{Crew, Gate};
use seam_world_ends::{Status, put_fault, write_text};
use seam_world_rounds::{Output, Playing, run_body, run_storm};
use std::alloc::Global;
use std::env::Args;
use std::io;
use std::random::RandomSource;
use std::sync::Wait;
use std::thread::Threads;

/// Does what the words of the command line ask for: mostly it runs a script, reads a header and commands, and writes for each round what
/// happened in it.
///
/// The words are what the system answers with, the program's name first (`env::args`). They may ask for a generated input (`seam_storm`):
/// then that is run in place of the script, the source is not read, and only the summary is written (`seam_rule_rounds`). Or they ask for
/// the usage text or the version: then that is written, and nothing else is done. A word that is no text is refused (`seam_args`).
///
/// The run finds entities by hashes with a key that is drawn anew, so that no script can slow it down by numbers that collide. What it
/// writes does not depend on the key.
///
/// The words say how many workers play the rounds. Each worker calls the gate before each try of a step. The watch is given the journal of
/// each round as it ends, before its text is written, with space 0. So after a fault of the sink it may have the journals of rounds whose
/// text was not written whole; if allocation fails for a journal, neither it nor the text is given.
///
/// Every end but `Done` and `WriteFault` writes a fault line last, also where the system has no memory for the words; if that fails, the
/// status stays.
pub fn run_seamless<
    S: Source,
    K: Sink,
    G: Gate + Sync,
    W: Watch,
    R: Threads + Wait + Sync + RandomSource,
>(
    rt: &R,
    alloc: Global,
    words: io::Result<Args>,
    input: &mut S,
    out: &mut K,
    gate: &G,
    watch: &mut W,
) -> Status
    // What was written is what was asked for, as far as the status tells, and then the fault line of the status; the watch was given the
    // steps of the rounds of the transcript that the status tells of, which after a fault of the sink is longer than what was written.
    ensures ends { EndsAs (request_of words) result (S.state input.old) (S.state input.new)
        (K.state out.old) (K.state out.new) (W.told watch.old) (W.told watch.new) }
    ensures usage { result ≡ Status.Usage → AreRefused words }
    ensures refused { AreRefused words → (result ≡ Status.Usage) ⊎ (result ≡ Status.NoMemory) }
    ensures read { result ≡ Status.ReadFault → Rose (S.state input.old).faults
        (S.state input.new).faults }
    ensures write { result ≡ Status.WriteFault → Rose (K.state out.old).faults
        (K.state out.new).faults }
    ensures later { ((S.state input.old).faults ≤ (S.state input.new).faults) ×
        ((K.state out.old).faults ≤ (K.state out.new).faults) }
    // A run that may be complete is, unless an allocation fails.
    ensures complete { ¬ (AreRefused words) →
        MayComplete (S.state input.old) (S.state input.new) (K.state out.old) (K.state out.new)
        → (result ≡ Status.Done) ⊎ (result ≡ Status.NoMemory) }
{
    let options = match asked(alloc, words) {
        Ok(options) => options,
        Err(status) => {
            put_fault(out, status);
            return status;
        }
    };
    let status = answer(rt, alloc, &options, input, out, gate, watch);
    put_fault(out, status);
    status
}

// What the words ask for, or the status where they are refused or there is no memory for them.
#[tactic(auto, using(crate::proofs::EndLemmas::request_is))]
fn asked(alloc: Global, words: io::Result<Args>) -> Result<Options, Status>
    ensures request { IfOk result (λ o. request_of words
        ≡ request_for o.help o.version o.trace o.storm) }
    ensures passes { OnOk result (ArePassed words) }
    ensures range { IfOk result AreInRange }
    ensures err { IfErr result (λ s. (s ≡ Status.NoMemory)
        ⊎ ((s ≡ Status.Usage) × AreRefused words)) }
{
    match read_words(alloc, words) {
        Ok(options) => Ok(options),
        Err(ArgsError::Usage) => Err(Status::Usage),
        Err(ArgsError::NoMemory) => Err(Status::NoMemory),
    }
}

// All but the fault line, where these options were asked for.
#[tactic(auto, using(crate::proofs::EndLemmas::shown_as_asked, crate::proofs::EndLemmas::shown_status))]
fn answer<S: Source, K: Sink, G: Gate + Sync, W: Watch, R: Threads + Wait + Sync + RandomSource>(
    rt: &R,
    alloc: Global,
    options: &Options,
    input: &mut S,
    out: &mut K,
    gate: &G,
    watch: &mut W,
) -> Status
    requires { AreInRange options.now }
    ensures stopped { let o = options.now in StopsAs (request_for o.help o.version o.trace o.storm)
        result (S.state input.old) (S.state input.new) (K.state out.old) (K.state out.new)
        (W.told watch.old) (W.told watch.new) }
    ensures allowed { IsRunEnd result }
    ensures read { result ≡ Status.ReadFault → Rose (S.state input.old).faults
        (S.state input.new).faults }
    ensures write { result ≡ Status.WriteFault → Rose (K.state out.old).faults
        (K.state out.new).faults }
    ensures later { ((S.state input.old).faults ≤ (S.state input.new).faults) ×
        ((K.state out.old).faults ≤ (K.state out.new).faults) }
{
    match text_asked(options) {
        Some(text) => write_text(text.as_bytes(), out),
        None => run_asked(rt, alloc, options, input, out, gate, watch),
    }
}

// The text that is asked for in place of a run.
fn text_asked(options: &Options) -> Option<&'static str>
    ensures { let o = options.now in MatchOption result
        (request_for o.help o.version o.trace o.storm ≡ request_to_run o.trace o.storm)
        (λ text. IsTextFor (request_for o.help o.version o.trace o.storm) text.now) }
{
    if options.help {
        return Some(usage_text());
    }
    if options.version {
        return Some(version_text());
    }
    None
}

// The run that these options ask for, but for the fault line.
fn run_asked<S: Source, K: Sink, G: Gate + Sync, W: Watch, R: Threads + Wait + Sync + RandomSource>(
    rt: &R,
    alloc: Global,
    options: &Options,
    input: &mut S,
    out: &mut K,
    gate: &G,
    watch: &mut W,
) -> Status
    requires { AreInRange options.now }
    ensures stopped { StopsAs (request_to_run options.now.trace options.now.storm)
        result (S.state input.old) (S.state input.new) (K.state out.old) (K.state out.new)
        (W.told watch.old) (W.told watch.new) }
    ensures allowed { IsRunEnd result }
    ensures read { result ≡ Status.ReadFault → Rose (S.state input.old).faults
        (S.state input.new).faults }
    ensures write { result ≡ Status.WriteFault → Rose (K.state out.old).faults
        (K.state out.new).faults }
    ensures later { ((S.state input.old).faults ≤ (S.state input.new).faults) ×
        ((K.state out.old).faults ≤ (K.state out.new).faults) }
{
    let workers = Workers::new(
        alloc,
        Crew {
            workers: options.workers,
            turns: options.turns,
        },
        gate,
    );
    match options.storm {
        None => {
            let output = text_output(options.trace);
            let key = hash_key(rt);
            let playing = Playing {
                workers,
                output,
                key,
            };
            run_body(rt, alloc, &playing, input, out, watch).0
        }
        Some(lines) => run_storm(rt, alloc, lines, workers, out, watch),
    }
}

// A key that nobody knows; where the system gives no random bytes, one that is known.
fn hash_key<R: RandomSource>(rt: &R) -> HashKey {
    let mut bytes = [0; 8];
    match rt.fill_bytes(&mut bytes) {
        Ok(()) => HashKey::new(u64::from_le_bytes(bytes)),
        Err(_) => HashKey::new(0),
    }
}

// What is given of rounds where they are printed.
fn text_output(traced: bool) -> Output
    ensures { result ≡ text_output traced }
{
    if traced {
        return Output::TracedRounds;
    }
    Output::Rounds
}
