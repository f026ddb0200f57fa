// A generated input, of which nothing but the summary is written.
ghost use Rattle.std.specs.Prelude.{◌≡◌, ◌⊎◌};
ghost use Rattle.seam_args.specs.Words.{IsUpTo};
ghost use Rattle.seam_args.specs.declared.TheConstants.{LONGEST_STORM};
ghost use Rattle.seam_rule_rounds.specs.Summary.{totals_text};
ghost use Rattle.seam_world_rounds.specs.Storm.{StormStopped};
ghost use Rattle.seam_world_ends.specs.Printing.{StopsBy};

use crate::round::{Output, Playing};
use crate::run::run_body;
use seam_io::Sink;
use seam_quiet::Workers;
use seam_rule_rounds::Totals;
use seam_storm::StormSource;
use seam_table::HashKey;
use seam_watch::Watch;
use seam_workers::Gate;
use seam_world_ends::{Status, is_done, write_text};
use std::alloc::Global;
use std::sync::Wait;
use std::thread::Threads;

/// Runs the generated input of `lines` lines, and writes its summary. The fault line is the caller's to write.
pub fn run_storm<K: Sink, G: Gate + Sync, W: Watch, R: Threads + Wait + Sync>(
    rt: &R,
    alloc: Global,
    lines: u32,
    workers: Workers<G>,
    out: &mut K,
    watch: &mut W,
) -> Status
    requires { IsUpTo LONGEST_STORM lines }
    ensures { StormStopped lines result (K.state out.old) (K.state out.new) (W.told watch.old)
        (W.told watch.new) }
{
    let mut input = match StormSource::new(alloc, lines) {
        Ok(input) => input,
        Err(_) => return Status::NoMemory,
    };
    let playing = Playing {
        workers,
        output: Output::Sums,
        // No script chooses the numbers.
        key: HashKey::new(0),
    };
    let (status, totals) = run_body(rt, alloc, &playing, &mut input, out, watch);
    if !is_done(status) {
        return status;
    }
    write_summary(alloc, lines, &totals, out)
}

// Writes the summary of so many lines.
fn write_summary<K: Sink>(alloc: Global, lines: u32, totals: &Totals, out: &mut K) -> Status
    ensures { ((result ≡ Status.NoMemory) × (K.state out.new ≡ K.state out.old)) ⊎
        StopsBy Status.Done (K.state out.old) (K.state out.new) (totals_text lines totals.now)
        result }
{
    let mut text = Vec::new(alloc);
    match totals.write(lines, &mut text) {
        Ok(()) => write_text(&text, out),
        Err(_) => Status::NoMemory,
    }
}
