// The run of a script, from the bytes of a source to what is written to a sink, but for the fault line.
ghost use Rattle.std.specs.Prelude.{◌≡◌, ◌<◌, ◌≤◌, ◌+◌, [], List, ℕ, Option, MatchOption, MatchResult};
ghost use Rattle.std.specs.Prelude.{IfNone, IfOk, OnOk, OnErr};
ghost use Rattle.seam_rule_rounds.specs.Prelude.{SourceState, SinkState, Line, Content, Long, Reading, budget, Header as Headers, Standing};
ghost use Rattle.seam_rule_rounds.specs.Prelude.{Told, after_all};
ghost use Rattle.seam_law_transcript.specs.Prelude.{most_lines};
ghost use Rattle.seam_world_rounds.specs.Following.{LineRead, InputEnded};
ghost use Rattle.seam_world_rounds.specs.Script.{ScriptRefines, Refines, Gives};
ghost use Rattle.seam_world_rounds.specs.declared.round.Output.{Output as OutputOf};
ghost use Rattle.seam_world_ends.specs.Ends.{most_bytes, the_space};
ghost use Rattle.seam_world_ends.specs.Headers.{HasHeader};
ghost use Rattle.seam_world_rounds.specs.Histories.{Going, Stopped, StoppedFirst};
ghost use Rattle.seam_world_ends.specs.Printing.{Printed, Prints};
ghost use Rattle.std.specs.Option.{option_to_list};

use crate::round::{Output, Playing};
use crate::script::Script;
use seam_io::{Failed, Lines, Next, Sink, Source};
use seam_rule_lines::Header;
use seam_rule_rounds::Totals;
use seam_table::HashKey;
use seam_watch::{Journal, Watch};
use seam_workers::Gate;
use seam_world_ends::{
    Pending, Status, print, print_and_write, read_header, stop, write_before_wait,
};
use std::alloc::{AllocError, Global};
use std::sync::Wait;
use std::thread::Threads;

// The most bytes of input.
const LIMIT: u64 = 1 << 40;

// The number of the one space.
const SPACE: u8 = 0;

/// The whole run but for the fault line, and what is summed up of it.
pub fn run_body<S: Source, K: Sink, G: Gate + Sync, W: Watch, R: Threads + Wait + Sync>(
    rt: &R,
    alloc: Global,
    playing: &Playing<G>,
    input: &mut S,
    out: &mut K,
    watch: &mut W,
) -> (Status, Totals)
    ensures stopped { Stopped playing.now.output result.1 result.0 (S.state input.old)
        (S.state input.new) (K.state out.old) (K.state out.new) (W.told watch.old)
        (W.told watch.new) }
    ensures later { (S.state input.old).faults ≤ (S.state input.new).faults }
{
    let mut runner = match begin(alloc, playing.key, input) {
        Ok(runner) => runner,
        Err(status) => return (status, Totals::new()),
    };
    let status = runner.run(rt, playing, input, out, watch);
    (status, runner.script.totals())
}

// Reads the header, with which the run begins; or answers the status where it ends there.
fn begin<S: Source>(alloc: Global, key: HashKey, input: &mut S) -> Result<Runner, Status>
    ensures began { MatchResult result (λ r. ((h : Headers) × (t : Standing) ×
        ScriptRefines h t r.script) × ((output : OutputOf) (sink : SinkState) (told : Told)
        → Going output (S.state input.old) (S.state input.new) r.lines sink sink told told
        r.pending r.script)) (λ s. StoppedFirst s (S.state input.old) (S.state input.new)) }
    ensures later { (S.state input.old).faults ≤ (S.state input.new).faults }
{
    let pending = match Pending::new(alloc) {
        Ok(pending) => pending,
        Err(_) => return Err(Status::NoMemory),
    };
    let mut lines = match Lines::new(alloc, LIMIT) {
        Ok(lines) => lines,
        Err(_) => return Err(Status::NoMemory),
    };
    let (header, count) = header_of(alloc, key, &mut lines, input)?;
    let script = match Script::new(alloc, header, count) {
        Ok(script) => script,
        Err(_) => return Err(Status::NoMemory),
    };
    Ok(Runner {
        alloc,
        lines,
        script,
        text: Vec::new(alloc),
        pending,
    })
}

// Reads the header. A status that ends the run there ends it whatever it gives of its rounds.
fn header_of<S: Source>(
    alloc: Global,
    key: HashKey,
    lines: &mut Lines,
    input: &mut S,
) -> Result<(Header, u64), Status>
    ensures header { (began : SourceState) → Reading began (S.state input.old) lines.old [] [] →
        lines.old.limit ≡ most_bytes → MatchResult result (λ h. HasHeader began (S.state input.new)
        lines.new h.0 h.1) (λ s. StoppedFirst s began (S.state input.new)) }
    ensures few { IfOk result (λ h. h.1 ≤ most_lines) }
    ensures later { (S.state input.old).faults ≤ (S.state input.new).faults }
{
    match read_header(alloc, key, lines, input) {
        Ok(header) => Ok(header),
        Err(status) => Err(status),
    }
}

// The most bytes of text for which memory is kept from one line to the next.
const MOST_KEPT: usize = 1 << 20;

// Empties the text. What a large round took for it is given back.
fn empty(alloc: Global, text: &mut Vec<u8>)
    ensures { text.new.items ≡ [] }
{
    if text.capacity() > MOST_KEPT {
        *text = Vec::new(alloc);
    } else {
        text.clear();
    }
}

// A run after its header.
#[derive(Drop)]
struct Runner {
    alloc: Global,
    lines: Lines,
    script: Script,
    // what is printed for one line
    text: Vec<u8>,
    pending: Pending,
}

impl Runner {
    // Reads line by line, until the run ends.
    fn run<S: Source, K: Sink, G: Gate + Sync, W: Watch, R: Threads + Wait + Sync>(
        &mut self,
        rt: &R,
        playing: &Playing<G>,
        input: &mut S,
        out: &mut K,
        watch: &mut W,
    ) -> Status
        requires ready { (h : Headers) × (t : Standing) × ScriptRefines h t self.old.script }
        ensures history { (began : SourceState) (sink : SinkState) (told : Told) →
            Going playing.now.output began (S.state input.old) self.old.lines sink (K.state out.old)
            told (W.told watch.old) self.old.pending self.old.script →
            Stopped playing.now.output self.new.script.totals result began (S.state input.new) sink
            (K.state out.new) told (W.told watch.new) }
        ensures later { (S.state input.old).faults ≤ (S.state input.new).faults }
    {
        loop {
            match self.turn(rt, playing, input, out, watch) {
                None => {}
                Some(status) => return status,
            }
        }
    }

    // One line: all that was printed is written first where the line may have to be waited for; then it is read, the script follows it,
    // and what the script prints is pending. Answers the status where the run ends.
    fn turn<S: Source, K: Sink, G: Gate + Sync, W: Watch, R: Threads + Wait + Sync>(
        &mut self,
        rt: &R,
        playing: &Playing<G>,
        input: &mut S,
        out: &mut K,
        watch: &mut W,
    ) -> Option<Status>
        requires ready { (h : Headers) × (t : Standing) × ScriptRefines h t self.old.script }
        ensures history { (began : SourceState) (sink : SinkState) (told : Told) →
            Going playing.now.output began (S.state input.old) self.old.lines sink (K.state out.old)
            told (W.told watch.old) self.old.pending self.old.script →
            MatchOption result (Going playing.now.output began (S.state input.new) self.new.lines
            sink (K.state out.new) told (W.told watch.new) self.new.pending self.new.script)
            (λ s. Stopped playing.now.output self.new.script.totals s began (S.state input.new) sink
            (K.state out.new) told (W.told watch.new)) }
        ensures later { (S.state input.old).faults ≤ (S.state input.new).faults }
        ensures falls { IfNone result (budget self.new.lines < budget self.old.lines) }
        ensures ready { IfNone result ((h : Headers) × (t : Standing) ×
            ScriptRefines h t self.new.script) }
    {
        seam_law_transcript::a_round_may_break_off();
        match write_before_wait(&self.lines, &mut self.pending, out) {
            Ok(()) => {}
            Err(Failed) => return Some(Status::WriteFault),
        }
        match self.lines.next(input) {
            Next::Line => self.print_line(rt, playing, out, watch),
            Next::Long => self.print_long(playing.output, out),
            Next::End => match self.print_last(rt, playing, out, watch) {
                None => Some(Status::Done),
                Some(status) => Some(status),
            },
            Next::ReadFault => Some(stop(Status::ReadFault, &mut self.pending, out)),
            Next::Limit => Some(stop(Status::Limit, &mut self.pending, out)),
        }
    }

    // Prints for the line that was read.
    fn print_line<K: Sink, G: Gate + Sync, W: Watch, R: Threads + Wait + Sync>(
        &mut self,
        rt: &R,
        playing: &Playing<G>,
        out: &mut K,
        watch: &mut W,
    ) -> Option<Status>
        requires ready { (h : Headers) × (t : Standing) × ScriptRefines h t self.old.script }
        ensures prints { (h : Headers) (t : Standing) (sink : SinkState) (text : List ℕ) →
            ScriptRefines h t self.old.script → Printed sink (K.state out.old) self.old.pending text
            → Prints (LineRead playing.now.output h t (Content self.old.lines.line)
            (Refines playing.now.output h self.old.script self.new.script)) sink
            (K.state out.new) self.new.pending text (W.told watch.old) (W.told watch.new) result }
        ensures lines { self.new.lines ≡ self.old.lines }
        ensures ready { IfNone result ((h : Headers) × (t : Standing) ×
            ScriptRefines h t self.new.script) }
    {
        empty(self.alloc, &mut self.text);
        match self
            .script
            .read_line(rt, playing, self.lines.line(), &mut self.text)
        {
            Ok(ended) => self.show(&ended, out, watch),
            Err(_) => Some(stop(Status::NoMemory, &mut self.pending, out)),
        }
    }

    // Prints for a line that is too long.
    fn print_long<K: Sink>(&mut self, output: Output, out: &mut K) -> Option<Status>
        requires ready { (h : Headers) × (t : Standing) × ScriptRefines h t self.old.script }
        ensures prints { (h : Headers) (t : Standing) (sink : SinkState) (text : List ℕ)
            (told : Told) → ScriptRefines h t self.old.script →
            Printed sink (K.state out.old) self.old.pending text →
            Prints (LineRead output h t Long (Refines output h self.old.script self.new.script))
            sink (K.state out.new) self.new.pending text told told result }
        ensures lines { self.new.lines ≡ self.old.lines }
        ensures ready { IfNone result ((h : Headers) × (t : Standing) ×
            ScriptRefines h t self.new.script) }
    {
        empty(self.alloc, &mut self.text);
        match self.script.read_long(output, &mut self.text) {
            Ok(()) => print(&self.text, &mut self.pending, out),
            Err(_) => Some(stop(Status::NoMemory, &mut self.pending, out)),
        }
    }

    // Prints for the end of the input, and writes all that was printed.
    fn print_last<K: Sink, G: Gate + Sync, W: Watch, R: Threads + Wait + Sync>(
        &mut self,
        rt: &R,
        playing: &Playing<G>,
        out: &mut K,
        watch: &mut W,
    ) -> Option<Status>
        requires ready { (h : Headers) × (t : Standing) × ScriptRefines h t self.old.script }
        ensures { (h : Headers) (t : Standing) (sink : SinkState) (text : List ℕ) →
            ScriptRefines h t self.old.script → Printed sink (K.state out.old) self.old.pending text
            → Prints (InputEnded playing.now.output h t (Gives playing.now.output h self.old.script
            self.new.script)) sink (K.state out.new) [] text (W.told watch.old)
            (W.told watch.new) result }
    {
        empty(self.alloc, &mut self.text);
        match self.script.finish(rt, playing, &mut self.text) {
            Ok(ended) => self.show_last(&ended, out, watch),
            Err(_) => Some(stop(Status::NoMemory, &mut self.pending, out)),
        }
    }

    // Gives the watch the steps of a round that ended, and prints the text.
    fn show<K: Sink, W: Watch>(
        &mut self,
        ended: &Option<Journal>,
        out: &mut K,
        watch: &mut W,
    ) -> Option<Status>
        ensures prints { (sink : SinkState) (before : List ℕ) →
            Printed sink (K.state out.old) self.old.pending before →
            Prints (λ piece steps. (piece ≡ self.old.text.items) ×
            (steps ≡ option_to_list ended.now)) sink (K.state out.new) self.new.pending before
            (W.told watch.old) (W.told watch.new) result }
        ensures lines { self.new.lines ≡ self.old.lines }
        ensures script { self.new.script ≡ self.old.script }
    {
        match give(self.alloc, ended, watch) {
            Ok(()) => print(&self.text, &mut self.pending, out),
            Err(_) => Some(stop(Status::NoMemory, &mut self.pending, out)),
        }
    }

    // The same at the end of the input, when all is written.
    fn show_last<K: Sink, W: Watch>(
        &mut self,
        ended: &Option<Journal>,
        out: &mut K,
        watch: &mut W,
    ) -> Option<Status>
        ensures script { self.new.script ≡ self.old.script }
        ensures prints { (sink : SinkState) (before : List ℕ) →
            Printed sink (K.state out.old) self.old.pending before →
            Prints (λ piece steps. (piece ≡ self.old.text.items) ×
            (steps ≡ option_to_list ended.now)) sink (K.state out.new) [] before
            (W.told watch.old) (W.told watch.new) result }
    {
        match give(self.alloc, ended, watch) {
            Ok(()) => print_and_write(&self.text, &mut self.pending, out),
            Err(_) => Some(stop(Status::NoMemory, &mut self.pending, out)),
        }
    }
}

// Gives the watch the steps of a round that ended, if one did.
fn give<W: Watch>(alloc: Global, ended: &Option<Journal>, watch: &mut W) -> Result<(), AllocError>
    ensures given { OnOk result (W.told watch.new ≡ after_all the_space (option_to_list ended.now)
        (W.told watch.old)) }
    ensures err { OnErr result (W.told watch.new ≡ W.told watch.old) }
{
    match ended {
        Some(journal) => watch.journal(alloc, SPACE, journal),
        None => Ok(()),
    }
}
