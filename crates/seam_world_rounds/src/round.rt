// A round, played by the world, and its text.
ghost use Rattle.std.specs.Prelude.{◌≡◌, ◌+◌, ◌++◌, ℕ, Option, OnOk, IfOk, length, map};
ghost use Rattle.seam_node_steps.specs.Prelude.{Division, World as AnyWorld};
ghost use Rattle.seam_rule_rounds.specs.Prelude.{ClientReplica, Header as Headers, Standing, played_text, sums_of};
ghost use Rattle.seam_law_calls.specs.Prelude.{Frame};
ghost use Rattle.seam_law_transcript.specs.Prelude.{HasPlayableRound, IsPlayed, data_of};
ghost use Rattle.seam_accept.specs.Batches.{batch_of};
ghost use Rattle.seam_world_text.specs.Residents.{ArePresent};
ghost use Rattle.seam_world_text.specs.Printing.{IsOpenRound};
ghost use Rattle.seam_world_text.specs.Farewells.{AreFarewells};
ghost use Rattle.seam_world_text.specs.RoundParts.{calls_text};
ghost use Rattle.seam_quiet.specs.RoundRuns.{MayRun};
ghost use Rattle.seam_quiet.specs.CallPhase.{Beginning};
ghost use Rattle.seam_world_rounds.specs.PlayedRound.{HasPlayed, IsBalancedBy, HasTaken, start_text};
ghost use Rattle.seam_world_rounds.specs.Output.{round_output, sums_if};

use seam_balance::balance;
use seam_call::Batch;
use seam_core::World;
use seam_quiet::{Ended, Workers, run_calls, run_ends};
use seam_report::{push_journal, push_number_line};
use seam_rule_lines::Header;
use seam_rule_rounds::Sums;
use seam_table::HashKey;
use seam_tree::Tree;
use seam_watch::Journal;
use seam_workers::Gate;
use seam_world_text::{
    Farewells, PrintedRound, Residents, Writers, count_did, count_shown, positions, sum_hp,
    write_calls, write_ends, write_farewells,
};
use std::alloc::{AllocError, Global};
use std::sync::Wait;
use std::thread::Threads;

/// What a run gives of its rounds.
#[derive(Clone, Copy, PartialEq, Eq)]
pub enum Output {
    /// The text of each.
    Rounds,
    /// The text of each, with its steps in it.
    TracedRounds,
    /// No text, and what is summed up of each.
    Sums,
}

/// How the rounds of a run are played, and what it gives of them.
#[derive(Drop)]
pub struct Playing<'a, G> {
    pub workers: Workers<'a, G>,
    pub output: Output,
    /// By a hash with this key the world, the book and the texts find entities.
    pub key: HashKey,
}

/// What a round left: the world after it, the steps that led there, the tree of the next round if the boundaries were balanced, and the
/// sums of the round if they were asked for.
#[derive(Drop)]
pub struct Played {
    pub world: World,
    pub journal: Journal,
    pub bounds: Option<Tree>,
    pub sums: Option<Sums>,
}

// Appends the beginning of a round's text: its number, and its steps where they are traced.
fn write_start(
    out: &mut Vec<u8>,
    number: u64,
    traced: bool,
    journal: &Journal,
) -> Result<(), AllocError>
    ensures { OnOk result (out.new.items ≡ out.old.items ++ start_text traced number journal.now) }
{
    push_number_line(out, b"round ", number)?;
    if traced {
        return push_journal(out, journal);
    }
    Ok(())
}

// What was taken off the world where the calls of a round had ended: their text, or how many of them cell parts executed.
#[derive(Drop)]
struct Taken {
    text: Vec<u8>,
    did: u64,
}

fn take_calls<R: Threads + Sync>(
    writers: &Writers<R>,
    alloc: Global,
    output: Output,
    round: &PrintedRound,
    called: &World,
) -> Result<Taken, AllocError>
    ensures { IfOk result (λ taken. (h : Headers) (s : Standing) (t : Division) (w v : AnyWorld)
        (p : IsPlayed h s t w v) (bounds : Option Division) → p.round.called ≡ called.now →
        IsOpenRound h s round.now → HasTaken output h.defs (data_of h s t w v p bounds) taken) }
{
    match output {
        Output::Sums => Ok(Taken {
            text: Vec::new(alloc),
            did: count_did(round.present, called)?,
        }),
        Output::Rounds => take_text(writers, alloc, round, called),
        Output::TracedRounds => take_text(writers, alloc, round, called),
    }
}

fn take_text<R: Threads + Sync>(
    writers: &Writers<R>,
    alloc: Global,
    round: &PrintedRound,
    called: &World,
) -> Result<Taken, AllocError>
    ensures { IfOk result (λ taken. (h : Headers) (s : Standing) (t : Division) (w v : AnyWorld)
        (p : IsPlayed h s t w v) (bounds : Option Division) → p.round.called ≡ called.now →
        IsOpenRound h s round.now → taken.text.items
        ≡ calls_text h.defs (data_of h s t w v p bounds)) }
{
    let mut text = Vec::new(alloc);
    write_calls(writers, &mut text, round, called)?;
    Ok(Taken { text, did: 0 })
}

// Appends the text of a round that has ended.
fn write_text<R: Threads + Sync>(
    writers: &Writers<R>,
    out: &mut Vec<u8>,
    traced: bool,
    round: &PrintedRound,
    calls: &[u8],
    kept: &Farewells,
    ended: &Ended,
    bounds: &Option<Tree>,
) -> Result<(), AllocError>
    ensures { OnOk result ((h : Headers) (s : Standing) (t : Division) (w : AnyWorld)
        (p : IsPlayed h s t w ended.now.world) → IsOpenRound h s round.now →
        AreFarewells h.defs s.book p.round.called kept.now →
        calls.now ≡ calls_text h.defs (data_of h s t w ended.now.world p bounds.now) →
        out.new.items ≡ out.old.items ++ played_text traced h.defs
        (data_of h s t w ended.now.world p bounds.now) ended.now.journal) }
{
    seam_world_text::a_rounds_text_has_two_parts();
    write_start(out, round.number, traced, &ended.journal)?;
    out.extend_from_slice(calls)?;
    write_ends(writers, out, round, kept, &ended.world, bounds)
}

// What is summed up of a round that has ended, in which cell parts executed so many calls.
fn sum_up(
    present: &Residents,
    did: u64,
    kept: &Farewells,
    ended: &World,
) -> Result<Sums, AllocError>
    ensures { IfOk result (λ sums. (h : Headers) (s : Standing) (t : Division) (w : AnyWorld)
        (p : IsPlayed h s t w ended.now) (bounds : Option Division) →
        ArePresent s.book present.now → AreFarewells h.defs s.book p.round.called kept.now →
        did ≡ length (data_of h s t w ended.now p bounds).did →
        sums ≡ sums_of (data_of h s t w ended.now p bounds)) }
{
    Ok(Sums {
        did,
        shown: count_shown(present, kept, ended)?,
        hp: sum_hp(present, ended)?,
    })
}

// Gives of a round that has ended what the run gives: appends its text, or sums it up.
fn give_round<R: Threads + Sync>(
    writers: &Writers<R>,
    out: &mut Vec<u8>,
    output: Output,
    round: &PrintedRound,
    taken: &Taken,
    kept: &Farewells,
    ended: &Ended,
    bounds: &Option<Tree>,
) -> Result<Option<Sums>, AllocError>
    ensures { IfOk result (λ sums. (h : Headers) (s : Standing) (t : Division) (w : AnyWorld)
        (p : IsPlayed h s t w ended.now.world) → IsOpenRound h s round.now →
        AreFarewells h.defs s.book p.round.called kept.now →
        HasTaken output h.defs (data_of h s t w ended.now.world p bounds.now) taken.now →
        (sums ≡ sums_if output (data_of h s t w ended.now.world p bounds.now)) ×
        (out.new.items ≡ out.old.items ++ round_output output h.defs
        (data_of h s t w ended.now.world p bounds.now) ended.now.journal)) }
{
    match output {
        Output::Sums => Ok(Some(sum_up(round.present, taken.did, kept, &ended.world)?)),
        Output::Rounds => {
            write_text(writers, out, false, round, &taken.text, kept, ended, bounds)?;
            Ok(None)
        }
        Output::TracedRounds => {
            write_text(writers, out, true, round, &taken.text, kept, ended, bounds)?;
            Ok(None)
        }
    }
}

// The tree with its boundaries balanced by where the homes are that the round left, where that was asked for.
fn balanced(
    alloc: Global,
    asked: bool,
    tree: &Tree,
    present: &Residents,
    ended: &World,
    shift: u32,
) -> Result<Option<Tree>, AllocError>
    ensures { IfOk result (λ bounds. (h : Headers) (s : Standing) (t : Division) (w : AnyWorld)
        (p : IsPlayed h s t w ended.now) → ArePresent s.book present.now →
        IsBalancedBy asked tree.now (map (λ l. l.state.pos)
        (data_of h s t w ended.now p bounds).homes) shift bounds) }
{
    if !asked {
        return Ok(None);
    }
    let places = positions(alloc, present, ended)?;
    Ok(Some(balance(alloc, tree, &places, shift)?))
}

/// Plays the round of a batch. As the output asks, its text is appended or it is summed up. Those who die in it are residents no more.
///
/// If allocation fails, the world is gone.
pub fn play<G: Gate + Sync, R: Threads + Wait + Sync>(
    rt: &R,
    alloc: Global,
    playing: &Playing<G>,
    header: &Header,
    number: u64,
    residents: &mut Residents,
    world: World,
    batch: Batch,
    out: &mut Vec<u8>,
) -> Result<Played, AllocError>
    ghost from: { Beginning }
    requires world { world ≡ from.world }
    requires batch { batch ≡ from.batch }
    requires may { (f : Frame) × (clients : ℕ → ClientReplica) ×
        MayRun f clients from.world from.batch }
    ensures { IfOk result (λ r. (h : Headers) (s : Standing) (tree : Division) →
        HasPlayableRound h s tree from.world → from.batch ≡ batch_of h s.book → header.now ≡ h →
        number ≡ s.rounds + 1 → ArePresent s.book residents.old →
        HasPlayed playing.now.output h s tree from.world r residents.new out.old.items
        out.new.items) }
{
    seam_law_transcript::entities_can_be_listed();
    let (tree, asked) = (batch.tree, batch.balance);
    let called = run_calls(rt, alloc, world, batch, &playing.workers)?;
    let round = PrintedRound {
        number,
        defs: &header.defs,
        present: residents,
    };
    let writers = Writers {
        rt,
        threads: playing.workers.count(),
    };
    let taken = take_calls(&writers, alloc, playing.output, &round, &called.world)?;
    let kept = write_farewells(alloc, &round, called.destroys.as_slice(), &called.world)?;
    let ended = run_ends(rt, alloc, called, &playing.workers)?;
    let shift = header.settings.balance_shift;
    let bounds = balanced(alloc, asked, &tree, round.present, &ended.world, shift)?;
    let sums = give_round(
        &writers,
        out,
        playing.output,
        &round,
        &taken,
        &kept,
        &ended,
        &bounds,
    )?;
    residents.end(ended.destroys.as_slice());
    Ok(Played {
        world: ended.world,
        journal: ended.journal,
        bounds,
        sums,
    })
}
