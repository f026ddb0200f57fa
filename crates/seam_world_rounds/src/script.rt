// A script, line by line.
ghost use Rattle.std.specs.Prelude.{◌≡◌, ◌≤◌, ◌++◌, List, [], ℕ, Some, length, OnOk, IfOk};
ghost use Rattle.std.specs.Option.{option_to_list};
ghost use Rattle.seam_node_steps.specs.Prelude.{AreLegal, AreDefs, opened};
ghost use Rattle.seam_rule_rounds.specs.Prelude.{Line as Lines, Content, Long, Header as Headers, Book as Books, Standing, after_header};
ghost use Rattle.seam_rule_rounds.specs.Prelude.{with_line, with_bounds, totals_of};
ghost use Rattle.seam_law_transcript.specs.Prelude.{most_lines};
ghost use Rattle.seam_accept.specs.Refines.{Refines as HoldsBook};
ghost use Rattle.seam_world_rounds.specs.Following.{RoundEnds, LineFollowed, LineRead, InputEnded};
ghost use Rattle.seam_world_rounds.specs.Script.{IsReady, ScriptRefines, Refines, Gives, HasAccepted};
ghost use Rattle.seam_world_rounds.specs.Output.{AddsSums, refusal_output};

use crate::round::{Output, Playing, play};
use seam_accept::{Accepted, Book, Refusal};
use seam_core::World;
use seam_io::LONGEST_LINE;
use seam_report::push_refusal;
use seam_rule_lines::{Cause, Header, MOST_LINES};
use seam_rule_rounds::{Sums, Totals};
use seam_tree::Tree;
use seam_watch::Journal;
use seam_workers::Gate;
use seam_world_ends::next_count;
use seam_world_text::Residents;
use std::alloc::{AllocError, Global};
use std::sync::Wait;
use std::thread::Threads;

/// How far a script was read: the book of what was accepted, the world as the last round left it, the entities that live in it, the counts
/// of lines and rounds, and the sums of the rounds.
#[derive(Drop)]
pub struct Script {
    pub alloc: Global,
    pub header: Header,
    pub book: Book,
    // nothing where memory was wanting in a round
    pub world: Option<World>,
    pub residents: Residents,
    // the number of the last line
    pub line: u64,
    // the number of the last round that ended
    pub round: u64,
    pub totals: Totals,
}

impl Script {
    /// A script of which the header alone was read, which had `lines` lines.
    pub fn new(alloc: Global, header: Header, lines: u64) -> Result<Self, AllocError>
        requires legal { AreLegal header.settings }
        requires sound { AreDefs header.defs }
        requires few { lines ≤ most_lines }
        ensures refines { IfOk result (ScriptRefines header (after_header header lines)) }
        ensures totals { IfOk result (λ s. s.totals ≡ totals_of []) }
        ensures world { IfOk result (λ s. s.world ≡ Some (opened header.defs header.settings)) }
    {
        seam_law_transcript::a_course_begins_and_goes_on();
        Ok(Script {
            alloc,
            book: Book::new(alloc, &header)?,
            world: Some(World::open(alloc, &header.defs, header.settings)?),
            residents: Residents::new(alloc),
            header,
            line: lines,
            round: 0,
            totals: Totals::new(),
        })
    }

    /// What is summed up of the rounds so far, where that is asked for.
    pub fn totals(&self) -> Totals
        ensures { result ≡ self.now.totals }
    {
        self.totals
    }

    /// Reads the next line, and appends what is printed for it. If the line ended a round, its steps are given.
    pub fn read_line<G: Gate + Sync, R: Threads + Wait + Sync>(
        &mut self,
        rt: &R,
        playing: &Playing<G>,
        line: &[u8],
        out: &mut Vec<u8>,
    ) -> Result<Option<Journal>, AllocError>
        requires length { length line.now ≤ LONGEST_LINE }
        requires ready { (h : Headers) × (t : Standing) × ScriptRefines h t self.old }
        ensures { IfOk result (λ ended. (h : Headers) (t : Standing) → ScriptRefines h t self.old →
            (text : List ℕ) × LineRead playing.now.output h t (Content line.now)
            (Refines playing.now.output h self.old self.new) text (option_to_list ended) ×
            (out.new.items ≡ out.old.items ++ text)) }
    {
        seam_law_transcript::a_course_begins_and_goes_on();
        self.line = next_count(self.line)?;
        match self.book.accept(line) {
            Ok(accepted) => self.follow(rt, playing, accepted, out),
            Err(Refusal::Cause(cause)) => {
                refuse(playing.output, self.line, cause, out)?;
                Ok(None)
            }
            Err(Refusal::NoMemory) => Err(AllocError),
        }
    }

    /// Reads a line that is too long.
    pub fn read_long(&mut self, output: Output, out: &mut Vec<u8>) -> Result<(), AllocError>
        ensures { OnOk result ((h : Headers) (t : Standing) → ScriptRefines h t self.old →
            (text : List ℕ) × LineRead output h t Long (Refines output h self.old self.new) text
            [] × (out.new.items ≡ out.old.items ++ text)) }
    {
        seam_law_transcript::a_course_begins_and_goes_on();
        self.line = next_count(self.line)?;
        refuse(output, self.line, Cause::TooLong, out)
    }

    // Does what a line asks for that the book accepted or skipped, and appends what is printed. Answers the steps of a round that ended.
    fn follow<G: Gate + Sync, R: Threads + Wait + Sync>(
        &mut self,
        rt: &R,
        playing: &Playing<G>,
        accepted: Accepted,
        out: &mut Vec<u8>,
    ) -> Result<Option<Journal>, AllocError>
        requires accepted { (h : Headers) × (t : Standing) × (line : Lines) ×
            HasAccepted h t line accepted self.old }
        ensures { IfOk result (λ ended. (h : Headers) (t : Standing) (line : Lines) →
            HasAccepted h t line accepted self.old → (text : List ℕ) ×
            LineFollowed playing.now.output h (with_line t) line
            (Refines playing.now.output h self.old self.new) text (option_to_list ended) ×
            (out.new.items ≡ out.old.items ++ text)) }
    {
        seam_law_transcript::a_course_begins_and_goes_on();
        seam_law_transcript::a_round_may_be_run();
        match accepted {
            Accepted::Skipped => Ok(None),
            Accepted::Kept => {
                if self.book.count() == MOST_LINES {
                    return Ok(Some(self.end_round(rt, playing, out)?));
                }
                Ok(None)
            }
            Accepted::Synced => Ok(Some(self.end_round(rt, playing, out)?)),
        }
    }

    // Ends the open round, whose text is appended, and answers its steps.
    fn end_round<G: Gate + Sync, R: Threads + Wait + Sync>(
        &mut self,
        rt: &R,
        playing: &Playing<G>,
        out: &mut Vec<u8>,
    ) -> Result<Journal, AllocError>
        requires ready { (h : Headers) × (t : Standing) × IsReady h t self.old }
        ensures { IfOk result (λ steps. (h : Headers) (t : Standing) → IsReady h t self.old →
            (text : List ℕ) × RoundEnds playing.now.output h t
            (Refines playing.now.output h self.old self.new) text steps ×
            (out.new.items ≡ out.old.items ++ text)) }
    {
        seam_law_transcript::a_round_may_be_run();
        seam_law_transcript::a_run_round_is_legal();
        seam_law_transcript::each_entity_has_one_real_through_a_round();
        seam_law_transcript::each_part_executes_in_turn();
        seam_law_transcript::clients_see_all_within_their_radius();
        self.round = next_count(self.round)?;
        let Some(world) = self.world.take() else {
            return Err(AllocError);
        };
        let batch = self.book.take_batch();
        self.residents.begin(&batch)?;
        let played = play(
            rt,
            self.alloc,
            playing,
            &self.header,
            self.round,
            &mut self.residents,
            world,
            batch,
            out,
        )?;
        begin_next(&mut self.book, played.bounds);
        self.world = Some(played.world);
        self.totals = with_sums(self.totals, &played.sums)?;
        Ok(played.journal)
    }

    /// Ends the input. If a last round is open, its text is appended, and its steps are given.
    pub fn finish<G: Gate + Sync, R: Threads + Wait + Sync>(
        &mut self,
        rt: &R,
        playing: &Playing<G>,
        out: &mut Vec<u8>,
    ) -> Result<Option<Journal>, AllocError>
        requires refines { (h : Headers) × (t : Standing) × ScriptRefines h t self.old }
        ensures { IfOk result (λ ended. (h : Headers) (t : Standing) → ScriptRefines h t self.old →
            (text : List ℕ) × InputEnded playing.now.output h t
            (Gives playing.now.output h self.old self.new) text (option_to_list ended) ×
            (out.new.items ≡ out.old.items ++ text)) }
    {
        seam_law_transcript::a_round_may_be_run();
        if self.book.count() == 0 {
            return Ok(None);
        }
        Ok(Some(self.end_round(rt, playing, out)?))
    }
}

// Begins the next round, with another tree where the boundaries were balanced.
fn begin_next(book: &mut Book, bounds: Option<Tree>)
    requires { book.old.count ≡ 0 }
    ensures { (h : Headers) (b : Books) → HoldsBook h b book.old →
        HoldsBook h (with_bounds b bounds) book.new }
{
    if let Some(tree) = bounds {
        book.set_tree(tree);
    }
}

// The totals with what is summed up of a round, where it was.
fn with_sums(totals: Totals, sums: &Option<Sums>) -> Result<Totals, AllocError>
    ensures { IfOk result (AddsSums totals sums.now) }
{
    match sums {
        Some(sums) => totals.with(sums),
        None => Ok(totals),
    }
}

// Appends the refusal of a line, where texts are given.
fn refuse(output: Output, line: u64, cause: Cause, out: &mut Vec<u8>) -> Result<(), AllocError>
    ensures { OnOk result (out.new.items ≡ out.old.items ++ refusal_output output line cause) }
{
    match output {
        Output::Sums => Ok(()),
        Output::Rounds | Output::TracedRounds => push_refusal(out, line, cause),
    }
}
