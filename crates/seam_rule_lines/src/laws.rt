//! What the definitions say together, each law on a function that does nothing.
ghost use Rattle.std.specs.Prelude.{◌≡◌, ◌↔◌, ◌++◌, ℕ, List};
ghost use Rattle.seam_io.specs.Lines.{Line, Long, Content};
ghost use Rattle.seam_words.specs.SplitWords.{HasWords};
ghost use Rattle.seam_defs.specs.Types.{AreDefs};
ghost use Rattle.seam_defs.specs.declared.flags.Part.{Part};
ghost use Rattle.seam_call.specs.declared.sender.Sender.{Sender};
ghost use Rattle.seam_call.specs.declared.call.Call.{Call};
ghost use Rattle.seam_rule_lines.specs.Language.{IsSkipped, Command, words_of, NamesCommand};
ghost use Rattle.seam_toml.specs.declared.header.Header.{Header};
ghost use Rattle.seam_rule_lines.specs.Header.{BeginWithHeader};
ghost use Rattle.seam_toml.specs.Header.{Reads};
ghost use Rattle.seam_rule_lines.specs.Book.{Book, accepted, with_entry};
ghost use Rattle.seam_rule_lines.specs.Judging.{Judges};
ghost use Rattle.seam_rule_lines.specs.Orders.{IsLegal, IsFull};
ghost use Rattle.seam_rule_lines.specs.Senders.{AcceptedAreFrom, CallIsFrom};
ghost use Rattle.seam_rule_lines.specs.declared.verdict.Entry.{Entry};
ghost use Rattle.seam_rule_lines.specs.declared.verdict.Verdict.{Verdict};
ghost use Rattle.seam_rule_lines.specs.declared.verdict.Verdict.TheVariants.{Accepted, Refused};
ghost use Rattle.seam_rule_lines.specs.declared.verdict.Cause.TheVariants.{TooLong, NoCommand};

/// No words spell two commands.
pub fn command_is_one()
    ensures { (c d : Command) → words_of c ≡ words_of d → c ≡ d }
{}

/// The book is a function of the lines: a line has one verdict at most. (That it has one, the calls show that judge it.)
pub fn verdict_is_one()
    ensures { (h : Header) (b : Book) (line : Line) (v w : Verdict) → AreDefs h.defs →
        Judges h b line v → Judges h b line w → v ≡ w }
{}

/// A line that is too long is refused for that and nothing else.
pub fn long_line_is_refused()
    ensures { (h : Header) (b : Book) (v : Verdict) → Judges h b Long v ↔ (v ≡ Refused TooLong) }
{}

/// A line whose first word is not that of a command is refused for that and nothing else.
pub fn unknown_command_is_refused()
    ensures { (h : Header) (b : Book) (line : List ℕ) (words : List (List ℕ)) (v : Verdict) →
        ¬ (IsSkipped line) → HasWords line words → ¬ (NamesCommand words) →
        Judges h b (Content line) v ↔ (v ≡ Refused NoCommand) }
{}

/// Lines begin with one header at most, and still with it when lines are appended.
pub fn header_is_one()
    ensures one { (lines rest more : List Line) (h k : Header) (m n : ℕ) →
        BeginWithHeader lines h m rest → BeginWithHeader lines k n more → (h ≡ k) × (m ≡ n) ×
        (rest ≡ more) }
    ensures stays { (lines rest more : List Line) (h : Header) (count : ℕ) →
        BeginWithHeader lines h count rest → BeginWithHeader (lines ++ more) h count
        (rest ++ more) }
    ensures defs { (text : List ℕ) (h : Header) → Reads text h → AreDefs h.defs }
{}

/// An order with all calls that were accepted is legal.
pub fn full_order_is_legal()
    ensures { (from : Sender → List Call) (order : List Call) → IsFull from order →
        IsLegal from order }
{}

/// Where each entity has one sender that all its calls name, each part has one order with all that was accepted for it. A line that names
/// that sender keeps this so.
pub fn one_sender_one_order()
    ensures one { (one : ℕ → Sender) (b : Book) (p : Part) (e : ℕ) (x y : List Call) →
        AcceptedAreFrom one b → IsFull (accepted b p e) x → IsFull (accepted b p e) y → x ≡ y }
    ensures kept { (one : ℕ → Sender) (h : Header) (b : Book) (line : Line) (x : Entry) →
        CallIsFrom one line → AcceptedAreFrom one b → Judges h b line (Accepted x) →
        AcceptedAreFrom one (with_entry b x) }
{}
