// The law of lines: a clause of a function that does nothing.
ghost use Rattle.std.specs.Prelude.{◌≡◌};
ghost use Rattle.seam_io.specs.Lines.{Line};
ghost use Rattle.seam_toml.specs.declared.header.Header.{Header};
ghost use Rattle.seam_rule_lines.specs.Book.{Book, entries, tree_of};
ghost use Rattle.seam_rule_lines.specs.Judging.{Judges};
ghost use Rattle.seam_rule_lines.specs.declared.verdict.Verdict.{Verdict};

/// Books with the same entries and the same tree judge each line alike, wherever their rounds ended.
pub fn a_line_is_judged_by_entries_and_tree()
    ensures { (h : Header) (b c : Book) → entries b ≡ entries c → tree_of b ≡ tree_of c →
        (line : Line) (v : Verdict) → Judges h b line v → Judges h c line v }
{}
