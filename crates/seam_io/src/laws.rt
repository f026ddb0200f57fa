// Laws of the lines of a list of bytes.
ghost use Rattle.std.specs.Prelude.{◌≡◌, ◌++◌, ℕ, List};
ghost use Rattle.seam_io.specs.Lines.{Line, lines_of, whole_lines_of};

/// The lines that a line feed ends, and a last one that is too long already, stay the first lines, whatever bytes come after them.
pub fn whole_lines_stay()
    ensures { (bytes more : List ℕ) → (rest : List Line) ×
        (lines_of (bytes ++ more) ≡ whole_lines_of bytes ++ rest) }
{}
