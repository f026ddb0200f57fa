// The legend below a picture.

/// What each sign is, from the lower left corner of the space: signs of entity 7 of cell 0.
pub(crate) const LEGEND: &str = "\
<circle class=\"home of0\" cx=\"16\" cy=\"52\" r=\"11\"/>
<text class=\"number on-dot\" x=\"16\" y=\"56\">7</text>
<text class=\"note\" x=\"40\" y=\"56\">home</text>
<circle class=\"ghost of0\" cx=\"176\" cy=\"52\" r=\"11\"/>
<text class=\"number halo\" x=\"176\" y=\"56\">7</text>
<text class=\"note\" x=\"200\" y=\"56\">ghost</text>
<circle class=\"client\" cx=\"336\" cy=\"52\" r=\"14\"/>
<circle class=\"home of0\" cx=\"336\" cy=\"52\" r=\"11\"/>
<text class=\"number on-dot\" x=\"336\" y=\"56\">7</text>
<text class=\"note\" x=\"360\" y=\"56\">has a client</text>
<rect class=\"view\" x=\"484\" y=\"43\" width=\"24\" height=\"18\"/>
<text class=\"note\" x=\"520\" y=\"56\">where it looks</text>
<line class=\"in-view\" x1=\"644\" y1=\"43\" x2=\"668\" y2=\"61\"/>
<text class=\"note\" x=\"680\" y=\"56\">in its view</text>
";
