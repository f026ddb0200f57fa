// How the shapes of a picture look.

/// The classes of a shape in the style sheet.
#[derive(Clone, Copy)]
pub(crate) struct Style {
    /// What it is.
    pub(crate) sign: &'static str,
    /// Of which cell it has the color, with a space before it, or nothing.
    pub(crate) color: &'static str,
    /// How large the dots are, with a space before it, or nothing.
    pub(crate) size: &'static str,
}

impl Style {
    /// That of a sign which has no color of a cell.
    pub(crate) fn plain(sign: &'static str) -> Style {
        Style {
            sign,
            color: "",
            size: "",
        }
    }

    /// That of a sign in the color of a cell.
    pub(crate) fn colored(sign: &'static str, cell: u8, size: &'static str) -> Style {
        let color = match COLORS.get(usize::from(cell)) {
            Some(color) => *color,
            None => "",
        };
        Style { sign, color, size }
    }
}

// The classes of the colors of the cells.
const COLORS: [&str; 16] = [
    " of0", " of1", " of2", " of3", " of4", " of5", " of6", " of7", " of8", " of9", " of10",
    " of11", " of12", " of13", " of14", " of15",
];

/// The style sheet: how each class looks, and the colors of the sixteen cells, which are quiet where an area has them. Any two of the
/// colors are at least 18 apart in the space CIELAB, for a reader with all kinds of cones and for one who lacks any one of them.
pub(crate) const STYLE_SHEET: &str = "\
text { font: 12px Helvetica, Arial, sans-serif; fill: #222222; }
.paper { fill: #ffffff; }
.title { font-size: 22px; font-weight: bold; }
.note { fill: #555555; }
.end { text-anchor: end; }
.area { fill: currentColor; fill-opacity: 0.13; }
.border { fill: none; stroke: #7c828c; stroke-width: 1.5; }
.halo { paint-order: stroke; stroke: #ffffff; stroke-width: 3px; stroke-linejoin: round; }
.cell { font-size: 10px; }
.name { font-size: 18px; font-weight: bold; }
.view { fill: #333333; fill-opacity: 0.04; stroke: #333333; stroke-width: 1.3; stroke-dasharray: 7 5; }
.in-view { stroke: #333333; stroke-width: 1.2; stroke-opacity: 0.6; }
.ghost-line { stroke: currentColor; stroke-width: 1.2; stroke-dasharray: 2 3; }
.ghost { fill: #ffffff; stroke: currentColor; stroke-width: 1.8; stroke-dasharray: 3 2; }
.ring { fill: none; stroke: currentColor; stroke-width: 1.8; stroke-dasharray: 3 2; }
.home { fill: currentColor; stroke: #ffffff; stroke-width: 1.5; }
.client { fill: none; stroke: #222222; stroke-width: 2; }
.number { text-anchor: middle; }
.bold { font-weight: bold; }
.on-dot { font-weight: bold; fill: #ffffff; paint-order: stroke; stroke: #222222; stroke-width: 2px; }
.small { stroke-width: 0.6; stroke-dasharray: none; }
.tiny { stroke-width: 0.3; stroke-dasharray: none; }
.of0 { color: #689efa; }
.of1 { color: #c8621a; }
.of2 { color: #156861; }
.of3 { color: #b74dc0; }
.of4 { color: #fdad03; }
.of5 { color: #6204ef; }
.of6 { color: #96ce72; }
.of7 { color: #641800; }
.of8 { color: #0fd3e6; }
.of9 { color: #7e7d9c; }
.of10 { color: #957056; }
.of11 { color: #7b0287; }
.of12 { color: #7366fb; }
.of13 { color: #372a35; }
.of14 { color: #d5bbb0; }
.of15 { color: #760ab9; }
";
