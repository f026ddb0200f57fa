// When two lines, or two places, are the same.
use crate::{BaseLine, ClientLine, DoneLine, GhostLine, HomeLine, Place, Same};
use seam_tree::MOST_CELLS;

impl Same for DoneLine {
    fn is(&self, other: &DoneLine) -> bool {
        self.ty == other.ty && self.call.is(&other.call)
    }
}

impl Same for HomeLine {
    fn is(&self, other: &HomeLine) -> bool {
        self.entity == other.entity
            && self.ty == other.ty
            && self.cell == other.cell
            && self.version == other.version
            && self.state.is(&other.state)
    }
}

impl Same for BaseLine {
    fn is(&self, other: &BaseLine) -> bool {
        self.entity == other.entity
            && self.ty == other.ty
            && self.version == other.version
            && self.props.is(&other.props)
    }
}

impl Same for GhostLine {
    fn is(&self, other: &GhostLine) -> bool {
        self.entity == other.entity && self.cell == other.cell && self.version == other.version
    }
}

impl Same for ClientLine {
    fn is(&self, other: &ClientLine) -> bool {
        self.entity == other.entity && self.ty == other.ty && self.line.is(&other.line)
    }
}

impl Same for Place {
    fn is(&self, other: &Place) -> bool {
        if self.home != other.home {
            return false;
        }
        for cell in 0..MOST_CELLS as u8 {
            let same = self.ghosts.holds(cell) == other.ghosts.holds(cell);
            if !same {
                return false;
            }
        }
        true
    }
}
