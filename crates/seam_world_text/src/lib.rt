// SPDX-License-Identifier: MIT

//! A round's text, read off two of the worlds that it goes through: the one where its calls have ended, and the last one. And who lives,
//! from round to round.
//!
//! `specs/Residents` says who lives. `specs/Finding` says what is found of an entity: by its base node, and by the route from there to the
//! real. `specs/Texts` has what is written of that, `specs/Sums` what is counted, and `specs/Farewells` what is kept of clients whose
//! entities die.
//!
//! The module `laws` has that this is what a played round prints (*data_of* of `seam_law_transcript`), so the contracts of `write_calls`
//! and `write_ends` speak of that alone. Who prints a round needs no scan of cells.
//!
//! Several threads write the text of many residents, each that of some of them (`chunks`); the texts are put one after the other.
#![tactic(auto)]

mod calls;
mod chunks;
mod ends;
mod farewells;
mod finding;
mod laws;
mod residents;
mod round;
mod sums;

pub use calls::write_calls;
pub use chunks::Writers;
pub use ends::{positions, write_ends};
pub use farewells::{Farewell, Farewells, write_farewells};
pub use laws::{
    a_rounds_text_has_two_parts, residents_stay_as_lines_come, what_is_found_is_printed,
};
pub use residents::{Resident, Residents};
pub use round::PrintedRound;
pub use sums::{count_did, count_shown, sum_hp};
