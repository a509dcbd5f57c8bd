//! The ladder of a connection: rows of two ends side by side, the arrows between them, and its picture in SVG.
#![tactic(auto)]

mod arrows;
mod drawing;
mod joins;
mod labels;
mod laws;
mod row;
mod rungs;
mod text;

pub use arrows::Look;
pub use drawing::{EndName, put_drawing};
pub use labels::has;
pub use laws::{
    arrows_go_down, drawings_are_well_formed, emissions_join_their_arrivals,
    entries_stand_in_one_arrow, log_rows_are_kept, rows_stand_on_rungs,
};
pub use row::{Asked, Fate, Frame, Framed, Note, Row, Timer, Told};
pub use rungs::{Rung, rungs_of, with_log};
