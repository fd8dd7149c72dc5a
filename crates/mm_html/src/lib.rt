//! The fixed texts of the page that `mmshow html` writes: HTML, styles and script, made by
//! `web/pack` of the files in `web/`. Between them stand the data of one log.
#![tactic(auto)]

mod texts;

pub use texts::{
    UP_TO_ANSWERS, UP_TO_CLASSES, UP_TO_END, UP_TO_MOVES, UP_TO_NAME, UP_TO_OBSERVATIONS,
    UP_TO_SCRIPT,
};
