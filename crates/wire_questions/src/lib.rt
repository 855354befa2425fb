//! The bytes of questions and of what is told: a server reads the one and writes the other. How both are spelled is stated in
//! `docs/FORMATS.md`.
#![tactic(auto)]

mod answer_laws;
mod answer_writers;
mod field_writers;
mod question_field_readers;
mod question_readers;

pub use answer_laws::answers_fit_a_frame;
pub use answer_writers::write_answer;
pub use question_readers::read_question;
