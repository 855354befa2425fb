//! The laws of what sound sites tell. Each function here is empty, and its contract is a law.

ghost use Rattle.wire_questions.specs.Laws.{AnswersFit, AnswersToBytesFit};

/// What a sound site tells of a question, or of any bytes, can be written, and fits a frame.
pub fn answers_fit_a_frame()
    ensures questions { AnswersFit }
    ensures bytes { AnswersToBytesFit }
{}
