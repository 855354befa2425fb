//! The laws of the spellings of questions and answers.

ghost use Rattle.plain_questions.specs.Laws.{AnswersAreApart, AnswersHaveOneSpelling, QuestionsAreNoRequests, QuestionsHaveOneSpelling};

/// Each question and each answer has one spelling, and bytes are read as the one question, and the one answer, that they
/// spell.
pub fn questions_have_one_spelling()
    ensures question { QuestionsHaveOneSpelling }
    ensures answer { AnswersHaveOneSpelling }
{}

/// The bytes of a question are no request's, so a server tells the two apart; and what is told is spelled as no reply is. Where
/// nothing is told, that is spelled as the refusal of a request is, where there is such a refusal.
pub fn questions_are_apart()
    ensures question { QuestionsAreNoRequests }
    ensures answer { AnswersAreApart }
{}
