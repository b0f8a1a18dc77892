// What holds of all answers.
ghost use Rattle.answers.specs.Answered.{AnswersApart};
ghost use Rattle.answers.specs.Laws.{PrintedApart};

// No two different results print alike, so an answer alone tells what its input line is.
pub fn answers_stand()
    ensures apart { PrintedApart }
    ensures told { AnswersApart }
{}
