// The answer of an asked address as the flat struct that C sees, the same as a lookup's. Fields without meaning in a case are 0.
ghost use Rattle.std.specs.Prelude.{◌≡◌};
ghost use Rattle.ask.specs.Told.{ask_told};
ghost use Rattle.suntimpani.specs.Asked.{flat_asked};

use crate::flat::{AnswerInC, empty_row, flat_row};
use ask::answer::{AskFound, AskRefusal};

#[tactic(auto, unfolding(crate::specs::Asked::flat_asked, ask::specs::Numbers::ask_number, ask::specs::Numbers::ask_indexes, ask::specs::Numbers::ask_row, ask::specs::Numbers::ask_compared, ask::specs::Numbers::number_of_unanswered, lookup::specs::Numbers::number_of_unfound))]
pub fn flat_asked(answer: Result<AskFound, AskRefusal>) -> AnswerInC
    ensures { result ≡ flat_asked (ask_told answer) }
{
    match answer {
        Ok(
            AskFound {
                function,
                compared,
                number,
                row,
            },
        ) => flat_row(0, function, 0, compared, number, row),
        Err(AskRefusal::Unsound(rule)) => flat_row(rule.number(), 0, 0, 0, 0, empty_row()),
        Err(AskRefusal::Unsorted) => flat_row(45, 0, 0, 0, 0, empty_row()),
        Err(AskRefusal::NoFunction { compared }) => flat_row(21, 0, 0, compared, 0, empty_row()),
        Err(AskRefusal::NoRow { function, compared }) => {
            flat_row(23, function, 0, compared, 0, empty_row())
        }
        Err(AskRefusal::Damaged { function, compared }) => {
            flat_row(44, function, 0, compared, 0, empty_row())
        }
    }
}
