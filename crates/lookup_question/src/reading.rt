// A question, read once (RULES.md 7.1).
ghost use Rattle.std.specs.Prelude.{◌≡◌};
ghost use Rattle.lookup_rules.specs.Questions.{cell_of, request_of};

use lookup_rules::{Asked, Question, Request};

// A cell of a row, or its view, by position or by plan.
// `view` is what the question asks, and `cell_of` takes it: the Request holds it, and nothing is run by it.
fn read_cell(row: usize, asked: Asked, view: bool) -> Request
    ensures { result ≡ cell_of row asked view }
{
    let cell = Request {
        column: true,
        cell: true,
        view,
        row,
        ..Request::default()
    };
    match asked {
        Asked::Position(position) => Request { position, ..cell },
        Asked::Planned(plan) => Request {
            planned: true,
            position: plan.position,
            plan,
            ..cell
        },
    }
}

// What a question asks for.
pub fn read(q: Question) -> Request
    ensures { result ≡ request_of q }
{
    match q {
        Question::Check(sequence) => Request {
            sequence,
            ..Request::default()
        },
        Question::Prepare(position) => Request {
            column: true,
            position,
            ..Request::default()
        },
        Question::Place(row, asked) => read_cell(row, asked, false),
        Question::View(row, asked) => read_cell(row, asked, true),
        Question::PlaceInBucket(row, position) => Request {
            own: true,
            ..read_cell(row, Asked::Position(position), false)
        },
    }
}
