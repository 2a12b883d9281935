// Whether what a question asks for passes (RULES.md 7.3 to 7.6): the column, the plan that is handed in, the row, and a
// view.
ghost use Rattle.std.specs.Prelude.{◌≡◌};
ghost use Rattle.bytes_at.specs.Stages.{◌▷◌, or_no};
ghost use Rattle.lookup_rules.specs.Questions.{is_column, sequence_for, is_placed, is_fresh, is_below, is_seen};

use bytes_at::Refusal;
use lookup_rules::{Plan, Request};
use table_rules::data_type::DataType;

// One stage more: after a refusal nothing counts.
pub fn stage(refused: Refusal, ok: bool, number: usize) -> Refusal
    ensures { result ≡ refused ▷ or_no ok number }
{
    if refused.number != 0 {
        refused
    } else {
        Refusal {
            number: if ok { 0 } else { number },
            byte: 0,
        }
    }
}

// Whether the column exists, where one is asked for.
// `below` has the same shape over other fields: the definitions give each test its name.
pub fn is_column(r: Request, count: usize) -> bool
    ensures { result ≡ is_column r count }
{
    !r.column || r.position < count
}

// The sequence number of the manager: the column's; a check names its own.
pub fn sequence_for(r: Request, own: usize) -> usize
    ensures { result ≡ sequence_for r own }
{
    if r.column { own } else { r.sequence }
}

// Whether a column of a data type, where one is asked for, has cells in an IncrementalStMan file.
pub fn is_placed(r: Request, datatype: usize) -> bool
    ensures { result ≡ is_placed r datatype }
{
    !r.column || datatype != DataType::STRING.number as usize
}

// Whether a plan that is handed in is the one that would be made now.
pub fn fresh(r: Request, p: Plan) -> bool
    ensures { result ≡ is_fresh r p }
{
    !r.planned || r.plan == p
}

// Whether the row, where one is asked for, is below the row count.
pub fn below(r: Request, rows: usize) -> bool
    ensures { result ≡ is_below r rows }
{
    !r.cell || r.row < rows
}

// Whether what is viewed is no Bool of a StandardStMan file.
pub fn seen(r: Request, incremental: bool, datatype: usize) -> bool
    ensures { result ≡ is_seen r incremental datatype }
{
    !r.view || incremental || datatype != DataType::BOOL.number as usize
}
