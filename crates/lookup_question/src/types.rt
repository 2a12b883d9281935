// An answer as the type of its question: a verdict, a plan, a place, or a part of the file (RULES.md 7.7 and 7.10).
ghost use Rattle.std.specs.Prelude.{◌≡◌, ◌+◌, ◌/◌, length, take};
ghost use Rattle.table_rules.specs.ColumnDesc.{is_padded};
ghost use Rattle.lookup_rules.specs.Answers.{unless_refused, verdict_of, planned_of, placed_of, placed_in_bucket_of};
ghost use Rattle.lookup_rules.specs.Views.{view_by};

use bytes_at::Refusal;
use lookup_rules::{Answer, Placed, PlacedInBucket, Plan};
use table_rules::Column;
use table_rules::data_type::DataType;

// The answer, or why it is refused.
#[tactic(auto, unfolding(lookup_rules::specs::Answers::unless_refused))]
fn passed(a: Answer) -> Result<Answer, Refusal>
    ensures { result ≡ unless_refused a.refused a }
{
    if a.refused.number == 0 {
        Ok(a)
    } else {
        Err(a.refused)
    }
}

#[tactic(auto, unfolding(lookup_rules::specs::Answers::unless_refused))]
pub fn verdict(a: Answer) -> Result<(), Refusal>
    ensures { result ≡ verdict_of a }
{
    passed(a).map(|_| ())
}

#[tactic(auto, unfolding(lookup_rules::specs::Answers::unless_refused))]
pub fn planned(a: Answer) -> Result<Plan, Refusal>
    ensures { result ≡ planned_of a }
{
    passed(a).map(|a| a.plan)
}

// `placed` and `placed_in_bucket` are two: `placed_of` and `placed_in_bucket_of` (lookup_rules/specs/Answers) give two records.
#[tactic(auto, unfolding(lookup_rules::specs::Answers::unless_refused))]
pub fn placed(a: Answer) -> Result<Placed, Refusal>
    ensures { result ≡ placed_of a }
{
    passed(a).map(|a| Placed {
        first: a.first,
        count: a.count,
        looks: a.looks,
        entries: a.entries,
    })
}

#[tactic(auto, unfolding(lookup_rules::specs::Answers::unless_refused))]
pub fn placed_in_bucket(a: Answer) -> Result<PlacedInBucket, Refusal>
    ensures { result ≡ placed_in_bucket_of a }
{
    passed(a).map(|a| PlacedInBucket {
        first: a.first,
        count: a.count,
        size: a.size,
    })
}

// Whether a column is a String scalar with a maximum.
#[tactic(auto, unfolding(table_rules::specs::ColumnDesc::is_padded))]
pub fn is_padded(c: Column) -> bool
    ensures { result ≡ is_padded c }
{
    c.datatype.number == DataType::STRING.number && !c.array && 0 < c.maximum
}

// The part of the file that an answer's bits fill, the whole cell; not padded, it is a text's alone, where the column has texts. The
// empty part where the answer is a refusal.
// `padded` is which of two questions is asked, and `view_by` takes it: a closure would be chosen by the same test.
#[tactic(auto, unfolding(lookup_rules::specs::Views::view_by, lookup_rules::specs::Views::view_of, lookup_rules::specs::Views::padded_of))]
pub fn part_of(file: &[u8], a: Answer, padded: bool) -> &[u8]
    ensures { (result.now ≡ view_by padded file.now a) × (result.ref_ptr ≡ (file.entry.ref_ptr.0, file.entry.ref_ptr.1 + length (take (a.first / 8) file.now))) }
{
    let whole = bytes_at::part(file, a.first / 8, a.count / 8);
    if !padded && is_padded(a.column) {
        bytes_at::before_zero(whole)
    } else {
        whole
    }
}
