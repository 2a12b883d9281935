// What C gets and gives: answers as numbers, and a plan from its nine numbers.
ghost use Rattle.std.specs.Prelude.{◌≡◌};
ghost use Rattle.table_rules.specs.Table.{position_refusal, position_value};
ghost use Rattle.c_numbers.specs.Answers.{missing, picked, written};

use bytes_at::Refusal;

// The refusal so far, or 8 where there is no such position.
#[tactic(auto, unfolding(crate::specs::Answers::missing))]
pub fn refusal(refused: Refusal, position: u64, count: usize) -> Refusal
    ensures { result ≡ missing refused position count }
{
    lookup_question::tests::stage(refused, position < count as u64, 8)
}

// The one at a position below the count; `none` where there is none.
// A list with a count, as a Description has its lists (no heap), and as `picked` takes them.
#[tactic(auto, unfolding(crate::specs::Answers::picked))]
pub fn pick<T: Copy>(list: &[T], count: usize, position: u64, none: T) -> T
    ensures { result ≡ picked list.now count position none }
{
    if position < count as u64 {
        list.get(position as usize).copied().unwrap_or(none)
    } else {
        none
    }
}

// Writes the values into `out`, as many as it holds.
#[tactic(auto, unfolding(crate::specs::Answers::written))]
pub fn write(values: &[u64], out: &mut [u64])
    ensures { out.new ≡ written values.now out.old }
{
    let n = values.len().min(out.len());
    out[..n].copy_from_slice(&values[..n]);
}

pub fn position_refusal(p: Result<usize, Refusal>) -> Refusal
    ensures { result ≡ position_refusal p }
{
    match p {
        Ok(_) => Refusal { number: 0, byte: 0 },
        Err(why) => why,
    }
}

pub fn position_number(p: Result<usize, Refusal>) -> u64
    ensures { result ≡ position_value p }
{
    match p {
        Ok(k) => k as u64,
        Err(_) => 0,
    }
}
