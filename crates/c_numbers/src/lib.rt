// Columns, managers, checks, plans, places and views as the numbers that C gets, each with the byte of its refusal last, and a plan
// from its numbers.
#![tactic(auto)]

pub mod values;

ghost use Rattle.std.specs.Prelude.{◌≡◌, ◌≤◌, length, Some, None};
ghost use Rattle.c_numbers.specs.Answers.{if_nine};
ghost use Rattle.c_numbers.specs.Numbers.{with_byte, one_column, one_manager, check_numbers, plan_numbers, place_numbers, view_numbers, in_bucket_numbers, plan_from};

use bytes_at::Refusal;
use lookup_rules::{Answer, Plan};
use table_rules::{Binding, Column, Manager};

// A column and where it is kept.
// No From, here and below: neither an answer nor an array of numbers is a type of this crate.
pub fn of_column(c: Column, b: Binding, why: Refusal) -> [u64; 12]
    ensures { result ≡ with_byte (one_column c b) why }
{
    [
        c.start as u64,
        c.len as u64,
        c.datatype.number as u64,
        u64::from(c.array),
        c.options as u64,
        c.elements as u64,
        c.maximum as u64,
        c.bits as u64,
        b.sequence as u64,
        b.set as u64,
        b.offset as u64,
        why.byte as u64,
    ]
}

pub fn of_manager(m: Manager, why: Refusal) -> [u64; 5]
    ensures { result ≡ with_byte (one_manager m) why }
{
    [
        m.number as u64,
        m.kind as u64,
        m.start as u64,
        m.len as u64,
        why.byte as u64,
    ]
}

// A check: the file's bucket size.
pub fn of_check(a: Answer) -> [u64; 2]
    ensures { result ≡ check_numbers a }
{
    [a.size, a.refused.byte].map(|n| n as u64)
}

pub fn of_plan(a: Answer) -> [u64; 10]
    ensures { result ≡ plan_numbers a }
{
    let p = a.plan;
    [
        p.position,
        p.sequence,
        p.datatype,
        p.elements,
        p.bits,
        p.set,
        p.offset,
        p.per,
        p.size,
        a.refused.byte,
    ]
    .map(|n| n as u64)
}

// A place: first bit and bit count, the looks of the search and the entries of the column's set.
pub fn of_place(a: Answer) -> [u64; 5]
    ensures { result ≡ place_numbers a }
{
    [a.first, a.count, a.looks, a.entries, a.refused.byte].map(|n| n as u64)
}

// A view, padded or not: the start and the length of its part of the file, in bytes.
pub fn of_view(a: Answer, len: usize) -> [u64; 3]
    ensures { result ≡ view_numbers a len }
{
    [a.first / 8, len, a.refused.byte].map(|n| n as u64)
}

// A place in one bucket: first bit and bit count, and the file's bucket size.
pub fn of_place_in_bucket(a: Answer) -> [u64; 4]
    ensures { result ≡ in_bucket_numbers a }
{
    [a.first, a.count, a.size, a.refused.byte].map(|n| n as u64)
}

// The first nine numbers as a plan.
#[tactic(auto, unfolding(crate::specs::Numbers::plan_from))]
pub fn plan_from(numbers: &[u64]) -> Plan
    requires { 9 ≤ length numbers.now }
    ensures { result ≡ plan_from numbers.now }
{
    Plan {
        position: numbers[0] as usize,
        sequence: numbers[1] as usize,
        datatype: numbers[2] as usize,
        elements: numbers[3] as usize,
        bits: numbers[4] as usize,
        set: numbers[5] as usize,
        offset: numbers[6] as usize,
        per: numbers[7] as usize,
        size: numbers[8] as usize,
    }
}

// The same; none where there are fewer numbers.
#[tactic(auto, unfolding(crate::specs::Answers::if_nine))]
pub fn plan_if_nine(numbers: &[u64]) -> Option<Plan>
    ensures { result ≡ if_nine numbers.now None (Some (plan_from numbers.now)) }
{
    if numbers.len() < 9 {
        None
    } else {
        Some(plan_from(numbers))
    }
}
