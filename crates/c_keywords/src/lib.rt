// The questions about keywords for C, in the manner of `c_api`: numbers and lent slices, the refusal's number as the result, and
// behind the numbers of each answer the byte.
#![tactic(auto)]

ghost use Rattle.std.specs.Prelude.{◌≡◌};
ghost use Rattle.c_numbers.specs.Answers.{written};
ghost use Rattle.keyword_rules.specs.Keywords.{keyword_search, refusal_of};
ghost use Rattle.c_keywords.specs.KeywordNumbers.{keyword_numbers, field_numbers, numbers_of};

use bytes_at::Refusal;
use keyword_rules::{Field, Scope, Sought};

// Start and length of the name; type number, start and length of the value.
fn of_field(x: Result<Field, Refusal>) -> [u64; 6]
    ensures { result ≡ field_numbers x }
{
    match x {
        Ok(f) => [
            f.name as u64,
            f.name_len as u64,
            f.number as u64,
            f.start as u64,
            f.len as u64,
            0,
        ],
        Err(why) => [0, 0, 0, 0, 0, why.byte as u64],
    }
}

// A keyword or a field, of either scope.
fn answer(table: &[u8], scope: Scope, path: &[u8], sought: Sought, out: &mut [u64]) -> u64
    ensures { (result ≡ (refusal_of (keyword_search table.now scope path.now sought)).number) × (out.new ≡ written (numbers_of sought (keyword_search table.now scope path.now sought)) out.old) }
{
    let x = keywords::search(table, scope, path, sought);
    let numbers = of_field(x);
    match sought {
        // without its name
        Sought::Value => c_numbers::values::write(&numbers[2..], out),
        Sought::Field(_) => c_numbers::values::write(&numbers, out),
    }
    match x {
        Ok(_) => 0,
        Err(why) => why.number as u64,
    }
}

// A keyword of the table: type number, start and length of the value, byte: 4 numbers.
#[unsafe(no_mangle)]
pub extern "C" fn hv_table_keyword(table: &[u8], path: &[u8], out: &mut [u64]) -> u64
    ensures { (result ≡ (refusal_of (keyword_search table.now Scope.Table path.now Sought.Value)).number) × (out.new ≡ written (keyword_numbers (keyword_search table.now Scope.Table path.now Sought.Value)) out.old) }
{
    answer(table, Scope::Table, path, Sought::Value, out)
}

// The same of the column at a position.
#[unsafe(no_mangle)]
pub extern "C" fn hv_column_keyword(
    table: &[u8],
    position: u64,
    path: &[u8],
    out: &mut [u64],
) -> u64
    ensures { (result ≡ (refusal_of (keyword_search table.now (Scope.Column position) path.now Sought.Value)).number) × (out.new ≡ written (keyword_numbers (keyword_search table.now (Scope.Column position) path.now Sought.Value)) out.old) }
{
    let scope = Scope::Column(position as usize);
    answer(table, scope, path, Sought::Value, out)
}

// The field with a number, of a record of the table: start and length of its name, then the numbers of its keyword: 6 numbers.
#[unsafe(no_mangle)]
pub extern "C" fn hv_table_field(table: &[u8], path: &[u8], number: u64, out: &mut [u64]) -> u64
    ensures { (result ≡ (refusal_of (keyword_search table.now Scope.Table path.now (Sought.Field number))).number) × (out.new ≡ written (field_numbers (keyword_search table.now Scope.Table path.now (Sought.Field number))) out.old) }
{
    let field = Sought::Field(number as usize);
    answer(table, Scope::Table, path, field, out)
}

// The same of the column at a position.
#[unsafe(no_mangle)]
pub extern "C" fn hv_column_field(
    table: &[u8],
    position: u64,
    path: &[u8],
    number: u64,
    out: &mut [u64],
) -> u64
    ensures { (result ≡ (refusal_of (keyword_search table.now (Scope.Column position) path.now (Sought.Field number))).number) × (out.new ≡ written (field_numbers (keyword_search table.now (Scope.Column position) path.now (Sought.Field number))) out.old) }
{
    let scope = Scope::Column(position as usize);
    let field = Sought::Field(number as usize);
    answer(table, scope, path, field, out)
}
