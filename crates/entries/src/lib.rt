// The six numbers of a table's entry, the checks that need no row (1 to 3 for the table, 4 to 6 for an entry), and what an entry names.

#![tactic(auto)]

ghost use Rattle.std.specs.Prelude.{◌≡◌, ◌&&◌, ◌+◌, ◌*◌, ◌<◌, length};
ghost use Rattle.calendar.specs.Limits as Limits;
ghost use Rattle.calendar.specs.Table as Table;
ghost use Rattle.entries.specs.Entries.{entry_of, kind_of, operands_earlier, others_zero, begun_reply};
ghost use Rattle.entries.specs.Naming.{Reads};

use calendar::{Calendar, ENTRY_LIMIT, POOL_LIMIT, Refusal};
use kinds::Kind;

mod naming;

// How many numbers an entry has.
pub const ENTRY_LENGTH: usize = 6;

// Kinds are 0 to 12.
const LAST_KIND: i32 = 12;

// How many operands each kind names, from kind 0 on.
const OPERAND_COUNTS: [u32; 13] = [0, 1, 1, 2, 2, 2, 2, 2, 2, 2, 2, 2, 1];

// The limit of x, y and z, but for labels.
const MILLION: i32 = 1000000;

#[derive(Clone, Copy)]
pub struct Entry {
    pub kind: i32,
    pub first: i32,
    pub second: i32,
    pub x: i32,
    pub y: i32,
    pub z: i32,
}

// The entry k of a table that has it.
pub fn entry_at(table: &[i32], k: usize) -> Entry
    requires { 6 * k + 5 < length table.now }
    ensures { entry_of result ≡ Table.entry_at table.now k }
{
    let at = ENTRY_LENGTH * k;
    Entry {
        kind: table[at],
        first: table[at + 1],
        second: table[at + 2],
        x: table[at + 3],
        y: table[at + 4],
        z: table[at + 5],
    }
}

// Whether z is low to high.
fn between(low: i32, high: i32, z: i32) -> bool
    ensures { result ≡ Limits.between low high z }
{
    low <= z && z <= high
}

fn is_zero(z: i32) -> bool
    ensures { result ≡ Table.zero? z }
{
    z == 0
}

fn both_zero(y: i32, z: i32) -> bool
    ensures { result ≡ Table.zero? y && Table.zero? z }
{
    is_zero(y) && is_zero(z)
}

// The limits of kinds that name none of x, y and z.
fn no_numbers(e: Entry) -> bool
    ensures { result ≡ Table.no_numbers (entry_of e) }
{
    is_zero(e.x) && both_zero(e.y, e.z)
}

// The limits of group: x is a factor.
fn factor(e: Entry) -> bool
    ensures { result ≡ Table.factor (entry_of e) }
{
    between(1, MILLION, e.x) && both_zero(e.y, e.z)
}

// The limits of shift and renumber: x may be a label.
fn label(e: Entry) -> bool
    ensures { result ≡ Table.label (entry_of e) }
{
    Calendar::in_range(e.x as i64) && both_zero(e.y, e.z)
}

// The limits of alter: of x granules the y-th, by z.
fn altering(e: Entry) -> bool
    ensures { result ≡ Table.altering (entry_of e) }
{
    between(1, MILLION, e.x) && (between(1, e.x, e.y) && between(-MILLION, MILLION, e.z))
}

// The limits of the selections that pick: y granules from position x on.
fn picking(e: Entry) -> bool
    ensures { result ≡ Table.picking (entry_of e) }
{
    !is_zero(e.x) && (between(-MILLION, MILLION, e.x) && (between(1, MILLION, e.y) && is_zero(e.z)))
}

// Whether x, y and z are within the limits of the kind.
fn numbers(kind: usize, e: Entry) -> bool
    ensures { result ≡ (kind_of kind).numbers (entry_of e) }
{
    match kind {
        1 => factor(e),
        2 | 12 => label(e),
        3 => altering(e),
        6 | 8 => picking(e),
        _ => no_numbers(e),
    }
}

// How many operands the kind names.
fn operands(kind: usize) -> u32
    requires { kind < 13 }
    ensures { result ≡ (kind_of kind).operands }
{
    OPERAND_COUNTS[kind]
}

// Whether the operand is one of so many entries before.
fn earlier(operand: i32, before: usize) -> bool
    ensures { result ≡ Table.earlier before operand }
{
    if operand < 0 {
        return false;
    }
    (operand as usize) < before
}

// Whether each operand that the entry names, of so many, is one of the entries before.
fn operands_earlier(count: u32, e: Entry, before: usize) -> bool
    ensures { result ≡ operands_earlier count before (entry_of e) }
{
    (count < 1 || earlier(e.first, before)) && (count < 2 || earlier(e.second, before))
}

// Whether each operand that it does not name is 0.
fn others_zero(count: u32, e: Entry) -> bool
    ensures { result ≡ others_zero count (entry_of e) }
{
    (1 <= count || is_zero(e.first)) && (2 <= count || is_zero(e.second))
}

// An operation over the rows of earlier entries: its kind and its operands. A kind that names fewer than two is given the first one twice.
#[derive(Clone, Copy)]
pub struct Named {
    pub kind: Kind,
    pub first: usize,
    pub second: usize,
}

// Reads the entry behind so many others, by checks 4, 5 and 6.
pub fn read(e: Entry, before: usize) -> Result<Named, Refusal>
    ensures { Reads before (Table.named before (entry_of e)) result }
{
    if !between(0, LAST_KIND, e.kind) {
        return Err(Refusal::UnknownKind);
    }
    let kind = e.kind as usize;
    let count = operands(kind);
    if !operands_earlier(count, e, before) {
        return Err(Refusal::OperandNotEarlier);
    }
    if others_zero(count, e) && numbers(kind, e) {
        Ok(naming::names(e))
    } else {
        Err(Refusal::NumberOutsideLimits)
    }
}

// Checks 1, 2 and 3 of a table for which so many headings and so many cells are lent.
pub fn begin(table: &[i32], headings: usize, pool: usize) -> Result<usize, Refusal>
    ensures { begun_reply result ≡ Table.admitted table.now headings pool }
{
    let entries = table.len() / ENTRY_LENGTH;
    if table.len() % ENTRY_LENGTH != 0 || entries < 1 || entries > ENTRY_LIMIT {
        return Err(Refusal::TableLength);
    }
    if headings < entries {
        return Err(Refusal::TooFewHeadings);
    }
    if pool > POOL_LIMIT {
        return Err(Refusal::PoolTooLong);
    }
    Ok(entries)
}
