// The civil calendar's table, for a conversion: months are entry 9, years entry 10. Its rows take 332,046 cells.

#![tactic(auto)]

ghost use Rattle.std.specs.Prelude.{◌≡◌};
ghost use Rattle.civil.specs.Table.{civil_table};

// Kind, first, second, x, y and z of each entry.
const TABLE: [i32; 66] = [
    // 0: days
    0, 0, 0, 0, 0, 0,
    // 1: granules of 31 days
    1, 0, 0, 31, 0, 0,
    // 2: February
    3, 0, 1, 12, 2, -3,
    // 3: April
    3, 0, 2, 12, 4, -1,
    // 4: June
    3, 0, 3, 12, 6, -1,
    // 5: September
    3, 0, 4, 12, 9, -1,
    // 6: November
    3, 0, 5, 12, 11, -1,
    // 7: the rule of 4 years
    3, 0, 6, 48, 38, 1,
    // 8: the rule of 100 years
    3, 0, 7, 1200, 1190, -1,
    // 9: the rule of 400 years: months
    3, 0, 8, 4800, 4790, 1,
    // 10: years
    1, 9, 0, 12, 0, 0,
];

// The table.
pub fn table() -> [i32; 66]
    ensures { result ≡ civil_table }
{
    TABLE
}
