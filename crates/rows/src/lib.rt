// Trees as rows of numbers: how they stand in memory is defined in specs/; here is the theorem on how long rows are.
#![tactic(auto)]

ghost use Rattle.rows.specs.Rows.{RowsAreBounded, StoreFitsMemory};

// A row has at most four numbers for each unit of size.
pub fn rows_are_bounded()
    ensures { RowsAreBounded }
{}

// A store within its capacity takes half of the numbers that are lent for each unit of it, and a policy or a request a quarter of those for a call.
pub fn store_fits_memory()
    ensures { StoreFitsMemory }
{}
