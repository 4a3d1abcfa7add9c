ghost use Rattle.std.specs.Prelude.{◌≡◌, ◌↔◌, ℕ, ◌<◌, ◌&&◌, length, slice_get, slice_index_or, Some, IsTrue, true};
ghost use Rattle.register_search.specs.Assignment.{HasAssignment, IsSettled, HasFewGroups, with_choice};
ghost use Rattle.register_search.specs.Table.{holds, leads_all, leads_numbered, AreGroupTables};

use crate::table::Table;
use crate::{Class, Group};

/// The numbers of groups are below this.
const GROUPS: usize = 32;

/// Whether the classes have an assignment.
pub fn has_assignment(classes: &[Class]) -> bool
    requires { HasFewGroups classes.now }
    ensures { IsTrue result ↔ HasAssignment classes.now }
{
    before_exclusive(classes, before_numbered(classes)).holds_empty_set()
}

/// The sets of registers from which the exclusive classes lead to a set of the table.
fn before_exclusive(classes: &[Class], wanted: Table) -> Table
    ensures { (set : ℕ) → set < 128 → holds result set ≡ leads_all Group.Exclusive classes.now (holds wanted) set }
{
    let mut table = wanted;
    for class in classes {
        if let Group::Exclusive = class.group {
            table = table.before(class.choices);
        }
    }
    table
}

/// The sets of registers from which each numbered group can be placed.
fn before_numbered(classes: &[Class]) -> Table
    requires { HasFewGroups classes.now }
    ensures { (set : ℕ) → set < 128 → holds result set ≡ leads_numbered classes.now set }
{
    let mut all = Table::ALL;
    for table in &before_groups(classes) {
        all = all.and(*table);
    }
    all
}

/// For each number the sets of registers from which the classes of that number can be placed.
fn before_groups(classes: &[Class]) -> [Table; GROUPS]
    requires { HasFewGroups classes.now }
    ensures { AreGroupTables classes.now result }
{
    let mut tables = [Table::ALL; GROUPS];
    for class in classes {
        if let Group::Numbered(number) = class.group {
            let number = number as usize;
            tables[number] = tables[number].before(class.choices);
        }
    }
    tables
}
