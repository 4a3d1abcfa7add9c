ghost use Rattle.std.specs.Prelude.{◌≡◌, ◌≢◌, ℕ, ◌<◌, length, slice_get, slice_set, Some, IsTrue, true};
ghost use Rattle.register_search.specs.Assignment.{HasAssignment, IsSettled, HasFewGroups, with_choice, takes_registers};
ghost use Rattle.register_search.specs.Settling.{IsFirstOf, IsTakenByRivals, NeedsBesides};

use crate::search::has_assignment;
use crate::table::registers_of;
use crate::{CHOICES, Class, Group};

/// Leaves each class that takes registers the one choice of the least assignment: the classes in order, each the first choice with which the
/// others still have an assignment.
pub fn settle(classes: &mut [Class])
    requires few { HasFewGroups classes.old }
    requires some { HasAssignment classes.old }
    ensures { IsSettled classes.old classes.new }
{
    let mut k = 0;
    while k < classes.len() {
        if classes[k].takes_registers() {
            settle_class(classes, k);
        }
        k += 1;
    }
}

/// Leaves class k the first choice with which the classes have an assignment.
fn settle_class(classes: &mut [Class], k: usize)
    requires few { HasFewGroups classes.old }
    requires some { HasAssignment classes.old }
    requires inside { k < length classes.old }
    requires takes { (c : Class) → slice_get classes.old k ≡ Some c → takes_registers c.group ≡ true }
    ensures { IsFirstOf classes.old classes.new k }
{
    let class = classes[k];
    let taken = taken_by_rivals(classes, k);
    for choice in 0..CHOICES {
        if !class.choices[choice] {
            continue;
        }
        if registers_of(choice) & taken != 0 {
            continue;
        }
        classes[k] = class.with_choice(choice);
        if has_assignment(classes) {
            return;
        }
    }
}

/// Registers that rivals of class k take in any case, since they have one choice alone.
fn taken_by_rivals(classes: &[Class], k: usize) -> u32
    requires { k < length classes.now }
    ensures { IsTakenByRivals classes.now k result }
{
    let group = classes[k].group;
    let mut taken = 0;
    for i in 0..classes.len() {
        if i != k {
            taken |= needed(&classes[i], group);
        }
    }
    taken
}

/// The registers that the class takes in any case, where it is a rival of the group.
fn needed(class: &Class, group: Group) -> u32
    ensures { NeedsBesides class.now group result }
{
    if !class.group.is_rival(group) {
        return 0;
    }
    match class.only_choice() {
        Some(choice) => registers_of(choice),
        None => 0,
    }
}
