ghost use Rattle.std.specs.Prelude.{◌≡◌, ℕ, ◌<◌, ◌&&◌, slice_get, Some};
ghost use Rattle.asm_places.specs.Classes.{AreClasses, class_for, untied_class, kind_class, register_class, address_class, number_class, absent, group_for, may_be_in, is_wanted, of_choices};

use crate::goal::Goal;
use crate::operand::{ShapedOperand, has_register, holds_input, is_output, operand_in, takes};
use asm_core::{AltIface, Interface, Kind, Reg, Shape};
use register_search::{CHOICES, Class, Group, PAIR};

/// What takes no register.
const ABSENT: Class = Class {
    group: Group::Absent,
    choices: [false; CHOICES],
};

/// The class of each operand.
pub(crate) fn classes_of(i: &Interface, s: &Shape, goal: &Goal) -> [Class; 30]
    ensures { AreClasses i.now s.now goal.now result }
{
    let mut classes = [ABSENT; 30];
    for k in 0..30 {
        classes[k] = class_for(i, s, goal, k);
    }
    classes
}

fn class_for(i: &Interface, s: &Shape, goal: &Goal, k: usize) -> Class
    requires { k < 30 }
    ensures { result ≡ class_for i.now s.now goal.now k }
{
    let Some(operand) = operand_in(i, s, k) else {
        return ABSENT;
    };
    if operand.allowed.tied.is_some() {
        return ABSENT;
    }
    match operand.kind {
        Kind::Register => register_class(i, s, goal, k, &operand),
        Kind::Memory => address_class(i, k, goal.asked_of(k)),
        Kind::Number => number_class(k, goal.asked_of(k)),
    }
}

fn register_class(i: &Interface, s: &Shape, goal: &Goal, k: usize, operand: &ShapedOperand) -> Class
    requires { k < 30 }
    ensures { result ≡ register_class i.now s.now goal.now k operand.now }
{
    let asked = goal.asked_of(k);
    let may = |choice: usize| may_be_in(i, &operand.allowed, choice) && is_wanted(asked, choice);
    Class {
        group: group_for(
            goal,
            k,
            operand.allowed.early,
            is_output(operand.role),
            holds_input(i, s, k),
        ),
        choices: [
            may(0),
            may(1),
            may(2),
            may(3),
            may(4),
            may(5),
            may(6),
            may(7),
        ],
    }
}

/// Memory that has to use a register has it alone as its address.
fn address_class(i: &Interface, k: usize, asked: Option<Reg>) -> Class
    requires { k < 30 }
    ensures { result ≡ address_class i.now k asked }
{
    let Some(register) = asked else {
        return ABSENT;
    };
    let may = |choice: usize| choice == register.number() && !has_register(i.clobbers, choice);
    let group = Group::Numbered(2 + k as u8);
    Class {
        group,
        choices: [
            may(0),
            may(1),
            may(2),
            may(3),
            may(4),
            may(5),
            may(6),
            may(7),
        ],
    }
}

/// A number uses no register.
fn number_class(k: usize, asked: Option<Reg>) -> Class
    requires { k < 30 }
    ensures { result ≡ number_class k asked }
{
    match asked {
        Some(_) => Class {
            group: Group::Numbered(2 + k as u8),
            choices: [false; CHOICES],
        },
        None => ABSENT,
    }
}

/// Whom a register operand must be apart from.
fn group_for(goal: &Goal, k: usize, early: bool, output: bool, input: bool) -> Group
    requires { k < 30 }
    ensures { result ≡ group_for goal.now k early output input }
{
    match goal {
        _ if early => Group::Exclusive,
        Goal::Room if output && input => Group::Exclusive,
        _ if output => Group::Numbered(0),
        Goal::Room => Group::Numbered(1),
        Goal::Use(_) => Group::Numbered(2 + k as u8),
    }
}

/// Whether the alternative allows the choice, and no clobber forbids it.
fn may_be_in(i: &Interface, allowed: &AltIface, choice: usize) -> bool
    requires { choice < 8 }
    ensures { result ≡ may_be_in i.now allowed.now choice }
{
    if choice == PAIR {
        allowed.pair && !has_register(i.clobbers, 0) && !has_register(i.clobbers, 3)
    } else {
        has_register(allowed.regs, choice) && !has_register(i.clobbers, choice)
    }
}

fn is_wanted(asked: Option<Reg>, choice: usize) -> bool
    ensures { result ≡ is_wanted asked choice }
{
    match asked {
        Some(register) => takes(choice, register),
        None => true,
    }
}
