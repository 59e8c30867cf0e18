// Whether the normal form in scratch stands for "a bag of records (ship, draught), all numbers". i, c, e and h are places in the form.
#![tactic(auto)]

ghost use Rattle.std.specs.Prelude.{◌≤◌};
ghost use Rattle.base_scratch.specs.Map.{form_words};
ghost use Rattle.answer_ships.specs.Contract.{BranchPost, TruthPost, NumberPost, FieldsPost, ShipPost, ShipsPost};

use answer_types::{CollectionKind, ValueType, shape_at};
use answer_writer::WriteForm;
use base_syntax::Fun;
use form_arith::Sort;
use form_words::{FormNode, branch, look, next};

// "(ship, draught)"
const SHIP_FIELDS: usize = 2;

// Where the first branch of the choices at i stands that is no choice; i where none stands there.
fn first_branch(s: &[u64], i: usize) -> usize
    ensures { BranchPost s.now i result }
{
    let mut j = i;
    loop {
        let FormNode::Operator(f, e) = look(s, j) else {
            return j;
        };
        let Fun::Choice = f else {
            return j;
        };
        j = branch(s, j + 1, e, false);
    }
}

// Whether the type at place i is a truth's.
fn is_truth(s: &[u64], i: usize) -> bool
    ensures { TruthPost s.now i result }
{
    let WriteForm::Word(k) = answer_writer::shape_at(s, first_branch(s, i)) else {
        return false;
    };
    k != Sort::Number
}

fn is_number(s: &[u64], i: usize) -> bool
    ensures { NumberPost s.now i result }
{
    let ValueType::Word = shape_at(s, i) else {
        return false;
    };
    !is_truth(s, i)
}

// Whether fields, their types from place c to e, are two numbers.
fn two_numbers(s: &[u64], c: usize, e: usize) -> bool
    requires { e ≤ form_words }
    ensures { FieldsPost s.now c e result }
{
    let d = next(s, c);
    if e <= d {
        return false;
    }
    if next(s, d) < e {
        return false;
    }
    if is_number(s, c) {
        return is_number(s, d);
    }
    false
}

fn is_ship(s: &[u64], h: usize) -> bool
    ensures { ShipPost s.now h result }
{
    match shape_at(s, h) {
        ValueType::Word => false,
        ValueType::Words(n) => n == SHIP_FIELDS,
        ValueType::Fields(e) => two_numbers(s, h + 1, e),
        ValueType::Elements(_, _) => false,
    }
}

// Not "a question of another type", which is 45.
pub fn gives_ships(s: &[u64]) -> bool
    ensures { ShipsPost s.now result }
{
    let ValueType::Elements(k, h) = shape_at(s, 0) else {
        return false;
    };
    match k {
        CollectionKind::List => false,
        CollectionKind::Bag => is_ship(s, h),
        CollectionKind::Set => false,
    }
}
