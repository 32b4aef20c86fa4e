// What may stand inside an element, read from left to right (document 01, "Elements").
// How far an element is read is a number: up to `MOST_PARAMETERS`, the parameters from that place of its row on may still come; at `AFTER_ID` or `AFTER_TYPE`,
// one of `id?/type?` has come, and the other may; from `HOLDING` on it holds children, the first of the significance that is added to that.
// State, kind and class stay numbers: `step` and `may_end` are public, and `InNumbers` and `state_of` of specs/Machine.antt, which they promise, are of numbers.
ghost use Rattle.std.specs.Prelude.{◌-◌, ◌≤◌, ◌≡◌, Some, None, cond, not, true, ◌&&◌, [], ◌∷◌, eqb, drop};
ghost use Rattle.base.specs.rules.Numbers as Number;
ghost use Rattle.elements.specs.rules.Class as Class;
ghost use Rattle.elements.specs.rules.Rules.{may, alternatives_of, rule_of};
ghost use Rattle.elements.specs.rules.Inside.{allows, ended, first_child_step, is_include, next_child_step, next_parameter, none_required, step as stepped};
ghost use Rattle.base.specs.Refusals.{number};
ghost use Rattle.inside.specs.Machine.{fault_number, state_number, after_id, after_type, holds_from, alternative_of, state_of, with_child, after_place, after_last, next_state, InNumbers};
ghost use Rattle.inside.specs.internal.Table.{begins_required};

use super::rows::{MOST_PARAMETERS, Parameter, allowed, parameter_at};
use base::Refusal;
use kind::{Keyword, Kind};

// The states after one of `id?/type?`, and the first of an element that holds children.
const AFTER_ID: u8 = MOST_PARAMETERS + 1;

const AFTER_TYPE: u8 = MOST_PARAMETERS + 2;

const HOLDING: u8 = MOST_PARAMETERS + 3;

const ID: u8 = Keyword::ID.number;

const TYPE: u8 = Keyword::TYPE.number;

#[tactic(auto, using(std::proofs::lemmas::Bool::Decides::nat_tests), unfolding(elements::specs::rules::Inside::is_include))]
fn is_include(class: u8) -> bool
    ensures { result ≡ is_include class }
{
    class == Keyword::INCLUDE.number || class == Keyword::IMPORT.number
}

// The fault of a class that may not stand in a kind: include and import may stand in none.
fn refused(class: u8) -> Refusal
    ensures { number result ≡ cond (is_include class) Number.include Number.not_allowed }
{
    if is_include(class) {
        return Refusal::Include;
    }
    Refusal::NotAllowed
}

fn first_child(kind: u8, class: u8) -> Result<u8, Refusal>
    ensures { InNumbers kind (first_child_step (rule_of kind).content class) (with_child class) (fault_number result) (state_number result) }
{
    if !allowed(kind, class) {
        return Err(refused(class));
    }
    let child = Kind { number: class };
    Ok(HOLDING + child.significance())
}

// A further child; a verbatim has one only.
fn next_child(kind: u8, state: u8, class: u8) -> Result<u8, Refusal>
    requires { holds_from ≤ state }
    ensures { InNumbers kind (next_child_step (rule_of kind).content (alternative_of (state - holds_from) (alternatives_of (rule_of kind).content)) class) state (fault_number result) (state_number result) }
{
    if !allowed(kind, class) {
        return Err(refused(class));
    }
    if kind == Kind::VERBATIM.number {
        return Err(Refusal::NotAllowed);
    }
    let child = Kind { number: class };
    let sort = child.significance();
    if sort != state - HOLDING {
        return Err(Refusal::OtherSort);
    }
    Ok(state)
}

// The state after one of `id?/type?`, if the class is one of them.
fn id_type(class: u8) -> Option<u8>
    ensures { result ≡ cond (eqb class Class.id) (Some after_id) (cond (eqb class Class.type) (Some after_type) None) }
{
    match class {
        ID => Some(AFTER_ID),
        TYPE => Some(AFTER_TYPE),
        _ => None,
    }
}

// The one of `id?/type?` that may still come, or the first child.
fn last_parameter(kind: u8, parameter: u8, class: u8) -> Result<u8, Refusal>
    ensures { InNumbers kind (next_parameter (may parameter ∷ []) (rule_of kind).content class) (after_last parameter class) (fault_number result) (state_number result) }
{
    if class == parameter {
        return Ok(MOST_PARAMETERS);
    }
    first_child(kind, class)
}

// The expression is the next parameter, or an optional one is passed over, or a required one is absent, or it is the first child.
fn next_parameter(kind: u8, state: u8, class: u8) -> Result<u8, Refusal>
    ensures { InNumbers kind (next_parameter (drop state (rule_of kind).parameters) (rule_of kind).content class)
        (after_place state (drop state (rule_of kind).parameters) class) (fault_number result) (state_number result) }
{
    for place in state..MOST_PARAMETERS {
        match parameter_at(kind, place) {
            None => return first_child(kind, class),
            Some(Parameter::Required(required)) => {
                if class != required {
                    return Err(Refusal::Absent);
                }
                return Ok(place + 1);
            }
            Some(Parameter::Optional(optional)) => {
                if class == optional {
                    return Ok(place + 1);
                }
            }
            Some(Parameter::IdType) => {
                return match id_type(class) {
                    Some(next) => Ok(next),
                    None => first_child(kind, class),
                };
            }
        }
    }
    first_child(kind, class)
}

// Whether no parameter from a place on is required.
fn none_required(kind: u8, state: u8) -> bool
    ensures { result ≡ none_required (drop state (rule_of kind).parameters) }
{
    for place in state..MOST_PARAMETERS {
        match parameter_at(kind, place) {
            None => return true,
            Some(parameter) if parameter.is_required() => return false,
            Some(_) => {}
        }
    }
    true
}

// Whether the first parameter of a kind is required.
fn first_required(kind: u8) -> bool
    ensures { result ≡ begins_required (rule_of kind).parameters }
{
    match parameter_at(kind, 0) {
        Some(parameter) => parameter.is_required(),
        None => false,
    }
}

// Whether a child of a class may stand first in a kind.
fn takes_first(kind: u8, class: u8) -> bool
    ensures { result ≡ not (begins_required (rule_of kind).parameters) && allows (rule_of kind).content class }
{
    !first_required(kind) && allowed(kind, class)
}

// Whether a class is that of a child without significance, as most are, which is taken: it may stand in the kind, and no required parameter is still to come.
// Where this says no, nothing is said.
fn takes(kind: u8, state: u8, class: u8) -> bool
    ensures { result ≡ true → InNumbers kind (stepped kind (state_of kind state) class) (next_state kind state class) 0 holds_from }
{
    if class <= Kind::SUBSECTION.number {
        return false;
    }
    if ID <= class {
        return false;
    }
    if HOLDING < state {
        return false;
    }
    if kind == Kind::VERBATIM.number {
        return false;
    }
    if state == 0 {
        return takes_first(kind, class);
    }
    allowed(kind, class)
}

// Any expression, by the state.
fn step_by_rows(kind: u8, state: u8, class: u8) -> Result<u8, Refusal>
    ensures { InNumbers kind (stepped kind (state_of kind state) class) (next_state kind state class) (fault_number result) (state_number result) }
{
    if state < AFTER_ID {
        return next_parameter(kind, state, class);
    }
    if HOLDING <= state {
        return next_child(kind, state, class);
    }
    if state == AFTER_ID {
        return last_parameter(kind, TYPE, class);
    }
    last_parameter(kind, ID, class)
}

// An expression of a class in an element of a kind that has been read so far to a state. An element begins in the state 0.
pub fn step(kind: u8, state: u8, class: u8) -> Result<u8, Refusal>
    ensures { InNumbers kind (stepped kind (state_of kind state) class) (next_state kind state class) (fault_number result) (state_number result) }
{
    if takes(kind, state, class) {
        return Ok(HOLDING);
    }
    step_by_rows(kind, state, class)
}

// Whether an element may end in a state.
pub fn may_end(kind: u8, state: u8) -> bool
    ensures { result ≡ ended kind (state_of kind state) }
{
    if HOLDING <= state {
        return true;
    }
    if AFTER_ID <= state {
        return kind != Kind::VERBATIM.number;
    }
    if !none_required(kind, state) {
        return false;
    }
    kind != Kind::VERBATIM.number
}
