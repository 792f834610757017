//! The arguments of commands, by their kinds.

ghost use Rattle.std.specs.Prelude.{◌≡◌, map, Ok};
ghost use Rattle.board_lines.specs.Table.{nothing, object, range, names, number, name, operation};
ghost use Rattle.board_lines.specs.Arguments.{no_more, the_object, the_range, the_names, a_number, a_name, an_operation, number_then, number_arg, name_arg, operation_arg, one_arg, pair_arg, object_arg, range_arg, names_arg, is_counted, arguments_of, read_as};
ghost use Rattle.board_lines.specs.Reading.{Says, SaysAs};

use crate::command::{LineFault, ReadFault};
use rbac_core::{Names, Object, ObjectRange, Operation};
use separation_core::Name;
use std::alloc::Global;
use text_words::number_of;

// ---- one word

#[inline(always)]
pub(crate) fn number_argument(word: &[u8]) -> Result<u32, LineFault>
    ensures { result ≡ number_arg word.now }
{
    number_of(word).ok_or(LineFault::Number)
}

fn name_argument(word: &[u8]) -> Result<Name, LineFault>
    ensures { result ≡ name_arg word.now }
{
    Name::new(word).ok_or(LineFault::Name)
}

#[inline(always)]
fn operation_argument(word: &[u8]) -> Result<Operation, LineFault>
    ensures { result ≡ operation_arg word.now }
{
    if word == b"view".as_slice() {
        Ok(Operation::View)
    } else if word == b"move".as_slice() {
        Ok(Operation::Move)
    } else if word == b"pin".as_slice() {
        Ok(Operation::Pin)
    } else if word == b"freeze".as_slice() {
        Ok(Operation::Freeze)
    } else if word == b"admin".as_slice() {
        Ok(Operation::Admin)
    } else if word == b"audit".as_slice() {
        Ok(Operation::Audit)
    } else if word == b"override".as_slice() {
        Ok(Operation::Override)
    } else {
        Err(LineFault::Op)
    }
}

// ---- several numbers

#[tactic(auto, unfolding(crate::specs::Arguments::number_then))]
#[inline(always)]
fn numbers_of_two(first: &[u8], second: &[u8]) -> Result<(u32, u32), LineFault>
    ensures { read_as (λ a. a_number a.0 (a_number a.1 no_more)) result ≡ number_then first.now (number_then second.now (Ok no_more)) }
{
    let first = number_argument(first)?;
    let second = number_argument(second)?;
    Ok((first, second))
}

#[tactic(auto, unfolding(crate::specs::Arguments::number_then))]
#[inline(always)]
fn numbers_of_three(first: &[u8], second: &[u8], third: &[u8]) -> Result<(u32, u32, u32), LineFault>
    ensures { read_as (λ a. a_number a.0 (a_number a.1 (a_number a.2 no_more))) result
        ≡ number_then first.now (number_then second.now (number_then third.now (Ok no_more))) }
{
    let first = number_argument(first)?;
    let (second, third) = numbers_of_two(second, third)?;
    Ok((first, second, third))
}

#[tactic(auto, unfolding(crate::specs::Arguments::number_then))]
#[inline(always)]
fn numbers_of_four(
    first: &[u8],
    second: &[u8],
    third: &[u8],
    fourth: &[u8],
) -> Result<(u32, u32, u32, u32), LineFault>
    ensures { read_as (λ a. a_number a.0 (a_number a.1 (a_number a.2 (a_number a.3 no_more)))) result
        ≡ number_then first.now (number_then second.now (number_then third.now (number_then fourth.now (Ok no_more)))) }
{
    let first = number_argument(first)?;
    let (second, third, fourth) = numbers_of_three(second, third, fourth)?;
    Ok((first, second, third, fourth))
}

#[tactic(auto, unfolding(crate::specs::Arguments::number_then))]
#[inline(always)]
fn numbers_of_five(
    first: &[u8],
    second: &[u8],
    third: &[u8],
    fourth: &[u8],
    fifth: &[u8],
) -> Result<(u32, u32, u32, u32, u32), LineFault>
    ensures { read_as (λ a. a_number a.0 (a_number a.1 (a_number a.2 (a_number a.3 (a_number a.4 no_more))))) result ≡ number_then first.now
        (number_then second.now (number_then third.now (number_then fourth.now (number_then fifth.now (Ok no_more))))) }
{
    let first = number_argument(first)?;
    let (second, third, fourth, fifth) = numbers_of_four(second, third, fourth, fifth)?;
    Ok((first, second, third, fourth, fifth))
}

#[tactic(auto, unfolding(crate::specs::Arguments::number_then))]
#[inline(always)]
fn numbers_of_six(
    first: &[u8],
    second: &[u8],
    third: &[u8],
    fourth: &[u8],
    fifth: &[u8],
    sixth: &[u8],
) -> Result<(u32, u32, u32, u32, u32, u32), LineFault>
    ensures { read_as (λ a. a_number a.0 (a_number a.1 (a_number a.2 (a_number a.3 (a_number a.4 (a_number a.5 no_more)))))) result
        ≡ number_then first.now (number_then second.now
        (number_then third.now (number_then fourth.now (number_then fifth.now (number_then sixth.now (Ok no_more)))))) }
{
    let first = number_argument(first)?;
    let (second, third, fourth, fifth, sixth) = numbers_of_five(
        second, third, fourth, fifth, sixth,
    )?;
    Ok((first, second, third, fourth, fifth, sixth))
}

// ---- the last words

/// Whether the right number of words follows the kind of an object: none after `board`, and `each` after `vehicle` and `customer`. The
/// words after another kind are not counted.
#[inline(always)]
fn is_counted(each: usize, kind: &[u8], numbers: &[&[u8]]) -> bool
    ensures { result ≡ is_counted each kind.now (map (λ w. w.now) numbers.now) }
{
    if kind == b"board".as_slice() {
        numbers.is_empty()
    } else if kind == b"vehicle".as_slice() || kind == b"customer".as_slice() {
        numbers.len() == each
    } else {
        true
    }
}

#[inline(always)]
fn one_argument(numbers: &[&[u8]]) -> Result<u32, LineFault>
    ensures { result ≡ one_arg (map (λ w. w.now) numbers.now) }
{
    let [word] = numbers else {
        return Err(LineFault::Count);
    };
    number_argument(word)
}

fn pair_argument(numbers: &[&[u8]]) -> Result<(u32, u32), LineFault>
    ensures { result ≡ pair_arg (map (λ w. w.now) numbers.now) }
{
    let [first, last] = numbers else {
        return Err(LineFault::Count);
    };
    let first = number_argument(first)?;
    let last = number_argument(last)?;
    Ok((first, last))
}

#[inline(always)]
fn object_argument(kind: &[u8], numbers: &[&[u8]]) -> Result<Object, LineFault>
    ensures { result ≡ object_arg kind.now (map (λ w. w.now) numbers.now) }
{
    if kind == b"board".as_slice() {
        Ok(Object::Board)
    } else if kind == b"vehicle".as_slice() {
        Ok(Object::Vehicle(one_argument(numbers)?))
    } else if kind == b"customer".as_slice() {
        Ok(Object::Customer(one_argument(numbers)?))
    } else {
        Err(LineFault::Object)
    }
}

fn range_argument(kind: &[u8], numbers: &[&[u8]]) -> Result<ObjectRange, LineFault>
    ensures { result ≡ range_arg kind.now (map (λ w. w.now) numbers.now) }
{
    if kind == b"board".as_slice() {
        Ok(ObjectRange::Board)
    } else if kind == b"vehicle".as_slice() {
        let (first, last) = pair_argument(numbers)?;
        Ok(ObjectRange::Vehicles { first, last })
    } else if kind == b"customer".as_slice() {
        let (first, last) = pair_argument(numbers)?;
        Ok(ObjectRange::Customers { first, last })
    } else {
        Err(LineFault::Object)
    }
}

fn names_argument(alloc: Global, words: &[&[u8]]) -> Result<Names, ReadFault>
    ensures { Says result (names_arg (map (λ w. w.now) words.now)) }
{
    let mut list = Vec::new(alloc);
    for word in words {
        let Some(name) = Name::new(word) else {
            return Err(ReadFault::Line(LineFault::Name));
        };
        list.push(name)?;
    }
    Ok(Names::of(list))
}

// ---- all arguments of a command

#[tactic(auto, unfolding(crate::specs::Arguments::arguments_of))]
pub(crate) fn no_arguments(arguments: &[&[u8]]) -> Result<(), LineFault>
    ensures { read_as (λ _. no_more) result ≡ arguments_of nothing (map (λ w. w.now) arguments.now) }
{
    match arguments {
        [] => Ok(()),
        _ => Err(LineFault::Count),
    }
}

#[tactic(auto, unfolding(crate::specs::Arguments::arguments_of, crate::specs::Arguments::number_then))]
#[inline(always)]
pub(crate) fn one_number(arguments: &[&[u8]]) -> Result<u32, LineFault>
    ensures { read_as (λ a. a_number a no_more) result ≡ arguments_of (number nothing) (map (λ w. w.now) arguments.now) }
{
    let [first] = arguments else {
        return Err(LineFault::Count);
    };
    number_argument(first)
}

#[tactic(auto, unfolding(crate::specs::Arguments::arguments_of))]
pub(crate) fn two_numbers(arguments: &[&[u8]]) -> Result<(u32, u32), LineFault>
    ensures { read_as (λ a. a_number a.0 (a_number a.1 no_more)) result
        ≡ arguments_of (number (number nothing)) (map (λ w. w.now) arguments.now) }
{
    let [first, second] = arguments else {
        return Err(LineFault::Count);
    };
    numbers_of_two(first, second)
}

#[tactic(auto, unfolding(crate::specs::Arguments::arguments_of))]
pub(crate) fn three_numbers(arguments: &[&[u8]]) -> Result<(u32, u32, u32), LineFault>
    ensures { read_as (λ a. a_number a.0 (a_number a.1 (a_number a.2 no_more))) result
        ≡ arguments_of (number (number (number nothing))) (map (λ w. w.now) arguments.now) }
{
    let [first, second, third] = arguments else {
        return Err(LineFault::Count);
    };
    numbers_of_three(first, second, third)
}

#[tactic(auto, unfolding(crate::specs::Arguments::arguments_of))]
#[inline(always)]
pub(crate) fn four_numbers(arguments: &[&[u8]]) -> Result<(u32, u32, u32, u32), LineFault>
    ensures { read_as (λ a. a_number a.0 (a_number a.1 (a_number a.2 (a_number a.3 no_more)))) result
        ≡ arguments_of (number (number (number (number nothing)))) (map (λ w. w.now) arguments.now) }
{
    let [first, second, third, fourth] = arguments else {
        return Err(LineFault::Count);
    };
    numbers_of_four(first, second, third, fourth)
}

#[tactic(auto, unfolding(crate::specs::Arguments::arguments_of))]
#[inline(always)]
pub(crate) fn five_numbers(arguments: &[&[u8]]) -> Result<(u32, u32, u32, u32, u32), LineFault>
    ensures { read_as (λ a. a_number a.0 (a_number a.1 (a_number a.2 (a_number a.3 (a_number a.4 no_more))))) result
        ≡ arguments_of (number (number (number (number (number nothing))))) (map (λ w. w.now) arguments.now) }
{
    let [first, second, third, fourth, fifth] = arguments else {
        return Err(LineFault::Count);
    };
    numbers_of_five(first, second, third, fourth, fifth)
}

#[tactic(auto, unfolding(crate::specs::Arguments::arguments_of))]
#[inline(always)]
pub(crate) fn six_numbers(arguments: &[&[u8]]) -> Result<(u32, u32, u32, u32, u32, u32), LineFault>
    ensures { read_as (λ a. a_number a.0 (a_number a.1 (a_number a.2 (a_number a.3 (a_number a.4 (a_number a.5 no_more)))))) result
        ≡ arguments_of (number (number (number (number (number (number nothing)))))) (map (λ w. w.now) arguments.now) }
{
    let [first, second, third, fourth, fifth, sixth] = arguments else {
        return Err(LineFault::Count);
    };
    numbers_of_six(first, second, third, fourth, fifth, sixth)
}

#[tactic(auto, unfolding(crate::specs::Arguments::arguments_of))]
pub(crate) fn one_name(arguments: &[&[u8]]) -> Result<Name, LineFault>
    ensures { read_as (λ a. a_name a no_more) result ≡ arguments_of (name nothing) (map (λ w. w.now) arguments.now) }
{
    let [first] = arguments else {
        return Err(LineFault::Count);
    };
    name_argument(first)
}

#[tactic(auto, unfolding(crate::specs::Arguments::arguments_of))]
pub(crate) fn two_names(arguments: &[&[u8]]) -> Result<(Name, Name), LineFault>
    ensures { read_as (λ a. a_name a.0 (a_name a.1 no_more)) result ≡ arguments_of (name (name nothing)) (map (λ w. w.now) arguments.now) }
{
    let [first, second] = arguments else {
        return Err(LineFault::Count);
    };
    let first = name_argument(first)?;
    let second = name_argument(second)?;
    Ok((first, second))
}

#[tactic(auto, unfolding(crate::specs::Arguments::arguments_of, crate::specs::Arguments::number_then))]
pub(crate) fn name_and_number(arguments: &[&[u8]]) -> Result<(Name, u32), LineFault>
    ensures { read_as (λ a. a_name a.0 (a_number a.1 no_more)) result
        ≡ arguments_of (name (number nothing)) (map (λ w. w.now) arguments.now) }
{
    let [first, second] = arguments else {
        return Err(LineFault::Count);
    };
    let first = name_argument(first)?;
    let second = number_argument(second)?;
    Ok((first, second))
}

#[tactic(auto, unfolding(crate::specs::Arguments::arguments_of, crate::specs::Arguments::number_then))]
pub(crate) fn number_and_name(arguments: &[&[u8]]) -> Result<(u32, Name), LineFault>
    ensures { read_as (λ a. a_number a.0 (a_name a.1 no_more)) result
        ≡ arguments_of (number (name nothing)) (map (λ w. w.now) arguments.now) }
{
    let [first, second] = arguments else {
        return Err(LineFault::Count);
    };
    let first = number_argument(first)?;
    let second = name_argument(second)?;
    Ok((first, second))
}

/// A role, an operation and the objects to which it may be done.
#[tactic(auto, unfolding(crate::specs::Arguments::arguments_of))]
pub(crate) fn permission(arguments: &[&[u8]]) -> Result<(Name, Operation, ObjectRange), LineFault>
    ensures { read_as (λ a. a_name a.0 (an_operation a.1 (the_range a.2))) result
        ≡ arguments_of (name (operation range)) (map (λ w. w.now) arguments.now) }
{
    let [role, operation, kind, numbers @ ..] = arguments else {
        return Err(LineFault::Count);
    };
    if !is_counted(2, kind, numbers) {
        return Err(LineFault::Count);
    }
    let role = name_argument(role)?;
    let operation = operation_argument(operation)?;
    let range = range_argument(kind, numbers)?;
    Ok((role, operation, range))
}

/// An operation and the object to which it would be done.
#[tactic(auto, unfolding(crate::specs::Arguments::arguments_of))]
#[inline(always)]
pub(crate) fn access(arguments: &[&[u8]]) -> Result<(Operation, Object), LineFault>
    ensures { read_as (λ a. an_operation a.0 (the_object a.1)) result
        ≡ arguments_of (operation object) (map (λ w. w.now) arguments.now) }
{
    let [operation, kind, numbers @ ..] = arguments else {
        return Err(LineFault::Count);
    };
    if !is_counted(1, kind, numbers) {
        return Err(LineFault::Count);
    }
    let operation = operation_argument(operation)?;
    let object = object_argument(kind, numbers)?;
    Ok((operation, object))
}

/// A user and roles.
#[tactic(auto, unfolding(crate::specs::Arguments::arguments_of))]
pub(crate) fn name_and_names(alloc: Global, arguments: &[&[u8]]) -> Result<(Name, Names), ReadFault>
    ensures { SaysAs (λ a. a_name a.0 (the_names a.1)) result (arguments_of (name names) (map (λ w. w.now) arguments.now)) }
{
    let [first, rest @ ..] = arguments else {
        return Err(ReadFault::Line(LineFault::Count));
    };
    let first = name_argument(first)?;
    let rest = names_argument(alloc, rest)?;
    Ok((first, rest))
}

/// A set's name, its number and its roles.
#[tactic(auto, unfolding(crate::specs::Arguments::arguments_of, crate::specs::Arguments::number_then))]
pub(crate) fn name_number_and_names(
    alloc: Global,
    arguments: &[&[u8]],
) -> Result<(Name, u32, Names), ReadFault>
    ensures { SaysAs (λ a. a_name a.0 (a_number a.1 (the_names a.2))) result
        (arguments_of (name (number names)) (map (λ w. w.now) arguments.now)) }
{
    let [first, second, rest @ ..] = arguments else {
        return Err(ReadFault::Line(LineFault::Count));
    };
    let first = name_argument(first)?;
    let second = number_argument(second)?;
    let rest = names_argument(alloc, rest)?;
    Ok((first, second, rest))
}
