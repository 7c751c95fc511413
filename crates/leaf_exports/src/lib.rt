// Test exports of the leaves, for the comparison with the second program. They are no part of the product's interface.
// Kept, in this crate: the C interface hands numbers for cases, slices and places, and takes numbers for cases.
#![tactic(auto)]

ghost use Rattle.std.specs.Prelude.{◌≡◌, length, is_none};
ghost use Rattle.wire.specs.Words.{word_at, long_at, signed};
ghost use Rattle.leaf_exports.specs.Exports.{operator_of, text_type_of, search_of, operation_version, operation, ComputedInto, error_number, sign_of, start_of, end_of};
ghost use Rattle.decimal.specs.Number.{compared};
ghost use Rattle.text.specs.Value.{text_part, bytes_of};
ghost use Rattle.text.specs.Tests.{text_order, search};

pub mod house;

use decimal::{ArithmeticError, Computed, Number};
use std::cmp::Ordering;
use wire::codes::{Operator, TextSearch, TextType, Version};

// The numbers of operations: add, subtract, multiply, divide and negate are 0 to 4.
const ADD: u8 = 0;

const SUBTRACT: u8 = 1;

const MULTIPLY: u8 = 2;

const NEGATE: u8 = 4;

const RESCALE: u8 = 5;

// The divide of version 5.
const DIVIDE5: u8 = 6;

// Text, varying and cstring are 0, 1 and any other number.
const TEXT: u8 = 0;

const VARYING: u8 = 1;

// Containing, matching and starting are 0, 1 and any other number.
const CONTAINING: u8 = 0;

const MATCHING: u8 = 1;

// Refusals.
const OVERFLOW: u32 = 24;

const ZERO_DIVISOR: u32 = 25;

#[tactic(auto, unfolding(crate::specs::Exports::operator_of))]
fn operator_of(o: u8) -> Operator
    ensures { result ≡ operator_of o }
{
    match o {
        ADD => Operator::Add,
        SUBTRACT => Operator::Subtract,
        MULTIPLY => Operator::Multiply,
        _ => Operator::Divide,
    }
}

// Version 5 for its divide, version 4 for every other operation.
#[tactic(auto, unfolding(crate::specs::Exports::operation_version))]
fn version_of(o: u8) -> Version
    ensures { result ≡ operation_version o }
{
    if o == DIVIDE5 {
        Version::Version5
    } else {
        Version::Version4
    }
}

// Any other number above negate's brings the first to the scale of the second. There is one call of `compute`, so that it is laid in here.
// The numbers come by their parts, as the exports have them: a struct would go through memory.
#[tactic(auto, unfolding(crate::specs::Exports::operation))]
fn operate(o: u8, a: i64, a_scale: i8, b: i64, b_scale: i8) -> Computed
    ensures { result ≡ operation o (record { value = a; scale = a_scale }) (record { value = b; scale = b_scale }) }
{
    let first = Number {
        value: a,
        scale: a_scale,
    };
    let second = Number {
        value: b,
        scale: b_scale,
    };
    if o == NEGATE {
        return decimal::negate(first);
    }
    if o == RESCALE {
        return decimal::rescale(first, b_scale);
    }
    if DIVIDE5 < o {
        return decimal::rescale(first, b_scale);
    }
    decimal::compute(version_of(o), operator_of(o), first, second)
}

fn error_number(error: ArithmeticError) -> u32
    ensures { result ≡ error_number error }
{
    match error {
        ArithmeticError::Overflow => OVERFLOW,
        ArithmeticError::ZeroDivisor => ZERO_DIVISOR,
    }
}

// 0, or refusal 24 or 25; value and scale of the result are left in the answer, zeros where there is none.
#[unsafe(no_mangle)]
pub extern "C" fn leaf_compute(
    o: u8,
    a: i64,
    a_scale: i8,
    b: i64,
    b_scale: i8,
    answer: &mut [i64; 2],
) -> u32
    ensures { ComputedInto (operation o (record { value = a; scale = a_scale }) (record { value = b; scale = b_scale })) answer.new result }
{
    match operate(o, a, a_scale, b, b_scale) {
        Ok(n) => {
            *answer = [n.value, n.scale as i64];
            0
        }
        Err(error) => {
            *answer = [0, 0];
            error_number(error)
        }
    }
}

fn sign_of(o: Ordering) -> i64
    ensures { result ≡ sign_of o }
{
    match o {
        Ordering::Less => -1,
        Ordering::Equal => 0,
        Ordering::Greater => 1,
    }
}

// -1, 0 or 1, as the first number is less than, equal to or greater than the second.
#[unsafe(no_mangle)]
pub extern "C" fn leaf_compare(a: i64, a_scale: i8, b: i64, b_scale: i8) -> i64
    ensures { result ≡ sign_of (compared (record { value = a; scale = a_scale }) (record { value = b; scale = b_scale })) }
{
    sign_of(decimal::compare(
        Number {
            value: a,
            scale: a_scale,
        },
        Number {
            value: b,
            scale: b_scale,
        },
    ))
}

#[tactic(auto, unfolding(crate::specs::Exports::text_type_of))]
fn text_type_of(t: u8) -> TextType
    ensures { result ≡ text_type_of t }
{
    match t {
        TEXT => TextType::Text,
        VARYING => TextType::Varying,
        _ => TextType::Cstring,
    }
}

#[unsafe(no_mangle)]
pub extern "C" fn leaf_text_malformed(t: u8, s: &[u8]) -> bool
    ensures { result ≡ is_none (text_part (text_type_of t) s.now) }
{
    text::value::text_part(text_type_of(t), s).is_none()
}

// Where a text starts; 0 of a malformed one.
#[unsafe(no_mangle)]
pub extern "C" fn leaf_text_start(t: u8, s: &[u8]) -> usize
    ensures { result ≡ start_of (text_part (text_type_of t) s.now) }
{
    match text::value::text_part(text_type_of(t), s) {
        Some((start, _)) => start,
        None => 0,
    }
}

// Where a text ends; 0 of a malformed one.
#[unsafe(no_mangle)]
pub extern "C" fn leaf_text_end(t: u8, s: &[u8]) -> usize
    ensures { result ≡ end_of (text_part (text_type_of t) s.now) }
{
    match text::value::text_part(text_type_of(t), s) {
        Some((_, end)) => end,
        None => 0,
    }
}

// How long the part is that the text reader returns.
#[unsafe(no_mangle)]
pub extern "C" fn leaf_text_length(t: u8, s: &[u8]) -> usize
    ensures { result ≡ length (bytes_of s.now (text_part (text_type_of t) s.now)) }
{
    text::value::text_of(text_type_of(t), s).len()
}

// -1, 0 or 1, as the first text stands before the second, beside it or after it.
#[unsafe(no_mangle)]
pub extern "C" fn leaf_text_compare(a: &[u8], b: &[u8]) -> i64
    ensures { result ≡ sign_of (text_order a.now b.now) }
{
    sign_of(text::order::compare(a, b))
}

#[tactic(auto, unfolding(crate::specs::Exports::search_of))]
fn search_of(t: u8) -> TextSearch
    ensures { result ≡ search_of t }
{
    match t {
        CONTAINING => TextSearch::Containing,
        MATCHING => TextSearch::Matching,
        _ => TextSearch::Starting,
    }
}

#[unsafe(no_mangle)]
pub extern "C" fn leaf_search(t: u8, a: &[u8], b: &[u8]) -> bool
    ensures { result ≡ search (search_of t) a.now b.now }
{
    text::search::searched(search_of(t), a, b)
}

#[unsafe(no_mangle)]
pub extern "C" fn leaf_word(s: &[u8], at: usize) -> u32
    ensures { result ≡ word_at s.now at }
{
    wire::bytes::word_at(s, at)
}

#[unsafe(no_mangle)]
pub extern "C" fn leaf_long(s: &[u8], at: usize) -> u32
    ensures { result ≡ long_at s.now at }
{
    wire::bytes::long_at(s, at)
}

#[unsafe(no_mangle)]
pub extern "C" fn leaf_signed_word(s: &[u8], at: usize) -> i64
    ensures { result ≡ signed 2 (word_at s.now at) }
{
    wire::bytes::signed_word_at(s, at)
}

#[unsafe(no_mangle)]
pub extern "C" fn leaf_signed_long(s: &[u8], at: usize) -> i64
    ensures { result ≡ signed 4 (long_at s.now at) }
{
    wire::bytes::signed_long_at(s, at)
}
