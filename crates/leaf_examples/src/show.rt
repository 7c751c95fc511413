// Lines of text for what the leaves answer. Kept, in this file: `io` prints numbers without a sign only, and no heap or runtime is at hand
// for a Display.
use decimal::{ArithmeticError, Number};
use std::cmp::Ordering;
use wire::codes::{Operator, TextSearch, TextType, Version};

// Standard output.
const OUTPUT: i32 = 1;

// The hex digits of a byte.
const BYTE_DIGITS: usize = 2;

fn print(s: &[u8]) {
    io::write_all(OUTPUT, s);
}

fn signed(n: i64) {
    if n < 0 {
        print(b"-");
    }
    io::print_decimal(OUTPUT, n.unsigned_abs());
}

fn number(n: Number) {
    signed(n.value);
    print(b" scale ");
    signed(n.scale as i64);
}

fn sign(o: Operator) {
    match o {
        Operator::Add => print(b" + "),
        Operator::Subtract => print(b" - "),
        Operator::Multiply => print(b" * "),
        Operator::Divide => print(b" / "),
    }
}

pub(crate) fn operation(o: Operator, a: Number, b: Number) {
    number(a);
    sign(o);
    number(b);
    print(b" = ");
    match decimal::compute(Version::Version4, o, a, b) {
        Ok(n) => number(n),
        Err(ArithmeticError::Overflow) => print(b"overflow"),
        Err(ArithmeticError::ZeroDivisor) => print(b"zero divisor"),
    }
    print(b"\n");
}

fn order(o: Ordering) {
    match o {
        Ordering::Less => print(b" is less than "),
        Ordering::Equal => print(b" equals "),
        Ordering::Greater => print(b" is greater than "),
    }
}

pub(crate) fn order_of_numbers(a: Number, b: Number) {
    number(a);
    order(decimal::compare(a, b));
    number(b);
    print(b"\n");
}

// Bytes in hex, in brackets.
fn quoted(s: &[u8]) {
    print(b"[");
    for x in s {
        io::print_hex(OUTPUT, *x as u64, BYTE_DIGITS);
    }
    print(b"]");
}

pub(crate) fn order_of_texts(a: &[u8], b: &[u8]) {
    quoted(a);
    order(text::order::compare(a, b));
    quoted(b);
    print(b"\n");
}

fn text_type(t: TextType) {
    match t {
        TextType::Text => print(b"text "),
        TextType::Varying => print(b"varying "),
        TextType::Cstring => print(b"cstring "),
    }
}

pub(crate) fn part(t: TextType, s: &[u8]) {
    text_type(t);
    quoted(s);
    match text::value::text_part(t, s) {
        Some((start, end)) => {
            print(b" from ");
            io::print_decimal(OUTPUT, start as u64);
            print(b" to ");
            io::print_decimal(OUTPUT, end as u64);
            print(b": ");
            quoted(text::value::text_of(t, s));
        }
        None => print(b" malformed"),
    }
    print(b"\n");
}

// Kept: the words of both answers side by side.
fn verb(t: TextSearch, yes: bool) {
    if yes {
        match t {
            TextSearch::Containing => print(b" contains "),
            TextSearch::Matching => print(b" matches "),
            TextSearch::Starting => print(b" starts with "),
        }
    } else {
        match t {
            TextSearch::Containing => print(b" does not contain "),
            TextSearch::Matching => print(b" does not match "),
            TextSearch::Starting => print(b" does not start with "),
        }
    }
}

pub(crate) fn search(t: TextSearch, a: &[u8], b: &[u8]) {
    quoted(a);
    verb(t, text::search::searched(t, a, b));
    quoted(b);
    print(b"\n");
}
