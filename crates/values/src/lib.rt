// The operators and comparisons of 32-bit signed values. An operator gives its exact result, or the kind of the fault that stands in its place.
#![tactic(auto)]

ghost use Rattle.std.specs.Prelude.{◌≡◌, ◌+◌, ◌*◌, ◌≤◌, length};
ghost use Rattle.definitions.specs.Values.{outcome_of, settled, negation, sum, difference, product, quotient, remainder, is_less, is_equal};
ghost use Rattle.definitions.specs.Meaning.{applied, compared, decided};
ghost use Rattle.definitions.specs.Grammar.{twos, constant_in};
ghost use Rattle.values.specs.Tags.{operator_of, relation_of, joint_of};
ghost use Rattle.values.specs.Words.{constants_in};

use definitions::{Joint, Kind, Operator, Relation};

// The corner of division: the first of these by the second has no quotient in range.
const LEAST: i32 = i32::MIN;

const MINUS_ONE: i32 = -1;

// ---- the comparisons

pub fn less(x: i32, y: i32) -> bool
    ensures { result ≡ is_less x y }
{
    x < y
}

pub fn equal(x: i32, y: i32) -> bool
    ensures { result ≡ is_equal x y }
{
    x == y
}

// ---- the operators

pub fn negate(x: i32) -> Result<i32, Kind>
    ensures { result ≡ outcome_of (negation x) }
{
    x.checked_neg().ok_or(Kind::OutOfRange)
}

pub fn add(x: i32, y: i32) -> Result<i32, Kind>
    ensures { result ≡ outcome_of (sum x y) }
{
    x.checked_add(y).ok_or(Kind::OutOfRange)
}

pub fn subtract(x: i32, y: i32) -> Result<i32, Kind>
    ensures { result ≡ outcome_of (difference x y) }
{
    x.checked_sub(y).ok_or(Kind::OutOfRange)
}

pub fn multiply(x: i32, y: i32) -> Result<i32, Kind>
    ensures { result ≡ outcome_of (product x y) }
{
    x.checked_mul(y).ok_or(Kind::OutOfRange)
}

// Beside each other, each with its corner by name, as document 01 asks.
pub fn divide(x: i32, y: i32) -> Result<i32, Kind>
    ensures { result ≡ outcome_of (quotient x y) }
{
    if y == 0 {
        Err(Kind::ZeroDivisor)
    } else if x == LEAST && y == MINUS_ONE {
        Err(Kind::OutOfRange)
    } else {
        Ok(x / y)
    }
}

pub fn remainder(x: i32, y: i32) -> Result<i32, Kind>
    ensures { result ≡ outcome_of (remainder x y) }
{
    if y == 0 {
        Err(Kind::ZeroDivisor)
    } else if x == LEAST && y == MINUS_ONE {
        Ok(0)
    } else {
        Ok(x % y)
    }
}

// ---- what the tags name, read off the byte that a rule has: nothing but these stands where the grammar reads one

// Of 04 to 08.
pub fn operator(tag: u8) -> Operator
    ensures { result ≡ operator_of tag }
{
    match tag {
        0x04 => Operator::Add,
        0x05 => Operator::Subtract,
        0x06 => Operator::Multiply,
        0x07 => Operator::Divide,
        _ => Operator::Remainder,
    }
}

// Of 10 and 11.
pub fn relation(tag: u8) -> Relation
    ensures { result ≡ relation_of tag }
{
    match tag {
        0x10 => Relation::Less,
        _ => Relation::Equal,
    }
}

// Of 13 and 14.
pub fn joint(tag: u8) -> Joint
    ensures { result ≡ joint_of tag }
{
    match tag {
        0x13 => Joint::And,
        _ => Joint::Or,
    }
}

// ---- by their kinds

pub fn operate(op: Operator, x: i32, y: i32) -> Result<i32, Kind>
    ensures { result ≡ outcome_of (applied op x y) }
{
    match op {
        Operator::Add => add(x, y),
        Operator::Subtract => subtract(x, y),
        Operator::Multiply => multiply(x, y),
        Operator::Divide => divide(x, y),
        Operator::Remainder => remainder(x, y),
    }
}

pub fn compare(r: Relation, x: i32, y: i32) -> bool
    ensures { result ≡ compared r x y }
{
    match r {
        Relation::Less => less(x, y),
        Relation::Equal => equal(x, y),
    }
}

// Whether the left side alone decides the and, or the or.
pub fn decides(j: Joint, held: bool) -> bool
    ensures { result ≡ decided j held }
{
    match j {
        Joint::And => !held,
        Joint::Or => held,
    }
}

// ---- a constant

// The constant in the four bytes at `at`.
pub fn constant(s: &[u8], at: usize) -> i32
    requires { at + 4 ≤ length s.now }
    ensures { result ≡ constant_in s.now at }
{
    i32::from_le_bytes([s[at], s[at + 1], s[at + 2], s[at + 3]])
}

// The constants in the bytes, as many as there is room for.
pub fn constants(s: &[u8], words: &mut [i32])
    requires { 4 * length words.old ≤ length s.now }
    ensures { words.new ≡ constants_in s.now (length words.old) }
{
    for (i, word) in words.iter_mut().enumerate() {
        *word = constant(s, 4 * i);
    }
}
