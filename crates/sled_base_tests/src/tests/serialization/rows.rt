// Values and their encodings.

use sled_base::Lsn;

#[derive(Clone, Copy)]
pub(super) enum Value {
    U64(u64),
    U32(u32),
    U8(u8),
    I64(i64),
    Bool(bool),
    Unit,
    Manifest(Lsn),
    NoU64,
    SomeU64(u64),
    NoI64,
    SomeI64(i64),
    // An optional number that isn't 0, where 0 is none.
    NonZero(u64),
    Pair(u8, u64),
    Triple(u8, u32),
    // A byte string, of whose encoding a row has only the length.
    Text(&'static [u8]),
    // So many bytes 6, with the same.
    Sixes(usize),
}

// Rows of a name, a value, and its encoding.
type Rows = &'static [(&'static str, Value, &'static [u8])];

// Up to 240 in one byte, to 2,287 in two, to 67,823 in three, and above in 4 to 9, the first of which is 247 and how many follow.
const UNSIGNED: Rows = &[
    ("the least of 1 byte", Value::U64(0), &[0]),
    ("the greatest of 1 byte", Value::U64(240), &[240]),
    ("the least of 2 bytes", Value::U64(241), &[241, 1]),
    ("2 bytes, before a carry", Value::U64(495), &[241, 255]),
    ("2 bytes, after a carry", Value::U64(496), &[242, 0]),
    ("the greatest of 2 bytes", Value::U64(2287), &[248, 255]),
    ("the least of 3 bytes", Value::U64(2288), &[249, 0, 0]),
    ("the least of 3 bytes and 1", Value::U64(2289), &[249, 0, 1]),
    ("3 bytes, before a carry", Value::U64(2543), &[249, 0, 255]),
    ("3 bytes, after a carry", Value::U64(2544), &[249, 1, 0]),
    (
        "the greatest of 3 bytes",
        Value::U64(67823),
        &[249, 255, 255],
    ),
    ("the least of 4 bytes", Value::U64(67824), &[250, 240, 8, 1]),
    (
        "the greatest of 4 bytes",
        Value::U64((1 << 24) - 1),
        &[250, 255, 255, 255],
    ),
    (
        "the least of 5 bytes",
        Value::U64(1 << 24),
        &[251, 0, 0, 0, 1],
    ),
    (
        "the greatest of 5 bytes",
        Value::U64((1 << 32) - 1),
        &[251, 255, 255, 255, 255],
    ),
    (
        "the least of 6 bytes",
        Value::U64(1 << 32),
        &[252, 0, 0, 0, 0, 1],
    ),
    (
        "the greatest of 6 bytes",
        Value::U64((1 << 40) - 1),
        &[252, 255, 255, 255, 255, 255],
    ),
    (
        "the least of 7 bytes",
        Value::U64(1 << 40),
        &[253, 0, 0, 0, 0, 0, 1],
    ),
    (
        "the greatest of 7 bytes",
        Value::U64((1 << 48) - 1),
        &[253, 255, 255, 255, 255, 255, 255],
    ),
    (
        "the least of 8 bytes",
        Value::U64(1 << 48),
        &[254, 0, 0, 0, 0, 0, 0, 1],
    ),
    (
        "the greatest of 8 bytes",
        Value::U64((1 << 56) - 1),
        &[254, 255, 255, 255, 255, 255, 255, 255],
    ),
    (
        "the least of 9 bytes",
        Value::U64(1 << 56),
        &[255, 0, 0, 0, 0, 0, 0, 0, 1],
    ),
    (
        "9 bytes in their order",
        Value::U64(0x0807_0605_0403_0201),
        &[255, 1, 2, 3, 4, 5, 6, 7, 8],
    ),
    ("the greatest of 9 bytes", Value::U64(u64::MAX), &[255; 9]),
];

const FIXED: Rows = &[
    ("a u32 in its order", Value::U32(67305985), &[1, 2, 3, 4]),
    ("the least u32", Value::U32(0), &[0; 4]),
    ("the greatest u32", Value::U32(u32::MAX), &[255; 4]),
    ("the least u8", Value::U8(0), &[0]),
    ("the greatest u8", Value::U8(255), &[255]),
    ("true", Value::Bool(true), &[1]),
    ("false", Value::Bool(false), &[0]),
    ("the i64 0", Value::I64(0), &[0; 8]),
    ("the i64 1", Value::I64(1), &[1, 0, 0, 0, 0, 0, 0, 0]),
    ("the i64 -1", Value::I64(-1), &[255; 8]),
    (
        "the i64 -256",
        Value::I64(-256),
        &[0, 255, 255, 255, 255, 255, 255, 255],
    ),
    (
        "an i64 in its order",
        Value::I64(0x0807_0605_0403_0201),
        &[1, 2, 3, 4, 5, 6, 7, 8],
    ),
    (
        "the greatest i64",
        Value::I64(i64::MAX),
        &[255, 255, 255, 255, 255, 255, 255, 127],
    ),
    (
        "the least i64",
        Value::I64(i64::MIN),
        &[0, 0, 0, 0, 0, 0, 0, 128],
    ),
    (
        "a manifest",
        Value::Manifest(142),
        &[142, 0, 0, 0, 0, 0, 0, 0],
    ),
    (
        "a manifest in its order",
        Value::Manifest(0x0807_0605_0403_0201),
        &[1, 2, 3, 4, 5, 6, 7, 8],
    ),
    ("a manifest below 0", Value::Manifest(-1), &[255; 8]),
];

// An unsigned number is one more than it is, and a signed one too, unless it is below 0.
const OPTIONAL: Rows = &[
    ("no u64", Value::NoU64, &[0]),
    ("some u64 0", Value::SomeU64(0), &[1]),
    (
        "the greatest optional u64 of 1 byte",
        Value::SomeU64(239),
        &[240],
    ),
    (
        "the least optional u64 of 2 bytes",
        Value::SomeU64(240),
        &[241, 1],
    ),
    (
        "the greatest optional u64",
        Value::SomeU64(u64::MAX - 1),
        &[255; 9],
    ),
    ("no i64", Value::NoI64, &[0; 8]),
    ("some i64 0", Value::SomeI64(0), &[1, 0, 0, 0, 0, 0, 0, 0]),
    ("some i64 -1", Value::SomeI64(-1), &[255; 8]),
    (
        "the greatest optional i64",
        Value::SomeI64(i64::MAX - 1),
        &[255, 255, 255, 255, 255, 255, 255, 127],
    ),
    (
        "the least optional i64",
        Value::SomeI64(i64::MIN),
        &[0, 0, 0, 0, 0, 0, 0, 128],
    ),
    ("no number but 0", Value::NonZero(0), &[0]),
    ("the least number but 0", Value::NonZero(1), &[1]),
    ("a number but 0 of 2 bytes", Value::NonZero(241), &[241, 1]),
    (
        "the greatest number but 0",
        Value::NonZero(u64::MAX),
        &[255; 9],
    ),
];

const PARTS: Rows = &[
    ("nothing", Value::Unit, &[]),
    ("a pair", Value::Pair(1, 241), &[1, 241, 1]),
    ("a triple", Value::Triple(1, 2), &[1, 2, 0, 0, 0]),
];

// Byte strings by their lengths.
const TEXTS: Rows = &[
    ("no byte", Value::Text(&[]), &[0]),
    ("1 byte", Value::Text(&[7]), &[1]),
    ("2 bytes, \"ab\"", Value::Text(b"ab"), &[2]),
    ("3 bytes", Value::Text(&[1, 2, 3]), &[3]),
    ("16 bytes", Value::Text(&[6; 16]), &[16]),
    ("17 bytes", Value::Text(&[6; 17]), &[17]),
    ("21 bytes", Value::Text(&[6; 21]), &[21]),
    ("22 bytes", Value::Text(&[6; 22]), &[22]),
    ("23 bytes", Value::Text(&[6; 23]), &[23]),
    ("24 bytes", Value::Text(&[6; 24]), &[24]),
    ("240 bytes", Value::Text(&[6; 240]), &[240]),
    ("241 bytes", Value::Text(&[6; 241]), &[241, 1]),
    ("1,000 bytes", Value::Text(&[6; 1000]), &[243, 248]),
    ("2,287 bytes", Value::Sixes(2287), &[248, 255]),
    ("2,288 bytes", Value::Sixes(2288), &[249, 0, 0]),
    ("67,823 bytes", Value::Sixes(67823), &[249, 255, 255]),
    ("67,824 bytes", Value::Sixes(67824), &[250, 240, 8, 1]),
    (
        "131,069 bytes, which make 2^17 + 1",
        Value::Sixes(131_069),
        &[250, 253, 255, 1],
    ),
];

// What is read but never written. A value above 240 has a longer encoding too.
const LONGER: Rows = &[
    ("240 in 2 bytes", Value::U64(240), &[241, 0]),
    ("1 in 4 bytes", Value::U64(1), &[250, 1, 0, 0]),
    ("2288 in 4 bytes", Value::U64(2288), &[250, 240, 8, 0]),
    ("0 in 5 bytes", Value::U64(0), &[251, 0, 0, 0, 0]),
    ("0 in 6 bytes", Value::U64(0), &[252, 0, 0, 0, 0, 0]),
    ("0 in 7 bytes", Value::U64(0), &[253, 0, 0, 0, 0, 0, 0]),
    ("0 in 8 bytes", Value::U64(0), &[254, 0, 0, 0, 0, 0, 0, 0]),
    (
        "0 in 9 bytes",
        Value::U64(0),
        &[255, 0, 0, 0, 0, 0, 0, 0, 0],
    ),
    (
        "1 in 9 bytes",
        Value::U64(1),
        &[255, 1, 0, 0, 0, 0, 0, 0, 0],
    ),
    ("no u64 in 4 bytes", Value::NoU64, &[250, 0, 0, 0]),
    ("some u64 0 in 4 bytes", Value::SomeU64(0), &[250, 1, 0, 0]),
    (
        "no number but 0 in 4 bytes",
        Value::NonZero(0),
        &[250, 0, 0, 0],
    ),
    ("true as another byte", Value::Bool(true), &[7]),
    ("true as the greatest byte", Value::Bool(true), &[255]),
    (
        "\"ab\" with its length in 4 bytes",
        Value::Text(b"ab"),
        &[250, 2, 0, 0],
    ),
];

// The rows, and whether they are what is written.
pub(super) const ENCODED: &[(Rows, bool)] = &[
    (UNSIGNED, true),
    (FIXED, true),
    (OPTIONAL, true),
    (PARTS, true),
    (TEXTS, true),
    (LONGER, false),
];

// ---- what takes no memory

pub(super) enum Type {
    U64,
    U32,
    U8,
    I64,
    Bool,
    Manifest,
    Pair,
    Triple,
    Text,
}

pub(super) enum Case {
    Refused(Type, &'static [u8]),
    // An input, the numbers that it gives, and whether a refusal comes behind them.
    Numbers(&'static [u8], &'static [u64], bool),
    // An input of pairs, and the second of the last.
    Pairs(&'static [u8], Option<u64>),
    // An input, how many values of no byte are asked for, and whether they come.
    Nothing(&'static [u8], u32, bool),
}

pub(super) type Cases = &'static [(&'static str, Case)];

// A forged length asks for no memory.
pub(super) const REFUSED: Cases = &[
    ("a u64 of no byte", Case::Refused(Type::U64, &[])),
    ("a u64 of 1 byte of 2", Case::Refused(Type::U64, &[241])),
    ("a u64 of 2 bytes of 3", Case::Refused(Type::U64, &[249, 0])),
    ("a u64 of 2 bytes of 4", Case::Refused(Type::U64, &[250, 1])),
    (
        "a u64 of 3 bytes of 4",
        Case::Refused(Type::U64, &[250, 1, 0]),
    ),
    (
        "a u64 of 8 bytes of 9",
        Case::Refused(Type::U64, &[255, 0, 0, 0, 0, 0, 0, 0]),
    ),
    ("a u32 of 3 bytes", Case::Refused(Type::U32, &[1, 2, 3])),
    (
        "an i64 of 7 bytes",
        Case::Refused(Type::I64, &[1, 2, 3, 4, 5, 6, 7]),
    ),
    (
        "a manifest of 7 bytes",
        Case::Refused(Type::Manifest, &[1, 2, 3, 4, 5, 6, 7]),
    ),
    ("a u8 of no byte", Case::Refused(Type::U8, &[])),
    ("a bool of no byte", Case::Refused(Type::Bool, &[])),
    (
        "a pair without the end of its second",
        Case::Refused(Type::Pair, &[1, 241]),
    ),
    (
        "a triple without the end of its third",
        Case::Refused(Type::Triple, &[1, 2, 0, 0]),
    ),
    ("a byte string of no byte", Case::Refused(Type::Text, &[])),
    (
        "a byte string without its last byte",
        Case::Refused(Type::Text, &[2, 97]),
    ),
    (
        "a forged length of u64::MAX, and no byte",
        Case::Refused(Type::Text, &[255; 9]),
    ),
    (
        "a forged length of 65,536, and 1 byte",
        Case::Refused(Type::Text, &[250, 0, 0, 1, 97]),
    ),
    (
        "a forged length of i64::MAX, and 1 byte",
        Case::Refused(
            Type::Text,
            &[255, 255, 255, 255, 255, 255, 255, 255, 127, 97],
        ),
    ),
];

// Values that take no byte come without end, unless there is no byte.
pub(super) const SEQUENCES: Cases = &[
    ("numbers of no byte", Case::Numbers(&[], &[], false)),
    ("one number", Case::Numbers(&[7], &[7], false)),
    (
        "whole numbers",
        Case::Numbers(&[1, 241, 1, 2], &[1, 241, 2], false),
    ),
    ("a torn number alone", Case::Numbers(&[241], &[], true)),
    (
        "a torn number at the end",
        Case::Numbers(&[1, 241, 1, 2, 241], &[1, 241, 2], true),
    ),
    ("pairs of no byte", Case::Pairs(&[], None)),
    ("one pair", Case::Pairs(&[7], Some(7))),
    ("three pairs", Case::Pairs(&[1, 241, 1, 2], Some(2))),
    ("a torn pair", Case::Pairs(&[1, 241], None)),
    (
        "nothing where there is no byte",
        Case::Nothing(&[], 1, false),
    ),
    ("nothing, again and again", Case::Nothing(&[7], 1_000, true)),
];
