//! JSON with whole numbers.
use fl_json::{JsonFault, Value, field, list, number, read, text, word};
use std::process::Abort;
use std::test::Fail;

/// Texts and what they are read and written again as; a fault is told by a word.
const TEXTS: [(&str, &str); 52] = [
    ("0", "0"),
    ("-0", "bad 0"),
    ("[-0]", "bad 1"),
    ("01", "no"),
    ("-01", "no"),
    ("-", "no"),
    ("1-2", "no"),
    ("+1", "no"),
    (".5", "no"),
    ("1.", "no"),
    ("1.e3", "no"),
    ("3600.0", "3600"),
    ("3600.000", "3600"),
    ("3600.5", "bad 0"),
    ("3600.05", "bad 0"),
    ("3600.0e0", "bad 0"),
    ("1e3", "bad 0"),
    ("1E3", "bad 0"),
    ("1e", "no"),
    ("[1e400]", "bad 1"),
    ("-0.0", "bad 0"),
    ("-5.0", "-5"),
    ("0.0", "0"),
    ("-9223372036854775808", "-9223372036854775808"),
    ("-9223372036854775808.0", "-9223372036854775808"),
    ("-9223372036854775809", "bad 0"),
    ("18446744073709551615", "18446744073709551615"),
    ("18446744073709551615.00", "18446744073709551615"),
    ("18446744073709551616", "bad 0"),
    ("18446744073709551616.0", "bad 0"),
    ("9223372036854775808", "9223372036854775808"),
    ("[1.5,2.5]", "bad 1"),
    ("[1,2.5]", "bad 3"),
    ("{\"a\":1.5", "bad 5"),
    ("] 1.5", "bad 2"),
    ("\"1.5\"", "\"1.5\""),
    ("\"a\\\"1.5\"", "\"a\\\"1.5\""),
    ("\"a\\\\\" 1.5", "bad 6"),
    ("\"1.5", "no"),
    ("[1 2.0]", "no"),
    ("\"\\ud800\"", "no"),
    ("\"\\ud83d\\ude00\"", "\"\u{1f600}\""),
    ("{\"a\":1,\"a\":2}", "{\"a\":2}"),
    ("{\"b\":1,\"a\":2.0,\"B\":3}", "{\"B\":3,\"a\":2,\"b\":1}"),
    (" [ true , null , false ] ", "[true,null,false]"),
    ("true1", "no"),
    ("nul", "no"),
    ("", "no"),
    ("1 1", "no"),
    ("[1,]", "no"),
    ("\"\u{7f}\\u0001\\n\"", "\"\u{7f}\\u0001\\n\""),
    ("1.0.0", "no"),
];

/// What a text is read as, in the words of the table.
fn told(rt: &HostRuntime, bytes: &[u8]) -> Result<String, Fail> {
    match read(rt.alloc(), bytes) {
        Ok(value) => {
            let bytes = text(rt.alloc(), &value)?;
            let written = std::str::from_utf8(&bytes).ok().unwrap_or("not UTF-8");
            Ok(String::from_str(rt.alloc(), written)?)
        }
        Err(JsonFault::BadNumber { place }) => Ok(format!(in rt.alloc(); "bad {place}")?),
        Err(JsonFault::NotJson) => Ok(String::from_str(rt.alloc(), "no")?),
        Err(fault) => Err(fault.into()),
    }
}

/// Whether a text is read as these words say.
fn tells(rt: &HostRuntime, given: &str, wanted: &str) -> Result<bool, Fail> {
    let found = told(rt, given.as_bytes())?;
    Ok(found.as_str() == wanted)
}

#[test]
fn texts_are_read_as_the_rule_says(rt: HostRuntime) -> Result<(), Fail> {
    for (given, wanted) in &TEXTS {
        assert!(rt; tells(&rt, given, wanted)?, "{given}");
    }
    Ok(())
}

/// What a field is, in the words of the table below: its text, and what it is as a number, a word
/// and a list.
fn told_field(rt: &HostRuntime, value: &Value, key: &str) -> Result<String, Fail> {
    let of = match field(value, key) {
        Ok(found) => text(rt.alloc(), found)?,
        Err(fault) => format!(in rt.alloc(); "{fault:?}")?.into_bytes(),
    };
    let of = std::str::from_utf8(&of).ok().unwrap_or("not UTF-8");
    let number = number(value, key);
    let word = word(value, key);
    let list = list(value, key).map(|items| items.len());
    Ok(format!(in rt.alloc(); "{of} {number:?} {word:?} {list:?}")?)
}

/// Fields of all kinds.
const OBJECT: &str = "{\"n\":5.0,\"m\":-5,\"w\":\"a b\",\"l\":[1,[]],\"o\":{},\"z\":null}";

/// A text, a field of it, and what that is.
const FIELDS: [(&str, &str, &str); 8] = [
    (OBJECT, "n", "5 Ok(5) Err(WrongKind) Err(WrongKind)"),
    (
        OBJECT,
        "m",
        "-5 Err(WrongKind) Err(WrongKind) Err(WrongKind)",
    ),
    (
        OBJECT,
        "w",
        "\"a b\" Err(WrongKind) Ok(\"a b\") Err(WrongKind)",
    ),
    (OBJECT, "l", "[1,[]] Err(WrongKind) Err(WrongKind) Ok(2)"),
    (
        OBJECT,
        "o",
        "{} Err(WrongKind) Err(WrongKind) Err(WrongKind)",
    ),
    (
        OBJECT,
        "z",
        "null Err(WrongKind) Err(WrongKind) Err(WrongKind)",
    ),
    (
        OBJECT,
        "N",
        "Missing Err(Missing) Err(Missing) Err(Missing)",
    ),
    (
        "[1]",
        "n",
        "WrongKind Err(WrongKind) Err(WrongKind) Err(WrongKind)",
    ),
];

/// Whether a field of a text is this.
fn is_field(rt: &HostRuntime, given: &str, key: &str, wanted: &str) -> Result<bool, Fail> {
    let value = read(rt.alloc(), given.as_bytes())?;
    let found = told_field(rt, &value, key)?;
    Ok(found.as_str() == wanted)
}

#[test]
fn fields_are_found_by_kind(rt: HostRuntime) -> Result<(), Fail> {
    for (given, key, wanted) in &FIELDS {
        assert!(rt; is_field(&rt, given, key, wanted)?, "{key}");
    }
    Ok(())
}
