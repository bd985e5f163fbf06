//! Tree objects and their texts (Flux RFC 11).
use lists::{Bytes, Copied};
use std::alloc::Global;
use std::test::Fail;
use tree_objects::{Object, ObjectFault, ObjectMap, print, read};

/// The directory with the value `hello` under the name `k` (Flux RFC 11).
const HELLO: &str =
    r#"{"data":{"k":{"data":"aGVsbG8=","type":"val","ver":1}},"type":"dir","ver":1}"#;

#[test]
fn a_directory_and_its_text(rt: HostRuntime) -> Result<(), Fail> {
    let alloc = rt.alloc();
    let name = Bytes::of(alloc, b"k")?;
    let mut entries = ObjectMap::new(alloc);
    entries.put(&name, Object::Val(Bytes::of(alloc, b"hello")?))?;
    let directory = Object::Dir(entries);
    let text = print(alloc, &directory)?;
    assert!(rt; text.as_slice() == HELLO.as_bytes());
    let again = read(alloc, &text)?;
    let found = match &again {
        Object::Dir(entries) => match entries.get(&name) {
            Some(Object::Val(bytes)) => bytes.as_slice() == b"hello".as_slice(),
            _ => false,
        },
        _ => false,
    };
    assert!(rt; found);
    Ok(())
}

/// Texts, and what the copies of their objects print where that is another text, or their faults.
const TEXTS: [(&str, &str); 25] = [
    (r#"{"data":"","type":"val","ver":1}"#, ""),
    (r#"{"data":"aGVsbG8=","type":"val","ver":1}"#, ""),
    (
        r#"{"data":["sha1-da39a3ee5e6b4b0d3255bfef95601890afd80709"],"type":"valref","ver":1}"#,
        "",
    ),
    (
        r#"{"data":["sha1-da39a3ee5e6b4b0d3255bfef95601890afd80709"],"type":"dirref","ver":1}"#,
        "",
    ),
    (r#"{"data":{"target":"a.b"},"type":"symlink","ver":1}"#, ""),
    (
        r#"{"data":{"namespace":"n","target":"a.b"},"type":"symlink","ver":1}"#,
        "",
    ),
    (r#"{"data":{},"type":"dir","ver":1}"#, ""),
    (
        concat!(
            r#"{"data":{"a":{"data":{"k\"":{"data":"eA==","type":"val","ver":1}},"#,
            r#""type":"dir","ver":1},"#,
            r#""b":{"data":{"target":"."},"type":"symlink","ver":1}},"type":"dir","ver":1}"#
        ),
        "",
    ),
    // the members of its data are printed in another order
    (
        r#"{"data":{"target":"a","namespace":"n"},"type":"symlink","ver":1}"#,
        r#"{"data":{"namespace":"n","target":"a"},"type":"symlink","ver":1}"#,
    ),
    // texts of no object, with their faults
    ("", "NotJson(NotJson)"),
    (r#"{"ver":0.5}"#, "NotJson(BadNumber { place: 7 })"),
    ("[]", "BadVersion"),
    (r#"{"data":"","type":"val"}"#, "BadVersion"),
    (r#"{"data":"","type":"val","ver":2}"#, "BadVersion"),
    (r#"{"data":"","ver":1}"#, "BadType"),
    (r#"{"data":{},"type":"hdir","ver":1}"#, "BadType"),
    (r#"{"type":"val","ver":1}"#, "BadData"),
    (r#"{"data":"aGVsbG8","type":"val","ver":1}"#, "BadData"),
    (r#"{"data":[],"type":"valref","ver":1}"#, "BadData"),
    (r#"{"data":["sha1-00"],"type":"dirref","ver":1}"#, "BadData"),
    (
        r#"{"data":{"k":{"data":"","type":"val","ver":2}},"type":"dir","ver":1}"#,
        "BadData",
    ),
    (
        r#"{"data":{"target":"a","namespace":null},"type":"symlink","ver":1}"#,
        "BadData",
    ),
    (
        r#"{"data":{"target":"a","namespace":"a.b"},"type":"symlink","ver":1}"#,
        "BadData",
    ),
    (
        r#"{"data":{"namespace":"n"},"type":"symlink","ver":1}"#,
        "BadData",
    ),
    (r#"{"data":{},"type":"symlink","ver":1}"#, "BadData"),
];

/// What the copy of the object that a text spells prints, or the fault.
fn told(alloc: Global, text: &str) -> Result<String, Fail> {
    match read(alloc, text.as_bytes()) {
        Ok(object) => {
            let printed = print(alloc, &object.copy()?)?;
            Ok(String::from_utf8_lossy(alloc, &printed)?)
        }
        Err(ObjectFault::NoMemory) => Err(ObjectFault::NoMemory.into()),
        Err(fault) => Ok(format!(in alloc; "{fault:?}")?),
    }
}

#[test]
fn texts_are_read_and_refused(rt: HostRuntime) -> Result<(), Fail> {
    for (text, wanted) in &TEXTS {
        let found = told(rt.alloc(), text)?;
        let wanted = if wanted.is_empty() { text } else { wanted };
        assert!(rt; found.as_str() == *wanted, "{text}");
    }
    Ok(())
}
