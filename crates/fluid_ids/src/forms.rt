//! The forms in which an id is written (Flux RFC 19).
/// A way to write a FLUID as text.
#[derive(Clone, Copy, Debug, PartialEq, Eq)]
pub enum Form {
    /// `f` and digits in base 58.
    F58,
    /// Four groups of four lower-case hexadecimal digits, joined by dots.
    Dothex,
    Decimal,
}
