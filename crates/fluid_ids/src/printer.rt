//! The printer of ids: F58, dothex and decimal (Flux RFC 19).
ghost use Rattle.std.specs.Prelude.{◌≡◌, ℕ, ◌^◌, ◌<◌, ◌≤◌, ◌++◌, length, reverse, IfOk, OnOk, Ok};
ghost use Rattle.fluid_ids.specs.Texts.{digits_in, group_text, printed, meaning};

use crate::forms::Form;
use crate::reader::{BASE_10, BASE_16, BASE_58};
use std::alloc::{AllocError, Global};

/// A number's digits in a base, the lowest first.
fn low_digits(alloc: Global, base: &[u8], number: u64) -> Result<Vec<u8>, AllocError>
    requires { (2 ≤ length base.now) × (length base.now < 2 ^ 63) }
    ensures { IfOk result (λ text. reverse text.items ≡ digits_in base.now number) }
{
    let mut text = Vec::new(alloc);
    if number == 0 {
        text.push(base[0])?;
        return Ok(text);
    }
    let count = base.len() as u64;
    let mut left = number;
    while left != 0 {
        text.push(base[(left % count) as usize])?;
        left /= count;
    }
    Ok(text)
}

/// Adds four hexadecimal digits.
fn add_group(text: &mut Vec<u8>, group: u64) -> Result<(), AllocError>
    requires { group < 65536 }
    ensures { OnOk result (text.new.items ≡ text.old.items ++ group_text group) }
{
    let group = group as usize;
    text.push(BASE_16[group / 16 / 16 / 16])?;
    text.push(BASE_16[group / 16 / 16 % 16])?;
    text.push(BASE_16[group / 16 % 16])?;
    text.push(BASE_16[group % 16])?;
    Ok(())
}

fn dothex(alloc: Global, id: u64) -> Result<Vec<u8>, AllocError>
    ensures { IfOk result (λ text. text.items ≡ printed Form.Dothex id) }
{
    let mut text = Vec::with_capacity(alloc, 19)?;
    add_group(&mut text, id / 65536 / 65536 / 65536)?;
    text.push(b'.')?;
    add_group(&mut text, id / 65536 / 65536 % 65536)?;
    text.push(b'.')?;
    add_group(&mut text, id / 65536 % 65536)?;
    text.push(b'.')?;
    add_group(&mut text, id % 65536)?;
    Ok(text)
}

fn f58(alloc: Global, id: u64) -> Result<Vec<u8>, AllocError>
    ensures { IfOk result (λ text. text.items ≡ printed Form.F58 id) }
{
    let mut text = low_digits(alloc, BASE_58, id)?;
    text.push(b'f')?;
    text.reverse();
    Ok(text)
}

fn decimal(alloc: Global, id: u64) -> Result<Vec<u8>, AllocError>
    ensures { IfOk result (λ text. text.items ≡ printed Form.Decimal id) }
{
    let mut text = low_digits(alloc, BASE_10, id)?;
    text.reverse();
    Ok(text)
}

/// The text of an id. It is read again as the same id.
pub fn print(alloc: Global, id: u64, form: Form) -> Result<Vec<u8>, AllocError>
    ensures text { IfOk result (λ text. text.items ≡ printed form id) }
    ensures read { IfOk result (λ text. meaning text.items ≡ Ok id) }
{
    let text = match form {
        Form::F58 => f58(alloc, id)?,
        Form::Dothex => dothex(alloc, id)?,
        Form::Decimal => decimal(alloc, id)?,
    };
    Ok(text)
}
