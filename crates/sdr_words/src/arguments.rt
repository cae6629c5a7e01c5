// The arguments of a line, read by the shapes that its verb takes.
ghost use Rattle.std.specs.Prelude.{◌≡◌, map};
ghost use Rattle.sdr_words.specs.Arguments.{as_account, as_space, as_order, as_value, plain_of, arg_of, args_of};
ghost use Rattle.sdr_words.specs.Fields.{fields_of};
ghost use Rattle.sdr_words.specs.LineAnswers.{GivesOr};
ghost use Rattle.sdr_words.specs.Statements.{is_bound_by};

use crate::draft::Draft;
use crate::fields::cut_field;
use crate::literals::literal_of;
use crate::words::{is_name, number_of};
use crate::{LineError, Shape};
use sdr_base::{Acct, Bytes, Space};
use sdr_model::{Arg, Args, Keys};
use std::alloc::Global;

/// The greatest type of a name.
const MOST_TYPE: u64 = 4_294_967_295;

/// The greatest priority.
const MOST_PRIORITY: u64 = 255;

fn account_of(field: &[u8]) -> Option<Acct>
    ensures { result ≡ as_account field.now }
{
    if field == b"in".as_slice() {
        Some(Acct::Inbound)
    } else if field == b"out".as_slice() {
        Some(Acct::Outbound)
    } else {
        None
    }
}

fn space_of(field: &[u8]) -> Option<Space>
    ensures { result ≡ as_space field.now }
{
    if field == b"file".as_slice() {
        Some(Space::File)
    } else if field == b"bulk".as_slice() {
        Some(Space::Bulk)
    } else if field == b"heap".as_slice() {
        Some(Space::Heap)
    } else {
        None
    }
}

fn order_of(field: &[u8]) -> Option<Keys>
    ensures { result ≡ as_order field.now }
{
    if field == b"bytes".as_slice() {
        Some(Keys::ByBytes)
    } else if field == b"length".as_slice() {
        Some(Keys::ByLength)
    } else {
        None
    }
}

// The value that a field gives to a line of this daemon.
fn value_of(alloc: Global, draft: &Draft<'_>, daemon: u8, field: &[u8]) -> Result<Arg, LineError>
    ensures { GivesOr result (as_value (is_bound_by draft.now.steps daemon) field.now) }
{
    if let Some(number) = number_of(field) {
        return Ok(Arg::Number(number));
    }
    if is_name(field) && draft.is_bound(daemon, field) {
        Ok(Arg::Named(Bytes::copied(alloc, field)?))
    } else {
        Err(LineError::Refused)
    }
}

// The number that a field is, where it is no greater than the most.
fn plain_of(field: &[u8], most: u64) -> Result<Arg, LineError>
    ensures { GivesOr result (plain_of most field.now) }
{
    match number_of(field) {
        Some(number) if number <= most => Ok(Arg::Number(number)),
        _ => Err(LineError::Refused),
    }
}

// The argument of a shape that a field gives to a line of this daemon.
fn arg_of(
    alloc: Global,
    draft: &Draft<'_>,
    daemon: u8,
    shape: Shape,
    field: &[u8],
) -> Result<Arg, LineError>
    ensures { GivesOr result (arg_of (is_bound_by draft.now.steps daemon) shape field.now) }
{
    match shape {
        Shape::Value => value_of(alloc, draft, daemon, field),
        Shape::Type => plain_of(field, MOST_TYPE),
        Shape::Priority => plain_of(field, MOST_PRIORITY),
        Shape::Text => Ok(Arg::Text(literal_of(alloc, field)?)),
        Shape::Account => match account_of(field) {
            Some(account) => Ok(Arg::Account(account)),
            None => Err(LineError::Refused),
        },
        Shape::Space => match space_of(field) {
            Some(space) => Ok(Arg::In(space)),
            None => Err(LineError::Refused),
        },
        Shape::Order => match order_of(field) {
            Some(order) => Ok(Arg::By(order)),
            None => Err(LineError::Refused),
        },
    }
}

/// The arguments of these shapes that the rest of a line of this daemon gives, one field each.
pub fn args_of(
    alloc: Global,
    draft: &Draft<'_>,
    daemon: u8,
    shapes: &[Shape],
    rest: &[u8],
) -> Result<Args, LineError>
    ensures { GivesOr result
        (args_of (is_bound_by draft.now.steps daemon) shapes.now (fields_of rest.now)) }
{
    let mut args = Vec::new(alloc);
    let mut shapes = shapes;
    let mut rest = rest;
    while let Some((shape, more)) = shapes.split_first() {
        let (field, after) = cut_field(rest).ok_or(LineError::Refused)?;
        args.push(arg_of(alloc, draft, daemon, *shape, field)?)?;
        shapes = more;
        rest = after;
    }
    match cut_field(rest) {
        Some(_) => Err(LineError::Refused),
        None => Ok(Args::of(args)),
    }
}
