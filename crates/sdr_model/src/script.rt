// The statements of daemons.
use crate::Keys;
use sdr_base::{Acct, Bytes, Items, Space};

/// An argument of a statement.
#[derive(Drop)]
pub enum Arg {
    Number(u64),
    /// What an earlier statement of the same daemon has bound to this name.
    Named(Bytes),
    /// The bytes of a literal.
    Text(Bytes),
    Account(Acct),
    In(Space),
    By(Keys),
}

/// The arguments of a statement, in order.
pub type Args = Items<Arg>;

/// A statement.
#[derive(Drop)]
pub struct ScriptStep {
    /// The line, from 1 over all lines of the input.
    pub line: u64,
    /// The daemon that makes it, 1 to 16.
    pub daemon: u8,
    /// The name that it binds; no byte where it binds none.
    pub name: Bytes,
    /// The verb's place in the table of verbs, from 0.
    pub verb: u64,
    pub args: Args,
}

/// The statements in the order of their lines.
pub type Script = Items<ScriptStep>;
