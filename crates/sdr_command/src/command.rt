// What the words of a command line ask for.
ghost use Rattle.std.specs.Prelude.{◌≡◌};
ghost use Rattle.sdr_command.specs.Ending.{IsCommand};

use crate::about::about_text;
use sdr_forms::{Form, form_of};
use std::rc::RcStr;

/// What a command line asks for: a form, by its words, on the disk that a word names.
#[derive(Clone, Copy)]
pub struct Asked<'a> {
    pub disk: &'a str,
    pub words: &'a [RcStr],
    pub form: Form,
}

/// What the words of a command line ask for.
#[derive(Clone, Copy)]
pub enum Command<'a> {
    /// A text about the program.
    About { text: &'a str },
    /// Nothing: these words, behind the one that names the disk, are no form.
    Usage { words: &'a [RcStr] },
    /// A form.
    Form { asked: Asked<'a> },
}

/// What the words ask for.
pub fn command_of(words: &[RcStr]) -> Command<'_>
    ensures { IsCommand words.now result }
{
    if let Some(text) = about_text(words) {
        return Command::About { text };
    }
    let Some((first, others)) = words.split_first() else {
        return Command::Usage { words };
    };
    match form_of(others) {
        Some(form) => {
            let disk = first.as_str();
            Command::Form {
                asked: Asked {
                    disk,
                    words: others,
                    form,
                },
            }
        }
        None => Command::Usage { words: others },
    }
}
