//! From a text to what is said of it as a configuration.

ghost use Rattle.std.specs.Prelude.{◌≡◌, IfOk};
ghost use Rattle.ynl_config.specs.Meaning.{config_of};
ghost use Rattle.ynl_config.specs.Places.{place_of};
ghost use Rattle.ynl_check.specs.Checked.{IsSaid, IsTree, fault_text, verdict_on};

use crate::columns::widths_of;
use crate::faults::put_fault;
use crate::sentences::put_sentence;
use crate::style::Style;
use crate::tree::tree_text;
use std::alloc::{AllocError, Global};
use ynl_config::{Misplaced, check_config};
use ynl_queues::Config;

/// How it is said.
#[derive(Clone, Copy, Debug, PartialEq, Eq)]
pub enum Form {
    /// In lines that are JSON objects.
    Lines,
    /// For a reader: the tree in columns, and a fault in a sentence.
    Plain,
}

/// Whether a text is a configuration.
#[derive(Clone, Copy, Debug, PartialEq, Eq)]
pub enum Verdict {
    /// It is one that is accepted.
    Accepted,
    /// It has a fault.
    Faulty,
}

/// What is said of a text.
#[derive(Drop)]
pub struct Checked {
    pub text: Vec<u8>,
    pub verdict: Verdict,
}

/// What is said of an accepted configuration.
fn said_of_tree(alloc: Global, form: Form, config: &Config) -> Result<Vec<u8>, AllocError>
    ensures { IfOk result (λ text. IsTree form config.now text.items) }
{
    match form {
        Form::Lines => tree_text(alloc, Style::Objects, config),
        Form::Plain => tree_text(alloc, Style::Columns(widths_of(config)), config),
    }
}

/// What is said of a fault at its place.
fn said_of_fault(alloc: Global, form: Form, misplaced: &Misplaced) -> Result<Vec<u8>, AllocError>
    ensures { IfOk result (λ text. text.items ≡ fault_text form misplaced.now.fault (place_of misplaced.now.place)) }
{
    match form {
        Form::Lines => put_fault(Vec::new(alloc), misplaced),
        Form::Plain => put_sentence(Vec::new(alloc), misplaced),
    }
}

/// What is said of a text: of a configuration the tree with what each queue is given of each partition, and of any
/// other text the fault that [`read_config`](ynl_config::read_config) tells, with its first place.
///
/// In [`Form::Lines`] each line is a JSON object in the compact form, with its keys in byte order. Shares are in
/// millionths of a partition, percentages in hundredths of a percent.
pub fn check(alloc: Global, form: Form, text: &[u8]) -> Result<Checked, AllocError>
    ensures said { IfOk result (λ checked. IsSaid form text.now checked.text.items) }
    ensures verdict { IfOk result (λ checked. checked.verdict ≡ verdict_on (config_of text.now)) }
{
    match check_config(alloc, text)? {
        Ok(config) => Ok(Checked {
            text: said_of_tree(alloc, form, &config)?,
            verdict: Verdict::Accepted,
        }),
        Err(misplaced) => Ok(Checked {
            text: said_of_fault(alloc, form, &misplaced)?,
            verdict: Verdict::Faulty,
        }),
    }
}
