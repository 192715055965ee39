// How a call and its answer are told.
ghost use Rattle.std.specs.Prelude.{Some};
ghost use Rattle.running.specs.Words.{call_text, answer_text, step_text};

use crate::{Answer, Call, Cells, Step};
use std::fmt;

/// `start ACTOR`, `finish ACTOR` or `cells LINK`.
impl fmt::Display for Call {
    ghost output = { λ x. Some (call_text x) };

    fn fmt<W: fmt::Write>(&self, f: &mut fmt::Formatter<W>) -> fmt::Result {
        match *self {
            Call::Start(actor) => write!(f, "start {actor}"),
            Call::Finish(actor) => write!(f, "finish {actor}"),
            Call::Cells(link) => write!(f, "cells {link}"),
        }
    }
}

/// `open`, `done`, `holds HELD write WRITE read READ`, or the refusal.
impl fmt::Display for Answer {
    ghost output = { λ x. Some (answer_text x) };

    fn fmt<W: fmt::Write>(&self, f: &mut fmt::Formatter<W>) -> fmt::Result {
        match *self {
            Answer::Open => f.write_str("open"),
            Answer::Done => f.write_str("done"),
            Answer::Told(Cells { held, write, read }) => {
                write!(f, "holds {held} write {write} read {read}")
            }
            Answer::Refused(fault) => write!(f, "{fault}"),
        }
    }
}

/// The call, and then the answer.
impl fmt::Display for Step {
    ghost output = { λ x. Some (step_text x) };

    fn fmt<W: fmt::Write>(&self, f: &mut fmt::Formatter<W>) -> fmt::Result {
        let Step { call, answer } = *self;
        write!(f, "{call} {answer}")
    }
}
