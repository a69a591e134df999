//! Questions and bubble timers, for which threads wait.

ghost use Rattle.saved_spec.specs.Devices.{question, timer};
ghost use Rattle.saved_spec.specs.Ranges as range;

use crate::rows::Saved;
use machine_spec::{BubbleTimer, Question};
use serde::Serializer;

impl Saved for Question {
    ghost as_data = { question };

    ghost in_range = { range.IsQuestion };

    fn send<S: Serializer>(&self, out: &mut S) -> Result<(), S::Error> {
        out.begin_seq(Some(4))?;
        self.of.send(out)?;
        self.thread.send(out)?;
        out.str(self.text.as_str())?;
        self.bubble.send(out)?;
        out.end_seq()
    }
}

impl Saved for BubbleTimer {
    ghost as_data = { timer };

    ghost in_range = { range.IsTimer };

    fn send<S: Serializer>(&self, out: &mut S) -> Result<(), S::Error> {
        out.begin_seq(Some(4))?;
        self.due.send(out)?;
        self.of.send(out)?;
        self.thread.send(out)?;
        self.usage.send(out)?;
        out.end_seq()
    }
}
