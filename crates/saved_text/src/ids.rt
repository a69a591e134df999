//! Numbers of targets, blocks, instances and threads.

ghost use Rattle.saved_spec.specs.Ranges as range;
ghost use Rattle.saved_spec.specs.Rows.{whole};

use crate::rows::Saved;
use machine_spec::{BlockId, InstanceId, Serial, TargetId};
use serde::Serializer;

impl Saved for TargetId {
    ghost as_data = { whole };

    ghost in_range = { λ n. range.IsWhole n };

    fn send<S: Serializer>(&self, out: &mut S) -> Result<(), S::Error> {
        self.0.send(out)
    }
}

impl Saved for BlockId {
    ghost as_data = { whole };

    ghost in_range = { λ n. range.IsWhole n };

    fn send<S: Serializer>(&self, out: &mut S) -> Result<(), S::Error> {
        self.0.send(out)
    }
}

impl Saved for InstanceId {
    ghost as_data = { whole };

    ghost in_range = { λ n. range.IsWhole n };

    fn send<S: Serializer>(&self, out: &mut S) -> Result<(), S::Error> {
        self.0.send(out)
    }
}

impl Saved for Serial {
    ghost as_data = { whole };

    ghost in_range = { λ n. range.IsWhole n };

    fn send<S: Serializer>(&self, out: &mut S) -> Result<(), S::Error> {
        self.0.send(out)
    }
}
