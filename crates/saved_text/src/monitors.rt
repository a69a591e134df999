//! Monitors that blocks added.

ghost use Rattle.std.specs.Prelude.{OnOk, ◌∷◌, []};
ghost use Rattle.serde_json.specs.Data.{boolean, string};
ghost use Rattle.serde_json.specs.Events.{SendsValue};
ghost use Rattle.saved_spec.specs.Monitors.{made};
ghost use Rattle.saved_spec.specs.Ranges as range;
ghost use Rattle.saved_spec.specs.Rows.{whole, row};

use crate::rows::Saved;
use machine_spec::{Made, Shown, TargetId};
use serde::Serializer;

// Sends what is shown, by the name of its kind.
fn send_shown<S: Serializer>(
    kind: &str,
    target: TargetId,
    index: u32,
    visible: bool,
    out: &mut S,
) -> Result<(), S::Error>
    ensures sent { OnOk result (SendsValue (row (string kind.now ∷ whole target ∷ whole index ∷ boolean visible ∷ [])) (S.written out.old) (S.written out.new)) }
    ensures target { OnOk result (range.IsWhole target) }
    ensures index { OnOk result (range.IsWhole index) }
{
    out.begin_seq(Some(4))?;
    out.str(kind)?;
    target.send(out)?;
    index.send(out)?;
    out.bool(visible)?;
    out.end_seq()
}

impl Saved for Made {
    ghost as_data = { made };

    ghost in_range = { λ m. range.IsShown m.what };

    fn send<S: Serializer>(&self, out: &mut S) -> Result<(), S::Error> {
        match self.what {
            Shown::Variable(target, index) => send_shown(
                "variable",
                target,
                index,
                self.visible,
                out,
            ),
            Shown::List(target, index) => send_shown("list", target, index, self.visible, out),
        }
    }
}
