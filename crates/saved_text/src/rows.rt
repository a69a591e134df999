//! What is written as a value of JSON, and lists and members of it.

ghost use Rattle.std.specs.Prelude.{OnOk, ⊤};
ghost use Rattle.std.specs.List.{All};
ghost use Rattle.serde_json.specs.Data.{Data, boolean};
ghost use Rattle.serde_json.specs.Events.{SendsValue};
ghost use Rattle.saved_spec.specs.Ranges as range;
ghost use Rattle.saved_spec.specs.Rows.{whole, signed, word_row, each};
ghost use Rattle.saved_text.specs.Sending.{SendsMember};

use lists::ListOf;
use serde::Serializer;

// A part of a saved run, which is written as the value `as_data`.
pub(crate) trait Saved {
    ghost as_data: { Self → Data };

    // What its type says of it.
    ghost in_range: { Self → Type 0 };

    // Sends the events of its value, in order.
    fn send<S: Serializer>(&self, out: &mut S) -> Result<(), S::Error>
        ensures sent { OnOk result (SendsValue (as_data self.now) (S.written out.old) (S.written out.new)) }
        ensures ranges { OnOk result (in_range self.now) };
}

impl Saved for u32 {
    ghost as_data = { whole };

    ghost in_range = { λ n. range.IsWhole n };

    fn send<S: Serializer>(&self, out: &mut S) -> Result<(), S::Error> {
        out.u64(u64::from(*self))
    }
}

impl Saved for u64 {
    ghost as_data = { whole };

    ghost in_range = { λ n. range.IsWhole n };

    fn send<S: Serializer>(&self, out: &mut S) -> Result<(), S::Error> {
        out.u64(*self)
    }
}

impl Saved for i64 {
    ghost as_data = { signed };

    ghost in_range = { λ z. range.IsSigned z };

    fn send<S: Serializer>(&self, out: &mut S) -> Result<(), S::Error> {
        if *self < 0 {
            out.i64(*self)
        } else {
            out.u64(*self as u64)
        }
    }
}

impl Saved for bool {
    ghost as_data = { boolean };

    ghost in_range = { λ b. ⊤ };

    fn send<S: Serializer>(&self, out: &mut S) -> Result<(), S::Error> {
        out.bool(*self)
    }
}

impl<T: Saved> Saved for ListOf<T> {
    ghost as_data = { each T.as_data };

    ghost in_range = { All T.in_range };

    fn send<S: Serializer>(&self, out: &mut S) -> Result<(), S::Error> {
        send_each(self.as_slice(), out)
    }
}

// Sends a list with the value of each item, in order.
pub(crate) fn send_each<T: Saved, S: Serializer>(items: &[T], out: &mut S) -> Result<(), S::Error>
    ensures sent { OnOk result (SendsValue (each T.as_data items.now) (S.written out.old) (S.written out.new)) }
    ensures ranges { OnOk result (All T.in_range items.now) }
{
    out.begin_seq(Some(items.len()))?;
    for item in items {
        item.send(out)?;
    }
    out.end_seq()
}

// Sends a list with one word.
pub(crate) fn send_word<S: Serializer>(word: &str, out: &mut S) -> Result<(), S::Error>
    ensures sent { OnOk result (SendsValue (word_row word.now) (S.written out.old) (S.written out.new)) }
{
    out.begin_seq(Some(1))?;
    out.str(word)?;
    out.end_seq()
}

// Sends a member of an object.
pub(crate) fn send_member<T: Saved, S: Serializer>(
    name: &str,
    part: &T,
    out: &mut S,
) -> Result<(), S::Error>
    ensures sent { OnOk result (SendsMember name.now (T.as_data part.now) (S.written out.old) (S.written out.new)) }
    ensures ranges { OnOk result (T.in_range part.now) }
{
    out.key(name)?;
    part.send(out)
}

// Sends a member of an object that is a list.
pub(crate) fn send_list<T: Saved, S: Serializer>(
    name: &str,
    items: &[T],
    out: &mut S,
) -> Result<(), S::Error>
    ensures sent { OnOk result (SendsMember name.now (each T.as_data items.now) (S.written out.old) (S.written out.new)) }
    ensures ranges { OnOk result (All T.in_range items.now) }
{
    out.key(name)?;
    send_each(items, out)
}
