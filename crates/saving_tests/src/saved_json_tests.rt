//! A plain value and its compact text, as serde_json reads and writes them.

use laws_of_json::{a_compact_text_is_utf8, a_compact_text_reads_back};
use serde_json::Value;

// The least and the greatest whole numbers, names in their order, an escape, and a character of two bytes.
static TEXT: &str =
    r#"{"":[0,-9223372036854775808,18446744073709551615],"a":{"b":"é\n\u0001"},"ab":[null,true,[]]}"#;

#[test]
fn a_plain_value_is_written_as_it_was_read(rt: HostRuntime) {
    a_compact_text_reads_back();
    a_compact_text_is_utf8();
    let value = Value::from_str(rt.alloc(), TEXT).expect(&rt, "memory");
    let text = value.to_string(rt.alloc()).expect(&rt, "memory");
    assert_eq!(rt; text.as_str(), TEXT);
}
