//! Bytes and characters inserted into the text of a leaf, and removed from it.
ghost use Rattle.std.specs.Prelude.{◌≡◌};
ghost use Rattle.rope_text.specs.Text.{byte_len};

use rope_plain::failure::{Failure, expect_same};
use rope_plain::same;
use rope_text::str_utils::count_chars;
use rope_tree::NodeText;

fn hello() -> NodeText
    ensures { byte_len result ≡ 6 }
{
    NodeText::from_str("Hello!")
}

#[test]
fn a_leaf_takes_bytes_inside_and_at_its_end() -> Result<(), Failure> {
    let mut inner = hello();
    let (place, _) = inner.byte_range(3, 3, count_chars(inner.as_str()));
    inner.insert_bytes(place, "oz");
    let mut last = hello();
    last.push_str("oz");
    same!([inner.as_str(), last.as_str()], ["Helozlo!", "Hello!oz"]);
    expect_same("NodeText::new().len()", &NodeText::new().len(), &0)
}

#[test]
fn bytes_are_removed_from_a_leaf() -> Result<(), Failure> {
    let mut text = hello();
    let (from, to) = text.byte_range(2, 4, count_chars(text.as_str()));
    text.remove_bytes(from, to);
    expect_same("text.as_str()", &text.as_str(), &"Heo!")
}

#[test]
fn a_wide_character_is_removed_from_a_leaf() -> Result<(), Failure> {
    let mut text = NodeText::from_str("H\u{e9}llo!");
    let (from, to) = text.byte_range(1, 3, count_chars(text.as_str()));
    text.remove_bytes(from, to);
    expect_same("text.as_str()", &text.as_str(), &"Hlo!")
}
