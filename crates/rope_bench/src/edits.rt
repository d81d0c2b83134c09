//! Edits of a rope, many in a row.
use crate::fault::Fault;
use crate::numbers::Numbers;
use ropey::Rope;

/// Inserts a character at random indices.
pub fn insert_chars_at_random(rope: &mut Rope, count: usize) -> Result<(), Fault> {
    let mut numbers = Numbers::new();
    for _ in 0..count {
        let place = numbers.up_to(rope.len_chars());
        rope.insert_char(place, 'x')?;
    }
    Ok(())
}

/// Inserts a character into the middle, and each next one after it.
pub fn insert_chars_in_a_row(rope: &mut Rope, count: usize) -> Result<(), Fault> {
    let middle = rope.len_chars() / 2;
    for k in 0..count {
        // Never past the end; the prover needs the bound.
        let place = middle.wrapping_add(k).min(rope.len_chars());
        rope.insert_char(place, 'x')?;
    }
    Ok(())
}

/// Inserts a text at random indices.
pub fn insert_text_at_random(rope: &mut Rope, text: &str, count: usize) -> Result<(), Fault> {
    let mut numbers = Numbers::new();
    for _ in 0..count {
        let place = numbers.up_to(rope.len_chars());
        rope.insert(place, text)?;
    }
    Ok(())
}

/// Appends the first characters of a text, one after the other.
pub fn type_text(rope: &mut Rope, text: &str, count: usize) -> Result<(), Fault> {
    for c in text.chars().take(count) {
        let end = rope.len_chars();
        rope.insert_char(end, c)?;
    }
    Ok(())
}

/// Removes one to ten characters at random indices.
pub fn remove_at_random(rope: &mut Rope, count: usize) -> Result<(), Fault> {
    let mut numbers = Numbers::new();
    for _ in 0..count {
        let Some(last) = rope.len_chars().checked_sub(11) else {
            break;
        };
        let start = numbers.up_to(last);
        let end = start + 1 + numbers.up_to(9);
        rope.remove(start..end)?;
    }
    Ok(())
}

/// Removes `chars` characters at random indices.
pub fn remove_long_at_random(rope: &mut Rope, chars: usize, count: usize) -> Result<(), Fault> {
    let mut numbers = Numbers::new();
    for _ in 0..count {
        let Some(last) = rope.len_chars().checked_sub(chars) else {
            break;
        };
        let start = numbers.up_to(last);
        rope.remove(start..start + chars)?;
    }
    Ok(())
}

/// Removes three characters at random indices, and inserts others there.
pub fn replace_at_random(rope: &mut Rope, count: usize) -> Result<(), Fault> {
    let mut numbers = Numbers::new();
    for _ in 0..count {
        let Some(last) = rope.len_chars().checked_sub(11) else {
            break;
        };
        let start = numbers.up_to(last);
        rope.remove(start..start + 3)?;
        rope.insert(start, "abc")?;
    }
    Ok(())
}

/// Inserts characters at random indices and removes them again: the text stays, its chunks change.
pub fn cut_otherwise(rope: &mut Rope, count: usize) -> Result<(), Fault> {
    let mut numbers = Numbers::new();
    for _ in 0..count {
        let Some(last) = rope.len_chars().checked_sub(1) else {
            break;
        };
        let place = numbers.up_to(last);
        rope.insert_char(place, 'x')?;
        rope.remove(place..place + 1)?;
    }
    Ok(())
}

/// Splits the rope near its middle, and joins the two halves again.
pub fn split_near_middle(rope: &mut Rope, count: usize) -> Result<(), Fault> {
    let mut numbers = Numbers::new();
    let first = (rope.len_chars() / 2).saturating_sub(500);
    for _ in 0..count {
        // Never past the end; the prover needs the bound.
        let place = first.wrapping_add(numbers.up_to(999)).min(rope.len_chars());
        let back = rope.split_off(place)?;
        rope.append(back)?;
    }
    Ok(())
}

/// Splits the rope at random indices, and joins the two parts again.
pub fn split_at_random(rope: &mut Rope, count: usize) -> Result<(), Fault> {
    let mut numbers = Numbers::new();
    for _ in 0..count {
        let place = numbers.up_to(rope.len_chars());
        let back = rope.split_off(place)?;
        rope.append(back)?;
    }
    Ok(())
}

/// Appends other ropes.
pub fn append_all(rope: &mut Rope, others: Vec<Rope>) -> Result<(), Fault> {
    for other in others {
        rope.append(other)?;
    }
    Ok(())
}
