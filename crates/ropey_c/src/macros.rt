//! Macros for steps that many calls share. A macro returns a status from the call if its step
//! fails.

// Unwraps an option. Returns `$otherwise` from the call for `None`.
macro_rules! some_or {
    ($option:expr, $otherwise:expr) => {
        match $option {
            Some(value) => value,
            None => return $otherwise,
        }
    };
}

// Unwraps a result. Returns the status of an error from the call.
macro_rules! ok_or {
    ($result:expr, $status_of:path) => {
        match $result {
            Ok(value) => value,
            Err(error) => return $status_of(error),
        }
    };
}

// Unwraps the result of an allocation. Returns `OUT_OF_MEMORY` from the call if it failed.
macro_rules! allocated {
    ($result:expr) => {
        match $result {
            Ok(value) => value,
            Err(_) => return $crate::status::OUT_OF_MEMORY,
        }
    };
}

// Borrows the rope of a handle. Returns `NO_ROPE_HELD` from the call if the handle is empty.
macro_rules! held {
    ($handle:expr) => {
        $crate::macros::some_or!($handle.held(), $crate::status::NO_ROPE_HELD)
    };
}

// Borrows the changes of a handle. Returns `NO_CHANGES_HELD` from the call if the handle is empty.
macro_rules! held_changes {
    ($handle:expr) => {
        $crate::macros::some_or!($handle.changes(), $crate::status::NO_CHANGES_HELD)
    };
}

// Reads bytes as a text. Returns `INVALID_UTF8` from the call if they aren't UTF-8.
macro_rules! utf8_text {
    ($bytes:expr) => {
        $crate::macros::some_or!(rope_text::utf8::text_of($bytes), $crate::status::INVALID_UTF8)
    };
}

// Reads the number of a set of line breaks. Returns `UNKNOWN_BREAK_SET` from the call if no set has
// the number.
macro_rules! breaks_for {
    ($number:expr) => {
        $crate::macros::some_or!(
            $crate::status::given_breaks($number),
            $crate::status::UNKNOWN_BREAK_SET
        )
    };
}

// Takes the value out of a handle, edits it, and puts it back. The macro's value is the status of
// the edit. Returns `$none` from the call, by default `NO_ROPE_HELD`, if the handle is empty.
macro_rules! edit {
    ($handle:ident, $alloc:ident, $held:ident => $edit:expr) => {
        edit!($handle, $alloc, NO_ROPE_HELD, $held => $edit)
    };
    ($handle:ident, $alloc:ident, $none:ident, $held:ident => $edit:expr) => {{
        let Some(mut $held) = $handle.take($alloc) else {
            return $crate::status::$none;
        };
        let status = $edit;
        $handle.put($held);
        status
    }};
}

pub(crate) use allocated;
pub(crate) use breaks_for;
pub(crate) use edit;
pub(crate) use held;
pub(crate) use held_changes;
pub(crate) use ok_or;
pub(crate) use some_or;
pub(crate) use utf8_text;
