//! The values that serde_json reads of texts.

ghost use Rattle.std.specs.Prelude.{◌≡◌, option_map, IfOk, IfErr, IsErr, OnErr, IsUtf8, Ok, Some, None};
ghost use Rattle.serde_json.specs.Errors.{IsMemory};
ghost use Rattle.serde_json.specs.View.{view};
ghost use Rattle.ynl_fields.specs.Reading.{reading};

use serde_json::{Error, Value};
use std::alloc::{AllocError, Global};

/// What reading JSON told: the value, or that the bytes are the text of none. It takes no memory, so
/// want of memory is told only where reading met it.
fn found(read: Result<Value, Error>) -> Result<Option<Value>, AllocError>
    ensures value { IfOk read (λ value. result ≡ Ok (Some value)) }
    ensures none { IfErr read (λ e. ¬ IsMemory e → result ≡ Ok None) }
    ensures memory { IfErr read (λ e. IsMemory e → IsErr result) }
{
    match read {
        Ok(value) => Ok(Some(value)),
        Err(e) => {
            if e.is_memory() {
                return Err(AllocError);
            }
            Ok(None)
        }
    }
}

/// The value that the bytes are, if they are the text of one. Only a text takes memory.
pub fn parse(alloc: Global, bytes: &[u8]) -> Result<Option<Value>, AllocError>
    ensures value { IfOk result (λ found. option_map view found ≡ reading bytes.now) }
    ensures text { OnErr result (IsUtf8 bytes.now) }
{
    match str::from_utf8(bytes) {
        Ok(text) => found(Value::from_str(alloc, text)),
        Err(_) => Ok(None),
    }
}
