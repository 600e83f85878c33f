//! A value's tokens, written after those that a writer has.
ghost use Rattle.std.specs.Prelude.{◌≡◌, ◌++◌, ◌∷◌, [], OnOk};
ghost use Rattle.std.specs.Fmt.{signed_decimal};
ghost use Rattle.json.specs.Lex.{tokens};
ghost use Rattle.json.specs.Print.{ArePrintable};
ghost use Rattle.json.specs.Token.{number as number_token};
ghost use Rattle.serde_json.specs.View.{view};
ghost use Rattle.serde_json.specs.Written.{unless_float};
ghost use Rattle.litemap_json.specs.Written.{WritesTree};

use json::{Reader, Scratch, Writer};
use serde_json::Value;
use std::alloc::{AllocError, Global};

/// Appends a JSON value to what a writer has. Only `null`, an array, an object and a float take memory beside the writer's:
/// their text is made first.
///
/// If memory runs out, some of the value may be written.
pub fn write_value(alloc: Global, value: &Value, out: &mut Writer) -> Result<(), AllocError>
    ensures tree { OnOk result (WritesTree (view value.now) out.old.tokens out.new.tokens) }
    ensures before { out.new.before ≡ out.old.before }
{
    if let Some(text) = value.as_str() {
        return out.string(text);
    }
    if let Some(flag) = value.as_bool() {
        return out.boolean(flag);
    }
    if let Some(number) = value.as_u64() {
        return out.u64(number);
    }
    if let Some(number) = value.as_i64() {
        return write_signed(number, out);
    }
    let text = value.to_string(alloc)?;
    write_tokens(alloc, text.as_str(), out)
}

// Writes a negative integer, whose digits aren't a float's.
fn write_signed(number: i64, out: &mut Writer) -> Result<(), AllocError>
    ensures token { OnOk result (out.new.tokens ≡ out.old.tokens ++ number_token (signed_decimal number) ∷ []) }
    ensures kept { unless_float (signed_decimal number) ≡ signed_decimal number }
    ensures before { out.new.before ≡ out.old.before }
{
    out.i64(number)
}

// Appends the tokens of a JSON text. What `to_string` of a value prints has no token that a writer rejects.
fn write_tokens(alloc: Global, text: &str, out: &mut Writer) -> Result<(), AllocError>
    requires { ArePrintable (tokens text.now) }
    ensures tokens { OnOk result (out.new.tokens ≡ out.old.tokens ++ tokens text.now) }
    ensures before { out.new.before ≡ out.old.before }
{
    let mut scratch = Scratch::new(alloc);
    let mut reader = Reader::new(text, &mut scratch)?;
    while let Some(token) = reader.next() {
        out.token(token)?;
    }
    Ok(())
}
